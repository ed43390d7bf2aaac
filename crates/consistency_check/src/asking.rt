//! What is asked of the tables for a source.
ghost use Rattle.std.specs.Prelude.{◌≡◌, ◌≤◌, [], length, All, IfOk};
ghost use Rattle.mapping_facts.specs.Fits.{RowQueryFits, TermFits};
ghost use Rattle.queries.specs.Occurrences.{HeadStands};
ghost use Rattle.consistency_check.specs.Asking.{apart_query, basic_atom, link_atom, pair_of, row_side, side_same, source_atoms, source_head, source_query};

use dllite_axioms::Basic;
use mapping_facts::{RowQuery, RowTerm};
use negative_closure::Source;
use queries::{Arg, Atom, Query};
use std::alloc::{AllocError, Global};
use vocabulary::{Dir, LinkId, List, Side, VarId};

fn link_atom(link: LinkId, dir: Dir, other: u32) -> Atom
    ensures { result ≡ link_atom link dir other }
{
    let near = Arg::Var(VarId(0));
    let far = Arg::Var(VarId(other));
    match dir {
        Dir::Fwd => Atom::Linked(link, near, far),
        Dir::Back => Atom::Linked(link, far, near),
    }
}

fn basic_atom(basic: Basic, other: u32) -> Atom
    ensures { result ≡ basic_atom basic other }
{
    match basic {
        Basic::Class(class) => Atom::InClass(class, Arg::Var(VarId(0))),
        Basic::Has(link, dir) => link_atom(link, dir, other),
    }
}

fn source_atoms(alloc: Global, source: &Source) -> Result<List<Atom>, AllocError>
    ensures { IfOk result (λ atoms. atoms ≡ source_atoms source.now) }
{
    let mut atoms = List::new(alloc);
    match *source {
        Source::One(basic) => atoms.push(basic_atom(basic, 1))?,
        Source::Two(first, second) => {
            atoms.push(basic_atom(first, 1))?;
            atoms.push(basic_atom(second, 2))?;
        }
        Source::TwoFillers(link, dir) => {
            atoms.push(link_atom(link, dir, 1))?;
            atoms.push(link_atom(link, dir, 2))?;
        }
        Source::TwoLinks(one, dir, two) => {
            atoms.push(link_atom(one, Dir::Fwd, 1))?;
            atoms.push(link_atom(two, dir, 1))?;
        }
    }
    Ok(atoms)
}

// The terms that have to differ.
fn source_head(alloc: Global, source: &Source) -> Result<List<Arg>, AllocError>
    ensures { IfOk result (λ head. head ≡ source_head source.now) }
{
    let mut head = List::new(alloc);
    if let Source::TwoFillers(_, _) = source {
        head.push(Arg::Var(VarId(1)))?;
        head.push(Arg::Var(VarId(2)))?;
    }
    Ok(head)
}

/// The query whose matches are the facts that meet the source.
pub(crate) fn source_query(alloc: Global, source: &Source) -> Result<Query, AllocError>
    ensures { IfOk result (λ query. query ≡ source_query source.now) }
{
    let head = source_head(alloc, source)?;
    let atoms = source_atoms(alloc, source)?;
    Ok(Query { head, atoms })
}

fn row_side(term: &RowTerm) -> Side
    ensures { result ≡ row_side term.now }
{
    match term {
        RowTerm::Iri(_, _) => Side::Object,
        RowTerm::Cell(kind, _) => Side::Value(*kind),
        RowTerm::Fixed(term) => Side::of(term),
    }
}

fn side_same(a: Side, b: Side) -> bool
    ensures { result ≡ side_same a b }
{
    match (a, b) {
        (Side::Object, Side::Object) => true,
        (Side::Value(k), Side::Value(l)) => k == l,
        _ => false,
    }
}

fn pair_of(alloc: Global, head: &[RowTerm]) -> Result<List<(RowTerm, RowTerm)>, AllocError>
    ensures { IfOk result (λ pairs. pairs ≡ pair_of head.now) }
{
    let mut pairs = List::new(alloc);
    if let [first, second] = head {
        if side_same(row_side(first), row_side(second)) {
            let first = first.copy(alloc)?;
            pairs.push((first, second.copy(alloc)?))?;
        }
    }
    Ok(pairs)
}

fn copy_all(alloc: Global, terms: &[RowTerm]) -> Result<List<RowTerm>, AllocError>
    ensures { IfOk result (λ copies. copies ≡ terms.now) }
{
    let mut copies = List::new(alloc);
    for term in terms {
        copies.push(term.copy(alloc)?)?;
    }
    Ok(copies)
}

/// The row query at whose tuples the two terms of the head, if it has two, differ.
pub(crate) fn apart_query(alloc: Global, rows: &RowQuery) -> Result<RowQuery, AllocError>
    ensures { IfOk result (λ query. query ≡ apart_query rows.now) }
{
    let query = rows.query.copy(alloc)?;
    let apart = pair_of(alloc, rows.head.items())?;
    let head = copy_all(alloc, rows.head.items())?;
    Ok(RowQuery { query, apart, head })
}
