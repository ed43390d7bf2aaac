//! What is asked of the tables.
ghost use Rattle.std.specs.Prelude.{◌≡◌, IfOk};
ghost use Rattle.fact_derivation.specs.Asking.{atom_query, basic_atom, link_atom};

use dllite_axioms::Basic;
use queries::{Arg, Atom, Query};
use std::alloc::{AllocError, Global};
use vocabulary::{Dir, LinkId, List, Term};

/// The basic at the term.
pub(crate) fn basic_atom(alloc: Global, basic: Basic, term: &Term) -> Result<Atom, AllocError>
    ensures { IfOk result (λ atom. atom ≡ basic_atom basic term.now) }
{
    let term = Arg::Fixed(term.copy(alloc)?);
    match basic {
        Basic::Class(class) => Ok(Atom::InClass(class, term)),
        Basic::Has(link, Dir::Fwd) => Ok(Atom::Linked(link, term, Arg::Blank)),
        Basic::Has(link, Dir::Back) => Ok(Atom::Linked(link, Arg::Blank, term)),
    }
}

/// The link between the terms, from the end at which the direction starts.
pub(crate) fn link_atom(
    alloc: Global,
    link: LinkId,
    dir: Dir,
    near: &Term,
    far: &Term,
) -> Result<Atom, AllocError>
    ensures { IfOk result (λ atom. atom ≡ link_atom link dir near.now far.now) }
{
    let near = near.copy(alloc)?;
    let far = far.copy(alloc)?;
    match dir {
        Dir::Fwd => Ok(Atom::Linked(link, Arg::Fixed(near), Arg::Fixed(far))),
        Dir::Back => Ok(Atom::Linked(link, Arg::Fixed(far), Arg::Fixed(near))),
    }
}

/// Whether there is a fact for the atom.
pub(crate) fn atom_query(alloc: Global, atom: &Atom) -> Result<Query, AllocError>
    ensures { IfOk result (λ query. query ≡ atom_query atom.now) }
{
    let mut atoms = List::new(alloc);
    atoms.push(atom.copy(alloc)?)?;
    Ok(Query {
        head: List::new(alloc),
        atoms,
    })
}
