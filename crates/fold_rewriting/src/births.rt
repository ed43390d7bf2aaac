//! Which births give an atom.
ghost use Rattle.std.specs.Prelude.{◌≡◌, ◌↔◌, ◌<◌, IsTrue, IfOk, filter_map};
ghost use Rattle.std.specs.List.{list_any};
ghost use Rattle.vocabulary.specs.Lists.{In};
ghost use Rattle.vocabulary.specs.declared.ids.LinkId.{LinkId as LinkOf};
ghost use Rattle.vocabulary.specs.declared.ids.Dir.{Dir as DirOf};
ghost use Rattle.dllite_axioms.specs.Basics.{other, turn};
ghost use Rattle.dllite_axioms.specs.Chains.{Chain, Under};
ghost use Rattle.dllite_axioms.specs.Within.{IsAxiomWithin};
ghost use Rattle.dllite_axioms.specs.declared.axioms.Axiom.{Axiom as AxiomOf};
ghost use Rattle.dllite_axioms.specs.declared.axioms.Basic.TheVariants.{Class, Has};
ghost use Rattle.queries.specs.declared.query.Atom.{Atom as AtomOf};
ghost use Rattle.negative_closure.specs.Chains.{NoneTwice};
ghost use Rattle.fold_rewriting.specs.Births.{birth_to, is_birth_to, same_end};
ghost use Rattle.fold_rewriting.specs.Found.{AreBorn, IsPart};
ghost use Rattle.fold_rewriting.specs.Places.{IsBorn};

use crate::atoms::is_var;
use dllite_axioms::Basic;
use negative_closure::Downs;
use queries::{Arg, Atom, Query};
use std::alloc::{AllocError, Global};
use vocabulary::{ClassId, Dir, LinkId, List, VarId};

/// The births that give an atom, with the fresh term at this end.
pub(crate) fn births_of(
    alloc: Global,
    downs: &Downs,
    atom: &Atom,
    end: Dir,
) -> Result<List<(LinkId, Dir)>, AllocError>
    requires within { (a : AxiomOf) → In a downs.now.axioms → IsAxiomWithin downs.now.classes downs.now.links a }
    ensures all { IfOk result (λ l. (p : LinkOf) (d : DirOf) → p.0 < downs.now.links → IsBorn downs.now.axioms p d atom.now end → In (p, d) l) }
    ensures within { IfOk result (λ l. (p : LinkOf) (d : DirOf) → In (p, d) l → p.0 < downs.now.links) }
    ensures once { IfOk result NoneTwice }
{
    match atom {
        Atom::InClass(class, _) => births_into(alloc, downs, *class),
        Atom::Linked(link, _, _) => births_at(alloc, downs, *link, end),
    }
}

// The births whose fresh term is in the class.
fn births_into(
    alloc: Global,
    downs: &Downs,
    class: ClassId,
) -> Result<List<(LinkId, Dir)>, AllocError>
    requires within { (a : AxiomOf) → In a downs.now.axioms → IsAxiomWithin downs.now.classes downs.now.links a }
    ensures all { IfOk result (λ l. (p : LinkOf) (d : DirOf) → Chain downs.now.axioms (Has p (other d)) (Class class) → In (p, d) l) }
    ensures within { IfOk result (λ l. (p : LinkOf) (d : DirOf) → In (p, d) l → p.0 < downs.now.links) }
    ensures once { IfOk result NoneTwice }
{
    if class.0 < downs.classes() {
        births_to(alloc, downs.below(Basic::Class(class)))
    } else {
        Ok(List::new(alloc))
    }
}

fn births_to(alloc: Global, basics: &[Basic]) -> Result<List<(LinkId, Dir)>, AllocError>
    ensures { IfOk result (λ l. l ≡ filter_map birth_to basics.now) }
{
    let mut births = List::new(alloc);
    for basic in basics {
        if let Basic::Has(link, dir) = *basic {
            births.push((link, opposite(dir)))?;
        }
    }
    Ok(births)
}

fn opposite(dir: Dir) -> Dir
    ensures { result ≡ other dir }
{
    match dir {
        Dir::Fwd => Dir::Back,
        Dir::Back => Dir::Fwd,
    }
}

// The births that give the link, with the fresh term at this end.
fn births_at(
    alloc: Global,
    downs: &Downs,
    link: LinkId,
    end: Dir,
) -> Result<List<(LinkId, Dir)>, AllocError>
    requires within { (a : AxiomOf) → In a downs.now.axioms → IsAxiomWithin downs.now.classes downs.now.links a }
    ensures all { IfOk result (λ l. (p : LinkOf) (d : DirOf) → p.0 < downs.now.links → Under downs.now.axioms p (turn d end) link → In (p, d) l) }
    ensures within { IfOk result (λ l. (p : LinkOf) (d : DirOf) → In (p, d) l → p.0 < downs.now.links) }
    ensures once { IfOk result NoneTwice }
{
    if link.0 < downs.links() {
        let births = Vec::from_slice(alloc, downs.under(link, end))?;
        Ok(List::from_vec(births))
    } else {
        Ok(List::new(alloc))
    }
}

/// Whether the birth gives each atom of the argument that stands at this end of the atom, with the
/// fresh term in its place.
pub(crate) fn are_born(
    downs: &Downs,
    query: &Query,
    birth: (LinkId, Dir),
    atom: &Atom,
    end: Dir,
    arg: &Arg,
) -> bool
    requires within { (a : AxiomOf) → In a downs.now.axioms → IsAxiomWithin downs.now.classes downs.now.links a }
    requires link { birth.0.0 < downs.now.links }
    ensures { IsTrue result ↔ AreBorn downs.now.axioms birth.0 birth.1 query.now atom.now end arg.now }
{
    match arg {
        Arg::Blank => is_born(downs, birth, atom, end),
        Arg::Var(v) => are_parts(downs, birth, *v, query.atoms.items()),
        Arg::Fixed(_) => false,
    }
}

fn are_parts(downs: &Downs, birth: (LinkId, Dir), v: VarId, atoms: &[Atom]) -> bool
    requires within { (a : AxiomOf) → In a downs.now.axioms → IsAxiomWithin downs.now.classes downs.now.links a }
    requires link { birth.0.0 < downs.now.links }
    ensures { IsTrue result ↔ ((b : AtomOf) → In b atoms.now → IsPart downs.now.axioms birth.0 birth.1 v b) }
{
    for atom in atoms {
        if !is_part(downs, birth, v, atom) {
            return false;
        }
    }
    true
}

// Whether the variable is not in the atom, or is at one end, and the birth gives the atom with the
// fresh term there.
fn is_part(downs: &Downs, birth: (LinkId, Dir), v: VarId, atom: &Atom) -> bool
    requires within { (a : AxiomOf) → In a downs.now.axioms → IsAxiomWithin downs.now.classes downs.now.links a }
    requires link { birth.0.0 < downs.now.links }
    ensures { IsTrue result ↔ IsPart downs.now.axioms birth.0 birth.1 v atom.now }
{
    match atom {
        Atom::InClass(class, x) => !is_var(v, x) || is_into(downs, birth, *class),
        Atom::Linked(link, x, y) => match (is_var(v, x), is_var(v, y)) {
            (false, false) => true,
            (true, false) => is_at(downs, birth, *link, Dir::Back),
            (false, true) => is_at(downs, birth, *link, Dir::Fwd),
            (true, true) => false,
        },
    }
}

// Whether the birth gives the atom with the fresh term at this end.
fn is_born(downs: &Downs, birth: (LinkId, Dir), atom: &Atom, end: Dir) -> bool
    requires within { (a : AxiomOf) → In a downs.now.axioms → IsAxiomWithin downs.now.classes downs.now.links a }
    requires link { birth.0.0 < downs.now.links }
    ensures { IsTrue result ↔ IsBorn downs.now.axioms birth.0 birth.1 atom.now end }
{
    match atom {
        Atom::InClass(class, _) => is_into(downs, birth, *class),
        Atom::Linked(link, _, _) => is_at(downs, birth, *link, end),
    }
}

// Whether the birth has its fresh term in the class.
fn is_into(downs: &Downs, birth: (LinkId, Dir), class: ClassId) -> bool
    requires within { (a : AxiomOf) → In a downs.now.axioms → IsAxiomWithin downs.now.classes downs.now.links a }
    ensures { IsTrue result ↔ Chain downs.now.axioms (Has birth.0 (other birth.1)) (Class class) }
{
    class.0 < downs.classes() && is_among(birth, downs.below(Basic::Class(class)))
}

fn is_among(birth: (LinkId, Dir), basics: &[Basic]) -> bool
    ensures { result ≡ list_any (is_birth_to birth) basics.now }
{
    basics.iter().any(|basic| is_birth_to(birth, *basic))
}

fn is_birth_to(birth: (LinkId, Dir), basic: Basic) -> bool
    ensures { result ≡ is_birth_to birth basic }
{
    match basic {
        Basic::Class(_) => false,
        Basic::Has(link, dir) => is_same_end(birth, (link, opposite(dir))),
    }
}

// Whether the birth gives the link with the fresh term at this end.
fn is_at(downs: &Downs, birth: (LinkId, Dir), link: LinkId, end: Dir) -> bool
    requires within { (a : AxiomOf) → In a downs.now.axioms → IsAxiomWithin downs.now.classes downs.now.links a }
    requires link { birth.0.0 < downs.now.links }
    ensures { IsTrue result ↔ Under downs.now.axioms birth.0 (turn birth.1 end) link }
{
    link.0 < downs.links() && is_one_of(birth, downs.under(link, end))
}

fn is_one_of(birth: (LinkId, Dir), ends: &[(LinkId, Dir)]) -> bool
    ensures { result ≡ list_any (same_end birth) ends.now }
{
    ends.iter().any(|end| is_same_end(birth, *end))
}

fn is_same_end(a: (LinkId, Dir), b: (LinkId, Dir)) -> bool
    ensures { result ≡ same_end a b }
{
    match (a, b) {
        ((p, Dir::Fwd), (q, Dir::Fwd)) => p.0 == q.0,
        ((p, Dir::Back), (q, Dir::Back)) => p.0 == q.0,
        _ => false,
    }
}
