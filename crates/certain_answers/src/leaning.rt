//! Queries without what they ask for anyway.
ghost use Rattle.std.specs.Prelude.{◌≡◌, IfOk, IsTrue, OnOk};
ghost use Rattle.vocabulary.specs.Lists.{In};
ghost use Rattle.dllite_axioms.specs.Chains.{Chain};
ghost use Rattle.dllite_axioms.specs.declared.axioms.Basic.TheVariants.{Class, Has};
ghost use Rattle.certain_answers.specs.Lean.{AllLean, AreLean, Asks, IsAsked, IsLean, SomeAsks, Treats};

use dllite_axioms::Basic;
use negative_closure::Downs;
use queries::{Arg, Atom, Query};
use std::alloc::{AllocError, Global};
use vocabulary::{ClassId, Dir, LinkId, List};

fn is_same(x: &Arg, y: &Arg) -> bool
    ensures { IsTrue result → x.now ≡ y.now }
{
    match (x, y) {
        (Arg::Var(v), Arg::Var(w)) => v.0 == w.0,
        (Arg::Fixed(t), Arg::Fixed(u)) => t.same(u),
        _ => false,
    }
}

fn has_end(link: LinkId, dir: Dir, basics: &[Basic]) -> bool
    ensures { IsTrue result → In (Has link dir) basics.now }
{
    for basic in basics {
        if is_end(link, dir, *basic) {
            return true;
        }
    }
    false
}

fn is_end(link: LinkId, dir: Dir, basic: Basic) -> bool
    ensures { IsTrue result → basic ≡ Has link dir }
{
    match basic {
        Basic::Class(_) => false,
        Basic::Has(other, at) => other.0 == link.0 && at == dir,
    }
}

fn is_below(downs: &Downs, link: LinkId, dir: Dir, class: ClassId) -> bool
    ensures { IsTrue result → Chain downs.now.axioms (Has link dir) (Class class) }
{
    class.0 < downs.classes() && has_end(link, dir, downs.below(Basic::Class(class)))
}

fn asks_at(downs: &Downs, link: LinkId, dir: Dir, x: &Arg, class: ClassId, arg: &Arg) -> bool
    ensures { IsTrue result → (x.now ≡ arg.now) × Chain downs.now.axioms (Has link dir) (Class class) }
{
    is_same(x, arg) && is_below(downs, link, dir, class)
}

fn asks(downs: &Downs, atom: &Atom, class: ClassId, arg: &Arg) -> bool
    ensures { IsTrue result → Asks downs.now.axioms atom.now class arg.now }
{
    match atom {
        Atom::InClass(_, _) => false,
        Atom::Linked(link, x, y) => {
            asks_at(downs, *link, Dir::Fwd, x, class, arg)
                || asks_at(downs, *link, Dir::Back, y, class, arg)
        }
    }
}

fn some_asks(downs: &Downs, atoms: &[Atom], class: ClassId, arg: &Arg) -> bool
    ensures { IsTrue result → SomeAsks downs.now.axioms atoms.now class arg.now }
{
    for atom in atoms {
        if asks(downs, atom, class, arg) {
            return true;
        }
    }
    false
}

fn is_asked(downs: &Downs, atoms: &[Atom], atom: &Atom) -> bool
    ensures { IsTrue result → IsAsked downs.now.axioms atoms.now atom.now }
{
    match atom {
        Atom::InClass(class, arg) => some_asks(downs, atoms, *class, arg),
        Atom::Linked(_, _, _) => false,
    }
}

fn lean_atoms(alloc: Global, downs: &Downs, atoms: &[Atom]) -> Result<List<Atom>, AllocError>
    ensures { IfOk result (AreLean downs.now.axioms atoms.now atoms.now) }
{
    let mut lean = List::new(alloc);
    for atom in atoms {
        push_lean(alloc, downs, atoms, atom, &mut lean)?;
    }
    Ok(lean)
}

fn push_lean(
    alloc: Global,
    downs: &Downs,
    atoms: &[Atom],
    atom: &Atom,
    lean: &mut List<Atom>,
) -> Result<(), AllocError>
    ensures { OnOk result (Treats downs.now.axioms atoms.now atom.now lean.old lean.new) }
{
    if !is_asked(downs, atoms, atom) {
        lean.push(atom.copy(alloc)?)?;
    }
    Ok(())
}

fn lean(alloc: Global, downs: &Downs, query: &Query) -> Result<Query, AllocError>
    ensures { IfOk result (IsLean downs.now.axioms query.now) }
{
    let atoms = lean_atoms(alloc, downs, query.atoms.items())?;
    let Query { head, atoms: _ } = query.copy(alloc)?;
    Ok(Query { head, atoms })
}

/// The queries without class atoms that one of their link atoms asks for anyway, since what has the
/// link has the class. In facts that hold the known facts of their chase they have the same images.
pub(crate) fn all_lean(
    alloc: Global,
    downs: &Downs,
    queries: &[Query],
) -> Result<List<Query>, AllocError>
    ensures { IfOk result (AllLean downs.now.axioms queries.now) }
{
    let mut leans = List::new(alloc);
    for query in queries {
        leans.push(lean(alloc, downs, query)?)?;
    }
    Ok(leans)
}
