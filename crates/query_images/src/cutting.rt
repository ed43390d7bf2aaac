//! A query cut in two: one of its atoms, and the others.
ghost use Rattle.std.specs.Prelude.{◌≡◌, ◌↔◌, ◌⊎◌, ◌≤◌, ◌<◌, ◌+◌, ◌∷◌, [], IfOk, OnOk, IsTrue, get_or, length, map};
ghost use Rattle.vocabulary.specs.Lists.{In};
ghost use Rattle.vocabulary.specs.declared.ids.VarId.{VarId as VarIdOf};
ghost use Rattle.queries.specs.declared.query.Arg.{Arg as ArgOf};
ghost use Rattle.queries.specs.declared.query.Atom.{Atom as AtomOf};
ghost use Rattle.queries.specs.declared.query.Query.{Query as QueryOf};
ghost use Rattle.queries.specs.Occurrences.{HeadStands, atom_occurs, count};
ghost use Rattle.query_images.specs.Cuts.{AreShared, HasAllVariables, IsCut, IsNeeded};

use queries::{Arg, Atom, Query};
use relation_join::Sides;
use std::alloc::{AllocError, Global};
use vocabulary::{List, VarId};

/// The parts of a query, the variables of each that the other or the head needs, and its head.
#[derive(Drop)]
pub(crate) struct Cut {
    pub one: Query,
    pub rest: Query,
    pub sides: Sides,
}

fn is_var(arg: &Arg, var: VarId) -> bool
    ensures { IsTrue result ↔ (arg.now ≡ ArgOf.Var var) }
{
    match arg {
        Arg::Var(other) => other.0 == var.0,
        Arg::Blank | Arg::Fixed(_) => false,
    }
}

fn has_var(atom: &Atom, var: VarId) -> bool
    ensures { IsTrue result ↔ (1 ≤ atom_occurs var atom.now) }
{
    match atom {
        Atom::InClass(_, x) => is_var(x, var),
        Atom::Linked(_, x, y) => is_var(x, var) || is_var(y, var),
    }
}

fn some_have(atoms: &[Atom], var: VarId) -> bool
    ensures { IsTrue result ↔ (1 ≤ count var atoms.now) }
{
    for atom in atoms {
        if has_var(atom, var) {
            return true;
        }
    }
    false
}

fn head_has(head: &[Arg], var: VarId) -> bool
    ensures { IsTrue result ↔ In (ArgOf.Var var) head.now }
{
    for arg in head {
        if is_var(arg, var) {
            return true;
        }
    }
    false
}

fn stands_in(vars: &[VarId], var: VarId) -> bool
    ensures { IsTrue result ↔ In var vars.now }
{
    for other in vars {
        if other.0 == var.0 {
            return true;
        }
    }
    false
}

fn is_needed(others: &[Atom], head: &[Arg], var: VarId) -> bool
    ensures { IsTrue result ↔ IsNeeded others.now head.now var }
{
    head_has(head, var) || some_have(others, var)
}

// Adds the variable, if it is needed and not there.
fn note(var: VarId, others: &[Atom], head: &[Arg], vars: &mut List<VarId>) -> Result<(), AllocError>
    ensures { OnOk result ((v : VarIdOf) → In v vars.new ↔ (In v vars.old ⊎ ((v ≡ var) × IsNeeded others.now head.now v))) }
{
    if is_needed(others, head, var) && !stands_in(vars.items(), var) {
        vars.push(var)?;
    }
    Ok(())
}

fn note_arg(
    arg: &Arg,
    others: &[Atom],
    head: &[Arg],
    vars: &mut List<VarId>,
) -> Result<(), AllocError>
    ensures { OnOk result ((v : VarIdOf) → In v vars.new ↔ (In v vars.old ⊎ ((arg.now ≡ ArgOf.Var v) × IsNeeded others.now head.now v))) }
{
    match arg {
        Arg::Var(var) => note(*var, others, head, vars),
        Arg::Blank | Arg::Fixed(_) => Ok(()),
    }
}

fn note_atom(
    atom: &Atom,
    others: &[Atom],
    head: &[Arg],
    vars: &mut List<VarId>,
) -> Result<(), AllocError>
    ensures { OnOk result ((v : VarIdOf) → In v vars.new ↔ (In v vars.old ⊎ ((1 ≤ atom_occurs v atom.now) × IsNeeded others.now head.now v))) }
{
    match atom {
        Atom::InClass(_, x) => note_arg(x, others, head, vars),
        Atom::Linked(_, x, y) => {
            note_arg(x, others, head, vars)?;
            note_arg(y, others, head, vars)
        }
    }
}

// The variables of some atoms that the others or the head need.
fn shared(
    alloc: Global,
    own: &[Atom],
    others: &[Atom],
    head: &[Arg],
) -> Result<List<VarId>, AllocError>
    ensures { IfOk result (λ vars. AreShared own.now others.now head.now vars) }
{
    let mut vars = List::new(alloc);
    for atom in own {
        note_atom(atom, others, head, &mut vars)?;
    }
    Ok(vars)
}

// The query for these variables of these atoms.
fn part(alloc: Global, vars: &[VarId], atoms: List<Atom>) -> Result<Query, AllocError>
    ensures head { IfOk result (λ q. q.head ≡ map ArgOf.Var vars.now) }
    ensures atoms { IfOk result (λ q. q.atoms ≡ atoms) }
{
    let mut head = List::new(alloc);
    for var in vars {
        head.push(Arg::Var(*var))?;
    }
    Ok(Query { head, atoms })
}

// The atom of this number, and the others.
fn taken(
    alloc: Global,
    atoms: List<Atom>,
    at: usize,
) -> Result<(List<Atom>, List<Atom>), AllocError>
    requires { at < length atoms }
    ensures same { IfOk result (λ parts. (a : AtomOf) → In a atoms ↔ (In a parts.0 ⊎ In a parts.1)) }
    ensures one { IfOk result (λ parts. length parts.0 ≡ 1) }
    ensures fewer { IfOk result (λ parts. length parts.1 + 1 ≡ length atoms) }
{
    let mut rest = atoms.into_vec();
    let mut one = List::new(alloc);
    one.push(rest.remove(at))?;
    Ok((one, List::from_vec(rest)))
}

fn parts_of(
    alloc: Global,
    head: List<Arg>,
    one: List<Atom>,
    rest: List<Atom>,
) -> Result<Cut, AllocError>
    ensures cut { IfOk result (λ cut. (q : QueryOf) → q.head ≡ head → ((a : AtomOf) → In a q.atoms ↔ (In a one ⊎ In a rest)) → IsCut q cut.one cut.rest cut.sides.vars cut.sides.more) }
    ensures head { IfOk result (λ cut. cut.sides.head ≡ head) }
    ensures first { IfOk result (λ cut. cut.one.atoms ≡ one) }
    ensures second { IfOk result (λ cut. cut.rest.atoms ≡ rest) }
{
    let vars = shared(alloc, one.items(), rest.items(), head.items())?;
    let more = shared(alloc, rest.items(), one.items(), head.items())?;
    let first = part(alloc, vars.items(), one)?;
    let second = part(alloc, more.items(), rest)?;
    Ok(Cut {
        one: first,
        rest: second,
        sides: Sides { vars, more, head },
    })
}

/// The atom of this number apart from the others.
pub(crate) fn cut_at(alloc: Global, query: &Query, at: usize) -> Result<Cut, AllocError>
    requires { at < length query.now.atoms }
    ensures cut { IfOk result (λ cut. IsCut query.now cut.one cut.rest cut.sides.vars cut.sides.more) }
    ensures head { IfOk result (λ cut. cut.sides.head ≡ query.now.head) }
    ensures one { IfOk result (λ cut. length cut.one.atoms ≡ 1) }
    ensures fewer { IfOk result (λ cut. length cut.rest.atoms + 1 ≡ length query.now.atoms) }
{
    let Query { head, atoms } = query.copy(alloc)?;
    let (one, rest) = taken(alloc, atoms, at)?;
    parts_of(alloc, head, one, rest)
}

/// The query of the same atoms for every variable that stands in them, each once. What it answers are
/// the matches of the atoms.
pub fn with_all_variables(alloc: Global, query: &Query) -> Result<Query, AllocError>
    ensures variables { IfOk result (HasAllVariables query.now) }
    ensures stands { IfOk result HeadStands }
{
    let Query { head: _, atoms } = query.copy(alloc)?;
    let vars = shared(alloc, atoms.items(), atoms.items(), &[])?;
    part(alloc, vars.items(), atoms)
}
