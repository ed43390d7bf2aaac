//! Arguments get row terms.
ghost use Rattle.std.specs.Prelude.{◌≡◌, ◌-◌, ◌^◌, option_map, IfOk, IfSome, Some};
ghost use Rattle.mapping_facts.specs.Fits.{TargetFits, TermFits};
ghost use Rattle.mapping_unfolding.specs.Drafts.{AreWhole, Puts, PutsAtom, PutsNext, PutsVar, bind as bound_to, lookup, restricted};
ghost use Rattle.mapping_unfolding.specs.Equating.{IsWhole};
ghost use Rattle.mapping_unfolding.specs.Shifts.{shifted_term};

use crate::draft::{Binding, Draft};
use crate::equate::{equate, equate_constant};
use crate::shift::shift_term;
use mapping_facts::{Condition, RowTerm, Target};
use queries::{Arg, Atom};
use std::alloc::{AllocError, Global};
use vocabulary::{List, VarId};

/// The row term of a variable.
pub fn find(var: VarId, bound: &[Binding]) -> Option<&RowTerm>
    ensures { option_map (λ r. r.now) result ≡ lookup var bound.now }
{
    for binding in bound {
        if binding.var.0 == var.0 {
            return Some(&binding.term);
        }
    }
    None
}

fn bind(draft: Draft, var: VarId, term: RowTerm) -> Result<Draft, AllocError>
    ensures { IfOk result (λ d. d ≡ bound_to var term draft) }
{
    let mut draft = draft;
    draft.bound.push(Binding { var, term })?;
    Ok(draft)
}

fn add_conditions(draft: Draft, more: List<Condition>) -> Result<Draft, AllocError>
    ensures { IfOk result (λ d. d ≡ restricted draft more) }
{
    let mut draft = draft;
    for condition in more.into_vec() {
        draft.query.conditions.push(condition)?;
    }
    Ok(draft)
}

fn restrict(draft: Draft, more: Option<List<Condition>>) -> Result<Option<Draft>, AllocError>
    ensures { IfOk result (λ o. o ≡ option_map (restricted draft) more) }
{
    match more {
        Some(more) => {
            let restricted = add_conditions(draft, more)?;
            Ok(Some(restricted))
        }
        None => Ok(None),
    }
}

// A further occurrence is equal to the first; without one the row term is the first.
fn put_var(
    alloc: Global,
    var: VarId,
    term: &RowTerm,
    draft: Draft,
) -> Result<Option<Draft>, AllocError>
    requires whole { IsWhole term.now }
    requires bound { AreWhole draft }
    ensures puts { IfOk result (λ o. PutsVar var term.now draft (lookup var draft.bound) o) }
    ensures whole { IfOk result (λ o. IfSome o AreWhole) }
{
    match find(var, draft.bound.items()) {
        Some(first) => {
            let more = equate(alloc, first, term)?;
            restrict(draft, more)
        }
        None => {
            let copy = term.copy(alloc)?;
            let bound = bind(draft, var, copy)?;
            Ok(Some(bound))
        }
    }
}

fn put(alloc: Global, arg: &Arg, term: &RowTerm, draft: Draft) -> Result<Option<Draft>, AllocError>
    requires whole { IsWhole term.now }
    requires bound { AreWhole draft }
    ensures puts { IfOk result (λ o. Puts arg.now term.now draft o) }
    ensures whole { IfOk result (λ o. IfSome o AreWhole) }
{
    match arg {
        Arg::Blank => Ok(Some(draft)),
        Arg::Var(var) => put_var(alloc, *var, term, draft),
        Arg::Fixed(constant) => {
            let more = equate_constant(alloc, constant, term)?;
            restrict(draft, more)
        }
    }
}

fn put_shifted(
    alloc: Global,
    n: u32,
    arg: &Arg,
    term: &RowTerm,
    draft: Draft,
) -> Result<Option<Draft>, AllocError>
    requires fits { TermFits (2 ^ 32 - n) term.now }
    requires bound { AreWhole draft }
    ensures puts { IfOk result (λ o. Puts arg.now (shifted_term n term.now) draft o) }
    ensures whole { IfOk result (λ o. IfSome o AreWhole) }
{
    let shifted = shift_term(alloc, n, term)?;
    put(alloc, arg, &shifted, draft)
}

fn put_next(
    alloc: Global,
    n: u32,
    arg: &Arg,
    term: &RowTerm,
    before: Option<Draft>,
) -> Result<Option<Draft>, AllocError>
    requires fits { TermFits (2 ^ 32 - n) term.now }
    requires bound { IfSome before AreWhole }
    ensures puts { IfOk result (λ o. PutsNext arg.now (shifted_term n term.now) before o) }
    ensures whole { IfOk result (λ o. IfSome o AreWhole) }
{
    match before {
        Some(draft) => put_shifted(alloc, n, arg, term, draft),
        None => Ok(None),
    }
}

/// An atom gets a target whose tables stand behind n others; none where they do not agree.
pub fn put_atom(
    alloc: Global,
    n: u32,
    atom: &Atom,
    target: &Target,
    draft: Draft,
) -> Result<Option<Draft>, AllocError>
    requires fits { TargetFits (2 ^ 32 - n) target.now }
    requires bound { AreWhole draft }
    ensures puts { IfOk result (λ o. PutsAtom atom.now target.now n draft o) }
    ensures whole { IfOk result (λ o. IfSome o AreWhole) }
{
    match (atom, target) {
        (Atom::InClass(class, x), Target::InClass(given, term)) => {
            if class.0 == given.0 {
                put_shifted(alloc, n, x, term, draft)
            } else {
                Ok(None)
            }
        }
        (Atom::Linked(link, x, y), Target::Linked(given, first, second)) => {
            if link.0 == given.0 {
                let before = put_shifted(alloc, n, x, first, draft)?;
                put_next(alloc, n, y, second, before)
            } else {
                Ok(None)
            }
        }
        _ => Ok(None),
    }
}
