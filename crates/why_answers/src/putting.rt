//! Putting steps behind others, each once.
ghost use Rattle.std.specs.Prelude.{◌≡◌, ◌↔◌, ◌+◌, IfOk, IfSome, IsTrue, Some, slice_get};
ghost use Rattle.why_answers.specs.Putting.{Puts, PutsBehind, PutsChain, moved};

use conflict_checker::Step;
use std::alloc::{AllocError, Global};
use vocabulary::List;

fn copy_rows(alloc: Global, rows: &[u32]) -> Result<List<u32>, AllocError>
    ensures { IfOk result (λ l. l ≡ rows.now) }
{
    Ok(List::from_vec(Vec::from_slice(alloc, rows)?))
}

fn are_same_rows(rows: &[u32], others: &[u32]) -> bool
    ensures { IsTrue result ↔ (rows.now ≡ others.now) }
{
    match rows {
        [] => others.is_empty(),
        [row, rows @ ..] => match others {
            [] => false,
            [other, others @ ..] => *row == *other && are_same_rows(rows, others),
        },
    }
}

fn is_same(step: &Step, other: &Step) -> bool
    ensures { IsTrue result ↔ (step.now ≡ other.now) }
{
    match (step, other) {
        (
            Step::Mapped {
                mapping,
                target,
                rows,
            },
            Step::Mapped {
                mapping: m,
                target: t,
                rows: others,
            },
        ) => *mapping == *m && *target == *t && are_same_rows(rows.items(), others.items()),
        (Step::Rule { axiom, step }, Step::Rule { axiom: a, step: s }) => {
            *axiom == *a && *step == *s
        }
        _ => false,
    }
}

fn place_of(steps: &[Step], step: &Step) -> Option<usize>
    ensures { IfSome result (λ at. slice_get steps.now at ≡ Some step.now) }
{
    for at in 0..steps.len() {
        if is_same(&steps[at], step) {
            return Some(at);
        }
    }
    None
}

/// The number of a place, counted from 1. There is no memory for so many steps that it passes a `u32`.
pub fn number_of(place: usize) -> Result<u32, AllocError>
    ensures { IfOk result (λ n. n ≡ place + 1) }
{
    if place < u32::MAX as usize {
        Ok(place as u32 + 1)
    } else {
        Err(AllocError)
    }
}

/// The number of the step, which is put behind the others where it is not among them.
pub fn put_step(steps: &mut List<Step>, step: Step) -> Result<u32, AllocError>
    ensures { IfOk result (λ n. Puts steps.old steps.new step n) }
{
    match place_of(steps.items(), &step) {
        Some(at) => number_of(at),
        None => {
            let at = steps.len();
            steps.push(step)?;
            number_of(at)
        }
    }
}

/// The number of the last of the rules by axioms with these numbers, counted from 0: the first is at
/// the step, each further one at the one before.
pub fn put_chain(steps: &mut List<Step>, chain: &[u32], from: u32) -> Result<u32, AllocError>
    ensures { IfOk result (λ n. PutsChain chain.now from steps.old steps.new n) }
{
    let Some((number, rest)) = chain.split_first() else {
        return Ok(from);
    };
    let axiom = number_of(*number as usize)?;
    let at = put_step(steps, Step::Rule { axiom, step: from })?;
    put_chain(steps, rest, at)
}

fn moved(alloc: Global, step: &Step, from: u32) -> Result<Step, AllocError>
    ensures { IfOk result (λ s. s ≡ moved from step.now) }
{
    match step {
        Step::Mapped {
            mapping,
            target,
            rows,
        } => Ok(Step::Mapped {
            mapping: *mapping,
            target: *target,
            rows: copy_rows(alloc, rows.items())?,
        }),
        Step::Rule { axiom, step: _ } => Ok(Step::Rule {
            axiom: *axiom,
            step: from,
        }),
    }
}

/// The number of the last of the steps, where each rule is at the one before, and the first at the
/// step of this number.
pub fn put_behind(
    alloc: Global,
    steps: &mut List<Step>,
    more: &[Step],
    from: u32,
) -> Result<u32, AllocError>
    ensures { IfOk result (λ n. PutsBehind more.now from steps.old steps.new n) }
{
    let Some((step, rest)) = more.split_first() else {
        return Ok(from);
    };
    let step = moved(alloc, step, from)?;
    let at = put_step(steps, step)?;
    put_behind(alloc, steps, rest, at)
}
