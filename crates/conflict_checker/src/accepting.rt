//! When a derivation is accepted.
ghost use Rattle.std.specs.Prelude.{◌≡◌, ◌↔◌, ◌==◌, IsTrue, IfOk};
ghost use Rattle.mapping_facts.specs.Fits.{AreFit};
ghost use Rattle.conflict_checker.specs.ClashLengths.{clash_length};
ghost use Rattle.conflict_checker.specs.Derivations.{EndsClash, IsAccepted, items_at};

use crate::Derivation;
use crate::stepping::{facts, item};
use dllite_axioms::{Constraint, Tbox, clash};
use mapping_facts::Mapping;
use source_tables::Table;
use std::alloc::{AllocError, Global};
use vocabulary::{Fact, List};

// Copies of the facts of these numbers, which count from 1.
fn facts_at(
    alloc: Global,
    facts: &[Fact],
    numbers: &[u32],
) -> Result<Option<List<Fact>>, AllocError>
    ensures { IfOk result (λ found. found ≡ items_at facts.now numbers.now) }
{
    let mut found = List::new(alloc);
    for number in numbers {
        match item(facts, *number) {
            Some(fact) => found.push(fact.copy(alloc)?)?,
            None => return Ok(None),
        }
    }
    Ok(Some(found))
}

// Whether so many facts may clash under the constraint.
fn is_clash_length(constraint: &Constraint, count: usize) -> bool
    ensures { result ≡ (count == clash_length constraint.now) }
{
    match constraint {
        Constraint::Identified(_, links) => {
            count >= 2 && count % 2 == 0 && count / 2 - 1 == links.len()
        }
        _ => count == 2,
    }
}

// Whether the facts of these numbers clash. A text may name any number of them, so they are counted
// before they are copied: a fact may be some thousand terms deep.
fn are_clashing(
    alloc: Global,
    constraint: &Constraint,
    facts: &[Fact],
    ends: &[u32],
) -> Result<bool, AllocError>
    ensures { IfOk result (λ clashing. IsTrue clashing ↔ EndsClash constraint.now facts.now ends.now) }
{
    if !is_clash_length(constraint, ends.len()) {
        return Ok(false);
    }
    match facts_at(alloc, facts, ends)? {
        Some(found) => Ok(clash(constraint, found.items())),
        None => Ok(false),
    }
}

/// Whether every step has its fact, and the facts of the named steps, in the named order, clash under
/// the constraint. A number out of range is refused like any other.
pub fn accepts(
    alloc: Global,
    derivation: &Derivation,
    tbox: &Tbox,
    mappings: &[Mapping],
    tables: &[Table],
) -> Result<bool, AllocError>
    requires { AreFit mappings.now }
    ensures { IfOk result (λ accepted. IsTrue accepted ↔ IsAccepted tbox.now mappings.now tables.now derivation.now) }
{
    let Some(constraint) = item(tbox.constraints(), derivation.constraint) else {
        return Ok(false);
    };
    match facts(alloc, derivation.steps.items(), tbox, mappings, tables)? {
        Some(facts) => are_clashing(alloc, constraint, facts.items(), derivation.ends.items()),
        None => Ok(false),
    }
}
