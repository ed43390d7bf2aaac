//! Derivations of several facts, one behind the other.
ghost use Rattle.std.specs.Prelude.{◌≡◌, ◌≤◌, ◌<◌, ◌+◌, ◌++◌, ◌∷◌, ◌^◌, [], List as ListOf, length, map, All, IfOk, OnOk};
ghost use Rattle.vocabulary.specs.Lists.{In};
ghost use Rattle.vocabulary.specs.declared.term.Fact.{Fact as FactOf};
ghost use Rattle.mapping_facts.specs.Fits.{AreFit};
ghost use Rattle.identification_check.specs.Chained.{AreChained, IsDerivable, IsDerived, cited, most_of, shifted};

use crate::Violation;
use conflict_checker::Step;
use fact_derivation::derive;
use mapping_facts::Mapping;
use negative_closure::Downs;
use source_tables::Table;
use std::alloc::{AllocError, Global};
use vocabulary::{Fact, List};

// The step behind so many others.
fn shifted(alloc: Global, step: &Step, before: u32) -> Result<Step, AllocError>
    requires { before + cited step.now < 2 ^ 32 }
    ensures { IfOk result (λ s. s ≡ shifted before step.now) }
{
    match step {
        Step::Mapped {
            mapping: _,
            target: _,
            rows: _,
        } => step.copy(alloc),
        Step::Rule { axiom, step } => Ok(Step::Rule {
            axiom: *axiom,
            step: before + *step,
        }),
    }
}

fn push_shifted(alloc: Global, steps: &mut List<Step>, more: &[Step]) -> Result<(), AllocError>
    requires few { length steps.old ≤ 8_000 }
    requires cited { All (λ s. cited s ≤ 1601) more.now }
    ensures { OnOk result (steps.new ≡ steps.old ++ map (shifted (length steps.old)) more.now) }
{
    let before = steps.len() as u32;
    for step in more {
        steps.push(shifted(alloc, step, before)?)?;
    }
    Ok(())
}

// The steps of a fact that some chase holds.
fn steps_of(
    alloc: Global,
    fact: &Fact,
    downs: &Downs,
    mappings: &[Mapping],
    tables: &[Table],
) -> Result<List<Step>, AllocError>
    requires fit { AreFit mappings.now }
    requires fact { IsDerivable downs.now mappings.now tables.now fact.now }
    ensures { IfOk result (IsDerived downs.now.axioms mappings.now tables.now fact.now) }
{
    match derive(alloc, fact, downs, mappings, tables)? {
        Some(steps) => Ok(steps),
        None => unreachable!(),
    }
}

// The fact further, behind those before.
fn push_fact(
    alloc: Global,
    violation: &mut Violation,
    fact: &Fact,
    downs: &Downs,
    mappings: &[Mapping],
    tables: &[Table],
) -> Result<(), AllocError>
    requires few { length violation.old.steps ≤ 8_000 }
    requires fit { AreFit mappings.now }
    requires fact { IsDerivable downs.now mappings.now tables.now fact.now }
    ensures { OnOk result ((wanted : ListOf FactOf) → AreChained downs.now.axioms mappings.now tables.now wanted violation.old → AreChained downs.now.axioms mappings.now tables.now (wanted ++ fact.now ∷ []) violation.new) }
{
    let steps = steps_of(alloc, fact, downs, mappings, tables)?;
    push_shifted(alloc, &mut violation.steps, steps.items())?;
    violation.ends.push(violation.steps.len() as u32)
}

/// Derivations of the facts, one behind the other, and where these facts stand.
pub(crate) fn chained(
    alloc: Global,
    facts: &[Fact],
    downs: &Downs,
    mappings: &[Mapping],
    tables: &[Table],
) -> Result<Violation, AllocError>
    requires fit { AreFit mappings.now }
    requires facts { (f : FactOf) → In f facts.now → IsDerivable downs.now mappings.now tables.now f }
    requires few { most_of facts.now ≤ 8_000 }
    ensures { IfOk result (AreChained downs.now.axioms mappings.now tables.now facts.now) }
{
    let mut violation = Violation {
        steps: List::new(alloc),
        ends: List::new(alloc),
    };
    for fact in facts {
        push_fact(alloc, &mut violation, fact, downs, mappings, tables)?;
    }
    Ok(violation)
}
