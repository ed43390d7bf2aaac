//! The facts of steps.
ghost use Rattle.std.specs.Prelude.{◌≡◌, ◌-◌, ◌&&◌, nat_lt, length, map, option_and_then, IfOk};
ghost use Rattle.std.specs.Option.{option_copied};
ghost use Rattle.vocabulary.specs.Lists.{item};
ghost use Rattle.mapping_facts.specs.Fits.{AreFit, MappingFits};
ghost use Rattle.mapping_facts.specs.Tuples.{table_rows};
ghost use Rattle.conflict_checker.specs.Derivations.{are_row_numbers, cited_fact, facts_of, step_fact};

use crate::Step;
use dllite_axioms::{Axiom, Tbox, apply};
use mapping_facts::{Mapping, fact_of};
use source_tables::Table;
use std::alloc::{AllocError, Global};
use vocabulary::{Fact, List, TableId};

/// The item of a number that counts from 1.
pub fn item<T>(items: &[T], number: u32) -> Option<&T>
    ensures { option_copied result ≡ item items.now number }
{
    if number == 0 {
        return None;
    }
    items.get((number - 1) as usize)
}

fn is_row_number(tables: &[Table], table: TableId, number: u32) -> bool
    ensures { result ≡ (nat_lt 0 number && nat_lt (number - 1) (length (table_rows tables.now table))) }
{
    match tables.get(table.0 as usize) {
        Some(table) => 0 < number && number <= table.rows(),
        None => false,
    }
}

fn are_row_numbers(tables: &[Table], numbers: &[TableId], rows: &[u32]) -> bool
    ensures { result ≡ are_row_numbers tables.now numbers.now rows.now }
{
    match numbers {
        [] => rows.is_empty(),
        [table, numbers @ ..] => match rows {
            [] => false,
            [row, rows @ ..] => {
                is_row_number(tables, *table, *row) && are_row_numbers(tables, numbers, rows)
            }
        },
    }
}

// The numbers, counted from 0.
fn from_zero(alloc: Global, numbers: &[u32]) -> Result<Vec<u32>, AllocError>
    ensures { IfOk result (λ v. v.items ≡ map (λ n. n - 1) numbers.now) }
{
    let mut rows = Vec::new(alloc);
    for number in numbers {
        rows.push(number.saturating_sub(1))?;
    }
    Ok(rows)
}

// The fact of a target on rows whose numbers count from 1.
fn cited_fact(
    alloc: Global,
    mapping: &Mapping,
    target: u32,
    rows: &[u32],
    tables: &[Table],
) -> Result<Option<Fact>, AllocError>
    requires { MappingFits mapping.now }
    ensures { IfOk result (λ fact. fact ≡ option_and_then (cited_fact tables.now rows.now mapping.now) (item mapping.now.targets target)) }
{
    if target == 0 || !are_row_numbers(tables, mapping.query.tables.items(), rows) {
        return Ok(None);
    }
    let rows = from_zero(alloc, rows)?;
    fact_of(alloc, mapping, tables, rows.as_slice(), target - 1)
}

fn step_fact(
    alloc: Global,
    step: &Step,
    earlier: &[Fact],
    axioms: &[Axiom],
    mappings: &[Mapping],
    tables: &[Table],
) -> Result<Option<Fact>, AllocError>
    requires { AreFit mappings.now }
    ensures { IfOk result (λ fact. fact ≡ step_fact axioms.now mappings.now tables.now earlier.now step.now) }
{
    match step {
        Step::Mapped {
            mapping,
            target,
            rows,
        } => match item(mappings, *mapping) {
            Some(mapping) => cited_fact(alloc, mapping, *target, rows.items(), tables),
            None => Ok(None),
        },
        Step::Rule { axiom, step } => match (item(axioms, *axiom), item(earlier, *step)) {
            (Some(axiom), Some(fact)) => apply(alloc, axiom, fact),
            _ => Ok(None),
        },
    }
}

/// The facts of the steps, one after the other, `None` exactly where some step has none.
pub fn facts(
    alloc: Global,
    steps: &[Step],
    tbox: &Tbox,
    mappings: &[Mapping],
    tables: &[Table],
) -> Result<Option<List<Fact>>, AllocError>
    requires { AreFit mappings.now }
    ensures { IfOk result (λ facts. facts ≡ facts_of tbox.now mappings.now tables.now steps.now) }
{
    let mut facts = List::new(alloc);
    for step in steps {
        match step_fact(alloc, step, facts.items(), tbox.axioms(), mappings, tables)? {
            Some(fact) => facts.push(fact)?,
            None => return Ok(None),
        }
    }
    Ok(Some(facts))
}
