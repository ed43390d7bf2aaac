//! Mapped steps for an atom.
ghost use Rattle.std.specs.Prelude.{◌≡◌, ◌≤◌, ◌<◌, ◌+◌, ◌-◌, ◌^◌, [], length, map, slice_get, All, IfOk, MatchOption};
ghost use Rattle.mapping_facts.specs.Fits.{AreFit, HaveTexts, RowQueryFits};
ghost use Rattle.mapping_facts.specs.RowQueries.{row_tuples};
ghost use Rattle.mapping_unfolding.specs.Unfoldings.{HasOrigins, items_from};
ghost use Rattle.fact_derivation.specs.Asking.{atom_query};
ghost use Rattle.fact_derivation.specs.Finding.{IsFound, NoneStands, origin_step, table_count};

use crate::asking::atom_query;
use conflict_checker::Step;
use join_engine::some_tuple;
use mapping_facts::Mapping;
use mapping_facts::laws::have_texts;
use mapping_unfolding::{Origin, Unfolded, unfold};
use queries::Atom;
use source_tables::Table;
use std::alloc::{AllocError, Global};
use vocabulary::List;

fn items_from(first: usize, count: usize, tuple: &[u32]) -> &[u32]
    ensures { result.now ≡ items_from first count tuple.now }
{
    let first = first.min(tuple.len());
    let rest = &tuple[first..];
    &rest[..count.min(rest.len())]
}

// The numbers, counted from 1.
fn from_one(alloc: Global, rows: &[u32]) -> Result<List<u32>, AllocError>
    requires { All (λ n. n < 2 ^ 32 - 1) rows.now }
    ensures { IfOk result (λ numbers. numbers ≡ map (λ n. n + 1) rows.now) }
{
    let mut numbers = List::new(alloc);
    for row in rows {
        numbers.push(*row + 1)?;
    }
    Ok(numbers)
}

fn table_count(mappings: &[Mapping], mapping: u32) -> usize
    ensures { result ≡ table_count (slice_get mappings.now mapping) }
{
    match mappings.get(mapping as usize) {
        Some(mapping) => mapping.query.tables.len(),
        None => 0,
    }
}

/// The mapped step of an origin at a tuple of its row query.
pub fn origin_step(
    alloc: Global,
    mappings: &[Mapping],
    tuple: &[u32],
    origin: &Origin,
) -> Result<Step, AllocError>
    requires rows { All (λ n. n < 2 ^ 32 - 1) tuple.now }
    requires mapping { origin.now.mapping < 2 ^ 32 - 1 }
    requires target { origin.now.target < 2 ^ 32 - 1 }
    ensures { IfOk result (λ step. step ≡ origin_step mappings.now tuple.now origin.now) }
{
    let count = table_count(mappings, origin.mapping);
    let rows = items_from(origin.first as usize, count, tuple);
    Ok(Step::Mapped {
        mapping: origin.mapping + 1,
        target: origin.target + 1,
        rows: from_one(alloc, rows)?,
    })
}

// The step of the one origin at some tuple of the row query.
fn step_in(
    alloc: Global,
    atom: &Atom,
    unfolded: &Unfolded,
    mappings: &[Mapping],
    tables: &[Table],
) -> Result<Option<Step>, AllocError>
    requires fit { AreFit mappings.now }
    requires texts { HaveTexts tables.now }
    requires few { All (λ t. length t.rows ≤ 1_000_000) tables.now }
    requires rows { RowQueryFits unfolded.now.rows }
    requires origins { HasOrigins mappings.now (atom_query atom.now) unfolded.now }
    ensures { IfOk result (λ step. MatchOption step (row_tuples tables.now unfolded.now.rows ≡ []) (IsFound mappings.now tables.now atom.now)) }
{
    let Some(tuple) = some_tuple(alloc, &unfolded.rows, tables)? else {
        return Ok(None);
    };
    match unfolded.origins.items() {
        [origin] => Ok(Some(origin_step(alloc, mappings, tuple.items(), origin)?)),
        _ => Ok(None),
    }
}

/// A law of loaded tables: none has more rows than one may have, so that rows can be numbered from 1.
pub fn have_few_rows(tables: &[Table])
    ensures { All (λ t. length t.rows ≤ 1_000_000) tables.now }
{
    for table in tables {
        let _ = table.rows();
    }
}

/// A mapped step whose fact the atom stands for, `None` exactly where it stands for no mapped fact.
///
/// For each target of the atom's class or link whose terms can spell the constants, it goes once through
/// the rows of the mapping's first table, and leaves a row at once where its cells do not spell the
/// constants or a condition fails. Behind a row that it keeps, the rows of a further table come from an
/// index where the constants or a condition give the text of one of its cells. It stops at the first
/// tuple. So it walks through no product of rows but that of tables which neither ties.
pub(crate) fn mapped_step(
    alloc: Global,
    atom: &Atom,
    mappings: &[Mapping],
    tables: &[Table],
) -> Result<Option<Step>, AllocError>
    requires fit { AreFit mappings.now }
    ensures { IfOk result (λ step. MatchOption step (NoneStands mappings.now tables.now atom.now) (IsFound mappings.now tables.now atom.now)) }
{
    have_texts(tables);
    have_few_rows(tables);
    let query = atom_query(alloc, atom)?;
    let list = unfold(alloc, &query, mappings)?;
    for unfolded in list.items() {
        if let Some(step) = step_in(alloc, atom, unfolded, mappings, tables)? {
            return Ok(Some(step));
        }
    }
    Ok(None)
}
