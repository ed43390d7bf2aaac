//! Facts of tables for the atoms of a query.
ghost use Rattle.std.specs.Prelude.{◌≡◌, ◌≤◌, [], All, length, IfOk, MatchOption};
ghost use Rattle.queries.specs.Occurrences.{HeadStands};
ghost use Rattle.mapping_facts.specs.Facts.{mapped_facts};
ghost use Rattle.mapping_facts.specs.Fits.{AreFit, HaveTexts, RowQueryFits};
ghost use Rattle.mapping_facts.specs.RowQueries.{row_tuples};
ghost use Rattle.mapping_unfolding.specs.Unfoldings.{HasOrigins, items_from};
ghost use Rattle.why_answers.specs.Matching.{NoMatch, ReadMapped, origin_fact, origin_facts};

use crate::wide::wide_match;
use join_engine::some_tuple;
use mapping_facts::laws::have_texts;
use mapping_facts::{Mapping, fact_of};
use mapping_unfolding::{Origin, Unfolded, unfold};
use queries::Query;
use query_images::is_wide;
use source_tables::Table;
use std::alloc::{AllocError, Global};
use vocabulary::{Fact, List};

fn rows_of(first: usize, count: usize, tuple: &[u32]) -> &[u32]
    ensures { result.now ≡ items_from first count tuple.now }
{
    let first = first.min(tuple.len());
    let rest = &tuple[first..];
    &rest[..count.min(rest.len())]
}

fn origin_fact(
    alloc: Global,
    mappings: &[Mapping],
    tables: &[Table],
    tuple: &[u32],
    origin: &Origin,
) -> Result<Option<Fact>, AllocError>
    requires fit { AreFit mappings.now }
    ensures { IfOk result (λ f. f ≡ origin_fact mappings.now tables.now tuple.now origin.now) }
{
    match mappings.get(origin.mapping as usize) {
        Some(mapping) => {
            let count = mapping.query.tables.len();
            let rows = rows_of(origin.first as usize, count, tuple);
            fact_of(alloc, mapping, tables, rows, origin.target)
        }
        None => Ok(None),
    }
}

fn origin_facts(
    alloc: Global,
    mappings: &[Mapping],
    tables: &[Table],
    tuple: &[u32],
    origins: &[Origin],
) -> Result<Option<List<Fact>>, AllocError>
    requires fit { AreFit mappings.now }
    ensures { IfOk result (λ fs. fs ≡ origin_facts mappings.now tables.now tuple.now origins.now) }
{
    let mut facts = List::new(alloc);
    for origin in origins {
        match origin_fact(alloc, mappings, tables, tuple, origin)? {
            Some(fact) => facts.push(fact)?,
            None => return Ok(None),
        }
    }
    Ok(Some(facts))
}

// The facts at some tuple of the row query.
fn facts_in(
    alloc: Global,
    query: &Query,
    unfolded: &Unfolded,
    mappings: &[Mapping],
    tables: &[Table],
) -> Result<Option<List<Fact>>, AllocError>
    requires fit { AreFit mappings.now }
    requires texts { HaveTexts tables.now }
    requires rows { RowQueryFits unfolded.now.rows }
    requires origins { HasOrigins mappings.now query.now unfolded.now }
    ensures { IfOk result (λ found. MatchOption found (row_tuples tables.now unfolded.now.rows ≡ []) (ReadMapped mappings.now tables.now query.now.atoms)) }
{
    let Some(tuple) = some_tuple(alloc, &unfolded.rows, tables)? else {
        return Ok(None);
    };
    match origin_facts(
        alloc,
        mappings,
        tables,
        tuple.items(),
        unfolded.origins.items(),
    )? {
        Some(facts) => Ok(Some(facts)),
        None => unreachable!(),
    }
}

// The facts at the first tuple of rows that a row query of the query has.
pub(crate) fn unfolded_match(
    alloc: Global,
    query: &Query,
    mappings: &[Mapping],
    tables: &[Table],
) -> Result<Option<List<Fact>>, AllocError>
    requires head { query.now.head ≡ [] }
    requires few { length query.now.atoms ≤ 16 }
    requires fit { AreFit mappings.now }
    ensures { IfOk result (λ found. MatchOption found (NoMatch (mapped_facts mappings.now tables.now) query.now.atoms) (ReadMapped mappings.now tables.now query.now.atoms)) }
{
    have_texts(tables);
    let list = unfold(alloc, query, mappings)?;
    for unfolded in list.items() {
        if let Some(facts) = facts_in(alloc, query, unfolded, mappings, tables)? {
            return Ok(Some(facts));
        }
    }
    Ok(None)
}

/// Mapped facts for the atoms of a query without a head, `None` exactly where it has no match in the
/// mapped facts. A query that unfolds into few row queries is unfolded as it stands, up to the first
/// tuple of rows; the images of one of many are joined, and one of them is looked for atom by atom.
pub fn match_of(
    alloc: Global,
    query: &Query,
    mappings: &[Mapping],
    tables: &[Table],
) -> Result<Option<List<Fact>>, AllocError>
    requires head { query.now.head ≡ [] }
    requires few { length query.now.atoms ≤ 16 }
    requires fit { AreFit mappings.now }
    ensures { IfOk result (λ found. MatchOption found (NoMatch (mapped_facts mappings.now tables.now) query.now.atoms) (ReadMapped mappings.now tables.now query.now.atoms)) }
{
    if is_wide(query.atoms.items(), mappings) {
        wide_match(alloc, query, mappings, tables)
    } else {
        unfolded_match(alloc, query, mappings, tables)
    }
}
