//! Mapped facts that meet a source.
ghost use Rattle.std.specs.Prelude.{◌≡◌, ◌≤◌, ◌<◌, ◌+◌, ◌-◌, ◌^◌, ◌∷◌, [], ℕ, length, map, slice_get, All, IfOk, MatchOption, OnOk};
ghost use Rattle.vocabulary.specs.Lists.{In};
ghost use Rattle.source_tables.specs.Tables.{HasKeys};
ghost use Rattle.mapping_facts.specs.Facts.{mapped_facts};
ghost use Rattle.mapping_facts.specs.Fits.{AreFit, HaveTexts, RowQueryFits};
ghost use Rattle.mapping_facts.specs.RowQueries.{row_tuples};
ghost use Rattle.mapping_unfolding.specs.declared.draft.Origin.{Origin as OriginOf};
ghost use Rattle.mapping_unfolding.specs.Unfoldings.{AreUnfoldings, HasOrigins};
ghost use Rattle.join_engine.specs.Indexes.{AreOf};
ghost use Rattle.negative_closure.specs.Sources.{Meets};
ghost use Rattle.consistency_check.specs.Asking.{apart_query, source_query};
ghost use Rattle.consistency_check.specs.Given.{AreMarked};
ghost use Rattle.consistency_check.specs.Meeting.{AreMet, IsMetAt};

use crate::asking::{apart_query, source_query};
use crate::given::Given;
use crate::met::Met;
use crate::unsatisfiable::is_vain;
use fact_derivation::{have_few_rows, origin_step};
use join_engine::{Indexes, some_tuple_by};
use mapping_facts::Mapping;
use mapping_facts::laws::have_texts;
use mapping_unfolding::{Origin, Unfolded, unfold};
use negative_closure::Source;
use source_tables::{Table, have_keys};
use std::alloc::{AllocError, Global};

// The steps of one origin, or of two.
fn met_at(
    alloc: Global,
    mappings: &[Mapping],
    tuple: &[u32],
    origins: &[Origin],
) -> Result<Met, AllocError>
    requires some { 1 ≤ length origins.now }
    requires rows { All (λ n. n < 2 ^ 32 - 1) tuple.now }
    requires numbers { All (λ o. (o.mapping < 2 ^ 32 - 1) × (o.target < 2 ^ 32 - 1)) origins.now }
    ensures { IfOk result (λ met. IsMetAt mappings.now tuple.now origins.now met) }
{
    let first = origin_step(alloc, mappings, tuple, &origins[0])?;
    if origins.len() == 1 {
        return Ok(Met {
            first,
            second: None,
        });
    }
    let second = Some(origin_step(alloc, mappings, tuple, &origins[1])?);
    Ok(Met { first, second })
}

fn met_in(
    alloc: Global,
    source: &Source,
    unfolded: &Unfolded,
    mappings: &[Mapping],
    tables: &[Table],
    indexes: &mut Indexes,
) -> Result<Option<Met>, AllocError>
    requires fit { AreFit mappings.now }
    requires indexes { AreOf tables.now indexes.old }
    requires texts { HaveTexts tables.now }
    requires few { All (λ t. length t.rows ≤ 1_000_000) tables.now }
    requires keys { All HasKeys tables.now }
    requires rows { RowQueryFits unfolded.now.rows }
    requires not_apart { unfolded.now.rows.apart ≡ [] }
    requires origins { HasOrigins mappings.now (source_query source.now) unfolded.now }
    ensures met { IfOk result (λ met. MatchOption met (row_tuples tables.now (apart_query unfolded.now.rows) ≡ []) (AreMet mappings.now tables.now source.now)) }
    ensures indexes { OnOk result (AreOf tables.now indexes.new) }
{
    if is_vain(source, unfolded, mappings, tables) {
        return Ok(None);
    }
    let rows = apart_query(alloc, &unfolded.rows)?;
    match some_tuple_by(alloc, &rows, tables, indexes)? {
        Some(tuple) => {
            let met = met_at(alloc, mappings, tuple.items(), unfolded.origins.items())?;
            Ok(Some(met))
        }
        None => Ok(None),
    }
}

/// Mapped steps whose facts meet the source, `None` exactly where the mapped facts do not meet it. It
/// looks at the tables no further than to the first tuple.
pub(crate) fn meet(
    alloc: Global,
    source: &Source,
    given: &Given,
    mappings: &[Mapping],
    tables: &[Table],
    indexes: &mut Indexes,
) -> Result<Option<Met>, AllocError>
    requires fit { AreFit mappings.now }
    requires indexes { AreOf tables.now indexes.old }
    requires given { AreMarked mappings.now given.now }
    ensures met { IfOk result (λ met. MatchOption met (Meets (mapped_facts mappings.now tables.now) source.now → ⊥) (AreMet mappings.now tables.now source.now)) }
    ensures indexes { OnOk result (AreOf tables.now indexes.new) }
{
    if !given.may_meet(source) {
        return Ok(None);
    }
    have_texts(tables);
    have_few_rows(tables);
    have_keys(tables);
    let query = source_query(alloc, source)?;
    let list = unfold(alloc, &query, mappings)?;
    for unfolded in list.items() {
        if let Some(met) = met_in(alloc, source, unfolded, mappings, tables, indexes)? {
            return Ok(Some(met));
        }
    }
    Ok(None)
}
