//! Dropping the queries of a list for which others stand.
ghost use Rattle.std.specs.Prelude.{◌↔◌, ◌<◌, ◌⊎◌, IfOk, IsTrue, length};
ghost use Rattle.std.specs.List.Sorted.{IsStrictlySortedBy};
ghost use Rattle.queries.specs.Order.{query_cmp};
ghost use Rattle.query_subsumption.specs.Kept.{AreAmong, NoneMaps, SameImages};
ghost use Rattle.query_subsumption.specs.Subsumption.{AreKept, IsDropped, MapsInto};

use crate::mapping::maps_into;
use queries::Query;
use std::alloc::{AllocError, Global};
use vocabulary::List;

/// The queries for which no other stands: another stands for a query where it maps into it, and is
/// not mapped into by it or comes before it. The answers of what is kept are those of all.
pub fn drop_subsumed(alloc: Global, queries: List<Query>) -> Result<List<Query>, AllocError>
    ensures kept { IfOk result (AreKept queries) }
    ensures among { IfOk result (AreAmong queries) }
    ensures ordered { IfOk result (λ kept. IsStrictlySortedBy query_cmp queries → IsStrictlySortedBy query_cmp kept) }
    ensures none_maps { IfOk result NoneMaps }
    ensures images { IfOk result (SameImages queries) }
{
    let kept = kept_of(alloc, queries.items())?;
    Ok(List::from_vec(kept))
}

fn kept_of(alloc: Global, queries: &[Query]) -> Result<Vec<Query>, AllocError>
    ensures { IfOk result (λ out. AreKept queries.now out.items) }
{
    let mut out = Vec::new(alloc);
    for at in 0..queries.len() {
        if !is_dropped(alloc, queries, at)? {
            out.push(queries[at].copy(alloc)?)?;
        }
    }
    Ok(out)
}

fn is_dropped(alloc: Global, queries: &[Query], at: usize) -> Result<bool, AllocError>
    requires { at < length queries.now }
    ensures { IfOk result (λ dropped. IsTrue dropped ↔ IsDropped queries.now at) }
{
    for other in 0..queries.len() {
        if other != at && stands_for(alloc, &queries[other], &queries[at], other < at)? {
            return Ok(true);
        }
    }
    Ok(false)
}

fn stands_for(
    alloc: Global,
    general: &Query,
    special: &Query,
    before: bool,
) -> Result<bool, AllocError>
    ensures { IfOk result (λ stands. IsTrue stands ↔ (MapsInto general.now special.now × ((MapsInto special.now general.now → ⊥) ⊎ IsTrue before))) }
{
    if !maps(alloc, general, special)? {
        return Ok(false);
    }
    if before {
        return Ok(true);
    }
    Ok(!maps(alloc, special, general)?)
}

fn maps(alloc: Global, general: &Query, special: &Query) -> Result<bool, AllocError>
    ensures { IfOk result (λ yes. IsTrue yes ↔ MapsInto general.now special.now) }
{
    match maps_into(alloc, general, special)? {
        Some(_) => Ok(true),
        None => Ok(false),
    }
}
