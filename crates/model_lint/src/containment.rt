//! When one query is contained in another.
ghost use Rattle.std.specs.Prelude.{◌≡◌, ◌↔◌, ◌<◌, ◌-◌, ◌^◌, true, is_some, length, IfErr, IfOk, IfSome, IsTrue, MatchOption};
ghost use Rattle.vocabulary.specs.Lists.{In};
ghost use Rattle.queries.specs.Occurrences.{HeadStands, KnownConstants};
ghost use Rattle.queries.specs.declared.query.Query.{Query as QueryOf};
ghost use Rattle.perfect_rewriting.specs.Rewriting.{IsTooWide};
ghost use Rattle.query_subsumption.specs.Subsumption.{MapsInto};
ghost use Rattle.model_lint.specs.Containment.{HoldsInModels, IsContained, IsCovered, IsFirst};

use dllite_axioms::Tbox;
use perfect_rewriting::{RewriteFault, rewrite};
use queries::Query;
use query_subsumption::laws::mapping_is_sound;
use query_subsumption::{drop_subsumed, maps_into};
use std::alloc::{AllocError, Global};

/// Whether the first query is contained in the second under the axioms, by the number, counted from
/// 1, of the first query that `rewrite` prints for the second and that maps into the first. The
/// heads may differ in length; then none does.
pub fn contained(
    alloc: Global,
    tbox: &Tbox,
    first: &Query,
    second: &Query,
) -> Result<Option<u32>, RewriteFault>
    requires head { length second.now.head < 2 ^ 32 - 1 }
    requires atoms { length second.now.atoms < 2 ^ 32 - 1 }
    requires first_constants { KnownConstants first.now }
    requires first_head { HeadStands first.now }
    requires second_constants { KnownConstants second.now }
    requires second_head { HeadStands second.now }
    ensures contained { IfOk result (λ o. (is_some o ≡ true) ↔ IsContained tbox.now.axioms first.now second.now) }
    ensures covered { IfOk result (λ o. IfSome o (IsCovered tbox.now.axioms first.now second.now)) }
    ensures models { IfOk result (λ o. IfSome o (λ n. HoldsInModels tbox.now.axioms first.now second.now)) }
    ensures narrow { IfOk result (λ o. IsTooWide tbox.now.axioms second.now → ⊥) }
    ensures wide { IfErr result (λ fault. fault ≡ RewriteFault.TooWide → IsTooWide tbox.now.axioms second.now) }
{
    mapping_is_sound();
    let members = rewrite(alloc, tbox, second)?;
    let kept = drop_subsumed(alloc, members)?;
    let covered = first_into(alloc, kept.items(), first)?;
    Ok(covered)
}

// The number, from 1, of the first query that maps into the special one.
fn first_into(alloc: Global, queries: &[Query], special: &Query) -> Result<Option<u32>, AllocError>
    requires { length queries.now < 2 ^ 32 - 1 }
    ensures { IfOk result (λ o. MatchOption o ((q : QueryOf) → In q queries.now → MapsInto q special.now → ⊥) (IsFirst queries.now special.now)) }
{
    for at in 0..queries.len() {
        if maps(alloc, &queries[at], special)? {
            return Ok(Some(at as u32 + 1));
        }
    }
    Ok(None)
}

fn maps(alloc: Global, general: &Query, special: &Query) -> Result<bool, AllocError>
    ensures { IfOk result (λ yes. IsTrue yes ↔ MapsInto general.now special.now) }
{
    match maps_into(alloc, general, special)? {
        Some(_) => Ok(true),
        None => Ok(false),
    }
}
