//! Answering a query.
ghost use Rattle.std.specs.Prelude.{◌≡◌, ◌≤◌, ◌<◌, ◌-◌, ◌^◌, length, IfOk, IfErr};
ghost use Rattle.vocabulary.specs.Lists.{IsListOf};
ghost use Rattle.queries.specs.Occurrences.{HeadStands, KnownConstants};
ghost use Rattle.queries.specs.Order.{tuple_cmp};
ghost use Rattle.certain_semantics.specs.Certain.{IsCertain};
ghost use Rattle.fold_rewriting.specs.Listing.{IsTooWide};
ghost use Rattle.mapping_facts.specs.Facts.{mapped_facts};

use crate::leaning::all_lean;
use crate::{Answers, Specification};
use certain_semantics::laws as certain_laws;
use dllite_axioms::laws as chase_laws;
use fold_rewriting::fold;
use mapping_saturation::laws::{known_have_the_chase, known_hold_their_known};
use negative_closure::laws::known_come_by_chains;
use perfect_rewriting::RewriteFault;
use queries::Query;
use query_images::union_images;
use query_subsumption::drop_subsumed;
use source_tables::Table;
use std::alloc::Global;

/// The certain answers of a query over the chase of the mapped facts: the images of its folds in the
/// facts of the saturated mappings.
pub fn answers(
    alloc: Global,
    specification: &Specification,
    tables: &[Table],
    query: &Query,
) -> Result<Answers, RewriteFault>
    requires head { length query.now.head < 2 ^ 32 - 1 }
    requires stands { HeadStands query.now }
    requires known { KnownConstants query.now }
    requires few { length query.now.atoms ≤ 16 }
    ensures answers { IfOk result (λ a. IsListOf tuple_cmp (IsCertain specification.now.axioms (mapped_facts specification.now.mappings tables.now) query.now) a.tuples) }
    ensures narrow { IfOk result (λ a. IsTooWide specification.now.axioms query.now → ⊥) }
    ensures wide { IfErr result (λ fault. fault ≡ RewriteFault.TooWide → IsTooWide specification.now.axioms query.now) }
{
    known_come_by_chains();
    known_have_the_chase();
    known_hold_their_known();
    chase_laws::derived();
    certain_laws::derived();
    let downs = specification.downs();
    let folds = fold(alloc, downs, query)?;
    let leans = all_lean(alloc, downs, folds.items())?;
    let kept = drop_subsumed(alloc, leans)?;
    let tuples = union_images(alloc, kept.items(), specification.further(), tables)?;
    Ok(Answers { tuples })
}
