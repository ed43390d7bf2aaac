//! All folds of a query.
ghost use Rattle.std.specs.Prelude.{◌≡◌, ◌<◌, ◌≤◌, ◌-◌, ◌^◌, ◌∷◌, [], IfErr, IfOk, OnOk, length, map};
ghost use Rattle.std.specs.List.Sorted.{IsStrictlySortedBy};
ghost use Rattle.vocabulary.specs.Lists.{In, IsListOf};
ghost use Rattle.dllite_axioms.specs.Within.{IsAxiomWithin};
ghost use Rattle.dllite_axioms.specs.declared.axioms.Axiom.{Axiom as AxiomOf};
ghost use Rattle.queries.specs.Order.{query_cmp};
ghost use Rattle.perfect_rewriting.specs.Listing.{Added, IsGap, Overflows};
ghost use Rattle.perfect_rewriting.specs.Rewriting.{KeepsShape};
ghost use Rattle.fold_rewriting.specs.Folds.{Folds};
ghost use Rattle.fold_rewriting.specs.Listing.{GiveCertain, IsTooWide};

use crate::steps::{FoldStep, fold_steps};
use negative_closure::Downs;
use perfect_rewriting::RewriteFault;
use queries::Query;
use std::alloc::{AllocError, Global};
use vocabulary::List;

const MOST: usize = 4000;

/// The folds of a query under the axioms of a `Downs`, each once and in order. They answer over
/// facts that hold the known facts of their chase, as those of saturated mappings do. Whether the
/// query passes `check` does not matter to the list; that its head stands does to what it answers.
pub fn fold(alloc: Global, downs: &Downs, query: &Query) -> Result<List<Query>, RewriteFault>
    requires within { (a : AxiomOf) → In a downs.now.axioms → IsAxiomWithin downs.now.classes downs.now.links a }
    requires head { length query.now.head < 2 ^ 32 - 1 }
    requires atoms { length query.now.atoms < 2 ^ 32 - 1 }
    ensures members { IfOk result (λ list. IsListOf query_cmp (Folds downs.now.axioms query.now) list) }
    ensures narrow { IfOk result (λ list. IsTooWide downs.now.axioms query.now → ⊥) }
    ensures wide { IfErr result (λ fault. fault ≡ RewriteFault.TooWide → IsTooWide downs.now.axioms query.now) }
    ensures answers { IfOk result (λ list. GiveCertain downs.now.axioms query.now list) }
    ensures shape { IfOk result (λ list. (m : Query) → In m list → KeepsShape query.now m) }
{
    let found = folds_of(alloc, downs, query)?;
    Ok(List::from_vec(found))
}

fn folds_of(alloc: Global, downs: &Downs, query: &Query) -> Result<Vec<Query>, RewriteFault>
    requires within { (a : AxiomOf) → In a downs.now.axioms → IsAxiomWithin downs.now.classes downs.now.links a }
    requires head { length query.now.head < 2 ^ 32 - 1 }
    requires atoms { length query.now.atoms < 2 ^ 32 - 1 }
    ensures members { IfOk result (λ found. IsListOf query_cmp (Folds downs.now.axioms query.now) found.items) }
    ensures small { IfOk result (λ found. length found.items ≤ 4000) }
    ensures wide { IfErr result (λ fault. fault ≡ RewriteFault.TooWide → IsTooWide downs.now.axioms query.now) }
{
    let mut work = Work::begin(alloc, query.normal(alloc)?)?;
    while let Some(member) = work.pending.pop() {
        let steps = fold_steps(alloc, downs, &member)?;
        work.add_all(alloc, steps.into_vec())?;
    }
    let Work { found, .. } = work;
    Ok(found)
}

/// The folds that were found, in order, and those whose steps are not taken yet.
#[derive(Drop)]
struct Work {
    found: Vec<Query>,
    pending: Vec<Query>,
}

impl Work {
    fn begin(alloc: Global, first: Query) -> Result<Work, AllocError>
        ensures found { IfOk result (λ work. work.found.items ≡ first ∷ []) }
        ensures pending { IfOk result (λ work. work.pending.items ≡ first ∷ []) }
    {
        let mut pending = Vec::new(alloc);
        pending.push(first.copy(alloc)?)?;
        let mut found = Vec::new(alloc);
        found.push(first)?;
        Ok(Work { found, pending })
    }

    fn add_all(
        &mut self,
        alloc: Global,
        mut steps: Vec<(FoldStep, Query)>,
    ) -> Result<(), RewriteFault>
        requires sorted { IsStrictlySortedBy query_cmp self.old.found.items }
        requires small { length self.old.found.items ≤ 4000 }
        ensures added { OnOk result (Added self.old.found.items self.old.pending.items (map (λ step. step.1) steps.items) self.new.found.items self.new.pending.items) }
        ensures wide { IfErr result (λ fault. fault ≡ RewriteFault.TooWide → Overflows self.old.found.items (map (λ step. step.1) steps.items)) }
    {
        while let Some((_, query)) = steps.pop() {
            self.add(alloc, query)?;
        }
        Ok(())
    }

    fn add(&mut self, alloc: Global, query: Query) -> Result<(), RewriteFault>
        requires sorted { IsStrictlySortedBy query_cmp self.old.found.items }
        requires small { length self.old.found.items ≤ 4000 }
        ensures added { OnOk result (Added self.old.found.items self.old.pending.items (query ∷ []) self.new.found.items self.new.pending.items) }
        ensures wide { IfErr result (λ fault. fault ≡ RewriteFault.TooWide → Overflows self.old.found.items (query ∷ [])) }
    {
        match place_of(self.found.as_slice(), &query) {
            Ok(_) => Ok(()),
            Err(at) => {
                if self.found.len() == MOST {
                    return Err(RewriteFault::TooWide);
                }
                self.pending.push(query.copy(alloc)?)?;
                self.found.insert(at, query)?;
                Ok(())
            }
        }
    }
}

fn place_of(found: &[Query], query: &Query) -> Result<usize, usize>
    requires { IsStrictlySortedBy query_cmp found.now }
    ensures there { IfOk result (λ at. In query.now found.now) }
    ensures gap { IfErr result (IsGap found.now query.now) }
{
    found.binary_search_by(|member| member.compare(query))
}
