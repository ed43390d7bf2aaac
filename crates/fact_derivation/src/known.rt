//! Derivations of a known fact.
ghost use Rattle.std.specs.Prelude.{◌≡◌, ◌<◌, ◌≤◌, ◌-◌, ◌^◌, ◌∷◌, All, length, IfOk, IfSome, MatchOption};
ghost use Rattle.vocabulary.specs.Terms.{IsKnown, IsKnownFact};
ghost use Rattle.vocabulary.specs.declared.term.Fact.TheVariants.{InClass, Linked};
ghost use Rattle.dllite_axioms.specs.declared.axioms.Basic.TheVariants.{Class};
ghost use Rattle.negative_closure.specs.Short.{IsUnturned};
ghost use Rattle.mapping_facts.specs.Fits.{AreFit};
ghost use Rattle.fact_derivation.specs.Derivings.{IsDeriving, IsFactWithin, IsShort, IsUnderivable, NoneBelow, NoneUnder, rule_steps};

use crate::asking::{basic_atom, link_atom};
use crate::finding::mapped_step;
use conflict_checker::Step;
use dllite_axioms::Basic;
use mapping_facts::Mapping;
use negative_closure::Downs;
use source_tables::Table;
use std::alloc::{AllocError, Global};
use vocabulary::{ClassId, Dir, Fact, LinkId, List, Term};

// The step, and the rules by the axioms of these numbers, which count from 0.
fn steps_of(alloc: Global, step: Step, numbers: &[u32]) -> Result<List<Step>, AllocError>
    requires few { length numbers.now ≤ 1600 }
    requires small { All (λ k. k < 2 ^ 32 - 1) numbers.now }
    ensures { IfOk result (λ steps. steps ≡ step ∷ rule_steps numbers.now 1) }
{
    let mut steps = List::new(alloc);
    steps.push(step)?;
    for (at, number) in numbers.iter().enumerate() {
        steps.push(Step::Rule {
            axiom: *number + 1,
            step: at as u32 + 1,
        })?;
    }
    Ok(steps)
}

// By a mapped fact that matches the one basic at the term, and a chain to the class.
fn from_basic(
    alloc: Global,
    from: Basic,
    class: ClassId,
    term: &Term,
    downs: &Downs,
    mappings: &[Mapping],
    tables: &[Table],
) -> Result<Option<List<Step>>, AllocError>
    requires within { class.0 < downs.now.classes }
    requires fit { AreFit mappings.now }
    ensures { IfOk result (λ steps. MatchOption steps (NoneBelow downs.now.axioms mappings.now tables.now (Class class) term.now from) (IsDeriving downs.now.axioms mappings.now tables.now (InClass class term.now))) }
{
    let atom = basic_atom(alloc, from, term)?;
    let Some(step) = mapped_step(alloc, &atom, mappings, tables)? else {
        return Ok(None);
    };
    match downs.chain(alloc, from, Basic::Class(class))? {
        Some(numbers) => Ok(Some(steps_of(alloc, step, numbers.items())?)),
        None => Ok(None),
    }
}

fn of_class(
    alloc: Global,
    class: ClassId,
    term: &Term,
    downs: &Downs,
    mappings: &[Mapping],
    tables: &[Table],
) -> Result<Option<List<Step>>, AllocError>
    requires known { IsKnown term.now }
    requires within { class.0 < downs.now.classes }
    requires fit { AreFit mappings.now }
    ensures { IfOk result (λ steps. MatchOption steps (IsUnderivable downs.now.axioms mappings.now tables.now (InClass class term.now)) (IsDeriving downs.now.axioms mappings.now tables.now (InClass class term.now))) }
{
    for from in downs.below(Basic::Class(class)) {
        if let Some(steps) = from_basic(alloc, *from, class, term, downs, mappings, tables)? {
            return Ok(Some(steps));
        }
    }
    Ok(None)
}

// By a mapped fact of the one link, whose ends are exchanged for `Back`, and a chain to the other.
fn from_link(
    alloc: Global,
    from: (LinkId, Dir),
    link: LinkId,
    near: &Term,
    far: &Term,
    downs: &Downs,
    mappings: &[Mapping],
    tables: &[Table],
) -> Result<Option<List<Step>>, AllocError>
    requires within { link.0 < downs.now.links }
    requires fit { AreFit mappings.now }
    ensures derives { IfOk result (λ steps. MatchOption steps (NoneUnder downs.now.axioms mappings.now tables.now link near.now far.now from) (IsDeriving downs.now.axioms mappings.now tables.now (Linked link near.now far.now))) }
    ensures short { IfOk result (λ steps. IfSome steps (λ s. IsUnturned downs.now.axioms link → length s ≤ 601)) }
{
    let atom = link_atom(alloc, from.0, from.1, near, far)?;
    let Some(step) = mapped_step(alloc, &atom, mappings, tables)? else {
        return Ok(None);
    };
    match downs.link_chain(alloc, from, (link, Dir::Fwd))? {
        Some(numbers) => Ok(Some(steps_of(alloc, step, numbers.items())?)),
        None => Ok(None),
    }
}

fn of_link(
    alloc: Global,
    link: LinkId,
    near: &Term,
    far: &Term,
    downs: &Downs,
    mappings: &[Mapping],
    tables: &[Table],
) -> Result<Option<List<Step>>, AllocError>
    requires known { IsKnown near.now }
    requires far_known { IsKnown far.now }
    requires within { link.0 < downs.now.links }
    requires fit { AreFit mappings.now }
    ensures derives { IfOk result (λ steps. MatchOption steps (IsUnderivable downs.now.axioms mappings.now tables.now (Linked link near.now far.now)) (IsDeriving downs.now.axioms mappings.now tables.now (Linked link near.now far.now))) }
    ensures short { IfOk result (λ steps. IfSome steps (λ s. IsUnturned downs.now.axioms link → length s ≤ 601)) }
{
    for from in downs.under(link, Dir::Fwd) {
        if let Some(steps) = from_link(alloc, *from, link, near, far, downs, mappings, tables)? {
            return Ok(Some(steps));
        }
    }
    Ok(None)
}

/// A derivation of a known fact from the mapped facts, `None` exactly where no round of their chase holds
/// it: a mapped step, and then the rules along one chain of axioms, each at the step before. The rules cite
/// the axioms of `downs`. Of several derivations it is not always the shortest.
///
/// For each basic below the class, or each link under the link, it takes one look for a mapped fact with
/// the fact's terms as constants, at the cost that `mapped_step` names. A chain is looked for only behind a
/// mapped fact, and so once.
pub fn derive(
    alloc: Global,
    fact: &Fact,
    downs: &Downs,
    mappings: &[Mapping],
    tables: &[Table],
) -> Result<Option<List<Step>>, AllocError>
    requires known { IsKnownFact fact.now }
    requires within { IsFactWithin downs.now.classes downs.now.links fact.now }
    requires fit { AreFit mappings.now }
    ensures derives { IfOk result (λ steps. MatchOption steps (IsUnderivable downs.now.axioms mappings.now tables.now fact.now) (IsDeriving downs.now.axioms mappings.now tables.now fact.now)) }
    ensures short { IfOk result (λ steps. IfSome steps (IsShort downs.now.axioms fact.now)) }
{
    match fact {
        Fact::InClass(class, term) => of_class(alloc, *class, term, downs, mappings, tables),
        Fact::Linked(link, near, far) => {
            of_link(alloc, *link, near, far, downs, mappings, tables)
        }
    }
}
