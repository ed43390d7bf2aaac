//! What is made once for all constraints.
ghost use Rattle.std.specs.Prelude.{◌≡◌, ◌<◌, ◌+◌, ◌-◌, ◌^◌, List as ListOf, length, false, ◌≤◌, IfOk};
ghost use Rattle.vocabulary.specs.Lists.{In};
ghost use Rattle.vocabulary.specs.declared.ids.ClassId.{ClassId as ClassOf};
ghost use Rattle.vocabulary.specs.declared.ids.LinkId.{LinkId as LinkOf};
ghost use Rattle.dllite_axioms.specs.Within.{IsAxiomWithin};
ghost use Rattle.dllite_axioms.specs.declared.axioms.Axiom.{Axiom as AxiomOf};
ghost use Rattle.dllite_axioms.specs.declared.axioms.Constraint.TheVariants.{Identified};
ghost use Rattle.mapping_facts.specs.Fits.{AreFit};
ghost use Rattle.mapping_facts.specs.declared.mapping.Mapping.{Mapping as MappingOf};
ghost use Rattle.mapping_facts.specs.Within.{AreTargetsWithin, with_targets};
ghost use Rattle.consistency_check.specs.Checkable.{IsPrepared, KnowAll};

use crate::given::Given;
use dllite_axioms::{Constraint, Tbox};
use mapping_facts::Mapping;
use mapping_saturation::saturate;
use negative_closure::Downs;
use std::alloc::{AllocError, Global};
use vocabulary::List;

/// The axioms with what lies below, the marks of the mappings, and the saturated mappings, or none where
/// no constraint identifies.
#[derive(Drop)]
pub struct Prepared {
    pub downs: Downs,
    pub given: Given,
    pub saturated: List<Mapping>,
}

fn some_identify(constraints: &[Constraint]) -> bool
    ensures { result ≡ false → (a : ClassOf) (us : ListOf LinkOf) → In (Identified a us) constraints.now → ⊥ }
{
    for constraint in constraints {
        if let Constraint::Identified(_, _) = constraint {
            return true;
        }
    }
    false
}

// Mappings that are asked by identifications alone.
fn saturated_for(
    alloc: Global,
    constraints: &[Constraint],
    mappings: &[Mapping],
    downs: &Downs,
) -> Result<List<Mapping>, AllocError>
    requires axioms { (a : AxiomOf) → In a downs.now.axioms → IsAxiomWithin downs.now.classes downs.now.links a }
    requires targets { (m : MappingOf) → In m mappings.now → AreTargetsWithin downs.now.classes downs.now.links m.targets }
    requires fit { AreFit mappings.now }
    requires few_classes { downs.now.classes ≤ 400 }
    requires few_links { downs.now.links ≤ 600 }
    requires few_targets { length mappings.now + length (with_targets mappings.now) < 2 ^ 32 }
    ensures { IfOk result (λ saturated. (a : ClassOf) (us : ListOf LinkOf) → In (Identified a us) constraints.now → KnowAll downs.now.axioms mappings.now saturated) }
{
    if !some_identify(constraints) {
        return Ok(List::new(alloc));
    }
    saturate(alloc, mappings, downs)
}

impl Prepared {
    pub(crate) fn of(
        alloc: Global,
        tbox: &Tbox,
        classes: u32,
        links: u32,
        mappings: &[Mapping],
    ) -> Result<Prepared, AllocError>
        requires fit { AreFit mappings.now }
        requires few_classes { classes ≤ 400 }
        requires few_links { links ≤ 600 }
        requires few_axioms { length tbox.now.axioms < 2 ^ 32 - 1 }
        requires axioms { (a : AxiomOf) → In a tbox.now.axioms → IsAxiomWithin classes links a }
        requires targets { (m : MappingOf) → In m mappings.now → AreTargetsWithin classes links m.targets }
        requires few_targets { length mappings.now + length (with_targets mappings.now) < 2 ^ 32 }
        ensures prepared { IfOk result (IsPrepared tbox.now mappings.now) }
        ensures classes { IfOk result (λ p. p.downs.classes ≡ classes) }
        ensures links { IfOk result (λ p. p.downs.links ≡ links) }
    {
        let downs = Downs::of(alloc, tbox, classes, links)?;
        let given = Given::by(alloc, classes, links, mappings)?;
        let saturated = saturated_for(alloc, tbox.constraints(), mappings, &downs)?;
        Ok(Prepared {
            downs,
            given,
            saturated,
        })
    }
}
