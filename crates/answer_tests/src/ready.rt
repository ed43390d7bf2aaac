//! Small models and mappings that are ready to be asked.
ghost use Rattle.std.specs.Prelude.{◌≡◌, ◌<◌, ◌+◌, ◌^◌, length, IsTrue, IfSome};
ghost use Rattle.vocabulary.specs.Lists.{In};
ghost use Rattle.dllite_axioms.specs.declared.axioms.Axiom.{Axiom as AxiomOf};
ghost use Rattle.dllite_axioms.specs.Within.{IsAxiomWithin, IsWithin};
ghost use Rattle.mapping_facts.specs.declared.mapping.Mapping.{Mapping as MappingOf};
ghost use Rattle.mapping_facts.specs.Fits.{AreFit};
ghost use Rattle.mapping_facts.specs.Within.{AreTargetsWithin, IsTargetWithin, with_targets};

use certain_answers::Specification;
use dllite_axioms::{Axiom, Basic, Tbox};
use mapping_facts::{Mapping, Target};
use std::alloc::Global;
use std::test::Fail;

fn is_within(basic: Basic) -> bool
    ensures { IsTrue result → IsWithin 199 9 basic }
{
    match basic {
        Basic::Class(class) => class.0 < 199,
        Basic::Has(link, _) => link.0 < 9,
    }
}

fn is_axiom_within(axiom: Axiom) -> bool
    ensures { IsTrue result → IsAxiomWithin 199 9 «axiom» }
{
    match axiom {
        Axiom::Sub(left, right) => is_within(left) && is_within(right),
        Axiom::SubLink(narrow, _, wide) => narrow.0 < 9 && wide.0 < 9,
    }
}

fn are_within(axioms: &[Axiom]) -> bool
    ensures { IsTrue result → (a : AxiomOf) → In a axioms.now → IsAxiomWithin 199 9 a }
{
    for axiom in axioms {
        if !is_axiom_within(*axiom) {
            return false;
        }
    }
    true
}

fn is_target_within(target: &Target) -> bool
    ensures { IsTrue result → IsTargetWithin 199 9 target.now }
{
    match target {
        Target::InClass(class, _) => class.0 < 199,
        Target::Linked(link, _, _) => link.0 < 9,
    }
}

fn are_all_within(targets: &[Target]) -> bool
    ensures { IsTrue result → AreTargetsWithin 199 9 targets.now }
{
    for target in targets {
        if !is_target_within(target) {
            return false;
        }
    }
    true
}

fn are_targets_within(mappings: &[Mapping]) -> bool
    ensures { IsTrue result → (m : MappingOf) → In m mappings.now → AreTargetsWithin 199 9 m.targets }
{
    for mapping in mappings {
        if !are_all_within(mapping.targets.items()) {
            return false;
        }
    }
    true
}

// How many targets they have together.
fn count(mappings: &[Mapping]) -> Option<usize>
    ensures { IfSome result (λ n. n ≡ length (with_targets mappings.now)) }
{
    let [first, rest @ ..] = mappings else {
        return Some(0);
    };
    first.targets.len().checked_add(count(rest)?)
}

fn are_few(mappings: &[Mapping]) -> bool
    ensures { IsTrue result → length mappings.now + length (with_targets mappings.now) < 2 ^ 32 }
{
    match count(mappings) {
        Some(targets) => mappings.len() < 100 && targets < 100,
        None => false,
    }
}

/// At most 199 classes and axioms, 99 mappings and targets, and 9 links.
pub fn ready(alloc: Global, tbox: &Tbox, mappings: &[Mapping]) -> Result<Specification, Fail>
    requires { AreFit mappings.now }
{
    if tbox.axioms().len() > 199 || !are_within(tbox.axioms()) {
        return Err(Fail::new("axioms"));
    }
    if !are_targets_within(mappings) || !are_few(mappings) {
        return Err(Fail::new("mappings"));
    }
    Ok(Specification::of(alloc, tbox, 199, 9, mappings)?)
}
