//! Whether conflicts of a model may be asked for.
ghost use Rattle.std.specs.Prelude.{◌≡◌, ◌<◌, ◌+◌, ◌^◌, length, IsTrue, IfSome};
ghost use Rattle.vocabulary.specs.Lists.{In};
ghost use Rattle.dllite_axioms.specs.declared.axioms.Axiom.{Axiom as AxiomOf};
ghost use Rattle.dllite_axioms.specs.declared.axioms.Constraint.{Constraint as ConstraintOf};
ghost use Rattle.dllite_axioms.specs.Within.{IsAxiomWithin, IsConstraintWithin, IsWithin};
ghost use Rattle.mapping_facts.specs.declared.mapping.Mapping.{Mapping as MappingOf};
ghost use Rattle.mapping_facts.specs.Within.{AreTargetsWithin, IsTargetWithin, with_targets};
ghost use Rattle.consistency_check.specs.Checkable.{IsCheckable};

use dllite_axioms::{Axiom, Basic, Constraint};
use mapping_facts::{Mapping, Target};

fn is_within(basic: Basic) -> bool
    ensures { IsTrue result → IsWithin 10 10 basic }
{
    match basic {
        Basic::Class(class) => class.0 < 10,
        Basic::Has(link, _) => link.0 < 10,
    }
}

fn is_axiom_within(axiom: Axiom) -> bool
    ensures { IsTrue result → IsAxiomWithin 10 10 «axiom» }
{
    match axiom {
        Axiom::Sub(left, right) => is_within(left) && is_within(right),
        Axiom::SubLink(narrow, _, wide) => narrow.0 < 10 && wide.0 < 10,
    }
}

/// Over ten classes and ten links.
pub fn are_within(axioms: &[Axiom]) -> bool
    ensures { IsTrue result → (a : AxiomOf) → In a axioms.now → IsAxiomWithin 10 10 a }
{
    for axiom in axioms {
        if !is_axiom_within(*axiom) {
            return false;
        }
    }
    true
}

fn is_constraint_within(constraint: &Constraint) -> bool
    ensures { IsTrue result → IsConstraintWithin 10 10 constraint.now }
{
    match constraint {
        Constraint::Disjoint(left, right) => is_within(*left) && is_within(*right),
        Constraint::Func(link, _) => link.0 < 10,
        Constraint::Apart(one, _, two) => one.0 < 10 && two.0 < 10,
        Constraint::Identified(_, _) => false,
    }
}

/// Over ten classes and ten links.
pub fn are_constraints_within(constraints: &[Constraint]) -> bool
    ensures { IsTrue result → (k : ConstraintOf) → In k constraints.now → IsConstraintWithin 10 10 k }
{
    for constraint in constraints {
        if !is_constraint_within(constraint) {
            return false;
        }
    }
    true
}

// Of a functional link only without axioms, and of no identification.
fn is_checkable(axioms: &[Axiom], constraint: &Constraint) -> bool
    ensures { IsTrue result → IsCheckable axioms.now constraint.now }
{
    match constraint {
        Constraint::Disjoint(_, _) | Constraint::Apart(_, _, _) => true,
        Constraint::Func(_, _) => axioms.is_empty(),
        Constraint::Identified(_, _) => false,
    }
}

/// Functional links only without axioms, and no identifications.
pub fn are_checkable(axioms: &[Axiom], constraints: &[Constraint]) -> bool
    ensures { IsTrue result → (k : ConstraintOf) → In k constraints.now → IsCheckable axioms.now k }
{
    for constraint in constraints {
        if !is_checkable(axioms, constraint) {
            return false;
        }
    }
    true
}

fn is_target_within(target: &Target) -> bool
    ensures { IsTrue result → IsTargetWithin 10 10 target.now }
{
    match target {
        Target::InClass(class, _) => class.0 < 10,
        Target::Linked(link, _, _) => link.0 < 10,
    }
}

fn are_all_within(targets: &[Target]) -> bool
    ensures { IsTrue result → AreTargetsWithin 10 10 targets.now }
{
    for target in targets {
        if !is_target_within(target) {
            return false;
        }
    }
    true
}

/// Over ten classes and ten links.
pub fn are_targets_within(mappings: &[Mapping]) -> bool
    ensures { IsTrue result → (m : MappingOf) → In m mappings.now → AreTargetsWithin 10 10 m.targets }
{
    for mapping in mappings {
        if !are_all_within(mapping.targets.items()) {
            return false;
        }
    }
    true
}

// How many targets they have together.
fn count(mappings: &[Mapping]) -> Option<usize>
    ensures { IfSome result (λ n. n ≡ length (with_targets mappings.now)) }
{
    let [first, rest @ ..] = mappings else {
        return Some(0);
    };
    first.targets.len().checked_add(count(rest)?)
}

/// At most 99 mappings, and at most 99 targets of all of them.
pub fn are_few(mappings: &[Mapping]) -> bool
    ensures { IsTrue result → length mappings.now + length (with_targets mappings.now) < 2 ^ 32 }
{
    match count(mappings) {
        Some(targets) => mappings.len() < 100 && targets < 100,
        None => false,
    }
}
