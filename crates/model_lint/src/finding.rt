//! The void elements of a model.
ghost use Rattle.std.specs.Prelude.{◌≡◌, ◌<◌, ◌≤◌, ◌-◌, ◌^◌, Some, IfOk, MatchOption, length, map};
ghost use Rattle.vocabulary.specs.Lists.{In, item};
ghost use Rattle.dllite_axioms.specs.declared.axioms.Axiom.{Axiom as AxiomOf};
ghost use Rattle.dllite_axioms.specs.declared.axioms.Constraint.{Constraint as ConstraintOf};
ghost use Rattle.dllite_axioms.specs.declared.axioms.Tbox.{Tbox as TboxOf};
ghost use Rattle.dllite_axioms.specs.Within.{IsAxiomWithin, IsConstraintWithin};
ghost use Rattle.negative_closure.specs.Sources.{IsSource};
ghost use Rattle.negative_closure.specs.declared.source.Source.TheVariants.{One};
ghost use Rattle.model_lint.specs.Marks.{AreMarks, IsFound, basic_of, element, merged, merged_rule};
ghost use Rattle.model_lint.specs.Voids.{AreVoids, Shows};

use crate::marking::{mark_at, marks_of};
use crate::{Void, VoidProof};
use dllite_axioms::{Basic, Constraint, Tbox};
use negative_closure::{Downs, Source};
use std::alloc::{AllocError, Global};
use vocabulary::{ClassId, Dir, LinkId, List};

/// A proof for each void element among so many classes and links: the classes by number, then the
/// links. Which proof of an element is given is free.
pub fn voids(
    alloc: Global,
    tbox: &Tbox,
    classes: u32,
    links: u32,
) -> Result<List<VoidProof>, AllocError>
    requires few_classes { classes ≤ 400 }
    requires few_links { links ≤ 600 }
    requires few_axioms { length tbox.now.axioms < 2 ^ 32 - 1 }
    requires few_constraints { length tbox.now.constraints < 2 ^ 32 - 1 }
    requires axioms { (a : AxiomOf) → In a tbox.now.axioms → IsAxiomWithin classes links a }
    requires constraints { (c : ConstraintOf) → In c tbox.now.constraints → IsConstraintWithin classes links c }
    ensures { IfOk result (AreVoids tbox.now classes links) }
{
    let downs = Downs::of(alloc, tbox, classes, links)?;
    let marks = marks_of(alloc, &downs, tbox.constraints())?;
    let mut proofs = List::new(alloc);
    for number in 0..classes + links {
        let what = element(classes, number);
        if let Some(proof) = proof_of(alloc, &downs, tbox, marks.items(), what)? {
            proofs.push(proof)?;
        }
    }
    Ok(proofs)
}

// The element of a number: classes first, then links.
fn element(classes: u32, number: u32) -> Void
    ensures { result ≡ element classes number }
{
    if number < classes {
        Void::Class(ClassId(number))
    } else {
        Void::Link(LinkId(number - classes))
    }
}

fn basic_of(what: Void) -> Basic
    ensures { result ≡ basic_of what }
{
    match what {
        Void::Class(class) => Basic::Class(class),
        Void::Link(link) => Basic::Has(link, Dir::Fwd),
    }
}

fn proof_of(
    alloc: Global,
    downs: &Downs,
    tbox: &Tbox,
    marks: &[(Basic, u32)],
    what: Void,
) -> Result<Option<VoidProof>, AllocError>
    requires axioms { downs.now.axioms ≡ tbox.now.axioms }
    requires within { (c : ConstraintOf) → In c tbox.now.constraints → IsConstraintWithin downs.now.classes downs.now.links c }
    requires marks { AreMarks tbox.now.axioms tbox.now.constraints (length tbox.now.constraints) marks.now }
    ensures { IfOk result (IsFound tbox.now what) }
{
    let Some(number) = mark_at(marks, basic_of(what)) else {
        return Ok(None);
    };
    let constraint = &tbox.constraints()[(number - 1) as usize];
    let proof = proof_by(alloc, downs, constraint, number, what)?;
    Ok(Some(proof))
}

// The plan of the source that one fact of the element meets.
fn proof_by(
    alloc: Global,
    downs: &Downs,
    constraint: &Constraint,
    number: u32,
    what: Void,
) -> Result<VoidProof, AllocError>
    requires within { IsConstraintWithin downs.now.classes downs.now.links constraint.now }
    requires source { IsSource downs.now.axioms constraint.now (One (basic_of what)) }
    ensures { IfOk result (λ proof. (tbox : TboxOf) → tbox.axioms ≡ downs.now.axioms → item tbox.constraints number ≡ Some constraint.now → Shows tbox proof × (proof.what ≡ what)) }
{
    let plan = downs.plan(alloc, constraint, &Source::One(basic_of(what)))?;
    let rules = merged_rules(alloc, plan.rules.items())?;
    Ok(VoidProof {
        what,
        constraint: number,
        rules,
        first: merged(plan.first),
        second: merged(plan.second),
    })
}

// A step's number in a plan for two facts, where both are one.
fn merged(number: u32) -> u32
    ensures { result ≡ merged number }
{
    if 1 < number { number - 1 } else { number }
}

fn merged_rules(alloc: Global, rules: &[(u32, u32)]) -> Result<List<(u32, u32)>, AllocError>
    ensures { IfOk result (λ merged. merged ≡ map merged_rule rules.now) }
{
    let mut all = List::new(alloc);
    for rule in rules {
        all.push((rule.0, merged(rule.1)))?;
    }
    Ok(all)
}
