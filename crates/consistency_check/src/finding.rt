//! Contradicted constraints.
ghost use Rattle.std.specs.Prelude.{◌≡◌, ◌<◌, ◌≤◌, ◌+◌, ◌-◌, ◌^◌, length, IfOk, OnOk};
ghost use Rattle.vocabulary.specs.Lists.{In};
ghost use Rattle.dllite_axioms.specs.Within.{IsAxiomWithin, IsConstraintWithin};
ghost use Rattle.dllite_axioms.specs.declared.axioms.Axiom.{Axiom as AxiomOf};
ghost use Rattle.dllite_axioms.specs.declared.axioms.Constraint.{Constraint as ConstraintOf};
ghost use Rattle.dllite_axioms.specs.declared.axioms.Constraint.TheVariants.{Identified};
ghost use Rattle.mapping_facts.specs.Fits.{AreFit};
ghost use Rattle.mapping_facts.specs.declared.mapping.Mapping.{Mapping as MappingOf};
ghost use Rattle.mapping_facts.specs.Within.{AreTargetsWithin, with_targets};
ghost use Rattle.join_engine.specs.Indexes.{AreOf};
ghost use Rattle.negative_closure.specs.Sources.{HasExactSources};
ghost use Rattle.identification_check.specs.Violations.{AreAttributes};
ghost use Rattle.consistency_check.specs.Checkable.{IsCheckable, IsPrepared, KnowAll};
ghost use Rattle.consistency_check.specs.Contradictions.{AreContradictions, IsContradiction, IsContradictionOf};
ghost use Rattle.consistency_check.specs.Given.{AreMarked};

use crate::composing::derivation_of;
use crate::meeting::meet;
use crate::prepared::Prepared;
use conflict_checker::{Derivation, item};
use dllite_axioms::{Constraint, Tbox};
use identification_check::{Violation, find_violation};
use join_engine::Indexes;
use mapping_facts::Mapping;
use source_tables::Table;
use std::alloc::{AllocError, Global};
use vocabulary::{ClassId, LinkId, List};

// The derivation of this constraint.
fn numbered(constraint: u32, violation: Violation) -> Derivation
    ensures { result ≡ record { constraint = constraint; steps = violation.steps; ends = violation.ends } }
{
    let Violation { steps, ends } = violation;
    Derivation {
        constraint,
        steps,
        ends,
    }
}

// By two members that share their values.
fn by_values(
    alloc: Global,
    number: u32,
    class: ClassId,
    links: &[LinkId],
    prepared: &Prepared,
    mappings: &[Mapping],
    tables: &[Table],
) -> Result<Option<Derivation>, AllocError>
    requires fit { AreFit mappings.now }
    requires within { IsConstraintWithin prepared.now.downs.classes prepared.now.downs.links (Identified class links.now) }
    requires attributes { AreAttributes prepared.now.downs.axioms links.now }
    requires saturated { KnowAll prepared.now.downs.axioms mappings.now prepared.now.saturated }
    ensures { IfOk result (IsContradictionOf prepared.now.downs.axioms mappings.now tables.now number (Identified class links.now)) }
{
    let (downs, saturated) = (&prepared.downs, prepared.saturated.items());
    match find_violation(alloc, class, links, downs, saturated, mappings, tables)? {
        Some(violation) => Ok(Some(numbered(number, violation))),
        None => Ok(None),
    }
}

// By a source that mapped facts meet.
fn by_sources(
    alloc: Global,
    number: u32,
    constraint: &Constraint,
    prepared: &Prepared,
    mappings: &[Mapping],
    tables: &[Table],
    indexes: &mut Indexes,
) -> Result<Option<Derivation>, AllocError>
    requires fit { AreFit mappings.now }
    requires indexes { AreOf tables.now indexes.old }
    requires given { AreMarked mappings.now prepared.now.given }
    requires within { IsConstraintWithin prepared.now.downs.classes prepared.now.downs.links constraint.now }
    requires exact { HasExactSources prepared.now.downs.axioms constraint.now }
    ensures found { IfOk result (IsContradictionOf prepared.now.downs.axioms mappings.now tables.now number constraint.now) }
    ensures indexes { OnOk result (AreOf tables.now indexes.new) }
{
    let downs = &prepared.downs;
    let sources = downs.empty_sources(alloc, constraint)?;
    for source in sources.items() {
        if let Some(met) = meet(alloc, source, &prepared.given, mappings, tables, indexes)? {
            let plan = downs.plan(alloc, constraint, source)?;
            return Ok(Some(derivation_of(alloc, number, met, &plan)?));
        }
    }
    Ok(None)
}

// A derivation of a constraint, `None` exactly where it is not contradicted.
fn contradiction(
    alloc: Global,
    number: u32,
    tbox: &Tbox,
    prepared: &Prepared,
    mappings: &[Mapping],
    tables: &[Table],
    indexes: &mut Indexes,
) -> Result<Option<Derivation>, AllocError>
    requires fit { AreFit mappings.now }
    requires indexes { AreOf tables.now indexes.old }
    requires prepared { IsPrepared tbox.now mappings.now prepared.now }
    requires constraints { (c : ConstraintOf) → In c tbox.now.constraints → IsConstraintWithin prepared.now.downs.classes prepared.now.downs.links c }
    requires checkable { (c : ConstraintOf) → In c tbox.now.constraints → IsCheckable tbox.now.axioms c }
    ensures found { IfOk result (λ found. IsContradiction tbox.now mappings.now tables.now number found) }
    ensures indexes { OnOk result (AreOf tables.now indexes.new) }
{
    let Some(constraint) = item(tbox.constraints(), number) else {
        return Ok(None);
    };
    if let Constraint::Identified(class, links) = constraint {
        return by_values(
            alloc,
            number,
            *class,
            links.items(),
            prepared,
            mappings,
            tables,
        );
    }
    by_sources(
        alloc, number, constraint, prepared, mappings, tables, indexes,
    )
}

/// One accepted derivation for each constraint that is contradicted over the mapped facts, and none for
/// others, in increasing order of the constraints. All is over so many classes and links.
pub fn conflicts(
    alloc: Global,
    tbox: &Tbox,
    classes: u32,
    links: u32,
    mappings: &[Mapping],
    tables: &[Table],
) -> Result<List<Derivation>, AllocError>
    requires fit { AreFit mappings.now }
    requires few_classes { classes ≤ 400 }
    requires few_links { links ≤ 600 }
    requires few_axioms { length tbox.now.axioms < 2 ^ 32 - 1 }
    requires few_constraints { length tbox.now.constraints < 2 ^ 32 - 1 }
    requires few_targets { length mappings.now + length (with_targets mappings.now) < 2 ^ 32 }
    requires axioms { (a : AxiomOf) → In a tbox.now.axioms → IsAxiomWithin classes links a }
    requires constraints { (c : ConstraintOf) → In c tbox.now.constraints → IsConstraintWithin classes links c }
    requires targets { (m : MappingOf) → In m mappings.now → AreTargetsWithin classes links m.targets }
    requires checkable { (c : ConstraintOf) → In c tbox.now.constraints → IsCheckable tbox.now.axioms c }
    ensures { IfOk result (AreContradictions tbox.now mappings.now tables.now (length tbox.now.constraints)) }
{
    let prepared = Prepared::of(alloc, tbox, classes, links, mappings)?;
    let mut indexes = Indexes::new(alloc);
    let mut found = List::new(alloc);
    for at in 0..tbox.constraints().len() {
        let number = at as u32 + 1;
        let contradicted = contradiction(
            alloc,
            number,
            tbox,
            &prepared,
            mappings,
            tables,
            &mut indexes,
        )?;
        if let Some(derivation) = contradicted {
            found.push(derivation)?;
        }
    }
    Ok(found)
}
