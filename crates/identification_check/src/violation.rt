//! Violations of identification constraints.
ghost use Rattle.std.specs.Prelude.{◌<◌, IfOk, MatchOption};
ghost use Rattle.vocabulary.specs.Lists.{In};
ghost use Rattle.vocabulary.specs.declared.ids.LinkId.{LinkId as LinkOf};
ghost use Rattle.dllite_axioms.specs.declared.axioms.Constraint.TheVariants.{Identified};
ghost use Rattle.dllite_axioms.specs.Clashes.{IsContradicted};
ghost use Rattle.mapping_facts.specs.Facts.{mapped_facts};
ghost use Rattle.mapping_facts.specs.Fits.{AreFit};
ghost use Rattle.mapping_saturation.specs.Saturation.{GiveTheKnown};
ghost use Rattle.identification_check.specs.Violations.{AreAttributes, IsViolation};

use crate::asking::members_query;
use crate::chaining::chained;
use crate::twins::twin_facts;
use conflict_checker::Step;
use mapping_facts::Mapping;
use negative_closure::Downs;
use query_images::images;
use source_tables::Table;
use std::alloc::{AllocError, Global};
use vocabulary::{ClassId, LinkId, List};

/// Steps that derive facts which clash under an identification constraint, and the numbers of the steps
/// with these facts, in the order in which they clash. All numbers count from 1.
#[derive(Debug, Drop)]
pub struct Violation {
    pub steps: List<Step>,
    pub ends: List<u32>,
}

/// Two known members of the class that share a known value of each attribute, by derivations of the facts
/// that say so; `None` exactly where no chase of the mapped facts has such members. The saturated mappings
/// are those whose facts are the known facts of the chase. They are asked for the members with their
/// values; of these some two that clash stand side by side, in order of the values.
pub fn find_violation(
    alloc: Global,
    class: ClassId,
    links: &[LinkId],
    downs: &Downs,
    saturated: &[Mapping],
    mappings: &[Mapping],
    tables: &[Table],
) -> Result<Option<Violation>, AllocError>
    requires class { class.0 < downs.now.classes }
    requires links { (u : LinkOf) → In u links.now → u.0 < downs.now.links }
    requires attributes { AreAttributes downs.now.axioms links.now }
    requires fit { AreFit mappings.now }
    requires saturated_fit { AreFit saturated.now }
    requires known { GiveTheKnown downs.now.axioms mappings.now saturated.now }
    ensures { IfOk result (λ found. MatchOption found (IsContradicted downs.now.axioms (mapped_facts mappings.now tables.now) (Identified class links.now) → ⊥) (IsViolation downs.now.axioms mappings.now tables.now (Identified class links.now))) }
{
    let query = members_query(alloc, class, links)?;
    let tuples = images(alloc, &query, saturated, tables)?;
    match twin_facts(alloc, class, links, tuples.items())? {
        Some(facts) => Ok(Some(chained(alloc, facts.items(), downs, mappings, tables)?)),
        None => Ok(None),
    }
}
