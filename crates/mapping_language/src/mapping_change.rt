//! What mapping lines add to the sources.
ghost use Rattle.std.specs.Prelude.{◌≡◌, ◌<◌, ◌≤◌, ◌+◌, ◌++◌, ◌∷◌, [], length, OnOk};
ghost use Rattle.uml_model.specs.Rules.{class_named, link_named};
ghost use Rattle.mapping_facts.specs.Fits.{AreFit, MappingFits};
ghost use Rattle.mapping_language.specs.Built.{IsWithinLimits};
ghost use Rattle.mapping_language.specs.Changes.{HaveOffsets};
ghost use Rattle.mapping_language.specs.Mappings.{grown};
ghost use Rattle.mapping_language.specs.Shown.{map_shown};

use crate::Sources;
use crate::mapping_build::mapping_of;
use crate::written::MapLine;
use mapping_facts::Mapping;
use std::alloc::{AllocError, Global};
use uml_model::Model;

fn push_mapping(sources: &mut Sources, mapping: Mapping) -> Result<(), AllocError>
    ensures pushed { OnOk result (sources.new ≡ record sources.old { mappings = sources.old.mappings ++ mapping ∷ [] }) }
    ensures tables { sources.new.tables ≡ sources.old.tables }
    ensures fit { AreFit sources.old.mappings → length sources.old.mappings + 1 ≤ 500 → MappingFits mapping → OnOk result (AreFit sources.new.mappings) }
{
    sources.mappings.push(mapping)
}

/// Adds the mapping of a line that breaks no rule.
#[tactic(auto, unfolding(crate::specs::Mappings::grown))]
pub(crate) fn add_mapping_line(
    alloc: Global,
    sources: &mut Sources,
    model: &Model,
    line: &MapLine<'_>,
) -> Result<(), AllocError>
    requires { HaveOffsets sources.old }
    ensures grown { OnOk result (sources.new ≡ grown (class_named model.now) (link_named model.now) sources.old (map_shown line.now)) }
    ensures tables { sources.new.tables ≡ sources.old.tables }
    ensures fit { IsWithinLimits sources.old (map_shown line.now) → 0 < length (map_shown line.now).sources → AreFit sources.old.mappings → OnOk result (AreFit sources.new.mappings) }
{
    let mapping = mapping_of(alloc, sources, model, line)?;
    push_mapping(sources, mapping)
}
