//! The rules of mapping lines, in their order.
ghost use Rattle.std.specs.Prelude.{◌≡◌, ◌+◌, ◌≤◌, ◌∷◌, [], nat_lt, length, IfOk, None};
ghost use Rattle.line_lexer.specs.Faults.{limit_of};
ghost use Rattle.line_lexer.specs.Judging.{first_passed};
ghost use Rattle.line_lexer.specs.declared.fault.Counted.TheVariants.{Mappings, TablesOfMapping, Conditions, Targets};
ghost use Rattle.uml_model.specs.Rules.{class_named, link_named};
ghost use Rattle.mapping_language.specs.Changes.{HaveOffsets};
ghost use Rattle.mapping_language.specs.Built.{IsWithinLimits};
ghost use Rattle.mapping_language.specs.Mappings.{broken};
ghost use Rattle.mapping_language.specs.Shown.{map_shown};

use crate::Sources;
use crate::mapping_double::double;
use crate::mapping_templates::{Flaw, has_flawed};
use crate::mapping_types::mismatch;
use crate::mapping_unknown::unknown;
use crate::source_rules::passes_with_one;
use crate::written::MapLine;
use line_lexer::{Counted, LineFault};
use std::alloc::{AllocError, Global};
use uml_model::Model;

fn passes(what: Counted, count: usize) -> bool
    ensures { result ≡ nat_lt (limit_of what) count }
{
    what.limit() < count as u64
}

// What the line makes pass its number.
#[tactic(auto, using(crate::proofs::Lists::length_of_map))]
fn passed(sources: &Sources, line: &MapLine<'_>) -> Option<Counted>
    ensures first { result ≡ first_passed ((Mappings, length sources.now.mappings + 1) ∷ (TablesOfMapping, length (map_shown line.now).sources) ∷ (Conditions, length (map_shown line.now).conditions) ∷ (Targets, length (map_shown line.now).targets) ∷ []) }
    ensures within { result ≡ None → IsWithinLimits sources.now (map_shown line.now) }
{
    if passes_with_one(Counted::Mappings, sources.mappings().len()) {
        return Some(Counted::Mappings);
    }
    if passes(Counted::TablesOfMapping, line.sources.len()) {
        return Some(Counted::TablesOfMapping);
    }
    if passes(Counted::Conditions, line.conditions.len()) {
        return Some(Counted::Conditions);
    }
    if passes(Counted::Targets, line.targets.len()) {
        return Some(Counted::Targets);
    }
    None
}

/// The first rule that the line breaks.
#[tactic(auto, unfolding(crate::specs::Mappings::broken))]
pub(crate) fn broken(
    alloc: Global,
    sources: &Sources,
    model: &Model,
    line: &MapLine<'_>,
) -> Result<Option<LineFault>, AllocError>
    requires { HaveOffsets sources.now }
    ensures first { IfOk result (λ o. o ≡ broken (class_named model.now) (link_named model.now) sources.now (map_shown line.now)) }
    ensures within { IfOk result (λ o. o ≡ None → IsWithinLimits sources.now (map_shown line.now)) }
{
    if unknown(sources, model, line) {
        return Ok(Some(LineFault::Unknown));
    }
    if double(alloc, sources, line)? {
        return Ok(Some(LineFault::Double));
    }
    if mismatch(alloc, sources, model, line)? {
        return Ok(Some(LineFault::TypeMismatch));
    }
    if has_flawed(alloc, Flaw::Bad, line)? {
        return Ok(Some(LineFault::BadTemplate));
    }
    if has_flawed(alloc, Flaw::Unbounded, line)? {
        return Ok(Some(LineFault::NotBounded));
    }
    match passed(sources, line) {
        Some(what) => Ok(Some(LineFault::Limit(what))),
        None => Ok(None),
    }
}
