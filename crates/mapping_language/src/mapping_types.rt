//! Whether the terms and conditions of a mapping line fit where they stand.
ghost use Rattle.std.specs.Prelude.{◌≡◌, ◌==◌, not, is_some, IfOk};
ghost use Rattle.std.specs.List.{list_any};
ghost use Rattle.jiff_core.specs.Calendar.{IsWithin};
ghost use Rattle.uml_model.specs.Rules.{class_named, link_named};
ghost use Rattle.mapping_language.specs.Changes.{HaveOffsets};
ghost use Rattle.mapping_language.specs.Mappings.{is_of_kind, is_value as has_value, fits, kind_at as kind_of_cell, compares, is_illtyped, places, is_misapplied, mismatch};
ghost use Rattle.mapping_language.specs.Shown.{cell_shown, other_shown, condition_shown, term_shown, target_shown, map_shown};

use crate::Sources;
use crate::scope::{kind_at, offset_under};
use crate::written::{Cell, Condition, MapLine, Other, Target, Term};
use source_tables::read_value;
use std::alloc::{AllocError, Global};
use uml_model::Model;
use vocabulary::{Side, ValueKind};

fn is_of_kind(kind: ValueKind, other: Option<ValueKind>) -> bool
    ensures { result ≡ is_of_kind kind other }
{
    match other {
        Some(other) => kind == other,
        None => false,
    }
}

fn is_value(alloc: Global, kind: ValueKind, text: &str, offset: i32) -> Result<bool, AllocError>
    requires { IsWithin 840 offset }
    ensures { IfOk result (λ r. r ≡ has_value offset kind text.now) }
{
    let value = read_value(alloc, kind, text, offset)?;
    Ok(value.is_some())
}

fn fits_value(
    alloc: Global,
    sources: &Sources,
    line: &MapLine<'_>,
    term: &Term<'_>,
    kind: ValueKind,
) -> Result<bool, AllocError>
    ensures { IfOk result (λ r. r ≡ fits sources.now (map_shown line.now) (term_shown term.now) (Side.Value kind)) }
{
    match term {
        Term::Iri(_) => Ok(false),
        Term::Column(cell) => Ok(is_of_kind(kind, kind_at(sources, line, cell))),
        Term::Constant(text) => is_value(alloc, kind, text, 0),
    }
}

fn fits(
    alloc: Global,
    sources: &Sources,
    line: &MapLine<'_>,
    term: &Term<'_>,
    side: Side,
) -> Result<bool, AllocError>
    ensures { IfOk result (λ r. r ≡ fits sources.now (map_shown line.now) (term_shown term.now) side) }
{
    match side {
        Side::Object => Ok(matches!(term, Term::Iri(_))),
        Side::Value(kind) => fits_value(alloc, sources, line, term, kind),
    }
}

fn compares(
    alloc: Global,
    sources: &Sources,
    line: &MapLine<'_>,
    cell: &Cell<'_>,
    other: &Other<'_>,
) -> Result<bool, AllocError>
    requires { HaveOffsets sources.now }
    ensures { IfOk result (λ r. r ≡ compares sources.now (map_shown line.now) (cell_shown cell.now) (other_shown other.now) (kind_of_cell sources.now (map_shown line.now) (cell_shown cell.now))) }
{
    match kind_at(sources, line, cell) {
        None => Ok(false),
        Some(kind) => match other {
            Other::Cell(other) => Ok(is_of_kind(kind, kind_at(sources, line, other))),
            Other::Text(text) => {
                is_value(alloc, kind, text, offset_under(sources, line, cell.alias))
            }
        },
    }
}

fn is_illtyped(
    alloc: Global,
    sources: &Sources,
    line: &MapLine<'_>,
    condition: &Condition<'_>,
) -> Result<bool, AllocError>
    requires { HaveOffsets sources.now }
    ensures { IfOk result (λ r. r ≡ is_illtyped sources.now (map_shown line.now) (condition_shown condition.now)) }
{
    match condition {
        Condition::Same(a, b) => Ok(!compares(alloc, sources, line, a, b)?),
        Condition::Differs(a, b) => Ok(!compares(alloc, sources, line, a, b)?),
        Condition::Null(_) => Ok(false),
        Condition::NotNull(_) => Ok(false),
    }
}

fn has_illtyped(
    alloc: Global,
    sources: &Sources,
    line: &MapLine<'_>,
    conditions: &[Condition<'_>],
) -> Result<bool, AllocError>
    requires { HaveOffsets sources.now }
    ensures { IfOk result (λ r. r ≡ list_any (λ c. is_illtyped sources.now (map_shown line.now) (condition_shown c)) conditions.now) }
{
    for condition in conditions {
        if is_illtyped(alloc, sources, line, condition)? {
            return Ok(true);
        }
    }
    Ok(false)
}

// The name asks another number of terms, or stands for something else.
fn is_misapplied(model: &Model, target: &Target<'_>) -> bool
    ensures { result ≡ is_misapplied (class_named model.now) (link_named model.now) (target_shown target.now) }
{
    match target {
        Target::One(p, _) => model.class_named(p).is_none(),
        Target::Two(p, _, _) => model.link_named(p).is_none(),
    }
}

fn has_misapplied(model: &Model, targets: &[Target<'_>]) -> bool
    ensures { result ≡ list_any (λ t. is_misapplied (class_named model.now) (link_named model.now) (target_shown t)) targets.now }
{
    targets.iter().any(|t| is_misapplied(model, t))
}

// A term of the target does not fit its place. A target that is misapplied has no places.
fn is_misfit(
    alloc: Global,
    sources: &Sources,
    model: &Model,
    line: &MapLine<'_>,
    target: &Target<'_>,
) -> Result<bool, AllocError>
    ensures { IfOk result (λ r. r ≡ list_any (λ placed. not (fits sources.now (map_shown line.now) placed.term placed.side)) (places (class_named model.now) (link_named model.now) (target_shown target.now))) }
{
    match target {
        Target::One(p, a) => match model.class_named(p) {
            Some(_) => Ok(!fits(alloc, sources, line, a, Side::Object)?),
            None => Ok(false),
        },
        Target::Two(p, a, b) => match model.link_named(p) {
            Some((_, side)) => {
                let first = fits(alloc, sources, line, a, Side::Object)?;
                let second = fits(alloc, sources, line, b, side)?;
                Ok(!first || !second)
            }
            None => Ok(false),
        },
    }
}

fn has_misfit(
    alloc: Global,
    sources: &Sources,
    model: &Model,
    line: &MapLine<'_>,
    targets: &[Target<'_>],
) -> Result<bool, AllocError>
    ensures { IfOk result (λ r. r ≡ list_any (λ t. list_any (λ placed. not (fits sources.now (map_shown line.now) placed.term placed.side)) (places (class_named model.now) (link_named model.now) (target_shown t))) targets.now) }
{
    for target in targets {
        if is_misfit(alloc, sources, model, line, target)? {
            return Ok(true);
        }
    }
    Ok(false)
}

/// A target or a condition has what does not fit there.
#[tactic(auto, using(line_lexer::proofs::Twice::any_of_map, crate::proofs::Cells::misfits))]
pub(crate) fn mismatch(
    alloc: Global,
    sources: &Sources,
    model: &Model,
    line: &MapLine<'_>,
) -> Result<bool, AllocError>
    requires { HaveOffsets sources.now }
    ensures { IfOk result (λ r. r ≡ mismatch (class_named model.now) (link_named model.now) sources.now (map_shown line.now)) }
{
    if has_misapplied(model, &line.targets) {
        return Ok(true);
    }
    if has_misfit(alloc, sources, model, line, &line.targets)? {
        return Ok(true);
    }
    let illtyped = has_illtyped(alloc, sources, line, &line.conditions)?;
    Ok(illtyped)
}
