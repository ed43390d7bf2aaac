//! Names, cells and holes of mapping lines that nothing declares.
ghost use Rattle.std.specs.Prelude.{◌≡◌, ◌||◌, not, map, is_some};
ghost use Rattle.std.specs.List.{list_any, flat_map};
ghost use Rattle.uml_model.specs.Rules.{class_named, link_named};
ghost use Rattle.iri_templates.specs.Templates.{hole_at};
ghost use Rattle.mapping_language.specs.Tables.{table_number};
ghost use Rattle.mapping_language.specs.Mappings.{unknown_cell, braced, holes, cell_of_hole, cells_of_other, cells_of_condition, cells_of_term, terms_of, target_name, unknown_name, unknown};
ghost use Rattle.mapping_language.specs.Shown.{other_shown, condition_shown, term_shown, target_shown, map_shown};

use crate::Sources;
use crate::holes::{behind_brace, cell_of_hole, hole_at};
use crate::scope::is_unknown;
use crate::tables::table_number;
use crate::written::{Condition, MapLine, Other, Source, Target, Term};
use uml_model::Model;

// The text that is still to be searched for holes.
#[derive(Drop)]
struct Left<'a> {
    text: &'a str,
}

// The hole that is opened before this text, if one is, names no cell.
fn is_unknown_hole(sources: &Sources, line: &MapLine<'_>, text: &str) -> bool
    ensures { result ≡ list_any (unknown_cell sources.now (map_shown line.now)) (map cell_of_hole (braced (hole_at text.now))) }
{
    match hole_at(text) {
        Some(hole) => is_unknown(sources, line, &cell_of_hole(hole)),
        None => false,
    }
}

fn has_unknown_hole(sources: &Sources, line: &MapLine<'_>, text: &str) -> bool
    ensures { result ≡ list_any (unknown_cell sources.now (map_shown line.now)) (map cell_of_hole (holes text.now)) }
{
    let mut left = Left { text };
    while let Some(behind) = behind_brace(left.text) {
        if is_unknown_hole(sources, line, behind) {
            return true;
        }
        left.text = behind;
    }
    false
}

fn other_is_unknown(sources: &Sources, line: &MapLine<'_>, other: &Other<'_>) -> bool
    ensures { result ≡ list_any (unknown_cell sources.now (map_shown line.now)) (cells_of_other (other_shown other.now)) }
{
    match other {
        Other::Cell(cell) => is_unknown(sources, line, cell),
        Other::Text(_) => false,
    }
}

fn condition_is_unknown(sources: &Sources, line: &MapLine<'_>, condition: &Condition<'_>) -> bool
    ensures { result ≡ list_any (unknown_cell sources.now (map_shown line.now)) (cells_of_condition (condition_shown condition.now)) }
{
    match condition {
        Condition::Same(a, b) => is_unknown(sources, line, a) || other_is_unknown(sources, line, b),
        Condition::Differs(a, b) => {
            is_unknown(sources, line, a) || other_is_unknown(sources, line, b)
        }
        Condition::Null(a) => is_unknown(sources, line, a),
        Condition::NotNull(a) => is_unknown(sources, line, a),
    }
}

fn term_is_unknown(sources: &Sources, line: &MapLine<'_>, term: &Term<'_>) -> bool
    ensures { result ≡ list_any (unknown_cell sources.now (map_shown line.now)) (cells_of_term (term_shown term.now)) }
{
    match term {
        Term::Iri(text) => has_unknown_hole(sources, line, text),
        Term::Column(cell) => is_unknown(sources, line, cell),
        Term::Constant(_) => false,
    }
}

#[tactic(auto, using(std::proofs::lemmas::Grind::common_steps))]
fn target_is_unknown(sources: &Sources, line: &MapLine<'_>, target: &Target<'_>) -> bool
    ensures { result ≡ list_any (unknown_cell sources.now (map_shown line.now)) (flat_map cells_of_term (terms_of (target_shown target.now))) }
{
    match target {
        Target::One(_, a) => term_is_unknown(sources, line, a),
        Target::Two(_, a, b) => {
            term_is_unknown(sources, line, a) || term_is_unknown(sources, line, b)
        }
    }
}

fn is_unknown_name(model: &Model, target: &Target<'_>) -> bool
    ensures { result ≡ unknown_name (class_named model.now) (link_named model.now) (target_name (target_shown target.now)) }
{
    let name = match target {
        Target::One(name, _) => name,
        Target::Two(name, _, _) => name,
    };
    model.class_named(name).is_none() && model.link_named(name).is_none()
}

fn has_unknown_table(sources: &Sources, froms: &[Source<'_>]) -> bool
    ensures { result ≡ list_any (λ from. not (is_some (table_number sources.now from.table.now))) froms.now }
{
    froms
        .iter()
        .any(|from| table_number(sources, from.table).is_none())
}

fn has_unknown_condition(sources: &Sources, line: &MapLine<'_>) -> bool
    ensures { result ≡ list_any (λ c. list_any (unknown_cell sources.now (map_shown line.now)) (cells_of_condition (condition_shown c))) line.now.conditions.items }
{
    line.conditions
        .iter()
        .any(|c| condition_is_unknown(sources, line, c))
}

fn has_unknown_term(sources: &Sources, line: &MapLine<'_>) -> bool
    ensures { result ≡ list_any (λ t. list_any (unknown_cell sources.now (map_shown line.now)) (flat_map cells_of_term (terms_of (target_shown t)))) line.now.targets.items }
{
    line.targets
        .iter()
        .any(|t| target_is_unknown(sources, line, t))
}

fn has_unknown_name(model: &Model, targets: &[Target<'_>]) -> bool
    ensures { result ≡ list_any (λ t. unknown_name (class_named model.now) (link_named model.now) (target_name (target_shown t))) targets.now }
{
    targets.iter().any(|t| is_unknown_name(model, t))
}

#[tactic(auto, using(line_lexer::proofs::Twice::any_of_map, crate::proofs::Cells::unknown_cells))]
pub(crate) fn unknown(sources: &Sources, model: &Model, line: &MapLine<'_>) -> bool
    ensures { result ≡ unknown (class_named model.now) (link_named model.now) sources.now (map_shown line.now) }
{
    has_unknown_table(sources, &line.sources)
        || has_unknown_condition(sources, line)
        || has_unknown_term(sources, line)
        || has_unknown_name(model, &line.targets)
}
