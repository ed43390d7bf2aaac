//! The mapping that a mapping line is.
ghost use Rattle.std.specs.Prelude.{◌≡◌, ◌++◌, ◌∷◌, [], map, IfOk, OnOk, Some};
ghost use Rattle.std.specs.List.{flat_map};
ghost use Rattle.std.specs.Option.{option_copied};
ghost use Rattle.jiff_core.specs.Calendar.{IsWithin};
ghost use Rattle.uml_model.specs.Rules.{class_named, link_named};
ghost use Rattle.iri_templates.specs.Templates.{template_of as template_by, hole_texts};
ghost use Rattle.mapping_language.specs.Tables.{table_number as number_of_table};
ghost use Rattle.mapping_language.specs.Changes.{HaveOffsets};
ghost use Rattle.line_lexer.specs.Judging.{or_zero as zero_or};
ghost use Rattle.mapping_language.specs.Mappings.{number_in as number_of_column, place_at as place_of_cell, cell_of_hole as cell_named, constant as constant_text, constant_at as constant_of_cell, condition_of as condition_by, kind_of_side as side_kind, row_term_of as row_term_by, targets_of as targets_by, mapping_of as mapping_by};
ghost use Rattle.mapping_language.specs.Shown.{cell_shown, condition_shown, term_shown, target_shown, map_shown};

use crate::Sources;
use crate::holes::cell_of_hole;
use crate::scope::{kind_at, offset_under, place_of, table_under};
use crate::source_change::id_number;
use crate::tables::{column_number, table_number};
use crate::written::{Cell, Condition, MapLine, Other, Source, Target, Term};
use iri_templates::Template;
use mapping_facts::{
    Condition as RowCondition, Mapping, Place, RowTerm, SourceQuery, Target as RowTarget,
};
use source_tables::{TableDecl, read_value};
use std::alloc::{AllocError, Global};
use uml_model::Model;
use vocabulary::{ColId, List, Name, Side, TableId, Term as KnownTerm, ValueKind};

fn or_zero(place: Option<usize>) -> usize
    ensures { result ≡ zero_or place }
{
    match place {
        Some(place) => place,
        None => 0,
    }
}

fn number_in(table: Option<&TableDecl>, column: &str) -> usize
    ensures { result ≡ number_of_column (option_copied table.entry) column.now }
{
    match table {
        Some(table) => or_zero(column_number(table, column)),
        None => 0,
    }
}

fn place_at(sources: &Sources, line: &MapLine<'_>, cell: &Cell<'_>) -> Result<Place, AllocError>
    ensures { IfOk result (λ p. p ≡ place_of_cell sources.now (map_shown line.now) (cell_shown cell.now)) }
{
    let table = id_number(or_zero(place_of(line, cell.alias)))?;
    let under = table_under(sources, line, cell.alias);
    let col = ColId(id_number(number_in(under, cell.column))?);
    Ok(Place { table, col })
}

// The canonical text of a constant. The rules have read it once, so there is one.
fn constant(
    alloc: Global,
    kind: Option<ValueKind>,
    text: &str,
    offset: i32,
) -> Result<Name, AllocError>
    requires { IsWithin 840 offset }
    ensures { IfOk result (λ name. name ≡ constant_text offset kind text.now) }
{
    let Some(kind) = kind else {
        return Name::new(alloc, "");
    };
    match read_value(alloc, kind, text, offset)? {
        Some(name) => Ok(name),
        None => Name::new(alloc, ""),
    }
}

fn constant_at(
    alloc: Global,
    sources: &Sources,
    line: &MapLine<'_>,
    cell: &Cell<'_>,
    text: &str,
) -> Result<Name, AllocError>
    requires { HaveOffsets sources.now }
    ensures { IfOk result (λ name. name ≡ constant_of_cell sources.now (map_shown line.now) (cell_shown cell.now) text.now) }
{
    let offset = offset_under(sources, line, cell.alias);
    constant(alloc, kind_at(sources, line, cell), text, offset)
}

fn condition_of(
    alloc: Global,
    sources: &Sources,
    line: &MapLine<'_>,
    condition: &Condition<'_>,
) -> Result<RowCondition, AllocError>
    requires { HaveOffsets sources.now }
    ensures { IfOk result (λ c. c ≡ condition_by sources.now (map_shown line.now) (condition_shown condition.now)) }
{
    match condition {
        Condition::Same(a, Other::Cell(b)) => {
            let first = place_at(sources, line, a)?;
            Ok(RowCondition::Equal(first, place_at(sources, line, b)?))
        }
        Condition::Same(a, Other::Text(text)) => {
            let place = place_at(sources, line, a)?;
            let text = constant_at(alloc, sources, line, a, text)?;
            Ok(RowCondition::EqualText(place, text))
        }
        Condition::Differs(a, Other::Cell(b)) => {
            let first = place_at(sources, line, a)?;
            Ok(RowCondition::Differ(first, place_at(sources, line, b)?))
        }
        Condition::Differs(a, Other::Text(text)) => {
            let place = place_at(sources, line, a)?;
            let text = constant_at(alloc, sources, line, a, text)?;
            Ok(RowCondition::DifferText(place, text))
        }
        Condition::Null(a) => Ok(RowCondition::IsNull(place_at(sources, line, a)?)),
        Condition::NotNull(a) => Ok(RowCondition::NotNull(place_at(sources, line, a)?)),
    }
}

#[tactic(auto, using(crate::proofs::Lists::next_mapped))]
fn conditions_of(
    alloc: Global,
    sources: &Sources,
    line: &MapLine<'_>,
    conditions: &[Condition<'_>],
) -> Result<List<RowCondition>, AllocError>
    requires { HaveOffsets sources.now }
    ensures { IfOk result (λ list. list ≡ map (λ c. condition_by sources.now (map_shown line.now) (condition_shown c)) conditions.now) }
{
    let mut list = List::new(alloc);
    for condition in conditions {
        list.push(condition_of(alloc, sources, line, condition)?)?;
    }
    Ok(list)
}

// The places of a template's holes.
#[tactic(auto, using(crate::proofs::Lists::next_mapped))]
fn places_of(
    alloc: Global,
    sources: &Sources,
    line: &MapLine<'_>,
    template: &Template,
) -> Result<List<Place>, AllocError>
    ensures { IfOk result (λ list. list ≡ map (λ hole. place_of_cell sources.now (map_shown line.now) (cell_named hole)) (hole_texts template.now)) }
{
    let holes = template.hole_texts(alloc)?;
    let mut list = List::new(alloc);
    for hole in &holes {
        let cell = cell_of_hole(hole);
        list.push(place_at(sources, line, &cell)?)?;
    }
    Ok(list)
}

// The rules have parsed the text once, so memory alone can be wanting.
fn template_of(alloc: Global, text: &str) -> Result<Template, AllocError>
    ensures { IfOk result (λ t. template_by text.now ≡ Ok t) }
{
    match Template::parse(alloc, text) {
        Ok(template) => Ok(template),
        Err(_) => Err(AllocError),
    }
}

fn kind_of_side(side: Side) -> ValueKind
    ensures { result ≡ side_kind side }
{
    match side {
        Side::Object => ValueKind::Text,
        Side::Value(kind) => kind,
    }
}

fn row_term_of(
    alloc: Global,
    sources: &Sources,
    line: &MapLine<'_>,
    term: &Term<'_>,
    side: Side,
) -> Result<RowTerm, AllocError>
    ensures { IfOk result (λ t. t ≡ row_term_by sources.now (map_shown line.now) (record { term = term_shown term.now; side = side })) }
{
    let kind = kind_of_side(side);
    match term {
        Term::Iri(text) => {
            let template = template_of(alloc, text)?;
            let places = places_of(alloc, sources, line, &template)?;
            Ok(RowTerm::Iri(template, places))
        }
        Term::Column(cell) => Ok(RowTerm::Cell(kind, place_at(sources, line, cell)?)),
        Term::Constant(text) => {
            let text = constant(alloc, Some(kind), text, 0)?;
            Ok(RowTerm::Fixed(KnownTerm::Value(kind, text)))
        }
    }
}

// Adds the target. A name that asks another number of terms gives none.
fn push_target(
    alloc: Global,
    list: &mut List<RowTarget>,
    sources: &Sources,
    model: &Model,
    line: &MapLine<'_>,
    target: &Target<'_>,
) -> Result<(), AllocError>
    ensures { OnOk result (list.new ≡ list.old ++ targets_by (class_named model.now) (link_named model.now) sources.now (map_shown line.now) (target_shown target.now)) }
{
    match target {
        Target::One(p, a) => match model.class_named(p) {
            Some(class) => {
                let term = row_term_of(alloc, sources, line, a, Side::Object)?;
                list.push(RowTarget::InClass(class, term))
            }
            None => Ok(()),
        },
        Target::Two(p, a, b) => match model.link_named(p) {
            Some((link, side)) => {
                let first = row_term_of(alloc, sources, line, a, Side::Object)?;
                let second = row_term_of(alloc, sources, line, b, side)?;
                list.push(RowTarget::Linked(link, first, second))
            }
            None => Ok(()),
        },
    }
}

#[tactic(auto, using(crate::proofs::Lists::next_gathered))]
fn targets_of(
    alloc: Global,
    sources: &Sources,
    model: &Model,
    line: &MapLine<'_>,
    targets: &[Target<'_>],
) -> Result<List<RowTarget>, AllocError>
    ensures { IfOk result (λ list. list ≡ flat_map (λ t. targets_by (class_named model.now) (link_named model.now) sources.now (map_shown line.now) (target_shown t)) targets.now) }
{
    let mut list = List::new(alloc);
    for target in targets {
        push_target(alloc, &mut list, sources, model, line, target)?;
    }
    Ok(list)
}

fn table_of(sources: &Sources, from: &Source<'_>) -> Result<TableId, AllocError>
    ensures { IfOk result (λ t. t ≡ record { 0 = zero_or (number_of_table sources.now from.now.table.now) }) }
{
    Ok(TableId(id_number(or_zero(table_number(sources, from.table)))?))
}

#[tactic(auto, using(crate::proofs::Lists::next_mapped))]
fn tables_of(
    alloc: Global,
    sources: &Sources,
    froms: &[Source<'_>],
) -> Result<List<TableId>, AllocError>
    ensures { IfOk result (λ list. list ≡ map (λ from. record { 0 = zero_or (number_of_table sources.now from.table.now) }) froms.now) }
{
    let mut list = List::new(alloc);
    for from in froms {
        list.push(table_of(sources, from)?)?;
    }
    Ok(list)
}

/// The mapping of a line that breaks no rule.
#[tactic(auto, using(crate::proofs::Lists::map_of_map, crate::proofs::Lists::gathered_of_map))]
pub(crate) fn mapping_of(
    alloc: Global,
    sources: &Sources,
    model: &Model,
    line: &MapLine<'_>,
) -> Result<Mapping, AllocError>
    requires { HaveOffsets sources.now }
    ensures { IfOk result (λ m. m ≡ mapping_by (class_named model.now) (link_named model.now) sources.now (map_shown line.now)) }
{
    let name = Name::new(alloc, line.name)?;
    let tables = tables_of(alloc, sources, &line.sources)?;
    let conditions = conditions_of(alloc, sources, line, &line.conditions)?;
    let targets = targets_of(alloc, sources, model, line, &line.targets)?;
    Ok(Mapping {
        name,
        query: SourceQuery { tables, conditions },
        targets,
    })
}
