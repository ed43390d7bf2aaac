//! Reading an annotation line.
ghost use Rattle.annotation_language.specs.Askable.{AreAskable};
ghost use Rattle.annotation_language.specs.Within.{AreAskedWithin};
ghost use Rattle.std.specs.Prelude.{◌≡◌, ◌≢◌, length, OnOk, IfErr, Ok, Err};
ghost use Rattle.uml_model.specs.Rules.{class_named, link_named};
ghost use Rattle.annotation_language.specs.Written.{Case, CaseName, Event, Cases, Key, Query, Answers, Is};
ghost use Rattle.annotation_language.specs.Lines.{read_annotation_line};
ghost use Rattle.annotation_language.specs.Shown.{shown_query, shown};
ghost use Rattle.annotation_language.specs.Reading.{read_as};

use crate::building::constant;
use crate::grammar::annotation_line;
use crate::keys::{is_bad_key, is_name_side};
use crate::noted::{Noted, Variables};
use crate::notes::{EventNote, KeyNote, KeySource, NamedQuery, Rule};
use crate::resolved::{Resolved, first_alone};
use crate::rules::{Asks, is_value, judged};
use crate::written::{AnnotationLine, Asked, Source};
use line_lexer::{Counted, Line, LineFault, tokens_of};
use std::alloc::Global;
use uml_model::Model;
use vocabulary::{List, Name, Side, ValueKind};

/// Reads a line into the annotations. A line whose first word is none of `case`, `casename`, `event`, `cases`, `set` and
/// `query` is Syntax here, so that lines of other kinds are for the caller to tell apart. A line without tokens says nothing.
pub fn read_annotation_line(
    alloc: Global,
    notes: &mut Noted,
    model: &Model,
    line: &Line<'_>,
) -> Result<(), LineFault>
    ensures read { OnOk result (read_annotation_line (class_named model.now) (link_named model.now) line.now.number notes.old line.now.text.now ≡ Ok notes.new) }
    ensures fault { IfErr result (λ e. e ≢ LineFault.NoMemory → read_annotation_line (class_named model.now) (link_named model.now) line.now.number notes.old line.now.text.now ≡ Err e) }
    ensures unchanged { IfErr result (λ e. e ≢ LineFault.NoMemory → notes.new ≡ notes.old) }
    ensures askable { AreAskable notes.old.notes → OnOk result (AreAskable notes.new.notes) }
    ensures within { AreAskedWithin (length model.now.classes) (length model.now.links) notes.old.notes → OnOk result (AreAskedWithin (length model.now.classes) (length model.now.links) notes.new.notes) }
{
    let tokens = tokens_of(alloc, line.text)?;
    if tokens.is_empty() {
        return Ok(());
    }
    match annotation_line(alloc, &tokens)? {
        Some(written) => read_line(alloc, notes, model, line.number, &written),
        None => Err(LineFault::Syntax),
    }
}

fn read_line(
    alloc: Global,
    notes: &mut Noted,
    model: &Model,
    number: u32,
    line: &AnnotationLine<'_>,
) -> Result<(), LineFault>
    ensures read { OnOk result (read_as model.now number notes.old (shown line.now) ≡ Ok notes.new) }
    ensures fault { IfErr result (λ e. e ≢ LineFault.NoMemory → read_as model.now number notes.old (shown line.now) ≡ Err e) }
    ensures unchanged { IfErr result (λ e. e ≢ LineFault.NoMemory → notes.new ≡ notes.old) }
{
    match line {
        AnnotationLine::Case(query) => read_case(alloc, notes, model, number, query),
        AnnotationLine::CaseName(query) => read_case_name(alloc, notes, model, number, query),
        AnnotationLine::Event(event, query) => read_event(
            alloc, notes, model, number, event, query,
        ),
        AnnotationLine::Cases(event, query) => read_cases(
            alloc, notes, model, number, event, query,
        ),
        AnnotationLine::Key(event, key, rule, Source::Answers(query)) => {
            read_asked_key(alloc, notes, model, number, event, key, *rule, query)
        }
        AnnotationLine::Key(event, key, rule, Source::Is(kind, text)) => {
            read_fixed_key(alloc, notes, model, number, event, key, *rule, *kind, text)
        }
        AnnotationLine::Query(name, query) => read_query(alloc, notes, model, number, name, query),
    }
}

#[tactic(auto, unfolding(crate::specs::Lines::broken, crate::specs::Lines::grown))]
fn read_case(
    alloc: Global,
    notes: &mut Noted,
    model: &Model,
    number: u32,
    query: &Asked<'_>,
) -> Result<(), LineFault>
    ensures read { OnOk result (read_as model.now number notes.old (Case (shown_query query.now)) ≡ Ok notes.new) }
    ensures fault { IfErr result (λ e. e ≢ LineFault.NoMemory → read_as model.now number notes.old (Case (shown_query query.now)) ≡ Err e) }
    ensures unchanged { IfErr result (λ e. e ≢ LineFault.NoMemory → notes.new ≡ notes.old) }
{
    let resolved = Resolved::new(alloc, model, query)?;
    let asks = Asks {
        missing: false,
        double: notes.notes().case_query().is_some(),
        objects: query.head.as_slice(),
        bad_key: false,
        others: &[],
    };
    let found = resolved.checked(alloc, model, &asks)?;
    let variables = Variables::new(alloc, "case", resolved.variables.as_slice())?;
    notes.add_case(found, variables)?;
    Ok(())
}

#[tactic(auto, unfolding(crate::specs::Lines::broken, crate::specs::Lines::grown))]
fn read_case_name(
    alloc: Global,
    notes: &mut Noted,
    model: &Model,
    number: u32,
    query: &Asked<'_>,
) -> Result<(), LineFault>
    ensures read { OnOk result (read_as model.now number notes.old (CaseName (shown_query query.now)) ≡ Ok notes.new) }
    ensures fault { IfErr result (λ e. e ≢ LineFault.NoMemory → read_as model.now number notes.old (CaseName (shown_query query.now)) ≡ Err e) }
    ensures unchanged { IfErr result (λ e. e ≢ LineFault.NoMemory → notes.new ≡ notes.old) }
{
    let resolved = Resolved::new(alloc, model, query)?;
    let asks = Asks {
        missing: notes.notes().case_query().is_none(),
        double: notes.notes().case_name().is_some(),
        objects: first_alone(query.head.as_slice()),
        bad_key: !is_name_side(resolved.value_side()),
        others: &[],
    };
    let found = resolved.checked(alloc, model, &asks)?;
    notes.add_case_name(found);
    Ok(())
}

#[tactic(auto, unfolding(crate::specs::Lines::broken, crate::specs::Lines::grown))]
fn read_event(
    alloc: Global,
    notes: &mut Noted,
    model: &Model,
    number: u32,
    event: &str,
    query: &Asked<'_>,
) -> Result<(), LineFault>
    ensures read { OnOk result (read_as model.now number notes.old (Event event.now (shown_query query.now)) ≡ Ok notes.new) }
    ensures fault { IfErr result (λ e. e ≢ LineFault.NoMemory → read_as model.now number notes.old (Event event.now (shown_query query.now)) ≡ Err e) }
    ensures unchanged { IfErr result (λ e. e ≢ LineFault.NoMemory → notes.new ≡ notes.old) }
{
    let resolved = Resolved::new(alloc, model, query)?;
    let others = [(Counted::Events, notes.notes().events().len() + 1)];
    let asks = Asks {
        missing: false,
        double: notes.notes().is_taken(event),
        objects: query.head.as_slice(),
        bad_key: false,
        others: &others,
    };
    let objects = resolved.checked(alloc, model, &asks)?;
    let variables = Variables::new(alloc, event, resolved.variables.as_slice())?;
    let name = Name::new(alloc, event)?;
    let event = EventNote {
        name,
        line: number,
        objects,
        cases: None,
        keys: List::new(alloc),
    };
    notes.add_event(event, variables)?;
    Ok(())
}

#[tactic(auto, unfolding(crate::specs::Lines::broken, crate::specs::Lines::grown))]
fn read_cases(
    alloc: Global,
    notes: &mut Noted,
    model: &Model,
    number: u32,
    event: &str,
    query: &Asked<'_>,
) -> Result<(), LineFault>
    ensures read { OnOk result (read_as model.now number notes.old (Cases event.now (shown_query query.now)) ≡ Ok notes.new) }
    ensures fault { IfErr result (λ e. e ≢ LineFault.NoMemory → read_as model.now number notes.old (Cases event.now (shown_query query.now)) ≡ Err e) }
    ensures unchanged { IfErr result (λ e. e ≢ LineFault.NoMemory → notes.new ≡ notes.old) }
{
    let resolved = Resolved::new(alloc, model, query)?;
    let asks = Asks {
        missing: !notes.notes().is_event(event),
        double: notes.notes().has_cases(event),
        objects: query.head.as_slice(),
        bad_key: false,
        others: &[],
    };
    let cases = resolved.checked(alloc, model, &asks)?;
    notes.add_cases(alloc, event, &cases)?;
    Ok(())
}

#[tactic(auto, unfolding(crate::specs::Lines::broken, crate::specs::Lines::grown))]
fn read_asked_key(
    alloc: Global,
    notes: &mut Noted,
    model: &Model,
    number: u32,
    event: &str,
    key: &str,
    rule: Rule,
    query: &Asked<'_>,
) -> Result<(), LineFault>
    ensures read { OnOk result (read_as model.now number notes.old (Key event.now key.now rule (Answers (shown_query query.now))) ≡ Ok notes.new) }
    ensures fault { IfErr result (λ e. e ≢ LineFault.NoMemory → read_as model.now number notes.old (Key event.now key.now rule (Answers (shown_query query.now))) ≡ Err e) }
    ensures unchanged { IfErr result (λ e. e ≢ LineFault.NoMemory → notes.new ≡ notes.old) }
{
    let resolved = Resolved::new(alloc, model, query)?;
    let side = resolved.value_side();
    let others = [(Counted::EventKeys, notes.notes().keys_in(event) + 1)];
    let asks = Asks {
        missing: !notes.notes().is_event(event),
        double: notes.notes().has_key(event, key),
        objects: first_alone(query.head.as_slice()),
        bad_key: is_bad_key(key, rule, side),
        others: &others,
    };
    let found = resolved.checked(alloc, model, &asks)?;
    let key = KeyNote {
        key: Name::new(alloc, key)?,
        rule,
        source: KeySource::Asked(found, side),
    };
    notes.add_key(alloc, event, &key)?;
    Ok(())
}

#[tactic(auto, unfolding(crate::specs::Lines::broken, crate::specs::Lines::grown))]
fn read_fixed_key(
    alloc: Global,
    notes: &mut Noted,
    model: &Model,
    number: u32,
    event: &str,
    key: &str,
    rule: Rule,
    kind: ValueKind,
    text: &str,
) -> Result<(), LineFault>
    ensures read { OnOk result (read_as model.now number notes.old (Key event.now key.now rule (Is kind text.now)) ≡ Ok notes.new) }
    ensures fault { IfErr result (λ e. e ≢ LineFault.NoMemory → read_as model.now number notes.old (Key event.now key.now rule (Is kind text.now)) ≡ Err e) }
    ensures unchanged { IfErr result (λ e. e ≢ LineFault.NoMemory → notes.new ≡ notes.old) }
{
    let others = [(Counted::EventKeys, notes.notes().keys_in(event) + 1)];
    let rules = [
        (!notes.notes().is_event(event), LineFault::Unknown),
        (notes.notes().has_key(event, key), LineFault::Double),
        (!is_value(alloc, kind, text)?, LineFault::TypeMismatch),
        (is_bad_key(key, rule, Side::Value(kind)), LineFault::BadKey),
    ];
    if let Some(fault) = judged(&rules, &[], &others) {
        return Err(fault);
    }
    let value = constant(alloc, kind, text)?;
    let key = KeyNote {
        key: Name::new(alloc, key)?,
        rule,
        source: KeySource::Fixed(kind, value),
    };
    notes.add_key(alloc, event, &key)?;
    Ok(())
}

#[tactic(auto, unfolding(crate::specs::Lines::broken, crate::specs::Lines::grown))]
fn read_query(
    alloc: Global,
    notes: &mut Noted,
    model: &Model,
    number: u32,
    name: &str,
    query: &Asked<'_>,
) -> Result<(), LineFault>
    ensures read { OnOk result (read_as model.now number notes.old (Query name.now (shown_query query.now)) ≡ Ok notes.new) }
    ensures fault { IfErr result (λ e. e ≢ LineFault.NoMemory → read_as model.now number notes.old (Query name.now (shown_query query.now)) ≡ Err e) }
    ensures unchanged { IfErr result (λ e. e ≢ LineFault.NoMemory → notes.new ≡ notes.old) }
{
    let resolved = Resolved::new(alloc, model, query)?;
    let others = [(Counted::Queries, notes.notes().queries.items().len() + 1)];
    let asks = Asks {
        missing: false,
        double: notes.notes().is_taken(name),
        objects: &[],
        bad_key: false,
        others: &others,
    };
    let found = resolved.checked(alloc, model, &asks)?;
    let variables = Variables::new(alloc, name, resolved.variables.as_slice())?;
    let query = NamedQuery {
        name: Name::new(alloc, name)?,
        query: found,
    };
    notes.add_query(query, variables)?;
    Ok(())
}
