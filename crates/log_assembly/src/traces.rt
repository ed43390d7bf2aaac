//! The traces of a log.
ghost use Rattle.std.specs.Prelude.{◌≡◌, map, IfOk, slice_get};
ghost use Rattle.std.specs.List.{All};
ghost use Rattle.std.specs.List.Sorted.{IsStrictlySortedBy};
ghost use Rattle.log_assembly.specs.Answered.{InOrder, IsEventInOrder, IsInOrder};
ghost use Rattle.log_assembly.specs.Found.{values_at};
ghost use Rattle.log_assembly.specs.Gathered.{log_of, occurrence_cmp, row_by, row_of, title_of, trace_of};
ghost use Rattle.log_assembly.specs.TheLog.{IsLogOf};
ghost use Rattle.vocabulary.specs.declared.term.Term.{Named};

use crate::asked::{Asked, AskedEvent};
use crate::attributes::attributes;
use crate::entries::{entry, push_all};
use crate::lent::{LentIri, LentTerm};
use crate::lookup::{names, values_at};
use crate::occurrences::{Occurrence, at_case, occurrences};
use annotation_language::{Annotations, EventNote};
use certain_answers::Answers;
use std::alloc::{AllocError, Global};
use vocabulary::{List, Name, ValueKind};
use xes_writer::{EventRow, Log, TraceRow};

fn filled_row(
    alloc: Global,
    event: &EventNote,
    answers: &AskedEvent,
    object: &LentIri<'_>,
    places: &mut [usize],
    from: usize,
) -> Result<EventRow<Name>, AllocError>
    requires { IsEventInOrder answers.now }
    ensures { IfOk result (λ row. row ≡ row_by object.now (Some event.now) (Some answers.now)) }
{
    let keys = event.keys.items();
    let term = object.term();
    let found = attributes(alloc, keys, answers.keys.items(), term, places, from)?;
    let mut entries = Vec::with_capacity(alloc, found.len().saturating_add(1))?;
    entries.push(entry(alloc, "object", &LentTerm::of(term))?)?;
    push_all(alloc, &mut entries, &found)?;
    Ok(EventRow {
        entries: List::from_vec(entries),
    })
}

fn row(
    alloc: Global,
    events: &[EventNote],
    asked: &[AskedEvent],
    occurrence: &Occurrence<'_>,
    places: &mut [usize],
) -> Result<EventRow<Name>, AllocError>
    requires { All IsEventInOrder asked.now }
    ensures { IfOk result (λ row. row ≡ row_of events.now asked.now occurrence.now) }
{
    let place = occurrence.place;
    if place < events.len() && place < asked.len() {
        let (event, answers) = (&events[place], &asked[place]);
        filled_row(
            alloc,
            event,
            answers,
            &occurrence.object,
            places,
            occurrence.places,
        )
    } else {
        Ok(EventRow {
            entries: List::new(alloc),
        })
    }
}

fn rows(
    alloc: Global,
    events: &[EventNote],
    asked: &[AskedEvent],
    occurrences: &[Occurrence<'_>],
    places: &mut [usize],
) -> Result<Vec<EventRow<Name>>, AllocError>
    requires { All IsEventInOrder asked.now }
    ensures { IfOk result (λ v. v.items ≡ map (row_of events.now asked.now) occurrences.now) }
{
    let mut rows = Vec::with_capacity(alloc, occurrences.len())?;
    for occurrence in occurrences {
        rows.push(row(alloc, events, asked, occurrence, places)?)?;
    }
    Ok(rows)
}

// The one name of the case, else a text of its IRI.
fn title<'a>(
    alloc: Global,
    names: &'a Answers,
    case: &LentIri<'a>,
    near: &mut usize,
) -> Result<LentTerm<'a>, AllocError>
    requires { InOrder names.now }
    ensures { IfOk result (λ title. title ≡ title_of case.now (values_at (Named case.now) names.now.tuples)) }
{
    let values = values_at(alloc, names, case.term(), near)?;
    match values.as_slice() {
        [name] => Ok(name.lend()),
        _ => Ok(LentTerm::value(ValueKind::Text, case.name())),
    }
}

fn trace(
    alloc: Global,
    notes: &Annotations,
    asked: &Asked,
    occurrences: &[Occurrence<'_>],
    case: &LentIri<'_>,
    near: &mut usize,
    places: &mut [usize],
) -> Result<TraceRow<Name>, AllocError>
    requires asked { IsInOrder asked.now }
    requires occurrences { IsStrictlySortedBy occurrence_cmp occurrences.now }
    ensures { IfOk result (λ trace. trace ≡ trace_of notes.now asked.now occurrences.now case.now) }
{
    let title = title(alloc, &asked.names, case, near)?;
    let mut entries = Vec::with_capacity(alloc, 2)?;
    entries.push(entry(alloc, "object", &LentTerm::of(case.term()))?)?;
    entries.push(entry(alloc, "concept:name", &title)?)?;
    let here = at_case(occurrences, case);
    let events = rows(alloc, notes.events(), asked.events.items(), here, places)?;
    Ok(TraceRow {
        entries: List::from_vec(entries),
        events: List::from_vec(events),
    })
}

fn log_of(
    alloc: Global,
    notes: &Annotations,
    asked: &Asked,
    occurrences: &[Occurrence<'_>],
    places: &mut [usize],
) -> Result<Log<Name>, AllocError>
    requires asked { IsInOrder asked.now }
    requires occurrences { IsStrictlySortedBy occurrence_cmp occurrences.now }
    ensures { IfOk result (λ log. log ≡ log_of notes.now asked.now occurrences.now) }
{
    let cases = names(alloc, &asked.cases)?;
    let mut traces = List::new(alloc);
    let mut near = 0;
    for case in &cases {
        traces.push(trace(alloc, notes, asked, occurrences, case, &mut near, places)?)?;
    }
    Ok(Log { traces })
}

/// The log of the annotations over the answers that they ask for: a trace for each case, in the byte
/// order of the IRIs, and its events by instant, object and place of their annotation, each once.
pub fn assemble(alloc: Global, notes: &Annotations, asked: &Asked) -> Result<Log<Name>, AllocError>
    requires { IsInOrder asked.now }
    ensures { IfOk result (IsLogOf notes.now asked.now) }
{
    let mut places = Vec::new(alloc);
    let events = asked.events.items();
    let found = occurrences(alloc, &asked.cases, notes.events(), events, &mut places)?;
    log_of(alloc, notes, asked, &found, &mut places)
}
