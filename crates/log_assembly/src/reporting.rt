//! The report of a log.
ghost use Rattle.std.specs.Prelude.{◌≡◌, ◌+◌, ◌++◌, codes, decimal, filter, map, length, IfOk, OnOk};
ghost use Rattle.std.specs.List.{All, flat_map, sum_by, zip};
ghost use Rattle.log_assembly.specs.Answered.{InOrder, IsEventInOrder, IsInOrder};
ghost use Rattle.log_assembly.specs.Found.{names_of};
ghost use Rattle.log_assembly.specs.Judged.{has_names, judgement_of, judgements_of};
ghost use Rattle.log_assembly.specs.TheReport.{IsReportOf, case_line, counts_line, dropped_line, event_name, event_text, events_in, judgement_text, left_in, left_line, report_text, why_text};

use crate::asked::{Asked, AskedEvent};
use crate::attributes::attributes;
use crate::lent::LentIri;
use crate::lookup::{cases_at, names, values_at};
use crate::places::Places;
use crate::verdict::{Judgement, Verdict, Why, judge};
use annotation_language::{Annotations, EventNote};
use certain_answers::Answers;
use std::alloc::{AllocError, Global};
use vocabulary::{List, Name};
use xes_writer::{Log, TraceRow};

fn judgement(
    alloc: Global,
    cases: &Answers,
    event: &EventNote,
    answers: &AskedEvent,
    object: &LentIri<'_>,
    near: &mut Places,
) -> Result<Judgement, AllocError>
    requires cases { InOrder cases.now }
    requires answers { IsEventInOrder answers.now }
    ensures { IfOk result (λ j. j ≡ judgement_of cases.now.tuples event.now answers.now object.now) }
{
    let keys = event.keys.items();
    let term = object.term();
    let found = attributes(alloc, keys, answers.keys.items(), term, &mut near.keys, 0)?;
    let homes = cases_at(alloc, cases, &answers.cases, term, near)?;
    Ok(Judgement {
        object: object.name().copy(alloc)?,
        verdict: judge(alloc, &found, &homes)?,
    })
}

fn judgements(
    alloc: Global,
    cases: &Answers,
    event: &EventNote,
    answers: &AskedEvent,
) -> Result<List<Judgement>, AllocError>
    requires cases { InOrder cases.now }
    requires answers { IsEventInOrder answers.now }
    ensures { IfOk result (λ js. js ≡ judgements_of cases.now.tuples (event.now, answers.now)) }
{
    let objects = names(alloc, &answers.objects)?;
    let mut judged = List::new(alloc);
    let mut near = Places::new(alloc, event.keys.len())?;
    for object in &objects {
        judged.push(judgement(alloc, cases, event, answers, object, &mut near)?)?;
    }
    Ok(judged)
}

fn judge_all(
    alloc: Global,
    cases: &Answers,
    events: &[EventNote],
    asked: &[AskedEvent],
) -> Result<Vec<List<Judgement>>, AllocError>
    requires cases { InOrder cases.now }
    requires asked { All IsEventInOrder asked.now }
    ensures { IfOk result (λ v. v.items ≡ map (judgements_of cases.now.tuples) (zip events.now asked.now)) }
{
    let mut judged = Vec::new(alloc);
    let mut at = 0;
    while at < events.len() && at < asked.len() {
        judged.push(judgements(alloc, cases, &events[at], &asked[at])?)?;
        at += 1;
    }
    Ok(judged)
}

fn has_names(
    alloc: Global,
    names: &Answers,
    case: &LentIri<'_>,
    near: &mut usize,
) -> Result<bool, AllocError>
    requires { InOrder names.now }
    ensures { IfOk result (λ b. b ≡ has_names names.now.tuples case.now) }
{
    let values = values_at(alloc, names, case.term(), near)?;
    Ok(values.len() > 1)
}

// The cases with several names.
fn several<'a>(alloc: Global, asked: &'a Asked) -> Result<Vec<LentIri<'a>>, AllocError>
    requires { IsInOrder asked.now }
    ensures { IfOk result (λ v. v.items ≡ filter (has_names asked.now.names.tuples) (names_of asked.now.cases.tuples)) }
{
    let cases = names(alloc, &asked.cases)?;
    let mut several = Vec::new(alloc);
    let mut near = 0;
    for case in &cases {
        if has_names(alloc, &asked.names, case, &mut near)? {
            several.push(case.lend())?;
        }
    }
    Ok(several)
}

// 128 bits hold any number of lists that each have any length.
fn events_in(traces: &[TraceRow<Name>]) -> u128
    ensures { result ≡ sum_by (λ trace. length trace.events) traces.now }
{
    let mut count = 0;
    for trace in traces {
        count += trace.events.len() as u128;
    }
    count
}

fn left_in(judged: &[Judgement]) -> usize
    ensures { result ≡ left_in judged.now }
{
    let mut count = 0;
    for judgement in judged {
        if matches!(&judgement.verdict, Verdict::Left(_)) {
            count += 1;
        }
    }
    count
}

fn all_left(judged: &[List<Judgement>]) -> u128
    ensures { result ≡ sum_by left_in judged.now }
{
    let mut count = 0;
    for list in judged {
        count += left_in(list.items()) as u128;
    }
    count
}

fn push(out: &mut Vec<u8>, text: &str) -> Result<(), AllocError>
    ensures { OnOk result (out.new.items ≡ out.old.items ++ text.now) }
{
    out.extend_from_slice(text.as_bytes())
}

fn push_count(alloc: Global, out: &mut Vec<u8>, front: &str, count: u128) -> Result<(), AllocError>
    ensures { OnOk result (out.new.items ≡ out.old.items ++ (front.now ++ decimal count)) }
{
    push(out, front)?;
    let digits = count.to_string(alloc)?;
    push(out, digits.as_str())
}

#[tactic(auto, unfolding(crate::specs::TheReport::counts_line))]
fn push_counts(
    alloc: Global,
    out: &mut Vec<u8>,
    traces: u128,
    events: u128,
    left: u128,
) -> Result<(), AllocError>
    ensures { OnOk result (out.new.items ≡ out.old.items ++ counts_line traces events left) }
{
    push_count(alloc, out, "traces ", traces)?;
    push_count(alloc, out, " events ", events)?;
    push_count(alloc, out, " left out ", left)?;
    push(out, "\n")
}

#[tactic(auto, unfolding(crate::specs::TheReport::case_line))]
fn push_case(out: &mut Vec<u8>, case: &LentIri<'_>) -> Result<(), AllocError>
    ensures { OnOk result (out.new.items ≡ out.old.items ++ case_line case.now) }
{
    push(out, "several: case <")?;
    push(out, case.name().text())?;
    push(out, "> concept:name\n")
}

fn push_several(out: &mut Vec<u8>, cases: &[LentIri<'_>]) -> Result<(), AllocError>
    ensures { OnOk result (out.new.items ≡ out.old.items ++ flat_map case_line cases.now) }
{
    for case in cases {
        push_case(out, case)?;
    }
    Ok(())
}

#[tactic(auto, unfolding(crate::specs::TheReport::event_name))]
fn push_event_name(out: &mut Vec<u8>, event: &Name, object: &Name) -> Result<(), AllocError>
    ensures { OnOk result (out.new.items ≡ out.old.items ++ event_name event.now object.now) }
{
    push(out, event.text())?;
    push(out, " <")?;
    push(out, object.text())?;
    push(out, ">")
}

fn push_why(out: &mut Vec<u8>, why: &Why) -> Result<(), AllocError>
    ensures { OnOk result (out.new.items ≡ out.old.items ++ why_text why.now) }
{
    match why {
        Why::NoCase => push(out, "no case"),
        Why::NoValue(key) => {
            push(out, "none ")?;
            push(out, key.text())
        }
        Why::SeveralValues(key) => {
            push(out, "several ")?;
            push(out, key.text())
        }
    }
}

#[tactic(auto, unfolding(crate::specs::TheReport::left_line))]
fn push_left(out: &mut Vec<u8>, event: &Name, object: &Name, why: &Why) -> Result<(), AllocError>
    ensures { OnOk result (out.new.items ≡ out.old.items ++ left_line event.now object.now why.now) }
{
    push(out, "left out: ")?;
    push_event_name(out, event, object)?;
    push(out, ": ")?;
    push_why(out, why)?;
    push(out, "\n")
}

#[tactic(auto, unfolding(crate::specs::TheReport::dropped_line))]
fn push_dropped(
    out: &mut Vec<u8>,
    event: &Name,
    object: &Name,
    key: &Name,
) -> Result<(), AllocError>
    ensures { OnOk result (out.new.items ≡ out.old.items ++ dropped_line event.now object.now key.now) }
{
    push(out, "several: ")?;
    push_event_name(out, event, object)?;
    push(out, " ")?;
    push(out, key.text())?;
    push(out, "\n")
}

fn push_keys(
    out: &mut Vec<u8>,
    event: &Name,
    object: &Name,
    keys: &[Name],
) -> Result<(), AllocError>
    ensures { OnOk result (out.new.items ≡ out.old.items ++ flat_map (dropped_line event.now object.now) keys.now) }
{
    for key in keys {
        push_dropped(out, event, object, key)?;
    }
    Ok(())
}

fn push_judgement(out: &mut Vec<u8>, event: &Name, judgement: &Judgement) -> Result<(), AllocError>
    ensures { OnOk result (out.new.items ≡ out.old.items ++ judgement_text event.now judgement.now) }
{
    match &judgement.verdict {
        Verdict::Kept(keys) => push_keys(out, event, &judgement.object, keys.items()),
        Verdict::Left(why) => push_left(out, event, &judgement.object, why),
    }
}

fn push_event(out: &mut Vec<u8>, event: &EventNote, judged: &[Judgement]) -> Result<(), AllocError>
    ensures { OnOk result (out.new.items ≡ out.old.items ++ event_text (event.now, judged.now)) }
{
    for judgement in judged {
        push_judgement(out, &event.name, judgement)?;
    }
    Ok(())
}

fn push_events(
    out: &mut Vec<u8>,
    events: &[EventNote],
    judged: &[List<Judgement>],
) -> Result<(), AllocError>
    ensures { OnOk result (out.new.items ≡ out.old.items ++ flat_map event_text (zip events.now judged.now)) }
{
    let mut at = 0;
    while at < events.len() && at < judged.len() {
        push_event(out, &events[at], judged[at].items())?;
        at += 1;
    }
    Ok(())
}

/// The text of the report: the counts of the log, then the cases with several names, then what is
/// left out and which keys are not written, event by event.
pub fn report(
    alloc: Global,
    notes: &Annotations,
    asked: &Asked,
    log: &Log<Name>,
) -> Result<Vec<u8>, AllocError>
    requires { IsInOrder asked.now }
    ensures { IfOk result (λ text. IsReportOf notes.now asked.now log.now text.items) }
{
    let several = several(alloc, asked)?;
    let judged = judge_all(alloc, &asked.cases, notes.events(), asked.events.items())?;
    let traces = log.traces.items();
    let mut text = Vec::new(alloc);
    let left = all_left(&judged);
    push_counts(
        alloc,
        &mut text,
        traces.len() as u128,
        events_in(traces),
        left,
    )?;
    push_several(&mut text, &several)?;
    push_events(&mut text, notes.events(), &judged)?;
    Ok(text)
}
