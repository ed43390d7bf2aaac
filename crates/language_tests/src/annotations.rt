//! Annotation lines of the conference example, and lines of which each breaks one rule.
use crate::cases::is_shown;
use crate::models::model_of;
use annotation_language::{Annotations, KeySource, Noted, complete, read_annotation_line};
use line_lexer::{Line, LineFault};
use std::alloc::{AllocError, Global};
use std::test::Fail;
use uml_model::Model;
use vocabulary::ValueKind;

const PAPERS: &str = "class Paper
class Review
assoc about Review * -> Paper 1
attr Paper title text 1
attr Paper submittedAt time 0..1";

const NOTES: &str = "case c where Paper(c)
casename (c, n) where title(c, n)
event submit x where Paper(x)
cases submit (x, x) where Paper(x)
set submit \"concept:name\" mandatory is text \"submit paper\"
set submit \"time:timestamp\" mandatory (x, t) where submittedAt(x, t)
query reviews (x) where Review(x)";

// Lines behind an event, each with its fault.
const FAULTS: &str = "query q (x) where Paper(x
=> Some(Syntax)

query late (x) where Zed(x)
=> Some(Unknown)

query late (x) where Paper(\"a\")
=> Some(Double)

query q (x) where Paper(\"a\"), Paper(iri \"{a}\")
=> Some(TypeMismatch)

query q (x) where title(x, x), Paper(iri \"{a}\")
=> Some(BadTemplate)

query q (z) where title(x, x)
=> Some(MixedSort)

set late \"\" many (x, z) where Paper(x)
=> Some(HeadUnbound)

set late \"object\" many is text \"a\"
=> Some(BadKey)

set late \"time:timestamp\" mandatory (x, t) where title(x, t)
=> Some(BadKey)

query q () where about(a,b),about(c,d),about(e,f),about(g,h),about(i,j),about(k,l),about(m,n),about(o,p),about(_,_)
=> None

query q () where about(a,b),about(c,d),about(e,f),about(g,h),about(i,j),about(k,l),about(m,n),about(o,p),about(_,q)
=> Some(Limit(Variables))";

// Lines, each list with what it lacks first.
const LACKS: &str = "event late x where Paper(x)
=> Err((0, NoCase))

event late x where Paper(x)
case c where Paper(c)
=> Err((7, NoCases))

event late x where Paper(x)
case c where Paper(c)
cases late (x, x) where Paper(x)
=> Err((7, NoTime))

event late x where Paper(x)
case c where Paper(c)
cases late (x, x) where Paper(x)
set late \"time:timestamp\" mandatory (x, t) where submittedAt(x, t)
=> Err((7, NoActivity))";

fn note(alloc: Global, notes: &mut Noted, model: &Model, lines: &str) -> Result<(), LineFault> {
    for text in lines.lines() {
        read_annotation_line(alloc, notes, model, &Line { number: 7, text })?;
    }
    Ok(())
}

fn noted(alloc: Global, lines: &str) -> Result<Noted, LineFault> {
    let model = model_of(alloc, PAPERS)?;
    let mut notes = Noted::new(alloc);
    note(alloc, &mut notes, &model, lines)?;
    Ok(notes)
}

fn after_event(alloc: Global, line: &str) -> Result<Noted, LineFault> {
    let lines = format!(in alloc; "event late x where Paper(x)\n{line}")?;
    noted(alloc, lines.as_str())
}

fn has_fault(alloc: Global, case: &str) -> Result<bool, AllocError> {
    match case.split_once("\n=> ") {
        Some((line, want)) => is_shown(alloc, &after_event(alloc, line).err(), want),
        None => Ok(false),
    }
}

fn lacks(alloc: Global, case: &str) -> Result<bool, LineFault> {
    match case.split_once("\n=> ") {
        Some((lines, want)) => {
            let notes = noted(alloc, lines)?;
            Ok(is_shown(alloc, &complete(notes.notes()), want)?)
        }
        None => Ok(false),
    }
}

fn is_empty(notes: &Annotations) -> bool {
    notes.case_query().is_none() && notes.case_name().is_none() && notes.events().is_empty()
}

fn are_papers(notes: &Noted) -> bool {
    complete(notes.notes()) == Ok(())
        && notes.notes().query_named("case").is_some()
        && notes.notes().query_named("submit").is_some()
        && notes.variables("reviews").is_some()
        && notes.variables("papers").is_none()
}

fn is_second_of_january(source: &KeySource) -> bool {
    match source {
        KeySource::Fixed(ValueKind::Time, text) => text.text() == "2024-01-02T00:00:00.000+00:00",
        _ => false,
    }
}

// The one key of the one event is a time in canonical text.
fn is_canonical(notes: &Noted) -> bool {
    match notes.notes().events() {
        [event] => match event.keys.items() {
            [key] => is_second_of_january(&key.source),
            _ => false,
        },
        _ => false,
    }
}

#[test]
fn annotations_begin_empty(rt: HostRuntime) {
    assert!(rt; is_empty(&Annotations::new(rt.alloc())));
}

#[test]
fn the_papers_are_noted(rt: HostRuntime) -> Result<(), Fail> {
    assert!(rt; are_papers(&noted(rt.alloc(), NOTES)?));
    Ok(())
}

#[test]
fn constants_are_kept_in_canonical_text(rt: HostRuntime) -> Result<(), Fail> {
    let notes = after_event(rt.alloc(), "set late \"k\" many is time \"2024-01-02\"")?;
    assert!(rt; is_canonical(&notes));
    Ok(())
}

#[test]
fn lines_have_their_first_fault(rt: HostRuntime) -> Result<(), Fail> {
    for case in FAULTS.split("\n\n") {
        assert!(rt; has_fault(rt.alloc(), case)?, "{case}");
    }
    Ok(())
}

#[test]
fn what_is_lacking_comes_in_order(rt: HostRuntime) -> Result<(), Fail> {
    for case in LACKS.split("\n\n") {
        assert!(rt; lacks(rt.alloc(), case)?, "{case}");
    }
    Ok(())
}
