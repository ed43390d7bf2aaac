//! Logs and reports over answers that are given by hand.
use annotation_language::{Annotations, EventNote, KeyNote, KeySource, Rule};
use certain_answers::Answers;
use log_assembly::{Asked, AskedEvent, assemble, report};
use queries::Query;
use std::alloc::{AllocError, Global};
use std::test::Fail;
use vocabulary::{List, Name, Side, Term, ValueKind};
use xes_writer::log_text;

// What stands in front of the traces of each log.
const FRONT: &str = "<?xml version=\"1.0\" encoding=\"UTF-8\"?>
<log xes.version=\"1849.2016\" xes.features=\"\">
  <extension name=\"Concept\" prefix=\"concept\" uri=\"http://www.xes-standard.org/concept.xesext\"/>
  <extension name=\"Time\" prefix=\"time\" uri=\"http://www.xes-standard.org/time.xesext\"/>
  <extension name=\"Organizational\" prefix=\"org\" uri=\"http://www.xes-standard.org/org.xesext\"/>
  <extension name=\"Lifecycle\" prefix=\"lifecycle\" uri=\"http://www.xes-standard.org/lifecycle.xesext\"/>
";

// A project is its cases, their names, and behind blank lines its events. An event is its name, its
// objects, their cases, its keys, each with its rule and its constant or the kind of its values, and the
// values that the objects have. The parts of a line stand between bars.
const CONFERENCE: &str = "case|http://conf.org/paper/1
case|http://conf.org/paper/2
name|http://conf.org/paper/1|Chase & Match
name|http://conf.org/paper/2|Logs, Events

event|submit
object|http://conf.org/paper/1
object|http://conf.org/paper/2
in|http://conf.org/paper/1|http://conf.org/paper/1
in|http://conf.org/paper/2|http://conf.org/paper/2
key|concept:name|mandatory|is|submit paper
key|time:timestamp|mandatory|time|
time:timestamp|http://conf.org/paper/1|2024-03-01T09:00:00.000+00:00
time:timestamp|http://conf.org/paper/2|2024-03-02T08:30:00.000+00:00
key|org:resource|single|text|
org:resource|http://conf.org/paper/1|Ada
org:resource|http://conf.org/paper/2|Bo

event|review
object|http://conf.org/review/r1
object|http://conf.org/review/r2
object|http://conf.org/review/r3
in|http://conf.org/review/r1|http://conf.org/paper/1
in|http://conf.org/review/r2|http://conf.org/paper/1
in|http://conf.org/review/r3|http://conf.org/paper/2
key|concept:name|mandatory|is|review paper
key|time:timestamp|mandatory|time|
time:timestamp|http://conf.org/review/r1|2024-03-10T11:00:00.000+00:00
time:timestamp|http://conf.org/review/r3|2024-03-10T23:00:00.000+00:00
key|org:resource|single|text|
org:resource|http://conf.org/review/r1|Bo
org:resource|http://conf.org/review/r2|Cy
org:resource|http://conf.org/review/r3|Ada
key|lifecycle:transition|single|is|complete";

const CONFERENCE_LOG: &str = "  <trace>
    <string key=\"object\" value=\"http://conf.org/paper/1\"/>
    <string key=\"concept:name\" value=\"Chase &amp; Match\"/>
    <event>
      <string key=\"object\" value=\"http://conf.org/paper/1\"/>
      <string key=\"concept:name\" value=\"submit paper\"/>
      <date key=\"time:timestamp\" value=\"2024-03-01T09:00:00.000+00:00\"/>
      <string key=\"org:resource\" value=\"Ada\"/>
    </event>
    <event>
      <string key=\"object\" value=\"http://conf.org/review/r1\"/>
      <string key=\"concept:name\" value=\"review paper\"/>
      <date key=\"time:timestamp\" value=\"2024-03-10T11:00:00.000+00:00\"/>
      <string key=\"org:resource\" value=\"Bo\"/>
      <string key=\"lifecycle:transition\" value=\"complete\"/>
    </event>
  </trace>
  <trace>
    <string key=\"object\" value=\"http://conf.org/paper/2\"/>
    <string key=\"concept:name\" value=\"Logs, Events\"/>
    <event>
      <string key=\"object\" value=\"http://conf.org/paper/2\"/>
      <string key=\"concept:name\" value=\"submit paper\"/>
      <date key=\"time:timestamp\" value=\"2024-03-02T08:30:00.000+00:00\"/>
      <string key=\"org:resource\" value=\"Bo\"/>
    </event>
    <event>
      <string key=\"object\" value=\"http://conf.org/review/r3\"/>
      <string key=\"concept:name\" value=\"review paper\"/>
      <date key=\"time:timestamp\" value=\"2024-03-10T23:00:00.000+00:00\"/>
      <string key=\"org:resource\" value=\"Ada\"/>
      <string key=\"lifecycle:transition\" value=\"complete\"/>
    </event>
  </trace>
";

const CONFERENCE_REPORT: &str = "traces 2 events 4 left out 1
left out: review <http://conf.org/review/r2>: none time:timestamp
";

// A case with several names and one without, an event left out for each reason, and keys by each rule.
const VISITS: &str = "case|c1
case|c2
name|c1|A
name|c1|B

event|visit
object|o1
object|o2
object|o3
object|o4
in|o1|c1
in|o2|c1
in|o3|c2
in|o4|c3
key|time:timestamp|mandatory|time|
time:timestamp|o1|noon
time:timestamp|o2|noon
time:timestamp|o2|two
time:timestamp|o4|noon
key|note|many|text|
note|o1|x
note|o1|y
note|o2|x
note|o2|y
key|of|single|object|
of|o1|x
of|o1|y
of|o2|x
of|o2|y";

const VISITS_LOG: &str = "  <trace>
    <string key=\"object\" value=\"c1\"/>
    <string key=\"concept:name\" value=\"c1\"/>
    <event>
      <string key=\"object\" value=\"o1\"/>
      <date key=\"time:timestamp\" value=\"noon\"/>
      <string key=\"note#1\" value=\"x\"/>
      <string key=\"note#2\" value=\"y\"/>
    </event>
  </trace>
  <trace>
    <string key=\"object\" value=\"c2\"/>
    <string key=\"concept:name\" value=\"c2\"/>
  </trace>
";

const VISITS_REPORT: &str = "traces 2 events 1 left out 3
several: case <c1> concept:name
several: visit <o1> of
left out: visit <o2>: several time:timestamp
left out: visit <o3>: none time:timestamp
left out: visit <o4>: no case
";

// All are at one time: they stand by the object, then by the line of the annotation.
const TWICE: &str = "case|p1
case|p2

event|review
object|r1
object|r3
in|r1|p1
in|r1|p2
in|r3|p1
in|r3|p2
key|concept:name|mandatory|is|review
key|time:timestamp|mandatory|time|
time:timestamp|r1|noon
time:timestamp|r3|noon

event|again
object|r1
object|r3
in|r1|p1
in|r1|p2
in|r3|p1
in|r3|p2
key|concept:name|mandatory|is|again
key|time:timestamp|mandatory|time|
time:timestamp|r1|noon
time:timestamp|r3|noon";

const TWICE_LOG: &str = "  <trace>
    <string key=\"object\" value=\"p1\"/>
    <string key=\"concept:name\" value=\"p1\"/>
    <event>
      <string key=\"object\" value=\"r1\"/>
      <string key=\"concept:name\" value=\"review\"/>
      <date key=\"time:timestamp\" value=\"noon\"/>
    </event>
    <event>
      <string key=\"object\" value=\"r1\"/>
      <string key=\"concept:name\" value=\"again\"/>
      <date key=\"time:timestamp\" value=\"noon\"/>
    </event>
    <event>
      <string key=\"object\" value=\"r3\"/>
      <string key=\"concept:name\" value=\"review\"/>
      <date key=\"time:timestamp\" value=\"noon\"/>
    </event>
    <event>
      <string key=\"object\" value=\"r3\"/>
      <string key=\"concept:name\" value=\"again\"/>
      <date key=\"time:timestamp\" value=\"noon\"/>
    </event>
  </trace>
  <trace>
    <string key=\"object\" value=\"p2\"/>
    <string key=\"concept:name\" value=\"p2\"/>
    <event>
      <string key=\"object\" value=\"r1\"/>
      <string key=\"concept:name\" value=\"review\"/>
      <date key=\"time:timestamp\" value=\"noon\"/>
    </event>
    <event>
      <string key=\"object\" value=\"r1\"/>
      <string key=\"concept:name\" value=\"again\"/>
      <date key=\"time:timestamp\" value=\"noon\"/>
    </event>
    <event>
      <string key=\"object\" value=\"r3\"/>
      <string key=\"concept:name\" value=\"review\"/>
      <date key=\"time:timestamp\" value=\"noon\"/>
    </event>
    <event>
      <string key=\"object\" value=\"r3\"/>
      <string key=\"concept:name\" value=\"again\"/>
      <date key=\"time:timestamp\" value=\"noon\"/>
    </event>
  </trace>
";

fn term_of(alloc: Global, side: Side, text: &str) -> Result<Term, AllocError> {
    let name = Name::new(alloc, text)?;
    match side {
        Side::Object => Ok(Term::Named(name)),
        Side::Value(kind) => Ok(Term::Value(kind, name)),
    }
}

// The object of a line, and behind a bar a second term.
fn tuple_of(alloc: Global, side: Side, text: &str) -> Result<List<Term>, AllocError> {
    let (object, value) = match text.split_once('|') {
        Some((object, value)) => (object, Some(value)),
        None => (text, None),
    };
    let mut terms = List::new(alloc);
    terms.push(term_of(alloc, Side::Object, object)?)?;
    if let Some(value) = value {
        terms.push(term_of(alloc, side, value)?)?;
    }
    Ok(terms)
}

// The tuples of the lines that begin with this word.
fn answers_of(alloc: Global, side: Side, lines: &str, word: &str) -> Result<Answers, AllocError> {
    let mut tuples = List::new(alloc);
    for line in lines.lines() {
        match line.split_once('|') {
            Some((front, text)) if front == word => tuples.push(tuple_of(alloc, side, text)?)?,
            _ => {}
        }
    }
    Ok(Answers { tuples })
}

fn no_query(alloc: Global) -> Query {
    Query {
        head: List::new(alloc),
        atoms: List::new(alloc),
    }
}

fn rule_of(text: &str) -> Rule {
    match text {
        "mandatory" => Rule::Mandatory,
        "single" => Rule::Single,
        _ => Rule::Many,
    }
}

fn side_of(text: &str) -> Side {
    match text {
        "object" => Side::Object,
        "time" => Side::Value(ValueKind::Time),
        _ => Side::Value(ValueKind::Text),
    }
}

fn source_of(alloc: Global, kind: &str, text: &str) -> Result<KeySource, AllocError> {
    if kind == "is" {
        Ok(KeySource::Fixed(ValueKind::Text, Name::new(alloc, text)?))
    } else {
        Ok(KeySource::Asked(no_query(alloc), side_of(kind)))
    }
}

// The parts of a line of a key: its key, its rule, the kind of its values, and its constant.
fn parts(line: &str) -> Option<(&str, &str, &str, &str)> {
    let (key, rest) = line.strip_prefix("key|")?.split_once('|')?;
    let (rule, rest) = rest.split_once('|')?;
    let (kind, text) = rest.split_once('|')?;
    Some((key, rule, kind, text))
}

fn keys_of(alloc: Global, lines: &str) -> Result<List<KeyNote>, AllocError> {
    let mut keys = List::new(alloc);
    for line in lines.lines() {
        if let Some((key, word, kind, text)) = parts(line) {
            keys.push(KeyNote {
                key: Name::new(alloc, key)?,
                rule: rule_of(word),
                source: source_of(alloc, kind, text)?,
            })?;
        }
    }
    Ok(keys)
}

fn values_of(alloc: Global, lines: &str) -> Result<List<Answers>, AllocError> {
    let mut values = List::new(alloc);
    for line in lines.lines() {
        if let Some((key, _, kind, _)) = parts(line) {
            values.push(answers_of(alloc, side_of(kind), lines, key)?)?;
        }
    }
    Ok(values)
}

fn note_of(alloc: Global, lines: &str) -> Result<EventNote, AllocError> {
    let first = lines.lines().next().unwrap_or("");
    Ok(EventNote {
        name: Name::new(alloc, first.strip_prefix("event|").unwrap_or(first))?,
        line: 1,
        objects: no_query(alloc),
        cases: Some(no_query(alloc)),
        keys: keys_of(alloc, lines)?,
    })
}

fn notes_of(alloc: Global, project: &str) -> Result<Annotations, AllocError> {
    let mut notes = Annotations::new(alloc);
    notes.case_query = Some(no_query(alloc));
    notes.case_name = Some(no_query(alloc));
    for event in project.split("\n\n").skip(1) {
        notes.events.push(note_of(alloc, event)?)?;
    }
    Ok(notes)
}

fn asked_event(alloc: Global, lines: &str) -> Result<AskedEvent, AllocError> {
    Ok(AskedEvent {
        objects: answers_of(alloc, Side::Object, lines, "object")?,
        cases: answers_of(alloc, Side::Object, lines, "in")?,
        keys: values_of(alloc, lines)?,
    })
}

fn asked_of(alloc: Global, project: &str) -> Result<Asked, AllocError> {
    let mut events = List::new(alloc);
    for event in project.split("\n\n").skip(1) {
        events.push(asked_event(alloc, event)?)?;
    }
    Ok(Asked {
        cases: answers_of(alloc, Side::Object, project, "case")?,
        names: answers_of(alloc, Side::Value(ValueKind::Text), project, "name")?,
        events,
    })
}

fn is_log(text: &[u8], traces: &str) -> bool {
    match text.strip_prefix(FRONT.as_bytes()) {
        Some(rest) => rest.strip_suffix(b"</log>\n") == Some(traces.as_bytes()),
        None => false,
    }
}

fn are_said(
    alloc: Global,
    notes: &Annotations,
    asked: &Asked,
    traces: &str,
    text: &str,
) -> Result<bool, AllocError> {
    if !asked.is_in_order() {
        return Ok(false);
    }
    let log = assemble(alloc, notes, asked)?;
    let printed = log_text(alloc, &log)?;
    let reported = report(alloc, notes, asked, &log)?;
    Ok(is_log(printed.as_slice(), traces) && reported.as_slice() == text.as_bytes())
}

fn says(alloc: Global, project: &str, traces: &str, text: &str) -> Result<bool, AllocError> {
    let notes = notes_of(alloc, project)?;
    let asked = asked_of(alloc, project)?;
    are_said(alloc, &notes, &asked, traces, text)
}

#[test]
fn the_conference_has_its_log(rt: HostRuntime) -> Result<(), Fail> {
    assert!(rt; says(rt.alloc(), CONFERENCE, CONFERENCE_LOG, CONFERENCE_REPORT)?);
    Ok(())
}

#[test]
fn keys_and_names_follow_their_rules(rt: HostRuntime) -> Result<(), Fail> {
    assert!(rt; says(rt.alloc(), VISITS, VISITS_LOG, VISITS_REPORT)?);
    Ok(())
}

#[test]
fn an_event_stands_in_each_of_its_cases(rt: HostRuntime) -> Result<(), Fail> {
    let report = "traces 2 events 8 left out 0\n";
    assert!(rt; says(rt.alloc(), TWICE, TWICE_LOG, report)?);
    Ok(())
}
