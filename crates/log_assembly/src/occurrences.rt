//! The events of a log with their cases, in order.
ghost use Rattle.std.specs.Prelude.{◌≡◌, ◌++◌, map, IfOk, OnOk};
ghost use Rattle.std.specs.List.{All, flat_map, zip};
ghost use Rattle.std.specs.List.Sorted.{IsStrictlySortedBy};
ghost use Rattle.vocabulary.specs.Lists.{In, IsListOf};
ghost use Rattle.vocabulary.specs.Texts.{text_cmp};
ghost use Rattle.log_assembly.specs.Answered.{InOrder, IsEventInOrder};
ghost use Rattle.log_assembly.specs.Found.{names_of};
ghost use Rattle.log_assembly.specs.Gathered.{at_case, event_occurrences, moment_of, object_occurrences, occurrence, occurrence_cmp, occurrences_from, occurrences_in};
ghost use Rattle.log_assembly.specs.TheLog.{moment_cmp};

use crate::asked::AskedEvent;
use crate::attributes::attributes;
use crate::entries::times;
use crate::lent::{LentIri, LentName};
use crate::lookup::{cases_at, names};
use crate::places::Places;
use crate::verdict::is_kept;
use annotation_language::EventNote;
use certain_answers::Answers;
use std::alloc::{AllocError, Global};
use std::cmp::Ordering;
use std::marker::Model;
use vocabulary::Name;

/// An event of the log in one of its cases: when, which object, and the place of its annotation. The
/// places of its keys have the numbers from `places` on.
#[derive(Debug, Drop)]
pub struct Occurrence<'a> {
    pub case: LentIri<'a>,
    pub instant: LentName<'a>,
    pub object: LentIri<'a>,
    pub place: usize,
    pub places: usize,
}

impl<'a> Model for Occurrence<'a> {
    ghost use Rattle.log_assembly.specs.Gathered.{Occurrence};

    ghost Value = { Occurrence };

    ghost view = { λ x. record { case = x.case; instant = x.instant; object = x.object; place = x.place } };
}

// An event annotation with its answers, its place among the annotations, and the answers that are cases.
#[derive(Drop)]
struct Annotated<'a> {
    cases: &'a Answers,
    event: &'a EventNote,
    answers: &'a AskedEvent,
    place: usize,
}

fn compare_names(a: &Name, b: &Name) -> Ordering
    ensures { result ≡ text_cmp a.now b.now }
{
    a.text().as_bytes().cmp(b.text().as_bytes())
}

impl Occurrence<'_> {
    // By instant, then by object and place.
    fn compare_moments(&self, other: &Occurrence<'_>) -> Ordering
        ensures { result ≡ moment_cmp (moment_of self.now) (moment_of other.now) }
    {
        match compare_names(self.instant.name(), other.instant.name()) {
            Ordering::Less => Ordering::Less,
            Ordering::Greater => Ordering::Greater,
            Ordering::Equal => {
                let objects = compare_names(self.object.name(), other.object.name());
                objects.then(self.place.cmp(&other.place))
            }
        }
    }

    /// By case, then by instant, object and place.
    fn compare(&self, other: &Occurrence<'_>) -> Ordering
        ensures { result ≡ occurrence_cmp self.now other.now }
    {
        match compare_names(self.case.name(), other.case.name()) {
            Ordering::Less => Ordering::Less,
            Ordering::Greater => Ordering::Greater,
            Ordering::Equal => self.compare_moments(other),
        }
    }
}

fn push_times<'a>(
    out: &mut Vec<Occurrence<'a>>,
    case: &LentIri<'a>,
    object: &LentIri<'a>,
    place: usize,
    places: usize,
    times: &[LentName<'a>],
) -> Result<(), AllocError>
    ensures { OnOk result (out.new.items ≡ out.old.items ++ map (occurrence case.now object.now place) times.now) }
{
    for time in times {
        out.push(Occurrence {
            case: case.lend(),
            instant: time.lend(),
            object: object.lend(),
            place,
            places,
        })?;
    }
    Ok(())
}

fn push_cases<'a>(
    out: &mut Vec<Occurrence<'a>>,
    object: &LentIri<'a>,
    place: usize,
    places: usize,
    times: &[LentName<'a>],
    cases: &[LentIri<'a>],
) -> Result<(), AllocError>
    ensures { OnOk result (out.new.items ≡ out.old.items ++ occurrences_in object.now place times.now cases.now) }
{
    for case in cases {
        push_times(out, case, object, place, places, times)?;
    }
    Ok(())
}

fn push_object<'a>(
    alloc: Global,
    out: &mut Vec<Occurrence<'a>>,
    places: &mut Vec<usize>,
    annotated: &Annotated<'a>,
    near: &mut Places,
    object: &LentIri<'a>,
) -> Result<(), AllocError>
    requires cases { InOrder annotated.now.cases.now }
    requires answers { IsEventInOrder annotated.now.answers.now }
    ensures { OnOk result (out.new.items ≡ out.old.items ++ object_occurrences annotated.now.cases.now.tuples annotated.now.event.now annotated.now.answers.now annotated.now.place object.now) }
{
    let keys = annotated.event.keys.items();
    let answers = annotated.answers;
    let found = attributes(
        alloc,
        keys,
        answers.keys.items(),
        object.term(),
        &mut near.keys,
        0,
    )?;
    let cases = cases_at(alloc, annotated.cases, &answers.cases, object.term(), near)?;
    if !is_kept(&found, &cases) {
        return Ok(());
    }
    let times = times(alloc, &found)?;
    let number = places.len();
    places.extend_from_slice(&near.keys)?;
    push_cases(out, object, annotated.place, number, &times, &cases)
}

fn push_event<'a>(
    alloc: Global,
    out: &mut Vec<Occurrence<'a>>,
    places: &mut Vec<usize>,
    annotated: &Annotated<'a>,
) -> Result<(), AllocError>
    requires cases { InOrder annotated.now.cases.now }
    requires answers { IsEventInOrder annotated.now.answers.now }
    ensures { OnOk result (out.new.items ≡ out.old.items ++ event_occurrences annotated.now.cases.now.tuples annotated.now.place (annotated.now.event.now, annotated.now.answers.now)) }
{
    let objects = names(alloc, &annotated.answers.objects)?;
    let mut near = Places::new(alloc, annotated.event.keys.len())?;
    for object in &objects {
        push_object(alloc, out, places, annotated, &mut near, object)?;
    }
    Ok(())
}

fn gather<'a>(
    alloc: Global,
    all_cases: &'a Answers,
    events: &'a [EventNote],
    asked: &'a [AskedEvent],
    places: &mut Vec<usize>,
) -> Result<Vec<Occurrence<'a>>, AllocError>
    requires cases { InOrder all_cases.now }
    requires asked { All IsEventInOrder asked.now }
    ensures { IfOk result (λ v. v.items ≡ occurrences_from all_cases.now.tuples 0 (zip events.now asked.now)) }
{
    let mut out = Vec::new(alloc);
    let mut at = 0;
    while at < events.len() && at < asked.len() {
        let annotated = Annotated {
            cases: all_cases,
            event: &events[at],
            answers: &asked[at],
            place: at,
        };
        push_event(alloc, &mut out, places, &annotated)?;
        at += 1;
    }
    Ok(out)
}

// In order, and each once.
fn in_order(mut found: Vec<Occurrence<'_>>) -> Result<Vec<Occurrence<'_>>, AllocError>
    ensures { IfOk result (λ v. IsListOf occurrence_cmp (λ x. In x found.entry.items) v.items) }
{
    found.sort_by(|a, b| a.compare(b))?;
    found.dedup_by(|a, b| a.compare(b).is_eq());
    Ok(found)
}

/// The events of the log with their cases, in order and each once. The places of their keys are put
/// behind those that are there.
pub(crate) fn occurrences<'a>(
    alloc: Global,
    cases: &'a Answers,
    events: &'a [EventNote],
    asked: &'a [AskedEvent],
    places: &mut Vec<usize>,
) -> Result<Vec<Occurrence<'a>>, AllocError>
    requires cases { InOrder cases.now }
    requires asked { All IsEventInOrder asked.now }
    ensures { IfOk result (λ v. IsListOf occurrence_cmp (λ x. In x (occurrences_from cases.now.tuples 0 (zip events.now asked.now))) v.items) }
{
    let found = gather(alloc, cases, events, asked, places)?;
    in_order(found)
}

/// Those of the case, which stand together.
pub(crate) fn at_case<'a, 'b>(
    occurrences: &'b [Occurrence<'a>],
    case: &LentIri<'_>,
) -> &'b [Occurrence<'a>]
    requires { IsStrictlySortedBy occurrence_cmp occurrences.now }
    ensures { result.now ≡ at_case case.now occurrences.now }
{
    let from = occurrences.partition_point(|x| compare_names(x.case.name(), case.name()).is_lt());
    let rest = &occurrences[from..];
    let len = rest.partition_point(|x| compare_names(x.case.name(), case.name()).is_le());
    &rest[..len]
}
