//! The log of the conference, and of the conference with other lines and other rows.
use crate::cases::{changed, holds, shelf_of, tells_over};
use crate::conference::{LOG, NO_TRACES, PAPER, PERSON, PROJECT, REPORT, REVIEW};
use crate::conflicts::{contradicts, has_no_log};
use std::alloc::{AllocError, Global};
use std::test::Fail;

// Whether `extract` is done with this log and this report.
fn extracts<'a>(
    alloc: Global,
    project: &'a str,
    paper: &'a str,
    review: &'a str,
    log: &str,
    report: &str,
) -> Result<bool, AllocError> {
    let files = [
        ("conf.txt", project),
        ("paper.csv", paper),
        ("person.csv", PERSON),
        ("review.csv", review),
    ];
    let want = format!(in alloc; "0\n{log}--\n{report}")?;
    tells_over(alloc, &files, "extract conf.txt", want.as_str())
}

// The same where these lines of the project and of the log are changed.
fn extracts_changed(
    alloc: Global,
    lines: &[(&str, &str)],
    review: &str,
    log: &[(&str, &str)],
    report: &str,
) -> Result<bool, AllocError> {
    let project = changed(alloc, PROJECT, lines)?;
    let log = changed(alloc, LOG, log)?;
    extracts(alloc, project.as_str(), PAPER, review, log.as_str(), report)
}

#[test]
fn the_conference_has_its_log(rt: HostRuntime) -> Result<(), Fail> {
    assert!(rt; extracts_changed(rt.alloc(), &[], REVIEW, &[], REPORT)?);
    Ok(())
}

// That each review is done at some time, known or not, gives no time.
#[test]
fn an_unknown_time_is_no_time(rt: HostRuntime) -> Result<(), Fail> {
    let lines = [("doneAt time 0..1", "doneAt time 1")];
    assert!(rt; extracts_changed(rt.alloc(), &lines, REVIEW, &[], REPORT)?);
    Ok(())
}

const NO_REVIEWS: &str = "id,paper,reviewer,done\n";

#[test]
fn tables_without_rows_have_an_empty_log(rt: HostRuntime) -> Result<(), Fail> {
    let log = format!(in rt.alloc(); "{NO_TRACES}</log>\n")?;
    let report = "traces 0 events 0 left out 0";
    let paper = "id,title,author,submitted\n";
    assert!(rt; extracts(rt.alloc(), PROJECT, paper, NO_REVIEWS, log.as_str(), report)?);
    Ok(())
}

const EMPTY_TRACE: &str = "  <trace>
    <string key=\"object\" value=\"http://conf.org/paper/3\"/>
    <string key=\"concept:name\" value=\"Empty\"/>
  </trace>
";

#[test]
fn a_case_without_events_has_a_trace(rt: HostRuntime) -> Result<(), Fail> {
    let log = format!(in rt.alloc(); "{NO_TRACES}{EMPTY_TRACE}</log>\n")?;
    let report = "traces 1 events 0 left out 1
left out: submit <http://conf.org/paper/3>: none time:timestamp";
    let paper = "id,title,author,submitted\n3,Empty,10,\n";
    assert!(rt; extracts(rt.alloc(), PROJECT, paper, NO_REVIEWS, log.as_str(), report)?);
    Ok(())
}

const FIRST_REVIEW: &str = "    <event>
      <string key=\"object\" value=\"http://conf.org/review/r1\"/>
      <string key=\"concept:name\" value=\"review paper\"/>
      <date key=\"time:timestamp\" value=\"2024-03-10T11:00:00.000+00:00\"/>
      <string key=\"org:resource\" value=\"Bo\"/>
      <string key=\"lifecycle:transition\" value=\"complete\"/>
    </event>
";

// The first review has two rows, which do not agree on its time.
#[test]
fn an_event_of_two_times_is_left_out(rt: HostRuntime) -> Result<(), Fail> {
    let lines = [
        ("key review (id)\n", ""),
        ("doneAt time 0..1", "doneAt time *"),
    ];
    let review = format!(in rt.alloc(); "{REVIEW}r1,1,11,2024-03-12T00:00:00Z\n")?;
    let report = "traces 2 events 3 left out 2
left out: review <http://conf.org/review/r1>: several time:timestamp
left out: review <http://conf.org/review/r2>: none time:timestamp";
    let log = [(FIRST_REVIEW, "")];
    assert!(rt; extracts_changed(rt.alloc(), &lines, review.as_str(), &log, report)?);
    Ok(())
}

const BEHIND_THE_SUBMISSION: &str =
    "set submit \"org:resource\" single (x, n) where writes(a, x), name(a, n)\n";

const MANY_NOTES: &str = "set submit \"org:resource\" single (x, n) where writes(a, x), name(a, n)
set submit \"note\" many (x, n) where about(r, x), doneBy(r, a), name(a, n)
";

const ONE_NOTE: &str = "set submit \"org:resource\" single (x, n) where writes(a, x), name(a, n)
set submit \"note\" single (x, n) where about(r, x), doneBy(r, a), name(a, n)
";

const FIRST_SUBMISSION: &str =
    "2024-03-01T09:00:00.000+00:00\"/>\n      <string key=\"org:resource\" value=\"Ada\"/>\n";

const SECOND_SUBMISSION: &str =
    "2024-03-02T08:30:00.000+00:00\"/>\n      <string key=\"org:resource\" value=\"Bo\"/>\n";

// The notes of a submission are the names of its reviewers.
#[test]
fn a_key_of_many_values_is_numbered(rt: HostRuntime) -> Result<(), Fail> {
    let lines = [(BEHIND_THE_SUBMISSION, MANY_NOTES)];
    let first = format!(in rt.alloc();
        "{FIRST_SUBMISSION}      <string key=\"note#1\" value=\"Bo\"/>\n      <string key=\"note#2\" value=\"Cy\"/>\n"
    )?;
    let second = format!(in rt.alloc();
        "{SECOND_SUBMISSION}      <string key=\"note#1\" value=\"Ada\"/>\n"
    )?;
    let log = [
        (FIRST_SUBMISSION, first.as_str()),
        (SECOND_SUBMISSION, second.as_str()),
    ];
    assert!(rt; extracts_changed(rt.alloc(), &lines, REVIEW, &log, REPORT)?);
    Ok(())
}

#[test]
fn a_single_key_of_two_values_is_told(rt: HostRuntime) -> Result<(), Fail> {
    let lines = [(BEHIND_THE_SUBMISSION, ONE_NOTE)];
    let second = format!(in rt.alloc();
        "{SECOND_SUBMISSION}      <string key=\"note\" value=\"Ada\"/>\n"
    )?;
    let log = [(SECOND_SUBMISSION, second.as_str())];
    let report = "traces 2 events 4 left out 1
several: submit <http://conf.org/paper/1> note
left out: review <http://conf.org/review/r2>: none time:timestamp";
    assert!(rt; extracts_changed(rt.alloc(), &lines, REVIEW, &log, report)?);
    Ok(())
}

const THIRD_REVIEW: &str = "    <event>
      <string key=\"object\" value=\"http://conf.org/review/r3\"/>
      <string key=\"concept:name\" value=\"review paper\"/>
      <date key=\"time:timestamp\" value=\"2024-03-10T23:00:00.000+00:00\"/>
      <string key=\"org:resource\" value=\"Ada\"/>
      <string key=\"lifecycle:transition\" value=\"complete\"/>
    </event>
";

const THIRD_AT_ELEVEN: &str = "    <event>
      <string key=\"object\" value=\"http://conf.org/review/r3\"/>
      <string key=\"concept:name\" value=\"review paper\"/>
      <date key=\"time:timestamp\" value=\"2024-03-10T11:00:00.000+00:00\"/>
      <string key=\"org:resource\" value=\"Ada\"/>
      <string key=\"lifecycle:transition\" value=\"complete\"/>
    </event>
";

const AT_ELEVEN: &str = "id,paper,reviewer,done
r1,1,11,2024-03-10T12:00:00+01:00
r2,1,12,
r3,2,10,2024-03-10T11:00:00Z
";

const OF_ONE_PAPER: &str = "cases review (x, c) where about(x, c)";

const OF_ALL_PAPERS: &str = "cases review (x, c) where Review(x), Paper(c)";

// Each review is an event of each paper; two are at one time.
#[test]
fn an_event_stands_in_each_of_its_cases(rt: HostRuntime) -> Result<(), Fail> {
    let reviews = format!(in rt.alloc(); "{FIRST_REVIEW}{THIRD_AT_ELEVEN}")?;
    let lines = [(OF_ONE_PAPER, OF_ALL_PAPERS)];
    let log = [
        (FIRST_REVIEW, reviews.as_str()),
        (THIRD_REVIEW, reviews.as_str()),
    ];
    let report = "traces 2 events 6 left out 1
left out: review <http://conf.org/review/r2>: none time:timestamp";
    assert!(rt; extracts_changed(rt.alloc(), &lines, AT_ELEVEN, &log, report)?);
    Ok(())
}

const LAST_SET: &str = "set review \"lifecycle:transition\" single is text \"complete\"\n";

const SET_AGAIN: &str = "set review \"lifecycle:transition\" single is text \"complete\"
event again x where Review(x)
cases again (x, c) where Review(x), Paper(c)
set again \"concept:name\" mandatory is text \"review again\"
set again \"time:timestamp\" mandatory (x, t) where doneAt(x, t)
set again \"org:resource\" single (x, n) where reviewerName(x, n)
set again \"lifecycle:transition\" single is text \"complete\"
";

// A review stands under each of the two events that it is, in the order of their lines.
#[test]
fn one_object_is_two_events(rt: HostRuntime) -> Result<(), Fail> {
    let again = [("review paper", "review again")];
    let first = changed(rt.alloc(), FIRST_REVIEW, &again)?;
    let third = changed(rt.alloc(), THIRD_AT_ELEVEN, &again)?;
    let reviews = format!(in rt.alloc(); "{FIRST_REVIEW}{first}{THIRD_AT_ELEVEN}{third}")?;
    let lines = [(OF_ONE_PAPER, OF_ALL_PAPERS), (LAST_SET, SET_AGAIN)];
    let log = [
        (FIRST_REVIEW, reviews.as_str()),
        (THIRD_REVIEW, reviews.as_str()),
    ];
    let report = "traces 2 events 10 left out 2
left out: review <http://conf.org/review/r2>: none time:timestamp
left out: again <http://conf.org/review/r2>: none time:timestamp";
    assert!(rt; extracts_changed(rt.alloc(), &lines, AT_ELEVEN, &log, report)?);
    Ok(())
}

// What is asked of the conference, and what else ends a run.
const CASES: &str = "answer conf.txt reviews
=> 0
<http://conf.org/review/r1>
<http://conf.org/review/r2>
<http://conf.org/review/r3>
--
answers 3
~
answer conf.txt case
=> 0
<http://conf.org/paper/1>
<http://conf.org/paper/2>
--
answers 2
~
answer conf.txt submit
=> 0
<http://conf.org/paper/1>
<http://conf.org/paper/2>
--
answers 2
~
rewrite conf.txt review
=> 0
(x) where Review(x)
(x) where about(x, _)
(x) where doneBy(x, _)
(x) where doneAt(x, _)
(x) where reviewerName(x, _)
--
queries 5
~
rewrite conf.txt case
=> 0
(c) where Paper(c)
(c) where writes(_, c)
(c) where about(_, c)
(c) where title(c, _)
(c) where submittedAt(c, _)
--
queries 5
~
check conf.txt
=> 0
--
consistent
~
extract conf.txt
@ paper.csv
id,title,author,submitted
1,Chase & Match,10,2024-03-01T09:00:00Z
2,\"Logs, Events\",11,9999-01-01
=> 3
--
refused: paper.csv row 2 column submitted: BadCell
~
check conf.txt
@ person.csv
id,name
10,Ada
x,Bo
=> 3
--
refused: person.csv row 2 column id: BadCell
~
answer conf.txt nobody
@ paper.csv
no header
=> 3
--
refused: query nobody: Unknown
~
answer conf.txt reviews
@ review.csv
id,paper,reviewer,done
r1,1,11,
r1,2,11,
=> 3
--
refused: review.csv rows 1 2: DoubleKey
~
rewrite conf.txt reviews
@ paper.csv
no header
=> 0
(x) where Review(x)
(x) where about(x, _)
(x) where doneBy(x, _)
(x) where doneAt(x, _)
(x) where reviewerName(x, _)
--
queries 5
~
verify conf.txt paper.csv
=> 3
--
refused: paper.csv line 1: Syntax";

#[test]
fn the_conference_is_asked(rt: HostRuntime) -> Result<(), Fail> {
    let files = [
        ("conf.txt", PROJECT),
        ("paper.csv", PAPER),
        ("person.csv", PERSON),
        ("review.csv", REVIEW),
    ];
    for case in CASES.split("\n~\n") {
        assert!(rt; holds(rt.alloc(), &files, case)?, "{case}");
    }
    Ok(())
}

// The reviews are not there.
const WITHOUT_REVIEWS: &str = "extract conf.txt
=> 4
--
absent: review.csv
~
check conf.txt
=> 4
--
absent: review.csv
~
verify conf.txt d
=> 4
--
absent: review.csv
~
answer conf.txt reviews
=> 4
--
absent: review.csv
~
answer conf.txt
=> 2
--
usage: extract P | check P | verify P D | answer P Q | rewrite P Q | make N F | why P Q N | lint P | contained P Q Q
~
rewrite conf.txt none
=> 3
--
refused: query none: Unknown";

#[test]
fn a_table_is_absent(rt: HostRuntime) -> Result<(), Fail> {
    let files = [
        ("conf.txt", PROJECT),
        ("paper.csv", PAPER),
        ("person.csv", PERSON),
    ];
    for case in WITHOUT_REVIEWS.split("\n~\n") {
        assert!(rt; holds(rt.alloc(), &files, case)?, "{case}");
    }
    Ok(())
}

// Lines behind the last, each with its fault.
const LAST_LINES: &str = "map w from paper p then Paper(iri \"http://e/p{p.id}\") => NotBounded
query q (x) where submittedAt(y, x), Paper(x) => MixedSort
query q (z) where Paper(x) => HeadUnbound
query q (x) where Paper(x => Syntax
query reviews (x) where Paper(x) => Double
query q (x) where Papers(x) => Unknown
query q (x) where Paper(x, x) => TypeMismatch
map w from paper p then Paper(iri \"http://e/ {p.id}\") => BadTemplate
set review \"object\" single is text \"v\" => BadKey
subattr title submittedAt => TypeMismatch
subassoc writes doneBy => FunctionalSpecialised";

fn is_refused(alloc: Global, case: &str) -> Result<bool, AllocError> {
    match case.split_once(" => ") {
        Some((line, kind)) => {
            let project = format!(in alloc; "{PROJECT}{line}\n")?;
            let want = format!(in alloc; "3\n--\nrefused: conf.txt line 51: {kind}")?;
            let files = [("conf.txt", project.as_str())];
            tells_over(alloc, &files, "check conf.txt", want.as_str())
        }
        None => Ok(false),
    }
}

#[test]
fn the_first_fault_of_a_line_is_told(rt: HostRuntime) -> Result<(), Fail> {
    for case in LAST_LINES.lines() {
        assert!(rt; is_refused(rt.alloc(), case)?, "{case}");
    }
    Ok(())
}

// Each review is a paper, and none is.
const CONTRADICTED: &str = "query reviews (x) where Review(x)
sub Review Paper
disjoint Review Paper
";

fn is_contradicted(alloc: Global, project: &str) -> Result<bool, AllocError> {
    let files = [
        ("p", project),
        ("paper.csv", PAPER),
        ("person.csv", PERSON),
        ("review.csv", REVIEW),
    ];
    let mut shelf = shelf_of(alloc, "", &files)?;
    contradicts(alloc, &mut shelf, "8")
}

fn is_not_written(alloc: Global, project: &str) -> Result<bool, AllocError> {
    let files = [
        ("p", project),
        ("paper.csv", PAPER),
        ("person.csv", PERSON),
        ("review.csv", REVIEW),
    ];
    let mut shelf = shelf_of(alloc, "", &files)?;
    has_no_log(alloc, &mut shelf, 1)
}

#[test]
fn a_contradicted_conference_has_no_log(rt: HostRuntime) -> Result<(), Fail> {
    let lines = [("query reviews (x) where Review(x)\n", CONTRADICTED)];
    let project = changed(rt.alloc(), PROJECT, &lines)?;
    assert!(rt; is_contradicted(rt.alloc(), project.as_str())?);
    assert!(rt; is_not_written(rt.alloc(), project.as_str())?);
    Ok(())
}

const TWO_TIMES: &str = "id,title,author,submitted
1,Chase & Match,10,2024-03-01T09:00:00Z
2,\"Logs, Events\",11,2024-03-02 08:30
1,Chase & Match,12,2024-03-01T19:00:00Z
";

// The paper of two rows was submitted at two times.
fn is_told_twice(alloc: Global, project: &str) -> Result<bool, AllocError> {
    let files = [
        ("p", project),
        ("paper.csv", TWO_TIMES),
        ("person.csv", PERSON),
        ("review.csv", REVIEW),
    ];
    let mut shelf = shelf_of(alloc, "", &files)?;
    contradicts(alloc, &mut shelf, "5")
}

#[test]
fn a_paper_of_two_times_contradicts(rt: HostRuntime) -> Result<(), Fail> {
    let lines = [("key paper (id)\n", "key paper (id, author)\n")];
    let project = changed(rt.alloc(), PROJECT, &lines)?;
    assert!(rt; is_told_twice(rt.alloc(), project.as_str())?);
    Ok(())
}
