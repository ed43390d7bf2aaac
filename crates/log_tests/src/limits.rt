//! Limits, each at its number and one above.
use crate::cases::{changed, repeated, shelf_of, tells, tells_over, words_of};
use crate::conflicts::has_no_log;
use onprom_core::{Status, run};
use outside::{Bytes, SureShelf, SureSink};
use std::alloc::{AllocError, Global};
use std::test::Fail;

// A limit, how often the part in brackets stands in a project that comes to its number, and the project, in
// which `%` is the number of the part.
const LIMITS: &str = "lines 19999
onprom 1[
]# the last
~
tables 64
onprom 1[
table t% \"t.csv\"]
~
columns 64
onprom 1
table t \"t.csv\"[
column t c% text]
~
keys 8
onprom 1
table t \"t.csv\"
column t a text[
key t (a)]
~
classes 400
onprom 1[
class A%]
~
links 600
onprom 1
class A[
attr A u% text *]
~
axioms 6000
onprom 1
class A
class B[
sub A B]
~
constraints 3000
onprom 1
class A
class B[
disjoint A B]
~
mappings 500
onprom 1
table t \"t.csv\"
column t a text
class A[
map m% from t x then A(iri \"http://e/{x.a}\")]
~
tables of a mapping 5
onprom 1
table t \"t.csv\"
column t a text
class A
map m from t x[, t x%] then A(iri \"http://e/{x.a}\")
~
conditions 31
onprom 1
table t \"t.csv\"
column t a text
class A
map m from t x where x.a = \"v\"[ and x.a = \"v\"] then A(iri \"http://e/{x.a}\")
~
targets 31
onprom 1
table t \"t.csv\"
column t a text
class A
map m from t x then A(iri \"http://e/{x.a}\")[, A(iri \"http://e/{x.a}\")]
~
atoms 15
onprom 1
class A
query q (x) where A(x)[, A(x)]
~
variables 14
onprom 1
class A
assoc p A * -> A *
query q (x) where p(x, y)[, p(x, y%)]
~
variables 15
onprom 1
class A
query q (x[, x]) where A(x)
~
events 64
onprom 1
class A[
event e% x where A(x)]
~
event keys 64
onprom 1
class A
event e x where A(x)[
set e \"k%\" many is text \"v\"]
~
queries 256
onprom 1
class A[
query q% (x) where A(x)]";

// Whether a project with the part so many times tells this of a query that it has not.
fn is_told(alloc: Global, project: &str, count: u32, want: &str) -> Result<bool, AllocError> {
    let text = repeated(alloc, project, &[count])?;
    tells_over(alloc, &[("p", text.as_str())], "rewrite p none", want)
}

fn is_limited(alloc: Global, name: &str, count: u32, project: &str) -> Result<bool, AllocError> {
    let limit = format!(in alloc; "8\n--\nlimit: {name}")?;
    Ok(
        is_told(alloc, project, count, "3\n--\nrefused: query none: Unknown")?
            && is_told(alloc, project, count.saturating_add(1), limit.as_str())?,
    )
}

// The name, the number and the project of a case.
fn parts(case: &str) -> Option<(&str, u32, &str)> {
    let (first, project) = case.split_once('\n')?;
    let (name, count) = first.rsplit_once(' ')?;
    Some((name, count.parse::<u32>().ok()?, project))
}

fn is_limit(alloc: Global, case: &str) -> Result<bool, AllocError> {
    match parts(case) {
        Some((name, count, project)) => is_limited(alloc, name, count, project),
        None => Ok(false),
    }
}

#[test]
fn lines_pass_limits(rt: HostRuntime) -> Result<(), Fail> {
    for case in LIMITS.split("\n~\n") {
        assert!(rt; is_limit(rt.alloc(), case)?, "{case}");
    }
    Ok(())
}

const ONE_COLUMN: &str = "onprom 1\ntable t \"t.csv\"\ncolumn t a text\n";

fn rows_tell(alloc: Global, count: u32, want: &str) -> Result<bool, AllocError> {
    let table = repeated(alloc, "a[\n1]", &[count])?;
    let files = [("p", ONE_COLUMN), ("t.csv", table.as_str())];
    tells_over(alloc, &files, "check p", want)
}

#[test]
fn rows_pass_a_limit(rt: HostRuntime) -> Result<(), Fail> {
    for (count, want) in [
        (1_000_000, "0\n--\nconsistent"),
        (1_000_001, "8\n--\nlimit: rows"),
    ] {
        assert!(rt; rows_tell(rt.alloc(), count, want)?, "{count}");
    }
    Ok(())
}

// 65,536 signs of a comment.
fn signs(alloc: Global) -> Result<Bytes, AllocError> {
    let mut signs = Bytes::new(alloc);
    for _ in 0..65_536 {
        signs.push(b'#')?;
    }
    Ok(signs)
}

// 1,024 times so many, and these behind them.
fn long(alloc: Global, behind: &[u8]) -> Result<Bytes, AllocError> {
    let signs = signs(alloc)?;
    let mut text = Bytes::new(alloc);
    for _ in 0..1_024 {
        text.append(signs.slice())?;
    }
    text.append(behind)?;
    Ok(text)
}

fn long_tells(alloc: Global, behind: &[u8], want: &str) -> Result<bool, AllocError> {
    let text = long(alloc, behind)?;
    let mut shelf = SureShelf::new(alloc);
    if !shelf.holds("p") {
        shelf.add_file("p", text.slice())?;
    }
    tells(alloc, &mut shelf, "check p", want)
}

#[test]
fn a_file_passes_a_limit(rt: HostRuntime) -> Result<(), Fail> {
    assert!(rt; long_tells(rt.alloc(), b"", "3\n--\nrefused: p line 1: Syntax")?);
    assert!(rt; long_tells(rt.alloc(), b"#", "8\n--\nlimit: file")?);
    Ok(())
}

// Subclasses of two classes, which a query asks together: it reaches each pair.
const WIDE: &str = "onprom 1
table t \"t.csv\"
column t a text
column t b text
class A
class B[
class A%
sub A% A
class B%
sub B% B]
disjoint A B
map m from t x then A(iri \"http://e/{x.a}\")
map n from t x then B(iri \"http://e/{x.b}\")
case c where A(c)
event e x where A(x), B(y)
cases e (x, x) where A(x)
set e \"concept:name\" mandatory is text \"e\"
set e \"time:timestamp\" mandatory is time \"2024-01-01\"
query w (x, y) where A(x), B(y)
";

fn wide_tells(alloc: Global, words: &str, want: &str) -> Result<bool, AllocError> {
    let project = repeated(alloc, WIDE, &[70])?;
    let files = [("p", project.as_str()), ("t.csv", "a,b\n1,2\n")];
    tells_over(alloc, &files, words, want)
}

// Its rewritings are too many to be printed. To be answered it has one fold, itself.
#[test]
fn five_thousand_rewritings_are_too_many(rt: HostRuntime) -> Result<(), Fail> {
    for (words, want) in [
        ("rewrite p w", "8\n--\nlimit: rewriting"),
        ("answer p w", "0\n<http://e/1> <http://e/2>\n--\nanswers 1"),
        ("check p", "0\n--\nconsistent"),
    ] {
        assert!(rt; wide_tells(rt.alloc(), words, want)?, "{words}");
    }
    Ok(())
}

// Each A has a partner at each link. Where all links are asked of an A, each may be left out: of eleven
// links there are 2,048 folds, of twelve 4,096.
const PARTNERED: &str = "onprom 1
table t \"t.csv\"
column t a text
class A
class B[
assoc p% A * -> B 1..*]
map m from t x then A(iri \"http://e/{x.a}\")
case c where A(c)
event e x where A(x)[, p%(x, y%)]
cases e (x, x) where A(x)
set e \"concept:name\" mandatory is text \"e\"
set e \"time:timestamp\" mandatory is time \"2024-01-01\"
query w (x) where A(x)[, p%(x, y%)]
";

fn partnered_tell(alloc: Global, links: u32, words: &str, want: &str) -> Result<bool, AllocError> {
    let project = repeated(alloc, PARTNERED, &[links, links, links])?;
    let files = [("p", project.as_str()), ("t.csv", "a\n1\n")];
    tells_over(alloc, &files, words, want)
}

#[test]
fn four_thousand_folds_are_too_many(rt: HostRuntime) -> Result<(), Fail> {
    for (links, words, want) in [
        (11, "answer p w", "0\n<http://e/1>\n--\nanswers 1"),
        (12, "answer p w", "8\n--\nlimit: rewriting"),
        (12, "extract p", "8\n--\nlimit: rewriting"),
        (12, "answer p case", "0\n<http://e/1>\n--\nanswers 1"),
        (12, "check p", "0\n--\nconsistent"),
    ] {
        assert!(rt;
            partnered_tell(rt.alloc(), links, words, want)?,
            "{links} {words}"
        );
    }
    Ok(())
}

fn wide_conflicts(alloc: Global) -> Result<bool, AllocError> {
    let project = repeated(alloc, WIDE, &[70])?;
    let mut shelf = shelf_of(
        alloc,
        "",
        &[("p", project.as_str()), ("t.csv", "a,b\n1,1\n")],
    )?;
    has_no_log(alloc, &mut shelf, 1)
}

// What contradicts the model is told before any query is asked.
#[test]
fn contradictions_are_told_before_a_limit(rt: HostRuntime) -> Result<(), Fail> {
    assert!(rt; wide_conflicts(rt.alloc())?);
    Ok(())
}

// The query that is too wide is none of the log.
#[test]
fn named_queries_are_not_asked(rt: HostRuntime) -> Result<(), Fail> {
    let lines = [("event e x where A(x), B(y)", "event e x where A(x)")];
    let narrow = changed(rt.alloc(), WIDE, &lines)?;
    let project = repeated(rt.alloc(), narrow.as_str(), &[70])?;
    let report = "traces 1 events 1 left out 0\n";
    assert!(rt;
        reports(
            rt.alloc(),
            project.as_str(),
            "extract p",
            Status::Done,
            report
        )?
    );
    Ok(())
}

// Whether the run of a project ends so with this report, whatever it writes.
fn reports(
    alloc: Global,
    project: &str,
    words: &str,
    status: Status,
    report: &str,
) -> Result<bool, AllocError> {
    let words = words_of(alloc, words)?;
    let mut shelf = shelf_of(alloc, "", &[("p", project), ("t.csv", "a,b\n1,2\n")])?;
    let mut out = SureSink::new(alloc);
    let mut reported = SureSink::new(alloc);
    let ended = run(alloc, &words, &mut shelf, &mut out, &mut reported);
    Ok(ended == status && reported.written() == report.as_bytes())
}

// Each class in one bracket leads to a partner, each in the other comes from one. The query reaches two
// more at either end, the pairs of all these, and the one link of both ends.
const ENDS: &str = "onprom 1
class A
class B
assoc p A 1..* -> B 1..*[
class A%
sub A% A][
class B%
sub B% B]
query q (x, y) where p(x, u), p(v, y)
";

fn ends_tell(
    alloc: Global,
    counts: [u32; 2],
    words: &str,
    status: Status,
    report: &str,
) -> Result<bool, AllocError> {
    let project = repeated(alloc, ENDS, &counts)?;
    reports(alloc, project.as_str(), words, status, report)
}

// 43 times 93 and one are 4,000, of which the one link is not printed; 50 times 80 and one are 4,001.
// The folds are few: each end has its link or its class.
#[test]
fn rewritings_pass_a_limit(rt: HostRuntime) -> Result<(), Fail> {
    for (counts, words, status, report) in [
        ([41, 91], "rewrite p q", Status::Done, "queries 3999\n"),
        ([48, 78], "rewrite p q", Status::Limit, "limit: rewriting\n"),
        ([48, 78], "answer p q", Status::Done, "answers 0\n"),
    ] {
        assert!(rt;
            ends_tell(rt.alloc(), counts, words, status, report)?,
            "{words}"
        );
    }
    Ok(())
}

const NOTHING: &str = "onprom 1
table t \"t.csv\"
column t a text
class A
disjoint A A
map m from t x then A(iri \"http://e/{x.a}\")
";

const STEPS: &str = "conflict 1[
% map m 1 rows 1]
clash 1 1
end
";

fn steps_tell(alloc: Global, count: u32, want: &str) -> Result<bool, AllocError> {
    let text = repeated(alloc, STEPS, &[count])?;
    let files = [("p", NOTHING), ("t.csv", "a\n1\n"), ("d", text.as_str())];
    tells_over(alloc, &files, "verify p d", want)
}

#[test]
fn steps_pass_a_limit(rt: HostRuntime) -> Result<(), Fail> {
    for (count, want) in [(8_000, "0\n--\naccepted 1"), (8_001, "8\n--\nlimit: steps")] {
        assert!(rt; steps_tell(rt.alloc(), count, want)?, "{count}");
    }
    Ok(())
}
