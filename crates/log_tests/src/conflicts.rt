//! Contradictions: `check`, and `verify` of what it writes and of what it does not.
use crate::cases::{changed, holds, shelf_of, tells, words_of};
use onprom_core::{Status, run};
use outside::{Bytes, SureShelf, SureSink};
use std::alloc::{AllocError, Global};
use std::test::Fail;

// Each A has one partner at most.
const PARTNERS: &str = "onprom 1
table t \"t.csv\"
column t a text
column t b text
class A
class B
assoc p A * -> B 1
map m1 from t x then A(iri \"http://e/a/{x.a}\")
map m2 from t x then p(iri \"http://e/a/{x.a}\", iri \"http://e/b/{x.b}\")
map m3 from t x then p(iri \"http://e/a/{x.a}\", iri \"http://e/b/{x.b}\")
";

// Rows, and the numbers of the constraints that they contradict. A partner that is not known is no second one.
const OF_PARTNERS: &str = "1,1 => none
1,1 2,1 => none
1, => none
1,1 1, => none
1,1 1,1 => none
1,1 1,2 => 1
3,1 1,2 3,4 1,5 => 1";

// Each A has a partner, which is a B and so a C, and nothing is both: the clash is on what is not known.
pub(crate) const UNKNOWN: &str = "onprom 1
table t \"t.csv\"
column t a text
class A
class B
class C
disjoint B C
assoc p A * -> B 1..*
sub B C
map m from t x then A(iri \"http://e/a/{x.a}\")
";

const OF_UNKNOWN: &str = "=> none
1 => 1
1 2 => 1";

// One thing is what two classes are that have nothing in common.
const TWO_CLASSES: &str = "onprom 1
table t \"t.csv\"
column t a text
column t b text
class A
class B
class C
class D
sub A B
sub A C
disjoint D C
disjoint B C
disjoint C B
disjoint A D
map m from t x where x.b is null then A(iri \"http://e/a/{x.a}\")
map n from t x where x.b is not null then D(iri \"http://e/a/{x.a}\")
";

const OF_TWO_CLASSES: &str = "=> none
1,x => none
1, => 2 3
1, 2,x => 2 3
1, 1,x => 1 2 3 4";

// A link under two links that have no pair in common, and one that is functional both ways.
const LINKS: &str = "onprom 1
table t \"t.csv\"
column t a text
column t b text
class A
class B
assoc p A * -> B *
assoc q A * -> B *
assoc r A * -> B 1..*
assoc one B 1 -> B 1
subassoc r p
subassoc r q
disjointassoc p q
map m from t x where x.b is null then A(iri \"http://e/a/{x.a}\")
map n from t x then one(iri \"http://e/b/{x.a}\", iri \"http://e/b/{x.b}\")
";

const OF_LINKS: &str = "=> none
1, => 3
1,2 2,1 => none
1,2 1,3 => 1
1,3 2,3 => 2
1,2 1,3 2,3 4, => 1 2 3";

// A class that nothing is: one fact clashes with itself.
const NOTHING: &str = "onprom 1
table t \"t.csv\"
column t a text
class A
class B
disjoint A A
sub B A
map m from t x then B(iri \"http://e/a/{x.a}\")
";

// Two tables name one thing where they give one text.
const TWO_TABLES: &str = "onprom 1
table t \"t.csv\"
column t a text
column t b text
table u \"u.csv\"
column u c text
column u d text
class A
class B
assoc p A * -> B 1
map m1 from t x then p(iri \"http://e/a/{x.a}\", iri \"http://e/b/{x.b}\")
map m2 from u y then p(iri \"http://e/a/{y.c}\", iri \"http://e/b/{y.d}\")
";

const OF_TWO_TABLES: &str = "1,x 2,y => none
1,y 2,x => 1
3,y => none";

// Two attributes identify, one of them by what is below it, and then that one alone.
const IDENTIFIED: &str = "onprom 1
table t \"t.csv\"
column t a text
column t b text
column t c text
class A
class B
sub B A
attr A u text *
attr A v text *
attr A w text *
subattr w u
identify A (u, v)
identify A (u)
map m1 from t x then B(iri \"http://e/a/{x.a}\")
map m2 from t x then w(iri \"http://e/a/{x.a}\", x.b)
map m3 from t x then v(iri \"http://e/a/{x.a}\", x.c)
";

const OF_IDENTIFIED: &str = "1,x,y 2,z,y => none
1,x,y 1,x,y => none
1,x,y 2,x,z => 2
1,x,y 2,x,y => 1 2
1,x, 2,x, => 2
1,,y 2,,y => none
1,x,y 1,x,z 2,x,z => 1 2
3,p,q 1,x,y 4,r,s 2,x,y => 1 2";

// The lines of a table with this header and these rows.
fn table_of(alloc: Global, header: &str, rows: &str) -> Result<String, AllocError> {
    let mut text = String::from_str(alloc, header)?;
    for row in rows.split(' ') {
        text.push('\n')?;
        text.push_str(row)?;
    }
    Ok(text)
}

// A line for each of the numbers.
fn contradicted(alloc: Global, numbers: &str) -> Result<String, AllocError> {
    let mut text = String::new(alloc);
    for number in numbers.split(' ') {
        text.push_str("contradicted ")?;
        text.push_str(number)?;
        text.push('\n')?;
    }
    Ok(text)
}

// What `check` writes, where it reports these lines of a conflict.
fn written(alloc: Global, shelf: &mut SureShelf, lines: &str) -> Result<Bytes, AllocError> {
    let words = words_of(alloc, "check p")?;
    let mut out = SureSink::new(alloc);
    let mut report = SureSink::new(alloc);
    let status = run(alloc, &words, shelf, &mut out, &mut report);
    let mut text = Bytes::new(alloc);
    if status == Status::Conflict && report.written() == lines.as_bytes() {
        text.append(out.written())?;
    }
    Ok(text)
}

// What `extract` reports, where it writes nothing of a conflict.
fn reported(alloc: Global, shelf: &mut SureShelf) -> Result<Bytes, AllocError> {
    let words = words_of(alloc, "extract p")?;
    let mut out = SureSink::new(alloc);
    let mut report = SureSink::new(alloc);
    let status = run(alloc, &words, shelf, &mut out, &mut report);
    let mut text = Bytes::new(alloc);
    if status == Status::Conflict && out.written().is_empty() {
        text.append(report.written())?;
    }
    Ok(text)
}

// Whether `verify` accepts so many derivations, all that the text has.
fn accepts(
    alloc: Global,
    shelf: &mut SureShelf,
    text: &[u8],
    count: usize,
) -> Result<bool, AllocError> {
    if shelf.holds("found") {
        return Ok(false);
    }
    shelf.add_file("found", text)?;
    let want = format!(in alloc; "0\n--\naccepted {count}")?;
    tells(alloc, shelf, "verify p found", want.as_str())
}

/// Whether `check p` tells these numbers, each with a derivation that `verify` accepts.
pub(crate) fn contradicts(
    alloc: Global,
    shelf: &mut SureShelf,
    numbers: &str,
) -> Result<bool, AllocError> {
    let lines = contradicted(alloc, numbers)?;
    let text = written(alloc, shelf, lines.as_str())?;
    accepts(alloc, shelf, text.slice(), numbers.split(' ').count())
}

fn is_judged(alloc: Global, shelf: &mut SureShelf, numbers: &str) -> Result<bool, AllocError> {
    if numbers == "none" {
        return tells(alloc, shelf, "check p", "0\n--\nconsistent");
    }
    contradicts(alloc, shelf, numbers)
}

fn is_told<'a>(
    alloc: Global,
    project: &'a str,
    table: &'a str,
    numbers: &str,
) -> Result<bool, AllocError> {
    let files = [
        ("p", project),
        ("t.csv", table),
        ("u.csv", "c,d\n1,x\n2,y\n"),
    ];
    let mut shelf = shelf_of(alloc, "", &files)?;
    is_judged(alloc, &mut shelf, numbers)
}

// Whether rows contradict just the constraints of these numbers.
fn contradict(alloc: Global, project: &str, header: &str, case: &str) -> Result<bool, AllocError> {
    match case.split_once("=> ") {
        Some((rows, numbers)) => {
            let table = table_of(alloc, header, rows.trim_end())?;
            is_told(alloc, project, table.as_str(), numbers)
        }
        None => Ok(false),
    }
}

#[test]
fn one_known_partner_is_no_contradiction(rt: HostRuntime) -> Result<(), Fail> {
    for case in OF_PARTNERS.lines() {
        assert!(rt; contradict(rt.alloc(), PARTNERS, "a,b", case)?, "{case}");
    }
    Ok(())
}

#[test]
fn partners_may_be_none(rt: HostRuntime) -> Result<(), Fail> {
    let project = changed(rt.alloc(), PARTNERS, &[("-> B 1", "-> B 0..1")])?;
    for case in OF_PARTNERS.lines() {
        assert!(rt;
            contradict(rt.alloc(), project.as_str(), "a,b", case)?,
            "{case}"
        );
    }
    Ok(())
}

#[test]
fn what_is_not_known_may_contradict(rt: HostRuntime) -> Result<(), Fail> {
    for case in OF_UNKNOWN.lines() {
        assert!(rt; contradict(rt.alloc(), UNKNOWN, "a", case)?, "{case}");
    }
    Ok(())
}

#[test]
fn each_contradicted_constraint_is_told(rt: HostRuntime) -> Result<(), Fail> {
    for case in OF_TWO_CLASSES.lines() {
        assert!(rt; contradict(rt.alloc(), TWO_CLASSES, "a,b", case)?, "{case}");
    }
    Ok(())
}

#[test]
fn links_contradict(rt: HostRuntime) -> Result<(), Fail> {
    for case in OF_LINKS.lines() {
        assert!(rt; contradict(rt.alloc(), LINKS, "a,b", case)?, "{case}");
    }
    Ok(())
}

#[test]
fn one_fact_may_contradict(rt: HostRuntime) -> Result<(), Fail> {
    for case in ["=> none", "1 => 1"] {
        assert!(rt; contradict(rt.alloc(), NOTHING, "a", case)?, "{case}");
    }
    Ok(())
}

#[test]
fn tables_contradict_each_other(rt: HostRuntime) -> Result<(), Fail> {
    for case in OF_TWO_TABLES.lines() {
        assert!(rt; contradict(rt.alloc(), TWO_TABLES, "a,b", case)?, "{case}");
    }
    Ok(())
}

#[test]
fn members_that_share_what_identifies_contradict(rt: HostRuntime) -> Result<(), Fail> {
    for case in OF_IDENTIFIED.lines() {
        assert!(rt;
            contradict(rt.alloc(), IDENTIFIED, "a,b,c", case)?,
            "{case}"
        );
    }
    Ok(())
}

const DERIVED: &str = "conflict 1
1 map m 1 rows 1
2 rule 3 from 1
3 rule 2 from 2
4 rule 4 from 3
clash 3 4
end
";

// Derivations over the unknown partner of one A.
const VERIFIED: &str = "verify p d
@ d
conflict 1
1 map m 1 rows 1
2 rule 3 from 1
3 rule 2 from 2
4 rule 4 from 3
clash 3 4
end
=> 0
--
accepted 1
~
verify p d
@ d
  conflict\t1 # the first constraint

1 map m 1 rows 1
2 rule 3 from 1
3 rule 2 from 2
4 rule 4 from 3
5 map m 1 rows 1
clash 3 4
conflict 1
1 map m 1 rows 1
2 rule 3 from 1
3 rule 2 from 2
4 rule 4 from 3
clash 3 4
end
# nothing else
=> 0
--
accepted 2
~
verify p d
@ d
conflict 1
1 map m 1 rows 2
2 rule 3 from 1
3 rule 2 from 2
4 rule 4 from 3
clash 3 4
end
=> 10
--
not accepted: 1
~
verify p d
@ d
conflict 1
1 map m 1 rows 1
2 rule 3 from 1
3 rule 2 from 2
4 rule 1 from 3
clash 3 4
end
=> 10
--
not accepted: 1
~
verify p d
@ d
conflict 1
1 map m 1 rows 1
2 rule 99 from 1
3 rule 2 from 2
4 rule 4 from 3
clash 3 4
end
=> 10
--
not accepted: 1
~
verify p d
@ d
conflict 1
1 map m 1 rows 1
2 rule 3 from 1
3 rule 2 from 2
4 rule 4 from 3
clash 4 3
end
=> 10
--
not accepted: 1
~
verify p d
@ d
conflict 2
1 map m 1 rows 1
2 rule 3 from 1
3 rule 2 from 2
4 rule 4 from 3
clash 3 4
end
=> 10
--
not accepted: 1
~
verify p d
@ d
conflict 1
1 map m 1 rows 1 1
2 rule 3 from 1
3 rule 2 from 2
4 rule 4 from 3
clash 3 4
end
=> 10
--
not accepted: 1
~
verify p d
@ d
conflict 1
1 map m 1 rows 1
2 rule 3 from 1
3 rule 2 from 2
4 rule 4 from 3
clash 3 4
conflict 1
1 map m 1 rows 1
2 rule 3 from 1
3 rule 2 from 2
4 rule 4 from 3
clash 3 3
end
=> 10
--
not accepted: 2
~
verify p d
@ d
conflict 1
1 map m 1 rows 1
2 rule 3 from 2
3 rule 2 from 2
4 rule 4 from 3
clash 3 4
end
=> 3
--
refused: d line 3: BadStep
~
verify p d
@ d
conflict 1
1 map m 1 rows 1
2 rule 3 from 0
3 rule 2 from 2
4 rule 4 from 3
clash 3 4
end
=> 3
--
refused: d line 3: BadStep
~
verify p d
@ d
conflict 1
1 map m 1 rows 1
2 rule 3 from 1
3 rule 2 from 2
4 rule 4 from 3
clash 3 9
end
=> 3
--
refused: d line 6: BadStep
~
verify p d
@ d
conflict 1
1 map mm 1 rows 1
2 rule 3 from 1
3 rule 2 from 2
4 rule 4 from 3
clash 3 4
end
=> 3
--
refused: d line 2: Unknown
~
verify p d
@ d
conflict 1
1 map m 1 rows 4294967296
2 rule 3 from 1
3 rule 2 from 2
4 rule 4 from 3
clash 3 4
end
=> 3
--
refused: d line 2: Syntax
~
verify p d
@ d
conflict 1
1 map m 1 rows 1
2 rule 3 from 1
3 rule 2 from 2
4 rule 4 from 3
clash 3
=> 3
--
refused: d line 6: Syntax
~
verify p d
@ d
conflict 1
1 map m 1 rows 1
2 rule 3 from 1
3 rule 2 from 2
4 rule 4 from 3
clash 3 4
=> 3
--
refused: d line 7: Syntax
~
verify p d
@ d
conflict 1
clash 1 1
end
=> 3
--
refused: d line 2: Syntax
~
verify p d
@ d

=> 3
--
refused: d line 1: Syntax
~
verify p d
=> 4
--
absent: d
~
verify q d
=> 4
--
absent: q
~
verify p t.csv
=> 3
--
refused: t.csv line 1: Syntax";

#[test]
fn derivations_are_judged(rt: HostRuntime) -> Result<(), Fail> {
    for case in VERIFIED.split("\n~\n") {
        assert!(rt;
            holds(rt.alloc(), &[("p", UNKNOWN), ("t.csv", "a\n1\n")], case)?,
            "{case}"
        );
    }
    Ok(())
}

// The shelf of the project, with these bytes as derivations.
fn shelf_with(alloc: Global, derivations: &[u8]) -> Result<SureShelf, AllocError> {
    let mut shelf = shelf_of(alloc, "", &[("p", UNKNOWN), ("t.csv", "a\n1\n")])?;
    if !shelf.holds("d") {
        shelf.add_file("d", derivations)?;
    }
    Ok(shelf)
}

fn is_broken(alloc: Global, derivations: &[u8]) -> Result<bool, AllocError> {
    let words = words_of(alloc, "verify p d")?;
    let mut shelf = shelf_with(alloc, derivations)?;
    let mut out = SureSink::new(alloc);
    let mut report = SureSink::new(alloc);
    let status = run(alloc, &words, &mut shelf, &mut out, &mut report);
    Ok(
        status == Status::Refused
            && out.written().is_empty()
            && report.written().ends_with(b": Syntax\n"),
    )
}

fn tells_of(alloc: Global, derivations: &[u8], want: &str) -> Result<bool, AllocError> {
    let mut shelf = shelf_with(alloc, derivations)?;
    tells(alloc, &mut shelf, "verify p d", want)
}

// A front of a derivation is none, but where only the last line end is not there.
fn is_judged_so_far(alloc: Global, text: &[u8], len: usize) -> Result<bool, AllocError> {
    let front = &text[..len.min(text.len())];
    if text.len() - front.len() > 1 {
        is_broken(alloc, front)
    } else {
        tells_of(alloc, front, "0\n--\naccepted 1")
    }
}

#[test]
fn a_front_of_a_derivation_is_none(rt: HostRuntime) -> Result<(), Fail> {
    for len in 0..=DERIVED.len() {
        assert!(rt;
            is_judged_so_far(rt.alloc(), DERIVED.as_bytes(), len)?,
            "{len}"
        );
    }
    Ok(())
}

#[test]
fn derivations_are_utf8(rt: HostRuntime) -> Result<(), Fail> {
    let text =
        b"conflict 1\n1 map m 1 rows 1\n2 rule 3 from 1\n3 rule 2 from 2\n4 rule 4 \xFF from 3\n";
    assert!(rt; tells_of(rt.alloc(), text, "3\n--\nrefused: d line 5: NotUtf8")?);
    Ok(())
}

// Each A has a partner, which is an A.
const CHAINED: &str = "onprom 1
table t \"t.csv\"
column t a text
class A
assoc p A * -> A 1..*
disjoint A A
map m from t x then A(iri \"http://e/{x.a}\")
";

// A partner of a partner and so on, each by two steps.
fn chain(alloc: Global, steps: u32, clash: &str) -> Result<String, AllocError> {
    let mut text = String::from_str(alloc, "conflict 1\n1 map m 1 rows 1\n")?;
    for before in 1..steps {
        let rule = if before % 2 == 1 { 3 } else { 2 };
        let line = format!(in alloc; "{} rule {rule} from {before}\n", before + 1)?;
        text.push_str(line.as_str())?;
    }
    text.push_str(clash)?;
    text.push_str("\nend\n")?;
    Ok(text)
}

fn is_chained(alloc: Global, clash: &str, want: &str) -> Result<bool, AllocError> {
    let text = chain(alloc, 399, clash)?;
    let files = [("p", CHAINED), ("t.csv", "a\n1\n"), ("d", text.as_str())];
    let mut shelf = shelf_of(alloc, "", &files)?;
    tells(alloc, &mut shelf, "verify p d", want)
}

#[test]
fn partners_of_partners_are_judged(rt: HostRuntime) -> Result<(), Fail> {
    for (clash, want) in [
        ("clash 399 399", "0\n--\naccepted 1"),
        ("clash 398 399", "10\n--\nnot accepted: 1"),
    ] {
        assert!(rt; is_chained(rt.alloc(), clash, want)?, "{clash}");
    }
    Ok(())
}

// The first A is a case and an event; B and A have nothing in common.
const EVENTS: &str = "onprom 1
table t \"t.csv\"
column t a text
class A
class B
disjoint A B
map m from t x then A(iri \"http://e/{x.a}\")
case c where A(c)
event e x where A(x)
cases e (x, x) where A(x)
set e \"concept:name\" mandatory is text \"e\"
set e \"time:timestamp\" mandatory is time \"2024-01-01\"
";

/// Whether `extract p` reports so many accepted derivations and writes nothing.
pub(crate) fn has_no_log(
    alloc: Global,
    shelf: &mut SureShelf,
    count: usize,
) -> Result<bool, AllocError> {
    let text = reported(alloc, shelf)?;
    accepts(alloc, shelf, text.slice(), count)
}

fn conflicts_with<'a>(
    alloc: Global,
    project: &'a str,
    table: &'a str,
    count: usize,
) -> Result<bool, AllocError> {
    let mut shelf = shelf_of(alloc, "", &[("p", project), ("t.csv", table)])?;
    has_no_log(alloc, &mut shelf, count)
}

// What `extract` tells over the table.
fn extracts<'a>(
    alloc: Global,
    project: &'a str,
    table: &'a str,
    want: &str,
) -> Result<bool, AllocError> {
    let mut shelf = shelf_of(alloc, "", &[("p", project), ("t.csv", table)])?;
    tells(alloc, &mut shelf, "extract p", want)
}

#[test]
fn a_contradicted_project_has_no_log(rt: HostRuntime) -> Result<(), Fail> {
    let both = changed(
        rt.alloc(),
        EVENTS,
        &[("disjoint A B\n", "disjoint A B\nsub A B\n")],
    )?;
    assert!(rt; conflicts_with(rt.alloc(), both.as_str(), "a\n1\n", 1)?);
    assert!(rt;
        extracts(
            rt.alloc(),
            both.as_str(),
            "b\n1\n",
            "3\n--\nrefused: t.csv column a: Header"
        )?
    );
    Ok(())
}

// What annotations lack is told before the tables are read, and so before what contradicts them.
#[test]
fn annotations_are_looked_at_first(rt: HostRuntime) -> Result<(), Fail> {
    let both = changed(
        rt.alloc(),
        EVENTS,
        &[
            ("disjoint A B\n", "disjoint A A\n"),
            ("cases e (x, x) where A(x)\n", ""),
        ],
    )?;
    assert!(rt;
        extracts(
            rt.alloc(),
            both.as_str(),
            "a\n1\n",
            "3\n--\nrefused: p line 9: NoCases"
        )?
    );
    Ok(())
}
