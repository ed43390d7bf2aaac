//! Answers that stand on partners which no row names, and how many queries are asked to find them.
//!
//! A case in one line is a query and its answers, over a model and a table with the columns a and b.
use crate::cases::{holds, repeated, tells_over};
use std::alloc::{AllocError, Global};
use std::test::Fail;

pub(crate) const FRONT: &str = "onprom 1
table t \"t.csv\"
column t a text
column t b text
";

// What `answer` tells where these are the answers.
fn told_of(alloc: Global, answers: &str) -> Result<String, AllocError> {
    if answers == "none" {
        return String::from_str(alloc, "0\n--\nanswers 0");
    }
    let mut text = String::from_str(alloc, "0\n")?;
    for answer in answers.split("; ") {
        text.push_str(answer)?;
        text.push('\n')?;
    }
    let count = answers.split("; ").count();
    format!(in alloc; "{text}--\nanswers {count}")
}

fn tells_of<'a>(
    alloc: Global,
    project: &'a str,
    table: &'a str,
    want: &str,
) -> Result<bool, AllocError> {
    let files = [("p", project), ("t.csv", table)];
    tells_over(alloc, &files, "answer p w", want)
}

// Whether the query of a case has its answers, no others, over a model and a table.
pub(crate) fn is_answered(
    alloc: Global,
    model: &str,
    table: &str,
    case: &str,
) -> Result<bool, AllocError> {
    match case.split_once(" => ") {
        Some((query, answers)) => {
            let project = format!(in alloc; "{FRONT}{model}query w {query}\n")?;
            let want = told_of(alloc, answers)?;
            tells_of(alloc, project.as_str(), table, want.as_str())
        }
        None => Ok(false),
    }
}

// Each A has a B at p, each B a C at q, and each C a B at q. What p links, s links.
const PARTNERS: &str = "class A
class B
class C
class D
class E
class F
sub B D
sub F A
assoc p A * -> B 1..*
assoc q B 1..* -> C 1..*
assoc s E * -> E *
subassoc p s
map m from t x then p(iri \"http://e/{x.a}\", iri \"http://e/{x.b}\")
map n from t x where x.b is null then F(iri \"http://e/{x.a}\")
";

// No row names a partner of 1. It has one, which is no answer, and none that it shares with 2.
const OF_PARTNERS: &str = "(x) where A(x) => <http://e/1>; <http://e/2>
(x) where E(x) => <http://e/1>; <http://e/2>; <http://e/3>
(x) where D(x) => <http://e/3>
(x) where C(x) => none
() where C(x) => ()
(x) where p(x, y) => <http://e/1>; <http://e/2>
(x, y) where p(x, y) => <http://e/2> <http://e/3>
(x) where s(x, y), D(y) => <http://e/1>; <http://e/2>
(x) where p(x, y), A(y) => none
(x) where q(x, y) => <http://e/3>
(y) where q(x, y) => none
(x) where p(x, y), q(y, z), C(z) => <http://e/1>; <http://e/2>
(x, y) where p(x, y), q(y, z), C(z) => <http://e/2> <http://e/3>
(x, w) where p(x, y), p(w, y) => <http://e/1> <http://e/1>; <http://e/2> <http://e/2>
(x, w) where p(x, y), q(y, z), q(v, z), s(w, v) => <http://e/1> <http://e/1>; <http://e/2> <http://e/2>
(x) where p(x, y), p(iri \"http://e/1\", y) => <http://e/1>
() where p(iri \"http://e/1\", y), p(iri \"http://e/2\", y) => none
() where p(iri \"http://e/1\", y), q(y, z) => ()
(y) where p(iri \"http://e/1\", y) => none
(y) where p(iri \"http://e/2\", y) => <http://e/3>";

#[test]
fn partners_have_partners(rt: HostRuntime) -> Result<(), Fail> {
    for case in OF_PARTNERS.lines() {
        assert!(rt;
            is_answered(rt.alloc(), PARTNERS, "a,b\n1,\n2,3\n", case)?,
            "{case}"
        );
    }
    Ok(())
}

// Each B is what some A leads to by p, and each A leads to an A by r.
const ENDS: &str = "class A
class B
assoc p A 1..* -> B *
assoc r A * -> A 1..*
map m from t x then B(iri \"http://e/{x.a}\")
map n from t x then r(iri \"http://e/{x.a}\", iri \"http://e/{x.b}\")
";

// Of the rows one leads to itself. What no row names never does, and does not lead back.
const OF_ENDS: &str = "(y) where p(x, y) => <http://e/1>; <http://e/2>; <http://e/3>
(x) where p(x, y) => none
(y) where p(x, y), r(x, z), r(z, w) => <http://e/1>; <http://e/2>; <http://e/3>
(y) where p(x, y), B(x) => none
(y, z) where p(x, y), p(x, z) => <http://e/1> <http://e/1>; <http://e/2> <http://e/2>; <http://e/3> <http://e/3>
(x) where A(x), B(x) => <http://e/2>; <http://e/3>
(x) where r(x, x) => <http://e/2>
(x) where r(x, y), r(y, x) => <http://e/2>
(x) where r(x, y), r(y, y) => <http://e/2>
(x) where r(x, y), r(y, z) => <http://e/2>; <http://e/3>; <http://e/4>
(x, y) where r(x, y), r(y, z) => <http://e/2> <http://e/2>; <http://e/3> <http://e/4>
(x) where r(y, x) => <http://e/2>; <http://e/4>
() where r(x, x), p(x, y) => none";

#[test]
fn unknown_partners_are_at_either_end(rt: HostRuntime) -> Result<(), Fail> {
    for case in OF_ENDS.lines() {
        assert!(rt;
            is_answered(rt.alloc(), ENDS, "a,b\n1,\n2,2\n3,4\n", case)?,
            "{case}"
        );
    }
    Ok(())
}

// Each A has a partner at r, and is linked to it by p and by q, which is forbidden.
const FORBIDDEN: &str = "class A
class B
assoc p A * -> B *
assoc q A * -> B *
assoc r A * -> B 1..*
subassoc r p
subassoc r q
disjointassoc p q
map m from t x then A(iri \"http://e/a/{x.a}\")
";

// Answers do not ask whether the rows are consistent.
const OF_FORBIDDEN: &str = "(x) where p(x, y) => <http://e/a/1>
(x, y) where p(x, y) => none
(x) where p(x, y), q(x, y) => <http://e/a/1>
(x) where p(x, y), q(x, y), r(x, y), B(y) => <http://e/a/1>
(x, z) where p(x, y), q(z, y) => <http://e/a/1> <http://e/a/1>
(y) where B(y) => none";

const SHOWN: &str = "conflict 1
1 map m 1 rows 1
2 rule 7 from 1
3 rule 8 from 2
4 rule 9 from 2
clash 3 4
end
";

fn is_shown(alloc: Global) -> Result<bool, AllocError> {
    let project = format!(in alloc; "{FRONT}{FORBIDDEN}")?;
    let files = [
        ("p", project.as_str()),
        ("t.csv", "a,b\n1,2\n"),
        ("d", SHOWN),
    ];
    tells_over(alloc, &files, "verify p d", "0\n--\naccepted 1")
}

#[test]
fn a_link_below_two_is_both(rt: HostRuntime) -> Result<(), Fail> {
    for case in OF_FORBIDDEN.lines() {
        assert!(rt;
            is_answered(rt.alloc(), FORBIDDEN, "a,b\n1,2\n", case)?,
            "{case}"
        );
    }
    assert!(rt; is_shown(rt.alloc())?);
    Ok(())
}

// What r links, s and so p link, and q with the ends exchanged. Each A has a partner at r, and one at u,
// which v links and none of the others.
const BELOW: &str = "class A
assoc p A * -> A *
assoc q A * -> A *
assoc s A * -> A *
assoc v A * -> A *
assoc r A * -> A 1..*
assoc u A * -> A 1..*
subassoc s p
subassoc r s
subassoc r inverse q
subassoc u v
map m from t x then A(iri \"http://e/{x.a}\"), r(iri \"http://e/{x.a}\", iri \"http://e/{x.b}\")
";

const OF_BELOW: &str = "(x) where p(x, y), q(y, x) => <http://e/1>; <http://e/2>; <http://e/3>
(x, y) where p(x, y), q(y, x) => <http://e/2> <http://e/3>
(x) where p(x, y), s(x, y), q(y, x), A(y) => <http://e/1>; <http://e/2>; <http://e/3>
(x) where p(x, y), q(x, y) => none
(x) where p(x, y), v(x, y) => none
(x) where p(x, y), v(x, z) => <http://e/1>; <http://e/2>; <http://e/3>
(x) where v(x, y), p(y, z), q(z, y) => <http://e/1>; <http://e/2>; <http://e/3>
(x) where p(x, y), r(y, z), q(z, y), q(y, x) => <http://e/1>; <http://e/2>; <http://e/3>
(x, w) where p(x, y), q(y, w) => <http://e/1> <http://e/1>; <http://e/2> <http://e/2>; <http://e/3> <http://e/3>
(x) where q(x, y) => <http://e/3>
(y) where q(x, y) => <http://e/1>; <http://e/2>; <http://e/3>
(x, y) where q(x, y) => <http://e/3> <http://e/2>
() where v(x, y), q(y, x) => none";

#[test]
fn a_link_below_others_is_each_of_them(rt: HostRuntime) -> Result<(), Fail> {
    for case in OF_BELOW.lines() {
        assert!(rt;
            is_answered(rt.alloc(), BELOW, "a,b\n1,\n2,3\n", case)?,
            "{case}"
        );
    }
    Ok(())
}

// The ends are exchanged from r to q, and again from q to p. Each A has a value of k.
const TURNED: &str = "class A
class B
assoc p A * -> B *
assoc q B * -> A *
assoc r A * -> B *
subassoc q inverse p
subassoc r inverse q
attr A u text *
attr A v text *
attr A w text *
attr A k text 1
attr A l text *
subattr u v
subattr v w
subattr k l
map m from t x then r(iri \"http://e/a/{x.a}\", iri \"http://e/b/{x.b}\"), u(iri \"http://e/a/{x.a}\", x.b)
";

const OF_TURNED: &str = "(x, y) where p(x, y) => <http://e/a/1> <http://e/b/2>
(x, y) where q(x, y) => <http://e/b/2> <http://e/a/1>
(x, y) where p(x, y), q(y, x), r(x, y) => <http://e/a/1> <http://e/b/2>
(x) where A(x) => <http://e/a/1>
(x) where B(x) => <http://e/b/2>
(x, n) where w(x, n) => <http://e/a/1> \"2\"
(n) where v(x, n) => \"2\"
(x) where w(x, \"2\"), p(x, y) => <http://e/a/1>
(x) where l(x, n) => <http://e/a/1>
(x, n) where l(x, n) => none
(x) where k(x, n), l(x, n) => <http://e/a/1>
(x) where k(x, n), w(x, n) => none
(x) where k(x, \"2\") => none";

#[test]
fn links_of_rows_are_links_above_them(rt: HostRuntime) -> Result<(), Fail> {
    for case in OF_TURNED.lines() {
        assert!(rt;
            is_answered(rt.alloc(), TURNED, "a,b\n1,2\n3,\n", case)?,
            "{case}"
        );
    }
    Ok(())
}

// Each A has a partner, and no mapping names the class.
const LINKED: &str = "class A
class B
assoc p A * -> B 1
map m2 from t x then p(iri \"http://e/a/{x.a}\", iri \"http://e/b/{x.b}\")
map m3 from t x then p(iri \"http://e/a/{x.a}\", iri \"http://e/b/{x.b}\")
";

#[test]
fn a_link_to_a_null_gives_no_class(rt: HostRuntime) -> Result<(), Fail> {
    for (table, case) in [
        ("a,b\n1,\n", "(x) where A(x) => none"),
        ("a,b\n1,1\n", "(x) where A(x) => <http://e/a/1>"),
    ] {
        assert!(rt; is_answered(rt.alloc(), LINKED, table, case)?, "{case}");
    }
    Ok(())
}

// Each object has a partner at each of twenty links, so that a round holds twenty times the facts of the
// one before. The event asks for eight partners in a row, which first stand in the eighth round.
const TWENTY: &str = "onprom 1
table t \"t.csv\"
column t a text
column t at time
class A
attr A U time *[
assoc p% A * -> A 1..*]
map m from t x then A(iri \"http://e/{x.a}\"), U(iri \"http://e/{x.a}\", x.at)
case c where A(c)
event e x where p1(x, y1), p2(y1, y2), p3(y2, y3), p4(y3, y4), p5(y4, y5), p6(y5, y6), p7(y6, y7), p8(y7, y8)
cases e (x, x) where A(x)
set e \"concept:name\" mandatory is text \"e\"
set e \"time:timestamp\" mandatory (x, w) where U(x, w)
query round (x) where p1(x, y), p2(y, x)
query both (x) where p1(x, y), p2(x, y)
";

const OF_TWENTY: &str = "extract p
=> 0
<?xml version=\"1.0\" encoding=\"UTF-8\"?>
<log xes.version=\"1849.2016\" xes.features=\"\">
  <extension name=\"Concept\" prefix=\"concept\" uri=\"http://www.xes-standard.org/concept.xesext\"/>
  <extension name=\"Time\" prefix=\"time\" uri=\"http://www.xes-standard.org/time.xesext\"/>
  <extension name=\"Organizational\" prefix=\"org\" uri=\"http://www.xes-standard.org/org.xesext\"/>
  <extension name=\"Lifecycle\" prefix=\"lifecycle\" uri=\"http://www.xes-standard.org/lifecycle.xesext\"/>
  <trace>
    <string key=\"object\" value=\"http://e/1\"/>
    <string key=\"concept:name\" value=\"http://e/1\"/>
    <event>
      <string key=\"object\" value=\"http://e/1\"/>
      <string key=\"concept:name\" value=\"e\"/>
      <date key=\"time:timestamp\" value=\"2024-01-02T00:00:00.000+00:00\"/>
    </event>
  </trace>
</log>
--
traces 1 events 1 left out 0
~
answer p e
=> 0
<http://e/1>
--
answers 1
~
answer p round
=> 0
--
answers 0
~
answer p both
=> 0
--
answers 0
~
check p
=> 0
--
consistent";

fn twenty_tell(alloc: Global, case: &str) -> Result<bool, AllocError> {
    let project = repeated(alloc, TWENTY, &[20])?;
    let files = [("p", project.as_str()), ("t.csv", "a,at\n1,2024-01-02\n")];
    holds(alloc, &files, case)
}

// No round has to be made for it.
#[test]
fn twenty_partners_each_take_no_time(rt: HostRuntime) -> Result<(), Fail> {
    for case in OF_TWENTY.split("\n~\n") {
        assert!(rt; twenty_tell(rt.alloc(), case)?, "{case}");
    }
    Ok(())
}

// Each link leads from a class of its own, which may be asked in its place: of eleven links there are 2,048
// folds, of twelve 4,096.
const LEADING: &str = "onprom 1
class R[
class A%
assoc p% A% * -> R 1..*]
query w (x) where p1(x, y)[, p%(x, y%)]
";

fn counts_tell(
    alloc: Global,
    project: &str,
    counts: [u32; 3],
    want: &str,
) -> Result<bool, AllocError> {
    let project = repeated(alloc, project, &counts)?;
    tells_over(alloc, &[("p", project.as_str())], "answer p w", want)
}

#[test]
fn each_of_eleven_links_may_be_left_out(rt: HostRuntime) -> Result<(), Fail> {
    for (count, want) in [(11, "0\n--\nanswers 0"), (12, "8\n--\nlimit: rewriting")] {
        assert!(rt;
            counts_tell(rt.alloc(), LEADING, [count, count, 0], want)?,
            "{count}"
        );
    }
    Ok(())
}

// Links below p and links below s lead each from a class of its own, or the one and the other from one
// class. Each may be asked in the place of p or s; of two such classes it is all one which stands for which.
const PAIRED: &str = "onprom 1
class A
class R
assoc p A * -> R *
assoc s A * -> R *[
class B%
assoc pb% B% * -> R 1..*
assoc sb% B% * -> R 1..*
subassoc pb% p
subassoc sb% s][
class C%
assoc pc% C% * -> R 1..*
subassoc pc% p][
class D%
assoc sd% D% * -> R 1..*
subassoc sd% s]
query w (x) where p(x, y), s(x, z)
";

// 50 times 80 are 4,000; 52 times 77 without 3 are 4,001.
#[test]
fn folds_pass_a_limit(rt: HostRuntime) -> Result<(), Fail> {
    for (counts, want) in [
        ([0, 49, 79], "0\n--\nanswers 0"),
        ([3, 48, 73], "8\n--\nlimit: rewriting"),
    ] {
        assert!(rt;
            counts_tell(rt.alloc(), PAIRED, counts, want)?,
            "{counts:?}"
        );
    }
    Ok(())
}
