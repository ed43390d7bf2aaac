//! Questions to small projects: `answer` and `rewrite`.
use crate::cases::holds;
use std::alloc::{AllocError, Global};
use std::test::Fail;

// Each review is about a paper, known or not; one row makes a review.
const REVIEWS: &str = "onprom 1
table r \"r.csv\"
column r id text
class Review
class Paper
assoc about Review * -> Paper 1
map m from r a then Review(iri \"http://e/r/{a.id}\")
query some (x) where about(x, y)
query which (x, y) where about(x, y)
query two (x) where about(x, y), Paper(y)
query three (x) where about(x, y), Paper(y), Review(y)
query any () where Review(x)
";

// An unknown paper helps to answer and is no answer.
const OF_REVIEWS: &str = "answer p some
=> 0
<http://e/r/1>
--
answers 1
~
answer p which
=> 0
--
answers 0
~
answer p two
=> 0
<http://e/r/1>
--
answers 1
~
answer p three
=> 0
--
answers 0
~
answer p any
=> 0
()
--
answers 1
~
answer p any
@ r.csv
id
=> 0
--
answers 0
~
answer p none
=> 3
--
refused: query none: Unknown
~
answer p case
=> 3
--
refused: query case: Unknown
~
rewrite p some
=> 0
(x) where Review(x)
(x) where about(x, _)
--
queries 2
~
rewrite p which
=> 0
(x, y) where about(x, y)
--
queries 1
~
rewrite p two
=> 0
(x) where Review(x)
(x) where about(x, _)
--
queries 2
~
rewrite p any
=> 0
() where Review(_)
() where about(_, _)
--
queries 2
~
rewrite p none
=> 3
--
refused: query none: Unknown
~
extract p
=> 3
--
refused: p line 0: NoCase
~
check p
=> 0
--
consistent";

// Comparisons with a null are false.
const NULLS: &str = "onprom 1
table t \"t.csv\"
column t a text
column t b text
class A
class B
class C
map m1 from t x where x.b = x.b then A(iri \"http://e/{x.a}\")
map m2 from t x then B(iri \"http://e/{x.b}\")
map m3 from t x, t y where x.b <> y.a then C(iri \"http://e/{x.a}\")
query a (x) where A(x)
query b (x) where B(x)
query c (x) where C(x)
";

const OF_NULLS: &str = "answer p a
=> 0
<http://e/2>
--
answers 1
~
answer p b
=> 0
<http://e/2>
--
answers 1
~
answer p c
=> 0
<http://e/2>
--
answers 1";

// Values are escaped and in the order of their texts; one tuple stands once.
const NOTES: &str = "onprom 1
table t \"t.csv\"
column t a text
column t n int
class A
attr A note text *
attr A size int *
map m from t x then note(iri \"http://e/{x.a}\", x.a), size(iri \"http://e/{x.a}\", x.n)
query notes (n) where note(x, n)
query sizes (s, x) where size(x, s)
query twice (s, s) where size(x, s)
query nine (x) where size(x, \"+9\"), A(iri \"http://e/b\")
";

const OF_NOTES: &str = "answer p notes
=> 0
\"a\\\\\"
\"b\"
\"say \\\"b\\\"\"
--
answers 3
~
answer p sizes
=> 0
\"10\" <http://e/b>
\"9\" <http://e/a%5C>
\"9\" <http://e/say%20%22b%22>
--
answers 3
~
answer p twice
=> 0
\"10\" \"10\"
\"9\" \"9\"
--
answers 2
~
answer p nine
=> 0
<http://e/a%5C>
<http://e/say%20%22b%22>
--
answers 2
~
rewrite p nine
=> 0
(x) where A(iri \"http://e/b\"), size(x, \"9\")
(x) where note(iri \"http://e/b\", _), size(x, \"9\")
(x) where size(x, \"9\"), size(iri \"http://e/b\", _)
--
queries 3";

const OWNERS: &str = "onprom 1
table t \"t.csv\"
column t a text
column t b text
class A
class B
assoc owns A * -> B *
assoc ownedBy B * -> A *
subassoc ownedBy inverse owns
map m from t x then ownedBy(iri \"http://e/b/{x.b}\", iri \"http://e/a/{x.a}\")
query q (x, y) where owns(x, y)
";

const OF_OWNERS: &str = "answer p q
=> 0
<http://e/a/1> <http://e/b/2>
--
answers 1
~
rewrite p q
=> 0
(x, y) where owns(x, y)
(x, y) where ownedBy(y, x)
--
queries 2";

// Whether a case holds over a project and its table.
fn is_told<'a>(
    alloc: Global,
    project: &'a str,
    file: &'a str,
    table: &'a str,
    case: &str,
) -> Result<bool, AllocError> {
    holds(alloc, &[("p", project), (file, table)], case)
}

#[test]
fn an_unknown_paper_is_no_answer(rt: HostRuntime) -> Result<(), Fail> {
    for case in OF_REVIEWS.split("\n~\n") {
        assert!(rt;
            is_told(rt.alloc(), REVIEWS, "r.csv", "id\n1\n", case)?,
            "{case}"
        );
    }
    Ok(())
}

#[test]
fn a_null_is_neither_alike_nor_different(rt: HostRuntime) -> Result<(), Fail> {
    for case in OF_NULLS.split("\n~\n") {
        assert!(rt;
            is_told(rt.alloc(), NULLS, "t.csv", "a,b\n1,\n2,2\n", case)?,
            "{case}"
        );
    }
    Ok(())
}

const NOTED: &str = "a,n
b,10
a\\,9
\"say \"\"b\"\"\",9
b,010
";

#[test]
fn answers_are_in_order_and_escaped(rt: HostRuntime) -> Result<(), Fail> {
    for case in OF_NOTES.split("\n~\n") {
        assert!(rt; is_told(rt.alloc(), NOTES, "t.csv", NOTED, case)?, "{case}");
    }
    Ok(())
}

#[test]
fn what_is_owned_is_owned_by_its_owner(rt: HostRuntime) -> Result<(), Fail> {
    for case in OF_OWNERS.split("\n~\n") {
        assert!(rt;
            is_told(rt.alloc(), OWNERS, "t.csv", "a,b\n1,2\n", case)?,
            "{case}"
        );
    }
    Ok(())
}

// Each A leads to an A, and each B and each C is one.
const PAIRS: &str = "onprom 1
class A
class B
class C
sub B A
sub C A
assoc p A * -> A 1
query q (x) where A(x), p(x, y), A(y)
query pairs (x, y) where A(x), C(y)
";

// Where the model says that one condition is enough, the others go.
const OF_PAIRS: &str = "rewrite p q
=> 0
(x) where A(x)
(x) where B(x)
(x) where C(x)
(x) where p(_, x)
(x) where p(x, _)
--
queries 5
~
rewrite p pairs
=> 0
(x, y) where A(x), C(y)
(x, y) where B(x), C(y)
(x, y) where C(x), C(y)
(x, y) where C(y), p(_, x)
(x, y) where C(y), p(x, _)
--
queries 5
~
rewrite p s
=> 3
--
refused: query s: Unknown
~
answer p q
=> 0
--
answers 0";

#[test]
fn conditions_that_follow_are_not_printed(rt: HostRuntime) -> Result<(), Fail> {
    for case in OF_PAIRS.split("\n~\n") {
        assert!(rt; holds(rt.alloc(), &[("p", PAIRS)], case)?, "{case}");
    }
    Ok(())
}
