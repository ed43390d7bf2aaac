//! What a model tells, and why an answer is one: `lint`, `contained` and `why`.
//!
//! Which proof and which explanation is written is free. So steps are left out of what is compared, and the
//! numbers of steps behind `atom I` and `clash`.
use crate::cases::{holds, repeated, shelf_of, told};
use crate::conflicts::UNKNOWN;
use std::alloc::{AllocError, Global};
use std::test::Fail;

// Each review is about a paper.
const REVIEWS: &str = "onprom 1
table r \"r.csv\"
column r id text
class Review
class Paper
assoc about Review * -> Paper 1
map m from r a then Review(iri \"http://e/r/{a.id}\")
query some (x) where about(x, y)
query which (x, y) where about(x, y)
query two (x) where about(x, y), Paper(y)
query three (x) where about(x, y), Paper(y), Review(y)
query twice (x) where about(x, y), about(x, y)
query any () where Review(x)
";

fn is_step(line: &str) -> bool {
    line.starts_with(|c: char| c.is_ascii_digit()) && line.contains(' ')
}

// A line without the numbers of steps.
fn front_of(line: &str) -> &str {
    if line.starts_with("clash ") {
        return "clash";
    }
    match line.split_once(" step ") {
        Some((front, _)) => front,
        None => line,
    }
}

fn shape_of(alloc: Global, told: &str) -> Result<String, AllocError> {
    let mut shape = String::new(alloc);
    for line in told.lines().filter(|line| !is_step(line)) {
        shape.push_str(front_of(line))?;
        shape.push_str("\n")?;
    }
    Ok(shape)
}

/// Whether a run over these files tells this, but for what is free.
pub(crate) fn shows(alloc: Global, files: &[(&str, &str)], case: &str) -> Result<bool, AllocError> {
    match case.split_once("\n=> ") {
        Some((words, want)) => {
            let mut shelf = shelf_of(alloc, "", files)?;
            let told = told(alloc, &mut shelf, words)?;
            let shape = shape_of(alloc, str::from_utf8(told.slice()).unwrap_or(""))?;
            Ok(shape.as_str().strip_suffix('\n') == Some(want))
        }
        None => Ok(false),
    }
}

const VOID: &str = "lint p
=> 0
void class A
clash
void class B
clash
void link p
clash
end
--
void 3";

#[test]
fn a_class_that_nothing_can_be_in_is_void(rt: HostRuntime) -> Result<(), Fail> {
    assert!(rt; shows(rt.alloc(), &[("p", UNKNOWN)], VOID)?);
    Ok(())
}

// No table is read.
const OF_REVIEWS: &str = "lint p
=> 0
end
--
void 0
~
contained p some two
=> 0
contained by 2
--
contained 1
~
contained p two some
=> 0
contained by 2
--
contained 1
~
contained p which which
=> 0
contained by 1
--
contained 1
~
contained p some three
=> 0
not contained
--
contained 0
~
contained p three some
=> 0
contained by 2
--
contained 1
~
contained p which some
=> 3
--
refused: query some: HeadWidth
~
contained p none nothing
=> 3
--
refused: query none: Unknown
~
contained p some nothing
=> 3
--
refused: query nothing: Unknown
~
lint q
=> 4
--
absent: q
~
why p some 1
=> 4
--
absent: r.csv";

#[test]
fn what_some_review_is_about_is_a_paper(rt: HostRuntime) -> Result<(), Fail> {
    for case in OF_REVIEWS.split("\n~\n") {
        assert!(rt; holds(rt.alloc(), &[("p", REVIEWS)], case)?, "{case}");
    }
    Ok(())
}

// An atom that stands twice is explained twice.
const EXPLAINED: &str = "why p two 1
=> 0
atom 1
atom 2
end
--
why <http://e/r/1>
~
why p twice 2
=> 0
atom 1
atom 2
end
--
why <http://e/r/2>
~
why p any 1
=> 0
atom 1
end
--
why ()
~
why p two 3
=> 3
--
refused: answer 3: Unknown
~
why p which 1
=> 3
--
refused: answer 1: Unknown
~
why p two 4294967295
=> 3
--
refused: answer 4294967295: Unknown
~
why p none 1
=> 3
--
refused: query none: Unknown";

#[test]
fn an_answer_is_explained_by_its_number(rt: HostRuntime) -> Result<(), Fail> {
    for case in EXPLAINED.split("\n~\n") {
        assert!(rt;
            shows(rt.alloc(), &[("p", REVIEWS), ("r.csv", "id\n1\n2\n")], case)?,
            "{case}"
        );
    }
    Ok(())
}

const NO_COMMANDS: &str =
    "lint\nlint p q\ncontained p q\ncontained p q r s\nwhy p q\nwhy p q 0\nwhy p q 01\nwhy p q 4294967296";

const USAGE: &str = "2
--
usage: extract P | check P | verify P D | answer P Q | rewrite P Q | make N F | why P Q N | lint P | contained P Q Q
";

fn is_usage(alloc: Global, words: &str) -> Result<bool, AllocError> {
    let mut shelf = shelf_of(alloc, "", &[("p", REVIEWS)])?;
    Ok(told(alloc, &mut shelf, words)?.slice() == USAGE.as_bytes())
}

#[test]
fn other_words_are_no_commands(rt: HostRuntime) -> Result<(), Fail> {
    for words in NO_COMMANDS.lines() {
        assert!(rt; is_usage(rt.alloc(), words)?, "{words}");
    }
    Ok(())
}

// Two classes with many below each, and two questions for a member of both.
const WIDE: &str = "onprom 1
class A
class B
[class A%
sub A% A
][class B%
sub B% B
]query v (x, y) where A(x), B(y)
query w (x, y) where A(x), B(y)
";

const TOO_WIDE: &str = "contained p v w
=> 8
--
limit: rewriting";

fn is_limited(alloc: Global, below: u32) -> Result<bool, AllocError> {
    let project = repeated(alloc, WIDE, &[below, below])?;
    holds(alloc, &[("p", project.as_str())], TOO_WIDE)
}

#[test]
fn more_than_four_thousand_rewritings_are_too_many(rt: HostRuntime) -> Result<(), Fail> {
    assert!(rt; is_limited(rt.alloc(), 70)?);
    Ok(())
}
