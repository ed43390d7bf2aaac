//! Rewritings of small queries, and of one that is too wide.
use crate::written::{are_queries, atom, axiom, query, tbox};
use dllite_axioms::{Axiom, Basic, Tbox};
use perfect_rewriting::{RewriteFault, replace_atom, rewrite};
use queries::{Atom, Query};
use std::alloc::{AllocError, Global};
use std::test::Fail;
use vocabulary::{ClassId, List};

// Axioms, a query, and what it is rewritten to. First each A1 is an A0, and p0 leads from an A0 to an A2.
// Then each review (A0) is about (p0) a paper (A1): what is about some paper, what is about something,
// which may be any review, and what is about what, which no review tells. Last, what is owned by (p1) an
// owner, the owner owns (p0).
const REWRITTEN: &str = "A1 < A0, p0 < A0, p0- < A2
0 : A0 0
=> 0 : A0 0; 0 : A1 0; 0 : p0 0 _

p0 < A0, p0- < A1, A0 < p0
0 : p0 0 1, A1 1
=> 0 : A0 0; 0 : p0 0 _; 0 : A1 1, p0 0 1; 0 : p0 _ 1, p0 0 1

p0 < A0, p0- < A1, A0 < p0
0 : p0 0 1
=> 0 : A0 0; 0 : p0 0 _

p0 < A0, p0- < A1, A0 < p0
0 1 : p0 0 1
=> 0 1 : p0 0 1

p1- << p0
0 1 : p0 0 1
=> 0 1 : p0 0 1; 0 1 : p1 1 0";

// An axiom, an atom, and the atom in its place. The other end of a link has to be open.
const REPLACED: &str = "A0 < p0; p0 0 _ => A0 0
A0 < p0; p0 0 1 => none";

fn gives(alloc: Global, tbox: &Tbox, asked: &Query, want: &str) -> Result<bool, AllocError> {
    if asked.head.len() > 9 || asked.atoms.len() > 9 {
        return Ok(false);
    }
    match rewrite(alloc, tbox, asked) {
        Ok(list) => are_queries(alloc, list.items(), want),
        Err(_) => Ok(false),
    }
}

fn parts(case: &str) -> Option<(&str, &str, &str)> {
    let (front, want) = case.split_once("\n=> ")?;
    let (axioms, asked) = front.split_once('\n')?;
    Some((axioms, asked, want))
}

fn is_rewritten(alloc: Global, case: &str) -> Result<bool, AllocError> {
    match parts(case) {
        Some((axioms, asked, want)) => {
            let tbox = tbox(alloc, axioms)?;
            gives(alloc, &tbox, &query(alloc, asked)?, want)
        }
        None => Ok(false),
    }
}

#[test]
fn queries_have_their_rewritings(rt: HostRuntime) -> Result<(), Fail> {
    for case in REWRITTEN.split("\n\n") {
        assert!(rt; is_rewritten(rt.alloc(), case)?, "{case}");
    }
    Ok(())
}

// Two classes with as many subclasses each.
fn with_subclasses(alloc: Global, many: u8) -> Result<Tbox, AllocError> {
    let mut axioms = List::new(alloc);
    for sub in 0..many {
        let first = 2 + sub as u32;
        axioms.push(below(first, 0))?;
        axioms.push(below(first + many as u32, 1))?;
    }
    Ok(Tbox::new(axioms, List::new(alloc)))
}

fn below(narrow: u32, wide: u32) -> Axiom {
    Axiom::Sub(Basic::Class(ClassId(narrow)), Basic::Class(ClassId(wide)))
}

// How many queries there are, or none where they are too many.
fn count(alloc: Global, tbox: &Tbox, asked: &Query) -> Option<usize> {
    if asked.head.len() > 9 || asked.atoms.len() > 9 {
        return None;
    }
    match rewrite(alloc, tbox, asked) {
        Ok(list) => Some(list.len()),
        Err(RewriteFault::TooWide) => None,
        Err(_) => Some(0),
    }
}

fn count_with(alloc: Global, many: u8) -> Result<Option<usize>, AllocError> {
    let tbox = with_subclasses(alloc, many)?;
    Ok(count(alloc, &tbox, &query(alloc, "0 1 : A0 0, A1 1")?))
}

// One more class in each place, and the product of both.
#[test]
fn more_than_four_thousand_are_too_wide(rt: HostRuntime) -> Result<(), Fail> {
    assert!(rt; count_with(rt.alloc(), 62)? == Some(3969));
    assert!(rt; count_with(rt.alloc(), 70)? == None);
    Ok(())
}

fn is_atom(alloc: Global, made: &Option<Atom>, want: &str) -> Result<bool, AllocError> {
    match made {
        Some(made) => Ok(made.compare(&atom(alloc, want)?).is_eq()),
        None => Ok(want == "none"),
    }
}

fn replaces(alloc: Global, axiom: &Axiom, asked: &str, want: &str) -> Result<bool, AllocError> {
    let made = replace_atom(alloc, axiom, &atom(alloc, asked)?)?;
    is_atom(alloc, &made, want)
}

fn steps(case: &str) -> Option<(Axiom, &str, &str)> {
    let (front, want) = case.split_once(" => ")?;
    let (left, right) = front.split_once("; ")?;
    Some((axiom(left)?, right, want))
}

fn is_replaced(alloc: Global, case: &str) -> Result<bool, AllocError> {
    match steps(case) {
        Some((axiom, asked, want)) => replaces(alloc, &axiom, asked, want),
        None => Ok(false),
    }
}

#[test]
fn open_ends_are_replaced(rt: HostRuntime) -> Result<(), Fail> {
    for case in REPLACED.split('\n') {
        assert!(rt; is_replaced(rt.alloc(), case)?, "{case}");
    }
    Ok(())
}
