//! What axioms give to facts.
use crate::written::{axiom, fact};
use dllite_axioms::{Axiom, apply};
use std::alloc::{AllocError, Global};
use std::test::Fail;
use vocabulary::Fact;

// An axiom, a fact, and what the axiom gives to it. Each review (A0) is about (p0) a paper (A1), and what
// is owned by (p0) an owner, the owner owns (p1).
const GIVEN: &str = "A0 < p0; A0 a => p0 a p0>a
A0 < p0; A1 a => none
p0- < A1; p0 a b => A1 b
p0- << p1; p0 a b => p1 b a
p0- << p1; p1 b a => none";

fn is_fact(alloc: Global, given: &Option<Fact>, want: &str) -> Result<bool, AllocError> {
    match given {
        Some(given) => Ok(given.same(&fact(alloc, want)?)),
        None => Ok(want == "none"),
    }
}

fn gives(alloc: Global, axiom: &Axiom, text: &str, want: &str) -> Result<bool, AllocError> {
    let given = apply(alloc, axiom, &fact(alloc, text)?)?;
    is_fact(alloc, &given, want)
}

// The parts of a case: an axiom, a fact and what is given.
fn parts(case: &str) -> Option<(Axiom, &str, &str)> {
    let (front, want) = case.split_once(" => ")?;
    let (left, right) = front.split_once("; ")?;
    Some((axiom(left)?, right, want))
}

fn is_given(alloc: Global, case: &str) -> Result<bool, AllocError> {
    match parts(case) {
        Some((axiom, text, want)) => gives(alloc, &axiom, text, want),
        None => Ok(false),
    }
}

#[test]
fn axioms_give_facts(rt: HostRuntime) -> Result<(), Fail> {
    for case in GIVEN.split('\n') {
        assert!(rt; is_given(rt.alloc(), case)?, "{case}");
    }
    Ok(())
}
