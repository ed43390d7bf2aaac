//! Void elements of small models with their proofs, and contained queries.
ghost use Rattle.std.specs.Prelude.{◌≡◌, ◌≤◌, IsTrue, length};
ghost use Rattle.vocabulary.specs.Lists.{In};
ghost use Rattle.dllite_axioms.specs.declared.axioms.Constraint.{Constraint as ConstraintOf};
ghost use Rattle.dllite_axioms.specs.Within.{IsConstraintWithin};
ghost use Rattle.queries.specs.declared.query.Arg.{Arg as ArgOf};
ghost use Rattle.queries.specs.declared.query.Atom.{Atom as AtomOf};
ghost use Rattle.queries.specs.Occurrences.{HeadStands, KnownArg, KnownAtom, KnownConstants};

use crate::within::{are_within, is_constraint_within};
use crate::written::{basic, constraint, queries, tbox};
use dllite_axioms::{Basic, Constraint, Tbox};
use model_lint::{Void, VoidProof, contained, shows, voids};
use perfect_rewriting::RewriteFault;
use queries::laws::checked_passes;
use queries::{Arg, Atom, Query};
use std::alloc::{AllocError, Global};
use std::test::Fail;
use vocabulary::List;

// Axioms, a constraint, and the void classes and links, of three classes and three links each. Each A0
// is linked to something, what it is linked to is an A1, and each A1 is an A2, so a model in which no
// A1 is an A2 has a mistake. What must have a filler that is void is void itself. A link is void where its second end is; one under two disjoint links is.
// A functional link makes nothing void, and no constraint does.
const VOID: &str = "p0 < A0, p0- < A1, A0 < p0, A1 < A2; A1 # A2 => A0 A1 p0
p0 < A0, p0- < A1, A0 < p0, A1 < A2; A0 # A2 =>
p0- < A0, p0- < A1; A0 # A1 => p0
A2 < A0, A2 < A1, p0 < A2, p0- < A0, A2 < p0, p1 < A1, p1- < A2, A1 < p1, A2 < p1-; A0 # A1 => A1 A2 p0 p1
A2 < A0, p0 < A2, p0- < A0, A2 < p0, p1 < A1, p1- < A2, A1 < p1, A2 < p1-; A0 # A1 =>
A0 < A1; A0 # A0 => A0
p2 << p0, p2 << p1; p0 ## p1 => p2
p2- << p0, p2 << p1; p0 ## p1- => p2
p2- << p0, p2 << p1; p0 ## p1 =>
A0 < p0, p0- < A1; one p0 =>";

// For the first of these models: an element, its constraint, rules, and the two steps. The ends stand
// in the order of the constraint, a rule cites an earlier step, and each number is of something.
const SHOWN: &str = "A0 1 31,22,43 34 => true
p0 1 21,42 23 => true
A1 1 41 12 => true
A0 1 31,22,43 43 => false
A0 1 32,22,43 34 => false
A0 1 31,22,43 35 => false
A0 1 31,22,43 04 => false
A0 0 31,22,43 34 => false
A0 2 31,22,43 34 => false
p0 1 31,22,43 34 => false
A0 1 41,22,43 34 => false
A2 1 11 12 => false";

// Where each A0 is about some A1: of two queries the place of the query that covers the first.
const CONTAINED: &str = "0 : p0 0 1; 0 : p0 0 1, A1 1 => 2
0 : p0 0 1; 0 : p0 0 1, A1 1, A0 1 => none
0 : A0 0; 0 : p0 0 1 => 1
0 : p0 0 1, A1 1; 0 : p0 0 1 => 2
0 : p0 0 'p; 0 : p0 0 1 => 2
0 : p0 0 1; 0 : p0 0 'p => none
0 1 : p0 0 1; 0 : p0 0 1 => none
0 : p0 0 1; 0 1 : p0 0 1 => none";

const ABOUT: &str = "p0 < A0, p0- < A1, A0 < p0";

// The axioms and the one constraint of a text.
fn model(alloc: Global, text: &str) -> Result<Option<Tbox>, AllocError> {
    match text.split_once("; ") {
        Some((axioms, forbidden)) => with(tbox(alloc, axioms)?, constraint(forbidden)),
        None => Ok(None),
    }
}

fn with(tbox: Tbox, constraint: Option<Constraint>) -> Result<Option<Tbox>, AllocError> {
    match constraint {
        Some(constraint) => {
            let Tbox {
                axioms,
                mut constraints,
            } = tbox;
            constraints.push(constraint)?;
            Ok(Some(Tbox::new(axioms, constraints)))
        }
        None => Ok(None),
    }
}

fn are_constraints_within(constraints: &[Constraint], classes: u32, links: u32) -> bool
    ensures { IsTrue result → (c : ConstraintOf) → In c constraints.now → IsConstraintWithin classes links c }
{
    for constraint in constraints {
        if !is_constraint_within(constraint, classes, links) {
            return false;
        }
    }
    true
}

fn element(word: &str) -> Void {
    match basic(word) {
        Basic::Class(class) => Void::Class(class),
        Basic::Has(link, _) => Void::Link(link),
    }
}

fn is_element(one: Void, word: &str) -> bool {
    match (one, element(word)) {
        (Void::Class(a), Void::Class(b)) => a.0 == b.0,
        (Void::Link(p), Void::Link(q)) => p.0 == q.0,
        _ => false,
    }
}

// The elements of the proofs are these, and each proof shows its own.
fn are_shown(
    alloc: Global,
    tbox: &Tbox,
    proofs: &[VoidProof],
    want: &str,
) -> Result<bool, AllocError> {
    let mut words = want.split_whitespace();
    for proof in proofs {
        match words.next() {
            Some(word) => {
                if !is_element(proof.what, word) || !shows(alloc, proof, tbox)? {
                    return Ok(false);
                }
            }
            None => return Ok(false),
        }
    }
    Ok(words.next().is_none())
}

fn are_void(alloc: Global, tbox: &Tbox, want: &str) -> Result<bool, AllocError> {
    let few = tbox.axioms().len() < 99 && tbox.constraints().len() < 99;
    if !few
        || !are_within(tbox.axioms(), 3, 3)
        || !are_constraints_within(tbox.constraints(), 3, 3)
    {
        return Ok(false);
    }
    let proofs = voids(alloc, tbox, 3, 3)?;
    are_shown(alloc, tbox, proofs.items(), want)
}

fn finds(alloc: Global, case: &str) -> Result<bool, AllocError> {
    match case.split_once(" =>") {
        Some((text, want)) => match model(alloc, text)? {
            Some(tbox) => are_void(alloc, &tbox, want),
            None => Ok(false),
        },
        None => Ok(false),
    }
}

#[test]
fn finds_what_is_void(rt: HostRuntime) -> Result<(), Fail> {
    for case in VOID.split('\n') {
        assert!(rt; finds(rt.alloc(), case)?, "{case}");
    }
    Ok(())
}

fn digit(word: &str, place: usize) -> u32 {
    match word.as_bytes().get(place) {
        Some(byte) => byte.saturating_sub(b'0') as u32,
        None => 0,
    }
}

fn rules(alloc: Global, text: &str) -> Result<List<(u32, u32)>, AllocError> {
    let mut list = List::new(alloc);
    for rule in text.split(',') {
        list.push((digit(rule, 0), digit(rule, 1)))?;
    }
    Ok(list)
}

// The proof of a text.
fn proof(alloc: Global, text: &str) -> Result<Option<VoidProof>, AllocError> {
    let Some((what, rest)) = text.split_once(' ') else {
        return Ok(None);
    };
    let Some((number, rest)) = rest.split_once(' ') else {
        return Ok(None);
    };
    match rest.split_once(' ') {
        Some((steps, ends)) => Ok(Some(VoidProof {
            what: element(what),
            constraint: digit(number, 0),
            rules: rules(alloc, steps)?,
            first: digit(ends, 0),
            second: digit(ends, 1),
        })),
        None => Ok(None),
    }
}

fn tells(alloc: Global, tbox: &Tbox, case: &str) -> Result<bool, AllocError> {
    match case.split_once(" => ") {
        Some((text, want)) => match proof(alloc, text)? {
            Some(proof) => Ok(shows(alloc, &proof, tbox)? == (want == "true")),
            None => Ok(false),
        },
        None => Ok(false),
    }
}

#[test]
fn proofs_show_or_not(rt: HostRuntime) -> Result<(), Fail> {
    let text = VOID.split_once(" =>").unwrap_or(("", "")).0;
    let tbox = model(rt.alloc(), text)?;
    assert!(rt; tbox.is_some());
    if let Some(tbox) = tbox {
        for case in SHOWN.split('\n') {
            assert!(rt; tells(rt.alloc(), &tbox, case)?, "{case}");
        }
    }
    Ok(())
}

fn is_known(x: &Arg) -> bool
    ensures { IsTrue result → KnownArg x.now }
{
    match x {
        Arg::Blank => true,
        Arg::Var(_) => true,
        Arg::Fixed(term) => term.is_known(),
    }
}

fn is_atom_known(atom: &Atom) -> bool
    ensures { IsTrue result → KnownAtom atom.now }
{
    match atom {
        Atom::InClass(_, x) => is_known(x),
        Atom::Linked(_, x, y) => is_known(x) && is_known(y),
    }
}

fn are_atoms_known(atoms: &[Atom]) -> bool
    ensures { IsTrue result → (a : AtomOf) → In a atoms.now → KnownAtom a }
{
    for atom in atoms {
        if !is_atom_known(atom) {
            return false;
        }
    }
    true
}

fn are_args_known(args: &[Arg]) -> bool
    ensures { IsTrue result → (x : ArgOf) → In x args.now → KnownArg x }
{
    for x in args {
        if !is_known(x) {
            return false;
        }
    }
    true
}

// Whether the query may be asked.
fn can_ask(query: &Query) -> bool
    ensures constants { IsTrue result → KnownConstants query.now }
    ensures stands { IsTrue result → HeadStands query.now }
    ensures atoms { IsTrue result → length query.now.atoms ≤ 16 }
    ensures head { IsTrue result → length query.now.head ≤ 16 }
{
    checked_passes();
    query.check(&[]).is_ok()
        && are_atoms_known(query.atoms.items())
        && are_args_known(query.head.items())
}

fn is_covered(
    alloc: Global,
    tbox: &Tbox,
    first: &Query,
    second: &Query,
    want: &str,
) -> Result<bool, AllocError> {
    if !can_ask(first) || !can_ask(second) {
        return Ok(false);
    }
    match contained(alloc, tbox, first, second) {
        Ok(Some(number)) => Ok(number == digit(want, 0)),
        Ok(None) => Ok(want == "none"),
        Err(RewriteFault::TooWide) => Ok(false),
        Err(RewriteFault::NoMemory) => Err(AllocError),
    }
}

fn covers(alloc: Global, tbox: &Tbox, case: &str) -> Result<bool, AllocError> {
    match case.split_once(" => ") {
        Some((both, want)) => match queries(alloc, both)?.items() {
            [first, second] => is_covered(alloc, tbox, first, second, want),
            _ => Ok(false),
        },
        None => Ok(false),
    }
}

#[test]
fn queries_are_contained(rt: HostRuntime) -> Result<(), Fail> {
    let tbox = tbox(rt.alloc(), ABOUT)?;
    for case in CONTAINED.split('\n') {
        assert!(rt; covers(rt.alloc(), &tbox, case)?, "{case}");
    }
    Ok(())
}
