//! Folds of small queries, the steps to them, and queries with many.
ghost use Rattle.vocabulary.specs.Lists.{In};
ghost use Rattle.dllite_axioms.specs.declared.axioms.Axiom.{Axiom as AxiomOf};
ghost use Rattle.dllite_axioms.specs.Within.{IsAxiomWithin};

use crate::within::downs_of;
use crate::written::{are_queries, query, tbox};
use dllite_axioms::{Axiom, Basic, Tbox};
use fold_rewriting::{fold, fold_steps};
use negative_closure::Downs;
use perfect_rewriting::RewriteFault;
use queries::{Arg, Atom, Query};
use std::alloc::{AllocError, Global};
use std::test::Fail;
use vocabulary::{ClassId, Dir, LinkId, List, VarId};

// Axioms, a query, and its folds. First each review (A0) is about (p0) a paper (A1): what is about some
// paper is what is about it, or any review. Then a blank, and what is about one thing. The answers
// themselves are never folded, nor what is linked to itself, nor what two different things are linked
// to. Then a filler at the first end of a link, of which no fact is asked at the other end. Last, each
// A0 has a filler of p2, whose facts are facts of p0 and, turned, of p1.
const FOLDED: &str = "p0 < A0, p0- < A1, A0 < p0
0 : p0 0 1, A1 1
=> 0 : A0 0; 0 : A1 1, p0 0 1

A0 < p0
0 : p0 0 _
=> 0 : A0 0; 0 : p0 0 _

A0 < p0
0 1 : p0 0 2, p0 1 2
=> 0 0 : A0 0; 0 1 : p0 0 2, p0 1 2

A0 < p0
0 1 : p0 0 1
=> 0 1 : p0 0 1

A0 < p0
0 : A1 0, p0 1 1
=> 0 : A1 0, p0 1 1

A0 < p0
0 : A1 0, p0 'a 1, p0 'b 1
=> 0 : A1 0, p0 'a 1, p0 'b 1

A0 < p0-, p0 < A1
0 : p0 1 0, A1 1
=> 0 : A0 0; 0 : A1 1, p0 1 0

A0 < p0-
0 : p0 0 _
=> 0 : p0 0 _

A0 < p2, p2 << p0, p2- << p1
0 : p0 0 1, p1 1 0
=> 0 : A0 0; 0 : p0 0 1, p1 1 0";

fn are_folds(alloc: Global, downs: &Downs, asked: &Query, want: &str) -> Result<bool, AllocError>
    requires { (a : AxiomOf) → In a downs.now.axioms → IsAxiomWithin downs.now.classes downs.now.links a }
{
    if asked.head.len() > 9 || asked.atoms.len() > 9 {
        return Ok(false);
    }
    match fold(alloc, downs, asked) {
        Ok(list) => are_queries(alloc, list.items(), want),
        Err(_) => Ok(false),
    }
}

fn parts(case: &str) -> Option<(&str, &str, &str)> {
    let (front, want) = case.split_once("\n=> ")?;
    let (axioms, asked) = front.split_once('\n')?;
    Some((axioms, asked, want))
}

fn is_folded(alloc: Global, case: &str) -> Result<bool, Fail> {
    match parts(case) {
        Some((axioms, asked, want)) => {
            let downs = downs_of(alloc, &tbox(alloc, axioms)?, 3, 3)?;
            Ok(are_folds(alloc, &downs, &query(alloc, asked)?, want)?)
        }
        None => Ok(false),
    }
}

#[test]
fn queries_have_their_folds(rt: HostRuntime) -> Result<(), Fail> {
    for case in FOLDED.split("\n\n") {
        assert!(rt; is_folded(rt.alloc(), case)?, "{case}");
    }
    Ok(())
}

// The one step of the example folds the paper, which stands first in the first atom.
const STEP: &str =
    "FoldStep { link: LinkId(0), dir: Fwd, left: Class(ClassId(0)), atom: 0, end: Fwd }";

fn is_one_step(alloc: Global, downs: &Downs, asked: &Query) -> Result<bool, AllocError>
    requires { (a : AxiomOf) → In a downs.now.axioms → IsAxiomWithin downs.now.classes downs.now.links a }
{
    if asked.head.len() > 9 || asked.atoms.len() > 9 {
        return Ok(false);
    }
    match fold_steps(alloc, downs, asked)?.items() {
        [(step, made)] => {
            let told = format!(in alloc; "{step:?}")?;
            Ok(told.as_str() == STEP && made.compare(&query(alloc, "0 : A0 0")?).is_eq())
        }
        _ => Ok(false),
    }
}

#[test]
fn steps_tell_their_axiom_and_place(rt: HostRuntime) -> Result<(), Fail> {
    let alloc = rt.alloc();
    let downs = downs_of(alloc, &tbox(alloc, "p0 < A0, p0- < A1, A0 < p0")?, 2, 1)?;
    let asked = query(alloc, "0 : A1 1, p0 0 1")?;
    assert!(rt; is_one_step(alloc, &downs, &asked)?);
    Ok(())
}

// Each link leads from its class to something.
fn leading(alloc: Global, many: u8) -> Result<Tbox, AllocError> {
    let mut axioms = List::new(alloc);
    for number in 0..many {
        let left = Basic::Class(ClassId(number as u32));
        axioms.push(Axiom::Sub(left, Basic::Has(LinkId(number as u32), Dir::Fwd)))?;
    }
    Ok(Tbox::new(axioms, List::new(alloc)))
}

// What all links lead from.
fn at_all_links(alloc: Global, many: u8) -> Result<Query, AllocError> {
    let mut head = List::new(alloc);
    head.push(Arg::Var(VarId(0)))?;
    let mut atoms = List::new(alloc);
    for number in 0..many {
        atoms.push(Atom::Linked(LinkId(number as u32), Arg::Var(VarId(0)), Arg::Blank))?;
    }
    Ok(Query { head, atoms })
}

// How many folds there are, or none where they are too many.
fn count(alloc: Global, downs: &Downs, asked: &Query) -> Option<usize>
    requires { (a : AxiomOf) → In a downs.now.axioms → IsAxiomWithin downs.now.classes downs.now.links a }
{
    if asked.head.len() > 9 || asked.atoms.len() > 99 {
        return None;
    }
    match fold(alloc, downs, asked) {
        Ok(list) => Some(list.len()),
        Err(RewriteFault::TooWide) => None,
        Err(_) => Some(0),
    }
}

fn count_of(alloc: Global, many: u8) -> Result<Option<usize>, Fail> {
    let downs = downs_of(alloc, &leading(alloc, many)?, many as u32, many as u32)?;
    Ok(count(alloc, &downs, &at_all_links(alloc, many)?))
}

// Each of the links is asked of, or its class: 2 to the power of 11, and of 12.
#[test]
fn more_than_four_thousand_folds_are_too_wide(rt: HostRuntime) -> Result<(), Fail> {
    assert!(rt; count_of(rt.alloc(), 11)? == Some(2048));
    assert!(rt; count_of(rt.alloc(), 12)? == None);
    Ok(())
}
