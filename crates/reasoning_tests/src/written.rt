//! Small models, facts and queries from their texts.
//!
//! `A1` is the class 1, `p0` the link 0 or the terms that have a filler of it, and `p0-` the same with the
//! ends of the link exchanged. A fact is `A1 a` or `p0 a b`, where `p0>a` is the fresh filler of the link
//! at a. A query is its head and its atoms, as `0 : p0 0 _, A1 'a`: numbers are variables, and a constant
//! stands behind a quote.
use dllite_axioms::{Axiom, Basic, Constraint, Tbox};
use queries::{Arg, Atom, Query};
use sqlite_items::Boxed;
use std::alloc::{AllocError, Global};
use vocabulary::{ClassId, Dir, Fact, LinkId, List, Name, Term, VarId};

// The digit at this place of a word.
fn digit(word: &str, place: usize) -> u32 {
    match word.as_bytes().get(place) {
        Some(byte) => byte.saturating_sub(b'0') as u32,
        None => 0,
    }
}

fn is_class(word: &str) -> bool {
    word.starts_with('A')
}

pub fn link(word: &str) -> LinkId {
    LinkId(digit(word, 1))
}

pub fn dir(word: &str) -> Dir {
    if word.ends_with('-') {
        Dir::Back
    } else {
        Dir::Fwd
    }
}

pub fn basic(word: &str) -> Basic {
    if is_class(word) {
        Basic::Class(ClassId(digit(word, 1)))
    } else {
        Basic::Has(link(word), dir(word))
    }
}

/// `A1 < p0`, or `p1- << p0` between links.
pub fn axiom(text: &str) -> Option<Axiom> {
    match text.split_once(" << ") {
        Some((narrow, wide)) => Some(Axiom::SubLink(link(narrow), dir(narrow), link(wide))),
        None => {
            let (left, right) = text.split_once(" < ")?;
            Some(Axiom::Sub(basic(left), basic(right)))
        }
    }
}

/// Axioms with commas between them.
pub fn tbox(alloc: Global, text: &str) -> Result<Tbox, AllocError> {
    let mut axioms = List::new(alloc);
    for part in text.split(", ") {
        if let Some(axiom) = axiom(part) {
            axioms.push(axiom)?;
        }
    }
    Ok(Tbox::new(axioms, List::new(alloc)))
}

/// `A1 # p0`, `p0 ## p1-` between links, or `one p0` of a functional link.
pub fn constraint(text: &str) -> Option<Constraint> {
    match text.split_once(" ## ") {
        Some((one, two)) => Some(Constraint::Apart(link(one), dir(two), link(two))),
        None => match text.split_once(" # ") {
            Some((left, right)) => Some(Constraint::Disjoint(basic(left), basic(right))),
            None => {
                let word = text.strip_prefix("one ")?;
                Some(Constraint::Func(link(word), dir(word)))
            }
        },
    }
}

pub fn named(alloc: Global, text: &str) -> Result<Term, AllocError> {
    Ok(Term::Named(Name::new(alloc, text)?))
}

fn term(alloc: Global, word: &str) -> Result<Term, AllocError> {
    match word.split_once('>') {
        Some((filled, at)) => {
            let at = Boxed::new(alloc, named(alloc, at)?)?;
            Ok(Term::New(link(filled), Dir::Fwd, at))
        }
        None => named(alloc, word),
    }
}

fn linked(alloc: Global, front: &str, first: &str, second: &str) -> Result<Fact, AllocError> {
    let first = term(alloc, first)?;
    Ok(Fact::Linked(link(front), first, term(alloc, second)?))
}

pub fn fact(alloc: Global, text: &str) -> Result<Fact, AllocError> {
    let (front, terms) = text.split_once(' ').unwrap_or((text, ""));
    match terms.split_once(' ') {
        Some((first, second)) => linked(alloc, front, first, second),
        None => Ok(Fact::InClass(ClassId(digit(front, 1)), term(alloc, terms)?)),
    }
}

fn arg(alloc: Global, word: &str) -> Result<Arg, AllocError> {
    match word.strip_prefix('\'') {
        Some(text) => Ok(Arg::Fixed(named(alloc, text)?)),
        None if word == "_" => Ok(Arg::Blank),
        None => Ok(Arg::Var(VarId(digit(word, 0)))),
    }
}

fn args(alloc: Global, text: &str) -> Result<List<Arg>, AllocError> {
    let mut list = List::new(alloc);
    for word in text.split(' ') {
        list.push(arg(alloc, word)?)?;
    }
    Ok(list)
}

fn linked_args(alloc: Global, front: &str, x: &str, y: &str) -> Result<Atom, AllocError> {
    let first = arg(alloc, x)?;
    Ok(Atom::Linked(link(front), first, arg(alloc, y)?))
}

pub fn atom(alloc: Global, text: &str) -> Result<Atom, AllocError> {
    let (front, rest) = text.split_once(' ').unwrap_or((text, ""));
    match rest.split_once(' ') {
        Some((x, y)) => linked_args(alloc, front, x, y),
        None => Ok(Atom::InClass(ClassId(digit(front, 1)), arg(alloc, rest)?)),
    }
}

fn atoms(alloc: Global, text: &str) -> Result<List<Atom>, AllocError> {
    let mut list = List::new(alloc);
    for part in text.split(", ") {
        list.push(atom(alloc, part)?)?;
    }
    Ok(list)
}

pub fn query(alloc: Global, text: &str) -> Result<Query, AllocError> {
    let (front, rest) = text.split_once(" : ").unwrap_or((text, ""));
    let head = args(alloc, front)?;
    Ok(Query {
        head,
        atoms: atoms(alloc, rest)?,
    })
}

/// Queries with semicolons between them.
pub fn queries(alloc: Global, text: &str) -> Result<List<Query>, AllocError> {
    let mut list = List::new(alloc);
    for part in text.split("; ") {
        list.push(query(alloc, part)?)?;
    }
    Ok(list)
}

/// Whether the queries are those of the text, in its order.
pub fn are_queries(alloc: Global, found: &[Query], text: &str) -> Result<bool, AllocError> {
    let want = queries(alloc, text)?;
    Ok(are_level(found, want.items()))
}

fn are_level(found: &[Query], want: &[Query]) -> bool {
    if found.len() != want.len() {
        return false;
    }
    for at in 0..found.len() {
        if found[at].compare(&want[at]).is_ne() {
            return false;
        }
    }
    true
}
