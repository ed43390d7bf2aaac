//! Small models from their texts.
//!
//! `A1` is the class 1, `p0` the link 0 or the terms that have a filler of it, and `p0-` the same with the
//! ends of the link exchanged.
use dllite_axioms::{Axiom, Basic, Constraint, Tbox};
use std::alloc::{AllocError, Global};
use vocabulary::{ClassId, Dir, LinkId, List};

/// The digit at this place of a word.
pub fn digit(word: &str, place: usize) -> u32 {
    match word.as_bytes().get(place) {
        Some(byte) => byte.saturating_sub(b'0') as u32,
        None => 0,
    }
}

fn link(word: &str) -> LinkId {
    LinkId(digit(word, 1))
}

fn dir(word: &str) -> Dir {
    if word.ends_with('-') {
        Dir::Back
    } else {
        Dir::Fwd
    }
}

fn basic(word: &str) -> Basic {
    if word.starts_with('A') {
        Basic::Class(ClassId(digit(word, 1)))
    } else {
        Basic::Has(link(word), dir(word))
    }
}

// `A1 < p0`, or `p1- << p0` between links.
fn axiom(text: &str) -> Option<Axiom> {
    match text.split_once(" << ") {
        Some((narrow, wide)) => Some(Axiom::SubLink(link(narrow), dir(narrow), link(wide))),
        None => {
            let (left, right) = text.split_once(" < ")?;
            Some(Axiom::Sub(basic(left), basic(right)))
        }
    }
}

// `A1 # p0`, `p0 ## p1-` between links, or `one p0` of a functional link.
fn constraint(text: &str) -> Option<Constraint> {
    match text.split_once(" ## ") {
        Some((one, two)) => Some(Constraint::Apart(link(one), dir(two), link(two))),
        None => match text.split_once(" # ") {
            Some((left, right)) => Some(Constraint::Disjoint(basic(left), basic(right))),
            None => {
                let word = text.strip_prefix("one ")?;
                Some(Constraint::Func(link(word), dir(word)))
            }
        },
    }
}

fn axioms(alloc: Global, text: &str) -> Result<List<Axiom>, AllocError> {
    let mut axioms = List::new(alloc);
    for part in text.split(", ") {
        if let Some(axiom) = axiom(part) {
            axioms.push(axiom)?;
        }
    }
    Ok(axioms)
}

fn constraints(alloc: Global, text: &str) -> Result<List<Constraint>, AllocError> {
    let mut constraints = List::new(alloc);
    for part in text.split(", ") {
        if let Some(constraint) = constraint(part) {
            constraints.push(constraint)?;
        }
    }
    Ok(constraints)
}

/// Axioms and constraints with commas between them.
pub fn tbox(alloc: Global, first: &str, second: &str) -> Result<Tbox, AllocError> {
    let axioms = axioms(alloc, first)?;
    Ok(Tbox::new(axioms, constraints(alloc, second)?))
}
