//! Reading an ontology.
ghost use Rattle.std.specs.Prelude.{◌≡◌, ◌≢◌, ◌≤◌, ◌<◌, ◌-◌, ◌^◌, length, IfOk, IfErr, Ok, Err};
ghost use Rattle.std.specs.Str.Lossy.{utf8_valid_len};
ghost use Rattle.line_lexer.specs.Lines.{unmarked as unmarked_text};
ghost use Rattle.owl_functional.specs.Sound.{IsOntology};
ghost use Rattle.owl_functional.specs.Ontology.{within_limits, given as given_by, judged as judged_axioms, bad_line as bad_line_of, read_text as read_text_of, read_ontology as read_ontology_of};

use crate::document::document;
use crate::fault::OwlFault;
use crate::giving::{constraints, inclusions, passes};
use crate::lookup::Lookup;
use crate::numbered::{Numbered, number_all};
use crate::ontology::Ontology;
use crate::rules::{check, first_specialised};
use crate::spot::Place;
use crate::tree::Axiom;
use dllite_axioms::Tbox;
use line_lexer::Counted;
use std::alloc::{AllocError, Global};
use vocabulary::{List, Name, Names};

#[tactic(auto, using(crate::proofs::Lists::next_name))]
fn texts(alloc: Global, names: &Names) -> Result<List<Name>, AllocError>
    ensures { IfOk result (λ list. list ≡ names.now) }
{
    let mut list = List::new(alloc);
    for n in 0..names.len() {
        let name = Name::new(alloc, names.text(n))?;
        list.push(name)?;
    }
    Ok(list)
}

// What the axioms give, if no count passes its number.
fn given(alloc: Global, numbered: Numbered, axioms: &[Axiom]) -> Result<Ontology, OwlFault>
    ensures read { IfOk result (λ o. within_limits (given_by numbered axioms.now) ≡ Ok o) }
    ensures fault { IfErr result (λ e. e ≢ OwlFault.NoMemory → within_limits (given_by numbered axioms.now) ≡ Err e) }
{
    if passes(Counted::Classes, numbered.classes.len() as usize) {
        return Err(OwlFault::Limit(Counted::Classes));
    }
    if passes(Counted::Links, numbered.links.len() as usize) {
        return Err(OwlFault::Limit(Counted::Links));
    }
    let inclusions = inclusions(alloc, &numbered, axioms)?;
    if passes(Counted::Axioms, inclusions.len()) {
        return Err(OwlFault::Limit(Counted::Axioms));
    }
    let constraints = constraints(alloc, &numbered, axioms)?;
    let classes = texts(alloc, &numbered.classes)?;
    let links = texts(alloc, &numbered.links)?;
    let Numbered { sides, .. } = numbered;
    Ok(Ontology {
        classes,
        links,
        sides,
        tbox: Tbox {
            axioms: inclusions,
            constraints,
        },
    })
}

// The axioms, with what is looked up in them.
#[tactic(auto, using(crate::proofs::Judged::judged_fault, crate::proofs::Judged::judged_specialised, crate::proofs::Judged::judged_given))]
fn judged_by(alloc: Global, lookup: &Lookup<'_>, axioms: &[Axiom]) -> Result<Ontology, OwlFault>
    requires { lookup.now ≡ axioms.now }
    ensures read { IfOk result (λ o. judged_axioms axioms.now ≡ Ok o) }
    ensures fault { IfErr result (λ e. e ≢ OwlFault.NoMemory → judged_axioms axioms.now ≡ Err e) }
{
    if let Err(fault) = check(alloc, lookup, axioms) {
        return Err(fault);
    }
    if let Some(fault) = first_specialised(lookup, axioms) {
        return Err(fault);
    }
    let numbered = number_all(alloc, lookup, axioms)?;
    given(alloc, numbered, axioms)
}

fn judged(alloc: Global, axioms: &[Axiom]) -> Result<Ontology, OwlFault>
    ensures read { IfOk result (λ o. judged_axioms axioms.now ≡ Ok o) }
    ensures fault { IfErr result (λ e. e ≢ OwlFault.NoMemory → judged_axioms axioms.now ≡ Err e) }
{
    let lookup = Lookup::new(alloc, axioms)?;
    judged_by(alloc, &lookup, axioms)
}

// A text without the byte order mark at its front.
fn unmarked(text: &str) -> &str
    ensures value { result.now ≡ unmarked_text text.now }
    ensures within { length result.now ≤ length text.now }
{
    match text.strip_prefix("\u{FEFF}") {
        Some(rest) => rest,
        None => text,
    }
}

fn read_text(alloc: Global, text: &str) -> Result<Ontology, OwlFault>
    requires { length text.now < 2 ^ 32 - 1 }
    ensures read { IfOk result (λ o. read_text_of text.now ≡ Ok o) }
    ensures fault { IfErr result (λ e. e ≢ OwlFault.NoMemory → read_text_of text.now ≡ Err e) }
{
    let at = Place {
        rest: text,
        line: 1,
    };
    let axioms = document(alloc, text.len(), at)?;
    judged(alloc, axioms.items())
}

// The number of the line in which the byte at this place stands.
fn bad_line(bytes: &[u8], at: usize) -> u32
    requires short { length bytes.now < 2 ^ 32 - 1 }
    requires place { at ≡ utf8_valid_len bytes.now }
    requires within { at ≤ length bytes.now }
    ensures { result ≡ bad_line_of bytes.now }
{
    let feeds = bytes[..at].iter().filter(|b| **b == b'\n').count();
    feeds as u32 + 1
}

/// The ontology that the bytes of a file are. Each fault comes exactly where it is the first one.
pub fn read_ontology(alloc: Global, bytes: &[u8]) -> Result<Ontology, OwlFault>
    requires { length bytes.now < 2 ^ 32 - 1 }
    ensures read { IfOk result (λ o. read_ontology_of bytes.now ≡ Ok o) }
    ensures fault { IfErr result (λ e. e ≢ OwlFault.NoMemory → read_ontology_of bytes.now ≡ Err e) }
    ensures sound { IfOk result IsOntology }
{
    match str::from_utf8(bytes) {
        Ok(text) => read_text(alloc, unmarked(text)),
        Err(e) => Err(OwlFault::NotUtf8(bad_line(bytes, e.valid_up_to()))),
    }
}
