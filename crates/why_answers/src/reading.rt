//! Reading a tuple from facts for the atoms of a query.
ghost use Rattle.std.specs.Prelude.{◌≡◌, ◌↔◌, List as ListOf, IfOk, IsTrue, IfSome};
ghost use Rattle.std.specs.Option.{option_copied};
ghost use Rattle.vocabulary.specs.Lists.{Pairwise};
ghost use Rattle.certain_semantics.specs.Certain.{TermsKnown};
ghost use Rattle.why_answers.specs.Reading.{ArgReads, AtomReads, arg_term, atom_term, head_term, head_terms, term_in};

use queries::{Arg, Atom};
use std::alloc::{AllocError, Global};
use vocabulary::{Fact, List, Term, VarId};

fn arg_term<'a>(v: VarId, arg: &Arg, term: &'a Term) -> Option<&'a Term>
    ensures { option_copied result ≡ arg_term v arg.now term.now }
{
    match arg {
        Arg::Var(w) if w.0 == v.0 => Some(term),
        _ => None,
    }
}

fn atom_term<'a>(v: VarId, atom: &Atom, fact: &'a Fact) -> Option<&'a Term>
    ensures { option_copied result ≡ atom_term v atom.now fact.now }
{
    match (atom, fact) {
        (Atom::InClass(_, x), Fact::InClass(_, t)) => arg_term(v, x, t),
        (Atom::Linked(_, x, y), Fact::Linked(_, s, t)) => match arg_term(v, x, s) {
            Some(term) => Some(term),
            None => arg_term(v, y, t),
        },
        _ => None,
    }
}

// The term at the first place of the variable.
fn term_in<'a>(v: VarId, atoms: &[Atom], facts: &'a [Fact]) -> Option<&'a Term>
    ensures { option_copied result ≡ term_in v atoms.now facts.now }
{
    match atoms {
        [] => None,
        [atom, atoms @ ..] => match facts {
            [] => None,
            [fact, facts @ ..] => match atom_term(v, atom, fact) {
                Some(term) => Some(term),
                None => term_in(v, atoms, facts),
            },
        },
    }
}

fn reads_arg(atoms: &[Atom], facts: &[Fact], arg: &Arg, term: &Term) -> bool
    ensures { IsTrue result ↔ ArgReads atoms.now facts.now arg.now term.now }
{
    match arg {
        Arg::Blank => true,
        Arg::Var(v) => match term_in(*v, atoms, facts) {
            Some(first) => first.same(term),
            None => false,
        },
        Arg::Fixed(constant) => constant.same(term),
    }
}

fn reads_atom(atoms: &[Atom], facts: &[Fact], atom: &Atom, fact: &Fact) -> bool
    ensures { IsTrue result ↔ AtomReads atoms.now facts.now atom.now fact.now }
{
    match (atom, fact) {
        (Atom::InClass(a, x), Fact::InClass(b, t)) => a.0 == b.0 && reads_arg(atoms, facts, x, t),
        (Atom::Linked(p, x, y), Fact::Linked(q, s, t)) => {
            p.0 == q.0 && reads_arg(atoms, facts, x, s) && reads_arg(atoms, facts, y, t)
        }
        _ => false,
    }
}

fn reads_rest(atoms: &[Atom], facts: &[Fact], rest: &[Atom], behind: &[Fact]) -> bool
    ensures { IsTrue result ↔ Pairwise (AtomReads atoms.now facts.now) rest.now behind.now }
{
    match rest {
        [] => behind.is_empty(),
        [atom, rest @ ..] => match behind {
            [] => false,
            [fact, behind @ ..] => {
                reads_atom(atoms, facts, atom, fact) && reads_rest(atoms, facts, rest, behind)
            }
        },
    }
}

/// Whether one replacement of the variables takes the atoms, in order, to the facts.
pub(crate) fn reads(atoms: &[Atom], facts: &[Fact]) -> bool
    ensures { IsTrue result ↔ Pairwise (AtomReads atoms.now facts.now) atoms.now facts.now }
{
    reads_rest(atoms, facts, atoms, facts)
}

fn head_term(
    alloc: Global,
    atoms: &[Atom],
    facts: &[Fact],
    arg: &Arg,
) -> Result<Option<Term>, AllocError>
    ensures { IfOk result (λ term. term ≡ head_term atoms.now facts.now arg.now) }
{
    match arg {
        Arg::Blank => Ok(None),
        Arg::Var(v) => match term_in(*v, atoms, facts) {
            Some(term) => Ok(Some(term.copy(alloc)?)),
            None => Ok(None),
        },
        Arg::Fixed(term) => Ok(Some(term.copy(alloc)?)),
    }
}

/// The terms of the head.
pub(crate) fn head_terms(
    alloc: Global,
    atoms: &[Atom],
    facts: &[Fact],
    head: &[Arg],
) -> Result<Option<List<Term>>, AllocError>
    ensures { IfOk result (λ terms. terms ≡ head_terms atoms.now facts.now head.now) }
{
    let mut terms = List::new(alloc);
    for arg in head {
        match head_term(alloc, atoms, facts, arg)? {
            Some(term) => terms.push(term)?,
            None => return Ok(None),
        }
    }
    Ok(Some(terms))
}

pub(crate) fn are_known(terms: &[Term]) -> bool
    ensures { IsTrue result ↔ TermsKnown terms.now }
{
    match terms {
        [] => true,
        [term, terms @ ..] => term.is_known() && are_known(terms),
    }
}
