//! Texts and terms that are lent, which contracts see as what they are.
ghost use Rattle.std.specs.Prelude.{◌≡◌};
ghost use Rattle.log_assembly.specs.Found.{iri_of};
ghost use Rattle.log_assembly.specs.Judged.{time_of};
ghost use Rattle.vocabulary.specs.Terms.{side_of, text_of};
ghost use Rattle.vocabulary.specs.declared.term.Term.{Named, Value};

use std::marker::Model;
use vocabulary::{Name, Side, Term, ValueKind};

/// A text that is lent.
#[derive(Debug, Drop)]
pub struct LentName<'a> {
    name: &'a Name,
}

impl<'a> Model for LentName<'a> {
    ghost use Rattle.std.specs.Prelude.{List, ℕ};

    ghost Value = { List ℕ };

    ghost view = { λ n. n.name.now };
}

impl<'a> LentName<'a> {
    pub fn of(name: &'a Name) -> LentName<'a>
        ensures { result ≡ name.now }
    {
        LentName { name }
    }

    pub fn name(&self) -> &'a Name
        ensures { result.now ≡ self.now }
    {
        self.name
    }

    pub fn lend(&self) -> LentName<'a>
        ensures { result ≡ self.now }
    {
        LentName { name: self.name }
    }
}

/// An IRI that is lent, with the term that it is.
#[derive(Debug, Drop)]
pub struct LentIri<'a> {
    term: &'a Term,
    name: &'a Name,
}

impl<'a> Model for LentIri<'a> {
    ghost use Rattle.std.specs.Prelude.{◌≡◌, List, ℕ};
    ghost use Rattle.vocabulary.specs.declared.term.Term.{Named};

    ghost Value = { List ℕ };

    ghost view = { λ iri. iri.name.now };

    ghost invariant = { λ iri. iri.term.now ≡ Named iri.name.now };
}

impl<'a> LentIri<'a> {
    /// The IRI that a term is, if it is one.
    pub fn of(term: &'a Term) -> Option<LentIri<'a>>
        ensures { result ≡ iri_of term.now }
    {
        match term {
            Term::Named(name) => Some(LentIri { term, name }),
            _ => None,
        }
    }

    pub fn term(&self) -> &'a Term
        ensures { result.now ≡ Named self.now }
    {
        self.term
    }

    pub fn name(&self) -> &'a Name
        ensures { result.now ≡ self.now }
    {
        self.name
    }

    pub fn lend(&self) -> LentIri<'a>
        ensures { result ≡ self.now }
    {
        LentIri {
            term: self.term,
            name: self.name,
        }
    }
}

/// What is lent of a term: the term, or the kind and the text of a value.
#[derive(Debug, Drop)]
pub enum Held<'a> {
    Whole(&'a Term),
    Parts(ValueKind, &'a Name),
}

/// A term that is lent.
#[derive(Debug, Drop)]
pub struct LentTerm<'a> {
    held: Held<'a>,
}

impl<'a> Model for LentTerm<'a> {
    ghost use Rattle.std.specs.Coded.{codes};
    ghost use Rattle.vocabulary.specs.contracts.term.Term as term;
    ghost use Rattle.vocabulary.specs.declared.term.Term.{Term};
    ghost use Rattle.log_assembly.specs.Lent.{held_term};

    ghost Value = { Term };

    ghost coded = { Prim.hlevel (codes, term.the_row.coded) };

    ghost view = { λ t. held_term t.held };
}

impl<'a> LentTerm<'a> {
    pub fn of(term: &'a Term) -> LentTerm<'a>
        ensures { result ≡ term.now }
    {
        LentTerm {
            held: Held::Whole(term),
        }
    }

    /// The value of this kind and text.
    pub fn value(kind: ValueKind, text: &'a Name) -> LentTerm<'a>
        ensures { result ≡ Value kind text.now }
    {
        LentTerm {
            held: Held::Parts(kind, text),
        }
    }

    pub fn lend(&self) -> LentTerm<'a>
        ensures { result ≡ self.now }
    {
        match &self.held {
            Held::Whole(term) => LentTerm::of(*term),
            Held::Parts(kind, text) => LentTerm::value(*kind, *text),
        }
    }

    pub fn side(&self) -> Side
        ensures { result ≡ side_of self.now }
    {
        match &self.held {
            Held::Whole(term) => Side::of(*term),
            Held::Parts(kind, _) => Side::Value(*kind),
        }
    }

    pub fn text(&self) -> &'a Name
        ensures { result.now ≡ text_of self.now }
    {
        match &self.held {
            Held::Whole(term) => term.text(),
            Held::Parts(_, text) => *text,
        }
    }

    /// The IRI that the term is, if it is one.
    pub fn iri(&self) -> Option<LentIri<'a>>
        ensures { result ≡ iri_of self.now }
    {
        match &self.held {
            Held::Whole(term) => LentIri::of(*term),
            Held::Parts(_, _) => None,
        }
    }

    /// The time that the term is, if it is one.
    pub fn time(&self) -> Option<LentName<'a>>
        ensures { result ≡ time_of self.now }
    {
        match &self.held {
            Held::Whole(Term::Value(ValueKind::Time, text)) => Some(LentName::of(text)),
            Held::Parts(ValueKind::Time, text) => Some(LentName::of(*text)),
            _ => None,
        }
    }
}
