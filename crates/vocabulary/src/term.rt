//! Terms and facts.
ghost use Rattle.std.specs.Prelude.{◌≡◌, ◌↔◌, IsTrue, IfOk};
ghost use Rattle.vocabulary.specs.Terms.{IsKnown, text_of, wrapped};

use crate::{ClassId, Dir, LinkId, Name, ValueKind};
use sqlite_items::Boxed;
use std::alloc::{AllocError, Global};

/// What a fact speaks of. Fresh terms nest some thousand deep, so what walks through them is a loop.
#[derive(Debug)]
pub enum Term {
    /// An object by its IRI. Different IRIs are different objects.
    Named(Name),
    /// A value by its kind and its canonical text.
    Value(ValueKind, Name),
    /// A fresh term: for `Fwd` the unknown second member of the link at the term, for `Back` the
    /// unknown first member. It is the Skolem term of the axiom that gives it.
    New(LinkId, Dir, Boxed<Term>),
}

/// A membership assertion: a term in a class, or two terms in a link.
#[derive(Debug, Drop)]
pub enum Fact {
    InClass(ClassId, Term),
    Linked(LinkId, Term, Term),
}

impl Term {
    /// Whether the term is a name or a value, and not fresh.
    pub fn is_known(&self) -> bool
        ensures { IsTrue result ↔ IsKnown self.now }
    {
        match self {
            Term::New(_, _, _) => false,
            _ => true,
        }
    }

    /// The text of a name or a value; a fresh term has the text of the one that it is at.
    pub fn text(&self) -> &Name
        ensures { result.now ≡ text_of self.now }
    {
        let mut term = self;
        while let Term::New(_, _, parent) = term {
            term = parent.get();
        }
        match term {
            Term::Named(text) => text,
            Term::Value(_, text) => text,
            Term::New(_, _, _) => unreachable!(),
        }
    }

    #[tactic(auto, using(crate::proofs::Wrapping::same_layer))]
    pub fn same(&self, other: &Term) -> bool
        ensures { IsTrue result ↔ (self.now ≡ other.now) }
    {
        let (mut one, mut two) = (self, other);
        while let (Term::New(p, d, t), Term::New(q, e, u)) = (one, two) {
            if p.0 != q.0 || *d != *e {
                return false;
            }
            one = t.get();
            two = u.get();
        }
        match (one, two) {
            (Term::Named(a), Term::Named(b)) => a.same(b),
            (Term::Value(k, a), Term::Value(l, b)) => *k == *l && a.same(b),
            _ => false,
        }
    }

    #[tactic(auto, using(crate::proofs::Wrapping::wrapped_last))]
    pub fn copy(&self, alloc: Global) -> Result<Term, AllocError>
        ensures { IfOk result (λ t. t ≡ self.now) }
    {
        let mut layers = Vec::new(alloc);
        let mut inner = self;
        while let Term::New(p, d, t) = inner {
            layers.push((*p, *d))?;
            inner = t.get();
        }
        let core = inner.copy_known(alloc)?;
        wrap(alloc, layers, core)
    }

    // A copy of a name or a value.
    fn copy_known(&self, alloc: Global) -> Result<Term, AllocError>
        requires { IsKnown self.now }
        ensures { IfOk result (λ t. t ≡ self.now) }
    {
        match self {
            Term::Named(a) => Ok(Term::Named(a.copy(alloc)?)),
            Term::Value(k, a) => Ok(Term::Value(*k, a.copy(alloc)?)),
            Term::New(_, _, _) => unreachable!(),
        }
    }
}

impl Drop for Term {
    fn drop(mut self) {
        loop {
            match self {
                Term::Named(_) | Term::Value(_, _) => return,
                Term::New(_, _, inner) => self = inner.into_inner(),
            }
        }
    }
}

// The fresh term of these layers, the outermost first, around a term.
#[tactic(auto, using(crate::proofs::Wrapping::wrapped_last))]
fn wrap(alloc: Global, layers: Vec<(LinkId, Dir)>, core: Term) -> Result<Term, AllocError>
    ensures { IfOk result (λ t. t ≡ wrapped layers.items core) }
{
    let mut layers = layers;
    let mut term = core;
    while let Some((link, dir)) = layers.pop() {
        term = Term::New(link, dir, Boxed::new(alloc, term)?);
    }
    Ok(term)
}

impl Fact {
    pub fn same(&self, other: &Fact) -> bool
        ensures { IsTrue result ↔ (self.now ≡ other.now) }
    {
        match (self, other) {
            (Fact::InClass(a, t), Fact::InClass(b, u)) => a.0 == b.0 && t.same(u),
            (Fact::Linked(p, s, t), Fact::Linked(q, u, v)) => p.0 == q.0 && s.same(u) && t.same(v),
            _ => false,
        }
    }

    pub fn copy(&self, alloc: Global) -> Result<Fact, AllocError>
        ensures { IfOk result (λ f. f ≡ self.now) }
    {
        match self {
            Fact::InClass(a, t) => Ok(Fact::InClass(*a, t.copy(alloc)?)),
            Fact::Linked(p, s, t) => Ok(Fact::Linked(*p, s.copy(alloc)?, t.copy(alloc)?)),
        }
    }
}
