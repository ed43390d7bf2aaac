//! The order of arguments, atoms and queries.
ghost use Rattle.std.specs.Prelude.{◌≡◌, ◌+◌};
ghost use Rattle.std.specs.Ordering.{is_eq, is_le};
ghost use Rattle.std.specs.Cmp.Lexicographic.{slice_cmp};
ghost use Rattle.vocabulary.specs.Texts.{text_cmp};
ghost use Rattle.queries.specs.Order.{arg_cmp, atom_cmp, births, dir_rank, kind_rank, query_cmp, term_cmp, term_rank, tuple_cmp};

use crate::{Arg, Atom, Query};
use std::cmp::Ordering;
use vocabulary::{Dir, Term, ValueKind};

impl Query {
    /// Fewer atoms first, then by the heads, then by the atoms, each by their first difference.
    pub fn compare(&self, other: &Query) -> Ordering
        ensures { result ≡ query_cmp self.now other.now }
    {
        let heads = compare_args(self.head.items(), other.head.items());
        let atoms = compare_atoms(self.atoms.items(), other.atoms.items());
        self.atoms
            .len()
            .cmp(&other.atoms.len())
            .then(heads.then(atoms))
    }
}

impl Atom {
    /// Classes by number and argument, then links by number, first and second argument.
    pub fn compare(&self, other: &Atom) -> Ordering
        ensures { result ≡ atom_cmp self.now other.now }
    {
        match (self, other) {
            (Atom::InClass(a, x), Atom::InClass(b, y)) => a.0.cmp(&b.0).then(x.compare(y)),
            (Atom::InClass(_, _), Atom::Linked(_, _, _)) => Ordering::Less,
            (Atom::Linked(_, _, _), Atom::InClass(_, _)) => Ordering::Greater,
            (Atom::Linked(p, x, w), Atom::Linked(q, y, z)) => {
                p.0.cmp(&q.0).then(x.compare(y).then(w.compare(z)))
            }
        }
    }
}

impl Arg {
    /// Blank first, then variables by number, then constants by the bytes of their texts, and of
    /// one text objects before values, and values by kind: text, int, bool, time.
    pub fn compare(&self, other: &Arg) -> Ordering
        ensures { result ≡ arg_cmp self.now other.now }
    {
        match (self, other) {
            (Arg::Blank, Arg::Blank) => Ordering::Equal,
            (Arg::Blank, Arg::Var(_)) => Ordering::Less,
            (Arg::Blank, Arg::Fixed(_)) => Ordering::Less,
            (Arg::Var(_), Arg::Blank) => Ordering::Greater,
            (Arg::Var(v), Arg::Var(w)) => v.0.cmp(&w.0),
            (Arg::Var(_), Arg::Fixed(_)) => Ordering::Less,
            (Arg::Fixed(_), Arg::Blank) => Ordering::Greater,
            (Arg::Fixed(_), Arg::Var(_)) => Ordering::Greater,
            (Arg::Fixed(t), Arg::Fixed(u)) => compare_terms(t, u),
        }
    }
}

/// By the first terms that differ; the front of a tuple comes before it.
pub fn compare_tuples(ts: &[Term], us: &[Term]) -> Ordering
    ensures { result ≡ tuple_cmp ts.now us.now }
{
    let mut at = 0;
    while at < ts.len() && at < us.len() {
        let here = compare_terms(&ts[at], &us[at]);
        if here.is_ne() {
            return here;
        }
        at += 1;
    }
    ts.len().cmp(&us.len())
}

fn compare_args(xs: &[Arg], ys: &[Arg]) -> Ordering
    ensures { result ≡ slice_cmp arg_cmp xs.now ys.now }
{
    let mut at = 0;
    while at < xs.len() && at < ys.len() {
        let here = xs[at].compare(&ys[at]);
        if here.is_ne() {
            return here;
        }
        at += 1;
    }
    xs.len().cmp(&ys.len())
}

fn compare_atoms(xs: &[Atom], ys: &[Atom]) -> Ordering
    ensures { result ≡ slice_cmp atom_cmp xs.now ys.now }
{
    let mut at = 0;
    while at < xs.len() && at < ys.len() {
        let here = xs[at].compare(&ys[at]);
        if here.is_ne() {
            return here;
        }
        at += 1;
    }
    xs.len().cmp(&ys.len())
}

/// By the bytes of the texts, and of one text objects before values, and values by kind: text, int,
/// bool, time.
pub fn compare_terms(t: &Term, u: &Term) -> Ordering
    ensures { result ≡ term_cmp t.now u.now }
{
    let texts = t.text().text().as_bytes().cmp(u.text().text().as_bytes());
    texts.then(rank(t).cmp(&rank(u)).then(compare_births(t, u)))
}

fn rank(term: &Term) -> u8
    ensures { result ≡ term_rank term.now }
{
    match term {
        Term::Named(_) => 0,
        Term::Value(ValueKind::Text, _) => 1,
        Term::Value(ValueKind::Int, _) => 2,
        Term::Value(ValueKind::Bool, _) => 3,
        Term::Value(ValueKind::Time, _) => 4,
        Term::New(_, _, parent) => rank(parent.get()),
    }
}

fn compare_births(t: &Term, u: &Term) -> Ordering
    ensures { result ≡ text_cmp (births t.now) (births u.now) }
{
    match t {
        Term::New(p, d, s) => match u {
            Term::New(q, e, r) => {
                let rest = compare_births(s.get(), r.get());
                p.0.cmp(&q.0)
                    .then(direction(*d).cmp(&direction(*e)).then(rest))
            }
            _ => Ordering::Greater,
        },
        _ => match u {
            Term::New(_, _, _) => Ordering::Less,
            _ => Ordering::Equal,
        },
    }
}

fn direction(dir: Dir) -> u8
    ensures { result ≡ dir_rank dir }
{
    match dir {
        Dir::Fwd => 0,
        Dir::Back => 1,
    }
}
