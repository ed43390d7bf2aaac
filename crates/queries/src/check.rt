//! What a query must keep to be asked.
ghost use Rattle.std.specs.Prelude.{◌≡◌, ◌+◌, ◌*◌, ◌<◌, ◌≤◌, ◌++◌, ◌∷◌, ◌^◌, None, Some, MatchResult, if◌then◌else◌, length};
ghost use Rattle.std.specs.List.{list_any};
ghost use Rattle.queries.specs.Checking.{are_apart, args_of, different, is_large, is_mixed, is_new, is_unbound, mixed_with, query_fault, second_side, stands_apart};

use crate::tidy::{count_of, head_count_of};
use crate::{Arg, Atom, Query};
use std::slice::from_ref;
use vocabulary::{LinkId, Side};

/// Why a query is not asked, in the order in which it is judged.
#[derive(Clone, Copy, Debug, PartialEq, Eq)]
pub enum QueryFault {
    /// More than 16 atoms, 16 head places or 16 different variables. A Blank is no variable.
    TooLarge,
    /// One variable stands at places of two sorts.
    MixedSort,
    /// A place of the head has a Blank, or a variable that is in no atom.
    HeadUnbound,
}

const MOST: usize = 16;

impl Query {
    /// Whether the query may be asked, where `sides` has the sorts of the second places of the
    /// links. Constants are not judged: which of them fit a place is known where they are read.
    pub fn check(&self, sides: &[Side]) -> Result<(), QueryFault>
        ensures { MatchResult result (λ passed. query_fault sides.now self.now ≡ None) (λ fault. query_fault sides.now self.now ≡ Some fault) }
    {
        if self.is_too_large() {
            return Err(QueryFault::TooLarge);
        }
        if self.is_mixed_over(sides) {
            return Err(QueryFault::MixedSort);
        }
        if self.has_unbound() {
            return Err(QueryFault::HeadUnbound);
        }
        Ok(())
    }

    fn is_too_large(&self) -> bool
        ensures { result ≡ is_large self.now }
    {
        let (head, atoms) = (self.head.items(), self.atoms.items());
        atoms.len() > MOST || head.len() > MOST || variables(head, atoms) > MOST
    }

    fn is_mixed_over(&self, sides: &[Side]) -> bool
        ensures { result ≡ is_mixed sides.now self.now.atoms }
    {
        let atoms = self.atoms.items();
        atoms.iter().any(|a| mixes_with(sides, a, atoms))
    }

    fn has_unbound(&self) -> bool
        requires { length self.now.atoms < 2 ^ 32 }
        ensures { result ≡ list_any (is_unbound self.now.atoms) self.now.head }
    {
        let atoms = self.atoms.items();
        self.head.items().iter().any(|x| unbound(x, atoms))
    }
}

// A variable counts where it stands last.
fn variables(head: &[Arg], atoms: &[Atom]) -> usize
    requires head { length head.now < 2 ^ 32 }
    requires atoms { length atoms.now < 2 ^ 32 }
    ensures { result ≡ different (head.now ++ args_of atoms.now) }
{
    let mut found: usize = 0;
    for at in 0..head.len() {
        found += last_here(&head[at], &head[at + 1..], atoms);
    }
    found + variables_of_atoms(atoms)
}

fn variables_of_atoms(atoms: &[Atom]) -> usize
    requires { length atoms.now < 2 ^ 32 }
    ensures value { result ≡ different (args_of atoms.now) }
    ensures most { result ≤ 2 * length atoms.now }
{
    let mut found: usize = 0;
    for at in 0..atoms.len() {
        found += last_in(&atoms[at], &atoms[at + 1..]);
    }
    found
}

fn last_in(atom: &Atom, rest: &[Atom]) -> usize
    requires { length rest.now < 2 ^ 32 }
    ensures value { result + different (args_of rest.now) ≡ different (args_of (atom.now ∷ rest.now)) }
    ensures most { result ≤ 2 }
{
    match atom {
        Atom::InClass(_, x) => last_here(x, &[], rest),
        Atom::Linked(_, x, y) => last_here(x, from_ref(y), rest) + last_here(y, &[], rest),
    }
}

// 1 for a variable that stands in none of these.
fn last_here(x: &Arg, args: &[Arg], atoms: &[Atom]) -> usize
    requires args { length args.now < 2 ^ 32 }
    requires atoms { length atoms.now < 2 ^ 32 }
    ensures value { result ≡ (if is_new x.now (args.now ++ args_of atoms.now) then 1 else 0) }
    ensures most { result ≤ 1 }
{
    match x {
        Arg::Var(v) => {
            if head_count_of(*v, args) == 0 && count_of(*v, atoms) == 0 {
                1
            } else {
                0
            }
        }
        _ => 0,
    }
}

fn unbound(x: &Arg, atoms: &[Atom]) -> bool
    requires { length atoms.now < 2 ^ 32 }
    ensures { result ≡ is_unbound atoms.now x.now }
{
    match x {
        Arg::Blank => true,
        Arg::Var(v) => count_of(*v, atoms) == 0,
        Arg::Fixed(_) => false,
    }
}

fn mixes_with(sides: &[Side], atom: &Atom, atoms: &[Atom]) -> bool
    ensures { result ≡ mixed_with sides.now atoms.now atom.now }
{
    match atom {
        Atom::InClass(_, x) => apart_from(sides, x, Side::Object, atoms),
        Atom::Linked(p, x, y) => {
            apart_from(sides, x, Side::Object, atoms)
                || apart_from(sides, y, side_of_link(sides, *p), atoms)
        }
    }
}

fn apart_from(sides: &[Side], x: &Arg, side: Side, atoms: &[Atom]) -> bool
    ensures { result ≡ list_any (stands_apart sides.now x.now side) atoms.now }
{
    atoms.iter().any(|a| apart_in(sides, x, side, a))
}

fn apart_in(sides: &[Side], x: &Arg, side: Side, atom: &Atom) -> bool
    ensures { result ≡ stands_apart sides.now x.now side atom.now }
{
    match atom {
        Atom::InClass(_, y) => apart(x, side, y, Side::Object),
        Atom::Linked(p, y, z) => {
            apart(x, side, y, Side::Object) || apart(x, side, z, side_of_link(sides, *p))
        }
    }
}

fn apart(x: &Arg, s: Side, y: &Arg, t: Side) -> bool
    ensures { result ≡ are_apart x.now s y.now t }
{
    match (x, y) {
        (Arg::Var(v), Arg::Var(w)) => v.0 == w.0 && s != t,
        _ => false,
    }
}

fn side_of_link(sides: &[Side], link: LinkId) -> Side
    ensures { result ≡ second_side sides.now link }
{
    match sides.get(link.0 as usize) {
        Some(side) => *side,
        None => Side::Object,
    }
}
