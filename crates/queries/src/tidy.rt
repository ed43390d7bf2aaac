//! Blanking lone variables, and removing repeated atoms.
ghost use Rattle.std.specs.Prelude.{◌≡◌, ◌<◌, ◌≤◌, ◌-◌, ◌^◌, IfOk, length, map};
ghost use Rattle.queries.specs.Normal.{blank_arg, blank_atom, distinct, is_lone, stands_in, tidied};
ghost use Rattle.queries.specs.Occurrences.{atom_occurs, count, head_count, occurs};

use crate::{Arg, Atom};
use std::alloc::{AllocError, Global};
use vocabulary::VarId;

/// Lone variables become Blank, then repeated atoms go.
pub(crate) fn tidy(alloc: Global, head: &[Arg], atoms: &[Atom]) -> Result<Vec<Atom>, AllocError>
    requires head { length head.now < 2 ^ 32 }
    requires atoms { length atoms.now < 2 ^ 32 }
    ensures { IfOk result (λ out. out.items ≡ tidied head.now atoms.now) }
{
    let blanked = blank_atoms(alloc, head, atoms)?;
    drop_repeated(alloc, blanked.as_slice())
}

fn blank_atoms(alloc: Global, head: &[Arg], atoms: &[Atom]) -> Result<Vec<Atom>, AllocError>
    requires head { length head.now < 2 ^ 32 }
    requires atoms { length atoms.now < 2 ^ 32 }
    ensures { IfOk result (λ out. out.items ≡ map (blank_atom head.now atoms.now) atoms.now) }
{
    let mut out = Vec::new(alloc);
    for atom in atoms {
        out.push(blanked_atom(alloc, atom, head, atoms)?)?;
    }
    Ok(out)
}

fn blanked_atom(
    alloc: Global,
    atom: &Atom,
    head: &[Arg],
    atoms: &[Atom],
) -> Result<Atom, AllocError>
    requires head { length head.now < 2 ^ 32 }
    requires atoms { length atoms.now < 2 ^ 32 }
    ensures { IfOk result (λ a. a ≡ blank_atom head.now atoms.now atom.now) }
{
    match atom {
        Atom::InClass(class, x) => Ok(Atom::InClass(*class, blanked(alloc, x, head, atoms)?)),
        Atom::Linked(link, x, y) => {
            let first = blanked(alloc, x, head, atoms)?;
            Ok(Atom::Linked(*link, first, blanked(alloc, y, head, atoms)?))
        }
    }
}

fn blanked(alloc: Global, arg: &Arg, head: &[Arg], atoms: &[Atom]) -> Result<Arg, AllocError>
    requires head { length head.now < 2 ^ 32 }
    requires atoms { length atoms.now < 2 ^ 32 }
    ensures { IfOk result (λ x. x ≡ blank_arg head.now atoms.now arg.now) }
{
    match arg {
        Arg::Var(v) => {
            if head_count_of(*v, head) == 0 && count_of(*v, atoms) == 1 {
                Ok(Arg::Blank)
            } else {
                Ok(Arg::Var(*v))
            }
        }
        _ => arg.copy(alloc),
    }
}

pub(crate) fn count_of(v: VarId, atoms: &[Atom]) -> usize
    requires { length atoms.now < 2 ^ 32 }
    ensures { result ≡ count v atoms.now }
{
    let mut times: usize = 0;
    for atom in atoms {
        times += atom.occurrences(v);
    }
    times
}

pub(crate) fn head_count_of(v: VarId, head: &[Arg]) -> usize
    requires { length head.now < 2 ^ 32 }
    ensures { result ≡ head_count v head.now }
{
    let mut times: usize = 0;
    for x in head {
        times += x.occurrences(v);
    }
    times
}

impl Arg {
    pub(crate) fn occurrences(&self, v: VarId) -> usize
        ensures value { result ≡ occurs v self.now }
        ensures most { result < 2 }
    {
        match self {
            Arg::Var(w) => { if w.0 == v.0 { 1 } else { 0 } }
            _ => 0,
        }
    }
}

impl Atom {
    pub(crate) fn occurrences(&self, v: VarId) -> usize
        ensures value { result ≡ atom_occurs v self.now }
        ensures most { result < 3 }
    {
        match self {
            Atom::InClass(_, x) => x.occurrences(v),
            Atom::Linked(_, x, y) => x.occurrences(v) + y.occurrences(v),
        }
    }
}

fn drop_repeated(alloc: Global, atoms: &[Atom]) -> Result<Vec<Atom>, AllocError>
    ensures { IfOk result (λ out. out.items ≡ distinct atoms.now) }
{
    let mut out = Vec::new(alloc);
    for at in 0..atoms.len() {
        if !stands_among(&atoms[at], &atoms[at + 1..]) {
            out.push(atoms[at].copy(alloc)?)?;
        }
    }
    Ok(out)
}

fn stands_among(atom: &Atom, atoms: &[Atom]) -> bool
    ensures { result ≡ stands_in atom.now atoms.now }
{
    atoms.iter().any(|other| atom.compare(other).is_eq())
}
