//! Which queries are cut in two, and at which atom. Any choice gives the same images; this one keeps
//! what is held small.
ghost use Rattle.std.specs.Prelude.{◌≡◌, ◌≤◌, ◌<◌, IfOk, IfSome, IsTrue, length};

use mapping_facts::{Mapping, Target};
use queries::{Arg, Atom};
use std::alloc::{AllocError, Global};

// A query that unfolds into no more row queries is unfolded as it stands.
const MOST: usize = 64;

fn says(target: &Target, atom: &Atom) -> bool {
    match (target, atom) {
        (Target::InClass(a, _), Atom::InClass(b, _)) => a.0 == b.0,
        (Target::Linked(p, _, _), Atom::Linked(q, _, _)) => p.0 == q.0,
        _ => false,
    }
}

// How many targets say what the atom asks for.
fn ways_of(atom: &Atom, mappings: &[Mapping]) -> usize {
    let mut found: usize = 0;
    for mapping in mappings {
        for target in mapping.targets.items() {
            if says(target, atom) {
                found = found.saturating_add(1);
            }
        }
    }
    found
}

/// Whether a query of these atoms is cut in two, since it unfolds into many row queries. One of a
/// single atom is not. Which others are is a choice of time and memory alone, so no clause says it.
pub fn is_wide(atoms: &[Atom], mappings: &[Mapping]) -> bool
    ensures { IsTrue result → 2 ≤ length atoms.now }
{
    if atoms.len() < 2 {
        return false;
    }
    let mut ways: usize = 1;
    for atom in atoms {
        ways = ways.saturating_mul(ways_of(atom, mappings).max(1));
    }
    ways > MOST
}

fn same_var(x: &Arg, y: &Arg) -> bool {
    match (x, y) {
        (Arg::Var(v), Arg::Var(w)) => v.0 == w.0,
        _ => false,
    }
}

fn has_arg(atom: &Atom, arg: &Arg) -> bool {
    match atom {
        Atom::InClass(_, x) => same_var(x, arg),
        Atom::Linked(_, x, y) => same_var(x, arg) || same_var(y, arg),
    }
}

fn share(one: &Atom, other: &Atom) -> bool {
    match one {
        Atom::InClass(_, x) => has_arg(other, x),
        Atom::Linked(_, x, y) => has_arg(other, x) || has_arg(other, y),
    }
}

// Whether the atom shares a variable with one that is reached.
fn is_tied(atoms: &[Atom], reached: &[bool], atom: &Atom) -> bool {
    for (other, is) in atoms.iter().zip(reached) {
        if *is && share(atom, other) {
            return true;
        }
    }
    false
}

// The first atom that is not reached and tied to one that is, else the first that is not reached.
fn next_of(atoms: &[Atom], reached: &[bool]) -> usize
    requires some { 0 < length atoms.now }
    requires each { length reached.now ≡ length atoms.now }
    ensures { result < length atoms.now }
{
    let mut next = 0;
    let mut any = false;
    for i in 0..atoms.len() {
        if !reached[i] {
            if is_tied(atoms, reached, &atoms[i]) {
                return i;
            }
            if !any {
                next = i;
                any = true;
            }
        }
    }
    next
}

/// The atom that is reached last where each is taken next to one that shares a variable with it, as
/// far as there are such. So the others hang together where all do.
pub(crate) fn last_reached(alloc: Global, atoms: &[Atom]) -> Result<usize, AllocError>
    requires { 0 < length atoms.now }
    ensures { IfOk result (λ at. at < length atoms.now) }
{
    let mut reached = vec![in alloc; false; atoms.len()]?;
    let mut last = 0;
    for _ in 0..atoms.len() {
        last = next_of(atoms, &reached);
        reached[last] = true;
    }
    Ok(last)
}
