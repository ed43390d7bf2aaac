//! Where arguments stand in atoms.
ghost use Rattle.std.specs.Prelude.{◌≡◌, ◌≤◌, IfOk, length, take};
ghost use Rattle.std.specs.List.{list_any};
ghost use Rattle.std.specs.Option.{option_copied};
ghost use Rattle.fold_rewriting.specs.Cutting.{has_var, is_free, is_var, parent_in};
ghost use Rattle.fold_rewriting.specs.Places.{arg_at, beside};

use queries::{Arg, Atom, Query};
use std::alloc::{AllocError, Global};
use vocabulary::{Dir, VarId};

/// The argument at an end of an atom: of a link its second for `Fwd`, its first for `Back`.
pub(crate) fn arg_at(atom: &Atom, end: Dir) -> Option<&Arg>
    ensures { option_copied result ≡ arg_at atom.now end }
{
    match (atom, end) {
        (Atom::InClass(_, x), Dir::Fwd) => Some(x),
        (Atom::InClass(_, _), Dir::Back) => None,
        (Atom::Linked(_, _, y), Dir::Fwd) => Some(y),
        (Atom::Linked(_, x, _), Dir::Back) => Some(x),
    }
}

/// The argument at the other end, a Blank for a class.
pub(crate) fn beside(alloc: Global, atom: &Atom, end: Dir) -> Result<Arg, AllocError>
    ensures { IfOk result (λ arg. arg ≡ beside atom.now end) }
{
    match (atom, end) {
        (Atom::InClass(_, _), _) => Ok(Arg::Blank),
        (Atom::Linked(_, x, _), Dir::Fwd) => x.copy(alloc),
        (Atom::Linked(_, _, y), Dir::Back) => y.copy(alloc),
    }
}

pub(crate) fn is_var(v: VarId, arg: &Arg) -> bool
    ensures { result ≡ is_var v arg.now }
{
    match arg {
        Arg::Var(w) => w.0 == v.0,
        _ => false,
    }
}

pub(crate) fn has_var(v: VarId, atom: &Atom) -> bool
    ensures { result ≡ has_var v atom.now }
{
    match atom {
        Atom::InClass(_, x) => is_var(v, x),
        Atom::Linked(_, x, y) => is_var(v, x) || is_var(v, y),
    }
}

/// The argument beside a variable that stands at one end of a link, and not at both.
pub(crate) fn parent_in(v: VarId, atom: &Atom) -> Option<&Arg>
    ensures { option_copied result ≡ parent_in v atom.now }
{
    match atom {
        Atom::InClass(_, _) => None,
        Atom::Linked(_, x, y) => match (is_var(v, x), is_var(v, y)) {
            (true, false) => Some(y),
            (false, true) => Some(x),
            _ => None,
        },
    }
}

/// Whether the argument, at the atom of this number, is a Blank or a variable that is neither in the
/// head nor in an atom before.
pub(crate) fn is_free(query: &Query, at: usize, arg: &Arg) -> bool
    requires { at ≤ length query.now.atoms }
    ensures { result ≡ is_free query.now at arg.now }
{
    match arg {
        Arg::Blank => true,
        Arg::Var(v) => !stands_in_head(*v, query) && !stands_before(*v, query, at),
        Arg::Fixed(_) => false,
    }
}

fn stands_in_head(v: VarId, query: &Query) -> bool
    ensures { result ≡ list_any (is_var v) query.now.head }
{
    query.head.items().iter().any(|x| is_var(v, x))
}

fn stands_before(v: VarId, query: &Query, at: usize) -> bool
    requires { at ≤ length query.now.atoms }
    ensures { result ≡ list_any (has_var v) (take at query.now.atoms) }
{
    query.atoms.items()[..at]
        .iter()
        .any(|atom| has_var(v, atom))
}
