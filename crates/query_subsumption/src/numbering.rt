//! Queries in which each Blank is a variable of its own.
ghost use Rattle.std.specs.Prelude.{◌≡◌, ◌+◌, ◌≤◌, ◌<◌, ◌^◌, ◌*◌, IfOk, length, map};
ghost use Rattle.query_subsumption.specs.Images.{blanks_in_atoms};
ghost use Rattle.query_subsumption.specs.Numbered.{IsNumbered, as_arg, as_atom};
ghost use Rattle.query_subsumption.specs.Subsumption.{apart_arg, apart_args, apart_atom, apart_atoms, blanks_in_arg, blanks_in_args, blanks_in_atom, first_free, past_arg, past_args, past_atom, past_atoms};

use queries::{Arg, Atom, Query};
use std::alloc::{AllocError, Global};
use vocabulary::{ClassId, LinkId, Term};

/// An argument, with a number for each variable and each Blank. There can be more numbers than a
/// `VarId` has.
#[derive(Debug, Drop)]
pub(crate) enum Node {
    Numbered(usize),
    Constant(Term),
}

#[derive(Debug, Drop)]
pub(crate) enum Shape {
    InClass(ClassId, Node),
    Linked(LinkId, Node, Node),
}

/// A query with its numbers: its variables have theirs, and those of the Blanks follow.
#[derive(Debug, Drop)]
pub(crate) struct Numbered {
    pub(crate) head: Vec<Node>,
    pub(crate) atoms: Vec<Shape>,
    /// The number of the first Blank.
    pub(crate) blanks_from: usize,
    /// One more than the last number.
    pub(crate) end: usize,
}

impl Numbered {
    pub(crate) fn of(alloc: Global, query: &Query) -> Result<Numbered, AllocError>
        ensures { IfOk result (IsNumbered query.now) }
    {
        let blanks_from = first_free(query);
        let atoms_from = blanks_from + blanks_of_args(query.head.items());
        let head = nodes(alloc, query.head.items(), blanks_from)?;
        let atoms = shapes(alloc, query.atoms.items(), atoms_from)?;
        Ok(Numbered {
            head,
            atoms,
            blanks_from,
            end: atoms_from + blanks_of_atoms(query.atoms.items()),
        })
    }
}

fn first_free(query: &Query) -> usize
    ensures value { result ≡ first_free query.now }
    ensures small { result ≤ 2 ^ 32 }
{
    past_args(query.head.items()).max(past_atoms(query.atoms.items()))
}

fn past_args(args: &[Arg]) -> usize
    ensures value { result ≡ past_args args.now }
    ensures small { result ≤ 2 ^ 32 }
{
    let mut past = 0;
    for x in args {
        past = past.max(past_arg(x));
    }
    past
}

fn past_atoms(atoms: &[Atom]) -> usize
    ensures value { result ≡ past_atoms atoms.now }
    ensures small { result ≤ 2 ^ 32 }
{
    let mut past = 0;
    for a in atoms {
        past = past.max(past_atom(a));
    }
    past
}

fn past_atom(atom: &Atom) -> usize
    ensures value { result ≡ past_atom atom.now }
    ensures small { result ≤ 2 ^ 32 }
{
    match atom {
        Atom::InClass(_, x) => past_arg(x),
        Atom::Linked(_, x, y) => past_arg(x).max(past_arg(y)),
    }
}

fn past_arg(arg: &Arg) -> usize
    ensures value { result ≡ past_arg arg.now }
    ensures small { result ≤ 2 ^ 32 }
{
    match arg {
        Arg::Var(v) => v.0 as usize + 1,
        _ => 0,
    }
}

fn blanks_of_args(args: &[Arg]) -> usize
    ensures value { result ≡ blanks_in_args args.now }
    ensures small { result ≤ length args.now }
{
    let mut blanks = 0;
    for x in args {
        blanks += blanks_of_arg(x);
    }
    blanks
}

fn blanks_of_atoms(atoms: &[Atom]) -> usize
    ensures value { result ≡ blanks_in_atoms atoms.now }
    ensures small { result ≤ 2 * length atoms.now }
{
    let mut blanks = 0;
    for a in atoms {
        blanks += blanks_of_atom(a);
    }
    blanks
}

fn blanks_of_atom(atom: &Atom) -> usize
    ensures value { result ≡ blanks_in_atom atom.now }
    ensures small { result ≤ 2 }
{
    match atom {
        Atom::InClass(_, x) => blanks_of_arg(x),
        Atom::Linked(_, x, y) => blanks_of_arg(x) + blanks_of_arg(y),
    }
}

fn blanks_of_arg(arg: &Arg) -> usize
    ensures value { result ≡ blanks_in_arg arg.now }
    ensures small { result ≤ 1 }
{
    match arg {
        Arg::Blank => 1,
        _ => 0,
    }
}

fn nodes(alloc: Global, args: &[Arg], from: usize) -> Result<Vec<Node>, AllocError>
    requires { from + length args.now < 2 ^ 64 }
    ensures { IfOk result (λ out. map as_arg out.items ≡ apart_args from args.now) }
{
    let mut out = Vec::new(alloc);
    let mut next = from;
    for x in args {
        out.push(node_of(alloc, x, next)?)?;
        next += blanks_of_arg(x);
    }
    Ok(out)
}

fn shapes(alloc: Global, atoms: &[Atom], from: usize) -> Result<Vec<Shape>, AllocError>
    requires { from + 2 * length atoms.now < 2 ^ 64 }
    ensures { IfOk result (λ out. map as_atom out.items ≡ apart_atoms from atoms.now) }
{
    let mut out = Vec::new(alloc);
    let mut next = from;
    for a in atoms {
        out.push(shape_of(alloc, a, next)?)?;
        next += blanks_of_atom(a);
    }
    Ok(out)
}

fn shape_of(alloc: Global, atom: &Atom, from: usize) -> Result<Shape, AllocError>
    requires { from + 2 < 2 ^ 64 }
    ensures { IfOk result (λ a. as_atom a ≡ apart_atom from atom.now) }
{
    match atom {
        Atom::InClass(class, x) => Ok(Shape::InClass(*class, node_of(alloc, x, from)?)),
        Atom::Linked(link, x, y) => {
            let first = node_of(alloc, x, from)?;
            let second = node_of(alloc, y, from + blanks_of_arg(x))?;
            Ok(Shape::Linked(*link, first, second))
        }
    }
}

fn node_of(alloc: Global, arg: &Arg, number: usize) -> Result<Node, AllocError>
    ensures { IfOk result (λ x. as_arg x ≡ apart_arg number arg.now) }
{
    match arg {
        Arg::Blank => Ok(Node::Numbered(number)),
        Arg::Var(v) => Ok(Node::Numbered(v.0 as usize)),
        Arg::Fixed(t) => Ok(Node::Constant(t.copy(alloc)?)),
    }
}
