//! Arguments, atoms and queries.
ghost use Rattle.std.specs.Prelude.{◌≡◌, ◌↔◌, IfOk, IsTrue};

use std::alloc::{AllocError, Global};
use vocabulary::{ClassId, LinkId, List, Term, VarId};

/// An argument of an atom, or a place of the head.
#[derive(Debug, Drop)]
pub enum Arg {
    /// A variable of its own that stands nowhere else.
    Blank,
    Var(VarId),
    /// A constant, which is a known term.
    Fixed(Term),
}

/// A class at an argument, or a link at two.
#[derive(Debug, Drop)]
pub enum Atom {
    InClass(ClassId, Arg),
    Linked(LinkId, Arg, Arg),
}

/// A conjunctive query: its answers are the images of the head under the matches of the atoms.
#[derive(Debug, Drop)]
pub struct Query {
    pub head: List<Arg>,
    pub atoms: List<Atom>,
}

impl Arg {
    pub fn copy(&self, alloc: Global) -> Result<Arg, AllocError>
        ensures { IfOk result (λ x. x ≡ self.now) }
    {
        match self {
            Arg::Blank => Ok(Arg::Blank),
            Arg::Var(v) => Ok(Arg::Var(*v)),
            Arg::Fixed(t) => Ok(Arg::Fixed(t.copy(alloc)?)),
        }
    }
}

impl Atom {
    pub fn copy(&self, alloc: Global) -> Result<Atom, AllocError>
        ensures { IfOk result (λ a. a ≡ self.now) }
    {
        match self {
            Atom::InClass(class, x) => Ok(Atom::InClass(*class, x.copy(alloc)?)),
            Atom::Linked(link, x, y) => {
                let first = x.copy(alloc)?;
                Ok(Atom::Linked(*link, first, y.copy(alloc)?))
            }
        }
    }
}

impl Query {
    pub fn copy(&self, alloc: Global) -> Result<Query, AllocError>
        ensures { IfOk result (λ q. q ≡ self.now) }
    {
        let head = copy_args(alloc, self.head.items())?;
        let atoms = copy_atoms(alloc, self.atoms.items())?;
        Ok(Query {
            head: List::from_vec(head),
            atoms: List::from_vec(atoms),
        })
    }
}

pub(crate) fn copy_args(alloc: Global, args: &[Arg]) -> Result<Vec<Arg>, AllocError>
    ensures { IfOk result (λ out. out.items ≡ args.now) }
{
    let mut out = Vec::new(alloc);
    for x in args {
        out.push(x.copy(alloc)?)?;
    }
    Ok(out)
}

pub(crate) fn copy_atoms(alloc: Global, atoms: &[Atom]) -> Result<Vec<Atom>, AllocError>
    ensures { IfOk result (λ out. out.items ≡ atoms.now) }
{
    let mut out = Vec::new(alloc);
    for a in atoms {
        out.push(a.copy(alloc)?)?;
    }
    Ok(out)
}
