//! A query without what is asked of one fresh term.
ghost use Rattle.std.specs.Prelude.{◌≡◌, ◌<◌, ◌+◌, ◌-◌, ◌^◌, IfOk, length, option_map};
ghost use Rattle.perfect_rewriting.specs.Steps.{atom_of};
ghost use Rattle.fold_rewriting.specs.Places.{beside};
ghost use Rattle.fold_rewriting.specs.Cutting.{changed_query, cut_blank, cut_of, folded, joined, left_out, merged, taken_at, without};

use crate::atoms::{beside, has_var, parent_in};
use dllite_axioms::Basic;
use queries::{Arg, Atom, Change, Meeting, Query, meet};
use std::alloc::{AllocError, Global};
use vocabulary::{Dir, List, VarId};

/// A query without what is asked of a fresh term, and the argument that stands for its parent.
#[derive(Drop)]
pub(crate) struct Cut {
    pub query: Query,
    pub parent: Arg,
}

/// What is left where an argument of the atom of this number is folded. The argument beside it is
/// the parent of a Blank. `None` where the arguments beside a variable do not unify.
pub(crate) fn cut_of(
    alloc: Global,
    query: &Query,
    at: usize,
    atom: &Atom,
    end: Dir,
    arg: &Arg,
) -> Result<Option<Cut>, AllocError>
    requires { at < length query.now.atoms }
    ensures { IfOk result (λ cut. cut ≡ cut_of query.now at (beside atom.now end) arg.now) }
{
    match arg {
        Arg::Blank => Ok(Some(cut_blank(alloc, query, at, beside(alloc, atom, end)?)?)),
        Arg::Var(v) => cut_variable(alloc, query, *v),
        Arg::Fixed(_) => Ok(None),
    }
}

fn cut_blank(alloc: Global, query: &Query, at: usize, parent: Arg) -> Result<Cut, AllocError>
    requires { at < length query.now.atoms }
    ensures { IfOk result (λ cut. cut ≡ cut_blank query.now at parent) }
{
    let Query { head, atoms } = query.copy(alloc)?;
    let mut atoms = atoms.into_vec();
    atoms.remove(at);
    Ok(Cut {
        query: Query {
            head,
            atoms: List::from_vec(atoms),
        },
        parent,
    })
}

fn cut_variable(alloc: Global, query: &Query, v: VarId) -> Result<Option<Cut>, AllocError>
    ensures { IfOk result (λ cut. cut ≡ option_map (left_out v) (merged v query.now (length query.now.atoms))) }
{
    match merge(alloc, query, v)? {
        Some(cut) => Ok(Some(cut.left_out(alloc, v)?)),
        None => Ok(None),
    }
}

// Makes one of the arguments beside the variable, from left to right.
fn merge(alloc: Global, query: &Query, v: VarId) -> Result<Option<Cut>, AllocError>
    ensures { IfOk result (λ cut. cut ≡ merged v query.now (length query.now.atoms)) }
{
    let mut cut = Cut {
        query: query.copy(alloc)?,
        parent: Arg::Blank,
    };
    for at in 0..query.atoms.len() {
        match cut.take_in(alloc, v, at)? {
            Some(next) => cut = next,
            None => return Ok(None),
        }
    }
    Ok(Some(cut))
}

// The query with what is replaced, in the head too.
fn changed(alloc: Global, query: Query, change: Change) -> Result<Query, AllocError>
    ensures { IfOk result (λ q. q ≡ changed_query change query) }
{
    match change {
        Change::Keep => Ok(query),
        Change::Put(v, by) => query.substitute(alloc, v, &by),
    }
}

impl Cut {
    // The parent becomes one with the argument beside the variable in an atom, if there is one.
    fn take_in(self, alloc: Global, v: VarId, at: usize) -> Result<Option<Cut>, AllocError>
        requires { at < length self.query.atoms }
        ensures { IfOk result (λ cut. cut ≡ taken_at v at self) }
    {
        let meeting = match parent_in(v, &self.query.atoms.items()[at]) {
            Some(arg) => meet(alloc, &self.parent, arg)?,
            None => return Ok(Some(self)),
        };
        match meeting {
            Some(meeting) => Ok(Some(self.joined(alloc, meeting)?)),
            None => Ok(None),
        }
    }

    fn joined(self, alloc: Global, meeting: Meeting) -> Result<Cut, AllocError>
        ensures { IfOk result (λ cut. cut ≡ joined self meeting) }
    {
        let Cut { query, parent: _ } = self;
        let Meeting { change, arg } = meeting;
        Ok(Cut {
            query: changed(alloc, query, change)?,
            parent: arg,
        })
    }

    // The atoms of the variable go.
    fn left_out(self, alloc: Global, v: VarId) -> Result<Cut, AllocError>
        ensures { IfOk result (λ cut. cut ≡ left_out v self) }
    {
        let Cut { query, parent } = self;
        let Query { head, atoms } = query;
        let atoms = List::from_vec(without(alloc, v, atoms.items())?);
        Ok(Cut {
            query: Query { head, atoms },
            parent,
        })
    }

    /// The query that asks the left side of an axiom of the parent, in normal form.
    pub(crate) fn folded(&self, alloc: Global, left: Basic) -> Result<Query, AllocError>
        requires head { length self.now.query.head < 2 ^ 32 - 1 }
        requires atoms { length self.now.query.atoms + 1 < 2 ^ 32 - 1 }
        ensures { IfOk result (λ q. q ≡ folded self.now left) }
    {
        let Query { head, atoms } = self.query.copy(alloc)?;
        let mut atoms = atoms.into_vec();
        atoms.insert(0, asking(alloc, left, &self.parent)?)?;
        let query = Query {
            head,
            atoms: List::from_vec(atoms),
        };
        query.normal(alloc)
    }
}

fn without(alloc: Global, v: VarId, atoms: &[Atom]) -> Result<Vec<Atom>, AllocError>
    ensures { IfOk result (λ out. out.items ≡ without v atoms.now) }
{
    let mut out = Vec::new(alloc);
    for atom in atoms {
        if !has_var(v, atom) {
            out.push(atom.copy(alloc)?)?;
        }
    }
    Ok(out)
}

fn asking(alloc: Global, basic: Basic, arg: &Arg) -> Result<Atom, AllocError>
    ensures { IfOk result (λ atom. atom ≡ atom_of basic arg.now) }
{
    let near = arg.copy(alloc)?;
    match basic {
        Basic::Class(class) => Ok(Atom::InClass(class, near)),
        Basic::Has(link, Dir::Fwd) => Ok(Atom::Linked(link, near, Arg::Blank)),
        Basic::Has(link, Dir::Back) => Ok(Atom::Linked(link, Arg::Blank, near)),
    }
}
