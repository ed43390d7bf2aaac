//! Replacing a variable.
ghost use Rattle.std.specs.Prelude.{◌≡◌, IfOk, map};
ghost use Rattle.queries.specs.Changes.{changed, changed_atom, substituted};
ghost use Rattle.queries.specs.declared.unify.Change.TheVariants.{Put};

use crate::{Arg, Atom, Query};
use std::alloc::{AllocError, Global};
use vocabulary::{List, VarId};

impl Query {
    /// The query with the argument in each place of the variable, in the head too. The result is not
    /// in normal form.
    pub fn substitute(&self, alloc: Global, var: VarId, by: &Arg) -> Result<Query, AllocError>
        ensures { IfOk result (λ q. q ≡ substituted var by.now self.now) }
    {
        let head = replace_in_args(alloc, var, by, self.head.items())?;
        let atoms = replace_in_atoms(alloc, var, by, self.atoms.items())?;
        Ok(Query {
            head: List::from_vec(head),
            atoms: List::from_vec(atoms),
        })
    }
}

fn replace_in_args(
    alloc: Global,
    var: VarId,
    by: &Arg,
    args: &[Arg],
) -> Result<Vec<Arg>, AllocError>
    ensures { IfOk result (λ out. out.items ≡ map (changed (Put var by.now)) args.now) }
{
    let mut out = Vec::new(alloc);
    for x in args {
        out.push(replace(alloc, var, by, x)?)?;
    }
    Ok(out)
}

fn replace_in_atoms(
    alloc: Global,
    var: VarId,
    by: &Arg,
    atoms: &[Atom],
) -> Result<Vec<Atom>, AllocError>
    ensures { IfOk result (λ out. out.items ≡ map (changed_atom (Put var by.now)) atoms.now) }
{
    let mut out = Vec::new(alloc);
    for a in atoms {
        out.push(replace_in_atom(alloc, var, by, a)?)?;
    }
    Ok(out)
}

pub(crate) fn replace_in_atom(
    alloc: Global,
    var: VarId,
    by: &Arg,
    atom: &Atom,
) -> Result<Atom, AllocError>
    ensures { IfOk result (λ a. a ≡ changed_atom (Put var by.now) atom.now) }
{
    match atom {
        Atom::InClass(class, x) => Ok(Atom::InClass(*class, replace(alloc, var, by, x)?)),
        Atom::Linked(link, x, y) => {
            let first = replace(alloc, var, by, x)?;
            Ok(Atom::Linked(*link, first, replace(alloc, var, by, y)?))
        }
    }
}

pub(crate) fn replace(alloc: Global, var: VarId, by: &Arg, arg: &Arg) -> Result<Arg, AllocError>
    ensures { IfOk result (λ x. x ≡ changed (Put var by.now) arg.now) }
{
    match arg {
        Arg::Var(v) if v.0 == var.0 => by.copy(alloc),
        _ => arg.copy(alloc),
    }
}
