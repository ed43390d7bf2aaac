//! What is asked of the tables.
ghost use Rattle.std.specs.Prelude.{◌≡◌, ◌<◌, ◌-◌, ◌^◌, ◌++◌, ◌∷◌, [], length, IfOk};
ghost use Rattle.queries.specs.declared.query.Atom.TheVariants.{InClass};
ghost use Rattle.identification_check.specs.Asking.{members_query, value_atoms, value_vars, var};

use queries::{Arg, Atom, Query};
use std::alloc::{AllocError, Global};
use vocabulary::{ClassId, LinkId, List, VarId};

fn var(number: u32) -> Arg
    ensures { result ≡ var number }
{
    Arg::Var(VarId(number))
}

fn head(alloc: Global, links: &[LinkId]) -> Result<List<Arg>, AllocError>
    requires { length links.now < 2 ^ 32 - 1 }
    ensures { IfOk result (λ head. head ≡ value_vars 1 links.now ++ var 0 ∷ []) }
{
    let mut head = List::new(alloc);
    for at in 0..links.len() {
        head.push(var(at as u32 + 1))?;
    }
    head.push(var(0))?;
    Ok(head)
}

fn atoms(alloc: Global, class: ClassId, links: &[LinkId]) -> Result<List<Atom>, AllocError>
    requires { length links.now < 2 ^ 32 - 1 }
    ensures { IfOk result (λ atoms. atoms ≡ InClass class (var 0) ∷ value_atoms 1 links.now) }
{
    let mut atoms = List::new(alloc);
    atoms.push(Atom::InClass(class, var(0)))?;
    for (at, link) in links.iter().enumerate() {
        atoms.push(Atom::Linked(*link, var(0), var(at as u32 + 1)))?;
    }
    Ok(atoms)
}

/// The members of the class with their values: the values, and the member behind them.
pub(crate) fn members_query(
    alloc: Global,
    class: ClassId,
    links: &[LinkId],
) -> Result<Query, AllocError>
    requires { length links.now < 2 ^ 32 - 1 }
    ensures { IfOk result (λ query. query ≡ members_query class links.now) }
{
    let head = head(alloc, links)?;
    let atoms = atoms(alloc, class, links)?;
    Ok(Query { head, atoms })
}
