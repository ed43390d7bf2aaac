//! The normal form.
ghost use Rattle.std.specs.Prelude.{◌≡◌, ◌<◌, ◌-◌, ◌^◌, IfOk, IfSome, OnOk, length, position};
ghost use Rattle.queries.specs.Normal.{in_order, normal_form, put_in, settled};
ghost use Rattle.queries.specs.Order.{atom_le};

use crate::query::{copy_args, copy_atoms};
use crate::tidy::tidy;
use crate::{Arg, Atom, Query};
use std::alloc::{AllocError, Global};
use vocabulary::List;

impl Query {
    /// The normal form: variables that are not in the head and stand once become Blank and repeated
    /// atoms go, until nothing changes; then the atoms are put in order. Variables keep their
    /// numbers.
    pub fn normal(&self, alloc: Global) -> Result<Query, AllocError>
        requires head { length self.now.head < 2 ^ 32 - 1 }
        requires atoms { length self.now.atoms < 2 ^ 32 - 1 }
        ensures { IfOk result (λ q. q ≡ normal_form self.now) }
    {
        let head = copy_args(alloc, self.head.items())?;
        let settled = settle(alloc, self.head.items(), self.atoms.items())?;
        let atoms = sorted(alloc, settled)?;
        Ok(Query {
            head: List::from_vec(head),
            atoms: List::from_vec(atoms),
        })
    }
}

// A round that removes no atom is the last that changes anything.
fn settle(alloc: Global, head: &[Arg], atoms: &[Atom]) -> Result<Vec<Atom>, AllocError>
    requires head { length head.now < 2 ^ 32 }
    requires atoms { length atoms.now < 2 ^ 32 }
    ensures { IfOk result (λ out. out.items ≡ settled head.now atoms.now) }
{
    let mut current = copy_atoms(alloc, atoms)?;
    loop {
        let next = tidy(alloc, head, current.as_slice())?;
        if next.len() == current.len() {
            return Ok(next);
        }
        current = next;
    }
}

fn sorted(alloc: Global, mut atoms: Vec<Atom>) -> Result<Vec<Atom>, AllocError>
    ensures { IfOk result (λ out. out.items ≡ in_order atoms.items) }
{
    let mut out = Vec::new(alloc);
    while let Some(atom) = atoms.pop() {
        place(&mut out, atom)?;
    }
    Ok(out)
}

fn place(atoms: &mut Vec<Atom>, atom: Atom) -> Result<(), AllocError>
    ensures { OnOk result (atoms.new.items ≡ put_in atom atoms.old.items) }
{
    match first_not_less(atoms.as_slice(), &atom) {
        Some(at) => atoms.insert(at, atom)?,
        None => atoms.push(atom)?,
    }
    Ok(())
}

fn first_not_less(atoms: &[Atom], atom: &Atom) -> Option<usize>
    ensures value { result ≡ position (atom_le atom.now) atoms.now }
    ensures bound { IfSome result (λ at. at < length atoms.now) }
{
    atoms.iter().position(|other| atom.compare(other).is_le())
}
