//! The search for atoms to which those of a query can go.
ghost use Rattle.std.specs.Prelude.{◌≡◌, ◌∷◌, ℕ, ◌<◌, ◌≤◌, ◌^◌, IfNone, IfOk, IfSome, Some, length, map, slice_get};
ghost use Rattle.query_subsumption.specs.Images.{told};
ghost use Rattle.query_subsumption.specs.Numbered.{as_arg, as_atom, as_query};
ghost use Rattle.query_subsumption.specs.Search.{Fails, FailsAt, Finds, Found, reading};
ghost use Rattle.vocabulary.specs.Lists.{In};
ghost use Rattle.query_subsumption.specs.Subsumption.{IsMapping, Replacement};

use crate::bindings::{Binding, copy_bindings, send_atom, send_head};
use crate::numbering::{Node, Numbered, Shape};
use queries::Arg;
use std::alloc::{AllocError, Global};
use vocabulary::VarId;

/// The bindings under which one query goes into another.
pub(crate) fn find(
    alloc: Global,
    from: &Numbered,
    to: &Numbered,
) -> Result<Option<Vec<Binding>>, AllocError>
    ensures none { IfOk result (λ found. IfNone found ((θ : Replacement) → IsMapping θ (as_query from.now) (as_query to.now) → ⊥)) }
    ensures some { IfOk result (λ found. IfSome found (λ new. Found (as_query from.now) (as_query to.now) new.items)) }
{
    let mut start = Vec::new(alloc);
    if !send_head(alloc, &mut start, from.head.as_slice(), to.head.as_slice())? {
        return Ok(None);
    }
    search(
        alloc,
        from.atoms.as_slice(),
        to.atoms.as_slice(),
        start.as_slice(),
    )
}

// The first atom is tried at each target, and with it the rest.
#[cycle(search)]
fn search(
    alloc: Global,
    general: &[Shape],
    special: &[Shape],
    bindings: &[Binding],
) -> Result<Option<Vec<Binding>>, AllocError>
    ensures none { IfOk result (λ found. IfNone found (Fails (map as_atom general.now) (map as_atom special.now) bindings.now)) }
    ensures some { IfOk result (λ found. IfSome found (λ new. Finds (map as_atom general.now) (map as_atom special.now) bindings.now new.items)) }
{
    let Some((first, rest)) = general.split_first() else {
        return Ok(Some(copy_bindings(alloc, bindings)?));
    };
    for target in special {
        if let Some(found) = attempt(alloc, first, target, rest, special, bindings)? {
            return Ok(Some(found));
        }
    }
    Ok(None)
}

#[cycle(search)]
fn attempt(
    alloc: Global,
    first: &Shape,
    target: &Shape,
    rest: &[Shape],
    special: &[Shape],
    bindings: &[Binding],
) -> Result<Option<Vec<Binding>>, AllocError>
    ensures none { IfOk result (λ found. IfNone found (FailsAt (as_atom first.now) (as_atom target.now) (map as_atom rest.now) (map as_atom special.now) bindings.now)) }
    ensures some { IfOk result (λ found. IfSome found (λ new. In (as_atom target.now) (map as_atom special.now) → Finds (as_atom first.now ∷ map as_atom rest.now) (map as_atom special.now) bindings.now new.items)) }
{
    let mut next = copy_bindings(alloc, bindings)?;
    if !send_atom(alloc, &mut next, first, target)? {
        return Ok(None);
    }
    search(alloc, rest, special, next.as_slice())
}

/// The images of the numbers from 0 on, as they are told.
pub(crate) fn images(
    alloc: Global,
    bindings: &[Binding],
    end: usize,
    blanks_from: usize,
) -> Result<Vec<Arg>, AllocError>
    requires { blanks_from ≤ 2 ^ 32 }
    ensures count { IfOk result (λ out. length out.items ≡ end) }
    ensures each { IfOk result (λ out. (n : ℕ) → n < end → slice_get out.items n ≡ Some (told blanks_from (reading bindings.now (record { 0 = n })))) }
{
    let mut out = Vec::new(alloc);
    for number in 0..end {
        out.push(image_of(alloc, bindings, number, blanks_from)?)?;
    }
    Ok(out)
}

fn image_of(
    alloc: Global,
    bindings: &[Binding],
    number: usize,
    blanks_from: usize,
) -> Result<Arg, AllocError>
    requires { blanks_from ≤ 2 ^ 32 }
    ensures { IfOk result (λ x. x ≡ told blanks_from (reading bindings.now (record { 0 = number }))) }
{
    for b in bindings {
        if b.number == number {
            return tell(alloc, &b.image, blanks_from);
        }
    }
    Ok(Arg::Blank)
}

fn tell(alloc: Global, node: &Node, blanks_from: usize) -> Result<Arg, AllocError>
    requires { blanks_from ≤ 2 ^ 32 }
    ensures { IfOk result (λ x. x ≡ told blanks_from (as_arg node.now)) }
{
    match node {
        Node::Numbered(n) => {
            if *n < blanks_from {
                Ok(Arg::Var(VarId(*n as u32)))
            } else {
                Ok(Arg::Blank)
            }
        }
        Node::Constant(t) => Ok(Arg::Fixed(t.copy(alloc)?)),
    }
}
