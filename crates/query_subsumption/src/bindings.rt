//! What the numbers of a query are bound to while a search goes on.
ghost use Rattle.std.specs.Prelude.{◌≡◌, ◌≢◌, ◌↔◌, IfNone, IfOk, IfSome, IsTrue, map};
ghost use Rattle.vocabulary.specs.Lists.{In};
ghost use Rattle.query_subsumption.specs.declared.bindings.Binding.{Binding};
ghost use Rattle.query_subsumption.specs.Numbered.{as_arg, as_atom};
ghost use Rattle.query_subsumption.specs.Search.{Agrees, Solves};
ghost use Rattle.query_subsumption.specs.Subsumption.{Replacement, arg_image, atom_image};

use crate::numbering::{Node, Shape};
use std::alloc::{AllocError, Global};

/// A number and its image. There is one image for each number.
#[derive(Debug, Drop)]
pub(crate) struct Binding {
    pub(crate) number: usize,
    pub(crate) image: Node,
}

pub(crate) fn copy_bindings(alloc: Global, bindings: &[Binding]) -> Result<Vec<Binding>, AllocError>
    ensures { IfOk result (λ out. out.items ≡ bindings.now) }
{
    let mut out = Vec::new(alloc);
    for b in bindings {
        out.push(copy_binding(alloc, b)?)?;
    }
    Ok(out)
}

fn copy_binding(alloc: Global, binding: &Binding) -> Result<Binding, AllocError>
    ensures { IfOk result (λ b. b ≡ binding.now) }
{
    let image = copy_node(alloc, &binding.image)?;
    Ok(Binding {
        number: binding.number,
        image,
    })
}

fn copy_node(alloc: Global, node: &Node) -> Result<Node, AllocError>
    ensures { IfOk result (λ x. x ≡ node.now) }
{
    match node {
        Node::Numbered(n) => Ok(Node::Numbered(*n)),
        Node::Constant(t) => Ok(Node::Constant(t.copy(alloc)?)),
    }
}

fn same_node(x: &Node, y: &Node) -> bool
    ensures { IsTrue result ↔ (as_arg x.now ≡ as_arg y.now) }
{
    match (x, y) {
        (Node::Numbered(m), Node::Numbered(n)) => *m == *n,
        (Node::Constant(t), Node::Constant(u)) => t.same(u),
        _ => false,
    }
}

// Whether a bound number has this image; None for a number that is not bound.
fn known(bindings: &[Binding], number: usize, image: &Node) -> Option<bool>
    ensures bound { IfSome result (λ same. (θ : Replacement) → Agrees θ bindings.now → IsTrue same ↔ (θ (record { 0 = number }) ≡ as_arg image.now)) }
    ensures unbound { IfNone result ((b : Binding) → In b bindings.now → b.number ≢ number) }
{
    for b in bindings {
        if b.number == number {
            return Some(same_node(&b.image, image));
        }
    }
    None
}

fn bind(
    alloc: Global,
    bindings: &mut Vec<Binding>,
    number: usize,
    image: &Node,
) -> Result<bool, AllocError>
    ensures { IfOk result (Solves (λ θ. θ (record { 0 = number }) ≡ as_arg image.now) bindings.old.items bindings.new.items) }
{
    match known(bindings.as_slice(), number, image) {
        Some(same) => Ok(same),
        None => {
            let image = copy_node(alloc, image)?;
            bindings.push(Binding { number, image })?;
            Ok(true)
        }
    }
}

fn send(
    alloc: Global,
    bindings: &mut Vec<Binding>,
    from: &Node,
    to: &Node,
) -> Result<bool, AllocError>
    ensures { IfOk result (Solves (λ θ. arg_image θ (as_arg from.now) ≡ as_arg to.now) bindings.old.items bindings.new.items) }
{
    match from {
        Node::Numbered(n) => bind(alloc, bindings, *n, to),
        Node::Constant(_) => Ok(same_node(from, to)),
    }
}

fn send_two(
    alloc: Global,
    bindings: &mut Vec<Binding>,
    x: &Node,
    to_x: &Node,
    y: &Node,
    to_y: &Node,
) -> Result<bool, AllocError>
    ensures { IfOk result (Solves (λ θ. (arg_image θ (as_arg x.now) ≡ as_arg to_x.now) × (arg_image θ (as_arg y.now) ≡ as_arg to_y.now)) bindings.old.items bindings.new.items) }
{
    if !send(alloc, bindings, x, to_x)? {
        return Ok(false);
    }
    send(alloc, bindings, y, to_y)
}

/// Binds what must be bound so that an atom goes to another, or answers that it can not.
pub(crate) fn send_atom(
    alloc: Global,
    bindings: &mut Vec<Binding>,
    from: &Shape,
    to: &Shape,
) -> Result<bool, AllocError>
    ensures { IfOk result (Solves (λ θ. atom_image θ (as_atom from.now) ≡ as_atom to.now) bindings.old.items bindings.new.items) }
{
    match (from, to) {
        (Shape::InClass(a, x), Shape::InClass(b, y)) => {
            if a.0 != b.0 {
                return Ok(false);
            }
            send(alloc, bindings, x, y)
        }
        (Shape::Linked(p, x, y), Shape::Linked(q, z, w)) => {
            if p.0 != q.0 {
                return Ok(false);
            }
            send_two(alloc, bindings, x, z, y, w)
        }
        _ => Ok(false),
    }
}

/// The same for heads, place by place.
pub(crate) fn send_head(
    alloc: Global,
    bindings: &mut Vec<Binding>,
    from: &[Node],
    to: &[Node],
) -> Result<bool, AllocError>
    ensures { IfOk result (Solves (λ θ. map (arg_image θ) (map as_arg from.now) ≡ map as_arg to.now) bindings.old.items bindings.new.items) }
{
    if from.len() != to.len() {
        return Ok(false);
    }
    for at in 0..from.len() {
        if !send(alloc, bindings, &from[at], &to[at])? {
            return Ok(false);
        }
    }
    Ok(true)
}
