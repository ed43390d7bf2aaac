//! Classes and links that may be void, and proofs that they are.
use vocabulary::{ClassId, LinkId, List};

/// A class or a link of a model.
#[derive(Clone, Copy, Debug)]
pub enum Void {
    Class(ClassId),
    Link(LinkId),
}

/// A proof that an element is void: from one fact of it the axioms lead to two facts that a
/// constraint forbids. All numbers count from 1.
#[derive(Debug, Drop)]
pub struct VoidProof {
    /// The element. Step 1 is one fact of it, of made-up objects.
    pub what: Void,
    /// The number of the constraint.
    pub constraint: u32,
    /// Each further step applies the axiom of the first number to an earlier step, of the second.
    pub rules: List<(u32, u32)>,
    /// The two steps whose facts clash, in this order.
    pub first: u32,
    pub second: u32,
}
