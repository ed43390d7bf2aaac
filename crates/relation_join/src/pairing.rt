//! What a row of one list and a row of another give together.
ghost use Rattle.std.specs.Prelude.{◌≡◌, ◌↔◌, ◌++◌, IfOk, IsTrue, OnOk, map};
ghost use Rattle.queries.specs.Matches.{ArgIs, HeadIs, Terms};
ghost use Rattle.relation_join.specs.Joins.{AgreeAt, AreOf, Gains, IsOf, IsPair, IsRow};

use crate::value::value_of;
use queries::Arg;
use std::alloc::{AllocError, Global};
use vocabulary::{List, Term, VarId};

/// The variables of two lists of rows, and the head of what they give together.
#[derive(Drop)]
pub struct Sides {
    pub vars: List<VarId>,
    pub more: List<VarId>,
    pub head: List<Arg>,
}

fn agree_at(sides: &Sides, row: &[Term], other: &[Term], var: VarId) -> bool
    ensures { IsTrue result ↔ AgreeAt sides.now.vars sides.now.more row.now other.now var }
{
    match (
        value_of(sides.vars.items(), row, var),
        value_of(sides.more.items(), other, var),
    ) {
        (Some(one), Some(two)) => one.same(two),
        _ => true,
    }
}

// Whether the rows have the same terms where they have the same variables.
fn agree(sides: &Sides, row: &[Term], other: &[Term]) -> bool
    requires row { IsRow sides.now.vars row.now }
    requires other { IsRow sides.now.more other.now }
    ensures { IsTrue result ↔ ((σ : Terms) × (map σ sides.now.vars ≡ row.now) × (map σ sides.now.more ≡ other.now)) }
{
    for var in sides.more.items() {
        if !agree_at(sides, row, other, *var) {
            return false;
        }
    }
    true
}

fn value_in_one<'a>(sides: &Sides, row: &'a [Term], other: &'a [Term], var: VarId) -> &'a Term
    requires row { IsRow sides.now.vars row.now }
    requires other { IsRow sides.now.more other.now }
    requires stands { IsOf (sides.now.vars ++ sides.now.more) (Arg.Var var) }
    ensures { (σ : Terms) → map σ sides.now.vars ≡ row.now → map σ sides.now.more ≡ other.now → σ var ≡ result.now }
{
    match value_of(sides.vars.items(), row, var) {
        Some(found) => found,
        None => value_of(sides.more.items(), other, var).unwrap(),
    }
}

fn arg_term(
    alloc: Global,
    sides: &Sides,
    row: &[Term],
    other: &[Term],
    arg: &Arg,
) -> Result<Term, AllocError>
    requires row { IsRow sides.now.vars row.now }
    requires other { IsRow sides.now.more other.now }
    requires stands { IsOf (sides.now.vars ++ sides.now.more) arg.now }
    ensures { IfOk result (λ t. (σ : Terms) → map σ sides.now.vars ≡ row.now → map σ sides.now.more ≡ other.now → ArgIs σ arg.now t) }
{
    match arg {
        Arg::Blank => unreachable!(),
        Arg::Var(var) => value_in_one(sides, row, other, *var).copy(alloc),
        Arg::Fixed(term) => term.copy(alloc),
    }
}

fn head_of(
    alloc: Global,
    sides: &Sides,
    row: &[Term],
    other: &[Term],
) -> Result<List<Term>, AllocError>
    requires row { IsRow sides.now.vars row.now }
    requires other { IsRow sides.now.more other.now }
    requires head { AreOf (sides.now.vars ++ sides.now.more) sides.now.head }
    ensures { IfOk result (λ ts. (σ : Terms) → map σ sides.now.vars ≡ row.now → map σ sides.now.more ≡ other.now → HeadIs σ sides.now.head ts) }
{
    let mut terms = List::from_vec(Vec::with_capacity(alloc, sides.head.len())?);
    for arg in sides.head.items() {
        terms.push(arg_term(alloc, sides, row, other, arg)?)?;
    }
    Ok(terms)
}

/// Adds the tuple of the two rows, if they agree.
pub(crate) fn add_pair(
    alloc: Global,
    sides: &Sides,
    row: &[Term],
    other: &[Term],
    out: &mut Vec<List<Term>>,
) -> Result<(), AllocError>
    requires row { IsRow sides.now.vars row.now }
    requires other { IsRow sides.now.more other.now }
    requires head { AreOf (sides.now.vars ++ sides.now.more) sides.now.head }
    ensures { OnOk result (Gains (IsPair sides.now.vars sides.now.more sides.now.head row.now other.now) out.old.items out.new.items) }
{
    if agree(sides, row, other) {
        out.push(head_of(alloc, sides, row, other)?)?;
    }
    Ok(())
}
