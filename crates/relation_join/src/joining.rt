//! Joining two lists of rows.
ghost use Rattle.std.specs.Prelude.{◌≡◌, ◌↔◌, ◌++◌, ℕ, List as ListOf, IfOk, OnOk};
ghost use Rattle.vocabulary.specs.Lists.{In};
ghost use Rattle.vocabulary.specs.declared.term.Term.{Term as TermOf};
ghost use Rattle.relation_join.specs.Joins.{AreOf, AreRows, Gains, IsJoined, IsListed, IsNumbered, IsRow, IsWith};
ghost use Rattle.relation_join.specs.Listed.{listed, rows_with};

use crate::index::Index;
use crate::ordering::{FEW, trim};
use crate::pairing::{Sides, add_pair};
use crate::value::{first_shared, value_of};
use std::alloc::{AllocError, Global};
use vocabulary::{List, Term, VarId};

// The tuples of one row with each of these.
fn add_all(
    alloc: Global,
    sides: &Sides,
    rows: &[List<Term>],
    other: &[Term],
    out: &mut Vec<List<Term>>,
) -> Result<(), AllocError>
    requires rows { AreRows sides.now.vars rows.now }
    requires other { IsRow sides.now.more other.now }
    requires head { AreOf (sides.now.vars ++ sides.now.more) sides.now.head }
    ensures { OnOk result (Gains (IsWith sides.now.vars sides.now.more sides.now.head rows.now other.now) out.old.items out.new.items) }
{
    for row in rows {
        add_pair(alloc, sides, row.items(), other, out)?;
    }
    Ok(())
}

// The tuple of one row with the row of this number.
fn add_numbered(
    alloc: Global,
    sides: &Sides,
    rows: &[List<Term>],
    number: usize,
    other: &[Term],
    out: &mut Vec<List<Term>>,
) -> Result<(), AllocError>
    requires rows { AreRows sides.now.vars rows.now }
    requires other { IsRow sides.now.more other.now }
    requires head { AreOf (sides.now.vars ++ sides.now.more) sides.now.head }
    ensures { OnOk result (Gains (IsNumbered sides.now.vars sides.now.more sides.now.head rows.now other.now number) out.old.items out.new.items) }
{
    match rows.get(number) {
        Some(row) => add_pair(alloc, sides, row.items(), other, out),
        None => Ok(()),
    }
}

// The tuples of one row with those of these numbers.
fn add_listed(
    alloc: Global,
    sides: &Sides,
    rows: &[List<Term>],
    numbers: &[usize],
    other: &[Term],
    out: &mut Vec<List<Term>>,
) -> Result<(), AllocError>
    requires rows { AreRows sides.now.vars rows.now }
    requires other { IsRow sides.now.more other.now }
    requires head { AreOf (sides.now.vars ++ sides.now.more) sides.now.head }
    ensures { OnOk result (Gains (IsListed sides.now.vars sides.now.more sides.now.head rows.now numbers.now other.now) out.old.items out.new.items) }
{
    for number in numbers {
        add_numbered(alloc, sides, rows, *number, other, out)?;
    }
    Ok(())
}

// The tuples of one row with those that fit, found by the term of a variable that both have.
fn add_tied(
    alloc: Global,
    sides: &Sides,
    rows: &[List<Term>],
    index: &Index,
    var: VarId,
    other: &[Term],
    out: &mut Vec<List<Term>>,
) -> Result<(), AllocError>
    requires rows { AreRows sides.now.vars rows.now }
    requires other { IsRow sides.now.more other.now }
    requires head { AreOf (sides.now.vars ++ sides.now.more) sides.now.head }
    requires first { In var sides.now.vars }
    requires second { In var sides.now.more }
    requires index { (text : ListOf ℕ) → listed index.now text ≡ rows_with sides.now.vars rows.now var text }
    ensures { OnOk result (Gains (IsWith sides.now.vars sides.now.more sides.now.head rows.now other.now) out.old.items out.new.items) }
{
    match value_of(sides.more.items(), other, var) {
        Some(term) => {
            let numbers = index.find(term.text().text());
            add_listed(alloc, sides, rows, numbers, other, out)
        }
        None => add_all(alloc, sides, rows, other, out),
    }
}

// The join by the term of a variable that both have.
fn join_tied(
    alloc: Global,
    sides: &Sides,
    rows: &[List<Term>],
    others: &[List<Term>],
    var: VarId,
) -> Result<Vec<List<Term>>, AllocError>
    requires rows { AreRows sides.now.vars rows.now }
    requires others { AreRows sides.now.more others.now }
    requires head { AreOf (sides.now.vars ++ sides.now.more) sides.now.head }
    requires first { In var sides.now.vars }
    requires second { In var sides.now.more }
    ensures { IfOk result (λ out. (ts : ListOf TermOf) → In ts out.items ↔ IsJoined sides.now.vars sides.now.more sides.now.head rows.now others.now ts) }
{
    let index = Index::build(alloc, sides.vars.items(), rows, var)?;
    let mut out = Vec::new(alloc);
    let mut most = FEW;
    for other in others {
        add_tied(alloc, sides, rows, &index, var, other.items(), &mut out)?;
        most = trim(&mut out, most)?;
    }
    Ok(out)
}

// The join of rows that have no variable together.
fn join_all(
    alloc: Global,
    sides: &Sides,
    rows: &[List<Term>],
    others: &[List<Term>],
) -> Result<Vec<List<Term>>, AllocError>
    requires rows { AreRows sides.now.vars rows.now }
    requires others { AreRows sides.now.more others.now }
    requires head { AreOf (sides.now.vars ++ sides.now.more) sides.now.head }
    ensures { IfOk result (λ out. (ts : ListOf TermOf) → In ts out.items ↔ IsJoined sides.now.vars sides.now.more sides.now.head rows.now others.now ts) }
{
    let mut out = Vec::new(alloc);
    let mut most = FEW;
    for other in others {
        add_all(alloc, sides, rows, other.items(), &mut out)?;
        most = trim(&mut out, most)?;
    }
    Ok(out)
}

/// The tuples of a row of each list that agree on the variables that both have. A tuple may come more
/// than once.
pub fn join(
    alloc: Global,
    sides: &Sides,
    rows: &[List<Term>],
    others: &[List<Term>],
) -> Result<Vec<List<Term>>, AllocError>
    requires rows { AreRows sides.now.vars rows.now }
    requires others { AreRows sides.now.more others.now }
    requires head { AreOf (sides.now.vars ++ sides.now.more) sides.now.head }
    ensures { IfOk result (λ out. (ts : ListOf TermOf) → In ts out.items ↔ IsJoined sides.now.vars sides.now.more sides.now.head rows.now others.now ts) }
{
    match first_shared(sides.vars.items(), sides.more.items()) {
        Some(var) => join_tied(alloc, sides, rows, others, var),
        None => join_all(alloc, sides, rows, others),
    }
}
