//! Finding one tuple of a row query.
ghost use Rattle.std.specs.Prelude.{◌≡◌, ◌≤◌, [], length, IfOk, MatchOption, OnOk};
ghost use Rattle.vocabulary.specs.Lists.{In};
ghost use Rattle.mapping_facts.specs.Fits.{RowQueryFits};
ghost use Rattle.mapping_facts.specs.RowQueries.{row_tuples};
ghost use Rattle.join_engine.specs.Fronts.{IsFoundBehind};
ghost use Rattle.join_engine.specs.Heads.{IsSome};
ghost use Rattle.join_engine.specs.Indexes.{AreOf};
ghost use Rattle.join_engine.specs.Orders.{IsReordering};
ghost use Rattle.join_engine.specs.Ties.{ArePlanned};

use crate::choosing::{Plan, choices_of, next_rows, plan_by};
use crate::joining::{is_asked, is_cut};
use crate::ordering::{Numbering, new_order};
use crate::parting::settle_parts;
use crate::reordering::pick;
use crate::sharing::Indexes;
use mapping_facts::RowQuery;
use source_tables::Table;
use std::alloc::{AllocError, Global};
use table_renumbering::renumber;
use vocabulary::List;

// Puts rows behind these, up to a tuple that is asked for, if there is one; else leaves them.
pub(crate) fn find_behind(
    alloc: Global,
    query: &RowQuery,
    tables: &[Table],
    plan: &Plan<'_>,
    front: &mut Vec<u32>,
) -> Result<bool, AllocError>
    requires fits { RowQueryFits query.now }
    requires planned { ArePlanned tables.now query.now.query plan.now }
    requires within { length front.old.items ≤ length query.now.query.tables }
    ensures { IfOk result (λ found. IsFoundBehind tables.now query.now front.old.items front.new.items found) }
{
    let depth = front.len();
    if is_cut(&query.query, tables, front.as_slice()) {
        return Ok(false);
    }
    if depth == query.query.tables.len() {
        return is_asked(alloc, query, tables, front.as_slice());
    }
    let rows = next_rows(plan, &query.query, tables, front.as_slice());
    for i in 0..rows.len() {
        front.push(rows.at(i))?;
        if find_behind(alloc, query, tables, plan, front)? {
            return Ok(true);
        }
        front.truncate(depth);
    }
    Ok(false)
}

fn some_in_order(
    alloc: Global,
    query: &RowQuery,
    tables: &[Table],
    indexes: &mut Indexes,
) -> Result<Option<List<u32>>, AllocError>
    requires fits { RowQueryFits query.now }
    requires indexes { AreOf tables.now indexes.old }
    ensures found { IfOk result (IsSome tables.now query.now) }
    ensures indexes { OnOk result (AreOf tables.now indexes.new) }
{
    let choices = choices_of(alloc, &query.query, tables, indexes)?;
    let plan = plan_by(choices, indexes);
    let mut front = Vec::new(alloc);
    if !settle_parts(alloc, query, tables, &plan, &mut front)? {
        return Ok(None);
    }
    if !find_behind(alloc, query, tables, &plan, &mut front)? {
        return Ok(None);
    }
    Ok(Some(List::from_vec(front)))
}

fn some_reordered(
    alloc: Global,
    query: &RowQuery,
    numbering: &Numbering,
    tables: &[Table],
    indexes: &mut Indexes,
) -> Result<Option<List<u32>>, AllocError>
    requires fits { RowQueryFits query.now }
    requires indexes { AreOf tables.now indexes.old }
    requires numbering { IsReordering (length query.now.query.tables) numbering.now.order.items numbering.now.places.items }
    ensures found { IfOk result (IsSome tables.now query.now) }
    ensures indexes { OnOk result (AreOf tables.now indexes.new) }
{
    let places = numbering.places.as_slice();
    let moved = renumber(alloc, query, numbering.order.as_slice(), places)?;
    match some_in_order(alloc, &moved, tables, indexes)? {
        Some(tuple) => Ok(Some(pick(alloc, places, tuple.items())?)),
        None => Ok(None),
    }
}

/// Some tuple that a row query asks for, `None` exactly where there is none. It looks no further than to the first:
/// what it takes is a pass over the rows for each table and index, and the fronts that it tries.
pub fn some_tuple(
    alloc: Global,
    query: &RowQuery,
    tables: &[Table],
) -> Result<Option<List<u32>>, AllocError>
    requires fits { RowQueryFits query.now }
    ensures { IfOk result (λ found. MatchOption found (row_tuples tables.now query.now ≡ []) (λ tuple. In tuple (row_tuples tables.now query.now))) }
{
    let mut indexes = Indexes::new(alloc);
    some_tuple_by(alloc, query, tables, &mut indexes)
}

/// The same by indexes that are there, and those that it lacks are made: for a number of queries over the same tables.
pub fn some_tuple_by(
    alloc: Global,
    query: &RowQuery,
    tables: &[Table],
    indexes: &mut Indexes,
) -> Result<Option<List<u32>>, AllocError>
    requires fits { RowQueryFits query.now }
    requires indexes { AreOf tables.now indexes.old }
    ensures found { IfOk result (λ found. MatchOption found (row_tuples tables.now query.now ≡ []) (λ tuple. In tuple (row_tuples tables.now query.now))) }
    ensures indexes { OnOk result (AreOf tables.now indexes.new) }
{
    match new_order(alloc, query)? {
        Some(numbering) => some_reordered(alloc, query, &numbering, tables, indexes),
        None => some_in_order(alloc, query, tables, indexes),
    }
}
