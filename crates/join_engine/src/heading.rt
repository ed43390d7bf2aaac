//! Enough tuples of a row query for all the terms of its head: behind the tables of the head one is enough.
ghost use Rattle.std.specs.Prelude.{◌≡◌, ◌≤◌, ◌<◌, List as ListOf, ℕ, length, nat_lt, IfOk, OnOk};
ghost use Rattle.std.specs.List.{list_all};
ghost use Rattle.vocabulary.specs.declared.term.Term.{Term};
ghost use Rattle.vocabulary.specs.Lists.{In};
ghost use Rattle.mapping_facts.specs.Fits.{RowQueryFits};
ghost use Rattle.mapping_facts.specs.RowQueries.{row_tuples};
ghost use Rattle.table_renumbering.specs.Places.{term_places};
ghost use Rattle.table_renumbering.specs.Tuples.{GivesTerms};
ghost use Rattle.join_engine.specs.Fronts.{asked_behind};
ghost use Rattle.join_engine.specs.Heads.{AreHeads, GainsHeads, IsHeadWithin, are_within, is_term_within};
ghost use Rattle.join_engine.specs.Indexes.{AreOf};
ghost use Rattle.join_engine.specs.Orders.{IsReordering};
ghost use Rattle.join_engine.specs.Ties.{ArePlanned};

use crate::choosing::{Plan, choices_of, next_rows, plan_by};
use crate::finding::find_behind;
use crate::joining::{Found, is_cut};
use crate::ordering::{Numbering, new_order};
use crate::parting::settle_parts;
use crate::reordering::put_back;
use crate::sharing::Indexes;
use mapping_facts::{Place, RowQuery, RowTerm};
use source_tables::Table;
use std::alloc::{AllocError, Global};
use table_renumbering::renumber;
use vocabulary::List;

// Adds a tuple behind these rows, if there is one.
fn add_one(
    alloc: Global,
    query: &RowQuery,
    tables: &[Table],
    plan: &Plan<'_>,
    front: &[u32],
    found: &mut List<List<u32>>,
) -> Result<(), AllocError>
    requires fits { RowQueryFits query.now }
    requires planned { ArePlanned tables.now query.now.query plan.now }
    requires within { length front.now ≤ length query.now.query.tables }
    ensures { OnOk result (GainsHeads (length front.now) (asked_behind tables.now query.now front.now) found.old found.new) }
{
    let mut tuple = Vec::from_slice(alloc, front)?;
    if !find_behind(alloc, query, tables, plan, &mut tuple)? {
        return Ok(());
    }
    found.push(List::from_vec(tuple))
}

// Adds a tuple for each choice of rows of the tables up to `end` that begins with these and has one.
fn walk(
    alloc: Global,
    query: &RowQuery,
    tables: &[Table],
    plan: &Plan<'_>,
    end: usize,
    front: &mut Vec<u32>,
    found: &mut List<List<u32>>,
) -> Result<(), AllocError>
    requires fits { RowQueryFits query.now }
    requires planned { ArePlanned tables.now query.now.query plan.now }
    requires within { length front.old.items ≤ end }
    requires end { end ≤ length query.now.query.tables }
    ensures front { OnOk result (front.new.items ≡ front.old.items) }
    ensures found { OnOk result (GainsHeads end (asked_behind tables.now query.now front.old.items) found.old found.new) }
{
    let depth = front.len();
    if is_cut(&query.query, tables, front.as_slice()) {
        return Ok(());
    }
    if depth == end {
        return add_one(alloc, query, tables, plan, front.as_slice(), found);
    }
    let rows = next_rows(plan, &query.query, tables, front.as_slice());
    for i in 0..rows.len() {
        front.push(rows.at(i))?;
        walk(alloc, query, tables, plan, end, front, found)?;
        front.truncate(depth);
    }
    Ok(())
}

fn are_within(end: usize, places: &[Place]) -> bool
    ensures { result ≡ are_within end places.now }
{
    places.iter().all(|place| (place.table as usize) < end)
}

fn is_term_within(end: usize, term: &RowTerm) -> bool
    ensures { result ≡ is_term_within end term.now }
{
    match term {
        RowTerm::Iri(_, places) => are_within(end, places.items()),
        RowTerm::Cell(_, place) => are_within(end, &[*place]),
        RowTerm::Fixed(_) => true,
    }
}

fn is_head_within(end: usize, query: &RowQuery) -> bool
    ensures { result ≡ list_all (is_term_within end) query.now.head }
{
    query.head.items().iter().all(|t| is_term_within(end, t))
}

// How many of the tables, from the first on, the head speaks of.
fn head_end(query: &RowQuery) -> usize
    requires fits { RowQueryFits query.now }
    ensures within { IsHeadWithin result query.now }
    ensures most { result ≤ length query.now.query.tables }
{
    for end in 0..query.query.tables.len() {
        if is_head_within(end, query) {
            return end;
        }
    }
    query.query.tables.len()
}

fn heads_in_order(
    alloc: Global,
    query: &RowQuery,
    tables: &[Table],
    indexes: &mut Indexes,
) -> Result<List<List<u32>>, AllocError>
    requires fits { RowQueryFits query.now }
    requires indexes { AreOf tables.now indexes.old }
    ensures heads { IfOk result (AreHeads tables.now query.now) }
    ensures indexes { OnOk result (AreOf tables.now indexes.new) }
{
    let choices = choices_of(alloc, &query.query, tables, indexes)?;
    let plan = plan_by(choices, indexes);
    let mut front = Vec::new(alloc);
    let mut tuples = List::new(alloc);
    if !settle_parts(alloc, query, tables, &plan, &mut front)? {
        return Ok(tuples);
    }
    let end = head_end(query).max(front.len());
    walk(alloc, query, tables, &plan, end, &mut front, &mut tuples)?;
    Ok(tuples)
}

fn heads_reordered(
    alloc: Global,
    query: &RowQuery,
    numbering: &Numbering,
    tables: &[Table],
    indexes: &mut Indexes,
) -> Result<List<List<u32>>, AllocError>
    requires fits { RowQueryFits query.now }
    requires indexes { AreOf tables.now indexes.old }
    requires numbering { IsReordering (length query.now.query.tables) numbering.now.order.items numbering.now.places.items }
    ensures heads { IfOk result (AreHeads tables.now query.now) }
    ensures indexes { OnOk result (AreOf tables.now indexes.new) }
{
    let places = numbering.places.as_slice();
    let moved = renumber(alloc, query, numbering.order.as_slice(), places)?;
    let tuples = heads_in_order(alloc, &moved, tables, indexes)?;
    put_back(alloc, places, tuples.items())
}

fn tuples_for_head(
    alloc: Global,
    query: &RowQuery,
    tables: &[Table],
    indexes: &mut Indexes,
) -> Result<List<List<u32>>, AllocError>
    requires fits { RowQueryFits query.now }
    requires indexes { AreOf tables.now indexes.old }
    ensures heads { IfOk result (AreHeads tables.now query.now) }
    ensures indexes { OnOk result (AreOf tables.now indexes.new) }
{
    match new_order(alloc, query)? {
        Some(numbering) => heads_reordered(alloc, query, &numbering, tables, indexes),
        None => heads_in_order(alloc, query, tables, indexes),
    }
}

/// Tuples that a row query asks for, in no order, that give all the terms that its tuples give. There is one for
/// each choice of rows of the tables of the head and of those on the way to them; parts that no condition joins to
/// the head are only tested for having rows.
pub fn heads(alloc: Global, query: &RowQuery, tables: &[Table]) -> Result<Found, AllocError>
    requires fits { RowQueryFits query.now }
    ensures asked { IfOk result (λ found. (tuple : ListOf ℕ) → In tuple found.tuples → In tuple (row_tuples tables.now query.now)) }
    ensures all { IfOk result (λ found. (ts : ListOf Term) → GivesTerms tables.now query.now (row_tuples tables.now query.now) ts → GivesTerms tables.now query.now found.tuples ts) }
{
    let mut indexes = Indexes::new(alloc);
    heads_by(alloc, query, tables, &mut indexes)
}

/// The same by indexes that are there, and those that it lacks are made: for a number of queries over the same tables.
pub fn heads_by(
    alloc: Global,
    query: &RowQuery,
    tables: &[Table],
    indexes: &mut Indexes,
) -> Result<Found, AllocError>
    requires fits { RowQueryFits query.now }
    requires indexes { AreOf tables.now indexes.old }
    ensures asked { IfOk result (λ found. (tuple : ListOf ℕ) → In tuple found.tuples → In tuple (row_tuples tables.now query.now)) }
    ensures all { IfOk result (λ found. (ts : ListOf Term) → GivesTerms tables.now query.now (row_tuples tables.now query.now) ts → GivesTerms tables.now query.now found.tuples ts) }
    ensures indexes { OnOk result (AreOf tables.now indexes.new) }
{
    let tuples = tuples_for_head(alloc, query, tables, indexes)?;
    Ok(Found { tuples })
}
