//! Parts of a row query that nothing joins to what stands behind them: some rows of each are enough.
ghost use Rattle.std.specs.Prelude.{◌≡◌, ◌≤◌, length, IfOk};
ghost use Rattle.std.specs.List.{list_all};
ghost use Rattle.mapping_facts.specs.Fits.{RowQueryFits};
ghost use Rattle.join_engine.specs.Heads.{IsFree, IsFrontBehind, IsSettled, are_behind, is_on_one_side, is_pair_behind, is_part, is_term_behind};
ghost use Rattle.join_engine.specs.Ties.{ArePlanned};
ghost use Rattle.table_renumbering.specs.Places.{condition_places};

use crate::choosing::{Plan, next_rows};
use crate::joining::{is_cut, reach};
use mapping_facts::{Condition, Place, RowQuery, RowTerm};
use source_tables::Table;
use std::alloc::{AllocError, Global};

fn are_behind(depth: usize, places: &[Place]) -> bool
    ensures { result ≡ are_behind depth places.now }
{
    places.iter().all(|place| !((place.table as usize) < depth))
}

fn is_condition_behind(depth: usize, condition: &Condition) -> bool
    ensures { result ≡ are_behind depth (condition_places condition.now) }
{
    match condition {
        Condition::Equal(p, q) | Condition::Differ(p, q) => are_behind(depth, &[*p, *q]),
        Condition::EqualText(p, _) | Condition::DifferText(p, _) => are_behind(depth, &[*p]),
        Condition::IsNull(p) | Condition::NotNull(p) => are_behind(depth, &[*p]),
    }
}

fn is_term_behind(depth: usize, term: &RowTerm) -> bool
    ensures { result ≡ is_term_behind depth term.now }
{
    match term {
        RowTerm::Iri(_, places) => are_behind(depth, places.items()),
        RowTerm::Cell(_, place) => are_behind(depth, &[*place]),
        RowTerm::Fixed(_) => true,
    }
}

fn is_pair_behind(depth: usize, pair: &(RowTerm, RowTerm)) -> bool
    ensures { result ≡ is_pair_behind depth pair.now }
{
    is_term_behind(depth, &pair.0) && is_term_behind(depth, &pair.1)
}

fn is_on_one_side(depth: usize, condition: &Condition) -> bool
    ensures { result ≡ is_on_one_side depth condition.now }
{
    reach(condition) <= depth || is_condition_behind(depth, condition)
}

fn are_on_one_side(depth: usize, conditions: &[Condition]) -> bool
    ensures { result ≡ list_all (is_on_one_side depth) conditions.now }
{
    conditions.iter().all(|c| is_on_one_side(depth, c))
}

fn are_terms_behind(depth: usize, terms: &[RowTerm]) -> bool
    ensures { result ≡ list_all (is_term_behind depth) terms.now }
{
    terms.iter().all(|t| is_term_behind(depth, t))
}

fn are_pairs_behind(depth: usize, pairs: &[(RowTerm, RowTerm)]) -> bool
    ensures { result ≡ list_all (is_pair_behind depth) pairs.now }
{
    pairs.iter().all(|p| is_pair_behind(depth, p))
}

// Whether nothing joins the first tables to those behind them, and head and pairs are over the latter.
fn is_part(depth: usize, query: &RowQuery) -> bool
    ensures { result ≡ is_part depth query.now }
{
    are_on_one_side(depth, query.query.conditions.items())
        && are_terms_behind(depth, query.head.items())
        && are_pairs_behind(depth, query.apart.items())
}

// Puts rows of the tables up to `end` behind these over which no condition fails, if there are some; else leaves
// them.
fn find_front(
    alloc: Global,
    query: &RowQuery,
    tables: &[Table],
    plan: &Plan<'_>,
    end: usize,
    front: &mut Vec<u32>,
) -> Result<bool, AllocError>
    requires planned { ArePlanned tables.now query.now.query plan.now }
    requires within { length front.old.items ≤ end }
    requires end { end ≤ length query.now.query.tables }
    ensures { IfOk result (IsFrontBehind tables.now query.now end front.old.items front.new.items) }
{
    let depth = front.len();
    if is_cut(&query.query, tables, front.as_slice()) {
        return Ok(false);
    }
    if depth == end {
        return Ok(true);
    }
    let rows = next_rows(plan, &query.query, tables, front.as_slice());
    for i in 0..rows.len() {
        front.push(rows.at(i))?;
        if find_front(alloc, query, tables, plan, end, front)? {
            return Ok(true);
        }
        front.truncate(depth);
    }
    Ok(false)
}

// Puts some rows behind these up to `end`, if nothing joins the tables up to there to those behind them.
fn settle(
    alloc: Global,
    query: &RowQuery,
    tables: &[Table],
    plan: &Plan<'_>,
    end: usize,
    front: &mut Vec<u32>,
) -> Result<bool, AllocError>
    requires fits { RowQueryFits query.now }
    requires planned { ArePlanned tables.now query.now.query plan.now }
    requires free { IsFree tables.now query.now front.old.items }
    requires within { length front.old.items ≤ end }
    requires end { end ≤ length query.now.query.tables }
    ensures { IfOk result (IsSettled tables.now query.now end front.new.items) }
{
    if !is_part(end, query) {
        return Ok(true);
    }
    find_front(alloc, query, tables, plan, end, front)
}

/// Puts some rows of each part behind none; where a part has none, no tuple is asked for.
pub(crate) fn settle_parts(
    alloc: Global,
    query: &RowQuery,
    tables: &[Table],
    plan: &Plan<'_>,
    front: &mut Vec<u32>,
) -> Result<bool, AllocError>
    requires fits { RowQueryFits query.now }
    requires planned { ArePlanned tables.now query.now.query plan.now }
    requires none { length front.old.items ≡ 0 }
    ensures { IfOk result (IsSettled tables.now query.now (length query.now.query.tables) front.new.items) }
{
    for before in 0..query.query.tables.len() {
        if !settle(alloc, query, tables, plan, before + 1, front)? {
            return Ok(false);
        }
    }
    Ok(true)
}
