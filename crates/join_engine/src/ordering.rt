//! An order of the tables of a row query in which as many as can be are tied by an equality to those before them.
//!
//! Parts that nothing joins to the head come first, and behind them what the head speaks of. Each order gives the
//! same tuples, so the choice is a matter of time alone; that it is an order is tested.
ghost use Rattle.std.specs.Prelude.{◌≡◌, ◌<◌, length, IfOk, IfSome, IsTrue};
ghost use Rattle.join_engine.specs.Orders.{AgreeAt, IsReordering};

use mapping_facts::{Condition, Place, RowQuery, RowTerm};
use std::alloc::{AllocError, Global};

/// How many tables a row query may have to be put into another order.
const MOST: usize = 1_000;

/// The number of the table at each place, and the place of each table.
#[derive(Drop)]
pub struct Numbering {
    pub order: Vec<u32>,
    pub places: Vec<u32>,
}

// What is known of the tables: the part of each, those of which the head speaks, and those that have a place.
#[derive(Drop)]
struct Marks {
    parts: Vec<u32>,
    heads: Vec<bool>,
    placed: Vec<bool>,
}

fn is_marked(marks: &[bool], table: u32) -> bool {
    marks.get(table as usize) == Some(&true)
}

fn mark(marks: &mut [bool], table: u32) {
    if (table as usize) < marks.len() {
        marks[table as usize] = true;
    }
}

fn mark_places(marks: &mut [bool], places: &[Place]) {
    for place in places {
        mark(marks, place.table);
    }
}

fn mark_term(marks: &mut [bool], term: &RowTerm) {
    match term {
        RowTerm::Iri(_, places) => mark_places(marks, places.items()),
        RowTerm::Cell(_, place) => mark(marks, place.table),
        RowTerm::Fixed(_) => {}
    }
}

fn no_marks(alloc: Global, count: u32) -> Result<Vec<bool>, AllocError> {
    let mut marks = Vec::new(alloc);
    for _table in 0..count {
        marks.push(false)?;
    }
    Ok(marks)
}

// The tables of which the head speaks, or a pair that is to be apart.
fn head_tables(alloc: Global, query: &RowQuery, count: u32) -> Result<Vec<bool>, AllocError> {
    let mut marks = no_marks(alloc, count)?;
    for term in query.head.items() {
        mark_term(marks.as_mut_slice(), term);
    }
    for pair in query.apart.items() {
        mark_term(marks.as_mut_slice(), &pair.0);
        mark_term(marks.as_mut_slice(), &pair.1);
    }
    Ok(marks)
}

fn part_of(parts: &[u32], table: u32) -> u32 {
    match parts.get(table as usize) {
        Some(part) => *part,
        None => table,
    }
}

// Makes one part of two.
fn join_parts(parts: &mut [u32], first: u32, second: u32) {
    let kept = part_of(parts, first);
    let gone = part_of(parts, second);
    for i in 0..parts.len() {
        if parts[i] == gone {
            parts[i] = kept;
        }
    }
}

fn join_by(parts: &mut [u32], condition: &Condition) {
    match condition {
        Condition::Equal(p, q) | Condition::Differ(p, q) => join_parts(parts, p.table, q.table),
        _ => {}
    }
}

// For each table the part that conditions join it to, named by one of its tables.
fn parts_of(alloc: Global, query: &RowQuery, count: u32) -> Result<Vec<u32>, AllocError> {
    let mut parts = Vec::new(alloc);
    for table in 0..count {
        parts.push(table)?;
    }
    for condition in query.query.conditions.items() {
        join_by(parts.as_mut_slice(), condition);
    }
    Ok(parts)
}

// Whether the condition equates a cell of this table with one of a table that has a place.
fn ties(condition: &Condition, placed: &[bool], table: u32) -> bool {
    match condition {
        Condition::Equal(p, q) => {
            (p.table == table && is_marked(placed, q.table))
                || (q.table == table && is_marked(placed, p.table))
        }
        _ => false,
    }
}

fn is_tied(query: &RowQuery, placed: &[bool], table: u32) -> bool {
    query
        .query
        .conditions
        .items()
        .iter()
        .any(|condition| ties(condition, placed, table))
}

impl Marks {
    fn of(alloc: Global, query: &RowQuery, count: u32) -> Result<Marks, AllocError> {
        let parts = parts_of(alloc, query, count)?;
        let heads = head_tables(alloc, query, count)?;
        let placed = no_marks(alloc, count)?;
        Ok(Marks {
            parts,
            heads,
            placed,
        })
    }

    // Whether the head speaks of a table of this part, or of one that has no place yet.
    fn has_head(&self, part: u32, left: bool, count: u32) -> bool {
        for table in 0..count {
            if part_of(self.parts.as_slice(), table) == part
                && is_marked(self.heads.as_slice(), table)
                && !(left && is_marked(self.placed.as_slice(), table))
            {
                return true;
            }
        }
        false
    }

    // The smaller, the sooner a table gets its place.
    fn rank(&self, query: &RowQuery, table: u32, count: u32) -> u32 {
        let part = part_of(self.parts.as_slice(), table);
        let tied = is_tied(query, self.placed.as_slice(), table);
        let head = is_marked(self.heads.as_slice(), table);
        match (self.has_head(part, false, count), tied, head) {
            (false, true, _) => 0,
            (false, false, _) => 1,
            (true, true, true) => 2,
            (true, true, false) if self.has_head(part, true, count) => 3,
            (true, false, true) => 4,
            (true, true, false) => 5,
            (true, false, false) => 6,
        }
    }

    fn next(&self, query: &RowQuery, count: u32) -> u32 {
        let mut best = 0;
        let mut least = 7;
        for table in 0..count {
            if !is_marked(self.placed.as_slice(), table) {
                let rank = self.rank(query, table, count);
                if rank < least {
                    best = table;
                    least = rank;
                }
            }
        }
        best
    }
}

fn order_of(alloc: Global, query: &RowQuery, count: u32) -> Result<Vec<u32>, AllocError> {
    let mut marks = Marks::of(alloc, query, count)?;
    let mut order = Vec::new(alloc);
    for _place in 0..count {
        let table = marks.next(query, count);
        mark(marks.placed.as_mut_slice(), table);
        order.push(table)?;
    }
    Ok(order)
}

fn place_of(order: &[u32], table: u32, count: u32) -> u32 {
    for place in 0..count {
        if order.get(place as usize) == Some(&table) {
            return place;
        }
    }
    0
}

fn places_in(alloc: Global, order: &[u32], count: u32) -> Result<Vec<u32>, AllocError> {
    let mut places = Vec::new(alloc);
    for table in 0..count {
        places.push(place_of(order, table, count))?;
    }
    Ok(places)
}

fn is_kept(order: &[u32]) -> bool {
    for place in 0..order.len() {
        if order[place] as usize != place {
            return false;
        }
    }
    true
}

// Whether the order and the places agree on this table.
fn agree(order: &[u32], places: &[u32], table: usize) -> bool
    requires order { table < length order.now }
    requires places { length places.now ≡ length order.now }
    ensures { IsTrue result → AgreeAt order.now places.now table }
{
    (order[table] as usize) < order.len()
        && (places[table] as usize) < order.len()
        && order[places[table] as usize] as usize == table
}

fn is_reordering(order: &[u32], places: &[u32], count: usize) -> bool
    ensures { IsTrue result → IsReordering count order.now places.now }
{
    if order.len() != count || places.len() != count {
        return false;
    }
    for table in 0..count {
        if !agree(order, places, table) {
            return false;
        }
    }
    true
}

/// An order in which equalities tie the tables; none where they stand in one already.
pub(crate) fn new_order(alloc: Global, query: &RowQuery) -> Result<Option<Numbering>, AllocError>
    ensures { IfOk result (λ found. IfSome found (λ n. IsReordering (length query.now.query.tables) n.order.items n.places.items)) }
{
    let count = query.query.tables.len();
    if count < 2 || count > MOST {
        return Ok(None);
    }
    let order = order_of(alloc, query, count as u32)?;
    let places = places_in(alloc, order.as_slice(), count as u32)?;
    if is_kept(order.as_slice()) || !is_reordering(order.as_slice(), places.as_slice(), count) {
        return Ok(None);
    }
    Ok(Some(Numbering { order, places }))
}
