//! The indexes of joins: one for each column of a table by which rows are looked up.
ghost use Rattle.std.specs.Prelude.{◌≡◌, slice_get, IfOk, IfSome, List as ListOf, MatchOption, OnOk, None};
ghost use Rattle.std.specs.Option.{option_copied};
ghost use Rattle.source_tables.specs.Tables.{Loaded};
ghost use Rattle.join_engine.specs.Indexes.{AreOf};
ghost use Rattle.join_engine.specs.Ties.{AreIndexes, HasIndex, Keeps, is_index_of, listed_at, listed_by};

use row_index::Index;
use source_tables::Table;
use std::alloc::{AllocError, Global};
use vocabulary::{ColId, TableId};

// With more than this a query begins with none: an index takes memory for each row of its table.
const MOST: usize = 16;

/// An index of a column, for all tables of a query that are this one.
#[derive(Drop)]
pub struct Shared {
    pub table: TableId,
    pub col: ColId,
    pub index: Index,
}

/// Indexes of columns, each made when a query first asks for it and kept for later queries over the same tables.
#[derive(Drop)]
pub struct Indexes {
    pub(crate) kept: Vec<Shared>,
}

impl Indexes {
    /// None yet, of any tables.
    #[tactic(auto, unfolding(crate::specs::Indexes::AreOf))]
    pub fn new(alloc: Global) -> Indexes
        ensures { (tables : ListOf Loaded) → AreOf tables result }
    {
        Indexes {
            kept: Vec::new(alloc),
        }
    }

    /// Forgets all where they are many.
    #[tactic(auto, unfolding(crate::specs::Indexes::AreOf))]
    pub(crate) fn make_room(&mut self)
        ensures { (tables : ListOf Loaded) → AreOf tables self.old → AreOf tables self.new }
    {
        if self.kept.len() > MOST {
            self.kept.clear();
        }
    }
}

fn table_at(tables: &[Table], number: TableId) -> Option<&Table>
    ensures { option_copied result ≡ slice_get tables.now number.0 }
{
    tables.get(number.0 as usize)
}

fn is_number_of(indexes: &[Shared], number: usize, table: TableId, col: ColId) -> bool
    ensures { result ≡ is_index_of (slice_get indexes.now number) table col }
{
    match indexes.get(number) {
        Some(shared) => shared.table.0 == table.0 && shared.col.0 == col.0,
        None => false,
    }
}

// The number of an index of the column.
fn number_of(indexes: &[Shared], table: TableId, col: ColId) -> Option<usize>
    ensures { IfSome result (HasIndex indexes.now table col) }
{
    for number in 0..indexes.len() {
        if is_number_of(indexes, number, table, col) {
            return Some(number);
        }
    }
    None
}

/// The number of an index of the column, which is built where there is none yet; none where there is no such
/// table.
pub(crate) fn index_of(
    alloc: Global,
    tables: &[Table],
    table: TableId,
    col: ColId,
    indexes: &mut Vec<Shared>,
) -> Result<Option<usize>, AllocError>
    requires { AreIndexes tables.now indexes.old.items }
    ensures indexes { OnOk result (AreIndexes tables.now indexes.new.items) }
    ensures kept { OnOk result (Keeps indexes.old.items indexes.new.items) }
    ensures number { IfOk result (λ found. MatchOption found (slice_get tables.now table.0 ≡ None) (HasIndex indexes.new.items table col)) }
{
    if let Some(number) = number_of(indexes.as_slice(), table, col) {
        return Ok(Some(number));
    }
    let Some(rows) = table_at(tables, table) else {
        return Ok(None);
    };
    let number = indexes.len();
    let index = Index::build(alloc, rows, col)?;
    indexes.push(Shared { table, col, index })?;
    Ok(Some(number))
}

fn found_in<'a>(index: &'a Index, text: Option<&str>) -> &'a [u32]
    ensures { result.now ≡ listed_at index.now (option_copied text.entry) }
{
    match text {
        Some(text) => index.find(text),
        None => &[],
    }
}

/// The rows with a text by the index of this number; none for a null.
pub(crate) fn found<'a>(indexes: &'a [Shared], number: usize, text: Option<&str>) -> &'a [u32]
    ensures { result.now ≡ listed_by (slice_get indexes.now number) (option_copied text.entry) }
{
    match indexes.get(number) {
        Some(shared) => found_in(&shared.index, text),
        None => &[],
    }
}
