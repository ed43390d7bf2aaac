//! Loaded tables.
ghost use Rattle.std.specs.Prelude.{◌≡◌, ◌≢◌, ◌≤◌, ◌*◌, [], None, length, get_or, nat_eq, IfOk};
ghost use Rattle.std.specs.List.{All, list_all, list_any};
ghost use Rattle.std.specs.Option.{option_copied};
ghost use Rattle.source_tables.specs.Cells.{HasText};
ghost use Rattle.source_tables.specs.Tables.{HasKeys, HasTexts, TellsApart, cut_rows, has_key_in};

use crate::TableDecl;
use cell_store::Cells;
use std::alloc::{AllocError, Global};
use std::marker::Model;
use vocabulary::{ColId, List};

/// The rows of a file under a declaration. Contracts see the declaration, and each row as one cell for
/// each declared column, null or a canonical text.
#[derive(Drop)]
pub struct Table {
    decl: TableDecl,
    cells: Cells,
    // a table without columns keeps its number of rows
    rows: u32,
}

impl Model for Table {
    ghost use Rattle.std.specs.Prelude.{◌≡◌, ◌≤◌, ◌*◌, ◌≢◌, length};
    ghost use Rattle.std.specs.List.{All};
    ghost use Rattle.source_tables.specs.Cells.{HasText};
    ghost use Rattle.source_tables.specs.Tables.{Loaded, TellsApart, cut_rows};

    ghost Value = { Loaded };

    ghost view = { λ t. record { decl = t.decl; rows = cut_rows t.rows (length t.decl.columns) t.cells.cells } };

    ghost invariant = { λ t. (t.rows ≤ 1_000_000) × (length t.cells.cells ≡ t.rows * length t.decl.columns) × (length t.decl.columns ≢ 0 → t.cells.cols ≡ length t.decl.columns) × All HasText t.cells.cells × All (TellsApart (cut_rows t.rows (length t.decl.columns) t.cells.cells)) t.decl.keys };
}

fn is_among(col: ColId, cols: &[ColId]) -> bool
    ensures { result ≡ list_any (λ d. nat_eq col.0 d.0) cols.now }
{
    cols.iter().any(|d| col.0 == d.0)
}

fn are_among(key: &[ColId], cols: &[ColId]) -> bool
    ensures { result ≡ list_all (λ c. list_any (λ d. nat_eq c.0 d.0) cols.now) key.now }
{
    key.iter().all(|c| is_among(*c, cols))
}

impl Table {
    /// The table of cells that fill so many rows.
    pub(crate) fn of_cells(
        alloc: Global,
        decl: &TableDecl,
        cells: Cells,
        rows: u32,
    ) -> Result<Table, AllocError>
        requires most { rows ≤ 1_000_000 }
        requires long { length cells.cells ≡ rows * length decl.now.columns }
        requires cols { length decl.now.columns ≢ 0 → cells.cols ≡ length decl.now.columns }
        requires texts { All HasText cells.cells }
        requires keys { All (TellsApart (cut_rows rows (length decl.now.columns) cells.cells)) decl.now.keys }
        ensures { IfOk result (λ t. t ≡ record { decl = decl.now; rows = cut_rows rows (length decl.now.columns) cells.cells }) }
    {
        let decl = decl.copy(alloc)?;
        Ok(Table { decl, cells, rows })
    }

    pub fn decl(&self) -> &TableDecl
        ensures { result.now ≡ self.now.decl }
    {
        &self.decl
    }

    pub fn rows(&self) -> u32
        ensures count { result ≡ length self.now.rows }
        ensures within { result ≤ 1_000_000 }
    {
        self.rows
    }

    /// The cell in this row and column, counted from 0. A cell that is not there is null.
    pub fn cell(&self, row: u32, col: ColId) -> Option<&str>
        ensures { option_copied result ≡ get_or (get_or self.now.rows row []) col.0 None }
    {
        if row < self.rows && (col.0 as usize) < self.decl.columns.len() {
            self.cells.cell(row, col.0)
        } else {
            None
        }
    }

    /// Whether these columns have those of some declared key, so that a row is known by its cells there.
    pub fn has_key(&self, cols: &[ColId]) -> bool
        ensures { result ≡ has_key_in self.now.decl cols.now }
    {
        self.decl
            .keys
            .items()
            .iter()
            .any(|key| are_among(key.items(), cols))
    }

    /// A law of each table. Nothing runs here: the clause is what counts.
    pub fn has_texts(&self)
        ensures { HasTexts self.now }
    {
        let _ = &self.rows;
    }

    /// A law of each table: rows that agree in all columns of a declared key are one.
    pub fn has_keys(&self)
        ensures { HasKeys self.now }
    {
        let _ = &self.rows;
    }
}

/// The law of `has_texts` for tables that lie side by side.
pub fn have_texts(tables: &[Table])
    ensures { All HasTexts tables.now }
{
    for table in tables {
        table.has_texts();
    }
}

/// The law of `has_keys` for tables that lie side by side.
pub fn have_keys(tables: &[Table])
    ensures { All HasKeys tables.now }
{
    for table in tables {
        table.has_keys();
    }
}
