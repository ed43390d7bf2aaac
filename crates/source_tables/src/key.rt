//! The keys of rows.
//!
//! For each key the texts of the rows so far are numbered in first-seen order. As no two are alike, the
//! number of a text is the number of its row.
ghost use Rattle.std.specs.Prelude.{◌≡◌, ◌≢◌, ◌<◌, ◌+◌, ◌∷◌, [], ◌++◌, ◌^◌, None, Ok, get_or, length, map, string_bytes, IfOk, IfErr, OnOk};
ghost use Rattle.std.specs.List.{All};
ghost use Rattle.std.specs.Option.{option_copied};
ghost use Rattle.source_tables.specs.Cells.{HasText};
ghost use Rattle.source_tables.specs.Loading.{Fails, HasRow, IsKeyText, key_texts, row_at};
ghost use Rattle.source_tables.specs.Tables.{check_key, check_keys, cut_rows, key_cells};

use crate::TableFault;
use cell_store::Cells;
use std::alloc::{AllocError, Global};
use vocabulary::{ColId, List, Names};

/// Stands behind each cell in the text of a key. No cell has it.
const SEPARATOR: char = '\0';

/// No texts yet for each key.
pub(crate) fn no_texts(alloc: Global, keys: &[List<ColId>]) -> Result<Vec<Names>, AllocError>
    ensures { IfOk result (λ v. v.items ≡ map (λ key. []) keys.now) }
{
    let mut indexes = Vec::new(alloc);
    for _key in keys {
        indexes.push(Names::new(alloc))?;
    }
    Ok(indexes)
}

// A cell of the last row. One that is not there is null.
fn cell_of(cells: &Cells, width: usize, row: u32, col: ColId) -> Option<&str>
    requires { HasRow width row cells.now }
    ensures { option_copied result ≡ get_or (row_at width row cells.now.cells) col.0 None }
{
    if (col.0 as usize) < width {
        cells.cell(row, col.0)
    } else {
        None
    }
}

// Writes the text of a key's cells in the last row, and says whether none of them is null.
fn write_key(
    text: &mut String,
    cells: &Cells,
    width: usize,
    row: u32,
    key: &[ColId],
) -> Result<bool, AllocError>
    requires { HasRow width row cells.now }
    ensures { IfOk result (λ whole. IsKeyText whole (key_cells key.now (row_at width row cells.now.cells)) (string_bytes text.new)) }
{
    text.clear();
    for col in key {
        match cell_of(cells, width, row, *col) {
            None => return Ok(false),
            Some(cell) => text.push_str(cell)?,
        }
        text.push(SEPARATOR)?;
    }
    Ok(true)
}

// Numbers the last row's text of one key, if it is new and has no null.
fn number_key(
    index: &mut Names,
    text: &mut String,
    cells: &Cells,
    width: usize,
    row: u32,
    key: &[ColId],
) -> Result<(), TableFault>
    requires row { HasRow width row cells.now }
    requires texts { All HasText cells.now.cells }
    requires index { index.old ≡ key_texts key.now (cut_rows row width cells.now.cells) }
    ensures right { OnOk result (check_key (cut_rows row width cells.now.cells) (row + 1) (row_at width row cells.now.cells) key.now ≡ Ok tt) }
    ensures index { OnOk result (index.new ≡ key_texts key.now (cut_rows row width cells.now.cells ++ row_at width row cells.now.cells ∷ [])) }
    ensures fault { IfErr result (λ e. Fails e (check_key (cut_rows row width cells.now.cells) (row + 1) (row_at width row cells.now.cells) key.now)) }
{
    if !write_key(text, cells, width, row, key)? {
        return Err(TableFault::NullKey(row + 1));
    }
    let number = index.add(text.as_str())?;
    if number < row {
        return Err(TableFault::DoubleKey(number + 1, row + 1));
    }
    Ok(())
}

/// Numbers the last row's text of each key, one key after the other.
pub(crate) fn number_keys(
    indexes: &mut [Names],
    text: &mut String,
    cells: &Cells,
    width: usize,
    row: u32,
    keys: &[List<ColId>],
) -> Result<(), TableFault>
    requires row { HasRow width row cells.now }
    requires texts { All HasText cells.now.cells }
    requires indexes { indexes.old ≡ map (λ key. key_texts key (cut_rows row width cells.now.cells)) keys.now }
    ensures right { OnOk result (check_keys (cut_rows row width cells.now.cells) (row + 1) (row_at width row cells.now.cells) keys.now ≡ Ok (row_at width row cells.now.cells)) }
    ensures indexes { OnOk result (indexes.new ≡ map (λ key. key_texts key (cut_rows row width cells.now.cells ++ row_at width row cells.now.cells ∷ [])) keys.now) }
    ensures fault { IfErr result (λ e. Fails e (check_keys (cut_rows row width cells.now.cells) (row + 1) (row_at width row cells.now.cells) keys.now)) }
{
    for (number, key) in keys.iter().enumerate() {
        number_key(&mut indexes[number], text, cells, width, row, key.items())?;
    }
    Ok(())
}
