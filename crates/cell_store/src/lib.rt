//! Cells of a table in one text buffer.
//!
//! The cells come one by one and fill rows of one width from left to right. A cell is null or a text, the
//! empty text among them, and is lent, never copied. A cell costs four bytes, and a text one more and its
//! own bytes.
#![tactic(auto)]

ghost use Rattle.std.specs.Prelude.{◌≡◌, ◌≤◌, ◌<◌, ◌*◌, [], ◌∷◌, if◌then◌else◌, is_ok, length, slice_index};
ghost use Rattle.std.specs.Option.{option_copied};
ghost use Rattle.std.specs.Str.{IsCharBoundary};
ghost use Rattle.cell_store.specs.Grid.{full_rows, unfinished, cell_at, with_cell};
ghost use Rattle.cell_store.specs.Stretches.{IsStretch, cell_between};

use std::alloc::{AllocError, Global};
use std::marker::Model;

/// Stands behind each text in the buffer, so that an empty text differs from a null.
const CLOSING: char = '\n';

/// Cells in rows of one width.
#[derive(Drop)]
pub struct Cells {
    cols: u32,
    text: String,
    ends: Vec<u32>,
}

impl Model for Cells {
    ghost use Rattle.std.specs.Prelude.{◌≤◌, ◌<◌, ◌*◌, ◌^◌, length, string_bytes};
    ghost use Rattle.cell_store.specs.Grid.{Grid};
    ghost use Rattle.cell_store.specs.Stretches.{AreStretches, cells_from};

    ghost Value = { Grid };

    ghost view = { λ s. record { cols = s.cols; cells = cells_from (string_bytes s.text) 0 s.ends.items } };

    ghost invariant = { λ s. (1 ≤ s.cols) × (length s.ends.items ≤ 1_000_000 * s.cols) × (length (string_bytes s.text) < 2 ^ 32) × AreStretches (string_bytes s.text) 0 s.ends.items };
}

impl Cells {
    /// No cells, for rows of `cols` cells. Nothing is allocated yet.
    pub fn new(alloc: Global, cols: u32) -> Cells
        requires { 1 ≤ cols }
        ensures cols { result.cols ≡ cols }
        ensures empty { result.cells ≡ [] }
    {
        Cells {
            cols,
            text: String::new(alloc),
            ends: Vec::new(alloc),
        }
    }

    /// How many rows are full.
    pub fn rows(&self) -> u32
        ensures { result ≡ full_rows self.now }
    {
        (self.ends.len() / self.cols as usize) as u32
    }

    /// How many cells a row has.
    pub fn cols(&self) -> u32
        ensures { result ≡ self.now.cols }
    {
        self.cols
    }

    /// How many cells the unfinished row has.
    pub fn pending(&self) -> u32
        ensures { result ≡ unfinished self.now }
    {
        (self.ends.len() % self.cols as usize) as u32
    }

    /// Puts a cell behind the others, null where it is `None`. The buffer holds less than 4 GiB.
    pub fn push(&mut self, cell: Option<&str>) -> Result<(), AllocError>
        requires { full_rows self.old < 1_000_000 }
        ensures { self.new ≡ (if is_ok result then with_cell self.old (option_copied cell.entry) else self.old) }
    {
        match cell {
            None => self.push_null(),
            Some(text) => self.push_text(text),
        }
    }

    fn push_null(&mut self) -> Result<(), AllocError>
        requires { full_rows self.old < 1_000_000 }
        ensures { self.new ≡ (if is_ok result then with_cell self.old None else self.old) }
    {
        self.ends.push(self.text.len() as u32)?;
        Ok(())
    }

    // The room for the text is reserved first, so that nothing fails once the cell is there.
    fn push_text(&mut self, text: &str) -> Result<(), AllocError>
        requires { full_rows self.old < 1_000_000 }
        ensures { self.new ≡ (if is_ok result then with_cell self.old (Some text.now) else self.old) }
    {
        let end = self.text.len() + text.len() + 1;
        if end > u32::MAX as usize {
            return Err(AllocError);
        }
        self.text.reserve(text.len() + 1)?;
        self.ends.push(end as u32)?;
        self.text.push_str(text)?;
        self.text.push(CLOSING)?;
        Ok(())
    }

    /// A cell of a full row.
    pub fn cell(&self, row: u32, col: u32) -> Option<&str>
        requires row { row < full_rows self.now }
        requires col { col < self.now.cols }
        ensures { option_copied result ≡ cell_at self.now row col }
    {
        let place = row as usize * self.cols as usize + col as usize;
        let ends = self.ends.as_slice();
        stretch(
            self.text.as_str(),
            start_of(ends, place),
            ends[place] as usize,
        )
    }
}

// Where the stretch of this number begins: the first at 0, each other where the one before it ends.
fn start_of(ends: &[u32], place: usize) -> usize
    requires { place ≤ length ends.now }
    ensures { result ≡ slice_index (0 ∷ ends.now) place }
{
    if place == 0 {
        0
    } else {
        ends[place - 1] as usize
    }
}

// The text before the closing byte, or null where there is none.
fn stretch(text: &str, start: usize, end: usize) -> Option<&str>
    requires stretch { IsStretch text.now start end }
    requires cut { IsCharBoundary text.now start }
    ensures { option_copied result ≡ cell_between text.now start end }
{
    if start < end {
        Some(&text[start..end - 1])
    } else {
        None
    }
}
