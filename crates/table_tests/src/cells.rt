//! Cells against the rows that were put in.
ghost use Rattle.std.specs.Prelude.{◌≡◌};

use cell_store::Cells;
use std::alloc::{AllocError, Global};
use std::test::Fail;

// Puts the cells behind the others, where there is room.
fn are_pushed(cells: &mut Cells, row: &[Option<&str>]) -> Result<bool, AllocError> {
    for cell in row {
        if cells.rows() >= 1_000_000 {
            return Ok(false);
        }
        cells.push(*cell)?;
    }
    Ok(true)
}

fn three_rows(alloc: Global) -> Result<Cells, AllocError> {
    let mut cells = Cells::new(alloc, 2);
    are_pushed(&mut cells, &[Some("a"), None])?;
    are_pushed(&mut cells, &[Some(""), Some("b\nc")])?;
    are_pushed(&mut cells, &[None, Some("\u{e9}\u{20ac}")])?;
    Ok(cells)
}

fn is_row(cells: &Cells, row: u32, first: Option<&str>, second: Option<&str>) -> bool {
    row < cells.rows()
        && cells.cols() == 2
        && cells.cell(row, 0) == first
        && cells.cell(row, 1) == second
}

fn has_rows(cells: &Cells, rows: u32, pending: u32) -> bool {
    cells.rows() == rows && cells.cols() == 2 && cells.pending() == pending
}

fn are_three_rows(cells: &Cells) -> bool {
    is_row(cells, 0, Some("a"), None)
        && is_row(cells, 1, Some(""), Some("b\nc"))
        && is_row(cells, 2, None, Some("\u{e9}\u{20ac}"))
        && has_rows(cells, 3, 0)
}

fn are_three_and_a_cell(cells: &mut Cells) -> Result<bool, AllocError> {
    Ok(are_pushed(cells, &[Some("d")])? && has_rows(cells, 3, 1))
}

#[test]
fn what_was_pushed_is_lent(rt: HostRuntime) -> Result<(), Fail> {
    let mut cells = three_rows(rt.alloc())?;
    assert!(rt; are_three_rows(&cells));
    assert!(rt; are_three_and_a_cell(&mut cells)?);
    Ok(())
}
