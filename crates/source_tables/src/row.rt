//! The cells of a record.
ghost use Rattle.std.specs.Prelude.{◌≡◌, Some, ◌<◌, ◌≤◌, ◌+◌, ◌*◌, ◌^◌, true, length, IfErr, OnOk};
ghost use Rattle.std.specs.List.{list_all};
ghost use Rattle.std.specs.Str.{IsUtf8, is_utf8};
ghost use Rattle.cell_store.specs.Grid.{full_rows, with_cell};
ghost use Rattle.csv.specs.Records.{fields_of};
ghost use Rattle.jiff_core.specs.Calendar.{IsWithin};
ghost use Rattle.source_tables.specs.Loading.{Fails, PutsCell, PutsRow, placed_cells};
ghost use Rattle.source_tables.specs.Tables.{cell_fault, checked_cell};

use crate::records::field;
use crate::value::{Room, canonical_text};
use crate::{TableDecl, TableFault};
use cell_store::Cells;
use csv::ByteRecord;
use std::alloc::AllocError;
use vocabulary::{ColId, ValueKind};

fn fault_of_cell(kind: ValueKind, row: u32, col: ColId) -> TableFault
    ensures { result ≡ cell_fault kind row col.0 }
{
    match kind {
        ValueKind::Text => TableFault::BadChar(row, col),
        _ => TableFault::BadCell(row, col),
    }
}

fn text_of(field: &[u8]) -> &str
    requires { is_utf8 field.now ≡ true }
    ensures { result.now ≡ field.now }
{
    str::from_utf8(field).unwrap()
}

// A text that is put behind the others is UTF-8.
fn push_text(cells: &mut Cells, text: &str) -> Result<(), AllocError>
    requires { full_rows cells.old < 1_000_000 }
    ensures put { OnOk result (cells.new ≡ with_cell cells.old (Some text.now)) }
    ensures utf8 { IsUtf8 text.now }
{
    cells.push(Some(text))
}

// Puts a field as a cell of this row and column behind the others.
fn push_cell(
    cells: &mut Cells,
    field: &[u8],
    kind: ValueKind,
    offset: i32,
    row: u32,
    col: ColId,
    room: &mut Room,
) -> Result<(), TableFault>
    requires offset { IsWithin 840 offset }
    requires utf8 { is_utf8 field.now ≡ true }
    requires some { full_rows cells.old < 1_000_000 }
    ensures put { OnOk result (PutsCell (checked_cell offset kind row col.0 field.now) cells.old cells.new) }
    ensures fault { IfErr result (λ e. Fails e (checked_cell offset kind row col.0 field.now)) }
{
    if field.is_empty() {
        cells.push(None)?;
        return Ok(());
    }
    match canonical_text(kind, text_of(field), offset, room) {
        Some(text) => push_text(cells, text)?,
        None => return Err(fault_of_cell(kind, row, col)),
    }
    Ok(())
}

/// Puts the cells of a record behind the others: for each declared column the field that stands in its
/// place, null or a canonical text.
pub(crate) fn push_cells(
    cells: &mut Cells,
    decl: &TableDecl,
    places: &[usize],
    row: u32,
    fields: &ByteRecord,
    room: &mut Room,
) -> Result<(), TableFault>
    requires offset { IsWithin 840 decl.now.offset }
    requires few { length decl.now.columns < 2 ^ 32 }
    requires places { length places.now ≡ length decl.now.columns }
    requires width { 0 < length decl.now.columns → cells.old.cols ≡ length decl.now.columns }
    requires most { row ≤ 1_000_000 }
    requires before { length cells.old.cells + length decl.now.columns ≡ row * length decl.now.columns }
    requires utf8 { list_all is_utf8 (fields_of fields.now) ≡ true }
    ensures put { OnOk result (PutsRow (placed_cells decl.now.offset row (fields_of fields.now) 0 places.now decl.now.columns) cells.old cells.new) }
    ensures long { OnOk result (length cells.new.cells ≡ length cells.old.cells + length decl.now.columns) }
    ensures fault { IfErr result (λ e. Fails e (placed_cells decl.now.offset row (fields_of fields.now) 0 places.now decl.now.columns)) }
{
    for (number, column) in decl.columns.items().iter().enumerate() {
        let found = field(fields, places[number]);
        push_cell(
            cells,
            found,
            column.kind,
            decl.offset,
            row,
            ColId(number as u32),
            room,
        )?;
    }
    Ok(())
}
