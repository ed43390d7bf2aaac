//! Tables from the bytes of files.
ghost use Rattle.std.specs.Prelude.{◌≡◌, ◌≢◌, ◌<◌, ◌≤◌, ◌+◌, ◌^◌, ℕ, List, [], Ok, Err, length, map, true, IfOk, IfErr, OnOk};
ghost use Rattle.std.specs.List.{list_all};
ghost use Rattle.std.specs.Str.{is_utf8};
ghost use Rattle.csv.specs.Records.{fields_of};
ghost use Rattle.jiff_core.specs.Calendar.{IsWithin};
ghost use Rattle.source_tables.specs.Loading.{AddsRow, AreRead, Fails, keyed_row, place_in, rows_in, table_below};
ghost use Rattle.source_tables.specs.Reading.{Leaves};
ghost use Rattle.source_tables.specs.Tables.{checked_row, checked_rows, table_of};
ghost use Rattle.source_tables.specs.declared.fault.TableFault.TheVariants.{NoMemory};

use crate::header::find_places;
use crate::key::{no_texts, number_keys};
use crate::records::{is_all_text, next_row, open_records};
use crate::row::push_cells;
use crate::value::Room;
use crate::{Table, TableDecl, TableFault};
use cell_store::Cells;
use csv::{ByteRecord, Reader};
use std::alloc::{AllocError, Global};
use vocabulary::Names;

/// How many rows a table may have.
const ROWS: u32 = 1_000_000;

/// The rows that were read so far.
#[derive(Drop)]
struct Rows {
    cells: Cells,
    count: u32,
    // for each key the texts of its cells, in the order of the rows
    indexes: Vec<Names>,
    // room for the text of a key and for that of a value, used again by each row
    key: String,
    room: Room,
}

fn no_rows(alloc: Global, decl: &TableDecl) -> Result<Rows, AllocError>
    requires { length decl.now.columns < 2 ^ 32 }
    ensures none { IfOk result (λ r. r.count ≡ 0) }
    ensures read { IfOk result (λ r. AreRead decl.now r.count r.cells r.indexes.items) }
{
    let cols = (decl.columns.len() as u32).max(1);
    let indexes = no_texts(alloc, decl.keys.items())?;
    Ok(Rows {
        cells: Cells::new(alloc, cols),
        count: 0,
        indexes,
        key: String::new(alloc),
        room: Room::new(),
    })
}

// Puts the cells of a record behind those of the rows before, and numbers its keys.
fn put_row(
    rows: &mut Rows,
    decl: &TableDecl,
    header: &ByteRecord,
    places: &[usize],
    fields: &ByteRecord,
) -> Result<(), TableFault>
    requires offset { IsWithin 840 decl.now.offset }
    requires few { length decl.now.columns < 2 ^ 32 }
    requires places { places.now ≡ map (place_in (fields_of header.now)) decl.now.columns }
    requires room { rows.old.count < 1_000_000 }
    requires utf8 { list_all is_utf8 (fields_of fields.now) ≡ true }
    requires read { AreRead decl.now rows.old.count rows.old.cells rows.old.indexes.items }
    ensures read { OnOk result (AreRead decl.now rows.new.count rows.new.cells rows.new.indexes.items) }
    ensures added { OnOk result (AddsRow (keyed_row decl.now (fields_of header.now) (rows_in decl.now rows.old.count rows.old.cells) (rows.old.count + 1) (fields_of fields.now)) (rows_in decl.now rows.old.count rows.old.cells) (rows_in decl.now rows.new.count rows.new.cells)) }
    ensures fault { IfErr result (λ e. Fails e (keyed_row decl.now (fields_of header.now) (rows_in decl.now rows.old.count rows.old.cells) (rows.old.count + 1) (fields_of fields.now))) }
{
    let number = rows.count + 1;
    push_cells(
        &mut rows.cells,
        decl,
        places,
        number,
        fields,
        &mut rows.room,
    )?;
    number_keys(
        rows.indexes.as_mut_slice(),
        &mut rows.key,
        &rows.cells,
        decl.columns.len(),
        rows.count,
        decl.keys.items(),
    )?;
    rows.count = number;
    Ok(())
}

// Reads a record as the next row.
fn add_row(
    rows: &mut Rows,
    decl: &TableDecl,
    header: &ByteRecord,
    places: &[usize],
    fields: &ByteRecord,
) -> Result<(), TableFault>
    requires offset { IsWithin 840 decl.now.offset }
    requires few { length decl.now.columns < 2 ^ 32 }
    requires places { places.now ≡ map (place_in (fields_of header.now)) decl.now.columns }
    requires read { AreRead decl.now rows.old.count rows.old.cells rows.old.indexes.items }
    ensures read { OnOk result (AreRead decl.now rows.new.count rows.new.cells rows.new.indexes.items) }
    ensures added { OnOk result (AddsRow (checked_row decl.now (fields_of header.now) (rows_in decl.now rows.old.count rows.old.cells) (fields_of fields.now)) (rows_in decl.now rows.old.count rows.old.cells) (rows_in decl.now rows.new.count rows.new.cells)) }
    ensures fault { IfErr result (λ e. Fails e (checked_row decl.now (fields_of header.now) (rows_in decl.now rows.old.count rows.old.cells) (fields_of fields.now))) }
{
    if rows.count == ROWS {
        return Err(TableFault::TooManyRows);
    }
    let number = rows.count + 1;
    if fields.len() != header.len() {
        return Err(TableFault::Width(number));
    }
    if !is_all_text(fields) {
        return Err(TableFault::NotUtf8(number));
    }
    put_row(rows, decl, header, places, fields)
}

// Reads the records that are left as rows. The row past the limit is refused, so the loop always ends
// by a return.
fn add_rows(
    alloc: Global,
    rows: &mut Rows,
    decl: &TableDecl,
    header: &ByteRecord,
    places: &[usize],
    reader: &mut Reader<&[u8]>,
) -> Result<(), TableFault>
    requires offset { IsWithin 840 decl.now.offset }
    requires few { length decl.now.columns < 2 ^ 32 }
    requires places { places.now ≡ map (place_in (fields_of header.now)) decl.now.columns }
    requires read { AreRead decl.now rows.old.count rows.old.cells rows.old.indexes.items }
    ensures read { OnOk result (AreRead decl.now rows.new.count rows.new.cells rows.new.indexes.items) }
    ensures added { OnOk result ((body : List (List (List ℕ))) → Leaves reader.old body → checked_rows decl.now (fields_of header.now) (rows_in decl.now rows.old.count rows.old.cells) body ≡ Ok (rows_in decl.now rows.new.count rows.new.cells)) }
    ensures fault { IfErr result (λ e. (body : List (List (List ℕ))) → Leaves reader.old body → Fails e (checked_rows decl.now (fields_of header.now) (rows_in decl.now rows.old.count rows.old.cells) body)) }
{
    let mut fields = ByteRecord::new(alloc);
    for _turn in 0..ROWS + 1 {
        if !next_row(reader, &mut fields)? {
            return Ok(());
        }
        add_row(rows, decl, header, places, &fields)?;
    }
    Err(TableFault::NoMemory)
}

// The table of a header, and of the records that are left below it.
fn load_below(
    alloc: Global,
    decl: &TableDecl,
    header: &ByteRecord,
    reader: &mut Reader<&[u8]>,
) -> Result<Table, TableFault>
    requires offset { IsWithin 840 decl.now.offset }
    requires few { length decl.now.columns < 2 ^ 32 }
    ensures table { IfOk result (λ t. (body : List (List (List ℕ))) → Leaves reader.old body → table_below decl.now (fields_of header.now) body ≡ Ok t) }
    ensures fault { IfErr result (λ e. (body : List (List (List ℕ))) → Leaves reader.old body → Fails e (table_below decl.now (fields_of header.now) body)) }
{
    let places = find_places(alloc, decl, header)?;
    let mut rows = no_rows(alloc, decl)?;
    add_rows(alloc, &mut rows, decl, header, places.as_slice(), reader)?;
    Ok(Table::of_cells(alloc, decl, rows.cells, rows.count)?)
}

// The table of no records: its header has no texts.
fn load_empty(alloc: Global, decl: &TableDecl) -> Result<Table, TableFault>
    requires { length decl.now.columns < 2 ^ 32 }
    ensures table { IfOk result (λ t. table_below decl.now [] [] ≡ Ok t) }
    ensures fault { IfErr result (λ e. Fails e (table_below decl.now [] [])) }
{
    find_places(alloc, decl, &ByteRecord::new(alloc))?;
    let rows = no_rows(alloc, decl)?;
    Ok(Table::of_cells(alloc, decl, rows.cells, rows.count)?)
}

/// The table of the bytes of a file (RFC 4180) under a declaration, or the first fault of the bytes.
pub fn load(alloc: Global, decl: &TableDecl, bytes: &[u8]) -> Result<Table, TableFault>
    requires { IsWithin 840 decl.now.offset }
    ensures table { IfOk result (λ t. table_of decl.now bytes.now ≡ Ok t) }
    ensures fault { IfErr result (λ e. e ≢ NoMemory → table_of decl.now bytes.now ≡ Err e) }
{
    // columns have numbers of 32 bits, and more would not fit the memory
    if decl.columns.len() > u32::MAX as usize {
        return Err(TableFault::NoMemory);
    }
    let mut reader = open_records(alloc, bytes);
    let mut header = ByteRecord::new(alloc);
    if next_row(&mut reader, &mut header)? {
        load_below(alloc, decl, &header, &mut reader)
    } else {
        load_empty(alloc, decl)
    }
}
