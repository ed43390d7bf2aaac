//! The records of a file, one after the other.
ghost use Rattle.std.specs.Prelude.{◌≡◌, ◌<◌, ℕ, List, [], true, IfOk, get_or, length};
ghost use Rattle.std.specs.List.{list_all};
ghost use Rattle.std.specs.Str.{is_utf8};
ghost use Rattle.csv.specs.Records.{fields_of};
ghost use Rattle.source_tables.specs.Reading.{Leaves, TakesRow};
ghost use Rattle.source_tables.specs.Tables.{records_of};

use csv::{ByteRecord, Reader, ReaderBuilder};
use std::alloc::{AllocError, Global};

/// A reader at the first record. The lengths of the records are left to the caller.
pub(crate) fn open_records(alloc: Global, bytes: &[u8]) -> Reader<&[u8]>
    ensures { Leaves result (records_of bytes.now) }
{
    ReaderBuilder::new()
        .has_headers(false)
        .flexible(true)
        .from_reader(alloc, bytes)
}

/// Takes the next record into `row`, and says whether there was one. Bytes in memory cannot fail to be
/// read, so an error is want of memory.
pub(crate) fn next_row(reader: &mut Reader<&[u8]>, row: &mut ByteRecord) -> Result<bool, AllocError>
    ensures { IfOk result (λ found. (rows : List (List (List ℕ))) → Leaves reader.old rows → TakesRow rows found (fields_of row.new) reader.new) }
{
    match reader.read_byte_record(row) {
        Ok(found) => Ok(found),
        Err(_) => Err(AllocError),
    }
}

/// The bytes of a field, and none where there is no such field.
pub(crate) fn field(row: &ByteRecord, place: usize) -> &[u8]
    ensures { result.now ≡ get_or (fields_of row.now) place [] }
{
    match row.get(place) {
        Some(found) => found,
        None => &[],
    }
}

fn is_text(field: &[u8]) -> bool
    ensures { result ≡ is_utf8 field.now }
{
    match str::from_utf8(field) {
        Ok(_) => true,
        Err(_) => false,
    }
}

/// Whether each field is UTF-8.
pub(crate) fn is_all_text(row: &ByteRecord) -> bool
    ensures { result ≡ list_all is_utf8 (fields_of row.now) }
{
    for place in 0..row.len() {
        if !is_text(field(row, place)) {
            return false;
        }
    }
    true
}
