//! The header of a file, and the places of the declared columns in it.
ghost use Rattle.std.specs.Prelude.{◌≡◌, ◌<◌, ◌≤◌, ◌+◌, ◌==◌, ◌^◌, if◌then◌else◌, Some, None, Ok, count_by, length, map, IfOk, IfErr};
ghost use Rattle.std.specs.List.{position_or_len};
ghost use Rattle.std.specs.Str.{bytes_eq};
ghost use Rattle.csv.specs.Records.{fields_of};
ghost use Rattle.source_tables.specs.Loading.{Fails, place_in};
ghost use Rattle.source_tables.specs.Tables.{checked_header};

use crate::records::{field, is_all_text};
use crate::{TableDecl, TableFault};
use csv::ByteRecord;
use std::alloc::Global;
use vocabulary::ColId;

// The first place of a text, or the number of fields.
fn place_of(header: &ByteRecord, text: &str) -> usize
    ensures { result ≡ position_or_len (bytes_eq text.now) (fields_of header.now) }
{
    for place in 0..header.len() {
        if text.as_bytes() == field(header, place) {
            return place;
        }
    }
    header.len()
}

// How often a text stands there.
fn count_of(header: &ByteRecord, text: &str) -> usize
    ensures { result ≡ count_by (bytes_eq text.now) (fields_of header.now) }
{
    let mut count = 0;
    for place in 0..header.len() {
        if text.as_bytes() == field(header, place) {
            count += 1;
        }
    }
    count
}

/// The place of each declared column, if the header is UTF-8 and has each once.
pub(crate) fn find_places(
    alloc: Global,
    decl: &TableDecl,
    header: &ByteRecord,
) -> Result<Vec<usize>, TableFault>
    requires { length decl.now.columns < 2 ^ 32 }
    ensures found { IfOk result (λ places. places.items ≡ map (place_in (fields_of header.now)) decl.now.columns) }
    ensures right { IfOk result (λ _. checked_header decl.now (fields_of header.now) ≡ Ok (fields_of header.now)) }
    ensures fault { IfErr result (λ e. Fails e (checked_header decl.now (fields_of header.now))) }
{
    if !is_all_text(header) {
        return Err(TableFault::NotUtf8(0));
    }
    let mut places = Vec::new(alloc);
    for (number, column) in decl.columns.items().iter().enumerate() {
        if count_of(header, column.header.text()) != 1 {
            return Err(TableFault::Header(ColId(number as u32)));
        }
        places.push(place_of(header, column.header.text()))?;
    }
    Ok(places)
}
