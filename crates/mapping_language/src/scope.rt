//! The aliases and cells of a mapping line, against the tables.
ghost use Rattle.std.specs.Prelude.{◌≡◌, position};
ghost use Rattle.std.specs.Option.{option_copied};
ghost use Rattle.std.specs.Str.{bytes_eq};
ghost use Rattle.jiff_core.specs.Calendar.{IsWithin};
ghost use Rattle.mapping_language.specs.Changes.{HaveOffsets};
ghost use Rattle.mapping_language.specs.Mappings.{place_of, table_under, column_of, kind_at, unknown_cell, offset_under};
ghost use Rattle.mapping_language.specs.Shown.{cell_shown, map_shown};

use crate::Sources;
use crate::tables::{column_named, table_named};
use crate::written::{Cell, MapLine, Source};
use source_tables::{ColumnDecl, TableDecl};
use vocabulary::ValueKind;

fn place_among(sources: &[Source<'_>], alias: &str) -> Option<usize>
    ensures { result ≡ position (λ source. bytes_eq source.alias.now alias.now) sources.now }
{
    sources.iter().position(|source| source.alias == alias)
}

/// The place of an alias among the tables of a mapping.
#[tactic(auto, using(crate::proofs::Lists::position_of_map))]
pub(crate) fn place_of(line: &MapLine<'_>, alias: &str) -> Option<usize>
    ensures { result ≡ place_of (map_shown line.now) alias.now }
{
    place_among(&line.sources, alias)
}

/// The declaration of the table under an alias.
#[tactic(auto, using(crate::proofs::Lists::get_of_map))]
pub(crate) fn table_under<'s>(
    sources: &'s Sources,
    line: &MapLine<'_>,
    alias: &str,
) -> Option<&'s TableDecl>
    ensures { option_copied result ≡ table_under sources.now (map_shown line.now) alias.now }
{
    let place = place_of(line, alias)?;
    let source = line.sources.get(place)?;
    table_named(sources, source.table)
}

/// The offset of the table under an alias.
#[tactic(auto, using(crate::proofs::Offsets::near_under))]
pub(crate) fn offset_under(sources: &Sources, line: &MapLine<'_>, alias: &str) -> i32
    ensures value { result ≡ offset_under (table_under sources.now (map_shown line.now) alias.now) }
    ensures near { HaveOffsets sources.now → IsWithin 840 result }
{
    match table_under(sources, line, alias) {
        Some(table) => table.offset,
        None => 0,
    }
}

fn column_of<'s>(
    sources: &'s Sources,
    line: &MapLine<'_>,
    cell: &Cell<'_>,
) -> Option<&'s ColumnDecl>
    ensures { option_copied result ≡ column_of sources.now (map_shown line.now) (cell_shown cell.now) }
{
    let table = table_under(sources, line, cell.alias)?;
    column_named(table, cell.column)
}

/// The kind of a cell.
pub(crate) fn kind_at(sources: &Sources, line: &MapLine<'_>, cell: &Cell<'_>) -> Option<ValueKind>
    ensures { result ≡ kind_at sources.now (map_shown line.now) (cell_shown cell.now) }
{
    let column = column_of(sources, line, cell)?;
    Some(column.kind)
}

/// Whether there is no such cell.
pub(crate) fn is_unknown(sources: &Sources, line: &MapLine<'_>, cell: &Cell<'_>) -> bool
    ensures { result ≡ unknown_cell sources.now (map_shown line.now) (cell_shown cell.now) }
{
    column_of(sources, line, cell).is_none()
}
