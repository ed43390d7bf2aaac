//! What source lines add to the sources.
ghost use Rattle.std.specs.Prelude.{◌≡◌, ◌<◌, ◌^◌, ◌++◌, ◌∷◌, [], if◌then◌else◌, map, option_map, IfOk, OnOk};
ghost use Rattle.std.specs.Str.{bytes_eq};
ghost use Rattle.mapping_language.specs.Tables.{header_or, numbers_of, or_utc, grown, offset_or as offset_of_text};
ghost use Rattle.jiff_core.specs.Calendar.{IsWithin};
ghost use Rattle.mapping_language.specs.Changes.{extended, HaveOffsets};
ghost use Rattle.mapping_language.specs.Shown.{line_shown};

use crate::Sources;
use crate::source_rules::{header_or, offset_or};
use crate::tables::column_number;
use crate::written::SourceLine;
use source_tables::{ColumnDecl, TableDecl};
use std::alloc::{AllocError, Global};
use std::mem;
use vocabulary::{ColId, List, Name, ValueKind};

/// A place in a list as the number of an id. Memory holds no list with a place beyond 32 bits.
pub(crate) fn id_number(place: usize) -> Result<u32, AllocError>
    ensures { IfOk result (λ n. n ≡ place) }
{
    if place > u32::MAX as usize {
        return Err(AllocError);
    }
    Ok(place as u32)
}

fn column_of(
    alloc: Global,
    name: &str,
    kind: ValueKind,
    header: Option<&str>,
) -> Result<ColumnDecl, AllocError>
    ensures { IfOk result (λ c. c ≡ record { name = name.now; header = header_or name.now (option_map (λ t. t.now) header.entry); kind = kind }) }
{
    let header = Name::new(alloc, header_or(name, header))?;
    let name = Name::new(alloc, name)?;
    Ok(ColumnDecl { name, header, kind })
}

fn push_number(key: &mut List<ColId>, table: &TableDecl, column: &str) -> Result<(), AllocError>
    ensures { OnOk result (key.new ≡ key.old ++ numbers_of table.now (column.now ∷ [])) }
{
    match column_number(table, column) {
        Some(number) => key.push(ColId(id_number(number)?)),
        None => Ok(()),
    }
}

fn key_of(alloc: Global, table: &TableDecl, columns: &[&str]) -> Result<List<ColId>, AllocError>
    ensures { IfOk result (λ key. key ≡ numbers_of table.now (map (λ c. c.now) columns.now)) }
{
    let mut key = List::new(alloc);
    for column in columns {
        push_number(&mut key, table, column)?;
    }
    Ok(key)
}

fn extend(alloc: Global, table: &mut TableDecl, line: &SourceLine<'_>) -> Result<(), AllocError>
    ensures { OnOk result (table.new ≡ extended (line_shown line.now) table.old) }
{
    match line {
        SourceLine::Table(_, _, _) => Ok(()),
        SourceLine::Column(_, name, kind, header) => {
            let column = column_of(alloc, name, *kind, *header)?;
            table.columns.push(column)
        }
        SourceLine::Key(_, columns) => {
            let key = key_of(alloc, table, columns)?;
            table.keys.push(key)
        }
    }
}

fn extend_if_named(
    alloc: Global,
    table: &mut TableDecl,
    name: &str,
    line: &SourceLine<'_>,
) -> Result<(), AllocError>
    ensures { OnOk result (table.new ≡ (if bytes_eq table.old.name name.now then extended (line_shown line.now) table.old else table.old)) }
{
    if table.name.text() == name {
        extend(alloc, table, line)
    } else {
        Ok(())
    }
}

fn extend_named(
    alloc: Global,
    tables: &mut Vec<TableDecl>,
    name: &str,
    line: &SourceLine<'_>,
) -> Result<(), AllocError>
    ensures { OnOk result (tables.new.items ≡ map (λ table. if bytes_eq table.name name.now then extended (line_shown line.now) table else table) tables.old.items) }
{
    for i in 0..tables.len() {
        extend_if_named(alloc, &mut tables[i], name, line)?;
    }
    Ok(())
}

// The tables stay the sources' own where memory runs out too.
fn change(
    alloc: Global,
    sources: &mut Sources,
    name: &str,
    line: &SourceLine<'_>,
) -> Result<(), AllocError>
    ensures changed { OnOk result (sources.new ≡ record sources.old { tables = map (λ table. if bytes_eq table.name name.now then extended (line_shown line.now) table else table) sources.old.tables }) }
    ensures offsets { HaveOffsets sources.old → OnOk result (HaveOffsets sources.new) }
{
    let mut tables = mem::replace(&mut sources.tables, List::new(alloc)).into_vec();
    let changed = extend_named(alloc, &mut tables, name, line);
    sources.tables = List::from_vec(tables);
    changed
}

// The offset of a table's times, or that of UTC where the text is none.
fn offset_or_utc(text: Option<&str>) -> i32
    ensures value { result ≡ or_utc (offset_of_text (option_map (λ t. t.now) text.entry)) }
    ensures near { IsWithin 840 result }
{
    match offset_or(text) {
        Some(minutes) => minutes,
        None => 0,
    }
}

fn table_of(
    alloc: Global,
    name: &str,
    file: &str,
    offset: Option<&str>,
) -> Result<TableDecl, AllocError>
    ensures table { IfOk result (λ t. t ≡ record { name = name.now; file = file.now; offset = or_utc (offset_of_text (option_map (λ t. t.now) offset.entry)); columns = []; keys = [] }) }
    ensures near { IfOk result (λ t. IsWithin 840 t.offset) }
{
    let name = Name::new(alloc, name)?;
    let file = Name::new(alloc, file)?;
    Ok(TableDecl {
        name,
        file,
        offset: offset_or_utc(offset),
        columns: List::new(alloc),
        keys: List::new(alloc),
    })
}

fn push_table(sources: &mut Sources, table: TableDecl) -> Result<(), AllocError>
    ensures pushed { OnOk result (sources.new ≡ record sources.old { tables = sources.old.tables ++ table ∷ [] }) }
    ensures offsets { HaveOffsets sources.old → IsWithin 840 table.offset → OnOk result (HaveOffsets sources.new) }
{
    sources.tables.push(table)
}

/// Adds what the line says.
#[tactic(auto, unfolding(crate::specs::Tables::grown))]
pub(crate) fn add_source_line(
    alloc: Global,
    sources: &mut Sources,
    line: &SourceLine<'_>,
) -> Result<(), AllocError>
    ensures grown { OnOk result (sources.new ≡ grown sources.old (line_shown line.now)) }
    ensures offsets { HaveOffsets sources.old → OnOk result (HaveOffsets sources.new) }
    ensures mappings { OnOk result (sources.new.mappings ≡ sources.old.mappings) }
{
    match line {
        SourceLine::Table(name, file, offset) => {
            let table = table_of(alloc, name, file, *offset)?;
            push_table(sources, table)
        }
        SourceLine::Column(name, _, _, _) => change(alloc, sources, name, line),
        SourceLine::Key(name, _) => change(alloc, sources, name, line),
    }
}
