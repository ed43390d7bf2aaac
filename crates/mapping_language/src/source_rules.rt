//! The rules of source lines, one function for each kind of fault.
ghost use Rattle.std.specs.Prelude.{◌≡◌, ◌+◌, not, nat_lt, option_map};
ghost use Rattle.std.specs.List.{list_any};
ghost use Rattle.std.specs.Option.{IfSome};
ghost use Rattle.jiff_core.specs.Calendar.{IsWithin};
ghost use Rattle.line_lexer.specs.Faults.{limit_of};
ghost use Rattle.line_lexer.specs.Judging.{first_passed};
ghost use Rattle.mapping_language.specs.Tables.{has_column, header_or, offset_or, unknown, double, mismatch, counts, broken};
ghost use Rattle.mapping_language.specs.Shown.{line_shown};

use crate::Sources;
use crate::tables::{column_number, has_header, table_named, table_number};
use crate::written::SourceLine;
use civil_values::read_offset;
use line_lexer::{Counted, LineFault, has_twice};
use source_tables::TableDecl;

/// The offset of a table's times: its own, else that of UTC.
pub(crate) fn offset_or(text: Option<&str>) -> Option<i32>
    ensures value { result ≡ offset_or (option_map (λ t. t.now) text.entry) }
    ensures near { IfSome result (IsWithin 840) }
{
    match text {
        Some(text) => read_offset(text),
        None => Some(0),
    }
}

/// The header text of a column: its own, else its name.
pub(crate) fn header_or<'a>(column: &'a str, text: Option<&'a str>) -> &'a str
    ensures { result.now ≡ header_or column.now (option_map (λ t. t.now) text.entry) }
{
    match text {
        Some(text) => text,
        None => column,
    }
}

/// With one more, the count passes its number.
pub(crate) fn passes_with_one(what: Counted, count: usize) -> bool
    ensures { result ≡ nat_lt (limit_of what) (count + 1) }
{
    what.limit() <= count as u64
}

fn lacks_column(table: &TableDecl, columns: &[&str]) -> bool
    ensures { result ≡ list_any (λ c. not (has_column table.now c.now)) columns.now }
{
    columns.iter().any(|c| column_number(table, c).is_none())
}

#[tactic(auto, using(line_lexer::proofs::Twice::any_of_map))]
fn unknown(sources: &Sources, line: &SourceLine<'_>) -> bool
    ensures { result ≡ unknown sources.now (line_shown line.now) }
{
    match line {
        SourceLine::Table(_, _, _) => false,
        SourceLine::Column(t, _, _, _) => table_number(sources, t).is_none(),
        SourceLine::Key(t, columns) => match table_named(sources, t) {
            Some(table) => lacks_column(table, columns),
            None => true,
        },
    }
}

fn double(sources: &Sources, line: &SourceLine<'_>) -> bool
    ensures { result ≡ double sources.now (line_shown line.now) }
{
    match line {
        SourceLine::Table(t, _, _) => table_number(sources, t).is_some(),
        SourceLine::Column(t, c, _, header) => match table_named(sources, t) {
            Some(table) => {
                column_number(table, c).is_some() || has_header(table, header_or(c, *header))
            }
            None => false,
        },
        SourceLine::Key(_, _) => false,
    }
}

fn mismatch(line: &SourceLine<'_>) -> bool
    ensures { result ≡ mismatch (line_shown line.now) }
{
    match line {
        SourceLine::Table(_, _, offset) => offset_or(*offset).is_none(),
        SourceLine::Column(_, _, _, _) => false,
        SourceLine::Key(_, columns) => has_twice(columns),
    }
}

// What the line makes pass its number.
fn passed(sources: &Sources, line: &SourceLine<'_>) -> Option<Counted>
    ensures { result ≡ first_passed (counts sources.now (line_shown line.now)) }
{
    let (what, count) = match line {
        SourceLine::Table(_, _, _) => (Counted::Tables, sources.tables().len()),
        SourceLine::Column(t, _, _, _) => match table_named(sources, t) {
            Some(table) => (Counted::Columns, table.columns.len()),
            None => (Counted::Columns, 0),
        },
        SourceLine::Key(t, _) => match table_named(sources, t) {
            Some(table) => (Counted::Keys, table.keys.len()),
            None => (Counted::Keys, 0),
        },
    };
    if passes_with_one(what, count) {
        Some(what)
    } else {
        None
    }
}

/// The first rule that the line breaks.
#[tactic(auto, unfolding(crate::specs::Tables::broken))]
pub(crate) fn broken(sources: &Sources, line: &SourceLine<'_>) -> Option<LineFault>
    ensures { result ≡ broken sources.now (line_shown line.now) }
{
    if unknown(sources, line) {
        return Some(LineFault::Unknown);
    }
    if double(sources, line) {
        return Some(LineFault::Double);
    }
    if mismatch(line) {
        return Some(LineFault::TypeMismatch);
    }
    match passed(sources, line) {
        Some(what) => Some(LineFault::Limit(what)),
        None => None,
    }
}
