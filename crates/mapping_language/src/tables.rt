//! Tables and columns by their names.
ghost use Rattle.std.specs.Prelude.{◌≡◌, position};
ghost use Rattle.std.specs.Option.{option_copied};
ghost use Rattle.mapping_language.specs.Tables.{table_number, table_named, column_number, column_named, has_header};

use crate::Sources;
use source_tables::{ColumnDecl, TableDecl};

/// The number of a table.
pub(crate) fn table_number(sources: &Sources, name: &str) -> Option<usize>
    ensures { result ≡ table_number sources.now name.now }
{
    sources.tables().iter().position(|t| t.name.text() == name)
}

/// The table of a name.
pub(crate) fn table_named<'s>(sources: &'s Sources, name: &str) -> Option<&'s TableDecl>
    ensures { option_copied result ≡ table_named sources.now name.now }
{
    let number = table_number(sources, name)?;
    sources.tables().get(number)
}

/// The number of a column of a table.
pub(crate) fn column_number(table: &TableDecl, name: &str) -> Option<usize>
    ensures { result ≡ column_number table.now name.now }
{
    table
        .columns
        .items()
        .iter()
        .position(|c| c.name.text() == name)
}

/// The column of a name in a table.
pub(crate) fn column_named<'s>(table: &'s TableDecl, name: &str) -> Option<&'s ColumnDecl>
    ensures { option_copied result ≡ column_named table.now name.now }
{
    let number = column_number(table, name)?;
    table.columns.items().get(number)
}

/// Whether a column of the table has this header text.
pub(crate) fn has_header(table: &TableDecl, text: &str) -> bool
    ensures { result ≡ has_header table.now text.now }
{
    table
        .columns
        .items()
        .iter()
        .any(|c| c.header.text() == text)
}
