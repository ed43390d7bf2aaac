//! Tuples enough for the head of a row query over three tables, and single ones.
ghost use Rattle.std.specs.Prelude.{◌≡◌, IfOk};
ghost use Rattle.mapping_facts.specs.Fits.{RowQueryFits};

use crate::joining::two_tables;
use join_engine::{heads, join, some_tuple};
use mapping_facts::{Condition, Place, RowQuery, RowTerm, SourceQuery};
use source_tables::Table;
use std::alloc::{AllocError, Global};
use std::test::Fail;
use vocabulary::{ColId, List, Name, TableId, ValueKind};

const fn title(table: u32) -> Place
    ensures { result.table ≡ table }
{
    Place {
        table,
        col: ColId(1),
    }
}

// The second table, any table, and the first: the titles of the outer two are equal, and that of the one
// between is this text. The head is the title of the last.
fn around(alloc: Global, between: &str) -> Result<RowQuery, AllocError>
    ensures { IfOk result RowQueryFits }
{
    let mut tables = List::new(alloc);
    tables.push(TableId(1))?;
    tables.push(TableId(1))?;
    tables.push(TableId(0))?;
    let mut conditions = List::new(alloc);
    conditions.push(Condition::EqualText(title(1), Name::new(alloc, between)?))?;
    conditions.push(Condition::Equal(title(2), title(0)))?;
    let mut head = List::new(alloc);
    head.push(RowTerm::Cell(ValueKind::Text, title(2)))?;
    Ok(RowQuery {
        query: SourceQuery { tables, conditions },
        apart: List::new(alloc),
        head,
    })
}

// How many tuples, how many of them for the head, and whether there is one.
fn counted(alloc: Global, tables: &[Table], between: &str) -> Result<String, AllocError> {
    let query = around(alloc, between)?;
    let all = join(alloc, &query, tables)?.len();
    let some = some_tuple(alloc, &query, tables)?.is_some();
    let few = heads(alloc, &query, tables)?.len();
    format!(in alloc; "{all} {few} {some}")
}

// Of two rows of the first table with a title of the second, the one is joined to one row and the other to two.
// Each is told once, whatever stands between; where nothing stands there, none is.
#[test]
fn a_part_that_nothing_joins_is_only_tested(rt: HostRuntime) -> Result<(), Fail> {
    let tables = two_tables(rt.alloc())?;
    assert!(rt; counted(rt.alloc(), tables.as_slice(), "y")?.as_str() == "3 2 true");
    assert!(rt; counted(rt.alloc(), tables.as_slice(), "x")?.as_str() == "6 2 true");
    assert!(rt; counted(rt.alloc(), tables.as_slice(), "z")?.as_str() == "0 0 false");
    Ok(())
}
