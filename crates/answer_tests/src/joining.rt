//! The tuples of row queries over two small tables.
ghost use Rattle.std.specs.Prelude.{IfOk};
ghost use Rattle.mapping_facts.specs.Fits.{RowQueryFits};

use crate::small::titles;
use join_engine::join;
use mapping_facts::{Condition, Place, RowQuery, RowTerm, SourceQuery};
use source_tables::Table;
use std::alloc::{AllocError, Global};
use std::test::Fail;
use vocabulary::{ColId, List, TableId, ValueKind};

const A_TITLE: Place = Place {
    table: 0,
    col: ColId(1),
};

const B_TITLE: Place = Place {
    table: 1,
    col: ColId(1),
};

/// Two tables with a null title in each.
pub fn two_tables(alloc: Global) -> Result<Vec<Table>, Fail> {
    let mut tables = Vec::new(alloc);
    tables.push(titles(alloc, b"id,title\n1,x\n2,\n3,y\n")?)?;
    tables.push(titles(alloc, b"id,title\n7,y\n8,\n9,x\n10,x\n")?)?;
    Ok(tables)
}

// Both tables with equal titles.
fn same_titles(alloc: Global) -> Result<RowQuery, AllocError>
    ensures { IfOk result RowQueryFits }
{
    let mut tables = List::new(alloc);
    tables.push(TableId(0))?;
    tables.push(TableId(1))?;
    let mut conditions = List::new(alloc);
    conditions.push(Condition::Equal(A_TITLE, B_TITLE))?;
    let mut head = List::new(alloc);
    head.push(RowTerm::Cell(ValueKind::Text, B_TITLE))?;
    Ok(RowQuery {
        query: SourceQuery { tables, conditions },
        apart: List::new(alloc),
        head,
    })
}

fn of_no_tables(alloc: Global) -> RowQuery
    ensures { RowQueryFits result }
{
    RowQuery {
        query: SourceQuery {
            tables: List::new(alloc),
            conditions: List::new(alloc),
        },
        apart: List::new(alloc),
        head: List::new(alloc),
    }
}

fn push_tuple(alloc: Global, text: &mut String, tuple: &[u32]) -> Result<(), AllocError> {
    for row in tuple {
        text.push_str(format!(in alloc; "{row} ")?.as_str())?;
    }
    text.push(';')
}

// The row numbers of each tuple, with a semicolon behind it.
fn shown(alloc: Global, tuples: &[List<u32>]) -> Result<String, AllocError> {
    let mut text = String::new(alloc);
    for tuple in tuples {
        push_tuple(alloc, &mut text, tuple.items())?;
    }
    Ok(text)
}

fn are_joined(
    alloc: Global,
    query: &RowQuery,
    tables: &[Table],
    want: &str,
) -> Result<bool, AllocError>
    requires { RowQueryFits query.now }
{
    let found = join(alloc, query, tables)?;
    Ok(found.len() == found.tuples.len() && shown(alloc, found.tuples.items())?.as_str() == want)
}

#[test]
fn rows_with_equal_cells_are_joined(rt: HostRuntime) -> Result<(), Fail> {
    let tables = two_tables(rt.alloc())?;
    let query = same_titles(rt.alloc())?;
    assert!(rt; are_joined(rt.alloc(), &query, tables.as_slice(), "0 2 ;0 3 ;2 0 ;")?);
    Ok(())
}

#[test]
fn no_tables_have_one_tuple(rt: HostRuntime) -> Result<(), Fail> {
    let query = of_no_tables(rt.alloc());
    assert!(rt; are_joined(rt.alloc(), &query, &[], ";")?);
    Ok(())
}
