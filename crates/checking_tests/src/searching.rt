//! Single tuples of row queries over two small tables.
ghost use Rattle.std.specs.Prelude.{IfOk};
ghost use Rattle.mapping_facts.specs.Fits.{RowQueryFits};

use crate::small::loaded;
use join_engine::some_tuple;
use mapping_facts::{Condition, Place, RowQuery, RowTerm, SourceQuery};
use source_tables::Table;
use std::alloc::{AllocError, Global};
use std::test::Fail;
use vocabulary::{ColId, List, TableId, ValueKind};

const A_TITLE: Place = Place {
    table: 0,
    col: ColId(1),
};

const B_TITLE: Place = Place {
    table: 1,
    col: ColId(1),
};

// The rows of two tables, and their pairs with equal titles, which no null has.
const PAIRS: &str = "1,x 2, 3,y; 7,y 8, 9,x 10,x => [0, 2] [0, 3] [2, 0]
1,x 2, 3,y; 7,z 8, => none";

// Both tables with equal titles.
fn same_titles(alloc: Global) -> Result<RowQuery, AllocError>
    ensures { IfOk result RowQueryFits }
{
    let mut tables = List::new(alloc);
    tables.push(TableId(0))?;
    tables.push(TableId(1))?;
    let mut conditions = List::new(alloc);
    conditions.push(Condition::Equal(A_TITLE, B_TITLE))?;
    let mut head = List::new(alloc);
    head.push(RowTerm::Cell(ValueKind::Text, B_TITLE))?;
    Ok(RowQuery {
        query: SourceQuery { tables, conditions },
        apart: List::new(alloc),
        head,
    })
}

fn of_no_tables(alloc: Global) -> RowQuery
    ensures { RowQueryFits result }
{
    RowQuery {
        query: SourceQuery {
            tables: List::new(alloc),
            conditions: List::new(alloc),
        },
        apart: List::new(alloc),
        head: List::new(alloc),
    }
}

// One of the tuples of the text, or none.
fn is_one_of(alloc: Global, found: &Option<List<u32>>, want: &str) -> Result<bool, AllocError> {
    match found {
        Some(tuple) => {
            let shown = format!(in alloc; "{:?}", tuple.items())?;
            Ok(want.contains(shown.as_str()))
        }
        None => Ok(want == "none"),
    }
}

fn has_one_of(
    alloc: Global,
    query: &RowQuery,
    tables: &[Table],
    want: &str,
) -> Result<bool, AllocError>
    requires { RowQueryFits query.now }
{
    let found = some_tuple(alloc, query, tables)?;
    is_one_of(alloc, &found, want)
}

fn two_tables(alloc: Global, first: &str, second: &str) -> Result<Vec<Table>, Fail> {
    let mut tables = Vec::new(alloc);
    tables.push(loaded(alloc, first)?)?;
    tables.push(loaded(alloc, second)?)?;
    Ok(tables)
}

// The parts of a case: the rows of both tables, and the tuples.
fn parts(case: &str) -> Option<(&str, &str, &str)> {
    let (front, want) = case.split_once(" => ")?;
    let (first, second) = front.split_once("; ")?;
    Some((first, second, want))
}

fn is_found(alloc: Global, query: &RowQuery, case: &str) -> Result<bool, Fail>
    requires { RowQueryFits query.now }
{
    match parts(case) {
        Some((first, second, want)) => {
            let tables = two_tables(alloc, first, second)?;
            Ok(has_one_of(alloc, query, tables.as_slice(), want)?)
        }
        None => Ok(false),
    }
}

#[test]
fn some_tuple_is_found(rt: HostRuntime) -> Result<(), Fail> {
    let query = same_titles(rt.alloc())?;
    for case in PAIRS.split('\n') {
        assert!(rt; is_found(rt.alloc(), &query, case)?, "{case}");
    }
    Ok(())
}

#[test]
fn no_tables_have_a_tuple(rt: HostRuntime) -> Result<(), Fail> {
    let query = of_no_tables(rt.alloc());
    assert!(rt; has_one_of(rt.alloc(), &query, &[], "[]")?);
    Ok(())
}
