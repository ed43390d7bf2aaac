//! Small tables of two texts.
use source_tables::{ColumnDecl, Table, TableDecl, load};
use std::alloc::{AllocError, Global};
use std::test::Fail;
use vocabulary::{List, Name, ValueKind};

fn column(alloc: Global, name: &str) -> Result<ColumnDecl, AllocError> {
    Ok(ColumnDecl {
        name: Name::new(alloc, name)?,
        header: Name::new(alloc, name)?,
        kind: ValueKind::Text,
    })
}

fn columns(alloc: Global) -> Result<List<ColumnDecl>, AllocError> {
    let mut columns = List::new(alloc);
    columns.push(column(alloc, "a")?)?;
    columns.push(column(alloc, "b")?)?;
    Ok(columns)
}

fn decl(alloc: Global) -> Result<TableDecl, AllocError> {
    Ok(TableDecl {
        name: Name::new(alloc, "t")?,
        file: Name::new(alloc, "t.csv")?,
        offset: 0,
        columns: columns(alloc)?,
        keys: List::new(alloc),
    })
}

// The lines of a header, and of these rows with spaces between them.
fn lines(alloc: Global, rows: &str) -> Result<String, AllocError> {
    let mut text = String::new(alloc);
    text.push_str("a,b\n")?;
    for row in rows.split(' ') {
        text.push_str(row)?;
        text.push('\n')?;
    }
    Ok(text)
}

/// A table with the texts a and b, and these rows with spaces between them.
pub fn loaded(alloc: Global, rows: &str) -> Result<Table, Fail> {
    let decl = decl(alloc)?;
    if decl.offset != 0 {
        return Err(Fail::new("an offset"));
    }
    let text = lines(alloc, rows)?;
    Ok(load(alloc, &decl, text.as_str().as_bytes())?)
}

/// One such table.
pub fn table(alloc: Global, rows: &str) -> Result<Vec<Table>, Fail> {
    let mut tables = Vec::new(alloc);
    tables.push(loaded(alloc, rows)?)?;
    Ok(tables)
}
