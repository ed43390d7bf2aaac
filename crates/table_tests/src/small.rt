//! Small tables of an `id` (int) and a `title` (text), without keys.
use source_tables::{ColumnDecl, Table, TableDecl, load};
use std::alloc::{AllocError, Global};
use std::test::Fail;
use vocabulary::{List, Name, ValueKind};

fn column(alloc: Global, name: &str, kind: ValueKind) -> Result<ColumnDecl, AllocError> {
    Ok(ColumnDecl {
        name: Name::new(alloc, name)?,
        header: Name::new(alloc, name)?,
        kind,
    })
}

fn columns(alloc: Global) -> Result<List<ColumnDecl>, AllocError> {
    let mut columns = List::new(alloc);
    columns.push(column(alloc, "id", ValueKind::Int)?)?;
    columns.push(column(alloc, "title", ValueKind::Text)?)?;
    Ok(columns)
}

fn decl(alloc: Global) -> Result<TableDecl, AllocError> {
    Ok(TableDecl {
        name: Name::new(alloc, "t")?,
        file: Name::new(alloc, "t.csv")?,
        offset: 0,
        columns: columns(alloc)?,
        keys: List::new(alloc),
    })
}

/// The rows of these bytes.
pub fn table(alloc: Global, bytes: &[u8]) -> Result<Table, Fail> {
    let decl = decl(alloc)?;
    if decl.offset != 0 {
        return Err(Fail::new("an offset"));
    }
    Ok(load(alloc, &decl, bytes)?)
}
