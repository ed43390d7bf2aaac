//! Declarations of tables.
ghost use Rattle.std.specs.Prelude.{◌≡◌, IfOk};

use std::alloc::{AllocError, Global};
use vocabulary::{ColId, List, Name, ValueKind};

/// A column: its name, the text under which the header has it, and the kind of its cells.
#[derive(Debug, Drop)]
pub struct ColumnDecl {
    pub name: Name,
    pub header: Name,
    pub kind: ValueKind,
}

/// A table. The offset is that of times without one, in minutes ahead of UTC; a key is the columns
/// in which no two rows are alike.
#[derive(Debug, Drop)]
pub struct TableDecl {
    pub name: Name,
    pub file: Name,
    pub offset: i32,
    pub columns: List<ColumnDecl>,
    pub keys: List<List<ColId>>,
}

fn copy_columns(alloc: Global, columns: &[ColumnDecl]) -> Result<List<ColumnDecl>, AllocError>
    ensures { IfOk result (λ l. l ≡ columns.now) }
{
    let mut copies = List::new(alloc);
    for column in columns {
        copies.push(column.copy(alloc)?)?;
    }
    Ok(copies)
}

fn copy_key(alloc: Global, key: &[ColId]) -> Result<List<ColId>, AllocError>
    ensures { IfOk result (λ l. l ≡ key.now) }
{
    let mut copies = List::new(alloc);
    for column in key {
        copies.push(*column)?;
    }
    Ok(copies)
}

fn copy_keys(alloc: Global, keys: &[List<ColId>]) -> Result<List<List<ColId>>, AllocError>
    ensures { IfOk result (λ l. l ≡ keys.now) }
{
    let mut copies = List::new(alloc);
    for key in keys {
        copies.push(copy_key(alloc, key.items())?)?;
    }
    Ok(copies)
}

impl ColumnDecl {
    pub fn copy(&self, alloc: Global) -> Result<ColumnDecl, AllocError>
        ensures { IfOk result (λ c. c ≡ self.now) }
    {
        let name = self.name.copy(alloc)?;
        let header = self.header.copy(alloc)?;
        Ok(ColumnDecl {
            name,
            header,
            kind: self.kind,
        })
    }
}

impl TableDecl {
    pub fn copy(&self, alloc: Global) -> Result<TableDecl, AllocError>
        ensures { IfOk result (λ t. t ≡ self.now) }
    {
        let name = self.name.copy(alloc)?;
        let file = self.file.copy(alloc)?;
        let columns = copy_columns(alloc, self.columns.items())?;
        let keys = copy_keys(alloc, self.keys.items())?;
        Ok(TableDecl {
            name,
            file,
            offset: self.offset,
            columns,
            keys,
        })
    }
}
