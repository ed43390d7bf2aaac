//! Small tables, and queries of one or two atoms for one variable.
ghost use Rattle.std.specs.Prelude.{◌≡◌, ◌≤◌, ◌∷◌, length, option_to_list, IfOk, IfSome};
ghost use Rattle.queries.specs.Occurrences.{HeadStands, KnownAtom, KnownConstants, atom_occurs};

use queries::{Arg, Atom, Query};
use source_tables::{ColumnDecl, Table, TableDecl, load};
use std::alloc::{AllocError, Global};
use std::test::Fail;
use vocabulary::{ClassId, LinkId, List, Name, ValueKind, VarId};

fn column(alloc: Global, name: &str, kind: ValueKind) -> Result<ColumnDecl, AllocError> {
    Ok(ColumnDecl {
        name: Name::new(alloc, name)?,
        header: Name::new(alloc, name)?,
        kind,
    })
}

// The first of numbers or texts, the second of texts.
fn columns(
    alloc: Global,
    first: &str,
    kind: ValueKind,
    second: &str,
) -> Result<List<ColumnDecl>, AllocError> {
    let mut columns = List::new(alloc);
    columns.push(column(alloc, first, kind)?)?;
    columns.push(column(alloc, second, ValueKind::Text)?)?;
    Ok(columns)
}

fn decl(alloc: Global, columns: List<ColumnDecl>) -> Result<TableDecl, AllocError> {
    Ok(TableDecl {
        name: Name::new(alloc, "t")?,
        file: Name::new(alloc, "t.csv")?,
        offset: 0,
        columns,
        keys: List::new(alloc),
    })
}

fn loaded(alloc: Global, columns: List<ColumnDecl>, bytes: &[u8]) -> Result<Table, Fail> {
    let decl = decl(alloc, columns)?;
    if decl.offset != 0 {
        return Err(Fail::new("an offset"));
    }
    Ok(load(alloc, &decl, bytes)?)
}

/// A table with an `id` (int) and a `title` (text), and the rows of these bytes.
pub fn titles(alloc: Global, bytes: &[u8]) -> Result<Table, Fail> {
    loaded(alloc, columns(alloc, "id", ValueKind::Int, "title")?, bytes)
}

/// One table with the texts a and b.
pub fn table(alloc: Global, bytes: &[u8]) -> Result<Vec<Table>, Fail> {
    let mut tables = Vec::new(alloc);
    tables.push(loaded(alloc, columns(alloc, "a", ValueKind::Text, "b")?, bytes)?)?;
    Ok(tables)
}

/// That the variable is in the class.
pub fn in_class(class: u32) -> Atom
    ensures known { KnownAtom result }
    ensures stands { 1 ≤ atom_occurs (record { 0 = 0 }) result }
{
    Atom::InClass(ClassId(class), Arg::Var(VarId(0)))
}

/// That the variable is linked to another by the link of this number.
pub fn linked(link: u32) -> Atom
    ensures known { KnownAtom result }
    ensures stands { 1 ≤ atom_occurs (record { 0 = 0 }) result }
{
    Atom::Linked(LinkId(link), Arg::Var(VarId(0)), Arg::Var(VarId(1)))
}

fn atoms_of(alloc: Global, first: Atom, second: Option<Atom>) -> Result<List<Atom>, AllocError>
    ensures { IfOk result (λ atoms. atoms ≡ first ∷ option_to_list second) }
{
    let mut atoms = List::new(alloc);
    atoms.push(first)?;
    match second {
        Some(second) => {
            atoms.push(second)?;
            Ok(atoms)
        }
        None => Ok(atoms),
    }
}

/// The objects of which the atoms hold.
pub fn query(alloc: Global, first: Atom, second: Option<Atom>) -> Result<Query, AllocError>
    requires first { KnownAtom first }
    requires second { IfSome second KnownAtom }
    requires stands { 1 ≤ atom_occurs (record { 0 = 0 }) first }
    ensures known { IfOk result KnownConstants }
    ensures stands { IfOk result HeadStands }
    ensures head { IfOk result (λ q. length q.head ≡ 1) }
    ensures few { IfOk result (λ q. length q.atoms ≤ 2) }
{
    let atoms = atoms_of(alloc, first, second)?;
    let mut head = List::new(alloc);
    head.push(Arg::Var(VarId(0)))?;
    Ok(Query { head, atoms })
}
