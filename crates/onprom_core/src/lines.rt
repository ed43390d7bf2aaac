//! The lines that a run stops with.
ghost use Rattle.std.specs.Prelude.{◌≡◌, ◌++◌, IfOk, OnOk, codes, decimal};
ghost use Rattle.line_lexer.specs.Faults.{name_of};
ghost use Rattle.onprom_core.specs.Lines.{answer_refused, cell_refused, column_name, column_refused, limit_line, line_refused, named_line, query_refused, row_refused, rows_refused, table_refused, usage_line, width_refused};

use line_lexer::Counted;
use outside::Bytes;
use source_tables::{TableDecl, TableFault};
use std::alloc::{AllocError, Global};
use vocabulary::ColId;

#[tactic(auto, unfolding(crate::specs::Lines::usage_line))]
pub(crate) fn usage_line(alloc: Global) -> Result<Bytes, AllocError>
    ensures { IfOk result (λ bytes. bytes ≡ usage_line) }
{
    line_of(
        alloc,
        b"usage: extract P | check P | verify P D | answer P Q | rewrite P Q | make N F | why P Q N | lint P | contained P Q Q\n",
    )
}

pub(crate) fn line_of(alloc: Global, line: &[u8]) -> Result<Bytes, AllocError>
    ensures { IfOk result (λ bytes. bytes ≡ line.now) }
{
    let mut bytes = Bytes::new(alloc);
    bytes.append(line)?;
    Ok(bytes)
}

/// A line with a name between two parts.
pub(crate) fn named_line(
    alloc: Global,
    front: &[u8],
    name: &[u8],
    back: &[u8],
) -> Result<Bytes, AllocError>
    ensures { IfOk result (λ bytes. bytes ≡ named_line front.now name.now back.now) }
{
    let mut bytes = Bytes::new(alloc);
    bytes.append(front)?;
    bytes.append(name)?;
    bytes.append(back)?;
    Ok(bytes)
}

/// The line of a count that passes its number.
pub(crate) fn limit_line(alloc: Global, what: Counted) -> Result<Bytes, AllocError>
    ensures { IfOk result (λ bytes. bytes ≡ limit_line (name_of what)) }
{
    named_line(alloc, b"limit: ", what.name().as_bytes(), b"\n")
}

// A refusal of a file so far: `refused: FILE`.
fn refused(alloc: Global, file: &str) -> Result<Bytes, AllocError>
    ensures { IfOk result (λ bytes. bytes ≡ codes "refused: " ++ file.now) }
{
    let mut bytes = Bytes::new(alloc);
    bytes.append(b"refused: ")?;
    bytes.append(file.as_bytes())?;
    Ok(bytes)
}

/// A line with a number behind its front.
pub(crate) fn numbered_line(alloc: Global, front: &[u8], number: u64) -> Result<Bytes, AllocError>
    ensures { IfOk result (λ bytes. bytes ≡ named_line front.now (decimal number) (codes "\n")) }
{
    let digits = number.to_string(alloc)?;
    named_line(alloc, front, digits.as_bytes(), b"\n")
}

// A word and a number, with spaces before each.
fn push_number(alloc: Global, bytes: &mut Bytes, word: &[u8], number: u32) -> Result<(), AllocError>
    ensures { OnOk result (bytes.new ≡ bytes.old ++ word.now ++ decimal number) }
{
    let digits = number.to_string(alloc)?;
    bytes.append(word)?;
    bytes.append(digits.as_bytes())?;
    Ok(())
}

// The kind of a fault, behind a colon, and the end of the line.
fn push_kind(bytes: &mut Bytes, kind: &str) -> Result<(), AllocError>
    ensures { OnOk result (bytes.new ≡ bytes.old ++ codes ": " ++ kind.now ++ codes "\n") }
{
    bytes.append(b": ")?;
    bytes.append(kind.as_bytes())?;
    bytes.append(b"\n")?;
    Ok(())
}

/// A line of a file with a fault of this kind.
#[tactic(auto, unfolding(crate::specs::Lines::line_refused))]
pub(crate) fn line_refused(
    alloc: Global,
    file: &str,
    line: u32,
    kind: &str,
) -> Result<Bytes, AllocError>
    ensures { IfOk result (λ bytes. bytes ≡ line_refused file.now line kind.now) }
{
    let mut bytes = refused(alloc, file)?;
    push_number(alloc, &mut bytes, b" line ", line)?;
    push_kind(&mut bytes, kind)?;
    Ok(bytes)
}

/// The name of a query that is not there.
#[tactic(auto, unfolding(crate::specs::Lines::query_refused))]
pub(crate) fn query_refused(alloc: Global, name: &str) -> Result<Bytes, AllocError>
    ensures { IfOk result (λ bytes. bytes ≡ query_refused name.now) }
{
    named_line(alloc, b"refused: query ", name.as_bytes(), b": Unknown\n")
}

/// The name of a second query whose head is longer or shorter than that of the first.
#[tactic(auto, unfolding(crate::specs::Lines::width_refused))]
pub(crate) fn width_refused(alloc: Global, name: &str) -> Result<Bytes, AllocError>
    ensures { IfOk result (λ bytes. bytes ≡ width_refused name.now) }
{
    named_line(alloc, b"refused: query ", name.as_bytes(), b": HeadWidth\n")
}

/// The number of an answer, where there are fewer.
#[tactic(auto, unfolding(crate::specs::Lines::answer_refused))]
pub(crate) fn answer_refused(alloc: Global, number: u32) -> Result<Bytes, AllocError>
    ensures { IfOk result (λ bytes. bytes ≡ answer_refused number) }
{
    let digits = number.to_string(alloc)?;
    named_line(
        alloc,
        b"refused: answer ",
        digits.as_bytes(),
        b": Unknown\n",
    )
}

#[tactic(auto, unfolding(crate::specs::Lines::row_refused))]
fn row_refused(alloc: Global, file: &str, row: u32, kind: &str) -> Result<Bytes, AllocError>
    ensures { IfOk result (λ bytes. bytes ≡ row_refused file.now row kind.now) }
{
    let mut bytes = refused(alloc, file)?;
    push_number(alloc, &mut bytes, b" row ", row)?;
    push_kind(&mut bytes, kind)?;
    Ok(bytes)
}

#[tactic(auto, unfolding(crate::specs::Lines::rows_refused))]
fn rows_refused(alloc: Global, file: &str, one: u32, two: u32) -> Result<Bytes, AllocError>
    ensures { IfOk result (λ bytes. bytes ≡ rows_refused file.now one two) }
{
    let mut bytes = refused(alloc, file)?;
    push_number(alloc, &mut bytes, b" rows ", one)?;
    push_number(alloc, &mut bytes, b" ", two)?;
    push_kind(&mut bytes, "DoubleKey")?;
    Ok(bytes)
}

#[tactic(auto, unfolding(crate::specs::Lines::cell_refused))]
fn cell_refused(
    alloc: Global,
    file: &str,
    row: u32,
    column: &str,
    kind: &str,
) -> Result<Bytes, AllocError>
    ensures { IfOk result (λ bytes. bytes ≡ cell_refused file.now row column.now kind.now) }
{
    let mut bytes = refused(alloc, file)?;
    push_number(alloc, &mut bytes, b" row ", row)?;
    bytes.append(b" column ")?;
    bytes.append(column.as_bytes())?;
    push_kind(&mut bytes, kind)?;
    Ok(bytes)
}

#[tactic(auto, unfolding(crate::specs::Lines::column_refused))]
fn column_refused(alloc: Global, file: &str, column: &str) -> Result<Bytes, AllocError>
    ensures { IfOk result (λ bytes. bytes ≡ column_refused file.now column.now) }
{
    let mut bytes = refused(alloc, file)?;
    bytes.append(b" column ")?;
    bytes.append(column.as_bytes())?;
    push_kind(&mut bytes, "Header")?;
    Ok(bytes)
}

fn column_name(decl: &TableDecl, column: ColId) -> &str
    ensures { result.now ≡ column_name decl.now column }
{
    match decl.columns.items().get(column.0 as usize) {
        Some(found) => found.name.text(),
        None => "",
    }
}

/// The line of a table's fault, none for a limit and for want of memory.
pub(crate) fn table_refused(
    alloc: Global,
    decl: &TableDecl,
    fault: TableFault,
) -> Result<Bytes, AllocError>
    ensures { IfOk result (λ bytes. bytes ≡ table_refused decl.now fault) }
{
    let file = decl.file.text();
    match fault {
        TableFault::Header(c) => column_refused(alloc, file, column_name(decl, c)),
        TableFault::NotUtf8(row) => row_refused(alloc, file, row, "NotUtf8"),
        TableFault::Width(row) => row_refused(alloc, file, row, "Width"),
        TableFault::BadCell(row, c) => cell_refused(
            alloc,
            file,
            row,
            column_name(decl, c),
            "BadCell",
        ),
        TableFault::BadChar(row, c) => cell_refused(
            alloc,
            file,
            row,
            column_name(decl, c),
            "BadChar",
        ),
        TableFault::NullKey(row) => row_refused(alloc, file, row, "NullKey"),
        TableFault::DoubleKey(one, two) => rows_refused(alloc, file, one, two),
        TableFault::TooManyRows => Ok(Bytes::new(alloc)),
        TableFault::NoMemory => Ok(Bytes::new(alloc)),
    }
}
