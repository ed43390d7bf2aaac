//! What small files are, by RFC 4180 and the definitions, and that calls succeed where there is memory.
use source_tables::{ColumnDecl, Table, TableDecl, load, read_value};
use std::alloc::{AllocError, Global};
use std::test::Fail;
use vocabulary::{ColId, List, Name, ValueKind};

// Files of papers with the key `id`, and behind each its rows or its first fault. A `^` stands for the
// end of a line, and each character for the byte of its number.
const FILES: &str = "id,title^1,a^2,b^3,c^4,d^2,e => DoubleKey(2, 5)
id,title^7,a^007,b => DoubleKey(1, 2)
id,title^,a => NullKey(1)
id,title^1,a^2 => Width(2)
\u{EF}\u{BB}\u{BF}id,title\r^1,a\r^ => 1|a|;
x,title,id^q,a,+05^ => 5|a|;
id,title^1,\u{FF} => NotUtf8(1)
id,title^1,a\x07 => BadChar(1, ColId(1))
id,title^9223372036854775808,a => BadCell(1, ColId(0))
id,titel^ => Header(ColId(1))
 => Header(ColId(0))";

const QUOTES_AND_LINE_ENDS: &str = "id,title^1,\"a^b\"^ => 1|a^b|;
id,title^1,a\"b^ => 1|a\"b|;
id,title\r1,a\r2,b => 1|a|;2|b|;
id,title^^1,a^\r^ => 1|a|;
id,title^1,\"a => 1|a|;
id,title^1, => 1|-|;
id,title^1,\"\"^ => 1|-|;
id,title,x^1,a,\u{FF} => NotUtf8(1)
id,title^1,a\0 => BadChar(1, ColId(1))
id,title^\u{FF} => Width(1)
id,title^x,\u{FF} => NotUtf8(1)
id,title,id^ => Header(ColId(0))
x,id,title,x^q,1,a,q => 1|a|;";

const ONE_BY_ONE: &str = "id,title^1,a^1, => DoubleKey(1, 2)
id,title^1,a^2, => NullKey(2)
id,title^1,a^2,b^3,a => DoubleKey(1, 3)";

const TOGETHER: &str = "id,title^1,12^11,2 => 1|12|;11|2|;
id,title^1,a^2,a^01,a => DoubleKey(1, 3)";

const WITHOUT_KEYS: &str = "id,title^1,a^1,a^,\"\" => 1|a|;1|a|;-|-|;";

fn add_column(
    alloc: Global,
    columns: &mut List<ColumnDecl>,
    name: &str,
    kind: ValueKind,
) -> Result<(), AllocError> {
    columns.push(ColumnDecl {
        name: Name::new(alloc, name)?,
        header: Name::new(alloc, name)?,
        kind,
    })
}

fn key_of(alloc: Global, cols: &[u32]) -> Result<List<ColId>, AllocError> {
    let mut key = List::new(alloc);
    for col in cols {
        key.push(ColId(*col))?;
    }
    Ok(key)
}

fn keys_of(alloc: Global, keys: &[&[u32]]) -> Result<List<List<ColId>>, AllocError> {
    let mut all = List::new(alloc);
    for key in keys {
        all.push(key_of(alloc, key)?)?;
    }
    Ok(all)
}

fn declared(
    alloc: Global,
    name: &str,
    columns: List<ColumnDecl>,
    keys: &[&[u32]],
) -> Result<TableDecl, AllocError> {
    Ok(TableDecl {
        name: Name::new(alloc, name)?,
        file: Name::new(alloc, name)?,
        offset: 0,
        columns,
        keys: keys_of(alloc, keys)?,
    })
}

// A table with an `id` (int) and a `title` (text).
fn papers(alloc: Global, keys: &[&[u32]]) -> Result<TableDecl, AllocError> {
    let mut columns = List::new(alloc);
    add_column(alloc, &mut columns, "id", ValueKind::Int)?;
    add_column(alloc, &mut columns, "title", ValueKind::Text)?;
    declared(alloc, "paper", columns, keys)
}

// Each cell with a bar behind it, null as `-`, and a semicolon behind each row.
fn rows_text(alloc: Global, table: &Table, width: u32) -> Result<String, AllocError> {
    let mut text = String::new(alloc);
    for row in 0..table.rows() {
        for col in 0..width {
            text.push_str(table.cell(row, ColId(col)).unwrap_or("-"))?;
            text.push('|')?;
        }
        text.push(';')?;
    }
    Ok(text)
}

// The rows of a file in two columns, or its fault. Only tables in UTC are asked.
fn shown(alloc: Global, decl: &TableDecl, bytes: &[u8]) -> Result<String, AllocError> {
    if decl.offset != 0 {
        return String::from_str(alloc, "an offset");
    }
    match load(alloc, decl, bytes) {
        Ok(table) => rows_text(alloc, &table, 2),
        Err(fault) => format!(in alloc; "{fault:?}"),
    }
}

fn bytes_of(alloc: Global, text: &str) -> Result<Vec<u8>, AllocError> {
    let mut bytes = Vec::new(alloc);
    for character in text.chars() {
        let code = character as u32;
        bytes.push(if character == '^' || code > 255 {
            b'\n'
        } else {
            code as u8
        })?;
    }
    Ok(bytes)
}

fn is_shown(alloc: Global, decl: &TableDecl, case: &str) -> Result<bool, AllocError> {
    match case.split_once(" => ") {
        Some((file, want)) => {
            let bytes = bytes_of(alloc, file)?;
            let text = shown(alloc, decl, bytes.as_slice())?;
            Ok(text.as_bytes() == bytes_of(alloc, want)?.as_slice())
        }
        None => Ok(false),
    }
}

// The first of these files of papers that is not what is told of it.
fn unlike<'a>(
    alloc: Global,
    keys: &[&[u32]],
    cases: &'a str,
) -> Result<Option<&'a str>, AllocError> {
    let decl = papers(alloc, keys)?;
    for case in cases.split('\n') {
        if !is_shown(alloc, &decl, case)? {
            return Ok(Some(case));
        }
    }
    Ok(None)
}

#[test]
fn files_are_their_rows_or_their_first_fault(rt: HostRuntime) -> Result<(), Fail> {
    assert!(rt; unlike(rt.alloc(), &[&[0]], FILES)? == None);
    Ok(())
}

#[test]
fn quotes_and_line_ends_are_those_of_csv(rt: HostRuntime) -> Result<(), Fail> {
    assert!(rt; unlike(rt.alloc(), &[&[0]], QUOTES_AND_LINE_ENDS)? == None);
    Ok(())
}

#[test]
fn keys_are_judged_in_declared_order(rt: HostRuntime) -> Result<(), Fail> {
    assert!(rt; unlike(rt.alloc(), &[&[0], &[1]], ONE_BY_ONE)? == None);
    assert!(rt; unlike(rt.alloc(), &[&[0, 1]], TOGETHER)? == None);
    assert!(rt; unlike(rt.alloc(), &[], WITHOUT_KEYS)? == None);
    Ok(())
}

// A table of 64 columns of texts, with the key of all columns, six of two, and the first with the last.
fn wide(alloc: Global) -> Result<TableDecl, AllocError> {
    let mut columns = List::new(alloc);
    for col in 0..64 {
        let name = format!(in alloc; "c{col}")?;
        add_column(alloc, &mut columns, name.as_str(), ValueKind::Text)?;
    }
    let all: [u32; 64] = std::array::from_fn(|col| col as u32);
    let keys: [&[u32]; 8] = [
        &all,
        &[0, 1],
        &[0, 2],
        &[0, 3],
        &[0, 4],
        &[0, 5],
        &[0, 6],
        &[0, 63],
    ];
    declared(alloc, "wide", columns, &keys)
}

fn header(alloc: Global) -> Result<String, AllocError> {
    let mut text = String::from_str(alloc, "c0")?;
    for col in 1..64 {
        text.push_str(format!(in alloc; ",c{col}")?.as_str())?;
    }
    text.push('\n')?;
    Ok(text)
}

// A line with this cell in each of 64 columns but one.
fn line(alloc: Global, cell: &str, but: u32, other: &str) -> Result<String, AllocError> {
    let mut text = String::new(alloc);
    for col in 0..64 {
        text.push_str(if col == but { other } else { cell })?;
        text.push_str(if col < 63 { "," } else { "\n" })?;
    }
    Ok(text)
}

// The header and four lines, of which the first and the last differ in one cell that is in the first key alone.
fn wide_file(alloc: Global, lines: u32) -> Result<String, AllocError> {
    let mut text = header(alloc)?;
    for number in 0..lines {
        let (cell, but, other) = match number {
            0 => ("a", 64, ""),
            1 => ("b", 0, "a"),
            2 => ("c", 0, "a"),
            _ => ("a", 7, "d"),
        };
        text.push_str(line(alloc, cell, but, other)?.as_str())?;
    }
    Ok(text)
}

fn wide_rows(alloc: Global, lines: u32) -> Result<String, AllocError> {
    let decl = wide(alloc)?;
    let file = wide_file(alloc, lines)?;
    shown(alloc, &decl, file.as_bytes())
}

#[test]
fn tables_of_64_columns_and_8_keys(rt: HostRuntime) -> Result<(), Fail> {
    assert!(rt; wide_rows(rt.alloc(), 2)?.as_str() == "a|a|;a|b|;");
    assert!(rt; wide_rows(rt.alloc(), 4)?.as_str() == "DoubleKey(1, 4)");
    Ok(())
}

fn is_keyed(table: &Table) -> bool {
    table.has_key(&[ColId(1), ColId(0)]) && !table.has_key(&[ColId(1)])
}

fn has_one_row_of_two(table: &Table) -> bool {
    table.cell(1, ColId(0)) == None && table.cell(0, ColId(2)) == None
}

fn are_columns_of_a_key(alloc: Global) -> Result<bool, AllocError> {
    let decl = papers(alloc, &[&[0]])?;
    if decl.offset != 0 {
        return Ok(false);
    }
    match load(alloc, &decl, b"id,title\n1,a\n") {
        Ok(table) => Ok(is_keyed(&table) && has_one_row_of_two(&table)),
        Err(_) => Ok(false),
    }
}

#[test]
fn has_the_columns_of_a_key(rt: HostRuntime) -> Result<(), Fail> {
    assert!(rt; are_columns_of_a_key(rt.alloc())?);
    Ok(())
}

fn is_read(
    alloc: Global,
    kind: ValueKind,
    text: &str,
    want: Option<&str>,
) -> Result<bool, AllocError> {
    let value = read_value(alloc, kind, text, 60)?;
    Ok(value.as_ref().map(|name| name.text()) == want)
}

#[test]
fn values_have_canonical_texts(rt: HostRuntime) -> Result<(), Fail> {
    let values = [
        (ValueKind::Int, "+007", Some("7")),
        (ValueKind::Int, "9223372036854775808", None),
        (ValueKind::Bool, "T", Some("true")),
        (ValueKind::Bool, "y", None),
        (ValueKind::Text, "", None),
        (ValueKind::Text, "a\u{7}", None),
        (ValueKind::Text, "\u{e9}", Some("\u{e9}")),
        (
            ValueKind::Time,
            "2024-03-11",
            Some("2024-03-10T23:00:00.000+00:00"),
        ),
    ];
    for (kind, text, want) in values {
        assert!(rt; is_read(rt.alloc(), kind, text, want)?, "{text}");
    }
    Ok(())
}

fn is_copied(copy: &TableDecl) -> bool {
    copy.file.text() == "paper"
        && copy.offset == -90
        && copy.columns.len() == 2
        && copy.keys.len() == 1
}

fn copied(alloc: Global) -> Result<TableDecl, AllocError> {
    let mut decl = papers(alloc, &[&[0]])?;
    decl.offset = -90;
    decl.copy(alloc)
}

#[test]
fn declarations_are_copied(rt: HostRuntime) -> Result<(), Fail> {
    assert!(rt; is_copied(&copied(rt.alloc())?));
    Ok(())
}
