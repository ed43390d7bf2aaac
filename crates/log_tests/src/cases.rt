//! Runs over files in memory, and all that they tell as one text.
//!
//! What a run tells is its exit code, the text, a line `--` and the report. A case is the words, parts that
//! each begin with a line `@ FILE`, and behind `=> ` what is told, but for the last line end.
use onprom_core::{Status, run};
use outside::{Bytes, Shelf, SureShelf, SureSink, Words};
use std::alloc::{AllocError, Global};

/// The words of a line.
pub(crate) fn words_of(alloc: Global, all: &str) -> Result<Words, AllocError> {
    let mut words = Words::new(alloc);
    for word in all.split_whitespace() {
        words.push(word)?;
    }
    Ok(words)
}

fn add(shelf: &mut SureShelf, name: &str, text: &str) -> Result<(), AllocError> {
    if !shelf.holds(name) {
        shelf.add_file(name, text.as_bytes())?;
    }
    Ok(())
}

fn add_parts(shelf: &mut SureShelf, case: &str) -> Result<(), AllocError> {
    for part in case.split("\n@ ").skip(1) {
        if let Some((name, text)) = part.split_once('\n') {
            add(shelf, name, text)?;
        }
    }
    Ok(())
}

/// The files that a case has, and of these files those that it has not.
pub(crate) fn shelf_of(
    alloc: Global,
    case: &str,
    files: &[(&str, &str)],
) -> Result<SureShelf, AllocError> {
    let mut shelf = SureShelf::new(alloc);
    add_parts(&mut shelf, case)?;
    for (name, text) in files {
        add(&mut shelf, name, text)?;
    }
    Ok(shelf)
}

fn joined(alloc: Global, status: Status, text: &[u8], report: &[u8]) -> Result<Bytes, AllocError> {
    let code = format!(in alloc; "{}\n", status.code())?;
    let mut told = Bytes::new(alloc);
    told.append(code.as_str().as_bytes())?;
    told.append(text)?;
    told.append(b"--\n")?;
    told.append(report)?;
    Ok(told)
}

/// What a run by these words tells.
pub(crate) fn told<S: Shelf>(
    alloc: Global,
    shelf: &mut S,
    words: &str,
) -> Result<Bytes, AllocError> {
    let words = words_of(alloc, words)?;
    let mut out = SureSink::new(alloc);
    let mut report = SureSink::new(alloc);
    let status = run(alloc, &words, shelf, &mut out, &mut report);
    joined(alloc, status, out.written(), report.written())
}

/// Whether a run by these words tells this.
pub(crate) fn tells<S: Shelf>(
    alloc: Global,
    shelf: &mut S,
    words: &str,
    want: &str,
) -> Result<bool, AllocError> {
    let told = told(alloc, shelf, words)?;
    Ok(told.slice().strip_suffix(b"\n") == Some(want.as_bytes()))
}

/// The same over these files.
pub(crate) fn tells_over(
    alloc: Global,
    files: &[(&str, &str)],
    words: &str,
    want: &str,
) -> Result<bool, AllocError> {
    let mut shelf = shelf_of(alloc, "", files)?;
    tells(alloc, &mut shelf, words, want)
}

/// Whether a case holds over its own files and these.
pub(crate) fn holds(alloc: Global, files: &[(&str, &str)], case: &str) -> Result<bool, AllocError> {
    match case.split_once("\n=> ") {
        Some((front, want)) => {
            let mut shelf = shelf_of(alloc, front, files)?;
            tells(alloc, &mut shelf, front.lines().next().unwrap_or(""), want)
        }
        None => Ok(false),
    }
}

/// The text with each first part of a pair, where it first stands, changed into the second; empty where
/// one does not stand there.
pub(crate) fn changed(
    alloc: Global,
    text: &str,
    pairs: &[(&str, &str)],
) -> Result<String, AllocError> {
    let mut now = String::from_str(alloc, text)?;
    for (old, new) in pairs {
        now = match now.as_str().split_once(*old) {
            Some((front, back)) => format!(in alloc; "{front}{new}{back}")?,
            None => String::new(alloc),
        };
    }
    Ok(now)
}

fn push_numbered(text: &mut String, piece: &str, number: &str) -> Result<(), AllocError> {
    let mut parts = piece.split('%');
    text.push_str(parts.next().unwrap_or(""))?;
    for part in parts {
        text.push_str(number)?;
        text.push_str(part)?;
    }
    Ok(())
}

fn push_repeated(
    alloc: Global,
    text: &mut String,
    piece: &str,
    count: u32,
) -> Result<(), AllocError> {
    for number in 1..=count {
        let digits = number.to_string(alloc)?;
        push_numbered(text, piece, digits.as_str())?;
    }
    Ok(())
}

/// The text with each part in brackets so often, numbered from 1 where it has a `%`.
pub(crate) fn repeated(alloc: Global, text: &str, counts: &[u32]) -> Result<String, AllocError> {
    let mut parts = text.split('[');
    let mut all = String::from_str(alloc, parts.next().unwrap_or(""))?;
    for (part, count) in parts.zip(counts) {
        if let Some((piece, behind)) = part.split_once(']') {
            push_repeated(alloc, &mut all, piece, *count)?;
            all.push_str(behind)?;
        }
    }
    Ok(all)
}
