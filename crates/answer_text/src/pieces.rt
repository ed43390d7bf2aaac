//! Pieces of texts.
ghost use Rattle.std.specs.Prelude.{◌≡◌, ◌++◌, [], codes, decimal, get_or, IfOk, OnOk};
ghost use Rattle.std.specs.List.{flat_map};
ghost use Rattle.answer_text.specs.Answers.{escaped_byte, quoted};

use std::alloc::{AllocError, Global};
use vocabulary::{List, Name};

pub(crate) fn push(out: &mut Vec<u8>, text: &str) -> Result<(), AllocError>
    ensures { OnOk result (out.new.items ≡ out.old.items ++ text.now) }
{
    out.extend_from_slice(text.as_bytes())
}

fn push_byte(out: &mut Vec<u8>, byte: u8) -> Result<(), AllocError>
    ensures { OnOk result (out.new.items ≡ out.old.items ++ escaped_byte byte) }
{
    match byte {
        b'\\' => out.extend_from_slice(b"\\\\"),
        b'"' => out.extend_from_slice(b"\\\""),
        b'\t' => out.extend_from_slice(b"\\t"),
        b'\n' => out.extend_from_slice(b"\\n"),
        b'\r' => out.extend_from_slice(b"\\r"),
        _ => out.extend_from_slice(&[byte]),
    }
}

fn push_escaped(out: &mut Vec<u8>, text: &[u8]) -> Result<(), AllocError>
    ensures { OnOk result (out.new.items ≡ out.old.items ++ flat_map escaped_byte text.now) }
{
    for byte in text {
        push_byte(out, *byte)?;
    }
    Ok(())
}

/// A value in double quotes.
pub(crate) fn push_quoted(out: &mut Vec<u8>, text: &str) -> Result<(), AllocError>
    ensures { OnOk result (out.new.items ≡ out.old.items ++ quoted text.now) }
{
    push(out, "\"")?;
    push_escaped(out, text.as_bytes())?;
    push(out, "\"")
}

/// The name of this number, nothing where it has none.
pub(crate) fn push_name(out: &mut Vec<u8>, names: &[Name], number: u32) -> Result<(), AllocError>
    ensures { OnOk result (out.new.items ≡ out.old.items ++ get_or names.now number []) }
{
    match names.get(number as usize) {
        Some(name) => push(out, name.text()),
        None => Ok(()),
    }
}

/// A number in decimal.
pub(crate) fn push_number(alloc: Global, out: &mut Vec<u8>, number: u64) -> Result<(), AllocError>
    ensures { OnOk result (out.new.items ≡ out.old.items ++ decimal number) }
{
    let digits = number.to_string(alloc)?;
    push(out, digits.as_str())
}

/// The line of a word and a count.
pub(crate) fn count_line(alloc: Global, word: &str, count: usize) -> Result<List<u8>, AllocError>
    ensures { IfOk result (λ line. line ≡ word.now ++ decimal count ++ codes "\n") }
{
    let mut out = Vec::new(alloc);
    push(&mut out, word)?;
    push_number(alloc, &mut out, count as u64)?;
    push(&mut out, "\n")?;
    Ok(List::from_vec(out))
}
