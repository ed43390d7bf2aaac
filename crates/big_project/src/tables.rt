//! The tables of documents and of steps.
ghost use Rattle.std.specs.Prelude.{◌≡◌, ◌<◌, ◌++◌, codes, decimal, IfOk, OnOk};
ghost use Rattle.big_project.specs.Files.{day_and_hour, doc_file, doc_line, step_file, step_line, two_digits};

use std::alloc::{AllocError, Global};
use vocabulary::List;

fn push(out: &mut Vec<u8>, text: &str) -> Result<(), AllocError>
    ensures { OnOk result (out.new.items ≡ out.old.items ++ text.now) }
{
    out.extend_from_slice(text.as_bytes())
}

fn push_number(alloc: Global, out: &mut Vec<u8>, number: u64) -> Result<(), AllocError>
    ensures { OnOk result (out.new.items ≡ out.old.items ++ decimal number) }
{
    let digits = number.to_string(alloc)?;
    push(out, digits.as_str())
}

fn push_two_digits(out: &mut Vec<u8>, number: u64) -> Result<(), AllocError>
    requires { number < 100 }
    ensures { OnOk result (out.new.items ≡ out.old.items ++ two_digits number) }
{
    let tens = b'0' + (number / 10) as u8;
    let ones = b'0' + (number % 10) as u8;
    out.extend_from_slice(&[tens, ones])
}

// The rest of a time behind its month.
fn push_day_and_hour(out: &mut Vec<u8>, number: u64) -> Result<(), AllocError>
    ensures { OnOk result (out.new.items ≡ out.old.items ++ day_and_hour number) }
{
    push_two_digits(out, 1 + number % 28)?;
    push(out, "T")?;
    push_two_digits(out, number % 24)?;
    push(out, ":00")
}

fn push_doc(alloc: Global, out: &mut Vec<u8>, doc: u64) -> Result<(), AllocError>
    ensures { OnOk result (out.new.items ≡ out.old.items ++ doc_line doc) }
{
    push_number(alloc, out, doc)?;
    push(out, ",")?;
    if doc % 10 != 0 {
        push(out, "2024-01-")?;
        push_day_and_hour(out, doc)?;
    }
    push(out, "\n")
}

fn push_step(alloc: Global, out: &mut Vec<u8>, docs: u64, step: u64) -> Result<(), AllocError>
    requires { 0 < docs }
    ensures { OnOk result (out.new.items ≡ out.old.items ++ step_line docs step) }
{
    push_number(alloc, out, step)?;
    push(out, ",")?;
    push_number(alloc, out, 1 + step % docs)?;
    push(out, ",")?;
    if step % 5 != 0 {
        push(out, "2024-02-")?;
        push_day_and_hour(out, step)?;
    }
    push(out, "\n")
}

/// The table of this many documents.
#[tactic(auto, unfolding(crate::specs::Files::doc_file))]
pub fn doc_text(alloc: Global, docs: u32) -> Result<List<u8>, AllocError>
    ensures { IfOk result (λ text. text ≡ doc_file docs) }
{
    let mut out = Vec::new(alloc);
    push(&mut out, "id,made\n")?;
    for before in 0..docs as u64 {
        push_doc(alloc, &mut out, before + 1)?;
    }
    Ok(List::from_vec(out))
}

/// The table of the steps of this many documents, two for each.
#[tactic(auto, unfolding(crate::specs::Files::step_file))]
pub fn step_text(alloc: Global, docs: u32) -> Result<List<u8>, AllocError>
    ensures { IfOk result (λ text. text ≡ step_file docs) }
{
    let docs = docs as u64;
    let mut out = Vec::new(alloc);
    push(&mut out, "id,doc,done\n")?;
    for before in 0..2 * docs {
        push_step(alloc, &mut out, docs, before + 1)?;
    }
    Ok(List::from_vec(out))
}
