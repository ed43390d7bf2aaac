//! Whether a query is contained in another, in a line.
ghost use Rattle.std.specs.Prelude.{◌≡◌, ◌++◌, IfOk, OnOk};
ghost use Rattle.answer_text.specs.Containment.{containment_report, containment_text, cover_line};

use crate::pieces::{push, push_number};
use std::alloc::{AllocError, Global};
use vocabulary::List;

/// The line that names the printed query by its number, or tells that there is none.
pub fn containment_text(alloc: Global, number: Option<u32>) -> Result<List<u8>, AllocError>
    ensures { IfOk result (λ text. text ≡ containment_text number) }
{
    let mut out = Vec::new(alloc);
    match number {
        Some(number) => push_cover(alloc, &mut out, number)?,
        None => push(&mut out, "not contained\n")?,
    }
    Ok(List::from_vec(out))
}

fn push_cover(alloc: Global, out: &mut Vec<u8>, number: u32) -> Result<(), AllocError>
    ensures { OnOk result (out.new.items ≡ out.old.items ++ cover_line number) }
{
    push(out, "contained by ")?;
    push_number(alloc, out, number as u64)?;
    push(out, "\n")
}

/// The line that counts what contains: 1 or 0.
pub fn containment_report(alloc: Global, number: Option<u32>) -> Result<List<u8>, AllocError>
    ensures { IfOk result (λ text. text ≡ containment_report number) }
{
    let mut out = Vec::new(alloc);
    match number {
        Some(_) => push(&mut out, "contained 1\n")?,
        None => push(&mut out, "contained 0\n")?,
    }
    Ok(List::from_vec(out))
}
