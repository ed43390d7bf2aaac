//! The summary of a report.
ghost use Rattle.std.specs.Prelude.{◌≡◌, ◌==◌, not, IfOk};
ghost use Rattle.big_project.specs.Summary.{first_line};

use std::alloc::{AllocError, Global};
use vocabulary::List;

/// The first line of a text, with its end.
pub fn first_line(alloc: Global, text: &[u8]) -> Result<List<u8>, AllocError>
    ensures { IfOk result (λ line. line ≡ first_line text.now) }
{
    let mut out = Vec::new(alloc);
    for byte in text {
        if *byte == b'\n' {
            break;
        }
        out.push(*byte)?;
    }
    out.push(b'\n')?;
    Ok(List::from_vec(out))
}
