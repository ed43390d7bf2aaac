//! The XES text of a log, as a whole.
ghost use Rattle.std.specs.Prelude.{◌≡◌, IfOk};
ghost use Rattle.xes_writer.specs.Xes.{xes_text};

use crate::{Log, write_log};
use outside::SureSink;
use std::alloc::{AllocError, Global};
use vocabulary::Name;

/// The bytes of the XES text of a log of texts.
pub fn log_text(alloc: Global, log: &Log<Name>) -> Result<Vec<u8>, AllocError>
    ensures { IfOk result (λ v. v.items ≡ xes_text log.now) }
{
    let mut sink = SureSink::new(alloc);
    match write_log(log, &mut sink) {
        Ok(()) => Ok(sink.into_written()),
        Err(_) => Err(AllocError),
    }
}
