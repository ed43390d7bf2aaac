//! Writing a whole text.
ghost use Rattle.std.specs.Prelude.{◌≡◌, [], IsTrue, Err, OnOk, OnErr, IsOk};
ghost use Rattle.std.specs.Io.KnownBytes.{Appends};
ghost use Rattle.outside.specs.Counts.{CountsWrite};
ghost use Rattle.outside.specs.Written.{AppendsFront};

use crate::{Sink, Stop};

/// Writes all the bytes, in as many calls as the sink needs. After an `Err` a front of them was
/// written, and none after the call that failed.
#[tactic(auto, using(crate::proofs::Pieces::appends_more))]
pub fn write_all<W: Sink>(sink: &mut W, bytes: &[u8]) -> Result<(), Stop>
    ensures ok { OnOk result (Appends (W.written sink.old) (W.written sink.new) bytes.now) }
    ensures err { OnErr result (AppendsFront (W.written sink.old) (W.written sink.new) bytes.now) }
    ensures nothing { bytes.now ≡ [] → IsOk result }
    ensures memory { result ≡ Err Stop.NoMemory → IsTrue (W.wants sink.old) }
    ensures last { result ≡ Err Stop.Failed → IsTrue (W.failed sink.new) }
    ensures wants { W.wants sink.new ≡ W.wants sink.old }
    ensures counts { CountsWrite (W.faults sink.old) (W.faults sink.new) result }
{
    let mut done = 0;
    while done < bytes.len() {
        let count = sink.write(&bytes[done..])?;
        done += count;
    }
    Ok(())
}
