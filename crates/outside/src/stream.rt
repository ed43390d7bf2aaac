//! A sink over a real stream. It tells no bytes.
ghost use Rattle.std.specs.Prelude.{◌≡◌, false, None};

use crate::{Sink, Stop};
use std::io::Write;

/// A sink over any writer, as standard output. It wants no memory.
///
/// One call of `write` makes one call of the writer's. Each error raises `faults`, and so does a
/// writer that takes nothing of a piece that is not empty.
#[derive(Drop)]
pub struct StreamSink<W: Write + Drop> {
    inner: W,
    failed: bool,
    faults: u64,
}

impl<W: Write + Drop> StreamSink<W> {
    /// A sink that writes to `inner`, and drops it in the end.
    pub fn new(inner: W) -> Self
        ensures wants { ⟦<StreamSink<W> as Sink>⟧.wants result ≡ false }
        ensures failed { ⟦<StreamSink<W> as Sink>⟧.failed result ≡ false }
        ensures faults { ⟦<StreamSink<W> as Sink>⟧.faults result ≡ 0 }
    {
        StreamSink {
            inner,
            failed: false,
            faults: 0,
        }
    }
}

impl<W: Write + Drop> Sink for StreamSink<W> {
    ghost written = { λ s. None };

    ghost failed = { λ s. s.failed };

    ghost wants = { λ s. false };

    ghost faults = { λ s. s.faults };

    fn write(&mut self, piece: &[u8]) -> Result<usize, Stop> {
        self.failed = false;
        match self.inner.write(piece) {
            Ok(count) if count > 0 || piece.is_empty() => Ok(count),
            _ => {
                self.failed = true;
                self.faults = self.faults.saturating_add(1);
                Err(Stop::Failed)
            }
        }
    }
}
