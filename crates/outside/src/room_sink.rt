//! A sink in memory of a room that is taken at once.
ghost use Rattle.std.specs.Prelude.{◌≡◌, ◌≢◌, ◌↔◌, ◌<◌, ◌-◌, min, false, IsTrue, [], ◌++◌, length, take, Some, Err, IfOk, OnErr};
ghost use Rattle.std.specs.Io.{WritesAtMost};
ghost use Rattle.outside.specs.Counts.{next_count, CountsWrite};

use crate::{Sink, Stop, fill};
use std::alloc::{AllocError, Global};
use std::marker::Model;

/// A sink in memory that holds so many bytes and no more. It takes its room when it is made, and wants
/// no memory for what is written.
#[derive(Drop)]
pub struct RoomSink {
    bytes: Vec<u8>,
    len: usize,
    failed: bool,
    faults: u64,
}

impl Model for RoomSink {
    ghost use Rattle.std.specs.Prelude.{◌≤◌, length, take};
    ghost use Rattle.outside.specs.States.{RoomySink};

    ghost Value = { RoomySink };

    ghost view = { λ s. record { written = take s.len s.bytes.items; room = length s.bytes.items; failed = s.failed; faults = s.faults } };

    ghost invariant = { λ s. s.len ≤ length s.bytes.items };
}

impl RoomSink {
    /// An empty sink with room for so many bytes.
    pub fn new(alloc: Global, room: usize) -> Result<Self, AllocError>
        ensures { IfOk result (λ sink. sink ≡ record { written = []; room = room; failed = false; faults = 0 }) }
    {
        let bytes = vec![in alloc; 0; room]?;
        Ok(RoomSink {
            bytes,
            len: 0,
            failed: false,
            faults: 0,
        })
    }

    /// All that was written.
    pub fn written(&self) -> &[u8]
        ensures { result.now ≡ self.now.written }
    {
        &self.bytes[..self.len]
    }
}

impl Sink for RoomSink {
    ghost written = { λ s. Some s.written };

    ghost failed = { λ s. s.failed };

    ghost wants = { λ s. false };

    ghost faults = { λ s. s.faults };

    fn write(&mut self, piece: &[u8]) -> Result<usize, Stop>
        ensures bound { WritesAtMost result piece.now }
        ensures progress { IfOk result (λ n. 0 < length piece.now → 0 < n) }
        ensures count { IfOk result (λ n. n ≡ min (length piece.now) (self.old.room - length self.old.written)) }
        ensures bytes { IfOk result (λ n. self.new.written ≡ self.old.written ++ take n piece.now) }
        ensures err { OnErr result (self.new.written ≡ self.old.written) }
        ensures memory { result ≢ Err Stop.NoMemory }
        ensures room { self.new.room ≡ self.old.room }
        ensures last { IsTrue self.new.failed ↔ (result ≡ Err Stop.Failed) }
        ensures counts { CountsWrite self.old.faults self.new.faults result }

        // It fails exactly where no room is left for any of the piece.
        ensures full { (result ≡ Err Stop.Failed) ↔ ((piece.now ≢ []) × (length self.old.written ≡ self.old.room)) }
    {
        let count = fill(&mut self.bytes, self.len, piece);
        self.failed = count == 0 && !piece.is_empty();
        if self.failed {
            self.faults = self.faults.saturating_add(1);
            return Err(Stop::Failed);
        }
        self.len += count;
        Ok(count)
    }
}
