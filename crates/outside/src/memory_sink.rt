//! A sink in memory whose calls fail where they are told to.
ghost use Rattle.std.specs.Prelude.{◌≡◌, ◌↔◌, ◌<◌, min, max, true, false, IsTrue, [], ◌∷◌, ◌++◌, length, take, Some, Err, IfOk, OnOk, OnErr, Contains};
ghost use Rattle.std.specs.Io.{WritesAtMost};
ghost use Rattle.outside.specs.Counts.{next_count, CountsWrite};

use crate::calls::Calls;
use crate::{Bytes, Sink, Stop};
use std::alloc::{AllocError, Global};
use std::marker::Model;

/// A sink in memory that takes at most so many bytes of a piece, and whose calls fail exactly where
/// `fail_at` was given their number. It wants memory.
///
/// Calls of `write` are counted from 1.
#[derive(Drop)]
pub struct MemorySink {
    bytes: Bytes,
    most: usize,
    failed: bool,
    calls: Calls,
}

impl Model for MemorySink {
    ghost use Rattle.outside.specs.States.{FailingSink};

    ghost Value = { FailingSink };

    ghost view = { λ s. record { written = s.bytes; most = s.most; failed = s.failed; calls = s.calls } };
}

impl MemorySink {
    /// An empty sink that takes at most `most` bytes of a piece, and one where `most` is 0.
    pub fn new(alloc: Global, most: usize) -> Self
        ensures { result ≡ record {
          written = [];
          most = most;
          failed = false;
          calls = record { made = 0; failing = []; faults = 0 };
        } }
    {
        MemorySink {
            bytes: Bytes::new(alloc),
            most,
            failed: false,
            calls: Calls::new(alloc),
        }
    }

    /// All that was written.
    pub fn written(&self) -> &[u8]
        ensures { result.now ≡ self.now.written }
    {
        self.bytes.slice()
    }

    /// Makes the call of `write` with this number fail, counted from 1. An `Err` changes nothing.
    pub fn fail_at(&mut self, call: u64) -> Result<(), AllocError>
        ensures ok { OnOk result (self.new ≡ record self.old {
          calls = record self.old.calls {
            failing = self.old.calls.failing ++ call ∷ [];
          };
        }) }
        ensures err { OnErr result (self.new ≡ self.old) }
    {
        self.calls.fail_at(call)
    }
}

impl Sink for MemorySink {
    ghost written = { λ s. Some s.written };

    ghost failed = { λ s. s.failed };

    ghost wants = { λ s. true };

    ghost faults = { λ s. s.calls.faults };

    fn write(&mut self, piece: &[u8]) -> Result<usize, Stop>
        ensures bound { WritesAtMost result piece.now }
        ensures progress { IfOk result (λ n. 0 < length piece.now → 0 < n) }
        ensures count { IfOk result (λ n. n ≡ min (max self.old.most 1) (length piece.now)) }
        ensures bytes { IfOk result (λ n. self.new.written ≡ self.old.written ++ take n piece.now) }
        ensures err { OnErr result (self.new.written ≡ self.old.written) }
        ensures most { self.new.most ≡ self.old.most }
        ensures last { IsTrue self.new.failed ↔ (result ≡ Err Stop.Failed) }
        ensures counts { CountsWrite self.old.calls.faults self.new.calls.faults result }

        // The call is counted, and fails exactly where its number was chosen.
        ensures counted { self.new.calls.made ≡ next_count self.old.calls.made }
        ensures fails { (result ≡ Err Stop.Failed) ↔ Contains self.old.calls.failing (next_count self.old.calls.made) }
        ensures failing { self.new.calls.failing ≡ self.old.calls.failing }
    {
        self.failed = self.calls.next_fails();
        if self.failed {
            return Err(Stop::Failed);
        }
        let count = self.most.max(1).min(piece.len());
        match self.bytes.append(&piece[..count]) {
            Ok(()) => Ok(count),
            Err(AllocError) => Err(Stop::NoMemory),
        }
    }
}
