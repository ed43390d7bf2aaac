//! Where bytes are written.
ghost use Rattle.std.specs.Prelude.{◌≡◌, ◌↔◌, ◌<◌, Bool, IsTrue, ℕ, List, length, Option, IfOk, Err};
ghost use Rattle.std.specs.Io.{WritesAtMost};
ghost use Rattle.std.specs.Io.KnownBytes.{WriteAppends};
ghost use Rattle.outside.specs.Counts.{CountsWrite};

/// Why a write stopped.
#[derive(Clone, Copy, Debug, PartialEq, Eq)]
pub enum Stop {
    /// The sink could not take the piece.
    Failed,
    /// The sink wanted memory that it did not get.
    NoMemory,
}

/// Bytes that only grow at the end.
pub trait Sink {
    /// The bytes written so far, where the sink tells.
    ghost written: { Self → Option (List ℕ) };

    /// Whether the last call failed.
    ghost failed: { Self → Bool };

    /// Whether the sink wants memory. It never changes.
    ghost wants: { Self → Bool };

    /// How many calls have failed. The count stops at 2^64 - 1.
    ghost faults: { Self → ℕ };

    /// Appends a front of the piece and answers its length. An `Err` appends nothing.
    fn write(&mut self, piece: &[u8]) -> Result<usize, Stop>
        ensures bound { WritesAtMost result piece.now }
        ensures progress { IfOk result (λ n. 0 < length piece.now → 0 < n) }
        ensures bytes { WriteAppends (written self.old) (written self.new) result piece.now }
        ensures memory { result ≡ Err Stop.NoMemory → IsTrue (wants self.old) }
        ensures last { IsTrue (failed self.new) ↔ (result ≡ Err Stop.Failed) }
        ensures wants { wants self.new ≡ wants self.old }
        ensures counts { CountsWrite (faults self.old) (faults self.new) result };
}
