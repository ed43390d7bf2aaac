//! Named files to read from.
ghost use Rattle.std.specs.Prelude.{◌≡◌, ◌↔◌, Bool, false, IsTrue, ℕ, List, Option, None, is_some, IsErr, IfOk, IfSome, OnErr};
ghost use Rattle.std.specs.Io.{ReadsAtMost};
ghost use Rattle.std.specs.Io.KnownBytes.{ReadConsumes};
ghost use Rattle.outside.specs.Counts.{CountsBegin, CountsRead};
ghost use Rattle.outside.specs.Files.{bytes_of};

/// A call on a shelf failed.
#[derive(Clone, Copy, Debug, PartialEq, Eq)]
pub struct Failed;

/// Files by name, of which one at a time is current and is read from its front on.
///
/// A shelf may tell what it holds, as one in memory does; of a shelf that tells nothing the
/// contracts still say how its counts move.
pub trait Shelf {
    /// The files by name, where the shelf tells.
    ghost held: { Self → Option (List (List ℕ × List ℕ)) };

    /// Whether a file is current.
    ghost is_open: { Self → Bool };

    /// The bytes of the current file from the place on, where the shelf tells.
    ghost left: { Self → Option (List ℕ) };

    /// Whether the last call failed.
    ghost failed: { Self → Bool };

    /// How many calls have failed. The count stops at 2^64 - 1.
    ghost faults: { Self → ℕ };

    /// How many calls asked for a file that was not there. The count stops at 2^64 - 1.
    ghost absences: { Self → ℕ };

    /// Makes the named file current at its front, or answers `false` where there is none.
    /// After `false` or `Failed` no file is current.
    fn begin(&mut self, name: &str) -> Result<bool, Failed>
        ensures held { held self.new ≡ held self.old }
        ensures open { IfOk result (λ found. is_open self.new ≡ found) }
        ensures shut { OnErr result (is_open self.new ≡ false) }
        ensures closed { is_open self.new ≡ false → left self.new ≡ None }
        ensures told { IfSome (held self.old) (λ files. IfOk result (λ found.
            (found ≡ is_some (bytes_of files name.now)) × (left self.new ≡ bytes_of files name.now))) }
        ensures last { IsTrue (failed self.new) ↔ IsErr result }
        ensures counts { CountsBegin (faults self.old) (faults self.new)
            (absences self.old) (absences self.new) result };

    /// Copies the next bytes of the current file to the front of the buffer and answers how many.
    /// 0 means an empty buffer, the end, or no current file. After `Failed` the place is the same.
    fn read(&mut self, buf: &mut [u8]) -> Result<usize, Failed>
        ensures held { held self.new ≡ held self.old }
        ensures open { is_open self.new ≡ is_open self.old }
        ensures nothing { is_open self.old ≡ false → IfOk result (λ n. n ≡ 0) }
        ensures closed { is_open self.new ≡ false → left self.new ≡ None }
        ensures bound { ReadsAtMost result buf.new }
        ensures bytes { ReadConsumes (left self.old) (left self.new) result buf.new }
        ensures stays { OnErr result (left self.new ≡ left self.old) }
        ensures last { IsTrue (failed self.new) ↔ IsErr result }
        ensures counts { CountsRead (faults self.old) (faults self.new)
            (absences self.old) (absences self.new) result };
}
