//! Reading a whole file.
ghost use Rattle.std.specs.Prelude.{◌≡◌, ◌<◌, ◌≤◌, ◌+◌, ℕ, IsTrue, List, length, Some, Err, IfOk, IfSome, OnOk, OnErr, ◌≢◌};
ghost use Rattle.std.specs.Bool.{OnTrue, OnFalse};
ghost use Rattle.std.specs.Io.KnownBytes.{IsAtEnd};
ghost use Rattle.outside.specs.Counts.{CountsFile};
ghost use Rattle.outside.specs.Files.{bytes_of, IsWhole, AnswersFile, LeavesFile, TakesAtMost};

use crate::{Bytes, Failed, Shelf};
use std::alloc::{AllocError, Global};

/// Why a file was not read.
#[derive(Clone, Copy, Debug, PartialEq, Eq)]
pub enum FileFault {
    /// There is no file of that name.
    Absent,
    /// A call on the shelf failed.
    Read,
    /// The file has more bytes than the limit.
    TooLong,
    /// There was no memory for its bytes.
    NoMemory,
}

/// How many bytes one call of the shelf may give.
const PIECE: usize = 65_536;

/// Reads the named file whole, where it has at most `limit` bytes.
///
/// Of a longer file one byte more than `limit` is taken, and no other. The bytes go through one piece
/// of 64 KiB on the heap, so that few calls are made and no byte is touched more than a few times.
pub fn read_file<S: Shelf>(
    alloc: Global,
    shelf: &mut S,
    name: &str,
    limit: u64,
) -> Result<Bytes, FileFault>
    ensures held { S.held shelf.new ≡ S.held shelf.old }
    ensures bound { IfOk result (λ bytes. length bytes ≤ limit) }
    ensures told { IfSome (S.held shelf.old) (λ files. AnswersFile (bytes_of files name.now) limit result) }
    ensures taken { IfSome (S.held shelf.old) (λ files.
        LeavesFile (bytes_of files name.now) limit result (S.left shelf.new)) }
    ensures last { result ≡ Err FileFault.Read → IsTrue (S.failed shelf.new) }
    ensures counts { CountsFile (S.faults shelf.old) (S.faults shelf.new)
        (S.absences shelf.old) (S.absences shelf.new) result }
{
    match shelf.begin(name) {
        Ok(true) => read_rest(alloc, shelf, limit),
        Ok(false) => Err(FileFault::Absent),
        Err(Failed) => Err(FileFault::Read),
    }
}

// Reads the rest of the current file.
fn read_rest<S: Shelf>(alloc: Global, shelf: &mut S, limit: u64) -> Result<Bytes, FileFault>
    ensures held { S.held shelf.new ≡ S.held shelf.old }
    ensures bound { IfOk result (λ bytes. length bytes ≤ limit) }
    ensures told { IfSome (S.left shelf.old) (λ file. AnswersFile (Some file) limit result) }
    ensures taken { IfSome (S.left shelf.old) (λ file. LeavesFile (Some file) limit result (S.left shelf.new)) }
    ensures present { result ≢ Err FileFault.Absent }
    ensures last { result ≡ Err FileFault.Read → IsTrue (S.failed shelf.new) }
    ensures counts { CountsFile (S.faults shelf.old) (S.faults shelf.new)
        (S.absences shelf.old) (S.absences shelf.new) result }
{
    match vec![in alloc; 0; PIECE] {
        Ok(mut piece) => read_by(alloc, shelf, limit, &mut piece),
        Err(AllocError) => Err(FileFault::NoMemory),
    }
}

// Reads the rest of the current file, piece by piece.
fn read_by<S: Shelf>(
    alloc: Global,
    shelf: &mut S,
    limit: u64,
    piece: &mut [u8],
) -> Result<Bytes, FileFault>
    requires { 0 < length piece.old }
    ensures held { S.held shelf.new ≡ S.held shelf.old }
    ensures bound { IfOk result (λ bytes. length bytes ≤ limit) }
    ensures told { IfSome (S.left shelf.old) (λ file. AnswersFile (Some file) limit result) }
    ensures taken { IfSome (S.left shelf.old) (λ file. LeavesFile (Some file) limit result (S.left shelf.new)) }
    ensures present { result ≢ Err FileFault.Absent }
    ensures last { result ≡ Err FileFault.Read → IsTrue (S.failed shelf.new) }
    ensures counts { CountsFile (S.faults shelf.old) (S.faults shelf.new)
        (S.absences shelf.old) (S.absences shelf.new) result }
{
    let mut bytes = Bytes::new(alloc);
    loop {
        if read_piece(shelf, limit, piece, &mut bytes)? {
            return Ok(bytes);
        }
    }
}

// Reads one piece more, and answers whether this was the end.
fn read_piece<S: Shelf>(
    shelf: &mut S,
    limit: u64,
    piece: &mut [u8],
    bytes: &mut Bytes,
) -> Result<bool, FileFault>
    requires room { 0 < length piece.old }
    requires bound { length bytes.old ≤ limit }
    ensures held { S.held shelf.new ≡ S.held shelf.old }
    ensures bound { OnOk result (length bytes.new ≤ limit) }
    ensures whole { OnOk result ((whole : List ℕ) → IsWhole bytes.old (S.left shelf.old) whole
        → IsWhole bytes.new (S.left shelf.new) whole) }
    ensures end { IfOk result (λ end. OnTrue end (IsAtEnd (S.left shelf.new))) }
    ensures more { IfOk result (λ end. OnFalse end (length bytes.old < length bytes.new)) }
    ensures too_long { result ≡ Err FileFault.TooLong → (whole : List ℕ) → IsWhole bytes.old (S.left shelf.old) whole
        → limit < length whole }
    ensures taken { OnErr result ((whole : List ℕ) → IsWhole bytes.old (S.left shelf.old) whole
        → TakesAtMost (limit + 1) (Some whole) (S.left shelf.new)) }
    ensures present { result ≢ Err FileFault.Absent }
    ensures last { result ≡ Err FileFault.Read → IsTrue (S.failed shelf.new) }
    ensures counts { CountsFile (S.faults shelf.old) (S.faults shelf.new)
        (S.absences shelf.old) (S.absences shelf.new) result }
{
    let free = limit - bytes.len() as u64;
    let most = free.min(piece.len() as u64 - 1) as usize + 1;
    match shelf.read(&mut piece[..most]) {
        Ok(0) => Ok(true),
        Ok(count) if count as u64 > free => Err(FileFault::TooLong),
        Ok(count) => match bytes.append(&piece[..count]) {
            Ok(()) => Ok(false),
            Err(AllocError) => Err(FileFault::NoMemory),
        },
        Err(Failed) => Err(FileFault::Read),
    }
}
