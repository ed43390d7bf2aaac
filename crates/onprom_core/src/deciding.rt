//! Deciding how a run ends, before anything is written.
ghost use Rattle.std.specs.Prelude.{◌≡◌, ◌≢◌, false, true, [], IfOk, IfSome, IsTrue};
ghost use Rattle.onprom_core.specs.Causes.{CountsEnd, IsWhole, SaysLine};
ghost use Rattle.onprom_core.specs.Commands.{is_check, is_make};
ghost use Rattle.onprom_core.specs.Delivery.{ComesToJob, IsDecided, IsFirstEnd};
ghost use Rattle.onprom_core.specs.Shown.{shown};
ghost use Rattle.onprom_core.specs.Texts.{text_of};
ghost use Rattle.onprom_core.specs.Walk.{IsNoCommand};

use crate::Status;
use crate::commands::work;
use crate::halt::Halt;
use crate::lines::named_line;
use crate::output::Text;
use outside::{Bytes, Shelf, Words};
use std::alloc::{AllocError, Global};

/// A status, with what is to be written for it.
#[derive(Drop)]
pub(crate) struct Decided {
    pub status: Status,
    pub text: Text,
    pub line: Bytes,
}

/// Reads, and does the job.
pub(crate) fn decide<S: Shelf>(
    alloc: Global,
    words: &Words,
    shelf: &mut S,
) -> Result<Decided, AllocError>
    ensures held { S.held shelf.new ≡ S.held shelf.old }
    ensures decided { IfOk result (λ d. IfSome (S.held shelf.old) (λ files. IsDecided words.now files
        (S.faults shelf.old) (S.faults shelf.new) (S.absences shelf.old) (S.absences shelf.new) (shown d))) }
    ensures job { IfOk result (λ d. IfSome (S.held shelf.old) (λ files. ComesToJob words.now files (shown d))) }
    ensures usage { IfOk result (λ d. d.status ≡ Status.Usage → IsNoCommand words.now) }
    ensures no_command { IsNoCommand words.now → IfOk result (λ d. d.status ≡ Status.Usage) }
    ensures whole { IfOk result (λ d. IsWhole d.status) }
    ensures line { IfOk result (λ d. SaysLine d.status d.line) }
    ensures silent { IfOk result (λ d. d.status ≢ Status.Done → (d.status ≡ Status.Conflict → is_check words.now ≡ false) → text_of d.text ≡ []) }
    ensures last { S.faults shelf.new ≢ S.faults shelf.old → IsTrue (S.failed shelf.new) }
    ensures fault_last { IfOk result (λ d. d.status ≡ Status.ReadFault → IsTrue (S.failed shelf.new)) }
    ensures counts { IfOk result (λ d. CountsEnd (S.faults shelf.old) (S.faults shelf.new)
        (S.absences shelf.old) (S.absences shelf.new) d.status) }
    ensures made { IfOk result (λ d. is_make words.now ≡ true → IsFirstEnd words.now [] (shown d)) }
    ensures unused { is_make words.now ≡ true → shelf.new ≡ shelf.old }
{
    match work(alloc, words, shelf) {
        Ok(output) => Ok(Decided {
            status: output.status,
            text: output.text,
            line: output.report,
        }),
        Err(Halt::Stopped(stopped)) => Ok(Decided {
            status: stopped.status,
            text: Text::none(alloc),
            line: stopped.line,
        }),
        Err(Halt::ReadFault(name)) => Ok(Decided {
            status: Status::ReadFault,
            text: Text::none(alloc),
            line: named_line(alloc, b"read fault: ", name.slice(), b"\n")?,
        }),
        Err(Halt::NoMemory) => Err(AllocError),
    }
}
