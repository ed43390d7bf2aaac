//! The job of `make`.
ghost use Rattle.std.specs.Prelude.{◌≡◌, false, [], None, IfOk, codes};
ghost use Rattle.big_project.specs.Files.{file_of, made_files};
ghost use Rattle.onprom_core.specs.Jobs.{EndsMade, EndsMaking, IsSummary};
ghost use Rattle.onprom_core.specs.Outputs.{EndsWell, ended};
ghost use Rattle.onprom_core.specs.Rewritten.{done_with};
ghost use Rattle.onprom_core.specs.Walk.{extract_step};

use crate::Status;
use crate::commands::extract;
use crate::halt::Halt;
use crate::output::{Output, Text};
use big_project::{file, first_line, shelf};
use outside::Bytes;
use std::alloc::{AllocError, Global};
use vocabulary::List;

/// A file of the made project of so many documents, or what is said of its log.
pub(crate) fn making(alloc: Global, docs: u32, name: &str) -> Result<Output, AllocError>
    ensures ends { IfOk result (λ o. EndsMaking docs name.now (file_of docs name.now) (ended o)) }
    ensures well { IfOk result (EndsWell false) }
{
    match file(alloc, docs, name)? {
        Some(text) => Ok(written(alloc, text)),
        None => summary(alloc, docs),
    }
}

fn written(alloc: Global, text: List<u8>) -> Output
    ensures end { ended result ≡ done_with text [] }
    ensures well { EndsWell false result }
{
    Output {
        status: Status::Done,
        text: Text::Bytes(text),
        report: Bytes::new(alloc),
    }
}

// Makes the log of the made project, and keeps the first line of its report.
fn summary(alloc: Global, docs: u32) -> Result<Output, AllocError>
    ensures ends { IfOk result (λ o. EndsMaking docs [] None (ended o)) }
    ensures well { IfOk result (EndsWell false) }
{
    let log = extracted(alloc, docs)?;
    summary_of(alloc, log)
}

fn summary_of(alloc: Global, log: Output) -> Result<Output, AllocError>
    requires { EndsWell false log }
    ensures is { IfOk result (λ o. IsSummary (ended log) (ended o)) }
    ensures well { IfOk result (EndsWell false) }
{
    match log.status {
        Status::Done => {
            let line = first_line(alloc, log.report.slice())?;
            Ok(written(alloc, line))
        }
        status => Ok(Output {
            status,
            text: Text::none(alloc),
            report: log.report,
        }),
    }
}

// The extraction of the made project, from a shelf in memory, which does not fail.
fn extracted(alloc: Global, docs: u32) -> Result<Output, AllocError>
    ensures ends { IfOk result (λ o. EndsMade (extract_step (made_files docs) (codes "project.txt")).end (ended o)) }
    ensures well { IfOk result (EndsWell false) }
{
    let mut shelf = shelf(alloc, docs)?;
    match extract(alloc, &mut shelf, "project.txt") {
        Ok(output) => Ok(output),
        Err(Halt::Stopped(stopped)) => Ok(Output {
            status: stopped.status,
            text: Text::none(alloc),
            report: stopped.line,
        }),
        Err(Halt::ReadFault(_)) => Err(AllocError),
        Err(Halt::NoMemory) => Err(AllocError),
    }
}
