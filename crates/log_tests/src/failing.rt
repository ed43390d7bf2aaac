//! Runs where one call fails, where a file is missing, and over files that end early.
use crate::cases::words_of;
use crate::conference::{LOG, PAPER, PERSON, PROJECT, REPORT, REVIEW};
use onprom_core::{Status, run};
use outside::{MemoryShelf, MemorySink};
use std::alloc::{AllocError, Global};
use std::test::Fail;

// The files of the conference but for one, with so many bytes of another, on a shelf that fails at this call.
fn shelf_of(
    alloc: Global,
    missing: &str,
    cut: (&str, usize),
    call: u64,
) -> Result<MemoryShelf, AllocError> {
    let mut shelf = MemoryShelf::new(alloc);
    shelf.fail_at(call)?;
    for (name, text) in [
        ("conf.txt", PROJECT),
        ("paper.csv", PAPER),
        ("person.csv", PERSON),
        ("review.csv", REVIEW),
    ] {
        let len = if name == cut.0 {
            cut.1.min(text.len())
        } else {
            text.len()
        };
        if name != missing && !shelf.holds(name) {
            shelf.add_file(name, &text.as_bytes()[..len])?;
        }
    }
    Ok(shelf)
}

// A sink that takes so many bytes at once and fails at this call.
fn failing_sink(alloc: Global, most: usize, call: u64) -> Result<MemorySink, AllocError> {
    let mut sink = MemorySink::new(alloc, most);
    sink.fail_at(call)?;
    Ok(sink)
}

// What is written and reported at such an end.
fn is_told(status: Status, text: &[u8], report: &[u8]) -> bool {
    match status {
        Status::Done => {
            text == LOG.as_bytes() && report.strip_suffix(b"\n") == Some(REPORT.as_bytes())
        }
        Status::Refused => text.is_empty() && report.starts_with(b"refused: "),
        Status::Absent => text.is_empty() && report.starts_with(b"absent: "),
        Status::ReadFault => text.is_empty() && report.starts_with(b"read fault: "),
        Status::WriteFault => {
            LOG.as_bytes().starts_with(text) && text.len() < LOG.len() && report.is_empty()
        }
        Status::ReportFault => {
            text == LOG.as_bytes()
                && REPORT.as_bytes().starts_with(report)
                && report.len() <= REPORT.len()
        }
        _ => false,
    }
}

const TEXT_AT_ONCE: usize = 97;

const REPORT_AT_ONCE: usize = 16;

// Whether a run whose shelf, text and report fail at these calls ends so, and tells what belongs to such an end.
fn ends(alloc: Global, calls: (u64, u64, u64), status: Status) -> Result<bool, AllocError> {
    let words = words_of(alloc, "extract conf.txt")?;
    let mut shelf = shelf_of(alloc, "", ("", 0), calls.0)?;
    let mut out = failing_sink(alloc, TEXT_AT_ONCE, calls.1)?;
    let mut report = failing_sink(alloc, REPORT_AT_ONCE, calls.2)?;
    let ended = run(alloc, &words, &mut shelf, &mut out, &mut report);
    Ok(ended == status && is_told(status, out.written(), report.written()))
}

// No call has this number.
const NEVER: u64 = 1_000_000;

#[test]
fn each_failed_read_is_told_and_nothing_written(rt: HostRuntime) -> Result<(), Fail> {
    // Four files, each begun, read, and read once more to see its end.
    for call in 1..=12 {
        assert!(rt;
            ends(rt.alloc(), (call, NEVER, NEVER), Status::ReadFault)?,
            "{call}"
        );
    }
    assert!(rt; ends(rt.alloc(), (13, NEVER, NEVER), Status::Done)?);
    Ok(())
}

#[test]
fn each_failed_write_leaves_a_front(rt: HostRuntime) -> Result<(), Fail> {
    // The log is shorter than a piece of 4,096 bytes, so no call ends at the end of one.
    assert!(rt; LOG.len() < 4096);
    let calls = LOG.len().div_ceil(TEXT_AT_ONCE) as u64;
    for call in 1..=calls {
        assert!(rt;
            ends(rt.alloc(), (NEVER, call, NEVER), Status::WriteFault)?,
            "{call}"
        );
    }
    assert!(rt; ends(rt.alloc(), (NEVER, calls + 1, NEVER), Status::Done)?);
    Ok(())
}

#[test]
fn each_failed_report_leaves_the_log(rt: HostRuntime) -> Result<(), Fail> {
    let calls = (REPORT.len() + 1).div_ceil(REPORT_AT_ONCE) as u64;
    for call in 1..=calls {
        assert!(rt;
            ends(rt.alloc(), (NEVER, NEVER, call), Status::ReportFault)?,
            "{call}"
        );
    }
    assert!(rt; ends(rt.alloc(), (NEVER, NEVER, calls + 1), Status::Done)?);
    Ok(())
}

// Whether a run without this file tells that it is absent.
fn is_absent(alloc: Global, missing: &str, line: &str) -> Result<bool, AllocError> {
    let words = words_of(alloc, "extract conf.txt")?;
    let mut shelf = shelf_of(alloc, missing, ("", 0), NEVER)?;
    let mut out = failing_sink(alloc, TEXT_AT_ONCE, NEVER)?;
    let mut report = failing_sink(alloc, REPORT_AT_ONCE, NEVER)?;
    let ended = run(alloc, &words, &mut shelf, &mut out, &mut report);
    Ok(ended == Status::Absent && out.written().is_empty() && report.written() == line.as_bytes())
}

#[test]
fn each_missing_file_is_named(rt: HostRuntime) -> Result<(), Fail> {
    for (missing, line) in [
        ("conf.txt", "absent: conf.txt\n"),
        ("paper.csv", "absent: paper.csv\n"),
        ("review.csv", "absent: review.csv\n"),
        ("person.csv", "absent: person.csv\n"),
    ] {
        assert!(rt; is_absent(rt.alloc(), missing, line)?, "{missing}");
    }
    Ok(())
}

// Whether a run over so many bytes of a file is done, or refuses this file and writes nothing.
fn ends_cut(alloc: Global, name: &str, len: usize, refusal: &str) -> Result<bool, AllocError> {
    let words = words_of(alloc, "extract conf.txt")?;
    let mut shelf = shelf_of(alloc, "", (name, len), NEVER)?;
    let mut out = failing_sink(alloc, TEXT_AT_ONCE, NEVER)?;
    let mut report = failing_sink(alloc, REPORT_AT_ONCE, NEVER)?;
    let ended = run(alloc, &words, &mut shelf, &mut out, &mut report);
    let refused = out.written().is_empty() && report.written().starts_with(refusal.as_bytes());
    Ok(ended == Status::Done || (ended == Status::Refused && refused))
}

#[test]
fn a_table_that_ends_early_is_read_or_refused(rt: HostRuntime) -> Result<(), Fail> {
    for len in 0..=PAPER.len() {
        assert!(rt;
            ends_cut(rt.alloc(), "paper.csv", len, "refused: paper.csv ")?,
            "{len}"
        );
    }
    Ok(())
}

#[test]
fn a_project_that_ends_early_is_read_or_refused(rt: HostRuntime) -> Result<(), Fail> {
    for len in 0..=PROJECT.len() {
        assert!(rt;
            ends_cut(rt.alloc(), "conf.txt", len, "refused: conf.txt line ")?,
            "{len}"
        );
    }
    Ok(())
}
