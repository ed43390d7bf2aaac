//! The command line: `onprom_tool extract PROJECT`.
#![tactic(auto)]

use onprom_core::{Status, run};
use outside::{FolderShelf, StreamSink, Words};
use std::alloc::AllocError;
use std::env;
use std::io::{self, ErrorKind};
use std::process::ExitCode;
use thiserror::Error;

/// Why there are no words. Its text is not printed.
#[derive(Debug, Drop, Error)]
enum WordsFault {
    #[error("a word is not UTF-8")]
    NotUtf8,
    #[error(transparent)]
    NoMemory(#[from(alloc)] AllocError),
}

// The fault of std's error.
fn fault_of(error: io::Error) -> WordsFault {
    match error.kind() {
        ErrorKind::OutOfMemory => WordsFault::NoMemory(AllocError),
        _ => WordsFault::NotUtf8,
    }
}

// The words after the program's name.
fn words(rt: &HostRuntime) -> Result<Words, WordsFault> {
    let args = match env::args(rt) {
        Ok(args) => args,
        Err(error) => return Err(fault_of(error)),
    };
    let mut words = Words::new(rt.alloc());
    for word in args.skip(1) {
        words.push(word.as_str())?;
    }
    Ok(words)
}

fn main(rt: HostRuntime) -> ExitCode {
    let status = match words(&rt) {
        Ok(words) => {
            let mut shelf = FolderShelf::new(&rt);
            let mut out = StreamSink::new(rt.stdout());
            let mut report = StreamSink::new(rt.stderr());
            run(rt.alloc(), &words, &mut shelf, &mut out, &mut report)
        }
        Err(WordsFault::NotUtf8) => Status::Usage,
        Err(WordsFault::NoMemory(_)) => Status::NoMemory,
    };
    ExitCode::from(status.code())
}
