//! The files of a real folder. They tell no contents.
ghost use Rattle.std.specs.Prelude.{◌≡◌, false, None, is_some};

use crate::{Failed, Shelf};
use std::fs;
use std::io::{ErrorKind, Read};
use std::rt::Files;

/// Real files, by names that are given to the system as they are: a relative one is looked up from
/// the folder that the program runs in.
///
/// One call of `read` makes one call of the system. A file that does not exist raises `absences`
/// alone, and every other error raises `faults`.
#[derive(Drop)]
pub struct FolderShelf<'a, R: Files> {
    rt: &'a R,
    current: Option<R::File>,
    failed: bool,
    faults: u64,
    absences: u64,
}

impl<'a, R: Files> FolderShelf<'a, R> {
    /// A shelf with no current file.
    pub fn new(rt: &'a R) -> Self
        ensures open { ⟦<FolderShelf<'a, R> as Shelf>⟧.is_open result ≡ false }
        ensures failed { ⟦<FolderShelf<'a, R> as Shelf>⟧.failed result ≡ false }
        ensures faults { ⟦<FolderShelf<'a, R> as Shelf>⟧.faults result ≡ 0 }
        ensures absences { ⟦<FolderShelf<'a, R> as Shelf>⟧.absences result ≡ 0 }
    {
        FolderShelf {
            rt,
            current: None,
            failed: false,
            faults: 0,
            absences: 0,
        }
    }
}

impl<'a, R: Files> Shelf for FolderShelf<'a, R> {
    ghost held = { λ s. None };

    ghost is_open = { λ s. is_some s.current };

    ghost left = { λ s. None };

    ghost failed = { λ s. s.failed };

    ghost faults = { λ s. s.faults };

    ghost absences = { λ s. s.absences };

    fn begin(&mut self, name: &str) -> Result<bool, Failed> {
        self.current = None;
        self.failed = false;
        match fs::open(self.rt, name) {
            Ok(file) => {
                self.current = Some(file);
                Ok(true)
            }
            Err(e) => {
                if e.kind() == ErrorKind::NotFound {
                    self.absences = self.absences.saturating_add(1);
                    Ok(false)
                } else {
                    self.failed = true;
                    self.faults = self.faults.saturating_add(1);
                    Err(Failed)
                }
            }
        }
    }

    fn read(&mut self, buf: &mut [u8]) -> Result<usize, Failed> {
        self.failed = false;
        match &mut self.current {
            None => Ok(0),
            Some(file) => match file.read(buf) {
                Ok(count) => Ok(count),
                Err(_) => {
                    self.failed = true;
                    self.faults = self.faults.saturating_add(1);
                    Err(Failed)
                }
            },
        }
    }
}
