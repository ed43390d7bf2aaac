//! A shelf in memory that does not fail.
ghost use Rattle.std.specs.Prelude.{◌≡◌, false, [], ◌∷◌, ◌++◌, None, Some, is_some, OnOk, OnErr};
ghost use Rattle.outside.specs.Files.{bytes_of};

use crate::files::Files;
use crate::{Failed, Shelf};
use std::alloc::{AllocError, Global};
use std::marker::Model;

/// A shelf in memory that does not fail: its count of faults is always 0.
#[derive(Drop)]
pub struct SureShelf {
    files: Files,
    absences: u64,
}

impl Model for SureShelf {
    ghost use Rattle.outside.specs.States.{SteadyShelf};

    ghost Value = { SteadyShelf };

    ghost view = { λ s. record { opened = s.files; absences = s.absences } };
}

impl SureShelf {
    /// A shelf with no files, which keeps the allocator for those that are added.
    pub fn new(alloc: Global) -> Self
        ensures { result ≡ record { opened = record { files = []; left = None }; absences = 0 } }
    {
        SureShelf {
            files: Files::new(alloc),
            absences: 0,
        }
    }

    /// Whether there is a file of that name.
    pub fn holds(&self, name: &str) -> bool
        ensures { result ≡ is_some (bytes_of self.now.opened.files name.now) }
    {
        self.files.holds(name)
    }

    /// Adds a file behind those that are there. An `Err` changes nothing.
    pub fn add_file(&mut self, name: &str, bytes: &[u8]) -> Result<(), AllocError>
        requires { bytes_of self.old.opened.files name.now ≡ None }
        ensures ok { OnOk result (self.new ≡ record self.old {
          opened = record {
            files = self.old.opened.files ++ (name.now, bytes.now) ∷ [];
            left = self.old.opened.left;
          };
        }) }
        ensures err { OnErr result (self.new ≡ self.old) }
    {
        self.files.add(name, bytes)
    }
}

impl Shelf for SureShelf {
    ghost held = { λ s. Some s.opened.files };

    ghost is_open = { λ s. is_some s.opened.left };

    ghost left = { λ s. s.opened.left };

    ghost failed = { λ s. false };

    ghost faults = { λ s. 0 };

    ghost absences = { λ s. s.absences };

    fn begin(&mut self, name: &str) -> Result<bool, Failed> {
        let found = self.files.open(name);
        if !found {
            self.absences = self.absences.saturating_add(1);
        }
        Ok(found)
    }

    fn read(&mut self, buf: &mut [u8]) -> Result<usize, Failed> {
        Ok(self.files.next(buf))
    }
}
