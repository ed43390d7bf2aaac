//! A shelf in memory whose calls fail where they are told to.
ghost use Rattle.std.specs.Prelude.{◌≡◌, ◌↔◌, false, IsTrue, [], ◌∷◌, ◌++◌, None, Some, is_some, IsErr, IfOk, OnOk, OnErr, Contains};
ghost use Rattle.std.specs.Io.{ReadsAtMost};
ghost use Rattle.std.specs.Io.KnownBytes.{ReadConsumes};
ghost use Rattle.outside.specs.Counts.{next_count, CountsBegin, CountsRead};
ghost use Rattle.outside.specs.Files.{bytes_of};

use crate::calls::Calls;
use crate::files::Files;
use crate::{Failed, Shelf};
use std::alloc::{AllocError, Global};
use std::marker::Model;

/// A shelf in memory whose calls fail exactly where `fail_at` was given their number.
///
/// Calls of `begin` and of `read` are counted together, from 1.
#[derive(Drop)]
pub struct MemoryShelf {
    files: Files,
    failed: bool,
    calls: Calls,
    absences: u64,
}

impl Model for MemoryShelf {
    ghost use Rattle.outside.specs.States.{FailingShelf};

    ghost Value = { FailingShelf };

    ghost view = { λ s. record { opened = s.files; failed = s.failed; calls = s.calls; absences = s.absences } };
}

impl MemoryShelf {
    /// A shelf with no files and no calls that fail, which keeps the allocator for what is added.
    pub fn new(alloc: Global) -> Self
        ensures { result ≡ record {
          opened = record { files = []; left = None };
          failed = false;
          calls = record { made = 0; failing = []; faults = 0 };
          absences = 0;
        } }
    {
        MemoryShelf {
            files: Files::new(alloc),
            failed: false,
            calls: Calls::new(alloc),
            absences: 0,
        }
    }

    /// Whether there is a file of that name.
    pub fn holds(&self, name: &str) -> bool
        ensures { result ≡ is_some (bytes_of self.now.opened.files name.now) }
    {
        self.files.holds(name)
    }

    /// Adds a file behind those that are there. An `Err` changes nothing.
    pub fn add_file(&mut self, name: &str, bytes: &[u8]) -> Result<(), AllocError>
        requires { bytes_of self.old.opened.files name.now ≡ None }
        ensures ok { OnOk result (self.new ≡ record self.old {
          opened = record {
            files = self.old.opened.files ++ (name.now, bytes.now) ∷ [];
            left = self.old.opened.left;
          };
        }) }
        ensures err { OnErr result (self.new ≡ self.old) }
    {
        self.files.add(name, bytes)
    }

    /// Makes the call with this number fail, counted from 1 over `begin` and `read`. An `Err` changes nothing.
    pub fn fail_at(&mut self, call: u64) -> Result<(), AllocError>
        ensures ok { OnOk result (self.new ≡ record self.old {
          calls = record self.old.calls {
            failing = self.old.calls.failing ++ call ∷ [];
          };
        }) }
        ensures err { OnErr result (self.new ≡ self.old) }
    {
        self.calls.fail_at(call)
    }
}

impl Shelf for MemoryShelf {
    ghost held = { λ s. Some s.opened.files };

    ghost is_open = { λ s. is_some s.opened.left };

    ghost left = { λ s. s.opened.left };

    ghost failed = { λ s. s.failed };

    ghost faults = { λ s. s.calls.faults };

    ghost absences = { λ s. s.absences };

    fn begin(&mut self, name: &str) -> Result<bool, Failed>
        ensures held { self.new.opened.files ≡ self.old.opened.files }
        ensures open { IfOk result (λ found. is_some self.new.opened.left ≡ found) }
        ensures shut { OnErr result (is_some self.new.opened.left ≡ false) }
        ensures closed { is_some self.new.opened.left ≡ false → self.new.opened.left ≡ None }
        ensures told { let file = bytes_of self.old.opened.files name.now in
            IfOk result (λ found. (found ≡ is_some file) × (self.new.opened.left ≡ file)) }
        ensures last { IsTrue self.new.failed ↔ IsErr result }
        ensures counts { CountsBegin self.old.calls.faults self.new.calls.faults self.old.absences self.new.absences result }

        // The call is counted, and fails exactly where its number was chosen.
        ensures counted { self.new.calls.made ≡ next_count self.old.calls.made }
        ensures fails { IsErr result ↔ Contains self.old.calls.failing (next_count self.old.calls.made) }
        ensures failing { self.new.calls.failing ≡ self.old.calls.failing }
    {
        self.failed = self.calls.next_fails();
        if self.failed {
            self.files.close();
            return Err(Failed);
        }
        let found = self.files.open(name);
        if !found {
            self.absences = self.absences.saturating_add(1);
        }
        Ok(found)
    }

    fn read(&mut self, buf: &mut [u8]) -> Result<usize, Failed>
        ensures held { self.new.opened.files ≡ self.old.opened.files }
        ensures open { is_some self.new.opened.left ≡ is_some self.old.opened.left }
        ensures nothing { is_some self.old.opened.left ≡ false → IfOk result (λ n. n ≡ 0) }
        ensures closed { is_some self.new.opened.left ≡ false → self.new.opened.left ≡ None }
        ensures bound { ReadsAtMost result buf.new }
        ensures bytes { ReadConsumes self.old.opened.left self.new.opened.left result buf.new }
        ensures stays { OnErr result (self.new.opened.left ≡ self.old.opened.left) }
        ensures last { IsTrue self.new.failed ↔ IsErr result }
        ensures counts { CountsRead self.old.calls.faults self.new.calls.faults self.old.absences self.new.absences result }

        // The call is counted, and fails exactly where its number was chosen.
        ensures counted { self.new.calls.made ≡ next_count self.old.calls.made }
        ensures fails { IsErr result ↔ Contains self.old.calls.failing (next_count self.old.calls.made) }
        ensures failing { self.new.calls.failing ≡ self.old.calls.failing }
    {
        self.failed = self.calls.next_fails();
        if self.failed {
            return Err(Failed);
        }
        Ok(self.files.next(buf))
    }
}
