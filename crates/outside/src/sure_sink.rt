//! A sink in memory that does not fail.
ghost use Rattle.std.specs.Prelude.{◌≡◌, [], Some, true, false};

use crate::{Bytes, Sink, Stop};
use std::alloc::{AllocError, Global};
use std::marker::Model;

/// A sink in memory that does not fail: its count of faults is always 0. It wants memory.
#[derive(Drop)]
pub struct SureSink {
    bytes: Bytes,
}

impl Model for SureSink {
    ghost use Rattle.std.specs.Prelude.{List, ℕ};

    ghost Value = { List ℕ };

    ghost view = { λ s. s.bytes };
}

impl SureSink {
    /// An empty sink, which keeps the allocator for what is written.
    pub fn new(alloc: Global) -> Self
        ensures { result ≡ [] }
    {
        SureSink {
            bytes: Bytes::new(alloc),
        }
    }

    /// All that was written.
    pub fn written(&self) -> &[u8]
        ensures { result.now ≡ self.now }
    {
        self.bytes.slice()
    }

    /// All that was written. It is not copied.
    pub fn into_written(self) -> Vec<u8>
        ensures { result.items ≡ self }
    {
        let SureSink { bytes } = self;
        bytes.into_vec()
    }
}

impl Sink for SureSink {
    ghost written = { λ s. Some s };

    ghost failed = { λ s. false };

    ghost wants = { λ s. true };

    ghost faults = { λ s. 0 };

    fn write(&mut self, piece: &[u8]) -> Result<usize, Stop> {
        match self.bytes.append(piece) {
            Ok(()) => Ok(piece.len()),
            Err(AllocError) => Err(Stop::NoMemory),
        }
    }
}
