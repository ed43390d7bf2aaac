//! Why a run goes no further.
ghost use Rattle.std.specs.Prelude.{◌≡◌};
ghost use Rattle.onprom_core.specs.declared.halt.Halt.TheVariants.{NoMemory};

use crate::Status;
use outside::Bytes;
use std::alloc::{AllocError, Global};

/// A status, and the line that the report has for it.
#[derive(Drop)]
pub struct Stopped {
    pub status: Status,
    pub line: Bytes,
}

/// Why a run goes no further.
#[derive(Drop)]
pub(crate) enum Halt {
    /// An end of the walk.
    Stopped(Stopped),
    /// The shelf failed at the file of this name.
    ReadFault(Bytes),
    NoMemory,
}

impl From<AllocError> for Halt {
    ghost from_gives = { λ _ e. e ≡ NoMemory };

    fn from(_: AllocError) -> Self {
        Halt::NoMemory
    }
}
