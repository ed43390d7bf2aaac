//! Why a text is no project.
ghost use Rattle.std.specs.Prelude.{◌≡◌};
ghost use Rattle.project_language.specs.declared.fault.ProjectFault.TheVariants.{NoMemory};
ghost use Rattle.project_language.specs.Project.{as_fault};

use line_lexer::{Counted, LineFault};
use std::alloc::{AllocError, AllocFailed};

/// The first fault of a project text. Lines count from 1.
#[derive(Clone, Copy, Debug, PartialEq, Eq)]
pub enum ProjectFault {
    /// The line has the first byte that is no part of UTF-8.
    NotUtf8(u32),
    /// The line has this fault, which is neither a limit nor want of memory.
    Line(u32, LineFault),
    /// A count passes its number.
    Limit(Counted),
    NoMemory,
}

impl ProjectFault {
    /// The fault of the line of this number.
    pub(crate) fn of_line(number: u32, fault: LineFault) -> ProjectFault
        ensures { result ≡ as_fault number fault }
    {
        match fault {
            LineFault::Limit(what) => ProjectFault::Limit(what),
            LineFault::NoMemory => ProjectFault::NoMemory,
            other => ProjectFault::Line(number, other),
        }
    }
}

impl From<AllocError> for ProjectFault {
    ghost from_gives = { λ _ e. e ≡ NoMemory };

    fn from(_: AllocError) -> Self {
        ProjectFault::NoMemory
    }
}
