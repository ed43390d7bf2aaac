//! Why a file is no table.
ghost use Rattle.std.specs.Prelude.{◌≡◌};
ghost use Rattle.source_tables.specs.declared.fault.TableFault.TheVariants.{NoMemory};

use std::alloc::{AllocError, AllocFailed};
use vocabulary::ColId;

/// The first fault of a file under a declaration. Rows count from 1, and row 0 is the header.
#[derive(Clone, Copy, Debug, PartialEq, Eq)]
pub enum TableFault {
    /// The header text of this declared column is not there exactly once.
    Header(ColId),
    /// A field of this record, maybe of an ignored column, is not UTF-8.
    NotUtf8(u32),
    /// This row has another number of fields than the header.
    Width(u32),
    /// A cell that is not empty and not in the grammar of its kind.
    BadCell(u32, ColId),
    /// A text cell with a character outside XML 1.0.
    BadChar(u32, ColId),
    /// A null in a key.
    NullKey(u32),
    /// The second row has the key cells of the first, in canonical text; the first is the first such row.
    DoubleKey(u32, u32),
    TooManyRows,
    NoMemory,
}

impl From<AllocError> for TableFault {
    ghost from_gives = { λ _ e. e ≡ NoMemory };

    fn from(_: AllocError) -> Self {
        TableFault::NoMemory
    }
}

impl<T: Drop> From<AllocFailed<T>> for TableFault {
    ghost from_gives = { λ _ e. e ≡ NoMemory };

    fn from(_: AllocFailed<T>) -> Self {
        TableFault::NoMemory
    }
}
