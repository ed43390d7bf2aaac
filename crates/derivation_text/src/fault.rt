//! Why a text is no list of derivations.
ghost use Rattle.std.specs.Prelude.{◌≡◌};
ghost use Rattle.derivation_text.specs.declared.fault.DerivationFault.TheVariants.{NoMemory};

use std::alloc::AllocError;

/// The first fault of a text, with its line, counted from 1.
#[derive(Clone, Copy, Debug, PartialEq, Eq)]
pub enum DerivationFault {
    /// The line is not in its place in the grammar, or a number passes 32 bits.
    Syntax(u32),
    /// No mapping has this name.
    Unknown(u32),
    /// A step has not the next number, or names a step that does not stand before it or is not there.
    BadStep(u32),
    /// A derivation has more than 8,000 steps.
    TooLong,
    NoMemory,
}

impl From<AllocError> for DerivationFault {
    ghost from_gives = { λ _ e. e ≡ NoMemory };

    fn from(_: AllocError) -> Self {
        DerivationFault::NoMemory
    }
}
