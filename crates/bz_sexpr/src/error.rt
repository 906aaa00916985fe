//! Why a text is refused.

ghost use Rattle.std.specs.Prelude.{◌≡◌};
ghost use Rattle.bz_sexpr.specs.declared.error.SexprError.TheVariants.{Memory};

use std::alloc::{AllocError, AllocFailed};
use thiserror::Error;

/// Why a text spells no data, with the place of the fault in bytes from 0.
#[derive(Clone, Copy, Debug, PartialEq, Eq, Error)]
pub enum SexprError {
    /// The first `)` that closes nothing.
    #[error("S1 StrayClose {0}")]
    StrayClose(usize),
    /// The opening quote of a text that the end cuts off.
    #[error("S2 UnclosedText {0}")]
    UnclosedText(usize),
    /// The innermost `(` that is open at the end.
    #[error("S3 UnclosedList {0}")]
    UnclosedList(usize),
    /// The first `(` that opens a list of a 257th level.
    #[error("S4 TooDeep {0}")]
    TooDeep(usize),
    /// Memory was refused, which every layer reports alike.
    #[error("F3 Memory")]
    Memory,
}

impl From<AllocError> for SexprError {
    ghost from_gives = { λ _ e. e ≡ Memory };

    fn from(_e: AllocError) -> SexprError {
        SexprError::Memory
    }
}

impl<T: Drop> From<AllocFailed<T>> for SexprError {
    ghost from_gives = { λ _ e. e ≡ Memory };

    fn from(_e: AllocFailed<T>) -> SexprError {
        SexprError::Memory
    }
}
