//! Why a component cannot be made.

ghost use Rattle.std.specs.Prelude.{◌≡◌};
ghost use Rattle.bz_model.specs.declared.error.KindError.TheVariants.{Memory};

use std::alloc::{AllocError, AllocFailed};
use thiserror::Error;

/// Why there is no kind, or no component of it.
#[derive(Clone, Copy, Debug, PartialEq, Eq, Error)]
pub enum KindError {
    #[error("K1 UnknownComponent")]
    UnknownComponent,
    #[error("K2 BadParameter")]
    BadParameter,
    #[error("K3 Memory")]
    Memory,
}

impl From<AllocError> for KindError {
    ghost from_gives = { λ _ e. e ≡ Memory };

    fn from(_error: AllocError) -> KindError {
        KindError::Memory
    }
}

impl<T: Drop> From<AllocFailed<T>> for KindError {
    ghost from_gives = { λ _ e. e ≡ Memory };

    fn from(_error: AllocFailed<T>) -> KindError {
        KindError::Memory
    }
}
