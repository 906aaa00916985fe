//! Why the places of a net can't be told.

ghost use Rattle.std.specs.Prelude.{◌≡◌};
ghost use Rattle.bz_source.specs.declared.error.PlacesError.TheVariants.{Memory};

use std::alloc::{AllocError, AllocFailed};
use thiserror::Error;

/// Why the places of a net can't be told.
#[derive(Clone, Copy, Debug, PartialEq, Eq, Error)]
pub enum PlacesError {
    /// No part has the name.
    #[error("no such part")]
    NoPart,
    /// A path goes on for more than 64 instances, so that there is no net.
    #[error("too deep")]
    TooDeep,
    #[error("F3 Memory")]
    Memory,
}

impl From<AllocError> for PlacesError {
    ghost from_gives = { λ _ e. e ≡ Memory };

    fn from(_e: AllocError) -> PlacesError {
        PlacesError::Memory
    }
}

impl<T: Drop> From<AllocFailed<T>> for PlacesError {
    ghost from_gives = { λ _ e. e ≡ Memory };

    fn from(_e: AllocFailed<T>) -> PlacesError {
        PlacesError::Memory
    }
}
