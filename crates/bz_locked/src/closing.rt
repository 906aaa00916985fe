//! What is left of a shared net.

ghost use Rattle.std.specs.Prelude.{◌≡◌};
ghost use Rattle.bz_locked.specs.declared.closing.CloseError.TheVariants.{Memory};

use bz_front::Memory as FrontMemory;
use bz_model::{Entry, Who};
use bz_net::Net;
use std::alloc::AllocError;
use thiserror::Error;

/// The net at the end, whether it was stopped, and what each worker and each session has of it.
#[derive(Drop)]
pub struct Closed {
    pub net: Net,
    pub stopped: bool,
    pub front: u64,
    pub shares: Vec<u64>,
    pub records: Vec<Vec<Entry>>,
}

/// Why a net could not be shared, or where its parts disagree.
#[derive(Clone, Copy, Debug, PartialEq, Eq, Error)]
pub enum CloseError {
    /// A record is not its part of the journal, at its entry of this number, from 1; or a share is not its number of
    /// firings (0); or the front, told as host 0, is not the journal's length but this number.
    #[error("C1 Discord")]
    Discord(Who, u64),
    #[error("F3 Memory")]
    Memory,
}

impl From<AllocError> for CloseError {
    ghost from_gives = { λ _ e. e ≡ Memory };

    fn from(_e: AllocError) -> CloseError {
        CloseError::Memory
    }
}

impl From<FrontMemory> for CloseError {
    ghost from_gives = { λ _ e. e ≡ Memory };

    fn from(_e: FrontMemory) -> CloseError {
        CloseError::Memory
    }
}
