//! Why a netlist is refused.

ghost use Rattle.std.specs.Prelude.{◌≡◌, Some};
ghost use Rattle.std.specs.Option.{option_copied};
ghost use Rattle.bz_breeze.specs.Faults.{fault_of, fault_at, place_in};
ghost use Rattle.bz_breeze.specs.declared.error.Refusal.TheVariants.{NoMemory};
ghost use Rattle.bz_breeze.specs.declared.error.BreezeError.TheVariants.{Memory};

use std::alloc::{AllocError, AllocFailed};
use thiserror::Error;

/// Where a netlist is at fault: the name of the part, where it has one, and a byte of the text.
#[derive(Debug, PartialEq, Eq, Drop)]
pub struct ByteAt {
    pub part: Option<Vec<u8>>,
    pub at: usize,
}

/// Why a netlist is refused, with the first place at fault in the text.
#[derive(Debug, PartialEq, Eq, Drop, Error)]
pub enum BreezeError {
    /// A part, a form or a member that has none of the shapes, a second form of one head, a port whose name an earlier
    /// one has, a channel of width 0, or, at the part's closing parenthesis, fewer channels than ports.
    #[error("B1 BadForm")]
    BadForm(ByteAt),
    /// A part whose name an earlier one has, at its name.
    #[error("B2 DoublePart")]
    DoublePart(ByteAt),
    /// A port that is an array.
    #[error("B3 ArrayedPort")]
    ArrayedPort(ByteAt),
    /// A list among the components that is not headed by `component`.
    #[error("B4 Undeclared")]
    Undeclared(ByteAt),
    /// A channel wider than `bz_model::MAX_WIDTH`.
    #[error("B5 TooWide")]
    TooWide(ByteAt),
    #[error("F3 Memory")]
    Memory,
}

impl BreezeError {
    /// The place of the fault, or `None` where memory ran out.
    pub fn place(&self) -> Option<&ByteAt>
        ensures { option_copied result ≡ place_in self.now }
    {
        match self {
            BreezeError::BadForm(place)
            | BreezeError::DoublePart(place)
            | BreezeError::ArrayedPort(place)
            | BreezeError::Undeclared(place)
            | BreezeError::TooWide(place) => Some(place),
            BreezeError::Memory => None,
        }
    }
}

impl From<AllocError> for BreezeError {
    ghost from_gives = { λ _ e. e ≡ Memory };

    fn from(_error: AllocError) -> BreezeError {
        BreezeError::Memory
    }
}

impl<T: Drop> From<AllocFailed<T>> for BreezeError {
    ghost from_gives = { λ _ e. e ≡ Memory };

    fn from(_error: AllocFailed<T>) -> BreezeError {
        BreezeError::Memory
    }
}

/// The faults of a netlist.
#[derive(Clone, Copy, PartialEq, Eq)]
pub(crate) enum Code {
    BadForm,
    DoublePart,
    ArrayedPort,
    Undeclared,
    TooWide,
}

impl Code {
    /// The fault at a place, as the netlist's refusal.
    pub(crate) fn at(self, place: ByteAt) -> BreezeError
        ensures { fault_of result ≡ Some (fault_at self place) }
    {
        match self {
            Code::BadForm => BreezeError::BadForm(place),
            Code::DoublePart => BreezeError::DoublePart(place),
            Code::ArrayedPort => BreezeError::ArrayedPort(place),
            Code::Undeclared => BreezeError::Undeclared(place),
            Code::TooWide => BreezeError::TooWide(place),
        }
    }
}

/// Why a form names nothing: a fault at a byte of the text, or a want of memory.
#[derive(Clone, Copy, PartialEq, Eq)]
pub(crate) enum Refusal {
    At(Code, usize),
    NoMemory,
}

impl From<AllocError> for Refusal {
    ghost from_gives = { λ _ e. e ≡ NoMemory };

    fn from(_error: AllocError) -> Refusal {
        Refusal::NoMemory
    }
}

impl<T: Drop> From<AllocFailed<T>> for Refusal {
    ghost from_gives = { λ _ e. e ≡ NoMemory };

    fn from(_error: AllocFailed<T>) -> Refusal {
        Refusal::NoMemory
    }
}
