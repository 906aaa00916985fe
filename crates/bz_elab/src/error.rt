//! What is wrong with one component of a part, and where it stands.

ghost use Rattle.std.specs.Prelude.{◌≡◌};
ghost use Rattle.bz_model.specs.declared.error.KindError.{KindError};
ghost use Rattle.bz_elab.specs.declared.error.Fault.TheVariants as fault;
ghost use Rattle.bz_elab.specs.Faults.{fault_of, error_at};
ghost use Rattle.bz_elab.specs.Order.{order};

use bz_flat::ElabError;
use bz_model::KindError;
use std::alloc::{AllocError, AllocFailed};

/// Where a component stands: the place of its part in the list of parts, counted from 0, and its position in that part,
/// counted from 1.
#[derive(Clone, Copy, PartialEq, Eq)]
pub struct CompAt {
    pub part: usize,
    pub position: usize,
}

/// What is wrong with one component of a part.
#[derive(Clone, Copy, PartialEq, Eq)]
pub enum Fault {
    UnknownComponent,
    BadParameter,
    PortCount,
    BadChannel,
    KindMismatch,
    WidthMismatch,
    Memory,
}

impl Fault {
    /// The number of its refusal in the order of refusals, 0 for want of memory.
    pub fn order(self) -> u32
        ensures { result ≡ order self }
    {
        match self {
            Fault::Memory => 0,
            Fault::UnknownComponent => 4,
            Fault::BadParameter => 5,
            Fault::PortCount => 6,
            Fault::BadChannel => 7,
            Fault::KindMismatch => 9,
            Fault::WidthMismatch => 10,
        }
    }

    /// The refusal of a component that stands here.
    pub fn at(self, spot: CompAt) -> ElabError
        ensures { result ≡ error_at self spot.part spot.position }
    {
        let CompAt { part, position } = spot;
        match self {
            Fault::UnknownComponent => ElabError::UnknownComponent(part, position),
            Fault::BadParameter => ElabError::BadParameter(part, position),
            Fault::PortCount => ElabError::PortCount(part, position),
            Fault::BadChannel => ElabError::BadChannel(part, position),
            Fault::KindMismatch => ElabError::KindMismatch(part, position),
            Fault::WidthMismatch => ElabError::WidthMismatch(part, position),
            Fault::Memory => ElabError::Memory,
        }
    }
}

impl From<KindError> for Fault {
    ghost from_gives = { λ k e. e ≡ fault_of k };

    fn from(error: KindError) -> Fault {
        match error {
            KindError::UnknownComponent => Fault::UnknownComponent,
            KindError::BadParameter => Fault::BadParameter,
            KindError::Memory => Fault::Memory,
        }
    }
}

impl From<AllocError> for Fault {
    ghost from_gives = { λ _ e. e ≡ fault.Memory };

    fn from(_error: AllocError) -> Fault {
        Fault::Memory
    }
}

impl<T: Drop> From<AllocFailed<T>> for Fault {
    ghost from_gives = { λ _ e. e ≡ fault.Memory };

    fn from(_error: AllocFailed<T>) -> Fault {
        Fault::Memory
    }
}
