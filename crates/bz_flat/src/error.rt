//! Why a part has no net.

ghost use Rattle.std.specs.Prelude.{◌≡◌};
ghost use Rattle.bz_flat.specs.declared.error.ElabError.TheVariants.{Memory};

use std::alloc::{AllocError, AllocFailed};
use thiserror::Error;

/// The reasons, in the order in which they are looked for.
///
/// A part is told by its place in the list of parts, counted from 0, and a component by its position in that part, counted
/// from 1.
#[derive(Clone, Copy, Debug, PartialEq, Eq, Error)]
pub enum ElabError {
    /// No part has the name asked for.
    #[error("E1 NoPart")]
    NoPart,
    /// A part that the top reaches reaches itself.
    #[error("E2 Recursive {0}")]
    Recursive(usize),
    /// A path of more than 64 instances.
    #[error("E3 TooDeep")]
    TooDeep,
    /// No kind and no part has the component's name.
    #[error("E4 UnknownComponent {0} {1}")]
    UnknownComponent(usize, usize),
    #[error("E5 BadParameter {0} {1}")]
    BadParameter(usize, usize),
    /// A wrong number of entries, or an array of a length that its kind forbids.
    #[error("E6 PortCount {0} {1}")]
    PortCount(usize, usize),
    /// An entry that is no channel of the part.
    #[error("E7 BadChannel {0} {1}")]
    BadChannel(usize, usize),
    /// More components, channels or component ends than a net may have.
    #[error("E8 TooBig")]
    TooBig,
    #[error("E9 KindMismatch {0} {1}")]
    KindMismatch(usize, usize),
    #[error("E10 WidthMismatch {0} {1}")]
    WidthMismatch(usize, usize),
    /// A channel with two active or two passive component ends.
    #[error("E11 TwoEnds {0}")]
    TwoEnds(u32),
    /// A channel with one component end alone, and no external port.
    #[error("E12 LooseEnd {0}")]
    LooseEnd(u32),
    /// An external port with a component end at the host's side.
    #[error("E13 PortSense {0}")]
    PortSense(u32),
    #[error("F3 Memory")]
    Memory,
}

impl From<AllocError> for ElabError {
    ghost from_gives = { λ _ e. e ≡ Memory };

    fn from(_error: AllocError) -> ElabError {
        ElabError::Memory
    }
}

impl<T: Drop> From<AllocFailed<T>> for ElabError {
    ghost from_gives = { λ _ e. e ≡ Memory };

    fn from(_error: AllocFailed<T>) -> ElabError {
        ElabError::Memory
    }
}
