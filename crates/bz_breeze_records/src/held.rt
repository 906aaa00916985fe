//! What components hold in their place where it is little.

use crate::part::Slot;

/// The bytes of a name.
#[derive(Drop)]
pub(crate) enum Held {
    Short { bytes: [u8; 24], len: u8 },
    Long(Vec<u8>),
}

/// The entries of a component.
#[derive(Drop)]
pub(crate) enum HeldSlots {
    One([Slot; 1]),
    Row(Vec<Slot>),
}
