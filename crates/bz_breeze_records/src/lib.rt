//! The records of a netlist's parts, found by name.
#![tactic(auto)]

mod entries;
mod held;
mod name;
mod part;
mod part_list;

pub use entries::Entries;
pub use name::Name;
pub use part::{Component, Part, Slot};
pub use part_list::Parts;
