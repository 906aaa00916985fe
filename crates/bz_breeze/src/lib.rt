//! The parts of a Breeze netlist.
#![tactic(auto)]

mod error;
mod forms;
mod name_set;
mod netlist;

pub use bz_breeze_records::{Component, Part, Parts, Slot};
pub use bz_model::Port;
pub use error::{BreezeError, ByteAt};
pub use name_set::NameSet;
pub use netlist::{parts, parts_of};
