//! One flat net from the parts of a netlist.
#![tactic(auto)]

mod check;
mod component;
mod elaboration;
mod ends;
mod error;
mod faults;
mod laws;
mod rank;
mod reach;
mod reading;
mod totals;
mod unwired;
mod walk;

pub use bz_flat::{ElabError, Flat, FlatComp};
pub use component::{arranged, array_sizes, flattened};
pub use elaboration::elaborate;
pub use error::{CompAt, Fault};
pub use faults::first_fault;
pub use laws::{leaves_are_met, places_differ, stops_rise};
pub use reach::reached;
pub use unwired::{Unwired, unwired_net};
