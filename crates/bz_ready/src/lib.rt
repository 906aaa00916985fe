//! A set of numbers, such as those of the components that can move.
#![tactic(auto)]

mod order;
mod set;

pub use set::ReadySet;
