//! The command `kinds`: of each kind of component its ports, and what it asks of channels and parameters, as data.
#![tactic(auto)]

mod command;
mod fields;
mod items;

pub use command::kinds_cmd;
