//! The command `explore`: a net played by hand, line by line.
#![tactic(auto)]

mod answer;
mod commands;
mod explored;
mod feeding;
mod hosts;
mod looking;
mod object;
mod passing;
mod picking;
mod redoing;
mod refusals;
mod running;
mod saving;
mod session;
mod table;
mod telling;
mod things;
mod totals;
mod words;

pub use explored::{Ending, Files, Manner, NoFile, explore_behind, explore_cmd};
pub use saving::save;
