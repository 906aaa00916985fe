//! What each command of the program does but `explore`, over any reader and writers: with what status it ends.
#![tactic(auto)]

mod benching;
mod checking;
mod commands;
mod makers;
mod outcome;

pub use benching::{has_traces, test};
pub use checking::check;
pub use commands::{complete, draw, kinds, lint, list, parts, pool, run};
pub use makers::{Maker, make, make_waits, no_run};
pub use outcome::{Ended, Outcome};
