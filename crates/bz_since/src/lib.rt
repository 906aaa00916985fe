//! Since which line of a trace something in a net can never move again.
#![tactic(auto)]

mod at_line;
mod following;
mod gathered;
mod halving;
mod since;
mod telling;

pub use at_line::AtLine;
pub use gathered::Gathered;
pub use since::{NoSince, Since, stuck_since, stuck_since_in};
pub use telling::{put_first, put_opening, put_since};
