//! The command `waits`: who waits for whom behind a line of the trace of a run, and since when something can never move again.
#![tactic(auto)]

mod asked;
mod behind;
mod played;
mod sourced;
mod told;

pub use asked::{WaitsAsked, WaitsFault};
pub use behind::waits;
pub use played::Played;
pub use told::Told;
