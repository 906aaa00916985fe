//! What the program says beside its commands: faults and notes, objects of what was found, and why no command begins.
#![tactic(auto)]

mod noting;
mod objects;
mod refusing;
mod resting;

pub use noting::end;
pub use objects::put_checked;
pub use refusing::{refuse, tell_no_request, tell_unread};
