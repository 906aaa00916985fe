//! The command `complete`: a short trace, which has the requests and replies of channels alone, made whole, so that `check` reads
//! it: each take and got is put in where its component must have made it.
#![tactic(auto)]

mod asked;
mod bad_line;
mod command;
mod completing;
mod fault;
mod guide;
mod making;
mod names;
mod pending;
mod reading;
mod refusing;
mod settling;
mod short;
mod why;

pub use asked::CompleteAsked;
pub use command::complete_cmd;
pub use fault::CompleteFault;
