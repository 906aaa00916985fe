//! What the program does, over any reader and writers: the choice of the command, between a request and a status.
#![tactic(auto)]

mod exploring;
mod keeping;
mod naming;
mod performing;
mod playing;

pub use performing::program;
pub use playing::play;
