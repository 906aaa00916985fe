//! A number that many threads publish and read without a lock: it never falls, and no call waits.
#![tactic(auto)]

mod front;
mod rule;
mod view;

pub use front::{Front, FrontSeat, Memory};
pub use view::View;
