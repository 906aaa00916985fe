//! What lay under a lock, moment by moment: one keeper knows what lies there now, and each owner all entries of its own.
#![tactic(auto)]

mod mark;
mod past;
mod rule;
mod standing;
mod turns;
mod view;

pub use past::{Keeper, Memory, Owner, Past, Stopper};
pub use standing::{Standing, Turn};
pub use turns::Turns;
pub use view::{Moment, Roll, View};
