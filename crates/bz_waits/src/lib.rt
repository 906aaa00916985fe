//! Who waits for whom in a net: for whom each component waits that can't move, the cycles of these, and the components that can
//! never move again, whatever hosts do.
#![tactic(auto)]

mod cycles;
mod due;
mod graph;
mod laws;
mod looking;
mod rings;
mod searching;
mod set;
mod sites;
mod table;
mod wait;

pub use graph::Graph;
pub use laws::what_is_stuck_stays;
pub use rings::Link;
pub use set::Stuck;
pub use table::Table;
pub use wait::{Place, Wait, Whom, first_move};
