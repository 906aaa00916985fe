//! The text of a bench, what is due at each port, and what passed there.
#![tactic(auto)]

mod bench;
mod fault;
mod groups;
mod items;
mod lines;
mod stream;
mod tally;

pub use bench::{Bench, Due, Line, PortLine, Texts, read_bench};
pub use fault::{BenchFault, Cause, Spot};
pub use groups::groups_pass_in_turn;
pub use items::{Times, Word, word_of};
pub use lines::{Spelt, words_of};
pub use stream::{Item, Stream, fits};
pub use tally::{Tally, no_tallies, note, tallies_of};
