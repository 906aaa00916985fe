//! What a chart shows, and where: the lifelines of a net, what each line of its trace tells, and the places of all of it.
#![tactic(auto)]

mod circuit;
mod event;
mod layout;
mod picks;
mod piece;

pub use circuit::{Circuit, Lifeline};
pub use event::{Denial, Event, Line, Step, read_line};
pub use layout::Layout;
pub use picks::Picks;
pub use piece::Piece;
