//! A net that is played by hand: the moves that can be made in it, what is under way, and the way back.
#![tactic(auto)]

mod busy;
mod chance;
mod counted;
mod host_offers;
mod movers;
mod offers;
mod picker;
mod replaying;
mod rounds;
mod stepping;

pub use busy::busy_chans;
pub use counted::CountedRow;
pub use host_offers::{HostOffer, answered_words};
pub use movers::chan_of;
pub use offers::{Offer, offers_of};
pub use picker::Picker;
pub use replaying::replay;
pub use rounds::{Moment, Rounds, rounds_go_on_for_ever};
pub use stepping::{Mark, Stepping, UndoError};
