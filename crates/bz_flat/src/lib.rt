//! The flat net of a part: its channels, components, external ports and the ends of each channel; or why there is none.
#![tactic(auto)]

mod chan_list;
mod error;
mod flat;

pub use chan_list::{CHANS_IN_PLACE, ChanList};
pub use error::ElabError;
pub use flat::{Ends, Flat, FlatComp, Pieces, dup_comps};
