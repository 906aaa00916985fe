//! Traces that are no runs explain themselves: notes on the line that the verdict names, what was found there and what was due.
//!
//! The notes come after the verdict is written, so nothing that they say can change it.
#![tactic(auto)]

mod beginnings;
mod clashes;
mod explaining;
mod firings;
mod form_faults;
mod forms;
mod items;
mod moves;
mod object;
mod replies;
mod scene;
mod stops;
mod suspect;

pub use explaining::{explain_found, explain_no_trace, explain_trace, explain_unrested};
pub use object::put_found;
pub use suspect::Suspect;
