//! What a command on a trace begins with: a netlist and a trace, which is judged on the net; and what is found of it, as a line.
#![tactic(auto)]

mod case;
mod finding;
mod held;
mod joining;
mod judged;
mod opened;
mod splitting;
mod telling;
mod texts;
mod unmade;
mod way;

pub use case::Case;
pub use finding::Finding;
pub use joining::judge_piece;
pub use judged::{Judged, judge};
pub use opened::Opened;
pub use splitting::split_trace;
pub use telling::tell_found;
pub use texts::Texts;
pub use unmade::Unmade;
pub use way::CheckWay;
