//! The commands that look at a netlist and change nothing: where everything in a net stands, and which parts there are.
#![tactic(auto)]

mod listing;
mod parts;
mod paths;
mod surveying;

pub use listing::{host_holds, put_paths};
pub use parts::parts_cmd;
pub use paths::list_paths_cmd;
pub use surveying::{net_of, survey_of};
