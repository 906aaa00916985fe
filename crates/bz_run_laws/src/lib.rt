//! Laws of whole runs of a net, over the definitions alone.
#![tactic(auto)]

mod nets;
mod parts;
mod ports;
mod runs;
mod texts;

pub use nets::{checked_runs_break_no_channel, well_wired_net};
pub use parts::{copies_are_parts, parts_run_in_place, traces_of_parts_are_accepted};
pub use ports::ports_make_handshakes;
pub use runs::{journals_lead_to_one_state, ports_have_one_move, runs_break_no_channel};
pub use texts::{
    lines_tell_one_run, traces_break_no_channel, traces_of_runs_are_accepted, traces_tell_one_run,
};
