//! Traces: written, read back, counted, and checked against a net.
#![tactic(auto)]

mod checking;
mod following;
mod foretelling;
mod joined;
mod kept;
mod laws;
mod lines;
mod reading;
mod watching;

pub use bz_trace_text::{
    Counts, MAX_ENTRIES, TraceError, Version, counts, one_spelling, put_clashes, put_entries,
    put_first_line, read_trace, write_trace, write_trace_1,
};
pub use checking::Verdict;
pub use joined::Joined;
pub use kept::KeptLines;
pub use laws::plays_are_accepted;
pub use reading::{ReadFault, Said, check_read};
pub use watching::{Unwatched, Watch};
