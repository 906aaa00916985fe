//! The lines of a trace: written, read back, and counted; and what prints texts by pages.
#![tactic(auto)]

mod counting;
mod firing;
mod foretold;
mod kept_line;
mod kept_lines;
mod kept_values;
mod line;
mod numeral;
mod outgoing;
mod page;
mod ports;
mod printer;
mod reading;
mod spelled;
mod tally;
mod text;
mod trace;

pub use counting::{counts, line_count};
pub use firing::firing_at;
pub use foretold::foretold_at;
pub use outgoing::Outgoing;
pub use page::Page;
pub use ports::LineNames;
pub use printer::Printer;
pub use reading::{clash_at, line_at, strip};
pub use tally::Counts;
pub use text::{
    MAX_ENTRIES, TraceError, Version, one_spelling, other_line, read_trace, version_at,
};
pub use trace::{put_clashes, put_entries, put_first_line, write_trace, write_trace_1};
