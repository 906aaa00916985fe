//! What traces have exercised of a net: how often each component moved and each port was used, and reports of it.
#![tactic(auto)]

mod counted;
mod counting;
mod coverage;
mod json;
mod laws;
mod lcov;
mod report;
mod roles;
mod text;

pub use counted::Counted;
pub use counting::count_entries;
pub use coverage::Coverage;
pub use json::put_report;
pub use laws::{counts_add_up, ports_count_their_own, runs_are_counted, traces_add_up};
pub use lcov::put_lcov;
pub use report::Report;
pub use text::put_summary;
