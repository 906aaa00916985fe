//! Faults that explain themselves: notes on where a fault stands in the text, what was found there and what belongs there, or why
//! a part has no net; all faults of a netlist at once; and the command `lint`.
#![tactic(auto)]

mod asked;
mod component_faults;
mod data;
mod end_faults;
mod event_faults;
mod exchanges;
mod explaining;
mod findings;
mod kind_words;
mod lint;
mod marks;
mod member_faults;
mod mended;
mod net_faults;
mod opening;
mod part_faults;
mod partless;
mod reading;
mod refusals;
mod site;
mod skipped;
mod spelling;
mod told;
mod unreached;
mod warnings;
mod wired;
mod word_faults;

pub use asked::{Asked, WordFile, Words};
pub use explaining::{Explained, explain};
pub use lint::{Lint, lint_cmd, refuse_lint};
