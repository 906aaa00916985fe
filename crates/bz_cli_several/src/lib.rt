//! Several traces, each checked by itself or as pieces of one run, and what runs have exercised of their net.
#![tactic(auto)]

mod covering;
mod held;
mod joining;
mod judging;
mod several;
mod telling;
mod traces;

pub use covering::{Covered, Exercised, cover_of_run};
pub use several::check_several;
pub use traces::Traces;
