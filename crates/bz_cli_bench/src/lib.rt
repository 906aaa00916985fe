//! The command `test`: benches that are played on the nets of netlists, and what each case came to.
//!
//! All cases are decided before anything is written, so that a form that begins with their number can be had.
#![tactic(auto)]

mod amending;
mod asked;
mod blessing;
mod case;
mod counted;
mod ended;
mod files;
mod forms;
mod journal;
mod json;
mod judging;
mod junit;
mod learning;
mod lines;
mod nets;
mod opened;
mod plan;
mod playing;
mod reading;
mod rounding;
mod rounds;
mod setting;
mod status;
mod telling;
mod testing;
mod told;
mod traces;
mod unlike;
mod verdict;
mod watching;
mod xml;

pub use asked::{Asked, Form, Seeds};
pub use case::{Case, Short, Told};
pub use ended::{Ended, Unlike};
pub use files::{BenchFiles, FileFault, THERE};
pub use testing::test_cmd;
pub use traces::is_trace_there;
