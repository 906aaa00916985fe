//! The command `chart`: the trace of a run, drawn as lifelines and what goes on between them.
#![tactic(auto)]

mod arrows;
mod bars;
mod columns;
mod drawing;
mod flow;
mod heads;
mod labels;
mod lanes;
mod legend;
mod lines;
mod meetings;
mod picking;
mod range;
mod rows;
mod scene;
mod svg;
mod words;

pub use lines::chart;
pub use picking::Picked;
pub use range::{LineRange, PieceFault};
