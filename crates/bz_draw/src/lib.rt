//! The command `draw`: the net of a part as a graph in the DOT language, for Graphviz.
#![tactic(auto)]

mod behind;
mod cells;
mod command;
mod drawing;
mod edges;
mod fault;
mod folding;
mod graph;
mod labels;
mod near;
mod nodes;
mod piece;
mod view;

pub use behind::graph_at;
pub use command::draw_cmd;
pub use drawing::{Drawing, Edge, Tip, drawing_of};
pub use fault::{NoDrawing, NoMoment};
pub use folding::Folding;
pub use view::View;
