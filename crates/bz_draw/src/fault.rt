//! Why nothing is drawn of a net.

use std::fmt;

/// The most components and boxes that a drawing holds.
pub(crate) const MOST_DRAWN: usize = 5000;

/// Why nothing is drawn of a net.
#[derive(Clone, Copy, PartialEq, Eq)]
pub enum NoDrawing {
    /// The net has no component of this number, but so many.
    NoComponent { comp: u32, comps: usize },
    /// So many components and boxes are more than a drawing holds.
    TooMany { nodes: usize },
}

impl fmt::Display for NoDrawing {
    fn fmt<W: fmt::Write>(&self, f: &mut fmt::Formatter<W>) -> fmt::Result {
        match self {
            NoDrawing::NoComponent { comp, comps } => {
                write!(f, "--around {comp}: the net has {comps} components")
            }
            NoDrawing::TooMany { nodes } => write!(
                f,
                "{nodes} components and boxes are asked for, and a drawing holds {MOST_DRAWN}: give --around, fewer --hops or a lesser --depth"
            ),
        }
    }
}

/// Why nothing is drawn of a net behind a line of a trace.
#[derive(Clone, Copy, PartialEq, Eq)]
pub enum NoMoment {
    /// The trace has no such line, but so many.
    NoLine { line: usize, lines: usize },
    /// There is no such drawing.
    Undrawn(NoDrawing),
}

impl fmt::Display for NoMoment {
    fn fmt<W: fmt::Write>(&self, f: &mut fmt::Formatter<W>) -> fmt::Result {
        match self {
            NoMoment::NoLine { line, lines } => {
                write!(f, "--line {line}: the trace has {lines} lines")
            }
            NoMoment::Undrawn(why) => write!(f, "{why}"),
        }
    }
}
