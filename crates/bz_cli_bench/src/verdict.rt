//! How a bench ends.

use bz_bench::Item;
use bz_model::Value;

/// How a bench ends. Ports count from 1, places in a stream from 0.
#[derive(Clone, Copy)]
pub enum Verdict {
    /// All that is due has passed, and nothing else comes.
    Passed,
    /// With an item of a port another value came than was due.
    Differs {
        port: u32,
        place: usize,
        due: Option<Item>,
        came: Option<Value>,
    },
    /// A value came at a port at which no more is due.
    Extra {
        port: u32,
        came: Value,
    },
    /// No component can move, a stream of this group of lines or one above it is short, and no word of these would be done.
    Stuck {
        group: usize,
    },
    /// The net is in the state in which it was after so many entries, so that all goes on for ever as it did since; and this group of
    /// lines has begun last.
    Spins {
        from: usize,
        group: usize,
    },
    /// None of these, since the fuel or the journal was spent.
    Spent,
}
