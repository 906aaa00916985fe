//! Why there is no page of a run.

use std::fmt;

/// The net has more components than a page holds.
#[derive(Clone, Copy, PartialEq, Eq)]
pub struct TooLarge {
    pub comps: usize,
}

impl fmt::Display for TooLarge {
    fn fmt<W: fmt::Write>(&self, f: &mut fmt::Formatter<W>) -> fmt::Result {
        let comps = self.comps;
        write!(f, "the net has {comps} components, and a page holds 100000")
    }
}
