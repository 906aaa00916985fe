//! The nodes of a text.

ghost use Rattle.std.specs.Prelude.{◌≡◌};
ghost use Rattle.bz_sexpr.specs.Nodes.{between, span_at};

use crate::Span;
use crate::bytes::between;

/// A datum of a text: the bytes `from..to` that spell it, how many of the nodes behind it stand for data in it, and how
/// many data are in it.
#[derive(Clone, Copy, PartialEq, Eq)]
pub(crate) struct Node {
    pub(crate) from: u32,
    pub(crate) to: u32,
    pub(crate) size: u32,
    pub(crate) count: u32,
}

impl Node {
    pub(crate) fn span(self) -> Span
        ensures { result ≡ span_at self }
    {
        Span {
            from: self.from as usize,
            to: self.to as usize,
        }
    }

    /// How many data are in the datum.
    pub(crate) fn inside(self) -> usize
        ensures { result ≡ self.count }
    {
        self.count as usize
    }

    /// The piece of the text that spells the datum.
    pub(crate) fn piece(self, text: &[u8]) -> &[u8]
        ensures { result.now ≡ between self.from self.to text.now }
    {
        between(text, self.from as usize, self.to as usize)
    }
}
