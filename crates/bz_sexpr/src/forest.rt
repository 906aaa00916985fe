//! The data of a text, as the nodes of their pieces.

ghost use Rattle.std.specs.Prelude.{◌≡◌, ◌<◌, ◌^◌, length};
ghost use Rattle.bz_sexpr.specs.Nodes.{row, forest};

use crate::form::{Forms, NodeForms};
use crate::node::Node;
use crate::nodes::NodeRow;
use bz_arena::Arena;

/// The data of a text, which take a node each and are read from the text when they are asked for.
#[derive(Drop)]
pub struct Forest<'t> {
    pub(crate) text: &'t [u8],
    pub(crate) nodes: Arena<Node>,
    /// How many data stand at top level.
    pub(crate) len: usize,
    ghost laid: { nodes ≡ row (forest text.now nodes) },
    ghost counted: { len ≡ length (forest text.now nodes) },
    ghost few: { length nodes < 2 ^ 32 },
}

impl<'t> Forest<'t> {
    ghost use Rattle.bz_sexpr.specs.Forms.{forms_view, forest_view};

    /// The data, from the first on.
    pub fn forms(&self) -> Forms<'_>
        ensures { forms_view result ≡ forest_view self.now }
    {
        Forms::Nodes(NodeForms {
            text: self.text,
            nodes: NodeRow::all(&self.nodes),
            len: self.len,
        })
    }
}
