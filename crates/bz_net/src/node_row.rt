//! The nodes of a net in one row, so that the place of a component's node is worked out from its number alone.

ghost use Rattle.std.specs.Prelude.{◌≡◌, ◌<◌, ◌++◌, [], ◌∷◌, length, slice_index_or, OnOk, OnErr, IfOk};
ghost use Rattle.std.specs.Borrow.{sem};

use crate::node::Node;
use bz_arena::Id;
use std::alloc::{AllocError, Global};
use std::marker::Model;

/// The nodes of all components, in their order. A contract sees them as that list.
#[derive(Drop)]
pub(crate) struct NodeRow {
    row: Vec<Node>,
}

impl Model for NodeRow {
    ghost use Rattle.std.specs.Prelude.{List};
    ghost use Rattle.std.specs.Coded.{codes};
    ghost use Rattle.bz_model.specs.Codes.{term_code};
    ghost use Rattle.bz_net.specs.declared.node.Node.{Node};

    ghost Value = { List Node };

    ghost coded = { Prim.hlevel (codes, term_code) };

    ghost view = { λ n. n.row.items };
}

impl NodeRow {
    ghost use Rattle.bz_net.specs.NodeRow.{LendsNode};

    /// No nodes, with room for so many.
    pub(crate) fn new(alloc: Global, count: usize) -> Result<NodeRow, AllocError>
        ensures { IfOk result (λ nodes. nodes ≡ []) }
    {
        let row = Vec::with_capacity(alloc, count)?;
        Ok(NodeRow { row })
    }

    /// Appends a node.
    #[inline(always)]
    pub(crate) fn push(&mut self, node: Node) -> Result<(), AllocError>
        ensures { OnOk result (self.new ≡ self.old ++ node ∷ []) }
    {
        match self.row.push(node) {
            Ok(()) => Ok(()),
            Err(_) => Err(AllocError),
        }
    }

    /// How many there are.
    #[inline(always)]
    pub(crate) fn len(&self) -> usize
        ensures { result ≡ length self.now }
    {
        self.row.len()
    }

    #[inline(always)]
    pub(crate) fn get(&self, id: Id<Node>) -> &Node
        requires { id < length self.now }
        ensures { result.now ≡ slice_index_or self.now id result.now }
    {
        &self.row[id.index()]
    }

    #[inline(always)]
    pub(crate) fn get_mut(&mut self, id: Id<Node>) -> &mut Node
        requires { id < length self.old }
        ensures* writes_back { sem 𝓛 (LendsNode self.entry id result) }
        ensures value { result.now ≡ slice_index_or self.old id result.now }
    {
        &mut self.row[id.index()]
    }
}
