//! The nodes of a text: all of them, in blocks that stay where they are while more come, and some of them in a row.
//!
//! A block is small. So a net's memory is what its text's nodes gave back, and not taken from the system anew.

ghost use Rattle.std.specs.Prelude.{◌≡◌, ◌+◌, ◌<◌, ◌≤◌, ◌^◌, [], ◌∷◌, ◌++◌, length, take, drop, slice_set, slice_index_or, OnOk, IfSome, IfNone};

use crate::node::Node;
use bz_arena::{Arena, Id};
use std::alloc::AllocError;

/// The node at a place, counted from 0.
#[inline(always)]
pub(crate) fn node_at(nodes: &Arena<Node>, place: usize) -> Node
    requires { place < length nodes.now }
    ensures { result ≡ slice_index_or nodes.now place result }
{
    *nodes.get(Id::at(place))
}

/// Puts a node behind the others.
#[inline(always)]
pub(crate) fn add_node(nodes: &mut Arena<Node>, node: Node) -> Result<(), AllocError>
    ensures { OnOk result (nodes.new ≡ nodes.old ++ node ∷ []) }
{
    match nodes.push(node) {
        Ok(_) => Ok(()),
        Err(_) => Err(AllocError),
    }
}

/// Gives the node of a list that is open what it has when the list is closed, and answers what it was.
#[inline(always)]
pub(crate) fn close_node(
    nodes: &mut Arena<Node>,
    place: usize,
    to: u32,
    size: u32,
    count: u32,
) -> Node
    requires { place < length nodes.old }
    ensures was { result ≡ slice_index_or nodes.old place result }
    ensures closed { nodes.new ≡ slice_set nodes.old place (record { from = result.from; to = to; size = size; count = count }) }
{
    let node = nodes.get_mut(Id::at(place));
    let opened = *node;
    *node = Node {
        from: opened.from,
        to,
        size,
        count,
    };
    opened
}

/// Nodes that stand one behind the other.
#[derive(Clone, Copy)]
pub struct NodeRow<'t> {
    nodes: &'t Arena<Node>,
    /// How many stand before them.
    from: u32,
    count: u32,
    ghost within: { from + count ≤ length nodes.now },
    ghost few: { from + count < 2 ^ 32 },
}

impl<'t> NodeRow<'t> {
    ghost use Rattle.bz_sexpr.specs.Rows.{nodes_seen};

    /// All nodes.
    pub(crate) fn all(nodes: &'t Arena<Node>) -> NodeRow<'t>
        requires { length nodes.now < 2 ^ 32 }
        ensures { nodes_seen result ≡ nodes.now }
    {
        NodeRow {
            nodes,
            from: 0,
            count: nodes.len() as u32,
        }
    }

    /// The first node and those behind it.
    #[inline(always)]
    pub(crate) fn split_first(self) -> Option<(Node, NodeRow<'t>)>
        ensures some { IfSome result (λ p. nodes_seen self.entry ≡ p.0 ∷ nodes_seen p.1) }
        ensures none { IfNone result (nodes_seen self.entry ≡ []) }
    {
        if self.count == 0 {
            return None;
        }
        let node = node_at(self.nodes, self.from as usize);
        Some((
            node,
            NodeRow {
                nodes: self.nodes,
                from: self.from + 1,
                count: self.count - 1,
            },
        ))
    }

    /// The first `count` nodes and those behind them.
    #[inline(always)]
    pub(crate) fn split_at(self, count: u32) -> (NodeRow<'t>, NodeRow<'t>)
        requires { count ≤ length (nodes_seen self) }
        ensures front { nodes_seen result.0 ≡ take count (nodes_seen self.entry) }
        ensures back { nodes_seen result.1 ≡ drop count (nodes_seen self.entry) }
    {
        let front = NodeRow {
            nodes: self.nodes,
            from: self.from,
            count,
        };
        let back = NodeRow {
            nodes: self.nodes,
            from: self.from + count,
            count: self.count - count,
        };
        (front, back)
    }
}
