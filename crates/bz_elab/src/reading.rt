//! The parts as they were read: what each component is, told once for all copies of its part.

use bz_arena::Arena;
use bz_flat::FlatComp;

/// A component that adds something to the net, by the numbers that its part's channels have in that part.
#[derive(Drop)]
pub enum Item {
    /// A component that is no instance.
    Leaf(FlatComp),
    Copy(Instance),
}

/// An instance: the number of its part, counted from 0, and the channels that its entries name.
#[derive(Drop)]
pub struct Instance {
    pub part: usize,
    pub chans: Vec<u32>,
}

/// The components of a part, in order, but for those that add nothing to the net.
#[derive(Drop)]
pub struct Reading {
    /// Of the top, those before its first instance.
    pub leaves: Arena<FlatComp>,
    /// All others.
    pub items: Vec<Item>,
}
