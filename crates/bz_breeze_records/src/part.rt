//! The records of parts.

use crate::entries::Entries;
use crate::name::Name;
use bz_model::{Chan, Param, Port};

/// A part: its external ports are its first channels, in order.
#[derive(PartialEq, Eq, Drop)]
pub struct Part {
    pub name: Vec<u8>,
    pub ports: Vec<Port>,
    pub channels: Vec<Chan>,
    pub components: Vec<Component>,
}

/// A component of a part, by the name of its kind or of a part, with its parameters and its channels.
#[derive(PartialEq, Eq, Drop)]
pub struct Component {
    pub name: Name,
    pub params: Vec<Param>,
    pub entries: Entries,
}

/// An entry of a component: a channel of its part, or a list of them.
#[derive(Debug, PartialEq, Eq, Drop)]
pub enum Slot {
    One(u32),
    Many(Vec<u32>),
}
