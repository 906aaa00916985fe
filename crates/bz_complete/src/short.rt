//! The moves of a short trace.

use bz_model::Value;

/// What one end of a channel sends to the other.
#[derive(Clone, Copy, PartialEq, Eq)]
pub enum Sent {
    Ask,
    Reply,
}

/// A request or a reply on a channel, with the value that goes with it.
#[derive(Clone, Copy, PartialEq, Eq)]
pub struct ShortMove {
    pub sent: Sent,
    pub chan: u32,
    pub value: Option<Value>,
}
