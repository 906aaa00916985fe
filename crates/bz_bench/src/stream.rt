//! What is to pass at a port.

ghost use Rattle.std.specs.Prelude.{◌≡◌, length};
ghost use Rattle.bz_bench.specs.Dues.{fits, group_of, is_done, is_due, item_at, may_begin, may_end, to_end};

use crate::tally::Tally;
use bz_model::Value;

/// What is to pass with one handshake.
#[derive(Clone, Copy, PartialEq, Eq)]
pub enum Item {
    /// A handshake without a value.
    Handshake,
    Value(Value),
    /// Any value.
    Any,
}

/// What is to pass at a port, in this order.
#[derive(Drop)]
pub struct Stream {
    pub items: Vec<Item>,
    /// What passes behind the items, as often as it is asked for.
    pub forever: Option<Item>,
    /// Whether the last handshake need not end.
    pub is_left_open: bool,
    /// The group of lines in which each item stands. Groups count from 0, and none is below the one before.
    pub groups: Vec<usize>,
    /// The group in which the port's last line stands, if it has one.
    pub last: Option<usize>,
}

impl Stream {
    /// What is due at a place.
    pub fn item_at(&self, place: usize) -> Option<Item>
        ensures { result ≡ item_at self.now place }
    {
        match self.items.get(place) {
            Some(item) => Some(*item),
            None => self.forever,
        }
    }

    /// How many handshakes have to end.
    pub fn to_end(&self) -> usize
        ensures { result ≡ to_end self.now }
    {
        if self.is_left_open {
            self.items.len().saturating_sub(1)
        } else {
            self.items.len()
        }
    }

    /// Whether the item at a place stands in a group or above it. One that repeats past the last one does not.
    pub fn is_due(&self, group: usize, place: usize) -> bool
        ensures { result ≡ is_due self.now group place }
    {
        match self.groups.get(place) {
            Some(own) => *own <= group,
            None => false,
        }
    }

    /// Whether all that stands in a group and those above it has passed.
    pub fn is_done(&self, group: usize, tally: &Tally) -> bool
        ensures { result ≡ is_done self.now group (length tally.now.begun.items) (length tally.now.ended.items) }
    {
        if self.is_due(group, tally.begun.len()) {
            return false;
        }
        let ended = tally.ended.len();
        ended >= self.to_end() || !self.is_due(group, ended)
    }

    /// How many items stand in a group and those above it.
    pub fn due_by(&self, group: usize) -> usize {
        self.groups.partition_point(|own| *own <= group)
    }

    /// Whether the port has a line in a group, or all its lines stand above that.
    pub fn is_open(&self, group: usize) -> bool {
        match self.last {
            Some(last) if group < last => {
                let before = self.due_by(group).wrapping_sub(1);
                self.groups.get(before).copied() == Some(group)
            }
            _ => true,
        }
    }

    /// The group of lines in which the item at a place stands. What repeats past the last one stands in that of the last line.
    pub fn group_of(&self, place: usize) -> usize
        ensures { result ≡ group_of self.now place }
    {
        match self.groups.get(place) {
            Some(group) => *group,
            None => self.last.unwrap_or(0),
        }
    }

    /// Whether a handshake may begin after so many, where this group has begun.
    pub fn may_begin(&self, group: usize, begun: usize) -> bool
        ensures { result ≡ may_begin self.now group begun }
    {
        if group < self.group_of(begun) {
            return false;
        }
        self.item_at(begun).is_some()
    }

    /// Whether a handshake may end after so many.
    pub fn may_end(&self, ended: usize) -> bool
        ensures { result ≡ may_end self.now ended }
    {
        !self.is_left_open || ended < self.to_end()
    }
}

/// Whether what came or went is what an item wants.
pub fn fits(item: Option<Item>, came: Option<Value>) -> bool
    ensures { result ≡ fits item came }
{
    match (item, came) {
        (Some(Item::Handshake), None) => true,
        (Some(Item::Value(due)), Some(came)) => due == came,
        (Some(Item::Any), Some(_)) => true,
        _ => false,
    }
}
