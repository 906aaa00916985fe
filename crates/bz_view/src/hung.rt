//! On whom components hang, through idle ones too.

use crate::seen::chan_at;
use crate::shown::Shown;
use bz_model::Move;
use bz_waits::{Place, Table, Wait, Whom, first_move};
use std::alloc::{AllocError, Global};

/// What a component waits for at one of its ports, if a move is due there. The other component is 0 where the host is at
/// the other end.
pub(crate) fn due_at(seen: Shown<'_>, comp: u32, port: u32) -> Option<Wait> {
    let site = seen.net.comp(comp)?;
    let due = seen.net.due(comp, port)?;
    let chan = chan_at(site, port);
    let other = seen.end(chan, matches!(due, Move::Ask | Move::Got));
    Some(Wait {
        comp,
        chan,
        whom: if other.is_none() {
            Whom::Host
        } else {
            Whom::Busy
        },
        other: other.unwrap_or(0),
        mv: first_move(due, seen.phase(chan)),
        place: Place::First,
    })
}

/// Components on which others hang: whoever has the other end of a channel at which a move is due, and so on, up to those that
/// can move.
#[derive(Drop)]
pub(crate) struct Hung {
    /// All that were met, the nearest first.
    pub order: Vec<u32>,
    /// For each that was met who hung on it, or its own number where it was the first; for each that is left out its own number.
    came: Table,
}

impl Hung {
    /// Nobody, among the components of a net.
    pub fn new(alloc: Global, seen: Shown<'_>) -> Result<Hung, AllocError> {
        Ok(Hung {
            order: Vec::new(alloc),
            came: Table::new(alloc, seen.net.comp_count())?,
        })
    }

    /// All on which a component hangs, with it.
    pub fn of(alloc: Global, seen: Shown<'_>, comp: u32) -> Result<Hung, AllocError> {
        let mut hung = Hung::new(alloc, seen)?;
        hung.meet(comp, comp)?;
        hung.spread(seen)?;
        Ok(hung)
    }

    /// A component is not met any more.
    pub fn leave_out(&mut self, comp: u32) {
        self.came.set(comp, comp);
    }

    /// Whether a component was met or left out.
    pub fn has(&self, comp: u32) -> bool {
        self.came.at(comp) > 0
    }

    /// A component is met, on which another one hangs.
    pub fn meet(&mut self, comp: u32, from: u32) -> Result<(), AllocError> {
        if comp > 0 && !self.has(comp) {
            self.came.set(comp, from);
            self.order.push(comp)?;
        }
        Ok(())
    }

    /// All are met on which those hang that were met.
    pub fn spread(&mut self, seen: Shown<'_>) -> Result<(), AllocError> {
        for turn in 0..seen.net.comp_count() {
            let Some(comp) = self.order.get(turn as usize).copied() else {
                break;
            };
            if !seen.net.is_ready(comp) {
                self.go_on(seen, comp)?;
            }
        }
        Ok(())
    }

    fn go_on(&mut self, seen: Shown<'_>, comp: u32) -> Result<(), AllocError> {
        for port in 1..=seen.port_count(comp) {
            if let Some(wait) = due_at(seen, comp, port) {
                self.meet(wait.other, comp)?;
            }
        }
        Ok(())
    }

    /// All that were met.
    pub fn into_order(self) -> Vec<u32> {
        let Hung { order, came: _ } = self;
        order
    }

    /// The components on the way from the first one to another that was met, both with it.
    pub fn way(&self, alloc: Global, last: u32) -> Result<Vec<u32>, AllocError> {
        let (mut way, mut comp) = (Vec::new(alloc), last);
        for _ in 0..self.order.len() {
            way.push(comp)?;
            let from = self.came.at(comp);
            if from == comp {
                break;
            }
            comp = from;
        }
        way.as_mut_slice().reverse();
        Ok(way)
    }
}
