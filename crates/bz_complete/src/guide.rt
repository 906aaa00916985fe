//! What comes later in a short trace: which request a component has taken that takes one of several, and what a Bar's activation
//! leads to.

use crate::making::{Maker, maker_of};
use crate::pending::is_guarding;
use crate::short::{Sent, ShortMove};
use bz_flat::FlatComp;
use bz_kind_rows::row_of;
use bz_model::Callers;
use bz_net::Net;
use std::alloc::{AllocError, Global};

/// A move that tells what a component has noticed: a reply where it takes one request of several, and a Bar's move behind its
/// activation.
#[derive(Clone, Copy)]
struct Later {
    port: u32,
    /// The place in the list of the component's move after it.
    after: Option<usize>,
}

/// The moves still to come that tell what components have noticed.
#[derive(Drop)]
pub(crate) struct Guide {
    moves: Vec<Later>,
    /// By the number of a component the place of the first of its moves that is still to come.
    next: Vec<Option<usize>>,
}

impl Guide {
    /// That of a net at its opening, and of the moves to come.
    pub(crate) fn of(alloc: Global, net: &Net, moves: &[ShortMove]) -> Result<Guide, AllocError> {
        let comps = (net.core().comp_count() as usize).saturating_add(1);
        let mut guide = Guide {
            moves: Vec::new(alloc),
            next: vec![in alloc; None; comps]?,
        };
        let mut last: Vec<Option<usize>> = vec![in alloc; None; comps]?;
        for due in moves {
            if let Some((comp, port)) = telling(net, *due) {
                guide.add(comp as usize, port, last.as_mut_slice())?;
            }
        }
        Ok(guide)
    }

    // Adds a move of a component behind the last of it.
    fn add(
        &mut self,
        comp: usize,
        port: u32,
        last: &mut [Option<usize>],
    ) -> Result<(), AllocError> {
        let place = self.moves.len();
        let before = last.get(comp).copied().flatten();
        self.moves.push(Later { port, after: None })?;
        match before {
            Some(before) => match self.moves.get_mut(before) {
                Some(told) => told.after = Some(place),
                None => {}
            },
            None => match self.next.get_mut(comp) {
                Some(next) => *next = Some(place),
                None => {}
            },
        }
        if let Some(slot) = last.get_mut(comp) {
            *slot = Some(place);
        }
        Ok(())
    }

    /// The port at which a component makes its next move that tells what it has noticed.
    pub(crate) fn next_port(&self, comp: u32) -> Option<u32> {
        Some(self.next_move(comp)?.port)
    }

    /// Goes on behind a move of a component, if it is one of those.
    pub(crate) fn pass(&mut self, net: &Net, comp: u32, port: u32, sent: Sent) {
        match net.core().comp(comp) {
            Some(site) if tells(site, port, sent) => {}
            _ => return,
        }
        if let Some(told) = self.next_move(comp) {
            if let Some(next) = self.next.get_mut(comp as usize) {
                *next = told.after;
            }
        }
    }

    fn next_move(&self, comp: u32) -> Option<Later> {
        let place = self.next.get(comp as usize).copied().flatten()?;
        self.moves.get(place).copied()
    }
}

// The component and the port, where a move tells what the component has noticed.
fn telling(net: &Net, due: ShortMove) -> Option<(u32, u32)> {
    match maker_of(net, due) {
        Maker::Comp { comp, port } if tells(net.core().comp(comp)?, port, due.sent) => {
            Some((comp, port))
        }
        _ => None,
    }
}

fn tells(site: &FlatComp, port: u32, sent: Sent) -> bool {
    let [size, _] = site.sizes;
    match row_of(&site.kind).callers {
        Callers::Meet => sent == Sent::Reply,
        Callers::Guarded => !is_guarding(size, port),
        _ => false,
    }
}
