//! Components that no request can reach, whatever a host does.
//!
//! No kind of component begins by itself: each waits for a request at a passive port. So a component that is at the passive end
//! of no channel with a request stands still for ever.
//!
//! What is reached may ask at all of its active ports, so only what is certain is reported: a component none of whose copies
//! is reached in any net that is opened.

use crate::marks::{Marks, set};
use crate::wired::Wired;
use bz_arena::Id;
use bz_kind_rows::is_passive;
use bz_model::Port;
use std::alloc::{AllocError, Global};

/// Requests while they are followed through a net.
#[derive(Drop)]
struct Requests<'t> {
    wired: &'t Wired,
    /// The components that are reached, and these in the order in which they were.
    reached: Vec<bool>,
    queue: Vec<usize>,
}

/// Marks the components of the text that the host's requests reach in a net with these external ports.
pub(crate) fn mark_reached(
    alloc: Global,
    ports: &[Port],
    wired: &Wired,
    marks: &mut Marks,
) -> Result<(), AllocError> {
    let mut requests = Requests {
        wired,
        reached: vec![in alloc; false; wired.comps.len()]?,
        queue: Vec::new(alloc),
    };
    for (chan, port) in (1..=u32::MAX).zip(ports.iter()) {
        if port.passive {
            requests.ask(chan)?;
        }
    }
    // (each component is in the queue once)
    for next in 0..wired.comps.len() {
        if let Some(place) = requests.queue.get(next).copied() {
            requests.ask_all(place)?;
        }
    }
    requests.mark(marks);
    Ok(())
}

impl Requests<'_> {
    // A request on a channel.
    fn ask(&mut self, chan: u32) -> Result<(), AllocError> {
        if let Some(place) = self.wired.ends(chan).callee {
            if self.reached.get(place) == Some(&false) {
                set(&mut self.reached, place);
                self.queue.push(place)?;
            }
        }
        Ok(())
    }

    // The requests that a component can make.
    fn ask_all(&mut self, place: usize) -> Result<(), AllocError> {
        let wired = self.wired;
        if place >= wired.comps.len() {
            return Ok(());
        }
        let comp = wired.comps.get(Id::at(place));
        for (port, chan) in (1..=u32::MAX).zip(comp.chans.iter()) {
            if !is_passive(&comp.kind, comp.sizes, port) {
                self.ask(*chan)?;
            }
        }
        Ok(())
    }

    // Marks the components that were reached.
    fn mark(&self, marks: &mut Marks) {
        for place in &self.queue {
            if let Some(at) = self.wired.places.comps().get(*place) {
                marks.set(at.part, at.position);
            }
        }
    }
}
