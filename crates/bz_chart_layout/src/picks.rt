//! Which lifelines of a net are shown, where not all are.

use crate::circuit::{Circuit, Lifeline};
use crate::event::{Event, Step};
use bz_model::Move;
use std::alloc::{AllocError, Global};

/// Lifelines and channels that are picked. Of a channel the lifelines at its ends are shown, for what goes on there alone.
#[derive(Drop)]
pub struct Picks {
    // of each, in the order of their numbers, whether it is picked
    ports: Vec<bool>,
    comps: Vec<bool>,
    chans: Vec<bool>,
}

impl Picks {
    /// Nothing of a net.
    pub fn none(alloc: Global, circuit: &Circuit) -> Result<Picks, AllocError> {
        Ok(Picks {
            ports: vec![in alloc; false; circuit.names().ports().len()]?,
            comps: vec![in alloc; false; circuit.comp_count() as usize]?,
            chans: vec![in alloc; false; circuit.chan_count()]?,
        })
    }

    /// Picks a lifeline; whether there is such a one.
    pub fn pick(&mut self, lifeline: Lifeline) -> bool {
        match lifeline {
            Lifeline::Port(port) => set(&mut self.ports, port),
            Lifeline::Comp(comp) => set(&mut self.comps, comp),
        }
    }

    /// Picks a channel; whether there is such a one.
    pub fn pick_chan(&mut self, chan: u32) -> bool {
        set(&mut self.chans, chan)
    }

    /// Picks all ports.
    pub fn pick_ports(&mut self) {
        for port in &mut self.ports {
            *port = true;
        }
    }

    /// Whether a lifeline is shown where something moves on this channel.
    pub fn has(&self, lifeline: Lifeline, chan: u32) -> bool {
        self.has_lifeline(lifeline) || is_set(&self.chans, chan)
    }

    fn has_lifeline(&self, lifeline: Lifeline) -> bool {
        match lifeline {
            Lifeline::Port(port) => is_set(&self.ports, port),
            Lifeline::Comp(comp) => is_set(&self.comps, comp),
        }
    }

    /// Whether a line that tells this is shown: what a picked lifeline does, what is sent to one, and all on a picked channel.
    pub fn shows(&self, event: Event) -> bool {
        match event {
            Event::Moved(step) => self.has(step.maker, step.chan) || self.is_sent(step),
            Event::Watched { port, .. } | Event::Refused { port, .. } => {
                self.has(Lifeline::Port(port), port)
            }
            Event::Clashed { comp } => self.has_lifeline(Lifeline::Comp(comp)),
            Event::Rested => false,
        }
    }

    // Whether something is sent to a picked lifeline.
    fn is_sent(&self, step: Step) -> bool {
        matches!(step.mv, Move::Ask | Move::Reply) && self.has_lifeline(step.other)
    }
}

// Sets the mark of this number, counted from 1; whether there is such a one.
fn set(marks: &mut [bool], number: u32) -> bool {
    if number == 0 {
        return false;
    }
    match marks.get_mut(number as usize - 1) {
        Some(mark) => {
            *mark = true;
            true
        }
        None => false,
    }
}

fn is_set(marks: &[bool], number: u32) -> bool {
    number > 0 && marks.get(number as usize - 1).copied().unwrap_or(false)
}
