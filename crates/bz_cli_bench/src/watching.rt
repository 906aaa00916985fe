//! Whether a play goes round: whether a state comes again with nothing done since of which there is less left.

use bz_explore_net::Rounds;
use std::alloc::{AllocError, Global};

/// What is looked at of a play, so that it ends where it goes round.
#[derive(Drop)]
pub(crate) struct Watch {
    pub rounds: Rounds,
    /// Whether the play is one of those that there are by seeds.
    pub is_seeded: bool,
    /// Whether the last word was one of those that are done as often as they can be.
    pub repeats: bool,
    /// After how many entries all was as it is now, once that is found.
    pub again: Option<usize>,
    // How many entries there were after the last word at each port.
    lasts: Vec<usize>,
}

impl Watch {
    /// Before all words at so many ports.
    pub(crate) fn new(alloc: Global, ports: usize) -> Result<Watch, AllocError> {
        Ok(Watch {
            rounds: Rounds::new(),
            is_seeded: false,
            repeats: false,
            again: None,
            lasts: vec![in alloc; 0usize; ports]?,
        })
    }

    /// How many entries there were after the last word at a port.
    pub(crate) fn last(&self, port: u32) -> usize {
        match self.lasts.get((port as usize).saturating_sub(1)) {
            Some(last) => *last,
            None => 0,
        }
    }

    /// Notes a word at a port, after so many entries. Where it is counted, there is less left: nothing comes again.
    pub(crate) fn note(&mut self, port: u32, is_counted: bool, entries: usize) {
        self.repeats = !is_counted;
        if is_counted {
            self.rounds.forget();
        }
        if let Some(last) = self.lasts.get_mut((port as usize).saturating_sub(1)) {
            *last = entries;
        }
    }
}
