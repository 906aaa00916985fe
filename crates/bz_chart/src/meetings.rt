//! Where requests meet: at a Call, CallMux or CallDemux that has one of them when another comes.

use bz_chart_layout::Circuit;
use bz_kind_rows::row_of;
use bz_model::{Callers, Move};

/// How many handshakes a component is in with callers, and whether it was told that some met there.
#[derive(Clone, Copy)]
pub(crate) struct Meeting {
    callers: u32,
    is_told: bool,
}

impl Meeting {
    pub const NONE: Meeting = Meeting {
        callers: 0,
        is_told: false,
    };

    /// Goes on by a move of a caller: whether requests meet now, and have not before.
    pub fn note(&mut self, mv: Move) -> bool {
        match mv {
            Move::Ask => {
                let meets = self.callers > 0 && !self.is_told;
                self.callers = self.callers.saturating_add(1);
                self.is_told = self.is_told || meets;
                meets
            }
            Move::Got => {
                self.callers = self.callers.saturating_sub(1);
                false
            }
            Move::Take | Move::Reply => false,
        }
    }
}

/// Whether requests can meet at a component.
pub(crate) fn is_shared(circuit: &Circuit, comp: u32) -> bool {
    match circuit.comp(comp) {
        Some(comp) => matches!(row_of(&comp.kind).callers, Callers::Meet),
        None => false,
    }
}
