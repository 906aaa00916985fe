//! The moves that can be made.

use crate::scene::Scene;
use bz_explain_notes::Notes;
use bz_explore_net::{Offer, offers_of};
use bz_view::Piece::{Number, Text, Value};

/// The most moves that are told.
const MOST_TOLD: usize = 10;

impl Scene<'_> {
    /// Goes on with the moves that components can make, or with those of this one, and two dots where there are more than ten.
    pub(crate) fn put_moves(&self, notes: &mut Notes, of: Option<u32>) {
        let found = offers_of(notes.alloc(), self.seen.net);
        let offers = notes.gathered(found);
        let mut told = 0usize;
        for offer in &offers {
            if of.unwrap_or(offer.comp) == offer.comp {
                put_move(notes, *offer, told);
                told = told.saturating_add(1);
            }
        }
    }
}

// Goes on with a move, behind so many others.
fn put_move(notes: &mut Notes, offer: Offer, told: usize) {
    if told < MOST_TOLD {
        let args = [
            Text(if told == 0 { "" } else { ", " }),
            Number(offer.comp as usize),
            Text(offer.mv.word()),
            Number(offer.chan as usize),
            Value(offer.value),
        ];
        notes.put("%fire % % %%", &args);
    } else if told == MOST_TOLD {
        notes.put(", ..", &[]);
    }
}
