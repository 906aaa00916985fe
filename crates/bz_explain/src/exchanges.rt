//! Two entries of a component by whose exchange it fits, as where a generator wrote them the wrong way round.
//!
//! Of E9 and E10 the exchange is tried; of E11 it is of two channels that would both have their ends. This is a hint, not a
//! proof.

use crate::site::Site;
use bz_breeze_records::{Component, Entries, Name, Slot};
use bz_elab::first_fault;
use bz_explain_notes::Notes;
use bz_model::Param;
use bz_view::Piece::Number;
use std::alloc::{AllocError, Global};

/// The most entries of a component that is looked at.
const MOST_ENTRIES: usize = 12;

impl Site<'_> {
    /// Tells two entries by whose exchange the component has no fault, if there are such.
    pub(crate) fn say_exchange(&self, notes: &mut Notes) {
        let entries = self.component.entries.as_slice();
        if entries.len() > MOST_ENTRIES {
            return;
        }
        for (one, first) in entries.iter().enumerate() {
            for (other, second) in entries.iter().enumerate() {
                if let (true, Slot::One(_), Slot::One(_)) = (one < other, first, second) {
                    if self.fits_exchanged(notes, one, other) {
                        let form = "help: it fits with entries % and % exchanged";
                        return notes.say(form, &[Number(one + 1), Number(other + 1)]);
                    }
                }
            }
        }
    }

    // Whether it has no fault with these two entries exchanged.
    fn fits_exchanged(&self, notes: &mut Notes, one: usize, other: usize) -> bool {
        match exchanged(notes.alloc(), self.component, one, other) {
            Ok(copy) => self.fits(notes, &copy),
            Err(_) => {
                notes.fail();
                false
            }
        }
    }

    // Whether a component has no fault in its place.
    fn fits(&self, notes: &mut Notes, component: &Component) -> bool {
        let (alloc, channels) = (notes.alloc(), self.part.channels.as_slice());
        let mut carried = Vec::new(alloc);
        match first_fault(alloc, self.netlist.parts, channels, component, &mut carried) {
            Ok(fault) => fault.is_none(),
            Err(_) => {
                notes.fail();
                false
            }
        }
    }
}

// A copy of a component with two entries exchanged.
fn exchanged(
    alloc: Global,
    component: &Component,
    one: usize,
    other: usize,
) -> Result<Component, AllocError> {
    let mut entries = dup_entries(alloc, component.entries.as_slice())?;
    if one < entries.len() && other < entries.len() {
        entries.swap(one, other);
    }
    Ok(Component {
        name: Name::of(alloc, component.name.as_slice())?,
        params: dup_params(alloc, &component.params)?,
        entries: Entries::row(entries),
    })
}

fn dup_params(alloc: Global, params: &[Param]) -> Result<Vec<Param>, AllocError> {
    let mut all = Vec::with_capacity(alloc, params.len())?;
    for param in params {
        all.push(match param {
            Param::Num(number) => Param::Num(*number),
            Param::Flag(flag) => Param::Flag(*flag),
            Param::Word(word) => Param::Word(Vec::from_slice(alloc, word)?),
        })?;
    }
    Ok(all)
}

fn dup_entries(alloc: Global, entries: &[Slot]) -> Result<Vec<Slot>, AllocError> {
    let mut all = Vec::with_capacity(alloc, entries.len())?;
    for entry in entries {
        all.push(match entry {
            Slot::One(chan) => Slot::One(*chan),
            Slot::Many(chans) => Slot::Many(Vec::from_slice(alloc, chans)?),
        })?;
    }
    Ok(all)
}
