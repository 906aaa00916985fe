//! A net whatever the ends of its channels.

use bz_arena::{Arena, Id};
use bz_breeze_records::Parts;
use bz_elab::{ElabError, FlatComp, unwired_net};
use bz_kind_rows::is_passive;
use bz_model::numbered;
use bz_source::Places;
use std::alloc::{AllocError, Global};

/// The ends that a channel has at components.
#[derive(Clone, Copy)]
pub struct ChanEnds {
    pub(crate) active: u32,
    pub(crate) passive: u32,
    /// The place of the component at the last of its passive ends.
    pub callee: Option<usize>,
}

/// A channel without ends.
const NO_ENDS: ChanEnds = ChanEnds {
    active: 0,
    passive: 0,
    callee: None,
};

/// The components of a net, where all of it stands, and what is wrong with the ends of its channels.
pub struct Wired {
    /// The number of the part, from 0.
    pub(crate) top: usize,
    pub comps: Arena<FlatComp>,
    pub places: Places,
    /// The places of the whole net, where this is not all of it.
    pub whole: Option<Places>,
    /// Of each channel, in order.
    ends: Vec<ChanEnds>,
    pub faults: Vec<ElabError>,
}

// Written by hand: callers then prove one drop instead of one for each field.
impl Drop for Wired {
    fn drop(self) {
        let Wired {
            top: _,
            comps: _,
            places: _,
            whole: _,
            ends: _,
            faults: _,
        } = self;
    }
}

impl Wired {
    /// The net of a part.
    pub fn of(alloc: Global, parts: &Parts, part: &[u8]) -> Result<Wired, ElabError> {
        let net = unwired_net(alloc, parts, part)?;
        // a part that has components has places, so nothing but memory can be wanting
        let Ok(places) = Places::of(alloc, parts, part) else {
            return Err(ElabError::Memory);
        };
        let ends = ends_of(alloc, &net.comps, places.chans().len())?;
        Ok(Wired {
            top: parts.number(part).unwrap_or(0),
            comps: net.comps,
            places,
            whole: None,
            ends,
            faults: net.faults,
        })
    }

    /// The number that a component has in the whole net.
    pub(crate) fn shown(&self, comp: u32) -> usize {
        if let (Some(whole), Some(place)) = (&self.whole, self.places.comp(comp)) {
            if let Some(before) = whole.comps().iter().position(|at| at == place) {
                return before + 1;
            }
        }
        comp as usize
    }

    /// The ends of a channel.
    pub fn ends(&self, chan: u32) -> ChanEnds {
        numbered(&self.ends, chan).copied().unwrap_or(NO_ENDS)
    }
}

fn ends_of(
    alloc: Global,
    comps: &Arena<FlatComp>,
    chans: usize,
) -> Result<Vec<ChanEnds>, AllocError> {
    let mut ends = vec![in alloc; NO_ENDS; chans]?;
    for place in 0..comps.len() {
        note_ends(comps.get(Id::at(place)), place, &mut ends);
    }
    Ok(ends)
}

// Notes the ends that a component has.
fn note_ends(comp: &FlatComp, place: usize, ends: &mut [ChanEnds]) {
    for (port, chan) in (1..=u32::MAX).zip(comp.chans.iter()) {
        if let Some(ends) = ends.get_mut((*chan as usize).saturating_sub(1)) {
            if is_passive(&comp.kind, comp.sizes, port) {
                ends.passive = ends.passive.saturating_add(1);
                ends.callee = Some(place);
            } else {
                ends.active = ends.active.saturating_add(1);
            }
        }
    }
}
