//! What the ports of all components lead to, in one row, so that a move finds its channel and the other end by two looks.

ghost use Rattle.std.specs.Prelude.{◌≡◌, ◌<◌, ◌≤◌, ◌++◌, ◌^◌, List, All, length, map, IfOk, OnOk};
ghost use Rattle.bz_flat.specs.declared.flat.Ends.{Ends};
ghost use Rattle.bz_flat.specs.Flats.{site_of, wiring_of};
ghost use Rattle.bz_flat.specs.Wires.{EndsOf, WellWired, ends_in};
ghost use Rattle.bz_model.specs.declared.channel.Chan.{Chan};
ghost use Rattle.bz_model.specs.declared.names.Port.{Port};
ghost use Rattle.bz_model.specs.Nets.{Site, IsPort};
ghost use Rattle.bz_net.specs.LinkRow.{IsLink, InRow, StandsInRow, link_of, links_of};

use bz_arena::{Arena, Id};
use bz_flat::{Ends, FlatComp};
use std::alloc::{AllocError, Global};

/// The channel at a port, and the port at its other end with its component, `None` where none stands there.
#[derive(Clone, Copy)]
pub(crate) struct Link {
    pub(crate) chan: u32,
    pub(crate) far: Option<u32>,
    pub(crate) far_port: u32,
}

/// The links, those of each component in the order of its ports, and of each component the place before its own. Neither changes.
/// Ports count from 1, so the first place has a link that is no port's.
#[derive(Drop)]
pub(crate) struct LinkRow {
    starts: Vec<u32>,
    row: Vec<Link>,
}

/// What no port leads to.
const NO_LINK: Link = Link {
    chan: 0,
    far: None,
    far_port: 0,
};

impl LinkRow {
    /// Those of these components, whose channels have these ends.
    pub(crate) fn of(
        alloc: Global,
        sites: &Arena<FlatComp>,
        ends: &[Ends],
    ) -> Result<LinkRow, AllocError>
        requires { (chans : List Chan) × (ports : List Port) × WellWired (wiring_of chans sites.now ports) × EndsOf (wiring_of chans sites.now ports) ends.now }
        ensures { IfOk result (λ r. InRow (map site_of sites.now) ends.now r.starts.items r.row.items) }
    {
        let mut starts = Vec::with_capacity(alloc, sites.len())?;
        let mut row = vec![in alloc; NO_LINK; 1]?;
        for place in 0..sites.len() {
            let Ok(start) = u32::try_from(row.len() - 1) else {
                return Err(AllocError);
            };
            starts.push(start)?;
            let site = sites.get(Id::at(place));
            add_links(&mut row, ends, place as u32 + 1, &site.chans)?;
        }
        Ok(LinkRow { starts, row })
    }

    /// The same row.
    pub(crate) fn dup(&self, alloc: Global) -> Result<LinkRow, AllocError>
        ensures starts { IfOk result (λ r. r.starts.items ≡ self.now.starts.items) }
        ensures row { IfOk result (λ r. r.row.items ≡ self.now.row.items) }
    {
        let starts = Vec::from_slice(alloc, &self.starts)?;
        let row = Vec::from_slice(alloc, &self.row)?;
        Ok(LinkRow { starts, row })
    }

    /// What a port of a component leads to.
    #[inline(always)]
    pub(crate) fn link(&self, comp: u32, port: usize) -> &Link
        requires { (sites : List Site) × (ends : List Ends) × IsPort sites comp port × StandsInRow sites ends self.now.starts.items self.now.row.items comp port }
        ensures { (sites : List Site) (ends : List Ends) → StandsInRow sites ends self.now.starts.items self.now.row.items comp port
            → IsLink sites ends comp port result.now }
    {
        let start = self.starts[comp as usize - 1] as usize;
        &self.row[start + port]
    }
}

// Appends what the ports of a component lead to, which are on these channels.
fn add_links(row: &mut Vec<Link>, ends: &[Ends], comp: u32, chans: &[u32]) -> Result<(), AllocError>
    requires chans { All (λ k. (0 < k) × (k ≤ length ends.now)) chans.now }
    requires few { length chans.now < 2 ^ 32 }
    ensures { OnOk result (row.new.items ≡ row.old.items ++ links_of ends.now comp 1 chans.now) }
{
    for place in 0..chans.len() {
        let chan = chans[place];
        row.push(link_of(&ends[chan as usize - 1], comp, place as u32 + 1, chan))?;
    }
    Ok(())
}

// What a port of a component leads to, on a channel that has these ends: from the passive one to the active one, else to the
// passive one.
#[inline(always)]
fn link_of(pair: &Ends, comp: u32, port: u32, chan: u32) -> Link
    ensures { result ≡ link_of pair.now comp port chan }
{
    match pair.passive {
        Some(passive) if passive == comp && pair.passive_port == port => Link {
            chan,
            far: pair.active,
            far_port: pair.active_port,
        },
        _ => Link {
            chan,
            far: pair.passive,
            far_port: pair.passive_port,
        },
    }
}
