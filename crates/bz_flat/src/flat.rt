//! The flat net of a part: its channels, its components, its external ports, and the ends of each channel.

ghost use Rattle.std.specs.Prelude.{◌≡◌, ◌<◌, ◌^◌, length, map, IfOk, IfErr};
ghost use Rattle.std.specs.Option.{option_copied, option_map};
ghost use Rattle.bz_model.specs.Names.{NamesDiffer, external, port_number, channel, numbered};
ghost use Rattle.bz_flat.specs.Flats.{site_of, wiring_of};
ghost use Rattle.bz_flat.specs.Wires.{WellWired, EndsOf};

use crate::chan_list::ChanList;
use crate::error::ElabError;
use bz_arena::{Arena, Id};
use bz_model::{Chan, Kind, Port, dup_chans, dup_ports, node_of, number_of, numbered};
use std::alloc::{AllocError, Global};
use std::marker::Model;

/// A component of the net: its kind, the lengths of its arrays in the row's order (0 where there is none), and its
/// channels in the order of its ports.
#[derive(Drop)]
pub struct FlatComp {
    pub kind: Kind,
    pub sizes: [u32; 2],
    pub chans: ChanList,
}

/// The components at the two ends of a channel, counted from 1, `None` where no component stands, and their ports there,
/// counted from 1, 0 where there is none.
#[derive(Clone, Copy, PartialEq, Eq)]
pub struct Ends {
    pub active: Option<u32>,
    pub passive: Option<u32>,
    pub active_port: u32,
    pub passive_port: u32,
}

/// What a flat net is made of. Channel, component and port number k is the one at place k - 1, and port k is channel k.
#[derive(Drop)]
pub struct Pieces {
    pub chans: Arena<Chan>,
    pub comps: Arena<FlatComp>,
    pub ports: Vec<Port>,
    pub ends: Vec<Ends>,
}

/// The flat net of a part. Its channels, components and ports count from 1, and port k is channel k.
pub struct Flat {
    chans: Arena<Chan>,
    comps: Arena<FlatComp>,
    ports: Vec<Port>,
    ends: Vec<Ends>,
}

// By hand, so that who lets one go has one call to show and not all its parts.
impl Drop for Flat {
    fn drop(self) {
        let Flat {
            chans: _,
            comps: _,
            ports: _,
            ends: _,
        } = self;
    }
}

impl Model for Flat {
    ghost use Rattle.bz_flat.specs.Flats.{Plan, wiring_of};
    ghost use Rattle.bz_flat.specs.Wires.{WellWired, EndsOf};

    ghost Value = { Plan };

    ghost view = { λ f. record { wiring = wiring_of f.chans f.comps f.ports.items; ends = f.ends.items } };

    ghost invariant = { λ f. WellWired (wiring_of f.chans f.comps f.ports.items) × EndsOf (wiring_of f.chans f.comps f.ports.items) f.ends.items };
}

impl Flat {
    /// The net of these pieces.
    pub fn of(pieces: Pieces) -> Flat
        requires wired { WellWired (wiring_of pieces.chans pieces.comps pieces.ports.items) }
        requires ends_of { EndsOf (wiring_of pieces.chans pieces.comps pieces.ports.items) pieces.ends.items }
        ensures wiring { result.wiring ≡ wiring_of pieces.chans pieces.comps pieces.ports.items }
        ensures ends { result.ends ≡ pieces.ends.items }
    {
        Flat {
            chans: pieces.chans,
            comps: pieces.comps,
            ports: pieces.ports,
            ends: pieces.ends,
        }
    }

    /// The number of the external port of this name, if there is one.
    pub fn port(&self, name: &[u8]) -> Option<u32>
        ensures { result ≡ port_number self.now.wiring.ports name.now }
    {
        number_of(&self.ports, name)
    }

    /// The external ports, in order.
    pub fn ports(&self) -> &[Port]
        ensures value { map external result.now ≡ self.now.wiring.ports }
        ensures differ { NamesDiffer self.now.wiring.ports }
        ensures wired { WellWired self.now.wiring }
    {
        self.ports.as_slice()
    }

    pub fn chan_count(&self) -> u32
        ensures { result ≡ length self.now.wiring.chans }
    {
        self.chans.len() as u32
    }

    /// A channel, if there is such a channel.
    pub fn chan(&self, chan: u32) -> Option<Chan>
        ensures { result ≡ channel self.now.wiring.chans chan }
    {
        node_of(&self.chans, chan).copied()
    }

    pub fn comp_count(&self) -> u32
        ensures { result ≡ length self.now.wiring.sites }
    {
        self.comps.len() as u32
    }

    /// A component, if there is such a component.
    pub fn comp(&self, comp: u32) -> Option<&FlatComp>
        ensures { option_map site_of (option_copied result) ≡ numbered self.now.wiring.sites comp }
    {
        node_of(&self.comps, comp)
    }

    /// The components at the ends of a channel and their ports there, if there is such a channel.
    pub fn ends(&self, chan: u32) -> Option<Ends>
        ensures { result ≡ numbered self.now.ends chan }
    {
        numbered(&self.ends, chan).copied()
    }

    /// The same net.
    pub fn dup(&self, alloc: Global) -> Result<Flat, ElabError>
        ensures ok { IfOk result (λ f. f ≡ self.now) }
        ensures err { IfErr result (λ e. e ≡ ElabError.Memory) }
    {
        let chans = dup_chans(alloc, &self.chans)?;
        let comps = dup_comps(alloc, &self.comps)?;
        let ports = dup_ports(alloc, &self.ports)?;
        let ends = Vec::from_slice(alloc, &self.ends)?;
        Ok(Flat {
            chans,
            comps,
            ports,
            ends,
        })
    }

    /// What the net is made of.
    pub fn into_pieces(self) -> Pieces
        ensures wiring { self.wiring ≡ wiring_of result.chans result.comps result.ports.items }
        ensures ends { self.ends ≡ result.ends.items }
        ensures wired { WellWired (wiring_of result.chans result.comps result.ports.items) }
        ensures ends_of { EndsOf (wiring_of result.chans result.comps result.ports.items) result.ends.items }
    {
        let Flat {
            chans,
            comps,
            ports,
            ends,
        } = self;
        Pieces {
            chans,
            comps,
            ports,
            ends,
        }
    }
}

/// The same components.
pub fn dup_comps(alloc: Global, comps: &Arena<FlatComp>) -> Result<Arena<FlatComp>, AllocError>
    ensures { IfOk result (λ same. map site_of same ≡ map site_of comps.now) }
{
    let mut same = Arena::new(alloc);
    for place in 0..comps.len() {
        let comp = comps.get(Id::at(place));
        let kind = comp.kind.dup()?;
        let chans = comp.chans.dup(alloc)?;
        let copy = FlatComp {
            kind,
            sizes: comp.sizes,
            chans,
        };
        match same.push(copy) {
            Ok(_) => {}
            Err(_) => return Err(AllocError),
        }
    }
    Ok(same)
}
