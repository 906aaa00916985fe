//! The net whose trace is drawn: its lifelines, and which of them stand at the ends of a channel.
//!
//! A lifeline is for each external port that is used, not for each host: of a request that no host has taken yet nobody could
//! say to which host it goes.

ghost use Rattle.std.specs.Prelude.{◌≡◌, ◌+◌, ◌*◌, ◌<◌, ◌^◌, length, not};
ghost use Rattle.std.specs.Option.{option_copied, option_map};
ghost use Rattle.bz_model.specs.Names.{numbered, port_name};
ghost use Rattle.bz_model.specs.Nets.{outside};
ghost use Rattle.bz_flat.specs.Flats.{site_of};
ghost use Rattle.bz_chart_layout.specs.Lifelines.{chan_of, is_passive, lifeline_at};

use bz_arena::Arena;
use bz_flat::{Ends, Flat, FlatComp};
use bz_model::{Chan, ChanKind, Names, node_of, numbered};
use std::marker::Model;

/// What stands on a line of its own: an external port, or a component, by its number.
#[derive(Clone, Copy, PartialEq, Eq)]
pub enum Lifeline {
    Port(u32),
    Comp(u32),
}

/// A net's ports, channels, components and ends.
#[derive(Drop)]
pub struct Circuit {
    names: Names,
    comps: Arena<FlatComp>,
    ends: Vec<Ends>,
}

impl Model for Circuit {
    ghost use Rattle.std.specs.Prelude.{◌+◌, ◌*◌, ◌<◌, ◌^◌, length};
    ghost use Rattle.bz_flat.specs.Flats.{Plan, sites_of};

    ghost Value = { Plan };

    ghost view = { λ c. record { wiring = record { chans = c.names.chans; sites = sites_of c.comps; ports = c.names.ports }; ends = c.ends.items } };

    ghost invariant = { λ c. length c.comps + 2 * length c.names.ports < 2 ^ 32 };
}

impl Circuit {
    /// Those of a flat net.
    pub fn of(flat: Flat) -> Circuit
        ensures { result ≡ flat }
    {
        let pieces = flat.into_pieces();
        Circuit {
            names: Names::new(pieces.ports, pieces.chans),
            comps: pieces.comps,
            ends: pieces.ends,
        }
    }

    /// The names of its ports and channels.
    pub fn names(&self) -> &Names
        ensures { result.now ≡ outside self.now.wiring }
    {
        &self.names
    }

    /// How many components there are, which leaves room for a lifeline at each end of each port.
    pub fn comp_count(&self) -> u32
        ensures is { result ≡ length self.now.wiring.sites }
        ensures room { result + 2 * length self.now.wiring.ports < 2 ^ 32 }
    {
        self.comps.len() as u32
    }

    /// How many channels there are, the ports' among them.
    pub fn chan_count(&self) -> usize
        ensures { result ≡ length self.now.ends }
    {
        self.ends.len()
    }

    /// A component, if there is such a component.
    pub fn comp(&self, comp: u32) -> Option<&FlatComp>
        ensures { option_map site_of (option_copied result) ≡ numbered self.now.wiring.sites comp }
    {
        node_of(&self.comps, comp)
    }

    /// The name of a port, if there is such a port.
    pub fn name(&self, port: u32) -> Option<&[u8]>
        ensures { option_copied result ≡ port_name self.now.wiring.ports port }
    {
        self.names.name(port)
    }

    /// Whether the host stands at the active end of a port's channel.
    pub fn is_passive(&self, port: u32) -> bool
        ensures { result ≡ is_passive self.now port }
    {
        self.names.passive(port).unwrap_or(false)
    }

    /// A channel, one without width where there is none of this number.
    pub fn chan(&self, chan: u32) -> Chan
        ensures { result ≡ chan_of self.now chan }
    {
        self.names.chan(chan).unwrap_or(Chan {
            kind: ChanKind::Sync,
            width: 0,
        })
    }

    /// The lifeline at one end of a channel, the active end or the passive one. A port's host has no end of its own in the
    /// table of ends.
    pub fn end(&self, chan: u32, active: bool) -> Option<Lifeline>
        ensures { result ≡ lifeline_at self.now chan (not active) }
    {
        let ends = numbered(&self.ends, chan)?;
        let comp = if active { ends.active } else { ends.passive };
        match comp {
            Some(comp) => Some(Lifeline::Comp(comp)),
            None => match self.names.passive(chan) {
                Some(passive) if passive == active => Some(Lifeline::Port(chan)),
                _ => None,
            },
        }
    }
}
