//! What is reported of a coverage.

use crate::coverage::Coverage;
use crate::roles::activation;
use bz_flat::FlatComp;
use bz_net::Core;
use bz_view::Seen;

/// A net, where it is from, and what so many traces have exercised of it.
#[derive(Clone, Copy)]
pub struct Report<'r> {
    pub seen: Seen<'r>,
    pub coverage: &'r Coverage,
    pub traces: usize,
    /// What the net is called, where there may be more than one.
    pub name: Option<&'r [u8]>,
}

/// How many there are, and how many of them were exercised.
#[derive(Clone, Copy, PartialEq, Eq)]
pub(crate) struct Share {
    pub all: usize,
    pub exercised: usize,
}

impl Share {
    pub const NONE: Share = Share {
        all: 0,
        exercised: 0,
    };

    /// Adds one that was exercised so often.
    pub fn add(&mut self, count: u64) {
        self.all = self.all.saturating_add(1);
        if count > 0 {
            self.exercised = self.exercised.saturating_add(1);
        }
    }
}

impl<'r> Report<'r> {
    /// The net.
    pub(crate) fn core(self) -> &'r Core {
        self.seen.net
    }

    /// How many of the components moved.
    pub(crate) fn comps(self) -> Share {
        let mut share = Share::NONE;
        for place in 0..self.core().comp_count() {
            share.add(self.coverage.of(place.saturating_add(1)));
        }
        share
    }

    /// How many of the ports were used.
    pub(crate) fn ports(self) -> Share {
        let mut share = Share::NONE;
        for place in 0..self.core().comp_count() {
            let comp = place.saturating_add(1);
            self.add_ports(comp, &mut share);
        }
        share
    }

    fn add_ports(self, comp: u32, share: &mut Share) {
        for place in 0..self.port_count(comp) {
            share.add(self.uses(comp, place.saturating_add(1)));
        }
    }

    /// How many ports a component has.
    pub(crate) fn port_count(self, comp: u32) -> u32 {
        match self.core().comp(comp) {
            Some(site) => u32::try_from(site.chans.len()).unwrap_or(u32::MAX),
            None => 0,
        }
    }

    /// How often a port was used.
    pub(crate) fn uses(self, comp: u32, port: u32) -> u64 {
        self.coverage.of_port(self.core(), comp, port)
    }

    /// How often a component was activated.
    pub(crate) fn activations(self, comp: u32, site: &FlatComp) -> u64 {
        let ports = activation(site);
        let mut count = 0u64;
        for port in ports.first..=ports.last {
            count = count.saturating_add(self.uses(comp, port));
        }
        count
    }
}
