//! Which take or got a component makes next on its way to a move that is due.
//!
//! Nothing is claimed of the choice. Of a component's own port comes first, so a variable that is read takes no write for it.
//! Where one of several requests is taken, the output that is asked at tells which, or else the component's next reply, where that
//! request brings the value that is asked on, or else the value. The two halves of a Bar go each by itself, but that inputs are got as the activation's next move tells.

use crate::guide::Guide;
use crate::short::ShortMove;
use bz_flat::FlatComp;
use bz_kind_rows::row_of;
use bz_model::{Callers, Move, Value};
use bz_net::Net;

/// A component on its way to a move at one of its ports.
#[derive(Clone, Copy)]
pub(crate) struct Way {
    pub(crate) comp: u32,
    pub(crate) port: u32,
    pub(crate) due: ShortMove,
}

impl Way {
    /// The port of the take or got that comes next: of several the first from a number on, and then from the first port on.
    pub(crate) fn next(self, net: &Net, guide: &Guide, from: u32) -> Option<u32> {
        let site = net.core().comp(self.comp)?;
        if let Some(port) = self.leading(net, guide, site) {
            return Some(port);
        }
        if self.is_open(net, self.port) {
            return Some(self.port);
        }
        match self.told(net, guide, site) {
            Some(port) if self.is_open(net, port) => Some(port),
            _ => self.first(net, site, from),
        }
    }

    // The port whose request is taken, where the move that is due tells it.
    fn told(self, net: &Net, guide: &Guide, site: &FlatComp) -> Option<u32> {
        let [size, _] = site.sizes;
        match row_of(&site.kind).callers {
            Callers::Arbitrated => self.port.checked_sub(2),
            Callers::OneIsEnough if self.port > size.saturating_add(1) => self
                .port
                .checked_sub(size),
            Callers::Meet if self.port > size => match guide.next_port(self.comp) {
                Some(port) if self.brings(net, port) == Some(self.due.value) => Some(port),
                _ => self.with_value(net, size),
            },
            Callers::Written if self.brings(net, 1) == Some(self.due.value) => Some(1),
            _ => None,
        }
    }

    // The first of so many ports at which a request with the value that is due is to be taken.
    fn with_value(self, net: &Net, ports: u32) -> Option<u32> {
        for before in 0..ports {
            let port = before.saturating_add(1);
            if self.brings(net, port) == Some(self.due.value) {
                return Some(port);
            }
        }
        None
    }

    // What a Bar notices before its activation is taken, or before it replies at its guard: each input that makes the output the
    // first with a 1 that asks next, or leaves none with a 1 where the activation is replied; and then, at the guard, the
    // activation, where another input would hinder that.
    fn leading(self, net: &Net, guide: &Guide, site: &FlatComp) -> Option<u32> {
        let [size, _] = site.sizes;
        if !is_guarded(site) || !self.is_open(net, 2) {
            return None;
        }
        let told = match self.port {
            1 => guide.next_port(self.comp)?,
            port if is_guarding(size, port) => return None,
            port => port,
        };
        let asks = told.checked_sub(size.saturating_add(3));
        let inputs = match asks {
            Some(output) => size.min(output.saturating_add(1)),
            None => size,
        };
        let mut hinders = false;
        for before in 0..inputs {
            let port = before.saturating_add(3);
            let wanted: Value = if asks == Some(before) { 1 } else { 0 };
            match self.brings(net, port) {
                Some(Some(value)) if value == wanted => return Some(port),
                Some(_) => hinders = true,
                None => {}
            }
        }
        if hinders && self.port == 1 {
            Some(2)
        } else {
            None
        }
    }

    // The first port with a take or a got, from a number on and then from the first on.
    fn first(self, net: &Net, site: &FlatComp, from: u32) -> Option<u32> {
        let ports = port_count(site);
        for place in from.saturating_sub(1)..ports {
            let port = place.saturating_add(1);
            if self.is_beside(site, port) && self.is_open(net, port) {
                return Some(port);
            }
        }
        for place in 0..from.saturating_sub(1).min(ports) {
            let port = place.saturating_add(1);
            if self.is_beside(site, port) && self.is_open(net, port) {
                return Some(port);
            }
        }
        None
    }

    // Whether a port is of the same half of a component as the one of the move that is due. All but a Bar have one half.
    fn is_beside(self, site: &FlatComp, port: u32) -> bool {
        let [size, _] = site.sizes;
        !is_guarded(site) || is_guarding(size, port) == is_guarding(size, self.port)
    }

    // Whether a take or a got can be made at a port.
    fn is_open(self, net: &Net, port: u32) -> bool {
        self.brings(net, port).is_some()
    }

    // What the take or got at a port brings.
    fn brings(self, net: &Net, port: u32) -> Option<Option<Value>> {
        match net.foresee(self.comp, port) {
            Some((_, Move::Take | Move::Got, value)) => Some(value),
            _ => None,
        }
    }
}

// Whether a component is activated beside a guard, as a Bar is.
fn is_guarded(site: &FlatComp) -> bool {
    matches!(row_of(&site.kind).callers, Callers::Guarded)
}

/// Whether a port of a Bar with so many inputs is its guard or one of the inputs.
pub(crate) fn is_guarding(size: u32, port: u32) -> bool {
    port == 1 || (port > 2 && port <= size.saturating_add(2))
}

/// How many ports a component has.
pub(crate) fn port_count(site: &FlatComp) -> u32 {
    u32::try_from(site.chans.len()).unwrap_or(u32::MAX)
}
