//! The moves that components can make.

ghost use Rattle.std.specs.Prelude.{◌≡◌, ◌<◌, ◌≤◌, ◌+◌, length, IfOk};
ghost use Rattle.bz_model.specs.Nets.{site_at};
ghost use Rattle.bz_explore_net.specs.Offers.{Offers, OffersUpTo};

use bz_model::{Move, Value};
use bz_net::Core;
use std::alloc::{AllocError, Global};

/// A move that a component can make at a port, on this channel and with this value.
#[derive(Clone, Copy, PartialEq, Eq)]
pub struct Offer {
    pub comp: u32,
    pub port: u32,
    pub chan: u32,
    pub mv: Move,
    pub value: Option<Value>,
}

/// The moves that can be made in a net, by component and port.
pub fn offers_of(alloc: Global, net: &Core) -> Result<Vec<Offer>, AllocError>
    ensures { IfOk result (λ v. Offers net.now.wiring.sites net.now.state v.items) }
{
    let mut offers = Vec::new(alloc);
    for place in 0..net.comp_count() {
        add_comp(net, place + 1, &mut offers)?;
    }
    Ok(offers)
}

// How many ports a component has, 0 where there is no such component.
pub(crate) fn port_count(net: &Core, comp: u32) -> u32
    requires { 0 < comp }
    ensures { result ≡ length (site_at net.now.wiring.sites comp).chans }
{
    // the names tell that there are fewer than 2^32 at each component
    let _ = net.names();
    match net.comp(comp) {
        Some(site) => site.chans.as_slice().len() as u32,
        None => 0,
    }
}

// The moves of a component, behind those of the components before it.
fn add_comp(net: &Core, comp: u32, offers: &mut Vec<Offer>) -> Result<(), AllocError>
    requires from { 0 < comp }
    requires to { comp ≤ length net.now.wiring.sites }
    requires before { OffersUpTo net.now.wiring.sites net.now.state comp 1 offers.old.items }
    ensures { IfOk result (λ _. OffersUpTo net.now.wiring.sites net.now.state (comp + 1) 1 offers.new.items) }
{
    if !net.is_ready(comp) {
        return Ok(());
    }
    add_ports(net, comp, port_count(net, comp), offers)
}

// The moves of a component at its ports.
fn add_ports(net: &Core, comp: u32, ports: u32, offers: &mut Vec<Offer>) -> Result<(), AllocError>
    requires ports { ports ≡ length (site_at net.now.wiring.sites comp).chans }
    requires before { OffersUpTo net.now.wiring.sites net.now.state comp 1 offers.old.items }
    ensures { IfOk result (λ _. OffersUpTo net.now.wiring.sites net.now.state (comp + 1) 1 offers.new.items) }
{
    for place in 0..ports {
        add_port(net, comp, place + 1, offers)?;
    }
    Ok(())
}

// The move of a component at a port, where it has one.
fn add_port(net: &Core, comp: u32, port: u32, offers: &mut Vec<Offer>) -> Result<(), AllocError>
    requires { OffersUpTo net.now.wiring.sites net.now.state comp port offers.old.items }
    ensures { IfOk result (λ _. OffersUpTo net.now.wiring.sites net.now.state comp (port + 1) offers.new.items) }
{
    match net.foresee(comp, port) {
        None => Ok(()),
        Some((chan, mv, value)) => {
            offers.push(Offer {
                comp,
                port,
                chan,
                mv,
                value,
            })?;
            Ok(())
        }
    }
}
