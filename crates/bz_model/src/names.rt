//! The external ports and the channels of a net, by name and number.

ghost use Rattle.std.specs.Prelude.{◌≡◌, ◌<◌, ◌^◌, ◌-◌, length, map, suc, position, bytes_eq, slice_get, IfOk, IfSome};
ghost use Rattle.std.specs.Option.{option_copied, option_map};
ghost use Rattle.bz_model.specs.Names.{external, port_number, port_name, port_sense, channel, numbered};

use crate::channel::Chan;
use crate::name_row::NameRow;
use bz_arena::{Arena, Id};
use std::alloc::{AllocError, Global};
use std::marker::Model;

/// An external port: its name, and its declared sense.
#[derive(Debug, PartialEq, Eq, Drop)]
pub struct Port {
    pub name: Vec<u8>,
    pub passive: bool,
}

/// The external ports and the channels of a net, each counted from 1. Port k is channel k.
pub struct Names {
    ports: Vec<Port>,
    chans: Arena<Chan>,
    // The names of the ports, by which they are found.
    index: Option<NameRow>,
}

// By hand, so that who lets one go has one call to show and not all its parts.
impl Drop for Names {
    fn drop(self) {
        let Names {
            ports: _,
            chans: _,
            index: _,
        } = self;
    }
}

impl Model for Names {
    ghost use Rattle.std.specs.Prelude.{map, length, ◌≡◌, ◌<◌, ◌^◌, IfSome};
    ghost use Rattle.bz_model.specs.Names.{Outside, external};

    ghost Value = { Outside };

    ghost view = { λ n. record { ports = map external n.ports.items; chans = n.chans } };

    ghost invariant = { λ n. (length n.ports.items < 2 ^ 32) × IfSome n.index (λ names. names ≡ map (λ p. p.name.items) n.ports.items) };
}

impl Names {
    /// The names of a net with these external ports and channels.
    pub fn new(ports: Vec<Port>, chans: Arena<Chan>) -> Names
        requires { length ports.items < 2 ^ 32 }
        ensures { result ≡ record { ports = map external ports.items; chans = chans } }
    {
        let index = index_of(*ports.allocator(), &ports);
        Names {
            ports,
            chans,
            index,
        }
    }

    /// The external ports, in the order of their numbers.
    pub fn ports(&self) -> &[Port]
        ensures ports { map external result.now ≡ self.now.ports }
        ensures few { length result.now < 2 ^ 32 }
    {
        &self.ports
    }

    /// The number of the port of this name, if there is one.
    pub fn port(&self, name: &[u8]) -> Option<u32>
        ensures { result ≡ port_number self.now.ports name.now }
    {
        match &self.index {
            Some(names) => number_among(names, name),
            None => number_of(&self.ports, name),
        }
    }

    /// The name of a port, if there is such a port.
    pub fn name(&self, port: u32) -> Option<&[u8]>
        ensures { option_copied result ≡ port_name self.now.ports port }
    {
        match numbered(&self.ports, port) {
            Some(port) => Some(port.name.as_slice()),
            None => None,
        }
    }

    /// Whether a port is declared passive, if there is such a port.
    pub fn passive(&self, port: u32) -> Option<bool>
        ensures { result ≡ port_sense self.now.ports port }
    {
        match numbered(&self.ports, port) {
            Some(port) => Some(port.passive),
            None => None,
        }
    }

    /// A channel, if there is such a channel.
    pub fn chan(&self, chan: u32) -> Option<Chan>
        ensures { result ≡ channel self.now.chans chan }
    {
        node_of(&self.chans, chan).copied()
    }

    /// The same names.
    pub fn dup(&self, alloc: Global) -> Result<Names, AllocError>
        ensures { IfOk result (λ n. n ≡ self.now) }
    {
        let ports = dup_ports(alloc, &self.ports)?;
        let chans = dup_chans(alloc, &self.chans)?;
        Ok(Names::new(ports, chans))
    }
}

// The names of ports in a row, `None` where there is no memory for it: then ports are looked for one by one.
fn index_of(alloc: Global, ports: &[Port]) -> Option<NameRow>
    ensures { IfSome result (λ names. names ≡ map (λ p. p.name.items) ports.now) }
{
    NameRow::new(alloc, names_of(alloc, ports).ok()?).ok()
}

fn names_of(alloc: Global, ports: &[Port]) -> Result<Vec<Vec<u8>>, AllocError>
    ensures { IfOk result (λ v. map (λ name. name.items) v.items ≡ map (λ p. p.name.items) ports.now) }
{
    let mut names = Vec::with_capacity(alloc, ports.len())?;
    for port in ports {
        names.push(Vec::from_slice(alloc, &port.name)?)?;
    }
    Ok(names)
}

/// The same ports.
pub fn dup_ports(alloc: Global, ports: &[Port]) -> Result<Vec<Port>, AllocError>
    ensures { IfOk result (λ v. map external v.items ≡ map external ports.now) }
{
    let mut same = Vec::new(alloc);
    for port in ports {
        let name = Vec::from_slice(alloc, &port.name)?;
        same.push(Port {
            name,
            passive: port.passive,
        })?;
    }
    Ok(same)
}

/// The same channels.
pub fn dup_chans(alloc: Global, chans: &Arena<Chan>) -> Result<Arena<Chan>, AllocError>
    ensures { IfOk result (λ same. same ≡ chans.now) }
{
    let mut same = Arena::new(alloc);
    for place in 0..chans.len() {
        match same.push(*chans.get(Id::at(place))) {
            Ok(_) => {}
            Err(_) => return Err(AllocError),
        }
    }
    Ok(same)
}

// The number of a name among names, counted from 1.
fn number_among(names: &NameRow, name: &[u8]) -> Option<u32>
    requires { length names.now < 2 ^ 32 }
    ensures { result ≡ option_map suc (position (bytes_eq name.now) names.now) }
{
    match names.place(name) {
        Some(place) => Some(place as u32 + 1),
        None => None,
    }
}

/// The number of the first port of this name.
pub fn number_of(ports: &[Port], name: &[u8]) -> Option<u32>
    requires { length ports.now < 2 ^ 32 }
    ensures { result ≡ port_number (map external ports.now) name.now }
{
    for (place, port) in ports.iter().enumerate() {
        if port.name.as_slice() == name {
            return Some(place as u32 + 1);
        }
    }
    None
}

/// The element of this number, counted from 1.
pub fn numbered<T>(items: &[T], number: u32) -> Option<&T>
    ensures { option_copied result ≡ numbered items.now number }
{
    if number == 0 {
        return None;
    }
    items.get(number as usize - 1)
}

/// The node of this number, counted from 1.
pub fn node_of<T>(nodes: &Arena<T>, number: u32) -> Option<&T>
    ensures { option_copied result ≡ numbered nodes.now number }
{
    if number == 0 || number as usize > nodes.len() {
        return None;
    }
    Some(nodes.get(Id::at(number as usize - 1)))
}
