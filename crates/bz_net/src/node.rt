//! The nodes of a net: each component, with what it is told of its channels.

ghost use Rattle.std.specs.Prelude.{◌≡◌, ◌≤◌, ◌<◌, ◌-◌, ◌+◌, ◌/◌, ℕ, false, length, map, slice_index_or, All, IfOk, IfErr, OnOk};
ghost use Rattle.bz_bits.specs.Row.{bit_of};
ghost use Rattle.bz_flat.specs.Flats.{site_of};
ghost use Rattle.bz_model.specs.Nets.{chan_in};
ghost use Rattle.bz_model.specs.Processes.{start_of};
ghost use Rattle.bz_model.specs.Rows.{MeetsRow};
ghost use Rattle.bz_net.specs.Keeping.{Started, StartsUnless, StartsWell};
ghost use Rattle.bz_net.specs.Nodes.{comps_of, heres_of};
ghost use Rattle.bz_net.specs.Told.{AreBlank};

use crate::node_row::NodeRow;
use bz_arena::{Arena, Id};
use bz_bits::PortBits;
use bz_flat::FlatComp;
use bz_kinds::Comp;
use bz_model::{Chan, Names, NetError};
use std::alloc::{AllocError, Global};

/// A component, and a bit for each of its ports: whether what a take or a got there waits for is on the channel.
#[derive(Drop)]
pub(crate) struct Node {
    pub(crate) comp: Comp,
    pub(crate) here: PortBits,
}

/// Where the node of a component lies.
pub(crate) fn node_id(comp: u32) -> Id<Node>
    requires { 0 < comp }
    ensures { result ≡ comp - 1 }
{
    Id::at(comp as usize - 1)
}

/// The flat component of this number.
#[inline(always)]
pub(crate) fn site_in(sites: &Arena<FlatComp>, comp: u32) -> &FlatComp
    requires from { 0 < comp }
    requires to { comp ≤ length sites.now }
    ensures { result.now ≡ slice_index_or sites.now (comp - 1) result.now }
{
    sites.get(Id::at(comp as usize - 1))
}

/// A node for each flat component: the component is at its start, and all bits are 0.
pub(crate) fn start_all(
    alloc: Global,
    chans: &Arena<Chan>,
    sites: &Arena<FlatComp>,
) -> Result<NodeRow, NetError>
    requires { StartsWell chans.now (map site_of sites.now) }
    ensures started { IfOk result (λ nodes. Started chans.now (map site_of sites.now) (comps_of nodes) (length sites.now)) }
    ensures blank { IfOk result (λ nodes. AreBlank (map site_of sites.now) (heres_of nodes) (length sites.now)) }
    ensures err { IfErr result (λ e. e ≡ NetError.Memory) }
{
    let mut nodes = match NodeRow::new(alloc, sites.len()) {
        Ok(nodes) => nodes,
        Err(_) => return Err(NetError::Memory),
    };
    let mut own = Vec::new(alloc);
    for place in 0..sites.len() {
        let node = start_one(alloc, chans, sites.get(Id::at(place)), &mut own)?;
        match nodes.push(node) {
            Ok(()) => {}
            Err(_) => return Err(NetError::Memory),
        }
    }
    Ok(nodes)
}

/// Takes each component that has moved back to its start, and all bits to 0.
pub(crate) fn restart_all(
    alloc: Global,
    names: &Names,
    sites: &Arena<FlatComp>,
    moved: &[bool],
    nodes: &mut NodeRow,
) -> Result<(), NetError>
    requires starts { StartsWell names.now.chans (map site_of sites.now) }
    requires each { length nodes.old ≡ length sites.now }
    requires unless { StartsUnless names.now.chans (map site_of sites.now) (comps_of nodes.old) moved.now }
    ensures started { OnOk result (Started names.now.chans (map site_of sites.now) (comps_of nodes.new) (length sites.now)) }
    ensures blank { OnOk result (AreBlank (map site_of sites.now) (heres_of nodes.new) (length sites.now)) }
    ensures err { IfErr result (λ e. e ≡ NetError.Memory) }
{
    let mut own = Vec::new(alloc);
    for place in 0..sites.len() {
        let site = sites.get(Id::at(place));
        let node = nodes.get_mut(Id::at(place));
        restart_one(alloc, names, site, &mut own, moved[place], node)?;
    }
    Ok(())
}

/// The same nodes.
pub(crate) fn dup_all(alloc: Global, nodes: &NodeRow) -> Result<NodeRow, AllocError>
    ensures { IfOk result (λ same. same ≡ nodes.now) }
{
    let mut same = NodeRow::new(alloc, nodes.len())?;
    for place in 0..nodes.len() {
        let copy = dup_one(alloc, nodes.get(Id::at(place)))?;
        same.push(copy)?;
    }
    Ok(same)
}

// The channels of the component are gathered in `own`, whatever that held.
fn start_one(
    alloc: Global,
    chans: &Arena<Chan>,
    site: &FlatComp,
    own: &mut Vec<Chan>,
) -> Result<Node, NetError>
    requires chans { All (λ k. (0 < k) × (k ≤ length chans.now)) site.now.chans.items }
    requires meets { MeetsRow site.now.kind site.now.sizes (map (chan_in chans.now) site.now.chans.items) }
    ensures comp { IfOk result (λ node. node.comp ≡ start_of site.now.kind site.now.sizes (map (chan_in chans.now) site.now.chans.items)) }
    ensures words { IfOk result (λ node. length node.here ≡ length site.now.chans.items / 64 + 1) }
    ensures none { IfOk result (λ node. (p : ℕ) → bit_of node.here p ≡ 0) }
    ensures err { IfErr result (λ e. e ≡ NetError.Memory) }
{
    own.clear();
    for chan in site.chans.iter() {
        match own.push(*chans.get(Id::at(*chan as usize - 1))) {
            Ok(()) => {}
            Err(_) => return Err(NetError::Memory),
        }
    }
    let Ok(here) = PortBits::new(alloc, site.chans.len() + 1) else {
        return Err(NetError::Memory);
    };
    match bz_kinds::start(alloc, &site.kind, site.sizes, own) {
        Ok(comp) => Ok(Node { comp, here }),
        Err(_) => Err(NetError::Memory),
    }
}

// Takes a component back to its start, where it has moved, and its bits to 0.
fn restart_one(
    alloc: Global,
    names: &Names,
    site: &FlatComp,
    own: &mut Vec<Chan>,
    moved: bool,
    node: &mut Node,
) -> Result<(), NetError>
    requires chans { All (λ k. (0 < k) × (k ≤ length names.now.chans)) site.now.chans.items }
    requires meets { MeetsRow site.now.kind site.now.sizes (map (chan_in names.now.chans) site.now.chans.items) }
    requires unless { moved ≡ false → node.old.comp ≡ start_of site.now.kind site.now.sizes (map (chan_in names.now.chans) site.now.chans.items) }
    ensures comp { OnOk result (node.new.comp ≡ start_of site.now.kind site.now.sizes (map (chan_in names.now.chans) site.now.chans.items)) }
    ensures words { OnOk result (length node.new.here ≡ length site.now.chans.items / 64 + 1) }
    ensures none { OnOk result ((p : ℕ) → bit_of node.new.here p ≡ 0) }
    ensures err { IfErr result (λ e. e ≡ NetError.Memory) }
{
    let Ok(here) = PortBits::new(alloc, site.chans.len() + 1) else {
        return Err(NetError::Memory);
    };
    node.here = here;
    if !moved {
        return Ok(());
    }
    gather(names, site, own)?;
    match bz_kinds::start(alloc, &site.kind, site.sizes, own) {
        Ok(comp) => {
            node.comp = comp;
            Ok(())
        }
        Err(_) => Err(NetError::Memory),
    }
}

// Gathers the channels of a component in `own`, whatever that held.
fn gather(names: &Names, site: &FlatComp, own: &mut Vec<Chan>) -> Result<(), NetError>
    requires { All (λ k. (0 < k) × (k ≤ length names.now.chans)) site.now.chans.items }
    ensures gathered { OnOk result (own.new.items ≡ map (chan_in names.now.chans) site.now.chans.items) }
    ensures err { IfErr result (λ e. e ≡ NetError.Memory) }
{
    own.clear();
    for number in site.chans.iter() {
        let Some(chan) = names.chan(*number) else {
            unreachable!()
        };
        match own.push(chan) {
            Ok(()) => {}
            Err(_) => return Err(NetError::Memory),
        }
    }
    Ok(())
}

fn dup_one(alloc: Global, node: &Node) -> Result<Node, AllocError>
    ensures { IfOk result (λ same. same ≡ node.now) }
{
    let here = node.here.dup(alloc)?;
    match bz_kinds::dup(alloc, &node.comp) {
        Ok(comp) => Ok(Node { comp, here }),
        Err(_) => Err(AllocError),
    }
}
