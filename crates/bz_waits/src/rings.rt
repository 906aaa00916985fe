//! Rings of components that can never move again, each of which waits for the next.
//!
//! From each of the first members that hold a request, and where there is no ring from one of these then from each of the first
//! others, one goes on breadth first to whom it waits for, until one comes back. What this finds is looked at again before it is
//! answered.

ghost use Rattle.std.specs.Prelude.{◌≡◌, ◌+◌, ◌<◌, ◌≤◌, true, IfOk, IfSome, length, slice_index};
ghost use Rattle.bz_model.specs.Nets.{IsPort};
ghost use Rattle.bz_waits.specs.Rings.{IsLink, IsLinkAt, IsRing};
ghost use Rattle.bz_waits.specs.Stuck.{is_member};

use crate::looking::has;
use crate::sites::{chan_at, other_end, port_count};
use crate::table::Table;
use bz_model::{Move, Phase};
use bz_net::Core;
use std::alloc::{AllocError, Global};

/// The most members from which a ring is looked for.
const MOST_STARTS: usize = 400;

/// How many components are met before no other start is tried.
const MOST_MET: usize = 1_000_000;

/// What a component waits for at one of its ports. Components, ports and channels count from 1.
#[derive(Clone, Copy)]
pub struct Link {
    pub comp: u32,
    pub port: u32,
    pub chan: u32,
    /// The move that comes next at the port.
    pub due: Move,
    /// The component at the other end of the channel.
    pub other: u32,
}

/// A short ring among members, or nothing where none is found.
pub(crate) fn ring(
    alloc: Global,
    core: &Core,
    members: &[bool],
    numbers: &[u32],
) -> Result<Vec<Link>, AllocError>
    ensures { IfOk result (λ links. IsRing core.now.wiring core.now.state (is_member members.now) links.items) }
{
    let comps = shortest(alloc, core, numbers)?;
    close(alloc, core, members, &comps)
}

// The links from each of these components to the next, and from the last to the first, or nothing where one of them is none.
fn close(
    alloc: Global,
    core: &Core,
    members: &[bool],
    comps: &[u32],
) -> Result<Vec<Link>, AllocError>
    ensures { IfOk result (λ links. IsRing core.now.wiring core.now.state (is_member members.now) links.items) }
{
    let mut links = Vec::new(alloc);
    for place in 0..comps.len() {
        match find_link(core, members, comps[place], next_of(comps, place)) {
            Some(link) => links.push(link)?,
            None => return Ok(Vec::new(alloc)),
        }
    }
    Ok(links)
}

fn next_of(comps: &[u32], place: usize) -> u32
    requires { place < length comps.now }
    ensures next { place + 1 < length comps.now → result ≡ slice_index comps.now (place + 1) }
    ensures back { place + 1 ≡ length comps.now → result ≡ slice_index comps.now 0 }
{
    if place + 1 < comps.len() {
        comps[place + 1]
    } else {
        comps[0]
    }
}

// The first link from a member to a component.
fn find_link(core: &Core, members: &[bool], comp: u32, other: u32) -> Option<Link>
    ensures { IfSome result (λ l. (is_member members.now comp ≡ true) × IsLink core.now.wiring core.now.state l
        × (l.comp ≡ comp) × (l.other ≡ other)) }
{
    if comp == 0 || comp > core.comp_count() || !has(members, comp) {
        return None;
    }
    for place in 0..port_count(core, comp) {
        match link_at(core, comp, place + 1) {
            Some(link) if link.other == other => return Some(link),
            _ => {}
        }
    }
    None
}

// What a component waits for at a port.
fn link_at(core: &Core, comp: u32, port: u32) -> Option<Link>
    requires { IsPort core.now.wiring.sites comp port }
    ensures { IfSome result (λ l. IsLink core.now.wiring core.now.state l × (l.comp ≡ comp)) }
{
    let (chan, other) = (chan_at(core, comp, port), other_end(core, comp, port));
    if other == 0 {
        return None;
    }
    match core.due(comp, port) {
        Some(due) => Some(Link {
            comp,
            port,
            chan,
            due,
            other,
        }),
        None => None,
    }
}

// The components of a short ring.
fn shortest(alloc: Global, core: &Core, numbers: &[u32]) -> Result<Vec<u32>, AllocError> {
    let mut came = Table::new(alloc, core.comp_count())?;
    let ring = shortest_of(alloc, core, numbers, true, &mut came)?;
    if ring.is_empty() {
        return shortest_of(alloc, core, numbers, false, &mut came);
    }
    Ok(ring)
}

// The same through one of those that hold a request, or of the others. For each component `came` has who was there before, so far
// 0.
fn shortest_of(
    alloc: Global,
    core: &Core,
    numbers: &[u32],
    holds: bool,
    came: &mut Table,
) -> Result<Vec<u32>, AllocError> {
    let mut best = Vec::new(alloc);
    let (mut starts, mut met) = (0usize, 0usize);
    for start in numbers {
        if starts < MOST_STARTS && met < MOST_MET && holds_request(core, *start) == holds {
            starts = starts.saturating_add(1);
            let ring = ring_from(alloc, core, *start, came, &mut met)?;
            best = shorter(best, ring);
        }
    }
    Ok(best)
}

// The shorter one of two that are not empty, the first where they are alike.
fn shorter(best: Vec<u32>, ring: Vec<u32>) -> Vec<u32> {
    if best.is_empty() || !ring.is_empty() && ring.len() < best.len() {
        return ring;
    }
    best
}

// The components of a shortest ring through one. How many were met is added.
fn ring_from(
    alloc: Global,
    core: &Core,
    start: u32,
    came: &mut Table,
    met: &mut usize,
) -> Result<Vec<u32>, AllocError> {
    let mut order = Vec::new(alloc);
    order.push(start)?;
    let mut last = 0;
    for turn in 0..=core.comp_count() {
        let Some(comp) = order.get(turn as usize).copied() else {
            break;
        };
        if goes_to(core, comp, start, came, &mut order)? {
            last = comp;
            break;
        }
    }
    let ring = way(alloc, core.comp_count(), came, start, last)?;
    for comp in &order {
        came.set(*comp, 0);
    }
    *met = met.saturating_add(order.len());
    Ok(ring)
}

// Whether a component waits for the one at the start. Whoever else it waits for is added to those that are gone through, where it
// was not met before.
fn goes_to(
    core: &Core,
    comp: u32,
    start: u32,
    came: &mut Table,
    order: &mut Vec<u32>,
) -> Result<bool, AllocError> {
    if comp == 0 || comp > core.comp_count() {
        return Ok(false);
    }
    for place in 0..port_count(core, comp) {
        let other = match link_at(core, comp, place + 1) {
            Some(link) => link.other,
            None => 0,
        };
        if other == start {
            return Ok(true);
        }
        if other > 0 && came.at(other) == 0 {
            came.set(other, comp);
            order.push(other)?;
        }
    }
    Ok(false)
}

// The way from the start to the last one, nothing where this is 0.
fn way(
    alloc: Global,
    comps: u32,
    came: &Table,
    start: u32,
    last: u32,
) -> Result<Vec<u32>, AllocError> {
    let mut way = Vec::new(alloc);
    let mut comp = last;
    for _ in 0..comps {
        if comp == 0 {
            break;
        }
        way.push(comp)?;
        comp = if comp == start { 0 } else { came.at(comp) };
    }
    way.as_mut_slice().reverse();
    Ok(way)
}

// Whether a component waits for a reply or owes one: then a channel of its isn't idle.
fn holds_request(core: &Core, comp: u32) -> bool {
    if comp == 0 || comp > core.comp_count() {
        return false;
    }
    for place in 0..port_count(core, comp) {
        let holds = match core.phase(chan_at(core, comp, place + 1)) {
            Phase::Idle => false,
            Phase::Taken => true,
            _ => core.due(comp, place + 1) == Some(Move::Got),
        };
        if holds {
            return true;
        }
    }
    false
}
