//! A look at a set of components: the first that the others do not keep from moving.

ghost use Rattle.std.specs.Prelude.{◌≡◌, ◌↔◌, ◌<◌, ◌≤◌, true, IsTrue, MatchBool, MatchOption, length};
ghost use Rattle.bz_model.specs.Nets.{IsPort, chan_at};
ghost use Rattle.bz_model.specs.Runs.{CanStep};
ghost use Rattle.bz_waits.specs.Holding.{AllIn, IsIn, IsKept, IsLoose, PortHolds};
ghost use Rattle.bz_waits.specs.Stuck.{AreStuck, StuckAt, is_member};

use crate::sites::{chan_at, port_count};
use bz_net::Core;

/// The first member that is not kept from moving by the others.
pub(crate) fn first_loose(core: &Core, members: &[bool]) -> Option<u32>
    ensures { MatchOption result (AreStuck core.now.wiring core.now.state (is_member members.now))
        (IsLoose core.now.wiring core.now.state members.now) }
{
    for place in 0..core.comp_count() {
        if is_loose(core, members, place + 1) {
            return Some(place + 1);
        }
    }
    None
}

fn is_loose(core: &Core, members: &[bool], comp: u32) -> bool
    requires from { 0 < comp }
    requires to { comp ≤ length core.now.wiring.sites }
    ensures { MatchBool result (IsLoose core.now.wiring core.now.state members.now comp)
        (is_member members.now comp ≡ true → StuckAt core.now.wiring core.now.state (is_member members.now) comp) }
{
    if has(members, comp) {
        return !comp_holds(core, members, comp);
    }
    false
}

/// Whether a component is a member.
pub(crate) fn has(members: &[bool], comp: u32) -> bool
    ensures { result ≡ is_member members.now comp }
{
    match members.get(comp as usize) {
        Some(is) => *is,
        None => false,
    }
}

// Whether a member is at an end, or nobody.
fn is_in(members: &[bool], end: Option<u32>) -> bool
    ensures { IsTrue result ↔ IsIn members.now end }
{
    match end {
        Some(comp) => has(members, comp),
        None => true,
    }
}

fn comp_holds(core: &Core, members: &[bool], comp: u32) -> bool
    requires from { 0 < comp }
    requires to { comp ≤ length core.now.wiring.sites }
    ensures { IsTrue result ↔ StuckAt core.now.wiring core.now.state (is_member members.now) comp }
{
    if core.is_ready(comp) {
        return false;
    }
    for place in 0..port_count(core, comp) {
        if !port_holds(core, members, comp, place + 1) {
            return false;
        }
    }
    true
}

// Whether a port of a component that can't move keeps it stuck: where something is due, no host and nobody but members reach the
// channel.
fn port_holds(core: &Core, members: &[bool], comp: u32, port: u32) -> bool
    requires port { IsPort core.now.wiring.sites comp port }
    requires still { CanStep core.now.wiring.sites core.now.state comp → ⊥ }
    ensures { IsTrue result ↔ PortHolds core.now.wiring core.now.state (is_member members.now) comp port }
{
    match core.due(comp, port) {
        None => true,
        Some(_) => is_kept(core, members, comp, port),
    }
}

// Whether no host and nobody but members reach the channel at a port.
fn is_kept(core: &Core, members: &[bool], comp: u32, port: u32) -> bool
    requires { IsPort core.now.wiring.sites comp port }
    ensures { IsTrue result ↔ IsKept core.now.wiring members.now (chan_at core.now.wiring.sites comp port) }
{
    // the wiring tells that the channel is one of the net's
    let _ = core.names();
    let chan = chan_at(core, comp, port);
    is_inner(core, chan) && are_in(core, members, chan)
}

/// Whether a channel is no external port.
pub(crate) fn is_inner(core: &Core, chan: u32) -> bool
    ensures { MatchBool result (length core.now.wiring.ports < chan) (chan ≤ length core.now.wiring.ports) }
{
    chan as usize > core.names().ports().len()
}

// Whether nobody but members has a port on a channel.
fn are_in(core: &Core, members: &[bool], chan: u32) -> bool
    requires from { 0 < chan }
    requires to { chan ≤ length core.now.wiring.chans }
    ensures { IsTrue result ↔ AllIn core.now.wiring.sites members.now chan }
{
    let _ = core.names();
    let [active, passive] = core.ends(chan);
    is_in(members, active) && is_in(members, passive)
}
