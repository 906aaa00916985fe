//! The search for all that can never move again. Who can move, or waits for the host, is taken out of the components, and so is
//! whoever waits for one that was taken out.

ghost use Rattle.std.specs.Prelude.{◌≡◌, ◌<◌, ◌≤◌, IfOk, IsTrue, length, slice_get};
ghost use Rattle.bz_model.specs.Nets.{IsPort, chan_at, site_at};
ghost use Rattle.bz_waits.specs.Freeing.{Covers, Frees, HasDueOn, IsFree, IsOpen};
ghost use Rattle.bz_waits.specs.Stuck.{AreStuck, is_member};

use crate::looking::{first_loose, has, is_inner};
use crate::sites::{chans, port_count};
use bz_model::Move;
use bz_net::Core;
use std::alloc::{AllocError, Global};

/// The components that can never move again, as a row.
pub(crate) fn search(alloc: Global, core: &Core) -> Result<Vec<bool>, AllocError>
    ensures stuck { IfOk result (λ members. AreStuck core.now.wiring core.now.state (is_member members.items)) }
    ensures covers { IfOk result (λ members. Covers core.now.wiring core.now.state members.items) }
{
    let mut members = all(alloc, core)?;
    free(alloc, core, &mut members)?;
    settle(core, &mut members);
    Ok(members)
}

// All components.
fn all(alloc: Global, core: &Core) -> Result<Vec<bool>, AllocError>
    ensures { IfOk result (λ members. Covers core.now.wiring core.now.state members.items) }
{
    // the wiring tells that there are few
    let _ = core.names();
    let mut members = vec![in alloc; true; core.comp_count() as usize + 1]?;
    members[0] = false;
    Ok(members)
}

// Takes out those from which the host, or a component that can move, is reached along ports where a move is due.
fn free(alloc: Global, core: &Core, members: &mut Vec<bool>) -> Result<(), AllocError>
    requires { Covers core.now.wiring core.now.state members.old.items }
    ensures { IfOk result (λ _. Covers core.now.wiring core.now.state members.new.items) }
{
    let mut freed = Vec::new(alloc);
    free_ready(core, members, &mut freed)?;
    free_outer(core, members, &mut freed)?;
    for turn in 0..core.comp_count() {
        let Some(comp) = at(freed.as_slice(), turn) else {
            break;
        };
        free_round(core, comp, members, &mut freed)?;
    }
    Ok(())
}

fn at(freed: &[u32], place: u32) -> Option<u32>
    ensures { result ≡ slice_get freed.now place }
{
    match freed.get(place as usize) {
        Some(comp) => Some(*comp),
        None => None,
    }
}

// Takes out who can move.
fn free_ready(core: &Core, members: &mut Vec<bool>, freed: &mut Vec<u32>) -> Result<(), AllocError>
    requires { Frees core.now.wiring core.now.state members.old.items freed.old.items }
    ensures { IfOk result (λ _. Frees core.now.wiring core.now.state members.new.items freed.new.items) }
{
    for place in 0..core.comp_count() {
        if core.is_ready(place + 1) {
            take_out(core, place + 1, members, freed)?;
        }
    }
    Ok(())
}

// Takes out who waits for the host. The channels of external ports come first.
fn free_outer(core: &Core, members: &mut Vec<bool>, freed: &mut Vec<u32>) -> Result<(), AllocError>
    requires { Frees core.now.wiring core.now.state members.old.items freed.old.items }
    ensures { IfOk result (λ _. Frees core.now.wiring core.now.state members.new.items freed.new.items) }
{
    for place in 0..core.chan_count() {
        if is_inner(core, place + 1) {
            break;
        }
        free_on(core, place + 1, members, freed)?;
    }
    Ok(())
}

// Takes out who waits for a component that was taken out.
fn free_round(
    core: &Core,
    comp: u32,
    members: &mut Vec<bool>,
    freed: &mut Vec<u32>,
) -> Result<(), AllocError>
    requires free { IsFree core.now.wiring core.now.state comp }
    requires frees { Frees core.now.wiring core.now.state members.old.items freed.old.items }
    ensures { IfOk result (λ _. Frees core.now.wiring core.now.state members.new.items freed.new.items) }
{
    let chans = chans(core, comp);
    for place in 0..port_count(core, comp) {
        free_at(core, comp, chans, place + 1, members, freed)?;
    }
    Ok(())
}

// The same at one of its ports.
fn free_at(
    core: &Core,
    comp: u32,
    chans: &[u32],
    port: u32,
    members: &mut Vec<bool>,
    freed: &mut Vec<u32>,
) -> Result<(), AllocError>
    requires free { IsFree core.now.wiring core.now.state comp }
    requires chans { chans.now ≡ (site_at core.now.wiring.sites comp).chans }
    requires port { IsPort core.now.wiring.sites comp port }
    requires frees { Frees core.now.wiring core.now.state members.old.items freed.old.items }
    ensures { IfOk result (λ _. Frees core.now.wiring core.now.state members.new.items freed.new.items) }
{
    // the wiring tells that the channel is one of the net's
    let _ = core.names();
    let chan = chan_among(core, comp, chans, port);
    free_on(core, chan, members, freed)
}

// The channel at a port of a component that has these.
fn chan_among(core: &Core, comp: u32, chans: &[u32], port: u32) -> u32
    requires chans { chans.now ≡ (site_at core.now.wiring.sites comp).chans }
    requires port { IsPort core.now.wiring.sites comp port }
    ensures { result ≡ chan_at core.now.wiring.sites comp port }
{
    chans[port as usize - 1]
}

// Takes out who waits on a channel that the host reaches, or somebody who is in no stuck set.
fn free_on(
    core: &Core,
    chan: u32,
    members: &mut Vec<bool>,
    freed: &mut Vec<u32>,
) -> Result<(), AllocError>
    requires from { 0 < chan }
    requires to { chan ≤ length core.now.wiring.chans }
    requires open { IsOpen core.now.wiring core.now.state chan }
    requires frees { Frees core.now.wiring core.now.state members.old.items freed.old.items }
    ensures { IfOk result (λ _. Frees core.now.wiring core.now.state members.new.items freed.new.items) }
{
    let [active, passive] = core.ends(chan);
    free_end(core, chan, active, Move::Ask, members, freed)?;
    free_end(core, chan, passive, Move::Take, members, freed)?;
    Ok(())
}

// The same at the end of the side of a move.
fn free_end(
    core: &Core,
    chan: u32,
    end: Option<u32>,
    side: Move,
    members: &mut Vec<bool>,
    freed: &mut Vec<u32>,
) -> Result<(), AllocError>
    requires open { IsOpen core.now.wiring core.now.state chan }
    requires frees { Frees core.now.wiring core.now.state members.old.items freed.old.items }
    ensures { IfOk result (λ _. Frees core.now.wiring core.now.state members.new.items freed.new.items) }
{
    let Some(comp) = end else {
        return Ok(());
    };
    if !has(members.as_slice(), comp) {
        return Ok(());
    }
    if has_due_on(core, comp, chan, side) {
        take_out(core, comp, members, freed)?;
    }
    Ok(())
}

// Whether a component has a move due at its end of a channel, of the side of a move.
fn has_due_on(core: &Core, comp: u32, chan: u32, side: Move) -> bool
    ensures { IsTrue result → HasDueOn core.now.wiring core.now.state comp chan }
{
    let Some(port) = core.port_at(comp, chan, side) else {
        return false;
    };
    match core.due(comp, port) {
        Some(_) => true,
        None => false,
    }
}

fn take_out(
    core: &Core,
    comp: u32,
    members: &mut Vec<bool>,
    freed: &mut Vec<u32>,
) -> Result<(), AllocError>
    requires free { IsFree core.now.wiring core.now.state comp }
    requires frees { Frees core.now.wiring core.now.state members.old.items freed.old.items }
    ensures { IfOk result (λ _. Frees core.now.wiring core.now.state members.new.items freed.new.items) }
{
    freed.push(comp)?;
    members[comp as usize] = false;
    Ok(())
}

// Takes out what a look finds to be loose, until it finds nothing.
fn settle(core: &Core, members: &mut Vec<bool>)
    requires { Covers core.now.wiring core.now.state members.old.items }
    ensures stuck { AreStuck core.now.wiring core.now.state (is_member members.new.items) }
    ensures covers { Covers core.now.wiring core.now.state members.new.items }
{
    'settling: while let Some(comp) = first_loose(core, members.as_slice()) {
        members[comp as usize] = false;
    }
}
