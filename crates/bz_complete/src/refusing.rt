//! That no run goes on to a move, whatever is noticed, and where that is plain that no other run shows it there either.

ghost use Rattle.std.specs.Prelude.{◌≡◌, ◌<◌, ◌≤◌, length, not, true, false, None, IfOk};
ghost use Rattle.bz_complete.specs.declared.making.Maker.TheVariants as Maker;
ghost use Rattle.bz_complete.specs.Stopping.{HasSent, IsMaker, IsQuiet, IsStop, Notices, is_busy, replies, word_of};
ghost use Rattle.bz_flat.specs.Flats.{site_of};
ghost use Rattle.bz_flat.specs.Wires.{IsEnd};
ghost use Rattle.bz_model.specs.Nets.{proc_at, site_at};
ghost use Rattle.bz_net.specs.Replies.{RefusesAt};
ghost use Rattle.bz_net.specs.Sides.{sends};

use crate::making::{WORKER, is_due};
use crate::pending::Way;
use crate::short::{Sent, ShortMove};
use bz_flat::FlatComp;
use bz_model::{Entry, Move, NetError, Phase};
use bz_net::{Core, Net};
use std::alloc::Global;

// A component.
fn site(core: &Core, comp: u32) -> &FlatComp
    requires from { 0 < comp }
    requires to { comp ≤ length core.now.wiring.sites }
    ensures { site_of result.now ≡ site_at core.now.wiring.sites comp }
{
    match core.comp(comp) {
        Some(site) => site,
        None => unreachable!(),
    }
}

// How many ports a component has.
fn port_count(core: &Core, comp: u32) -> u32
    requires from { 0 < comp }
    requires to { comp ≤ length core.now.wiring.sites }
    ensures { result ≡ length (site_at core.now.wiring.sites comp).chans }
{
    // the wiring tells that there are fewer than 2^32 at each component
    let _ = core.names();
    site(core, comp).chans.len() as u32
}

/// The first port at which a component can make a take or a got.
pub(crate) fn first_open(net: &Net, comp: u32) -> Option<u32>
    requires from { 0 < comp }
    requires to { comp ≤ length net.now.wiring.sites }
    ensures { result ≡ None → IsQuiet net.now.wiring.sites net.now.state comp }
{
    for place in 0..port_count(net.core(), comp) {
        if is_open(net, comp, place + 1) {
            return Some(place + 1);
        }
    }
    None
}

// Whether a component can make a take or a got at a port.
fn is_open(net: &Net, comp: u32, port: u32) -> bool
    ensures { result ≡ false → Notices net.now.wiring.sites net.now.state comp port → ⊥ }
{
    let due = net.core().due(comp, port);
    if sends_next(due) {
        return false;
    }
    net.can_fire(comp, port)
}

// Whether what comes next at a port is a request or a reply, or nothing.
fn sends_next(due: Option<Move>) -> bool
    ensures { result ≡ true → (mv : Move) → due ≡ Some mv → sends mv ≡ true }
{
    match due {
        Some(Move::Take | Move::Got) => false,
        Some(Move::Ask | Move::Reply) => true,
        None => true,
    }
}

/// That a net stops before the move, where a component has nothing to notice and can't send it now. (It is asked only then; an
/// error is a want of memory.)
pub(crate) fn refuse(alloc: Global, net: &Net, way: Way) -> Result<bool, NetError>
    requires end { IsEnd net.now.wiring.sites way.due.chan (replies way.due.sent) way.comp way.port }
    requires quiet { IsQuiet net.now.wiring.sites net.now.state way.comp }
    ensures { IfOk result (λ is. (is ≡ false) × IsStop net.now way.due) }
{
    // (what the journal has is that of a run)
    let _ = net.journal();
    if has_sent(alloc, net, way.comp, way.port, way.due)? {
        return Err(NetError::NotEnabled);
    }
    Ok(false)
}

// Whether a component can send this at a port. Where it can send something else, a copy of the net shows that it is that alone.
fn has_sent(
    alloc: Global,
    net: &Net,
    comp: u32,
    port: u32,
    due: ShortMove,
) -> Result<bool, NetError>
    requires { IsEnd net.now.wiring.sites due.chan (replies due.sent) comp port }
    ensures { IfOk result (λ is. is ≡ false → HasSent (proc_at net.now.state comp) port due → ⊥) }
{
    if !net.can_fire(comp, port) {
        return Ok(false);
    }
    let mut copy = net.dup(alloc)?;
    match copy.fire_move(WORKER, comp, port)? {
        Entry::Fired {
            chan,
            mv,
            value,
            ..
        } => Ok(is_due(due, chan, mv, value)),
        _ => Ok(true),
    }
}

/// That a net stops before a move that nobody can send.
pub(crate) fn refuse_nobody(net: &Net, due: ShortMove) -> Result<bool, NetError>
    requires maker { IsMaker net.now.wiring due Maker.Nobody }
    ensures { IfOk result (λ is. (is ≡ false) × IsStop net.now due) }
{
    // (what the journal has is that of a run)
    let _ = net.journal();
    Ok(false)
}

/// That a net stops before a move of the host whose word is refused.
pub(crate) fn refuse_word(net: &Net, due: ShortMove, error: NetError) -> Result<bool, NetError>
    requires maker { IsMaker net.now.wiring due Maker.Host }
    requires cause { RefusesAt net.now (word_of due.sent) due.chan due.value error }
    ensures { IfOk result (λ is. (is ≡ false) × IsStop net.now due) }
{
    let _ = net.journal();
    match error {
        NetError::Memory | NetError::JournalFull => Err(error),
        _ => Ok(false),
    }
}

/// That a net stops before a move of the host that is out of turn. (It is asked only then.)
pub(crate) fn refuse_turn(net: &Net, due: ShortMove) -> Result<bool, NetError>
    requires maker { IsMaker net.now.wiring due Maker.Host }
    ensures { IfOk result (λ is. (is ≡ false) × IsStop net.now due) }
{
    let _ = net.journal();
    if is_in_turn(due.sent, net.core().phase(due.chan)) {
        return Err(NetError::NotEnabled);
    }
    Ok(false)
}

// Whether this can be sent on a channel in this phase.
fn is_in_turn(sent: Sent, phase: Phase) -> bool
    ensures { result ≡ false → is_busy phase ≡ not (replies sent) }
{
    let busy = matches!(phase, Phase::Asked(_) | Phase::Taken);
    match sent {
        Sent::Ask => !busy,
        Sent::Reply => busy,
    }
}
