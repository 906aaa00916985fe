//! What is due at the ports of a component, and what it owes.

ghost use Rattle.std.specs.Prelude.{◌≡◌, ◌<◌, ◌≤◌, ℕ, length, MatchBool, MatchOption};
ghost use Rattle.bz_waits.specs.Adding.{IsFirstPast};
ghost use Rattle.bz_waits.specs.Waiting.{Chooses, IsDue, IsDueTwice, IsIdle, Owes};

use crate::sites::{chan_at, is_passive_at, port_count, site};
use bz_kind_rows::row_of;
use bz_model::{Callers, Move, Phase};
use bz_net::Core;

/// Whether this move comes next at a port of a component.
pub(crate) fn is_due(core: &Core, comp: u32, port: u32, mv: Move) -> bool
    ensures { MatchBool result (IsDue core.now.wiring.sites core.now.state comp mv port)
        (IsDue core.now.wiring.sites core.now.state comp mv port → ⊥) }
{
    core.due(comp, port) == Some(mv)
}

/// The first port of a component past so many at which this move is due.
pub(crate) fn next_due(core: &Core, comp: u32, mv: Move, past: u32) -> Option<u32>
    requires from { 0 < comp }
    requires to { comp ≤ length core.now.wiring.sites }
    ensures { IsFirstPast (IsDue core.now.wiring.sites core.now.state comp mv) past result }
{
    for place in past..port_count(core, comp) {
        if is_due(core, comp, place + 1, mv) {
            return Some(place + 1);
        }
    }
    None
}

/// A channel whose request a component has taken and not replied to.
pub(crate) fn owed_chan(core: &Core, comp: u32) -> Option<u32>
    requires from { 0 < comp }
    requires to { comp ≤ length core.now.wiring.sites }
    ensures { MatchOption result ((k : ℕ) → Owes core.now.wiring.sites core.now.state comp k → ⊥)
        (Owes core.now.wiring.sites core.now.state comp) }
{
    for place in 0..port_count(core, comp) {
        let chan = chan_at(core, comp, place + 1);
        if core.phase(chan) == Phase::Taken && is_passive_at(core, comp, place + 1) {
            return Some(chan);
        }
    }
    None
}

/// Whether a component can't move, waits for no reply and owes none.
pub(crate) fn is_idle(core: &Core, comp: u32) -> bool
    requires from { 0 < comp }
    requires to { comp ≤ length core.now.wiring.sites }
    ensures { MatchBool result (IsIdle core.now.wiring.sites core.now.state comp)
        (IsIdle core.now.wiring.sites core.now.state comp → ⊥) }
{
    if core.is_ready(comp) {
        return false;
    }
    if next_due(core, comp, Move::Got, 0).is_some() {
        return false;
    }
    owed_chan(core, comp).is_none()
}

/// Whether one is enough of the requests that a component waits for: a DecisionWait may wait for several.
pub(crate) fn chooses(core: &Core, comp: u32, due: Move) -> bool
    requires from { 0 < comp }
    requires to { comp ≤ length core.now.wiring.sites }
    ensures { MatchBool result (Chooses core.now.wiring.sites core.now.state comp due)
        (Chooses core.now.wiring.sites core.now.state comp due → ⊥) }
{
    match (row_of(&site(core, comp).kind).callers, due) {
        (Callers::OneIsEnough, Move::Take) => has_two_due(core, comp),
        _ => false,
    }
}

// Whether a component waits for requests at two ports.
fn has_two_due(core: &Core, comp: u32) -> bool
    requires from { 0 < comp }
    requires to { comp ≤ length core.now.wiring.sites }
    ensures { MatchBool result (IsDueTwice core.now.wiring.sites core.now.state comp Move.Take)
        (IsDueTwice core.now.wiring.sites core.now.state comp Move.Take → ⊥) }
{
    match next_due(core, comp, Move::Take, 0) {
        Some(first) => next_due(core, comp, Move::Take, first).is_some(),
        None => false,
    }
}
