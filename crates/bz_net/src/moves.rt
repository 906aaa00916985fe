//! Reads of components and of channels, over the lists that a net keeps, and what a host command does to a phase.

ghost use Rattle.std.specs.Prelude.{true, false, ◌≡◌, ◌≢◌, ◌≤◌, ◌<◌, ◌^◌, ℕ, suc, length, map, [], MatchOption, MatchBool, IfOk, IfSome};
ghost use Rattle.bz_model.specs.Heads.{HasOneHead};
ghost use Rattle.bz_model.specs.Nets.{IsPort, StepsAt, chan_at, proc_at, site_at};
ghost use Rattle.bz_model.specs.Hosts.{reply_to, host_after, received, refusal_at};
ghost use Rattle.bz_flat.specs.Flats.{site_of};
ghost use Rattle.bz_model.specs.Clashes.{is_mixer, phase_of};
ghost use Rattle.bz_net.specs.Noted.{NoneMixes, HasSoleEnds, IsHolder, NotedAt, WatchesBut};
ghost use Rattle.bz_net.specs.Due.{Foresees, IsSoleDue, TellsDue, next_of};
ghost use Rattle.bz_net.specs.Ends.{IsPortIn};
ghost use Rattle.bz_net.specs.Sides.{answers, sends};
ghost use Rattle.bz_net.specs.Keeping.{state_of, Placed, ReadsChans};
ghost use Rattle.bz_net.specs.Nodes.{comps_of};

use crate::kept_phases::Phases;
use crate::node::{node_id, site_in};
use crate::node_row::NodeRow;
use crate::noted::Noted;
use bz_arena::{Arena, Id};
use bz_flat::{Ends, FlatComp};
use bz_kind_rows::row_of;
use bz_model::{Callers, Kind, Move, Names, NetError, Phase, Reply, Value, Verb};

/// The channel at a component's port.
pub(crate) fn chan_of(sites: &Arena<FlatComp>, comp: u32, port: u32) -> Option<u32>
    ensures { MatchOption result (IsPort (map site_of sites.now) comp port → ⊥)
        (λ k. IsPort (map site_of sites.now) comp port × (k ≡ chan_at (map site_of sites.now) comp port)) }
{
    if comp == 0 || port == 0 || comp as usize > sites.len() {
        return None;
    }
    let site = site_in(sites, comp);
    if port as usize > site.chans.len() {
        return None;
    }
    Some(site.chans[port as usize - 1])
}

/// Whether a move is one of the passive end.
pub(crate) fn answers(mv: Move) -> bool
    ensures { result ≡ answers mv }
{
    matches!(mv, Move::Take | Move::Reply)
}

/// Whether a move is a request or a reply. The lowest bit of a move's number tells it, without a jump by a table.
#[inline(always)]
pub(crate) fn sends(mv: Move) -> bool
    ensures { result ≡ sends mv }
{
    mv as u32 % 2 == 0
}

/// The port of a component at an end of a channel, by the table of ends.
pub(crate) fn port_in(ends: &[Ends], chan: u32, passive: bool, comp: u32) -> Option<u32>
    ensures { IsPortIn ends.now chan passive comp result }
{
    if chan == 0 || chan as usize > ends.len() {
        return None;
    }
    let pair = ends[chan as usize - 1];
    let (end, port) = if passive {
        (pair.passive, pair.passive_port)
    } else {
        (pair.active, pair.active_port)
    };
    if end == Some(comp) { Some(port) } else { None }
}

/// The move that a component has at a port, whether or not it can be made.
pub(crate) fn due_at(
    sites: &Arena<FlatComp>,
    nodes: &NodeRow,
    phases: &Phases,
    comp: u32,
    port: u32,
) -> Option<Move>
    requires { Placed (map site_of sites.now) phases.now (comps_of nodes.now) }
    ensures due { TellsDue (map site_of sites.now) (state_of phases.now (comps_of nodes.now)) comp port result }
    ensures sole { IsSoleDue (map site_of sites.now) (state_of phases.now (comps_of nodes.now)) comp port result }
{
    match chan_of(sites, comp, port) {
        None => None,
        Some(_) => bz_kinds::next(&nodes.get(node_id(comp)).comp, port),
    }
}

/// The channel, the move and the value of the step that a component has at a port, where it has one.
pub(crate) fn foresee(
    sites: &Arena<FlatComp>,
    nodes: &NodeRow,
    phases: &Phases,
    comp: u32,
    port: u32,
) -> Option<(u32, Move, Option<Value>)>
    requires { Placed (map site_of sites.now) phases.now (comps_of nodes.now) }
    ensures seen { Foresees (map site_of sites.now) (state_of phases.now (comps_of nodes.now)) comp port result }
    ensures one { IfSome result (λ _. HasOneHead (proc_at (state_of phases.now (comps_of nodes.now)) comp).todo) }
{
    let Some(chan) = chan_of(sites, comp, port) else {
        return None;
    };
    let phase = phases.get(chan as usize - 1);
    match bz_kinds::foresee(&nodes.get(node_id(comp)).comp, port, phase) {
        Some((mv, value)) => Some((chan, mv, value)),
        None => None,
    }
}

/// The move that comes next on a channel in this phase.
#[inline(always)]
pub(crate) fn next_of(phase: Phase) -> Option<Move>
    ensures { result ≡ next_of phase }
{
    match phase {
        Phase::Idle => Some(Move::Ask),
        Phase::Asked(_) => Some(Move::Take),
        Phase::Taken => Some(Move::Reply),
        Phase::Replied(_) => Some(Move::Got),
        Phase::Broken => None,
    }
}

// Whether a kind is one at which requests may meet.
#[inline(always)]
fn is_mixer(kind: &Kind) -> bool
    ensures { result ≡ is_mixer kind.now }
{
    matches!(row_of(kind).callers, Callers::Meet)
}

/// Whether there is a component at which requests may meet.
pub(crate) fn mixes(sites: &Arena<FlatComp>) -> bool
    ensures { result ≡ false → NoneMixes (map site_of sites.now) }
{
    for place in 0..sites.len() {
        if is_mixer(&sites.get(Id::at(place)).kind) {
            return true;
        }
    }
    false
}

// Whether a channel isn't idle.
#[inline(always)]
fn is_busy(phases: &Phases, chan: u32) -> bool
    requires from { 0 < chan }
    requires to { chan ≤ length phases.now }
    ensures { MatchBool result (phase_of phases.now chan ≢ Phase.Idle) (phase_of phases.now chan ≡ Phase.Idle) }
{
    !matches!(phases.get(chan as usize - 1), Phase::Idle)
}

/// Notes the component at the passive end of a channel, where two requests meet there.
#[inline]
pub(crate) fn note_clash(
    sites: &Arena<FlatComp>,
    phases: &Phases,
    noted: &mut Noted,
    chan: u32,
    end: Option<u32>,
)
    requires reads { ReadsChans (map site_of sites.now) phases.now }
    requires ends { HasSoleEnds (map site_of sites.now) }
    requires from { 0 < chan }
    requires to { chan ≤ length phases.now }
    requires holder { IsHolder (map site_of sites.now) chan end }
    requires end { IfSome end (λ c. (0 < c) × (c ≤ length sites.now)) }
    requires most { noted.old.most ≡ length sites.now }
    requires watches { WatchesBut chan (map site_of sites.now) phases.now noted.old }
    ensures { NotedAt (map site_of sites.now) phases.now noted.old noted.new chan }
{
    if let Some(comp) = end {
        if is_mixer(&site_in(sites, comp).kind) {
            note_request(sites, phases, noted, chan, comp);
        }
    }
}

// The same of a component at which requests may meet. Where none met there yet, no channel to it but the last one is busy.
#[inline(never)]
fn note_request(sites: &Arena<FlatComp>, phases: &Phases, noted: &mut Noted, chan: u32, comp: u32)
    requires reads { ReadsChans (map site_of sites.now) phases.now }
    requires ends { HasSoleEnds (map site_of sites.now) }
    requires from { 0 < chan }
    requires to { chan ≤ length phases.now }
    requires holder { IsHolder (map site_of sites.now) chan (Some comp) }
    requires comp_from { 0 < comp }
    requires comp_to { comp ≤ length sites.now }
    requires mixes { is_mixer (site_at (map site_of sites.now) comp).kind ≡ true }
    requires most { noted.old.most ≡ length sites.now }
    requires watches { WatchesBut chan (map site_of sites.now) phases.now noted.old }
    ensures { NotedAt (map site_of sites.now) phases.now noted.old noted.new chan }
{
    if !is_busy(phases, chan) {
        return;
    }
    let last = noted.asked_last(comp);
    if last == 0 || last == chan {
        noted.ask(comp, chan);
        return;
    }
    if is_busy(phases, last) {
        noted.note(comp);
    } else {
        noted.ask(comp, chan);
    }
}

/// The reply to a host command at a phase, and the phase after it.
pub(crate) fn reply_to(verb: Verb, value: Option<Value>, phase: Phase) -> (Reply, Phase)
    ensures reply { result.0 ≡ reply_to verb phase }
    ensures after { result.1 ≡ host_after verb value phase }
{
    match (verb, phase) {
        (Verb::Offer, Phase::Idle) => (Reply::Done, Phase::Asked(value)),
        (Verb::Offer, _) => (Reply::Busy(phase), phase),
        (Verb::Collect, Phase::Replied(found)) => (with_value(found), Phase::Idle),
        (Verb::Collect, _) => (Reply::NotYet, phase),
        (Verb::Accept, Phase::Asked(found)) => (with_value(found), Phase::Taken),
        (Verb::Accept, _) => (Reply::NotYet, phase),
        (Verb::Answer, Phase::Taken) => (Reply::Done, Phase::Replied(value)),
        (Verb::Answer, _) => (Reply::NotTaken(phase), phase),
        (Verb::Watch, _) => (Reply::Watched(phase), phase),
    }
}

fn with_value(found: Option<Value>) -> Reply
    ensures { result ≡ received found }
{
    match found {
        Some(value) => Reply::Value(value),
        None => Reply::Done,
    }
}

/// The first reason to refuse a host command at an external port, if there is one.
pub(crate) fn refusal_of(
    names: &Names,
    verb: Verb,
    port: u32,
    value: Option<Value>,
) -> Option<NetError>
    requires from { 0 < port }
    requires to { port ≤ length names.now.ports }
    requires chans { length names.now.ports ≤ length names.now.chans }
    ensures { result ≡ refusal_at (record { chans = names.now.chans; sites = []; ports = names.now.ports }) verb port value }
{
    let (Some(passive), Some(chan)) = (names.passive(port), names.chan(port)) else {
        unreachable!()
    };
    verb.refusal(passive, chan, value)
}
