//! What each component is told of its channels, the lowest port at which it can move by that, and its moves.

ghost use Rattle.std.specs.Prelude.{◌≡◌, ◌≤◌, ◌<◌, ◌*◌, ◌^◌, ℕ, Bool, suc, false, true, length, map, slice_set, if◌then◌else◌, ◌↔◌, IsTrue, MatchOption, MatchBool, Option, IfSome, IfNone, IfOk};
ghost use Rattle.bz_model.specs.declared.channel.Phase.{Phase};
ghost use Rattle.bz_model.specs.Heads.{CanMove, Head, HasOneHead, IsHeadOn, Moves, Turns};
ghost use Rattle.bz_kinds.specs.Riding.{riding};
ghost use Rattle.bz_model.specs.Nets.{State, Step, StepsAt};
ghost use Rattle.bz_model.specs.declared.channel.Move.{Move};
ghost use Rattle.bz_flat.specs.Wires.{IsEnd, StandsIn, ends_in};
ghost use Rattle.bz_flat.specs.Flats.{site_of};
ghost use Rattle.bz_kinds.specs.Ready.{CanGo};
ghost use Rattle.bz_model.specs.Runs.{CanStep, IsLowest};
ghost use Rattle.bz_net.specs.Keeping.{comp_at, flag_at, state_of, Exact, Placed, Refreshed, RefreshedEnds, MarksAll, CommandedAt, phase_in};
ghost use Rattle.bz_model.specs.Hosts.{host_after};
ghost use Rattle.bz_net.specs.Due.{GivesAsSteps, HasStep};
ghost use Rattle.bz_net.specs.Nodes.{comps_of, heres_of};
ghost use Rattle.bz_net.specs.Sides.{answers};
ghost use Rattle.bz_net.specs.Told.{is_here, flag_of, Goes, NoneGoes, GoesAt, GoesFirst, MayMove, MovesAt, IsTurning, Sighted, AreEnds, AllAreEnds, HasBit, Came, Left, PutEnd, Retold, ToldOther, Turned, StaysSighted, HostSighted};

use crate::kept_phases::Phases;
use crate::moves::{foresee, next_of, reply_to, sends};
use crate::node::{Node, node_id};
use crate::node_row::NodeRow;
use crate::ready_row::ReadyRow;
use bz_arena::Arena;
use bz_flat::{Ends, FlatComp};
use bz_kinds::{far_word, next_due, ready_word, waits_to};
use bz_model::{Move, Phase, Reply, Value, Verb};
use std::alloc::{AllocError, Global};

/// Whether what a passive port waits for, or an active one, is on a channel in this phase.
pub(crate) fn is_here(phase: Phase, passive: bool) -> bool
    ensures { result ≡ is_here phase passive }
{
    match phase {
        Phase::Asked(_) => passive,
        Phase::Replied(_) => !passive,
        _ => false,
    }
}

/// The lowest port at which a component can move by what it is told, as wide as a place in a row.
#[inline(always)]
pub(crate) fn lowest_of(node: &Node) -> Option<usize>
    requires room { length node.now.comp.chans < 64 * length node.now.here }
    requires few { length node.now.here ≤ 2 ^ 26 }
    ensures lowest { MatchOption result (NoneGoes node.now.comp node.now.here) (GoesFirst node.now.comp node.now.here) }
    ensures turning { IsTurning node.now.comp }
{
    let word = ready_word(&node.comp, 0, node.here.word(0));
    if word != 0 {
        return Some(word.trailing_zeros() as usize);
    }
    if node.here.word_count() == 1 {
        return None;
    }
    lowest_far(node)
}

// The same of the ports from 64 on, where there is none before.
#[cold]
#[inline(never)]
fn lowest_far(node: &Node) -> Option<usize>
    requires room { length node.now.comp.chans < 64 * length node.now.here }
    requires few { length node.now.here ≤ 2 ^ 26 }
    requires near { (p : ℕ) → p < 64 → CanGo node.now.comp.proc p (flag_of node.now.here p) → ⊥ }
    ensures { MatchOption result (NoneGoes node.now.comp node.now.here) (GoesFirst node.now.comp node.now.here) }
{
    let at = next_due(&node.comp, 1);
    if at >= node.here.word_count() {
        return None;
    }
    let word = far_word(&node.comp, at as u32, node.here.word(at));
    if word != 0 {
        return Some(64 * at + word.trailing_zeros() as usize);
    }
    lowest_from(node, at + 1)
}

// The same of the words from one on, where there is none before.
#[inline(never)]
fn lowest_from(node: &Node, from: usize) -> Option<usize>
    requires room { length node.now.comp.chans < 64 * length node.now.here }
    requires few { length node.now.here ≤ 2 ^ 26 }
    requires far { 0 < from }
    requires before { (p : ℕ) → p < 64 * from → CanGo node.now.comp.proc p (flag_of node.now.here p) → ⊥ }
    ensures { MatchOption result (NoneGoes node.now.comp node.now.here) (GoesFirst node.now.comp node.now.here) }
{
    let end = node.here.word_count();
    let mut at = next_word(node, from);
    while at < end {
        let word = far_word(&node.comp, at as u32, node.here.word(at));
        if word != 0 {
            return Some(64 * at + word.trailing_zeros() as usize);
        }
        at = next_word(node, at + 1);
    }
    None
}

// The first word from one on in which it may be able to move: as far as it waits there, one in which something is here.
#[inline(always)]
fn next_word(node: &Node, from: usize) -> usize
    requires { 0 < from }
    ensures from { from ≤ result }
    ensures passed { (p : ℕ) → 64 * from ≤ p → p < 64 * result → CanGo node.now.comp.proc p (flag_of node.now.here p) → ⊥ }
{
    let end = waits_to(&node.comp, from);
    if end == from {
        return next_due(&node.comp, from);
    }
    node.here.next_one(from, end)
}

/// Whether a component can move by what it is told. Of the ports from 64 on those round `port` are looked at first: there it
/// often can, and then no others are looked at.
#[inline(always)]
pub(crate) fn can_go(node: &Node, port: u32) -> bool
    requires room { length node.now.comp.chans < 64 * length node.now.here }
    requires few { length node.now.here ≤ 2 ^ 26 }
    ensures goes { MatchBool result (Goes node.now.comp node.now.here) (NoneGoes node.now.comp node.now.here) }
    ensures turning { IsTurning node.now.comp }
{
    if ready_word(&node.comp, 0, node.here.word(0)) != 0 {
        return true;
    }
    if node.here.word_count() != 1 {
        return can_go_far(node, port);
    }
    false
}

// The same of the ports from 64 on, where there is none before.
#[inline(never)]
fn can_go_far(node: &Node, port: u32) -> bool
    requires room { length node.now.comp.chans < 64 * length node.now.here }
    requires few { length node.now.here ≤ 2 ^ 26 }
    requires near { (p : ℕ) → p < 64 → CanGo node.now.comp.proc p (flag_of node.now.here p) → ⊥ }
    ensures { MatchBool result (Goes node.now.comp node.now.here) (NoneGoes node.now.comp node.now.here) }
{
    let at = port as usize / 64;
    if at > 0 {
        let word = far_word(&node.comp, at as u32, node.here.word(at));
        if word != 0 {
            return true;
        }
        let next = next_due(&node.comp, 1);
        if next == at {
            return lowest_from(node, next + 1).is_some();
        }
    }
    lowest_far(node).is_some()
}

/// Whether a component has a step. The ports round `port` are looked at first.
#[inline(always)]
fn can_step(sites: &Arena<FlatComp>, phases: &Phases, nodes: &NodeRow, comp: u32, port: u32) -> bool
    requires sighted { Sighted (map site_of sites.now) phases.now (comps_of nodes.now) (heres_of nodes.now) }
    requires from { 0 < comp }
    requires to { comp ≤ length sites.now }
    ensures { MatchBool result
        (CanStep (map site_of sites.now) (state_of phases.now (comps_of nodes.now)) comp)
        (CanStep (map site_of sites.now) (state_of phases.now (comps_of nodes.now)) comp → ⊥) }
{
    let node = nodes.get(node_id(comp));
    can_go(node, port)
}

/// Whether a component has a step at a port.
#[inline(always)]
pub(crate) fn has_step(
    sites: &Arena<FlatComp>,
    phases: &Phases,
    nodes: &NodeRow,
    comp: u32,
    port: u32,
) -> bool
    requires { Sighted (map site_of sites.now) phases.now (comps_of nodes.now) (heres_of nodes.now) }
    ensures steps { MatchBool result
        (StepsAt (map site_of sites.now) (state_of phases.now (comps_of nodes.now)) comp port)
        (StepsAt (map site_of sites.now) (state_of phases.now (comps_of nodes.now)) comp port → ⊥) }
    ensures turning { IsTrue result → IsTurning (comp_at (comps_of nodes.now) comp) }
{
    if comp == 0 || comp as usize > nodes.len() {
        return false;
    }
    let node = nodes.get(node_id(comp));
    goes_at(node, port)
}

/// Whether a component has a step by this move on a channel, which it makes at this port, with this value. Which move comes
/// next there, and what a take or a got brings, its phase tells.
#[inline(always)]
pub(crate) fn has_step_by(
    sites: &Arena<FlatComp>,
    phases: &Phases,
    nodes: &NodeRow,
    comp: u32,
    port: u32,
    chan: u32,
    mv: Move,
    value: Option<Value>,
) -> bool
    requires sighted { Sighted (map site_of sites.now) phases.now (comps_of nodes.now) (heres_of nodes.now) }
    requires placed { Placed (map site_of sites.now) phases.now (comps_of nodes.now) }
    requires end { IsEnd (map site_of sites.now) chan (answers mv) comp port }
    requires given { GivesAsSteps (map site_of sites.now) (state_of phases.now (comps_of nodes.now)) comp chan mv value }
    ensures { MatchBool result
        (HasStep (map site_of sites.now) (state_of phases.now (comps_of nodes.now)) comp port chan mv value)
        (HasStep (map site_of sites.now) (state_of phases.now (comps_of nodes.now)) comp port chan mv value → ⊥) }
{
    if !has_step(sites, phases, nodes, comp, port) {
        return false;
    }
    let place = chan as usize - 1;
    if next_of(phases.get(place)) != Some(mv) {
        return false;
    }
    match mv {
        Move::Take | Move::Got => phases.riding(place) == value,
        Move::Ask | Move::Reply => {
            value.is_none() || carries(sites, phases, nodes, comp, port, value)
        }
    }
}

/// Whether the step that a component has at a port carries this value.
#[inline(never)]
pub(crate) fn carries(
    sites: &Arena<FlatComp>,
    phases: &Phases,
    nodes: &NodeRow,
    comp: u32,
    port: u32,
    value: Option<Value>,
) -> bool
    requires { Placed (map site_of sites.now) phases.now (comps_of nodes.now) }
    ensures { (k : ℕ) (mv : Move) (other : Option ℕ) (next : State) →
        Step (map site_of sites.now) (state_of phases.now (comps_of nodes.now)) comp port k mv other next →
        IsTrue result ↔ other ≡ value }
{
    match foresee(sites, nodes, phases, comp, port) {
        Some((_, _, found)) => found == value,
        None => false,
    }
}

// Whether a component can move at a port by what it is told.
#[inline(always)]
fn goes_at(node: &Node, port: u32) -> bool
    ensures goes { IsTrue result ↔ CanGo node.now.comp.proc port (flag_of node.now.here port) }
    ensures held { (p : ℕ) (h : Head) → IsHeadOn node.now.comp.proc p h → (0 < p) × (p ≤ length node.now.comp.chans) }
    ensures turning { IsTurning node.now.comp }
{
    if port >= 64 {
        return goes_at_far(node, port);
    }
    let near = ready_word(&node.comp, 0, node.here.word(0));
    (near >> port) & 1 == 1
}

// The same of any port.
#[cold]
#[inline(never)]
fn goes_at_far(node: &Node, port: u32) -> bool
    ensures goes { IsTrue result ↔ CanGo node.now.comp.proc port (flag_of node.now.here port) }
    ensures held { (p : ℕ) (h : Head) → IsHeadOn node.now.comp.proc p h → (0 < p) × (p ≤ length node.now.comp.chans) }
    ensures turning { IsTurning node.now.comp }
{
    let at = port / 64;
    let word = ready_word(&node.comp, at, node.here.word(at as usize));
    (word >> (port % 64)) & 1 == 1
}

/// The lowest port at which a component has a step.
#[inline(always)]
pub(crate) fn lowest_port(
    sites: &Arena<FlatComp>,
    phases: &Phases,
    nodes: &NodeRow,
    comp: u32,
) -> Option<u32>
    requires sighted { Sighted (map site_of sites.now) phases.now (comps_of nodes.now) (heres_of nodes.now) }
    requires from { 0 < comp }
    requires to { comp ≤ length sites.now }
    ensures { MatchOption result
        (CanStep (map site_of sites.now) (state_of phases.now (comps_of nodes.now)) comp → ⊥)
        (IsLowest (map site_of sites.now) (state_of phases.now (comps_of nodes.now)) comp) }
{
    let node = nodes.get(node_id(comp));
    match lowest_of(node) {
        Some(port) => Some(port as u32),
        None => None,
    }
}

/// Tells the ports at both ends of a channel of its phase.
#[inline(always)]
pub(crate) fn retell(
    sites: &Arena<FlatComp>,
    nodes: &mut NodeRow,
    chan: u32,
    ends: Ends,
    phase: Phase,
)
    requires ends { AreEnds (map site_of sites.now) chan ends }
    requires active { HasBit (heres_of nodes.old) ends.active ends.active_port }
    requires passive { HasBit (heres_of nodes.old) ends.passive ends.passive_port }
    ensures told { Retold (map site_of sites.now) (heres_of nodes.old) (heres_of nodes.new) chan phase }
    ensures comps { comps_of nodes.new ≡ comps_of nodes.old }
{
    tell_end(nodes, ends.active, ends.active_port, is_here(phase, false));
    tell_end(nodes, ends.passive, ends.passive_port, is_here(phase, true));
}

#[inline(always)]
fn tell_end(nodes: &mut NodeRow, end: Option<u32>, port: u32, bit: bool)
    requires { HasBit (heres_of nodes.old) end port }
    ensures put { PutEnd (heres_of nodes.old) (heres_of nodes.new) end port bit }
    ensures comps { comps_of nodes.new ≡ comps_of nodes.old }
{
    if let Some(comp) = end {
        nodes.get_mut(node_id(comp)).here.put(port as usize, bit);
    }
}

/// Looks again whether one component can move, round `port` first.
#[inline(always)]
fn refresh(
    sites: &Arena<FlatComp>,
    phases: &Phases,
    nodes: &NodeRow,
    ready: &mut ReadyRow,
    comp: u32,
    port: u32,
)
    requires sighted { Sighted (map site_of sites.now) phases.now (comps_of nodes.now) (heres_of nodes.now) }
    requires from { 0 < comp }
    requires to { comp ≤ length sites.now }
    requires row { length ready.old ≡ suc (length sites.now) }
    ensures { Refreshed (map site_of sites.now) (state_of phases.now (comps_of nodes.now)) ready.old ready.new comp }
{
    if can_step(sites, phases, nodes, comp, port) {
        ready.insert(comp);
    } else {
        ready.remove(comp);
    }
}

/// Looks again whether the components at both ends of a channel can move.
#[inline(always)]
fn refresh_ends(
    sites: &Arena<FlatComp>,
    phases: &Phases,
    nodes: &NodeRow,
    ready: &mut ReadyRow,
    ends: Ends,
)
    requires sighted { Sighted (map site_of sites.now) phases.now (comps_of nodes.now) (heres_of nodes.now) }
    requires row { length ready.old ≡ suc (length sites.now) }
    requires active { IfSome ends.active (λ c. (0 < c) × (c ≤ length sites.now)) }
    requires passive { IfSome ends.passive (λ c. (0 < c) × (c ≤ length sites.now)) }
    ensures { RefreshedEnds (map site_of sites.now) (state_of phases.now (comps_of nodes.now)) ready.old ready.new ends }
{
    if let Some(comp) = ends.active {
        refresh(sites, phases, nodes, ready, comp, ends.active_port);
    }
    if let Some(comp) = ends.passive {
        refresh(sites, phases, nodes, ready, comp, ends.passive_port);
    }
}

/// The components that can move.
pub(crate) fn mark_all(
    alloc: Global,
    sites: &Arena<FlatComp>,
    phases: &Phases,
    nodes: &NodeRow,
) -> Result<ReadyRow, AllocError>
    requires sighted { Sighted (map site_of sites.now) phases.now (comps_of nodes.now) (heres_of nodes.now) }
    requires few { length sites.now ≤ 1000000 }
    ensures { IfOk result (λ ready. MarksAll (map site_of sites.now) (state_of phases.now (comps_of nodes.now)) ready (length sites.now)) }
{
    let count = sites.len() as u32;
    let mut ready = ReadyRow::new(alloc, count)?;
    for place in 0..count {
        mark(sites, phases, nodes, &mut ready, place + 1);
    }
    Ok(ready)
}

// Marks a component that is not marked, where it can move.
#[inline(always)]
fn mark(sites: &Arena<FlatComp>, phases: &Phases, nodes: &NodeRow, ready: &mut ReadyRow, comp: u32)
    requires sighted { Sighted (map site_of sites.now) phases.now (comps_of nodes.now) (heres_of nodes.now) }
    requires from { 0 < comp }
    requires to { comp ≤ length sites.now }
    requires row { length ready.old ≡ suc (length sites.now) }
    requires unmarked { flag_at ready.old comp ≡ false }
    ensures { Refreshed (map site_of sites.now) (state_of phases.now (comps_of nodes.now)) ready.old ready.new comp }
{
    if can_step(sites, phases, nodes, comp, 1) {
        ready.insert(comp);
    }
}

/// Makes a host command at an external port, tells both ends of its channel, and looks again whether the components there
/// can move.
pub(crate) fn command(
    sites: &Arena<FlatComp>,
    ends: &[Ends],
    nodes: &mut NodeRow,
    phases: &mut Phases,
    ready: &mut ReadyRow,
    verb: Verb,
    port: u32,
    value: Option<Value>,
) -> Reply
    requires sighted { Sighted (map site_of sites.now) phases.old (comps_of nodes.old) (heres_of nodes.old) }
    requires stays { HostSighted (map site_of sites.now) phases.old (comps_of nodes.old) (heres_of nodes.old) port (host_after verb value (phase_in phases.old port)) }
    requires from { 0 < port }
    requires to { port ≤ length phases.old }
    requires row { length ready.old ≡ suc (length sites.now) }
    requires ends_len { length ends.now ≡ length phases.old }
    requires stands { StandsIn (map site_of sites.now) ends.now }
    requires are_ends { AllAreEnds (map site_of sites.now) ends.now }
    ensures commanded { CommandedAt (map site_of sites.now) ends.now
        (comps_of nodes.old) phases.old phases.new
        ready.old ready.new verb port value result }
    ensures told { Retold (map site_of sites.now) (heres_of nodes.old) (heres_of nodes.new) port (host_after verb value (phase_in phases.old port)) }
    ensures comps { comps_of nodes.new ≡ comps_of nodes.old }
{
    let place = port as usize - 1;
    let phase = phases.get(place);
    let (reply, after) = reply_to(verb, value, phase);
    phases.put(place, after);
    let pair = ends[place];
    retell(sites, nodes, port, pair, after);
    refresh_ends(sites, phases, nodes, ready, pair);
    reply
}
