//! The moves of a net's components: what each does at its node, on its channel, and at the channel's other end.

ghost use Rattle.std.specs.Prelude.{◌≡◌, ◌≤◌, ◌<◌, ◌*◌, ◌^◌, ℕ, suc, length, map, slice_index_or, slice_set, if◌then◌else◌, not, false, true, Some, MatchBool, IfNone, IfSome};
ghost use Rattle.bz_model.specs.declared.channel.Move.{Move};
ghost use Rattle.bz_model.specs.declared.channel.Phase.{Phase};
ghost use Rattle.bz_model.specs.declared.channel.Phase.TheVariants.{Idle};
ghost use Rattle.bz_model.specs.Heads.{HasOneHead, Moves, Turns};
ghost use Rattle.bz_model.specs.Nets.{StepsAt, chan_at};
ghost use Rattle.bz_flat.specs.Flats.{site_of};
ghost use Rattle.bz_flat.specs.Wires.{StandsIn, ends_in};
ghost use Rattle.bz_kinds.specs.Riding.{held, riding};
ghost use Rattle.bz_kinds.specs.Sure.{HasMove};
ghost use Rattle.bz_net.specs.Due.{next_of};
ghost use Rattle.bz_net.specs.Keeping.{comp_at, state_of, phase_in, Exact, Placed, RefreshedEnds};
ghost use Rattle.bz_net.specs.LinkRow.{InRow, IsLink};
ghost use Rattle.bz_net.specs.Nodes.{comps_of, heres_of};
ghost use Rattle.bz_net.specs.Sides.{sends};
ghost use Rattle.bz_net.specs.Told.{flag_of, Goes, NoneGoes, GoesAt, MayMove, MovesAt, IsTurning, Sighted, AllAreEnds, HasBit, Came, Left, ToldFar, Turned, StaysSighted};

use crate::here::{can_go, lowest_of};
use crate::kept_phases::Phases;
use crate::link_row::{Link, LinkRow};
use crate::node::{Node, node_id};
use crate::node_row::NodeRow;
use crate::ready_row::ReadyRow;
use bz_arena::Arena;
use bz_flat::{Ends, FlatComp};
use bz_model::{Move, Value};

/// A move by its name: what is done at a node where it is due, and who is told of it.
trait NodeMove {
    // which move it is
    ghost MOVE: { Move };

    /// Which move it is.
    const MOVE: Move;

    /// Makes it at a port, where `value` rides on the channel if `rides`: whether it carries one, which is in `value` then, and
    /// whether the component can move then.
    fn make(node: &mut Node, port: usize, rides: bool, value: &mut Value) -> (bool, bool)
        requires next { HasMove node.old.comp.proc port MOVE }
        requires told { flag_of node.old.here port ≡ not (sends MOVE) }
        requires bit { port < 64 * length node.old.here }
        requires room { length node.old.comp.chans < 64 * length node.old.here }
        requires few { length node.old.here ≤ 2 ^ 26 }
        ensures moves { (phase : Phase) → next_of phase ≡ Some MOVE → held rides value.old ≡ riding phase →
            Moves node.old.comp.proc port phase MOVE (held result.0 value.new) node.new.comp.proc }
        ensures turns { Turns node.old.comp port MOVE node.new.comp }
        ensures one { HasOneHead node.old.comp.proc.todo }
        ensures chans { node.new.comp.chans ≡ node.old.comp.chans }
        ensures left { Left MOVE node.old.here node.new.here port }
        ensures goes { MatchBool result.1 (Goes node.new.comp node.new.here) (NoneGoes node.new.comp node.new.here) }
        ensures turning { IsTurning node.new.comp };

    /// Tells the other end of its channel: a request or a reply comes there.
    fn tell(nodes: &mut NodeRow, ready: &mut ReadyRow, link: &Link)
        requires bit { HasBit (heres_of nodes.old) link.now.far link.now.far_port }
        requires row { length ready.old ≡ suc (length nodes.old) }
        ensures told { ToldFar (comps_of nodes.old) (heres_of nodes.old) (heres_of nodes.new) ready.old ready.new link.now.far link.now.far_port MOVE }
        ensures comps { comps_of nodes.new ≡ comps_of nodes.old };
}

/// A request of an active port.
struct Asking;

/// The take of a request at a passive port.
struct Taking;

/// A reply of a passive port.
struct Replying;

/// The end of a handshake at an active port.
struct Getting;

impl NodeMove for Asking {
    ghost MOVE = { Move.Ask };

    const MOVE: Move = Move::Ask;

    #[inline(always)]
    fn make(node: &mut Node, port: usize, _rides: bool, value: &mut Value) -> (bool, bool) {
        let (carried, waits) = bz_kinds::ask(&mut node.comp, port as u32);
        let carries = put_into(value, carried);
        look_at_moved(node);
        let goes = !waits && can_go(node, port as u32);
        (carries, goes)
    }

    #[inline(always)]
    fn tell(nodes: &mut NodeRow, ready: &mut ReadyRow, link: &Link) {
        come(nodes, ready, link.far, link.far_port);
    }
}

impl NodeMove for Taking {
    ghost MOVE = { Move.Take };

    const MOVE: Move = Move::Take;

    #[inline(always)]
    fn make(node: &mut Node, port: usize, rides: bool, value: &mut Value) -> (bool, bool) {
        node.here.put(port, false);
        let sure = bz_kinds::take(&mut node.comp, port as u32, rides, *value);
        look_at_moved(node);
        let goes = sure || can_go(node, port as u32);
        (rides, goes)
    }

    #[inline(always)]
    fn tell(nodes: &mut NodeRow, _ready: &mut ReadyRow, link: &Link) {
        look_at(nodes, link.far);
    }
}

impl NodeMove for Replying {
    ghost MOVE = { Move.Reply };

    const MOVE: Move = Move::Reply;

    #[inline(always)]
    fn make(node: &mut Node, port: usize, _rides: bool, value: &mut Value) -> (bool, bool) {
        let (carried, waits) = bz_kinds::reply(&mut node.comp, port as u32);
        let carries = put_into(value, carried);
        look_at_moved(node);
        let goes = !waits && can_go(node, port as u32);
        (carries, goes)
    }

    #[inline(always)]
    fn tell(nodes: &mut NodeRow, ready: &mut ReadyRow, link: &Link) {
        come(nodes, ready, link.far, link.far_port);
    }
}

impl NodeMove for Getting {
    ghost MOVE = { Move.Got };

    const MOVE: Move = Move::Got;

    #[inline(always)]
    fn make(node: &mut Node, port: usize, rides: bool, value: &mut Value) -> (bool, bool) {
        node.here.put(port, false);
        let sure = bz_kinds::got(&mut node.comp, port as u32, rides, *value);
        look_at_moved(node);
        let goes = sure || can_go(node, port as u32);
        (rides, goes)
    }

    #[inline(always)]
    fn tell(nodes: &mut NodeRow, _ready: &mut ReadyRow, link: &Link) {
        look_at(nodes, link.far);
    }
}

/// Moves a component at the port that is given, or else at the lowest where it can move. Tells the ends of the channel what the
/// move has changed, and looks again whether the components there can move where that may have changed. Answers the channel,
/// the move, whether it carries a value, which is in `value` then, and the port. An `Option` of a value that comes from several
/// sides would be written whole on each, and most moves carry none.
#[inline(always)]
pub(crate) fn move_comp(
    sites: &Arena<FlatComp>,
    ends: &[Ends],
    links: &LinkRow,
    nodes: &mut NodeRow,
    phases: &mut Phases,
    ready: &mut ReadyRow,
    comp: u32,
    at: Option<u32>,
    value: &mut Value,
) -> (u32, Move, bool, u32)
    requires links { InRow (map site_of sites.now) ends.now links.now.starts.items links.now.row.items }
    requires placed { Placed (map site_of sites.now) phases.old (comps_of nodes.old) }
    requires sighted { Sighted (map site_of sites.now) phases.old (comps_of nodes.old) (heres_of nodes.old) }
    requires stays { (p : ℕ) → StaysSighted (map site_of sites.now) phases.old (comps_of nodes.old) (heres_of nodes.old) comp p }
    requires may { MayMove (map site_of sites.now) (state_of phases.old (comps_of nodes.old)) comp at }
    requires row { length ready.old ≡ suc (length sites.now) }
    requires exact { (c : ℕ) → Exact (map site_of sites.now) (state_of phases.old (comps_of nodes.old)) ready.old c }
    requires ends_len { length ends.now ≡ length phases.old }
    requires stands { StandsIn (map site_of sites.now) ends.now }
    requires are_ends { AllAreEnds (map site_of sites.now) ends.now }
    ensures port { MovesAt (map site_of sites.now) (state_of phases.old (comps_of nodes.old)) comp at result.3 }
    ensures told { Turned (map site_of sites.now)
        phases.old (comps_of nodes.old) (heres_of nodes.old) phases.new (comps_of nodes.new) (heres_of nodes.new) comp result.3 result.0 result.1 (held result.2 value.new) }
    ensures refreshed { RefreshedEnds (map site_of sites.now) (state_of phases.new (comps_of nodes.new))
        ready.old ready.new (ends_in ends.now result.0) }
{
    look_at(nodes, Some(comp));
    let port = port_of(nodes.get(node_id(comp)), at);
    let number = port as u32;
    let link = links.link(comp, port);
    let chan = link.chan;
    let (next, rides) = phases.next_riding(chan as usize - 1, value);
    let (mv, carries) = match next {
        Move::Ask => {
            let carries = move_as::<Asking>(
                sites, ends, nodes, phases, ready, comp, port, link, rides, value,
            );
            (Move::Ask, carries)
        }
        Move::Take => {
            let carries = move_as::<Taking>(
                sites, ends, nodes, phases, ready, comp, port, link, rides, value,
            );
            (Move::Take, carries)
        }
        Move::Reply => {
            let carries = move_as::<Replying>(
                sites, ends, nodes, phases, ready, comp, port, link, rides, value,
            );
            (Move::Reply, carries)
        }
        Move::Got => {
            let carries = move_as::<Getting>(
                sites, ends, nodes, phases, ready, comp, port, link, rides, value,
            );
            (Move::Got, carries)
        }
    };
    (chan, mv, carries, number)
}

// The move of a component at a port that leads there, where it is the one that comes next on the channel, and `value` rides if
// `rides`: whether it carries a value, which is in `value` then.
#[inline(always)]
fn move_as<M: NodeMove>(
    sites: &Arena<FlatComp>,
    ends: &[Ends],
    nodes: &mut NodeRow,
    phases: &mut Phases,
    ready: &mut ReadyRow,
    comp: u32,
    port: usize,
    link: &Link,
    rides: bool,
    value: &mut Value,
) -> bool
    requires placed { Placed (map site_of sites.now) phases.old (comps_of nodes.old) }
    requires sighted { Sighted (map site_of sites.now) phases.old (comps_of nodes.old) (heres_of nodes.old) }
    requires stays { StaysSighted (map site_of sites.now) phases.old (comps_of nodes.old) (heres_of nodes.old) comp port }
    requires turning { IsTurning (comp_at (comps_of nodes.old) comp) }
    requires steps { StepsAt (map site_of sites.now) (state_of phases.old (comps_of nodes.old)) comp port }
    requires link { IsLink (map site_of sites.now) ends.now comp port link.now }
    requires next { next_of (phase_in phases.old link.now.chan) ≡ Some M.MOVE }
    requires rides { held rides value.old ≡ riding (phase_in phases.old link.now.chan) }
    requires row { length ready.old ≡ suc (length sites.now) }
    requires exact { (c : ℕ) → Exact (map site_of sites.now) (state_of phases.old (comps_of nodes.old)) ready.old c }
    requires ends_len { length ends.now ≡ length phases.old }
    requires are_ends { AllAreEnds (map site_of sites.now) ends.now }
    ensures told { Turned (map site_of sites.now)
        phases.old (comps_of nodes.old) (heres_of nodes.old) phases.new (comps_of nodes.new) (heres_of nodes.new) comp port link.now.chan M.MOVE (held result value.new) }
    ensures refreshed { RefreshedEnds (map site_of sites.now) (state_of phases.new (comps_of nodes.new))
        ready.old ready.new (ends_in ends.now link.now.chan) }
{
    let place = link.chan as usize - 1;
    let node = nodes.get_mut(node_id(comp));
    let (carries, goes) = M::make(node, port, rides, value);
    phases.make(place, M::MOVE, carries, *value);
    keep_marked(ready, comp, goes);
    M::tell(nodes, ready, link);
    carries
}

// Puts a value where one is carried: whether one is.
#[inline(always)]
fn put_into(value: &mut Value, carried: Option<Value>) -> bool
    ensures { held result value.new ≡ carried }
{
    match carried {
        Some(carried) => {
            *value = carried;
            true
        }
        None => false,
    }
}

// The port at which the component of a node is to move: the one that is given, or the lowest at which it can. It is as wide as a
// place in a row, so that a move has it in one width alone.
#[inline(always)]
fn port_of(node: &Node, at: Option<u32>) -> usize
    requires room { length node.now.comp.chans < 64 * length node.now.here }
    requires few { length node.now.here ≤ 2 ^ 26 }
    requires goes { IfNone at (IsTurning node.now.comp → NoneGoes node.now.comp node.now.here → ⊥) }
    ensures goes { GoesAt node.now.comp node.now.here at result }
    ensures fits { result < 2 ^ 32 }
{
    match at {
        Some(port) => port as usize,
        None => lowest_of(node).unwrap(),
    }
}

// Of a component that was marked, keeps the mark where it can move still.
#[inline(always)]
fn keep_marked(ready: &mut ReadyRow, comp: u32, goes: bool)
    requires { comp < length ready.old }
    ensures { ready.new ≡ (if goes then ready.old else slice_set ready.old comp false) }
{
    if !goes {
        ready.remove(comp);
    }
}

/// Nothing comes to the component at an end. A look at it brings what its type says of its moves.
#[inline(always)]
pub(crate) fn look_at(nodes: &NodeRow, end: Option<u32>)
    requires { IfSome end (λ c. (0 < c) × (c ≤ length nodes.now)) }
    ensures { IfSome end (λ c. IsTurning (comp_at (comps_of nodes.now) c)) }
{
    if let Some(comp) = end {
        let _due = bz_kinds::has_move(&nodes.get(node_id(comp)).comp, 1);
    }
}

// A look at a component that moved brings what its type says of its moves.
#[inline(always)]
fn look_at_moved(node: &Node)
    ensures { IsTurning node.now.comp }
{
    let _due = bz_kinds::has_move(&node.comp, 1);
}

// What a port may wait for comes there: where a move is due at it, its component can move.
#[inline(always)]
fn come(nodes: &mut NodeRow, ready: &mut ReadyRow, end: Option<u32>, port: u32)
    requires bit { HasBit (heres_of nodes.old) end port }
    requires row { length ready.old ≡ suc (length nodes.old) }
    ensures came { Came (comps_of nodes.old) (heres_of nodes.old) (heres_of nodes.new) ready.old ready.new end port }
    ensures comps { comps_of nodes.new ≡ comps_of nodes.old }
{
    let Some(comp) = end else {
        return;
    };
    let node = nodes.get_mut(node_id(comp));
    let is_due = bz_kinds::has_move(&node.comp, port);
    node.here.put(port as usize, true);
    if is_due {
        ready.insert(comp);
    }
}
