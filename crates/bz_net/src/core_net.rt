//! A net without a journal: its wiring, one state of it, and which components can move in it. Who reads a net reads its core,
//! whether it keeps a journal (`Net`) or none (`Play`).

ghost use Rattle.std.specs.Prelude.{◌≡◌, ◌≢◌, ◌-◌, ◌≤◌, ◌<◌, None, Some, IfSome, IsTrue, MatchBool, MatchOption, OnOk, IfOk, IfErr, IfNone, length, min, suc};
ghost use Rattle.std.specs.Option.{option_copied, option_map};
ghost use Rattle.bz_model.specs.Hosts.{HostStep, command_refusal, refusal_at, reply_to};
ghost use Rattle.bz_model.specs.Names.{NamesDiffer, numbered, port_number};
ghost use Rattle.bz_model.specs.Nets.{Step, StepsAt, opening, outside, phase_at};
ghost use Rattle.bz_model.specs.Runs.{CanStep, IsLowest, IsNext, Rest};
ghost use Rattle.bz_flat.specs.Flats.{site_of};
ghost use Rattle.bz_flat.specs.Wires.{IsEnd, WellWired};
ghost use Rattle.bz_kinds.specs.Riding.{held};
ghost use Rattle.bz_net.specs.Core.{IsSole};
ghost use Rattle.bz_net.specs.Due.{Foresees, GivesAsSteps, HasStep, IsSoleDue, TellsDue};
ghost use Rattle.bz_net.specs.Ends.{TellsEnds, TellsPort, IsSolePort};
ghost use Rattle.bz_net.specs.Foretelling.{IsForetold};
ghost use Rattle.bz_net.specs.Near.{NoneAfter};
ghost use Rattle.bz_net.specs.Noted.{AskedBefore, NotedAt, NotedMove, WatchesBut};
ghost use Rattle.bz_net.specs.Sides.{answers};
ghost use Rattle.bz_net.specs.Told.{MayMove, MovesAt};
ghost use Rattle.bz_net.specs.Unbroken.{IsUnbroken};

use crate::foretelling::{Foretold, carries_told, foretell};
use crate::here::{command, has_step, has_step_by, lowest_port, mark_all};
use crate::kept_phases::Phases;
use crate::link_row::LinkRow;
use crate::moves::{answers, due_at, foresee, mixes, note_clash, port_in, refusal_of, reply_to};
use crate::node::{dup_all, restart_all, start_all};
use crate::node_moves::move_comp;
use crate::node_row::NodeRow;
use crate::noted::Noted;
use crate::ready_row::ReadyRow;
use crate::same::{first_other, is_other_at, is_same_phases};
use bz_arena::Arena;
use bz_flat::{Ends, Flat, FlatComp, Pieces, dup_comps};
use bz_kinds::held;
use bz_model::{Chan, Move, Names, NetError, Phase, Reply, Value, Verb, dup_ports, node_of};
use std::alloc::{AllocError, Global};
use std::marker::Model;

/// A net in a state, and which components can move. Components, ports and channels count from 1.
pub struct Core {
    names: Names,
    sites: Arena<FlatComp>,
    ends: Vec<Ends>,
    links: LinkRow,
    nodes: NodeRow,
    phases: Phases,
    ready: ReadyRow,
    // Whether there is a component at which requests may meet.
    mixes: bool,
    // Of each component whether it has moved since the net was opened.
    moved: Vec<bool>,
}

// By hand, so that who lets a net go has one call to show and not all its parts.
impl Drop for Core {
    fn drop(self) {
        let Core {
            names: _,
            sites: _,
            ends: _,
            links: _,
            nodes: _,
            phases: _,
            ready: _,
            mixes: _,
            moved: _,
        } = self;
    }
}

impl Model for Core {
    ghost use Rattle.bz_net.specs.Core.{Standing};
    ghost use Rattle.bz_model.specs.Codes.{term_code};
    ghost use Rattle.std.specs.Coded.{codes};

    ghost Value = { Standing };

    ghost coded = { Prim.hlevel (codes, term_code) };

    ghost use Rattle.std.specs.Prelude.{map};
    ghost use Rattle.bz_flat.specs.Flats.{site_of};
    ghost use Rattle.bz_net.specs.Keeping.{state_of};
    ghost use Rattle.bz_net.specs.Nodes.{comps_of, heres_of};

    ghost view = { λ n. record {
      wiring = record { chans = n.names.chans; sites = map site_of n.sites; ports = n.names.ports };
      state = state_of n.phases (comps_of n.nodes);
    } };

    ghost use Rattle.std.specs.Prelude.{◌≡◌, false};
    ghost use Rattle.bz_net.specs.LinkRow.{InRow};
    ghost use Rattle.bz_net.specs.Noted.{NoneMixes};
    ghost use Rattle.bz_net.specs.Core.{CoreSound};
    ghost use Rattle.bz_net.specs.Keeping.{StartsUnless};

    ghost invariant = { λ n. CoreSound
        (record { chans = n.names.chans; sites = map site_of n.sites; ports = n.names.ports })
        n.phases (comps_of n.nodes) (heres_of n.nodes)
        n.ends.items n.ready
        × InRow (map site_of n.sites) n.ends.items n.links.starts.items n.links.row.items
        × (n.mixes ≡ false → NoneMixes (map site_of n.sites))
        × StartsUnless n.names.chans (map site_of n.sites) (comps_of n.nodes) n.moved.items };
}

impl Core {
    /// A flat net at its opening: all channels are idle, and each component is at its start. Where memory is refused, the
    /// flat net is gone.
    pub(crate) fn open(alloc: Global, flat: Flat) -> Result<Core, NetError>
        ensures wiring { IfOk result (λ core. core.wiring ≡ flat.wiring) }
        ensures state { IfOk result (λ core. core.state ≡ opening flat.wiring) }
        ensures wired { IfOk result (λ core. WellWired core.wiring) }
        ensures err { IfErr result (λ e. e ≡ NetError.Memory) }
    {
        let pieces = flat.into_pieces();
        let nodes = start_all(alloc, &pieces.chans, &pieces.comps)?;
        let phases = match Phases::new(alloc, pieces.chans.len()) {
            Ok(phases) => phases,
            Err(_) => return Err(NetError::Memory),
        };
        let ready = match mark_all(alloc, &pieces.comps, &phases, &nodes) {
            Ok(ready) => ready,
            Err(_) => return Err(NetError::Memory),
        };
        let links = match LinkRow::of(alloc, &pieces.comps, &pieces.ends) {
            Ok(links) => links,
            Err(_) => return Err(NetError::Memory),
        };
        let mixes = mixes(&pieces.comps);
        let moved = match vec![in alloc; false; pieces.comps.len()] {
            Ok(moved) => moved,
            Err(_) => return Err(NetError::Memory),
        };
        Ok(Core {
            names: Names::new(pieces.ports, pieces.chans),
            sites: pieces.comps,
            ends: pieces.ends,
            links,
            nodes,
            phases,
            ready,
            mixes,
            moved,
        })
    }

    /// The same net at its opening. Where memory is refused, it is gone.
    pub(crate) fn reopen(self, alloc: Global) -> Result<Core, NetError>
        ensures wiring { IfOk result (λ core. core.wiring ≡ self.wiring) }
        ensures state { IfOk result (λ core. core.state ≡ opening self.wiring) }
        ensures err { IfErr result (λ e. e ≡ NetError.Memory) }
    {
        let Core {
            names,
            sites,
            ends,
            links,
            nodes,
            phases,
            ready: _,
            mixes,
            moved,
        } = self;
        let mut nodes = nodes;
        restart_all(alloc, &names, &sites, &moved, &mut nodes)?;
        let mut phases = phases;
        phases.clear();
        let ready = match mark_all(alloc, &sites, &phases, &nodes) {
            Ok(ready) => ready,
            Err(_) => return Err(NetError::Memory),
        };
        let mut moved = moved;
        moved.fill(false);
        Ok(Core {
            names,
            sites,
            ends,
            links,
            nodes,
            phases,
            ready,
            mixes,
            moved,
        })
    }

    /// The same net in the same state.
    pub fn dup(&self, alloc: Global) -> Result<Core, AllocError>
        ensures { IfOk result (λ core. core ≡ self.now) }
    {
        let names = self.names.dup(alloc)?;
        let sites = dup_comps(alloc, &self.sites)?;
        let ends = Vec::from_slice(alloc, &self.ends)?;
        let links = self.links.dup(alloc)?;
        let nodes = dup_all(alloc, &self.nodes)?;
        let phases = self.phases.dup(alloc)?;
        let ready = mark_all(alloc, &self.sites, &self.phases, &self.nodes)?;
        let moved = Vec::from_slice(alloc, &self.moved)?;
        Ok(Core {
            names,
            sites,
            ends,
            links,
            nodes,
            phases,
            ready,
            mixes: self.mixes,
            moved,
        })
    }

    /// `None` where both are in the same state, else the place of a component. That one is looked at first: of two nets that go
    /// on to differ there, nearly nothing is looked at.
    pub fn differing(&self, other: &Core, first: usize) -> Option<usize>
        ensures { IfNone result (self.now.state ≡ other.now.state) }
    {
        if is_other_at(&self.nodes, &other.nodes, first)
            || !is_same_phases(&self.phases, &other.phases)
        {
            return Some(first);
        }
        first_other(&self.nodes, &other.nodes)
    }

    /// The flat net, whose names and channels are copied. Where memory is refused, it is gone.
    pub(crate) fn into_flat(self, alloc: Global) -> Result<Flat, AllocError>
        ensures { IfOk result (λ flat. flat.wiring ≡ self.wiring) }
    {
        let count = self.chan_count();
        let Core {
            names,
            sites,
            ends,
            links: _,
            nodes: _,
            phases: _,
            ready: _,
            mixes: _,
            moved: _,
        } = self;
        let ports = dup_ports(alloc, names.ports())?;
        let chans = chans_of(alloc, &names, count)?;
        Ok(Flat::of(Pieces {
            chans,
            comps: sites,
            ports,
            ends,
        }))
    }

    /// A copy of the flat net.
    pub fn flat(&self, alloc: Global) -> Result<Flat, AllocError>
        ensures { IfOk result (λ flat. flat.wiring ≡ self.now.wiring) }
    {
        let ports = dup_ports(alloc, self.names.ports())?;
        let chans = chans_of(alloc, &self.names, self.chan_count())?;
        let comps = dup_comps(alloc, &self.sites)?;
        let ends = Vec::from_slice(alloc, &self.ends)?;
        Ok(Flat::of(Pieces {
            chans,
            comps,
            ports,
            ends,
        }))
    }

    /// How many components there are.
    pub fn comp_count(&self) -> u32
        ensures { result ≡ length self.now.wiring.sites }
    {
        self.sites.len() as u32
    }

    /// A component, if there is such a component.
    pub fn comp(&self, comp: u32) -> Option<&FlatComp>
        ensures { option_map site_of (option_copied result) ≡ numbered self.now.wiring.sites comp }
    {
        node_of(&self.sites, comp)
    }

    /// How many channels there are.
    pub fn chan_count(&self) -> u32
        ensures { result ≡ length self.now.wiring.chans }
    {
        self.phases.len() as u32
    }

    /// The external ports and the channels.
    pub fn names(&self) -> &Names
        ensures value { result.now ≡ outside self.now.wiring }
        ensures differ { NamesDiffer self.now.wiring.ports }
        ensures wired { WellWired self.now.wiring }
    {
        &self.names
    }

    /// The number of the external port of this name, or the first reason to refuse a host command there.
    pub(crate) fn port_of(
        &self,
        verb: Verb,
        name: &[u8],
        value: Option<Value>,
    ) -> Result<u32, NetError>
        ensures port { IfOk result (λ port. port_number self.now.wiring.ports name.now ≡ Some port) }
        ensures let_in { IfOk result (λ port. refusal_at self.now.wiring verb port value ≡ None) }
        ensures agreed { OnOk result (command_refusal self.now.wiring verb name.now value ≡ None) }
        ensures cause { IfErr result (λ e. command_refusal self.now.wiring verb name.now value ≡ Some e) }
    {
        let Some(port) = self.names.port(name) else {
            return Err(NetError::UnknownPort);
        };
        match refusal_of(&self.names, verb, port, value) {
            Some(e) => Err(e),
            None => Ok(port),
        }
    }

    /// The phase of a channel, `Idle` where there is no such channel.
    pub fn phase(&self, chan: u32) -> Phase
        ensures phase { result ≡ phase_at self.now.state chan }
        ensures kept { result ≢ Phase.Broken }
    {
        let place = (chan as usize).saturating_sub(1);
        if place < self.phases.len() {
            self.phases.get(place)
        } else {
            Phase::Idle
        }
    }

    /// The components at the active and at the passive end of a channel, `None` where there is none.
    pub fn ends(&self, chan: u32) -> [Option<u32>; 2]
        requires from { 0 < chan }
        requires to { chan ≤ length self.now.wiring.chans }
        ensures { TellsEnds self.now.wiring.sites chan result }
    {
        let pair = self.ends[chan as usize - 1];
        [pair.active, pair.passive]
    }

    /// The port at which a component makes this move on a channel: it holds the active end where it asks or gets, the
    /// passive end where it takes or replies. `None` where the component holds no such end.
    pub fn port_at(&self, comp: u32, chan: u32, mv: Move) -> Option<u32>
        ensures end { TellsPort self.now.wiring.sites chan (answers mv) comp result }
        ensures sole { IsSolePort self.now.wiring.sites self.now.state comp chan mv result }
    {
        port_in(&self.ends, chan, answers(mv), comp)
    }

    /// Whether a component can move.
    pub fn is_ready(&self, comp: u32) -> bool
        ensures { MatchBool result (CanStep self.now.wiring.sites self.now.state comp)
            (CanStep self.now.wiring.sites self.now.state comp → ⊥) }
    {
        if comp as usize > self.sites.len() {
            return false;
        }
        self.ready.contains(comp)
    }

    /// Whether a component can move at a port.
    pub fn can_fire(&self, comp: u32, port: u32) -> bool
        ensures { MatchBool result (StepsAt self.now.wiring.sites self.now.state comp port)
            (StepsAt self.now.wiring.sites self.now.state comp port → ⊥) }
    {
        has_step(&self.sites, &self.phases, &self.nodes, comp, port)
    }

    /// The move that a component has at a port, whether or not its channel lets it be made.
    pub fn due(&self, comp: u32, port: u32) -> Option<Move>
        ensures due { TellsDue self.now.wiring.sites self.now.state comp port result }
        ensures sole { IsSoleDue self.now.wiring.sites self.now.state comp port result }
    {
        due_at(&self.sites, &self.nodes, &self.phases, comp, port)
    }

    /// The channel, the move and the value of the step that a component has at a port, where it has one.
    pub fn foresee(&self, comp: u32, port: u32) -> Option<(u32, Move, Option<Value>)>
        ensures { Foresees self.now.wiring.sites self.now.state comp port result }
    {
        foresee(&self.sites, &self.nodes, &self.phases, comp, port)
    }

    /// Whether a component has a step by this move on a channel, which it makes at this port, with this value. A value is given
    /// where the move carries one.
    #[inline(always)]
    pub(crate) fn has_step(
        &self,
        comp: u32,
        port: u32,
        chan: u32,
        mv: Move,
        value: Option<Value>,
    ) -> bool
        requires end { IsEnd self.now.wiring.sites chan (answers mv) comp port }
        requires given { GivesAsSteps self.now.wiring.sites self.now.state comp chan mv value }
        ensures { MatchBool result (HasStep self.now.wiring.sites self.now.state comp port chan mv value)
            (HasStep self.now.wiring.sites self.now.state comp port chan mv value → ⊥) }
    {
        has_step_by(
            &self.sites,
            &self.phases,
            &self.nodes,
            comp,
            port,
            chan,
            mv,
            value,
        )
    }

    /// The reply to a host command on the channel of an external port.
    pub fn reply(&self, verb: Verb, port: u32) -> Reply
        ensures { result ≡ reply_to verb (phase_at self.now.state port) }
    {
        let (reply, _) = reply_to(verb, None, self.phase(port));
        reply
    }

    /// The component that is next to fire, from a number on.
    #[inline(always)]
    pub fn next_ready(&self, from: u32) -> Option<u32>
        ensures { MatchOption result (Rest self.now.wiring.sites self.now.state)
            (IsNext (CanStep self.now.wiring.sites self.now.state) from) }
    {
        let last = self.last_before(from);
        if let Some(comp) = self.next_after(last) {
            return Some(comp);
        }
        self.next_past(last)
    }

    /// The last component before a number, 0 where there is none: who looks for the next one from that number on looks behind it.
    #[inline(always)]
    pub(crate) fn last_before(&self, from: u32) -> usize
        ensures { result ≡ min (from - 1) (length self.now.wiring.sites) }
    {
        from.saturating_sub(1).min(self.comp_count()) as usize
    }

    /// The component that is next to fire from the number after this one, where it is found by one look.
    #[inline(always)]
    pub(crate) fn next_after(&self, last: usize) -> Option<u32>
        requires { last ≤ length self.now.wiring.sites }
        ensures some { IfSome result (IsNext (CanStep self.now.wiring.sites self.now.state) (suc last)) }
        ensures none { IfNone result (NoneAfter (CanStep self.now.wiring.sites self.now.state) last) }
    {
        self.ready.next_after(last)
    }

    /// The same, wherever it is. It is called with the whole core, so that no address in it is kept for this call.
    #[cold]
    #[inline(never)]
    pub(crate) fn next_past(&self, last: usize) -> Option<u32>
        requires { NoneAfter (CanStep self.now.wiring.sites self.now.state) last }
        ensures { MatchOption result (Rest self.now.wiring.sites self.now.state)
            (IsNext (CanStep self.now.wiring.sites self.now.state) (suc last)) }
    {
        self.ready.next_past(last)
    }

    /// The lowest port at which a component can move.
    pub(crate) fn lowest(&self, comp: u32) -> Option<u32>
        requires from { 0 < comp }
        requires to { comp ≤ length self.now.wiring.sites }
        ensures { MatchOption result (CanStep self.now.wiring.sites self.now.state comp → ⊥)
            (IsLowest self.now.wiring.sites self.now.state comp) }
    {
        lowest_port(&self.sites, &self.phases, &self.nodes, comp)
    }

    /// Moves a component at the port that is given, or else at the lowest where it can move: the channel, the move, whether it carries
    /// a value, which is in `value` then, and the port.
    #[inline(always)]
    pub(crate) fn fire(
        &mut self,
        comp: u32,
        at: Option<u32>,
        value: &mut Value,
    ) -> (u32, Move, bool, u32)
        requires { MayMove self.old.wiring.sites self.old.state comp at }
        ensures wiring { self.new.wiring ≡ self.old.wiring }
        ensures port { MovesAt self.old.wiring.sites self.old.state comp at result.3 }
        ensures step { Step self.old.wiring.sites self.old.state comp result.3 result.0 result.1 (held result.2 value.new) self.new.state }
        ensures sole { IsSole self.old self.new comp result.3 result.0 result.1 (held result.2 value.new) }
        ensures from { 0 < result.0 }
        ensures to { result.0 ≤ length self.old.wiring.chans }
        ensures met { AskedBefore self.old.wiring.sites self.old.state.phases self.new.state.phases result.1 }
        ensures unbroken { IsUnbroken self.new.state }
    {
        self.moved[comp as usize - 1] = true;
        move_comp(
            &self.sites,
            &self.ends,
            &self.links,
            &mut self.nodes,
            &mut self.phases,
            &mut self.ready,
            comp,
            at,
            value,
        )
    }

    /// Moves a component at a port: the channel, the move and its value.
    pub(crate) fn fire_at(&mut self, comp: u32, port: u32) -> (u32, Move, Option<Value>)
        requires { StepsAt self.old.wiring.sites self.old.state comp port }
        ensures wiring { self.new.wiring ≡ self.old.wiring }
        ensures step { Step self.old.wiring.sites self.old.state comp port result.0 result.1 result.2 self.new.state }
        ensures sole { IsSole self.old self.new comp port result.0 result.1 result.2 }
        ensures from { 0 < result.0 }
        ensures to { result.0 ≤ length self.old.wiring.chans }
        ensures met { AskedBefore self.old.wiring.sites self.old.state.phases self.new.state.phases result.1 }
        ensures unbroken { IsUnbroken self.new.state }
    {
        let mut value = 0;
        let (chan, mv, carries, _) = self.fire(comp, Some(port), &mut value);
        (chan, mv, held(carries, value))
    }

    /// Makes a host command that is not refused at an external port.
    pub(crate) fn command(&mut self, verb: Verb, port: u32, value: Option<Value>) -> Reply
        requires from { 0 < port }
        requires to { port ≤ length self.old.wiring.ports }
        requires agreed { refusal_at self.old.wiring verb port value ≡ None }
        ensures wiring { self.new.wiring ≡ self.old.wiring }
        ensures step { HostStep self.old.wiring self.old.state verb port value result self.new.state }
        ensures within { port ≤ length self.old.wiring.chans }
        ensures unbroken { IsUnbroken self.new.state }
    {
        command(
            &self.sites,
            &self.ends,
            &mut self.nodes,
            &mut self.phases,
            &mut self.ready,
            verb,
            port,
            value,
        )
    }

    /// Notes the component at the passive end of a channel, where requests meet there.
    #[inline(never)]
    pub(crate) fn note_clash(&self, chan: u32, noted: &mut Noted)
        requires from { 0 < chan }
        requires to { chan ≤ length self.now.wiring.chans }
        requires most { noted.old.most ≡ length self.now.wiring.sites }
        requires watches { WatchesBut chan self.now.wiring.sites self.now.state.phases noted.old }
        ensures { NotedAt self.now.wiring.sites self.now.state.phases noted.old noted.new chan }
    {
        let pair = self.ends[chan as usize - 1];
        note_clash(&self.sites, &self.phases, noted, chan, pair.passive);
    }

    /// The same after a move on the channel: where it was no request, or where requests meet nowhere, none can have met by it.
    #[inline(always)]
    pub(crate) fn note_move(&self, chan: u32, mv: Move, noted: &mut Noted)
        requires from { 0 < chan }
        requires to { chan ≤ length self.now.wiring.chans }
        requires most { noted.old.most ≡ length self.now.wiring.sites }
        requires watches { WatchesBut chan self.now.wiring.sites self.now.state.phases noted.old }
        ensures { NotedMove self.now.wiring.sites self.now.state.phases noted.old noted.new chan mv }
    {
        match mv {
            Move::Ask if self.mixes => self.note_clash(chan, noted),
            _ => {}
        }
    }

    /// The step of the component that is next to fire, from a number on, at its lowest port.
    #[inline(always)]
    pub fn foretell(&self, from: u32) -> Option<Foretold>
        ensures next { IfSome result (λ told. IsNext (CanStep self.now.wiring.sites self.now.state) from told.comp) }
        ensures lowest { IfSome result (λ told. IsLowest self.now.wiring.sites self.now.state told.comp told.port) }
        ensures foretold { IfSome result (IsForetold self.now.wiring.sites self.now.state) }
    {
        let comp = self.next_ready(from)?;
        let told = foretell(
            &self.sites,
            &self.ends,
            &self.links,
            &self.phases,
            &self.nodes,
            comp,
        );
        Some(told)
    }

    /// Whether the step that was foretold carries this value. A value is given where the move carries one.
    #[inline(always)]
    pub(crate) fn carries(&self, told: Foretold, value: Option<Value>) -> bool
        requires foretold { IsForetold self.now.wiring.sites self.now.state told }
        requires given { GivesAsSteps self.now.wiring.sites self.now.state told.comp told.chan told.mv value }
        ensures has { IsTrue result → HasStep self.now.wiring.sites self.now.state told.comp told.port told.chan told.mv value }
        ensures sole { IsSolePort self.now.wiring.sites self.now.state told.comp told.chan told.mv (Some told.port) }
    {
        carries_told(&self.sites, &self.phases, &self.nodes, told, value)
    }
}

// The channels of a net that has so many.
fn chans_of(alloc: Global, names: &Names, count: u32) -> Result<Arena<Chan>, AllocError>
    requires { count ≡ length names.now.chans }
    ensures { IfOk result (λ chans. chans ≡ names.now.chans) }
{
    let mut chans = Arena::new(alloc);
    for place in 0..count {
        let Some(chan) = names.chan(place + 1) else {
            unreachable!()
        };
        match chans.push(chan) {
            Ok(_) => {}
            Err(_) => return Err(AllocError),
        }
    }
    Ok(chans)
}
