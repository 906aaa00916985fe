//! A net: its events, and what can be read of it.

ghost use Rattle.std.specs.Prelude.{◌≡◌, ◌≢◌, ◌<◌, ◌≤◌, ◌-◌, min, length, None, Some, MatchBool, MatchOption, OnOk, OnErr, IfOk, IfErr};
ghost use Rattle.bz_model.specs.Nets.{StepsAt, chan_in, opening, outside, phase_at};
ghost use Rattle.bz_model.specs.Names.{NamesDiffer, port_number};
ghost use Rattle.bz_model.specs.Widths.{FitsChan, FiringFits};
ghost use Rattle.bz_model.specs.Hosts.{refusal_at, command_refusal};
ghost use Rattle.bz_net.specs.Answering.{is_answer, would_answer};
ghost use Rattle.bz_model.specs.Runs.{CanStep, Rest, IsNext, Run};
ghost use Rattle.bz_flat.specs.Wires.{WellWired};
ghost use Rattle.bz_net.specs.Simulation.{Adds, IsOpened};
ghost use Rattle.bz_net.specs.Due.{Foresees, TellsDue};
ghost use Rattle.bz_net.specs.Progress.{IsToldBy};
ghost use Rattle.bz_net.specs.Ends.{TellsEnds, TellsPort, IsSolePort, IsOn};
ghost use Rattle.bz_net.specs.Sides.{answers};
ghost use Rattle.bz_net.specs.Replies.{Admits, RefusesAt, RefusesEntry, RefusesFire, IsFiring, IsSoleStep, IsLowestFiring, RefusesLowest, IsPicked, Replies, RefusesCommand};
ghost use Rattle.bz_net.specs.Resting.{TellsRest};
ghost use Rattle.bz_net.specs.Running.{Ran};
ghost use Rattle.bz_net.specs.Serving.{Serves, Refuses};
ghost use Rattle.bz_net.specs.Unbroken.{UnbrokenRun};
ghost use Rattle.bz_model.specs.Clashes.{AreClashed};

use crate::core_net::Core;
use crate::event::{Answer, Event, RestReply, RunEnd};
use crate::moves::{refusal_of, reply_to};
use crate::noted::Noted;
use crate::play::Play;
use bz_flat::Flat;
use bz_model::{Entry, HostCmd, Move, Names, NetError, Phase, Reply, Value, Verb, Who};
use std::alloc::{AllocError, Global};
use std::marker::Model;

/// A net, its journal, and the components at which requests met.
pub struct Net {
    core: Core,
    noted: Noted,
    journal: Vec<Entry>,
    limit: usize,
}

impl Drop for Net {
    fn drop(self) {
        let Net {
            core: _,
            noted: _,
            journal: _,
            limit: _,
        } = self;
    }
}

impl Model for Net {
    ghost use Rattle.bz_net.specs.Simulation.{Simulation};
    ghost use Rattle.bz_model.specs.Codes.{term_code};
    ghost use Rattle.std.specs.Coded.{codes};

    ghost Value = { Simulation };

    ghost coded = { Prim.hlevel (codes, term_code) };

    ghost use Rattle.std.specs.Prelude.{◌-◌, vec_len, vec_capacity};

    ghost view = { λ n. record {
      wiring = n.core.wiring;
      state = n.core.state;
      journal = n.journal.items;
      limit = n.limit;
      room = vec_capacity n.journal - vec_len n.journal;
    } };

    ghost use Rattle.bz_net.specs.Keeping.{Keeps};

    ghost invariant = { λ n. Keeps n.core.wiring n.core.state n.journal.items n.limit n.noted };
}

impl Net {
    /// Opens a net with room for a journal of `limit` entries: all channels are idle, and each component is at its start.
    /// Where memory is refused, the flat net is gone.
    pub fn open(alloc: Global, flat: Flat, limit: u32) -> Result<Net, NetError>
        requires least { 0 < limit }
        requires most { limit ≤ 16777216 }
        ensures ok { IfOk result (IsOpened flat.wiring limit) }
        ensures err { IfErr result (λ e. e ≡ NetError.Memory) }
    {
        let core = Core::open(alloc, flat)?;
        let noted = match Noted::listed(alloc, core.comp_count()) {
            Ok(noted) => noted,
            Err(_) => return Err(NetError::Memory),
        };
        Ok(Net {
            core,
            noted,
            journal: Vec::new(alloc),
            limit: limit as usize,
        })
    }

    /// A net that was played without a journal, with that of its run, and room for `limit` entries in all.
    pub fn of(play: Play, journal: Vec<Entry>, limit: u32) -> Net
        requires told { IsToldBy play journal.items }
        requires unbroken { UnbrokenRun play.wiring (opening play.wiring) journal.items play.state }
        requires within { length journal.items ≤ limit }
        ensures net { (result.wiring ≡ play.wiring) × (result.state ≡ play.state) }
        ensures journal { result.journal ≡ journal.items }
        ensures limit { result.limit ≡ limit }
    {
        let (core, noted) = play.into_parts();
        let noted = noted.into_listed();
        let limit = limit as usize;
        Net {
            core,
            noted,
            journal,
            limit,
        }
    }

    /// The net in its state.
    pub fn core(&self) -> &Core
        ensures wiring { result.now.wiring ≡ self.now.wiring }
        ensures state { result.now.state ≡ self.now.state }
    {
        &self.core
    }

    /// The same net, with room for as many entries; what is done on one does not show on the other.
    pub fn dup(&self, alloc: Global) -> Result<Net, NetError>
        ensures same { IfOk result (λ n. n ≡ record self.now { room = n.room }) }
        ensures room { IfOk result (λ n. self.now.room ≤ n.room) }
        ensures err { IfErr result (λ e. e ≡ NetError.Memory) }
    {
        match self.copy(alloc) {
            Ok(net) => Ok(net),
            Err(_) => Err(NetError::Memory),
        }
    }

    fn copy(&self, alloc: Global) -> Result<Net, AllocError>
        ensures same { IfOk result (λ n. n ≡ record self.now { room = n.room }) }
        ensures room { IfOk result (λ n. self.now.room ≤ n.room) }
    {
        let core = self.core.dup(alloc)?;
        let noted = self.noted.dup(alloc)?;
        let mut journal = Vec::with_capacity(alloc, self.journal.capacity())?;
        journal.extend_from_slice(&self.journal)?;
        Ok(Net {
            core,
            noted,
            journal,
            limit: self.limit,
        })
    }

    /// Whether a component can move.
    pub fn is_ready(&self, comp: u32) -> bool
        ensures { MatchBool result (CanStep self.now.wiring.sites self.now.state comp)
            (CanStep self.now.wiring.sites self.now.state comp → ⊥) }
    {
        self.core.is_ready(comp)
    }

    /// Whether a component can move at a port.
    pub fn can_fire(&self, comp: u32, port: u32) -> bool
        ensures { MatchBool result (StepsAt self.now.wiring.sites self.now.state comp port)
            (StepsAt self.now.wiring.sites self.now.state comp port → ⊥) }
    {
        self.core.can_fire(comp, port)
    }

    /// The move that a component has at a port, whether or not its channel lets it be made.
    pub fn due(&self, comp: u32, port: u32) -> Option<Move>
        ensures { TellsDue self.now.wiring.sites self.now.state comp port result }
    {
        self.core.due(comp, port)
    }

    /// The channel, the move and the value that `fire_move` would enter, where a component can move at a port.
    pub fn foresee(&self, comp: u32, port: u32) -> Option<(u32, Move, Option<Value>)>
        ensures { Foresees self.now.wiring.sites self.now.state comp port result }
    {
        self.core.foresee(comp, port)
    }

    /// Makes sure that one more entry can be added.
    fn admit(&mut self) -> Result<(), NetError>
        ensures ok { OnOk result (Admits self.old self.new) }
        ensures cause { IfErr result (RefusesEntry self.old) }
        ensures err { OnErr result (self.new ≡ self.old) }
    {
        if self.journal.len() >= self.limit {
            return Err(NetError::JournalFull);
        }
        match self.journal.reserve(1) {
            Ok(()) => Ok(()),
            Err(_) => Err(NetError::Memory),
        }
    }

    /// Fires the one move that a component has at a port.
    #[tactic(auto, using(crate::proofs::Kept::refuses_fire))]
    pub fn fire_move(&mut self, who: Who, comp: u32, port: u32) -> Result<Entry, NetError>
        ensures fired { IfOk result (IsFiring who comp port) }
        ensures fits { IfOk result (FiringFits self.old.wiring.chans) }
        ensures sole { IfOk result (IsSoleStep self.old self.new who comp port) }
        ensures adds { IfOk result (λ entry. Adds self.old entry self.new) }
        ensures cause { IfErr result (RefusesFire self.old comp port) }
        ensures err { OnErr result (self.new ≡ self.old) }
    {
        if !self.core.can_fire(comp, port) {
            return Err(NetError::NotEnabled);
        }
        self.fire_at(who, comp, port)
    }

    /// Fires the move of a component at a port where it can move.
    fn fire_at(&mut self, who: Who, comp: u32, port: u32) -> Result<Entry, NetError>
        requires { StepsAt self.old.wiring.sites self.old.state comp port }
        ensures fired { IfOk result (IsFiring who comp port) }
        ensures fits { IfOk result (FiringFits self.old.wiring.chans) }
        ensures sole { IfOk result (IsSoleStep self.old self.new who comp port) }
        ensures on { IfOk result (IsOn self.old.wiring) }
        ensures adds { IfOk result (λ entry. Adds self.old entry self.new) }
        ensures cause { IfErr result (RefusesEntry self.old) }
        ensures err { OnErr result (self.new ≡ self.old) }
    {
        self.admit()?;
        let (chan, mv, value) = self.core.fire_at(comp, port);
        self.core.note_move(chan, mv, &mut self.noted);
        let entry = Entry::Fired {
            who,
            comp,
            port,
            chan,
            mv,
            value,
        };
        self.journal.push(entry).unwrap();
        Ok(entry)
    }

    /// Fires a component at its lowest port that can move.
    #[tactic(auto, using(crate::proofs::Kept::refuses_lowest))]
    pub fn fire(&mut self, who: Who, comp: u32) -> Result<Entry, NetError>
        ensures fired { IfOk result (IsLowestFiring self.old who comp) }
        ensures adds { IfOk result (λ entry. Adds self.old entry self.new) }
        ensures on { IfOk result (IsOn self.old.wiring) }
        ensures cause { IfErr result (RefusesLowest self.old comp) }
        ensures err { OnErr result (self.new ≡ self.old) }
    {
        if comp == 0 || comp > self.core.comp_count() {
            return Err(NetError::NotEnabled);
        }
        match self.core.lowest(comp) {
            Some(port) => self.fire_at(who, comp, port),
            None => Err(NetError::NotEnabled),
        }
    }

    /// The component that is next to fire, from a number on.
    pub fn next_ready(&self, from: u32) -> Option<u32>
        ensures { MatchOption result (Rest self.now.wiring.sites self.now.state)
            (IsNext (CanStep self.now.wiring.sites self.now.state) from) }
    {
        self.core.next_ready(from)
    }

    /// Notes in the journal that no component can move.
    fn note_rest(&mut self, who: Who) -> Result<(), NetError>
        requires { Rest self.old.wiring.sites self.old.state }
        ensures adds { OnOk result (Adds self.old (Entry.Rested who) self.new) }
        ensures cause { IfErr result (RefusesEntry self.old) }
        ensures err { OnErr result (self.new ≡ self.old) }
    {
        self.admit()?;
        self.journal.push(Entry::Rested { who }).unwrap();
        Ok(())
    }

    /// Fires the next component at its lowest port, or notes that none can move.
    pub fn step(&mut self, who: Who, from: u32) -> Result<Entry, NetError>
        ensures picked { IfOk result (IsPicked self.old who from) }
        ensures adds { IfOk result (λ entry. Adds self.old entry self.new) }
        ensures cause { IfErr result (RefusesEntry self.old) }
        ensures err { OnErr result (self.new ≡ self.old) }
    {
        match self.next_ready(from) {
            Some(comp) => self.fire(who, comp),
            None => {
                self.note_rest(who)?;
                Ok(Entry::Rested { who })
            }
        }
    }

    /// Asks whether any component can move.
    pub fn rest(&mut self, who: Who) -> Result<RestReply, NetError>
        ensures ok { IfOk result (TellsRest self.old self.new who) }
        ensures resting { IfErr result (λ e. Rest self.old.wiring.sites self.old.state) }
        ensures cause { IfErr result (RefusesEntry self.old) }
        ensures err { OnErr result (self.new ≡ self.old) }
    {
        match self.next_ready(1) {
            Some(comp) => Ok(RestReply::Ready(comp)),
            None => {
                self.note_rest(who)?;
                Ok(RestReply::Rest)
            }
        }
    }

    /// Fires one component after another, each the next from the number after the last, until `fuel`
    /// firings are made or none can move.
    pub fn run(&mut self, who: Who, from: u32, fuel: u64) -> RunEnd
        ensures { Ran self.old self.new who from fuel result }
    {
        let mut next = from;
        for fired in 0..fuel {
            match self.step(who, next) {
                Ok(Entry::Fired { comp, .. }) => {
                    // A read of the net brings its bound on component numbers, so the sum fits.
                    let _ = &self.limit;
                    next = comp + 1;
                }
                Ok(_) => return RunEnd::Rest(fired),
                Err(e) => return RunEnd::Refused(fired, e),
            }
        }
        RunEnd::Spent(fuel)
    }

    /// The entries so far.
    pub fn journal(&self) -> &[Entry]
        ensures entries { result.now ≡ self.now.journal }
        ensures run { Run self.now.wiring (opening self.now.wiring) self.now.journal self.now.state }
        ensures unbroken { UnbrokenRun self.now.wiring (opening self.now.wiring) self.now.journal self.now.state }
        ensures within { length self.now.journal ≤ self.now.limit }
        ensures wired { WellWired self.now.wiring }
    {
        &self.journal
    }

    /// The components at which requests met so far, rising: each a Call, a CallMux or a CallDemux.
    pub fn clashes(&self) -> &[u32]
        ensures { AreClashed self.now.wiring self.now.journal result.now }
    {
        self.noted.as_slice()
    }

    /// The external ports and the channels of the net.
    pub fn names(&self) -> &Names
        ensures value { result.now ≡ outside self.now.wiring }
        ensures differ { NamesDiffer self.now.wiring.ports }
        ensures wired { WellWired self.now.wiring }
    {
        self.core.names()
    }

    /// The phase of a channel.
    pub fn phase(&self, chan: u32) -> Phase
        requires from { 0 < chan }
        requires to { chan ≤ length self.now.wiring.chans }
        ensures phase { result ≡ phase_at self.now.state chan }
        ensures kept { result ≢ Phase.Broken }
        ensures fits { FitsChan (chan_in self.now.wiring.chans chan) result }
    {
        self.core.phase(chan)
    }

    /// The components at the active and at the passive end of a channel, `None` where there is none.
    pub fn ends(&self, chan: u32) -> [Option<u32>; 2]
        requires from { 0 < chan }
        requires to { chan ≤ length self.now.wiring.chans }
        ensures { TellsEnds self.now.wiring.sites chan result }
    {
        self.core.ends(chan)
    }

    /// The port at which a component makes this move on a channel: it holds the active end where it asks or gets, the
    /// passive end where it takes or replies. `None` where the component holds no such end.
    pub fn port_at(&self, comp: u32, chan: u32, mv: Move) -> Option<u32>
        ensures end { TellsPort self.now.wiring.sites chan (answers mv) comp result }
        ensures sole { IsSolePort self.now.wiring.sites self.now.state comp chan mv result }
    {
        self.core.port_at(comp, chan, mv)
    }

    /// The number of the port that a host command names, or the first reason to refuse the command.
    pub fn port_of(&self, cmd: &HostCmd) -> Result<u32, NetError>
        ensures port { IfOk result (λ port. port_number self.now.wiring.ports cmd.now.port.items ≡ Some port) }
        ensures agreed { OnOk result (command_refusal self.now.wiring cmd.now.verb cmd.now.port.items cmd.now.value ≡ None) }
        ensures cause { IfErr result (λ e. command_refusal self.now.wiring cmd.now.verb cmd.now.port.items cmd.now.value ≡ Some e) }
    {
        self.core.port_of(cmd.verb, &cmd.port, cmd.value)
    }

    /// Whether a command at a port would be replied to by none of `Busy`, `NotYet` and `NotTaken`.
    pub fn would_answer(&self, verb: Verb, port: u32) -> bool
        ensures { result ≡ would_answer self.now.state verb port }
    {
        let (reply, _) = reply_to(verb, None, self.core.phase(port));
        match reply {
            Reply::Busy(_) | Reply::NotYet | Reply::NotTaken(_) => false,
            Reply::Done | Reply::Value(_) | Reply::Watched(_) => true,
        }
    }

    /// Makes room for the next `count` entries, or for as many as the limit still allows.
    pub fn reserve(&mut self, count: usize) -> Result<(), NetError>
        ensures ok { OnOk result (min count (self.old.limit - length self.old.journal) ≤ self.new.room) }
        ensures memory { IfErr result (λ e. e ≡ NetError.Memory) }
        ensures same { self.new ≡ record self.old { room = self.new.room } }
        ensures no_less { self.old.room ≤ self.new.room }
    {
        let most = self.limit - self.journal.len();
        match self.journal.reserve(count.min(most)) {
            Ok(()) => Ok(()),
            Err(_) => Err(NetError::Memory),
        }
    }

    /// Makes any one event.
    pub fn serve(&mut self, who: Who, event: Event<'_>) -> Result<Answer, NetError>
        ensures ok { IfOk result (Serves self.old self.new who event.entry) }
        ensures cause { IfErr result (Refuses self.old event.entry) }
        ensures err { OnErr result (self.new ≡ self.old) }
    {
        match event {
            Event::Move { comp, port } => Ok(Answer::Fired(self.fire_move(who, comp, port)?)),
            Event::Fire { comp } => Ok(Answer::Fired(self.fire(who, comp)?)),
            Event::Step { from } => match self.step(who, from)? {
                Entry::Rested { .. } => Ok(Answer::Rest(RestReply::Rest)),
                entry => Ok(Answer::Fired(entry)),
            },
            Event::Rest => Ok(Answer::Rest(self.rest(who)?)),
            Event::Host(cmd) => Ok(Answer::Host(self.host(who, cmd.verb, &cmd.port, cmd.value)?)),
        }
    }

    /// Makes one host command on the external port of this name.
    fn host(
        &mut self,
        who: Who,
        verb: Verb,
        name: &[u8],
        value: Option<Value>,
    ) -> Result<Reply, NetError>
        ensures replies { IfOk result (Replies self.old self.new who verb name.now value) }
        ensures cause { IfErr result (RefusesCommand self.old verb name.now value) }
        ensures err { OnErr result (self.new ≡ self.old) }
    {
        let port = self.core.port_of(verb, name, value)?;
        self.command_at(who, verb, port, value)
    }

    /// Makes one host command that is not refused at an external port.
    fn command_at(
        &mut self,
        who: Who,
        verb: Verb,
        port: u32,
        value: Option<Value>,
    ) -> Result<Reply, NetError>
        requires from { 0 < port }
        requires to { port ≤ length self.old.wiring.ports }
        requires agreed { refusal_at self.old.wiring verb port value ≡ None }
        ensures adds { IfOk result (λ reply. Adds self.old (Entry.Host who verb port value reply) self.new) }
        ensures cause { IfErr result (RefusesEntry self.old) }
        ensures err { OnErr result (self.new ≡ self.old) }
    {
        self.admit()?;
        let reply = self.core.command(verb, port, value);
        self.core.note_clash(port, &mut self.noted);
        self.journal
            .push(Entry::Host {
                who,
                verb,
                port,
                value,
                reply,
            })
            .unwrap();
        Ok(reply)
    }

    /// Makes one host command at the external port of this number.
    pub fn host_at(
        &mut self,
        who: Who,
        verb: Verb,
        port: u32,
        value: Option<Value>,
    ) -> Result<Reply, NetError>
        requires from { 0 < port }
        requires to { port ≤ length self.old.wiring.ports }
        ensures adds { IfOk result (λ reply. Adds self.old (Entry.Host who verb port value reply) self.new) }
        ensures cause { IfErr result (RefusesAt self.old verb port value) }
        ensures err { OnErr result (self.new ≡ self.old) }
    {
        if let Some(e) = refusal_of(self.core.names(), verb, port, value) {
            return Err(e);
        }
        self.command_at(who, verb, port, value)
    }

    /// Begins a handshake at a port declared passive.
    pub fn offer(&mut self, who: Who, port: &[u8], value: Option<Value>) -> Result<Reply, NetError>
        ensures replies { IfOk result (Replies self.old self.new who Verb.Offer port.now value) }
        ensures cause { IfErr result (RefusesCommand self.old Verb.Offer port.now value) }
        ensures err { OnErr result (self.new ≡ self.old) }
    {
        self.host(who, Verb::Offer, port, value)
    }

    /// Ends a handshake at a port declared passive.
    pub fn collect(&mut self, who: Who, port: &[u8]) -> Result<Reply, NetError>
        ensures replies { IfOk result (Replies self.old self.new who Verb.Collect port.now None) }
        ensures cause { IfErr result (RefusesCommand self.old Verb.Collect port.now None) }
        ensures err { OnErr result (self.new ≡ self.old) }
    {
        self.host(who, Verb::Collect, port, None)
    }

    /// Takes a request at a port declared active.
    pub fn accept(&mut self, who: Who, port: &[u8]) -> Result<Reply, NetError>
        ensures replies { IfOk result (Replies self.old self.new who Verb.Accept port.now None) }
        ensures cause { IfErr result (RefusesCommand self.old Verb.Accept port.now None) }
        ensures err { OnErr result (self.new ≡ self.old) }
    {
        self.host(who, Verb::Accept, port, None)
    }

    /// Acknowledges a request at a port declared active.
    pub fn answer(&mut self, who: Who, port: &[u8], value: Option<Value>) -> Result<Reply, NetError>
        ensures replies { IfOk result (Replies self.old self.new who Verb.Answer port.now value) }
        ensures cause { IfErr result (RefusesCommand self.old Verb.Answer port.now value) }
        ensures err { OnErr result (self.new ≡ self.old) }
    {
        self.host(who, Verb::Answer, port, value)
    }

    /// Reads the phase of a port.
    pub fn watch(&mut self, who: Who, port: &[u8]) -> Result<Reply, NetError>
        ensures replies { IfOk result (Replies self.old self.new who Verb.Watch port.now None) }
        ensures cause { IfErr result (RefusesCommand self.old Verb.Watch port.now None) }
        ensures err { OnErr result (self.new ≡ self.old) }
    {
        self.host(who, Verb::Watch, port, None)
    }
}
