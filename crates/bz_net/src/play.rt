//! A net that keeps no journal: the entries of its events go to whoever plays it.

ghost use Rattle.std.specs.Prelude.{◌≡◌, ◌⊎◌, ◌≤◌, ◌<◌, ℕ, suc, length, [], ◌∷◌, ◌++◌, None, false, true, IfOk, IfErr, IfSome, IfNone, IsTrue, OnErr, List};
ghost use Rattle.std.specs.List.Sorted.{IsStrictlyIncreasing};
ghost use Rattle.bz_model.specs.declared.event.Entry.{Entry};
ghost use Rattle.bz_model.specs.declared.event.Reply.{Reply};
ghost use Rattle.bz_model.specs.Hosts.{refusal_at};
ghost use Rattle.bz_model.specs.Names.{NamesDiffer};
ghost use Rattle.bz_model.specs.Nets.{opening, outside};
ghost use Rattle.bz_model.specs.Runs.{Rest};
ghost use Rattle.bz_flat.specs.Wires.{WellWired};
ghost use Rattle.bz_net.specs.Due.{GivesAsSteps, HasStep, LeadsOnlyTo};
ghost use Rattle.bz_net.specs.Foretelling.{IsForetold};
ghost use Rattle.bz_net.specs.Progress.{Enters, EntersRest, FiresAt, IsOneOf, IsToldBy, LeadsOn, PlaysWell, RefusesAt, with_journal};
ghost use Rattle.bz_net.specs.Replies.{IsPicked, RefusesCommand, RefusesEntry, Replies};
ghost use Rattle.bz_net.specs.Told.{MayMove};

use crate::core_net::Core;
use crate::event::RestReply;
use crate::foretelling::Foretold;
use crate::moves::refusal_of;
use crate::noted::Noted;
use bz_flat::Flat;
use bz_kinds::held;
use bz_model::{Entry, HostCmd, Move, Names, NetError, Reply, Value, Verb, Who};
use std::alloc::{AllocError, Global};
use std::marker::Model;

/// A net with the components at which requests met, and how many entries are still let in. After its opening it takes no
/// memory.
pub struct Play {
    core: Core,
    noted: Noted,
    left: u32,
}

impl Drop for Play {
    fn drop(self) {
        let Play {
            core: _,
            noted: _,
            left: _,
        } = self;
    }
}

impl Model for Play {
    ghost use Rattle.bz_net.specs.Progress.{Progress};
    ghost use Rattle.bz_model.specs.Codes.{term_code};
    ghost use Rattle.std.specs.Coded.{codes};

    ghost Value = { Progress };

    ghost coded = { Prim.hlevel (codes, term_code) };

    ghost view = { λ n. record {
      wiring = n.core.wiring;
      state = n.core.state;
      clashed = n.noted.numbers;
      left = n.left;
      listed = n.noted.current;
    } };

    ghost use Rattle.bz_net.specs.Progress.{PlaysWell};

    ghost invariant = { λ n. PlaysWell n.core.wiring n.core.state n.noted };
}

impl Play {
    /// Opens a net that lets in `limit` entries: all channels are idle, and each component is at its start. Where memory is
    /// refused, the flat net is gone.
    pub fn open(alloc: Global, flat: Flat, limit: u32) -> Result<Play, NetError>
        ensures wiring { IfOk result (λ play. play.wiring ≡ flat.wiring) }
        ensures left { IfOk result (λ play. play.left ≡ limit) }
        ensures told { IfOk result (λ play. IsToldBy play []) }
        ensures err { IfErr result (λ e. e ≡ NetError.Memory) }
    {
        let core = Core::open(alloc, flat)?;
        Play::of(alloc, core, limit)
    }

    // A core at its opening, with nothing noted yet.
    fn of(alloc: Global, core: Core, limit: u32) -> Result<Play, NetError>
        requires opened { core.state ≡ opening core.wiring }
        requires wired { WellWired core.wiring }
        ensures wiring { IfOk result (λ play. play.wiring ≡ core.wiring) }
        ensures left { IfOk result (λ play. play.left ≡ limit) }
        ensures told { IfOk result (λ play. IsToldBy play []) }
        ensures err { IfErr result (λ e. e ≡ NetError.Memory) }
    {
        match Noted::flagged(alloc, core.comp_count()) {
            Ok(noted) => Ok(Play {
                core,
                noted,
                left: limit,
            }),
            Err(_) => Err(NetError::Memory),
        }
    }

    /// The same net at its opening, as `open` has it, which lets in `limit` entries. Its components stay where they lie, so it takes
    /// little memory. Where that is refused, the net is gone.
    pub fn reopen(self, alloc: Global, limit: u32) -> Result<Play, NetError>
        ensures wiring { IfOk result (λ play. play.wiring ≡ self.wiring) }
        ensures left { IfOk result (λ play. play.left ≡ limit) }
        ensures told { IfOk result (λ play. IsToldBy play []) }
        ensures err { IfErr result (λ e. e ≡ NetError.Memory) }
    {
        let Play {
            core,
            noted: _,
            left: _,
        } = self;
        let core = core.reopen(alloc)?;
        Play::of(alloc, core, limit)
    }

    /// The net in its state.
    pub fn core(&self) -> &Core
        ensures wiring { result.now.wiring ≡ self.now.wiring }
        ensures state { result.now.state ≡ self.now.state }
    {
        &self.core
    }

    /// The flat net, whose names and channels are copied. Where memory is refused, it is gone.
    pub fn into_flat(self, alloc: Global) -> Result<Flat, AllocError>
        ensures { IfOk result (λ flat. flat.wiring ≡ self.wiring) }
    {
        let Play {
            core,
            noted: _,
            left: _,
        } = self;
        core.into_flat(alloc)
    }

    /// The net in its state, and the components at which requests met.
    pub(crate) fn into_parts(self) -> (Core, Noted)
        ensures core { (result.0.wiring ≡ self.wiring) × (result.0.state ≡ self.state) }
        ensures noted { result.1.numbers ≡ self.clashed }
        ensures keeps { PlaysWell self.wiring self.state result.1 }
    {
        let Play {
            core,
            noted,
            left: _,
        } = self;
        (core, noted)
    }

    /// The external ports and the channels of the net.
    pub fn names(&self) -> &Names
        ensures value { result.now ≡ outside self.now.wiring }
        ensures differ { NamesDiffer self.now.wiring.ports }
        ensures wired { WellWired self.now.wiring }
    {
        self.core.names()
    }

    /// Lists the components at which requests met so far, where some did since they were listed. It takes no memory.
    pub fn list_clashes(&mut self)
        ensures { self.new ≡ record self.old { listed = true } }
    {
        self.noted.list();
    }

    /// The components at which requests met so far, rising: each a Call, a CallMux or a CallDemux.
    pub fn clashes(&self) -> &[u32]
        requires { self.now.listed ≡ true }
        ensures clashed { result.now ≡ self.now.clashed }
        ensures rising { IsStrictlyIncreasing self.now.clashed }
    {
        self.noted.as_slice()
    }

    /// Makes one host command, whose entry it answers.
    #[tactic(auto, using(crate::proofs::Hosts::refuses))]
    pub fn command(&mut self, who: Who, cmd: &HostCmd) -> Result<Entry, NetError>
        ensures replies { IfOk result (λ entry. (reply : Reply) × ((journal : List Entry) →
            Replies (with_journal self.old journal) (with_journal self.new (journal ++ entry ∷ []))
            who cmd.now.verb cmd.now.port.items cmd.now.value reply)) }
        ensures leads { IfOk result (λ entry. LeadsOn self.old (entry ∷ []) self.new) }
        ensures cause { IfErr result (λ e. (journal : List Entry) →
            RefusesCommand (with_journal self.old journal) cmd.now.verb cmd.now.port.items cmd.now.value e) }
        ensures err { OnErr result (self.new ≡ self.old) }
    {
        let port = self.core.port_of(cmd.verb, &cmd.port, cmd.value)?;
        match self.command_at(who, cmd.verb, port, cmd.value) {
            Some(entry) => Ok(entry),
            None => Err(NetError::JournalFull),
        }
    }

    /// Makes one host command that is not refused at an external port. `None` where no more entry is let in.
    fn command_at(&mut self, who: Who, verb: Verb, port: u32, value: Option<Value>) -> Option<Entry>
        requires from { 0 < port }
        requires to { port ≤ length self.old.wiring.ports }
        requires agreed { refusal_at self.old.wiring verb port value ≡ None }
        ensures made { IfSome result (λ entry. (reply : Reply) × (entry ≡ Entry.Host who verb port value reply)) }
        ensures enters { IfSome result (λ entry. Enters self.old entry self.new) }
        ensures full { IfNone result ((self.new ≡ self.old) × (self.old.left ≡ 0)) }
    {
        if self.left == 0 {
            return None;
        }
        self.left -= 1;
        let reply = self.core.command(verb, port, value);
        self.core.note_clash(port, &mut self.noted);
        Some(Entry::Host {
            who,
            verb,
            port,
            value,
            reply,
        })
    }

    /// Fires the next component behind this number, which is that of a component or 0, at its lowest port, or finds that none can
    /// move; one more entry is let in. The number is as wide as a place in a row, so that it need not be widened at each move. `room`
    /// is for the value that a move carries: who makes many moves has one room for all.
    #[inline(always)]
    pub fn step_after(&mut self, who: Who, last: usize, room: &mut Value) -> Entry
        requires place { 0 < self.old.left }
        requires from { last ≤ length self.old.wiring.sites }
        ensures picked { IsPicked (with_journal self.old []) who (suc last) result }
        ensures enters { Enters self.old result self.new }
        ensures within { IsOneOf (length self.old.wiring.sites) result }
    {
        let comp = match self.core.next_after(last) {
            Some(comp) => comp,
            None => match self.core.next_past(last) {
                Some(comp) => comp,
                None => {
                    self.left -= 1;
                    return Entry::Rested { who };
                }
            },
        };
        self.fire(who, comp, None, room)
    }

    /// How many entries are still let in.
    #[inline(always)]
    pub fn left(&self) -> u64
        ensures { result ≡ self.now.left }
    {
        u64::from(self.left)
    }

    /// Fires the move of a component at the port that is given, or else at the lowest where it can move.
    #[inline(always)]
    fn fire(&mut self, who: Who, comp: u32, at: Option<u32>, room: &mut Value) -> Entry
        requires may { MayMove self.old.wiring.sites self.old.state comp at }
        requires place { 0 < self.old.left }
        ensures fired { FiresAt self.old self.new who comp at result }
        ensures enters { Enters self.old result self.new }
    {
        self.left -= 1;
        let (chan, mv, carries, port) = self.core.fire(comp, at, room);
        self.core.note_move(chan, mv, &mut self.noted);
        Entry::Fired {
            who,
            comp,
            port,
            chan,
            mv,
            value: held(carries, *room),
        }
    }

    /// Fires a component by this move on this channel, where its step there carries this value: the port. `None` where it has
    /// no such step, or no more entry is let in: then nothing changes. A value is given where the move carries one.
    #[inline(always)]
    pub fn fire_on(
        &mut self,
        who: Who,
        comp: u32,
        chan: u32,
        mv: Move,
        value: Option<Value>,
    ) -> Option<u32>
        requires { GivesAsSteps self.old.wiring.sites self.old.state comp chan mv value }
        ensures enters { IfSome result (λ port. Enters self.old (Entry.Fired who comp port chan mv value) self.new) }
        ensures sole { IfSome result (λ _. LeadsOnlyTo self.old.wiring.sites self.old.state comp chan mv self.new.state) }
        ensures none { IfNone result ((self.new ≡ self.old) × ((self.old.left ≡ 0)
            ⊎ ((port : ℕ) → HasStep self.old.wiring.sites self.old.state comp port chan mv value → ⊥))) }
    {
        let Some(port) = self.core.port_at(comp, chan, mv) else {
            return None;
        };
        if self.left == 0 {
            return None;
        }
        if !self.core.has_step(comp, port, chan, mv, value) {
            return None;
        }
        self.fire(who, comp, Some(port), &mut 0);
        Some(port)
    }

    /// Makes the step that was foretold, where it carries this value and one more entry is let in; else nothing changes. A value
    /// is given where the move carries one.
    #[inline(always)]
    pub fn fire_foretold(&mut self, who: Who, told: Foretold, value: Option<Value>) -> bool
        requires foretold { IsForetold self.old.wiring.sites self.old.state told }
        requires given { GivesAsSteps self.old.wiring.sites self.old.state told.comp told.chan told.mv value }
        ensures enters { IsTrue result → Enters self.old (Entry.Fired who told.comp told.port told.chan told.mv value) self.new }
        ensures sole { IsTrue result → LeadsOnlyTo self.old.wiring.sites self.old.state told.comp told.chan told.mv self.new.state }
        ensures none { result ≡ false → self.new ≡ self.old }
    {
        if self.left == 0 {
            return false;
        }
        if !self.core.carries(told, value) {
            return false;
        }
        self.fire(who, told.comp, Some(told.port), &mut 0);
        true
    }

    /// Asks whether any component can move.
    pub fn rest(&mut self, who: Who) -> Result<RestReply, NetError>
        ensures ok { IfOk result (EntersRest self.old self.new who) }
        ensures resting { IfErr result (λ e. Rest self.old.wiring.sites self.old.state) }
        ensures cause { IfErr result (λ e. (journal : List Entry) → RefusesEntry (with_journal self.old journal) e) }
        ensures err { OnErr result (self.new ≡ self.old) }
    {
        if let Some(comp) = self.core.next_ready(1) {
            return Ok(RestReply::Ready(comp));
        }
        if self.left == 0 {
            return Err(NetError::JournalFull);
        }
        self.left -= 1;
        Ok(RestReply::Rest)
    }

    /// Makes one host command at the external port of this number.
    pub fn host_at(
        &mut self,
        who: Who,
        verb: Verb,
        port: u32,
        value: Option<Value>,
    ) -> Result<Reply, NetError>
        requires from { 0 < port }
        requires to { port ≤ length self.old.wiring.ports }
        ensures enters { IfOk result (λ reply. Enters self.old (Entry.Host who verb port value reply) self.new) }
        ensures cause { IfErr result (RefusesAt self.old verb port value) }
        ensures err { OnErr result (self.new ≡ self.old) }
    {
        if let Some(e) = refusal_of(self.core.names(), verb, port, value) {
            return Err(e);
        }
        match self.command_at(who, verb, port, value) {
            Some(Entry::Host { reply, .. }) => Ok(reply),
            _ => Err(NetError::JournalFull),
        }
    }
}
