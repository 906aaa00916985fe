//! A net that is played by hand, and how to go back in it.
//!
//! `undo` only notes how far to go back: the net is opened anew, and the journal's front made again, where it is next looked
//! at. So several `undo` are one replay. Where the picking was goes back too. Room for a mark is taken before a command is
//! carried out: without memory for it nothing changes. Where the journal is full before all moves are made, those that were
//! made stay, with their mark.

ghost use Rattle.std.specs.Prelude.{◌≡◌, ◌≢◌, ◌<◌, ◌≤◌, List, [], ◌∷◌, ◌++◌, None, length, IfOk, IfErr, IfSome, OnOk, OnErr};
ghost use Rattle.bz_model.specs.declared.event.Who.TheVariants as who;
ghost use Rattle.bz_model.specs.Nets.{State};
ghost use Rattle.bz_model.specs.Runs.{CanStep, Follows};
ghost use Rattle.bz_net.specs.Keeping.{MarksReady};
ghost use Rattle.bz_net.specs.Running.{Ran};
ghost use Rattle.bz_net.specs.Replies.{Replies, RefusesCommand};
ghost use Rattle.bz_net.specs.Simulation.{Adds, IsOpened};
ghost use Rattle.bz_explore_net.specs.Stepping.{IsBack, IsBegun, IsFiringOf, IsMark, IsMarked, Marked, RefusesFiringOf, added, goes_on};
ghost use Rattle.bz_explore_net.specs.Picking.{HasMembers, RanByChance, begun};
ghost use Rattle.bz_explore_net.specs.declared.stepping.Mark.{Mark};
ghost use Rattle.bz_model.specs.declared.event.Entry.{Entry};

use crate::chance::run_by_chance;
use crate::counted::CountedRow;
use crate::movers::{look_behind, movers_of};
use crate::picker::Picker;
use crate::replaying::replay;
use bz_flat::Flat;
use bz_model::{Entry, HostCmd, NetError, Reply, Value, Verb, Who};
use bz_net::{Answer, Event, Net, RunEnd};
use std::alloc::{AllocError, Global};
use std::marker::Model;

/// Who makes the firings.
const WORKER: Who = Who::Worker(1);

/// Who gives the host's commands.
const HOST: Who = Who::Host(1);

/// A command that added entries, and how all was before it.
#[derive(Drop)]
pub struct Mark {
    pub command: Vec<u8>,
    /// How many entries the journal had.
    pub entries: usize,
    pub next: u32,
    pub picker: Picker,
}

/// Why nothing is taken back.
#[derive(Clone, Copy, PartialEq, Eq)]
pub enum UndoError {
    /// There are fewer commands.
    TooFew,
    Memory,
}

/// A net that is played by hand.
pub struct Stepping {
    flat: Flat,
    net: Net,
    next: u32,
    picker: Picker,
    marks: Vec<Mark>,
    limit: u32,
    // The components that can move, where moves were picked by chance and nothing but words of the host came since.
    movers: Option<CountedRow>,
}

// Written by hand: callers then prove one drop instead of one for each field.
impl Drop for Stepping {
    fn drop(self) {
        let Stepping {
            flat: _,
            net: _,
            next: _,
            picker: _,
            marks: _,
            limit: _,
            movers: _,
        } = self;
    }
}

impl Model for Stepping {
    ghost use Rattle.std.specs.Prelude.{◌≡◌, ◌<◌, ◌≤◌};
    ghost use Rattle.std.specs.Coded.{codes};
    ghost use Rattle.bz_model.specs.Codes.{term_code};
    ghost use Rattle.std.specs.Prelude.{IfSome};
    ghost use Rattle.bz_net.specs.Keeping.{MarksReady};
    ghost use Rattle.bz_explore_net.specs.Stepping.{Played};

    ghost Value = { Played };

    ghost coded = { Prim.hlevel (codes, term_code) };

    ghost view = { λ c. record { net = c.net; next = c.next; picker = c.picker; marks = c.marks.items } };

    ghost invariant = { λ c. (c.net.wiring ≡ c.flat.wiring) × (c.net.limit ≡ c.limit) × (0 < c.limit) × (c.limit ≤ 16777216)
        × IfSome c.movers (MarksReady c.net.wiring c.net.state) };
}

impl Stepping {
    /// The net at its opening, with room for `limit` entries.
    pub fn open(alloc: Global, flat: Flat, limit: u32) -> Result<Stepping, NetError>
        requires least { 0 < limit }
        requires most { limit ≤ 16777216 }
        ensures opened { IfOk result (λ c. IsOpened flat.wiring limit c.net) }
        ensures next { IfOk result (λ c. c.next ≡ 1) }
        ensures picker { IfOk result (λ c. (c.picker.seed ≡ 0) × (c.picker.state ≡ begun 0)) }
        ensures marks { IfOk result (λ c. c.marks ≡ []) }
        ensures err { IfErr result (λ e. e ≡ NetError.Memory) }
    {
        let Ok(same) = flat.dup(alloc) else {
            return Err(NetError::Memory);
        };
        let net = Net::open(alloc, same, limit)?;
        Ok(Stepping {
            flat,
            net,
            next: 1,
            picker: Picker::new(0),
            marks: Vec::new(alloc),
            limit,
            movers: None,
        })
    }

    /// A net that was played already, all of whose entries are those of one command. The limit is that of its journal.
    pub fn behind(
        alloc: Global,
        flat: Flat,
        net: Net,
        limit: u32,
        command: &[u8],
    ) -> Result<Stepping, AllocError>
        requires wiring { net.wiring ≡ flat.wiring }
        requires limit { net.limit ≡ limit }
        requires least { 0 < limit }
        requires most { limit ≤ 16777216 }
        ensures net { IfOk result (λ c. c.net ≡ net) }
        ensures next { IfOk result (λ c. c.next ≡ 1) }
        ensures picker { IfOk result (λ c. (c.picker.seed ≡ 0) × (c.picker.state ≡ begun 0)) }
        ensures marks { IfOk result (λ c. IsBegun command.now c.marks) }
    {
        let picker = Picker::new(0);
        let mut marks = Vec::new(alloc);
        marks.push(Mark {
            command: Vec::from_slice(alloc, command)?,
            entries: 0,
            next: 1,
            picker,
        })?;
        Ok(Stepping {
            flat,
            net,
            next: 1,
            picker,
            marks,
            limit,
            movers: None,
        })
    }

    /// The flat net that it is one of.
    pub fn flat(&self) -> &Flat
        ensures { result.now.wiring ≡ self.now.net.wiring }
    {
        &self.flat
    }

    pub fn net(&self) -> &Net
        ensures { result.now ≡ self.now.net }
    {
        &self.net
    }

    /// The component from which on the next run looks for one that can move.
    pub fn next(&self) -> u32
        ensures { result ≡ self.now.next }
    {
        self.next
    }

    pub fn picker(&self) -> Picker
        ensures { result ≡ self.now.picker }
    {
        self.picker
    }

    /// The most entries that the journal may have.
    pub fn limit(&self) -> u32
        ensures { result ≡ self.now.net.limit }
    {
        self.limit
    }

    /// The commands that added entries.
    pub fn marks(&self) -> &[Mark]
        ensures { result.now ≡ self.now.marks }
    {
        self.marks.as_slice()
    }

    // How all is before a command.
    fn mark(&self, alloc: Global, command: &[u8]) -> Result<Mark, AllocError>
        ensures { IfOk result (IsMark self.now command.now) }
    {
        Ok(Mark {
            command: Vec::from_slice(alloc, command)?,
            entries: self.net.journal().len(),
            next: self.next,
            picker: self.picker,
        })
    }

    /// Takes back the last `count` commands that added entries.
    pub fn undo(&mut self, alloc: Global, count: usize) -> Result<(), UndoError>
        requires { 0 < count }
        ensures back { OnOk result ((mark : Mark) × IsBack self.old count mark self.new) }
        ensures few { IfErr result (λ e. e ≡ UndoError.TooFew → length self.old.marks < count) }
        ensures err { OnErr result (self.new ≡ self.old) }
    {
        let Some(left) = self.marks.len().checked_sub(count) else {
            return Err(UndoError::TooFew);
        };
        let (entries, next, picker) = {
            let mark = &self.marks[left];
            (mark.entries, mark.next, mark.picker)
        };
        let journal = self.net.journal();
        let front = &journal[..entries.min(journal.len())];
        let Ok(net) = replay(alloc, &self.flat, front, self.limit) else {
            return Err(UndoError::Memory);
        };
        self.movers = None;
        self.net = net;
        self.next = next;
        self.picker = picker;
        self.marks.truncate(left);
        Ok(())
    }

    /// Fires up to `fuel` times, going on where the last run ended.
    pub fn run(&mut self, alloc: Global, command: &[u8], fuel: u64) -> Result<RunEnd, AllocError>
        ensures ran { IfOk result (Ran self.old.net self.new.net (who.Worker 1) self.old.next fuel) }
        ensures next { IfOk result (λ end. self.new.next ≡ goes_on self.old.next (added self.old self.new)) }
        ensures marked { IfOk result (λ end. Marked self.old command.now self.new) }
        ensures picker { self.new.picker ≡ self.old.picker }
        ensures err { OnErr result (self.new ≡ self.old) }
    {
        let mark = self.mark(alloc, command)?;
        self.marks.reserve(1)?;
        self.movers = None;
        let end = self.net.run(WORKER, self.next, fuel);
        self.next = goes_on(self.next, &self.net.journal()[mark.entries..]);
        if self.net.journal().len() > mark.entries {
            self.marks.push(mark).unwrap();
        }
        Ok(end)
    }

    /// Fires up to `fuel` times more, as a part of the last command: it leaves no mark of its own.
    pub fn run_on(&mut self, fuel: u64) -> RunEnd
        ensures ran { Ran self.old.net self.new.net (who.Worker 1) self.old.next fuel result }
        ensures next { self.new.next ≡ goes_on self.old.next (added self.old self.new) }
        ensures marks { self.new.marks ≡ self.old.marks }
        ensures picker { self.new.picker ≡ self.old.picker }
    {
        let before = self.net.journal().len();
        self.movers = None;
        let ran = self.net.run(WORKER, self.next, fuel);
        self.next = goes_on(self.next, &self.net.journal()[before..]);
        ran
    }

    /// Makes a command of the host, as a part of the last command: it leaves no mark of its own.
    pub fn command_on(&mut self, cmd: &HostCmd) -> Result<Reply, NetError>
        ensures replies { IfOk result (Replies self.old.net self.new.net (who.Host 1) cmd.now.verb cmd.now.port.items cmd.now.value) }
        ensures marks { self.new.marks ≡ self.old.marks }
        ensures next { self.new.next ≡ self.old.next }
        ensures picker { self.new.picker ≡ self.old.picker }
        ensures cause { IfErr result (RefusesCommand self.old.net cmd.now.verb cmd.now.port.items cmd.now.value) }
        ensures err { OnErr result (self.new ≡ self.old) }
    {
        word(&mut self.net, &mut self.movers, cmd)
    }

    /// Fires a component at a port, or at the lowest at which it can move.
    pub fn fire(
        &mut self,
        alloc: Global,
        command: &[u8],
        comp: u32,
        port: Option<u32>,
    ) -> Result<(), NetError>
        ensures fired { OnOk result ((entry : Entry) × Adds self.old.net entry self.new.net × IsFiringOf self.old.net comp port entry) }
        ensures marked { OnOk result (IsMarked self.old command.now self.new) }
        ensures next { self.new.next ≡ self.old.next }
        ensures picker { self.new.picker ≡ self.old.picker }
        ensures cause { IfErr result (λ e. e ≢ NetError.Memory → RefusesFiringOf self.old.net comp port e) }
        ensures err { OnErr result (self.new ≡ self.old) }
    {
        let (Ok(mark), Ok(())) = (self.mark(alloc, command), self.marks.reserve(1)) else {
            return Err(NetError::Memory);
        };
        self.movers = None;
        match port {
            None => self.net.fire(WORKER, comp)?,
            Some(port) => self.net.fire_move(WORKER, comp, port)?,
        };
        self.marks.push(mark).unwrap();
        Ok(())
    }

    /// Makes a command of the host.
    pub fn command(
        &mut self,
        alloc: Global,
        command: &[u8],
        cmd: &HostCmd,
    ) -> Result<Reply, NetError>
        ensures replies { IfOk result (Replies self.old.net self.new.net (who.Host 1) cmd.now.verb cmd.now.port.items cmd.now.value) }
        ensures marked { OnOk result (IsMarked self.old command.now self.new) }
        ensures next { self.new.next ≡ self.old.next }
        ensures picker { self.new.picker ≡ self.old.picker }
        ensures cause { IfErr result (λ e. e ≢ NetError.Memory
            → RefusesCommand self.old.net cmd.now.verb cmd.now.port.items cmd.now.value e) }
        ensures err { OnErr result (self.new ≡ self.old) }
    {
        let (Ok(mark), Ok(())) = (self.mark(alloc, command), self.marks.reserve(1)) else {
            return Err(NetError::Memory);
        };
        let reply = word(&mut self.net, &mut self.movers, cmd)?;
        self.marks.push(mark).unwrap();
        Ok(reply)
    }

    /// Begins a command whose events are yet to come.
    pub fn begin(&mut self, alloc: Global, command: &[u8]) -> Result<(), AllocError>
        ensures marked { OnOk result (IsMarked self.old command.now self.new) }
        ensures net { self.new.net ≡ self.old.net }
        ensures next { self.new.next ≡ self.old.next }
        ensures picker { self.new.picker ≡ self.old.picker }
        ensures err { OnErr result (self.new ≡ self.old) }
    {
        let begun = self.mark(alloc, command)?;
        self.marks.reserve(1)?;
        self.marks.push(begun).unwrap();
        Ok(())
    }

    /// Makes the event of an entry, as a part of the last command, and answers the entry that it gave.
    pub fn repeat_on(&mut self, entry: Entry) -> Result<Entry, NetError>
        ensures adds { IfOk result (λ made. Adds self.old.net made self.new.net) }
        ensures marks { self.new.marks ≡ self.old.marks }
        ensures next { self.new.next ≡ self.old.next }
        ensures picker { self.new.picker ≡ self.old.picker }
        ensures err { OnErr result (self.new ≡ self.old) }
    {
        self.movers = None;
        make(&mut self.net, entry)
    }

    /// Lets the next run and the picking go on from elsewhere.
    pub fn go_on_from(&mut self, from: u32, picking: Picker)
        ensures net { self.new.net ≡ self.old.net }
        ensures marks { self.new.marks ≡ self.old.marks }
        ensures next { self.new.next ≡ from }
        ensures picker { self.new.picker ≡ picking }
    {
        self.next = from;
        self.picker = picking;
    }

    /// Begins the picking anew.
    pub fn seed(&mut self, seed: u64)
        ensures net { self.new.net ≡ self.old.net }
        ensures next { self.new.next ≡ self.old.next }
        ensures seed { self.new.picker.seed ≡ seed }
        ensures picker { self.new.picker.state ≡ begun seed }
        ensures marks { self.new.marks ≡ self.old.marks }
    {
        self.picker = Picker::new(seed);
    }

    /// Fires up to `count` moves that are picked by chance: a component that can move, and one of its moves.
    pub fn random(
        &mut self,
        alloc: Global,
        command: &[u8],
        count: u64,
    ) -> Result<RunEnd, AllocError>
        ensures ran { IfOk result (RanByChance self.old.net self.new.net (who.Worker 1) count self.old.picker.state self.new.picker.state) }
        ensures marked { IfOk result (λ end. Marked self.old command.now self.new) }
        ensures next { self.new.next ≡ self.old.next }
        ensures seed { self.new.picker.seed ≡ self.old.picker.seed }
        ensures err { OnErr result (self.new ≡ self.old) }
    {
        let mark = self.mark(alloc, command)?;
        self.marks.reserve(1)?;
        let mut movers = taken(&mut self.movers, alloc, &self.net)?;
        let end = run_by_chance(&mut self.net, WORKER, &mut self.picker, &mut movers, count);
        self.movers = Some(movers);
        if self.net.journal().len() > mark.entries {
            self.marks.push(mark).unwrap();
        }
        Ok(end)
    }

    /// How many components can move.
    pub fn count_movers(&mut self, alloc: Global) -> Result<u32, AllocError>
        ensures count { IfOk result (HasMembers (CanStep self.old.net.wiring.sites self.old.net.state)) }
        ensures same { self.new ≡ self.old }
    {
        let movers = taken(&mut self.movers, alloc, &self.net)?;
        let count = movers.count();
        self.movers = Some(movers);
        Ok(count)
    }
}

// The components that can move: those that were kept, or counted anew.
fn taken(kept: &mut Option<CountedRow>, alloc: Global, net: &Net) -> Result<CountedRow, AllocError>
    requires { IfSome kept.old (MarksReady net.now.wiring net.now.state) }
    ensures movers { IfOk result (MarksReady net.now.wiring net.now.state) }
    ensures none { kept.new ≡ None }
{
    match kept.take() {
        Some(movers) => Ok(movers),
        None => movers_of(alloc, net),
    }
}

// Makes a command of the host, and keeps what can move, where it is kept.
fn word(net: &mut Net, movers: &mut Option<CountedRow>, cmd: &HostCmd) -> Result<Reply, NetError>
    requires { IfSome movers.old (MarksReady net.old.wiring net.old.state) }
    ensures replies { IfOk result (Replies net.old net.new (who.Host 1) cmd.now.verb cmd.now.port.items cmd.now.value) }
    ensures cause { IfErr result (RefusesCommand net.old cmd.now.verb cmd.now.port.items cmd.now.value) }
    ensures err { OnErr result (net.new ≡ net.old) }
    ensures movers { IfSome movers.new (MarksReady net.new.wiring net.new.state) }
{
    let reply = match net.serve(HOST, Event::Host(cmd)) {
        Ok(Answer::Host(reply)) => reply,
        Ok(_) => unreachable!(),
        Err(error) => return Err(error),
    };
    if let (Some(movers), Some(entry)) = (movers, net.journal().last()) {
        look_behind(net, *entry, movers);
    }
    Ok(reply)
}

// Makes the event of an entry, and answers the entry that it gave.
fn make(net: &mut Net, entry: Entry) -> Result<Entry, NetError>
    ensures adds { IfOk result (λ made. Adds net.old made net.new) }
    ensures err { OnErr result (net.new ≡ net.old) }
{
    match entry {
        Entry::Fired {
            who,
            comp,
            port,
            ..
        } => net.fire_move(who, comp, port),
        Entry::Host {
            who,
            verb,
            port,
            value,
            ..
        } => make_word(net, who, verb, port, value),
        Entry::Rested { who } => net.step(who, 1),
    }
}

// Makes a word of the host at an external port, if there is one of this number.
fn make_word(
    net: &mut Net,
    who: Who,
    verb: Verb,
    port: u32,
    value: Option<Value>,
) -> Result<Entry, NetError>
    ensures adds { IfOk result (λ entry. Adds net.old entry net.new) }
    ensures err { OnErr result (net.new ≡ net.old) }
{
    if port == 0 || port as usize > net.names().ports().len() {
        return Err(NetError::UnknownPort);
    }
    let reply = net.host_at(who, verb, port, value)?;
    Ok(Entry::Host {
        who,
        verb,
        port,
        value,
        reply,
    })
}

// From which component on a run looks next, after these entries of one that looked from `from` on.
fn goes_on(from: u32, entries: &[Entry]) -> u32
    ensures { result ≡ goes_on from entries.now }
{
    let mut next = from;
    for entry in entries {
        next = after_entry(next, *entry);
    }
    next
}

fn after_entry(from: u32, entry: Entry) -> u32
    ensures { result ≡ goes_on from (entry ∷ []) }
{
    match entry {
        Entry::Fired { comp, .. } => comp.saturating_add(1),
        _ => from,
    }
}
