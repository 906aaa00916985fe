//! A bench that is played on a net.
//!
//! Without a seed the net runs to rest, and then the first port at which a word of its stream would be done gets it. With one,
//! each step is one of the components that can move or one of the words that would be done, each as likely as another. A play
//! ends with the first value that is not as due, or where it goes round. Nothing is claimed of what is picked, nor that a play
//! comes to an end in time: the verdict goes by the journal and the state alone.

ghost use Rattle.std.specs.Prelude.{◌≡◌, ◌<◌, ◌≤◌, IfOk, length};
ghost use Rattle.bz_cli_bench.specs.Verdicts.{Judges};
ghost use Rattle.bz_model.specs.Nets.{opening};
ghost use Rattle.bz_model.specs.Runs.{Run};

use crate::judging::{judge, next_word};
use crate::learning::{Came, add_value, no_values};
use crate::plan::Plan;
use crate::verdict::Verdict;
use crate::watching::Watch;
use bz_bench::{Item, Stream, Tally, fits, no_tallies, note};
use bz_explore_net::{CountedRow, Picker, Stepping, chan_of};
use bz_flat::Flat;
use bz_model::{ChanKind, Entry, HostCmd, NetError, Reply, Value, Verb, Who, numbered};
use bz_net::RunEnd;
use std::alloc::Global;

/// The most entries that the journal of a play may have.
const MAX_JOURNAL: u32 = 16_777_216;

/// So many firings are made without a look whether they go round.
const UNWATCHED: u64 = 1024;

/// What is mixed with a seed, so that what is picked between moves and words is not as what is picked among moves.
const MIXED: u64 = 0x9e37_79b9_7f4a_7c15;

/// A bench that was played: the net, what passed at each port, and the verdict.
pub struct Played {
    pub stepping: Stepping,
    pub tallies: Vec<Tally>,
    pub verdict: Verdict,
}

// By hand, so that who lets one go has one call to show and not all its parts.
impl Drop for Played {
    fn drop(self) {
        let Played {
            stepping: _,
            tallies: _,
            verdict: _,
        } = self;
    }
}

// A play that is under way.
struct Session<'p> {
    stepping: Stepping,
    plan: &'p Plan,
    tallies: Vec<Tally>,
    // The group of lines that has begun last.
    group: usize,
    // The ports with a word that would be done, and those at which the group is not done, by their numbers.
    words: CountedRow,
    short: CountedRow,
    // How many entries of the journal these are of.
    seen: usize,
    fuel: u64,
    // Where any value may come: those that came at each port.
    learnt: Option<Vec<Vec<Came>>>,
    watch: Watch,
}

impl Drop for Session<'_> {
    fn drop(self) {
        let Session {
            stepping: _,
            plan: _,
            tallies: _,
            group: _,
            words: _,
            short: _,
            seen: _,
            fuel: _,
            learnt: _,
            watch: _,
        } = self;
    }
}

/// Plays a bench on a net, with at most so many firings, and at most so many entries of the journal.
pub(crate) fn play(
    alloc: Global,
    flat: Flat,
    plan: &Plan,
    seed: Option<u64>,
    fuel: u64,
    journal: u32,
) -> Result<Played, NetError>
    requires streams { length plan.now.streams.items ≡ length flat.wiring.ports }
    requires least { 0 < journal }
    requires most { journal ≤ 16777216 }
    ensures wiring { IfOk result (λ p. p.stepping.net.wiring ≡ flat.wiring) }
    ensures run { IfOk result (λ p. Run flat.wiring (opening flat.wiring) p.stepping.net.journal p.stepping.net.state) }
    ensures judged { IfOk result (λ p.
        Judges flat.wiring p.stepping.net.state p.stepping.net.journal plan.now.streams.items plan.now.spins p.verdict) }
{
    let mut session = Session::open(alloc, flat, plan, fuel, journal)?;
    session.play_all(alloc, seed)?;
    session.judged(alloc)
}

/// Plays a bench on a net with any values in place of those that are due, and as many as come. Those that came at each port, if
/// all that is given has passed then and nothing moves.
pub(crate) fn learn(
    alloc: Global,
    flat: Flat,
    plan: &Plan,
    seed: Option<u64>,
    fuel: u64,
    journal: u32,
) -> Result<Option<Vec<Vec<Came>>>, NetError>
    requires least { 0 < journal }
    requires most { journal ≤ 16777216 }
{
    let mut session = Session::open(alloc, flat, plan, fuel, journal)?;
    session.learnt = Some(no_values(alloc, plan.streams.len())?);
    session.play_all(alloc, seed)?;
    Ok(session.take_learnt())
}

impl<'p> Session<'p> {
    fn open(
        alloc: Global,
        flat: Flat,
        plan: &'p Plan,
        fuel: u64,
        journal: u32,
    ) -> Result<Session<'p>, NetError>
        requires least { 0 < journal }
        requires most { journal ≤ 16777216 }
        ensures wiring { IfOk result (λ s. s.stepping.net.wiring ≡ flat.wiring) }
        ensures plan { IfOk result (λ s. s.plan.now ≡ plan.now) }
    {
        let stepping = Stepping::open(alloc, flat, journal)?;
        let ports = plan.streams.len();
        let numbers = ports.saturating_add(1);
        let Ok(words) = CountedRow::new(alloc, numbers) else {
            return Err(NetError::Memory);
        };
        let Ok(short) = CountedRow::new(alloc, numbers) else {
            return Err(NetError::Memory);
        };
        let Ok(tallies) = no_tallies(alloc, ports) else {
            return Err(NetError::Memory);
        };
        let Ok(watch) = Watch::new(alloc, ports) else {
            return Err(NetError::Memory);
        };
        Ok(Session {
            stepping,
            plan,
            tallies,
            group: 0,
            words,
            short,
            seen: 0,
            fuel,
            learnt: None,
            watch,
        })
    }

    fn judged(self, alloc: Global) -> Result<Played, NetError>
        requires { length self.plan.now.streams.items ≡ length self.stepping.net.wiring.ports }
        ensures net { IfOk result (λ p. p.stepping.net ≡ self.entry.stepping.net) }
        ensures run { IfOk result (λ p. Run self.entry.stepping.net.wiring (opening self.entry.stepping.net.wiring)
            p.stepping.net.journal p.stepping.net.state) }
        ensures judged { IfOk result (λ p. Judges self.entry.stepping.net.wiring
            p.stepping.net.state p.stepping.net.journal self.entry.plan.now.streams.items self.entry.plan.now.spins p.verdict) }
    {
        let Session {
            stepping,
            plan,
            tallies,
            group,
            words: _,
            short: _,
            seen: _,
            fuel: _,
            learnt: _,
            watch,
        } = self;
        let net = stepping.net();
        let _ = net.journal();
        match judge(alloc, stepping.flat(), net, plan, group, watch.again) {
            Ok(verdict) => Ok(Played {
                stepping,
                tallies,
                verdict,
            }),
            Err(_) => Err(NetError::Memory),
        }
    }

    // Takes what came at each port, if the play is at its end.
    fn take_learnt(&mut self) -> Option<Vec<Vec<Came>>> {
        self.look();
        if self.is_last() && self.is_over() {
            self.learnt.take()
        } else {
            None
        }
    }

    // Whether the last group of lines has begun.
    fn is_last(&self) -> bool {
        self.group.saturating_add(1) >= self.plan.groups.len()
    }

    // Whether all of the group is done, and nothing moves any more before the next one begins.
    fn is_over(&self) -> bool {
        self.is_done() && self.stepping.net().next_ready(1).is_none() && self.words.count() == 0
    }

    // Plays to the end: in order, or by chance from a seed.
    fn play_all(&mut self, alloc: Global, seed: Option<u64>) -> Result<(), NetError>
        ensures wiring { IfOk result (λ _. self.new.stepping.net.wiring ≡ self.old.stepping.net.wiring) }
        ensures plan { self.new.plan.now ≡ self.old.plan.now }
    {
        for place in 0..self.tallies.len() {
            self.look_at(port_of(place));
        }
        match seed {
            None => self.play_in_order(alloc),
            Some(seed) => self.play_by_chance(alloc, seed),
        }
    }

    // Plays to the end: at rest the first word that would be done is given.
    fn play_in_order(&mut self, alloc: Global) -> Result<(), NetError>
        ensures wiring { IfOk result (λ _. self.new.stepping.net.wiring ≡ self.old.stepping.net.wiring) }
        ensures plan { self.new.plan.now ≡ self.old.plan.now }
    {
        for _ in 0..=MAX_JOURNAL {
            if !self.runs_to_rest(alloc)? || !self.gives(alloc, 0)? {
                break;
            }
        }
        Ok(())
    }

    // Runs on to rest: whether it came there, and the play doesn't go round.
    fn runs_to_rest(&mut self, alloc: Global) -> Result<bool, NetError>
        ensures wiring { IfOk result (λ _. self.new.stepping.net.wiring ≡ self.old.stepping.net.wiring) }
        ensures plan { self.new.plan.now ≡ self.old.plan.now }
    {
        let mut stride = UNWATCHED;
        for _ in 0..=MAX_JOURNAL {
            let end = self.stepping.run_on(stride.min(self.fuel));
            if self.has_rested(end)? {
                return Ok(!self.watch.repeats || !self.goes_round(alloc));
            }
            if self.fuel == 0 || self.goes_round(alloc) {
                break;
            }
            stride = self.watch.rounds.stride();
        }
        Ok(false)
    }

    // Whether all goes on as it did before. By a seed that is so only where all that is counted has passed, and each port that
    // has a word now had one since.
    fn goes_round(&mut self, alloc: Global) -> bool
        ensures wiring { self.new.stepping.net.wiring ≡ self.old.stepping.net.wiring }
        ensures plan { self.new.plan.now ≡ self.old.plan.now }
    {
        let Some(from) = self.watch.rounds.look(alloc, &self.stepping) else {
            return false;
        };
        self.look();
        if self.watch.is_seeded && !self.is_served(from) {
            return false;
        }
        self.watch.again = Some(from);
        true
    }

    // Whether all that is counted has passed, and each port that has a word now had one after so many entries.
    fn is_served(&self, from: usize) -> bool {
        let mut words = 0..self.words.count();
        self.is_last()
            && self.is_done()
            && words.all(|before| match self.words.nth(before) {
                Some(port) => self.watch.last(port) > from,
                None => true,
            })
    }

    // Whether firings ended at rest.
    fn has_rested(&mut self, end: RunEnd) -> Result<bool, NetError>
        ensures wiring { self.new.stepping.net.wiring ≡ self.old.stepping.net.wiring }
        ensures plan { self.new.plan.now ≡ self.old.plan.now }
    {
        match end {
            RunEnd::Rest(fired) => {
                self.fuel = self.fuel.saturating_sub(fired);
                Ok(true)
            }
            RunEnd::Spent(fired) => {
                self.fuel = self.fuel.saturating_sub(fired);
                Ok(false)
            }
            RunEnd::Refused(_, NetError::Memory) => Err(NetError::Memory),
            RunEnd::Refused(_, _) => {
                self.fuel = 0;
                Ok(false)
            }
        }
    }

    // Plays to the end: each step is a move or a word that is picked.
    fn play_by_chance(&mut self, alloc: Global, seed: u64) -> Result<(), NetError>
        ensures wiring { IfOk result (λ _. self.new.stepping.net.wiring ≡ self.old.stepping.net.wiring) }
        ensures plan { self.new.plan.now ≡ self.old.plan.now }
    {
        self.stepping.seed(seed);
        self.watch.is_seeded = true;
        let mut chooser = Picker::new(seed ^ MIXED);
        for _ in 0..=MAX_JOURNAL {
            if !self.steps(alloc, &mut chooser)? {
                break;
            }
        }
        Ok(())
    }

    // One move or one word that is picked: whether the play goes on.
    fn steps(&mut self, alloc: Global, chooser: &mut Picker) -> Result<bool, NetError>
        ensures wiring { IfOk result (λ _. self.new.stepping.net.wiring ≡ self.old.stepping.net.wiring) }
        ensures plan { self.new.plan.now ≡ self.old.plan.now }
    {
        self.begin_groups();
        let Ok(moves) = self.stepping.count_movers(alloc) else {
            return Err(NetError::Memory);
        };
        if moves == 0 && self.watch.repeats && self.goes_round(alloc) {
            return Ok(false);
        }
        let choices = moves.saturating_add(self.words.count());
        if choices == 0 {
            self.runs_to_rest(alloc)?;
            return Ok(false);
        }
        let picked = chooser.pick(choices);
        if picked < moves {
            self.moves(alloc)
        } else {
            self.gives(alloc, picked - moves)
        }
    }

    // One move that is picked: whether there is fuel for more.
    fn moves(&mut self, alloc: Global) -> Result<bool, NetError>
        ensures wiring { IfOk result (λ _. self.new.stepping.net.wiring ≡ self.old.stepping.net.wiring) }
        ensures plan { self.new.plan.now ≡ self.old.plan.now }
    {
        let Ok(end) = self.stepping.random(alloc, &[], self.fuel.min(1)) else {
            return Err(NetError::Memory);
        };
        self.has_rested(end)?;
        Ok(self.fuel > 0)
    }

    // What is to pass at a port, and what has passed there.
    fn stream_at(&self, port: u32) -> Option<(&Stream, &Tally)> {
        match (
            numbered(&self.plan.streams, port),
            numbered(&self.tallies, port),
        ) {
            (Some(stream), Some(tally)) => Some((stream, tally)),
            _ => None,
        }
    }

    // The word of a port that would be done.
    fn word_at(&self, port: u32) -> Option<Verb> {
        let Some((stream, tally)) = self.stream_at(port) else {
            return None;
        };
        if self.hears(port) {
            self.word_heard(port, stream)
        } else {
            next_word(self.stepping.net(), port, stream, tally, self.group)
        }
    }

    // Whether any value that the net asks with may come at a port.
    fn hears(&self, port: u32) -> bool {
        if self.learnt.is_none() {
            return false;
        }
        let names = self.stepping.net().names();
        match names.chan(port) {
            Some(chan) => {
                matches!(chan.kind, ChanKind::Push) && matches!(names.passive(port), Some(false))
            }
            None => false,
        }
    }

    // The word of such a port that would be done: it may begin in the groups in which the port has a line, and after them.
    fn word_heard(&self, port: u32, stream: &Stream) -> Option<Verb> {
        let net = self.stepping.net();
        if stream.is_open(self.group) && net.would_answer(Verb::Accept, port) {
            return Some(Verb::Accept);
        }
        if net.would_answer(Verb::Answer, port) {
            return Some(Verb::Answer);
        }
        None
    }

    // Begins the next group of lines where all of one is done. Where any value may come, nothing moves any more then.
    fn begin_groups(&mut self)
        ensures wiring { self.new.stepping.net.wiring ≡ self.old.stepping.net.wiring }
        ensures plan { self.new.plan.now ≡ self.old.plan.now }
    {
        self.look();
        for group in self.group..self.plan.groups.len().saturating_sub(1) {
            let is_done = match self.learnt {
                None => self.is_done(),
                Some(_) => self.is_over(),
            };
            if !is_done {
                break;
            }
            self.group = group.saturating_add(1);
            self.look_at_group(group);
            self.look_at_group(self.group);
        }
    }

    // Looks again at the ports at which something has moved.
    fn look(&mut self)
        ensures wiring { self.new.stepping.net.wiring ≡ self.old.stepping.net.wiring }
        ensures plan { self.new.plan.now ≡ self.old.plan.now }
    {
        for place in self.seen..self.stepping.net().journal().len() {
            if let Some(port) = self.port_in(place) {
                self.look_at(port);
            }
        }
        self.seen = self.stepping.net().journal().len();
    }

    // The channel at which the entry at a place moves something.
    fn port_in(&self, place: usize) -> Option<u32> {
        match self.stepping.net().journal().get(place) {
            Some(entry) => chan_of(*entry),
            None => None,
        }
    }

    // Looks again at the ports with a line in a group.
    fn look_at_group(&mut self, group: usize)
        ensures wiring { self.new.stepping.net.wiring ≡ self.old.stepping.net.wiring }
        ensures plan { self.new.plan.now ≡ self.old.plan.now }
    {
        let plan = self.plan;
        if let Some(ports) = plan.groups.get(group) {
            for port in ports {
                self.look_at(*port);
            }
        }
    }

    // Looks whether a port has a word that would be done, and whether the group is done there.
    fn look_at(&mut self, port: u32)
        ensures wiring { self.new.stepping.net.wiring ≡ self.old.stepping.net.wiring }
        ensures plan { self.new.plan.now ≡ self.old.plan.now }
    {
        let Some((stream, tally)) = self.stream_at(port) else {
            return;
        };
        let is_short = !stream.is_done(self.group, tally) && !self.hears(port);
        self.short.set(port as usize, is_short);
        let has_word = self.word_at(port).is_some();
        self.words.set(port as usize, has_word);
    }

    // Whether all of the group is done.
    fn is_done(&self) -> bool {
        self.short.count() == 0
    }

    // Gives the word that would be done after so many others, by the order of ports: whether there is one and what came is due.
    fn gives(&mut self, alloc: Global, before: u32) -> Result<bool, NetError>
        ensures wiring { IfOk result (λ _. self.new.stepping.net.wiring ≡ self.old.stepping.net.wiring) }
        ensures plan { self.new.plan.now ≡ self.old.plan.now }
    {
        self.begin_groups();
        match self.nth_word(before) {
            Some((port, verb)) => self.gives_at(alloc, port, verb),
            None => Ok(false),
        }
    }

    // The word that would be done after so many others, by the order of ports.
    fn nth_word(&self, before: u32) -> Option<(u32, Verb)> {
        let Some(port) = self.words.nth(before) else {
            return None;
        };
        match self.word_at(port) {
            Some(verb) => Some((port, verb)),
            None => None,
        }
    }

    // Gives a word at a port: whether it was done, and what came is due.
    fn gives_at(&mut self, alloc: Global, port: u32, verb: Verb) -> Result<bool, NetError>
        ensures wiring { IfOk result (λ _. self.new.stepping.net.wiring ≡ self.old.stepping.net.wiring) }
        ensures plan { self.new.plan.now ≡ self.old.plan.now }
    {
        let item = self.item_of(port, verb);
        let name = self.stepping.net().names().name(port).unwrap_or(&[]);
        let Ok(name) = Vec::from_slice(alloc, name) else {
            return Err(NetError::Memory);
        };
        let value = self.value_of(port, verb, item);
        let cmd = HostCmd {
            verb,
            port: name,
            value,
        };
        match self.stepping.command_on(&cmd) {
            Ok(reply) => self.has_come(port, verb, item, value, reply),
            Err(NetError::Memory) => Err(NetError::Memory),
            Err(_) => Ok(false),
        }
    }

    // Notes a word that was given: whether what came is due.
    fn has_come(
        &mut self,
        port: u32,
        verb: Verb,
        item: Option<Item>,
        value: Option<Value>,
        reply: Reply,
    ) -> Result<bool, NetError>
        ensures wiring { self.new.stepping.net.wiring ≡ self.old.stepping.net.wiring }
        ensures plan { self.new.plan.now ≡ self.old.plan.now }
    {
        let entry = Entry::Host {
            who: Who::Host(1),
            verb,
            port,
            value,
            reply,
        };
        if note(&mut self.tallies, entry).is_err() {
            return Err(NetError::Memory);
        }
        let entries = self.stepping.net().journal().len();
        let is_counted = self.is_counted(port);
        self.watch.note(port, is_counted, entries);
        match reply {
            Reply::Value(came) => self.takes(port, item, came),
            _ => Ok(true),
        }
    }

    // Whether what began last at a port is counted, and none of what passes as often as it is asked for.
    fn is_counted(&self, port: u32) -> bool {
        match self.stream_at(port) {
            Some((stream, tally)) => tally.begun.len() <= stream.items.len(),
            None => false,
        }
    }

    // Takes a value that came: whether it is due, or any may come.
    fn takes(&mut self, port: u32, item: Option<Item>, value: Value) -> Result<bool, NetError>
        ensures wiring { self.new.stepping.net.wiring ≡ self.old.stepping.net.wiring }
        ensures plan { self.new.plan.now ≡ self.old.plan.now }
    {
        let group = self.group;
        match &mut self.learnt {
            None => Ok(fits(item, Some(value))),
            Some(learnt) => match add_value(learnt, port, Came { group, value }) {
                Ok(()) => Ok(true),
                Err(_) => Err(NetError::Memory),
            },
        }
    }

    // The item that a word at a port is about.
    fn item_of(&self, port: u32, verb: Verb) -> Option<Item> {
        let Some((stream, tally)) = self.stream_at(port) else {
            return None;
        };
        match verb {
            Verb::Offer | Verb::Accept => stream.item_at(tally.begun.len()),
            _ => stream.item_at(tally.ended.len()),
        }
    }

    // The value that a word at a port brings.
    fn value_of(&self, port: u32, verb: Verb, item: Option<Item>) -> Option<Value> {
        match (self.stepping.net().names().chan(port), item) {
            (Some(chan), Some(Item::Value(value))) if verb.wants_value(chan.kind) => Some(value),
            _ => None,
        }
    }
}

/// The number of the port at a place.
pub(crate) fn port_of(place: usize) -> u32 {
    u32::try_from(place).unwrap_or(u32::MAX).saturating_add(1)
}
