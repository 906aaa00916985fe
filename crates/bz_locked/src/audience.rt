//! Whom of those that wait a call concerns.

ghost use Rattle.std.specs.Prelude.{◌≡◌, ◌≤◌, length, MatchBool, MatchResult};
ghost use Rattle.bz_locked.specs.Audiences.{is_left, Concerns, ConcernsAnswered, GivesWork, IsOver, MarksAnswered, MarksAt, MarksOthers, WakesAll, WakesAtEnd, WakesNobody};

use crate::ledger::NetLedger;
use crate::locked::{FireError, Fired, Locked, Polled, Work};
use bz_model::{Entry, NetError, Reply};
use bz_net::{Net, RestReply};
use bz_past::Standing;
use std::sync::ledger::Ledger;

/// The most sessions of a shared net.
pub const MAX_SESSIONS: usize = 16;

/// Who is woken of those that wait: the sessions at some places, and the workers.
#[derive(Clone, Copy)]
pub struct Audience {
    pub sessions: [bool; MAX_SESSIONS],
    pub workers: bool,
}

impl Audience {
    pub const ALL: Audience = Audience {
        sessions: [true; MAX_SESSIONS],
        workers: true,
    };

    pub const NOBODY: Audience = Audience {
        sessions: [false; MAX_SESSIONS],
        workers: false,
    };

    /// Whom it concerns that a worker asked for the next component: where rest has no place in the journal, all was stopped.
    pub fn of_rest(answered: Result<(RestReply, u64), NetError>) -> Audience
        ensures { MatchResult answered (λ _. WakesNobody result) (λ _. WakesAll result) }
    {
        match answered {
            Ok(_) => Audience::NOBODY,
            Err(_) => Audience::ALL,
        }
    }
}

/// Whether a session gets no answer at this channel.
fn is_left(net: &Net, standing: Standing, chan: u32) -> bool
    ensures { result ≡ is_left net.now.state chan standing }
{
    match standing {
        Standing::Waiting(verb, port) => port != chan || !net.would_answer(verb, port),
        Standing::Running | Standing::Ended => true,
    }
}

/// At which places a session would get an answer at this channel.
fn answered_among(net: &Net, sessions: &[Standing], chan: u32) -> [bool; MAX_SESSIONS]
    requires few { length sessions.now ≤ 16 }
    ensures { MarksOthers (is_left net.now.state chan) sessions.now result }
{
    let mut answered = [false; MAX_SESSIONS];
    for place in 0..sessions.len() {
        answered[place] = !is_left(net, sessions[place], chan);
    }
    answered
}

/// The same, where sessions wait at external channels alone.
fn answered_at(net: &Net, sessions: &[Standing], chan: u32) -> [bool; MAX_SESSIONS]
    requires few { length sessions.now ≤ 16 }
    ensures { MarksAt net.now sessions.now chan result }
{
    if chan as usize <= net.names().ports().len() {
        answered_among(net, sessions, chan)
    } else {
        [false; MAX_SESSIONS]
    }
}

/// The places of the sessions to which an entry may give their answer.
fn answered_by(net: &Net, sessions: &[Standing], entry: &Entry) -> [bool; MAX_SESSIONS]
    requires few { length sessions.now ≤ 16 }
    ensures { MarksAnswered net.now sessions.now entry.now result }
{
    match entry {
        Entry::Fired { chan, .. } => answered_at(net, sessions, *chan),
        Entry::Host { port, .. } => answered_at(net, sessions, *port),
        Entry::Rested { .. } => [false; MAX_SESSIONS],
    }
}

/// Whether an entry wakes workers: a command does where a component can move. After a firing its own worker goes on with that.
fn gives_work(net: &Net, entry: &Entry) -> bool
    ensures { GivesWork net.now entry.now result }
{
    match entry {
        Entry::Host { .. } => net.next_ready(1).is_some(),
        Entry::Fired { .. } | Entry::Rested { .. } => false,
    }
}

impl<L: NetLedger> Locked<L> {
    /// Whether those who wait are told that all was stopped, or that the net rests or is spent.
    fn is_over(&self) -> bool
        ensures { MatchBool result
            (IsOver self.now.net self.now.fuel self.now.stopped self.now.sessions.items)
            (IsOver self.now.net self.now.fuel self.now.stopped self.now.sessions.items → ⊥) }
    {
        match self.work() {
            Some(Work::Stopped | Work::Resting | Work::Spent) => true,
            Some(Work::Ready) => false,
            None => false,
        }
    }

    /// All where it is over for those who wait, else nobody.
    pub fn audience_at_end(&self) -> Audience
        ensures { WakesAtEnd self.now.net self.now.fuel self.now.stopped self.now.sessions.items result }
    {
        let over = self.is_over();
        Audience {
            sessions: [over; MAX_SESSIONS],
            workers: over,
        }
    }

    /// Whom an entry concerns that was just made.
    pub fn audience_of(&self, entry: &Entry) -> Audience
        ensures { Concerns self.now.net self.now.fuel self.now.stopped self.now.sessions.items entry.now result }
    {
        if self.is_over() {
            return Audience::ALL;
        }
        Audience {
            sessions: answered_by(&self.net, &self.sessions, entry),
            workers: gives_work(&self.net, entry),
        }
    }

    /// Whom a firing concerns, or what refused it: a firing that finds no place in the journal stops all.
    pub fn audience_of_firing(&self, fired: Result<(Fired, u64), FireError>) -> Audience
        ensures { MatchResult fired
            (λ f. Concerns self.now.net self.now.fuel self.now.stopped self.now.sessions.items f.0.entry result)
            (λ _. WakesAtEnd self.now.net self.now.fuel self.now.stopped self.now.sessions.items result) }
    {
        match fired {
            Ok((fired, _)) => self.audience_of(&fired.entry),
            Err(_) => self.audience_at_end(),
        }
    }

    /// Whom a command concerns. A refused one gives nobody anything.
    pub fn audience_of_command(&self, answered: Result<(Entry, Reply, u64), NetError>) -> Audience
        ensures { MatchResult answered
            (λ r. Concerns self.now.net self.now.fuel self.now.stopped self.now.sessions.items r.0 result)
            (λ _. WakesNobody result) }
    {
        match answered {
            Ok((entry, _, _)) => self.audience_of(&entry),
            Err(_) => Audience::NOBODY,
        }
    }

    /// Whom a command concerns that was waited for. One that is told another thing than its answer gives nobody anything.
    pub fn audience_of_answer(&self, told: Result<Polled, NetError>) -> Audience
        ensures { MatchResult told
            (λ p. ConcernsAnswered self.now.net self.now.fuel self.now.stopped self.now.sessions.items p result)
            (λ _. WakesNobody result) }
    {
        match told {
            Ok(Polled::Answered(entry, _, _)) => self.audience_of(&entry),
            _ => Audience::NOBODY,
        }
    }
}
