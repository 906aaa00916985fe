//! What `close` compares.

ghost use Rattle.std.specs.Prelude.{◌≡◌, ◌↔◌, IsTrue, slice_get, MatchOption};
ghost use Rattle.std.specs.List.{All};
ghost use Rattle.bz_locked.specs.Journal.{part_of, firings, who_of, same_who, is_fired};
ghost use Rattle.bz_locked.specs.Closing.{RecordAgrees, ShareAgrees, DiffersAt, RecordFault, ShareFault, PartFault};

use crate::counting::all_agree;
use crate::ledger::NetLedger;
use crate::parts::{Session, Worker};
use bz_model::{Entry, Move, Phase, Reply, Value, Verb, Who};

pub fn who_of(entry: &Entry) -> Who
    ensures { result ≡ who_of entry.now }
{
    match entry {
        Entry::Fired { who, .. } | Entry::Host { who, .. } | Entry::Rested { who } => *who,
    }
}

pub fn is_fired(entry: &Entry) -> bool
    ensures { result ≡ is_fired entry.now }
{
    match entry {
        Entry::Fired { .. } => true,
        Entry::Host { .. } | Entry::Rested { .. } => false,
    }
}

// Whether it is an entry of this one.
fn is_of(entry: &Entry, who: Who) -> bool
    ensures { result ≡ same_who (who_of entry.now) who }
{
    who_of(entry) == who
}

fn same_who(one: Who, other: Who) -> bool
    ensures { IsTrue result ↔ (one ≡ other) }
{
    one == other
}

fn same_phase(one: Phase, other: Phase) -> bool
    ensures { IsTrue result ↔ (one ≡ other) }
{
    one == other
}

fn same_reply(one: Reply, other: Reply) -> bool
    ensures { IsTrue result ↔ (one ≡ other) }
{
    match (one, other) {
        (Reply::Done, Reply::Done) | (Reply::NotYet, Reply::NotYet) => true,
        (Reply::Value(one), Reply::Value(other)) => one == other,
        (Reply::Busy(one), Reply::Busy(other)) => same_phase(one, other),
        (Reply::NotTaken(one), Reply::NotTaken(other)) => same_phase(one, other),
        (Reply::Watched(one), Reply::Watched(other)) => same_phase(one, other),
        _ => false,
    }
}

fn same_move(one: Move, other: Move) -> bool
    ensures { IsTrue result ↔ (one ≡ other) }
{
    one == other
}

fn same_verb(one: Verb, other: Verb) -> bool
    ensures { IsTrue result ↔ (one ≡ other) }
{
    one == other
}

fn same_value(one: Option<Value>, other: Option<Value>) -> bool
    ensures { IsTrue result ↔ (one ≡ other) }
{
    one == other
}

fn same_entry(one: Entry, other: Entry) -> bool
    ensures { IsTrue result ↔ (one ≡ other) }
{
    match (one, other) {
        (
            Entry::Fired {
                who,
                comp,
                port,
                chan,
                mv,
                value,
            },
            Entry::Fired {
                who: other_who,
                comp: other_comp,
                port: other_port,
                chan: other_chan,
                mv: other_mv,
                value: other_value,
            },
        ) => {
            same_who(who, other_who)
                && comp == other_comp
                && port == other_port
                && chan == other_chan
                && same_move(mv, other_mv)
                && same_value(value, other_value)
        }
        (
            Entry::Host {
                who,
                verb,
                port,
                value,
                reply,
            },
            Entry::Host {
                who: other_who,
                verb: other_verb,
                port: other_port,
                value: other_value,
                reply: other_reply,
            },
        ) => {
            same_who(who, other_who)
                && same_verb(verb, other_verb)
                && port == other_port
                && same_value(value, other_value)
                && same_reply(reply, other_reply)
        }
        (Entry::Rested { who }, Entry::Rested { who: other_who }) => same_who(who, other_who),
        _ => false,
    }
}

// Whether a record has this entry at a place.
pub fn is_at(own: &[Entry], at: usize, entry: &Entry) -> bool
    ensures { IsTrue result ↔ (slice_get own.now at ≡ Some entry.now) }
{
    at < own.len() && same_entry(own[at], *entry)
}

// The first place, from 1, where the record is not its part of the journal.
fn first_difference(who: Who, own: &[Entry], journal: &[Entry]) -> Option<u64>
    ensures { MatchOption result (own.now ≡ part_of who journal.now) (DiffersAt own.now (part_of who journal.now)) }
{
    let mut at = 0;
    for entry in journal {
        if is_of(entry, who) {
            if !is_at(own, at, entry) {
                return Some(at as u64 + 1);
            }
            at += 1;
        }
    }
    if at < own.len() {
        Some(at as u64 + 1)
    } else {
        None
    }
}

// How many firings of one worker a journal has.
fn firings(who: Who, journal: &[Entry]) -> u64
    ensures { result ≡ firings who journal.now }
{
    let mut count = 0;
    for entry in journal {
        if is_of(entry, who) && is_fired(entry) {
            count += 1;
        }
    }
    count
}

// The first record that is not its part of the journal.
fn record_fault(sessions: &[Session], journal: &[Entry]) -> Option<(Who, u64)>
    ensures { MatchOption result (All (RecordAgrees journal.now) sessions.now) (λ f. RecordFault journal.now sessions.now f.0 f.1) }
{
    for session in sessions {
        if let Some(at) = first_difference(session.who, &session.own, journal) {
            return Some((session.who, at));
        }
    }
    None
}

// The first share that is not its number of firings.
fn share_fault<L: NetLedger>(workers: &[Worker<L>], journal: &[Entry]) -> Option<Who>
    ensures { MatchOption result (All (ShareAgrees journal.now) workers.now) (ShareFault journal.now workers.now) }
{
    for worker in workers {
        if worker.fired != firings(worker.who, journal) {
            return Some(worker.who);
        }
    }
    None
}

/// The first record that is not its part of the journal, else the first share that is not its number of firings. It is looked for
/// only where they don't all agree, which takes one pass over the journal, whatever the sessions and workers.
pub fn first_fault<L: NetLedger>(
    sessions: &[Session],
    workers: &[Worker<L>],
    journal: &[Entry],
) -> Option<(Who, u64)>
    ensures { MatchOption result (All (RecordAgrees journal.now) sessions.now × All (ShareAgrees journal.now) workers.now) (λ f. PartFault journal.now sessions.now workers.now f.0 f.1) }
{
    if all_agree(sessions, workers, journal) {
        return None;
    }
    if let Some(fault) = record_fault(sessions, journal) {
        return Some(fault);
    }
    let who = share_fault(workers, journal)?;
    Some((who, 0))
}
