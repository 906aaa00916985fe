//! The command `pool`: sessions of host words played beside workers on a part of a netlist, and the trace of it.
//!
//! The first end that is a refusal is reported, sessions before workers, after the trace of all. Before the close nothing is
//! written: after a refusal of `run_pool` there is no net to write of. A worker's end names word 0, by which `main` knows it
//! from a session's. An end that would name a bad word can't come, since words are read before they are played; it is
//! reported as out of memory.

ghost use Rattle.std.specs.Prelude.{◌≡◌, ◌≤◌, ◌<◌, ◌+◌, length, map, vec_len, IfOk, IfErr, IfSome, IfNone};
ghost use Rattle.std.specs.List.{All, list_all};
ghost use Rattle.std.specs.Option.{option_copied};
ghost use Rattle.bz_locked.specs.Journal.{fired_count};
ghost use Rattle.bz_model.specs.Nets.{opening};
ghost use Rattle.bz_model.specs.Runs.{Run};
ghost use Rattle.bz_words.specs.HostWords.{hosts_of};
ghost use Rattle.bz_words.specs.Limits.{max_sessions};
ghost use Rattle.bz_words.specs.Words.{Spell, texts};
ghost use Rattle.bz_cli.specs.Faults.{of_pool};
ghost use Rattle.bz_cli.specs.Pooling.{IsAgreed, IsFirstRefused, fault_for, is_done, refusal_of, who_at, Pools, PoolsText, RefusesSessions, WritesOf};
ghost use Rattle.bz_cli_input.specs.Reading.{ReadsWithin};

use bz_cli_core::{open_net, write_out};
use bz_cli_input::{Fault, read_input};
use bz_locked::{CloseError, Closed};
use bz_model::{HostCmd, NetError, Who};
use bz_net::Net;
use bz_pool::{End, Gate, PoolError, run_pool};
use bz_words::{SessionError, parse_host_words};
use std::alloc::Global;
use std::io::{Read, Write};
use std::sync::Wait;
use std::thread::Threads;

/// How many workers play, and how far.
#[derive(Clone, Copy, PartialEq, Eq)]
pub struct PoolOptions {
    /// From 1 to 8.
    pub workers: u8,
    /// The most firings of all workers together.
    pub fuel: u64,
    /// The most entries of the journal, from 1 to 16,777,216.
    pub journal: u32,
}

/// A pool that was closed and whose trace went out: the net as it was left, and how the sessions ended, then the workers.
pub struct Pooled {
    pub net: Net,
    pub ends: Vec<End>,
    /// Whether each session has played all its words.
    pub is_done: bool,
}

// By hand, so that who lets one go has one call to show and not all its parts.
impl Drop for Pooled {
    fn drop(self) {
        let Pooled {
            net: _,
            ends: _,
            is_done: _,
        } = self;
    }
}

// Nothing is done round a fire.
struct Ungated;

impl Gate for Ungated {
    fn before(&self, _worker: u8, _comp: u32) {}

    fn after(&self, _worker: u8, _comp: u32) {}
}

/// Plays each session's words on the net that the netlist denotes which the reader gives, beside workers, each on a thread of
/// its own, and writes the trace once all have ended. An event that was refused is told by the first end that has one.
pub fn pool_cmd<R: Read, W: Write, H: Threads + Wait + Sync>(
    rt: &H,
    alloc: Global,
    asked: Option<&[u8]>,
    options: PoolOptions,
    words: &[&str],
    input: &mut R,
    output: &mut W,
) -> Result<Pooled, Fault>
    requires workers { (1 ≤ options.workers) × (options.workers ≤ 8) }
    requires journal { (0 < options.journal) × (options.journal ≤ 16777216) }
    ensures pools { IfSome (R.remaining input.old) (λ text. Pools text (texts words.now) (option_copied asked.entry) options.workers options.fuel options.journal (W.contents output.old) (W.contents output.new) result) }

    // Whatever comes of it, it reads at most one byte past the limit.
    ensures bounded { ReadsWithin (R.remaining input.old) (R.remaining input.new) }
{
    let sessions = pool_words(alloc, words)?;
    let text = read_input(alloc, input)?;
    pool_text(rt, alloc, asked, options, text.as_slice(), sessions, output)
}

// The sessions that the words spell.
fn pool_words(alloc: Global, words: &[&str]) -> Result<Vec<Vec<HostCmd>>, Fault>
    ensures ok { IfOk result (λ v. Spell (texts words.now) (map hosts_of v.items)) }
    ensures few { IfOk result (λ v. (1 ≤ vec_len v) × (vec_len v ≤ max_sessions)) }
    ensures err { IfErr result (RefusesSessions (texts words.now)) }
{
    match parse_host_words(alloc, words) {
        Ok(sessions) => Ok(sessions),
        Err(error) => Err(Fault::from(error)),
    }
}

// Plays the sessions on the net that the text denotes, and writes the trace.
fn pool_text<W: Write, H: Threads + Wait + Sync>(
    rt: &H,
    alloc: Global,
    asked: Option<&[u8]>,
    options: PoolOptions,
    text: &[u8],
    sessions: Vec<Vec<HostCmd>>,
    output: &mut W,
) -> Result<Pooled, Fault>
    requires workers { (1 ≤ options.workers) × (options.workers ≤ 8) }
    requires journal { (0 < options.journal) × (options.journal ≤ 16777216) }
    requires sessions { (1 ≤ vec_len sessions) × (vec_len sessions ≤ 16) }
    ensures { PoolsText text.now (option_copied asked.entry) options.fuel options.journal sessions.items options.workers (W.contents output.old) (W.contents output.new) result }
{
    let net = open_net(alloc, asked, options.journal, text)?;
    let count = sessions.len();
    let pooled = run_pool(
        rt,
        alloc,
        net,
        options.workers,
        options.fuel,
        &Ungated,
        sessions,
    );
    let (closed, ends) = match pooled {
        Ok(pooled) => pooled,
        Err(error) => return Err(of_pool(error)),
    };
    let Closed {
        net,
        stopped: _,
        front: _,
        shares: _,
        records: _,
    } = closed;
    write_closed(net, ends, count, options.fuel, output)
}

// Why a pool came to no close, as the command's fault.
fn of_pool(error: PoolError) -> Fault
    ensures { result ≡ of_pool error }
{
    match error {
        PoolError::Close(CloseError::Discord(who, at)) => Fault::Discord { who, at },
        PoolError::Close(CloseError::Memory) => Fault::Memory,
        PoolError::Memory => Fault::Memory,
        PoolError::NoThread => Fault::NoThread,
    }
}

// Writes the trace of a pool that was closed, with its ends, of which the first so many are the sessions'.
fn write_closed<W: Write>(
    net: Net,
    ends: Vec<End>,
    sessions: usize,
    fuel: u64,
    output: &mut W,
) -> Result<Pooled, Fault>
    requires run { Run net.wiring (opening net.wiring) net.journal net.state }
    requires within { fired_count net.journal ≤ fuel }
    requires few { vec_len ends ≤ 24 }
    requires sessions { sessions ≤ vec_len ends }
    ensures { WritesOf net ends.items sessions fuel (W.contents output.old) (W.contents output.new) result }
{
    write_out(net.names(), net.journal(), net.clashes(), output)?;
    let is_done = are_done(&ends.as_slice()[..sessions]);
    match first_refused(ends.as_slice(), sessions) {
        None => Ok(Pooled { net, ends, is_done }),
        Some(fault) => Err(fault),
    }
}

// Whether each of these is the end of a session that has played all its words.
fn are_done(ends: &[End]) -> bool
    ensures { result ≡ list_all is_done ends.now }
{
    for end in ends {
        if !is_done(*end) {
            return false;
        }
    }
    true
}

fn is_done(end: End) -> bool
    ensures { result ≡ is_done end }
{
    match end {
        End::Done => true,
        End::Resting(_) | End::Spent(_) | End::Stopped(_) | End::Refused(_, _) => false,
    }
}

// The fault of the first end that is a refusal.
fn first_refused(ends: &[End], sessions: usize) -> Option<Fault>
    requires few { length ends.now ≤ 24 }
    ensures some { IfSome result (IsFirstRefused ends.now sessions) }
    ensures none { IfNone result (All IsAgreed ends.now) }
{
    for (place, end) in ends.iter().enumerate() {
        if let Some(error) = refusal_of(*end) {
            return Some(fault_for(error, who_at(place, sessions)));
        }
    }
    None
}

// The error of an end that is a refusal. Words are read before they are played, so that an event alone is refused.
fn refusal_of(end: End) -> Option<NetError>
    ensures { result ≡ refusal_of end }
{
    match end {
        End::Refused(_, SessionError::Event(error)) => Some(error),
        End::Refused(_, SessionError::BadWord(_)) => Some(NetError::Memory),
        End::Refused(_, SessionError::Memory) => Some(NetError::Memory),
        End::Done | End::Resting(_) | End::Spent(_) | End::Stopped(_) => None,
    }
}

// Whose end stands at a place, from 0: those of the sessions come first.
fn who_at(place: usize, sessions: usize) -> Who
    requires few { place < 24 }
    ensures { result ≡ who_at place sessions }
{
    if place < sessions {
        Who::Host((place + 1) as u8)
    } else {
        Who::Worker((place - sessions + 1) as u8)
    }
}

fn fault_for(error: NetError, who: Who) -> Fault
    ensures { result ≡ fault_for error who }
{
    match error {
        NetError::Memory => Fault::Memory,
        error => Fault::Ended { error, who },
    }
}
