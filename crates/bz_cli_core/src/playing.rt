//! Words played on a net, and their entries on the way to the writer.
//!
//! A writer that fails does not end a play: nothing more is written, and the words are played to their end, which the limit
//! bounds. So what went out is a front of the trace of the whole play.

ghost use Rattle.std.specs.Prelude.{◌≡◌, ◌≢◌, ◌+◌, ◌-◌, ◌*◌, ◌≤◌, ◌<◌, suc, [], None, if◌then◌else◌, length, vec_capacity, IfSome, IfNone, OnSome, IfOk, IfErr};
ghost use Rattle.bz_model.specs.declared.event.Cmd.TheVariants as word;
ghost use Rattle.bz_model.specs.declared.event.Who.TheVariants as who;
ghost use Rattle.bz_net.specs.Progress.{IsToldBy};
ghost use Rattle.bz_net.specs.declared.event.RunEnd.TheVariants as ended;
ghost use Rattle.bz_net.specs.Running.{Plays, Ran};
ghost use Rattle.bz_cli_core.specs.Playing.{PlaysOne, StopsOne};
ghost use Rattle.bz_cli_core.specs.Running.{refusal_in};
ghost use Rattle.bz_cli_core.specs.Sending.{GoesOut, PlaysOut, RunsOut};

use crate::pending::Pending;
use bz_model::{Cmd, Entry, HostCmd, NetError, Reply, Value, Who};
use bz_net::{Play, RunEnd};
use bz_trace::Watch;
use bz_trace_text::Outgoing;
use std::io::Write;

/// Where a play stopped: at an event of this word, counted from 1, that the net refused.
#[derive(Clone, Copy, PartialEq, Eq)]
pub struct Stop {
    pub word: usize,
    pub error: NetError,
}

/// Where a strict play halted: at this word, counted from 1, a host command whose reply is a refusal.
#[derive(Clone, Copy, PartialEq, Eq)]
pub struct Halt {
    pub word: usize,
    pub reply: Reply,
}

/// How a play ended: all words were played, or it halted, or it stopped.
#[derive(Clone, Copy)]
pub(crate) enum End {
    All,
    Halt(Halt),
    Stop(Stop),
}

// Plays the words on a net that was just opened, host words as host 1 and firings as worker 1. A strict play halts at the first
// refusal. A writer that fails doesn't end the play.
pub(crate) fn play_out<W: Write, S: Watch>(
    play: &mut Play,
    strict: bool,
    cmds: &[Cmd],
    pending: &mut Pending,
    lines: &mut Outgoing,
    out: &mut W,
    watch: &mut S,
) -> End
    requires told { IsToldBy play.old [] }
    requires room { 0 < vec_capacity pending.old.entries }
    ensures plays { PlaysOut play.old play.new (W.contents out.old) pending.old (W.contents out.new) pending.new strict cmds.now result }
    ensures memory { (stop : Stop) → result ≡ End.Stop stop → stop.error ≢ NetError.Memory }
{
    for (place, cmd) in cmds.iter().enumerate() {
        let word = place + 1;
        let refusal = match word_out(play, cmd, pending, lines, out, watch) {
            Ok(refusal) => refusal,
            Err(error) => return End::Stop(Stop { word, error }),
        };
        if let Some(reply) = halting(strict, refusal) {
            return End::Halt(Halt { word, reply });
        }
    }
    End::All
}

// The refusal at which a play halts, if it does.
fn halting(strict: bool, refusal: Option<Reply>) -> Option<Reply>
    ensures { result ≡ (if strict then refusal else None) }
{
    if strict { refusal } else { None }
}

// Plays one word: the reply to it that is a refusal, if one is. It is a call: so the loop of a run has its registers to itself.
#[inline(never)]
fn word_out<W: Write, S: Watch>(
    play: &mut Play,
    cmd: &Cmd,
    pending: &mut Pending,
    lines: &mut Outgoing,
    out: &mut W,
    watch: &mut S,
) -> Result<Option<Reply>, NetError>
    requires { 0 < vec_capacity pending.old.entries }
    ensures ok { IfOk result (λ refusal. GoesOut play.old play.new (W.contents out.old) pending.old (W.contents out.new) pending.new (λ old new. PlaysOne old new cmd.now refusal)) }
    ensures err { IfErr result (λ e. GoesOut play.old play.new (W.contents out.old) pending.old (W.contents out.new) pending.new (λ old new. StopsOne old new cmd.now e)) }
    ensures memory { IfErr result (λ e. e ≢ NetError.Memory) }
    ensures room { vec_capacity pending.old.entries ≤ vec_capacity pending.new.entries }
{
    match cmd {
        Cmd::Host(cmd) => command_out(play, cmd, pending, out, watch),
        Cmd::Run(fuel) => match run_out(play, *fuel, pending, lines, out, watch) {
            RunEnd::Rest(_) => Ok(None),
            RunEnd::Spent(_) => Ok(None),
            RunEnd::Refused(_, error) => Err(error),
        },
    }
}

// Makes a host command: the reply to it, if it is a refusal.
fn command_out<W: Write, S: Watch>(
    play: &mut Play,
    cmd: &HostCmd,
    pending: &mut Pending,
    out: &mut W,
    watch: &mut S,
) -> Result<Option<Reply>, NetError>
    requires { 0 < vec_capacity pending.old.entries }
    ensures ok { IfOk result (λ refusal. GoesOut play.old play.new (W.contents out.old) pending.old (W.contents out.new) pending.new (λ old new. PlaysOne old new (word.Host cmd.now) refusal)) }
    ensures err { IfErr result (λ e. GoesOut play.old play.new (W.contents out.old) pending.old (W.contents out.new) pending.new (λ old new. StopsOne old new (word.Host cmd.now) e)) }
    ensures memory { IfErr result (λ e. e ≢ NetError.Memory) }
    ensures room { vec_capacity pending.old.entries ≤ vec_capacity pending.new.entries }
{
    pending.make_room(play.names(), out);
    match play.command(Who::Host(1), cmd) {
        Ok(entry) => {
            watch.see(play, &entry);
            pending.entries.push(entry).unwrap();
            Ok(refusal_in(entry))
        }
        Err(error) => Err(error),
    }
}

// The reply of a host command that did nothing.
fn refusal_in(entry: Entry) -> Option<Reply>
    ensures { result ≡ refusal_in entry }
{
    match entry {
        Entry::Host { reply, .. } => match reply {
            Reply::Busy(_) | Reply::NotYet | Reply::NotTaken(_) => Some(reply),
            Reply::Done | Reply::Value(_) | Reply::Watched(_) => None,
        },
        Entry::Fired { .. } | Entry::Rested { .. } => None,
    }
}

// Fires so many times, or until no component can move. The lines go out as they come, behind those of the entries so far.
#[inline(always)]
fn run_out<W: Write, S: Watch>(
    play: &mut Play,
    fuel: u64,
    pending: &mut Pending,
    lines: &mut Outgoing,
    out: &mut W,
    watch: &mut S,
) -> RunEnd
    ensures goes { GoesOut play.old play.new (W.contents out.old) pending.old (W.contents out.new) pending.new (λ old new. Ran old new (who.Worker 1) 1 fuel result) }
    ensures room { vec_capacity pending.old.entries ≤ vec_capacity pending.new.entries }
{
    pending.put(play.names(), out);
    lines.begin(pending.failed);
    let end = fire_out(play, fuel, lines, out, watch);
    pending.failed = lines.finish(out);
    end
}

// The same, where all lines so far are on a page or have gone out.
#[inline(always)]
fn fire_out<W: Write, S: Watch>(
    play: &mut Play,
    fuel: u64,
    lines: &mut Outgoing,
    out: &mut W,
    watch: &mut S,
) -> RunEnd
    ensures { RunsOut play.old play.new (W.contents out.old) lines.old (W.contents out.new) lines.new
        (λ old new. Ran old new (who.Worker 1) 1 fuel result) }
{
    let had = play.left();
    let due = fuel.min(had);
    let end = had - due;
    let (mut last, mut room, mut now) = (0, 0, had);
    while now > end {
        let stop = end.max(now.saturating_sub(lines.make_room(out)));
        match fire_lines(play, stop, last, &mut room, lines, out, watch) {
            Some(comp) => {
                last = comp;
                now = stop;
            }
            None => return RunEnd::Rest(had - 1 - play.left()),
        }
    }
    if due < fuel {
        RunEnd::Refused(due, NetError::JournalFull)
    } else {
        RunEnd::Spent(fuel)
    }
}

// Fires until only so many entries are still let in, where a page has room for the lines: the component that moved last, or the
// one before the first. `None` where none can move before, which is told.
#[inline(always)]
fn fire_lines<W: Write, S: Watch>(
    play: &mut Play,
    stop: u64,
    from: usize,
    room: &mut Value,
    lines: &mut Outgoing,
    out: &mut W,
    watch: &mut S,
) -> Option<usize>
    requires due { stop ≤ play.old.left }
    requires from { from ≤ length play.old.wiring.sites }
    requires room { length lines.old.page + 96 * (play.old.left - stop) ≤ 8192 }
    ensures some { IfSome result (λ last. RunsOut play.old play.new (W.contents out.old) lines.old (W.contents out.new) lines.new
        (λ old new. Plays old new (who.Worker 1) (suc from) (play.old.left - stop) (suc last))) }
    ensures none { IfNone result (RunsOut play.old play.new (W.contents out.old) lines.old (W.contents out.new) lines.new
        (λ old new. Ran old new (who.Worker 1) (suc from) (play.old.left - stop) (ended.Rest (play.old.left - 1 - play.new.left)))) }
    ensures stops { OnSome result (play.new.left ≡ stop) }
    ensures fewer { IfNone result (play.new.left < play.old.left) }
    ensures within { IfSome result (λ last. last ≤ length play.new.wiring.sites) }
{
    let mut last = from;
    while play.left() > stop {
        let entry = play.step_after(Who::Worker(1), last, room);
        watch.see(play, &entry);
        match entry {
            Entry::Fired {
                who,
                comp,
                port: _,
                chan,
                mv,
                value,
            } => {
                lines.fired(who, comp, mv, chan, value);
                last = comp as usize;
            }
            _ => {
                lines.rested(out, Who::Worker(1));
                return None;
            }
        }
    }
    Some(last)
}
