//! Traces that are the pieces of one run: each goes on where the one before ended.

ghost use Rattle.std.specs.Prelude.{◌≡◌, ◌≢◌, ◌&&◌, [], false, if◌then◌else◌, IfErr, IfOk, List, OnOk};
ghost use Rattle.bz_words.specs.Words.{texts};
ghost use Rattle.bz_model.specs.declared.event.Entry.{Entry};
ghost use Rattle.bz_net.specs.Progress.{IsToldBy};
ghost use Rattle.bz_trace.specs.Pieces.{IsBehind};
ghost use Rattle.bz_cli_trace.specs.Judging.{is_passed};
ghost use Rattle.bz_cli_trace.specs.Telling.{TellsVerdict};
ghost use Rattle.bz_cli_several.specs.Fates.{front_text};
ghost use Rattle.bz_cli_several.specs.Holding.{Holds, IsOf, asked_of};
ghost use Rattle.bz_cli_several.specs.Joined.{ChecksJoined, ChecksNext, IsUnreadPiece, sum};
ghost use Rattle.bz_cli_several.specs.Sending.{IsLate};

use crate::held::{Held, next_net};
use crate::judging::Judge;
use crate::telling::{tell_left, tell_named, tell_unread};
use crate::traces::Traces;
use bz_cli_args::{BAD_COMMAND_LINE, DONE, NO_RUN};
use bz_cli_input::Fault;
use bz_cli_trace::{CheckWay, Finding, Judged, judge_piece, tell_found};
use bz_cover::Counted;
use bz_explain_notes::{Notes, tell_notes};
use bz_net::Play;
use bz_trace::{Counts, Joined, Unwatched, Verdict, Watch};
use bz_view::Piece::Text as Word;
use std::alloc::Global;
use std::io::{Read, Write};

/// What became of a piece.
#[derive(Drop)]
pub enum Next {
    /// It is one of the run.
    GoesOn(Judged),
    /// It is none, or can't be read, and was told: the status of the program.
    Ends(u8),
}

/// Judges traces by their names as the pieces of one run, in this order. One line says what the run has, or which piece is
/// none of it: behind that one no piece is looked at. Nothing is told of the others.
pub(crate) fn check_joined<X: Traces, W: Write, E: Write>(
    traces: &X,
    alloc: Global,
    judge: &Judge<'_, '_, '_>,
    names: &[&str],
    held: &mut Held,
    output: &mut W,
    errors: &mut E,
) -> Result<u8, Fault>
    requires { Holds (asked_of judge.now) held.old }
    ensures { ChecksJoined (asked_of judge.now) (X.text traces.now) (texts names.now) judge.now.json
        (W.contents output.old) (W.contents output.new) result }
{
    let net = next_net(alloc, judge, held, u32::MAX)?;
    if held.exercise.is_none() {
        let nobody = &mut Unwatched;
        return join(
            traces, alloc, judge, names, net, held, nobody, output, errors,
        );
    }
    let mut counted = Counted::new();
    counted.begin(alloc, &net);
    let watch = &mut counted;
    let status = join(
        traces, alloc, judge, names, net, held, watch, output, errors,
    );
    match &mut held.exercise {
        Some(exercise) if held.net.is_some() => exercise.add(counted),
        _ => {}
    }
    status
}

// The same on a net at its opening. It is held again where all pieces are those of a run.
fn join<X: Traces, S: Watch, W: Write, E: Write>(
    traces: &X,
    alloc: Global,
    judge: &Judge<'_, '_, '_>,
    names: &[&str],
    net: Play,
    held: &mut Held,
    watch: &mut S,
    output: &mut W,
    errors: &mut E,
) -> Result<u8, Fault>
    requires opened { IsToldBy net [] }
    requires net { IsOf (asked_of judge.now) net.wiring }
    ensures { ChecksJoined (asked_of judge.now) (X.text traces.now) (texts names.now) judge.now.json
        (W.contents output.old) (W.contents output.new) result }
{
    let Some((last, fronts)) = names.split_last() else {
        let _ = writeln!(errors, "error: --joined: no trace is named");
        return Ok(BAD_COMMAND_LINE);
    };
    let mut joined = Joined::behind(net);
    let mut counts = Counts::NONE;
    for name in fronts {
        match check_next(
            traces, alloc, judge, joined, name, false, watch, output, errors,
        ) {
            Ok(Next::GoesOn(piece)) => {
                let (found, net, _) = piece.into_parts();
                counts = sum(counts, found.counts);
                joined = Joined::behind(net);
            }
            Ok(Next::Ends(status)) => return Ok(status),
            Err(fault) => return Err(fault),
        }
    }
    match check_next(
        traces, alloc, judge, joined, last, true, watch, output, errors,
    ) {
        Ok(Next::GoesOn(piece)) => {
            tell_run(alloc, judge, last, counts, piece, held, output, errors)
        }
        Ok(Next::Ends(status)) => Ok(status),
        Err(fault) => Err(fault),
    }
}

// How many entries there are of each kind in both.
fn sum(one: Counts, other: Counts) -> Counts
    ensures { result ≡ sum one other }
{
    Counts {
        fired: one.fired.saturating_add(other.fired),
        host: one.host.saturating_add(other.host),
        rests: one.rests.saturating_add(other.rests),
    }
}

// Checks the next piece, by its name.
fn check_next<X: Traces, S: Watch, W: Write, E: Write>(
    traces: &X,
    alloc: Global,
    judge: &Judge<'_, '_, '_>,
    joined: Joined,
    name: &str,
    is_last: bool,
    watch: &mut S,
    output: &mut W,
    errors: &mut E,
) -> Result<Next, Fault>
    ensures { (past : List Entry) → IsBehind joined.wiring joined past → ChecksNext (asked_of judge.now) joined.wiring past
        (X.text traces.now name.now) name.now is_last judge.now.json (W.contents output.old) (W.contents output.new) result }
{
    match traces.open(name) {
        Ok(trace) => {
            check_piece(
                alloc, judge, joined, name, trace, is_last, watch, output, errors,
            )
        }
        Err(cause) => unread(tell_unread(name, cause, judge.json, output, errors)),
    }
}

// The status of a piece of which it was told that it can't be read.
fn unread(told: Result<(), Fault>) -> Result<Next, Fault>
    ensures { IsUnreadPiece told result }
{
    match told {
        Ok(()) => Ok(Next::Ends(BAD_COMMAND_LINE)),
        Err(fault) => Err(fault),
    }
}

// Checks the piece that a reader gives.
fn check_piece<T: Read + Drop, S: Watch, W: Write, E: Write>(
    alloc: Global,
    judge: &Judge<'_, '_, '_>,
    joined: Joined,
    name: &str,
    trace: T,
    is_last: bool,
    watch: &mut S,
    output: &mut W,
    errors: &mut E,
) -> Result<Next, Fault>
    ensures { (past : List Entry) → IsBehind joined.wiring joined past → ChecksNext (asked_of judge.now) joined.wiring past
        (T.remaining trace) name.now is_last judge.now.json (W.contents output.old) (W.contents output.new) result }
{
    let way = way_of(judge.way, is_last);
    let mut trace = trace;
    match judge_piece(alloc, joined, &mut trace, is_last, way, watch) {
        Ok(piece) => {
            if piece.is_run() {
                return Ok(Next::GoesOn(piece));
            }
            tell_stop(alloc, judge, name, is_last, piece, output, errors)
        }
        Err(Fault::Read) => {
            let why =
                "reading failed, a line of it is too long, or too many entries come before it";
            unread(tell_unread(name, why, judge.json, output, errors))
        }
        Err(fault) => Err(fault),
    }
}

// What is asked of a piece: of the last one alone that it ends at rest.
fn way_of(way: CheckWay, is_last: bool) -> CheckWay
    ensures first { result.to_first ≡ way.to_first }
    ensures rest { result.to_rest ≡ (way.to_rest && is_last) }
{
    CheckWay {
        to_rest: way.to_rest && is_last,
        ..way
    }
}

// Tells of a piece that is none of the run where that stops, and why, where that is asked for.
fn tell_stop<W: Write, E: Write>(
    alloc: Global,
    judge: &Judge<'_, '_, '_>,
    name: &str,
    is_last: bool,
    piece: Judged,
    output: &mut W,
    errors: &mut E,
) -> Result<Next, Fault>
    ensures ends { IfOk result (λ next. next ≡ Next.Ends 1) }
    ensures told { OnOk result (piece.found.verdict ≢ Verdict.Memory) }
    ensures plainly { judge.now.json ≡ false → TellsVerdict (front_text name.now) piece.found
        (W.contents output.old) (W.contents output.new) result }
    ensures late { IfErr result IsLate }
{
    let (found, mut net, kept) = piece.into_parts();
    if !judge.json {
        tell_named(alloc, name, found, output)?;
        if begins_clash(found, kept.lines()) && !is_last {
            note_clash(alloc, name, errors);
            return Ok(Next::Ends(NO_RUN));
        }
    }
    tell_left(alloc, judge, name, found, &mut net, &kept, output, errors)?;
    Ok(Next::Ends(NO_RUN))
}

// Whether the line that no run allows is that of a clash.
fn begins_clash(found: Finding, kept: Option<&[u8]>) -> bool {
    matches!(found.verdict, Verdict::Not(_)) && kept.unwrap_or(b"").starts_with(b"clash ")
}

// Notes that clash lines stand in the last piece alone.
fn note_clash<E: Write>(alloc: Global, name: &str, errors: &mut E) {
    let mut notes = Notes::new(alloc);
    let form =
        "the trace is that of %, and a trace comes after it: clash lines stand in the last one alone";
    notes.say(form, &[Word(name)]);
    let _ = tell_notes(alloc, &notes, errors);
}

// Tells what the run has, of which all pieces were checked; this is the last, and so many entries come before it.
fn tell_run<W: Write, E: Write>(
    alloc: Global,
    judge: &Judge<'_, '_, '_>,
    name: &str,
    before: Counts,
    piece: Judged,
    held: &mut Held,
    output: &mut W,
    errors: &mut E,
) -> Result<u8, Fault>
    ensures status { IfOk result (λ status. status ≡ (if is_passed piece.found then 0 else 1)) }
    ensures told { OnOk result (piece.found.verdict ≢ Verdict.Memory) }
    ensures plainly { judge.now.json ≡ false → TellsVerdict [] (record piece.found { counts = sum before piece.found.counts })
        (W.contents output.old) (W.contents output.new) result }
    ensures late { IfErr result IsLate }
{
    let (last, mut net, kept) = piece.into_parts();
    let found = Finding {
        counts: sum(before, last.counts),
        ..last
    };
    if !judge.json {
        tell_found(b"", found, output)?;
    }
    tell_left(alloc, judge, name, found, &mut net, &kept, output, errors)?;
    held.net = Some(net);
    Ok(if found.passes() { DONE } else { NO_RUN })
}
