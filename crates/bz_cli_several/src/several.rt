//! Several traces, each checked by itself against one net.

ghost use Rattle.std.specs.Prelude.{◌≡◌, ◌≢◌, None, false, IfErr, IfOk, IfSome, OnOk};
ghost use Rattle.std.specs.Option.{option_copied};
ghost use Rattle.bz_words.specs.Words.{texts};
ghost use Rattle.bz_cli_input.specs.Reading.{ReadsWithin};
ghost use Rattle.bz_trace.specs.declared.checking.Verdict.TheVariants as verdict;
ghost use Rattle.bz_cli_trace.specs.Telling.{TellsVerdict};
ghost use Rattle.bz_cli_several.specs.Each.{ChecksEach, ChecksOne, IsUnread};
ghost use Rattle.bz_cli_several.specs.Fates.{fate_of, front_text};
ghost use Rattle.bz_cli_several.specs.Holding.{Holds, IsJudgedOf, IsOf, StopsJudging, asked_of};
ghost use Rattle.bz_cli_several.specs.Sending.{IsLate};
ghost use Rattle.bz_cli_several.specs.Several.{ChecksNames, ChecksSeveral};

use crate::covering::{Covered, Exercise};
use crate::held::{Held, next_net, opened};
use crate::joining::check_joined;
use crate::judging::{Fate, Judge, Tally};
use crate::telling::{put_tally, tell_left, tell_named, tell_unread};
use crate::traces::Traces;
use bz_cli_args::{CheckOptions, Given};
use bz_cli_input::{Fault, read_input};
use bz_cli_trace::{CheckWay, Judged, Opened, judge};
use bz_cover::Counted;
use bz_trace::{MAX_ENTRIES, Unwatched};
use bz_view::Seen;
use std::alloc::Global;
use std::io::{Read, Write};

/// Checks the traces that the words name against the net of the netlist that a reader gives: each by itself, or as the pieces
/// of one run. What is said of them goes to `output`; notes on those that didn't pass, and why one could not be read, to
/// `errors`. The status of the program; `covered` is what they exercised, where that is asked for and one is that of a run.
pub fn check_several<X: Traces, R: Read, W: Write, E: Write>(
    traces: &X,
    alloc: Global,
    given: &Given<'_, '_>,
    options: CheckOptions<'_>,
    input: &mut R,
    covered: &mut Option<Covered>,
    output: &mut W,
    errors: &mut E,
) -> Result<u8, Fault>
    ensures checks { IfSome (R.remaining input.old) (λ text. ChecksSeveral options.entry (X.text traces.now)
        (texts given.now.words.now) text (option_copied given.now.part) (W.contents output.old) (W.contents output.new) result) }

    // Whatever comes of it, it reads at most one byte past the limit.
    ensures bounded { ReadsWithin (R.remaining input.old) (R.remaining input.new) }
{
    match read_input(alloc, input) {
        Ok(netlist) => {
            check_text(
                traces,
                alloc,
                given,
                options,
                netlist.as_slice(),
                covered,
                output,
                errors,
            )
        }
        Err(fault) => Err(Fault::from(fault)),
    }
}

// Checks them against the net of a netlist.
fn check_text<X: Traces, W: Write, E: Write>(
    traces: &X,
    alloc: Global,
    given: &Given<'_, '_>,
    options: CheckOptions<'_>,
    netlist: &[u8],
    covered: &mut Option<Covered>,
    output: &mut W,
    errors: &mut E,
) -> Result<u8, Fault>
    ensures { ChecksNames options.entry (X.text traces.now) (texts given.now.words.now) netlist.now (option_copied given.now.part)
        (W.contents output.old) (W.contents output.new) result }
{
    let (net, source, part) = match Opened::of(alloc, given.part, netlist) {
        Ok(opened) => opened.into_parts(),
        Err(fault) => return Err(fault),
    };
    let keeps = given.explains || options.json;
    let survey = if keeps || options.cover.is_some() {
        source.survey(alloc, part.as_slice()).ok()
    } else {
        None
    };
    let judge = Judge {
        netlist,
        part: given.part,
        survey: survey.as_ref(),
        way: CheckWay {
            to_first: options.first,
            to_rest: options.to_rest,
            keeps,
        },
        json: options.json,
    };
    let exercise = match options.cover {
        Some(_) => Some(Exercise::open(alloc, net.core())),
        None => None,
    };
    let mut held = Held {
        net: Some(net),
        exercise,
    };
    let names = given.words;
    let status = if options.joined {
        check_joined(traces, alloc, &judge, names, &mut held, output, errors)
    } else {
        check_all(traces, alloc, &judge, names, &mut held, output, errors)
    };
    *covered = told_of(alloc, &judge, &mut held, options.cover);
    status
}

// What is told of what the traces have exercised, where that is asked for and one is that of a run.
fn told_of(
    alloc: Global,
    judge: &Judge<'_, '_, '_>,
    held: &mut Held,
    path: Option<&str>,
) -> Option<Covered> {
    let (Some(exercise), Some(path)) = (held.exercise.take(), path) else {
        return None;
    };
    let net = match held.net.take() {
        Some(net) => Some(net),
        None => opened(alloc, judge).ok(),
    };
    match (&net, judge.survey) {
        (Some(net), Some(survey)) => {
            exercise.told(alloc, Some(Seen::of(net.core(), survey)), path)
        }
        _ => exercise.told(alloc, None, path),
    }
}

// Checks each by itself: a line for each one, in the order of the names, and then how many passed.
fn check_all<X: Traces, W: Write, E: Write>(
    traces: &X,
    alloc: Global,
    judge: &Judge<'_, '_, '_>,
    names: &[&str],
    held: &mut Held,
    output: &mut W,
    errors: &mut E,
) -> Result<u8, Fault>
    requires { Holds (asked_of judge.now) held.old }
    ensures { ChecksEach (asked_of judge.now) (X.text traces.now) (texts names.now) judge.now.json
        (W.contents output.old) (W.contents output.new) result }
{
    let mut tally = Tally::NONE;
    for name in names {
        match check_one(traces, alloc, judge, name, held, output, errors) {
            Ok(fate) => tally.add(fate),
            Err(fault) => return Err(fault),
        }
    }
    if judge.json {
        return Ok(tally.status);
    }
    match put_tally(names.len(), tally, output) {
        Ok(()) => Ok(tally.status),
        Err(fault) => Err(fault),
    }
}

// Checks one of them, by its name.
fn check_one<X: Traces, W: Write, E: Write>(
    traces: &X,
    alloc: Global,
    judge: &Judge<'_, '_, '_>,
    name: &str,
    held: &mut Held,
    output: &mut W,
    errors: &mut E,
) -> Result<Fate, Fault>
    requires { Holds (asked_of judge.now) held.old }
    ensures checks { ChecksOne (asked_of judge.now) (X.text traces.now name.now) name.now judge.now.json
        (W.contents output.old) (W.contents output.new) result }
    ensures holds { Holds (asked_of judge.now) held.new }
{
    match traces.open(name) {
        Ok(trace) => check_from(alloc, judge, name, trace, held, output, errors),
        Err(cause) => unread(tell_unread(name, cause, judge.json, output, errors)),
    }
}

// The fate of a trace of which it was told that it can't be read.
fn unread(told: Result<(), Fault>) -> Result<Fate, Fault>
    ensures { IsUnread told result }
{
    match told {
        Ok(()) => Ok(Fate::Unread),
        Err(fault) => Err(fault),
    }
}

// Checks the trace that a reader gives.
fn check_from<T: Read + Drop, W: Write, E: Write>(
    alloc: Global,
    judge: &Judge<'_, '_, '_>,
    name: &str,
    trace: T,
    held: &mut Held,
    output: &mut W,
    errors: &mut E,
) -> Result<Fate, Fault>
    requires { Holds (asked_of judge.now) held.old }
    ensures checks { ChecksOne (asked_of judge.now) (T.remaining trace) name.now judge.now.json
        (W.contents output.old) (W.contents output.new) result }
    ensures holds { Holds (asked_of judge.now) held.new }
{
    let mut trace = trace;
    match judge_next(alloc, judge, &mut trace, held) {
        Ok(judged) => tell_judged(alloc, judge, name, judged, held, output, errors),
        Err(Fault::Read) => {
            let why = "reading failed, or a line of it is too long";
            unread(tell_unread(name, why, judge.json, output, errors))
        }
        Err(fault) => Err(fault),
    }
}

// Judges the next trace. What it exercises is counted where that is asked for and it is that of a run.
fn judge_next<T: Read>(
    alloc: Global,
    by: &Judge<'_, '_, '_>,
    trace: &mut T,
    held: &mut Held,
) -> Result<Judged, Fault>
    requires { Holds (asked_of by.now) held.old }
    ensures found { IfOk result (IsJudgedOf (asked_of by.now) (T.remaining trace.old)) }
    ensures none { held.new.net ≡ None }
    ensures err { IfErr result (StopsJudging (asked_of by.now)) }
{
    let net = next_net(alloc, by, held, MAX_ENTRIES as u32)?;
    let Some(exercise) = &mut held.exercise else {
        return judge(alloc, net, trace, by.way, &mut Unwatched);
    };
    let mut counted = Counted::new();
    let judged = judge(alloc, net, trace, by.way, &mut counted)?;
    if judged.is_run() {
        exercise.add(counted);
    }
    Ok(judged)
}

// What became of a trace that was judged: its line or its object is written, and why it didn't pass is noted.
fn tell_judged<W: Write, E: Write>(
    alloc: Global,
    judge: &Judge<'_, '_, '_>,
    name: &str,
    judged: Judged,
    held: &mut Held,
    output: &mut W,
    errors: &mut E,
) -> Result<Fate, Fault>
    requires net { IsOf (asked_of judge.now) judged.net.wiring }
    requires held { Holds (asked_of judge.now) held.old }
    ensures fate { IfOk result (λ fate. fate ≡ fate_of judged.found) }
    ensures told { OnOk result (judged.found.verdict ≢ verdict.Memory) }
    ensures plainly { judge.now.json ≡ false → TellsVerdict (front_text name.now) judged.found
        (W.contents output.old) (W.contents output.new) result }
    ensures late { IfErr result IsLate }
    ensures holds { Holds (asked_of judge.now) held.new }
{
    let (found, mut net, kept) = judged.into_parts();
    if !judge.json {
        tell_named(alloc, name, found, output)?;
    }
    tell_left(alloc, judge, name, found, &mut net, &kept, output, errors)?;
    held.net = Some(net);
    Ok(if found.passes() {
        Fate::Passed
    } else {
        Fate::Failed
    })
}
