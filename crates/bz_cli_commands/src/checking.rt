//! The command `check`: whether a trace is that of a run.

ghost use Rattle.std.specs.Prelude.{◌≡◌, ◌≢◌, ◌&&◌, if◌then◌else◌, false, true, ℕ, is_some, length};
ghost use Rattle.std.specs.Prelude.{IfSome, List, MatchBool, None, Option};
ghost use Rattle.std.specs.Option.{option_copied, option_map};
ghost use Rattle.bz_cli_input.specs.Answering.{AnswersInput};
ghost use Rattle.bz_cli_input.specs.Reading.{ReadsWithin};
ghost use Rattle.bz_cli_input.specs.Stopping.{IsOfInput};
ghost use Rattle.bz_cli_trace.specs.Taking.{OnTexts};
ghost use Rattle.bz_cli_commands.specs.Endings.{ChecksOn, TellsCase};
ghost use Rattle.bz_cli_commands.specs.Programs.{CheckBehind, CheckEnds};

use crate::outcome::Outcome;
use bz_cli_args::{BAD_COMMAND_LINE, CheckOptions, DONE, Given, NO_RUN};
use bz_cli_input::{Fault, read_input};
use bz_cli_trace::{Case, CheckWay, Texts, tell_found};
use bz_cover::Counted;
use bz_text::put;
use bz_trace::Unwatched;
use std::alloc::Global;
use std::io::{Read, Write, sink};

/// What is printed where no trace is named, and none stands after the netlist of a file.
const NO_TRACE: &str = "\
error: there is no trace after the netlist: --trace FILE takes it from a file, --trace - from standard input\n";

/// Reports whether a trace is that of a run: the one that is given, or the one after the netlist. The net that it was judged on
/// goes with the status. That there is no trace after the netlist of a file goes to `errors`. Where an object is asked for,
/// nothing is written: what was found goes with the status.
pub fn check<R: Read, T: Read, W: Write, E: Write>(
    alloc: Global,
    given: &Given<'_, '_>,
    options: CheckOptions<'_>,
    input: &mut R,
    trace: Option<&mut T>,
    output: &mut W,
    errors: &mut E,
) -> Outcome
    ensures plainly { options.entry.json ≡ false → CheckEnds options.entry (is_some given.now.file) (option_copied given.now.part)
        (R.remaining input.old) (option_map (λ apart. T.remaining apart.now) trace.entry)
        (W.contents output.old) (W.contents output.new) result.status }
    ensures object { options.entry.json ≡ true → (from to : Option (List ℕ)) ×
        CheckEnds options.entry (is_some given.now.file) (option_copied given.now.part)
        (R.remaining input.old) (option_map (λ apart. T.remaining apart.now) trace.entry) from to result.status }

    // Whatever comes of it, it reads at most one byte past the limit.
    ensures bounded { ReadsWithin (R.remaining input.old) (R.remaining input.new) }
{
    if options.json {
        check_into(alloc, given, options, input, trace, &mut sink(), errors)
    } else {
        check_into(alloc, given, options, input, trace, output, errors)
    }
}

// The same, with the line that is written.
fn check_into<R: Read, T: Read, W: Write, E: Write>(
    alloc: Global,
    given: &Given<'_, '_>,
    options: CheckOptions<'_>,
    input: &mut R,
    trace: Option<&mut T>,
    output: &mut W,
    errors: &mut E,
) -> Outcome
    ensures checks { CheckEnds options.entry (is_some given.now.file) (option_copied given.now.part) (R.remaining input.old)
        (option_map (λ apart. T.remaining apart.now) trace.entry) (W.contents output.old) (W.contents output.new) result.status }
    ensures bounded { ReadsWithin (R.remaining input.old) (R.remaining input.new) }
{
    let keeps = keeps_line(given.explains, options.json);
    let covers = options.cover.is_some();
    match trace {
        Some(trace) => {
            let apart = way_of(options, true, keeps);
            check_apart(alloc, given.part, apart, covers, input, trace, output)
        }
        None => {
            let is_file = given.file.is_some();
            let behind = way_of(options, false, keeps);
            check_after(
                alloc, given.part, behind, covers, is_file, input, output, errors,
            )
        }
    }
}

// Whether the line that a verdict names is kept: for notes, or for an object.
fn keeps_line(explains: bool, json: bool) -> bool {
    explains || json
}

// What is asked of a trace: not more than up to its first line that no run allows only of one that a reader of its own gives.
fn way_of(options: CheckOptions<'_>, apart: bool, keeps: bool) -> CheckWay
    ensures first { result.to_first ≡ (options.entry.first && apart) }
    ensures rest { result.to_rest ≡ options.entry.to_rest }
{
    CheckWay {
        to_first: options.first && apart,
        to_rest: options.to_rest,
        keeps,
    }
}

// Reports whether the trace that a reader of its own gives is that of a run.
fn check_apart<R: Read, T: Read, W: Write>(
    alloc: Global,
    part: Option<&[u8]>,
    way: CheckWay,
    covers: bool,
    input: &mut R,
    trace: &mut T,
    output: &mut W,
) -> Outcome
    ensures checks { IfSome (R.remaining input.old) (λ netlist. IfSome (T.remaining trace.old) (λ text.
        AnswersInput IsOfInput (λ n. ChecksOn way n text (option_copied part.entry)
        (W.contents output.old) (W.contents output.new) result.status)
        netlist (W.contents output.old) (W.contents output.new) result.status)) }
    ensures bounded { ReadsWithin (R.remaining input.old) (R.remaining input.new) }
{
    match read_input(alloc, input) {
        Ok(netlist) => check_on(alloc, part, way, covers, netlist.as_slice(), trace, output),
        Err(fault) => Outcome::of(Err(Fault::from(fault))),
    }
}

// Reports whether the trace after the netlist is that of a run.
fn check_after<R: Read, W: Write, E: Write>(
    alloc: Global,
    part: Option<&[u8]>,
    way: CheckWay,
    covers: bool,
    is_file: bool,
    input: &mut R,
    output: &mut W,
    errors: &mut E,
) -> Outcome
    ensures checks { OnTexts (λ netlist trace. CheckBehind is_file way netlist trace (option_copied part.entry)
        (W.contents output.old) (W.contents output.new) result.status)
        (R.remaining input.old) None (W.contents output.old) (W.contents output.new) result.status }
    ensures bounded { ReadsWithin (R.remaining input.old) (R.remaining input.new) }
{
    match Texts::read(alloc, input) {
        Ok(texts) => check_behind(alloc, part, way, covers, is_file, &texts, output, errors),
        Err(fault) => Outcome::of(Err(Fault::from(fault))),
    }
}

// The same of texts that were read. Where the netlist is that of a file, there has to be a trace.
fn check_behind<W: Write, E: Write>(
    alloc: Global,
    part: Option<&[u8]>,
    way: CheckWay,
    covers: bool,
    is_file: bool,
    texts: &Texts,
    output: &mut W,
    errors: &mut E,
) -> Outcome
    ensures { CheckBehind is_file way texts.now.netlist texts.now.trace (option_copied part.entry)
        (W.contents output.old) (W.contents output.new) result.status }
{
    if misses_trace(is_file, texts) {
        let _ = put(errors, NO_TRACE.as_bytes());
        return Outcome::of(Ok(BAD_COMMAND_LINE));
    }
    let (netlist, trace) = texts.both();
    let mut rest = trace;
    check_on(alloc, part, way, covers, netlist, &mut rest, output)
}

// Whether no line of the text that a file has begins a trace.
fn misses_trace(is_file: bool, texts: &Texts) -> bool
    ensures { MatchBool result ((is_file ≡ true) × (length texts.now.trace ≡ 0)) (is_file ≡ true → length texts.now.trace ≢ 0) }
{
    if !is_file {
        return false;
    }
    let (_, trace) = texts.both();
    trace.len() == 0
}

// Judges the trace that a reader gives on the net of a netlist, and writes what was found. What the trace exercises is counted
// where that is asked for.
fn check_on<T: Read, W: Write>(
    alloc: Global,
    part: Option<&[u8]>,
    way: CheckWay,
    covers: bool,
    netlist: &[u8],
    trace: &mut T,
    output: &mut W,
) -> Outcome
    ensures { IfSome (T.remaining trace.old) (λ text. ChecksOn way netlist.now text (option_copied part.entry)
        (W.contents output.old) (W.contents output.new) result.status) }
{
    if !covers {
        return told(
            Case::of(alloc, part, netlist, trace, way, &mut Unwatched),
            output,
        );
    }
    let mut counted = Counted::new();
    let case = Case::of(alloc, part, netlist, trace, way, &mut counted);
    told(case, output).counted(counted.into_coverage())
}

// Writes what was found of a trace. The net that it was judged on goes with the status.
fn told<W: Write>(case: Result<Case, Fault>, output: &mut W) -> Outcome
    ensures { TellsCase case (W.contents output.old) (W.contents output.new) result.status }
{
    let case = match case {
        Ok(case) => case,
        Err(fault) => return Outcome::of(Err(fault)),
    };
    match tell_found(b"", case.found(), output) {
        Ok(()) => {
            let status = status_of(case.passes());
            Outcome::judged(status, case)
        }
        Err(fault) => Outcome::of(Err(fault)),
    }
}

fn status_of(passes: bool) -> u8
    ensures { result ≡ (if passes then 0 else 1) }
{
    if passes { DONE } else { NO_RUN }
}
