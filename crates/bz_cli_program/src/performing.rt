//! From what was asked to a status: each command with what it reads and writes.

ghost use Rattle.std.specs.Prelude.{◌≡◌, false, is_some, true};
ghost use Rattle.std.specs.Option.{option_copied, option_map};
ghost use Rattle.bz_cli_input.specs.Reading.{ReadsWithin};
ghost use Rattle.bz_cli_commands.specs.Programs.{CheckTells, DrawOrMake, ProgramDoes, SeveralEnd};
ghost use Rattle.bz_words.specs.Words.{texts};

use crate::exploring::explore;
use bz_cli_args::{CheckOptions, Command, DrawOptions, Given};
use bz_cli_bench::BenchFiles;
use bz_cli_commands::{
    Maker, Outcome, check, complete, draw, kinds, lint, list, make, make_waits, parts, pool, run,
    test,
};
use bz_cli_input::Fault;
use bz_cli_several::{Traces, check_several};
use bz_explore::Files;
use std::alloc::Global;
use std::io::{BufRead, Read, Write};
use std::sync::Wait;
use std::thread::Threads;

/// Does what a command says: reads the netlist from `input`, the trace from `trace` or else after the netlist, several that are
/// named from `traces`, and the lines of `explore` from `lines`, whose files are made by `files`, as those that benches name are
/// read by it. Results go to `output`; what is wrong, and notes at a run's end, to `errors`.
pub fn program<
    H: Threads + Wait + Sync,
    R: Read,
    T: Read,
    X: Traces,
    L: BufRead,
    F: Files + BenchFiles,
    W: Write,
    E: Write,
>(
    threads: &H,
    alloc: Global,
    given: &Given<'_, '_>,
    input: &mut R,
    trace: Option<&mut T>,
    traces: &X,
    lines: &mut L,
    files: &mut F,
    output: &mut W,
    errors: &mut E,
) -> Outcome
    ensures does { ProgramDoes given.now.command (X.text traces.now) (texts given.now.words.now) given.now.sources.now
        (is_some given.now.file) (option_copied given.now.part) (R.remaining input.old)
        (option_map (λ apart. T.remaining apart.now) trace.entry) (W.contents output.old) (W.contents output.new) result.status }

    // Whatever comes of it, it reads at most one byte past the limit.
    ensures bounded { ReadsWithin (R.remaining input.old) (R.remaining input.new) }
{
    let part = given.part;
    match given.command {
        Command::Run(options) => run(alloc, given, options, input, output, errors),
        Command::Explore(options) => explore(
            alloc, given, options, input, trace, lines, files, output, errors,
        ),
        Command::Check(options) => {
            check_all(traces, alloc, given, options, input, trace, output, errors)
        }
        Command::Complete(options) => {
            let explains = given.explains;
            of(complete(alloc, part, options, explains, input, trace, output, errors))
        }
        Command::List(options) => of(list(alloc, part, options, input, output)),
        Command::Lint(options) => of(lint(alloc, given, options, input, output)),
        Command::Parts => of(parts(alloc, input, output)),
        Command::Kinds(options) => of(kinds(alloc, options, output)),
        Command::Draw(options) => draw_all(alloc, given, options, input, trace, output, errors),
        Command::Waits(options) => {
            make_waits(alloc, given, options, input, trace, output, errors)
        }
        Command::Chart(options) => {
            make(
                alloc,
                given,
                Maker::Chart(options),
                input,
                trace,
                output,
                errors,
            )
        }
        Command::Page(_) => make(alloc, given, Maker::Page, input, trace, output, errors),
        Command::Pool(options) => pool(threads, alloc, given, options, input, output, errors),
        Command::Test(options) => of(test(alloc, given, options, input, files, output, errors)),
    }
}

// What comes of a command that answers no net.
fn of(status: Result<u8, Fault>) -> Outcome
    ensures { result.status ≡ status }
{
    Outcome::of(status)
}

// Checks one trace or several.
fn check_all<X: Traces, R: Read, T: Read, W: Write, E: Write>(
    traces: &X,
    alloc: Global,
    given: &Given<'_, '_>,
    options: CheckOptions<'_>,
    input: &mut R,
    trace: Option<&mut T>,
    output: &mut W,
    errors: &mut E,
) -> Outcome
    ensures one { options.entry.several ≡ false → CheckTells options.entry (is_some given.now.file) (option_copied given.now.part)
        (R.remaining input.old) (option_map (λ apart. T.remaining apart.now) trace.entry)
        (W.contents output.old) (W.contents output.new) result.status }
    ensures several { options.entry.several ≡ true → SeveralEnd options.entry (X.text traces.now) (texts given.now.words.now)
        (option_copied given.now.part) (R.remaining input.old) (W.contents output.old) (W.contents output.new) result.status }
    ensures bounded { ReadsWithin (R.remaining input.old) (R.remaining input.new) }
{
    if options.several {
        several(traces, alloc, given, options, input, output, errors)
    } else {
        check(alloc, given, options, input, trace, output, errors)
    }
}

// Draws a net, or that behind a line of a trace.
fn draw_all<R: Read, T: Read, W: Write, E: Write>(
    alloc: Global,
    given: &Given<'_, '_>,
    options: DrawOptions<'_>,
    input: &mut R,
    trace: Option<&mut T>,
    output: &mut W,
    errors: &mut E,
) -> Outcome
    ensures draws { DrawOrMake options.entry given.now.sources.now (option_copied given.now.part) (R.remaining input.old)
        (option_map (λ apart. T.remaining apart.now) trace.entry) (W.contents output.old) (W.contents output.new) result.status }
    ensures bounded { ReadsWithin (R.remaining input.old) (R.remaining input.new) }
{
    match trace {
        Some(trace) => {
            let maker = Maker::Draw(options);
            make(alloc, given, maker, input, Some(trace), output, errors)
        }
        None => of(draw(alloc, given.part, options, input, output, errors)),
    }
}

// Checks several traces. What is told of what they exercised goes with the status.
fn several<X: Traces, R: Read, W: Write, E: Write>(
    traces: &X,
    alloc: Global,
    given: &Given<'_, '_>,
    options: CheckOptions<'_>,
    input: &mut R,
    output: &mut W,
    errors: &mut E,
) -> Outcome
    ensures checks { SeveralEnd options.entry (X.text traces.now) (texts given.now.words.now) (option_copied given.now.part)
        (R.remaining input.old) (W.contents output.old) (W.contents output.new) result.status }
    ensures bounded { ReadsWithin (R.remaining input.old) (R.remaining input.new) }
{
    let mut covered = None;
    let status = check_several(
        traces,
        alloc,
        given,
        options,
        input,
        &mut covered,
        output,
        errors,
    );
    Outcome::several(status, covered)
}
