//! The command `explore`, as the command line asks for it.

ghost use Rattle.bz_cli_input.specs.Reading.{ReadsWithin};

use bz_cli_args::{ExploreOptions, Given};
use bz_cli_commands::{Outcome, no_run};
use bz_cli_input::Fault;
use bz_cli_trace::{Case, CheckWay, Texts};
use bz_explore::{Ending, Files, Manner, explore_behind, explore_cmd};
use bz_since::Gathered;
use std::alloc::Global;
use std::io::{BufRead, Read, Write};

/// Plays a net by lines, each with its answer, behind a trace where one is given. That this is none of a run goes to `errors`.
pub(crate) fn explore<R: Read, T: Read, L: BufRead, F: Files, W: Write, E: Write>(
    alloc: Global,
    given: &Given<'_, '_>,
    options: ExploreOptions<'_>,
    input: &mut R,
    trace: Option<&mut T>,
    lines: &mut L,
    files: &mut F,
    output: &mut W,
    errors: &mut E,
) -> Outcome
    // Whatever comes of it, it reads at most one byte past the limit.
    ensures bounded { ReadsWithin (R.remaining input.old) (R.remaining input.new) }
{
    let manner = manner_of(options, given.prompts);
    match trace {
        Some(trace) => match Texts::read_apart(alloc, input, trace) {
            Ok(texts) => explore_on(alloc, given, manner, &texts, lines, files, output, errors),
            Err(fault) => Outcome::of(Err(Fault::from(fault))),
        },
        None => ended(explore_cmd(alloc, given.part, manner, input, lines, files, output)),
    }
}

// Judges the trace, and plays the net behind one that is that of a run.
fn explore_on<L: BufRead, F: Files, W: Write, E: Write>(
    alloc: Global,
    given: &Given<'_, '_>,
    manner: Manner,
    texts: &Texts,
    lines: &mut L,
    files: &mut F,
    output: &mut W,
    errors: &mut E,
) -> Outcome {
    let (netlist, trace) = texts.both();
    let mut rest = trace;
    let mut gathered = Gathered::new();
    let way = CheckWay::whole(given.explains);
    let case = match Case::of(alloc, given.part, netlist, &mut rest, way, &mut gathered) {
        Ok(case) => case,
        Err(fault) => return Outcome::of(Err(fault)),
    };
    if !case.is_run() {
        return no_run(case, errors);
    }
    match gathered.into_journal() {
        Ok(journal) => ended(explore_behind(alloc, case, journal, manner, lines, files, output)),
        Err(_) => Outcome::of(Err(Fault::Memory)),
    }
}

// The status of a session.
fn ended(explored: Result<Ending, Fault>) -> Outcome {
    match explored {
        Ok(ending) => Outcome::of(Ok(ending.status())),
        Err(fault) => Outcome::of(Err(fault)),
    }
}

// How the answers of `explore` are written.
fn manner_of(options: ExploreOptions<'_>, prompts: bool) -> Manner {
    match (options.json, prompts) {
        (true, _) => Manner::Objects,
        (false, true) => Manner::Prompted,
        (false, false) => Manner::Plain,
    }
}
