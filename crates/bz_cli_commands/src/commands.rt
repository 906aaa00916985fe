//! What each command does. The status with which the program ends, or the fault that it tells.

ghost use Rattle.std.specs.Prelude.{◌≡◌, ◌≤◌, ◌<◌, false, true, IfSome};
ghost use Rattle.std.specs.Option.{option_copied, option_map};
ghost use Rattle.bz_cli.specs.Pooling.{Pools};
ghost use Rattle.bz_cli_core.specs.Running.{Runs};
ghost use Rattle.bz_cli_input.specs.Listed.{Lists};
ghost use Rattle.bz_cli_input.specs.Reading.{ReadsWithin};
ghost use Rattle.bz_cli_commands.specs.Endings.{AreWorkers, Does, IsDone, IsJournal, IsRefused};
ghost use Rattle.bz_cli_commands.specs.Endings.{of_completed, of_done, of_drawing, of_pooled, of_run, pooled_status};
ghost use Rattle.bz_cli_commands.specs.Programs.{CompleteEnds};
ghost use Rattle.bz_cli_source.specs.Listed as placed;
ghost use Rattle.bz_cli_source.specs.PartLists.{ListsParts};
ghost use Rattle.bz_cli_kinds.specs.Kinds.{TellsKinds};
ghost use Rattle.bz_draw.specs.Drawing.{Draws};
ghost use Rattle.bz_draw.specs.declared.fault.NoDrawing.{NoDrawing};
ghost use Rattle.bz_words.specs.Words.{texts};

use crate::makers::view_of;
use crate::outcome::{Ended, Outcome};
use bz_cli::{Pooled, pool_cmd};
use bz_cli_args::{
    ASKED, BAD_COMMAND_LINE, CompleteOptions, DONE, DrawOptions, FormatOptions, Given, LintOptions,
    ListOptions, MAX_JOURNAL, MAX_WORKERS, PoolOptions, RunOptions,
};
use bz_cli_core::{Halt, Played, run_cmd};
use bz_cli_input::{Fault, list_cmd};
use bz_cli_kinds::kinds_cmd;
use bz_cli_source::{list_paths_cmd, parts_cmd};
use bz_complete::{CompleteAsked, CompleteFault, complete_cmd};
use bz_cover::Counted;
use bz_draw::{NoDrawing, draw_cmd};
use bz_explain::{Lint, lint_cmd};
use bz_model::Reply;
use bz_pool::End;
use bz_trace::{Unwatched, Watch};
use std::alloc::Global;
use std::io::{Read, Write};
use std::sync::Wait;
use std::thread::Threads;

/// Plays the words on a net, and writes the trace. A strict run halts at the first host command that is not done, and reports it
/// to `errors`. Where notes are asked for, the net goes with the status; and where that is asked for, what the run exercised.
pub fn run<R: Read, W: Write, E: Write>(
    alloc: Global,
    given: &Given<'_, '_>,
    options: RunOptions<'_>,
    input: &mut R,
    output: &mut W,
    errors: &mut E,
) -> Outcome
    ensures refused { (IsJournal options.entry.journal → ⊥)
        → IsRefused (W.contents output.old) (W.contents output.new) result.status }
    ensures runs { IsJournal options.entry.journal → IfSome (R.remaining input.old)
        (λ text. Does of_run
        (Runs text (texts given.now.words.now) (option_copied given.now.part) options.entry.journal options.entry.strict
        (W.contents output.old) (W.contents output.new))
        result.status) }

    // Whatever comes of it, it reads at most one byte past the limit.
    ensures bounded { ReadsWithin (R.remaining input.old) (R.remaining input.new) }
{
    let journal = options.journal;
    if journal == 0 || journal > MAX_JOURNAL {
        return Outcome::of(Ok(BAD_COMMAND_LINE));
    }
    if options.cover.is_none() {
        let nobody = &mut Unwatched;
        return run_watched(alloc, given, options, input, output, errors, nobody);
    }
    let mut counted = Counted::new();
    run_watched(alloc, given, options, input, output, errors, &mut counted).counted(
        counted.into_coverage(),
    )
}

// The same, where the journal may be so long. Who watches sees each entry.
fn run_watched<R: Read, W: Write, E: Write, S: Watch>(
    alloc: Global,
    given: &Given<'_, '_>,
    options: RunOptions<'_>,
    input: &mut R,
    output: &mut W,
    errors: &mut E,
    watch: &mut S,
) -> Outcome
    requires least { 0 < options.journal }
    requires most { options.journal ≤ 16777216 }
    ensures runs { IfSome (R.remaining input.old) (λ text. Does of_run
        (Runs text (texts given.now.words.now) (option_copied given.now.part) options.entry.journal options.entry.strict
        (W.contents output.old) (W.contents output.new)) result.status) }
    ensures bounded { ReadsWithin (R.remaining input.old) (R.remaining input.new) }
{
    let played = run_cmd(
        alloc,
        given.part,
        options.journal,
        options.strict,
        given.words,
        input,
        output,
        watch,
    );
    ended(given.explains || options.cover.is_some(), played, errors)
}

// The status of a run. Where it halted is reported. What was played goes with the status where that is wanted.
fn ended<E: Write>(keeps: bool, played: Result<Played, Fault>, errors: &mut E) -> Outcome
    ensures { result.status ≡ of_run played }
{
    let played = match played {
        Ok(played) => played,
        Err(unplayed) => return Outcome::of(Err(unplayed)),
    };
    match played.halt {
        Some(halt) => {
            tell_halt(halt, errors);
            Outcome::played(ASKED, Ended::Run(played), keeps)
        }
        None => Outcome::played(DONE, Ended::Run(played), keeps),
    }
}

// Reports the host command at which a strict run halted.
fn tell_halt<E: Write>(halt: Halt, errors: &mut E) {
    let answer = match halt.reply {
        Reply::Busy(_) => "busy",
        Reply::NotYet => "not-yet",
        _ => "not-taken",
    };
    let _ = writeln!(
        errors,
        "error: --strict: word {} is answered {answer}",
        halt.word
    );
}

/// Makes the short trace that is given whole, and writes the trace. Why there is none goes to `errors`, but for a fault that
/// other commands have too.
pub fn complete<R: Read, T: Read, W: Write, E: Write>(
    alloc: Global,
    part: Option<&[u8]>,
    options: CompleteOptions<'_>,
    explains: bool,
    input: &mut R,
    short: Option<&mut T>,
    output: &mut W,
    errors: &mut E,
) -> Result<u8, Fault>
    ensures completes { CompleteEnds (option_copied part.entry) (R.remaining input.old)
        (option_map (λ apart. T.remaining apart.now) short.entry) (W.contents output.old) (W.contents output.new) result }

    // Whatever comes of it, it reads at most one byte past the limit.
    ensures bounded { ReadsWithin (R.remaining input.old) (R.remaining input.new) }
{
    let asked = CompleteAsked {
        to_rest: options.to_rest,
        explains,
    };
    match short {
        Some(short) => {
            let completed = complete_cmd(alloc, part, asked, input, short, output);
            completed_or_not(completed, errors)
        }
        None => Ok(BAD_COMMAND_LINE),
    }
}

// The status of a short trace that was made whole. Why it wasn't goes to `errors`.
fn completed_or_not<E: Write>(
    completed: Result<(), CompleteFault>,
    errors: &mut E,
) -> Result<u8, Fault>
    ensures { result ≡ of_completed completed }
{
    match completed {
        Ok(()) => Ok(DONE),
        Err(CompleteFault::Command(fault)) => Err(fault),
        Err(cause) => {
            let _ = writeln!(errors, "error: {cause}");
            Ok(cause.status())
        }
    }
}

/// Lists a net, with places where they are asked for.
pub fn list<R: Read, W: Write>(
    alloc: Global,
    part: Option<&[u8]>,
    options: ListOptions,
    input: &mut R,
    output: &mut W,
) -> Result<u8, Fault>
    ensures plainly { options.paths ≡ false → IfSome (R.remaining input.old)
        (λ text. IsDone (Lists text (option_copied part.entry) (W.contents output.old) (W.contents output.new)) result) }
    ensures places { options.paths ≡ true → IfSome (R.remaining input.old)
        (λ text. IsDone (placed.Lists text (option_copied part.entry) (W.contents output.old) (W.contents output.new)) result) }

    // Whatever comes of it, it reads at most one byte past the limit.
    ensures bounded { ReadsWithin (R.remaining input.old) (R.remaining input.new) }
{
    if options.paths {
        done(list_paths_cmd(alloc, part, input, output))
    } else {
        done(list_cmd(alloc, part, input, output))
    }
}

/// Lists the parts of a netlist.
pub fn parts<R: Read, W: Write>(alloc: Global, input: &mut R, output: &mut W) -> Result<u8, Fault>
    ensures parts { IfSome (R.remaining input.old)
        (λ text. IsDone (ListsParts text (W.contents output.old) (W.contents output.new)) result) }

    // Whatever comes of it, it reads at most one byte past the limit.
    ensures bounded { ReadsWithin (R.remaining input.old) (R.remaining input.new) }
{
    done(parts_cmd(alloc, input, output))
}

/// Tells the kinds of component.
pub fn kinds<W: Write>(alloc: Global, options: FormatOptions, output: &mut W) -> Result<u8, Fault>
    ensures kinds { IsDone (TellsKinds options.json (W.contents output.old) (W.contents output.new)) result }
{
    done(kinds_cmd(alloc, options.json, output))
}

/// Tells all that is found in a netlist.
pub fn lint<R: Read, W: Write>(
    alloc: Global,
    given: &Given<'_, '_>,
    options: LintOptions,
    input: &mut R,
    output: &mut W,
) -> Result<u8, Fault>
    // Whatever comes of it, it reads at most one byte past the limit.
    ensures bounded { ReadsWithin (R.remaining input.old) (R.remaining input.new) }
{
    let lint = Lint {
        part: given.part,
        file: given.file,
        is_json: options.json,
        most: options.most as usize,
    };
    match lint_cmd(alloc, lint, input, output) {
        Ok(is_sound) => Ok(u8::from(!is_sound)),
        Err(fault) => Err(fault),
    }
}

/// Draws a net. Why there is no drawing is printed on `errors`, but for a fault that other commands have too.
pub fn draw<R: Read, W: Write, E: Write>(
    alloc: Global,
    part: Option<&[u8]>,
    options: DrawOptions<'_>,
    input: &mut R,
    output: &mut W,
    errors: &mut E,
) -> Result<u8, Fault>
    ensures draws { IfSome (R.remaining input.old) (λ text. Does of_drawing (Draws {N = NoDrawing} text (option_copied part.entry)
        (W.contents output.old) (W.contents output.new)) result) }

    // Whatever comes of it, it reads at most one byte past the limit.
    ensures bounded { ReadsWithin (R.remaining input.old) (R.remaining input.new) }
{
    let drawn = draw_cmd(alloc, part, view_of(options), input, output);
    drawn_or_told(drawn, errors)
}

// The status of a drawing. Why there is none is printed.
fn drawn_or_told<E: Write>(
    drawn: Result<Option<NoDrawing>, Fault>,
    errors: &mut E,
) -> Result<u8, Fault>
    ensures { result ≡ of_drawing drawn }
{
    match drawn {
        Ok(None) => Ok(DONE),
        Ok(Some(why)) => {
            let _ = writeln!(errors, "error: {why}");
            Ok(BAD_COMMAND_LINE)
        }
        Err(fault) => Err(fault),
    }
}

/// Plays sessions beside workers, writes the trace, and notes on `errors` which sessions still waited. Where it is strict, the
/// status says so too. If notes are asked for and a session still waited at rest, the net goes with the status.
pub fn pool<T: Threads + Wait + Sync, R: Read, W: Write, E: Write>(
    threads: &T,
    alloc: Global,
    given: &Given<'_, '_>,
    options: PoolOptions<'_>,
    input: &mut R,
    output: &mut W,
    errors: &mut E,
) -> Outcome
    ensures refused { (AreWorkers options.entry.workers × IsJournal options.entry.journal → ⊥)
        → IsRefused (W.contents output.old) (W.contents output.new) result.status }
    ensures pools { AreWorkers options.entry.workers → IsJournal options.entry.journal
        → IfSome (R.remaining input.old) (λ text. Does (of_pooled options.entry.strict)
        (Pools text (texts given.now.words.now) (option_copied given.now.part) options.entry.workers options.entry.fuel
        options.entry.journal (W.contents output.old) (W.contents output.new))
        result.status) }

    // Whatever comes of it, it reads at most one byte past the limit.
    ensures bounded { ReadsWithin (R.remaining input.old) (R.remaining input.new) }
{
    let asked = bz_cli::PoolOptions {
        workers: options.workers,
        fuel: options.fuel,
        journal: options.journal,
    };
    if options.workers == 0 || options.workers > MAX_WORKERS {
        return Outcome::of(Ok(BAD_COMMAND_LINE));
    }
    if options.journal == 0 || options.journal > MAX_JOURNAL {
        return Outcome::of(Ok(BAD_COMMAND_LINE));
    }
    let pooled = pool_cmd(
        threads,
        alloc,
        given.part,
        asked,
        given.words,
        input,
        output,
    );
    closed(given.explains, options.strict, pooled, errors)
}

// The status of a pool. Which sessions still waited is noted; where one of them was at rest, the net goes with the status if
// notes are asked for.
fn closed<E: Write>(
    explains: bool,
    strict: bool,
    pooled: Result<Pooled, Fault>,
    errors: &mut E,
) -> Outcome
    ensures { result.status ≡ of_pooled strict pooled }
{
    match pooled {
        Ok(pooled) => {
            let status = status_of(strict, pooled.is_done);
            let rests = note_ends(pooled.ends.as_slice(), errors) && explains;
            Outcome::played(status, Ended::Pool(pooled), rests)
        }
        Err(fault) => Outcome::of(Err(fault)),
    }
}

// The status of a pool whose trace went out, by whether each session has played all its words.
fn status_of(strict: bool, is_done: bool) -> u8
    ensures { result ≡ pooled_status strict is_done }
{
    if is_done {
        DONE
    } else if strict {
        ASKED
    } else {
        DONE
    }
}

// Notes on the sessions that still waited. Whether one of them was at rest.
fn note_ends<E: Write>(ends: &[End], errors: &mut E) -> bool {
    let mut is_at_rest = false;
    for (place, end) in ends.iter().enumerate() {
        note_end(place + 1, *end, errors);
        if let End::Resting(word) = *end {
            is_at_rest = is_at_rest || word > 0;
        }
    }
    is_at_rest
}

// A note on a session that still waited when the net came to its end. The end of a worker names no word.
fn note_end<E: Write>(session: usize, end: End, errors: &mut E) {
    let (how, word) = match end {
        End::Resting(word) => ("resting", word),
        End::Spent(word) => ("spent", word),
        _ => ("", 0),
    };
    if word > 0 {
        let _ = writeln!(errors, "breezesim: session {session} {how} at word {word}");
    }
}

// The status of a command that answers nothing.
fn done(answer: Result<(), Fault>) -> Result<u8, Fault>
    ensures { result ≡ of_done answer }
{
    match answer {
        Ok(()) => Ok(DONE),
        Err(fault) => Err(fault),
    }
}
