//! What commands make of the trace of a run: a drawing, a chart, a page, or who waits for whom. A trace is judged first, in one
//! place for each way to open a net. One that is that of no run ends the command there, and the net that refused it goes with the
//! status.

ghost use Rattle.std.specs.Prelude.{◌≡◌, ◌≤◌, ◌||◌, [], false, is_some, length, IfErr, OnOk};
ghost use Rattle.std.specs.Io.KnownBytes.{Appends};
ghost use Rattle.std.specs.Option.{option_copied, option_map};
ghost use Rattle.bz_cli_input.specs.Limits.{input_limit};
ghost use Rattle.bz_cli_input.specs.Reading.{ReadsWithin};
ghost use Rattle.bz_cli_input.specs.Stopping.{AppendsSome};
ghost use Rattle.bz_trace.specs.Watching.{ShowsTrace};
ghost use Rattle.bz_cli_trace.specs.Judging.{IsFound};
ghost use Rattle.bz_cli_waits.specs.Telling.{FindsIn};
ghost use Rattle.bz_since.specs.Keeping.{KeepsLine};
ghost use Rattle.bz_cli_commands.specs.Endings.{EndsWith, NoRunEnds, lines_asked, of_made, of_unmade, waits_asked};
ghost use Rattle.bz_cli_commands.specs.Programs.{Makes, MakesIn, MakesOn, WaitsEnds, WaitsOn};

use crate::outcome::Outcome;
use bz_chart::{LineRange, Picked, chart};
use bz_cli_args::{
    ASKED, BAD_COMMAND_LINE, ChartOptions, DONE, DrawOptions, Given, NO_RUN, WaitsOptions,
};
use bz_cli_input::Fault;
use bz_cli_trace::{Case, CheckWay, Texts, Unmade};
use bz_cli_waits::{Played, Told, WaitsAsked, WaitsFault, waits};
use bz_draw::{View, graph_at};
use bz_page::page;
use bz_since::AtLine;
use bz_text::put;
use bz_trace::Verdict;
use std::alloc::Global;
use std::fmt::Display;
use std::io::{Read, Write};

/// What is made of the trace of a run, and goes out.
#[derive(Clone, Copy)]
pub enum Maker<'a> {
    Chart(ChartOptions<'a>),
    /// The net behind a line of it.
    Draw(DrawOptions<'a>),
    Page,
}

/// Makes what is asked for of a trace: of the one that is given, or of the one after the netlist. Why nothing is made goes to
/// `errors`, but for a fault that other commands have too, and so does which files of the source no place names.
pub fn make<R: Read, T: Read, W: Write, E: Write>(
    alloc: Global,
    given: &Given<'_, '_>,
    maker: Maker<'_>,
    input: &mut R,
    trace: Option<&mut T>,
    output: &mut W,
    errors: &mut E,
) -> Outcome
    ensures makes { Makes maker.entry given.now.sources.now (option_copied given.now.part) (R.remaining input.old)
        (option_map (λ apart. T.remaining apart.now) trace.entry) (W.contents output.old) (W.contents output.new) result.status }

    // Whatever comes of it, it reads at most one byte past the limit.
    ensures bounded { ReadsWithin (R.remaining input.old) (R.remaining input.new) }
{
    match Texts::of(alloc, input, trace) {
        Ok(texts) => make_on(alloc, given, maker, &texts, output, errors),
        Err(fault) => Outcome::of(Err(Fault::from(fault))),
    }
}

// Judges the trace, and makes what is asked for of one that is that of a run.
fn make_on<W: Write, E: Write>(
    alloc: Global,
    given: &Given<'_, '_>,
    maker: Maker<'_>,
    texts: &Texts,
    output: &mut W,
    errors: &mut E,
) -> Outcome
    ensures { MakesOn maker.entry given.now.sources.now (option_copied given.now.part) texts.now.netlist texts.now.trace
        (W.contents output.old) (W.contents output.new) result.status }
{
    let (netlist, trace) = texts.both();
    let mut rest = trace;
    let mut at_line = AtLine::new(alloc, line_of(maker));
    let way = CheckWay::whole(given.explains);
    let case = match Case::of(alloc, given.part, netlist, &mut rest, way, &mut at_line) {
        Ok(case) => case,
        Err(fault) => return Outcome::of(Err(fault)),
    };
    if !case.is_run() {
        return no_run(case, errors);
    }
    Outcome::of(made(alloc, given, maker, case, at_line, trace, output, errors))
}

/// A trace that is that of no run ends its command: which line is the first that is wrong goes to `errors`, and the net that
/// refused it goes with the status.
pub fn no_run<E: Write>(case: Case, errors: &mut E) -> Outcome
    ensures { NoRunEnds case.judged.found.verdict result.status }
{
    match case.found().verdict {
        Verdict::Not(line) => {
            let _ = writeln!(errors, "error: not a run: line {line}");
        }
        Verdict::Bad(line) => {
            let _ = writeln!(errors, "error: not a trace: line {line}");
        }
        Verdict::Run => {}
        Verdict::Memory => return Outcome::of(Err(Fault::Memory)),
    }
    Outcome::judged(NO_RUN, case)
}

// The line behind which a net is asked for.
fn line_of(maker: Maker<'_>) -> Option<usize> {
    match maker {
        Maker::Draw(options) => place_of(options.line),
        Maker::Chart(_) | Maker::Page => None,
    }
}

// What is made of the trace of a run.
fn made<W: Write, E: Write>(
    alloc: Global,
    given: &Given<'_, '_>,
    maker: Maker<'_>,
    case: Case,
    at_line: AtLine,
    trace: &[u8],
    output: &mut W,
    errors: &mut E,
) -> Result<u8, Fault>
    requires few { length trace.now ≤ input_limit }
    requires found { IsFound false false case.judged.net.wiring trace.now case.judged }
    requires run { case.judged.found.verdict ≡ Verdict.Run }
    requires shows { ShowsTrace KeepsLine case.judged.net.wiring [] trace.now at_line }
    ensures { MakesIn maker.entry given.now.sources.now case trace.now (W.contents output.old) (W.contents output.new) result }
{
    match maker {
        Maker::Chart(options) => {
            let (range, picked) = range_of(options);
            sent(chart(alloc, range, picked, case, trace), output, errors)
        }
        Maker::Page => ended(
            page(alloc, given.sources, case, trace, output, errors),
            errors,
        ),
        Maker::Draw(options) => {
            let (view, line) = (view_of(options), place_of(options.line));
            match at_line.into_core(line) {
                Ok(kept) => sent(
                    graph_at(alloc, view, line, case, kept, trace),
                    output,
                    errors,
                ),
                Err(_) => Err(Fault::Memory),
            }
        }
    }
}

// Which lines are drawn, and what of them.
fn range_of(options: ChartOptions<'_>) -> (LineRange, Picked<'_>)
    ensures { result.0 ≡ lines_asked options.entry }
{
    let range = LineRange {
        from: place_of(options.from),
        to: place_of(options.to),
        picks: is_picked(options),
    };
    let picked = Picked {
        words: options.only,
        ports: options.ports,
    };
    (range, picked)
}

// Whether only some lifelines are asked for.
fn is_picked(options: ChartOptions<'_>) -> bool
    ensures { result ≡ (is_some options.entry.only || options.entry.ports) }
{
    options.only.is_some() || options.ports
}

/// How much of a net is drawn.
pub(crate) fn view_of(options: DrawOptions<'_>) -> View {
    match options.around {
        Some(comp) => View::Around {
            comp,
            hops: options.hops,
        },
        None => View::Whole {
            depth: options.depth.map(|depth| depth as usize),
        },
    }
}

fn place_of(line: Option<u64>) -> Option<usize>
    ensures { result ≡ line }
{
    match line {
        Some(line) => Some(line as usize),
        None => None,
    }
}

/// Tells who waits for whom behind a line of a trace: of the one that is given, or of the one after the netlist.
pub fn make_waits<R: Read, T: Read, W: Write, E: Write>(
    alloc: Global,
    given: &Given<'_, '_>,
    options: WaitsOptions<'_>,
    input: &mut R,
    trace: Option<&mut T>,
    output: &mut W,
    errors: &mut E,
) -> Outcome
    ensures makes { WaitsEnds options.entry (option_copied given.now.part) (R.remaining input.old)
        (option_map (λ apart. T.remaining apart.now) trace.entry) (W.contents output.old) (W.contents output.new) result.status }

    // Whatever comes of it, it reads at most one byte past the limit.
    ensures bounded { ReadsWithin (R.remaining input.old) (R.remaining input.new) }
{
    match Texts::of(alloc, input, trace) {
        Ok(texts) => waits_on(alloc, given, options, &texts, output, errors),
        Err(fault) => Outcome::of(Err(Fault::from(fault))),
    }
}

// Judges the trace, and tells it of one that is that of a run.
fn waits_on<W: Write, E: Write>(
    alloc: Global,
    given: &Given<'_, '_>,
    options: WaitsOptions<'_>,
    texts: &Texts,
    output: &mut W,
    errors: &mut E,
) -> Outcome
    ensures { WaitsOn options.entry (option_copied given.now.part) texts.now.netlist texts.now.trace
        (W.contents output.old) (W.contents output.new) result.status }
{
    let (netlist, trace) = texts.both();
    let mut rest = trace;
    let mut at_line = AtLine::new(alloc, place_of(options.line));
    let way = CheckWay::whole(given.explains);
    let played = match Played::of(alloc, given.part, netlist, &mut rest, way, &mut at_line) {
        Ok(played) => played,
        Err(fault) => return Outcome::of(Err(fault)),
    };
    if !played.is_run() {
        return no_run(played.into_case(), errors);
    }
    let told = told_of(
        alloc, given, options, played, at_line, netlist, trace, errors,
    );
    Outcome::of(waits_sent(told, options.strict, output, errors))
}

// What is told of the trace of a run.
fn told_of<E: Write>(
    alloc: Global,
    given: &Given<'_, '_>,
    options: WaitsOptions<'_>,
    played: Played,
    at_line: AtLine,
    netlist: &[u8],
    trace: &[u8],
    errors: &mut E,
) -> Result<Told, Unmade<WaitsFault>>
    requires found { IsFound false false played.judged.net.wiring trace.now played.judged }
    requires run { played.judged.found.verdict ≡ Verdict.Run }
    requires shows { ShowsTrace KeepsLine played.judged.net.wiring [] trace.now at_line }
    ensures { FindsIn played.judged.net.wiring trace.now (waits_asked options.entry) result }
{
    let line = place_of(options.line);
    let asked = WaitsAsked {
        line,
        comp: options.comp,
    };
    let (part, files) = (given.part, given.sources);
    match at_line.into_core(line) {
        Ok(kept) => waits(
            alloc, part, asked, files, played, kept, netlist, trace, errors,
        ),
        Err(_) => Err(Unmade::Command(Fault::Memory)),
    }
}

// Sends what was told. Where that is asked for, the status says that something can never move again.
fn waits_sent<W: Write, E: Write>(
    told: Result<Told, Unmade<WaitsFault>>,
    strict: bool,
    output: &mut W,
    errors: &mut E,
) -> Result<u8, Fault>
    ensures { EndsWith told (λ it. it.text.items) (λ it. it.is_stuck) strict
        (W.contents output.old) (W.contents output.new) result }
{
    match told {
        Ok(told) => {
            send(told.text.as_slice(), output)?;
            Ok(if told.is_stuck && strict { ASKED } else { DONE })
        }
        Err(why) => unmade(why, errors),
    }
}

// Sends what was made of a trace. Why nothing was goes to `errors`, but for a fault that other commands have too.
fn sent<C: Display + Drop, W: Write, E: Write>(
    made: Result<Vec<u8>, Unmade<C>>,
    output: &mut W,
    errors: &mut E,
) -> Result<u8, Fault>
    ensures { EndsWith made (λ it. it.items) (λ it. false) false (W.contents output.old) (W.contents output.new) result }
{
    match made {
        Ok(bytes) => {
            send(bytes.as_slice(), output)?;
            Ok(DONE)
        }
        Err(why) => unmade(why, errors),
    }
}

// The status of what was written. Why nothing was goes to `errors`, but for a fault that other commands have too.
fn ended<C: Display + Drop, E: Write>(
    made: Result<(), Unmade<C>>,
    errors: &mut E,
) -> Result<u8, Fault>
    ensures { result ≡ of_made made }
{
    match made {
        Ok(()) => Ok(DONE),
        Err(why) => unmade(why, errors),
    }
}

// The status where nothing is made of the trace of a run.
fn unmade<C: Display + Drop, E: Write>(why: Unmade<C>, errors: &mut E) -> Result<u8, Fault>
    ensures { result ≡ of_unmade why }
{
    match why {
        Unmade::Command(fault) => Err(fault),
        Unmade::Other(why) => {
            let _ = writeln!(errors, "error: {why}");
            Ok(BAD_COMMAND_LINE)
        }
    }
}

// Writes bytes, down to the last one.
fn send<W: Write>(bytes: &[u8], output: &mut W) -> Result<(), Fault>
    ensures ok { OnOk result (Appends (W.contents output.old) (W.contents output.new) bytes.now) }
    ensures err { IfErr result (λ fault. (fault ≡ Fault.Write)
        × AppendsSome (W.contents output.old) (W.contents output.new) bytes.now) }
{
    if put(output, bytes).is_err() {
        return Err(Fault::Write);
    }
    match output.flush() {
        Ok(()) => Ok(()),
        Err(_) => Err(Fault::Write),
    }
}
