//! The command `draw` of a net behind a line of the trace of a run.
//!
//! It refuses a line that isn't there, and then what `draw` refuses. A graph is made whole before any of it goes out.

ghost use Rattle.std.specs.Prelude.{◌≡◌, IfErr, IfOk, IfSome, unwrap_or};
ghost use Rattle.bz_flat.specs.Wires.{EndsOf, WellWired};
ghost use Rattle.bz_since.specs.Keeping.{IsKept};
ghost use Rattle.bz_cli_source.specs.Surveys.{wiring_in};
ghost use Rattle.bz_cli_trace.specs.Judging.{EndsRun, entry_count};
ghost use Rattle.bz_draw.specs.Behind.{DrawsLine, IsLine, IsNoLine};
ghost use Rattle.bz_trace_text.specs.Counting.{line_count};
ghost use Rattle.bz_draw.specs.Drawing.{IsWhole};

use crate::command::graph_in;
use crate::fault::{NoDrawing, NoMoment};
use crate::view::{Moment, View};
use bz_cli_input::Fault;
use bz_cli_trace::{Case, Unmade};
use bz_flat::Pieces;
use bz_net::Core;
use bz_source::Survey;
use bz_text::Text;
use bz_trace_text::line_count;
use std::alloc::{AllocError, Global};

/// The graph of a net behind a line of the trace of a run, by default the last one. `kept` is the net behind the line that is named, as
/// it was kept while the trace was judged; where there is none, the line is behind all entries.
pub fn graph_at(
    alloc: Global,
    view: View,
    asked: Option<usize>,
    case: Case,
    kept: Option<Core>,
    trace: &[u8],
) -> Result<Vec<u8>, Unmade<NoMoment>>
    requires ends { EndsRun case.judged.net trace.now (entry_count case.judged.found.counts) }
    requires behind { IfSome kept (IsKept case.judged.net.wiring trace.now (unwrap_or asked (line_count trace.now))) }
    ensures { DrawsLine asked trace.now result }
{
    let lines = line_count(trace);
    let line = match line_of(asked, lines) {
        Ok(line) => line,
        Err(fault) => return Err(Unmade::Other(fault)),
    };
    match graph_behind(alloc, view, case, kept, trace, line, lines) {
        Ok(Ok(graph)) => Ok(graph),
        Ok(Err(why)) => Err(Unmade::Other(NoMoment::Undrawn(why))),
        Err(AllocError) => Err(Unmade::Command(Fault::Memory)),
    }
}

// The line that is asked for, in a trace of so many lines.
fn line_of(asked: Option<usize>, lines: usize) -> Result<usize, NoMoment>
    ensures ok { IfOk result (IsLine asked lines) }
    ensures err { IfErr result (IsNoLine asked lines) }
{
    let line = match asked {
        None => lines,
        Some(line) => line,
    };
    if line == 0 || line > lines {
        return Err(NoMoment::NoLine { line, lines });
    }
    Ok(line)
}

// The graph of a net behind a line that is there.
fn graph_behind(
    alloc: Global,
    view: View,
    case: Case,
    kept: Option<Core>,
    trace: &[u8],
    line: usize,
    lines: usize,
) -> Result<Result<Vec<u8>, NoDrawing>, AllocError>
    requires ends { EndsRun case.judged.net trace.now (entry_count case.judged.found.counts) }
    requires behind { IfSome kept (IsKept case.judged.net.wiring trace.now line) }
    ensures { IfOk result (λ made. IfOk made (λ graph. IsWhole graph.items)) }
{
    let core = core_behind(alloc, &case, kept, trace, line)?;
    let (flat, source, part) = case.into_flat(alloc)?;
    // a part that has a net has places, so nothing but memory can be wanting
    match source.survey(alloc, part.as_slice()) {
        Ok(survey) => {
            let net = flat.into_pieces();
            let moment = Moment {
                net: &core,
                line,
                lines,
            };
            graph_of_moment(alloc, view, &net, &survey, part.as_slice(), moment)
        }
        Err(_) => Err(AllocError),
    }
}

// The net behind a line of a run.
fn core_behind(
    alloc: Global,
    case: &Case,
    kept: Option<Core>,
    _trace: &[u8],
    line: usize,
) -> Result<Core, AllocError>
    requires ends { EndsRun case.now.judged.net _trace.now (entry_count case.now.judged.found.counts) }
    requires behind { IfSome kept (IsKept case.now.judged.net.wiring _trace.now line) }
    ensures { IfOk result (IsKept case.now.judged.net.wiring _trace.now line) }
{
    match kept {
        Some(core) => Ok(core),
        None if line > case.found().entries() => case.judged.net.core().dup(alloc),
        // (a line before the end that was not kept, for which nothing but memory can be wanting)
        None => Err(AllocError),
    }
}

// The same of a net and its state behind the line.
fn graph_of_moment(
    alloc: Global,
    view: View,
    net: &Pieces,
    survey: &Survey,
    part: &[u8],
    moment: Moment<'_>,
) -> Result<Result<Vec<u8>, NoDrawing>, AllocError>
    requires wired { WellWired (wiring_in net.now) }
    requires ends { EndsOf (wiring_in net.now) net.now.ends.items }
    ensures { IfOk result (λ made. IfOk made (λ graph. IsWhole graph.items)) }
{
    match graph_in(alloc, view, net, survey, part, Some(moment))? {
        Ok(graph) => {
            let graph = bytes_of(alloc, &graph)?;
            Ok(Ok(graph))
        }
        Err(why) => Ok(Err(why)),
    }
}

// The bytes of a graph.
fn bytes_of(alloc: Global, graph: &Text) -> Result<Vec<u8>, AllocError>
    requires { IfSome graph.now IsWhole }
    ensures { IfOk result (λ bytes. IsWhole bytes.items) }
{
    let whole = graph.whole()?;
    Vec::from_slice(alloc, whole)
}
