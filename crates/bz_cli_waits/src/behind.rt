//! The command `waits`: what `waits` of `explore` tells, of any trace.
//!
//! What isn't there of the line and the component is told of a run alone. The text is made whole before any of it goes out. Where it has
//! places of a source that is given, the text of the line there comes into it.

ghost use Rattle.std.specs.Prelude.{◌≡◌, IfSome};
ghost use Rattle.bz_cli_waits.specs.Asking.{line_asked};
ghost use Rattle.bz_trace_text.specs.Counting.{line_count};
ghost use Rattle.bz_since.specs.Keeping.{IsKept};
ghost use Rattle.bz_cli_trace.specs.Judging.{EndsRun, entry_count};
ghost use Rattle.bz_cli_waits.specs.Telling.{FindsIn};

use crate::asked::{WaitsAsked, WaitsFault, line_of};
use crate::played::Played;
use crate::sourced::with_source;
use crate::told::{Told, Wanted, told_of};
use bz_cli_input::Fault;
use bz_cli_trace::Unmade;
use bz_net::Core;
use bz_source::SourceFile;
use bz_trace_text::line_count;
use std::alloc::{AllocError, Global};
use std::io::Write;

/// Tells what waits behind a line of the trace of a run; whether something can never move again there. `kept` is the net behind the line
/// that is named, as it was kept while the trace was judged. Behind a place of one of these files of the source is the text there; it
/// goes to `errors` which of them no place of the net names.
pub fn waits<E: Write>(
    alloc: Global,
    part: Option<&[u8]>,
    asked: WaitsAsked,
    files: &[SourceFile],
    played: Played,
    kept: Option<Core>,
    netlist: &[u8],
    trace: &[u8],
    errors: &mut E,
) -> Result<Told, Unmade<WaitsFault>>
    requires ends { EndsRun played.judged.net trace.now (entry_count played.judged.found.counts) }
    requires behind { IfSome kept (IsKept played.judged.net.wiring trace.now (line_asked asked (line_count trace.now))) }
    ensures { FindsIn played.judged.net.wiring trace.now asked result }
{
    let told = match find_in(alloc, asked, played, kept, netlist, trace) {
        Ok(told) => told,
        Err(fault) => return Err(fault),
    };
    match with_source(alloc, part, netlist, files, told, errors) {
        Ok(told) => Ok(told),
        Err(AllocError) => Err(Unmade::Command(Fault::Memory)),
    }
}

// What is told of a run.
fn find_in(
    alloc: Global,
    asked: WaitsAsked,
    played: Played,
    kept: Option<Core>,
    netlist: &[u8],
    trace: &[u8],
) -> Result<Told, Unmade<WaitsFault>>
    requires ends { EndsRun played.judged.net trace.now (entry_count played.judged.found.counts) }
    requires behind { IfSome kept (IsKept played.judged.net.wiring trace.now (line_asked asked (line_count trace.now))) }
    ensures { FindsIn played.judged.net.wiring trace.now asked result }
{
    let (lines, comps) = (line_count(trace), played.judged.net.core().comp_count());
    let line = match line_of(asked, lines, comps) {
        Ok(line) => line,
        Err(fault) => return Err(Unmade::Other(fault)),
    };
    let comp = asked.comp;
    match told_of(
        alloc,
        played,
        kept,
        netlist,
        trace,
        Wanted { line, lines, comp },
    ) {
        Ok(told) => Ok(told),
        Err(_) => Err(Unmade::Command(Fault::Memory)),
    }
}
