//! What is said of a trace that is not that of a run.

ghost use Rattle.std.specs.Prelude.{◌≡◌};

use crate::beginnings::{explain_beginning, explain_netlist};
use crate::form_faults::explain_form;
use crate::stops::{explain_end, explain_line};
use crate::suspect::Suspect;
use bz_cli_trace::{Case, Finding};
use bz_explain_notes::Notes;
use bz_model::Names;
use bz_net::Play;
use bz_source::Survey;
use bz_trace::Verdict;
use bz_view::Piece::Text;
use std::alloc::Global;

/// The notes of a trace that was judged and is not that of a run: on the line that the verdict names, by the net that refused it.
/// Of the trace of a run there are none, nor where memory is refused for some of them.
pub fn explain_trace(alloc: Global, suspect: Suspect<'_>, case: Case) -> Notes {
    let mut notes = begun(alloc, suspect, case.found().verdict);
    explain_case(&mut notes, suspect, case);
    notes
}

/// The same of what was found of one of several traces, by the net that is left there and where all of it stands in the text.
pub fn explain_found(
    alloc: Global,
    suspect: Suspect<'_>,
    found: Finding,
    net: &mut Play,
    survey: &Survey,
) -> Notes
    // (a command of the host is tried on it)
    ensures { net.new.wiring ≡ net.old.wiring }
{
    let mut notes = begun(alloc, suspect, found.verdict);
    match found.verdict {
        Verdict::Run if found.unrested => explain_end(&mut notes, net.core(), survey),
        Verdict::Run => {}
        Verdict::Bad(line) => explain_bad(&mut notes, net.names(), suspect, line),
        Verdict::Not(line) => explain_line(&mut notes, net, survey, suspect, line),
        Verdict::Memory => notes.fail(),
    }
    notes
}

// Notes that begin with the name of the trace, where it has one.
fn begun(alloc: Global, suspect: Suspect<'_>, verdict: Verdict) -> Notes {
    let mut notes = Notes::new(alloc);
    if let (Verdict::Bad(_) | Verdict::Not(_), Some(file)) = (verdict, suspect.file) {
        notes.say("the trace is that of %", &[Text(file)]);
    }
    notes
}

fn explain_case(notes: &mut Notes, suspect: Suspect<'_>, case: Case) {
    match case.found().verdict {
        Verdict::Run => {}
        Verdict::Bad(line) => explain_bad(notes, case.judged.net.names(), suspect, line),
        Verdict::Not(line) => {
            let (mut net, source, part) = case.into_parts();
            match source.survey(notes.alloc(), part.as_slice()) {
                Ok(survey) => explain_line(notes, &mut net, &survey, suspect, line),
                Err(_) => notes.fail(),
            }
        }
        Verdict::Memory => notes.fail(),
    }
}

fn explain_bad(notes: &mut Notes, names: &Names, suspect: Suspect<'_>, line: usize) {
    if line == 1 {
        explain_beginning(notes, suspect);
    } else {
        explain_form(notes, names, suspect, line);
    }
}

/// The notes of a netlist in a file, behind which no line begins a trace.
pub fn explain_no_trace(alloc: Global, netlist: &[u8]) -> Notes {
    let mut notes = Notes::new(alloc);
    explain_netlist(&mut notes, netlist);
    notes
}

/// The notes of the trace of a run that was to end at rest: what can move where it ends.
pub fn explain_unrested(alloc: Global, case: Case) -> Notes {
    let mut notes = Notes::new(alloc);
    let (net, source, part) = case.into_parts();
    match source.survey(alloc, part.as_slice()) {
        Ok(survey) => explain_end(&mut notes, net.core(), &survey),
        Err(_) => notes.fail(),
    }
    notes
}
