//! How the program ends once its command has: a fault is reported, and notes are made where they were asked for.
//!
//! Of a trace with a reader of its own only the line that the verdict names is kept, since it may be long. The net that refused it goes
//! with the status, so no trace is read again, and a pipe is told the same as a file.

use crate::resting::{note_end, note_rest};
use bz_cli_args::{BAD_COMMAND_LINE, Command, Given, is_file, netlist_in, word_starts};
use bz_cli_input::Fault;
use bz_cli_trace::{Case, split_trace};
use bz_explain::{Asked, Explained, WordFile, Words, explain};
use bz_explain_notes::{Notes, tell, tell_findings, tell_notes};
use bz_explain_trace::{Suspect, explain_no_trace, explain_trace, explain_unrested};
use bz_net::Core;
use bz_view::Piece::Text;
use std::alloc::Global;
use std::io::Write;
use std::rt::Files;

/// Reports what a command came to, with notes where the input was kept for them: on the net that a trace was judged on, and on
/// the one that was played to its end. The status with which the program ends.
pub fn end<F: Files, E: Write>(
    files: &F,
    alloc: Global,
    given: &Given<'_, '_>,
    kept: Option<&[u8]>,
    status: Result<u8, Fault>,
    case: Option<Case>,
    played: Option<&Core>,
    errors: &mut E,
) -> u8 {
    match status {
        Ok(status) => {
            if let Some(kept) = kept {
                note_status(alloc, &*given, status, kept, case, errors);
                if let Some(net) = played {
                    note_played(alloc, given, kept, net, errors);
                }
            }
            status
        }
        Err(fault) => refuse(files, alloc, &fault, given, kept, errors),
    }
}

// Notes what a command on a trace came to.
fn note_status<'a, E: Write>(
    alloc: Global,
    given: &Given<'a, '_>,
    status: u8,
    kept: &'a [u8],
    case: Option<Case>,
    errors: &mut E,
) {
    if let Some(case) = case {
        note_case(alloc, &*given, kept, case, errors);
    } else if status == BAD_COMMAND_LINE && misses_trace(given, kept) {
        let _ = tell_notes(alloc, &explain_no_trace(alloc, kept), errors);
    }
}

// Notes why what was played goes no further, where it rests.
fn note_played<E: Write>(
    alloc: Global,
    given: &Given<'_, '_>,
    kept: &[u8],
    net: &Core,
    errors: &mut E,
) {
    let netlist = netlist_in(given.command, kept);
    note_rest(alloc, given.part, netlist, net, errors);
}

// Whether a trace is asked for after the netlist of a file, and there is none.
fn misses_trace(given: &Given<'_, '_>, kept: &[u8]) -> bool {
    match given.command {
        Command::Check(options) => {
            options.trace.is_none() && !options.several && split_trace(kept).1.is_empty()
        }
        _ => false,
    }
}

// Notes on a trace by the net that it was judged on: why it is not that of a run, or why that goes no further.
fn note_case<'a, E: Write>(
    alloc: Global,
    given: &Given<'a, '_>,
    kept: &'a [u8],
    mut case: Case,
    errors: &mut E,
) {
    if case.passes() {
        return note_end(alloc, case, errors);
    }
    let lines = case.take_kept(alloc);
    let notes = match given.command.trace_file() {
        _ if case.found().unrested => explain_unrested(alloc, case),
        None => explain_trace(alloc, suspect_behind(given.command, kept), case),
        Some(source) => match lines.lines() {
            Some(trace) => {
                let suspect = Suspect {
                    netlist: kept,
                    trace,
                    first: lines.first(),
                    file: Some(source.file().unwrap_or("standard input")),
                };
                explain_trace(alloc, suspect, case)
            }
            None => Notes::new(alloc),
        },
    };
    let _ = tell_notes(alloc, &notes, errors);
}

/// The trace after a netlist.
pub(crate) fn suspect_behind<'t>(command: Command<'_>, kept: &'t [u8]) -> Suspect<'t> {
    let netlist = netlist_in(command, kept);
    let (_, trace) = kept.split_at(netlist.len().min(kept.len()));
    Suspect {
        netlist,
        trace,
        first: 1,
        file: None,
    }
}

// Reports a fault by its line, with notes after it where the input was kept for them.
fn refuse<'a, F: Files, E: Write>(
    files: &F,
    alloc: Global,
    fault: &Fault,
    given: &Given<'a, '_>,
    kept: Option<&'a [u8]>,
    errors: &mut E,
) -> u8 {
    let kept = match (kept, fault) {
        (Some(kept), _) => kept,
        // (what could not be kept for want of memory)
        (None, Fault::Memory) if given.explains => &[],
        (None, _) => return tell(alloc, fault, None, errors),
    };
    // (where memory is wanting for them, the places of words are not shown)
    let starts = match given.word_text {
        Some(text) => word_starts(alloc, text).unwrap_or_else(|_| Vec::new(alloc)),
        None => Vec::new(alloc),
    };
    let asked = Asked {
        netlist: netlist_in(given.command, kept),
        file: given.file,
        part: given.part,
        words: Words {
            list: given.words,
            is_pool: given.command.is_pool(),
            file: given.word_text.map(|text| WordFile {
                text: text.as_bytes(),
                starts: starts.as_slice(),
            }),
        },
    };
    let Explained { mut notes, others } = explain(alloc, fault, asked);
    note_file(files, fault, given.words, &mut notes);
    let status = tell(alloc, fault, Some(&notes), errors);
    let _ = tell_findings(alloc, given.file.unwrap_or("-"), &others, errors);
    status
}

// Notes that a word that is none is a file.
fn note_file<F: Files>(files: &F, fault: &Fault, words: &[&str], notes: &mut Notes) {
    let Fault::Word(number) = fault else {
        return;
    };
    if let Some(word) = words.get(number.saturating_sub(1)) {
        if is_file(files, word) {
            let form = "help: % is a file; files are named by options, as --netlist %";
            notes.say(form, &[Text(word), Text(word)]);
        }
    }
}
