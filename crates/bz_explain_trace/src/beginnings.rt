//! Texts in which no line begins a trace, and traces that have another first line.

use crate::items::line_of;
use crate::suspect::Suspect;
use bz_explain_notes::{Notes, put_source};
use bz_view::Piece::Text;

/// The bytes of a line that begins a trace.
const BEGINNING: usize = 7;

/// A line that almost begins a trace.
#[derive(Clone, Copy)]
enum Near {
    /// Something stands in front of it.
    Joined,
    /// A carriage return stands behind it.
    Return,
    /// Blanks stand beside it.
    Blanks,
    /// It is that of another version.
    Version,
}

/// The notes of a text in which no line begins a trace, or only its last one, which has no end.
pub(crate) fn explain_beginning(notes: &mut Notes, suspect: Suspect<'_>) {
    let line = line_of(suspect.trace);
    if is_version(line) && line.len() == suspect.trace.len() {
        put_source(notes, suspect.trace, suspect.trace.len(), " of the trace");
        notes.say(
            "the end of the text\n\
            found: a last line without an end\n\
            expected: a line feed (LF) at the end of each line",
            &[],
        );
    } else if suspect.file.is_some() {
        explain_first(notes, suspect.trace, line);
    } else {
        explain_netlist(notes, suspect.netlist);
    }
}

// The notes of a trace in a file of its own, of which this is the first line.
fn explain_first(notes: &mut Notes, trace: &[u8], line: &[u8]) {
    put_source(notes, trace, 0, " of the trace");
    match near_of(line) {
        Some((_, near)) if !matches!(near, Near::Joined) => say_near(notes, near),
        _ => notes.say(
            "the first line\n\
            expected: a line that is exactly trace 1 or trace 2\n\
            help: the file of --trace has the trace alone",
            &[],
        ),
    }
}

/// The notes of a netlist behind which no line begins a trace.
pub(crate) fn explain_netlist(notes: &mut Notes, netlist: &[u8]) {
    notes.say(
        "found: no line that is exactly trace 1 or trace 2\n\
        expected: such a line behind the netlist, and then the trace",
        &[],
    );
    match nearest(netlist) {
        Some((at, near)) => {
            put_source(notes, netlist, at, "");
            say_near(notes, near);
        }
        None => notes.say(
            "help: --trace FILE takes the trace from a file; or cat makes one text of a netlist and a trace",
            &[],
        ),
    }
}

fn is_version(line: &[u8]) -> bool {
    line == b"trace 1".as_slice() || line == b"trace 2".as_slice()
}

// Tells that a line almost begins a trace, and why it doesn't.
fn say_near(notes: &mut Notes, near: Near) {
    let help = match near {
        Near::Joined =>
            "an end of line is missing in front of it: the netlist's last line has none",
        Near::Return => "a carriage return (CR) stands before its end",
        Near::Blanks => "blanks stand beside it",
        Near::Version => "the versions of traces are 1 and 2",
    };
    notes.say("this line almost begins one\nhelp: %", &[Text(help)]);
}

// The first line that almost begins a trace: the byte at which it does, and why it doesn't.
fn nearest(text: &[u8]) -> Option<(usize, Near)> {
    let mut start = 0usize;
    for line in text.split(|byte| *byte == b'\n') {
        if let Some((before, near)) = near_of(line) {
            return Some((start.saturating_add(before), near));
        }
        start = start.saturating_add(line.len()).saturating_add(1);
    }
    None
}

// How many bytes of a line stand before what almost begins a trace, and why it doesn't.
fn near_of(line: &[u8]) -> Option<(usize, Near)> {
    let core = without_blanks(line);
    let before = core.len().checked_sub(BEGINNING)?;
    let (front, words) = core.split_at(before);
    if !is_version(words) {
        return if core.starts_with(b"trace ") {
            Some((0, Near::Version))
        } else {
            None
        };
    }
    if !without_blanks(front).is_empty() {
        Some((before, Near::Joined))
    } else if line.last() == Some(&b'\r') {
        Some((before, Near::Return))
    } else {
        Some((before, Near::Blanks))
    }
}

// A line without the blanks, tabs and carriage returns at its end.
fn without_blanks(line: &[u8]) -> &[u8] {
    let mut end = 0usize;
    for (place, byte) in line.iter().enumerate() {
        if !matches!(*byte, b' ' | b'\t' | b'\r') {
            end = place.saturating_add(1);
        }
    }
    let (front, _) = line.split_at(end.min(line.len()));
    front
}
