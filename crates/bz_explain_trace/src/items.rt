//! The lines of a trace, and their items, which are one space apart.

use crate::suspect::Suspect;
use bz_explain_notes::{Notes, put_source_from};

/// A line of a trace.
#[derive(Clone, Copy)]
pub(crate) struct LineAt<'t> {
    /// Lines of the trace, this one among them.
    trace: &'t [u8],
    /// The number of the first of them.
    first: usize,
    /// The byte at which this one begins.
    at: usize,
    /// What stands from there on.
    pub(crate) rest: &'t [u8],
}

impl<'t> LineAt<'t> {
    /// A line of a trace, by its number.
    pub(crate) fn of(suspect: Suspect<'t>, number: usize) -> LineAt<'t> {
        let Suspect { trace, first, .. } = suspect;
        let within = number.saturating_sub(first).saturating_add(1);
        let at = start_of_line(trace, within);
        let (_, rest) = trace.split_at(at.min(trace.len()));
        LineAt {
            trace,
            first,
            at,
            rest,
        }
    }

    /// The lines that stand in front of it, as far as they are there.
    pub(crate) fn before(self) -> &'t [u8] {
        self.trace.get(..self.at).unwrap_or(self.trace)
    }

    /// Tells where the line stands, and goes on behind a caret below one of its items.
    pub(crate) fn put(self, notes: &mut Notes, item: usize) {
        let at = self.at.saturating_add(start_of(self.rest, item));
        put_source_from(notes, self.trace, at, self.first, " of the trace");
    }
}

// The byte at which a line begins, by its number from 1; the end of the text where it has no such line.
fn start_of_line(trace: &[u8], number: usize) -> usize {
    let mut line = 1usize;
    for (place, byte) in trace.iter().enumerate() {
        if line == number {
            return place;
        }
        if *byte == b'\n' {
            line = line.saturating_add(1);
        }
    }
    trace.len()
}

/// A line without its end.
pub(crate) fn line_of(text: &[u8]) -> &[u8] {
    match text.iter().position(|byte| *byte == b'\n') {
        Some(end) => &text[..end],
        None => text,
    }
}

// How many bytes of the line at the front of a text stand before an item, counted from 1, or before the end of the line.
fn start_of(text: &[u8], item: usize) -> usize {
    let line = line_of(text);
    let mut number = 1usize;
    for (place, byte) in line.iter().enumerate() {
        if number == item {
            return place;
        }
        if *byte == b' ' {
            number = number.saturating_add(1);
        }
    }
    line.len()
}

/// An item of a line without its end, counted from 1, where there are so many. A line without letters has none.
pub(crate) fn item_of(line: &[u8], item: usize) -> Option<&[u8]> {
    if line.is_empty() {
        return None;
    }
    for (before, word) in line.split(|byte| *byte == b' ').enumerate() {
        if before + 1 == item {
            return Some(word);
        }
    }
    None
}
