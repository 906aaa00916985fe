//! The line of a text at which something stands, with a caret below it.
//!
//! Of a longer line 100 bytes are shown, always with the place that is meant.

use crate::notes::{Notes, Place};
use crate::spot::{before_in_line, spot_of};
use bz_view::Piece::{Bytes, Number, Text};

/// The most bytes of a line that are shown.
const MOST_SHOWN: usize = 100;

/// How many of them stand before the place, in a line that is longer.
const SHOWN_BEFORE: usize = 40;

/// What stands where something is left out.
const CUT: &str = "..";

/// Enough blanks to come below a line that is shown.
static BLANKS: [u8; 128] = [b' '; 128];

/// The piece of a line that is shown.
#[derive(Clone, Copy)]
struct Window<'t> {
    before: &'static str,
    shown: &'t [u8],
    behind: &'static str,
    /// How many letters stand before the place.
    caret: usize,
}

/// Tells where a byte of a text stands: its line and column, with `of` behind them or the name of the file in front, then the
/// line itself, and goes on behind a caret below it.
pub fn put_source(notes: &mut Notes, text: &[u8], at: usize, of: &str) {
    put_source_from(notes, text, at, 1, of);
}

/// The same of a piece of a text, whose first line has this number in it.
pub fn put_source_from(notes: &mut Notes, text: &[u8], at: usize, first: usize, of: &str) {
    let mut spot = spot_of(text, at);
    spot.line = spot.line.saturating_add(first.saturating_sub(1));
    let place = Place { byte: at, spot };
    let window = window_of(text, at);
    let (before, behind) = (Text(window.before), Text(window.behind));
    notes.put("at ", &[]);
    notes.put_spot(place, of);
    notes.put("\n%", &[Number(spot.line)]);
    let digits = notes.width();
    let shown = Bytes(window.shown);
    let (margin, caret) = (Bytes(blanks(digits)), Bytes(blanks(window.caret)));
    notes.put(" | %%%\n% | %^ ", &[before, shown, behind, margin, caret]);
}

// This many blanks, 128 at most.
fn blanks(count: usize) -> &'static [u8] {
    BLANKS.get(..count).unwrap_or(&BLANKS)
}

// The piece of the line of a byte that is shown.
fn window_of(text: &[u8], at: usize) -> Window<'_> {
    let (line, place) = line_of(text, at);
    if line.len() <= MOST_SHOWN {
        return Window {
            before: "",
            shown: line,
            behind: "",
            caret: place,
        };
    }
    let from = place
        .saturating_sub(SHOWN_BEFORE)
        .min(line.len() - MOST_SHOWN);
    let to = from + MOST_SHOWN;
    let before = if from > 0 { CUT } else { "" };
    let behind = if to < line.len() { CUT } else { "" };
    Window {
        before,
        shown: &line[from..to],
        behind,
        caret: before.len().saturating_add(place.saturating_sub(from)),
    }
}

// The line of a byte, without its end, and how many bytes of it stand before that byte.
fn line_of(text: &[u8], at: usize) -> (&[u8], usize) {
    let (front, behind) = text.split_at(at.min(text.len()));
    let place = before_in_line(front);
    let rest = match behind.iter().position(|byte| *byte == b'\n') {
        Some(rest) => rest,
        None => behind.len(),
    };
    let start = front.len() - place;
    (&text[start..front.len() + rest], place)
}
