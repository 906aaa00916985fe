//! Why a line is none of a short trace.

use crate::names::ChanNames;
use crate::reading::chan;
use crate::why::string_of;
use bz_text::Text;
use bz_view::Piece;
use std::alloc::Global;
use std::str;

const LINE: &str = "ask K, ask K V, reply K or reply K V";

const CHANNEL: &str =
    "a channel by its number in decimal digits, or by a name that just one channel has";

const VALUE: &str = "a value in decimal digits, below 2^128";

/// Three notes, each behind a line end: the line of this number, from 1, what was found in it, and what was expected. Nothing where
/// memory is wanting.
pub(crate) fn why_bad(alloc: Global, short: &[u8], names: &ChanNames, number: usize) -> String {
    let mut lines = short.split(|byte| *byte == b'\n');
    let line = lines.nth(number.wrapping_sub(1)).unwrap_or(b"");
    let (found, expected) = if lines.next().is_some() {
        reason(line, names)
    } else {
        (line, "an LF at the end of the line")
    };
    let found = if found.is_empty() { b"nothing" } else { found };
    let mut text = Text::new(alloc);
    let pieces = [
        Piece::Number(number),
        Piece::Shown(line),
        Piece::Shown(found),
    ];
    text.say(
        "\nbreezesim: note: % | %\nbreezesim: note: found: %",
        &pieces,
    );
    if let Some((one, other)) = names.both(found) {
        let pieces = [Piece::Number(one), Piece::Number(other)];
        text.say(", the name of the channels % and %", &pieces);
    }
    text.say("\nbreezesim: note: expected: %", &[Piece::Text(expected)]);
    string_of(alloc, &text)
}

// What is bad in a line, and what was expected there.
fn reason<'l>(line: &'l [u8], names: &ChanNames) -> (&'l [u8], &'static str) {
    if line.ends_with(b"\r") {
        return (b"a CR", "an LF alone at the end of the line");
    }
    let (word, operands) = cut(line);
    if !matches!(word, b"ask" | b"reply") {
        return (word, LINE);
    }
    let (word, digits) = cut(operands);
    if is_chan(word, names) {
        (digits, VALUE)
    } else {
        (word, CHANNEL)
    }
}

// What stands before the first space, and what behind it.
fn cut(bytes: &[u8]) -> (&[u8], &[u8]) {
    match bytes.iter().position(|byte| *byte == b' ') {
        Some(place) => (
            bytes.get(..place).unwrap_or(b""),
            bytes.get(place.saturating_add(1)..).unwrap_or(b""),
        ),
        None => (bytes, b""),
    }
}

fn is_chan(word: &[u8], names: &ChanNames) -> bool {
    match str::from_utf8(word) {
        Ok(word) => chan(word, names).is_some(),
        Err(_) => false,
    }
}
