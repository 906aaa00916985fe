//! Words beside a lifeline.

ghost use Rattle.bz_chart_layout.specs.Layout.{IsClear};

use crate::lanes::Side;
use crate::svg::Pen;
use crate::words::{Cut, letter_count};
use bz_chart_layout::Denial;
use bz_model::{Phase, Value};
use bz_source::{Label, Survey, put_label as put_label_of};
use bz_text::Piece;

const LABEL: &str =
    "<rect x=\"%\" y=\"%\" width=\"%\" height=\"10\" fill=\"#fafafa\" fill-opacity=\"0.8\"/>\n<text x=\"%\" y=\"%\" fill=\"$\">";

/// How many digits a value has at most where all of them are shown at an arrow.
const MOST_DIGITS: usize = 8;

/// A word beside a lifeline, and what is told where it is pointed at.
#[derive(Clone, Copy)]
pub(crate) struct Word<'a> {
    pub text: &'a [u8],
    pub title: &'a [u8],
    pub colour: &'static str,
}

/// A word that begins at `x`, or ends there where it stands at the left, on a line at `y`.
pub(crate) fn put_label(pen: &mut Pen, x: u64, y: u64, side: Side, word: Word<'_>)
    requires right { IsClear x }
    requires below { IsClear y }
{
    let width = 7 * u64::from(letter_count(word.text)) + 2;
    let left = match side {
        Side::Left => x.saturating_sub(width),
        Side::Right => x,
    };
    pen.put(LABEL, &[left, y - 11, width, left + 1, y - 2], word.colour);
    if !word.title.is_empty() {
        pen.put("<title>", &[], "");
        pen.put_word(Cut::whole(word.title));
        pen.put("</title>", &[], "");
    }
    pen.put_word(Cut::whole(word.text));
    pen.put("</text>\n", &[], "");
}

/// The word of a trace for how a host is told no.
pub(crate) fn denial_word(denial: Denial) -> &'static str {
    match denial {
        Denial::NotYet => "not-yet",
        Denial::Busy => "busy",
        Denial::NotTaken => "not-taken",
    }
}

/// The word of a phase, without its value.
pub(crate) fn phase_word(phase: Phase) -> &'static str {
    match phase {
        Phase::Idle => "idle",
        Phase::Asked(_) => "asked",
        Phase::Taken => "taken",
        Phase::Replied(_) => "replied",
        Phase::Broken => "broken",
    }
}

/// What the text calls a channel, and where it comes from; nothing where the text tells neither.
pub(crate) fn channel_title(pen: &mut Pen, survey: &Survey, chan: u32) -> Vec<u8> {
    let label = Label {
        name: survey.chan_name(chan),
        source: survey.chan_source(chan),
    };
    if label.name.is_none() && label.source.is_none() {
        return Vec::new(pen.alloc());
    }
    let mut title = pen.spell(&[Piece::Bytes(b"channel "), Piece::Number(Value::from(chan))]);
    if put_label_of(&mut title, label).is_err() {
        pen.fail();
    }
    title
}

/// A channel, and the value that rides on it.
pub(crate) fn channel_label(pen: &mut Pen, chan: u32, value: Option<Value>) -> Vec<u8> {
    match value {
        Some(value) => {
            let digits = pen.spell(&[Piece::Number(value)]);
            value_label(pen, chan, digits.as_slice())
        }
        None => pen.spell(&[Piece::Number(Value::from(chan))]),
    }
}

// Of a value that is long the first digits are shown, and the last.
fn value_label(pen: &mut Pen, chan: u32, digits: &[u8]) -> Vec<u8> {
    let (first, dots, last): (&[u8], &str, &[u8]) = if digits.len() <= MOST_DIGITS {
        (digits, "", b"")
    } else {
        (&digits[..3], "…", &digits[digits.len() - 3..])
    };
    pen.spell(&[
        Piece::Number(Value::from(chan)),
        Piece::Bytes(b" = "),
        Piece::Bytes(first),
        Piece::Bytes(dots.as_bytes()),
        Piece::Bytes(last),
    ])
}
