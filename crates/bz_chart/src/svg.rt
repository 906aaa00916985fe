//! The text of a drawing: parts of SVG, written one after another.

ghost use Rattle.bz_chart_layout.specs.Layout.{IsClear};

use crate::words::Cut;
use bz_model::Value;
use bz_text::{Piece, put_pieces};
use std::alloc::{AllocError, Global};

const CROSS: &str = "<path d=\"M% %l8 8m0 -8l-8 8\" stroke=\"$\" stroke-width=\"2\"/>\n";

const TRIANGLE: &str = "<path d=\"M% %l6 12h-12z\" fill=\"$\" stroke=\"#222222\"/>\n";

const CIRCLE: &str = "<circle cx=\"%\" cy=\"%\" r=\"4\" fill=\"#ffffff\" stroke=\"$\"/>\n";

pub(crate) const DARK: &str = "#222222";

pub(crate) const RED: &str = "#c00000";

pub(crate) const PUSH: &str = "#1a56a0";

pub(crate) const PULL: &str = "#b04a00";

/// The ground, which is light, so that a chart is read on a dark page too.
pub(crate) const GROUND: &str = "#fafafa";

// how a text is set, as attributes
pub(crate) const MIDDLE: &str = " text-anchor=\"middle\"";

pub(crate) const LINE: &str = " xml:space=\"preserve\"";

pub(crate) const HOST_LINE: &str = " font-weight=\"bold\" xml:space=\"preserve\"";

/// A filled rectangle: its left, its top, its width, its height and its colour.
pub(crate) const RECT: &str = "<rect x=\"%\" y=\"%\" width=\"%\" height=\"%\" fill=\"$\"/>\n";

/// The text of a drawing. It keeps whether memory was refused, and tells that at its end alone.
#[derive(Drop)]
pub(crate) struct Pen {
    alloc: Global,
    text: Vec<u8>,
    is_short: bool,
}

impl Pen {
    pub fn new(alloc: Global) -> Pen {
        Pen {
            alloc,
            text: Vec::new(alloc),
            is_short: false,
        }
    }

    pub fn alloc(&self) -> Global {
        self.alloc
    }

    /// Notes that memory was refused.
    pub fn fail(&mut self) {
        self.is_short = true;
    }

    /// The whole text.
    pub fn end(self) -> Result<Vec<u8>, AllocError> {
        if self.is_short {
            Err(AllocError)
        } else {
            Ok(self.text)
        }
    }

    /// Writes all that another one has.
    pub fn add(&mut self, other: &Pen) {
        self.put_bytes(other.text.as_slice());
        self.is_short = self.is_short || other.is_short;
    }

    /// Writes a form: for each `%` the next number, and for each `$` the text.
    pub fn put(&mut self, form: &str, numbers: &[u64], text: &str) {
        let form = form.as_bytes();
        let mut left = numbers;
        for piece in form.split_inclusive(|byte| matches!(byte, b'%' | b'$')) {
            match (piece, left) {
                ([before @ .., b'%'], [number, others @ ..]) => {
                    self.put_bytes(before);
                    self.put_number(*number);
                    left = others;
                }
                ([before @ .., b'$'], _) => self.put_both(before, text.as_bytes()),
                _ => self.put_bytes(piece),
            }
        }
    }

    /// Writes what is shown of a word.
    pub fn put_word(&mut self, word: Cut<'_>) {
        if word.text.len() <= word.most {
            self.put_letters(word.text);
        } else {
            self.put_letters(&word.text[..word.most.saturating_sub(1)]);
            self.put_bytes("…".as_bytes());
        }
    }

    /// The text of these parts, which is written elsewhere.
    pub fn spell(&mut self, parts: &[Piece<'_>]) -> Vec<u8> {
        let mut text = Vec::new(self.alloc);
        if put_pieces(&mut text, parts).is_err() {
            self.is_short = true;
        }
        text
    }

    // Letters, where those that XML takes for its own are written by name.
    fn put_letters(&mut self, letters: &[u8]) {
        for piece in letters.split_inclusive(|byte| matches!(byte, b'&' | b'<' | b'>' | b'"')) {
            match piece {
                [before @ .., b'&'] => self.put_both(before, b"&amp;"),
                [before @ .., b'<'] => self.put_both(before, b"&lt;"),
                [before @ .., b'>'] => self.put_both(before, b"&gt;"),
                [before @ .., b'"'] => self.put_both(before, b"&quot;"),
                _ => self.put_bytes(piece),
            }
        }
    }

    fn put_both(&mut self, one: &[u8], other: &[u8]) {
        self.put_bytes(one);
        self.put_bytes(other);
    }

    fn put_number(&mut self, number: u64) {
        if put_pieces(&mut self.text, &[Piece::Number(Value::from(number))]).is_err() {
            self.is_short = true;
        }
    }

    fn put_bytes(&mut self, bytes: &[u8]) {
        if self.text.extend_from_slice(bytes).is_err() {
            self.is_short = true;
        }
    }
}

/// A text, set in this way.
pub(crate) fn put_text(pen: &mut Pen, x: u64, y: u64, set: &str, text: Cut<'_>) {
    pen.put("<text x=\"%\" y=\"%\"$>", &[x, y], set);
    pen.put_word(text);
    pen.put("</text>\n", &[], "");
}

/// A cross of 8 by 8 with its middle here.
pub(crate) fn put_cross(pen: &mut Pen, x: u64, y: u64)
    requires right { IsClear x }
    requires below { IsClear y }
{
    pen.put(CROSS, &[x - 4, y - 4], RED);
}

/// A triangle of 12 by 12 with its middle here.
pub(crate) fn put_triangle(pen: &mut Pen, x: u64, y: u64)
    requires { IsClear y }
{
    pen.put(TRIANGLE, &[x, y - 6], RED);
}

/// A circle of radius 4 with its middle here.
pub(crate) fn put_circle(pen: &mut Pen, x: u64, y: u64) {
    pen.put(CIRCLE, &[x, y], DARK);
}
