//! What stands for a mark in a form.

use bz_kind_rows::PortAt;
use bz_model::Value;
use bz_source::PathAt;
use bz_text::{Piece as Part, Put, Text};

/// The most letters of a name in a label: Graphviz takes no more than some thousand.
const MOST_LETTERS: usize = 100;

/// The letters that a label between quotes has behind a backslash.
const QUOTED: &[u8] = b"\\\"";

/// The same of a label that is a record.
pub(crate) const RECORD: &[u8] = b"\\\"{}|<>";

/// What stands for a mark in a form.
#[derive(Clone, Copy)]
pub(crate) enum Piece<'a> {
    Text(&'a str),
    Bytes(&'a [u8]),
    Number(usize),
    Value(Value),
    /// A number of things, as `1 port` and `2 ports`.
    Count(usize, &'static str),
    /// A name in name form, as a label has it, cut where it is too long.
    Label(&'a [u8]),
    /// The name of a port, with its number where it is one of an array.
    Port(Option<PortAt>),
    /// The path of an instance, with this between its steps.
    Path(&'static str, &'a PathAt),
    /// The blanks before what is within so many clusters.
    Pad(usize),
}

impl Put for Piece<'_> {
    fn put(&self, text: &mut Text) {
        match *self {
            Piece::Text(words) => text.put(words),
            Piece::Bytes(bytes) => text.put_bytes(bytes),
            Piece::Number(number) => text.put_pieces(&[Part::Number(number as u128)]),
            Piece::Value(value) => text.put_pieces(&[Part::Number(value)]),
            Piece::Count(count, thing) => text.put_count(count, thing),
            Piece::Label(name) => put_label(text, name),
            Piece::Port(at) => put_port(text, at),
            Piece::Path(between, place) => put_path(text, between, place),
            Piece::Pad(level) => put_pad(text, level),
        }
    }
}

fn put_label(text: &mut Text, name: &[u8]) {
    let mut form = Text::new(text.alloc());
    form.put_pieces(&[Part::Name(name)]);
    match form.whole() {
        Ok(form) => put_cut(text, form, MOST_LETTERS, QUOTED),
        Err(_) => text.lose(),
    }
}

/// Adds letters as a label has them, these behind a backslash. Of more than `most` the last that is told is an ellipsis.
pub(crate) fn put_cut(text: &mut Text, letters: &[u8], most: usize, special: &[u8]) {
    if letters.len() <= most {
        put_quoted(text, letters, special);
    } else {
        let front = letters.get(..most.saturating_sub(1)).unwrap_or(&[]);
        put_quoted(text, front, special);
        text.put("…");
    }
}

fn put_quoted(text: &mut Text, letters: &[u8], special: &[u8]) {
    for letter in letters {
        if *letter == b'&' {
            text.put("&amp;");
        } else if special.contains(letter) {
            text.put_bytes(&[b'\\', *letter]);
        } else {
            text.put_bytes(&[*letter]);
        }
    }
}

fn put_port(text: &mut Text, at: Option<PortAt>) {
    if let Some(at) = at {
        text.put(at.row.name);
        if let Some(member) = at.member {
            text.put_pieces(&[Part::Number(u128::from(member))]);
        }
    }
}

fn put_path(text: &mut Text, between: &str, place: &PathAt) {
    for step in &place.path {
        let between = Part::Bytes(between.as_bytes());
        text.put_pieces(&[Part::Number(*step as u128), between]);
    }
    text.put_pieces(&[Part::Number(place.position as u128)]);
}

fn put_pad(text: &mut Text, level: usize) {
    for _ in 0..=level {
        text.put("  ");
    }
}
