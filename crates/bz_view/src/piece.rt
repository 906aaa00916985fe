//! What stands for a mark in a form.

use crate::naming::{
    put_host_word, put_instance, put_name, put_port, put_source, put_typed, put_typed_json,
};
use bz_kind_rows::PortAt;
use bz_model::{Chan, Phase, Reply, Value, Verb};
use bz_source::{Label, LineAt, Records, Survey, put_path};
use bz_text::{Piece as Part, Put, Text};
use std::io::Write;

/// The most bytes that are shown of a name, and of what was given.
const MOST_SHOWN: usize = 100;

/// The label of something of which nothing is said.
const UNNAMED: Label<'static> = Label {
    name: None,
    source: None,
};

/// A place in a text, line and column counted from 1. A column is a byte.
#[derive(Clone, Copy, PartialEq, Eq)]
pub struct Spot {
    pub line: usize,
    pub column: usize,
}

/// What stands for a `%` of a form that people read. It holds nothing that holds much: each place of this type costs whoever
/// proves a function all that can be in it.
#[derive(Clone, Copy)]
pub enum Piece<'a> {
    Text(&'a str),
    Bytes(&'a [u8]),
    /// A string of JSON. What is no UTF-8 is U+FFFD there.
    Json(&'a [u8]),
    /// A name as it is typed in a session, as a string of JSON.
    JsonTyped(&'a [u8]),
    /// Whether something is so, as JSON has it.
    Flag(bool),
    /// The name of a file: a control character is a question mark.
    File(&'a str),
    /// What was given: of more than 100 bytes the first 100, and two dots; a `?` for each byte that is not printable.
    Shown(&'a [u8]),
    /// A name in name form, shortened like that.
    Name(&'a [u8]),
    /// A name as it is typed in a session: in name form, and a `#`, which would begin a comment, by its number.
    Typed(&'a [u8]),
    /// The same, shortened.
    Called(&'a [u8]),
    Number(usize),
    Wide(Value),
    /// A blank and a value, where there is one.
    Value(Option<Value>),
    /// A number of things, by the noun for one: `1 line`, `2 lines`, `2 entries`.
    Count(usize, &'a str),
    /// A component's port: its name, and its place where it is one of an array.
    Port(PortAt),
    /// What a channel carries, with its width where it has one.
    Carried(Chan),
    /// The phase of a channel, with its value where it has one.
    Phase(Phase),
    /// The reply of a net, with what it brings.
    Reply(Reply),
    /// Positions, with a slash between.
    Path(&'a [usize]),
    /// A place, where there is one: `line 3, column 14`.
    At(Option<Spot>),
    /// A component: its kind and its number, the copy in which it is, if it is in one, and what the source has of it, as that is
    /// typed.
    Comp(&'a Survey, &'static [u8], u32),
    /// A channel: its number, and its name in the source, as that is typed.
    Chan(&'a Survey, u32),
    /// The host, at the external port of this name.
    Host(&'a [u8]),
    /// A word of the host at a port, and whether a value belongs to it.
    Word(Verb, &'a [u8], bool),
}

impl Put for Piece<'_> {
    fn put(&self, text: &mut Text) {
        match *self {
            Piece::Text(words) => text.put(words),
            Piece::Bytes(bytes) => text.put_bytes(bytes),
            Piece::Json(bytes) => text.put_json(bytes),
            Piece::JsonTyped(name) => put_typed_json(text, name),
            Piece::Flag(flag) => text.put(if flag { "true" } else { "false" }),
            Piece::File(name) => text.put_pieces(&[Part::File(name.as_bytes())]),
            Piece::Shown(bytes) => put_shown(text, bytes),
            Piece::Name(name) => put_short(text, name),
            Piece::Typed(name) => put_typed(text, name),
            Piece::Called(name) => put_name(text, name),
            Piece::Number(number) => text.put_pieces(&[Part::Number(number as Value)]),
            Piece::Wide(number) => text.put_pieces(&[Part::Number(number)]),
            Piece::Value(value) => text.put_pieces(&[Part::Value(value)]),
            Piece::Count(count, thing) => put_count(text, count, thing),
            Piece::Port(at) => put_port(text, at),
            Piece::Carried(_) | Piece::Phase(_) | Piece::Reply(_) => self.put_state(text),
            Piece::Path(path) => {
                let _ = put_path(text, path);
            }
            Piece::At(spot) => put_spot(text, spot),
            Piece::Comp(survey, kind, number) => put_comp(text, survey, kind, number),
            Piece::Chan(survey, number) => put_chan(text, number, survey.chan_name(number)),
            Piece::Host(name) => {
                text.put("the host at ");
                put_typed(text, name);
            }
            Piece::Word(verb, name, has_value) => put_host_word(text, verb, name, has_value),
        }
    }
}

impl Piece<'_> {
    // Adds what a net answers: what a channel carries, a phase, or a reply.
    fn put_state(&self, text: &mut Text) {
        let _ = match self {
            Piece::Carried(chan) => write!(text, "{chan}"),
            Piece::Phase(phase) => write!(text, "{phase}"),
            Piece::Reply(reply) => write!(text, "{reply}"),
            _ => Ok(()),
        };
    }
}

/// Adds a form as a string of JSON.
pub fn say_json(text: &mut Text, form: &str, pieces: &[Piece<'_>]) {
    let mut said = Text::new(text.alloc());
    said.say(form, pieces);
    match said.whole() {
        Ok(said) => text.put_json(said),
        Err(_) => text.lose(),
    }
}

/// Adds the lines of a text that aren't empty as strings of JSON, with a comma between.
pub fn put_json_lines(text: &mut Text, lines: &[u8]) {
    let mut is_first = true;
    for line in lines.split(|byte| *byte == b'\n') {
        if !line.is_empty() {
            if !is_first {
                text.put(", ");
            }
            text.put_json(line);
            is_first = false;
        }
    }
}

/// Adds the phase of a channel.
pub fn put_phase(text: &mut Text, phase: Phase) {
    text.say("%", &[Piece::Phase(phase)]);
}

// What is shown of bytes.
fn front(bytes: &[u8]) -> &[u8] {
    bytes.get(..MOST_SHOWN).unwrap_or(bytes)
}

// What comes for the rest of them.
fn rest_of(bytes: &[u8]) -> Part<'static> {
    Part::Bytes(if bytes.len() > MOST_SHOWN { b".." } else { b"" })
}

fn put_short(text: &mut Text, name: &[u8]) {
    text.put_pieces(&[Part::Name(front(name)), rest_of(name)]);
}

fn put_shown(text: &mut Text, bytes: &[u8]) {
    for byte in front(bytes) {
        let is_shown = (32..=126).contains(byte);
        text.put_bytes(&[if is_shown { *byte } else { b'?' }]);
    }
    text.put_pieces(&[rest_of(bytes)]);
}

fn put_count(text: &mut Text, count: usize, thing: &str) {
    match thing.strip_suffix("y") {
        Some(stem) if count != 1 => text.put_pieces(&[
            Part::Number(count as Value),
            Part::Bytes(b" "),
            Part::Bytes(stem.as_bytes()),
            Part::Bytes(b"ies"),
        ]),
        _ => text.put_count(count, thing),
    }
}

fn put_spot(text: &mut Text, spot: Option<Spot>) {
    if let Some(Spot { line, column }) = spot {
        text.put_pieces(&[
            Part::Bytes(b"line "),
            Part::Number(line as Value),
            Part::Bytes(b", column "),
            Part::Number(column as Value),
        ]);
    }
}

/// Adds what something is called in the source and where it comes from, its name in name form: ` x (two_place.balsa:7:5)`.
pub fn put_label(text: &mut Text, label: Label<'_>) {
    if let Some(name) = label.name {
        text.put(" ");
        put_short(text, name);
    }
    if let Some(at) = label.source {
        text.put(" (");
        put_short(text, at.file);
        text.put_pieces(&[
            Part::Bytes(b":"),
            Part::Number(at.line.into()),
            Part::Bytes(b":"),
            Part::Number(at.column.into()),
            Part::Bytes(b")"),
        ]);
    }
}

/// The copy in which a component is, if it is in one.
pub fn copy_of(survey: &Survey, number: u32) -> Option<LineAt<'_>> {
    match survey.comp(number) {
        Some(at) if !at.path.is_empty() => Some(at),
        _ => None,
    }
}

fn put_comp(text: &mut Text, survey: &Survey, kind: &[u8], number: u32) {
    let label = Label {
        name: survey.comp_name(number),
        source: survey.comp_source(number),
    };
    put_called(text, kind, number, copy_of(survey, number), label);
}

fn put_called(
    text: &mut Text,
    kind: &[u8],
    number: u32,
    copy: Option<LineAt<'_>>,
    label: Label<'_>,
) {
    text.put_pieces(&[Part::Bytes(kind), Part::Value(Some(number.into()))]);
    put_typed_name(text, label.name);
    if let Some(at) = copy {
        text.put(" ");
        put_instance(text, at);
    }
    if let Some(at) = label.source {
        text.put(" (");
        put_source(text, at);
        text.put(")");
    }
}

/// Adds a component of this kind, as it is called, which is looked up.
pub(crate) fn put_comp_in(text: &mut Text, records: &Records<'_>, kind: &[u8], number: u32) {
    match records.comp(text.alloc(), number) {
        Ok(Some(found)) => put_called(text, kind, number, found.copy(), found.label()),
        Ok(None) => put_called(text, kind, number, None, UNNAMED),
        Err(_) => text.lose(),
    }
}

/// Adds a channel, as it is called, the name of which is looked up.
pub(crate) fn put_chan_in(text: &mut Text, records: &Records<'_>, number: u32) {
    match records.chan_name(text.alloc(), number) {
        Ok(Some(name)) => put_chan(text, number, Some(name.as_slice())),
        Ok(None) => put_chan(text, number, None),
        Err(_) => text.lose(),
    }
}

fn put_chan(text: &mut Text, number: u32, name: Option<&[u8]>) {
    text.put_pieces(&[Part::Number(number.into())]);
    put_typed_name(text, name);
}

// Adds a blank and a name as it is typed, where there is one.
fn put_typed_name(text: &mut Text, name: Option<&[u8]>) {
    if let Some(name) = name {
        text.put(" ");
        put_name(text, name);
    }
}
