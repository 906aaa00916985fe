//! How names, places and ports are written.

ghost use Rattle.std.specs.List.{flat_map};
ghost use Rattle.bz_text.specs.Growing.{Grows, GrowsBy};
ghost use Rattle.bz_text.specs.Json.{json_text};
ghost use Rattle.bz_view.specs.Lines.{InLine};
ghost use Rattle.bz_view.specs.Naming.{typed_byte, typed_text, word_text};

use crate::parts::put_in_line;
use bz_kind_rows::PortAt;
use bz_model::{Value, Verb};
use bz_source::{LineAt, SourceAt};
use bz_text::{Piece, Text};

/// The most bytes that are told of a name.
const MOST_SHOWN: usize = 100;

/// Adds a name as it is typed: in name form, but a `#` by its number too, since it would begin a comment.
pub fn put_typed(text: &mut Text, name: &[u8])
    ensures { Grows text.old text.new (typed_text name.now) }
{
    if name.is_empty() {
        text.put("%");
        return;
    }
    for byte in name {
        put_typed_byte(text, *byte);
    }
}

fn put_typed_byte(text: &mut Text, byte: u8)
    ensures { Grows text.old text.new (typed_byte byte) }
{
    if byte == b'#' {
        text.put("%23");
    } else {
        text.put_pieces(&[Piece::Name(&[byte])]);
    }
}

/// Adds a name as it is typed, as a string of JSON.
#[tactic(auto, using(crate::proofs::Typed::typed_string))]
pub fn put_typed_json(text: &mut Text, name: &[u8])
    ensures { Grows text.old text.new (json_text (typed_text name.now)) }
{
    let mut typed = Text::new(text.alloc());
    put_typed(&mut typed, name);
    match typed.whole() {
        Ok(typed) => text.put_pieces(&[Piece::Json(typed)]),
        Err(_) => text.lose(),
    }
}

/// Adds a name as it is typed, of a long one the front.
pub fn put_name(text: &mut Text, name: &[u8])
    ensures { GrowsBy InLine text.old text.new }
{
    put_typed(text, name.get(..MOST_SHOWN).unwrap_or(name));
    if name.len() > MOST_SHOWN {
        text.put("..");
    }
}

/// Adds a place in a source.
pub fn put_source(text: &mut Text, at: SourceAt<'_>)
    ensures { GrowsBy InLine text.old text.new }
{
    put_name(text, at.file);
    put_in_line(
        text,
        &[
            Piece::Bytes(b":"),
            Piece::Number(at.line.into()),
            Piece::Bytes(b":"),
            Piece::Number(at.column.into()),
        ],
    );
}

/// Adds the instance in which a component stands, and the part that it is one of.
pub fn put_instance(text: &mut Text, at: LineAt<'_>)
    ensures { GrowsBy InLine text.old text.new }
{
    text.put("in ");
    put_path(text, at.path);
    put_in_line(text, &[Piece::Bytes(b" "), Piece::Name(at.part)]);
}

// Adds positions, with a slash between.
fn put_path(text: &mut Text, path: &[usize])
    ensures { GrowsBy InLine text.old text.new }
{
    if let [first, rest @ ..] = path {
        put_in_line(text, &[Piece::Number(*first as Value)]);
        for step in rest {
            put_in_line(text, &[Piece::Bytes(b"/"), Piece::Number(*step as Value)]);
        }
    }
}

/// Adds a component's port: its name, and its place where it is one of an array.
pub fn put_port(text: &mut Text, at: PortAt)
    ensures { GrowsBy InLine text.old text.new }
{
    let name = Piece::Name(at.row.name.as_bytes());
    match at.member {
        None => put_in_line(text, &[name]),
        Some(member) => put_in_line(text, &[name, Piece::Number(member.into())]),
    }
}

/// Adds a word of the host as it is typed, `V` standing for its value.
pub fn put_host_word(text: &mut Text, verb: Verb, name: &[u8], has_value: bool)
    ensures { Grows text.old text.new (word_text verb name.now has_value) }
{
    text.put_pieces(&[Piece::Bytes(verb.word().as_bytes()), Piece::Bytes(b":")]);
    put_typed(text, name);
    text.put(if has_value { ":V" } else { "" });
}
