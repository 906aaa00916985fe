//! What lines and JSON are put together from. A field is a word of a line, or a member of an object: JSON has a text in front of
//! it. No name has a letter that JSON writes in another way.

ghost use Rattle.std.specs.Prelude.{◌+◌};
ghost use Rattle.bz_text.specs.Growing.{Grows};
ghost use Rattle.bz_cli_kinds.specs.Fields.{comma, field, mark, numbered, place_field};

use bz_model::{ParamPlace, Value};
use bz_text::{Piece, Text};

/// Adds what stands between fields: in a line, or in JSON.
pub(crate) fn put_mark(text: &mut Text, is_json: bool, line: &[u8], json: &[u8])
    ensures { Grows text.old text.new (mark is_json line.now json.now) }
{
    text.put_bytes(if is_json { json } else { line });
}

/// Adds the comma in front of what isn't the first of a list, by its place from 0. Lines have none.
pub(crate) fn put_comma(text: &mut Text, is_json: bool, place: usize)
    ensures { Grows text.old text.new (comma is_json (place + 1)) }
{
    if is_json && place > 0 {
        text.put_bytes(b", ");
    }
}

/// Adds a field.
pub(crate) fn put_field<'a>(text: &mut Text, is_json: bool, before: &'a [u8], value: &'a str)
    ensures { Grows text.old text.new (field is_json before.now value.now) }
{
    text.put_pieces(&[
        Piece::Bytes(if is_json { before } else { b" " }),
        Piece::Bytes(value.as_bytes()),
        Piece::Bytes(if is_json { b"\"" } else { b"" }),
    ]);
}

/// Adds the place of a parameter: a letter for its shape, and its number among those of that shape, from 1.
pub(crate) fn put_place(text: &mut Text, is_json: bool, before: &[u8], place: ParamPlace)
    ensures { Grows text.old text.new (place_field is_json before.now place) }
{
    match place {
        ParamPlace::Number(place) => put_numbered(text, is_json, before, b"n", place),
        ParamPlace::Flag(place) => put_numbered(text, is_json, before, b"t", place),
        ParamPlace::Text(place) => put_numbered(text, is_json, before, b"x", place),
        ParamPlace::LastText => put_field(text, is_json, before, "x-last"),
    }
}

fn put_numbered<'a>(
    text: &mut Text,
    is_json: bool,
    before: &'a [u8],
    letter: &'a [u8],
    place: usize,
)
    ensures { Grows text.old text.new (field is_json before.now (numbered letter.now place)) }
{
    text.put_pieces(&[
        Piece::Bytes(if is_json { before } else { b" " }),
        Piece::Bytes(letter),
        Piece::Number(place as Value + 1),
        Piece::Bytes(if is_json { b"\"" } else { b"" }),
    ]);
}
