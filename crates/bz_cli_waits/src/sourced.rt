//! The source in what is told: behind each place the text of its line there.

ghost use Rattle.std.specs.Prelude.{◌≡◌, IfOk};

use crate::told::Told;
use bz_cli_source::survey_of;
use bz_source::{Named, SourceAt, SourceFile, tell_unnamed};
use bz_text::Text;
use bz_view::Piece;
use bz_words::read_name;
use std::alloc::{AllocError, Global};
use std::io::Write;

/// What is told of a part of a netlist, with the text of these files behind each place that is in one of them. It goes to `errors`
/// which of the files no place of the net names.
pub(crate) fn with_source<E: Write>(
    alloc: Global,
    part: Option<&[u8]>,
    netlist: &[u8],
    files: &[SourceFile],
    told: Told,
    errors: &mut E,
) -> Result<Told, AllocError>
    ensures { IfOk result (λ it. it.is_stuck ≡ told.is_stuck) }
{
    if files.is_empty() {
        return Ok(told);
    }
    let Told { text, is_stuck } = told;
    match text_with(alloc, part, netlist, files, text.as_slice(), errors) {
        Ok(text) => Ok(Told { text, is_stuck }),
        Err(AllocError) => Err(AllocError),
    }
}

// Lines, with the text of the files.
fn text_with<E: Write>(
    alloc: Global,
    part: Option<&[u8]>,
    netlist: &[u8],
    files: &[SourceFile],
    lines: &[u8],
    errors: &mut E,
) -> Result<Vec<u8>, AllocError> {
    // of a netlist that was read once nothing but memory can be wanting
    let Ok((_, survey, _)) = survey_of(alloc, part, netlist) else {
        return Err(AllocError);
    };
    let named = Named::of(alloc, files, &survey)?;
    let mut text = Text::new(alloc);
    put_sourced(&named, lines, &mut text);
    tell_unnamed(alloc, files, &survey, errors);
    Vec::from_slice(alloc, text.whole()?)
}

// Adds lines, with the text of its line before the end of each place. A place stands between brackets.
fn put_sourced(named: &Named<'_>, lines: &[u8], text: &mut Text) {
    for (count, piece) in lines.split_inclusive(|byte| *byte == b'(').enumerate() {
        if count > 0 {
            put_place(named, piece, text);
        } else {
            text.put_bytes(piece);
        }
    }
}

// Adds what follows a bracket that was opened.
fn put_place(named: &Named<'_>, piece: &[u8], text: &mut Text) {
    let Some(end) = piece.iter().position(|byte| *byte == b')') else {
        text.put_bytes(piece);
        return;
    };
    let (place, behind) = piece.split_at(end);
    text.put_bytes(place);
    match line_of(text.alloc(), named, place) {
        Ok(Some(line)) if !line.trim_ascii().is_empty() => {
            text.say(": %", &[Piece::Shown(line.trim_ascii())]);
        }
        Ok(_) => {}
        Err(AllocError) => text.lose(),
    }
    text.put_bytes(behind);
}

// The line at a place, as `two_place.balsa:7:5`, where that is one of a file that is given.
fn line_of<'s>(
    alloc: Global,
    named: &Named<'s>,
    place: &[u8],
) -> Result<Option<&'s [u8]>, AllocError> {
    let Some((place, column)) = cut_number(place) else {
        return Ok(None);
    };
    let Some((file, line)) = cut_number(place) else {
        return Ok(None);
    };
    match read_name(alloc, file)? {
        Some(name) => Ok(named.line(SourceAt {
            file: name.as_slice(),
            line,
            column,
        })),
        None => Ok(None),
    }
}

// What stands before the last colon, and the number behind it, if there is one.
fn cut_number(text: &[u8]) -> Option<(&[u8], u32)> {
    let colon = text.iter().rposition(|byte| *byte == b':')?;
    let (front, behind) = text.split_at(colon);
    let digits = str::from_utf8(behind.get(1..)?).ok()?;
    let number = digits.parse::<u64>().ok()?;
    Some((front, u32::try_from(number).ok()?))
}
