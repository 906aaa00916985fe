//! The text that tells where a record stands.

ghost use Rattle.std.specs.Prelude.{◌≡◌};
ghost use Rattle.bz_flat.specs.Flats.{site_of};
ghost use Rattle.bz_text.specs.Pieces.{path_text, piece_text};
ghost use Rattle.bz_text.specs.Writing.{Writes};
ghost use Rattle.bz_source.specs.Texts.{at_text, placed_comp_text};
ghost use Rattle.bz_source.specs.Views.{path_at_of, line_at_of, record_line, line_in, chan_line_at, comp_line_at};

use crate::lines::PartLines;
use crate::path_at::PathAt;
use bz_breeze_records::Parts;
use bz_flat::FlatComp;
use bz_kind_rows::kind_word;
use bz_model::Value;
use bz_text::{Piece, WriteFault, put_pieces};
use std::io::Write;

/// Where a record stands, as a text tells it.
#[derive(Clone, Copy)]
pub struct LineAt<'a> {
    /// The name of its part.
    pub part: &'a [u8],
    /// Its position in that part, counted from 1.
    pub position: usize,
    /// The line at which it begins, counted from 1.
    pub line: usize,
    /// The positions of the instances that it is in, from the top on.
    pub path: &'a [usize],
}

/// Where a channel stands, the lines being those of the parts' text; line 0 and the empty name where there is no such part.
pub fn chan_line_at<'a>(parts: &'a Parts, lines: &[PartLines], place: &'a PathAt) -> LineAt<'a>
    ensures { line_at_of result ≡ chan_line_at parts.now lines.now (path_at_of place.now) }
{
    let line = match lines.get(place.part) {
        Some(lines) => line_in(lines.channels.as_slice(), place.position),
        None => 0,
    };
    record_line(parts, place, line)
}

/// The same of a component or an instance.
pub fn comp_line_at<'a>(parts: &'a Parts, lines: &[PartLines], place: &'a PathAt) -> LineAt<'a>
    ensures { line_at_of result ≡ comp_line_at parts.now lines.now (path_at_of place.now) }
{
    let line = match lines.get(place.part) {
        Some(lines) => line_in(lines.components.as_slice(), place.position),
        None => 0,
    };
    record_line(parts, place, line)
}

/// Writes the line of a component, counted from 1, and where it stands, without the end of the line.
pub fn put_comp<'a, W: Write>(
    out: &mut W,
    number: u32,
    comp: &'a FlatComp,
    at: LineAt<'a>,
) -> Result<(), WriteFault>
    ensures { Writes (W.contents out.old) (W.contents out.new) result (placed_comp_text number (site_of comp.now) (line_at_of at.entry)) }
{
    let pieces = [
        Piece::Bytes(b"component "),
        Piece::Number(Value::from(number)),
        Piece::Bytes(b" "),
        Piece::Bytes(kind_word(&comp.kind)),
        Piece::Spaced(comp.chans.as_slice()),
        at_piece(at),
    ];
    put_pieces(out, &pieces)
}

/// The place of a record, as a piece of a line.
pub fn at_piece(at: LineAt<'_>) -> Piece<'_>
    ensures { piece_text result ≡ at_text (line_at_of at.entry) }
{
    Piece::At(at.part, at.position, at.line, at.path)
}

/// Writes a path: its positions, with a slash between.
pub fn put_path<W: Write>(out: &mut W, path: &[usize]) -> Result<(), WriteFault>
    ensures { Writes (W.contents out.old) (W.contents out.new) result (path_text path.now) }
{
    put_pieces(out, &[Piece::Path(path)])
}

// The line at a position, counted from 1, or 0 where there is none.
fn line_in(lines: &[usize], position: usize) -> usize
    ensures { result ≡ line_in lines.now position }
{
    if position == 0 {
        return 0;
    }
    lines.get(position - 1).copied().unwrap_or(0)
}

fn record_line<'a>(parts: &'a Parts, place: &'a PathAt, line: usize) -> LineAt<'a>
    ensures { line_at_of result ≡ record_line parts.now (path_at_of place.now) line }
{
    let part: &[u8] = match parts.list().get(place.part) {
        Some(part) => part.name.as_slice(),
        None => &[],
    };
    LineAt {
        part,
        position: place.position,
        line,
        path: place.path.as_slice(),
    }
}
