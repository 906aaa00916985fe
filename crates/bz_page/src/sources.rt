//! Files of the source in a page: each by its name and its lines, as they are.

ghost use Rattle.std.specs.Prelude.{◌++◌, IfSome, ◌≡◌};
ghost use Rattle.std.specs.List.{flat_map};
ghost use Rattle.bz_text.specs.Growing.{Grows};
ghost use Rattle.bz_source.specs.FileLines.{lines_of};
ghost use Rattle.bz_page.specs.Sources.{file_rows, files_rows, name_row, text_row};

use bz_source::{SourceFile, cut_line};
use bz_text::{Piece, Text};
use std::alloc::Global;

/// The rows of files of the source, and behind them the lines that tell how the run ended.
pub(crate) fn told_rows(alloc: Global, files: &[SourceFile], ends: &[u8]) -> Text
    ensures { IfSome result (λ rows. rows ≡ files_rows files.now ++ ends.now) }
{
    let mut rows = Text::new(alloc);
    put_files(&mut rows, files);
    rows.put_bytes(ends);
    rows
}

fn put_files(rows: &mut Text, files: &[SourceFile])
    ensures { Grows rows.old rows.new (files_rows files.now) }
{
    for file in files {
        put_file(rows, file);
    }
}

fn put_file(rows: &mut Text, file: &SourceFile)
    ensures { Grows rows.old rows.new (file_rows file.now) }
{
    put_name_row(rows, file.name.as_slice());
    put_lines(rows, file.text.as_slice());
}

fn put_name_row(rows: &mut Text, name: &[u8])
    ensures { Grows rows.old rows.new (name_row name.now) }
{
    rows.put_pieces(&[
        Piece::Bytes(b"source "),
        Piece::Name(name),
        Piece::Bytes(b"\n"),
    ]);
}

fn put_lines(rows: &mut Text, text: &[u8])
    ensures { Grows rows.old rows.new (flat_map text_row (lines_of text.now)) }
{
    let mut rest = text;
    while !rest.is_empty() {
        let (line, behind) = cut_line(rest);
        put_text_row(rows, line);
        rest = behind;
    }
}

fn put_text_row(rows: &mut Text, line: &[u8])
    ensures { Grows rows.old rows.new (text_row line.now) }
{
    rows.put_pieces(&[
        Piece::Bytes(b"text "),
        Piece::Bytes(line),
        Piece::Bytes(b"\n"),
    ]);
}
