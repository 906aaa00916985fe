//! Notes on their way to the writer.

ghost use Rattle.std.specs.Prelude.{◌≡◌, map, IfOk};
ghost use Rattle.std.specs.List.{flat_map};
ghost use Rattle.bz_text.specs.Writing.{Writes};
ghost use Rattle.bz_explain_notes.specs.Notes.{letters_of, note_line, shown};

use bz_text::{Piece, Text, WriteFault, put_pieces};
use std::alloc::{AllocError, Global};
use std::io::Write;

/// Writes notes, each as a line of its own. A want of memory is told as a fault of the writer.
pub(crate) fn put_notes<W: Write>(
    alloc: Global,
    out: &mut W,
    notes: &[Text],
) -> Result<(), WriteFault>
    ensures { Writes (W.contents out.old) (W.contents out.new) result (flat_map (λ n. note_line (letters_of n)) notes.now) }
{
    for note in notes {
        put_note(alloc, out, note)?;
    }
    Ok(())
}

fn put_note<W: Write>(alloc: Global, out: &mut W, note: &Text) -> Result<(), WriteFault>
    ensures { Writes (W.contents out.old) (W.contents out.new) result (note_line (letters_of note.now)) }
{
    let Ok(letters) = shown(alloc, note) else {
        return Err(WriteFault);
    };
    let pieces = [
        Piece::Bytes(b"breezesim: note: "),
        Piece::Bytes(letters.as_slice()),
        Piece::Bytes(b"\n"),
    ];
    put_pieces(out, &pieces)
}

// The letters of a note as they are shown.
pub(crate) fn shown(alloc: Global, note: &Text) -> Result<Vec<u8>, AllocError>
    ensures { IfOk result (λ v. v.items ≡ map shown (letters_of note.now)) }
{
    note.whole()?
        .iter()
        .map(|byte| shown_byte(*byte))
        .collect(alloc)
}

fn shown_byte(byte: u8) -> u8
    ensures { result ≡ shown byte }
{
    if 32 <= byte && byte <= 126 {
        byte
    } else {
        b'?'
    }
}
