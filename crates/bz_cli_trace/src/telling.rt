//! What is found of a trace, as a line.

ghost use Rattle.std.specs.Prelude.{◌≡◌, ◌++◌, OnOk, OnErr, decimal};
ghost use Rattle.std.specs.Io.KnownBytes.{Appends};
ghost use Rattle.bz_text.specs.Writing.{Writes};
ghost use Rattle.bz_cli_input.specs.Stopping.{AppendsSome};
ghost use Rattle.bz_cli_trace.specs.Telling.{TellsVerdict, counts_text, line_end_text, run_words_text, verdict_text};

use crate::finding::Finding;
use bz_cli_input::Fault;
use bz_model::Value;
use bz_text::{Piece, WriteFault, put_pieces};
use bz_trace::{Counts, Verdict};
use std::io::Write;

/// Writes what was found of a trace behind what stands in front of it, as its name.
pub fn tell_found<W: Write>(front: &[u8], found: Finding, output: &mut W) -> Result<(), Fault>
    ensures { TellsVerdict front.now found (W.contents output.old) (W.contents output.new) result }
{
    if let Verdict::Memory = found.verdict {
        return Err(Fault::Memory);
    }
    match write_out(front, found, output) {
        Ok(()) => Ok(()),
        Err(WriteFault) => Err(Fault::Write),
    }
}

// Writes a verdict, down to the last byte.
fn write_out<W: Write>(front: &[u8], found: Finding, output: &mut W) -> Result<(), WriteFault>
    ensures ok { OnOk result (Appends (W.contents output.old) (W.contents output.new) (front.now ++ verdict_text found)) }
    ensures err { OnErr result (AppendsSome (W.contents output.old) (W.contents output.new) (front.now ++ verdict_text found)) }
{
    match put_verdict(front, found, output) {
        Ok(()) => {}
        Err(fault) => return Err(fault),
    }
    match output.flush() {
        Ok(()) => Ok(()),
        Err(_) => Err(WriteFault),
    }
}

fn put_verdict<W: Write>(front: &[u8], found: Finding, output: &mut W) -> Result<(), WriteFault>
    ensures { Writes (W.contents output.old) (W.contents output.new) result (front.now ++ verdict_text found) }
{
    match found.verdict {
        Verdict::Run => put_counts(output, front, run_words(found.unrested), found.counts),
        Verdict::Not(line) => {
            let end = line_end(found.early);
            put_line(output, front, b"not a run: line ", line, end)
        }
        Verdict::Bad(line) => put_line(output, front, b"not a trace: line ", line, b"\n"),
        Verdict::Memory => put_pieces(output, &[Piece::Bytes(front)]),
    }
}

// How the line of a run begins, which was to end at rest and doesn't, or else is just that.
fn run_words(unrested: bool) -> &'static [u8]
    ensures { result.now ≡ run_words_text unrested }
{
    if unrested {
        b"run, and not at rest: "
    } else {
        b"run: "
    }
}

// How the line of a trace of no run ends, of which no more was looked at, or else all.
fn line_end(early: bool) -> &'static [u8]
    ensures { result.now ≡ line_end_text early }
{
    if early {
        b", and the rest was not looked at\n"
    } else {
        b"\n"
    }
}

fn put_counts<'t, W: Write>(
    output: &mut W,
    front: &'t [u8],
    words: &'t [u8],
    counts: Counts,
) -> Result<(), WriteFault>
    ensures { Writes (W.contents output.old) (W.contents output.new) result (front.now ++ (words.now ++ counts_text counts)) }
{
    let pieces = [
        Piece::Bytes(front),
        Piece::Bytes(words),
        Piece::Number(counts.fired as Value),
        Piece::Bytes(b" fired, "),
        Piece::Number(counts.host as Value),
        Piece::Bytes(b" host, "),
        Piece::Number(counts.rests as Value),
        Piece::Bytes(b" rest\n"),
    ];
    put_pieces(output, &pieces)
}

fn put_line<'t, W: Write>(
    output: &mut W,
    front: &'t [u8],
    words: &'t [u8],
    line: usize,
    end: &'t [u8],
) -> Result<(), WriteFault>
    ensures { Writes (W.contents output.old) (W.contents output.new) result (front.now ++ (words.now ++ (decimal line ++ end.now))) }
{
    let pieces = [
        Piece::Bytes(front),
        Piece::Bytes(words),
        Piece::Number(line as Value),
        Piece::Bytes(end),
    ];
    put_pieces(output, &pieces)
}
