//! What is told of one of several traces: a line, or an object, and notes.

ghost use Rattle.std.specs.Prelude.{◌≡◌, ◌≢◌, Ok, false, IfErr, OnOk};
ghost use Rattle.bz_cli_trace.specs.Telling.{TellsVerdict};
ghost use Rattle.bz_text.specs.Pieces.{piece_text};
ghost use Rattle.std.specs.List.{flat_map};
ghost use Rattle.bz_cli_several.specs.Fates.{front_text, tally_text, unread_text};
ghost use Rattle.bz_cli_several.specs.Sending.{IsLate, SendsText};

use crate::judging::{Judge, Tally};
use bz_cli_args::tell_unreadable;
use bz_cli_input::Fault;
use bz_cli_trace::{Finding, tell_found};
use bz_explain_notes::tell_notes;
use bz_explain_trace::{Suspect, explain_found, put_found};
use bz_net::Play;
use bz_text::{Piece, Text, put_pieces};
use bz_trace::{KeptLines, Verdict};
use bz_view::Seen;
use std::alloc::Global;
use std::fmt::Display;
use std::io::Write;

/// Writes what was found of a trace behind its name.
pub(crate) fn tell_named<W: Write>(
    alloc: Global,
    name: &str,
    found: Finding,
    output: &mut W,
) -> Result<(), Fault>
    ensures { TellsVerdict (front_text name.now) found (W.contents output.old) (W.contents output.new) result }
{
    let mut front = Text::new(alloc);
    front.put_pieces(&[Piece::File(name.as_bytes()), Piece::Bytes(b": ")]);
    match front.whole() {
        Ok(front) => tell_found(front, found, output),
        Err(_) => Err(Fault::Memory),
    }
}

/// Tells what was found of a trace beside its line, and where it left the net: an object where that is asked for, or else why it
/// didn't pass.
pub(crate) fn tell_left<W: Write, E: Write>(
    alloc: Global,
    judge: &Judge<'_, '_, '_>,
    name: &str,
    found: Finding,
    net: &mut Play,
    kept: &KeptLines,
    output: &mut W,
    errors: &mut E,
) -> Result<(), Fault>
    ensures same { net.new.wiring ≡ net.old.wiring }
    ensures told { OnOk result (found.verdict ≢ Verdict.Memory) }
    ensures plainly { judge.now.json ≡ false → found.verdict ≢ Verdict.Memory
        → (result ≡ Ok tt) × (W.contents output.new ≡ W.contents output.old) }
    ensures late { IfErr result IsLate }
{
    if let Verdict::Memory = found.verdict {
        return Err(Fault::Memory);
    }
    let (Some(survey), Some(trace)) = (judge.survey, kept.lines()) else {
        return if judge.json {
            Err(Fault::Memory)
        } else {
            Ok(())
        };
    };
    let suspect = Suspect {
        netlist: b"",
        trace,
        first: kept.first(),
        file: Some(name),
    };
    if judge.json {
        return put_object(alloc, suspect, found, Seen::of(net.core(), survey), output);
    }
    if !found.passes() {
        let notes = explain_found(alloc, suspect, found, net, survey);
        let _ = tell_notes(alloc, &notes, errors);
    }
    Ok(())
}

// Writes the object of a trace that was checked.
fn put_object<W: Write>(
    alloc: Global,
    suspect: Suspect<'_>,
    found: Finding,
    seen: Seen<'_>,
    output: &mut W,
) -> Result<(), Fault>
    ensures { IfErr result IsLate }
{
    let mut text = Text::new(alloc);
    put_found(suspect, found, seen, &mut text);
    match text.whole() {
        Ok(object) => put_out(output, &[Piece::Bytes(object)]),
        Err(_) => Err(Fault::Memory),
    }
}

/// Tells that a trace could not be read, and why.
pub(crate) fn tell_unread<C: Display + Drop, W: Write, E: Write>(
    name: &str,
    why: C,
    json: bool,
    output: &mut W,
    errors: &mut E,
) -> Result<(), Fault>
    ensures plainly { json ≡ false → SendsText (unread_text name.now) (W.contents output.old) (W.contents output.new) result }
    ensures late { IfErr result IsLate }
{
    tell_unreadable(name, why, errors);
    if json {
        return Ok(());
    }
    put_out(
        output,
        &[Piece::File(name.as_bytes()), Piece::Bytes(b": not read\n")],
    )
}

/// Writes how many of so many traces passed, failed, and could not be read.
pub(crate) fn put_tally<W: Write>(count: usize, tally: Tally, output: &mut W) -> Result<(), Fault>
    ensures { SendsText (tally_text count tally) (W.contents output.old) (W.contents output.new) result }
{
    let pieces = [
        Piece::Number(count as u128),
        Piece::Bytes(b" traces: "),
        Piece::Number(tally.passed.into()),
        Piece::Bytes(b" passed, "),
        Piece::Number(tally.failed.into()),
        Piece::Bytes(b" failed, "),
        Piece::Number(tally.unread.into()),
        Piece::Bytes(b" not read\n"),
    ];
    put_out(output, &pieces)
}

// Writes pieces of a text, down to the last byte.
fn put_out<W: Write>(output: &mut W, pieces: &[Piece<'_>]) -> Result<(), Fault>
    ensures { SendsText (flat_map piece_text pieces.now) (W.contents output.old) (W.contents output.new) result }
{
    if put_pieces(output, pieces).is_err() || output.flush().is_err() {
        return Err(Fault::Write);
    }
    Ok(())
}
