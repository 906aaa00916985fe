//! The command `parts`: the parts of a netlist, each with its ports and how much it has.

ghost use Rattle.std.specs.Prelude.{◌≡◌, ◌+◌, ◌<◌, IfOk, IfSome, OnErr, OnOk, false, length, map, replicate};
ghost use Rattle.std.specs.Io.KnownBytes.{Appends};
ghost use Rattle.bz_model.specs.Names.{external};
ghost use Rattle.bz_model.specs.Nets.{chan_in};
ghost use Rattle.bz_text.specs.Writing.{Writes};
ghost use Rattle.bz_trace_text.specs.Printing.{Prints};
ghost use Rattle.bz_cli_input.specs.Listing.{ports_text};
ghost use Rattle.bz_cli_input.specs.Marking.{Marks};
ghost use Rattle.bz_cli_input.specs.Reading.{ReadsWithin};
ghost use Rattle.bz_cli_input.specs.Stopping.{AppendsSome};
ghost use Rattle.bz_cli_source.specs.PartLists.{ListsParts, TellsParts, counts_text, head_text, instance_count, is_used, line_of_part, numbered_text, own_ports_text, part_text, parts_text, top_text};

use bz_breeze_records::{Part as PartRecord, Parts};
use bz_cli_input::{Fault, mark_used, print_port, read_input};
use bz_model::{Chan, ChanKind, Port, Value};
use bz_source::{PartLines, lines_of};
use bz_text::{Piece, WriteFault};
use bz_trace_text::Printer;
use std::alloc::{AllocError, Global};
use std::io::{Read, Write};

/// Writes what each part of the netlist that the reader gives has in its own record, in the order of the text, and which parts
/// no other part has an instance of. Nothing is elaborated, and nothing is written where the netlist is refused.
pub fn parts_cmd<R: Read, W: Write>(
    alloc: Global,
    input: &mut R,
    output: &mut W,
) -> Result<(), Fault>
    ensures lists { IfSome (R.remaining input.old) (λ text. ListsParts text (W.contents output.old) (W.contents output.new) result) }

    // Whatever comes of it, it reads at most one byte past the limit.
    ensures bounded { ReadsWithin (R.remaining input.old) (R.remaining input.new) }
{
    let text = read_input(alloc, input)?;
    list_parts(alloc, text.as_slice(), output)
}

// Tells the parts of the text.
fn list_parts<W: Write>(alloc: Global, text: &[u8], output: &mut W) -> Result<(), Fault>
    ensures { TellsParts text.now (W.contents output.old) (W.contents output.new) result }
{
    let forest = bz_sexpr::read_forest(alloc, text)?;
    let parts = bz_breeze::parts_of(alloc, forest.forms())?;
    let lines = lines_of(alloc, text, forest.forms())?;
    let used = used_parts(alloc, &parts)?;
    write_out(&parts, lines.as_slice(), used.as_slice(), output)?;
    Ok(())
}

// For each part whether some part has an instance of it.
fn used_parts(alloc: Global, parts: &Parts) -> Result<Vec<bool>, AllocError>
    ensures { IfOk result (λ v. Marks (replicate (length parts.now) false) v.items (is_used parts.now)) }
{
    let mut used = vec![in alloc; false; parts.list().len()]?;
    mark_all(parts, &mut used);
    Ok(used)
}

// Marks those that some part has an instance of.
fn mark_all(parts: &Parts, used: &mut [bool])
    ensures { Marks used.old used.new (is_used parts.now) }
{
    for part in parts.list() {
        mark_used(parts, part, used);
    }
}

// Writes the parts, down to the last byte.
fn write_out<W: Write>(
    parts: &Parts,
    lines: &[PartLines],
    used: &[bool],
    output: &mut W,
) -> Result<(), WriteFault>
    requires { Marks (replicate (length parts.now) false) used.now (is_used parts.now) }
    ensures ok { OnOk result (Appends (W.contents output.old) (W.contents output.new) (parts_text parts.now lines.now)) }
    ensures err { OnErr result (AppendsSome (W.contents output.old) (W.contents output.new) (parts_text parts.now lines.now)) }
{
    put_parts(output, parts, lines, used)?;
    match output.flush() {
        Ok(()) => Ok(()),
        Err(_) => Err(WriteFault),
    }
}

fn put_parts<W: Write>(
    out: &mut W,
    parts: &Parts,
    lines: &[PartLines],
    used: &[bool],
) -> Result<(), WriteFault>
    requires { Marks (replicate (length parts.now) false) used.now (is_used parts.now) }
    ensures { Writes (W.contents out.old) (W.contents out.new) result (parts_text parts.now lines.now) }
{
    let mut printer = Printer::new();
    print_parts(&mut printer, out, parts, lines, used);
    printer.end(out)
}

fn print_parts<W: Write>(
    printer: &mut Printer,
    out: &mut W,
    parts: &Parts,
    lines: &[PartLines],
    used: &[bool],
)
    requires { Marks (replicate (length parts.now) false) used.now (is_used parts.now) }
    ensures { Prints (W.contents out.old) printer.old (W.contents out.new) printer.new (parts_text parts.now lines.now) }
{
    for (i, part) in parts.list().iter().enumerate() {
        print_numbered(printer, out, parts, lines, used, i, part);
    }
}

// The part at a place of the list.
fn print_numbered<W: Write>(
    printer: &mut Printer,
    out: &mut W,
    parts: &Parts,
    lines: &[PartLines],
    used: &[bool],
    place: usize,
    part: &PartRecord,
)
    requires used { Marks (replicate (length parts.now) false) used.now (is_used parts.now) }
    requires within { place < length parts.now }
    ensures { Prints (W.contents out.old) printer.old (W.contents out.new) printer.new (numbered_text parts.now lines.now (place + 1) part.now) }
{
    print_part(
        printer,
        out,
        parts,
        part,
        line_at(lines, place),
        used[place],
    );
}

// The line at which the part at a place begins.
fn line_at(lines: &[PartLines], place: usize) -> usize
    ensures { result ≡ line_of_part lines.now place }
{
    match lines.get(place) {
        Some(lines) => lines.part,
        None => 0,
    }
}

fn print_part<W: Write>(
    printer: &mut Printer,
    out: &mut W,
    parts: &Parts,
    part: &PartRecord,
    line: usize,
    used: bool,
)
    ensures { Prints (W.contents out.old) printer.old (W.contents out.new) printer.new (part_text parts.now line used part.now) }
{
    print_head(printer, out, part, line, used);
    print_ports(
        printer,
        out,
        part.channels.as_slice(),
        part.ports.as_slice(),
    );
    print_counts(printer, out, part, instance_count(parts, part));
}

// How many of a part's components are instances.
fn instance_count(parts: &Parts, part: &PartRecord) -> usize
    ensures { result ≡ instance_count parts.now part.now }
{
    part.components
        .iter()
        .filter(|component| parts.number(component.name.as_slice()).is_some())
        .count()
}

fn print_head<W: Write>(
    printer: &mut Printer,
    out: &mut W,
    part: &PartRecord,
    line: usize,
    used: bool,
)
    ensures { Prints (W.contents out.old) printer.old (W.contents out.new) printer.new (head_text part.now line used) }
{
    let pieces = [
        Piece::Bytes(b"part "),
        Piece::Name(part.name.as_slice()),
        Piece::Bytes(b" line "),
        Piece::Number(line as Value),
        Piece::Bytes(top_word(used)),
    ];
    printer.print(out, &pieces);
}

fn top_word(used: bool) -> &'static [u8]
    ensures { result.now ≡ top_text used }
{
    if used { b"\n" } else { b" top\n" }
}

fn print_ports<W: Write>(printer: &mut Printer, out: &mut W, chans: &[Chan], ports: &[Port])
    ensures { Prints (W.contents out.old) printer.old (W.contents out.new) printer.new (ports_text chans.now (map external ports.now)) }
{
    for (place, port) in ports.iter().enumerate() {
        print_port(printer, out, place, port, chan_at(chans, place));
    }
}

// The channel at a place, one without width where there is none.
fn chan_at(chans: &[Chan], place: usize) -> Chan
    ensures { result ≡ chan_in chans.now (place + 1) }
{
    match chans.get(place) {
        Some(chan) => *chan,
        None => Chan {
            kind: ChanKind::Sync,
            width: 0,
        },
    }
}

fn print_counts<W: Write>(printer: &mut Printer, out: &mut W, part: &PartRecord, instances: usize)
    ensures { Prints (W.contents out.old) printer.old (W.contents out.new) printer.new (counts_text part.now instances) }
{
    let pieces = [
        Piece::Bytes(b"channels "),
        Piece::Number(part.channels.len() as Value),
        Piece::Bytes(b"\ncomponents "),
        Piece::Number(part.components.len() as Value),
        Piece::Bytes(b"\ninstances "),
        Piece::Number(instances as Value),
        Piece::Bytes(b"\n"),
    ];
    printer.print(out, &pieces);
}
