//! The text of a net: its ports and its components, a line for each.

ghost use Rattle.std.specs.Prelude.{◌≡◌, ◌+◌, ◌<◌, ◌≤◌, ◌^◌, length, map};
ghost use Rattle.bz_model.specs.Names.{external};
ghost use Rattle.bz_model.specs.Nets.{chan_in};
ghost use Rattle.bz_flat.specs.Flats.{site_of};
ghost use Rattle.bz_text.specs.Writing.{Writes};
ghost use Rattle.bz_trace_text.specs.Printing.{Prints};
ghost use Rattle.bz_model.specs.Rows.{kind_word};
ghost use Rattle.bz_cli_input.specs.Listing.{sense_text, port_line, ports_text, comp_line, lines, head_text, counts_text, list_text};

use bz_arena::{Arena, Id};
use bz_flat::{Flat, FlatComp};
use bz_kind_rows::kind_word;
use bz_model::{Chan, ChanKind, Kind, Port, Value};
use bz_text::{Piece, WriteFault};
use bz_trace_text::Printer;
use std::io::Write;

/// Writes the text of a net, under the name of its part. It takes no memory.
pub(crate) fn write_list<W: Write>(out: &mut W, name: &[u8], flat: Flat) -> Result<(), WriteFault>
    ensures { Writes (W.contents out.old) (W.contents out.new) result
        (list_text name.now flat.wiring) }
{
    let pieces = flat.into_pieces();
    let mut printer = Printer::new();
    print_head(&mut printer, out, name);
    print_ports(&mut printer, out, &pieces.chans, &pieces.ports);
    print_counts(&mut printer, out, pieces.chans.len(), pieces.comps.len());
    print_comps(&mut printer, out, &pieces.comps);
    printer.end(out)
}

/// Prints the first line of a list: the name of the part.
pub fn print_head<W: Write>(printer: &mut Printer, out: &mut W, name: &[u8])
    ensures { Prints (W.contents out.old) printer.old (W.contents out.new) printer.new (head_text name.now) }
{
    let pieces = [
        Piece::Bytes(b"part "),
        Piece::Name(name),
        Piece::Bytes(b"\n"),
    ];
    printer.print(out, &pieces);
}

/// Prints the lines of the external ports, port k being channel k.
pub fn print_ports<W: Write>(
    printer: &mut Printer,
    out: &mut W,
    chans: &Arena<Chan>,
    ports: &[Port],
)
    ensures { Prints (W.contents out.old) printer.old (W.contents out.new) printer.new
        (ports_text chans.now (map external ports.now)) }
{
    for (place, port) in ports.iter().enumerate() {
        print_port(printer, out, place, port, chan_at(chans, place));
    }
}

/// The channel at a place, counted from 0; one without width where there is none.
pub fn chan_at(chans: &Arena<Chan>, place: usize) -> Chan
    ensures { result ≡ chan_in chans.now (place + 1) }
{
    if place < chans.len() {
        return *chans.get(Id::at(place));
    }
    Chan {
        kind: ChanKind::Sync,
        width: 0,
    }
}

/// Prints the line of an external port, by its place.
pub fn print_port<W: Write>(
    printer: &mut Printer,
    out: &mut W,
    place: usize,
    port: &Port,
    chan: Chan,
)
    requires { place < 2 ^ 63 }
    ensures { Prints (W.contents out.old) printer.old (W.contents out.new) printer.new
        (port_line (place + 1) (external port.now) chan) }
{
    let pieces = [
        Piece::Bytes(b"port "),
        Piece::Number(place as Value + 1),
        Piece::Bytes(b" "),
        Piece::Name(&port.name),
        Piece::Bytes(b" "),
        Piece::Bytes(sense_word(port.passive)),
        Piece::Bytes(b" "),
        Piece::Carried(chan),
        Piece::Bytes(b"\n"),
    ];
    printer.print(out, &pieces);
}

fn sense_word(passive: bool) -> &'static [u8]
    ensures { result.now ≡ sense_text passive }
{
    if passive { b"passive" } else { b"active" }
}

fn print_counts<W: Write>(printer: &mut Printer, out: &mut W, chans: usize, comps: usize)
    ensures { Prints (W.contents out.old) printer.old (W.contents out.new) printer.new (counts_text chans comps) }
{
    let pieces = [
        Piece::Bytes(b"channels "),
        Piece::Number(chans as Value),
        Piece::Bytes(b"\ncomponents "),
        Piece::Number(comps as Value),
        Piece::Bytes(b"\n"),
    ];
    printer.print(out, &pieces);
}

fn print_comps<W: Write>(printer: &mut Printer, out: &mut W, comps: &Arena<FlatComp>)
    ensures { Prints (W.contents out.old) printer.old (W.contents out.new) printer.new
        (lines comp_line 1 (map site_of comps.now)) }
{
    for place in 0..comps.len() {
        print_comp(printer, out, place, comps.get(Id::at(place)));
    }
}

// Prints the line of a component. No array of pieces is made: a list has a line of this kind for each component.
#[inline(always)]
fn print_comp<W: Write>(printer: &mut Printer, out: &mut W, place: usize, comp: &FlatComp)
    ensures { Prints (W.contents out.old) printer.old (W.contents out.new) printer.new
        (comp_line (place + 1) (site_of comp.now)) }
{
    printer.text(out, b"component ");
    printer.number(out, place as Value + 1);
    printer.text(out, b" ");
    printer.text(out, short_word(&comp.kind));
    printer.spaced(out, &comp.chans);
    printer.text(out, b"\n");
}

#[inline(always)]
fn short_word(kind: &Kind) -> &'static [u8]
    ensures text { result.now ≡ kind_word kind.now }
    ensures short { length result.now ≤ 17 }
{
    kind_word(kind)
}
