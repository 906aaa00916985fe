//! The text of a net with the place of everything in it.

ghost use Rattle.std.specs.Prelude.{◌≡◌, ◌<◌, ◌≤◌, ◌+◌, ◌^◌, length, map, not, if◌then◌else◌};
ghost use Rattle.bz_model.specs.Names.{external};
ghost use Rattle.bz_flat.specs.Flats.{site_of};
ghost use Rattle.bz_flat.specs.Wires.{ends_in};
ghost use Rattle.bz_text.specs.Pieces.{piece_text};
ghost use Rattle.bz_text.specs.Writing.{Writes};
ghost use Rattle.bz_trace_text.specs.Printing.{Prints};
ghost use Rattle.bz_source.specs.Views.{path_at_of};
ghost use Rattle.bz_cli_input.specs.Listing.{lines};
ghost use Rattle.bz_cli_source.specs.Listing.{chan_line, comp_line, comp_name, count_line, end_text, host_holds, instance_line, paths_text, placed_comp};

use bz_arena::{Arena, Id};
use bz_cli_input::{chan_at, print_head, print_ports};
use bz_flat::{Ends, FlatComp, Pieces};
use bz_kind_rows::kind_word;
use bz_model::{Port, Value};
use bz_source::{PathAt, Survey, at_piece, chan_line_at, comp_line_at, name_piece, source_piece};
use bz_text::{Piece, WriteFault};
use bz_trace_text::Printer;
use std::io::Write;

/// Writes the text of a net and its survey, under the name of its part.
pub fn put_paths<W: Write>(
    out: &mut W,
    name: &[u8],
    net: &Pieces,
    s: &Survey,
) -> Result<(), WriteFault>
    requires { length net.now.comps ≤ 1000000 }
    ensures { Writes (W.contents out.old) (W.contents out.new) result (paths_text net.now s.now name.now) }
{
    let mut printer = Printer::new();
    print_head(&mut printer, out, name);
    print_ports(&mut printer, out, &net.chans, &net.ports);
    let chans = s.places.chans();
    print_count(&mut printer, out, b"channels ", chans.len());
    print_chans(&mut printer, out, net, s, chans);
    let instances = s.places.instances();
    print_count(&mut printer, out, b"instances ", instances.len());
    print_instances(&mut printer, out, s, instances);
    print_count(&mut printer, out, b"components ", net.comps.len());
    print_comps(&mut printer, out, s, &net.comps);
    printer.end(out)
}

fn print_count<W: Write>(printer: &mut Printer, out: &mut W, word: &[u8], count: usize)
    ensures { Prints (W.contents out.old) printer.old (W.contents out.new) printer.new (count_line word.now count) }
{
    let pieces = [
        Piece::Bytes(word),
        Piece::Number(count as Value),
        Piece::Bytes(b"\n"),
    ];
    printer.print(out, &pieces);
}

fn print_chans<W: Write>(
    printer: &mut Printer,
    out: &mut W,
    net: &Pieces,
    s: &Survey,
    places: &[PathAt],
)
    ensures { Prints (W.contents out.old) printer.old (W.contents out.new) printer.new (lines (chan_line net.now s.now) 1 (map path_at_of places.now)) }
{
    for (i, place) in places.iter().enumerate() {
        print_chan(printer, out, net, s, i, place);
    }
}

fn print_chan<'a, W: Write>(
    printer: &mut Printer,
    out: &mut W,
    net: &Pieces,
    s: &'a Survey,
    i: usize,
    place: &'a PathAt,
)
    requires { i < 2 ^ 63 }
    ensures { Prints (W.contents out.old) printer.old (W.contents out.new) printer.new (chan_line net.now s.now (i + 1) (path_at_of place.now)) }
{
    let ends = ends_at(&net.ends, i);
    let label = s.chan_label(place);
    let pieces = [
        Piece::Bytes(b"channel "),
        Piece::Number(i as Value + 1),
        Piece::Bytes(b" "),
        Piece::Carried(chan_at(&net.chans, i)),
        Piece::Bytes(b" "),
        end_piece(
            ends.active,
            ends.active_port,
            host_holds(&net.ports, i, false),
        ),
        Piece::Bytes(b" "),
        end_piece(
            ends.passive,
            ends.passive_port,
            host_holds(&net.ports, i, true),
        ),
        at_piece(chan_line_at(&s.parts, &s.lines, place)),
        name_piece(label.name),
        source_piece(label.source),
        Piece::Bytes(b"\n"),
    ];
    printer.print(out, &pieces);
}

// The ends of the channel at a place, none where there is no such channel.
fn ends_at(ends: &[Ends], place: usize) -> Ends
    ensures { result ≡ ends_in ends.now (place + 1) }
{
    match ends.get(place) {
        Some(ends) => *ends,
        None => Ends {
            active: None,
            passive: None,
            active_port: 0,
            passive_port: 0,
        },
    }
}

// A port of a component, the host, or nobody.
fn end_piece(comp: Option<u32>, port: u32, host: bool) -> Piece<'static>
    ensures { piece_text result ≡ end_text comp port host }
{
    match comp {
        Some(comp) => Piece::Port(comp, port),
        None if host => Piece::Bytes(b"host"),
        None => Piece::Bytes(b"-"),
    }
}

/// Whether the host holds the end of this sense of the channel at a place, counted from 0.
pub fn host_holds(ports: &[Port], place: usize, passive: bool) -> bool
    ensures { result ≡ host_holds (map external ports.now) (place + 1) passive }
{
    let count = ports.len();
    if place < count {
        let port = &ports[place];
        is_other(port.passive, passive)
    } else {
        false
    }
}

fn is_other(sense: bool, passive: bool) -> bool
    ensures { result ≡ (if sense then not passive else passive) }
{
    if sense { !passive } else { passive }
}

fn print_instances<W: Write>(printer: &mut Printer, out: &mut W, s: &Survey, instances: &[PathAt])
    ensures { Prints (W.contents out.old) printer.old (W.contents out.new) printer.new (lines (instance_line s.now) 1 (map path_at_of instances.now)) }
{
    for (i, place) in instances.iter().enumerate() {
        print_instance(printer, out, s, i, place);
    }
}

fn print_instance<'a, W: Write>(
    printer: &mut Printer,
    out: &mut W,
    s: &'a Survey,
    _i: usize,
    place: &'a PathAt,
)
    ensures { Prints (W.contents out.old) printer.old (W.contents out.new) printer.new (instance_line s.now (_i + 1) (path_at_of place.now)) }
{
    let pieces = [
        Piece::Bytes(b"instance "),
        Piece::Steps(&place.path),
        Piece::Number(place.position as Value),
        Piece::Bytes(b" "),
        Piece::Name(comp_name(s, place)),
        at_piece(comp_line_at(&s.parts, &s.lines, place)),
        Piece::Bytes(b"\n"),
    ];
    printer.print(out, &pieces);
}

// The name that a component has in the text.
fn comp_name<'s>(s: &'s Survey, place: &PathAt) -> &'s [u8]
    ensures { result.now ≡ comp_name s.now.parts (path_at_of place.now) }
{
    match s.record(place.part, place.position) {
        Some(component) => component.name.as_slice(),
        None => &[],
    }
}

fn print_comps<W: Write>(printer: &mut Printer, out: &mut W, s: &Survey, comps: &Arena<FlatComp>)
    requires { length comps.now ≤ 1000000 }
    ensures { Prints (W.contents out.old) printer.old (W.contents out.new) printer.new (lines (comp_line s.now) 1 (map site_of comps.now)) }
{
    for i in 0..comps.len() {
        print_comp(printer, out, s, i, comps.get(Id::at(i)));
    }
}

fn print_comp<W: Write>(printer: &mut Printer, out: &mut W, s: &Survey, i: usize, comp: &FlatComp)
    requires { i < 1000000 }
    ensures { Prints (W.contents out.old) printer.old (W.contents out.new) printer.new (comp_line s.now (i + 1) (site_of comp.now)) }
{
    match s.places.comp(i as u32 + 1) {
        Some(place) => print_placed(printer, out, s, i as u32 + 1, comp, place),
        None => {}
    }
}

fn print_placed<'a, W: Write>(
    printer: &mut Printer,
    out: &mut W,
    s: &'a Survey,
    number: u32,
    comp: &'a FlatComp,
    place: &'a PathAt,
)
    ensures { Prints (W.contents out.old) printer.old (W.contents out.new) printer.new (placed_comp s.now number (site_of comp.now) (path_at_of place.now)) }
{
    let label = s.comp_label(place);
    let pieces = [
        Piece::Bytes(b"component "),
        Piece::Number(Value::from(number)),
        Piece::Bytes(b" "),
        Piece::Bytes(kind_word(&comp.kind)),
        Piece::Spaced(&comp.chans),
        at_piece(comp_line_at(&s.parts, &s.lines, place)),
        name_piece(label.name),
        source_piece(label.source),
        Piece::Bytes(b"\n"),
    ];
    printer.print(out, &pieces);
}
