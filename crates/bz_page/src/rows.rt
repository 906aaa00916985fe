//! What a page is told beside the list and the trace: what each kind in the net is, and what parameters say.
//!
//! The rows go by the table of kinds and not by components, so that the page has no table of its own; a kind that the net
//! hasn't is left out.

ghost use Rattle.std.specs.Prelude.{◌≡◌, ◌≤◌, length, map, IfOk, IfSome};
ghost use Rattle.std.specs.List.{flat_map};
ghost use Rattle.bz_text.specs.Growing.{Grows};
ghost use Rattle.bz_model.specs.Clashes.{may_meet};
ghost use Rattle.bz_flat.specs.Flats.{site_of};
ghost use Rattle.bz_kind_rows.specs.Table.{seen, seen_row};
ghost use Rattle.bz_source.specs.Details.{detail_text};
ghost use Rattle.bz_source.specs.Views.{detail_of};
ghost use Rattle.bz_cli_input.specs.Listing.{lines};
ghost use Rattle.bz_page.specs.Rows.{detail_line, has_kind, kind_line, kind_lines, mark, port_word, rows_text, sense_mark, told_detail};

use bz_arena::{Arena, Id};
use bz_flat::{FlatComp, Pieces};
use bz_kind_rows::{KindRow, PortRow, kind_rows, kind_word};
use bz_model::{Callers, Value};
use bz_source::{Detail, Survey, put_detail};
use bz_text::{Piece, Text, WriteFault};
use std::alloc::{AllocError, Global};

/// The rows of a page; the lines that tell how the run ended stand at the end.
pub(crate) fn rows_of(alloc: Global, net: &Pieces, survey: &Survey, ends: &[u8]) -> Text
    requires { length net.now.comps ≤ 1000000 }
    ensures { IfSome result (λ rows. rows ≡ rows_text survey.now (map site_of net.now.comps) ends.now) }
{
    let mut rows = Text::new(alloc);
    put_kinds(&mut rows, &net.comps);
    put_details(&mut rows, &net.comps, survey);
    rows.put_bytes(ends);
    rows
}

// Adds a line for each kind in the net.
fn put_kinds(rows: &mut Text, comps: &Arena<FlatComp>)
    ensures { Grows rows.old rows.new (kind_lines (map site_of comps.now)) }
{
    for row in kind_rows() {
        if has_kind(comps, row.word()) {
            put_kind(rows, row);
        }
    }
}

// Whether a component is of the kind of this word.
fn has_kind(comps: &Arena<FlatComp>, word: &[u8]) -> bool
    ensures { result ≡ has_kind (map site_of comps.now) word.now }
{
    for i in 0..comps.len() {
        if word == kind_word(&comps.get(Id::at(i)).kind) {
            return true;
        }
    }
    false
}

// Adds the line of a kind.
fn put_kind(rows: &mut Text, row: &KindRow)
    ensures { Grows rows.old rows.new (kind_line (seen_row row.now)) }
{
    rows.put_pieces(&[Piece::Bytes(b"row "), Piece::Bytes(row.word())]);
    put_ports(rows, row.ports);
    rows.put_pieces(&[
        Piece::Bytes(mark(row.is_variable, b" variable")),
        Piece::Bytes(mark(row.has_ordered_ports, b" ordered")),
        Piece::Bytes(mark(row.is_hub, b" hub")),
        Piece::Bytes(mark(may_meet(row), b" meet")),
        Piece::Bytes(b" s:"),
        Piece::Bytes(row.sign.as_bytes()),
        Piece::Bytes(b"\n"),
    ]);
}

fn put_ports(rows: &mut Text, ports: &[PortRow])
    ensures { Grows rows.old rows.new (flat_map port_word (map seen ports.now)) }
{
    for port in ports {
        put_port(rows, port);
    }
}

fn put_port(rows: &mut Text, port: &PortRow)
    ensures { Grows rows.old rows.new (port_word (seen port.now)) }
{
    rows.put_pieces(&[
        Piece::Bytes(sense_mark(port.passive)),
        Piece::Bytes(port.name.as_bytes()),
        Piece::Bytes(mark(port.array, b"*")),
    ]);
}

fn sense_mark(is_passive: bool) -> &'static [u8]
    ensures { result.now ≡ sense_mark is_passive }
{
    if is_passive { b" p:" } else { b" a:" }
}

// What is written where something is so.
fn mark(is_so: bool, text: &'static [u8]) -> &'static [u8]
    ensures { result.now ≡ mark is_so text.now }
{
    if is_so { text } else { b"" }
}

// Whether requests may meet at components of a kind.
fn may_meet(row: &KindRow) -> bool
    ensures { result ≡ may_meet row.now.callers }
{
    matches!(row.callers, Callers::Meet)
}

// Adds a line for each component of which the parameters say more than its kind and its name.
fn put_details(rows: &mut Text, comps: &Arena<FlatComp>, survey: &Survey)
    requires { length comps.now ≤ 1000000 }
    ensures { Grows rows.old rows.new (lines (detail_line survey.now) 1 (map site_of comps.now)) }
{
    for place in 0..comps.len() {
        put_detail_line(rows, survey, place as u32 + 1, comps.get(Id::at(place)));
    }
}

// Adds the line of a component, counted from 1, if it has one.
fn put_detail_line(rows: &mut Text, survey: &Survey, number: u32, comp: &FlatComp)
    ensures { Grows rows.old rows.new (detail_line survey.now number (site_of comp.now)) }
{
    match survey.comp_detail(number, &comp.kind) {
        Some(detail) => put_told_detail(rows, number, detail),
        None => {}
    }
}

fn put_told_detail(rows: &mut Text, number: u32, detail: Detail<'_>)
    ensures { Grows rows.old rows.new (told_detail number (detail_of detail.entry)) }
{
    match detail_bytes(rows.alloc(), detail) {
        Ok(bytes) => rows.put_pieces(&[
            Piece::Bytes(b"detail "),
            Piece::Number(Value::from(number)),
            Piece::Bytes(b" "),
            Piece::Bytes(bytes.as_slice()),
            Piece::Bytes(b"\n"),
        ]),
        Err(AllocError) => rows.lose(),
    }
}

fn detail_bytes(alloc: Global, detail: Detail<'_>) -> Result<Vec<u8>, AllocError>
    ensures { IfOk result (λ bytes. bytes.items ≡ detail_text (detail_of detail.entry)) }
{
    let mut bytes = Vec::new(alloc);
    match put_detail(&mut bytes, detail) {
        Ok(()) => Ok(bytes),
        // a vector is refused for memory alone
        Err(WriteFault) => Err(AllocError),
    }
}
