//! The kinds, an item after the other: lines of words, or objects of JSON.

ghost use Rattle.std.specs.Prelude.{◌≡◌, ◌+◌, Some, map};
ghost use Rattle.bz_kind_rows.specs.Table.{seen, seen_row, seen_rule};
ghost use Rattle.bz_text.specs.Growing.{Grows};
ghost use Rattle.bz_cli_kinds.specs.Fields.{listed};
ghost use Rattle.bz_cli_kinds.specs.Items.{array_name, first_place, head, kind_item, kinds_text, lengths_by, lengths_item, meaning_word, names_at, names_listed, operand_fields, optional_end, parameter_item, parameter_items, port_item, port_name, width_item, width_items};

use crate::fields::{put_comma, put_field, put_mark, put_place};
use bz_kind_rows::{KindRow, PortRow, WidthRule, kind_rows, operation_names};
use bz_model::{LengthRule, ParamMeaning, ParamRow, Value};
use bz_text::{Piece, Text};

/// Adds all kinds: lines, or one object with the kinds one a line.
pub(crate) fn put_kinds(text: &mut Text, is_json: bool)
    ensures { Grows text.old text.new (kinds_text is_json) }
{
    put_mark(
        text,
        is_json,
        b"kinds 1\n",
        b"{\"version\": 1, \"kinds\": [",
    );
    for (place, row) in kind_rows().iter().enumerate() {
        put_head(text, is_json, place);
        put_kind(text, is_json, row);
    }
    put_mark(text, is_json, b"", b"\n]}\n");
}

// Adds what stands in front of a kind, by its place from 0.
fn put_head(text: &mut Text, is_json: bool, place: usize)
    ensures { Grows text.old text.new (head is_json (place + 1)) }
{
    if place > 0 {
        put_mark(text, is_json, b"kind", b",\n");
    } else {
        put_mark(text, is_json, b"kind", b"\n");
    }
}

fn put_kind(text: &mut Text, is_json: bool, row: &KindRow)
    ensures { Grows text.old text.new (kind_item is_json (seen_row row.now)) }
{
    put_field(text, is_json, b"{\"name\": \"", row.name);
    put_mark(text, is_json, b"\n", b", \"ports\": [");
    put_ports(text, is_json, row.ports);
    put_mark(text, is_json, b"", b"], \"lengths\": [");
    put_lengths(text, is_json, row);
    put_mark(text, is_json, b"", b"], \"widths\": [");
    put_widths(text, is_json, row);
    put_mark(text, is_json, b"", b"], \"parameters\": [");
    put_parameters(text, is_json, row);
    put_mark(text, is_json, b"", b"]}");
}

fn put_ports(text: &mut Text, is_json: bool, ports: &[PortRow])
    ensures { Grows text.old text.new (listed (port_item is_json) is_json (map seen ports.now)) }
{
    for (place, port) in ports.iter().enumerate() {
        put_comma(text, is_json, place);
        put_port(text, is_json, place, port);
    }
}

fn put_port(text: &mut Text, is_json: bool, place: usize, port: &PortRow)
    ensures { Grows text.old text.new (port_item is_json (place + 1) (seen port.now)) }
{
    if !is_json {
        text.put_pieces(&[Piece::Bytes(b"port "), Piece::Number(place as Value + 1)]);
    }
    let sense = if port.passive { "passive" } else { "active" };
    put_field(text, is_json, b"{\"name\": \"", port.name);
    put_field(text, is_json, b", \"sense\": \"", sense);
    put_field(text, is_json, b", \"carries\": \"", port.kind.word());
    let (line, json): (&[u8], &[u8]) = if port.array {
        (b" array\n", b", \"array\": true}")
    } else {
        (b"\n", b", \"array\": false}")
    };
    put_mark(text, is_json, line, json);
}

fn put_lengths(text: &mut Text, is_json: bool, row: &KindRow)
    ensures { Grows text.old text.new (lengths_item is_json (seen_row row.now)) }
{
    if let Some(rule) = row.lengths {
        put_length_rule(text, is_json, row, rule);
    }
}

fn put_length_rule(text: &mut Text, is_json: bool, row: &KindRow, rule: LengthRule)
    ensures { Grows text.old text.new (lengths_by is_json (Some rule) (seen_row row.now)) }
{
    match rule {
        LengthRule::Equal => {
            put_mark(
                text,
                is_json,
                b"lengths equal",
                b"{\"rule\": \"equal\", \"arrays\": [",
            );
            put_field(text, is_json, b"\"", array_name(row.ports, 0));
            put_field(text, is_json, b", \"", array_name(row.ports, 1));
            put_mark(text, is_json, b"\n", b"]}");
        }
        LengthRule::Sets => {
            put_mark(text, is_json, b"lengths sets", b"{\"rule\": \"sets\"");
            put_field(text, is_json, b", \"array\": \"", array_name(row.ports, 0));
            put_first_place(text, is_json, b", \"parameter\": \"", row);
            put_mark(text, is_json, b"\n", b"}");
        }
    }
}

// Adds the place of a kind's first parameter, of which its rules for lengths and widths speak.
fn put_first_place(text: &mut Text, is_json: bool, before: &[u8], row: &KindRow)
    ensures { Grows text.old text.new (first_place is_json before.now (seen_row row.now).parameters) }
{
    if let Some(parameter) = row.parameters.first() {
        put_place(text, is_json, before, parameter.place);
    }
}

// The name of an array among the ports, by its place among the arrays.
fn array_name(ports: &'static [PortRow], place: usize) -> &'static str
    ensures { result.now ≡ array_name (map seen ports.now) place }
{
    let [port, rest @ ..] = ports else {
        return "";
    };
    if !port.array {
        array_name(rest, place)
    } else if place > 0 {
        array_name(rest, place - 1)
    } else {
        port.name
    }
}

fn put_widths(text: &mut Text, is_json: bool, row: &KindRow)
    ensures { Grows text.old text.new (width_items is_json (seen_row row.now)) }
{
    for (place, rule) in row.widths.iter().enumerate() {
        put_comma(text, is_json, place);
        put_width(text, is_json, row, rule);
    }
}

fn put_width(text: &mut Text, is_json: bool, row: &KindRow, rule: &WidthRule)
    ensures { Grows text.old text.new (width_item is_json (seen_row row.now) (seen_rule rule.now)) }
{
    match *rule {
        WidthRule::Equal(places) => {
            put_mark(
                text,
                is_json,
                b"widths equal",
                b"{\"rule\": \"equal\", \"ports\": [",
            );
            put_names(text, is_json, row.ports, places);
        }
        WidthRule::One(places) => {
            put_mark(
                text,
                is_json,
                b"widths one",
                b"{\"rule\": \"one\", \"ports\": [",
            );
            put_names(text, is_json, row.ports, places);
        }
        WidthRule::Sum(whole, places) => {
            put_mark(text, is_json, b"widths sum", b"{\"rule\": \"sum\"");
            put_field(
                text,
                is_json,
                b", \"port\": \"",
                port_name(row.ports, whole),
            );
            put_mark(text, is_json, b"", b", \"of\": [");
            put_names(text, is_json, row.ports, places);
        }
        WidthRule::Within(part, whole) => {
            put_mark(text, is_json, b"widths within", b"{\"rule\": \"within\"");
            put_first_place(text, is_json, b", \"from\": \"", row);
            put_field(text, is_json, b", \"port\": \"", port_name(row.ports, part));
            put_field(text, is_json, b", \"in\": \"", port_name(row.ports, whole));
            put_mark(text, is_json, b"\n", b"}");
        }
    }
}

// The name of the port at a place, from 0.
fn port_name(ports: &'static [PortRow], place: usize) -> &'static str
    ensures { result.now ≡ port_name (map seen ports.now) place }
{
    match ports.get(place) {
        Some(port) => port.name,
        None => "",
    }
}

// Adds the names of the ports at these places, and the end of their item.
fn put_names(text: &mut Text, is_json: bool, ports: &'static [PortRow], places: &[usize])
    ensures { Grows text.old text.new (names_at is_json (map seen ports.now) places.now) }
{
    for (place, port) in places.iter().enumerate() {
        put_comma(text, is_json, place);
        put_field(text, is_json, b"\"", port_name(ports, *port));
    }
    put_mark(text, is_json, b"\n", b"]}");
}

fn put_parameters(text: &mut Text, is_json: bool, row: &KindRow)
    ensures { Grows text.old text.new (parameter_items is_json (seen_row row.now)) }
{
    for (place, parameter) in row.parameters.iter().enumerate() {
        put_comma(text, is_json, place);
        put_parameter(text, is_json, row, parameter);
    }
}

fn put_parameter(text: &mut Text, is_json: bool, row: &KindRow, parameter: &ParamRow)
    ensures { Grows text.old text.new (parameter_item is_json (seen_row row.now) parameter.now) }
{
    put_mark(text, is_json, b"parameter", b"{");
    put_place(text, is_json, b"\"place\": \"", parameter.place);
    put_field(
        text,
        is_json,
        b", \"is\": \"",
        meaning_word(parameter.meaning),
    );
    put_mark(text, is_json, b"", b", \"of\": [");
    put_operands(text, is_json, row, parameter.meaning);
    put_optional(text, is_json, parameter.is_optional);
}

// Adds whether a parameter may be left out, and the end of its item.
fn put_optional(text: &mut Text, is_json: bool, is_optional: bool)
    ensures { Grows text.old text.new (optional_end is_json is_optional) }
{
    if is_optional {
        put_mark(text, is_json, b" optional\n", b"], \"optional\": true}");
    } else {
        put_mark(text, is_json, b"\n", b"], \"optional\": false}");
    }
}

// The word of what a parameter is.
fn meaning_word(meaning: ParamMeaning) -> &'static str
    ensures { result.now ≡ meaning_word meaning }
{
    match meaning {
        ParamMeaning::Specification => "specification",
        ParamMeaning::Unary | ParamMeaning::Binary => "operation",
        ParamMeaning::Sign(_) | ParamMeaning::ConstantSign => "sign",
        ParamMeaning::ConstantWidth => "width",
        ParamMeaning::Constant => "value",
        ParamMeaning::Low => "low",
        ParamMeaning::Empty => "empty",
    }
}

// Adds the operations that a parameter may be, or the operand of whose sign it speaks.
fn put_operands(text: &mut Text, is_json: bool, row: &KindRow, meaning: ParamMeaning)
    ensures { Grows text.old text.new (operand_fields is_json (seen_row row.now) meaning) }
{
    match meaning {
        ParamMeaning::Sign(place) => {
            put_field(text, is_json, b"\"", port_name(row.ports, place));
        }
        ParamMeaning::ConstantSign => put_field(text, is_json, b"\"", "constant"),
        _ => put_operations(text, is_json, operation_names(meaning)),
    }
}

fn put_operations(text: &mut Text, is_json: bool, names: &[&str])
    ensures { Grows text.old text.new (names_listed is_json (map (λ name. name.now) names.now)) }
{
    for (place, name) in names.iter().enumerate() {
        put_comma(text, is_json, place);
        put_field(text, is_json, b"\"", name);
    }
}
