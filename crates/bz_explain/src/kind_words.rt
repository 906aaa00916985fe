//! What the kinds of component ask of their entries, channels and parameters.

use bz_explain_notes::Notes;
use bz_kind_rows::{
    PortAt, PortRow, WidthRule, kind_named, kind_word, operation_names, port_table, row_named,
    row_of,
};
use bz_model::{ChanKind, Kind, LengthRule, ParamMeaning, ParamPlace, ParamRow};
use bz_view::Piece::{self, Bytes, Count, Port, Text};
use std::alloc::{AllocError, Global};

/// Kinds of Balsa's that there are not here.
const LEFT_OUT: &str =
    "Memory InitVariable BuiltinVariable Mask Encode NullAdapt SynchPush CallActive \
    CallDemuxPush SplitEqual";

/// Whether a name is that of a kind of Balsa's that there is not here.
pub(crate) fn is_left_out(name: &[u8]) -> bool {
    match name.strip_prefix(b"$Brz") {
        Some(word) => LEFT_OUT.split(' ').any(|kind| kind.as_bytes() == word),
        None => false,
    }
}

/// The operations that a parameter of the kind of a name may be.
pub(crate) fn operations_of(alloc: Global, name: &[u8]) -> Result<Vec<&'static [u8]>, AllocError> {
    let mut names = Vec::new(alloc);
    for parameter in parameters_of(name) {
        for operation in operation_names(parameter.meaning) {
            names.push(operation.as_bytes())?;
        }
    }
    Ok(names)
}

// The parameters that the kind of a name looks at.
fn parameters_of(name: &[u8]) -> &'static [ParamRow] {
    match kind_named(name) {
        Some(kind) => row_named(kind).parameters,
        None => &[],
    }
}

// A kind's article and word: `a Fetch`, `an Arbiter`.
fn word_of(kind: &Kind) -> (Piece<'static>, Piece<'static>) {
    let word = kind_word(kind);
    let article = if word.starts_with(b"A") { "an" } else { "a" };
    (Text(article), Bytes(word))
}

/// Goes on with the numbers of single entries and of lists.
pub(crate) fn put_counts(notes: &mut Notes, entries: usize, lists: usize) {
    let singles = entries.saturating_sub(lists);
    let singles = Count(singles, "single entry");
    notes.put("% and %", &[singles, Count(lists, "list")]);
}

/// Tells the entries that a kind takes: how many, and its ports in their order; and behind that what else they have to be.
pub(crate) fn put_row(notes: &mut Notes, kind: &Kind, behind: &str) {
    let rows = port_table(kind);
    let (article, word) = word_of(kind);
    notes.put("expected: for % % ", &[article, word]);
    put_counts(
        notes,
        rows.len(),
        rows.iter().filter(|row| row.array).count(),
    );
    let mut before = ": (";
    for row in rows {
        let form = if row.array { "%(%1 ..)" } else { "%%" };
        notes.put(form, &[Text(before), Text(row.name)]);
        before = " ";
    }
    notes.say(")%%", &[Text(list_rule(kind)), Text(behind)]);
}

// What the lists of a kind have to be beside their number.
fn list_rule(kind: &Kind) -> &'static str {
    match row_of(kind).lengths {
        Some(LengthRule::Sets) => ", a channel for each set of its text",
        Some(LengthRule::Equal) => ", both lists of one length",
        None => "",
    }
}

/// Tells what a port's channel should carry.
pub(crate) fn put_kind(notes: &mut Notes, kind: &Kind, port: PortAt) {
    let name = match (deed(*port.row), port.row.name, port.member) {
        ("asks for", "inp", None) => Text("its input"),
        _ => Port(port),
    };
    let (article, word) = word_of(kind);
    let (carried, deed) = (Text(port.row.kind.word()), Text(deed(*port.row)));
    let args = [carried, article, word, deed, name];
    notes.say("expected: a % channel: % % % %", &args);
}

// What a component does at such a port.
fn deed(row: PortRow) -> &'static str {
    match (row.kind, row.passive) {
        (ChanKind::Sync, false) => "calls",
        (ChanKind::Sync, true) => "is called at",
        (ChanKind::Push, false) => "pushes a value on",
        (ChanKind::Push, true) => "takes a value at",
        (ChanKind::Pull, false) => "asks for",
        (ChanKind::Pull, true) => "is asked for",
    }
}

/// Tells what widths a kind asks for.
pub(crate) fn put_widths(notes: &mut Notes, kind: &Kind) {
    let row = row_of(kind);
    let mut before = "expected: ";
    for rule in row.widths {
        notes.put(before, &[]);
        put_rule(notes, row.ports, rule);
        before = ", and ";
    }
    let (article, word) = word_of(kind);
    notes.say(", of % %", &[article, word]);
}

// Goes on with what a rule asks of the widths at these ports.
fn put_rule(notes: &mut Notes, ports: &[PortRow], rule: &WidthRule) {
    match *rule {
        WidthRule::Equal(places) => put_ports(notes, "one width for", ports, places),
        WidthRule::One(places) => put_ports(notes, "1 bit for", ports, places),
        WidthRule::Sum(whole, places) => {
            put_ports(notes, "for", ports, &[whole]);
            put_ports(notes, " the widths of", ports, places);
            notes.put(" together", &[]);
        }
        WidthRule::Within(part, whole) => {
            put_ports(notes, "within the width of", ports, &[whole]);
            put_ports(notes, " the lowest bit and the width of", ports, &[part]);
        }
    }
}

// Goes on with the ports at these places.
fn put_ports(notes: &mut Notes, front: &str, ports: &[PortRow], places: &[usize]) {
    let mut before = front;
    for place in places {
        if let Some(port) = ports.get(*place) {
            let form = if port.array { "% each %" } else { "% %" };
            notes.put(form, &[Text(before), Text(port.name)]);
            before = " and";
        }
    }
}

/// Goes on with the parameters that a component of this name has to have.
pub(crate) fn put_parameters(notes: &mut Notes, name: &[u8]) {
    let mut before = "";
    for parameter in parameters_of(name) {
        if !is_sign(parameter.meaning) {
            notes.put(before, &[]);
            put_parameter(notes, *parameter);
            before = "; ";
        }
    }
}

// Whether a parameter says if values have a sign: whatever it is, it is taken.
fn is_sign(meaning: ParamMeaning) -> bool {
    matches!(meaning, ParamMeaning::Sign(_) | ParamMeaning::ConstantSign)
}

fn put_parameter(notes: &mut Notes, parameter: ParamRow) {
    let (place, shape) = match parameter.place {
        ParamPlace::Number(place) => (ordinal(place), "number"),
        ParamPlace::Flag(place) => (ordinal(place), "truth value"),
        ParamPlace::Text(place) => (ordinal(place), "text"),
        ParamPlace::LastText => ("last", "text"),
    };
    let condition = if parameter.is_optional {
        ", if there is one"
    } else {
        ""
    };
    let args = [
        Text(place),
        Text(shape),
        Text(condition),
        Text(asked(parameter.meaning)),
    ];
    notes.put("a % %%, %", &args);
    for operation in operation_names(parameter.meaning) {
        notes.put(" %", &[Text(operation)]);
    }
}

// The word for a place, counted from 0. No kind looks at a parameter behind the fourth of a shape.
fn ordinal(place: usize) -> &'static str {
    match place {
        0 => "first",
        1 => "second",
        2 => "third",
        _ => "fourth",
    }
}

// What a parameter is to be; behind that of an operation stand the names.
fn asked(meaning: ParamMeaning) -> &'static str {
    match meaning {
        ParamMeaning::Specification => "a set of numbers for each member, as in 0;1..3,5",
        ParamMeaning::Unary | ParamMeaning::Binary => "one of",
        ParamMeaning::Sign(_) | ParamMeaning::ConstantSign => "whether there is a sign",
        ParamMeaning::ConstantWidth => "the width of its constant, from 1 to 128",
        ParamMeaning::Constant => "the value",
        ParamMeaning::Low => "the lowest bit",
        ParamMeaning::Empty => "empty: each read is of the whole value",
    }
}
