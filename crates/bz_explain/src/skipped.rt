//! Parameters of kinds that are skipped: symbols and lists.
//!
//! A generator that writes a truth value or a number in its own language's form writes a symbol. The kind then has one
//! parameter fewer than was meant, and no fault where it does without.

use crate::data::{Head, Members, inside, is_skipped, letters_of, members_of, nth, part_items};
use crate::findings::Gathered;
use crate::site::{NetlistText, put_place};
use bz_explain_notes::{Detail, Notes, Severity};
use bz_model::Value;
use bz_sexpr::{Form, Forms};
use bz_text::{Piece as Part, Text};
use bz_view::Piece::{Name, Number, Shown};
use std::alloc::AllocError;

/// What is found at a list, and at a symbol.
const LIST: &str = "found: a list, which is skipped";

const SYMBOL: &str = "found: the symbol %, which is skipped";

const EXPECTED: &str = "expected: a number in decimal digits, or a text in quotes";

/// Warns of what is skipped among the parameters of components that are no instances.
pub(crate) fn warn_of_skipped(gathered: &mut Gathered<'_>) -> Result<(), AllocError> {
    let mut number = 0usize;
    for (_, form) in Members::of(gathered.netlist.data) {
        if let Some(items) = part_items(form) {
            if let Some(records) = members_of(items, Head::Components) {
                warn_in_part(gathered, number, records)?;
            }
            number = number.saturating_add(1);
        }
    }
    Ok(())
}

fn warn_in_part<'t>(
    gathered: &mut Gathered<'t>,
    number: usize,
    records: Forms<'t>,
) -> Result<(), AllocError> {
    for (position, record) in Members::of(records) {
        if let (false, Some(params)) = (
            is_instance(gathered.netlist, number, position),
            params_in(record),
        ) {
            for (_, form) in Members::of(params) {
                if is_skipped(form) && gathered.has_room() {
                    warn_of(gathered, number, position, form)?;
                }
            }
        }
    }
    Ok(())
}

fn is_instance(netlist: NetlistText<'_>, number: usize, position: usize) -> bool {
    match netlist.site(number, position) {
        Some(site) => site.inner().is_some(),
        None => false,
    }
}

// The parameters of a component's record.
fn params_in(record: Form<'_>) -> Option<Forms<'_>> {
    inside(nth(inside(record)?, 3)?)
}

fn warn_of(
    gathered: &mut Gathered<'_>,
    number: usize,
    position: usize,
    form: Form<'_>,
) -> Result<(), AllocError> {
    let netlist = gathered.netlist;
    let name = netlist.name(number);
    let mut notes = Notes::on(netlist.alloc, netlist.file);
    netlist.add_record(&mut notes, number, Head::Components, position);
    let mark = [Number(position), Name(name)];
    let at = form.span().from;
    let place = "a parameter of component % of part %";
    put_place(&mut notes, netlist.text, at, place, &mark);
    explain(&mut notes, netlist.text, form);
    let mut line = Text::new(netlist.alloc);
    line.put_pieces(&[
        Part::Bytes(b"W6 SkippedParameter "),
        Part::Name(name),
        Part::Value(Some(position as Value)),
    ]);
    gathered.add(Severity::Warning, line, name, notes)
}

// What is skipped, and what was probably meant.
fn explain(notes: &mut Notes, text: &[u8], form: Form<'_>) {
    if inside(form).is_some() {
        notes.say(LIST, &[]);
        notes.say(EXPECTED, &[]);
        return;
    }
    let letters = letters_of(text, form);
    notes.say(SYMBOL, &[Shown(letters)]);
    notes.say(EXPECTED, &[]);
    match meant_by(letters) {
        Some(Meant::Truth(meant)) => {
            notes.say("help: a truth value is written %", &[Shown(meant)]);
            notes.add_detail(Detail::Replace(form.span(), meant));
        }
        Some(Meant::Number) => notes.say(
            "help: a number has digits alone, no sign and no point",
            &[],
        ),
        None => notes.say("help: a text is written \"%\"", &[Shown(letters)]),
    }
}

/// What a symbol was probably meant to be.
#[derive(Clone, Copy)]
enum Meant {
    Truth(&'static [u8]),
    Number,
}

fn meant_by(symbol: &[u8]) -> Option<Meant> {
    match symbol {
        b"true" | b"True" | b"TRUE" | b"#true" | b"#T" => Some(Meant::Truth(b"\"true\"")),
        b"false" | b"False" | b"FALSE" | b"#false" | b"#F" => Some(Meant::Truth(b"\"false\"")),
        _ => match symbol.first() {
            Some(b'0'..=b'9' | b'-' | b'+' | b'.') => Some(Meant::Number),
            _ => None,
        },
    }
}
