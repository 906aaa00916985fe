//! Members of a part's forms that are at fault.

use crate::data::{Head, Members, headed, inside, nth};
use crate::part_faults::Wrong;
use crate::reading::{find_named, name_in, put_datum, say_found};
use bz_explain_notes::Notes;
use bz_model::MAX_WIDTH;
use bz_sexpr::{Form, Forms, Leaf, Shape};
use bz_view::Piece::{Name, Number, Wide};

/// What belongs in a place of a member.
#[derive(Clone, Copy, PartialEq, Eq)]
enum Field {
    Name,
    Sense,
    Number,
    List,
}

/// What a member of a form is: its head, one of two, what follows that, with the words for that place, and how notes put it.
#[derive(Clone, Copy)]
struct Rule {
    heads: [&'static [u8]; 2],
    fields: &'static [(Field, &'static str)],
    expected: &'static str,
}

static PORT: Rule = Rule {
    heads: [b"port", b"sync-port"],
    fields: &[
        (Field::Name, " where its name belongs"),
        (Field::Sense, " where its sense belongs"),
    ],
    expected: "expected: (port \"NAME\" SENSE) or (sync-port \"NAME\" SENSE), SENSE active or passive",
};

// (a sync channel is never at fault)
static CHANNEL: Rule = Rule {
    heads: [b"push", b"pull"],
    fields: &[(Field::Number, " where its width belongs")],
    expected: "expected: (sync), (push W) or (pull W), W from 1 to 128",
};

static COMPONENT: Rule = Rule {
    heads: [b"component", b"component"],
    fields: &[
        (Field::Name, " where its name belongs"),
        (Field::List, " where its parameters belong"),
        (Field::List, " where its entries belong"),
    ],
    expected: "expected: (component \"NAME\" (PARAMETERS) (ENTRIES)), with both lists",
};

impl Field {
    fn is(self, form: Form<'_>) -> bool {
        match (self, form.shape()) {
            (Field::Name, Shape::Leaf(Leaf::Text(_))) => true,
            (Field::Sense, Shape::Leaf(Leaf::Symbol(sense))) => {
                sense == b"active".as_slice() || sense == b"passive".as_slice()
            }
            (Field::Number, Shape::Leaf(Leaf::Num(_))) => true,
            (Field::List, Shape::Items(_)) => true,
            _ => false,
        }
    }
}

/// A member of a form that has none of the shapes, the name of an earlier port, or a width that is out of bounds.
pub(crate) fn explain_member(notes: &mut Notes, part: &Wrong<'_>, head: Head, member: Form<'_>) {
    let rule = match head {
        Head::Ports => PORT,
        Head::Channels => CHANNEL,
        Head::Components => COMPONENT,
    };
    let [one, other] = rule.heads;
    match (inside(member), headed(member)) {
        (None, _) => say_found(notes, Some(member), ""),
        (Some(items), None) => say_found(notes, nth(items, 1), " where its head belongs"),
        (_, Some((word, _))) if word != one && word != other => {
            notes.say("found: the head %", &[Name(word)]);
        }
        (_, Some((_, rest))) => match wrong_in(rule, member, rest) {
            Some((form, place)) => say_found(notes, form, place),
            None => {
                let last = nth(rest, rule.fields.len());
                return explain_whole(notes, part, member, last);
            }
        },
    }
    notes.say(rule.expected, &[]);
}

// The first thing that is not what belongs in its place, and the words for that place.
fn wrong_in<'t>(
    rule: Rule,
    member: Form<'t>,
    rest: Forms<'t>,
) -> Option<(Option<Form<'t>>, &'static str)> {
    for (before, (field, place)) in rule.fields.iter().enumerate() {
        match nth(rest, before + 1) {
            Some(form) if field.is(form) => {}
            // (a component that lacks something is told as a whole, but for its name)
            form if rule.fields.len() == 3 && rest.len() < 3 && (before > 0 || form.is_none()) => {
                return Some((Some(member), ""));
            }
            form => return Some((form, place)),
        }
    }
    None
}

// A member that has the shape: a width that is out of bounds, entries of which one is none, or a port of a name that is taken.
// These are last in the shape, or a sense.
fn explain_whole(notes: &mut Notes, part: &Wrong<'_>, member: Form<'_>, last: Option<Form<'_>>) {
    match shape(last) {
        Some(Shape::Leaf(Leaf::Num(width))) => {
            let args = [Wide(width), Number(MAX_WIDTH as usize)];
            notes.say("found: width %\nexpected: a width from 1 to %", &args);
        }
        Some(Shape::Items(entries)) => explain_entries(notes, entries),
        _ => explain_taken(notes, part, member),
    }
}

fn shape(form: Option<Form<'_>>) -> Option<Shape<'_>> {
    Some(form?.shape())
}

// A port whose name an earlier port has.
fn explain_taken(notes: &mut Notes, part: &Wrong<'_>, member: Form<'_>) {
    if let (Some(name), Some(ports)) = (name_in(notes, member, None), part.members(Head::Ports)) {
        if let Some((number, earlier)) = find_named(notes, ports, None, &name) {
            let found = "found: the name %, which port % has too (";
            notes.put(found, &[Name(&name), Number(number)]);
            notes.say("%)", &[part.spot_of(earlier)]);
        }
    }
    notes.say("expected: a name of its own for each port of a part", &[]);
}

// The first entry that is neither the number of a channel nor a list of such numbers.
fn explain_entries(notes: &mut Notes, entries: Forms<'_>) {
    for (number, entry) in Members::of(entries) {
        if let Some((form, wrong)) = wrong_entry(entry) {
            notes.put(form, &[Number(number)]);
            put_datum(notes, Some(wrong));
            notes.say("", &[]);
            break;
        }
    }
    notes.say(
        "expected: for each entry the number of a channel, or a list of such numbers",
        &[],
    );
}

fn wrong_entry(entry: Form<'_>) -> Option<(&'static str, Form<'_>)> {
    match inside(entry) {
        Some(members) => Some(("found: entry % has ", no_chan(members)?)),
        None if is_chan(entry) => None,
        None => Some(("found: entry % is ", entry)),
    }
}

// The first datum that can't be the number of a channel.
fn no_chan(data: Forms<'_>) -> Option<Form<'_>> {
    for (_, form) in Members::of(data) {
        if !is_chan(form) {
            return Some(form);
        }
    }
    None
}

fn is_chan(form: Form<'_>) -> bool {
    match form.shape() {
        Shape::Leaf(Leaf::Num(number)) => number <= u128::from(u32::MAX),
        _ => false,
    }
}
