//! Data by what they spell: names, and how a note speaks of a datum.

use crate::data::{Members, headed, nth};
use bz_explain_notes::Notes;
use bz_sexpr::{Form, Forms, Leaf, Shape};
use bz_view::Piece::{self, Count, Name, Wide};

/// The first list, of those with this head where one is asked for, that has this name behind its head; and its number, from 1.
pub(crate) fn find_named<'t>(
    notes: &mut Notes,
    data: Forms<'t>,
    head: Option<&[u8]>,
    name: &[u8],
) -> Option<(usize, Form<'t>)> {
    for (number, form) in Members::of(data) {
        if let Some(found) = name_in(notes, form, head) {
            if found.as_slice() == name {
                return Some((number, form));
            }
        }
    }
    None
}

/// The text behind the head of a list, of this head where one is asked for.
pub(crate) fn name_in(notes: &mut Notes, form: Form<'_>, asked: Option<&[u8]>) -> Option<Vec<u8>> {
    let (head, rest) = headed(form)?;
    match (nth(rest, 1)?.shape(), asked) {
        (_, Some(asked)) if head != asked => None,
        (Shape::Leaf(Leaf::Text(name)), _) => Some(notes.gathered(name.bytes(notes.alloc()))),
        _ => None,
    }
}

/// Tells that a datum, or nothing, was found, with what stands behind it.
pub(crate) fn say_found(notes: &mut Notes, form: Option<Form<'_>>, behind: &str) {
    notes.put("found: ", &[]);
    put_datum(notes, form);
    notes.say(behind, &[]);
}

/// Goes on with a datum, or with the word that there is nothing.
pub(crate) fn put_datum(notes: &mut Notes, form: Option<Form<'_>>) {
    let Some(form) = form else {
        return notes.put("nothing", &[]);
    };
    let (form, arg) = match form.shape() {
        Shape::Leaf(Leaf::Num(number)) => ("the number %", Wide(number)),
        Shape::Leaf(Leaf::Truth(true)) => ("the truth value #t", Piece::Text("")),
        Shape::Leaf(Leaf::Truth(false)) => ("the truth value #f", Piece::Text("")),
        Shape::Leaf(Leaf::Symbol(symbol)) => ("the symbol %", Name(symbol)),
        Shape::Leaf(Leaf::Text(text)) => {
            let bytes = notes.gathered(text.bytes(notes.alloc()));
            return notes.put("the text %", &[Name(&bytes)]);
        }
        Shape::Items(items) => match items.len() {
            0 => ("an empty list", Piece::Text("")),
            count => ("a list of %", Count(count, "item")),
        },
    };
    notes.put(form, &[arg]);
}
