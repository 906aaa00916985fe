//! Texts that spell no data: what is open or closed where, and where lists in front of a stray parenthesis were closed.

use crate::data::{Members, inside};
use crate::site::put_place;
use crate::told::MEMORY;
use bz_explain_notes::{Notes, before_in_line, spot_of};
use bz_sexpr::{Form, Forms, SexprError, read_forest};
use bz_view::Piece::At;

/// The notes of a text that spells no data.
pub(crate) fn explain_spelling(notes: &mut Notes, text: &[u8], error: SexprError) {
    let (at, mark, told) = match error {
        SexprError::StrayClose(at) => (
            at,
            "this parenthesis closes nothing",
            "found: a closing parenthesis where no list is open\n\
            expected: as many closing parentheses as opening ones",
        ),
        SexprError::UnclosedText(at) => (
            at,
            "this quote opens a text",
            "found: the netlist ends before the text does\n\
            expected: a closing quote, probably on this line",
        ),
        SexprError::UnclosedList(at) => (
            at,
            "this parenthesis opens a list",
            "found: the netlist ends before the list does\n\
            expected: a closing parenthesis for each opening one",
        ),
        SexprError::TooDeep(at) => (
            at,
            "this parenthesis opens a list in 256 others",
            "found: a list of the 257th level\n\
            expected: lists of at most 256 levels",
        ),
        SexprError::Memory => return notes.say(MEMORY, &[]),
    };
    put_place(notes, text, at, mark, &[]);
    notes.say(told, &[]);
    if let SexprError::StrayClose(at) = error {
        say_closings(notes, text, at);
    }
}

// Tells which list in front of a byte was probably closed too early, or else where the last one there was closed.
fn say_closings(notes: &mut Notes, text: &[u8], at: usize) {
    let (front, _) = text.split_at(at.min(text.len()));
    match read_forest(notes.alloc(), front) {
        Ok(forest) => say_closings_in(notes, front, forest.forms()),
        Err(SexprError::Memory) => notes.fail(),
        Err(_) => {}
    }
}

fn say_closings_in(notes: &mut Notes, front: &[u8], forms: Forms<'_>) {
    let Some(last) = last_list(forms) else {
        return;
    };
    let items = inside(last).unwrap_or(forms);
    let (early, form) = match (closed_early(front, forms), closed_early(front, items)) {
        (Some(early), _) | (None, Some(early)) => (
            early,
            "help: the list that begins at % ends at %, and what follows stands further in",
        ),
        (None, None) => (last, "help: the list before it begins at % and ends at %"),
    };
    let (from, to) = (early.span().from, early.span().to.saturating_sub(1));
    let places = [At(Some(spot_of(front, from))), At(Some(spot_of(front, to)))];
    notes.say(form, &places);
}

fn last_list(forms: Forms<'_>) -> Option<Form<'_>> {
    let mut last = None;
    for (_, form) in Members::of(forms) {
        if inside(form).is_some() {
            last = Some(form);
        }
    }
    last
}

// The first list of several data behind which one begins a line further to the right than the list itself began.
fn closed_early<'t>(text: &[u8], forms: Forms<'t>) -> Option<Form<'t>> {
    let mut before: Option<Form<'t>> = None;
    for (_, form) in Members::of(forms) {
        if let (Some(list), Some(indent)) = (before, indent_of(text, form.span().from)) {
            let (front, _) = text.split_at(list.span().from.min(text.len()));
            if inside(list).is_some() && before_in_line(front) < indent {
                return before;
            }
        }
        before = Some(form);
    }
    None
}

// How many blanks stand before a byte, where there is nothing else before it in its line.
fn indent_of(text: &[u8], byte: usize) -> Option<usize> {
    let (front, _) = text.split_at(byte.min(text.len()));
    let mut blanks = 0usize;
    for letter in front.iter().rev() {
        match *letter {
            b' ' | b'\t' => blanks = blanks.saturating_add(1),
            b'\n' => return Some(blanks),
            _ => return None,
        }
    }
    Some(blanks)
}
