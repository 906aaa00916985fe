//! Texts without any part, which are what is left where the program that was to write a netlist failed.

use crate::data::{headed, letters_of};
use crate::findings::Gathered;
use crate::site::put_place;
use bz_explain_notes::{Detail, NEAREST, Notes, Severity};
use bz_sexpr::Form;
use bz_text::{Piece as Part, Text};
use bz_view::Piece::Shown;
use std::alloc::AllocError;

/// The head of a part.
const HEAD: &[u8] = b"breeze-part";

const EXPECTED: &str =
    "expected: at least one part, (breeze-part \"NAME\" (ports ..) (channels ..) (components ..))";

/// Warns that a text has no part.
pub(crate) fn warn_of_no_part(gathered: &mut Gathered<'_>) -> Result<(), AllocError> {
    if !gathered.has_room() {
        return Ok(());
    }
    let netlist = gathered.netlist;
    let mut notes = Notes::on(netlist.alloc, netlist.file);
    match netlist.data.split_first() {
        Some((form, _)) => explain_first(&mut notes, netlist.text, form),
        None => explain_nothing(&mut notes, netlist.text),
    }
    let mut line = Text::new(netlist.alloc);
    line.put_pieces(&[Part::Bytes(b"W5 NoPart")]);
    gathered.add(Severity::Warning, line, b"", notes)
}

// A text in which nothing is spelt.
fn explain_nothing(notes: &mut Notes, text: &[u8]) {
    put_place(notes, text, 0, "the text begins here", &[]);
    let found = if text.is_empty() {
        "found: an empty text"
    } else {
        "found: a text of white space and comments"
    };
    notes.say(found, &[]);
    notes.say(EXPECTED, &[]);
    notes.say("help: what was to write it may have failed", &[]);
}

// A text that begins with something else.
fn explain_first(notes: &mut Notes, text: &[u8], form: Form<'_>) {
    let at = form.span().from;
    put_place(notes, text, at, "the text begins here", &[]);
    let head = headed(form);
    match head {
        Some((head, _)) => notes.say("found: a list headed %, and no part", &[Shown(head)]),
        None => notes.say("found: %, and no part", &[Shown(letters_of(text, form))]),
    }
    notes.say(EXPECTED, &[]);
    if is_wide(text) {
        notes.say(
            "help: this looks like UTF-16, where one byte is wanted for each letter",
            &[],
        );
    } else if letters_of(text, form) == b"trace".as_slice() {
        notes.say(
            "help: this looks like a trace, which check takes by --trace",
            &[],
        );
    } else if let Some((head, _)) = head {
        say_head(notes, form, head);
    }
}

// Whether a text looks like UTF-16: by its mark, or by a zero among its first bytes.
fn is_wide(text: &[u8]) -> bool {
    let front = text.get(..4).unwrap_or(text);
    front.starts_with(b"\xff\xfe") || front.starts_with(b"\xfe\xff") || front.contains(&0)
}

// Tells that the head of a part was probably meant.
fn say_head(notes: &mut Notes, form: Form<'_>, head: &[u8]) {
    if let Some(meant) = notes.say_nearest(NEAREST, head, &[HEAD]) {
        let items = form.items();
        if let Some((first, _)) = items.and_then(|items| items.split_first()) {
            notes.add_detail(Detail::Replace(first.span(), meant));
        }
    }
}
