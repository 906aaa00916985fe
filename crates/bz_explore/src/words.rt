//! A move in words: who does what, and with whom.

use bz_model::{Entry, Move, Names};
use bz_text::Text;
use bz_trace_text::put_entries;
use bz_view::{Piece, Seen, copy_of, put_instance};

/// The column of the words behind a line.
const COLUMN: usize = 32;

/// Adds the lines of entries, each move with its words behind it.
pub(crate) fn put_worded(seen: Seen<'_>, entries: &[Entry], text: &mut Text) {
    for entry in entries {
        put_line(seen.net.names(), *entry, text);
        put_words(seen, *entry, text);
        text.put("\n");
    }
}

// Adds the line of an entry without its end.
fn put_line(names: &Names, entry: Entry, text: &mut Text) {
    let mut line = Text::new(text.alloc());
    let _ = put_entries(&mut line, names, &[entry]);
    match line.whole() {
        Ok(line) => text.put_bytes(line.strip_suffix(b"\n").unwrap_or(line)),
        Err(_) => text.lose(),
    }
}

// Adds what a component does.
fn put_words(seen: Seen<'_>, entry: Entry, text: &mut Text) {
    let Entry::Fired {
        comp,
        chan,
        mv,
        value,
        ..
    } = entry
    else {
        return;
    };
    text.fill(COLUMN);
    put_short(seen, comp, text);
    match value {
        Some(value) if mv != Move::Ask => text.say(form_with(mv), &[Piece::Wide(value)]),
        _ => text.put(words_of(mv)),
    }
    match seen.end(chan, matches!(mv, Move::Ask | Move::Got)) {
        Some(other) => put_short(seen, other, text),
        None => text.say("%", &[Piece::Host(seen.port_name(chan))]),
    }
    match value {
        Some(value) if mv == Move::Ask => text.say(" with %", &[Piece::Wide(value)]),
        _ => {}
    }
}

// What stands before the other component.
fn words_of(mv: Move) -> &'static str {
    match mv {
        Move::Ask => " asks ",
        Move::Take => " takes the request of ",
        Move::Reply => " replies to ",
        Move::Got => " gets the reply of ",
    }
}

// The same with a value, that of a request aside.
fn form_with(mv: Move) -> &'static str {
    match mv {
        Move::Reply => " replies % to ",
        Move::Got => " gets % from ",
        Move::Ask | Move::Take => " takes % from ",
    }
}

// Adds a component, as it is called, without its place in the source.
fn put_short(seen: Seen<'_>, comp: u32, text: &mut Text) {
    let pieces = [Piece::Bytes(seen.kind(comp)), Piece::Wide(comp.into())];
    text.say("% %", &pieces);
    if let Some(name) = seen.survey.comp_name(comp) {
        text.say(" %", &[Piece::Called(name)]);
    }
    if let Some(at) = copy_of(seen.survey, comp) {
        text.put(" ");
        put_instance(text, at);
    }
}
