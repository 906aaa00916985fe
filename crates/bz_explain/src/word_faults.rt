//! Words that are none.
//!
//! Where a word is the name of a file, a note says so. The file is not taken as the netlist: it might be the trace, or the
//! words.

use crate::asked::Words;
use bz_explain_notes::Notes;
use bz_view::Piece::{Number, Shown, Text};

/// The notes of a word that is no command, by its number from 1.
pub(crate) fn explain_word(notes: &mut Notes, words: Words<'_, '_>, number: usize) {
    let Some(word) = words.word(number) else {
        return;
    };
    let verb = match word.split_once(':') {
        Some((verb, _)) => verb,
        None => word,
    };
    words.put_place(notes, number);
    let found = [Number(number), Shown(word.as_bytes())];
    notes.put("found: word % is %\nexpected: ", &found);
    match rule_of(verb) {
        _ if word == "/" && words.is_pool => notes.say("at most 16 sessions", &[]),
        Some(rule) if verb != "run" || !words.is_pool => notes.say(rule, &[]),
        _ => explain_verb(notes, verb, words.is_pool),
    }
}

// What belongs in a word of a verb.
fn rule_of(verb: &str) -> Option<&'static str> {
    Some(match verb {
        "offer" => "offer:P or offer:P:V, P the name of a port and V a number below 2^128",
        "collect" => "collect:P, P the name of a port",
        "accept" => "accept:P, P the name of a port",
        "answer" => "answer:P or answer:P:V, P the name of a port and V a number below 2^128",
        "watch" => "watch:P, P the name of a port",
        "run" => "run:N, N a number below 2^64",
        _ => return None,
    })
}

// The verbs that there are, and the nearest one: nothing but workers fires in a pool.
fn explain_verb(notes: &mut Notes, verb: &str, is_pool: bool) {
    let verbs: [&[u8]; 6] = [b"offer", b"collect", b"accept", b"answer", b"watch", b"run"];
    let (firing, count) = if is_pool { ("", 5) } else { (" run:N", 6) };
    let form = "one of offer:P[:V] collect:P accept:P answer:P[:V] watch:P%";
    notes.say(form, &[Text(firing)]);
    let nearest = "help: the nearest verb is %";
    notes.say_nearest(nearest, verb.as_bytes(), &verbs[..count]);
}
