//! What is found of a trace, as an object of JSON on a line of its own.
//!
//! Values are strings: they have up to 128 bits, and readers of JSON keep 53 bits of a number.

use crate::items::{LineAt, line_of};
use crate::suspect::Suspect;
use bz_cli_trace::Finding;
use bz_explore_moves::{put_move_objects, put_next};
use bz_explore_net::{answered_words, offers_of};
use bz_model::{Phase, Value};
use bz_text::Text;
use bz_trace::{Counts, Verdict};
use bz_view::Piece::{Flag, Json, Number, Wide};
use bz_view::{Seen, gathered, put_json_lines, put_rest, say_json};

/// The most moves that an object has by the names of version 1, and the most words of the host.
const MOST_TOLD: usize = 1000;

/// Adds an object with what was found of a trace, and the end of the line. The net is where the trace ends that is that of a run,
/// or before the line that no run allows.
pub fn put_found(suspect: Suspect<'_>, found: Finding, seen: Seen<'_>, text: &mut Text) {
    match suspect.file {
        Some(file) => text.say("{\"version\": 2, \"trace\": %", &[Json(file.as_bytes())]),
        None => text.put("{\"version\": 2, \"trace\": null"),
    }
    match found.verdict {
        Verdict::Run => {
            put_run(found.counts, text);
            put_state(seen, text);
        }
        Verdict::Not(line) => {
            text.put(", \"verdict\": \"not-a-run\"");
            put_line(suspect, line, text);
            text.say(", \"early\": %", &[Flag(found.early)]);
            put_state(seen, text);
        }
        Verdict::Bad(line) => {
            text.put(", \"verdict\": \"not-a-trace\"");
            put_line(suspect, line, text);
        }
        Verdict::Memory => text.lose(),
    }
    text.put("}\n");
}

fn put_run(counts: Counts, text: &mut Text) {
    let Counts { fired, host, rests } = counts;
    let form = ", \"verdict\": \"run\", \"fired\": %, \"host\": %, \"rests\": %";
    text.say(
        form,
        &[
            Wide(fired as Value),
            Wide(host as Value),
            Wide(rests as Value),
        ],
    );
}

// The number of the line that the verdict names, and the line, where there is one.
fn put_line(suspect: Suspect<'_>, number: usize, text: &mut Text) {
    text.say(", \"line\": %", &[Number(number)]);
    let rest = LineAt::of(suspect, number).rest;
    if !rest.is_empty() {
        text.say(", \"text\": %", &[Json(line_of(rest))]);
    }
}

// What can come next in a net, and who waits for whom where nothing can move.
fn put_state(seen: Seen<'_>, text: &mut Text) {
    let is_at_rest = seen.net.next_ready(1).is_none();
    text.say(", \"at_rest\": %", &[Flag(is_at_rest)]);
    put_next(seen.net, text);
    put_old_names(seen, text);
    text.put(", \"waits\": [");
    if is_at_rest && !is_quiet(seen) {
        put_waits(seen, text);
    }
    text.put("]");
}

// What can come next by the names of version 1: of moves and of words the first thousand, each word as it is typed.
fn put_old_names(seen: Seen<'_>, text: &mut Text) {
    let alloc = text.alloc();
    let moves = gathered(offers_of(alloc, seen.net), text);
    let words = gathered(answered_words(alloc, seen.net), text);
    let offers = moves.as_slice();
    text.put(", \"expected\": [");
    put_move_objects(seen.net, offers.get(..MOST_TOLD).unwrap_or(offers), text);
    text.put("], \"host_words\": [");
    let mut before = "";
    for word in words.iter().take(MOST_TOLD) {
        text.put(before);
        say_json(text, "%", &[seen.host_word(word.verb, word.port)]);
        before = ", ";
    }
    text.put("]");
}

// Who waits for whom, each line as a string.
fn put_waits(seen: Seen<'_>, text: &mut Text) {
    let mut lines = Text::new(text.alloc());
    put_rest(seen, &mut lines);
    match lines.whole() {
        Ok(lines) => put_json_lines(text, lines),
        Err(_) => text.lose(),
    }
}

// Whether no handshake is under way.
fn is_quiet(seen: Seen<'_>) -> bool {
    (1..=seen.net.chan_count()).all(|chan| seen.phase(chan) == Phase::Idle)
}
