//! Why nothing moves.

use crate::cutting::{Cut, MORE, MOST_LINES, put_cut};
use crate::piece::Piece;
use crate::roots::{put_halted, put_words};
use crate::seen::Seen;
use crate::shown::Shown;
use crate::stuck::{MOST_LINKS, put_set};
use crate::waiting::Waiting;
use crate::waits::{MOST_MEMBERS, put_counts, put_cycles, put_each, put_held};
use bz_model::Phase;
use bz_text::Text;
use bz_waits::Stuck;

/// The most lines of each kind that are told at rest.
const MOST_AT_REST: usize = 10;

/// How many lines are left out that `waits all` has.
const MORE_WAITS: &str = ".. % lines more: `waits all` tells them\n";

/// Adds why nothing moves: what can never move again, with a ring; the cycles of waiting, who has halted, and the words of the
/// host that are waited for; and how many wait. Of the lines behind a ring at most 40 are told.
pub fn put_waits(seen: Seen<'_>, text: &mut Text) {
    match Stuck::of(text.alloc(), seen.net) {
        Ok(stuck) => put_waits_of(seen.shown(), &stuck, text),
        Err(_) => text.lose(),
    }
}

/// The same where it is known what can never move again.
pub fn put_waits_of(seen: Shown<'_>, stuck: &Stuck, text: &mut Text) {
    match Waiting::of(text.alloc(), seen.net, stuck) {
        Ok(waiting) => put_reasons(seen, &waiting, text),
        Err(_) => text.lose(),
    }
}

fn put_reasons(seen: Shown<'_>, waiting: &Waiting<'_>, text: &mut Text) {
    put_set(seen, waiting.stuck, MOST_LINKS, text);
    let mut lines = Text::new(text.alloc());
    put_cycles(seen, &waiting.graph, MOST_MEMBERS, &mut lines);
    put_halted(seen, &waiting.graph, &mut lines);
    put_words(seen, &waiting.graph, &mut lines);
    put_cut(&lines, Cut::front(MOST_LINES - 1), MORE_WAITS, text);
    put_counts(seen, &waiting.graph, waiting.stuck.len(), text);
}

/// Adds the same of a net at rest, of each kind of lines at most ten, and how many handshakes are under way.
pub fn put_rest(seen: Seen<'_>, text: &mut Text) {
    let Ok(stuck) = Stuck::of(text.alloc(), seen.net) else {
        text.lose();
        return;
    };
    match Waiting::of(text.alloc(), seen.net, &stuck) {
        Ok(waiting) => put_few_reasons(seen.shown(), &waiting, text),
        Err(_) => text.lose(),
    }
}

fn put_few_reasons(seen: Shown<'_>, waiting: &Waiting<'_>, text: &mut Text) {
    put_set(seen, waiting.stuck, MOST_AT_REST, text);
    let mut lines = Text::new(text.alloc());
    put_cycles(seen, &waiting.graph, MOST_AT_REST, &mut lines);
    put_few(&lines, text);
    let mut lines = Text::new(text.alloc());
    put_halted(seen, &waiting.graph, &mut lines);
    put_few(&lines, text);
    let mut lines = Text::new(text.alloc());
    put_words(seen, &waiting.graph, &mut lines);
    put_few(&lines, text);
    let count = Piece::Count(busy_in(seen), "handshake");
    text.say("at rest with % under way: ", &[count]);
    put_counts(seen, &waiting.graph, waiting.stuck.len(), text);
}

fn put_few(lines: &Text, text: &mut Text) {
    put_cut(lines, Cut::front(MOST_AT_REST), MORE, text);
}

// How many channels are not idle.
fn busy_in(seen: Shown<'_>) -> usize {
    (1..=seen.net.chan_count())
        .filter(|chan| seen.phase(*chan) != Phase::Idle)
        .count()
}

/// Adds who holds each channel that is not idle, for whom each component waits, the cycles among these, and how many there
/// are.
pub fn put_all_waits(seen: Seen<'_>, text: &mut Text) {
    for chan in 1..=seen.net.chan_count() {
        if seen.phase(chan) != Phase::Idle {
            put_held(seen, chan, text);
        }
    }
    let Ok(stuck) = Stuck::of(text.alloc(), seen.net) else {
        text.lose();
        return;
    };
    match Waiting::of(text.alloc(), seen.net, &stuck) {
        Ok(waiting) => put_all(seen.shown(), &waiting, text),
        Err(_) => text.lose(),
    }
}

fn put_all(seen: Shown<'_>, waiting: &Waiting<'_>, text: &mut Text) {
    put_each(seen, waiting.graph.waits.as_slice(), text);
    put_cycles(seen, &waiting.graph, usize::MAX, text);
    put_counts(seen, &waiting.graph, waiting.stuck.len(), text);
}
