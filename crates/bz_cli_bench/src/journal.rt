//! Where in a journal something passed or was done.

use bz_model::{Entry, Reply, Verb};

/// The line of the trace of these entries with which the handshake at a place passed at a port: the one that begins it, or on a
/// pull channel the one that ends it. 0 where none did.
pub(crate) fn line_of(entries: &[Entry], port: u32, is_pull: bool, place: usize) -> usize {
    let mut left = place;
    for (before, entry) in entries.iter().enumerate() {
        if passes(*entry, port, is_pull) {
            if left == 0 {
                // (the first line is none of an entry)
                return before.saturating_add(2);
            }
            left -= 1;
        }
    }
    0
}

/// Up to which entry these have words of the host.
pub(crate) fn last_word(entries: &[Entry]) -> usize {
    let last = entries
        .iter()
        .rposition(|entry| matches!(entry, Entry::Host { .. }));
    match last {
        Some(place) => place.saturating_add(1),
        None => 0,
    }
}

// Whether something passed at a port with an entry.
fn passes(entry: Entry, at: u32, is_pull: bool) -> bool {
    match entry {
        Entry::Host {
            verb,
            port,
            reply,
            ..
        } => port == at && is_passing(verb, is_pull) && is_done(reply),
        Entry::Fired { .. } | Entry::Rested { .. } => false,
    }
}

fn is_passing(verb: Verb, is_pull: bool) -> bool {
    match verb {
        Verb::Offer | Verb::Accept => !is_pull,
        Verb::Collect | Verb::Answer => is_pull,
        Verb::Watch => false,
    }
}

fn is_done(reply: Reply) -> bool {
    matches!(reply, Reply::Done | Reply::Value(_))
}
