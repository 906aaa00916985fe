//! What can never move again.

use crate::cutting::MORE;
use crate::parts::gathered;
use crate::piece::Piece;
use crate::seen::Seen;
use crate::shown::Shown;
use crate::waits::put_wait;
use bz_text::Text;
use bz_waits::{Link, Place, Stuck, Wait, Whom, first_move};

/// The most links of a ring that are shown.
pub(crate) const MOST_LINKS: usize = 40;

/// The most links of a ring that a page shows.
const MOST_ROWS: usize = 1000;

/// Adds how many components can never move again, and a ring of them, where there are any.
pub fn put_stuck(seen: Seen<'_>, text: &mut Text) {
    match Stuck::of(text.alloc(), seen.net) {
        Ok(set) => put_set(seen.shown(), &set, MOST_LINKS, text),
        Err(_) => text.lose(),
    }
}

/// Adds how many components are in a set of those that can never move again, and a ring of them in at most this many lines, where
/// there are any.
pub(crate) fn put_set(seen: Shown<'_>, set: &Stuck, most: usize, text: &mut Text) {
    if set.len() == 0 {
        return;
    }
    let counts = [
        Piece::Number(set.len()),
        Piece::Number(seen.net.comp_count() as usize),
    ];
    text.say(
        "stuck: % of % components can never move again, whatever the host does\n",
        &counts,
    );
    match set.ring(text.alloc(), seen.net) {
        Ok(ring) => put_ring(seen, ring.as_slice(), most, text),
        Err(_) => text.lose(),
    }
}

/// Adds lines of a page, one for each member of a ring of these: its number, and for whom it waits.
pub fn put_ring_rows(seen: Seen<'_>, set: &Stuck, text: &mut Text) {
    let ring = gathered(set.ring(text.alloc(), seen.net), text);
    for link in ring.iter().take(MOST_ROWS) {
        text.say("ring % ", &[Piece::Wide(link.comp.into())]);
        put_link(seen.shown(), *link, text);
    }
}

/// Adds a ring, with a line for each of its members, of which at most this many are told.
pub(crate) fn put_ring(seen: Shown<'_>, ring: &[Link], most: usize, text: &mut Text) {
    match ring.len() {
        0 => return,
        1 => text.put("ring: 1 waits for itself\n"),
        count => text.say("ring: % wait for one another\n", &[Piece::Number(count)]),
    }
    for link in ring.iter().take(most) {
        put_link(seen, *link, text);
    }
    let more = ring.len().saturating_sub(most);
    if more > 0 {
        text.say(MORE, &[Piece::Number(more)]);
    }
}

// Adds for whom a member of a ring waits.
fn put_link(seen: Shown<'_>, link: Link, text: &mut Text) {
    let wait = Wait {
        comp: link.comp,
        chan: link.chan,
        whom: Whom::Busy,
        other: link.other,
        mv: first_move(link.due, seen.phase(link.chan)),
        place: Place::Each,
    };
    put_wait(seen, wait, text);
}
