//! Who holds a channel, and for whom components wait.

use crate::piece::{Piece, put_phase};
use crate::seen::Seen;
use crate::shown::Shown;
use bz_model::{Move, Phase, Verb};
use bz_text::Text;
use bz_waits::{Graph, Place, Wait, Whom};

/// The column of what holds a channel, and of what is waited for.
const COLUMN: usize = 26;

/// The most members of a cycle that are shown, where not all is asked for.
pub(crate) const MOST_MEMBERS: usize = 20;

/// The most cycles, and the most waits, that a page shows at its end.
const MOST_AT_END: usize = 1000;

/// Who waits for whom in a net; where memory is refused for it the text is lost.
pub fn graph_of(seen: Seen<'_>, text: &mut Text) -> Option<Graph> {
    match Graph::of(text.alloc(), seen.net) {
        Ok(graph) => Some(graph),
        Err(_) => {
            text.lose();
            None
        }
    }
}

/// Adds lines of a page, each after `end`: the cycles, for whom each component waits, or after `ended` that it has halted, and
/// how many there are.
pub fn put_ends(seen: Seen<'_>, graph: &Graph, text: &mut Text) {
    let seen = seen.shown();
    for cycle in graph.cycles.iter().take(MOST_AT_END) {
        text.put("end ");
        put_cycle(seen, cycle.as_slice(), MOST_MEMBERS, text);
    }
    for wait in graph.waits.iter().take(MOST_AT_END) {
        let has_halted = wait.whom == Whom::Nobody;
        text.put(if has_halted { "end ended " } else { "end " });
        put_wait(seen, *wait, text);
    }
    text.put("end ");
    put_counts(seen, graph, 0, text);
}

/// Adds how many components wait, can move, and are idle, and how many can never move again, where there are any.
pub(crate) fn put_counts(seen: Shown<'_>, graph: &Graph, stuck: usize, text: &mut Text) {
    let (waiting, ready) = (graph.waiting, seen.count_ready());
    let comps = seen.net.comp_count() as usize;
    let idle = comps.saturating_sub(waiting).saturating_sub(ready);
    let counts = [
        Piece::Number(waiting),
        Piece::Number(ready),
        Piece::Number(idle),
    ];
    text.say("% wait, % can move, % idle", &counts);
    if stuck > 0 {
        text.say(", % stuck", &[Piece::Number(stuck)]);
    }
    text.put("\n");
}

/// Adds a line for each cycle, with at most this many members.
pub(crate) fn put_cycles(seen: Shown<'_>, graph: &Graph, most: usize, text: &mut Text) {
    for cycle in &graph.cycles {
        put_cycle(seen, cycle.as_slice(), most, text);
    }
}

/// Adds the line of a cycle, with at most this many members.
pub(crate) fn put_cycle(seen: Shown<'_>, cycle: &[u32], most: usize, text: &mut Text) {
    text.put("cycle: ");
    for member in cycle.iter().take(most) {
        seen.put_comp(*member, text);
        text.put(" -> ");
    }
    let more = cycle.len().saturating_sub(most);
    if more > 0 {
        text.say(".. % more -> ", &[Piece::Number(more)]);
    }
    let first = cycle.first().copied().unwrap_or(0);
    seen.put_comp(first, text);
    text.put("\n");
}

/// Adds the phase of a channel, and who holds it.
pub fn put_held(seen: Seen<'_>, chan: u32, text: &mut Text) {
    let phase = seen.phase(chan);
    text.say("channel %", &[seen.named_chan(chan)]);
    text.fill(13);
    put_phase(text, phase);
    text.fill(COLUMN);
    let (active, passive) = (seen.holder(chan, false), seen.holder(chan, true));
    match phase {
        Phase::Idle => text.say("between % and %\n", &[active, passive]),
        Phase::Asked(_) => text.say("% has not taken the request of %\n", &[passive, active]),
        Phase::Replied(_) => text.say("% has not got the reply of %\n", &[active, passive]),
        _ => text.say("% has not replied to %\n", &[passive, active]),
    }
}

/// Adds a line for each of these.
pub(crate) fn put_each(seen: Shown<'_>, waits: &[Wait], text: &mut Text) {
    for wait in waits {
        put_wait(seen, *wait, text);
    }
}

/// Adds what a component waits for.
pub(crate) fn put_wait(seen: Shown<'_>, wait: Wait, text: &mut Text) {
    put_standing(seen, "wait", wait, text);
}

/// Adds what a component waits for, behind a word that says how it stands.
pub(crate) fn put_standing(seen: Shown<'_>, standing: &str, wait: Wait, text: &mut Text) {
    if wait.whom == Whom::Nobody {
        put_halt(seen, wait, text);
        return;
    }
    match wait.place {
        Place::Other => text.put("  or"),
        _ => {
            text.put(standing);
            text.put(" ");
            seen.put_comp(wait.comp, text);
        }
    }
    text.fill(COLUMN);
    text.put("for ");
    match wait.whom {
        Whom::Host => {
            let word = seen.host_word(verb_of(seen, wait), wait.chan);
            text.say("the host: %\n", &[word]);
        }
        _ => put_deed(seen, wait, text),
    }
}

fn put_halt(seen: Shown<'_>, wait: Wait, text: &mut Text) {
    seen.put_comp(wait.comp, text);
    text.put(" has halted and will never reply on ");
    seen.put_chan(wait.chan, text);
    text.put("\n");
}

// Adds what another component is to do.
fn put_deed(seen: Shown<'_>, wait: Wait, text: &mut Text) {
    seen.put_comp(wait.other, text);
    text.put(match wait.mv {
        Move::Take => " to take ",
        Move::Ask => " to ask on ",
        _ => " to reply on ",
    });
    seen.put_chan(wait.chan, text);
    text.put(match wait.whom {
        Whom::Idle => ", which is idle\n",
        _ => "\n",
    });
}

// The word of the host that comes next where it is waited for: a reply that it has not got comes before another request.
fn verb_of(seen: Shown<'_>, wait: Wait) -> Verb {
    match (wait.mv, seen.phase(wait.chan)) {
        (Move::Got, _) | (Move::Ask, Phase::Replied(_)) => Verb::Collect,
        (Move::Ask, _) => Verb::Offer,
        (Move::Take, _) => Verb::Accept,
        (Move::Reply, _) => Verb::Answer,
    }
}
