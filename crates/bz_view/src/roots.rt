//! Where chains of waiting end: at a component that has halted, at a word of the host, at a component that can move.

use crate::hung::{Hung, due_at};
use crate::piece::Piece;
use crate::shown::Shown;
use crate::waits::{put_standing, put_wait};
use bz_model::{Move, Phase};
use bz_text::Text;
use bz_waits::{Graph, Place, Wait, Whom};
use std::alloc::{AllocError, Global};

/// Adds who has halted.
pub(crate) fn put_halted(seen: Shown<'_>, graph: &Graph, text: &mut Text) {
    for wait in &graph.waits {
        if wait.whom == Whom::Nobody {
            put_wait(seen, *wait, text);
        }
    }
}

/// Adds the words of the host for which components wait: those that wait for a reply or owe one, and idle ones on which these
/// hang; and who of those on which they hang can move.
pub(crate) fn put_words(seen: Shown<'_>, graph: &Graph, text: &mut Text) {
    put_replied(seen, graph, text);
    let mut last = 0;
    for wait in &graph.waits {
        if wait.whom == Whom::Host {
            put_wait(seen, first_of(*wait, last), text);
            last = wait.comp;
        }
    }
    match others_behind(text.alloc(), seen, graph) {
        Ok(comps) => put_others(seen, comps.as_slice(), text),
        Err(_) => text.lose(),
    }
}

// Adds each reply that the host has not got, behind how its component stands.
fn put_replied(seen: Shown<'_>, graph: &Graph, text: &mut Text) {
    for place in 0..seen.net.names().ports().len() {
        let chan = u32::try_from(place).unwrap_or(0).saturating_add(1);
        match seen.end(chan, true) {
            Some(comp) if is_replied(seen, chan) => {
                let wait = Wait {
                    comp,
                    chan,
                    whom: Whom::Host,
                    other: 0,
                    mv: Move::Got,
                    place: Place::Each,
                };
                put_standing(seen, standing_of(seen, graph, comp), wait, text);
            }
            _ => {}
        }
    }
}

// How a component stands.
fn standing_of(seen: Shown<'_>, graph: &Graph, comp: u32) -> &'static str {
    if seen.net.is_ready(comp) {
        "ready"
    } else if graph.waits_of(comp).is_empty() {
        "idle"
    } else {
        "wait"
    }
}

fn is_replied(seen: Shown<'_>, chan: u32) -> bool {
    matches!(seen.phase(chan), Phase::Replied(_))
}

// A wait as the first that is told of its component, where the last that was told is of another one.
fn first_of(wait: Wait, last: u32) -> Wait {
    match wait.place {
        Place::Other if wait.comp != last => Wait {
            place: Place::First,
            ..wait
        },
        _ => wait,
    }
}

// The components on which those hang that wait for a reply or owe one, but for these, by their numbers.
fn others_behind(alloc: Global, seen: Shown<'_>, graph: &Graph) -> Result<Vec<u32>, AllocError> {
    let mut hung = Hung::new(alloc, seen)?;
    for wait in &graph.waits {
        hung.leave_out(wait.comp);
    }
    for wait in &graph.waits {
        hung.meet(wait.other, wait.other)?;
    }
    hung.spread(seen)?;
    let mut order = hung.into_order();
    order.sort()?;
    Ok(order)
}

fn put_others(seen: Shown<'_>, comps: &[u32], text: &mut Text) {
    for comp in comps {
        if seen.net.is_ready(*comp) {
            seen.put_comp(*comp, text);
            text.put(" can move\n");
        } else {
            put_idle(seen, *comp, text);
        }
    }
}

// The words of the host that would let an idle component move.
fn put_idle(seen: Shown<'_>, comp: u32, text: &mut Text) {
    let mut place = Place::First;
    for port in 1..=seen.port_count(comp) {
        if let Some(wait) = due_at(seen, comp, port) {
            // (a reply that the host has not got is told already)
            if wait.other == 0 && !is_replied(seen, wait.chan) {
                put_standing(seen, "idle", Wait { place, ..wait }, text);
                place = Place::Other;
            }
        }
    }
}
