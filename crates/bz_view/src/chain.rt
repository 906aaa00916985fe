//! On what a component hangs.

use crate::cutting::{HALVES, MORE, put_cut};
use crate::hung::{Hung, due_at};
use crate::piece::Piece;
use crate::seen::Seen;
use crate::shown::Shown;
use crate::stuck::{MOST_LINKS, put_ring};
use crate::waiting::Waiting;
use crate::waits::{MOST_MEMBERS, put_cycle, put_each, put_standing};
use bz_text::Text;
use bz_waits::{Graph, Link, Place, Stuck, Table, Wait};
use std::alloc::{AllocError, Global};

/// Adds on what a component hangs: the shortest way along which components wait, each with whatever else it waits for. Of one
/// that can never move again it leads to a ring of waiting, which follows from there on, or else to one that has halted; of any
/// other to the host or to a component that can move.
pub fn put_chain(seen: Seen<'_>, comp: u32, text: &mut Text) {
    match Stuck::of(text.alloc(), seen.net) {
        Ok(stuck) => put_chain_of(seen.shown(), &stuck, comp, text),
        Err(_) => text.lose(),
    }
}

/// The same where it is known what can never move again.
pub fn put_chain_of(seen: Shown<'_>, stuck: &Stuck, comp: u32, text: &mut Text) {
    match Chain::of(text.alloc(), seen, stuck, comp) {
        Ok(chain) => put_whole(seen, &chain, text),
        Err(_) => text.lose(),
    }
}

// The way from a component to where it ends.
#[derive(Drop)]
struct Chain<'s> {
    waiting: Waiting<'s>,
    way: Vec<u32>,
    /// The ring in which the way ends, or nothing.
    ring: Vec<Link>,
}

impl<'s> Chain<'s> {
    fn of(
        alloc: Global,
        seen: Shown<'_>,
        stuck: &'s Stuck,
        comp: u32,
    ) -> Result<Chain<'s>, AllocError> {
        let waiting = Waiting::of(alloc, seen.net, stuck)?;
        let hung = Hung::of(alloc, seen, comp)?;
        let mut ring = ring_behind(alloc, seen, stuck, &hung, comp)?;
        let end = if ring.is_empty() {
            end_of(seen, &hung, stuck.contains(comp))
        } else {
            first_in(alloc, seen, ring.as_slice(), &hung)?
        };
        begin_at(end, &mut ring);
        let way = hung.way(alloc, end)?;
        Ok(Chain { waiting, way, ring })
    }

    // How many components of the way have lines of their own: in front of a ring all but the last, which is a member of it.
    fn lines(&self) -> usize {
        if self.ring.is_empty() {
            self.way.len()
        } else {
            self.way.len().saturating_sub(1)
        }
    }

    // The component at a place of the way, 0 behind its end.
    fn at(&self, place: usize) -> u32 {
        self.way.get(place).copied().unwrap_or(0)
    }
}

// A ring begins at this member.
fn begin_at(member: u32, ring: &mut Vec<Link>) {
    let place = ring.iter().position(|link| link.comp == member);
    let front = place.unwrap_or(0).min(ring.len());
    ring.as_mut_slice().rotate_left(front);
}

// A ring among those on which a component hangs that can never move again.
fn ring_behind(
    alloc: Global,
    seen: Shown<'_>,
    stuck: &Stuck,
    hung: &Hung,
    comp: u32,
) -> Result<Vec<Link>, AllocError> {
    let mut starts = Vec::new(alloc);
    if stuck.contains(comp) {
        for number in stuck.numbers() {
            if hung.has(*number) {
                starts.push(*number)?;
            }
        }
    }
    stuck.ring_from(alloc, seen.net, starts.as_slice())
}

// The first in a ring.
fn first_in(alloc: Global, seen: Shown<'_>, ring: &[Link], hung: &Hung) -> Result<u32, AllocError> {
    let mut members = Table::new(alloc, seen.net.comp_count())?;
    for link in ring {
        members.set(link.comp, 1);
    }
    let first = hung.order.iter().find(|comp| members.at(**comp) > 0);
    Ok(first.copied().unwrap_or(0))
}

// The first at which a way without a ring ends, whether or not it can ever move again.
fn end_of(seen: Shown<'_>, hung: &Hung, is_stuck: bool) -> u32 {
    let first = hung.order.iter().find(|comp| ends(seen, **comp, is_stuck));
    first.or(hung.order.first()).copied().unwrap_or(0)
}

// Whether a way ends at a component: where it can move or the host has to come, and of one that can never move again where
// nothing is due.
fn ends(seen: Shown<'_>, comp: u32, is_stuck: bool) -> bool {
    let (mut has_due, mut has_host) = (false, false);
    for port in 1..=seen.port_count(comp) {
        if let Some(wait) = due_at(seen, comp, port) {
            has_due = true;
            has_host = has_host || wait.other == 0;
        }
    }
    has_host || seen.net.is_ready(comp) || is_stuck && !has_due
}

fn put_whole(seen: Shown<'_>, chain: &Chain<'_>, text: &mut Text) {
    let (graph, mut lines) = (&chain.waiting.graph, Text::new(text.alloc()));
    for place in 0..chain.lines() {
        let next = chain.at(place.saturating_add(1));
        put_step(seen, graph, chain.at(place), next, &mut lines);
    }
    put_cut(&lines, HALVES, MORE, text);
    put_ring(seen, chain.ring.as_slice(), MOST_LINKS, text);
    if chain.ring.is_empty() {
        put_cycles_on(seen, graph, chain.way.as_slice(), text);
    }
}

// For whom a component waits, the one that comes next first.
fn put_step(seen: Shown<'_>, graph: &Graph, comp: u32, next: u32, text: &mut Text) {
    let waits = graph.waits_of(comp);
    if seen.net.is_ready(comp) {
        seen.put_comp(comp, text);
        text.put(" can move\n");
        return;
    }
    let Some(first) = port_to(seen, comp, next) else {
        put_each(seen, waits, text);
        return;
    };
    let standing = if waits.is_empty() { "idle" } else { "wait" };
    put_due(seen, standing, comp, first, Place::First, text);
    for port in 1..=seen.port_count(comp) {
        if port != first {
            put_due(seen, standing, comp, port, Place::Other, text);
        }
    }
}

// The first port at which a component waits for another, or for the host where that is 0.
fn port_to(seen: Shown<'_>, comp: u32, other: u32) -> Option<u32> {
    (1..=seen.port_count(comp)).find(|port| waits_for(seen, comp, *port, other))
}

fn waits_for(seen: Shown<'_>, comp: u32, port: u32, other: u32) -> bool {
    match due_at(seen, comp, port) {
        Some(wait) => wait.other == other,
        None => false,
    }
}

fn put_due(seen: Shown<'_>, standing: &str, comp: u32, port: u32, place: Place, text: &mut Text) {
    if let Some(wait) = due_at(seen, comp, port) {
        put_standing(seen, standing, Wait { place, ..wait }, text);
    }
}

// The cycles that have a member on the way.
fn put_cycles_on(seen: Shown<'_>, graph: &Graph, way: &[u32], text: &mut Text) {
    let Ok(mut on_way) = Table::new(text.alloc(), seen.net.comp_count()) else {
        text.lose();
        return;
    };
    for comp in way {
        on_way.set(*comp, 1);
    }
    for cycle in &graph.cycles {
        if cycle.iter().any(|comp| on_way.at(*comp) > 0) {
            put_cycle(seen, cycle.as_slice(), MOST_MEMBERS, text);
        }
    }
}
