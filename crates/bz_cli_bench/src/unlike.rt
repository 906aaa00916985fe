//! Two plays of one bench that passed with other values.

use crate::ended::Unlike;
use crate::playing::port_of;
use crate::setting::Had;
use bz_bench::Tally;
use bz_flat::Flat;
use bz_model::{ChanKind, Value, numbered};

/// The first port at which another value came than in a play before, and the first place there. Of what passed in one of the
/// plays alone nothing is said.
pub(crate) fn first_unlike(flat: &Flat, had: &Had, tallies: &[Tally]) -> Option<Unlike> {
    for place in 0..flat.ports().len() {
        if let Some(unlike) = unlike_at(flat, had, tallies, port_of(place)) {
            return Some(unlike);
        }
    }
    None
}

fn unlike_at(flat: &Flat, had: &Had, tallies: &[Tally], port: u32) -> Option<Unlike> {
    let is_pull = is_pull(flat, port);
    let (Some(before), Some(now)) = (numbered(&had.tallies, port), numbered(tallies, port)) else {
        return None;
    };
    let (before, now) = (passed(before, is_pull), passed(now, is_pull));
    for (place, (one, other)) in before.iter().zip(now.iter()).enumerate() {
        if *one != *other {
            return Some(Unlike {
                port,
                place,
                before: had.seed,
                had: *one,
                came: *other,
            });
        }
    }
    None
}

/// Whether values go with the ends of handshakes at a port.
pub(crate) fn is_pull(flat: &Flat, port: u32) -> bool {
    match flat.chan(port) {
        Some(chan) => matches!(chan.kind, ChanKind::Pull),
        None => false,
    }
}

// What passed at a port.
fn passed(tally: &Tally, is_pull: bool) -> &[Option<Value>] {
    if is_pull {
        tally.ended.as_slice()
    } else {
        tally.begun.as_slice()
    }
}
