//! How a run ended: what can never move again, and who waits for whom.

use bz_flat::Flat;
use bz_model::Value;
use bz_net::Core;
use bz_since::{NoSince, Since, stuck_since_in};
use bz_source::Survey;
use bz_text::{Piece, Text};
use bz_view::{Seen, graph_of, put_ends, put_ring_rows};
use bz_waits::Stuck;
use std::alloc::{AllocError, Global};

/// How a run ended, where the line is still wanting that says since when.
pub(crate) struct Ended {
    stuck: Stuck,
    /// The lines behind that one.
    lines: Vec<u8>,
}

// By hand, so that who lets one go has one call to show and not all its parts.
impl Drop for Ended {
    fn drop(self) {
        let Ended { stuck: _, lines: _ } = self;
    }
}

impl Ended {
    /// That of the run that led a net to where it is.
    pub fn of(alloc: Global, net: &Core, survey: &Survey) -> Result<Ended, AllocError> {
        let stuck = Stuck::of(alloc, net)?;
        let (seen, mut text) = (Seen::of(net, survey), Text::new(alloc));
        put_ring_rows(seen, &stuck, &mut text);
        if let Some(graph) = graph_of(seen, &mut text) {
            if graph.waiting > 0 {
                put_ends(seen, &graph, &mut text);
            }
        }
        let lines = Vec::from_slice(alloc, text.whole()?)?;
        Ok(Ended { stuck, lines })
    }

    /// The lines that say what can never move again, none where nothing is stuck, and who waits for whom, none where nobody
    /// waits. The trace is that of the run.
    pub fn lines(&self, alloc: Global, flat: &Flat, trace: &[u8]) -> Result<Vec<u8>, AllocError> {
        let mut text = Text::new(alloc);
        if self.stuck.len() > 0 {
            put_stuck_row(&self.stuck, since_in(alloc, flat, trace), &mut text);
        }
        text.put_bytes(&self.lines);
        Vec::from_slice(alloc, text.whole()?)
    }
}

// Since which line of a trace something can never move again.
fn since_in(alloc: Global, flat: &Flat, trace: &[u8]) -> Result<Option<Since>, NoSince> {
    match flat.dup(alloc) {
        Ok(flat) => stuck_since_in(alloc, flat, trace),
        Err(_) => Err(NoSince::Memory),
    }
}

/// Adds the line of a page that says since which line something can never move again, how many components couldn't then, and
/// which can't at the end.
pub fn put_stuck_row(ended: &Stuck, since: Result<Option<Since>, NoSince>, text: &mut Text) {
    match since {
        Ok(Some(since)) => match Stuck::of(text.alloc(), since.net.core()) {
            Ok(first) => put_row(ended, since.line, first.len(), text),
            Err(_) => text.lose(),
        },
        // (where something is stuck at the end there is such a line)
        Ok(None) | Err(NoSince::NotRun) => {}
        Err(NoSince::Memory) => text.lose(),
    }
}

fn put_row(ended: &Stuck, line: usize, count: usize, text: &mut Text) {
    text.put_pieces(&[
        Piece::Bytes(b"stuck "),
        Piece::Number(line as Value),
        Piece::Bytes(b" "),
        Piece::Number(count as Value),
    ]);
    for comp in ended.numbers() {
        text.put_pieces(&[Piece::Bytes(b" "), Piece::Number(Value::from(*comp))]);
    }
    text.put("\n");
}
