//! What is told of the line.

use crate::since::{NoSince, Since, stuck_since};
use bz_flat::Flat;
use bz_model::{Entry, Value};
use bz_net::Net;
use bz_text::{Piece, Text};
use bz_trace_text::{MAX_ENTRIES, put_entries, read_trace};

/// Adds since which line something can never move again, in a trace of so many lines; nothing where nothing is stuck behind this
/// line. The flat net is that of the trace.
pub fn put_first(flat: Flat, trace: &[u8], line: usize, lines: usize, text: &mut Text) {
    if let Err(NoSince::Memory) = put_found(flat, trace, line, lines, text) {
        text.lose();
    }
}

fn put_found(
    flat: Flat,
    trace: &[u8],
    line: usize,
    lines: usize,
    text: &mut Text,
) -> Result<(), NoSince> {
    let net = Net::open(text.alloc(), flat, MAX_ENTRIES as u32)?;
    let mut entries = read_trace(text.alloc(), net.names(), trace)?;
    entries.truncate(line.saturating_sub(1));
    if let Some(since) = stuck_since(text.alloc(), net, &entries)? {
        put_since(&since, &entries, lines, text);
    }
    Ok(())
}

/// Adds that something is stuck since the opening, on the first of so many lines.
pub fn put_opening(lines: usize, text: &mut Text) {
    put_line(1, lines, text);
    text.put("the opening\n");
}

fn put_line(line: usize, lines: usize, text: &mut Text) {
    text.put_pieces(&[
        Piece::Bytes(b"stuck since line "),
        Piece::Number(line as Value),
        Piece::Bytes(b" of "),
        Piece::Number(lines as Value),
        Piece::Bytes(b": "),
    ]);
}

/// Adds the line since which something is stuck, in a trace of these entries and of so many lines.
pub fn put_since(since: &Since, entries: &[Entry], lines: usize, text: &mut Text) {
    match since.line.checked_sub(2) {
        None => put_opening(lines, text),
        Some(place) => {
            put_line(since.line, lines, text);
            let end = place.saturating_add(1);
            let _ = put_entries(
                text,
                since.net.names(),
                entries.get(place..end).unwrap_or(&[]),
            );
        }
    }
}
