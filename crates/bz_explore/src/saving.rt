//! What is written to files: the trace of a net so far, a page on which it plays, and the commands that stand.
//!
//! `session FILE` writes commands and not moves. The picking of `random` is followed along the commands that are kept, and a
//! `seed` is written where it doesn't go on as it would. All is made whole before there is a file, so that without memory
//! the file that was there stays; a page has 1,000 cycles and 1,000 waits at most, since a browser makes a line of each.

ghost use Rattle.std.specs.Prelude.{OnOk, OnErr};
ghost use Rattle.bz_explore.specs.Saving.{SavesSome, SavesTrace};

use crate::table::Command;
use bz_cli_core::write_out;
use bz_cli_input::Fault;
use bz_explore_net::{Mark, Picker, Stepping};
use bz_flat::Flat;
use bz_model::{Entry, Names};
use bz_net::Net;
use bz_page::{put_page, put_stuck_row};
use bz_since::{NoSince, Since, stuck_since};
use bz_source::Survey;
use bz_text::{Text, WriteFault};
use bz_trace_text::MAX_ENTRIES;
use bz_view::{Piece, Seen, graph_of, put_ends, put_ring_rows};
use bz_waits::Stuck;
use std::alloc::Global;
use std::io::Write;

/// The most components of a net that a page holds.
pub(crate) const MOST_COMPS: usize = 100_000;

/// The first line of a session.
const SESSION: &str = "# a session of explore\n";

/// How the file begins that a command writes.
pub(crate) fn beginning_of(command: Command) -> &'static [u8] {
    match command {
        Command::Page => b"<!doctype html>",
        Command::Session => SESSION.as_bytes(),
        _ => b"trace ",
    }
}

/// Writes the trace of what a net's journal tells, down to the last byte.
pub fn save<W: Write>(net: &Net, out: &mut W) -> Result<(), WriteFault>
    ensures ok { OnOk result (SavesTrace net.now (W.contents out.old) (W.contents out.new)) }
    ensures err { OnErr result (SavesSome net.now (W.contents out.old) (W.contents out.new)) }
{
    write_out(net.names(), net.journal(), net.clashes(), out)
}

/// Adds a page on which the trace of a net so far plays, with who waits for whom at its end.
pub(crate) fn put_trace_page(stepping: &Stepping, survey: &Survey, part: &[u8], text: &mut Text) {
    let (mut trace, mut ends) = (Text::new(text.alloc()), Text::new(text.alloc()));
    let net = stepping.net();
    let saved = save(net, &mut trace);
    let seen = Seen::of(net.core(), survey);
    put_stuck_rows(stepping, seen, &mut ends);
    if let Some(graph) = graph_of(seen, &mut ends) {
        put_ends(seen, &graph, &mut ends);
    }
    match (saved, trace.whole(), ends.whole()) {
        (Ok(()), Ok(trace), Ok(ends)) => put_page_of(
            stepping.flat(),
            survey,
            part,
            trace,
            ends,
            text,
        ),
        _ => text.lose(),
    }
}

// Adds the lines of a page that say what can never move again, and since when.
fn put_stuck_rows(stepping: &Stepping, seen: Seen<'_>, text: &mut Text) {
    match Stuck::of(text.alloc(), seen.net) {
        Ok(set) if set.len() > 0 => {
            put_stuck_row(&set, since_of(text.alloc(), stepping), text);
            put_ring_rows(seen, &set, text);
        }
        Ok(_) => {}
        Err(_) => text.lose(),
    }
}

/// Since which line of the trace so far something can never move again.
pub(crate) fn since_of(alloc: Global, stepping: &Stepping) -> Result<Option<Since>, NoSince> {
    let Ok(flat) = stepping.flat().dup(alloc) else {
        return Err(NoSince::Memory);
    };
    let net = Net::open(alloc, flat, MAX_ENTRIES as u32)?;
    stuck_since(alloc, net, stepping.net().journal())
}

fn put_page_of(
    flat: &Flat,
    survey: &Survey,
    part: &[u8],
    trace: &[u8],
    ends: &[u8],
    text: &mut Text,
) {
    let alloc = text.alloc();
    let paged = match flat.dup(alloc) {
        Ok(flat) => {
            let net = flat.into_pieces();
            put_page(alloc, part, &net, survey, trace, ends, text)
        }
        Err(_) => Err(Fault::Memory),
    };
    if paged.is_err() {
        text.lose();
    }
}

/// Adds the commands that stand, as lines of a session. Behind each word of the host its reply is expected, and a seed stands
/// where the picking was begun anew.
pub(crate) fn put_script(stepping: &Stepping, text: &mut Text) {
    text.put(SESSION);
    let journal = stepping.net().journal();
    let mut picker = Picker::new(0);
    for (place, mark) in stepping.marks().iter().enumerate() {
        let upto = entries_of(stepping, place + 1);
        let added = journal.get(mark.entries..upto).unwrap_or(&[]);
        put_seed(picker, mark.picker, text);
        put_command(stepping.net().names(), mark, added, text);
        picker = picker_after(mark, added);
    }
    put_seed(picker, stepping.picker(), text);
}

/// Adds the last `count` of the first `left` commands, which are to be taken back.
pub(crate) fn put_undone(stepping: &Stepping, left: usize, count: usize, text: &mut Text) {
    let mut upto = entries_of(stepping, left);
    let marks = stepping.marks().get(..left).unwrap_or(&[]);
    for mark in marks.iter().rev().take(count) {
        let lines = upto.saturating_sub(mark.entries);
        put_command_lines("undone", mark.command.as_slice(), lines, text);
        upto = mark.entries;
    }
}

/// Adds the first `count` of the commands behind the first `left`, which are no more to be taken back.
pub(crate) fn put_redone(stepping: &Stepping, left: usize, count: usize, text: &mut Text) {
    let marks = stepping.marks().get(left..).unwrap_or(&[]);
    for (place, mark) in marks.iter().enumerate().take(count) {
        let upto = entries_of(stepping, left.saturating_add(place).saturating_add(1));
        let lines = upto.saturating_sub(mark.entries);
        put_command_lines("redone", mark.command.as_slice(), lines, text);
    }
}

/// Adds what was done with a command, and how many lines it has added.
pub(crate) fn put_command_lines<'x>(
    deed: &'x str,
    command: &'x [u8],
    lines: usize,
    text: &mut Text,
) {
    let command = match command {
        [] => Piece::Text("--trace"),
        command => Piece::Bytes(command),
    };
    let lines = Piece::Count(lines, "line");
    text.say("%: % (%)\n", &[Piece::Text(deed), command, lines]);
}

// How many entries the journal has once so many commands are left.
fn entries_of(stepping: &Stepping, left: usize) -> usize {
    match stepping.marks().get(left) {
        Some(mark) => mark.entries,
        None => stepping.net().journal().len(),
    }
}

// A line that begins the picking anew, where it doesn't go on as it would.
fn put_seed(goes_on: Picker, picker: Picker, text: &mut Text) {
    if goes_on != picker {
        text.say("seed %\n", &[Piece::Wide(picker.seed().into())]);
    }
}

// The line of a command that added entries, and what the host was answered. The trace behind which a session began has no
// command of its own: it is written out.
fn put_command(names: &Names, mark: &Mark, added: &[Entry], text: &mut Text) {
    if mark.command.is_empty() {
        for entry in added {
            put_entry(names, entry, text);
        }
        return;
    }
    if is_written_out(mark.command.as_slice(), added) {
        put_runs(names, added, text);
        return;
    }
    text.put_bytes(mark.command.as_slice());
    text.put("\n");
    if let Some(Entry::Host { reply, .. }) = added.first() {
        let _ = writeln!(text, "expect {reply}");
    }
}

// Whether a command is a run in which hosts that stood by went on, or one to something that may have a name.
fn is_written_out(command: &[u8], added: &[Entry]) -> bool {
    let has_words = added
        .iter()
        .any(|entry| matches!(entry, Entry::Host { .. }));
    command.starts_with(b"run to ") || command == b"run".as_slice() && has_words
}

// The lines of such a command: runs, and the words between them.
fn put_runs(names: &Names, added: &[Entry], text: &mut Text) {
    let mut fired = 0;
    for entry in added {
        match entry {
            Entry::Fired { .. } => fired = usize::saturating_add(fired, 1),
            Entry::Rested { .. } => {
                text.put("run\n");
                fired = 0;
            }
            Entry::Host { .. } => put_entry(names, entry, text),
        }
    }
    if fired > 0 {
        text.say("run %\n", &[Piece::Number(fired)]);
    }
}

// The line of a command that adds this entry, and what the host is to be answered.
fn put_entry(names: &Names, entry: &Entry, text: &mut Text) {
    match entry {
        Entry::Fired { comp, port, .. } => {
            let place = [Piece::Wide((*comp).into()), Piece::Wide((*port).into())];
            text.say("fire % %\n", &place);
        }
        Entry::Host {
            verb,
            port,
            value,
            reply,
            ..
        } => {
            let name = Piece::Typed(names.name(*port).unwrap_or(&[]));
            text.say("%:%", &[Piece::Text(verb.word()), name]);
            if let Some(value) = value {
                text.say(":%", &[Piece::Wide(*value)]);
            }
            text.say("\nexpect %\n", &[Piece::Reply(*reply)]);
        }
        Entry::Rested { .. } => text.put("run 1\n"),
    }
}

// How far the picking is after a command: each move that was picked took two numbers.
fn picker_after(mark: &Mark, added: &[Entry]) -> Picker {
    let mut picker = mark.picker;
    if mark.command.as_slice().starts_with(b"random") {
        for entry in added {
            if let Entry::Fired { .. } = entry {
                picker.pick(1);
                picker.pick(1);
            }
        }
    }
    picker
}
