//! Lines that have none of the forms of a trace.

use crate::forms::{Line, Misfit, Want};
use crate::items::{LineAt, item_of, line_of};
use crate::suspect::Suspect;
use bz_explain_notes::{Notes, port_names};
use bz_model::Names;
use bz_trace_text::MAX_ENTRIES;
use bz_view::Piece::{Count, Number, Shown};

/// The notes of a line, by its number, that has none of the forms, or stands where none of its form may.
pub(crate) fn explain_form(notes: &mut Notes, names: &Names, suspect: Suspect<'_>, number: usize) {
    let at = LineAt::of(suspect, number);
    let text = line_of(at.rest);
    let line = Line {
        alloc: notes.alloc(),
        names,
        text,
    };
    match line.misfit() {
        _ if text.last() == Some(&b'\r') => {
            let items = text.iter().filter(|byte| **byte == b' ').count();
            at.put(notes, items.saturating_add(1));
            notes.say(
                "the last item\n\
                found: a carriage return (CR) at the end of the line\n\
                expected: a line feed (LF) alone",
                &[],
            );
        }
        Some(misfit) => explain_misfit(notes, line, at, misfit),
        None => explain_place(notes, at, number),
    }
}

// An item that doesn't fit.
fn explain_misfit(notes: &mut Notes, line: Line<'_>, at: LineAt<'_>, misfit: Misfit) {
    at.put(notes, misfit.item);
    notes.put("item %\nfound: ", &[Number(misfit.item)]);
    let item = item_of(line.text, misfit.item);
    match item {
        None => notes.put("the end of the line", &[]),
        Some([]) => notes.put("no item: items are one space apart", &[]),
        Some(word) => notes.put("%", &[Shown(word)]),
    }
    notes.put("\nexpected: ", &[]);
    if let Want::Port(_) = misfit.want {
        let names = notes.gathered(port_names(notes.alloc(), line.names.ports()));
        let count = Count(names.len(), "port");
        notes.say_one_of(count, &names, item.unwrap_or(b""));
    } else {
        let (form, number) = wanted(misfit.want);
        notes.say(form, &[Number(number as usize)]);
    }
}

// What belongs at an item, and the number of a channel that it speaks of.
fn wanted(want: Want) -> (&'static str, u32) {
    let form = match want {
        Want::Who => "h1 to h16 for a host, w1 to w8 for a worker, or clash",
        Want::HostEvent => "offer, collect, accept, answer, watch, fire or rest",
        Want::WorkerEvent => "fire or rest",
        Want::Clash | Want::Comp => "the number of a component, without leading zeros",
        Want::Move => "ask, take, reply or got",
        Want::Chan(_) => "the number of a channel, without leading zeros",
        Want::Port(_) => "the name of a port",
        Want::Reply(_) => "done, value V, not-yet, busy PHASE, not-taken PHASE or a phase",
        Want::Phase => "idle, asked, taken, replied or broken",
        Want::Value | Want::Held => "a value below 2^128, without leading zeros",
        Want::Carried(_) => "a value below 2^128: on channel % this move carries one",
        Want::NoValue(_) => "the end of the line: on channel % this move carries no value",
        Want::End => "the end of the line",
    };
    match want {
        Want::Carried(chan) | Want::NoValue(chan) => (form, chan),
        _ => (form, 0),
    }
}

// A line whose items fit, and which may not stand there.
fn explain_place(notes: &mut Notes, line: LineAt<'_>, number: usize) {
    let text = line_of(line.rest);
    let has_end = line.rest.len() > text.len();
    line.put(notes, if has_end { 1 } else { usize::MAX });
    let told = if !has_end {
        "the end of the text\n\
        found: a last line without an end\n\
        expected: a line feed (LF) at the end of each line"
    } else if item_of(text, 1) == Some(b"clash".as_slice()) {
        "this line\n\
        found: a clash line in a trace of version 1\n\
        expected: clash lines in version 2 alone"
    } else if number == MAX_ENTRIES + 2 {
        "this line\n\
        found: an entry behind 16777216 others\n\
        expected: at most 16777216 entries"
    } else {
        "this line\n\
        found: an entry behind a clash line\n\
        expected: clash lines to the end of the trace"
    };
    notes.say(told, &[]);
}
