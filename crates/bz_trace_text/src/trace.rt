//! The lines of a trace.

ghost use Rattle.std.specs.Prelude.{◌≡◌, ℕ, ◌+◌, ◌≤◌, ◌++◌, List, [], Option, IfOk, length, take, codes, decimal, unwrap_or};
ghost use Rattle.std.specs.List.{flat_map};
ghost use Rattle.bz_model.specs.declared.event.Entry.{Entry};
ghost use Rattle.bz_model.specs.Names.{External, port_name};
ghost use Rattle.bz_model.specs.Traces.{who_text, move_text, value_text, fired_text, host_text, rested_text, line_text, clash_text, trace_text, trace_text_1};
ghost use Rattle.bz_text.specs.Writing.{Writes};
ghost use Rattle.bz_trace_text.specs.Spelling.{AreSpelled};
ghost use Rattle.bz_trace_text.specs.Writing.{Composes, HasLines, WritesLines};

use crate::numeral::Numeral;
use crate::page::Page;
use bz_model::{Entry, Move, Names, Reply, Value, Verb, Who};
use bz_text::{Piece, WriteFault, put, put_pieces};
use std::io::Write;

/// Writes the trace of the entries: the first line, a line for each, and a line for each component handed in. It takes no
/// memory. Firings go out by pages of some 8,000 bytes and all else in small pieces, so a file or a terminal wants a
/// `BufWriter` in between.
pub fn write_trace<W: Write>(
    names: &Names,
    entries: &[Entry],
    clashes: &[u32],
    out: &mut W,
) -> Result<(), WriteFault>
    // At Ok the whole text went out. A fault comes where some of it was left, and what went out is its front.
    ensures { Writes (W.contents out.old) (W.contents out.new) result
        (trace_text names.now.ports entries.now clashes.now) }
{
    put_first_line(out)?;
    put_entries(out, names, entries)?;
    put_clashes(out, clashes)
}

/// Writes version 1 of the trace, which has no line for components.
pub fn write_trace_1<W: Write>(
    names: &Names,
    entries: &[Entry],
    out: &mut W,
) -> Result<(), WriteFault>
    ensures { Writes (W.contents out.old) (W.contents out.new) result
        (trace_text_1 names.now.ports entries.now) }
{
    put(out, b"trace 1\n")?;
    put_entries(out, names, entries)
}

/// Writes the first line of a trace that is written in pieces: after it come the entries, by `put_entries`, and last
/// `put_clashes`.
pub fn put_first_line<W: Write>(out: &mut W) -> Result<(), WriteFault>
    ensures line { Writes (W.contents out.old) (W.contents out.new) result (codes "trace 2\n") }
    ensures pieces { (ports : List External) →
        WritesLines ports (W.contents out.old) (W.contents out.new) result [] }
{
    put(out, b"trace 2\n")
}

/// Writes a line for each component handed in.
pub fn put_clashes<W: Write>(out: &mut W, clashes: &[u32]) -> Result<(), WriteFault>
    ensures lines { Writes (W.contents out.old) (W.contents out.new) result
        (flat_map clash_text clashes.now) }
    // Where the first line and the lines of these entries went out since `start`, their trace is whole.
    ensures whole { (ports : List External) (start : Option (List ℕ)) (entries : List Entry) →
        HasLines ports start (W.contents out.old) entries →
        Writes start (W.contents out.new) result (trace_text ports entries clashes.now) }
{
    put_clash_lines(out, clashes)
}

fn put_clash_lines<W: Write>(out: &mut W, clashes: &[u32]) -> Result<(), WriteFault>
    ensures { Writes (W.contents out.old) (W.contents out.new) result
        (flat_map clash_text clashes.now) }
{
    for comp in clashes {
        put_clash(out, *comp)?;
    }
    Ok(())
}

fn put_clash<W: Write>(out: &mut W, comp: u32) -> Result<(), WriteFault>
    ensures { Writes (W.contents out.old) (W.contents out.new) result (clash_text comp) }
{
    let pieces = [
        Piece::Bytes(b"clash "),
        Piece::Number(Value::from(comp)),
        Piece::Bytes(b"\n"),
    ];
    put_pieces(out, &pieces)
}

/// Writes the lines of some entries, all of them before it returns. Pieces of a journal, written one after another, make
/// the lines of the whole.
pub fn put_entries<W: Write>(
    out: &mut W,
    names: &Names,
    entries: &[Entry],
) -> Result<(), WriteFault>
    ensures lines { Writes (W.contents out.old) (W.contents out.new) result
        (flat_map (line_text names.now.ports) entries.now) }
    // Where the first line and the lines of the entries so far went out since `start`, these are added.
    ensures pieces { (start : Option (List ℕ)) (so_far : List Entry) →
        HasLines names.now.ports start (W.contents out.old) so_far →
        WritesLines names.now.ports start (W.contents out.new) result (so_far ++ entries.now) }
{
    put_lines(out, names, entries)
}

fn put_lines<W: Write>(out: &mut W, names: &Names, entries: &[Entry]) -> Result<(), WriteFault>
    ensures { Writes (W.contents out.old) (W.contents out.new) result
        (flat_map (line_text names.now.ports) entries.now) }
{
    let mut page = Page::new();
    for entry in entries {
        add_entry(&mut page, out, names, entry)?;
    }
    page.put(out)
}

// Composes the line of an entry. One that is not a firing goes out at once, after all that is on the page.
#[inline(always)]
fn add_entry<W: Write>(
    page: &mut Page,
    out: &mut W,
    names: &Names,
    entry: &Entry,
) -> Result<(), WriteFault>
    ensures { Composes (W.contents out.old) (W.contents out.new) page.old page.new result
        (line_text names.now.ports entry.now) }
{
    match *entry {
        Entry::Fired {
            who,
            comp,
            port: _,
            chan,
            mv,
            value,
        } => {
            make_room(page, out)?;
            add_fired(page, &[], who, comp, mv, chan, value);
            Ok(())
        }
        Entry::Host {
            who,
            verb,
            port,
            value,
            reply,
        } => {
            page.put(out)?;
            put_host(out, who, verb, name_of(names, port), value, reply)
        }
        Entry::Rested { who } => {
            page.put(out)?;
            put_rested(out, who)
        }
    }
}

// Makes room for 96 bytes, where there is less.
#[inline(always)]
fn make_room<W: Write>(page: &mut Page, out: &mut W) -> Result<(), WriteFault>
    ensures text { Composes (W.contents out.old) (W.contents out.new) page.old page.new result [] }
    ensures room { IfOk result (λ _. length page.new + 96 ≤ 8192) }
{
    if page.has_room() {
        return Ok(());
    }
    page.put(out)
}

// The name of a port, empty where there is no such port.
fn name_of(names: &Names, port: u32) -> &[u8]
    ensures { result.now ≡ unwrap_or (port_name names.now.ports port) [] }
{
    match names.name(port) {
        Some(name) => name,
        None => &[],
    }
}

// Composes the line of a firing. Numbers that are spelled already are taken from there.
#[inline(always)]
pub(crate) fn add_fired(
    page: &mut Page,
    spelled: &[Numeral],
    who: Who,
    comp: u32,
    mv: Move,
    chan: u32,
    value: Option<Value>,
)
    requires room { length page.old + 96 ≤ 8192 }
    requires told { AreSpelled spelled.now }
    ensures text { page.new ≡ page.old ++ fired_text who comp mv chan value }
    ensures short { length page.new ≤ length page.old + 96 }
{
    page.fired(spelled, who, comp, mv, chan, value);
}

// Composes the line that tells of rest.
pub(crate) fn add_rested(page: &mut Page, who: Who)
    requires { length page.old + 96 ≤ 8192 }
    ensures { page.new ≡ page.old ++ rested_text who }
{
    add_who(page, who);
    page.word(*b" rest\n  ", 6);
}

#[inline(always)]
fn add_who(page: &mut Page, who: Who)
    requires { length page.old + 11 ≤ 8192 }
    ensures text { page.new ≡ page.old ++ who_text who }
    ensures short { length page.new ≤ length page.old + 11 }
{
    let (letter, number) = match who {
        Who::Host(n) => (b'h', n),
        Who::Worker(n) => (b'w', n),
    };
    page.byte(letter);
    page.number(u32::from(number));
}

fn put_host<W: Write>(
    out: &mut W,
    who: Who,
    verb: Verb,
    name: &[u8],
    value: Option<Value>,
    reply: Reply,
) -> Result<(), WriteFault>
    ensures { Writes (W.contents out.old) (W.contents out.new) result
        (host_text who verb name.now value reply) }
{
    let (letter, number) = who.parts();
    let (word, phase, replied) = reply.parts();
    let pieces = [
        Piece::Bytes(letter.as_bytes()),
        Piece::Number(Value::from(number)),
        Piece::Bytes(b" "),
        Piece::Bytes(verb.word().as_bytes()),
        Piece::Bytes(b" "),
        Piece::Name(name),
        Piece::Value(value),
        Piece::Bytes(b" "),
        Piece::Bytes(word.as_bytes()),
        Piece::Bytes(phase.as_bytes()),
        Piece::Value(replied),
        Piece::Bytes(b"\n"),
    ];
    put_pieces(out, &pieces)
}

fn put_rested<W: Write>(out: &mut W, who: Who) -> Result<(), WriteFault>
    ensures { Writes (W.contents out.old) (W.contents out.new) result (rested_text who) }
{
    let (letter, number) = who.parts();
    let pieces = [
        Piece::Bytes(letter.as_bytes()),
        Piece::Number(Value::from(number)),
        Piece::Bytes(b" rest\n"),
    ];
    put_pieces(out, &pieces)
}
