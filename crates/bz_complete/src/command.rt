//! The command `complete`: a short trace made one that `check` reads.
//!
//! The trace is made whole before any of it goes out, so nothing is written where there is none.

ghost use Rattle.std.specs.Prelude.{ℕ, List, Option, IfOk, IfSome, OnErr, OnOk};
ghost use Rattle.std.specs.Option.{option_copied};
ghost use Rattle.bz_cli_input.specs.Reading.{ReadsWithin};
ghost use Rattle.bz_cli_source.specs.Surveys.{IsRead};
ghost use Rattle.bz_complete.specs.Completions.{CompletesApart, CompletesTexts, Finds, FindsIn, Makes, SendsTrace, SendsTraceSome};
ghost use Rattle.bz_complete.specs.Completing.{IsCompleted, IsMade};
ghost use Rattle.bz_complete.specs.declared.short.ShortMove.{ShortMove};
ghost use Rattle.bz_complete.specs.Named.{AreNames};
ghost use Rattle.bz_complete.specs.Stopping.{IsDeadEndAt, IsRefuted};
ghost use Rattle.bz_model.specs.Nets.{Wiring};

use crate::asked::CompleteAsked;
use crate::bad_line::why_bad;
use crate::completing::{Completed, complete};
use crate::fault::CompleteFault;
use crate::names::{ChanNames, has_names};
use crate::reading::{ShortFault, read_short};
use crate::settling::settle;
use crate::short::ShortMove;
use crate::why::{why_not, why_unrested};
use bz_cli_core::write_out;
use bz_cli_input::Fault;
use bz_cli_source::net_of;
use bz_cli_trace::Texts;
use bz_flat::Flat;
use bz_model::NetError;
use bz_net::Net;
use bz_source::Source;
use bz_text::WriteFault;
use std::alloc::{AllocError, Global};
use std::io::{Read, Write};

/// Makes the short trace that a reader gives whole on the net of a part of the netlist that another one gives, and writes the
/// trace. Nothing is written where that can't be done. Where rest is asked for, the trace has the last takes and gots too, behind
/// which nothing can move.
pub fn complete_cmd<R: Read, T: Read, W: Write>(
    alloc: Global,
    part: Option<&[u8]>,
    asked: CompleteAsked,
    input: &mut R,
    short: &mut T,
    output: &mut W,
) -> Result<(), CompleteFault>
    ensures completes { IfSome (R.remaining input.old) (λ netlist. IfSome (T.remaining short.old)
        (λ text. CompletesApart netlist text (option_copied part.entry) (W.contents output.old) (W.contents output.new) result)) }

    // Whatever comes of it, it reads at most one byte past the limit.
    ensures bounded { ReadsWithin (R.remaining input.old) (R.remaining input.new) }
    ensures bounded_short { ReadsWithin (T.remaining short.old) (T.remaining short.new) }
{
    match Texts::read_apart(alloc, input, short) {
        Ok(texts) => complete_texts(alloc, part, asked, &texts, output),
        Err(fault) => Err(CompleteFault::Command(Fault::from(fault))),
    }
}

// Writes the trace that comes of a short one.
fn complete_texts<W: Write>(
    alloc: Global,
    part: Option<&[u8]>,
    asked: CompleteAsked,
    texts: &Texts,
    output: &mut W,
) -> Result<(), CompleteFault>
    ensures { CompletesTexts texts.now.netlist texts.now.trace (option_copied part.entry) (W.contents output.old) (W.contents output.new) result }
{
    let (netlist, short) = texts.both();
    let net = match find(alloc, part, asked, netlist, short) {
        Ok(net) => net,
        Err(fault) => return Err(fault),
    };
    match put_net(&net, output) {
        Ok(()) => Ok(()),
        Err(WriteFault) => Err(CompleteFault::Command(Fault::Write)),
    }
}

// Writes the trace of a net.
fn put_net<W: Write>(net: &Net, output: &mut W) -> Result<(), WriteFault>
    ensures ok { OnOk result (SendsTrace net.now (W.contents output.old) (W.contents output.new)) }
    ensures err { OnErr result (SendsTraceSome net.now (W.contents output.old) (W.contents output.new)) }
{
    match write_out(net.names(), net.journal(), net.clashes(), output) {
        Ok(()) => Ok(()),
        Err(WriteFault) => Err(WriteFault),
    }
}

// The net on which a short trace was made whole.
fn find(
    alloc: Global,
    part: Option<&[u8]>,
    asked: CompleteAsked,
    netlist: &[u8],
    short: &[u8],
) -> Result<Net, CompleteFault>
    ensures { Finds netlist.now short.now (option_copied part.entry) result }
{
    let (flat, source, name) = match net_of(alloc, part, netlist) {
        Ok(read) => read,
        Err(fault) => return Err(CompleteFault::Command(fault)),
    };
    let names = names_for(alloc, short, source, name.as_slice(), &flat);
    match names {
        Ok(names) => find_in(alloc, flat, asked, &names, short),
        Err(_) => Err(CompleteFault::Command(Fault::Memory)),
    }
}

// The names of channels, where a short trace has some.
fn names_for(
    alloc: Global,
    short: &[u8],
    source: Source,
    part: &[u8],
    flat: &Flat,
) -> Result<ChanNames, AllocError>
    ensures { (netlist : List ℕ) (asked : Option (List ℕ))
        → IsRead netlist asked part.now flat.now.wiring source.parts source.lines.items → IfOk result (AreNames netlist asked flat.now.wiring) }
{
    if !has_names(short) {
        return ChanNames::none(alloc);
    }
    // a part that has a net has places, so nothing but memory can be wanting
    match source.survey(alloc, part) {
        Ok(survey) => ChanNames::of(alloc, &survey, flat),
        Err(_) => Err(AllocError),
    }
}

// The same on this net, of which channels have these names.
fn find_in(
    alloc: Global,
    flat: Flat,
    asked: CompleteAsked,
    names: &ChanNames,
    short: &[u8],
) -> Result<Net, CompleteFault>
    ensures { FindsIn flat.wiring names.now short.now result }
{
    match read_short(alloc, short, names) {
        Ok(moves) => make_all(alloc, flat, asked.to_rest, moves.as_slice()),
        Err(ShortFault::Bad(line)) => {
            let why = why_none(alloc, asked.explains, short, names, line);
            Err(CompleteFault::NotShort { line, why })
        }
        Err(ShortFault::Memory) => Err(CompleteFault::Command(Fault::Memory)),
    }
}

// Notes on a line that is none of a short trace, where they are asked for.
fn why_none(alloc: Global, explains: bool, short: &[u8], names: &ChanNames, line: usize) -> String {
    if explains {
        why_bad(alloc, short, names, line)
    } else {
        String::new(alloc)
    }
}

// Makes these moves on a net, and brings it to rest where that is asked for.
fn make_all(
    alloc: Global,
    flat: Flat,
    to_rest: bool,
    moves: &[ShortMove],
) -> Result<Net, CompleteFault>
    ensures { Makes flat.wiring moves.now result }
{
    let made = make(alloc, flat, moves);
    if !to_rest {
        return made;
    }
    match made {
        Ok(net) => rested(alloc, net, moves.len()),
        Err(fault) => Err(fault),
    }
}

// The net on which so many moves were made, at rest.
fn rested(alloc: Global, net: Net, count: usize) -> Result<Net, CompleteFault>
    ensures { (w : Wiring) (moves : List ShortMove) → IsMade w moves net → Makes w moves result }
{
    let mut net = net;
    match settle(&mut net) {
        Ok(None) => Ok(net),
        Ok(Some(comp)) => {
            let line = count.saturating_add(1);
            let why = why_unrested(alloc, &net, comp);
            Err(CompleteFault::Unrested { line, why })
        }
        Err(NetError::JournalFull) => Err(CompleteFault::TooLong),
        Err(_) => Err(CompleteFault::Command(Fault::Memory)),
    }
}

// Makes these moves on a net.
fn make(alloc: Global, flat: Flat, moves: &[ShortMove]) -> Result<Net, CompleteFault>
    ensures { Makes flat.wiring moves.now result }
{
    match complete(alloc, flat, moves) {
        Ok(completed) => made(alloc, completed, moves),
        Err(NetError::JournalFull) => Err(CompleteFault::TooLong),
        Err(_) => Err(CompleteFault::Command(Fault::Memory)),
    }
}

// The net, if all moves were made on it.
fn made(alloc: Global, completed: Completed, moves: &[ShortMove]) -> Result<Net, CompleteFault>
    ensures { (w : Wiring) → IsCompleted w moves.now completed
        → IfSome completed.stop (IsDeadEndAt completed.net.wiring completed.net.state moves.now)
        → IfSome completed.stop (IsRefuted w moves.now) → Makes w moves.now result }
{
    match completed.stop {
        None => Ok(completed.into_net()),
        Some(line) => {
            // (what the journal has is that of a run)
            let _ = completed.net.journal();
            let why = why_at(alloc, &completed.net, moves, line);
            Err(CompleteFault::Stopped { line, why })
        }
    }
}

// Why the move of a line can't be made.
fn why_at(alloc: Global, net: &Net, moves: &[ShortMove], line: usize) -> String {
    match moves.get(line.wrapping_sub(1)) {
        Some(due) => why_not(alloc, net, *due),
        None => String::new(alloc),
    }
}
