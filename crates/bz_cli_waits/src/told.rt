//! What is told behind a line of a run.

ghost use Rattle.std.specs.Prelude.{◌≡◌, ◌<◌, IfOk, IfSome, MatchBool};
ghost use Rattle.bz_since.specs.Since.{HasStuck};
ghost use Rattle.bz_since.specs.Keeping.{IsKept};
ghost use Rattle.bz_cli_trace.specs.Judging.{EndsRun, entry_count};
ghost use Rattle.bz_cli_waits.specs.Telling.{IsTold};

use crate::played::Played;
use bz_net::{Core, Play};
use bz_since::{put_first, put_opening};
use bz_source::Records;
use bz_text::Text;
use bz_view::{Shown, put_chain_of, put_waits_of};
use bz_waits::Stuck;
use std::alloc::{AllocError, Global};
use std::mem::forget;

/// What is told behind a line, and whether something can never move again there.
#[derive(Drop)]
pub struct Told {
    pub text: Vec<u8>,
    pub is_stuck: bool,
}

/// What is wanted of a run: behind which line of so many, and of which component, or of all.
#[derive(Clone, Copy)]
pub(crate) struct Wanted {
    pub line: usize,
    pub lines: usize,
    pub comp: Option<u32>,
}

/// What is told of a run. `kept` is the net behind the line that is named, as it was kept while the trace was judged; where there is
/// none, the line is behind all entries.
pub(crate) fn told_of(
    alloc: Global,
    played: Played,
    kept: Option<Core>,
    netlist: &[u8],
    trace: &[u8],
    wanted: Wanted,
) -> Result<Told, AllocError>
    requires ends { EndsRun played.judged.net trace.now (entry_count played.judged.found.counts) }
    requires behind { IfSome kept (IsKept played.judged.net.wiring trace.now wanted.line) }
    ensures { IfOk result (λ told. IsTold played.judged.net.wiring trace.now wanted.line told.is_stuck) }
{
    let (net, records, entries) = played.into_parts(alloc, netlist)?;
    match kept {
        Some(core) => told_before(alloc, net, core, records, trace, wanted),
        None if wanted.line > entries => told_at_end(alloc, net, records, entries, trace, wanted),
        // (a line before the end that was not kept, for which nothing but memory can be wanting)
        None => Err(AllocError),
    }
}

// The same where the run ends: the net is there.
fn told_at_end(
    alloc: Global,
    net: Play,
    records: Records<'_>,
    _entries: usize,
    trace: &[u8],
    wanted: Wanted,
) -> Result<Told, AllocError>
    requires ends { EndsRun net trace.now _entries }
    requires behind { _entries < wanted.line }
    ensures { IfOk result (λ told. IsTold net.wiring trace.now wanted.line told.is_stuck) }
{
    let (is_stuck, told) = look(alloc, net.core(), &records, wanted.comp)?;
    let text = first_at_end(alloc, net, records, trace, wanted, is_stuck)?;
    whole(alloc, text, &told, is_stuck)
}

// Since which line something is stuck at the end of a run, if anything is.
fn first_at_end(
    alloc: Global,
    net: Play,
    records: Records<'_>,
    trace: &[u8],
    wanted: Wanted,
    is_stuck: bool,
) -> Result<Text, AllocError> {
    let mut text = Text::new(alloc);
    if is_stuck && wanted.line > 1 {
        // the search for the line wants room
        drop(records);
        let flat = net.into_flat(alloc)?;
        put_first(flat, trace, wanted.line, wanted.lines, &mut text);
        return Ok(text);
    }
    // The command ends here, and its memory goes with it. To give it back piece by piece would take a twentieth of the time.
    forget(net);
    forget(records);
    if is_stuck {
        put_opening(wanted.lines, &mut text);
    }
    Ok(text)
}

// The same behind an earlier line: the net was kept there.
fn told_before(
    alloc: Global,
    net: Play,
    kept: Core,
    records: Records<'_>,
    trace: &[u8],
    wanted: Wanted,
) -> Result<Told, AllocError>
    requires { IsKept net.wiring trace.now wanted.line kept }
    ensures { IfOk result (λ told. IsTold net.wiring trace.now wanted.line told.is_stuck) }
{
    let (is_stuck, told) = look(alloc, &kept, &records, wanted.comp)?;
    drop(kept);
    drop(records);
    let mut text = Text::new(alloc);
    if is_stuck {
        let opened = net.into_flat(alloc)?;
        put_first(opened, trace, wanted.line, wanted.lines, &mut text);
    } else {
        forget(net);
    }
    whole(alloc, text, &told, is_stuck)
}

// What waits in a net, and whether something in it can never move again.
fn look(
    alloc: Global,
    net: &Core,
    records: &Records<'_>,
    comp: Option<u32>,
) -> Result<(bool, Text), AllocError>
    ensures { IfOk result (λ r. MatchBool r.0 (HasStuck net.now.wiring net.now.state) (HasStuck net.now.wiring net.now.state → ⊥)) }
{
    let stuck = Stuck::of(alloc, net)?;
    let mut text = Text::new(alloc);
    let shown = Shown::by_records(net, records);
    match comp {
        Some(comp) => put_chain_of(shown, &stuck, comp, &mut text),
        None => put_waits_of(shown, &stuck, &mut text),
    }
    Ok((stuck.len() > 0, text))
}

// The text with what is told behind it.
fn whole(alloc: Global, mut text: Text, told: &Text, is_stuck: bool) -> Result<Told, AllocError>
    ensures { IfOk result (λ told. told.is_stuck ≡ is_stuck) }
{
    text.put_bytes(told.whole()?);
    Ok(Told {
        text: Vec::from_slice(alloc, text.whole()?)?,
        is_stuck,
    })
}
