//! The first line of a trace behind which something can never move again.
//!
//! What is stuck stays so, so the line is found by halving. The net behind the last line that was found to be too early is kept,
//! and goes on from there: no more moves are made than the trace has, and one.

ghost use Rattle.std.specs.Prelude.{◌≡◌, ◌+◌, IfOk, List, map};
ghost use Rattle.bz_model.specs.declared.event.Entry.{Entry};
ghost use Rattle.bz_model.specs.Entries.{told};
ghost use Rattle.bz_model.specs.Nets.{State, opening};
ghost use Rattle.bz_model.specs.Runs.{Run};
ghost use Rattle.bz_trace.specs.Verdicts.{IsRunText};
ghost use Rattle.bz_since.specs.Halving.{IsBetween};
ghost use Rattle.bz_since.specs.Since.{IsSince};

use crate::following::play;
use crate::halving::{Bounds, halve, has_stuck};
use bz_flat::Flat;
use bz_model::{Entry, NetError};
use bz_net::Net;
use bz_trace_text::{MAX_ENTRIES, TraceError, read_trace};
use std::alloc::{AllocError, Global};

/// The first line of a trace behind which something can never move again.
pub struct Since {
    /// Its number. The first line, behind which the net is at its opening, is line 1.
    pub line: usize,
    /// The net behind it.
    pub net: Net,
}

// By hand, so that who lets one go has one call to show and not all its parts.
impl Drop for Since {
    fn drop(self) {
        let Since { line: _, net: _ } = self;
    }
}

/// Why the line is not known.
#[derive(Clone, Copy, PartialEq, Eq)]
pub enum NoSince {
    /// It is no trace, or none of a run, or has more entries than the net lets in.
    NotRun,
    Memory,
}

impl From<AllocError> for NoSince {
    fn from(_e: AllocError) -> NoSince {
        NoSince::Memory
    }
}

impl From<NetError> for NoSince {
    fn from(error: NetError) -> NoSince {
        match error {
            NetError::Memory => NoSince::Memory,
            _ => NoSince::NotRun,
        }
    }
}

impl From<TraceError> for NoSince {
    fn from(error: TraceError) -> NoSince {
        match error {
            TraceError::Memory => NoSince::Memory,
            TraceError::Bad(_) => NoSince::NotRun,
        }
    }
}

/// The first line of a trace of these entries, whatever ports they name for firings. `None` where nothing is stuck at their end.
pub fn stuck_since(alloc: Global, net: Net, entries: &[Entry]) -> Result<Option<Since>, NoSince>
    requires { net.state ≡ opening net.wiring }
    ensures { IfOk result (λ found. (es : List Entry) (last : State) → map told es ≡ map told entries.now
        → Run net.wiring (opening net.wiring) es last → IsSince net.wiring es last found) }
{
    // what is stuck stays so where the net is wired well, as its names tell
    let _ = net.names();
    if has_stuck(alloc, net.core())? {
        return Ok(Some(Since { line: 1, net }));
    }
    let mut bounds = Bounds {
        low: net,
        from: 0,
        to: entries.len() + 1,
    };
    while bounds.from + 1 < bounds.to {
        halve(alloc, entries, &mut bounds)?;
    }
    match found_at(entries, bounds) {
        Ok(found) => Ok(found),
        Err(fault) => Err(fault),
    }
}

// What is found once the bounds have met: the net goes on by one entry.
fn found_at(entries: &[Entry], bounds: Bounds) -> Result<Option<Since>, NoSince>
    requires between { IsBetween entries.now bounds }
    requires met { bounds.to ≡ bounds.from + 1 }
    ensures { IfOk result (λ found. (es : List Entry) (last : State) → map told es ≡ map told entries.now
        → Run bounds.low.wiring (opening bounds.low.wiring) es last → IsSince bounds.low.wiring es last found) }
{
    let (from, to) = (bounds.from, bounds.to);
    if to > entries.len() {
        return Ok(None);
    }
    let mut net = bounds.into_low();
    play(&mut net, entries, from, to)?;
    Ok(Some(Since { line: to + 1, net }))
}

/// The same of a trace's text.
pub fn stuck_since_in(alloc: Global, flat: Flat, text: &[u8]) -> Result<Option<Since>, NoSince>
    ensures { IfOk result (λ found. (run : IsRunText flat.wiring text.now) → IsSince flat.wiring run.entries run.last found) }
{
    let net = Net::open(alloc, flat, MAX_ENTRIES as u32)?;
    let entries = read_trace(alloc, net.names(), text)?;
    match stuck_since(alloc, net, &entries) {
        Ok(found) => Ok(found),
        Err(fault) => Err(fault),
    }
}
