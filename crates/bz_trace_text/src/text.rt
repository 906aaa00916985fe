//! A whole trace, read back.

ghost use Rattle.std.specs.Prelude.{◌≡◌, ◌≢◌, ◌+◌, ◌<◌, ◌^◌, ◌++◌, ℕ, List, [], length, map, IfSome, IfNone, MatchOption};
ghost use Rattle.std.specs.List.{AllByRecursion};
ghost use Rattle.bz_model.specs.Names.{Outside};
ghost use Rattle.bz_model.specs.Entries.{HasLine, IsNumber32, told};
ghost use Rattle.bz_trace_text.specs.Texts.{first_line, lines, clash_lines, NoClash, NoEntry, Outcome, ComesTo, outcome_of, ClashesFrom, OtherFrom, Skips};
ghost use Rattle.bz_trace_text.specs.declared.text.TraceError.TheVariants.{Memory};

use crate::ports::LineNames;
use crate::reading::{clash_at, line_at, strip};
use bz_model::{Entry, Names};
use std::alloc::{AllocError, AllocFailed, Global};
use thiserror::Error;

/// The most entries of a trace.
pub const MAX_ENTRIES: usize = 16_777_216;

/// A version of the text: the second has a line for each clash, behind the entries.
#[derive(Clone, Copy, PartialEq, Eq)]
pub enum Version {
    One,
    Two,
}

/// Why a text is not read.
#[derive(Clone, Copy, Debug, PartialEq, Eq, Error)]
pub enum TraceError {
    /// The text is no trace: the first line, counted from 1, that has none of the forms.
    #[error("not a trace: line {0}")]
    Bad(usize),
    #[error("F3 Memory")]
    Memory,
}

impl From<AllocError> for TraceError {
    ghost from_gives = { λ _ e. e ≡ Memory };

    fn from(_e: AllocError) -> TraceError {
        TraceError::Memory
    }
}

impl<T: Drop> From<AllocFailed<T>> for TraceError {
    ghost from_gives = { λ _ e. e ≡ Memory };

    fn from(_e: AllocFailed<T>) -> TraceError {
        TraceError::Memory
    }
}

/// The version that the first line names, and what follows that line.
pub fn version_at(text: &[u8]) -> Option<(Version, &[u8])>
    ensures { MatchOption result
        ((version : Version) (rest : List ℕ) → text.now ≡ first_line version ++ rest → ⊥)
        (λ r. text.now ≡ first_line r.0 ++ r.1.now) }
{
    if let Some(rest) = strip(text, b"trace 1\n") {
        return Some((Version::One, rest));
    }
    if let Some(rest) = strip(text, b"trace 2\n") {
        return Some((Version::Two, rest));
    }
    None
}

/// The number of the first line that is no clash line, from number `first` on, and what stands from there on.
fn skip_clashes(text: &[u8], first: usize) -> (usize, &[u8])
    requires { first + length text.now < 2 ^ 64 }
    ensures { Skips text.now first result.0 result.1.now }
{
    let mut rest = text;
    let mut line = first;
    while let Some((_, after)) = clash_at(rest) {
        rest = after;
        line += 1;
    }
    (line, rest)
}

/// The first line that is no clash line, from number `first` on; none where clash lines go on to the end.
pub fn other_line(version: Version, text: &[u8], first: usize) -> Option<usize>
    requires { first + length text.now < 2 ^ 64 }
    ensures { MatchOption result (ClashesFrom version text.now) (OtherFrom version text.now first) }
{
    let (line, rest) = match version {
        Version::One => (first, text),
        Version::Two => skip_clashes(text, first),
    };
    if rest.is_empty() {
        return None;
    }
    Some(line)
}

/// The lines of entries that have lines tell these entries, but for the ports of firings.
pub fn one_spelling()
    ensures { (net : Outside) (es fs : List Entry) → AllByRecursion (HasLine net) es → AllByRecursion (HasLine net) fs
        → lines net.ports es ≡ lines net.ports fs → map told es ≡ map told fs }
{}

/// The entries that the text tells, each firing's port being 0.
pub fn read_trace(alloc: Global, names: &Names, text: &[u8]) -> Result<Vec<Entry>, TraceError>
    // The entries that the text spells, or its first bad line, unless memory was wanting.
    ensures right { IfSome (outcome_of result) (ComesTo names.now text.now) }

    // Whatever the text comes to is answered.
    ensures only { (o : Outcome) → ComesTo names.now text.now o
        → IfSome (outcome_of result) (λ p. p ≡ o) }
{
    let names = LineNames::new(alloc, names);
    read_lines(alloc, &names, text)
}

fn read_lines(alloc: Global, names: &LineNames, text: &[u8]) -> Result<Vec<Entry>, TraceError>
    ensures { IfSome (outcome_of result) (ComesTo names.now text.now) }
{
    let (version, mut rest) = match version_at(text) {
        Some(found) => found,
        None => return Err(TraceError::Bad(1)),
    };
    let mut entries = Vec::new(alloc);
    while let Some((entry, after)) = line_at(names, rest) {
        if entries.len() == MAX_ENTRIES {
            return Err(TraceError::Bad(MAX_ENTRIES + 2));
        }
        entries.push(entry)?;
        rest = after;
    }
    match other_line(version, rest, entries.len() + 2) {
        None => Ok(entries),
        Some(line) => Err(TraceError::Bad(line)),
    }
}
