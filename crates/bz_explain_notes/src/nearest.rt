//! Names, and which one of several was probably meant.
//!
//! How far two names are apart is what `strsim` says, without regard to case. No clause says that it is the least number of
//! letters put in, left out and changed.

ghost use Rattle.std.specs.Prelude.{◌≡◌, map, IfOk};
ghost use Rattle.std.specs.Char.{to_ascii_lowercase};
ghost use Rattle.bz_explain_notes.specs.Edits.{edits};

use bz_model::Port;
use std::alloc::{AllocError, Global};
use strsim::generic_levenshtein;

/// The longest names that are looked at.
const MOST_BYTES: usize = 32;

/// The most edits between a name and the one that was meant.
const MOST_EDITS: usize = 2;

/// What stands in front of the name of a kind.
const PREFIX: &[u8] = b"$Brz";

/// The names of ports.
pub fn port_names(alloc: Global, ports: &[Port]) -> Result<Vec<&[u8]>, AllocError> {
    ports.iter().map(|port| port.name.as_slice()).collect(alloc)
}

/// The name of several that was probably meant, where one is near enough: the first of those that are as near.
pub fn nearest_name<'c>(
    alloc: Global,
    name: &[u8],
    names: &[&'c [u8]],
) -> Result<Option<&'c [u8]>, AllocError> {
    let mut limit = (MOST_EDITS + 1).min(name.len().div_ceil(2));
    let mut best = None;
    for other in names {
        let count = distance(alloc, name, other)?;
        if count < limit {
            limit = count;
            best = Some(*other);
        }
    }
    Ok(best)
}

// How far another name is, one whose prefix is left out being no further; names that are too long are as far as can be.
fn distance(alloc: Global, name: &[u8], other: &[u8]) -> Result<usize, AllocError> {
    if name.len() > MOST_BYTES || other.len() > MOST_BYTES {
        return Ok(usize::MAX);
    }
    match other.strip_prefix(PREFIX) {
        Some(rest) if edits(alloc, name, rest)? == 0 => Ok(0),
        _ => edits(alloc, name, other),
    }
}

// The least number of letters that are put in, left out or changed on the way from one name to another, without regard to case.
fn edits(alloc: Global, from: &[u8], to: &[u8]) -> Result<usize, AllocError>
    ensures { IfOk result (λ n. n ≡ edits from.now to.now) }
{
    let from = lowered(alloc, from)?;
    let to = lowered(alloc, to)?;
    generic_levenshtein(alloc, from.as_slice(), to.as_slice())
}

fn lowered(alloc: Global, name: &[u8]) -> Result<Vec<u8>, AllocError>
    ensures { IfOk result (λ v. v.items ≡ map to_ascii_lowercase name.now) }
{
    name.iter()
        .map(|byte| byte.to_ascii_lowercase())
        .collect(alloc)
}
