//! How many entries there are of each kind.

ghost use Rattle.std.specs.Prelude.{◌≡◌, ◌≤◌, length};
ghost use Rattle.std.specs.List.{count_by};
ghost use Rattle.bz_trace_text.specs.Counting.{is_fired, is_host, is_rest, line_count};

use crate::tally::Counts;
use bz_model::Entry;

/// How many of the entries are of each kind. It takes no memory.
pub fn counts(entries: &[Entry]) -> Counts
    ensures fired { result.fired ≡ count_by is_fired entries.now }
    ensures host { result.host ≡ count_by is_host entries.now }
    ensures rests { result.rests ≡ count_by is_rest entries.now }
{
    let mut counts = Counts::NONE;
    for entry in entries {
        counts.add(entry);
    }
    counts
}

/// How many lines a trace has.
pub fn line_count(trace: &[u8]) -> usize
    ensures count { result ≡ line_count trace.now }
    ensures few { result ≤ length trace.now }
{
    trace.iter().filter(|byte| **byte == b'\n').count()
}
