//! The entries of a journal, counted.

ghost use Rattle.bz_cover.specs.Counts.{CountsOn};

use crate::coverage::Coverage;
use bz_model::Entry;

/// Counts entries, as a net's journal has them.
pub fn count_entries(coverage: &mut Coverage, entries: &[Entry])
    ensures { CountsOn coverage.old entries.now coverage.new }
{
    for entry in entries {
        coverage.add(entry);
    }
}
