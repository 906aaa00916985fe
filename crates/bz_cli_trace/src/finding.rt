//! What is said of a trace.

ghost use Rattle.std.specs.Prelude.{◌≡◌};
ghost use Rattle.bz_cli_trace.specs.Judging.{entry_count, is_passed};

use bz_trace::{Counts, Verdict};

/// What is said of a trace.
#[derive(Clone, Copy)]
pub struct Finding {
    pub verdict: Verdict,
    pub counts: Counts,
    /// Whether nothing was looked at but lines up to the one that no run allows.
    pub early: bool,
    /// Whether it is the trace of a run that was to end at rest, and doesn't.
    pub unrested: bool,
}

impl Finding {
    /// Whether it is the trace of a run, which ends at rest where it was to.
    pub fn passes(&self) -> bool
        ensures { result ≡ is_passed self.now }
    {
        matches!(self.verdict, Verdict::Run) && !self.unrested
    }

    /// How many entries were counted.
    pub fn entries(&self) -> usize
        ensures { result ≡ entry_count self.now.counts }
    {
        let Counts { fired, host, rests } = self.counts;
        fired.saturating_add(host).saturating_add(rests)
    }
}
