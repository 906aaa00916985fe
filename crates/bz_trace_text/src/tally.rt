//! Numbers of entries.

ghost use Rattle.std.specs.Prelude.{[], ◌∷◌, ◌++◌, List};
ghost use Rattle.bz_model.specs.declared.event.Entry.{Entry};
ghost use Rattle.bz_trace_text.specs.Counting.{AreFewer, Tells};

use bz_model::Entry;

/// How many firings, host commands and rests.
#[derive(Clone, Copy, PartialEq, Eq)]
pub struct Counts {
    pub fired: usize,
    pub host: usize,
    pub rests: usize,
}

impl Counts {
    /// Those of no entries.
    pub const NONE: Counts = Counts {
        fired: 0,
        host: 0,
        rests: 0,
    };

    /// Counts one entry more.
    pub fn add(&mut self, entry: &Entry)
        requires { AreFewer self.old 18446744073709551615 }
        ensures { (entries : List Entry) → Tells self.old entries → Tells self.new (entries ++ entry.now ∷ []) }
    {
        match entry {
            Entry::Fired { .. } => self.fired += 1,
            Entry::Host { .. } => self.host += 1,
            Entry::Rested { .. } => self.rests += 1,
        }
    }
}
