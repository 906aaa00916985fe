//! The state of a net behind a line of a trace, kept while the trace is checked.

ghost use Rattle.std.specs.Prelude.{◌≡◌, IfOk, IfSome, OnOk};
ghost use Rattle.bz_since.specs.Keeping.{HasKept, KeepsLine, before};

use bz_model::Entry;
use bz_net::{Core, Play};
use bz_trace::Watch;
use std::alloc::{AllocError, Global};

/// Keeps a net as it is behind a line of a trace that is checked. So nothing is played twice for it, and no entries are held.
pub struct AtLine {
    alloc: Global,
    /// Behind how many entries the net is kept.
    after: usize,
    /// How many of these are still to come.
    left: usize,
    core: Option<Core>,
}

// By hand, so that who lets one go has one call to show and not all its parts.
impl Drop for AtLine {
    fn drop(self) {
        let AtLine {
            alloc: _,
            after: _,
            left: _,
            core: _,
        } = self;
    }
}

impl AtLine {
    /// Behind this line, counted from 1; behind none where no line is named.
    pub fn new(alloc: Global, line: Option<usize>) -> AtLine
        ensures { result.after ≡ before line }
    {
        let after = before(line);
        AtLine {
            alloc,
            after,
            left: after,
            core: None,
        }
    }

    /// The net behind the line that it was made for, where the trace has so many entries.
    pub fn into_core(self, line: Option<usize>) -> Result<Option<Core>, AllocError>
        ensures after { OnOk result (self.after ≡ before line) }
        ensures kept { IfOk result (λ kept. HasKept self kept) }
    {
        let AtLine {
            alloc: _,
            after,
            left,
            core,
        } = self;
        // (no clause says that who watched is still the same)
        if after != before(line) {
            return Err(AllocError);
        }
        if left > 0 {
            return Ok(None);
        }
        match core {
            Some(core) => Ok(Some(core)),
            None => Err(AllocError),
        }
    }

    // Keeps the net as it is.
    #[inline(never)]
    fn keep(&mut self, net: &Play)
        ensures kept { IfSome self.new.core (λ core. (core.wiring ≡ net.now.wiring) × (core.state ≡ net.now.state)) }
        ensures others { (self.new.after ≡ self.old.after) × (self.new.left ≡ self.old.left) }
    {
        self.core = net.core().dup(self.alloc).ok();
    }
}

impl Watch for AtLine {
    ghost behind = { λ w entries now. KeepsLine w entries now };

    fn begin(&mut self, _alloc: Global, net: &Play) {
        self.left = self.after;
        if self.left == 0 {
            self.keep(net);
        }
    }

    #[inline(always)]
    fn see(&mut self, net: &Play, _entry: &Entry) {
        if self.left > 0 {
            self.left -= 1;
            if self.left == 0 {
                self.keep(net);
            }
        }
    }
}

// How many entries stand before a line, counted from 1; more than any trace has where none is named.
fn before(line: Option<usize>) -> usize
    ensures { result ≡ before line }
{
    match line {
        Some(line) => line.saturating_sub(1),
        None => usize::MAX,
    }
}
