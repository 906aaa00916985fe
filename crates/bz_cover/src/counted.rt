//! What a run exercises, counted while it is played or its trace is judged.

ghost use Rattle.std.specs.Prelude.{◌≡◌};
ghost use Rattle.bz_cover.specs.Counting.{AreCounted};

use crate::coverage::Coverage;
use bz_model::Entry;
use bz_net::Play;
use bz_trace::Watch;
use std::alloc::Global;

/// Counts the entries of a run. Where memory is wanting for that, nothing is counted.
pub struct Counted {
    coverage: Option<Coverage>,
}

// By hand, so that who lets one go has one call to show and not all its parts.
impl Drop for Counted {
    fn drop(self) {
        let Counted { coverage: _ } = self;
    }
}

impl Counted {
    /// No trace yet.
    pub fn new() -> Counted {
        Counted { coverage: None }
    }

    /// What was counted.
    pub fn into_coverage(self) -> Option<Coverage>
        ensures { result ≡ self.coverage }
    {
        let Counted { coverage } = self;
        coverage
    }
}

impl Watch for Counted {
    ghost behind = { λ w entries now. AreCounted w entries now.coverage };

    fn begin(&mut self, alloc: Global, net: &Play) {
        self.coverage = Coverage::new(alloc, net.core()).ok();
    }

    #[inline(always)]
    fn see(&mut self, _net: &Play, entry: &Entry) {
        if let Some(coverage) = &mut self.coverage {
            coverage.add(entry);
        }
    }
}
