//! Who is shown the entries of a trace while it is checked, and the net behind each.

ghost use Rattle.std.specs.Prelude.{⊤, [], ◌∷◌, ◌++◌, List};
ghost use Rattle.bz_model.specs.declared.event.Entry.{Entry};
ghost use Rattle.bz_model.specs.Nets.{Wiring};
ghost use Rattle.bz_net.specs.Progress.{IsToldBy};
ghost use Rattle.bz_trace.specs.Watching.{SeesLine};

use bz_model::Entry;
use bz_net::Play;
use std::alloc::Global;

/// Is shown each entry of a trace that a net follows, in order, and the net behind it: so who counts them, or wants a state on the
/// way, reads no line again. It has no part in a verdict. Behind a line that no run allows the net stays where it is.
pub trait Watch {
    // What it is behind these entries of a run of the net.
    ghost behind: { Wiring → List Entry → Self → Type 0 };

    /// A trace of this net begins, which is at its opening.
    fn begin(&mut self, alloc: Global, net: &Play)
        requires { IsToldBy net.now [] }
        ensures { behind net.now.wiring [] self.new };

    /// An entry more, as its line tells it: without the port of a firing. The net is behind it.
    fn see(&mut self, net: &Play, entry: &Entry)
        ensures { SeesLine behind net.now entry.now self.old self.new };
}

/// Looks at nothing.
#[derive(Clone, Copy)]
pub struct Unwatched;

impl Watch for Unwatched {
    ghost behind = { λ w entries now. ⊤ };

    #[inline(always)]
    fn begin(&mut self, _alloc: Global, _net: &Play) {}

    #[inline(always)]
    fn see(&mut self, _net: &Play, _entry: &Entry) {}
}
