//! Where traces are opened by their names.

ghost use Rattle.std.specs.Prelude.{◌≡◌, IfOk, ℕ, List, Option};

use bz_cli_args::Cause;
use std::io::Read;

/// Traces that have names.
pub trait Traces {
    type Trace: Read + Drop;

    // What the trace of a name is, where that is known.
    ghost text: { Self → List ℕ → Option (List ℕ) };

    /// The trace of this name, or why it can't be read.
    fn open(&self, name: &str) -> Result<Self::Trace, Cause>
        ensures { IfOk result (λ trace. Self.Trace.remaining trace ≡ text self.now name.now) };
}
