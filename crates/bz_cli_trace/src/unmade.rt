//! Why nothing is made of the trace of a run.

use bz_cli_input::Fault;

/// Why nothing is made of the trace of a run. `C` is what the command itself says.
#[derive(Drop)]
pub enum Unmade<C> {
    /// The writer failed, or memory was refused.
    Command(Fault),
    Other(C),
}
