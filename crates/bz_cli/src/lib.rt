//! The commands of `breezesim`, over any reader and writer: those of `bz_cli_core`, and `pool`.
#![tactic(auto)]

mod laws;
mod pooling;

pub use bz_cli_core::{Fault, INPUT_LIMIT, InputFault, Stop, list_cmd, read_input, run_cmd};
pub use laws::pools_are_accepted;
pub use pooling::{PoolOptions, Pooled, pool_cmd};
