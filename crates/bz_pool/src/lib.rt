//! What a session plays on a shared net, and sessions and workers on threads of their own. A worker's hints are those of `bz_pool_hints`, which it passes on.
#![tactic(auto)]

mod crew;
mod playing;
mod pool;
mod raids;
mod work;

pub use bz_pool_hints::{FIRST_CAPACITY, HintOwner, HintPass, HintThief, Memory, Stolen, hints};
pub use playing::{End, play};
pub use pool::{PoolError, run_pool};
pub use work::Gate;
