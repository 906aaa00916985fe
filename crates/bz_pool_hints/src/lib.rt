//! A worker's hints: a deque without a lock that its owner fills and empties, and that others steal from.
#![tactic(auto)]

mod hint;

pub use hint::{FIRST_CAPACITY, HintOwner, HintPass, HintThief, Memory, Stolen, hints};
