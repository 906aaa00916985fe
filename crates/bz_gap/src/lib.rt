//! Gaps in the heap, where long lists lie that would lie outside of it
#![tactic(auto)]

mod heap;

pub use heap::gap;
