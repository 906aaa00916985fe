//! A list of nodes that never move, each under an id that stays good.
#![tactic(auto)]

mod arena;
mod block;
mod chunk;
mod full;
mod id;
mod pair;

pub use arena::Arena;
pub use id::{Id, Ids};
