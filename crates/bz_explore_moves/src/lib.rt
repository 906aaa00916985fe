//! What `moves` and `passed` write of a net: the moves that components can make and the words of the host that would be
//! answered, as lines and as JSON, and the values that passed at ports.
//!
//! This is a crate of its own so that its wrong bodies are tried without the many functions of `bz_explore` that have no
//! contract. It takes `put_pieces` and not `say`: the text of an array of pieces is known at the call, without a lemma for
//! each form.
#![tactic(auto)]

mod moves;
mod objects;
mod passed;

pub use moves::put_moves;
pub use objects::{
    put_move_members, put_move_objects, put_next, put_value_member, put_word_members,
};
pub use passed::{first_other, passed_at, put_came, put_passed};
