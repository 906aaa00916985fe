//! A net as people are shown it: what its components, channels and ports are called and where they come from, the pieces of such
//! texts, and who waits for whom in it.
//!
//! What `moves` writes has a contract, so how names, places and ports are written within a line has one too. That goes by
//! `put_pieces` and not by `say`: the text of an array of pieces is known at the call, without a lemma for each form.
#![tactic(auto)]

mod chain;
mod cutting;
mod hung;
mod naming;
mod parts;
mod piece;
mod roots;
mod seen;
mod shown;
mod stuck;
mod waiting;
mod waits;
mod why;

pub use chain::{put_chain, put_chain_of};
pub use cutting::{HALVES, MORE, count_lines, put_left_out};
pub use naming::{
    put_host_word, put_instance, put_name, put_port, put_source, put_typed, put_typed_json,
};
pub use parts::{fill, gathered, put_in_line};
pub use piece::{Piece, Spot, copy_of, put_json_lines, put_label, put_phase, say_json};
pub use seen::{Seen, Thing, chan_at, chan_of, kind_of, port_count, port_name, port_of};
pub use shown::Shown;
pub use stuck::{put_ring_rows, put_stuck};
pub use waits::{graph_of, put_ends, put_held};
pub use why::{put_all_waits, put_rest, put_waits, put_waits_of};
