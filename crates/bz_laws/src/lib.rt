//! Laws of the kinds of components, over their processes alone.
#![tactic(auto)]

mod kinds;

pub use kinds::{
    arbiter_calls_one_side_at_a_time, call_serves_one_at_a_time, concur_waits_for_all,
    fetch_pushes_what_it_pulled, sequence_asks_in_order, variable_replies_what_was_written,
};
