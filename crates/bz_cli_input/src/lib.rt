//! What each command begins with: the input, the net that it denotes, the faults and their statuses; and the command `list`.
#![tactic(auto)]

mod fault;
mod input;
mod list;
mod listing;
mod netlist;
mod refusal;
mod sending;
mod tops;
mod uses;

pub use fault::Fault;
pub use input::{INPUT_LIMIT, InputFault, read_input};
pub use list::list_cmd;
pub use listing::{chan_at, print_head, print_port, print_ports};
pub use netlist::{Netlist, flat_of, flat_of_input};
pub use refusal::in_part;
pub use sending::send_all;
pub use uses::{mark_used, used_by_others};
