//! The command `run`, over any reader and writer; `list` is passed on from `bz_cli_input`.
#![tactic(auto)]

mod open;
mod pending;
mod playing;
mod run;

pub use bz_cli_input::{Fault, INPUT_LIMIT, InputFault, list_cmd, read_input};
pub use open::{TextPlay, open_net, play_text};
pub use playing::{Halt, Stop};
pub use run::{Played, run_cmd, run_in_pieces, write_out};
