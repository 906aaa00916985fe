//! Words of the command line as commands, for one session or several.
#![tactic(auto)]

mod host_words;
mod words;

pub use host_words::parse_host_words;
pub use words::{MAX_SESSIONS, SessionError, command, parse_words, read_name};
