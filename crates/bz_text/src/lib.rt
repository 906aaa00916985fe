//! The text kit: what every crate that writes text for people shares.
//!
//! - `put` and `put_pieces` write bytes and pieces of a line into any writer, taking no memory, with exact contracts;
//!   `WriteFault` is their one fault.
//! - `Text` is put together in memory before it goes out, and keeps its fault.
//! - `put_json` writes a text as a string of JSON; that of a `Text` takes bytes that are no UTF-8 too.
//! - `NameForm` and `put_name` show a name: printable bytes as they are, all others by number.
#![tactic(auto)]

mod file_name;
mod json;
mod name_form;
mod output;
mod pieces;
mod text;

pub use json::put_json;
pub use name_form::{NameForm, hex_digit, is_plain, put_name};
pub use output::{WriteFault, put};
pub use pieces::{Piece, put_pieces};
pub use text::{Put, Text};
