//! The command line of the program: what it takes, its help, and what the files have that it names.
//!
//! A file that can't be opened is an `error:` line with status 2 before anything else is read or written: a mistake of the
//! command line.
#![tactic(auto)]

mod asked;
mod commands;
mod files;
mod given;
mod help;
mod options;
mod refusal;
mod request;
mod statuses;
mod words;

pub use asked::{
    ChartOptions, CheckOptions, Command, CompleteOptions, DrawOptions, ExploreOptions,
    FormatOptions, LintOptions, ListOptions, PoolOptions, RunOptions, SeedsAsked, Source, TestForm,
    TestOptions, TraceOptions, WaitsOptions,
};
pub use commands::command_line;
pub use files::{Cause, bytes_of_file, is_file, open_file, tell_unreadable};
pub use given::{Given, Texts, netlist_in};
pub use options::{MAX_JOURNAL, MAX_WORKERS};
pub use refusal::Refusal;
pub use request::{
    Error, PartName, Request, Told, mistake_in, request_of, shared_stdin, stray_word, tell_error,
};
pub use statuses::{ASKED, BAD_COMMAND_LINE, DONE, NO_RUN};
pub use words::{ArgsFault, split_names, split_words, word_starts, words_of};
