//! The statuses with which the program ends.

/// The status of a command that was done.
pub const DONE: u8 = 0;

/// The status of a trace that is not that of a run.
pub const NO_RUN: u8 = 1;

/// The status of a bad command line.
pub const BAD_COMMAND_LINE: u8 = 2;

/// The status of what `--strict` asks about: a host command was not done, a session still waited, or something is stuck.
pub const ASKED: u8 = 4;
