//! Why the program ends before its command begins.

use crate::files::Cause;
use crate::words::ArgsFault;

/// Why the program ends before its command begins.
#[derive(Clone, Copy)]
pub enum Refusal<'a> {
    /// What is wrong with the command line.
    Line(&'static str),
    /// Standard input would have both the netlist and this.
    Shared(&'static str),
    /// A file of this name that the command line names can't be read.
    File(&'a str, Cause),
    /// Standard input can't be read.
    Read,
    /// The help could not be written.
    Write,
    Memory,
}

impl From<ArgsFault> for Refusal<'_> {
    fn from(fault: ArgsFault) -> Self {
        match fault {
            ArgsFault::NotText => Refusal::Line("a word of the command line is not UTF-8"),
            ArgsFault::Memory => Refusal::Memory,
        }
    }
}
