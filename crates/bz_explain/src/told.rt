//! The notes that are the same whatever the netlist and the words.

use bz_cli_input::Fault;
use bz_model::{NetError, Who};

/// A journal without room for one entry more.
pub(crate) const FULL: &str = "found: a journal that has as many entries as it may have\n\
    expected: fewer events, or --journal with a greater number, up to 16777216";

pub(crate) const MEMORY: &str = "found: a want of memory\n\
    expected: more memory, or a smaller netlist or journal";

const DISCORD: &str = "found: a record or share that is no part of the journal\n\
    expected: records that agree with it: this is an error of the program itself";

const NO_THREAD: &str = "found: a thread that could not be started\n\
    expected: a thread for each session and each worker";

const READ: &str = "found: an input that can't be read, or has more than 67108864 bytes\n\
    expected: a netlist of at most 67108864 bytes";

const WRITE: &str = "found: an output that took not all that was written\n\
    expected: an output with room, as a file or a pipe that is read to its end";

/// What is told of a fault that says all by itself.
pub(crate) fn told_of(fault: &Fault) -> Option<&'static str> {
    match fault {
        Fault::Event { error, .. } if *error == NetError::JournalFull => Some(FULL),
        Fault::Ended { who, .. } if matches!(who, Who::Worker(_)) => Some(FULL),
        Fault::Discord { .. } => Some(DISCORD),
        Fault::NoThread => Some(NO_THREAD),
        Fault::Read => Some(READ),
        Fault::Write => Some(WRITE),
        Fault::Memory => Some(MEMORY),
        Fault::Text(_)
        | Fault::Word(_)
        | Fault::Part(_)
        | Fault::Top(_)
        | Fault::Net { .. }
        | Fault::Event { .. }
        | Fault::Ended { .. } => None,
    }
}
