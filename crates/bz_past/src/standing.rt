//! How a session stands under the lock, and when it turned so.

use bz_model::{Verb, Who};

/// A session runs, or waits for an answer to a command at a port, or has ended.
#[derive(Clone, Copy, PartialEq, Eq)]
pub enum Standing {
    Running,
    Waiting(Verb, u32),
    Ended,
}

/// This session stands so from then on: the journal had so many entries. No value of it is made.
#[derive(Clone, Copy)]
pub struct Turn {
    pub who: Who,
    pub at: u64,
    pub standing: Standing,
}
