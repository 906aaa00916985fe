//! What traces are checked against, and what became of one.

ghost use Rattle.std.specs.Prelude.{◌≡◌};
ghost use Rattle.bz_cli_several.specs.Fates.{added, status_one};

use bz_cli_args::{BAD_COMMAND_LINE, DONE, NO_RUN};
use bz_cli_trace::CheckWay;
use bz_source::Survey;

/// What each trace is checked against, and what is asked of it.
#[derive(Clone, Copy)]
pub(crate) struct Judge<'n, 'p, 's> {
    pub(crate) netlist: &'n [u8],
    /// The name of the part to open, where one is given.
    pub(crate) part: Option<&'p [u8]>,
    /// Where everything in the net stands in its text, where notes, objects or counts are asked for.
    pub(crate) survey: Option<&'s Survey>,
    pub(crate) way: CheckWay,
    /// Whether an object is written for each trace, in place of a line.
    pub(crate) json: bool,
}

/// What became of a trace.
#[derive(Clone, Copy)]
pub enum Fate {
    Passed,
    Failed,
    Unread,
}

impl Fate {
    // The status of a call with this trace alone.
    fn status(self) -> u8
        ensures { result ≡ status_one self }
    {
        match self {
            Fate::Passed => DONE,
            Fate::Failed => NO_RUN,
            Fate::Unread => BAD_COMMAND_LINE,
        }
    }
}

/// How many traces passed, failed, or could not be read, and the gravest of their statuses.
#[derive(Clone, Copy)]
pub struct Tally {
    pub passed: u64,
    pub failed: u64,
    pub unread: u64,
    pub status: u8,
}

impl Tally {
    pub(crate) const NONE: Tally = Tally {
        passed: 0,
        failed: 0,
        unread: 0,
        status: DONE,
    };

    /// One trace more.
    pub(crate) fn add(&mut self, fate: Fate)
        ensures { self.new ≡ added self.old fate }
    {
        match fate {
            Fate::Passed => self.passed = self.passed.saturating_add(1),
            Fate::Failed => self.failed = self.failed.saturating_add(1),
            Fate::Unread => self.unread = self.unread.saturating_add(1),
        }
        self.status = self.status.max(fate.status());
    }
}
