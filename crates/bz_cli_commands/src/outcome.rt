//! What comes of a command.

ghost use Rattle.std.specs.Prelude.{◌≡◌, Ok};

use bz_cli::Pooled;
use bz_cli_core::Played;
use bz_cli_input::Fault;
use bz_cli_several::Covered;
use bz_cli_trace::Case;
use bz_cover::Coverage;
use bz_net::Core;

/// What comes of a command.
pub struct Outcome {
    /// The status with which the program ends, or the fault that it ends with.
    pub status: Result<u8, Fault>,
    /// A trace that was judged, and the net, for notes on the line that it refused.
    pub case: Option<Case>,
    /// What was played to its end, for notes where it rests, and for a report on it.
    pub ended: Option<Ended>,
    /// What a run exercised, where that was counted.
    pub coverage: Option<Coverage>,
    /// What is told of what several traces exercised.
    pub covered: Option<Covered>,
}

/// What was played to its end.
#[derive(Drop)]
pub enum Ended {
    Run(Played),
    Pool(Pooled),
}

impl Ended {
    /// The net as it was left.
    pub fn net(&self) -> &Core {
        match self {
            Ended::Run(played) => played.net.core(),
            Ended::Pool(pooled) => pooled.net.core(),
        }
    }

    /// Whether a strict run halted, so that no note says why it goes no further.
    pub fn halted(&self) -> bool {
        match self {
            Ended::Run(played) => played.halt.is_some(),
            Ended::Pool(_) => false,
        }
    }
}

// By hand, so that who lets one go has one call to show and not all its parts.
impl Drop for Outcome {
    fn drop(self) {
        let Outcome {
            status: _,
            case: _,
            ended: _,
            coverage: _,
            covered: _,
        } = self;
    }
}

impl Outcome {
    /// A status alone.
    pub fn of(status: Result<u8, Fault>) -> Outcome
        ensures { result.status ≡ status }
    {
        Outcome {
            status,
            case: None,
            ended: None,
            coverage: None,
            covered: None,
        }
    }

    /// A trace was judged, and the command ends with this status.
    pub(crate) fn judged(status: u8, case: Case) -> Outcome
        ensures { result.status ≡ Ok status }
    {
        Outcome {
            status: Ok(status),
            case: Some(case),
            ended: None,
            coverage: None,
            covered: None,
        }
    }

    /// All was played, which ends with this status; where that is wanted, what was played goes with it.
    pub(crate) fn played(status: u8, ended: Ended, keeps: bool) -> Outcome
        ensures { result.status ≡ Ok status }
    {
        Outcome {
            status: Ok(status),
            case: None,
            ended: if keeps { Some(ended) } else { None },
            coverage: None,
            covered: None,
        }
    }

    /// Several traces were checked, with what is told of what they exercised.
    pub fn several(status: Result<u8, Fault>, covered: Option<Covered>) -> Outcome
        ensures { result.status ≡ status }
    {
        Outcome {
            status,
            case: None,
            ended: None,
            coverage: None,
            covered,
        }
    }

    /// The same with what was counted of the trace.
    pub(crate) fn counted(self, coverage: Option<Coverage>) -> Outcome
        ensures { result.status ≡ self.status }
    {
        let Outcome {
            status,
            case,
            ended,
            coverage: _,
            covered,
        } = self;
        Outcome {
            status,
            case,
            ended,
            coverage,
            covered,
        }
    }

    /// The status, the trace that was judged, what was played, and what was counted of one trace or told of several.
    pub fn into_parts(
        self,
    ) -> (
        Result<u8, Fault>,
        Option<Case>,
        Option<Ended>,
        Option<Coverage>,
        Option<Covered>,
    ) {
        let Outcome {
            status,
            case,
            ended,
            coverage,
            covered,
        } = self;
        (status, case, ended, coverage, covered)
    }
}

impl From<Fault> for Outcome {
    fn from(fault: Fault) -> Outcome {
        Outcome::of(Err(fault))
    }
}
