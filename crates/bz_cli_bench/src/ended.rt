//! How a case ends.

ghost use Rattle.std.specs.Prelude.{◌≡◌, true};
ghost use Rattle.bz_cli_bench.specs.Cases.{is_failed, status_by};

use crate::verdict::Verdict;
use bz_bench::{Cause, Spot};
use bz_model::Value;

/// The status of a call whose cases all passed.
pub(crate) const DONE: u8 = 0;

/// The status of a case in which a net does not what its bench says.
pub(crate) const FAILED: u8 = 1;

/// The status of a bench that is none, or that has no net.
pub(crate) const REFUSED: u8 = 2;

/// The status of a case that came to no end.
pub(crate) const SPENT: u8 = 4;

/// With an item of a port other values came under two seeds.
#[derive(Clone, Copy)]
pub struct Unlike {
    pub port: u32,
    /// The item's place among those of the port, from 0.
    pub place: usize,
    /// The seed before, and what came under it.
    pub before: Option<u64>,
    pub had: Option<Value>,
    pub came: Option<Value>,
}

/// How a case ended.
#[derive(Clone, Copy)]
pub enum Ended {
    /// Its bench was played, and this is the verdict.
    Judged(Verdict),
    /// It passed, but not with the values that came under another seed.
    Unlike(Unlike),
    /// Its bench is none, here.
    BadBench(Spot, Cause),
    /// Its bench or its netlist can't be read, or the netlist is refused.
    NoNet,
}

impl Ended {
    /// The status of a call that has one case alone, which ended so.
    pub(crate) fn status(self) -> u8
        ensures status { result ≡ status_by self }
        ensures passed { result ≡ 0 → self ≡ Ended.Judged Verdict.Passed }
        ensures failed { result ≡ 1 → is_failed self ≡ true }
    {
        match self {
            Ended::Judged(Verdict::Passed) => DONE,
            Ended::Judged(Verdict::Spent) => SPENT,
            Ended::Judged(_) | Ended::Unlike(_) => FAILED,
            Ended::BadBench(_, _) | Ended::NoNet => REFUSED,
        }
    }
}
