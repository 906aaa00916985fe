//! What a case came to.

ghost use Rattle.std.specs.Prelude.{◌≡◌, true};
ghost use Rattle.bz_cli_bench.specs.Cases.{IsFailed, IsPassed, IsPlayed, is_unplayed, is_unwritten, status_of};

use crate::blessing::Blessing;
use crate::ended::{Ended, REFUSED, Unlike};
use crate::verdict::Verdict;
use bz_bench::{Cause, Spot};
use std::alloc::Global;
use std::marker::Model;

/// Something of a group of lines and those above it that has not passed at a port: how many handshakes were begun, how many were
/// ended, and how many there are.
#[derive(Drop)]
pub struct Short {
    pub port: Vec<u8>,
    pub begun: usize,
    pub ended: usize,
    pub due: usize,
}

/// What is told of a case beside how it ended.
#[derive(Drop)]
pub struct Told {
    /// The name of the port that it ended at.
    pub port: Vec<u8>,
    /// The line of the trace with which another value came than was due, or else the last one.
    pub line: usize,
    /// The line of the trace after which all was as it is after the last one, or else after which no word was done.
    pub from: usize,
    /// What is short, where nothing more comes.
    pub short: Vec<Short>,
    /// Who waits for whom then, or what has gone round, line by line; or why there is no net.
    pub why: Vec<u8>,
    pub fired: usize,
    pub words: usize,
    /// Why its trace was not kept.
    pub unkept: Option<&'static str>,
    /// What came of its bench's blessing; of several cases of a bench the first has it.
    pub blessing: Blessing,
}

impl Told {
    /// Nothing.
    pub(crate) fn none(alloc: Global) -> Told {
        Told {
            port: Vec::new(alloc),
            line: 0,
            from: 0,
            short: Vec::new(alloc),
            why: Vec::new(alloc),
            fired: 0,
            words: 0,
            unkept: None,
            blessing: Blessing::None,
        }
    }

    // Whether the bench is missing that was to be written. (That its trace was not kept says nothing of the case.)
    fn is_unwritten(&self) -> bool
        ensures { result ≡ is_unwritten self.now.blessing }
    {
        matches!(self.blessing, Blessing::Unwritten(_))
    }
}

/// A case: a bench that was played, or that could not be.
pub struct Case {
    ended: Ended,
    /// The place of the bench among those of the call.
    bench: usize,
    seed: Option<u64>,
    told: Told,
}

// By hand, so that who lets one go has one call to show and not all its parts.
impl Drop for Case {
    fn drop(self) {
        let Case {
            ended: _,
            bench: _,
            seed: _,
            told: _,
        } = self;
    }
}

impl Model for Case {
    ghost use Rattle.bz_cli_bench.specs.Cases.{CaseSeen, IsCase, is_unwritten};

    ghost Value = { CaseSeen };

    ghost view = { λ c. record { ended = c.ended; bench = c.bench; seed = c.seed; unwritten = is_unwritten c.told.blessing } };

    ghost invariant = { λ c. IsCase c.ended };
}

impl Case {
    /// A case that was played and ended by this verdict.
    pub(crate) fn judged(bench: usize, seed: Option<u64>, verdict: Verdict, told: Told) -> Case
        requires { IsPlayed verdict }
        ensures ended { result.ended ≡ Ended.Judged verdict }
        ensures bench { result.bench ≡ bench }
        ensures seed { result.seed ≡ seed }
    {
        Case {
            ended: Ended::Judged(verdict),
            bench,
            seed,
            told,
        }
    }

    /// A case that passed, but not with the values of another.
    pub(crate) fn unlike(bench: usize, seed: Option<u64>, unlike: Unlike, told: Told) -> Case
        ensures bench { result.bench ≡ bench }
        ensures seed { result.seed ≡ seed }
    {
        Case {
            ended: Ended::Unlike(unlike),
            bench,
            seed,
            told,
        }
    }

    /// A case whose bench is none.
    pub(crate) fn bad_bench(bench: usize, at: Spot, cause: Cause, told: Told) -> Case
        ensures bench { result.bench ≡ bench }
        ensures unplayed { is_unplayed result.ended ≡ true }
    {
        Case {
            ended: Ended::BadBench(at, cause),
            bench,
            seed: None,
            told,
        }
    }

    /// A case that has no net.
    pub(crate) fn no_net(bench: usize, told: Told) -> Case
        ensures bench { result.bench ≡ bench }
        ensures unplayed { is_unplayed result.ended ≡ true }
    {
        Case {
            ended: Ended::NoNet,
            bench,
            seed: None,
            told,
        }
    }

    /// How it ended.
    pub fn ended(&self) -> Ended
        ensures { result ≡ self.now.ended }
    {
        self.ended
    }

    /// The place of its bench among those of the call.
    pub fn bench(&self) -> usize {
        self.bench
    }

    pub fn seed(&self) -> Option<u64> {
        self.seed
    }

    pub fn told(&self) -> &Told {
        &self.told
    }

    /// Notes why its trace was not kept, where it was to be.
    pub(crate) fn note_unkept(&mut self, why: Option<&'static str>)
        ensures { self.new ≡ self.old }
    {
        self.told.unkept = why;
    }

    /// Whether its bench passed.
    pub fn is_passed(&self) -> bool {
        matches!(self.ended, Ended::Judged(Verdict::Passed))
    }

    /// The status of a call that has this case alone.
    pub(crate) fn status(&self) -> u8
        ensures status { result ≡ status_of self.now }
        ensures passed { result ≡ 0 → IsPassed self.now }
        ensures failed { result ≡ 1 → IsFailed self.now }
    {
        let ended = self.ended();
        if self.told.is_unwritten() {
            REFUSED
        } else {
            ended.status()
        }
    }
}
