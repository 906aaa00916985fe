//! What `test` is asked.

ghost use Rattle.std.specs.Prelude.{◌≡◌};
ghost use Rattle.bz_cli_bench.specs.Cases.{more_of, seed_at};

use crate::blessing::Blessing;
use std::alloc::Global;

/// How cases are told.
#[derive(Clone, Copy)]
pub enum Form {
    Text,
    Json,
    Junit,
}

/// By which seeds each bench is played.
#[derive(Clone, Copy)]
pub enum Seeds {
    /// By none, in the one order that there is then.
    Without,
    One(u64),
    /// By each from 1 up to this one.
    Upto(u32),
}

impl Seeds {
    /// How often a bench is played behind the first time.
    pub(crate) fn more(self) -> u32
        ensures { result ≡ more_of self }
    {
        match self {
            Seeds::Without | Seeds::One(_) => 0,
            Seeds::Upto(last) => last.saturating_sub(1),
        }
    }

    /// The seed of a round. Rounds count from 0.
    pub(crate) fn at(self, round: u32) -> Option<u64>
        ensures { result ≡ seed_at self round }
    {
        match self {
            Seeds::Without => None,
            Seeds::One(seed) => Some(seed),
            Seeds::Upto(_) => Some(u64::from(round) + 1),
        }
    }
}

/// What `test` is asked.
#[derive(Clone, Copy)]
pub struct Asked<'a> {
    /// The files of the benches.
    pub benches: &'a [&'a str],
    /// The name of the netlist that takes the place of those that benches name, where there is one.
    pub netlist: Option<&'a str>,
    /// The name of the part that takes the place of those that benches name, where there is one.
    pub part: Option<&'a [u8]>,
    pub seeds: Seeds,
    /// The most firings of a play.
    pub fuel: u64,
    /// The most entries of a play.
    pub journal: u32,
    /// The folder in which the traces of cases that failed are kept, where that is asked for.
    pub traces: Option<&'a str>,
    /// The file to which is written what the plays exercised, where that is asked for.
    pub cover: Option<&'a str>,
    pub form: Form,
    /// Whether what came is written into benches that don't pass.
    pub blesses: bool,
}

/// What is the same for all benches.
#[derive(Clone, Copy)]
pub(crate) struct Trial<'a> {
    pub alloc: Global,
    pub asked: Asked<'a>,
    /// The text of the netlist that takes the place of those that benches name, where there is one.
    pub text: Option<&'a [u8]>,
    /// The names of the benches, in their order.
    pub names: &'a [&'a str],
}

/// A bench of the call, and its place among them.
#[derive(Clone, Copy)]
pub(crate) struct At<'a> {
    pub place: usize,
    pub path: &'a str,
    pub blessing: Blessing,
}
