//! A play of a bench, and the case that it makes.

ghost use Rattle.std.specs.Prelude.{◌≡◌, length, IfOk};
ghost use Rattle.bz_cli_bench.specs.Cases.{IsPlay, IsPlayed};

use crate::asked::{At, Trial};
use crate::case::Case;
use crate::counted::Counted;
use crate::ended::Unlike;
use crate::files::BenchFiles;
use crate::learning::Came;
use crate::opened::Opened;
use crate::plan::Plan;
use crate::playing::{Played, learn, play};
use crate::told::told_of;
use crate::traces::keep_trace;
use crate::unlike::first_unlike;
use crate::verdict::Verdict;
use bz_bench::Tally;
use bz_cli_input::Fault;
use std::mem;

/// The most entries that the journal of a play may have.
const MAX_JOURNAL: u32 = 16_777_216;

/// A bench on a net.
#[derive(Clone, Copy)]
pub(crate) struct Setting<'s> {
    pub trial: Trial<'s>,
    pub at: At<'s>,
    pub opened: &'s Opened,
    pub plan: &'s Plan,
}

/// What passed at each port where a bench passed first, and the seed.
#[derive(Drop)]
pub(crate) struct Had {
    pub seed: Option<u64>,
    pub tallies: Vec<Tally>,
}

impl Had {
    /// What passed in a play, which has nothing of it then.
    pub(crate) fn of(setting: Setting<'_>, seed: Option<u64>, played: &mut Played) -> Had {
        let tallies = mem::replace(&mut played.tallies, Vec::new(setting.trial.alloc));
        Had { seed, tallies }
    }
}

/// The case of a bench that is played by a seed. `had` is of the first one that passed, if there is one by then.
pub(crate) fn case_of<F: BenchFiles>(
    setting: Setting<'_>,
    seed: Option<u64>,
    had: &mut Option<Had>,
    counted: &mut Counted,
    files: &mut F,
) -> Result<Case, Fault>
    requires { length setting.plan.now.streams.items ≡ length setting.opened.now.ports }
    ensures { IfOk result (IsPlay setting.entry.at.place seed) }
{
    match played(setting, seed) {
        Ok(mut played) => case_in(setting, seed, &mut played, had, counted, files),
        Err(fault) => Err(fault),
    }
}

/// What comes at each port of a net where any values may come in place of those that are due, if the play comes to its end.
pub(crate) fn learnt(setting: Setting<'_>) -> Result<Option<Vec<Vec<Came>>>, Fault> {
    let Trial { alloc, asked, .. } = setting.trial;
    let journal = asked.journal.max(1).min(MAX_JOURNAL);
    let Ok(flat) = setting.opened.flat().dup(alloc) else {
        return Err(Fault::Memory);
    };
    match learn(
        alloc,
        flat,
        setting.plan,
        asked.seeds.at(0),
        asked.fuel,
        journal,
    ) {
        Ok(learnt) => Ok(learnt),
        Err(_) => Err(Fault::Memory),
    }
}

/// Plays the bench.
pub(crate) fn played(setting: Setting<'_>, seed: Option<u64>) -> Result<Played, Fault>
    requires { length setting.plan.now.streams.items ≡ length setting.opened.now.ports }
    ensures { IfOk result (λ p. IsPlayed p.verdict) }
{
    let Trial { alloc, asked, .. } = setting.trial;
    let journal = asked.journal.max(1).min(MAX_JOURNAL);
    let Ok(flat) = setting.opened.flat().dup(alloc) else {
        return Err(Fault::Memory);
    };
    match play(alloc, flat, setting.plan, seed, asked.fuel, journal) {
        Ok(played) => Ok(played),
        Err(_) => Err(Fault::Memory),
    }
}

// The case of a play. Where it failed its trace is kept, if that is asked for.
fn case_in<F: BenchFiles>(
    setting: Setting<'_>,
    seed: Option<u64>,
    played: &mut Played,
    had: &mut Option<Had>,
    counted: &mut Counted,
    files: &mut F,
) -> Result<Case, Fault>
    requires { IsPlayed played.old.verdict }
    ensures { IfOk result (IsPlay setting.entry.at.place seed) }
{
    if setting.trial.asked.cover.is_some() {
        counted.add(setting.trial.alloc, played.stepping.net())?;
    }
    let mut case = told_case(setting, seed, &*played, had.as_ref())?;
    if !case.is_passed() {
        case.note_unkept(keep_trace(setting, seed, &*played, files)?);
    } else if had.is_none() {
        *had = Some(Had::of(setting, seed, played));
    }
    Ok(case)
}

// The case of a play, with what is told of it.
fn told_case(
    setting: Setting<'_>,
    seed: Option<u64>,
    played: &Played,
    had: Option<&Had>,
) -> Result<Case, Fault>
    requires { IsPlayed played.now.verdict }
    ensures { IfOk result (IsPlay setting.entry.at.place seed) }
{
    let place = setting.at.place;
    let unlike = unlike_of(setting, played, had);
    match told_of(setting, played, unlike) {
        Ok(told) => match unlike {
            Some(unlike) => Ok(Case::unlike(place, seed, unlike, told)),
            None => Ok(Case::judged(place, seed, played.verdict, told)),
        },
        Err(_) => Err(Fault::Memory),
    }
}

// What passed otherwise than in the first play that passed, if this one did.
fn unlike_of(setting: Setting<'_>, played: &Played, had: Option<&Had>) -> Option<Unlike> {
    match (played.verdict, had) {
        (Verdict::Passed, Some(had)) => first_unlike(setting.opened.flat(), had, &played.tallies),
        _ => None,
    }
}
