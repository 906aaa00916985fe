//! Benches that don't pass, into which what came is written.
//!
//! A bench that fails is played once more, with any values in place of those that are due. These are put into its text. That
//! is written only where it passes by each seed.

ghost use Rattle.std.specs.Prelude.{◌≡◌, length};

use crate::amending::amended;
use crate::asked::{At, Trial};
use crate::files::{BenchFiles, FileFault};
use crate::learning::Came;
use crate::nets::{Found, Nets};
use crate::opened::Opened;
use crate::plan::plan_of;
use crate::playing::Played;
use crate::reading::{Refusal, bench_in};
use crate::rounds::place_of;
use crate::setting::{Had, Setting, learnt, played};
use crate::unlike::first_unlike;
use crate::verdict::Verdict;
use bz_bench::{Bench, BenchFault};
use bz_cli_input::Fault;
use std::str;

/// Why a bench is left as it is whose play comes to no end.
const UNENDED: &str = "it is left as it is: not all that it gives passes, or the play is too long";

/// Why a bench is left as it is that has what came by the first seed.
const UNLIKE: &str = "it is left as it is: by another order other values come";

/// Why a bench is left as it is that was none when it was read first.
const UNREAD: &str = "it is left as it is: it could not be read whole";

/// What came of a bench's blessing.
#[derive(Clone, Copy)]
pub enum Blessing {
    /// It was not asked for, the bench passes, or it is not played.
    None,
    /// What came was written into the bench.
    Written,
    /// The bench is left as it is, for this reason.
    Kept(&'static str),
    /// The file can't be read or written, for this reason.
    Unwritten(&'static str),
}

/// Writes what comes into a bench that does not pass, where that is asked for.
pub(crate) fn bless<F: BenchFiles>(
    trial: Trial<'_>,
    at: At<'_>,
    nets: &mut Nets,
    files: &mut F,
) -> Result<Blessing, Fault> {
    if !trial.asked.blesses {
        return Ok(Blessing::None);
    }
    match files.read(trial.alloc, at.path) {
        Ok(bytes) => match str::from_utf8(bytes.as_slice()) {
            Ok(text) => bless_text(trial, at, text, nets, files),
            Err(_) => Ok(Blessing::None),
        },
        Err(why) => unwritten(why),
    }
}

// Blesses the bench that a text spells, if it spells one.
fn bless_text<F: BenchFiles>(
    trial: Trial<'_>,
    at: At<'_>,
    text: &str,
    nets: &mut Nets,
    files: &mut F,
) -> Result<Blessing, Fault> {
    match bench_in(trial.alloc, at.path, text, files) {
        Ok(bench) => bless_bench(trial, at, text, &bench, nets, files),
        Err(why) => unplayed(why),
    }
}

// Blesses a bench, if it has a net.
fn bless_bench<F: BenchFiles>(
    trial: Trial<'_>,
    at: At<'_>,
    text: &str,
    bench: &Bench,
    nets: &mut Nets,
    files: &mut F,
) -> Result<Blessing, Fault> {
    match place_of(trial, at, bench, nets, files) {
        Ok(place) => match nets.at(place) {
            Some(known) => match &known.found {
                Found::Net(opened) => bless_on(trial, at, text, bench, opened, files),
                Found::Refused(_) => Ok(Blessing::None),
            },
            None => Ok(Blessing::None),
        },
        Err(why) => unplayed(why),
    }
}

// Blesses a bench on its net, if its lines belong there.
fn bless_on<F: BenchFiles>(
    trial: Trial<'_>,
    at: At<'_>,
    text: &str,
    bench: &Bench,
    opened: &Opened,
    files: &mut F,
) -> Result<Blessing, Fault> {
    match plan_of(trial.alloc, opened.flat(), bench) {
        Ok(plan) => {
            let setting = Setting {
                trial,
                at,
                opened,
                plan: &plan,
            };
            bless_plan(setting, text, bench, files)
        }
        Err(why) => unplayed(Refusal::from(why)),
    }
}

// A bench whose file can't be read or written is not blessed.
fn unwritten(why: FileFault) -> Result<Blessing, Fault> {
    match why {
        FileFault::Memory => Err(Fault::Memory),
        FileFault::Cause(why) => Ok(Blessing::Unwritten(why)),
    }
}

// A bench that is not played is not blessed. (Where it is played when it is read again, that is told.)
fn unplayed(why: Refusal) -> Result<Blessing, Fault> {
    match why {
        Refusal::Memory => Err(Fault::Memory),
        Refusal::Bench(_, _) | Refusal::NoNet(_) => Ok(Blessing::Unwritten(UNREAD)),
    }
}

// Blesses a bench that can be played, if it does not pass.
fn bless_plan<F: BenchFiles>(
    setting: Setting<'_>,
    text: &str,
    bench: &Bench,
    files: &mut F,
) -> Result<Blessing, Fault>
    requires { length setting.plan.now.streams.items ≡ length setting.opened.now.ports }
{
    if passes(setting)? {
        return Ok(Blessing::None);
    }
    match learnt(setting) {
        Ok(Some(values)) => bless_with(setting, text, bench, &values, files),
        Ok(None) => Ok(Blessing::Kept(UNENDED)),
        Err(fault) => Err(fault),
    }
}

// Writes the values that came at each port into a bench, if it passes then.
fn bless_with<F: BenchFiles>(
    setting: Setting<'_>,
    text: &str,
    bench: &Bench,
    values: &[Vec<Came>],
    files: &mut F,
) -> Result<Blessing, Fault> {
    let amended = amended(setting, text, bench, values)?;
    let bytes = amended.whole()?;
    if !would_pass(setting, bytes, files)? {
        return Ok(Blessing::Kept(UNLIKE));
    }
    match files.replace(setting.at.path, bytes) {
        Ok(()) => Ok(Blessing::Written),
        Err(why) => unwritten(why),
    }
}

// Whether these are the bytes of a bench that passes on the same net.
fn would_pass<F: BenchFiles>(
    setting: Setting<'_>,
    bytes: &[u8],
    files: &mut F,
) -> Result<bool, Fault> {
    let Ok(text) = str::from_utf8(bytes) else {
        return Ok(false);
    };
    match bench_in(setting.trial.alloc, setting.at.path, text, files) {
        Ok(bench) => would_pass_on(setting, &bench),
        Err(Refusal::Memory) => Err(Fault::Memory),
        Err(_) => Ok(false),
    }
}

fn would_pass_on(setting: Setting<'_>, bench: &Bench) -> Result<bool, Fault> {
    let Setting {
        trial,
        at,
        opened,
        ..
    } = setting;
    match plan_of(trial.alloc, opened.flat(), bench) {
        Ok(plan) => passes(Setting {
            trial,
            at,
            opened,
            plan: &plan,
        }),
        Err(BenchFault::Memory) => Err(Fault::Memory),
        Err(BenchFault::At(_, _)) => Ok(false),
    }
}

// Whether a bench passes by each seed, with the same values.
fn passes(setting: Setting<'_>) -> Result<bool, Fault>
    requires { length setting.plan.now.streams.items ≡ length setting.opened.now.ports }
{
    let mut had = None;
    let seeds = setting.trial.asked.seeds;
    for round in 0..=seeds.more() {
        if !passes_by(setting, seeds.at(round), &mut had)? {
            return Ok(false);
        }
    }
    Ok(true)
}

// Whether it passes by a seed.
fn passes_by(setting: Setting<'_>, seed: Option<u64>, had: &mut Option<Had>) -> Result<bool, Fault>
    requires { length setting.plan.now.streams.items ≡ length setting.opened.now.ports }
{
    match played(setting, seed) {
        Ok(mut played) => Ok(is_as_before(setting, seed, &mut played, had)),
        Err(fault) => Err(fault),
    }
}

// Whether a play passed, with the values of the first one that did.
fn is_as_before(
    setting: Setting<'_>,
    seed: Option<u64>,
    played: &mut Played,
    had: &mut Option<Had>,
) -> bool {
    if !matches!(played.verdict, Verdict::Passed) {
        return false;
    }
    match had {
        Some(had) => first_unlike(setting.opened.flat(), had, &played.tallies).is_none(),
        None => {
            *had = Some(Had::of(setting, seed, played));
            true
        }
    }
}
