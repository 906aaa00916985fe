//! The cases of a bench: its plays, one for each seed, or why it is not played.

ghost use Rattle.std.specs.Prelude.{◌≡◌, ◌∷◌, ◌++◌, [], length, Ok, IfOk};
ghost use Rattle.bz_cli_bench.specs.Cases.{AddsCase, AddsGroup, CaseSeen, IsPlay, IsRefused, seed_at};

use crate::asked::{At, Trial};
use crate::blessing::{Blessing, bless};
use crate::case::{Case, Told};
use crate::counted::Counted;
use crate::files::BenchFiles;
use crate::nets::{Found, Nets};
use crate::opened::Opened;
use crate::plan::{Plan, plan_of};
use crate::reading::{Refusal, bench_of, no_netlist, path_beside};
use crate::setting::{Had, Setting, case_of};
use bz_bench::Bench;
use bz_cli_input::Fault;

/// Adds the cases of a bench: one for each seed, or the one that says why it is not played. Where that is asked for, what comes
/// is written into it before.
pub(crate) fn add_cases<F: BenchFiles>(
    trial: Trial<'_>,
    at: At<'_>,
    nets: &mut Nets,
    files: &mut F,
    cases: &mut Vec<Case>,
) -> Result<(), Fault>
    ensures { IfOk result (λ _. AddsGroup trial.entry.asked.seeds at.entry.place cases.old.items cases.new.items) }
{
    match bless(trial, at, nets, files) {
        Ok(blessing) => add_bench(trial, At { blessing, ..at }, nets, files, cases),
        Err(fault) => Err(fault),
    }
}

// Adds the cases of a bench as its file has it.
fn add_bench<F: BenchFiles>(
    trial: Trial<'_>,
    at: At<'_>,
    nets: &mut Nets,
    files: &mut F,
    cases: &mut Vec<Case>,
) -> Result<(), Fault>
    ensures { IfOk result (λ _. AddsGroup trial.entry.asked.seeds at.entry.place cases.old.items cases.new.items) }
{
    match bench_of(trial.alloc, at.path, files) {
        Ok(bench) => add_read(trial, at, &bench, nets, files, cases),
        Err(why) => add_refused(trial, at, why, cases),
    }
}

// Adds those of a bench that was read.
fn add_read<F: BenchFiles>(
    trial: Trial<'_>,
    at: At<'_>,
    bench: &Bench,
    nets: &mut Nets,
    files: &mut F,
    cases: &mut Vec<Case>,
) -> Result<(), Fault>
    ensures { IfOk result (λ _. AddsGroup trial.entry.asked.seeds at.entry.place cases.old.items cases.new.items) }
{
    match place_of(trial, at, bench, nets, files) {
        Ok(place) => match nets.at(place) {
            Some(known) => {
                let counted = &mut known.counted;
                add_found(trial, at, bench, &known.found, counted, files, cases)
            }
            None => Err(Fault::Memory),
        },
        Err(why) => add_refused(trial, at, why, cases),
    }
}

/// The place of the net of a bench.
pub(crate) fn place_of<F: BenchFiles>(
    trial: Trial<'_>,
    at: At<'_>,
    bench: &Bench,
    nets: &mut Nets,
    files: &mut F,
) -> Result<usize, Refusal> {
    let part = part_of(trial, bench);
    if let Some(netlist) = trial.asked.netlist {
        return nets.place_of(trial, netlist, part, files);
    }
    match &bench.netlist {
        Some(name) => {
            let netlist = path_beside(trial.alloc, at.path, name.as_str())?;
            nets.place_of(trial, netlist.as_str(), part, files)
        }
        None => Err(no_netlist()),
    }
}

// The name of the part whose net a bench plays, where one is named.
fn part_of<'b>(trial: Trial<'b>, bench: &'b Bench) -> Option<&'b [u8]> {
    match (trial.asked.part, &bench.part) {
        (Some(part), _) => Some(part),
        (None, Some(part)) => Some(part.as_slice()),
        (None, None) => None,
    }
}

// Adds the cases of a bench on what was found for it.
fn add_found<F: BenchFiles>(
    trial: Trial<'_>,
    at: At<'_>,
    bench: &Bench,
    found: &Found,
    counted: &mut Counted,
    files: &mut F,
    cases: &mut Vec<Case>,
) -> Result<(), Fault>
    ensures { IfOk result (λ _. AddsGroup trial.entry.asked.seeds at.entry.place cases.old.items cases.new.items) }
{
    match found {
        Found::Net(opened) => add_planned(trial, at, bench, opened, counted, files, cases),
        Found::Refused(why) => match Vec::from_slice(trial.alloc, why.as_slice()) {
            Ok(why) => add_refused(trial, at, Refusal::NoNet(why), cases),
            Err(_) => Err(Fault::Memory),
        },
    }
}

// Adds the cases of a bench on a net.
fn add_planned<F: BenchFiles>(
    trial: Trial<'_>,
    at: At<'_>,
    bench: &Bench,
    opened: &Opened,
    counted: &mut Counted,
    files: &mut F,
    cases: &mut Vec<Case>,
) -> Result<(), Fault>
    ensures { IfOk result (λ _. AddsGroup trial.entry.asked.seeds at.entry.place cases.old.items cases.new.items) }
{
    match plan_of(trial.alloc, opened.flat(), bench) {
        Ok(plan) => add_plays(trial, at, opened, &plan, counted, files, cases),
        Err(fault) => add_refused(trial, at, Refusal::from(fault), cases),
    }
}

// Adds a case for each seed.
fn add_plays<F: BenchFiles>(
    trial: Trial<'_>,
    at: At<'_>,
    opened: &Opened,
    plan: &Plan,
    counted: &mut Counted,
    files: &mut F,
    cases: &mut Vec<Case>,
) -> Result<(), Fault>
    requires { length plan.now.streams.items ≡ length opened.now.ports }
    ensures { IfOk result (λ _. AddsGroup trial.entry.asked.seeds at.entry.place cases.old.items cases.new.items) }
{
    let setting = Setting {
        trial,
        at,
        opened,
        plan,
    };
    let mut had = None;
    add_play(setting, 0, &mut had, counted, files, cases)?;
    let at = At {
        blessing: Blessing::None,
        ..at
    };
    let setting = Setting {
        trial,
        at,
        opened,
        plan,
    };
    for round in 0..trial.asked.seeds.more() {
        add_play(setting, round + 1, &mut had, counted, files, cases)?;
    }
    Ok(())
}

// Adds the case of a round.
fn add_play<F: BenchFiles>(
    setting: Setting<'_>,
    round: u32,
    had: &mut Option<Had>,
    counted: &mut Counted,
    files: &mut F,
    cases: &mut Vec<Case>,
) -> Result<(), Fault>
    requires { length setting.plan.now.streams.items ≡ length setting.opened.now.ports }
    ensures { IfOk result (λ _. AddsCase (IsPlay setting.entry.at.place (seed_at setting.entry.trial.asked.seeds round)) cases.old.items cases.new.items) }
{
    let seed = setting.trial.asked.seeds.at(round);
    add_case(case_of(setting, seed, had, counted, files), cases)
}

// Adds a case, if there is one.
fn add_case(case: Result<Case, Fault>, cases: &mut Vec<Case>) -> Result<(), Fault>
    ensures { IfOk result (λ _. (made : CaseSeen) × (case ≡ Ok made) × (cases.new.items ≡ cases.old.items ++ made ∷ [])) }
{
    match case {
        Ok(case) => match cases.push(case) {
            Ok(()) => Ok(()),
            Err(_) => Err(Fault::Memory),
        },
        Err(fault) => Err(fault),
    }
}

// Adds the case that says why a bench is not played.
fn add_refused(
    trial: Trial<'_>,
    at: At<'_>,
    why: Refusal,
    cases: &mut Vec<Case>,
) -> Result<(), Fault>
    ensures { IfOk result (λ _. AddsGroup trial.entry.asked.seeds at.entry.place cases.old.items cases.new.items) }
{
    add_case(refused(trial, at, why), cases)
}

fn refused(trial: Trial<'_>, at: At<'_>, why: Refusal) -> Result<Case, Fault>
    ensures { IfOk result (IsRefused at.entry.place) }
{
    match why {
        Refusal::Bench(spot, cause) => {
            let told = Told::none(trial.alloc);
            Ok(Case::bad_bench(at.place, spot, cause, told))
        }
        Refusal::NoNet(why) => {
            let mut told = Told::none(trial.alloc);
            told.why = why;
            Ok(Case::no_net(at.place, told))
        }
        Refusal::Memory => Err(Fault::Memory),
    }
}
