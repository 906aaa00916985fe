//! The command `test`.

ghost use Rattle.std.specs.Prelude.{length, is_some, IfOk};
ghost use Rattle.bz_cli_bench.specs.Cases.{AreOf, Tests};
ghost use Rattle.bz_cli_input.specs.Reading.{ReadsWithin};

use crate::asked::{Asked, At, Trial};
use crate::blessing::Blessing;
use crate::case::Case;
use crate::counted::tell_counted;
use crate::files::BenchFiles;
use crate::nets::Nets;
use crate::rounds::add_cases;
use crate::status::status_behind;
use crate::telling::tell;
use crate::traces::{names_of, tell_unkept};
use bz_cli_input::{Fault, InputFault, read_input};
use std::alloc::Global;
use std::io::{Read, Write};

/// Plays benches, and tells what each case came to. The netlist comes from `input` where one is named for all benches, and else
/// from the files that they name. That a trace could not be kept goes to `errors`.
pub fn test_cmd<R: Read, F: BenchFiles, W: Write, E: Write>(
    alloc: Global,
    asked: Asked<'_>,
    input: &mut R,
    files: &mut F,
    output: &mut W,
    errors: &mut E,
) -> Result<u8, Fault>
    ensures tests { Tests asked.entry.seeds (length asked.entry.benches.now) (is_some asked.entry.cover) result }

    // Whatever comes of it, it reads at most one byte past the limit.
    ensures bounded { ReadsWithin (R.remaining input.old) (R.remaining input.new) }
{
    match netlist_of(alloc, asked, input) {
        Ok(None) => test(
            Trial {
                alloc,
                asked,
                text: None,
                names: &[],
            },
            files,
            output,
            errors,
        ),
        Ok(Some(text)) => test(
            Trial {
                alloc,
                asked,
                text: Some(text.as_slice()),
                names: &[],
            },
            files,
            output,
            errors,
        ),
        Err(InputFault::Read) => Err(Fault::Read),
        Err(InputFault::Memory) => Err(Fault::Memory),
    }
}

// The text of the netlist that is named for all benches, if one is.
fn netlist_of<R: Read>(
    alloc: Global,
    asked: Asked<'_>,
    input: &mut R,
) -> Result<Option<Vec<u8>>, InputFault>
    ensures { ReadsWithin (R.remaining input.old) (R.remaining input.new) }
{
    if asked.netlist.is_none() {
        return Ok(None);
    }
    match read_input(alloc, input) {
        Ok(text) => Ok(Some(text)),
        Err(fault) => Err(fault),
    }
}

// Plays all benches, and tells what each case came to.
fn test<F: BenchFiles, W: Write, E: Write>(
    trial: Trial<'_>,
    files: &mut F,
    output: &mut W,
    errors: &mut E,
) -> Result<u8, Fault>
    ensures { Tests trial.entry.asked.seeds (length trial.entry.asked.benches.now) (is_some trial.entry.asked.cover) result }
{
    match names_of(trial.alloc, trial.asked.benches) {
        Ok(names) => test_named(
            Trial {
                names: &names,
                ..trial
            },
            files,
            output,
            errors,
        ),
        Err(_) => Err(Fault::Memory),
    }
}

// The same, once the names of the benches are known.
fn test_named<F: BenchFiles, W: Write, E: Write>(
    trial: Trial<'_>,
    files: &mut F,
    output: &mut W,
    errors: &mut E,
) -> Result<u8, Fault>
    ensures { Tests trial.entry.asked.seeds (length trial.entry.asked.benches.now) (is_some trial.entry.asked.cover) result }
{
    let mut nets = Nets::new(trial.alloc);
    match cases_of(trial, &mut nets, files) {
        Ok(cases) => told(trial, &cases, &nets, files, output, errors),
        Err(fault) => Err(fault),
    }
}

// All cases, those of one bench after another.
fn cases_of<F: BenchFiles>(
    trial: Trial<'_>,
    nets: &mut Nets,
    files: &mut F,
) -> Result<Vec<Case>, Fault>
    ensures { IfOk result (λ cases. AreOf trial.entry.asked.seeds (length trial.entry.asked.benches.now) cases.items) }
{
    let mut cases = Vec::new(trial.alloc);
    for (place, path) in trial.asked.benches.iter().enumerate() {
        let at = At {
            place,
            path,
            blessing: Blessing::None,
        };
        add_cases(trial, at, nets, files, &mut cases)?;
    }
    Ok(cases)
}

// Tells what all cases came to. Their status.
fn told<F: BenchFiles, W: Write, E: Write>(
    trial: Trial<'_>,
    cases: &[Case],
    nets: &Nets,
    files: &mut F,
    output: &mut W,
    errors: &mut E,
) -> Result<u8, Fault>
    requires { AreOf trial.asked.seeds (length trial.asked.benches.now) cases.now }
    ensures { Tests trial.entry.asked.seeds (length trial.entry.asked.benches.now) (is_some trial.entry.asked.cover) result }
{
    tell_unkept(trial, cases, errors);
    match tell(trial, cases, output) {
        Ok(()) => match tell_counted(trial, nets, files, errors) {
            Ok(is_written) => Ok(status_behind(cases, trial.asked.cover.is_some(), is_written)),
            Err(fault) => Err(fault),
        },
        Err(fault) => Err(fault),
    }
}
