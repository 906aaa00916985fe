//! The refusals that are found without making the net.

ghost use Rattle.std.specs.Prelude.{◌≡◌, ◌≤◌, ◌⊎◌, true, false, List, Some, slice_get, IfOk, IfErr, OnOk};
ghost use Rattle.std.specs.List.{All};
ghost use Rattle.bz_flat.specs.declared.error.ElabError.TheVariants.{Memory};
ghost use Rattle.bz_breeze_records.specs.declared.part.Part.{Part};
ghost use Rattle.bz_elab.specs.Paths.{stops, most_instances};
ghost use Rattle.bz_elab.specs.Refusals.{HasPortChannels, IsTooMany};
ghost use Rattle.bz_elab.specs.Growth.{IsSoundBelow};
ghost use Rattle.bz_elab.specs.Order.{RefusesPart, PassesPart};
ghost use Rattle.bz_elab.specs.Numbers.{IsFirstPlace, IsReached, Marks};
ghost use Rattle.bz_elab.specs.Readings.{IsReadBelow};
ghost use Rattle.bz_elab.specs.Totals.{IsTotal, IsSmall, AreTotals};

use crate::faults::read_parts;
use crate::reach::{first_recursive, reached};
use crate::reading::Reading;
use crate::totals::{Total, capped, total_of};
use crate::walk::{MOST_CHANNELS, MOST_COMPONENTS, MOST_ENDS, MOST_INSTANCES};
use bz_breeze_records::{Part, Parts};
use bz_flat::ElabError;
use std::alloc::Global;

/// Finds the first refusal of a part and all that it reaches, by what can be told without making the net; answers what was
/// read of them where there is none.
pub fn check(
    alloc: Global,
    parts: &Parts,
    number: usize,
    part: &Part,
) -> Result<Vec<Reading>, ElabError>
    requires whole { All HasPortChannels parts.now }
    requires part_is { slice_get parts.now number ≡ Some part.now }
    requires first { IsFirstPlace parts.now number part.now }
    ensures read { IfOk result (λ v. IsReadBelow parts.now number v.items) }
    ensures ok { OnOk result (PassesPart parts.now part.now) }
    ensures sound { OnOk result (IsSoundBelow parts.now part.now most_instances) }
    ensures err { IfErr result (λ e. (e ≡ Memory) ⊎ RefusesPart parts.now part.now e) }
{
    let marks = reached(alloc, parts, number)?;
    let mut totals = vec![in alloc; None; parts.list().len()]?;
    match total_of(parts, number, part, MOST_INSTANCES, totals.as_mut_slice()) {
        Some(total) => check_parts(
            alloc,
            parts,
            totals.as_slice(),
            number,
            part,
            marks.as_slice(),
            total,
        ),
        None => match first_recursive(alloc, parts, marks.as_slice())? {
            Some(recursive) => Err(ElabError::Recursive(recursive)),
            None => Err(ElabError::TooDeep),
        },
    }
}

// Finds the first refusal of the marked parts, which go no deeper than they may, and of the size of the net; answers what was
// read of them where there is none.
fn check_parts(
    alloc: Global,
    parts: &Parts,
    totals: &[Option<Total>],
    number: usize,
    part: &Part,
    marks: &[bool],
    total: Total,
) -> Result<Vec<Reading>, ElabError>
    requires whole { All HasPortChannels parts.now }
    requires totals { AreTotals parts.now totals.now }
    requires part_is { slice_get parts.now number ≡ Some part.now }
    requires first { IsFirstPlace parts.now number part.now }
    requires marks { Marks parts.now (IsReached parts.now number) marks.now }
    requires total { IsTotal parts.now part.now total }
    requires within { total.height ≤ most_instances }
    ensures read { IfOk result (λ v. IsReadBelow parts.now number v.items) }
    ensures ok { OnOk result (PassesPart parts.now part.now) }
    ensures sound { OnOk result (IsSoundBelow parts.now part.now most_instances) }
    ensures err { IfErr result (λ e. (e ≡ Memory) ⊎ RefusesPart parts.now part.now e) }
{
    let is_big = is_too_big(part, total);
    let (least, readings) = read_parts(alloc, parts, totals, number, marks)?;
    match least {
        Some(found) => {
            if found.fault.order() < 8 {
                return Err(found.error());
            }
            if is_big {
                return Err(ElabError::TooBig);
            }
            Err(found.error())
        }
        None => {
            if is_big {
                return Err(ElabError::TooBig);
            }
            Ok(readings)
        }
    }
}

// Whether the net has more than it may have.
fn is_too_big(part: &Part, total: Total) -> bool
    requires { IsSmall total }
    ensures big { result ≡ true → (parts : List Part) → IsTotal parts part.now total → total.height ≤ most_instances → IsTooMany 0 0 0 (stops parts part.now) }
    ensures fits { result ≡ false → (parts : List Part) → IsTotal parts part.now total → total.height ≤ most_instances → IsTooMany 0 0 0 (stops parts part.now) → ⊥ }
{
    let chans = capped(MOST_CHANNELS, total.chans, part.channels.len());
    if total.comps > MOST_COMPONENTS {
        return true;
    }
    if chans > MOST_CHANNELS {
        return true;
    }
    if total.ends > MOST_ENDS {
        return true;
    }
    false
}
