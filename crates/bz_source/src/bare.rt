//! Which parts are bare: their copies bring no channel of their own and no component.

ghost use Rattle.std.specs.Prelude.{◌≡◌, ◌<◌, length, IfOk};
ghost use Rattle.std.specs.Bool.{OnTrue};
ghost use Rattle.bz_source.specs.Inner.{AreInner, AreBare, BringsNothing, is_marked};

use bz_breeze_records::Part;
use std::alloc::{AllocError, Global};

/// As many rounds as a path may have instances, and one more.
const ROUNDS: u32 = 65;

/// A mark for each part that was found to be bare: each one below which no path goes on for more than 64 instances.
pub(crate) fn bare_parts(
    alloc: Global,
    parts: &[Part],
    inner: &[Vec<Option<usize>>],
) -> Result<Vec<bool>, AllocError>
    requires { AreInner parts.now inner.now }
    ensures { IfOk result (λ v. AreBare parts.now v.items) }
{
    let mut bare = vec![in alloc; false; parts.len()]?;
    for _ in 0..ROUNDS {
        if !mark(parts, inner, &mut bare) {
            return Ok(bare);
        }
    }
    Ok(bare)
}

// Marks the parts that are bare by the marks so far; whether there was one.
fn mark(parts: &[Part], inner: &[Vec<Option<usize>>], bare: &mut [bool]) -> bool
    requires inner { AreInner parts.now inner.now }
    requires bare { AreBare parts.now bare.old }
    ensures { AreBare parts.now bare.new }
{
    let mut marked = false;
    for number in 0..parts.len() {
        if mark_one(parts, inner, bare, number) {
            marked = true;
        }
    }
    marked
}

// Marks a part that has no mark, where it is bare by the marks so far; whether it was.
fn mark_one(parts: &[Part], inner: &[Vec<Option<usize>>], bare: &mut [bool], number: usize) -> bool
    requires number { number < length parts.now }
    requires inner { AreInner parts.now inner.now }
    requires bare { AreBare parts.now bare.old }
    ensures { AreBare parts.now bare.new }
{
    if bare[number] {
        return false;
    }
    let nothing = brings_nothing(&parts[number], inner[number].as_slice(), bare);
    if nothing {
        bare[number] = true;
    }
    nothing
}

// Whether a part has no channel but its ports, and no component but instances of parts with a mark.
fn brings_nothing(part: &Part, inner: &[Option<usize>], bare: &[bool]) -> bool
    ensures { OnTrue result (BringsNothing part.now inner.now bare.now) }
{
    part.channels.len() <= part.ports.len() && inner.iter().all(|number| is_marked(bare, *number))
}

fn is_marked(bare: &[bool], number: Option<usize>) -> bool
    ensures { result ≡ is_marked bare.now number }
{
    match number {
        Some(number) => bare.get(number).copied().unwrap_or(false),
        None => false,
    }
}
