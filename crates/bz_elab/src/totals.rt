//! How deep a part goes and how much its copy brings, found without making one.

ghost use Rattle.std.specs.Prelude.{◌≡◌, ◌≤◌, ◌<◌, ◌+◌, ◌-◌, ◌^◌, ◌⊎◌, ◌↔◌, ℕ, IsTrue, Some, [], ◌∷◌, ◌++◌, List, length, slice_get, IfSome, IfNone};
ghost use Rattle.std.specs.List.{All};
ghost use Rattle.bz_elab.specs.Paths.{Stop, leaf, copy};
ghost use Rattle.bz_elab.specs.Refusals.{HasPortChannels};
ghost use Rattle.bz_elab.specs.Entries.{flattened};
ghost use Rattle.bz_elab.specs.Totals.{Capped, Brings, IsSmall, IsTotal, IsDeeper, AreTotals, TellsBare, total_at};

use crate::walk::{MOST_CHANNELS, MOST_COMPONENTS, MOST_ENDS, find};
use bz_breeze_records::{Component, Part, Parts, Slot};

/// What lies below a copy of a part: the length of the longest path of instances, and how many components, channels and
/// component ends, as far as a net may have so many.
#[derive(Clone, Copy)]
pub struct Total {
    pub height: u32,
    pub comps: usize,
    pub chans: usize,
    pub ends: usize,
}

const NOTHING: Total = Total {
    height: 0,
    comps: 0,
    chans: 0,
    ends: 0,
};

/// What lies below a copy of this part, `None` where a path goes on for more than `depth` instances. `totals` has what
/// was found before.
pub fn total_of(
    parts: &Parts,
    number: usize,
    part: &Part,
    depth: u32,
    totals: &mut [Option<Total>],
) -> Option<Total>
    requires whole { All HasPortChannels parts.now }
    requires part_is { slice_get parts.now number ≡ Some part.now }
    requires few { depth ≤ 64 }
    requires totals { AreTotals parts.now totals.old }
    ensures totals { AreTotals parts.now totals.new }
    ensures found { IfSome result (IsTotal parts.now part.now) }
    ensures within { IfSome result (λ t. t.height ≤ depth) }
    ensures none { IfNone result (IsDeeper parts.now part.now depth) }
{
    if let Some(total) = totals[number] {
        return if total.height <= depth {
            Some(total)
        } else {
            None
        };
    }
    let mut total = NOTHING;
    for component in &part.components {
        match find(parts, component.name.as_slice()) {
            None => total = with_leaf(total, component),
            Some(inner) => {
                if depth == 0 {
                    return None;
                }
                let inner_part = &parts.list()[inner];
                match total_of(parts, inner, inner_part, depth - 1, totals) {
                    None => return None,
                    Some(below) => total = with_copy(total, inner_part, below),
                }
            }
        }
    }
    totals[number] = Some(total);
    Some(total)
}

/// Whether the total of a part tells that there is no component and no channel below its copy, and no path that goes on for
/// more than `depth` instances.
pub fn is_bare(totals: &[Option<Total>], number: usize, depth: u32) -> bool
    requires { number < length totals.now }
    ensures { IsTrue result ↔ TellsBare depth (total_at totals.now number) }
{
    match totals[number] {
        None => false,
        Some(total) => total.height <= depth && total.comps == 0 && total.chans == 0,
    }
}

// With a component that is no instance.
fn with_leaf(total: Total, component: &Component) -> Total
    requires { IsSmall total }
    ensures height { result.height ≡ total.height }
    ensures small { IsSmall result }
    ensures brings { (stops : List Stop) (path : List ℕ) → Brings total stops → Brings result (stops ++ leaf path component.now ∷ []) }
{
    let Total {
        height,
        comps,
        chans,
        ends,
    } = total;
    Total {
        height,
        comps: capped(MOST_COMPONENTS, comps, 1),
        chans,
        ends: capped(MOST_ENDS, ends, entry_count(component.entries.as_slice())),
    }
}

// With an instance of a part, `below` being what lies below its copy.
fn with_copy(total: Total, part: &Part, below: Total) -> Total
    requires ports { HasPortChannels part.now }
    requires small { IsSmall total }
    requires small_below { IsSmall below }
    requires depth { below.height < 2 ^ 16 }
    ensures height_from { total.height ≤ result.height }
    ensures height_below { below.height + 1 ≤ result.height }
    ensures height_is { (result.height ≡ total.height) ⊎ (result.height ≡ below.height + 1) }
    ensures small { IsSmall result }
    ensures brings { (stops more : List Stop) (i : ℕ) (path : List ℕ) → Brings total stops → Brings below more → Brings result (stops ++ copy (i ∷ path) part.now ∷ more) }
{
    let own = part.channels.len() - part.ports.len();
    Total {
        height: total.height.max(below.height + 1),
        comps: capped(MOST_COMPONENTS, total.comps, below.comps),
        chans: capped(
            MOST_CHANNELS,
            capped(MOST_CHANNELS, total.chans, own),
            below.chans,
        ),
        ends: capped(MOST_ENDS, total.ends, below.ends),
    }
}

// How many channels entries name, as far as a net may have so many ends.
fn entry_count(entries: &[Slot]) -> usize
    ensures { Capped MOST_ENDS result (length (flattened entries.now)) }
{
    let mut count = 0;
    for entry in entries {
        let more = match entry {
            Slot::One(_) => 1,
            Slot::Many(chans) => chans.len(),
        };
        count = capped(MOST_ENDS, count, more);
    }
    count
}

// The sum, or one more than `most` where it is greater.
pub fn capped(most: usize, count: usize, more: usize) -> usize
    requires most { most ≤ 4000000 }
    requires count { count ≤ most + 1 }
    ensures within { result ≤ most + 1 }
    ensures is { (n m : ℕ) → Capped most count n → Capped most more m → Capped most result (n + m) }
{
    if more > most - count.min(most) {
        most + 1
    } else {
        count + more
    }
}
