//! The walk of a part's copies, by which its net is made.

ghost use Rattle.std.specs.Prelude.{◌≡◌, ◌<◌, ◌≤◌, ◌+◌, ◌-◌, ◌^◌, ◌++◌, ◌∷◌, [], ◌⊎◌, ℕ, List, Some, length, map, drop, slice_get, option_and_then, slice_index_or, IfOk, IfErr, IfSome, IfNone, OnOk};
ghost use Rattle.std.specs.List.{All};
ghost use Rattle.bz_flat.specs.declared.error.ElabError.TheVariants.{Memory, TooBig};
ghost use Rattle.bz_elab.specs.Paths.{named, most_instances};
ghost use Rattle.bz_elab.specs.Refusals.{AppliesTo, HasPortChannels, most_ends};
ghost use Rattle.bz_elab.specs.Numbers.{number_named};
ghost use Rattle.bz_elab.specs.Order.{rank};
ghost use Rattle.bz_elab.specs.Readings.{LeafOn, CopyOn, IsFull, IsReadBelow, AreOwn, ends_of};
ghost use Rattle.bz_flat.specs.Wires.{most_comps, most_chans};
ghost use Rattle.bz_elab.specs.Growth.{net_number, FitsNet, Entered, Flattened, Counted, Fails, IsNet, IsShort, Within};

use crate::reading::{Item, Reading};
use bz_arena::{Arena, Id};
use bz_breeze_records::{Part, Parts};
use bz_flat::{CHANS_IN_PLACE, ChanList, ElabError, FlatComp};
use bz_model::Chan;
use std::alloc::{AllocError, Global};

/// The greatest number of components of a net.
pub const MOST_COMPONENTS: usize = 1_000_000;

/// The greatest number of channels of a net.
pub const MOST_CHANNELS: usize = 2_000_000;

/// The greatest number of component ends of a net.
pub const MOST_ENDS: usize = 4_000_000;

/// The greatest number of instances on a path.
pub const MOST_INSTANCES: u32 = 64;

/// The net so far, and how many ends its components have.
#[derive(Drop)]
pub struct Draft {
    pub chans: Arena<Chan>,
    pub comps: Arena<FlatComp>,
    pub ends: usize,
}

/// A copy of a part within another copy: how many channels the net had before its own, and the channels of the copy above
/// that its ports are.
#[derive(Clone, Copy)]
pub struct Level<'r> {
    pub before: u32,
    pub ports: &'r [u32],
}

/// The number of the first part of that name, counted from 0.
pub fn find(parts: &Parts, name: &[u8]) -> Option<usize>
    ensures part { option_and_then (slice_get parts.now) result ≡ named parts.now name.now }
    ensures within { IfSome result (λ n. n < length parts.now) }
    ensures number { result ≡ number_named parts.now name.now }
{
    parts.number(name)
}

fn push_chan(draft: &mut Draft, chan: Chan) -> Result<u32, ElabError>
    requires { Within draft.old }
    ensures within { Within draft.new }
    ensures number { IfOk result (λ k. k ≡ length draft.old.chans + 1) }
    ensures chans { OnOk result (draft.new.chans ≡ draft.old.chans ++ chan ∷ []) }
    ensures comps { draft.new.comps ≡ draft.old.comps }
    ensures ends { draft.new.ends ≡ draft.old.ends }
    ensures err { IfErr result (λ e. (e ≡ Memory) ⊎ ((e ≡ TooBig) × (most_chans ≤ length draft.old.chans))) }
{
    if draft.chans.len() >= MOST_CHANNELS {
        return Err(ElabError::TooBig);
    }
    match draft.chans.push(chan) {
        Ok(_) => Ok(draft.chans.len() as u32),
        Err(_) => Err(ElabError::Memory),
    }
}

fn push_comp(draft: &mut Draft, comp: FlatComp) -> Result<(), ElabError>
    requires { Within draft.old }
    ensures within { Within draft.new }
    ensures ok { OnOk result ((draft.new.comps ≡ draft.old.comps ++ comp ∷ []) × (draft.new.ends ≡ draft.old.ends + length comp.chans.items)) }
    ensures chans { draft.new.chans ≡ draft.old.chans }
    ensures err { IfErr result (λ e. (e ≡ Memory) ⊎ ((e ≡ TooBig) × ((most_comps ≤ length draft.old.comps) ⊎ (most_ends < draft.old.ends + length comp.chans.items)))) }
{
    if draft.comps.len() >= MOST_COMPONENTS || comp.chans.len() > MOST_ENDS - draft.ends {
        return Err(ElabError::TooBig);
    }
    let ends = draft.ends + comp.chans.len();
    match draft.comps.push(comp) {
        Ok(_) => {
            draft.ends = ends;
            Ok(())
        }
        Err(_) => Err(ElabError::Memory),
    }
}

// The number in the net of a channel of a copy. A port is a channel of the copy above, whatever that is there.
fn net_number(levels: &[Level<'_>], number: u32) -> u32
    requires { net_number levels.now number < 2 ^ 32 }
    ensures { result ≡ net_number levels.now number }
{
    let mut number = number;
    for level in levels {
        let ports = level.ports.len();
        if number as usize > ports {
            return level.before + (number - ports as u32);
        }
        number = entry_at(level.ports, number);
    }
    number
}

// The channel that an entry names, counted from 1, or 0 past the end.
fn entry_at(entries: &[u32], number: u32) -> u32
    ensures { result ≡ slice_index_or entries.now (number - 1) 0 }
{
    match entries.get(number.saturating_sub(1) as usize) {
        Some(chan) => *chan,
        None => 0,
    }
}

// The numbers in the net of channels of a copy.
fn net_numbers(alloc: Global, levels: &[Level<'_>], numbers: &[u32]) -> Result<ChanList, AllocError>
    requires { All (λ k. net_number levels.now k < 2 ^ 32) numbers.now }
    ensures { IfOk result (λ list. list.items ≡ map (net_number levels.now) numbers.now) }
{
    if numbers.len() <= CHANS_IN_PLACE {
        Ok(few_numbers(levels, numbers))
    } else {
        Ok(ChanList::many(many_numbers(alloc, levels, numbers)?))
    }
}

// Those of as many as stand in a list itself.
fn few_numbers(levels: &[Level<'_>], numbers: &[u32]) -> ChanList
    requires fit { All (λ k. net_number levels.now k < 2 ^ 32) numbers.now }
    requires few { length numbers.now ≤ 6 }
    ensures { result.items ≡ map (net_number levels.now) numbers.now }
{
    let mut few = [0u32; CHANS_IN_PLACE];
    for (place, number) in numbers.iter().enumerate() {
        few[place] = net_number(levels, *number);
    }
    ChanList::few(few, numbers.len())
}

// Those of any number.
fn many_numbers(
    alloc: Global,
    levels: &[Level<'_>],
    numbers: &[u32],
) -> Result<Vec<u32>, AllocError>
    requires { All (λ k. net_number levels.now k < 2 ^ 32) numbers.now }
    ensures { IfOk result (λ v. v.items ≡ map (net_number levels.now) numbers.now) }
{
    let mut chans = Vec::with_capacity(alloc, numbers.len())?;
    for number in numbers {
        chans.push(net_number(levels, *number))?;
    }
    Ok(chans)
}

// Adds a part's channels but for its ports.
fn enter(draft: &mut Draft, part: &Part, ports: usize) -> Result<(), ElabError>
    requires draft { Within draft.old }
    requires ports { ports ≤ length part.now.channels.items }
    ensures within { Within draft.new }
    ensures ok { OnOk result (Entered draft.old draft.new part.now ports) }
    ensures err { IfErr result (λ e. (e ≡ Memory) ⊎ ((e ≡ TooBig) × (most_chans < length draft.old.chans + (length part.now.channels.items - ports)))) }
{
    for i in ports..part.channels.len() {
        push_chan(draft, part.channels[i])?;
    }
    Ok(())
}

// Adds a component that is no instance, by the numbers of its part's channels.
fn add_leaf(
    alloc: Global,
    named: &FlatComp,
    levels: &[Level<'_>],
    draft: &mut Draft,
) -> Result<(), ElabError>
    requires chans { All (λ k. net_number levels.now k < 2 ^ 32) named.now.chans.items }
    requires draft { Within draft.old }
    ensures within { Within draft.new }
    ensures ok { OnOk result (LeafOn levels.now named.now draft.old draft.new) }
    ensures err { IfErr result (λ e. (e ≡ Memory) ⊎ ((e ≡ TooBig) × IsFull draft.old (length named.now.chans.items))) }
{
    let chans = net_numbers(alloc, levels, named.chans.as_slice())?;
    let kind = named.kind.dup()?;
    let sizes = named.sizes;
    push_comp(draft, FlatComp { kind, sizes, chans })
}

// The copies from one up, where there may be `depth` more below it: those in the places from `depth` on.
fn from_depth<'l, 'r>(levels: &'l [Level<'r>], depth: u32) -> &'l [Level<'r>]
    requires { depth ≤ length levels.now }
    ensures { result.now ≡ drop depth levels.now }
{
    &levels[depth as usize..]
}

// Adds the channels of an instance's copy, whose entries name these channels of the copy above, and puts it in front of the
// copies from that one up.
fn add_copy<'r>(
    ports: &'r [u32],
    inner: &Part,
    levels: &mut [Level<'r>],
    depth: u32,
    draft: &mut Draft,
) -> Result<(), ElabError>
    requires inner { HasPortChannels inner.now }
    requires deeper { 0 < depth }
    requires room { depth ≤ length levels.old }
    requires draft { Within draft.old }
    ensures within { Within draft.new }
    ensures ok { OnOk result (CopyOn (drop depth levels.old) ports.now inner.now draft.old draft.new (drop (depth - 1) levels.new)) }
    ensures above { OnOk result (drop depth levels.new ≡ drop depth levels.old) }
    ensures long { OnOk result (length levels.new ≡ length levels.old) }
    ensures err { IfErr result (λ e. (e ≡ Memory) ⊎ ((e ≡ TooBig) × (most_chans < length draft.old.chans + (length inner.now.channels.items - length inner.now.ports.items)))) }
{
    let before = draft.chans.len() as u32;
    enter(draft, inner, inner.ports.len())?;
    levels[depth as usize - 1] = Level { before, ports };
    Ok(())
}

// Adds the copies and leaves below a part's copy. In the places of `levels` from `depth` on stand that copy and those above it
// but for the top's, and before them there is room for those below.
fn flatten<'r>(
    alloc: Global,
    parts: &Parts,
    readings: &'r [Reading],
    number: usize,
    part: &Part,
    levels: &mut [Level<'r>],
    depth: u32,
    draft: &mut Draft,
) -> Result<(), ElabError>
    requires whole { All HasPortChannels parts.now }
    requires part_is { slice_get parts.now number ≡ Some part.now }
    requires levels { FitsNet (drop depth levels.old) (length part.now.channels.items) (length draft.old.chans) }
    requires room { depth ≤ length levels.old }
    requires read { IsReadBelow parts.now number readings.now }
    requires short { IsShort parts.now part.now depth }
    requires draft { Within draft.old }
    ensures within { Within draft.new }
    ensures above { OnOk result (drop depth levels.new ≡ drop depth levels.old) }
    ensures long { OnOk result (length levels.new ≡ length levels.old) }
    ensures ok { OnOk result (Flattened parts.now part.now (drop depth levels.old) depth draft.old draft.new) }
    ensures counted { OnOk result (Counted parts.now part.now depth draft.old draft.new) }
    ensures err { IfErr result (Fails parts.now part.now depth draft.old) }
    ensures early { IfErr result (λ e. rank e ≤ 10) }
{
    let reading = &readings[number];
    for place in 0..reading.leaves.len() {
        let leaf = reading.leaves.get(Id::at(place));
        add_leaf(alloc, leaf, from_depth(levels, depth), draft)?;
    }
    for item in &reading.items {
        match item {
            Item::Leaf(named) => add_leaf(alloc, named, from_depth(levels, depth), draft)?,
            Item::Copy(instance) => {
                if depth == 0 {
                    return Err(ElabError::TooDeep);
                }
                let inner = &parts.list()[instance.part];
                add_copy(instance.chans.as_slice(), inner, levels, depth, draft)?;
                flatten(
                    alloc,
                    parts,
                    readings,
                    instance.part,
                    inner,
                    levels,
                    depth - 1,
                    draft,
                )?;
            }
        }
    }
    Ok(())
}

// How many ends components have, unless they or their ends are too many for a net.
fn ends_of(comps: &Arena<FlatComp>) -> Option<usize>
    ensures { IfSome result (λ n. (n ≡ ends_of comps.now) × (n ≤ most_ends) × (length comps.now ≤ most_comps)) }
{
    if comps.len() > MOST_COMPONENTS {
        return None;
    }
    let mut ends = 0;
    for place in 0..comps.len() {
        let more = comps.get(Id::at(place)).chans.len();
        if more > MOST_ENDS - ends {
            return None;
        }
        ends += more;
    }
    Some(ends)
}

/// The net of a part, by its number, from what was read of it and of all that it reaches.
pub fn net_of(
    alloc: Global,
    parts: &Parts,
    mut readings: Vec<Reading>,
    number: usize,
    part: &Part,
) -> Result<Draft, ElabError>
    requires whole { All HasPortChannels parts.now }
    requires part_is { slice_get parts.now number ≡ Some part.now }
    requires read { IsReadBelow parts.now number readings.items }
    requires short { IsShort parts.now part.now most_instances }
    ensures within { IfOk result Within }
    ensures ok { IfOk result (IsNet parts.now part.now) }
    ensures err { IfErr result (λ e. (e ≡ Memory) ⊎ AppliesTo parts.now part.now e) }
    ensures early { IfErr result (λ e. rank e ≤ 10) }
{
    let mut draft = Draft {
        chans: Arena::new(alloc),
        comps: Arena::new(alloc),
        ends: 0,
    };
    enter(&mut draft, part, 0)?;
    if let Some((comps, ends)) = own_leaves(&mut readings, number) {
        return Ok(Draft {
            chans: draft.chans,
            comps,
            ends,
        });
    }
    flatten_top(alloc, parts, readings.as_slice(), number, part, &mut draft)?;
    Ok(draft)
}

// What was read of a part that has no instance, taken for the net's own, and how many ends these components have. None where
// there is an instance, or too much for a net.
fn own_leaves(readings: &mut Vec<Reading>, number: usize) -> Option<(Arena<FlatComp>, usize)>
    requires { number < length readings.old.items }
    ensures own { IfSome result (λ p. AreOwn readings.old.items number p.0 p.1) }
    ensures kept { IfNone result (readings.new.items ≡ readings.old.items) }
{
    let top = &readings[number];
    if !top.items.is_empty() {
        return None;
    }
    let ends = ends_of(&top.leaves)?;
    Some((readings.swap_remove(number).leaves, ends))
}

// `flatten` of the top.
fn flatten_top(
    alloc: Global,
    parts: &Parts,
    readings: &[Reading],
    number: usize,
    part: &Part,
    draft: &mut Draft,
) -> Result<(), ElabError>
    requires whole { All HasPortChannels parts.now }
    requires part_is { slice_get parts.now number ≡ Some part.now }
    requires levels { FitsNet [] (length part.now.channels.items) (length draft.old.chans) }
    requires read { IsReadBelow parts.now number readings.now }
    requires short { IsShort parts.now part.now most_instances }
    requires draft { Within draft.old }
    ensures within { Within draft.new }
    ensures ok { OnOk result (Flattened parts.now part.now [] most_instances draft.old draft.new) }
    ensures counted { OnOk result (Counted parts.now part.now most_instances draft.old draft.new) }
    ensures err { IfErr result (Fails parts.now part.now most_instances draft.old) }
    ensures early { IfErr result (λ e. rank e ≤ 10) }
{
    let none = Level {
        before: 0,
        ports: &[],
    };
    let mut levels = [none; MOST_INSTANCES as usize];
    flatten(
        alloc,
        parts,
        readings,
        number,
        part,
        &mut levels,
        MOST_INSTANCES,
        draft,
    )
}
