//! One component of a part: what it is, and whether its entries are what its kind or its part asks for.

ghost use Rattle.std.specs.Prelude.{◌≡◌, ◌<◌, ◌≤◌, ◌⊎◌, ◌↔◌, ◌+◌, ◌++◌, ◌∷◌, [], ℕ, length, take, map, not, count_by, slice_get, slice_index_or, MatchOption, IsTrue, IfOk, IfErr, IfSome, IsSome, OnOk};
ghost use Rattle.std.specs.List.{All};
ghost use Rattle.std.specs.Option.{option_copied};
ghost use Rattle.bz_model.specs.Rows.{row_of};
ghost use Rattle.bz_model.specs.Nets.{chan_in};
ghost use Rattle.bz_kind_rows.specs.Table.{seen};
ghost use Rattle.bz_elab.specs.declared.error.Fault.TheVariants as fault;
ghost use Rattle.bz_elab.specs.Entries.{flattened, named_in, singles, lists, single_of, list_of, sizes_of, in_row, in_order, arranged, guard_second, guard_in_front, pulls, FitsPorts};
ghost use Rattle.bz_elab.specs.Paths.{leaf_role, of_kind, instance};
ghost use Rattle.bz_elab.specs.Refusals.{HasFault, IsChannel, kinds_of, widths_of, formals_of, HasPortChannels};
ghost use Rattle.bz_elab.specs.Growth.{IsFlat, IsSoundInstance};
ghost use Rattle.bz_elab.specs.Order.{NoneBefore};

use crate::error::Fault;
use bz_breeze_records::{Component, Part, Slot};
use bz_flat::{CHANS_IN_PLACE, ChanList, FlatComp};
use bz_kind_rows::{PortRow, kind_of, kinds_are, port_table, row_of, sizes_fit, widths_fit};
use bz_model::{Chan, ChanKind, EntryOrder, Kind, MAX_MEMBERS};
use std::alloc::{AllocError, Global};

/// A component that is no instance, by the numbers that its part's channels have in that part.
/// The channels at its ports are gathered in `carried`, whatever that held.
pub fn leaf_of(
    alloc: Global,
    channels: &[Chan],
    component: &Component,
    carried: &mut Vec<Chan>,
) -> Result<FlatComp, Fault>
    ensures ok { IfOk result (IsFlat channels.now component.now) }
    ensures err { IfErr result (λ f. (f ≡ fault.Memory) ⊎ HasFault channels.now component.now (leaf_role component.now) f) }
    ensures first { IfErr result (NoneBefore channels.now component.now (leaf_role component.now)) }
{
    let entries = component.entries.as_slice();
    let kind = kind_of(
        alloc,
        component.name.as_slice(),
        component.params.as_slice(),
    )?;
    let Some(sizes) = fitting_sizes(&kind, entries) else {
        return Err(Fault::PortCount);
    };
    if !name_channels(entries, channels.len()) {
        return Err(Fault::BadChannel);
    }
    let chans = arranged_list(alloc, &kind, channels, entries)?;
    gather(channels, chans.as_slice(), carried)?;
    if !kinds_are(&kind, sizes, carried.as_slice()) {
        return Err(Fault::KindMismatch);
    }
    if !widths_fit(&kind, sizes, carried.as_slice()) {
        return Err(Fault::WidthMismatch);
    }
    Ok(FlatComp { kind, sizes, chans })
}

/// The channels that an instance's entries name, by their numbers in the part that it is a component of. The channels
/// themselves are gathered in `carried`, whatever that held.
pub fn instance_of(
    alloc: Global,
    channels: &[Chan],
    component: &Component,
    inner: &Part,
    carried: &mut Vec<Chan>,
) -> Result<Vec<u32>, Fault>
    requires { HasPortChannels inner.now }
    ensures ok { IfOk result (λ v. (v.items ≡ flattened component.now.entries.items) × IsSoundInstance channels.now component.now inner.now) }
    ensures err { IfErr result (λ f. (f ≡ fault.Memory) ⊎ HasFault channels.now component.now (instance inner.now) f) }
    ensures first { IfErr result (NoneBefore channels.now component.now (instance inner.now)) }
{
    let named = flattened(alloc, component.entries.as_slice())?;
    if named.len() != inner.ports.len() {
        return Err(Fault::PortCount);
    }
    if !are_channels(named.as_slice(), channels.len()) {
        return Err(Fault::BadChannel);
    }
    gather(channels, named.as_slice(), carried)?;
    let asked = &inner.channels[..inner.ports.len()];
    if !have_kinds(carried.as_slice(), asked) {
        return Err(Fault::KindMismatch);
    }
    if !have_widths(carried.as_slice(), asked) {
        return Err(Fault::WidthMismatch);
    }
    Ok(named)
}

/// All channels that entries name, in order: an instance's, in the order of its part's ports.
pub fn flattened(alloc: Global, entries: &[Slot]) -> Result<Vec<u32>, AllocError>
    ensures { IfOk result (λ v. v.items ≡ flattened entries.now) }
{
    let mut named = Vec::with_capacity(alloc, entries.len())?;
    for entry in entries {
        match entry {
            Slot::One(chan) => named.push(*chan)?,
            Slot::Many(chans) => named.extend_from_slice(chans.as_slice())?,
        }
    }
    Ok(named)
}

// The single entry at a place among the single entries.
fn single(entries: &[Slot], place: usize) -> Option<u32>
    ensures { result ≡ slice_get (singles entries.now) place }
{
    let mut before = 0;
    for entry in entries {
        if let Slot::One(chan) = entry {
            if before == place {
                return Some(*chan);
            }
            before += 1;
        }
    }
    None
}

// The list at a place among the lists.
fn list(entries: &[Slot], place: usize) -> Option<&[u32]>
    ensures { option_copied result ≡ slice_get (lists entries.now) place }
{
    let mut before = 0;
    for entry in entries {
        if let Slot::Many(chans) = entry {
            if before == place {
                return Some(chans.as_slice());
            }
            before += 1;
        }
    }
    None
}

// The lengths of the lists among the entries, where the entries are what a kind's ports ask for.
fn fitting_sizes(kind: &Kind, entries: &[Slot]) -> Option<[u32; 2]>
    ensures fits { IfSome result (λ sizes. FitsPorts kind.now entries.now × (sizes ≡ sizes_of entries.now)) }
    ensures none { FitsPorts kind.now entries.now → IsSome result }
{
    if !has_entries(port_table(kind), entries) {
        return None;
    }
    let sizes = array_sizes(entries)?;
    if !sizes_fit(kind, sizes) {
        return None;
    }
    Some(sizes)
}

// Whether there is a single entry for each single port and a list for each array.
fn has_entries(rows: &[PortRow], entries: &[Slot]) -> bool
    ensures { IsTrue result ↔ (length (singles entries.now) ≡ count_by (λ r. not r.array) (map seen rows.now)) × (length (lists entries.now) ≡ count_by (λ r. r.array) (map seen rows.now)) }
{
    let arrays = array_count(rows);
    let listed = list_count(entries);
    listed == arrays && entries.len() - listed == rows.len() - arrays
}

fn array_count(rows: &[PortRow]) -> usize
    ensures count { result ≡ count_by (λ r. r.array) (map seen rows.now) }
    ensures within { result ≤ length rows.now }
{
    let mut count = 0;
    for row in rows {
        if row.array {
            count += 1;
        }
    }
    count
}

fn list_count(entries: &[Slot]) -> usize
    ensures count { result ≡ length (lists entries.now) }
    ensures within { result ≤ length entries.now }
{
    let mut count = 0;
    for entry in entries {
        if let Slot::Many(_) = entry {
            count += 1;
        }
    }
    count
}

// Whether no list is longer than an array may be.
fn has_members(entries: &[Slot]) -> bool
    ensures { IsTrue result ↔ All (λ l. length l ≤ MAX_MEMBERS) (lists entries.now) }
{
    for entry in entries {
        match entry {
            Slot::One(_) => {}
            Slot::Many(chans) => {
                if chans.len() > MAX_MEMBERS as usize {
                    return false;
                }
            }
        }
    }
    true
}

/// The lengths of the lists among a component's entries, in order, 0 where there is none; nothing where a list is longer than
/// an array may be.
pub fn array_sizes(entries: &[Slot]) -> Option<[u32; 2]>
    ensures { MatchOption result (All (λ l. length l ≤ MAX_MEMBERS) (lists entries.now) → ⊥)
        (λ sizes. All (λ l. length l ≤ MAX_MEMBERS) (lists entries.now) × (sizes ≡ sizes_of entries.now)) }
{
    if has_members(entries) {
        Some(sizes_of(entries))
    } else {
        None
    }
}

// The lengths of the lists, in order, 0 where there is none.
fn sizes_of(entries: &[Slot]) -> [u32; 2]
    requires { All (λ l. length l ≤ MAX_MEMBERS) (lists entries.now) }
    ensures { result ≡ sizes_of entries.now }
{
    [size_at(entries, 0), size_at(entries, 1)]
}

fn size_at(entries: &[Slot], place: usize) -> u32
    requires { All (λ l. length l ≤ MAX_MEMBERS) (lists entries.now) }
    ensures { result ≡ slice_index_or (map length (lists entries.now)) place 0 }
{
    match list(entries, place) {
        Some(chans) => chans.len() as u32,
        None => 0,
    }
}

/// The channels that a component's entries name, in the order of the ports of its kind. `channels` are its part's.
pub fn arranged(
    alloc: Global,
    kind: &Kind,
    channels: &[Chan],
    entries: &[Slot],
) -> Result<Vec<u32>, AllocError>
    ensures { IfOk result (λ v. v.items ≡ arranged kind.now channels.now entries.now) }
{
    let mut chans = in_row(alloc, port_table(kind), entries)?;
    put_in_order(kind, channels, &mut chans);
    Ok(chans)
}

// The same, as a flat component has them.
fn arranged_list(
    alloc: Global,
    kind: &Kind,
    channels: &[Chan],
    entries: &[Slot],
) -> Result<ChanList, AllocError>
    ensures { IfOk result (λ list. list.items ≡ arranged kind.now channels.now entries.now) }
{
    let mut few = [0u32; CHANS_IN_PLACE];
    match place_row(port_table(kind), entries, &mut few) {
        Some(len) => {
            put_in_order(kind, channels, &mut few[..len]);
            Ok(ChanList::few(few, len))
        }
        None => Ok(ChanList::many(arranged(alloc, kind, channels, entries)?)),
    }
}

// Puts the channels of the entries into the first of these places, in the order of a row, and answers how many they are.
// None where there are more than places.
fn place_row(rows: &[PortRow], entries: &[Slot], places: &mut [u32]) -> Option<usize>
    ensures placed { IfSome result (λ n. take n places.new ≡ in_row (map seen rows.now) (singles entries.now) (lists entries.now)) }
    ensures within { IfSome result (λ n. n ≤ length places.old) }
    ensures same { length places.new ≡ length places.old }
{
    let mut len = 0;
    let mut ones = 0;
    let mut manys = 0;
    for row in rows {
        if row.array {
            match list(entries, manys) {
                Some(members) => len = place_all(members, places, len)?,
                None => {}
            }
            manys += 1;
        } else {
            match single(entries, ones) {
                Some(chan) => len = place_one(chan, places, len)?,
                None => {}
            }
            ones += 1;
        }
    }
    Some(len)
}

// Puts channels into the places from one on, and answers the place behind them.
fn place_all(chans: &[u32], places: &mut [u32], from: usize) -> Option<usize>
    requires { from ≤ length places.old }
    ensures placed { IfSome result (λ n. take n places.new ≡ take from places.old ++ chans.now) }
    ensures within { IfSome result (λ n. n ≤ length places.old) }
    ensures same { length places.new ≡ length places.old }
{
    if chans.len() > places.len() - from {
        return None;
    }
    let to = from + chans.len();
    places[from..to].copy_from_slice(chans);
    Some(to)
}

// Puts a channel into a place, and answers the next one.
#[inline(always)]
fn place_one(chan: u32, places: &mut [u32], at: usize) -> Option<usize>
    requires { at ≤ length places.old }
    ensures placed { IfSome result (λ n. take n places.new ≡ take at places.old ++ chan ∷ []) }
    ensures within { IfSome result (λ n. n ≤ length places.old) }
    ensures same { length places.new ≡ length places.old }
{
    if at >= places.len() {
        return None;
    }
    places[at] = chan;
    Some(at + 1)
}

// Room for all channels that entries name.
fn room_for(entries: &[Slot]) -> usize {
    let mut room = entries.len();
    for entry in entries {
        if let Slot::Many(chans) = entry {
            room = room.saturating_add(chans.len());
        }
    }
    room
}

// The channels of the entries, in the order of a row.
fn in_row(alloc: Global, rows: &[PortRow], entries: &[Slot]) -> Result<Vec<u32>, AllocError>
    ensures { IfOk result (λ v. v.items ≡ in_row (map seen rows.now) (singles entries.now) (lists entries.now)) }
{
    let mut chans = Vec::with_capacity(alloc, room_for(entries))?;
    let mut ones = 0;
    let mut manys = 0;
    for row in rows {
        if row.array {
            match list(entries, manys) {
                Some(members) => chans.extend_from_slice(members)?,
                None => {}
            }
            manys += 1;
        } else {
            match single(entries, ones) {
                Some(chan) => chans.push(chan)?,
                None => {}
            }
            ones += 1;
        }
    }
    Ok(chans)
}

// Puts the single entries of a kind that has a guard in the order of its ports.
fn put_in_order(kind: &Kind, channels: &[Chan], chans: &mut [u32])
    ensures { chans.new ≡ in_order kind.now channels.now chans.old }
{
    match row_of(kind).entries {
        EntryOrder::AsPorts => {}
        EntryOrder::GuardSecond => put_guard_second(channels, chans),
        EntryOrder::GuardInFront => put_guard_in_front(channels, chans),
    }
}

fn put_guard_second(channels: &[Chan], chans: &mut [u32])
    ensures { chans.new ≡ guard_second channels.now chans.old }
{
    if chans.len() != 3 {
        return;
    }
    let (first, second, third) = (chans[0], chans[1], chans[2]);
    if pulls(channels, first) {
        chans[0] = second;
        chans[1] = first;
    } else if !pulls(channels, second) {
        if pulls(channels, third) {
            chans[1] = third;
            chans[2] = second;
        }
    }
}

fn put_guard_in_front(channels: &[Chan], chans: &mut [u32])
    ensures { chans.new ≡ guard_in_front channels.now chans.old }
{
    if chans.len() < 2 {
        return;
    }
    let (first, second) = (chans[0], chans[1]);
    if !pulls(channels, first) {
        if pulls(channels, second) {
            chans[0] = second;
            chans[1] = first;
        }
    }
}

// Whether the channel of a number is a pull channel.
fn pulls(channels: &[Chan], number: u32) -> bool
    ensures { result ≡ pulls channels.now number }
{
    match channels.get((number as usize).saturating_sub(1)) {
        Some(chan) => matches!(chan.kind, ChanKind::Pull),
        None => false,
    }
}

// Whether all numbers are those of channels, of which there are so many.
fn are_channels(numbers: &[u32], count: usize) -> bool
    ensures { IsTrue result ↔ All (λ k. (0 < k) × (k ≤ count)) numbers.now }
{
    numbers.iter().all(|k| 0 < *k && *k as usize <= count)
}

// Whether all that entries name are channels, of which there are so many.
fn name_channels(entries: &[Slot], count: usize) -> bool
    ensures { IsTrue result ↔ All (λ e. All (λ k. (0 < k) × (k ≤ count)) (named_in e)) entries.now }
{
    entries.iter().all(|entry| names_channels(entry, count))
}

// Whether all that an entry names are.
fn names_channels(entry: &Slot, count: usize) -> bool
    ensures { IsTrue result ↔ All (λ k. (0 < k) × (k ≤ count)) (named_in entry.now) }
{
    match entry {
        Slot::One(chan) => are_channels(&[*chan], count),
        Slot::Many(chans) => are_channels(chans.as_slice(), count),
    }
}

// Gathers the channels of these numbers, whatever was gathered before.
fn gather(channels: &[Chan], numbers: &[u32], carried: &mut Vec<Chan>) -> Result<(), AllocError>
    requires { All (IsChannel channels.now) numbers.now }
    ensures { OnOk result (carried.new.items ≡ map (chan_in channels.now) numbers.now) }
{
    carried.clear();
    for number in numbers {
        carried.push(channels[*number as usize - 1])?;
    }
    Ok(())
}

// Whether channels are of the same kinds as others, in order.
fn have_kinds(chans: &[Chan], asked: &[Chan]) -> bool
    ensures { IsTrue result ↔ (kinds_of chans.now ≡ kinds_of asked.now) }
{
    if chans.len() != asked.len() {
        return false;
    }
    for (i, chan) in chans.iter().enumerate() {
        if !is_same(chan.kind, asked[i].kind) {
            return false;
        }
    }
    true
}

fn is_same(kind: ChanKind, other: ChanKind) -> bool
    ensures { IsTrue result ↔ (kind ≡ other) }
{
    kind == other
}

// Whether channels are of the same widths as others, in order.
fn have_widths(chans: &[Chan], asked: &[Chan]) -> bool
    ensures { IsTrue result ↔ (widths_of chans.now ≡ widths_of asked.now) }
{
    if chans.len() != asked.len() {
        return false;
    }
    for (i, chan) in chans.iter().enumerate() {
        if chan.width != asked[i].width {
            return false;
        }
    }
    true
}
