//! Whether what a component has meets the row of its kind.

ghost use Rattle.std.specs.Prelude.{◌≡◌, ◌+◌, ◌==◌, nat_le, ◌↔◌, ℕ, List, [], map, IsTrue, All, slice_index_or};
ghost use Rattle.std.specs.List.{list_all};
ghost use Rattle.bz_model.specs.declared.channel.ChanKind.TheVariants.{Sync};
ghost use Rattle.bz_model.specs.Rows.{row_of, ports_of, count_of, others_of, is_passive, active_port, fits_sizes, has_sizes, meets_lengths, is_wide, least_width, chans_at, have_width, number_of, whole_width, is_met, asks_widths, has_widths, width, widths};
ghost use Rattle.std.specs.Option.{option_copied, option_map};
ghost use Rattle.bz_kind_rows.specs.Table.{seen, seen_rule, seen_at, port_in, numbered_port, left_of};

use crate::ports::PortRow;
use crate::rows::{WidthRule, row_of};
use bz_model::{Chan, ChanKind, Kind, LengthRule, MAX_MEMBERS, MAX_WIDTH, Spans, width};

/// The ports of a kind, in their order.
#[inline]
pub fn port_table(kind: &Kind) -> &'static [PortRow]
    ensures { map seen result.now ≡ row_of kind.now }
{
    row_of(kind).ports
}

/// A port of a component: its row, and its place in its array, from 1, where its row is one.
#[derive(Clone, Copy)]
pub struct PortAt {
    pub row: &'static PortRow,
    pub member: Option<u32>,
}

/// The port of this number, counted from 1. `sizes` are the lengths of the kind's arrays, in the table's order.
pub fn port_at(kind: &Kind, sizes: [u32; 2], port: u32) -> Option<PortAt>
    ensures { option_map seen_at result ≡ numbered_port (row_of kind.now) sizes port }
{
    if port == 0 {
        return None;
    }
    port_in(port_table(kind), &sizes, port - 1)
}

/// Whether a port is the passive end of its channel. `sizes` are the lengths of the kind's arrays, in the table's order.
#[inline]
pub fn is_passive(kind: &Kind, sizes: [u32; 2], port: u32) -> bool
    ensures { result ≡ is_passive kind.now sizes port }
{
    if port == 0 {
        return false;
    }
    passive_at(port_table(kind), &sizes, port - 1)
}

/// Whether a kind's arrays may have these lengths, in the table's order.
pub fn sizes_fit(kind: &Kind, sizes: [u32; 2]) -> bool
    ensures { IsTrue result ↔ IsTrue (has_sizes kind.now sizes) }
{
    let row = row_of(kind);
    fits(row.ports, &sizes)
        && match (row.lengths, kind.spans()) {
            (Some(LengthRule::Equal), _) => sizes[0] == sizes[1],
            (Some(LengthRule::Sets), Some(spans)) => spans.has_sets(sizes[0]),
            (Some(LengthRule::Sets), None) | (None, _) => true,
        }
}

/// Whether channels, in the order of the ports, carry what the kind's ports do.
pub fn kinds_are(kind: &Kind, sizes: [u32; 2], chans: &[Chan]) -> bool
    ensures { IsTrue result ↔ (map (λ c. c.kind) chans.now ≡ map (λ r. r.kind) (ports_of (row_of kind.now) sizes)) }
{
    carry(port_table(kind), &sizes, chans)
}

/// Whether channels, in the order of the ports, have widths that the kind allows. `sizes` are the lengths of its arrays.
pub fn widths_fit(kind: &Kind, sizes: [u32; 2], chans: &[Chan]) -> bool
    ensures { IsTrue result ↔ IsTrue (has_widths kind.now sizes chans.now) }
{
    are_wide(chans) && are_asked(kind, sizes, chans)
}

// Whether the widths are in the limits of what the channels carry.
fn are_wide(chans: &[Chan]) -> bool
    ensures { result ≡ list_all is_wide chans.now }
{
    chans.iter().all(|chan| least_width(chan.kind) <= chan.width && chan.width <= MAX_WIDTH)
}

fn least_width(kind: ChanKind) -> u32
    ensures { result ≡ least_width kind }
{
    match kind {
        ChanKind::Sync => 0,
        ChanKind::Push | ChanKind::Pull => 1,
    }
}

// Whether the widths are as the kind asks.
fn are_asked(kind: &Kind, sizes: [u32; 2], chans: &[Chan]) -> bool
    ensures { result ≡ asks_widths kind.now sizes chans.now }
{
    let row = row_of(kind);
    for rule in row.widths {
        if !is_met(rule, kind, row.ports, &sizes, chans) {
            return false;
        }
    }
    true
}

// Whether widths are as a rule of a kind asks, which has these ports.
fn is_met(rule: &WidthRule, kind: &Kind, rows: &[PortRow], sizes: &[u32], chans: &[Chan]) -> bool
    ensures { result ≡ is_met (chans_at (map seen rows.now) sizes.now chans.now) (number_of kind.now) (seen_rule rule.now) }
{
    match rule {
        WidthRule::Equal([]) => true,
        WidthRule::Equal([first, rest @ ..]) => {
            let members = chans_at(rows, sizes, chans, *first);
            let asked = width(members, 0);
            have_width(members, asked) && all_have(rows, sizes, chans, rest, asked)
        }
        WidthRule::One(places) => all_have(rows, sizes, chans, places, 1),
        WidthRule::Sum(whole, places) => {
            is_sum(
                rows,
                sizes,
                chans,
                places,
                width_at(rows, sizes, chans, *whole),
            )
        }
        WidthRule::Within(part, whole) => {
            let end = width_at(rows, sizes, chans, *whole);
            is_within(kind.number(), width_at(rows, sizes, chans, *part), end)
        }
    }
}

// The width of the first channel at a place.
fn width_at(rows: &[PortRow], sizes: &[u32], chans: &[Chan], place: usize) -> u32
    ensures { result ≡ width (chans_at (map seen rows.now) sizes.now chans.now place) 1 }
{
    width(chans_at(rows, sizes, chans, place), 0)
}

// Whether each channel at these places has this width.
fn all_have(rows: &[PortRow], sizes: &[u32], chans: &[Chan], places: &[usize], width: u32) -> bool
    ensures { result ≡ list_all (λ p. have_width (chans_at (map seen rows.now) sizes.now chans.now p) width) places.now }
{
    places.iter().all(|place| have_width(chans_at(rows, sizes, chans, *place), width))
}

// Whether this is the width of all channels at these places together.
fn is_sum(rows: &[PortRow], sizes: &[u32], chans: &[Chan], places: &[usize], whole: u32) -> bool
    ensures { result ≡ (whole == whole_width (chans_at (map seen rows.now) sizes.now chans.now) places.now) }
{
    let [place, rest @ ..] = places else {
        return whole == 0;
    };
    match left_of(whole, chans_at(rows, sizes, chans, *place)) {
        Some(left) => is_sum(rows, sizes, chans, rest, left),
        None => false,
    }
}

// What is left of a width once those of channels are taken from it.
fn left_of(whole: u32, chans: &[Chan]) -> Option<u32>
    ensures { result ≡ left_of whole (widths chans.now) }
{
    let mut left = whole;
    for chan in chans {
        match left.checked_sub(chan.width) {
            Some(less) => left = less,
            None => return None,
        }
    }
    Some(left)
}

// The channels of the port or the array at a place.
fn chans_at<'c>(rows: &[PortRow], sizes: &[u32], chans: &'c [Chan], place: usize) -> &'c [Chan]
    ensures { result.now ≡ chans_at (map seen rows.now) sizes.now chans.now place }
{
    let [row, rest @ ..] = rows else {
        return &[];
    };
    let (count, others) = ports_here(row, sizes);
    let (here, behind) = chans.split_at(chans.len().min(count as usize));
    if place == 0 {
        here
    } else {
        chans_at(rest, others, behind, place - 1)
    }
}

// Whether a width, from bit `low` on, is within another one.
fn is_within(low: u128, width: u32, whole: u32) -> bool
    ensures { result ≡ nat_le (low + width) whole }
{
    match low.checked_add(u128::from(width)) {
        Some(end) => end <= u128::from(whole),
        None => false,
    }
}

// How many ports a row stands for, and the lengths of the arrays after it.
fn ports_here<'a>(row: &PortRow, sizes: &'a [u32]) -> (u32, &'a [u32])
    ensures count { result.0 ≡ count_of (seen row.now) sizes.now }
    ensures others { result.1.now ≡ others_of (seen row.now) sizes.now }
{
    match sizes {
        _ if !row.array => (1, sizes),
        [size, others @ ..] => (*size, others),
        [] => (0, sizes),
    }
}

// The port at this place, counted from 0.
fn port_in(rows: &'static [PortRow], sizes: &[u32], place: u32) -> Option<PortAt>
    ensures { option_map seen_at result ≡ port_in (map seen rows.now) sizes.now place }
{
    let [row, rest @ ..] = rows else {
        return None;
    };
    let (count, others) = ports_here(row, sizes);
    if place >= count {
        return port_in(rest, others, place - count);
    }
    let member = if row.array { Some(place + 1) } else { None };
    Some(PortAt { row, member })
}

// Whether the port at this place, counted from 0, is passive.
fn passive_at(rows: &[PortRow], sizes: &[u32], place: u32) -> bool
    ensures { result ≡ (slice_index_or (ports_of (map seen rows.now) sizes.now) place (active_port [] Sync)).passive }
{
    let [row, rest @ ..] = rows else {
        return false;
    };
    let (count, others) = ports_here(row, sizes);
    if place < count {
        row.passive
    } else {
        passive_at(rest, others, place - count)
    }
}

fn fits(rows: &[PortRow], sizes: &[u32]) -> bool
    ensures { result ≡ fits_sizes (map seen rows.now) sizes.now }
{
    let [row, rest @ ..] = rows else {
        return are_none(sizes);
    };
    let (count, others) = ports_here(row, sizes);
    if row.array && (count < 1 || count > MAX_MEMBERS) {
        return false;
    }
    fits(rest, others)
}

fn are_none(sizes: &[u32]) -> bool
    ensures { result ≡ list_all (λ n. n == 0) sizes.now }
{
    sizes.iter().all(|size| *size == 0)
}

fn carry(rows: &[PortRow], sizes: &[u32], chans: &[Chan]) -> bool
    ensures { IsTrue result ↔ (map (λ c. c.kind) chans.now ≡ map (λ r. r.kind) (ports_of (map seen rows.now) sizes.now)) }
{
    let [row, rest @ ..] = rows else {
        return chans.is_empty();
    };
    let (count, others) = ports_here(row, sizes);
    let count = count as usize;
    if chans.len() < count || !all_carry(&chans[..count], row.kind) {
        return false;
    }
    carry(rest, others, &chans[count..])
}

fn all_carry(chans: &[Chan], kind: ChanKind) -> bool
    ensures { IsTrue result ↔ All (λ c. c.kind ≡ kind) chans.now }
{
    chans.iter().all(|chan| chan.kind == kind)
}

fn have_width(chans: &[Chan], width: u32) -> bool
    ensures { result ≡ have_width chans.now width }
{
    chans.iter().all(|chan| chan.width == width)
}
