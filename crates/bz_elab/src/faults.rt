//! The components of parts, each read once, and their least fault.

ghost use Rattle.std.specs.Prelude.{◌≡◌, ◌<◌, ◌⊎◌, ℕ, true, None, Some, [], ◌∷◌, ◌++◌, length, slice_get, IfOk, IfErr, OnOk};
ghost use Rattle.std.specs.List.{All};
ghost use Rattle.bz_flat.specs.declared.error.ElabError.TheVariants.{Memory};
ghost use Rattle.bz_elab.specs.declared.error.Fault.TheVariants as fault;
ghost use Rattle.bz_elab.specs.Faults.{error_at};
ghost use Rattle.bz_elab.specs.Paths.{component};
ghost use Rattle.bz_elab.specs.Refusals.{HasPortChannels, HasFault};
ghost use Rattle.bz_elab.specs.Order.{order};
ghost use Rattle.bz_elab.specs.Least.{IsFirstFault, IsSeen, IsSeenCopy, IsLeastFault, InMarked, LeastOn, lesser};
ghost use Rattle.bz_elab.specs.Numbers.{is_marked};
ghost use Rattle.bz_elab.specs.Readings.{AreRead, AreReadings, told};
ghost use Rattle.bz_elab.specs.Totals.{AreTotals};

use crate::component::{instance_of, leaf_of};
use crate::error::{CompAt, Fault};
use crate::reading::{Instance, Item, Reading};
use crate::totals::{Total, is_bare};
use crate::walk::{MOST_INSTANCES, find};
use bz_arena::Arena;
use bz_breeze_records::{Component, Part, Parts};
use bz_flat::ElabError;
use bz_model::Chan;
use std::alloc::{AllocError, Global};

/// A fault, and the component that has it.
#[derive(Clone, Copy)]
pub struct Found {
    pub fault: Fault,
    pub spot: CompAt,
}

/// What was seen of a component: its first fault, that it adds nothing to the net, or what it adds.
#[derive(Drop)]
pub enum Seen {
    Wrong(Fault),
    Nothing,
    Adds(Item),
}

impl Found {
    /// The refusal of the part.
    pub fn error(self) -> ElabError
        ensures { result ≡ error_at self.fault self.spot.part self.spot.position }
    {
        self.fault.at(self.spot)
    }
}

/// What was read of the marked parts, and the first fault in the order of refusals, at its least place, of their components.
/// Leaves are placed for the part at `top` alone.
pub fn read_parts(
    alloc: Global,
    parts: &Parts,
    totals: &[Option<Total>],
    top: usize,
    marks: &[bool],
) -> Result<(Option<Found>, Vec<Reading>), ElabError>
    requires whole { All HasPortChannels parts.now }
    requires totals { AreTotals parts.now totals.now }
    requires marks { length marks.now ≡ length parts.now }
    ensures ok { IfOk result (λ r. IsLeastFault parts.now (InMarked marks.now) r.0) }
    ensures read { IfOk result (λ r. r.0 ≡ None → AreReadings parts.now (λ n. is_marked marks.now n ≡ true) r.1.items) }
    ensures err { IfErr result (λ e. e ≡ Memory) }
{
    let list = parts.list();
    let mut least = None;
    let mut readings = Vec::with_capacity(alloc, list.len())?;
    for (number, part) in list.iter().enumerate() {
        let mut reading = Reading {
            leaves: Arena::new(alloc),
            items: Vec::new(alloc),
        };
        if marks[number] {
            least = read_part(
                alloc,
                parts,
                totals,
                number,
                part,
                number == top,
                least,
                &mut reading,
            )?;
        }
        readings.push(reading)?;
    }
    Ok((least, readings))
}

// Reads the components of a part; answers the lesser of a fault that was found and the least one of the part.
fn read_part(
    alloc: Global,
    parts: &Parts,
    totals: &[Option<Total>],
    number: usize,
    part: &Part,
    is_top: bool,
    before: Option<Found>,
    reading: &mut Reading,
) -> Result<Option<Found>, ElabError>
    requires whole { All HasPortChannels parts.now }
    requires totals { AreTotals parts.now totals.now }
    requires part_is { slice_get parts.now number ≡ Some part.now }
    requires reading { told reading.old ≡ [] }
    ensures ok { IfOk result (LeastOn parts.now number before) }
    ensures kept { IfOk result (λ least. least ≡ None → before ≡ None) }
    ensures read { IfOk result (λ least. least ≡ None → AreRead parts.now part.now.channels.items part.now.components.items (told reading.new)) }
    ensures err { IfErr result (λ e. e ≡ Memory) }
{
    let mut least = before;
    let mut carried = Vec::new(alloc);
    for (place, component) in part.components.iter().enumerate() {
        match look(
            alloc,
            parts,
            totals,
            part.channels.as_slice(),
            component,
            &mut carried,
        )? {
            Seen::Nothing => {}
            Seen::Adds(item) => add_item(reading, is_top, item)?,
            Seen::Wrong(fault) => {
                let spot = CompAt {
                    part: number,
                    position: place + 1,
                };
                least = Some(lesser(least, Found { fault, spot }));
            }
        }
    }
    Ok(least)
}

// One more component of a part. A leaf of the top before its first instance is placed where it may stay.
fn add_item(reading: &mut Reading, is_top: bool, item: Item) -> Result<(), AllocError>
    ensures { OnOk result (told reading.new ≡ told reading.old ++ item ∷ []) }
{
    match item {
        Item::Leaf(leaf) if is_top && reading.items.is_empty() => match reading.leaves.push(leaf) {
            Ok(_) => Ok(()),
            Err(_) => Err(AllocError),
        },
        item => Ok(reading.items.push(item)?),
    }
}

// Looks at a component. The channels at its ports are gathered in `carried`, whatever that held.
fn look(
    alloc: Global,
    parts: &Parts,
    totals: &[Option<Total>],
    channels: &[Chan],
    component: &Component,
    carried: &mut Vec<Chan>,
) -> Result<Seen, ElabError>
    requires whole { All HasPortChannels parts.now }
    requires totals { AreTotals parts.now totals.now }
    ensures ok { IfOk result (IsSeen parts.now channels.now component.now) }
    ensures err { IfErr result (λ e. e ≡ Memory) }
{
    let fault = match find(parts, component.name.as_slice()) {
        None => match leaf_of(alloc, channels, component, carried) {
            Ok(leaf) => return Ok(Seen::Adds(Item::Leaf(leaf))),
            Err(fault) => fault,
        },
        Some(inner) => match instance_of(
            alloc,
            channels,
            component,
            &parts.list()[inner],
            carried,
        ) {
            Ok(chans) => return Ok(seen_copy(parts, totals, inner, chans)),
            Err(fault) => fault,
        },
    };
    if fault.order() == 0 {
        return Err(ElabError::Memory);
    }
    Ok(Seen::Wrong(fault))
}

/// The first fault of a component of a part with these channels, if it has one. The channels at its ports are gathered in
/// `carried`, whatever that held.
pub fn first_fault(
    alloc: Global,
    parts: &Parts,
    channels: &[Chan],
    component: &Component,
    carried: &mut Vec<Chan>,
) -> Result<Option<Fault>, AllocError>
    ensures { IfOk result (IsFirstFault parts.now channels.now component.now) }
{
    let first = match find(parts, component.name.as_slice()) {
        None => match leaf_of(alloc, channels, component, carried) {
            Ok(_) => return Ok(None),
            Err(fault) => fault,
        },
        Some(inner) => match instance_of(
            alloc,
            channels,
            component,
            &parts.list()[inner],
            carried,
        ) {
            Ok(_) => return Ok(None),
            Err(fault) => fault,
        },
    };
    if first.order() == 0 {
        return Err(AllocError);
    }
    Ok(Some(first))
}

// What an instance of a part adds, its entries naming these channels.
fn seen_copy(parts: &Parts, totals: &[Option<Total>], inner: usize, chans: Vec<u32>) -> Seen
    requires totals { AreTotals parts.now totals.now }
    requires inner { inner < length parts.now }
    ensures { IsSeenCopy parts.now inner chans.items result }
{
    let part = &parts.list()[inner];
    if part.channels.len() <= part.ports.len() && is_bare(totals, inner, MOST_INSTANCES) {
        Seen::Nothing
    } else {
        Seen::Adds(Item::Copy(Instance { part: inner, chans }))
    }
}

// The one that comes first in the order, the earlier one of two alike.
fn lesser(before: Option<Found>, found: Found) -> Found
    ensures { result ≡ lesser before found }
{
    match before {
        None => found,
        Some(least) => {
            if least.fault.order() <= found.fault.order() {
                least
            } else {
                found
            }
        }
    }
}
