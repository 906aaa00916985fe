//! The ends of each channel: which component holds which.

ghost use Rattle.std.specs.Prelude.{◌≡◌, ◌<◌, ◌≤◌, ◌+◌, ◌-◌, ◌^◌, ℕ, List, Decides, not, length, map, slice_index_or, IfOk, IfErr, OnOk};
ghost use Rattle.bz_model.specs.Names.{external};
ghost use Rattle.bz_model.specs.Nets.{Site};
ghost use Rattle.bz_flat.specs.declared.error.ElabError.TheVariants.{Memory, TwoEnds, LooseEnd, PortSense};
ghost use Rattle.bz_flat.specs.Flats.{site_of, sites_of};
ghost use Rattle.bz_flat.specs.Wires.{end_at};
ghost use Rattle.bz_elab.specs.EndFaults.{Adds, AreAll, AreDoubled, AreEnds, AreMarked, HasOther, HostAt, IsEndFault, OneAt, TwoAt};
ghost use Rattle.bz_elab.specs.Seats.{ChansFit, CompsFit, WellEnded, WiringFault, Seats, Seated, IsHere, Passed};

use bz_arena::{Arena, Id};
use bz_flat::{ElabError, Ends, FlatComp};
use bz_kind_rows::is_passive;
use bz_model::Port;
use std::alloc::{AllocError, Global};

/// The ends of each channel, where each channel with a component end has one of each sense, the host holding the other
/// one at an external port.
pub fn wire(
    alloc: Global,
    comps: &Arena<FlatComp>,
    ports: &[Port],
    chans: u32,
) -> Result<Vec<Ends>, ElabError>
    requires fit { CompsFit chans (sites_of comps.now) }
    requires ports_to { length ports.now ≤ chans }
    ensures ok { IfOk result (λ ends. (length ends.items ≡ chans) × WellEnded (sites_of comps.now) (map external ports.now) ends.items) }
    ensures err { IfErr result (WiringFault (sites_of comps.now) (map external ports.now)) }
{
    let (ends, least) = table(alloc, comps, chans)?;
    if least != u32::MAX {
        return Err(ElabError::TwoEnds(least));
    }
    for k in ports.len()..ends.len() {
        let pair = ends[k];
        if pair.active.is_some() != pair.passive.is_some() {
            return Err(ElabError::LooseEnd(k as u32 + 1));
        }
    }
    for (k, port) in ports.iter().enumerate() {
        let pair = ends[k];
        let at_host = if port.passive {
            pair.active
        } else {
            pair.passive
        };
        if at_host.is_some() {
            return Err(ElabError::PortSense(k as u32 + 1));
        }
    }
    Ok(ends)
}

/// All that is wrong with the ends of the channels of a net, each once, in the order of refusals.
pub fn end_faults(
    alloc: Global,
    comps: &Arena<FlatComp>,
    ports: &[Port],
    chans: u32,
) -> Result<Vec<ElabError>, ElabError>
    requires fit { CompsFit chans (sites_of comps.now) }
    requires ports_to { length ports.now ≤ chans }
    ensures ok { IfOk result (λ v. AreAll (IsEndFault (sites_of comps.now) (map external ports.now)) v.items) }
    ensures err { IfErr result (λ e. e ≡ Memory) }
{
    let (ends, _least) = table(alloc, comps, chans)?;
    let doubled = doubled(alloc, comps, ends.as_slice())?;
    let mut faults = Vec::new(alloc);
    add_doubled(&mut faults, doubled.as_slice())?;
    add_loose(&mut faults, ports.len(), ends.as_slice())?;
    add_misused(&mut faults, ports, ends.as_slice())?;
    Ok(faults)
}

// Adds the channels that are marked.
fn add_doubled(faults: &mut Vec<ElabError>, doubled: &[bool]) -> Result<(), AllocError>
    requires { length doubled.now < 2 ^ 32 - 1 }
    ensures { OnOk result (Adds TwoEnds (TwoAt doubled.now) faults.old.items faults.new.items) }
{
    for (k, is_doubled) in doubled.iter().enumerate() {
        if *is_doubled {
            faults.push(ElabError::TwoEnds(k as u32 + 1))?;
        }
    }
    Ok(())
}

// Adds the channels beyond the ports that have one component end alone.
fn add_loose(faults: &mut Vec<ElabError>, ports: usize, ends: &[Ends]) -> Result<(), AllocError>
    requires { length ends.now < 2 ^ 32 - 1 }
    ensures { OnOk result (Adds LooseEnd (OneAt ports ends.now) faults.old.items faults.new.items) }
{
    for k in ports..ends.len() {
        let pair = ends[k];
        if pair.active.is_some() != pair.passive.is_some() {
            faults.push(ElabError::LooseEnd(k as u32 + 1))?;
        }
    }
    Ok(())
}

// Adds the ports with a component end where the host's is to be.
fn add_misused(faults: &mut Vec<ElabError>, ports: &[Port], ends: &[Ends]) -> Result<(), AllocError>
    requires few { length ends.now < 2 ^ 32 - 1 }
    requires ports_to { length ports.now ≤ length ends.now }
    ensures { OnOk result (Adds PortSense (HostAt (map external ports.now) ends.now) faults.old.items faults.new.items) }
{
    for (k, port) in ports.iter().enumerate() {
        if at_host(ends, k, port.passive).is_some() {
            faults.push(ElabError::PortSense(k as u32 + 1))?;
        }
    }
    Ok(())
}

// What stands where the host's end is to be, at the port that has so many before it, of this sense.
fn at_host(ends: &[Ends], before: usize, passive: bool) -> Option<u32>
    requires { before < length ends.now }
    ensures { result ≡ end_at ends.now (before + 1) (not passive) }
{
    let pair = ends[before];
    if passive { pair.active } else { pair.passive }
}

// Marks the channels with two ends of one sense, one of which alone stands in the table.
fn doubled(alloc: Global, comps: &Arena<FlatComp>, ends: &[Ends]) -> Result<Vec<bool>, AllocError>
    requires fit { CompsFit (length ends.now) (sites_of comps.now) }
    requires stand { AreEnds (sites_of comps.now) ends.now }
    ensures doubled { IfOk result (λ v. (length v.items ≡ length ends.now) × AreDoubled (sites_of comps.now) v.items) }
    ensures all { IfOk result (λ v. AreMarked (sites_of comps.now) (Passed (length comps.now + 1) 0) ends.now v.items) }
{
    let mut marks = vec![in alloc; false; ends.len()]?;
    for i in 0..comps.len() {
        mark_doubled(ends, comps.get(Id::at(i)), i as u32 + 1, &mut marks);
    }
    Ok(marks)
}

// Marks those at which an end of a component's is not the one in the table.
fn mark_doubled(ends: &[Ends], comp: &FlatComp, number: u32, marks: &mut [bool])
    requires number_from { 0 < number }
    requires few { length comp.now.chans.items < 2 ^ 32 }
    requires same { length marks.old ≡ length ends.now }
    requires within { ChansFit (length ends.now) comp.now.chans.items }
    ensures same { length marks.new ≡ length marks.old }
    ensures doubled { (sites : List Site) → IsHere sites number (site_of comp.now) → AreEnds sites ends.now → AreDoubled sites marks.old → AreDoubled sites marks.new }
    ensures all { (sites : List Site) → IsHere sites number (site_of comp.now) → AreMarked sites (Passed number 0) ends.now marks.old → AreMarked sites (Passed number (length comp.now.chans.items)) ends.now marks.new }
{
    for (i, chan) in comp.chans.iter().enumerate() {
        let port = i as u32 + 1;
        let passive = is_passive(&comp.kind, comp.sizes, port);
        if is_other(ends, *chan, passive, number, port) {
            marks[*chan as usize - 1] = true;
        }
    }
}

// Whether an end other than this one stands in the table.
fn is_other(ends: &[Ends], chan: u32, passive: bool, comp: u32, port: u32) -> bool
    requires from { 0 < chan }
    requires to { chan ≤ length ends.now }
    ensures { Decides result (HasOther ends.now chan passive comp port) }
{
    let pair = ends[chan as usize - 1];
    let (stands, at) = if passive {
        (pair.passive, pair.passive_port)
    } else {
        (pair.active, pair.active_port)
    };
    match stands {
        Some(other) => other != comp || at != port,
        None => false,
    }
}

// The ends of each channel and the least channel with two of one sense, `u32::MAX` where there is none.
fn table(alloc: Global, comps: &Arena<FlatComp>, chans: u32) -> Result<(Vec<Ends>, u32), ElabError>
    requires { CompsFit chans (sites_of comps.now) }
    ensures ok { IfOk result (λ r. (length r.0.items ≡ chans) × Seated (sites_of comps.now) (Passed (length comps.now + 1) 0) r.0.items r.1) }
    ensures err { IfErr result (λ e. e ≡ Memory) }
{
    let none = Ends {
        active: None,
        passive: None,
        active_port: 0,
        passive_port: 0,
    };
    let mut ends = vec![in alloc; none; chans as usize]?;
    let mut least = u32::MAX;
    for i in 0..comps.len() {
        let comp = comps.get(Id::at(i));
        least = seat_comp(ends.as_mut_slice(), least, comp, i as u32 + 1);
    }
    Ok((ends, least))
}

// Notes all ends of a component; answers the least channel, with `clash`, at which one of its sense stood already.
fn seat_comp(ends: &mut [Ends], clash: u32, comp: &FlatComp, number: u32) -> u32
    requires number_from { 0 < number }
    requires few { length comp.now.chans.items < 2 ^ 32 }
    requires small { length ends.old < 2 ^ 32 - 1 }
    requires within { ChansFit (length ends.old) comp.now.chans.items }
    ensures { (sites : List Site) → IsHere sites number (site_of comp.now) → Seated sites (Passed number 0) ends.old clash → Seated sites (Passed number (length comp.now.chans.items)) ends.new result }
{
    let mut least = clash;
    for (i, chan) in comp.chans.iter().enumerate() {
        let port = i as u32 + 1;
        if seat(
            ends,
            *chan,
            is_passive(&comp.kind, comp.sizes, port),
            number,
            port,
        ) {
            least = least.min(*chan);
        }
    }
    least
}

// Notes an end and its port; true where one of its sense stood there already.
fn seat(ends: &mut [Ends], chan: u32, passive: bool, comp: u32, port: u32) -> bool
    requires from { 0 < chan }
    requires to { chan ≤ length ends.old }
    ensures { Seats ends.old ends.new chan passive comp port result }
{
    let k = chan as usize - 1;
    let pair = ends[k];
    if passive {
        if pair.passive.is_some() {
            return true;
        }
        ends[k] = Ends {
            passive: Some(comp),
            passive_port: port,
            ..pair
        };
    } else {
        if pair.active.is_some() {
            return true;
        }
        ends[k] = Ends {
            active: Some(comp),
            active_port: port,
            ..pair
        };
    }
    false
}
