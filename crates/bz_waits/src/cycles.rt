//! Cycles of waiting.
//!
//! Components that wait for no other are taken out of the graph again and again (Kahn's algorithm). Whoever is left waits
//! for one that is left, and from each the way to the least of these ends in a cycle. What this finds is looked at again, link by
//! link, before it is told. Only who waits, and who is waited for, is looked at: in a large net few do.

ghost use Rattle.std.specs.Prelude.{IfOk, IsTrue};
ghost use Rattle.bz_waits.specs.Cycles.{AreCycles, IsCycle, WaitsFor};

use crate::table::Table;
use crate::wait::Wait;
use std::alloc::{AllocError, Global};

/// The cycles among so many components that wait for one another in any case, each from its least member on. From each component
/// the step goes to the least that is in a cycle or leads to one.
pub(crate) fn cycles(alloc: Global, comps: u32, waits: &[Wait]) -> Result<Vec<Vec<u32>>, AllocError>
    ensures { IfOk result (λ found. AreCycles waits.now found.items) }
{
    if !have_link(waits) {
        return Ok(Vec::new(alloc));
    }
    let left = those_left(alloc, comps, waits)?;
    let next = steps(alloc, waits, &left)?;
    find_cycles(alloc, waits, &next)
}

fn have_link(waits: &[Wait]) -> bool {
    waits.iter().any(|wait| wait.link().is_some())
}

// For each component that is left the least that is left of those it waits for, 0 where there is none.
fn steps(alloc: Global, waits: &[Wait], left: &Table) -> Result<Table, AllocError> {
    let mut next = Table::new(alloc, left.comps())?;
    for wait in waits {
        let (least, to) = (next.at(wait.comp), wait.link().unwrap_or(0));
        if left.at(wait.comp) > 0 && left.at(to) > 0 && (least == 0 || to < least) {
            next.set(wait.comp, to);
        }
    }
    Ok(next)
}

// For each component how many it waits for that are left, once those are taken out that wait for none, and then those that waited
// for these alone.
fn those_left(alloc: Global, comps: u32, waits: &[Wait]) -> Result<Table, AllocError> {
    let mut left = Table::new(alloc, comps)?;
    let back = links_back(alloc, waits, &mut left)?;
    take_out(alloc, back.as_slice(), &mut left)?;
    Ok(left)
}

// The links from whom a component waits for to it, in order. How many it waits for is counted.
fn links_back(
    alloc: Global,
    waits: &[Wait],
    count: &mut Table,
) -> Result<Vec<(u32, u32)>, AllocError> {
    let mut back = Vec::new(alloc);
    for wait in waits {
        if let Some(to) = wait.link() {
            let more = count.at(wait.comp).saturating_add(1);
            count.set(wait.comp, more);
            back.push((to, wait.comp))?;
        }
    }
    back.sort()?;
    Ok(back)
}

// Takes out who waits for none. The links lead back to who waits.
fn take_out(alloc: Global, back: &[(u32, u32)], left: &mut Table) -> Result<(), AllocError> {
    let mut gone = waited_for(alloc, back, left)?;
    for turn in 0..left.comps() {
        let Some(comp) = gone.get(turn as usize).copied() else {
            break;
        };
        let first = back.partition_point(|link| link.0 < comp);
        let end = back.partition_point(|link| link.0 <= comp);
        for (_, from) in back.get(first..end).unwrap_or(&[]) {
            let waits = left.at(*from).saturating_sub(1);
            left.set(*from, waits);
            if waits == 0 {
                gone.push(*from)?;
            }
        }
    }
    Ok(())
}

// Those who are waited for and wait for none.
fn waited_for(alloc: Global, back: &[(u32, u32)], left: &Table) -> Result<Vec<u32>, AllocError> {
    let (mut gone, mut last) = (Vec::new(alloc), 0);
    for (comp, _) in back {
        if *comp != last && left.at(*comp) == 0 {
            gone.push(*comp)?;
        }
        last = *comp;
    }
    Ok(gone)
}

// The cycles to which the steps lead.
fn find_cycles(alloc: Global, waits: &[Wait], next: &Table) -> Result<Vec<Vec<u32>>, AllocError>
    ensures { IfOk result (λ found. AreCycles waits.now found.items) }
{
    let mut met = Table::new(alloc, next.comps())?;
    let mut found = Vec::new(alloc);
    for place in 0..waits.len() {
        add_from(alloc, waits, next, waits[place].comp, &mut met, &mut found)?;
    }
    Ok(found)
}

// Adds the cycle to which the steps from a component lead, where they meet none before. `met` has for each from which component it
// was met first, so far 0.
fn add_from(
    alloc: Global,
    waits: &[Wait],
    next: &Table,
    start: u32,
    met: &mut Table,
    found: &mut Vec<Vec<u32>>,
) -> Result<(), AllocError>
    requires { AreCycles waits.now found.old.items }
    ensures { IfOk result (λ _. AreCycles waits.now found.new.items) }
{
    if met.at(start) > 0 {
        return Ok(());
    }
    let last = walk(next, start, met);
    if met.at(last) != start {
        return Ok(());
    }
    add_cycle(waits, cycle_of(alloc, next, last)?, found)
}

// Walks on until there is no step, or to one that was met.
fn walk(next: &Table, start: u32, met: &mut Table) -> u32 {
    let mut comp = start;
    for _ in 0..=next.comps() {
        if met.at(comp) > 0 || next.at(comp) == 0 {
            break;
        }
        met.set(comp, start);
        comp = next.at(comp);
    }
    comp
}

// The cycle of a member, from its least member on.
fn cycle_of(alloc: Global, next: &Table, member: u32) -> Result<Vec<u32>, AllocError> {
    let mut cycle = Vec::new(alloc);
    let (mut comp, mut least) = (member, 0);
    for place in 0..next.comps() as usize {
        cycle.push(comp)?;
        if comp < cycle.get(least).copied().unwrap_or(0) {
            least = place;
        }
        comp = next.at(comp);
        if comp == member {
            break;
        }
    }
    let front = least.min(cycle.len());
    cycle.as_mut_slice().rotate_left(front);
    Ok(cycle)
}

// Adds a cycle, if each member waits for the next.
fn add_cycle(waits: &[Wait], cycle: Vec<u32>, found: &mut Vec<Vec<u32>>) -> Result<(), AllocError>
    requires { AreCycles waits.now found.old.items }
    ensures { IfOk result (λ _. AreCycles waits.now found.new.items) }
{
    if is_cycle(waits, &cycle) {
        found.push(cycle)?;
    }
    Ok(())
}

// Whether each member waits for the next in any case, and the last for the first.
fn is_cycle(waits: &[Wait], cycle: &[u32]) -> bool
    ensures { IsTrue result → IsCycle waits.now cycle.now }
{
    if cycle.is_empty() {
        return false;
    }
    for place in 1..cycle.len() {
        if !waits_for(waits, cycle[place - 1], cycle[place]) {
            return false;
        }
    }
    waits_for(waits, cycle[cycle.len() - 1], cycle[0])
}

// Whether a component waits for another one in any case; its waits stand together.
fn waits_for(waits: &[Wait], comp: u32, other: u32) -> bool
    ensures { IsTrue result → WaitsFor waits.now comp other }
{
    let first = waits.partition_point(|wait| wait.comp < comp);
    for place in first..waits.len() {
        let wait = waits[place];
        if wait.comp != comp {
            return false;
        }
        if wait.link() == Some(other) {
            return true;
        }
    }
    false
}
