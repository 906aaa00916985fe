//! The parts that a part reaches by its instances.

ghost use Rattle.std.specs.Prelude.{◌≡◌, ◌<◌, ◌≤◌, IsTrue, Some, length, slice_get, IfOk, IfSome, OnOk};
ghost use Rattle.bz_elab.specs.Numbers.{Marks, Marked, SpreadOn, IsBelow, IsReached, IsFirstRecursive, IsHighest, Falls, NeverRise};

use crate::rank::{number_at, ranks};
use crate::walk::find;
use bz_breeze_records::{Part, Parts};
use std::alloc::{AllocError, Global};

// The parts that were met, and these in the order in which they were, the first one before them.
#[derive(Drop)]
struct Marking {
    marks: Vec<bool>,
    queue: Vec<usize>,
}

/// Marks the part at a place and all parts that it reaches.
pub fn reached(alloc: Global, parts: &Parts, start: usize) -> Result<Vec<bool>, AllocError>
    requires { start < length parts.now }
    ensures { IfOk result (λ v. Marks parts.now (IsReached parts.now start) v.items) }
{
    let mut marks = below(alloc, parts, start)?;
    marks[start] = true;
    Ok(marks)
}

/// The first of the marked parts that reaches itself by its instances. Parts that cannot, by their ranks, are not searched
/// from.
pub fn first_recursive(
    alloc: Global,
    parts: &Parts,
    marks: &[bool],
) -> Result<Option<usize>, AllocError>
    requires { length marks.now ≡ length parts.now }
    ensures { IfOk result (IsFirstRecursive parts.now marks.now) }
{
    let ranks = ranks(alloc, parts)?;
    let is_ranked = never_rise(parts, ranks.as_slice());
    for (place, is_marked) in marks.iter().enumerate() {
        if *is_marked {
            if !is_ruled_out(parts, place, ranks.as_slice(), is_ranked) {
                let below = below(alloc, parts, place)?;
                if below[place] {
                    return Ok(Some(place));
                }
            }
        }
    }
    Ok(None)
}

// Whether a part cannot reach itself, as the ranks tell where they never rise.
fn is_ruled_out(parts: &Parts, place: usize, ranks: &[usize], is_ranked: bool) -> bool
    requires place { place < length parts.now }
    requires ranked { IsTrue is_ranked → NeverRise parts.now ranks.now }
    ensures { IsTrue result → IsBelow parts.now place place → ⊥ }
{
    is_ranked && falls(parts, &parts.list()[place], place, ranks)
}

// Whether no part has an instance of one that is ranked higher.
fn never_rise(parts: &Parts, ranks: &[usize]) -> bool
    ensures { IsTrue result → NeverRise parts.now ranks.now }
{
    for (place, part) in parts.list().iter().enumerate() {
        if let Some(highest) = highest(parts, part, ranks) {
            if highest > number_at(ranks, place) {
                return false;
            }
        }
    }
    true
}

// Whether all that a part has instances of is ranked lower.
fn falls(parts: &Parts, part: &Part, place: usize, ranks: &[usize]) -> bool
    requires { slice_get parts.now place ≡ Some part.now }
    ensures { IsTrue result → Falls parts.now ranks.now place }
{
    match highest(parts, part, ranks) {
        None => true,
        Some(highest) => highest < number_at(ranks, place),
    }
}

// The highest rank of what a part has instances of.
fn highest(parts: &Parts, part: &Part, ranks: &[usize]) -> Option<usize>
    ensures { IsHighest parts.now ranks.now part.now.components.items result }
{
    let mut highest = None;
    for component in &part.components {
        if let Some(inner) = find(parts, component.name.as_slice()) {
            highest = Some(higher(highest, number_at(ranks, inner)));
        }
    }
    highest
}

fn higher(highest: Option<usize>, rank: usize) -> usize
    ensures this { rank ≤ result }
    ensures before { IfSome highest (λ h. h ≤ result) }
{
    match highest {
        None => rank,
        Some(highest) => highest.max(rank),
    }
}

// Marks the parts that a part reaches by one instance or more.
fn below(alloc: Global, parts: &Parts, start: usize) -> Result<Vec<bool>, AllocError>
    requires { start < length parts.now }
    ensures { IfOk result (λ v. Marks parts.now (IsBelow parts.now start) v.items) }
{
    let list = parts.list();
    let marks = vec![in alloc; false; list.len()]?;
    let queue = vec![in alloc; start]?;
    let mut reached = Marking { marks, queue };
    for place in 0..list.len() + 1 {
        if place < reached.queue.len() {
            let number = reached.queue[place];
            match list.get(number) {
                Some(part) => mark_inner(parts, part, &mut reached)?,
                None => {}
            }
        }
    }
    Ok(reached.marks)
}

// Marks the parts of which a part has instances.
fn mark_inner(parts: &Parts, part: &Part, reached: &mut Marking) -> Result<(), AllocError>
    requires { length reached.old.marks.items ≡ length parts.now }
    ensures { OnOk result (SpreadOn parts.now part.now reached.old reached.new) }
{
    for component in &part.components {
        if let Some(inner) = find(parts, component.name.as_slice()) {
            mark(reached, inner)?;
        }
    }
    Ok(())
}

fn mark(reached: &mut Marking, number: usize) -> Result<(), AllocError>
    requires { number < length reached.old.marks.items }
    ensures { OnOk result (Marked reached.old reached.new number) }
{
    if !reached.marks[number] {
        reached.queue.push(number)?;
        reached.marks[number] = true;
    }
    Ok(())
}
