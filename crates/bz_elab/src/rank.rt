//! Ranks of parts: what a part has an instance of is ranked no higher, and lower unless it reaches the part again.
//!
//! The search (Tarjan's, of strongly connected components) is not proved to rank so. Who uses the ranks looks whether they
//! never rise, and has no use for them where they do.

ghost use Rattle.std.specs.Prelude.{◌≡◌, slice_index_or};

use crate::walk::find;
use bz_breeze_records::{Component, Part, Parts};
use std::alloc::{AllocError, Global};

// A part that is gone through: its number, and how many of its components were looked at.
#[derive(Clone, Copy)]
struct Step {
    part: usize,
    next: usize,
}

// The search: when each part was met (0 where it was not), the earliest part that it reaches by what was gone through, and its
// rank (0 where it has none yet); the parts that were met and have no rank, and those that are gone through.
#[derive(Drop)]
struct Search {
    met: Vec<usize>,
    low: Vec<usize>,
    ranks: Vec<usize>,
    open: Vec<usize>,
    steps: Vec<Step>,
    first: usize,
    count: usize,
    rank: usize,
}

/// Ranks for all parts.
pub fn ranks(alloc: Global, parts: &Parts) -> Result<Vec<usize>, AllocError> {
    let list = parts.list();
    let met = vec![in alloc; 0; list.len()]?;
    let low = vec![in alloc; 0; list.len()]?;
    let ranks = vec![in alloc; 0; list.len()]?;
    let mut search = Search {
        met,
        low,
        ranks,
        open: Vec::new(alloc),
        steps: Vec::new(alloc),
        first: 0,
        count: 0,
        rank: 0,
    };
    for _ in 0..step_count(list) {
        advance(parts, &mut search)?;
    }
    Ok(search.ranks)
}

/// The number at a place, 0 past the end.
pub fn number_at(row: &[usize], place: usize) -> usize
    ensures { result ≡ slice_index_or row.now place 0 }
{
    match row.get(place) {
        Some(number) => *number,
        None => 0,
    }
}

// One step for each component, and two for each part.
fn step_count(list: &[Part]) -> usize {
    let mut count: usize = 0;
    for part in list {
        count = count
            .saturating_add(part.components.len())
            .saturating_add(2);
    }
    count
}

// One step of the search.
fn advance(parts: &Parts, search: &mut Search) -> Result<(), AllocError> {
    let list = parts.list();
    match search.steps.pop() {
        None => {
            let first = search.first;
            if first < list.len() {
                search.first = first + 1;
                if number_at(&search.met, first) == 0 {
                    meet(search, first)?;
                }
            }
        }
        Some(step) => match component_at(list, step) {
            None => leave(search, step.part),
            Some(component) => {
                let next = step.next.saturating_add(1);
                search.steps.push(Step {
                    part: step.part,
                    next,
                })?;
                if let Some(inner) = find(parts, component.name.as_slice()) {
                    let when = number_at(&search.met, inner);
                    if when == 0 {
                        meet(search, inner)?;
                    } else if number_at(&search.ranks, inner) == 0 {
                        lower(&mut search.low, step.part, when);
                    }
                }
            }
        },
    }
    Ok(())
}

fn component_at(list: &[Part], step: Step) -> Option<&Component> {
    match list.get(step.part) {
        Some(part) => part.components.get(step.next),
        None => None,
    }
}

fn meet(search: &mut Search, part: usize) -> Result<(), AllocError> {
    search.open.push(part)?;
    search.steps.push(Step { part, next: 0 })?;
    let count = search.count.saturating_add(1);
    search.count = count;
    put(&mut search.met, part, count);
    put(&mut search.low, part, count);
    Ok(())
}

// All components of a part were looked at.
fn leave(search: &mut Search, part: usize) {
    let low = number_at(&search.low, part);
    if low == number_at(&search.met, part) {
        search.rank = search.rank.saturating_add(1);
        close(search, part);
    }
    if let Some(above) = search.steps.last().copied() {
        lower(&mut search.low, above.part, low);
    }
}

// Gives a rank to the parts that were met from this one on.
fn close(search: &mut Search, part: usize) {
    for _ in 0..search.open.len() {
        if let Some(last) = search.open.pop() {
            put(&mut search.ranks, last, search.rank);
            if last == part {
                return;
            }
        }
    }
}

fn lower(row: &mut [usize], place: usize, number: usize) {
    if place < row.len() && number < row[place] {
        row[place] = number;
    }
}

fn put(row: &mut [usize], place: usize, number: usize) {
    if place < row.len() {
        row[place] = number;
    }
}
