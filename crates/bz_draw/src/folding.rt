//! Which components of a net are drawn themselves, and which lie in the box of an instance.
//!
//! A drawing is cut where it is folded, so a component is within its box, and the box has no ports.

use bz_source::{PathAt, Places};
use std::alloc::{AllocError, Global};

/// The most nodes that are drawn where no depth is asked for.
const MOST_NODES: usize = 300;

/// Where the components of a net are drawn.
#[derive(Drop)]
pub struct Folding {
    /// Instances within so many others are boxes.
    pub depth: usize,
    /// At this depth there are no boxes.
    pub deepest: usize,
    /// For each component the box that it is in, by its place among the instances, if it is in one.
    pub boxes: Vec<Option<usize>>,
    /// For each component the copy that it is in: that of an instance, counted from 1, or 0 for the top's own.
    pub copies: Vec<usize>,
    /// For each instance how many components are in its box.
    pub counts: Vec<usize>,
}

impl Folding {
    /// Boxes at the depth that is asked for, else at the greatest at which not too much is drawn.
    pub fn of(alloc: Global, places: &Places, depth: Option<usize>) -> Result<Folding, AllocError> {
        let deepest = deepest(places.instances());
        let depth = match depth {
            Some(depth) => depth.min(deepest),
            None => fitting_depth(places, deepest),
        };
        let mut folding = Folding {
            depth,
            deepest,
            boxes: Vec::new(alloc),
            copies: Vec::new(alloc),
            counts: vec![in alloc; 0; places.instances().len()]?,
        };
        for place in places.comps() {
            let path = place.path.as_slice();
            let inside = box_at(places.instances(), path, depth);
            folding.add(inside, count_upto(places.instances(), path))?;
        }
        Ok(folding)
    }

    // One component more.
    fn add(&mut self, inside: Option<usize>, copy: usize) -> Result<(), AllocError> {
        self.boxes.push(inside)?;
        self.copies.push(copy)?;
        if let Some(count) = self.counts.get_mut(inside.unwrap_or(usize::MAX)) {
            *count = count.saturating_add(1);
        }
        Ok(())
    }
}

// The box round what has this path, if it is in one.
fn box_at(instances: &[PathAt], path: &[usize], depth: usize) -> Option<usize> {
    let way = path.get(..depth.saturating_add(1))?;
    count_upto(instances, way).checked_sub(1)
}

// How many instances the walk of a net has met once it is in that of a way, which it then met last; 0 at the top.
fn count_upto(instances: &[PathAt], way: &[usize]) -> usize {
    if way.is_empty() {
        return 0;
    }
    instances.partition_point(|instance| is_met(instance, way))
}

// Whether the walk has met an instance once it is in that of a way.
fn is_met(instance: &PathAt, way: &[usize]) -> bool {
    for (i, step) in instance.path.iter().enumerate() {
        let other = step_at(way, i);
        if *step != other {
            return *step < other;
        }
    }
    instance.position <= step_at(way, instance.path.len())
}

// The step at this place of a way, 0 behind it.
fn step_at(way: &[usize], i: usize) -> usize {
    way.get(i).copied().unwrap_or(0)
}

// The least depth without a box.
fn deepest(instances: &[PathAt]) -> usize {
    let mut deepest = 0;
    for instance in instances {
        deepest = deepest.max(instance.path.len() + 1);
    }
    deepest
}

// The greatest depth at which not too many nodes are drawn, or 0.
fn fitting_depth(places: &Places, deepest: usize) -> usize {
    for depth in (1..=deepest).rev() {
        if node_count(places, depth) <= MOST_NODES {
            return depth;
        }
    }
    0
}

fn node_count(places: &Places, depth: usize) -> usize {
    let alone = places
        .comps()
        .iter()
        .filter(|place| place.path.len() <= depth);
    boxes_at(places.instances(), depth).saturating_add(alone.count())
}

/// How many instances are within so many others.
pub(crate) fn boxes_at(instances: &[PathAt], depth: usize) -> usize {
    let within = instances.iter().filter(|place| place.path.len() == depth);
    within.count()
}
