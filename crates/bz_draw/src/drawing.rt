//! What is drawn of a net.
//!
//! What is drawn is a value, whose edges and nodes are in contracts; how it is written in DOT is tested against files. A
//! drawing is made whole before any of it goes out, so nothing is written where memory is refused.

ghost use Rattle.std.specs.Prelude.{◌≡◌, ◌+◌, ◌<◌, ◌≤◌, length, map, is_none, IfOk};
ghost use Rattle.bz_flat.specs.Wires.{EndsOf, WellWired};
ghost use Rattle.bz_cli_source.specs.Surveys.{wiring_in};
ghost use Rattle.bz_draw.specs.Drawn.{AreEdges, AreNodes, box_of};

use crate::edges::edges_of;
use crate::folding::Folding;
use bz_flat::Pieces;
use bz_source::Places;
use std::alloc::{AllocError, Global};

/// What an edge ends at.
#[derive(Clone, Copy, PartialEq, Eq)]
pub enum Tip {
    /// An external port.
    Port(u32),
    /// A port of a component that is drawn itself.
    Comp { comp: u32, port: u32 },
    /// The box of an instance, by its place among the instances.
    Folded(usize),
}

/// A channel that is drawn, from its active to its passive end.
#[derive(Clone, Copy, PartialEq, Eq)]
pub struct Edge {
    pub chan: u32,
    pub from: Tip,
    pub to: Tip,
}

/// What is drawn of a net.
#[derive(Drop)]
pub struct Drawing {
    pub folding: Folding,
    /// The components that are drawn themselves, after the copy that each is in: that of an instance, counted from 1, or 0 for
    /// the top's own. Sorted.
    pub comps: Vec<(usize, u32)>,
    pub edges: Vec<Edge>,
    /// The components that are not drawn themselves and at which one of the edges ends, sorted. Where the whole net is drawn
    /// there is none.
    pub beyond: Vec<u32>,
}

/// What is drawn of a net, with instances within `depth` others as boxes.
pub fn drawing_of(
    alloc: Global,
    net: &Pieces,
    places: &Places,
    depth: Option<usize>,
) -> Result<Drawing, AllocError>
    requires wired { WellWired (wiring_in net.now) }
    requires ends { EndsOf (wiring_in net.now) net.now.ends.items }
    ensures nodes { IfOk result (λ d. AreNodes d.folding.boxes.items (length net.now.comps) (map (λ n. n.1) d.comps.items)) }
    ensures edges { IfOk result (λ d. AreEdges (wiring_in net.now) d.folding.boxes.items d.edges.items) }
{
    let folding = Folding::of(alloc, places, depth)?;
    let edges = edges_of(alloc, net, folding.boxes.as_slice())?;
    let comps = comps_of(alloc, net.comps.len(), &folding)?;
    Ok(Drawing {
        folding,
        comps,
        edges,
        beyond: Vec::new(alloc),
    })
}

// The components that are drawn themselves, sorted by the copies that they are in.
fn comps_of(alloc: Global, count: usize, folding: &Folding) -> Result<Vec<(usize, u32)>, AllocError>
    requires { count ≤ 1000000 }
    ensures { IfOk result (λ v. AreNodes folding.now.boxes.items count (map (λ n. n.1) v.items)) }
{
    let mut comps = Vec::new(alloc);
    for i in 0..count {
        if is_alone(folding.boxes.as_slice(), i) {
            let copy = folding.copies.get(i).copied().unwrap_or(0);
            comps.push((copy, i as u32 + 1))?;
        }
    }
    comps.sort()?;
    Ok(comps)
}

// Whether the component at a place is in no box.
fn is_alone(boxes: &[Option<usize>], place: usize) -> bool
    ensures { result ≡ is_none (box_of boxes.now (place + 1)) }
{
    match boxes.get(place) {
        Some(Some(_)) => false,
        _ => true,
    }
}
