//! The edges of a drawing.
//!
//! Labels are at the active end: between other edges nobody can see to which one they belong. A channel's name is in the
//! tooltip alone, since most are those of a variable or a port that is beside it.

ghost use Rattle.std.specs.Prelude.{◌≡◌, ◌+◌, ◌<◌, ◌≤◌, ◌^◌, length, map, IfOk};
ghost use Rattle.bz_model.specs.Names.{external};
ghost use Rattle.bz_flat.specs.Wires.{EndsOf, WellWired};
ghost use Rattle.bz_cli_source.specs.Surveys.{wiring_in};
ghost use Rattle.bz_draw.specs.Drawn.{AreEdges, box_of, drawn_at};
ghost use Rattle.bz_draw.specs.Edges.{edge_at, edges_from, is_within, tip_at};

use crate::drawing::{Edge, Tip};
use bz_cli_source::host_holds;
use bz_flat::{Ends, Pieces};
use bz_model::Port;
use std::alloc::{AllocError, Global};

/// The edges of a net, `boxes` telling for each component the box that it is in, if it is in one.
pub(crate) fn edges_of(
    alloc: Global,
    net: &Pieces,
    boxes: &[Option<usize>],
) -> Result<Vec<Edge>, AllocError>
    requires wired { WellWired (wiring_in net.now) }
    requires ends { EndsOf (wiring_in net.now) net.now.ends.items }
    ensures { IfOk result (λ v. AreEdges (wiring_in net.now) boxes.now v.items) }
{
    let edges = read_edges(alloc, &net.ports, boxes, &net.ends)?;
    Ok(edges)
}

// The edges that a table of ends tells.
fn read_edges(
    alloc: Global,
    ports: &[Port],
    boxes: &[Option<usize>],
    ends: &[Ends],
) -> Result<Vec<Edge>, AllocError>
    requires { length ends.now ≤ 2000000 }
    ensures { IfOk result (λ v. v.items ≡ edges_from (map external ports.now) boxes.now 1 ends.now) }
{
    let mut edges = Vec::new(alloc);
    for (i, pair) in ends.iter().enumerate() {
        if let Some(edge) = edge_at(ports, boxes, i, *pair) {
            edges.push(edge)?;
        }
    }
    Ok(edges)
}

// The edge of the channel at a place, if both of its ends are drawn, and not in one box.
fn edge_at(ports: &[Port], boxes: &[Option<usize>], place: usize, ends: Ends) -> Option<Edge>
    requires { place < 2000000 }
    ensures { result ≡ edge_at (map external ports.now) boxes.now (place + 1) ends }
{
    let asks = host_holds(ports, place, false);
    let from = tip_at(boxes, place, ends.active, ends.active_port, asks)?;
    let answers = host_holds(ports, place, true);
    let to = tip_at(boxes, place, ends.passive, ends.passive_port, answers)?;
    if is_within(from, to) {
        return None;
    }
    Some(Edge {
        chan: place as u32 + 1,
        from,
        to,
    })
}

// Whether both are in one box.
fn is_within(from: Tip, to: Tip) -> bool
    ensures { result ≡ is_within from to }
{
    match (from, to) {
        (Tip::Folded(from), Tip::Folded(to)) => from == to,
        _ => false,
    }
}

// What stands at an end of the channel at a place.
fn tip_at(
    boxes: &[Option<usize>],
    place: usize,
    comp: Option<u32>,
    port: u32,
    host: bool,
) -> Option<Tip>
    requires { place < 2000000 }
    ensures { result ≡ tip_at boxes.now (place + 1) comp port host }
{
    match comp {
        Some(comp) => Some(comp_tip(boxes, comp, port)),
        None if host => Some(Tip::Port(place as u32 + 1)),
        None => None,
    }
}

// A port of a component, or the box that the component is in.
fn comp_tip(boxes: &[Option<usize>], comp: u32, port: u32) -> Tip
    ensures { result ≡ drawn_at (box_of boxes.now comp) comp port }
{
    if comp == 0 {
        return Tip::Comp { comp, port };
    }
    match boxes.get(comp as usize - 1) {
        Some(Some(inside)) => Tip::Folded(*inside),
        _ => Tip::Comp { comp, port },
    }
}
