//! The nodes of a graph.

use crate::cells::{cell_begun, has_cells, is_wide};
use crate::labels::{put_detail, put_name, put_source};
use crate::piece::Piece;
use crate::view::{Scene, View};
use bz_flat::FlatComp;
use bz_kind_rows::{PortAt, kind_word, port_at};
use bz_model::{Phase, node_of};
use bz_source::PathAt;
use bz_text::Text;

/// What ends the node of a component that holds a request at the moment that is shown.
const HOLDING: &str = "}\", fillcolor=\"#dcebf7\", color=\"#3c78c8\", penwidth=2];\n";

/// Adds the nodes of the components and of the boxes, each copy's own before those of the instances in it. Of a part
/// of a net the instances that have none of it are left out.
pub(crate) fn put_nodes(text: &mut Text, s: Scene<'_>) {
    let is_part = matches!(s.view, View::Around { .. });
    let folding = &s.drawing.folding;
    let mut at = put_members(text, s, 0, 0, 0);
    let mut level = 0;
    for (i, instance) in s.survey.places.instances().iter().enumerate() {
        let depth = instance.path.len();
        if depth > folding.depth || is_part && !holds_next(s, at, i) {
            continue;
        }
        put_ends(text, depth, level);
        level = depth;
        if depth == folding.depth {
            let members = folding.counts.get(i).copied().unwrap_or(0);
            put_box(text, s, instance, members);
        } else {
            put_frame(text, s, instance);
            level = depth + 1;
            at = put_members(text, s, at, i + 1, level);
        }
    }
    put_ends(text, 0, level);
}

// Whether the next component that is drawn lies in an instance, or in one within it.
fn holds_next(s: Scene<'_>, at: usize, instance: usize) -> bool {
    let Some((copy, _)) = s.drawing.comps.get(at) else {
        return false;
    };
    let instances = s.survey.places.instances();
    match (instances.get(instance), instances.get(copy.wrapping_sub(1))) {
        (Some(around), Some(inside)) => *copy == instance + 1 || is_within(around, inside),
        _ => false,
    }
}

// Whether a place lies in an instance.
fn is_within(instance: &PathAt, place: &PathAt) -> bool {
    place.path.starts_with(instance.path.as_slice())
        && place.path.get(instance.path.len()) == Some(&instance.position)
}

// The components of a copy, which begin here among those that are drawn; where the next copy's begin.
fn put_members(text: &mut Text, s: Scene<'_>, from: usize, copy: usize, level: usize) -> usize {
    let mut at = from;
    for (inside, number) in s.drawing.comps.get(from..).unwrap_or(&[]) {
        if *inside != copy {
            break;
        }
        put_comp(text, s, *number, level);
        at = at.saturating_add(1);
    }
    at
}

// Ends the frames down to a level.
fn put_ends(text: &mut Text, to: usize, from: usize) {
    for level in (to..from).rev() {
        text.say("%}\n", &[Piece::Pad(level)]);
    }
}

fn put_frame<'s>(text: &mut Text, s: Scene<'s>, instance: &'s PathAt) {
    let pad = Piece::Pad(instance.path.len());
    let number = Piece::Path("_", instance);
    text.say("%subgraph cluster_% {\n%  label=\"", &[pad, number, pad]);
    put_place(text, s, instance);
    text.put("\"; labelloc=t; color=\"#999999\";\n");
}

fn put_box<'s>(text: &mut Text, s: Scene<'s>, instance: &'s PathAt, members: usize) {
    let pad = Piece::Pad(instance.path.len());
    let number = Piece::Path("_", instance);
    text.say("%i% [shape=box3d, label=\"", &[pad, number]);
    put_place(text, s, instance);
    text.say("\\n%\"];\n", &[Piece::Count(members, "component")]);
}

/// Adds the name of the part that an instance is one of, and where the instance stands.
pub(crate) fn put_place<'s>(text: &mut Text, s: Scene<'s>, instance: &'s PathAt) {
    let name = match s.survey.record(instance.part, instance.position) {
        Some(written) => Piece::Label(written.name.as_slice()),
        None => Piece::Text(""),
    };
    text.say("% (at %)", &[name, Piece::Path("/", instance)]);
}

// The node of a component, with a cell for each port, or for each row of ports, at a side that has more than one.
fn put_comp(text: &mut Text, s: Scene<'_>, number: u32, level: usize) {
    if let Some(comp) = node_of(&s.net.comps, number) {
        let kind = Piece::Bytes(kind_word(&comp.kind));
        let place = Piece::Number(number as usize);
        text.say(
            "%c% [tooltip=\"% %",
            &[Piece::Pad(level), place, kind, place],
        );
        put_name(text, s.survey.comp_name(number));
        put_source(text, s.survey.comp_source(number));
        text.put("\", label=\"{");
        put_cells(text, comp, true);
        text.say("% %", &[place, kind]);
        put_detail(text, s, number, comp);
        put_cells(text, comp, false);
        text.put(if holds_request(s, comp) {
            HOLDING
        } else {
            "}\"];\n"
        });
    }
}

// Whether a component holds a request at the moment that is shown.
fn holds_request(s: Scene<'_>, comp: &FlatComp) -> bool {
    let mut ports = comp.chans.iter().enumerate();
    ports.any(|(place, chan)| is_passive(comp, place)
        && matches!(s.phase(*chan), Some(Phase::Taken)))
}

// Whether the port at a place, counted from 0, is passive.
fn is_passive(comp: &FlatComp, place: usize) -> bool {
    let port = u32::try_from(place).unwrap_or(u32::MAX).saturating_add(1);
    match port_at(&comp.kind, comp.sizes, port) {
        Some(at) => at.row.passive,
        None => false,
    }
}

// The cells of the passive or of the active side, which stand before or after the component's name.
fn put_cells(text: &mut Text, comp: &FlatComp, passive: bool) {
    if !has_cells(comp, passive) {
        return;
    }
    text.put(if passive { "{" } else { "|{" });
    let mut is_first = true;
    for port in 1..=u32::try_from(comp.chans.len()).unwrap_or(u32::MAX) {
        if let Some(at) = cell_begun(comp, passive, port) {
            if !is_first {
                text.put("|");
            }
            put_cell(text, comp, at, port);
            is_first = false;
        }
    }
    text.put(if passive { "}|" } else { "}" });
}

fn put_cell(text: &mut Text, comp: &FlatComp, at: PortAt, port: u32) {
    let name = Piece::Text(at.row.name);
    if is_wide(comp) {
        text.say("<%> %", &[name, name]);
    } else {
        let number = Piece::Number(port as usize);
        text.say("<p%> %", &[number, Piece::Port(Some(at))]);
    }
}
