//! The text of a graph.
//!
//! The ground is transparent, with light boxes, lines of a middle grey, and a blue and a brown of middle lightness, each with
//! a contrast of 4 and more to white and to black.

ghost use Rattle.std.specs.Prelude.{IfSome};
ghost use Rattle.bz_draw.specs.Drawing.{IsWhole};

use crate::cells::{Cell, cell_of, is_hub, is_wide};
use crate::drawing::{Edge, Tip};
use crate::labels::{put_name, put_source};
use crate::nodes::{put_nodes, put_place};
use crate::piece::Piece;
use crate::view::{Scene, View};
use bz_flat::FlatComp;
use bz_kind_rows::{kind_word, port_at};
use bz_model::{Chan, ChanKind, Phase, Value, node_of, numbered};
use bz_source::PathAt;
use bz_text::Text;

/// How the graph looks, its nodes and its edges: lines of a middle grey on no ground of their own are seen on a light and on a
/// dark one.
const LAYOUT: &str = "  rankdir=LR; ranksep=0.6; nodesep=0.25; bgcolor=\"transparent\";
  fontname=\"Helvetica\"; fontsize=12; fontcolor=\"#777777\"; labelloc=b;
  node [id=\"\\N\", shape=record, style=filled, color=\"#777777\", fillcolor=\"#f4f4f4\", fontcolor=\"#222222\",
    fontname=\"Helvetica\", fontsize=12, height=0.35, margin=\"0.06,0.03\"];
  edge [dir=both, arrowsize=0.6, color=\"#777777\", fontcolor=\"#777777\", fontname=\"Helvetica\", fontsize=11,
    labeldistance=1.3, labelangle=35];
  label=\"";

/// What the signs mean that each edge has, and those that some have.
const ENDS: &str = "\\nfilled dot: asks; open dot: answers";

const VALUES: &str = "\\narrow: where the value goes; /8: its bits";

const PHASES: &str =
    "\\norange dashes: asked; blue: taken; green dots: replied; blue box: holds a request";

/// How the ends of channels look that carry no value, and of those that push or pull one.
const SYNC: &str = "arrowtail=dot, arrowhead=odot";

const PUSH: &str = "arrowtail=dot, arrowhead=odotnormal";

const PULL: &str = "arrowtail=dotnormal, arrowhead=odot";

/// The colours of those that push or pull a value, where no moment is shown, and where their labels are.
const PUSHED: &str = ", color=\"#3c78c8\", fontcolor=\"#3c78c8\", penwidth=2";

const PULLED: &str = ", color=\"#b86018\", fontcolor=\"#b86018\", penwidth=2";

const FARTHER: &str = ", labeldistance=2.3, labelangle=24";

/// The colours of channels that are not idle at the moment that is shown.
const ASKED: &str = ", color=\"#c25e00\", fontcolor=\"#c25e00\", penwidth=3, style=dashed";

const TAKEN: &str = ", color=\"#3c78c8\", fontcolor=\"#3c78c8\", penwidth=3";

const REPLIED: &str = ", color=\"#00866a\", fontcolor=\"#00866a\", penwidth=3, style=dotted";

/// Adds the graph of what is drawn of a net, under the name of its part.
pub(crate) fn put_graph(text: &mut Text, name: &[u8], s: Scene<'_>)
    ensures { IfSome text.new IsWhole }
{
    put_head(text, name, s);
    put_ports(text, s);
    put_nodes(text, s);
    put_beyond(text, s);
    for edge in &s.drawing.edges {
        put_edge(text, s, edge);
    }
    text.put("}\n");
}

fn put_head(text: &mut Text, name: &[u8], s: Scene<'_>) {
    let (depth, deepest) = (s.drawing.folding.depth, s.drawing.folding.deepest);
    let (at, whole, name) = (
        Piece::Number(depth),
        Piece::Number(deepest),
        Piece::Label(name),
    );
    text.say("digraph \"%\" {\n", &[name]);
    if depth < deepest {
        text.say(
            "  // folded at depth %; --depth % draws all\n",
            &[at, whole],
        );
    }
    text.put(LAYOUT);
    put_title(text, name, s);
    if depth < deepest {
        text.say(", folded at depth %", &[at]);
    }
    if !s.drawing.edges.is_empty() {
        text.put(ENDS);
    }
    if s.drawing.edges.iter().any(|edge| carries(s, edge)) {
        text.put(VALUES);
    }
    if s.moment.is_some() {
        text.put(PHASES);
    }
    text.put("\";\n");
}

// The name of the part, and how much of its net is drawn.
fn put_title<'s>(text: &mut Text, name: Piece<'s>, s: Scene<'s>) {
    let comps = Piece::Count(s.net.comps.len(), "component");
    let chans = Piece::Count(s.net.chans.len(), "channel");
    if let View::Around { comp, hops } = s.view {
        let (drawn, comp) = (
            Piece::Number(s.drawing.comps.len()),
            Piece::Number(comp as usize),
        );
        let away = Piece::Count(hops as usize, "channel");
        text.say("%: % of %,\\ncomponent % and", &[name, drawn, comps, comp]);
        text.say(" what is at most % away", &[away]);
    } else {
        text.say("%: %, %", &[name, comps, chans]);
    }
    if let Some(moment) = s.moment {
        let (line, lines) = (Piece::Number(moment.line), Piece::Number(moment.lines));
        text.say(", line % of %", &[line, lines]);
    }
}

// The ports, or of a part of a net those at which channels that are drawn end: port k is channel k.
fn put_ports(text: &mut Text, s: Scene<'_>) {
    if let View::Whole { .. } = s.view {
        for number in 1..=s.net.ports.len() {
            put_port(text, s, number);
        }
    } else {
        for edge in &s.drawing.edges {
            put_port(text, s, edge.chan as usize);
        }
    }
}

fn put_port(text: &mut Text, s: Scene<'_>, number: usize) {
    if let Some(port) = s.net.ports.get(number.wrapping_sub(1)) {
        let sense = Piece::Text(if port.passive { "passive" } else { "active" });
        let (number, name) = (Piece::Number(number), Piece::Label(port.name.as_slice()));
        text.say(
            "  p% [shape=box, style=\"bold,filled\", tooltip=\"% port % %\", label=\"%\"];\n",
            &[number, sense, number, name, name],
        );
    }
}

// What lies beyond what is drawn, by its number and kind alone.
fn put_beyond(text: &mut Text, s: Scene<'_>) {
    for number in &s.drawing.beyond {
        if let Some(comp) = node_of(&s.net.comps, *number) {
            let (number, kind) = (
                Piece::Number(*number as usize),
                Piece::Bytes(kind_word(&comp.kind)),
            );
            text.say(
                "  c% [shape=plaintext, style=\"\", fontcolor=\"#777777\", tooltip=\"% %\", label=\"% %\"];\n",
                &[number, kind, number, number, kind],
            );
        }
    }
}

fn put_edge(text: &mut Text, s: Scene<'_>, edge: &Edge) {
    let (from, to) = (end_of(s, edge.from), end_of(s, edge.to));
    let number = Piece::Number(edge.chan as usize);
    text.put("  ");
    put_end(text, from);
    text.put(":e -> ");
    put_end(text, to);
    text.say(":w [id=k%, tooltip=\"channel %", &[number, number]);
    put_name(text, s.survey.chan_name(edge.chan));
    text.put(": ");
    put_end_word(text, s, from);
    text.put(" to ");
    put_end_word(text, s, to);
    put_source(text, s.survey.chan_source(edge.chan));
    let (chan, phase) = (node_of(&s.net.chans, edge.chan), s.phase(edge.chan));
    // (what a label says that would lie over another one is in the tooltip)
    if !is_covered(s, from, to) {
        text.say("\", %=\"%", &[Piece::Text(label_word(from, to)), number]);
    }
    put_carried(text, chan, phase);
    text.put("\", ");
    put_look(text, chan, phase);
}

// The width of a channel, and the value that is on it at the moment that is shown.
fn put_carried(text: &mut Text, chan: Option<&Chan>, phase: Option<Phase>) {
    match chan {
        Some(chan) if chan.kind != ChanKind::Sync => {
            text.say(" /%", &[Piece::Number(chan.width as usize)]);
        }
        _ => {}
    }
    if let Some(value) = value_on(phase) {
        text.say(" = %", &[Piece::Value(value)]);
    }
}

// How the edge of a channel looks.
fn put_look(text: &mut Text, chan: Option<&Chan>, phase: Option<Phase>) {
    let (ends, colour, place) = match chan {
        Some(chan) if chan.kind == ChanKind::Push => (PUSH, PUSHED, FARTHER),
        Some(chan) if chan.kind == ChanKind::Pull => (PULL, PULLED, FARTHER),
        _ => (SYNC, "", ""),
    };
    let colour = match phase {
        Some(phase) => colour_of(phase),
        None => colour,
    };
    text.say(
        "%%%];\n",
        &[Piece::Text(ends), Piece::Text(colour), Piece::Text(place)],
    );
}

// The value that is on a channel.
fn value_on(phase: Option<Phase>) -> Option<Value> {
    match phase {
        Some(Phase::Asked(value)) | Some(Phase::Replied(value)) => value,
        _ => None,
    }
}

// The colour of a channel by what is on it.
fn colour_of(phase: Phase) -> &'static str {
    match phase {
        Phase::Asked(_) => ASKED,
        Phase::Taken => TAKEN,
        Phase::Replied(_) => REPLIED,
        Phase::Idle | Phase::Broken => "",
    }
}

fn carries(s: Scene<'_>, edge: &Edge) -> bool {
    match node_of(&s.net.chans, edge.chan) {
        Some(chan) => chan.kind != ChanKind::Sync,
        None => false,
    }
}

/// What an edge ends at.
#[derive(Clone, Copy)]
enum End<'s> {
    Port(u32, &'s [u8]),
    Folded(&'s PathAt),
    Comp(u32, &'s FlatComp, u32),
    /// A component beyond what is drawn.
    Beyond(u32, &'s FlatComp, u32),
    Nothing,
}

fn end_of(s: Scene<'_>, tip: Tip) -> End<'_> {
    match tip {
        Tip::Port(port) => match s.net.ports.get((port as usize).wrapping_sub(1)) {
            Some(named) => End::Port(port, named.name.as_slice()),
            None => End::Nothing,
        },
        Tip::Folded(instance) => match s.survey.places.instances().get(instance) {
            Some(instance) => End::Folded(instance),
            None => End::Nothing,
        },
        Tip::Comp { comp, port } => match node_of(&s.net.comps, comp) {
            Some(node) if s.drawing.beyond.binary_search(&comp).is_ok() => {
                End::Beyond(comp, node, port)
            }
            Some(node) => End::Comp(comp, node, port),
            None => End::Nothing,
        },
    }
}

// Where the label stands: at the active end, or where others lie at one place with it there, at the other end or between.
fn label_word(from: End<'_>, to: End<'_>) -> &'static str {
    if !is_crowded(from) {
        "taillabel"
    } else if !is_crowded(to) {
        "headlabel"
    } else {
        "label"
    }
}

// Whether the label of an edge may lie over another one: from ports that are next to each other at one component edges go to hubs,
// and bend on their way.
fn is_covered(s: Scene<'_>, from: End<'_>, to: End<'_>) -> bool {
    match (from, to) {
        (End::Comp(_, node, port), End::Comp(_, hub, _)) if is_hub(hub) => {
            !is_wide(node)
                && (goes_to_hub(s, node, port.saturating_sub(1))
                    || goes_to_hub(s, node, port.saturating_add(1)))
        }
        _ => false,
    }
}

// Whether a component asks a hub at a port.
fn goes_to_hub(s: Scene<'_>, comp: &FlatComp, port: u32) -> bool {
    let Some(chan) = numbered(comp.chans.as_slice(), port) else {
        return false;
    };
    match s.net.ends.get((*chan as usize).wrapping_sub(1)) {
        Some(ends) if is_active(comp, port) => match ends.passive {
            Some(number) => node_of(&s.net.comps, number).is_some_and(|hub| is_hub(hub)),
            None => false,
        },
        _ => false,
    }
}

fn is_active(comp: &FlatComp, port: u32) -> bool {
    match port_at(&comp.kind, comp.sizes, port) {
        Some(at) => !at.row.passive,
        None => false,
    }
}

// Whether several edges may end at one place there.
fn is_crowded(end: End<'_>) -> bool {
    match end {
        End::Port(..) | End::Nothing => false,
        End::Folded(_) | End::Beyond(..) => true,
        End::Comp(_, node, _) => is_wide(node),
    }
}

fn put_end(text: &mut Text, end: End<'_>) {
    match end {
        End::Port(port, _) => text.say("p%", &[Piece::Number(port as usize)]),
        End::Folded(instance) => text.say("i%", &[Piece::Path("_", instance)]),
        End::Beyond(comp, ..) => text.say("c%", &[Piece::Number(comp as usize)]),
        End::Comp(comp, node, port) => {
            let comp = Piece::Number(comp as usize);
            match cell_of(node, port) {
                Cell::Side => text.say("c%", &[comp]),
                Cell::Port(port) => text.say("c%:p%", &[comp, Piece::Number(port as usize)]),
                Cell::Row(name) => text.say("c%:%", &[comp, Piece::Text(name)]),
            }
        }
        End::Nothing => {}
    }
}

// The same by its name.
fn put_end_word(text: &mut Text, s: Scene<'_>, end: End<'_>) {
    match end {
        End::Port(_, name) => text.say("port %", &[Piece::Label(name)]),
        End::Folded(instance) => put_place(text, s, instance),
        End::Comp(comp, node, port) | End::Beyond(comp, node, port) => {
            let kind = Piece::Bytes(kind_word(&node.kind));
            let port = Piece::Port(port_at(&node.kind, node.sizes, port));
            text.say("% % %", &[kind, Piece::Number(comp as usize), port]);
        }
        End::Nothing => {}
    }
}
