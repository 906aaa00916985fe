//! The command `draw`.

ghost use Rattle.std.specs.Prelude.{IfErr, IfOk, IfSome};
ghost use Rattle.std.specs.Option.{option_copied};
ghost use Rattle.bz_flat.specs.Wires.{EndsOf, WellWired};
ghost use Rattle.bz_cli_input.specs.Opening.{RefusesNet};
ghost use Rattle.bz_cli_input.specs.Reading.{ReadsWithin};
ghost use Rattle.bz_cli_source.specs.Surveys.{wiring_in};
ghost use Rattle.bz_draw.specs.Drawing.{Draws, DrawsText, HasNet, IsWhole};

use crate::drawing::{Drawing, drawing_of};
use crate::fault::{MOST_DRAWN, NoDrawing};
use crate::folding::boxes_at;
use crate::graph::put_graph;
use crate::near::Near;
use crate::view::{Moment, Scene, View};
use bz_cli_input::{Fault, read_input, send_all};
use bz_cli_source::survey_of;
use bz_flat::Pieces;
use bz_source::{Places, Survey};
use bz_text::Text;
use std::alloc::{AllocError, Global};
use std::io::{Read, Write};

/// Draws the net that the netlist denotes which the reader gives, or answers why there is no such drawing. Then nothing is
/// written, nor where the netlist is refused.
pub fn draw_cmd<R: Read, W: Write>(
    alloc: Global,
    asked: Option<&[u8]>,
    view: View,
    input: &mut R,
    output: &mut W,
) -> Result<Option<NoDrawing>, Fault>
    ensures draws { IfSome (R.remaining input.old) (λ text. Draws text (option_copied asked.entry) (W.contents output.old) (W.contents output.new) result) }

    // Whatever comes of it, it reads at most one byte past the limit.
    ensures bounded { ReadsWithin (R.remaining input.old) (R.remaining input.new) }
{
    let text = read_input(alloc, input)?;
    draw_text(alloc, asked, view, text.as_slice(), output)
}

// Draws the net that the text denotes. The graph is made whole before any of it goes out.
fn draw_text<W: Write>(
    alloc: Global,
    asked: Option<&[u8]>,
    view: View,
    text: &[u8],
    output: &mut W,
) -> Result<Option<NoDrawing>, Fault>
    ensures { DrawsText text.now (option_copied asked.entry) (W.contents output.old) (W.contents output.new) result }
{
    let graph = match graph_of(alloc, asked, view, text)? {
        Ok(graph) => graph,
        Err(why) => return Ok(Some(why)),
    };
    send_all(output, graph.whole()?)?;
    Ok(None)
}

// The graph of the net that the text denotes.
fn graph_of(
    alloc: Global,
    asked: Option<&[u8]>,
    view: View,
    text: &[u8],
) -> Result<Result<Text, NoDrawing>, Fault>
    ensures net { IfOk result (λ graph. HasNet text.now (option_copied asked.entry)) }
    ensures whole { IfOk result (λ made. IfOk made (λ graph. IfSome graph IsWhole)) }
    ensures err { IfErr result (RefusesNet text.now (option_copied asked.entry)) }
{
    let (flat, survey, name) = survey_of(alloc, asked, text)?;
    let net = flat.into_pieces();
    let made = graph_in(alloc, view, &net, &survey, name.as_slice(), None)?;
    Ok(made)
}

/// The graph of a net under this name, at a moment where one is to be shown.
pub(crate) fn graph_in(
    alloc: Global,
    view: View,
    net: &Pieces,
    survey: &Survey,
    name: &[u8],
    moment: Option<Moment<'_>>,
) -> Result<Result<Text, NoDrawing>, AllocError>
    requires wired { WellWired (wiring_in net.now) }
    requires ends { EndsOf (wiring_in net.now) net.now.ends.items }
    ensures { IfOk result (λ made. IfOk made (λ graph. IfSome graph IsWhole)) }
{
    match drawing_at(alloc, net, &survey.places, view)? {
        Ok(drawing) => {
            let scene = Scene {
                net,
                survey,
                view,
                drawing: &drawing,
                moment,
            };
            let mut graph = Text::new(alloc);
            put_graph(&mut graph, name, scene);
            Ok(Ok(graph))
        }
        Err(why) => Ok(Err(why)),
    }
}

// What is drawn of a net.
fn drawing_at(
    alloc: Global,
    net: &Pieces,
    places: &Places,
    view: View,
) -> Result<Result<Drawing, NoDrawing>, AllocError>
    requires wired { WellWired (wiring_in net.now) }
    requires ends { EndsOf (wiring_in net.now) net.now.ends.items }
{
    let mut drawing = drawing_of(alloc, net, places, view.depth())?;
    if let View::Around { comp, hops } = view {
        let comps = net.comps.len();
        if comp == 0 || comp as usize > comps {
            return Ok(Err(NoDrawing::NoComponent { comp, comps }));
        }
        Near::of(alloc, net, comp, hops)?.narrow(alloc, &mut drawing)?;
    }
    let boxes = boxes_at(places.instances(), drawing.folding.depth);
    let nodes = drawing.comps.len().saturating_add(boxes);
    if nodes > MOST_DRAWN {
        return Ok(Err(NoDrawing::TooMany { nodes }));
    }
    Ok(Ok(drawing))
}
