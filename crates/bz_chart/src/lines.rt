//! The command `chart`: lines of the trace of a run, drawn.
//!
//! The survey, for the heads, is made here, where the trace is known for a run: nobody else pays for it. Out of memory is the only
//! fault that can come of it. A drawing is made whole before any of it goes out.

ghost use Rattle.std.specs.Prelude.{◌≡◌, ◌≤◌, true, length, IfErr};
ghost use Rattle.bz_cli_input.specs.Limits.{input_limit};
ghost use Rattle.bz_chart.specs.Charting.{DrawsPiece, IsUndrawn};
ghost use Rattle.bz_trace_text.specs.Counting.{line_count};

use crate::columns::count_rows;
use crate::drawing::draw;
use crate::picking::{Picked, Unpicked, picks_of};
use crate::range::{LineRange, MOST_ROWS, PieceFault, piece_of};
use bz_chart_layout::{Circuit, Piece};
use bz_cli_input::Fault;
use bz_cli_trace::{Case, Unmade};
use bz_source::Survey;
use bz_trace_text::line_count;
use std::alloc::{AllocError, Global};

/// Draws these lines of the trace of a run, as SVG, or those that show something of what is picked.
pub fn chart(
    alloc: Global,
    range: LineRange,
    picked: Picked<'_>,
    case: Case,
    trace: &[u8],
) -> Result<Vec<u8>, Unmade<PieceFault>>
    requires { length trace.now ≤ input_limit }
    ensures { DrawsPiece range trace.now result }
{
    let piece = match piece_of(range, line_count(trace)) {
        Ok(piece) => piece,
        Err(fault) => return Err(Unmade::Other(fault)),
    };
    match draw_net(alloc, case, trace, piece, range, picked) {
        Ok(drawing) => Ok(drawing),
        Err(Undrawn::Memory) => Err(Unmade::Command(Fault::Memory)),
        Err(Undrawn::Piece(fault)) => Err(Unmade::Other(fault)),
    }
}

/// Why lines are not drawn that are there.
#[derive(Clone, Copy)]
pub(crate) enum Undrawn {
    /// What is picked can't be shown.
    Piece(PieceFault),
    Memory,
}

// Draws these lines of a run on the lifelines of its net.
fn draw_net(
    alloc: Global,
    case: Case,
    trace: &[u8],
    piece: Piece,
    range: LineRange,
    picked: Picked<'_>,
) -> Result<Vec<u8>, Undrawn>
    ensures { IfErr result (λ why. IsUndrawn range why) }
{
    let (flat, source, part) = match case.into_flat(alloc) {
        Ok(parts) => parts,
        Err(_) => return Err(Undrawn::Memory),
    };
    let (circuit, part) = (Circuit::of(flat), part.as_slice());
    // a part that has a net has places, so nothing but memory can be wanting
    match source.survey(alloc, part) {
        Ok(survey) if range.picks => {
            draw_picked(alloc, &circuit, &survey, part, trace, piece, range, picked)
        }
        Ok(survey) => drawn(draw(alloc, &circuit, &survey, part, trace, piece, None)),
        Err(_) => Err(Undrawn::Memory),
    }
}

// The same of what is picked alone.
fn draw_picked(
    alloc: Global,
    circuit: &Circuit,
    survey: &Survey,
    part: &[u8],
    trace: &[u8],
    piece: Piece,
    range: LineRange,
    picked: Picked<'_>,
) -> Result<Vec<u8>, Undrawn>
    requires { range.picks ≡ true }
    ensures { IfErr result (λ why. IsUndrawn range why) }
{
    let picks = match picks_of(alloc, circuit, picked) {
        Ok(picks) => picks,
        Err(Unpicked::NoWord(word)) => {
            return Err(Undrawn::Piece(PieceFault::NoPick { word }));
        }
        Err(Unpicked::Memory) => return Err(Undrawn::Memory),
    };
    let rows = count_rows(alloc, circuit, trace, piece, &picks);
    if rows > MOST_ROWS {
        return Err(Undrawn::Piece(PieceFault::TooMany { rows }));
    }
    drawn(draw(alloc, circuit, survey, part, trace, piece, Some(&picks)))
}

// A drawing, where memory sufficed for it.
fn drawn(drawing: Result<Vec<u8>, AllocError>) -> Result<Vec<u8>, Undrawn>
    ensures { IfErr result (λ why. why ≡ Undrawn.Memory) }
{
    match drawing {
        Ok(drawing) => Ok(drawing),
        Err(AllocError) => Err(Undrawn::Memory),
    }
}
