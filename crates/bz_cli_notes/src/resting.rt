//! Notes on a net at rest: what can never move again, and the words of the host that would go on.

use bz_cli_source::survey_of;
use bz_cli_trace::Case;
use bz_explain_notes::{Notes, tell_notes};
use bz_model::Phase;
use bz_net::Core;
use bz_text::Text;
use bz_view::Piece::Bytes;
use bz_view::{Seen, put_rest};
use std::alloc::Global;
use std::io::Write;

/// Notes why a net that words were played on goes no further. There is no note where no handshake is under way, or some component
/// can move. The netlist is read once more, for where everything in the net is from.
pub(crate) fn note_rest<W: Write>(
    alloc: Global,
    part: Option<&[u8]>,
    netlist: &[u8],
    net: &Core,
    errors: &mut W,
) {
    if !is_waiting(net) {
        return;
    }
    if let Ok((_, survey, _)) = survey_of(alloc, part, netlist) {
        tell_rest(alloc, Seen::of(net, &survey), errors);
    }
}

/// The same of a net that the trace of a run was checked against. The netlist is not read once more.
pub(crate) fn note_end<W: Write>(alloc: Global, case: Case, errors: &mut W) {
    if !is_waiting(case.judged.net.core()) {
        return;
    }
    let (net, source, part) = case.into_parts();
    if let Ok(survey) = source.survey(alloc, part.as_slice()) {
        tell_rest(alloc, Seen::of(net.core(), &survey), errors);
    }
}

// Whether a handshake is under way, and no component can move.
fn is_waiting(net: &Core) -> bool {
    net.next_ready(1).is_none() && !is_quiet(net)
}

fn tell_rest<W: Write>(alloc: Global, seen: Seen<'_>, errors: &mut W) {
    let mut text = Text::new(alloc);
    put_rest(seen, &mut text);
    tell_lines(alloc, &text, errors);
}

// Whether no handshake is under way.
fn is_quiet(net: &Core) -> bool {
    (1..=net.chan_count()).all(|chan| net.phase(chan) == Phase::Idle)
}

// Tells each line as a note.
fn tell_lines<W: Write>(alloc: Global, text: &Text, errors: &mut W) {
    let Ok(lines) = text.whole() else {
        return;
    };
    let mut notes = Notes::new(alloc);
    for line in lines.split(|byte| *byte == b'\n') {
        if !line.is_empty() {
            notes.say("%", &[Bytes(line)]);
        }
    }
    let _ = tell_notes(alloc, &notes, errors);
}
