//! Clash lines that no run has.

use crate::scene::Scene;
use bz_explain_notes::Notes;
use bz_view::Piece::Number;

/// The notes of a clash line, or of the end of the trace, where the line of a component is due, or none is.
pub(crate) fn explain_clash(
    notes: &mut Notes,
    scene: &Scene<'_>,
    found: Option<u32>,
    due: Option<u32>,
) {
    scene.line.put(notes, 2);
    match found {
        Some(comp) => {
            scene.put_placed(notes, comp);
            notes.put("\nfound: clash %\n", &[Number(comp as usize)]);
        }
        None => notes.put("the end of the trace\nfound: no clash line more\n", &[]),
    }
    match due {
        Some(comp) => {
            let form = "expected: clash %, since requests met at ";
            notes.put(form, &[Number(comp as usize)]);
            scene.put_placed(notes, comp);
        }
        None => {
            let form = "expected: the end of the trace: requests met nowhere else";
            notes.put(form, &[]);
        }
    }
    notes.say("", &[]);
}
