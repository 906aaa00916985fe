//! A net before the line that it refuses, and how its components and channels are called.

use crate::items::LineAt;
use bz_explain_notes::Notes;
use bz_model::Phase;
use bz_net::Core;
use bz_source::{Label, Survey};
use bz_view::Piece::{self, Bytes, Name, Number, Path};
use bz_view::{Seen, Thing};

/// A net before the line that it refuses, and that line.
#[derive(Clone, Copy)]
pub(crate) struct Scene<'t> {
    pub(crate) seen: Seen<'t>,
    pub(crate) line: LineAt<'t>,
}

impl<'t> Scene<'t> {
    pub(crate) fn of(net: &'t Core, survey: &'t Survey, line: LineAt<'t>) -> Scene<'t> {
        Scene {
            seen: Seen::of(net, survey),
            line,
        }
    }

    /// The kind of a component.
    pub(crate) fn kind(&self, comp: u32) -> Piece<'static> {
        let word = self.seen.kind(comp);
        Bytes(if word.is_empty() { b"component" } else { word })
    }

    /// Goes on with a component's kind and number, and its label.
    pub(crate) fn put_comp(&self, notes: &mut Notes, comp: u32) {
        notes.put("% %", &[self.kind(comp), Number(comp as usize)]);
        notes.put_label(self.seen.label(Thing::Comp(comp)));
    }

    /// Goes on with a channel's number, and what it is called.
    pub(crate) fn put_chan(&self, notes: &mut Notes, chan: u32) {
        let name = self.seen.survey.chan_name(chan);
        notes.put("channel %", &[Number(chan as usize)]);
        notes.put_label(Label { name, source: None });
    }

    /// Goes on with a component, and where it is in the netlist: ` at buffer 2 line 8`, with ` in 4/1` after it where it is in an
    /// instance.
    pub(crate) fn put_placed(&self, notes: &mut Notes, comp: u32) {
        self.put_comp(notes, comp);
        if let Some(at) = self.seen.survey.comp(comp) {
            let args = [Name(at.part), Number(at.position), Number(at.line)];
            notes.put(" at % % line %", &args);
            if !at.path.is_empty() {
                notes.put(" in %", &[Path(at.path)]);
            }
        }
    }
}

/// The phase of a channel, where there is one of this number.
pub(crate) fn phase_of(net: &Core, chan: u32) -> Option<Phase> {
    match net.names().chan(chan) {
        Some(_) => Some(net.phase(chan)),
        None => None,
    }
}
