//! Firings and rests that no run has.

use crate::scene::{Scene, phase_of};
use bz_explain_notes::Notes;
use bz_model::{Move, Phase, Value};
use bz_view::Piece::{self, Count, Name, Number, Text};

/// A firing, as a line has it.
#[derive(Clone, Copy)]
pub(crate) struct Firing {
    pub(crate) comp: u32,
    pub(crate) chan: u32,
    pub(crate) mv: Move,
    pub(crate) value: Option<Value>,
}

/// What is wrong with a firing.
#[derive(Clone, Copy)]
enum Misfire {
    /// The net has no such component.
    NoComp,
    /// The net has no such channel.
    NoChan,
    /// The component doesn't hold the end of the channel at which such a move is made.
    NoEnd,
    /// It can't make this move while the channel is in this phase.
    NotNow(Phase),
    /// It can make this move, and with another value, while the channel is in this phase.
    OtherValue(Phase),
}

/// The items of a firing: its component, its move, its channel and its value.
const COMP: usize = 3;

const MOVE: usize = 4;

const CHAN: usize = 5;

const VALUE: usize = 6;

/// The notes of a firing.
pub(crate) fn explain_firing(notes: &mut Notes, scene: &Scene<'_>, firing: Firing) {
    let Firing { comp, chan, .. } = firing;
    let misfire = scene.misfire(firing);
    let item = match misfire {
        Misfire::NoComp => COMP,
        Misfire::NoChan | Misfire::NoEnd => CHAN,
        Misfire::NotNow(_) => MOVE,
        Misfire::OtherValue(_) => VALUE,
    };
    scene.line.put(notes, item);
    scene.put_placed(notes, comp);
    notes.put("\nfound: ", &[]);
    match misfire {
        Misfire::NoComp => {
            let comps = Count(scene.seen.net.comp_count() as usize, "component");
            put_number(notes, "component", comp, comps);
        }
        Misfire::NoChan => {
            let chans = Count(scene.seen.net.chan_count() as usize, "channel");
            put_number(notes, "channel", chan, chans);
        }
        Misfire::NoEnd => put_end(notes, scene, firing),
        Misfire::NotNow(phase) => put_move(notes, scene, firing, phase),
        Misfire::OtherValue(phase) => {
            put_move(notes, scene, firing, phase);
            notes.put(", and the value%", &[Piece::Value(firing.value)]);
        }
    }
    put_expected(notes, scene, comp);
}

impl Scene<'_> {
    // What is wrong with a firing.
    fn misfire(&self, firing: Firing) -> Misfire {
        let Firing { comp, chan, mv, .. } = firing;
        if self.seen.net.comp(comp).is_none() {
            return Misfire::NoComp;
        }
        let Some(phase) = phase_of(self.seen.net, chan) else {
            return Misfire::NoChan;
        };
        match self.seen.net.port_at(comp, chan, mv) {
            None => Misfire::NoEnd,
            Some(port) => match self.seen.net.foresee(comp, port) {
                Some((_, due, _)) if due == mv => Misfire::OtherValue(phase),
                _ => Misfire::NotNow(phase),
            },
        }
    }
}

// Tells a number that is none of the net's.
fn put_number<'t>(notes: &mut Notes, thing: &'t str, number: u32, count: Piece<'t>) {
    let args = [Text(thing), Number(number as usize), count];
    notes.put("% %, and the net has %", &args);
}

// Tells whose the end is at which such a move is made.
fn put_end(notes: &mut Notes, scene: &Scene<'_>, firing: Firing) {
    let (sense, is_passive) = match firing.mv {
        Move::Ask | Move::Got => ("active", false),
        Move::Take | Move::Reply => ("passive", true),
    };
    notes.put("% on ", &[Text(firing.mv.word())]);
    scene.put_chan(notes, firing.chan);
    notes.put(", whose % end is that of ", &[Text(sense)]);
    match scene.seen.end(firing.chan, is_passive) {
        Some(comp) => scene.put_comp(notes, comp),
        None => notes.put(
            "the host, at port %",
            &[Name(scene.seen.port_name(firing.chan))],
        ),
    }
}

// Tells the move, and in what phase its channel is.
fn put_move(notes: &mut Notes, scene: &Scene<'_>, firing: Firing, phase: Phase) {
    notes.put("% on ", &[Text(firing.mv.word())]);
    scene.put_chan(notes, firing.chan);
    put_phase(notes, phase);
}

fn put_phase(notes: &mut Notes, phase: Phase) {
    notes.put(", which is %", &[Piece::Phase(phase)]);
}

// Tells what the component could do, or what others could where it can't move.
fn put_expected(notes: &mut Notes, scene: &Scene<'_>, comp: u32) {
    if scene.seen.net.is_ready(comp) {
        let args = [scene.kind(comp), Number(comp as usize)];
        notes.put("\nexpected: what % % can do: ", &args);
        scene.put_moves(notes, Some(comp));
    } else if scene.seen.net.next_ready(1).is_some() {
        notes.put("\nexpected: what others can do: ", &[]);
        scene.put_moves(notes, None);
    } else {
        notes.put("\nexpected: no firing: nothing can move", &[]);
    }
    notes.say("", &[]);
}

/// The notes of a rest while a component can move.
pub(crate) fn explain_rest(notes: &mut Notes, scene: &Scene<'_>, comp: u32) {
    scene.line.put(notes, 2);
    scene.put_placed(notes, comp);
    notes.put(
        " can move\nfound: a rest where a component can move\nexpected: ",
        &[],
    );
    scene.put_moves(notes, None);
    notes.say("", &[]);
}
