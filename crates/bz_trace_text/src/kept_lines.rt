//! Lines of firings that are kept, since components make the same moves again and again.

ghost use Rattle.std.specs.Prelude.{◌≡◌, ◌+◌, ◌*◌, ◌<◌, ◌≤◌, length, IfSome, IsTrue, ◌↔◌};
ghost use Rattle.bz_trace_text.specs.Keeping.{AreKept, IsKept, kept_text, move_place, told_line};

use crate::kept_line::{KeptLine, NO_LINE};
use crate::line::set_told;
use bz_model::Move;
use std::alloc::Global;

/// The greatest number that a channel or a component has where lines are kept: then each line is short enough.
const MOST: usize = 4_096;

/// The lines of the moves of each channel, so far as they were needed.
#[derive(Drop)]
pub(crate) struct KeptLines {
    lines: Vec<KeptLine>,
    ghost told: { AreKept lines.items },
}

impl KeptLines {
    /// None is kept yet. There is a place for each move of the channels below `count`, unless they are many or there is no
    /// memory for them.
    pub(crate) fn new(alloc: Global, count: usize) -> KeptLines {
        let places = if count <= MOST + 1 { 4 * count } else { 0 };
        match Vec::from_elem(alloc, NO_LINE, places) {
            Ok(lines) => KeptLines { lines },
            Err(_) => KeptLines {
                lines: Vec::new(alloc),
            },
        }
    }

    /// The line of a firing, where it is kept.
    #[inline(always)]
    pub(crate) fn find(&self, comp: u32, mv: Move, chan: u32) -> Option<KeptLine>
        ensures { IfSome result (λ line. kept_text line ≡ told_line comp mv chan) }
    {
        let place = place_of(mv, chan);
        if place >= self.lines.len() {
            return None;
        }
        let line = self.lines[place];
        if line.comp == u64::from(comp) {
            Some(line)
        } else {
            None
        }
    }

    /// Keeps the line of a firing from now on, where there is a place for it.
    #[inline(always)]
    pub(crate) fn keep(&mut self, comp: u32, mv: Move, chan: u32) {
        let place = place_of(mv, chan);
        if place < self.lines.len() {
            self.lines[place] = line_of(comp, mv, chan);
        }
    }
}

#[inline(always)]
fn place_of(mv: Move, chan: u32) -> usize
    ensures { result ≡ 4 * chan + move_place mv }
{
    4 * chan as usize + mv as usize
}

// The line of a firing, or no line where it is too long.
#[cold]
#[inline(never)]
fn line_of(comp: u32, mv: Move, chan: u32) -> KeptLine
    ensures { IsKept result mv chan }
{
    let mut text = [0; 32];
    let len = set_told(&mut text, 0, comp, mv, chan) + 1;
    if len > 16 {
        return NO_LINE;
    }
    let mut first = [0; 8];
    let mut second = [0; 8];
    first.copy_from_slice(&text[..8]);
    second.copy_from_slice(&text[8..16]);
    KeptLine {
        first,
        second,
        len,
        comp: u64::from(comp),
    }
}
