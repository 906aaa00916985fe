//! Whether a run goes round: a moment of it is kept, and each later one is compared with that.
//!
//! At looks 1, 2, 4, 8 .. the present moment is kept in place of the last one. A look after each move would take long: so three
//! moves of four can be made without one, each time in front of a look at which a moment is kept, which are those number 128,
//! 256, 512 .. That a run goes round is found after at most nine times as many moves as it makes until it comes back for the
//! first time.

ghost use Rattle.std.specs.Prelude.{◌≡◌, ◌*◌, ℕ, List, None, IfOk, IfNone, IfSome};
ghost use Rattle.bz_model.specs.declared.event.Who.{Who};
ghost use Rattle.bz_model.specs.declared.event.Entry.{Entry};
ghost use Rattle.bz_model.specs.Nets.{Site, State};
ghost use Rattle.bz_model.specs.Plays.{Firings};
ghost use Rattle.bz_explore_net.specs.Rounds.{ComesBack, IsAgain, IsKept, IsMomentOf, IsRound, repeated};

use crate::stepping::Stepping;
use bz_net::Core;
use std::alloc::{AllocError, Global};

// So many looks at a run are a move apart.
const CLOSE: u64 = 64;

/// A moment of a net that is played by hand.
#[derive(Drop)]
pub struct Moment {
    core: Core,
    /// How many entries the journal had.
    entries: usize,
    /// The component from which on the next run would have looked for one that can move.
    next: u32,
}

/// The moment of a run that is kept, if one is.
#[derive(Drop)]
pub struct Rounds {
    kept: Option<Moment>,
    // How many moments were looked at, and the number of the next look at which one is kept.
    looks: u64,
    due: u64,
    // The place of a component by which the kept moment was another one when it was compared last.
    other: usize,
}

impl Moment {
    fn of(alloc: Global, stepping: &Stepping) -> Result<Moment, AllocError>
        ensures { IfOk result (IsMomentOf stepping.now) }
    {
        Ok(Moment {
            core: stepping.net().core().dup(alloc)?,
            entries: stepping.net().journal().len(),
            next: stepping.next(),
        })
    }

    // `None` where all goes on now as it did in this moment, else the place of a component, which is looked at first.
    fn differing(&self, stepping: &Stepping, first: usize) -> Option<usize>
        ensures { IfNone result (IsAgain self.now stepping.now) }
    {
        if self.next != stepping.next() {
            return Some(first);
        }
        self.core.differing(stepping.net().core(), first)
    }
}

impl Rounds {
    /// No moment is kept yet.
    pub fn new() -> Rounds
        ensures { result.kept ≡ None }
    {
        Rounds {
            kept: None,
            looks: 0,
            due: 1,
            other: 0,
        }
    }

    /// Forgets the moment that is kept, since something has changed for good on which the order hangs beside the net.
    pub fn forget(&mut self)
        ensures { self.new.kept ≡ None }
    {
        self.kept = None;
    }

    /// How many moves are to be made before the next look.
    pub fn stride(&self) -> u64 {
        if self.due > CLOSE && self.looks.saturating_add(1) == self.due {
            self.due.saturating_add(self.due / 2)
        } else {
            1
        }
    }

    /// After a move: how many entries the journal had in the moment that is kept, where all goes on now as it did then. Else the
    /// present moment may be kept; without memory for it none is.
    pub fn look(&mut self, alloc: Global, stepping: &Stepping) -> Option<usize>
        ensures round { IfSome result (ComesBack self.old.kept stepping.now) }
        ensures kept { IsKept self.old.kept stepping.now self.new.kept }
    {
        if let Some(moment) = &self.kept {
            match moment.differing(stepping, self.other) {
                None => return Some(moment.entries),
                Some(other) => self.other = other,
            }
        }
        self.looks = self.looks.saturating_add(1);
        if self.looks >= self.due {
            self.due = self.due.saturating_mul(2);
            self.kept = Moment::of(alloc, stepping).ok();
        }
        None
    }
}

/// A run that has come back to where it was can make the same moves again, as often as one likes. This function does nothing:
/// what it ensures is proved.
pub fn rounds_go_on_for_ever()
    ensures { (sites : List Site) (who : Who) (s : State) (from n : ℕ) (es : List Entry) → IsRound sites who s from n es
        → (k : ℕ) → Firings sites who s from (k * n) (repeated k es) from s }
{}
