//! Which components of a net can move, as the core keeps it.

ghost use Rattle.std.specs.Prelude.{◌≡◌, ◌+◌, ◌<◌, ◌≤◌, ◌^◌, false, length, replicate, slice_index_or, slice_set, suc, true, IfNone, IfOk, IfSome, None, Some};
ghost use Rattle.bz_bits.specs.Row.{IsNext, IsNextAfter};
ghost use Rattle.bz_ready.specs.Set.{IsNextFrom};

use bz_bits::SummedRow;
use std::alloc::{AllocError, Global};
use std::marker::Model;

/// A bit for each component, and one for the number 0, that tells whether it can move. Only `new` takes memory.
pub(crate) struct ReadyRow {
    marks: SummedRow,
}

impl Drop for ReadyRow {
    fn drop(self) {
        let ReadyRow { marks: _ } = self;
    }
}

impl Model for ReadyRow {
    ghost use Rattle.std.specs.Prelude.{List, Bool};

    ghost Value = { List Bool };

    ghost view = { λ r. r.marks };

    ghost use Rattle.std.specs.Prelude.{◌≤◌, ◌^◌, length};

    ghost invariant = { λ r. length r.marks ≤ 2 ^ 32 };
}

impl ReadyRow {
    /// None can move, of the components up to `limit`.
    pub(crate) fn new(alloc: Global, limit: u32) -> Result<ReadyRow, AllocError>
        requires { limit + 1 < 2 ^ 32 }
        ensures { IfOk result (λ r. r ≡ replicate (limit + 1) false) }
    {
        let marks = SummedRow::new(alloc, limit as usize + 1)?;
        Ok(ReadyRow { marks })
    }

    pub(crate) fn contains(&self, comp: u32) -> bool
        requires { comp < length self.now }
        ensures { result ≡ slice_index_or self.now comp false }
    {
        self.marks.get(comp as usize)
    }

    #[inline(always)]
    pub(crate) fn insert(&mut self, comp: u32)
        requires { comp < length self.old }
        ensures { self.new ≡ slice_set self.old comp true }
    {
        self.marks.raise(comp as usize);
    }

    #[inline(always)]
    pub(crate) fn remove(&mut self, comp: u32)
        requires { comp < length self.old }
        ensures { self.new ≡ slice_set self.old comp false }
    {
        self.marks.lower(comp as usize);
    }

    /// The least that can move behind `last`, else the least of all, where that is found by one look: it mostly lies in the word
    /// of `last`, and where there are few, it always does.
    #[inline(always)]
    #[tactic(auto, using(bz_ready::proofs::Nexts::above, bz_ready::proofs::Nexts::around_all))]
    pub(crate) fn next_after(&self, last: usize) -> Option<u32>
        requires { last < length self.now }
        ensures some { IfSome result (λ comp. IsNextFrom self.now (suc last) (Some comp)) }
        ensures none { IfNone result (IsNextAfter self.now last None) }
    {
        if let Some(place) = self.marks.next_after(last) {
            return Some(place as u32);
        }
        if self.marks.len() > 64 {
            return None;
        }
        match self.marks.next_near(0) {
            Some(place) => Some(place as u32),
            None => None,
        }
    }

    /// The same where none behind it in its word can move. `None` where none can at all. Mostly there is none behind it either.
    #[inline(always)]
    #[tactic(auto, using(bz_ready::proofs::Nexts::above, bz_ready::proofs::Nexts::around_all))]
    pub(crate) fn next_past(&self, last: usize) -> Option<u32>
        requires { IsNextAfter self.now last None }
        ensures { IsNextFrom self.now (suc last) result }
    {
        if let Some(place) = self.marks.next_past(last) {
            return Some(place as u32);
        }
        first_marked(&self.marks)
    }
}

// The least of all.
#[inline(never)]
fn first_marked(marks: &SummedRow) -> Option<u32>
    requires { length marks.now ≤ 2 ^ 32 }
    ensures { IsNext marks.now 0 result }
{
    match marks.next_from(0) {
        Some(place) => Some(place as u32),
        None => None,
    }
}
