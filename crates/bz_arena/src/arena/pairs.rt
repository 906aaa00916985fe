//! Two nodes at once.
ghost use Rattle.std.specs.Prelude.{◌≡◌, ◌≢◌, ◌<◌, length, slice_index_or};
ghost use Rattle.bz_arena.specs.Pairs.{with_pair, UpdatesBoth};

use super::Arena;
use crate::id::Id;
use crate::pair::pair_of;
use std::alloc::Allocator;
use std::mem;

impl<T, A: Allocator + Copy> Arena<T, A> {
    /// Two nodes at once. No clause can say what is written through them: for that see `update_pair` and `swap`.
    pub fn pair_mut(&mut self, a: Id<T>, b: Id<T>) -> (&mut T, &mut T)
        requires first_held { a < length self.old }
        requires second_held { b < length self.old }
        requires different { a ≢ b }
        ensures first { result.0.now ≡ slice_index_or self.old a result.0.now }
        ensures second { result.1.now ≡ slice_index_or self.old b result.1.now }
    {
        let a = a.index();
        let b = b.index();
        let start = self.full.len();
        if a < start {
            if b < start {
                return self.full.pair_mut(a, b);
            }
            return (self.full.get_mut(a), self.last.get_mut(b - start));
        }
        if b < start {
            return (self.last.get_mut(a - start), self.full.get_mut(b));
        }
        pair_of(self.last.nodes_mut(), a - start, b - start)
    }

    /// Hands two nodes at once to `f`.
    pub fn update_pair<R, F: FnOnce(&mut T, &mut T) -> R>(&mut self, a: Id<T>, b: Id<T>, f: F) -> R
        requires first_held { a < length self.old }
        requires second_held { b < length self.old }
        requires different { a ≢ b }
        requires callable { F.IsAlwaysCallable f }
        ensures updated { UpdatesBoth F.FnOnce f self.old a b result self.new }
        ensures count { length self.new ≡ length self.old }
    {
        let a = a.index();
        let b = b.index();
        let start = self.full.len();
        if a < start {
            if b < start {
                return self.full.update_pair(a, b, f);
            }
            return f(self.full.get_mut(a), self.last.get_mut(b - start));
        }
        if b < start {
            return f(self.last.get_mut(a - start), self.full.get_mut(b));
        }
        self.last.update_pair(a - start, b - start, f)
    }

    /// Exchanges two nodes.
    pub fn swap(&mut self, a: Id<T>, b: Id<T>)
        requires first_held { a < length self.old }
        requires second_held { b < length self.old }
        requires different { a ≢ b }
        ensures exchanged { (d : T) → self.new ≡ with_pair self.old a b (slice_index_or self.old b d) (slice_index_or self.old a d) }
        ensures count { length self.new ≡ length self.old }
    {
        self.update_pair(a, b, |x, y| mem::swap(x, y));
    }
}
