//! A set of numbers, listed densely, with a row of bits for the next member.
ghost use Rattle.std.specs.Prelude.{◌≡◌, ◌+◌, ◌<◌, ◌^◌, [], true, false, length, replicate, slice_index, slice_index_or, slice_set, IfOk, ◌==◌};
ghost use Rattle.bz_ready.specs.Set.{IsListing, IsNextFrom};

use crate::order::Order;
use bz_bits::SummedRow;
use std::alloc::{AllocError, Allocator, Global};
use std::marker::Model;

/// A set of numbers up to a limit. Only `new` takes memory. A contract sees its members twice: listed by place, and as
/// a row that tells of each number whether it is one.
#[derive(Drop)]
pub struct ReadySet<A: Allocator + Copy = Global> {
    order: Order<A>,
    len: usize,
    row: SummedRow<A>,
}

impl<A: Allocator + Copy> Model for ReadySet<A> {
    ghost use Rattle.std.specs.Prelude.{take};
    ghost use Rattle.bz_ready.specs.Set.{Members, members_code, IsSet};

    ghost Value = { Members };

    ghost coded = { members_code };

    ghost view = { λ s. record { listed = take s.len s.order; row = s.row } };

    ghost invariant = { λ s. IsSet s.order s.len s.row };
}

impl<A: Allocator + Copy> ReadySet<A> {
    /// The empty set, of numbers up to `limit`.
    pub fn new(alloc: A, limit: u32) -> Result<Self, AllocError>
        requires { limit + 1 < 2 ^ 32 }
        ensures empty { IfOk result (λ s. (s.listed ≡ []) × (s.row ≡ replicate (limit + 1) false)) }
        ensures limit { IfOk result (λ s. length s.row ≡ limit + 1) }
    {
        let order = Order::new(alloc, limit + 1)?;
        let row = SummedRow::new(alloc, limit as usize + 1)?;
        Ok(ReadySet { order, len: 0, row })
    }

    pub fn contains(&self, number: u32) -> bool
        requires { number < length self.now.row }
        ensures { result ≡ slice_index_or self.now.row number false }
    {
        self.row.get(number as usize)
    }

    #[cold]
    #[inline(never)]
    pub fn insert(&mut self, number: u32)
        requires { number < length self.old.row }
        ensures members { self.new.row ≡ slice_set self.old.row number true }
        ensures limit { length self.new.row ≡ length self.old.row }
    {
        if !self.row.get(number as usize) {
            let place = self.order.place(number);
            self.order.swap(place, self.len);
            self.row.set(number as usize, true);
            self.len += 1;
        }
    }

    #[cold]
    #[inline(never)]
    pub fn remove(&mut self, number: u32)
        requires { number < length self.old.row }
        ensures members { self.new.row ≡ slice_set self.old.row number false }
        ensures limit { length self.new.row ≡ length self.old.row }
    {
        if self.row.get(number as usize) {
            let place = self.order.place(number);
            self.order.swap(place, self.len - 1);
            self.row.set(number as usize, false);
            self.len -= 1;
        }
    }

    pub fn len(&self) -> usize
        ensures value { result ≡ length self.now.listed }
        ensures listing { IsListing self.now }
    {
        self.len
    }

    pub fn is_empty(&self) -> bool
        ensures { result ≡ (length self.now.listed == 0) }
    {
        self.len == 0
    }

    /// The member at a place. Which member has which place is open, and changes with each `insert` and `remove`.
    pub fn nth(&self, place: usize) -> u32
        requires { place < length self.now.listed }
        ensures value { result ≡ slice_index self.now.listed place }
        ensures below { result < length self.now.row }
        ensures member { slice_index_or self.now.row result false ≡ true }
        ensures listing { IsListing self.now }
    {
        self.order.number(place)
    }

    /// The least member at or above `number`, else the least of all.
    #[tactic(auto, using(crate::proofs::Nexts::above, crate::proofs::Nexts::around))]
    pub fn next_from(&self, number: u32) -> Option<u32>
        ensures { IsNextFrom self.now.row number result }
    {
        if let Some(member) = self.row.next_from(number as usize) {
            return Some(member as u32);
        }
        match self.row.next_from(0) {
            Some(member) => Some(member as u32),
            None => None,
        }
    }
}
