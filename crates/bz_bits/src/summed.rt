//! A row of bits that can be searched without reading all its words.
ghost use Rattle.std.specs.Prelude.{◌≡◌, ◌+◌, ◌*◌, ◌/◌, ◌<◌, ◌≤◌, suc, true, false, None, length, replicate, slice_index_or, slice_set, IfOk};
ghost use Rattle.bz_bits.specs.Row.{IsNext, IsNextAfter, IsNextInWord, Sums};

use crate::row::BitRow;
use std::alloc::{AllocError, Allocator, Global};
use std::marker::Model;

/// A row of bits of a fixed length, with two shorter rows above it: one tells which words have a 1, the other which
/// blocks of 64 words do. A contract sees the row alone.
#[derive(Drop)]
pub struct SummedRow<A: Allocator + Copy = Global> {
    row: BitRow<A>,
    words: BitRow<A>,
    blocks: BitRow<A>,
}

impl<A: Allocator + Copy> Model for SummedRow<A> {
    ghost use Rattle.std.specs.Prelude.{List, Bool};
    ghost use Rattle.bz_bits.specs.Row.{Sums};

    ghost Value = { List Bool };

    ghost view = { λ s. s.row };

    ghost invariant = { λ s. Sums s.row s.words × Sums s.words s.blocks };
}

impl<A: Allocator + Copy> SummedRow<A> {
    /// A row of `len` bits that are all 0.
    pub fn new(alloc: A, len: usize) -> Result<Self, AllocError>
        ensures { IfOk result (λ s. s ≡ replicate len false) }
    {
        let row = BitRow::new(alloc, len)?;
        let words = BitRow::new(alloc, len / 64 + 1)?;
        let blocks = BitRow::new(alloc, len / 4096 + 1)?;
        Ok(SummedRow { row, words, blocks })
    }

    pub fn len(&self) -> usize
        ensures { result ≡ length self.now }
    {
        self.row.len()
    }

    pub fn get(&self, place: usize) -> bool
        requires { place < length self.now }
        ensures { result ≡ slice_index_or self.now place false }
    {
        self.row.get(place)
    }

    pub fn set(&mut self, place: usize, bit: bool)
        requires { place < length self.old }
        ensures { self.new ≡ slice_set self.old place bit }
    {
        if bit {
            self.raise(place);
        } else {
            self.lower(place);
        }
    }

    #[inline]
    pub fn raise(&mut self, place: usize)
        requires { place < length self.old }
        ensures { self.new ≡ slice_set self.old place true }
    {
        let had_one = self.row.has_one(place);
        self.row.raise(place);
        if had_one {
            return;
        }
        let word = place / 64;
        let had_word = self.words.has_one(word);
        self.words.raise(word);
        if had_word {
            return;
        }
        self.blocks.raise(word / 64);
    }

    #[inline]
    pub fn lower(&mut self, place: usize)
        requires { place < length self.old }
        ensures { self.new ≡ slice_set self.old place false }
    {
        if self.row.lower_leaves_one(place) {
            return;
        }
        let word = place / 64;
        if self.words.lower_leaves_one(word) {
            return;
        }
        self.blocks.lower(word / 64);
    }

    /// The first place at or above `from` whose bit is 1.
    #[inline(always)]
    pub fn next_from(&self, from: usize) -> Option<usize>
        ensures { IsNext self.now from result }
    {
        if let Some(place) = self.row.next_in_word(from) {
            return Some(place);
        }
        if self.len() <= 64 {
            return None;
        }
        self.next_far(from)
    }

    // The same where its own word has none.
    #[cold]
    #[inline(never)]
    fn next_far(&self, from: usize) -> Option<usize>
        requires { IsNextInWord self.now from None }
        ensures { IsNext self.now from result }
    {
        self.next_behind(from)
    }

    /// The first place at or above `from`, in the word of `from`, whose bit is 1.
    #[inline(always)]
    pub fn next_near(&self, from: usize) -> Option<usize>
        ensures near { IsNextInWord self.now from result }
        ensures few { length self.now ≤ 64 → IsNext self.now from result }
    {
        self.row.next_in_word(from)
    }

    /// The first place above `place`, in its word, whose bit is 1.
    #[inline(always)]
    pub fn next_after(&self, place: usize) -> Option<usize>
        requires { place < length self.now }
        ensures near { IsNextAfter self.now place result }
        ensures few { length self.now ≤ 64 → IsNext self.now (suc place) result }
    {
        self.row.next_after(place)
    }

    /// The first place above `place` whose bit is 1, where its word has none above it.
    #[inline(always)]
    pub fn next_past(&self, place: usize) -> Option<usize>
        requires { IsNextAfter self.now place None }
        ensures { IsNext self.now (suc place) result }
    {
        self.next_behind(place)
    }

    // The first place in a word behind that of `place` whose bit is 1.
    #[inline(always)]
    fn next_behind(&self, place: usize) -> Option<usize>
        ensures { IsNext self.now (64 * (place / 64 + 1)) result }
    {
        match next_word(&self.words, &self.blocks, place / 64 + 1) {
            Some(word) => Some(self.row.first_in(word)),
            None => None,
        }
    }
}

// The first word at or above `from` that has a 1.
#[inline(always)]
fn next_word<A: Allocator>(words: &BitRow<A>, blocks: &BitRow<A>, from: usize) -> Option<usize>
    requires { Sums words.now blocks.now }
    ensures { IsNext words.now from result }
{
    if let Some(word) = words.next_in_word(from) {
        return Some(word);
    }
    match next_block(blocks, from / 64 + 1) {
        Some(block) => words.next_in_word(64 * block),
        None => None,
    }
}

// The first block at or above `from` that has a 1. Of up to 64 one word tells.
#[inline(always)]
fn next_block<A: Allocator>(blocks: &BitRow<A>, from: usize) -> Option<usize>
    ensures { IsNext blocks.now from result }
{
    if blocks.len() <= 64 {
        return blocks.next_in_word(from);
    }
    blocks.next_from(from)
}
