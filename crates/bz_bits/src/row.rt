//! A row of bits, in words of 64.
ghost use Rattle.std.specs.Prelude.{◌≡◌, ◌+◌, ◌*◌, ◌/◌, ◌==◌, ◌<◌, ◌≤◌, ℕ, true, false, length, replicate, slice_index_or, slice_set, IfOk, Some};
ghost use Rattle.std.specs.Int.{bit_at};
ghost use Rattle.bz_bits.specs.Row.{bits, IsNext, IsNextAfter, IsNextInWord, HasOne};

use std::alloc::{AllocError, Allocator, Global};
use std::marker::Model;

/// A row of bits of a fixed length. A contract sees it as that list.
#[derive(Drop)]
pub struct BitRow<A: Allocator = Global> {
    words: Vec<u64, A>,
    len: usize,
}

impl<A: Allocator> Model for BitRow<A> {
    ghost use Rattle.std.specs.Prelude.{List, Bool};
    ghost use Rattle.bz_bits.specs.Row.{bits, IsRow};

    ghost Value = { List Bool };

    ghost view = { λ r. bits r.words.items r.len };

    ghost invariant = { λ r. IsRow r.words.items r.len };
}

impl<A: Allocator> BitRow<A> {
    /// A row of `len` bits that are all 0.
    pub fn new(alloc: A, len: usize) -> Result<Self, AllocError>
        ensures { IfOk result (λ r. r ≡ replicate len false) }
    {
        let count = len.div_ceil(64);
        let words = Vec::from_elem(alloc, 0u64, count)?;
        Ok(BitRow { words, len })
    }

    pub fn len(&self) -> usize
        ensures { result ≡ length self.now }
    {
        self.len
    }

    pub fn get(&self, place: usize) -> bool
        requires { place < length self.now }
        ensures { result ≡ slice_index_or self.now place false }
    {
        (self.words[place / 64] >> (place % 64)) & 1 == 1
    }

    pub fn set(&mut self, place: usize, bit: bool)
        requires { place < length self.old }
        ensures { self.new ≡ slice_set self.old place bit }
    {
        if bit {
            self.raise(place);
        } else {
            self.lower(place);
        }
    }

    pub fn raise(&mut self, place: usize)
        requires { place < length self.old }
        ensures { self.new ≡ slice_set self.old place true }
    {
        let word = &mut self.words[place / 64];
        *word |= 1 << (place % 64);
    }

    pub fn lower(&mut self, place: usize)
        requires { place < length self.old }
        ensures { self.new ≡ slice_set self.old place false }
    {
        self.lower_leaves_one(place);
    }

    /// Lowers a bit, and answers whether its word still has a 1.
    #[inline]
    pub(crate) fn lower_leaves_one(&mut self, place: usize) -> bool
        requires { place < length self.old }
        ensures lowered { self.new ≡ slice_set self.old place false }
        ensures told { HasOne self.new (place / 64) result }
    {
        let word = &mut self.words[place / 64];
        let left = *word & !(1 << (place % 64));
        *word = left;
        left != 0
    }

    /// The first place at or above `from` whose bit is 1. It looks at each word from there on.
    pub fn next_from(&self, from: usize) -> Option<usize>
        ensures { IsNext self.now from result }
    {
        if let Some(place) = self.next_in_word(from) {
            return Some(place);
        }
        for at in from / 64 + 1..self.words.len() {
            if let Some(place) = self.next_in_word(64 * at) {
                return Some(place);
            }
        }
        None
    }

    /// The first place at or above `from`, in the word of `from`, whose bit is 1.
    pub(crate) fn next_in_word(&self, from: usize) -> Option<usize>
        ensures { IsNextInWord self.now from result }
    {
        if self.len <= from {
            return None;
        }
        self.next_within(from)
    }

    // The same of a place of the row.
    #[inline(always)]
    fn next_within(&self, from: usize) -> Option<usize>
        requires { from < length self.now }
        ensures { IsNextInWord self.now from result }
    {
        let found = above(self.words[from / 64], from % 64);
        if found == 0 {
            return None;
        }
        Some(from / 64 * 64 + found.trailing_zeros() as usize)
    }

    /// The first place above `place`, in its word, whose bit is 1.
    #[inline(always)]
    pub(crate) fn next_after(&self, place: usize) -> Option<usize>
        requires { place < length self.now }
        ensures { IsNextAfter self.now place result }
    {
        let found = past(self.words[place / 64], place % 64);
        if found == 0 {
            return None;
        }
        Some(place / 64 * 64 + found.trailing_zeros() as usize)
    }

    /// The first place of a word that has a 1.
    #[inline(always)]
    pub(crate) fn first_in(&self, at: usize) -> usize
        requires { HasOne self.now at true }
        ensures { IsNextInWord self.now (64 * at) (Some result) }
    {
        let found = self.words[at];
        64 * at + found.trailing_zeros() as usize
    }

    /// Whether the word of `place` has a 1.
    #[inline(always)]
    pub(crate) fn has_one(&self, place: usize) -> bool
        requires { place < length self.now }
        ensures { HasOne self.now (place / 64) result }
    {
        self.words[place / 64] != 0
    }
}

/// The bits of `word` from a place on.
pub(crate) fn above(word: u64, place: usize) -> u64
    requires { place < 64 }
    ensures below { (i : ℕ) → i < place → bit_at result i ≡ 0 }
    ensures rest { (i : ℕ) → place ≤ i → bit_at result i ≡ bit_at word i }
{
    word & (u64::MAX << place)
}

// The bits of `word` after a place. The mask needs no word, so that who waits for the word has one step left.
#[inline(always)]
fn past(word: u64, place: usize) -> u64
    requires { place < 64 }
    ensures before { (i : ℕ) → i ≤ place → bit_at result i ≡ 0 }
    ensures rest { (i : ℕ) → place < i → bit_at result i ≡ bit_at word i }
{
    word & (u64::MAX << place << 1)
}
