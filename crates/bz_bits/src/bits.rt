//! A bit for each port, of which the first 64 take no memory of their own.
ghost use Rattle.std.specs.Prelude.{◌≡◌, ◌≢◌, ◌==◌, ◌+◌, ◌-◌, ◌*◌, ◌/◌, ◌<◌, ◌≤◌, ◌∷◌, ℕ, suc, not, drop, length, slice_index_or, take, All, IfOk};
ghost use Rattle.std.specs.Int.{bit_at, from_bool};
ghost use Rattle.bz_bits.specs.Row.{bit_of, Tells};

use crate::row::above;
use crate::word::{one_place, with};
use std::alloc::{AllocError, Allocator, Global};
use std::marker::Model;

/// A bit for each port, in words of 64. A contract sees the words.
#[derive(Drop)]
pub struct PortBits<A: Allocator + Copy = Global> {
    first: u64,
    // Word k in place k, from word 1 on. In place 0 bit i tells whether word i + 1 has a bit.
    more: Vec<u64, A>,
}

impl<A: Allocator + Copy> Model for PortBits<A> {
    ghost use Rattle.std.specs.Prelude.{List, ℕ, ◌∷◌, drop};
    ghost use Rattle.bz_bits.specs.Row.{Tells};

    ghost Value = { List ℕ };

    ghost view = { λ p. p.first ∷ drop 1 p.more.items };

    ghost invariant = { λ p. Tells p.more.items };
}

impl<A: Allocator + Copy> PortBits<A> {
    /// Room for `count` ports, all bits 0.
    pub fn new(alloc: A, count: usize) -> Result<Self, AllocError>
        ensures room { IfOk result (λ p. count ≤ 64 * length p) }
        ensures words { IfOk result (λ p. length p ≡ (count - 1) / 64 + 1) }
        ensures none { IfOk result (λ p. (k : ℕ) → bit_of p k ≡ 0) }
    {
        let far = count.saturating_sub(1) / 64;
        let places = if far == 0 { 0 } else { far + 1 };
        let more = Vec::from_elem(alloc, 0u64, places)?;
        Ok(PortBits { first: 0, more })
    }

    /// The same bits.
    pub fn dup(&self, alloc: A) -> Result<Self, AllocError>
        ensures { IfOk result (λ p. p ≡ self.now) }
    {
        let more = Vec::from_slice(alloc, &self.more)?;
        Ok(PortBits {
            first: self.first,
            more,
        })
    }

    /// How many words there are.
    pub fn word_count(&self) -> usize
        ensures { result ≡ length self.now }
    {
        self.more.len().max(1)
    }

    /// The bits of 64 ports, 0 where there is no such word.
    pub fn word(&self, at: usize) -> u64
        ensures { result ≡ slice_index_or self.now at 0 }
    {
        bits_at(&self.first, &self.more, at)
    }

    /// The first word from `at` on, but before `end`, that has a bit; `end`, or past the last word, where there is none.
    pub fn next_one(&self, at: usize, end: usize) -> usize
        requires behind { 0 < at }
        requires ordered { at ≤ end }
        ensures from { at ≤ result }
        ensures within { result ≤ end }
        ensures passed { (k : ℕ) → at ≤ k → k < result → slice_index_or self.now k 0 ≡ 0 }
        ensures stops { result < end → result < length self.now → slice_index_or self.now result 0 ≢ 0 }
    {
        let left = told_from(told(&self.more), at);
        if left != 0 {
            return (left.trailing_zeros() as usize + 1).min(end);
        }
        if self.more.len() <= 65 {
            return end;
        }
        next_beyond(&self.more, at.max(65).min(end), end)
    }

    /// Gives a port its bit.
    #[inline]
    pub fn put(&mut self, port: usize, bit: bool)
        requires { port < 64 * length self.old }
        ensures long { length self.new ≡ length self.old }
        ensures here { bit_of self.new port ≡ from_bool bit }
        ensures others { (k : ℕ) → k ≢ port → bit_of self.new k ≡ bit_of self.old k }
    {
        if port < 64 {
            self.first = with(self.first, one_place(port % 64), bit);
        } else if bit {
            self.raise_far(port);
        } else {
            self.lower_far(port);
        }
    }

    // Raises the bit of a port beyond the first 64.
    #[cold]
    #[inline(never)]
    fn raise_far(&mut self, port: usize)
        requires far { 64 ≤ port }
        requires held { port < 64 * length self.old }
        ensures long { length self.new ≡ length self.old }
        ensures here { bit_of self.new port ≡ 1 }
        ensures others { (k : ℕ) → k ≢ port → bit_of self.new k ≡ bit_of self.old k }
    {
        put_told(&mut self.more, port, true);
    }

    // Lowers it.
    #[cold]
    #[inline(never)]
    fn lower_far(&mut self, port: usize)
        requires far { 64 ≤ port }
        requires held { port < 64 * length self.old }
        ensures long { length self.new ≡ length self.old }
        ensures here { bit_of self.new port ≡ 0 }
        ensures others { (k : ℕ) → k ≢ port → bit_of self.new k ≡ bit_of self.old k }
    {
        put_told(&mut self.more, port, false);
    }
}

// What place 0 tells, nothing where there is none.
fn told(more: &[u64]) -> u64
    ensures { result ≡ slice_index_or more.now 0 0 }
{
    match more.get(0) {
        Some(word) => *word,
        None => 0,
    }
}

// Of what is told of words 1 to 64 that of those from `at` on.
fn told_from(told: u64, at: usize) -> u64
    requires { 0 < at }
    ensures before { (i : ℕ) → suc i < at → bit_at result i ≡ 0 }
    ensures rest { (i : ℕ) → i < 64 → at ≤ suc i → bit_at result i ≡ bit_at told i }
{
    if at <= 64 { above(told, at - 1) } else { 0 }
}

// What is told of words 1 to 64 once word `at` is this one.
fn told_after(told: u64, at: usize, word: u64) -> u64
    requires { 0 < at }
    ensures here { at ≤ 64 → bit_at result (at - 1) ≡ from_bool (not (word == 0)) }
    ensures others { (i : ℕ) → i < 64 → suc i ≢ at → bit_at result i ≡ bit_at told i }
{
    if at <= 64 {
        with(told, one_place(at - 1), word != 0)
    } else {
        told
    }
}

// Gives a port its bit in its word, and tells of that.
#[inline(always)]
fn put_told(more: &mut [u64], port: usize, bit: bool)
    requires far { 64 ≤ port }
    requires held { port < 64 * length more.old }
    requires tells { Tells more.old }
    ensures long { length more.new ≡ length more.old }
    ensures tells { Tells more.new }
    ensures here { bit_of more.new port ≡ from_bool bit }
    ensures others { (k : ℕ) → 64 ≤ k → k ≢ port → bit_of more.new k ≡ bit_of more.old k }
{
    let at = port / 64;
    let word = with(more[at], one_place(port % 64), bit);
    let told = told_after(more[0], at, word);
    more[at] = word;
    more[0] = told;
}

// The first word from `from` on, but before `end`, that has a bit; `end`, or past the last word, where there is none.
#[cold]
#[inline(never)]
fn next_beyond(more: &[u64], from: usize, end: usize) -> usize
    requires { from ≤ end }
    ensures from { from ≤ result }
    ensures within { result ≤ end }
    ensures passed { (k : ℕ) → from ≤ k → k < result → slice_index_or more.now k 0 ≡ 0 }
    ensures stops { result < end → result < length more.now → slice_index_or more.now result 0 ≢ 0 }
{
    let last = end.min(more.len());
    let before = from.min(last);
    from + count_zeros(&more[before..last])
}

// How many words come before the first that has a bit.
fn count_zeros(words: &[u64]) -> usize
    ensures within { result ≤ length words.now }
    ensures zeros { (k : ℕ) → k < result → slice_index_or words.now k 0 ≡ 0 }
    ensures stops { result < length words.now → slice_index_or words.now result 0 ≢ 0 }
{
    let before = pass_fours(words);
    before + count_singly(&words[before..])
}

// A number of words that come before it, found four at a time.
#[inline(always)]
fn pass_fours(words: &[u64]) -> usize
    ensures within { result ≤ length words.now }
    ensures zeros { (k : ℕ) → k < result → slice_index_or words.now k 0 ≡ 0 }
{
    let mut at = 0;
    while at + 4 <= words.len() && four_from(words, at) == 0 {
        at += 4;
    }
    at
}

// The bits of four words together.
#[inline(always)]
fn four_from(words: &[u64], at: usize) -> u64
    requires { at + 4 ≤ length words.now }
    ensures { result ≡ 0 → (k : ℕ) → at ≤ k → k < at + 4 → slice_index_or words.now k 0 ≡ 0 }
{
    words[at] | words[at + 1] | words[at + 2] | words[at + 3]
}

// The same found one at a time.
#[inline(always)]
fn count_singly(words: &[u64]) -> usize
    ensures within { result ≤ length words.now }
    ensures zeros { All (λ w. w ≡ 0) (take result words.now) }
    ensures stops { result < length words.now → slice_index_or words.now result 0 ≢ 0 }
{
    let found = words.iter().position(|word| *word != 0);
    found.unwrap_or(words.len())
}

// The word at a place, 0 where there is no such word.
fn bits_at(first: &u64, more: &[u64], at: usize) -> u64
    ensures { result ≡ slice_index_or (first.now ∷ drop 1 more.now) at 0 }
{
    if at == 0 {
        return *first;
    }
    match more.get(at) {
        Some(word) => *word,
        None => 0,
    }
}
