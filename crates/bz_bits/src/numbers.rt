//! The numbers of a component's ports, two bits each, of which the first 64 take no memory of their own.
ghost use Rattle.std.specs.Prelude.{◌≡◌, ◌≢◌, ◌⊎◌, ◌+◌, ◌-◌, ◌*◌, ◌/◌, ◌%◌, ◌^◌, ◌<◌, ◌≤◌, ◌∷◌, ℕ, List, suc, false, length, replicate, slice_index, slice_index_or, slice_set, take, nat_le, if◌then◌else◌, All, IfOk, IsTrue};
ghost use Rattle.std.specs.Int.{bit_at, from_bool};
ghost use Rattle.bz_bits.specs.declared.word.PortWord.{PortWord};
ghost use Rattle.bz_bits.specs.PortWords.{between, no_ports, number_at, number_in, FilledIn, HasOdd, IsEven, IsLowest, LacksOne, NoneOdd, NoneOne};

use crate::word::{NO_PORTS, PortWord, one_place, places};
use std::alloc::{AllocError, Allocator, Global};
use std::marker::Model;

/// A number from 0 to 3 for each port. A contract sees it as that list.
#[derive(Drop)]
pub struct PortNumbers<A: Allocator + Copy = Global> {
    first: PortWord,
    more: Vec<PortWord, A>,
    len: u32,
    // The first word of `more` in which a port has an odd number; past the last word where there is none.
    low: u16,
    // No word of `more` in front of this one has a port with the number 1.
    ones: u16,
}

impl<A: Allocator + Copy> Model for PortNumbers<A> {
    ghost use Rattle.std.specs.Prelude.{List, ℕ, ◌∷◌};
    ghost use Rattle.bz_bits.specs.PortWords.{numbers, AreNumbers, IsLowest, NoneOne};

    ghost Value = { List ℕ };

    ghost view = { λ p. numbers (p.first ∷ p.more.items) p.len };

    ghost invariant = { λ p. AreNumbers (p.first ∷ p.more.items) p.len × IsLowest p.more.items p.low × NoneOne p.more.items p.ones };
}

impl<A: Allocator + Copy> PortNumbers<A> {
    /// `count` ports, all with the number 0. There is no room for 2^22 or more.
    pub fn new(alloc: A, count: usize) -> Result<Self, AllocError>
        ensures { IfOk result (λ p. p ≡ replicate count 0) }
    {
        let Ok(len) = u32::try_from(count) else {
            return Err(AllocError);
        };
        let Ok(low) = u16::try_from(len.saturating_sub(1) / 64) else {
            return Err(AllocError);
        };
        let more = Vec::from_elem(alloc, NO_PORTS, low as usize)?;
        Ok(PortNumbers {
            first: NO_PORTS,
            more,
            len,
            low,
            ones: 0,
        })
    }

    /// The same numbers.
    pub fn dup(&self, alloc: A) -> Result<Self, AllocError>
        ensures { IfOk result (λ p. p ≡ self.now) }
    {
        let more = Vec::from_slice(alloc, &self.more)?;
        Ok(PortNumbers {
            first: self.first,
            more,
            len: self.len,
            low: self.low,
            ones: self.ones,
        })
    }

    pub fn len(&self) -> usize
        ensures { result ≡ length self.now }
    {
        self.len as usize
    }

    /// The number of a port, 0 where there is no such port.
    #[inline]
    pub fn get(&self, port: usize) -> u8
        ensures { result ≡ slice_index self.now port }
    {
        if port < 64 {
            return self.first.number(port);
        }
        self.get_far(port)
    }

    // The same of a port beyond the first 64.
    #[cold]
    #[inline(never)]
    fn get_far(&self, port: usize) -> u8
        requires { 64 ≤ port }
        ensures { result ≡ slice_index self.now port }
    {
        far_word(&self.more, port).number(port % 64)
    }

    /// Whether the number of a port is 2 or 3.
    #[inline(always)]
    pub fn is_high(&self, port: usize) -> bool
        ensures { result ≡ nat_le 2 (slice_index self.now port) }
    {
        if port < 64 {
            return self.first.is_high(port);
        }
        self.is_high_far(port)
    }

    // The same of a port beyond the first 64.
    #[cold]
    #[inline(never)]
    fn is_high_far(&self, port: usize) -> bool
        requires { 64 ≤ port }
        ensures { result ≡ nat_le 2 (slice_index self.now port) }
    {
        far_word(&self.more, port).is_high(port % 64)
    }

    /// The numbers of 64 ports, 0 where there is no such port.
    pub fn word(&self, at: usize) -> PortWord
        ensures { (i : ℕ) → i < 64 → number_in result i ≡ slice_index self.now (64 * at + i) }
    {
        word_at(&self.first, &self.more, at)
    }

    /// The first word from `at` on in which a port has an odd number; past the last word where there is none.
    #[inline(always)]
    pub fn next_odd(&self, at: usize) -> usize
        requires { 0 < at }
        ensures from { at ≤ result }
        ensures passed { (k : ℕ) → at ≤ k → k < result → IsEven self.now k }
        ensures stops { (length self.now ≤ 64 * result) ⊎ HasOdd self.now result }
    {
        let lowest = self.low as usize + 1;
        if at <= lowest {
            return lowest;
        }
        self.next_beyond(at)
    }

    // The same behind the first of all such words.
    #[cold]
    #[inline(never)]
    fn next_beyond(&self, at: usize) -> usize
        requires { 0 < at }
        ensures from { at ≤ result }
        ensures passed { (k : ℕ) → at ≤ k → k < result → IsEven self.now k }
        ensures stops { (length self.now ≤ 64 * result) ⊎ HasOdd self.now result }
    {
        let before = (at - 1).min(self.more.len());
        let next = at + count_even(&self.more[before..]);
        // A look at the word's bits brings what their type says of them.
        let _odd = odd_at(&self.more, next - 1);
        next
    }

    /// The first word from `at` on in which a port has the number 1; past the last word where there is none.
    pub fn next_with_one(&self, at: usize) -> usize
        requires { 0 < at }
        ensures from { at ≤ result }
        ensures passed { (p : ℕ) → 64 * at ≤ p → p < 64 * result → slice_index self.now p ≢ 1 }
    {
        let start = at.max(self.ones as usize + 1);
        let front = (start - 1).min(self.more.len());
        start + count_lacking(&self.more[front..])
    }

    /// Gives a port a number; nothing where there is no such port.
    #[inline(always)]
    pub fn set(&mut self, port: usize, number: u8)
        requires { number < 4 }
        ensures { self.new ≡ slice_set self.old port number }
    {
        if port >= 64 {
            self.set_far(port, number);
        } else if port < self.len as usize {
            self.first = self.first.filled(one_place(port), number);
        }
    }

    // The same of a port beyond the first 64.
    #[cold]
    #[inline(never)]
    fn set_far(&mut self, port: usize, number: u8)
        requires number { number < 4 }
        requires far { 64 ≤ port }
        ensures { self.new ≡ slice_set self.old port number }
    {
        if port < self.len as usize {
            let (low, ones) = (&mut self.low, &mut self.ones);
            fill_one(&mut self.more, low, ones, port, number);
        }
    }

    /// Changes the number of a port by 2.
    #[inline]
    pub fn turn(&mut self, port: usize)
        requires { port < length self.old }
        ensures turned { self.new ≡ slice_set self.old port ((slice_index self.old port + 2) % 4) }
        ensures small { slice_index self.old port < 4 }
    {
        if port < 64 {
            self.first = self.first.turned(port);
        } else {
            self.turn_far(port);
        }
    }

    // The same of a port beyond the first 64.
    #[cold]
    #[inline(never)]
    fn turn_far(&mut self, port: usize)
        requires far { 64 ≤ port }
        requires held { port < length self.old }
        ensures turned { self.new ≡ slice_set self.old port ((slice_index self.old port + 2) % 4) }
        ensures small { slice_index self.old port < 4 }
    {
        turn_one(&mut self.more, &mut self.ones, port);
    }

    /// Takes the number of a port from 3.
    #[inline]
    pub fn flip(&mut self, port: usize)
        requires { port < length self.old }
        ensures { self.new ≡ slice_set self.old port (3 - slice_index self.old port) }
    {
        if port < 64 {
            self.first = self.first.flipped(port);
        } else {
            self.flip_far(port);
        }
    }

    // The same of a port beyond the first 64.
    #[cold]
    #[inline(never)]
    fn flip_far(&mut self, port: usize)
        requires far { 64 ≤ port }
        requires held { port < length self.old }
        ensures { self.new ≡ slice_set self.old port (3 - slice_index self.old port) }
    {
        flip_one(&mut self.more, &mut self.low, &mut self.ones, port);
    }

    /// Takes the number of a port from 3, and makes the even number of another port odd.
    #[inline]
    pub fn pass(&mut self, from: usize, to: usize)
        requires from { from < length self.old }
        requires to { to < length self.old }
        requires other { from ≢ to }
        requires even { slice_index self.old to % 2 ≡ 0 }
        ensures { self.new ≡ slice_set (slice_set self.old from (3 - slice_index self.old from)) to (slice_index self.old to + 1) }
    {
        if from < 64 && to < 64 {
            self.first = self.first.flipped(from).raised(to);
        } else {
            self.pass_far(from, to);
        }
    }

    // The same where one of them may lie beyond the first 64.
    #[cold]
    #[inline(never)]
    fn pass_far(&mut self, from: usize, to: usize)
        requires from { from < length self.old }
        requires to { to < length self.old }
        requires other { from ≢ to }
        requires even { slice_index self.old to % 2 ≡ 0 }
        ensures { self.new ≡ slice_set (slice_set self.old from (3 - slice_index self.old from)) to (slice_index self.old to + 1) }
    {
        self.flip(from);
        self.raise(to);
    }

    // Makes the even number of a port odd.
    #[inline(always)]
    fn raise(&mut self, port: usize)
        requires held { port < length self.old }
        requires even { slice_index self.old port % 2 ≡ 0 }
        ensures { self.new ≡ slice_set self.old port (slice_index self.old port + 1) }
    {
        if port < 64 {
            self.first = self.first.raised(port);
        } else {
            self.raise_far(port);
        }
    }

    // The same of a port beyond the first 64.
    #[inline(always)]
    fn raise_far(&mut self, port: usize)
        requires far { 64 ≤ port }
        requires held { port < length self.old }
        requires even { slice_index self.old port % 2 ≡ 0 }
        ensures { self.new ≡ slice_set self.old port (slice_index self.old port + 1) }
    {
        raise_one(&mut self.more, &mut self.low, &mut self.ones, port);
    }

    /// Gives all ports from `from` on, but before `to`, the same number.
    #[inline]
    pub fn set_between(&mut self, from: usize, to: usize, number: u8)
        requires number { number < 4 }
        requires fits { to ≤ length self.old }
        ensures long { length self.new ≡ length self.old }
        ensures each { (p : ℕ) → slice_index self.new p ≡ (if between from to p then number else slice_index self.old p) }
    {
        if to >= 64 {
            self.fill_far(from, to, number);
        } else if from < to {
            self.first = self.first.filled(places(0, from, to), number);
        }
    }

    // The same where some of them may lie beyond the first 64.
    #[cold]
    #[inline(never)]
    fn fill_far(&mut self, from: usize, to: usize, number: u8)
        requires number { number < 4 }
        requires fits { to ≤ length self.old }
        ensures long { length self.new ≡ length self.old }
        ensures each { (p : ℕ) → slice_index self.new p ≡ (if between from to p then number else slice_index self.old p) }
    {
        let (low, ones) = (&mut self.low, &mut self.ones);
        fill(&mut self.first, &mut self.more, low, ones, from, to, number);
    }
}

// A bit for each port with an odd number in the word at a place.
fn odd_at(words: &[PortWord], at: usize) -> u64
    ensures { result ≡ (slice_index_or words.now at no_ports).due }
{
    match words.get(at) {
        Some(word) => word.due,
        None => 0,
    }
}

// How many words come before the first with an odd number.
fn count_even(words: &[PortWord]) -> usize
    ensures within { result ≤ length words.now }
    ensures even { All (λ w. w.due ≡ 0) (take result words.now) }
    ensures stops { result < length words.now → (slice_index_or words.now result no_ports).due ≢ 0 }
{
    let found = words.iter().position(|word| word.due != 0);
    found.unwrap_or(words.len())
}

// How many words come before the first in which a port has the number 1.
fn count_lacking(words: &[PortWord]) -> usize
    ensures within { result ≤ length words.now }
    ensures lacking { All LacksOne (take result words.now) }
{
    let found = words
        .iter()
        .position(|word| word.due & word.opened != word.due);
    found.unwrap_or(words.len())
}

// The word at a place, without ports where there is no such word.
#[inline(always)]
fn word_at(first: &PortWord, more: &[PortWord], at: usize) -> PortWord
    ensures { result ≡ slice_index_or (first.now ∷ more.now) at no_ports }
{
    if at == 0 {
        return *first;
    }
    match more.get(at - 1) {
        Some(word) => *word,
        None => NO_PORTS,
    }
}

// The word of a port beyond the first 64, without ports where there is no such word.
#[inline(always)]
fn far_word(more: &[PortWord], port: usize) -> PortWord
    requires { 64 ≤ port }
    ensures { (first : PortWord) → result ≡ slice_index_or (first ∷ more.now) (port / 64) no_ports }
{
    match more.get(port / 64 - 1) {
        Some(word) => *word,
        None => NO_PORTS,
    }
}

#[inline(always)]
fn put_far(more: &mut [PortWord], low: &mut u16, ones: &mut u16, at: usize, word: PortWord)
    requires held { at < length more.old }
    requires low { IsLowest more.old low.old }
    requires ones { NoneOne more.old ones.old }
    ensures put { more.new ≡ slice_set more.old at word }
    ensures low { IsLowest more.new low.new }
    ensures ones { NoneOne more.new ones.new }
{
    store_far(more, at, word);
    *ones = ones_after(*ones, at as u16, word);
    if word.due != 0 {
        *low = (at as u16).min(*low);
    } else if at == *low as usize {
        *low = lowest_from(more, at);
    }
}

// A word in front of which none has a port with the number 1, once `word` is put in place `at`.
#[inline(always)]
fn ones_after(ones: u16, at: u16, word: PortWord) -> u16
    requires { at + 1 < 2 ^ 16 }
    ensures { (words : List PortWord) → at < length words → NoneOne words ones → NoneOne (slice_set words at word) result }
{
    if word.due & word.opened != word.due {
        ones.min(at)
    } else if ones == at {
        at + 1
    } else {
        ones
    }
}

// The first word with an odd number where none before `start` has one.
#[inline(never)]
fn lowest_from(words: &[PortWord], start: usize) -> u16
    requires few { length words.now < 2 ^ 16 }
    requires held { start ≤ length words.now }
    requires even { NoneOdd words.now start }
    ensures { IsLowest words.now result }
{
    let lowest = start + count_even(&words[start..]);
    // A look at the word's bits brings what their type says of them.
    let _odd = odd_at(words, lowest);
    lowest as u16
}

#[inline(always)]
fn fill_one(more: &mut [PortWord], low: &mut u16, ones: &mut u16, port: usize, number: u8)
    requires number { number < 4 }
    requires far { 64 ≤ port }
    requires fits { port < 64 + 64 * length more.old }
    requires low { IsLowest more.old low.old }
    requires ones { NoneOne more.old ones.old }
    ensures filled { (first : PortWord) (p : ℕ) → number_at (first ∷ more.new) p ≡ (if between port (port + 1) p then number else number_at (first ∷ more.old) p) }
    ensures low { IsLowest more.new low.new }
    ensures ones { NoneOne more.new ones.new }
{
    let at = port / 64 - 1;
    let word = more[at].filled(one_place(port % 64), number);
    put_far(more, low, ones, at, word);
}

// Which word is the lowest with an odd number stays as it was.
#[inline(always)]
fn turn_one(more: &mut [PortWord], ones: &mut u16, port: usize)
    requires far { 64 ≤ port }
    requires fits { port < 64 + 64 * length more.old }
    requires few { length more.old < 2 ^ 16 }
    requires ones { NoneOne more.old ones.old }
    ensures turned { (first : PortWord) (p : ℕ) → number_at (first ∷ more.new) p ≡ (if between port (port + 1) p then (number_at (first ∷ more.old) port + 2) % 4 else number_at (first ∷ more.old) p) }
    ensures low { (low : ℕ) → IsLowest more.old low → IsLowest more.new low }
    ensures ones { NoneOne more.new ones.new }
{
    let at = port / 64 - 1;
    let word = more[at].turned(port % 64);
    store_far(more, at, word);
    *ones = ones_after(*ones, at as u16, word);
}

#[inline(always)]
fn store_far(more: &mut [PortWord], at: usize, word: PortWord)
    requires { at < length more.old }
    ensures { more.new ≡ slice_set more.old at word }
{
    more[at] = word;
}

#[inline(always)]
fn flip_one(more: &mut [PortWord], low: &mut u16, ones: &mut u16, port: usize)
    requires far { 64 ≤ port }
    requires fits { port < 64 + 64 * length more.old }
    requires low { IsLowest more.old low.old }
    requires ones { NoneOne more.old ones.old }
    ensures flipped { (first : PortWord) (p : ℕ) → number_at (first ∷ more.new) p ≡ (if between port (port + 1) p then 3 - number_at (first ∷ more.old) port else number_at (first ∷ more.old) p) }
    ensures low { IsLowest more.new low.new }
    ensures ones { NoneOne more.new ones.new }
{
    let at = port / 64 - 1;
    let word = more[at].flipped(port % 64);
    put_far(more, low, ones, at, word);
}

#[inline(always)]
fn raise_one(more: &mut [PortWord], low: &mut u16, ones: &mut u16, port: usize)
    requires far { 64 ≤ port }
    requires fits { port < 64 + 64 * length more.old }
    requires even { (first : PortWord) → number_at (first ∷ more.old) port % 2 ≡ 0 }
    requires low { IsLowest more.old low.old }
    requires ones { NoneOne more.old ones.old }
    ensures raised { (first : PortWord) (p : ℕ) → number_at (first ∷ more.new) p ≡ (if between port (port + 1) p then number_at (first ∷ more.old) port + 1 else number_at (first ∷ more.old) p) }
    ensures low { IsLowest more.new low.new }
    ensures ones { NoneOne more.new ones.new }
{
    let at = port / 64 - 1;
    let word = more[at].raised(port % 64);
    put_far(more, low, ones, at, word);
}

fn fill(
    first: &mut PortWord,
    more: &mut [PortWord],
    low: &mut u16,
    ones: &mut u16,
    from: usize,
    to: usize,
    number: u8,
)
    requires number { number < 4 }
    requires fits { to ≤ 64 * length (first.old ∷ more.old) }
    requires low { IsLowest more.old low.old }
    requires ones { NoneOne more.old ones.old }
    ensures filled { (p : ℕ) → number_at (first.new ∷ more.new) p ≡ (if between from to p then number else number_at (first.old ∷ more.old) p) }
    ensures low { IsLowest more.new low.new }
    ensures ones { NoneOne more.new ones.new }
{
    if from < to {
        fill_words(first, more, from, to, number);
    }
    *ones = (from / 64).saturating_sub(1).min(*ones as usize) as u16;
    // From the first word on all that were filled with an even number have no odd one, or else those in front of `low` have none.
    let start = if number % 2 == 0 && from < 64 {
        (to / 64).saturating_sub(1)
    } else {
        let before = (from / 64).saturating_sub(1).min(more.len());
        before.min(*low as usize)
    };
    *low = lowest_from(more, start);
}

// The first word and the last of those with such ports are filled by a mask, and those between as a whole.
fn fill_words(first: &mut PortWord, more: &mut [PortWord], from: usize, to: usize, number: u8)
    requires number { number < 4 }
    requires some { from < to }
    requires fits { to ≤ 64 * length (first.old ∷ more.old) }
    ensures filled { (p : ℕ) → number_at (first.new ∷ more.new) p ≡ (if between from to p then number else number_at (first.old ∷ more.old) p) }
    ensures before { (k : ℕ) → suc k < from / 64 → slice_index_or more.new k no_ports ≡ slice_index_or more.old k no_ports }
    ensures even { number % 2 ≡ 0 → (k : ℕ) → from / 64 ≤ k → suc k < to / 64 → (slice_index_or more.new k no_ports).due ≡ 0 }
{
    let (start, end) = (from / 64, to / 64);
    fill_word(first, more, start, from, to, number);
    if start < end {
        more[start..end - 1].fill(whole_word(number));
        if 64 * end < to {
            fill_word(first, more, end, from, to, number);
        }
    }
}

// A word of 64 ports with the same number.
fn whole_word(number: u8) -> PortWord
    requires number { number < 4 }
    ensures each { (i : ℕ) → i < 64 → number_in result i ≡ number }
    ensures even { number % 2 ≡ 0 → result.due ≡ 0 }
{
    PortWord {
        due: all_or_none(number % 2 == 1),
        opened: all_or_none(number / 2 == 1),
    }
}

fn all_or_none(bit: bool) -> u64
    ensures each { (i : ℕ) → i < 64 → bit_at result i ≡ from_bool bit }
    ensures none { bit ≡ false → result ≡ 0 }
{
    if bit { u64::MAX } else { 0 }
}

// Of word `at` the ports from `from` to before `to` get the number.
fn fill_word(
    first: &mut PortWord,
    more: &mut [PortWord],
    at: usize,
    from: usize,
    to: usize,
    number: u8,
)
    requires number { number < 4 }
    requires some { 64 * at < to }
    requires held { at < length (first.old ∷ more.old) }
    ensures filled { FilledIn (first.old ∷ more.old) (first.new ∷ more.new) from to number at (at + 1) }
    ensures others { (k : ℕ) → suc k ≢ at → slice_index_or more.new k no_ports ≡ slice_index_or more.old k no_ports }
{
    let word = word_at(first, more, at).filled(places(at, from, to), number);
    store_word(first, more, at, word);
}

#[tactic(auto, using(crate::proofs::Words::set_tail, crate::proofs::Words::set_past))]
#[inline(always)]
fn store_word(first: &mut PortWord, more: &mut [PortWord], at: usize, word: PortWord)
    ensures { first.new ∷ more.new ≡ slice_set (first.old ∷ more.old) at word }
{
    if at == 0 {
        *first = word;
    } else if at <= more.len() {
        more[at - 1] = word;
    }
}
