//! The line of a firing that is foretold: compared, and not read but for its value.

ghost use Rattle.std.specs.Prelude.{◌≡◌, ◌≤◌, ◌<◌, ◌^◌, ◌+◌, ◌*◌, ◌-◌, ◌++◌, ℕ, length, take, drop, get_or, codes, decimal, IfSome, IsTrue, Some, false};
ghost use Rattle.std.specs.Int.{to_le_bytes, w64};
ghost use Rattle.bz_model.specs.declared.event.Entry.{Entry};
ghost use Rattle.bz_model.specs.declared.event.Who.{Who};
ghost use Rattle.bz_model.specs.Traces.{move_text};
ghost use Rattle.bz_trace_text.specs.Reading.{line_at};
ghost use Rattle.bz_trace_text.specs.Spelling.{AreSpelled};

use crate::firing::{LONGEST, carried_from};
use crate::line::move_word;
use crate::numeral::Numeral;
use crate::ports::LineNames;
use crate::reading::carried;
use bz_model::{Move, Value};

// The number of which so many bytes are all ones.
static MASKS: [u64; 8] = [
    0,
    0xFF,
    0xFFFF,
    0xFF_FFFF,
    0xFFFF_FFFF,
    0xFF_FFFF_FFFF,
    0xFFFF_FFFF_FFFF,
    0xFF_FFFF_FFFF_FFFF,
];

#[inline(always)]
fn mask(count: usize) -> u64
    requires { count ≤ 7 }
    ensures { result ≡ 2 ^ (8 * count) - 1 }
{
    MASKS[count]
}

// The number that the eight bytes at a place make.
#[inline(always)]
fn eight_at(text: &[u8], at: usize) -> u64
    requires { at + 8 ≤ length text.now }
    ensures { to_le_bytes w64 result ≡ take 8 (drop at text.now) }
{
    let there = &text[at..at + 8];
    u64::from_le_bytes([
        there[0], there[1], there[2], there[3], there[4], there[5], there[6], there[7],
    ])
}

// Whether as many bytes of a word as its last byte says stand at a place. They are compared at once.
#[inline(always)]
fn has_counted(text: &[u8], at: usize, word: &[u8; 8]) -> bool
    requires room { at + 8 ≤ length text.now }
    requires count { get_or word.now 7 0 ≤ 7 }
    ensures { IsTrue result → drop at text.now ≡ take (get_or word.now 7 0) word.now ++ drop (at + get_or word.now 7 0) text.now }
{
    let mask = mask(word[7] as usize);
    eight_at(text, at) & mask == u64::from_le_bytes(*word) & mask
}

// Whether these eight bytes stand at the front.
#[inline(always)]
fn begins_with(text: &[u8], word: &[u8; 8]) -> bool
    requires { 8 ≤ length text.now }
    ensures { IsTrue result → text.now ≡ word.now ++ drop 8 text.now }
{
    eight_at(text, 0) == u64::from_le_bytes(*word)
}

/// The value in the line of a firing of the first worker by this component, with this move on this channel, where that line stands
/// at the front; and what follows it. `None` tells nothing of the line.
#[inline(always)]
pub fn foretold_at<'a>(
    names: &LineNames,
    text: &'a [u8],
    comp: u32,
    mv: Move,
    chan: u32,
) -> Option<(Option<Value>, &'a [u8])>
    ensures { IfSome result (λ r. line_at names.now text.now ≡ Some (Entry.Fired (Who.Worker 1) comp 0 chan mv r.0, r.1.now)) }
{
    if text.len() < LONGEST || !begins_with(text, b"w1 fire ") {
        return None;
    }
    let spelled = names.spelled();
    if comp as usize >= spelled.len() || chan as usize >= spelled.len() {
        return None;
    }
    let at = behind_number(text, 8, spelled, comp as usize)?;
    let at = behind_move(text, at, mv)?;
    let at = behind_number(text, at, spelled, chan as usize)?;
    let (value, at) = carried_from(text, at, carried(names.names(), chan, mv))?;
    if text[at] != b'\n' {
        return None;
    }
    Some((value, &text[at + 1..]))
}

// Where a number ends that stands at a place, which is spelled already.
#[inline(always)]
fn behind_number(text: &[u8], at: usize, spelled: &[Numeral], n: usize) -> Option<usize>
    requires room { at + 8 ≤ length text.now }
    requires told { AreSpelled spelled.now }
    requires near { n < length spelled.now }
    ensures there { IfSome result (λ end. drop at text.now ≡ decimal n ++ drop end text.now) }
    ensures ends { IfSome result (λ end. end ≤ at + 7) }
{
    let word = &spelled[n].bytes;
    if !has_counted(text, at, word) {
        return None;
    }
    Some(at + word[7] as usize)
}

// Where a move between two spaces ends, where it stands at a place.
#[inline(always)]
fn behind_move(text: &[u8], at: usize, mv: Move) -> Option<usize>
    requires room { at + 8 ≤ length text.now }
    ensures there { IfSome result (λ end. drop at text.now ≡ (codes " " ++ (move_text mv ++ codes " ")) ++ drop end text.now) }
    ensures ends { IfSome result (λ end. end ≤ at + 7) }
{
    let word = move_word(mv);
    if !has_counted(text, at, &word) {
        return None;
    }
    Some(at + word[7] as usize)
}
