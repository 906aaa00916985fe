//! The line of a worker's firing, read at once: most lines of a trace are such.

ghost use Rattle.std.specs.Prelude.{◌≡◌, ◌≤◌, ◌<◌, ◌^◌, ◌+◌, ◌++◌, ℕ, suc, length, drop, IfSome, IsTrue, Some, false};
ghost use Rattle.bz_model.specs.Entries.{carries_at};
ghost use Rattle.bz_model.specs.Names.{Outside};
ghost use Rattle.bz_trace_text.specs.Reading.{digits_on, number_at, move_at, carried_at, fired_at, line_at, begins_digit, most_number, most_value};

use crate::ports::LineNames;
use crate::reading::carried;
use bz_model::{Entry, Move, Value, Who};

// No line that is read here is longer.
pub(crate) const LONGEST: usize = 64;

// Whether four bytes stand at a place. They are compared at once.
#[inline(always)]
fn has_four(text: &[u8], at: usize, four: &[u8; 4]) -> bool
    requires { at + 4 ≤ length text.now }
    ensures { IsTrue result → drop at text.now ≡ four.now ++ drop (at + 4) text.now }
{
    let there = u32::from_le_bytes([text[at], text[at + 1], text[at + 2], text[at + 3]]);
    there == u32::from_le_bytes(*four)
}

// The number that goes on from its first digit, by at most so many digits more, and where these end.
#[inline(always)]
fn digits_from(text: &[u8], from: usize, first: u64, most: usize) -> (u64, usize)
    requires digit { first < 10 }
    requires few { most ≤ 17 }
    requires within { from + most ≤ length text.now }
    ensures reads { (top : ℕ) → 10 ^ suc most ≤ top
        → digits_on top first (drop from text.now) ≡ digits_on top result.0 (drop result.1 text.now) }
    ensures number { result.0 < 10 ^ suc most }
    ensures ends { result.1 ≤ from + most }
{
    let mut n = first;
    for more in 0..most {
        let digit = u64::from(text[from + more]).wrapping_sub(48);
        if digit > 9 {
            return (n, from + more);
        }
        n = 10 * n + digit;
    }
    (n, from + most)
}

// The number above 0 that stands at a place, and where its digits end: if it has more than nine, behind the ninth.
#[inline(always)]
fn number_from(text: &[u8], from: usize) -> Option<(u32, usize)>
    requires { from + 9 ≤ length text.now }
    ensures reads { IfSome result (λ r. begins_digit (drop r.1 text.now) ≡ false
        → number_at most_number (drop from text.now) ≡ Some (r.0, drop r.1 text.now)) }
    ensures ends { IfSome result (λ r. r.1 ≤ from + 9) }
{
    let byte = text[from];
    if byte < b'1' || byte > b'9' {
        return None;
    }
    let (n, at) = digits_from(text, from + 1, u64::from(byte - b'0'), 8);
    Some((n as u32, at))
}

// The value that stands at a place, and where its digits end: if it has more than 18, behind the 18th. One that begins with 0 is 0.
#[inline(always)]
fn value_from(text: &[u8], from: usize) -> Option<(u64, usize)>
    requires { from + 18 ≤ length text.now }
    ensures reads { IfSome result (λ r. begins_digit (drop r.1 text.now) ≡ false
        → number_at most_value (drop from text.now) ≡ Some (r.0, drop r.1 text.now)) }
    ensures ends { IfSome result (λ r. r.1 ≤ from + 18) }
{
    let byte = text[from];
    if !byte.is_ascii_digit() {
        None
    } else if byte == b'0' {
        Some((0, from + 1))
    } else {
        Some(digits_from(text, from + 1, u64::from(byte - b'0'), 17))
    }
}

// The move that stands at a place, and the place behind its space.
#[inline(always)]
fn move_from(text: &[u8], from: usize) -> Option<(Move, usize)>
    requires { from + 6 ≤ length text.now }
    ensures reads { IfSome result (λ r. move_at (drop from text.now) ≡ Some (r.0, drop r.1 text.now)) }
    ensures ends { IfSome result (λ r. r.1 ≤ from + 6) }
{
    if has_four(text, from, b"ask ") {
        Some((Move::Ask, from + 4))
    } else if has_four(text, from, b"got ") {
        Some((Move::Got, from + 4))
    } else if has_four(text, from, b"take") && text[from + 4] == b' ' {
        Some((Move::Take, from + 5))
    } else if has_four(text, from, b"repl") && text[from + 4] == b'y' && text[from + 5] == b' ' {
        Some((Move::Reply, from + 6))
    } else {
        None
    }
}

// The first four bytes of a firing of the first worker, as a number: that of a later one lies 256 above for each.
const FIRST_WORKER: u32 = 0x6620_3177;

// The worker whose firing stands at the front: 8 bytes tell it.
#[inline(always)]
fn worker_from(text: &[u8]) -> Option<u8>
    requires { 8 ≤ length text.now }
    ensures { IfSome result (λ n. (net : Outside) → line_at net text.now ≡ fired_at net (Who.Worker n) (drop 8 text.now)) }
{
    let front = u32::from_le_bytes([text[0], text[1], text[2], text[3]]);
    let past = front.wrapping_sub(FIRST_WORKER);
    if past > 7 * 256 || past % 256 != 0 || !has_four(text, 4, b"ire ") {
        return None;
    }
    Some((past / 256) as u8 + 1)
}

// A space and a value, where one is carried.
#[inline(always)]
pub(crate) fn carried_from(
    text: &[u8],
    from: usize,
    carried: bool,
) -> Option<(Option<Value>, usize)>
    requires { from + 19 ≤ length text.now }
    ensures before { IfSome result (λ r. begins_digit (drop r.1 text.now) ≡ false → begins_digit (drop from text.now) ≡ false) }
    ensures reads { IfSome result (λ r. begins_digit (drop r.1 text.now) ≡ false
        → carried_at carried (drop from text.now) ≡ Some (r.0, drop r.1 text.now)) }
    ensures ends { IfSome result (λ r. r.1 ≤ from + 19) }
{
    if !carried {
        return Some((None, from));
    }
    if text[from] != b' ' {
        return None;
    }
    let (value, at) = value_from(text, from + 1)?;
    Some((Some(Value::from(value)), at))
}

/// The firing of a worker whose line stands at the front, and what follows it. `None` tells nothing of the line: it is no such
/// line, a number in it is 0 or has more than nine digits, a value more than 18, or few bytes follow it.
#[inline(always)]
pub fn firing_at<'a>(names: &LineNames, text: &'a [u8]) -> Option<(Entry, &'a [u8])>
    ensures { IfSome result (λ r. line_at names.now text.now ≡ Some (r.0, r.1.now)) }
{
    if text.len() < LONGEST {
        return None;
    }
    let worker = worker_from(text)?;
    let (comp, at) = number_from(text, 8)?;
    if text[at] != b' ' {
        return None;
    }
    let (mv, at) = move_from(text, at + 1)?;
    let (chan, at) = number_from(text, at)?;
    let (value, at) = carried_from(text, at, carried(names.names(), chan, mv))?;
    if text[at] != b'\n' {
        return None;
    }
    let entry = Entry::Fired {
        who: Who::Worker(worker),
        comp,
        port: 0,
        chan,
        mv,
        value,
    };
    Some((entry, &text[at + 1..]))
}
