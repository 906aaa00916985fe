//! The line of a firing, written at a place. Each function answers the place after what it wrote.

ghost use Rattle.std.specs.Prelude.{◌≡◌, ℕ, ◌+◌, ◌<◌, ◌≤◌, List, [], ◌∷◌, ◌++◌, length, take, drop, get_or, codes, decimal};
ghost use Rattle.bz_model.specs.Traces.{who_text, move_text, value_text};
ghost use Rattle.bz_trace_text.specs.Keeping.{kept_text};
ghost use Rattle.bz_trace_text.specs.Spelling.{AreSpelled, Spells};
ghost use Rattle.bz_trace_text.specs.Writing.{move_line};

use crate::kept_line::KeptLine;
use crate::numeral::Numeral;
use crate::page::{set_number, set_value, set_word};
use bz_model::{Move, Value, Who};

// Writes all but the value, and a line feed behind. Numbers that are spelled already are taken from there.
#[inline(always)]
pub(crate) fn set_move(
    bytes: &mut [u8],
    at: usize,
    spelled: &[Numeral],
    who: Who,
    comp: u32,
    mv: Move,
    chan: u32,
) -> usize
    requires room { at + 55 ≤ length bytes.old }
    requires told { AreSpelled spelled.now }
    ensures within { result ≤ at + 54 }
    ensures text { take result bytes.new ≡ take at bytes.old ++ move_line (who_text who) comp mv chan }
    ensures ended { take (result + 1) bytes.new ≡ take result bytes.new ++ codes "\n" }
{
    match who {
        Who::Worker(n)
            if n < 10 && (comp as usize) < spelled.len() && (chan as usize) < spelled.len() => {
            let after_word = set_start(bytes, at, n);
            let after_comp = set_numeral(bytes, after_word, spelled, comp as usize);
            let after_move = set_counted(bytes, after_comp, move_word(mv));
            set_numeral(bytes, after_move, spelled, chan as usize)
        }
        _ => set_far(bytes, at, who, comp, mv, chan),
    }
}

// The same, with each number spelled anew.
#[cold]
#[inline(never)]
fn set_far(bytes: &mut [u8], at: usize, who: Who, comp: u32, mv: Move, chan: u32) -> usize
    requires { at + 55 ≤ length bytes.old }
    ensures within { result ≤ at + 54 }
    ensures text { take result bytes.new ≡ take at bytes.old ++ move_line (who_text who) comp mv chan }
    ensures ended { take (result + 1) bytes.new ≡ take result bytes.new ++ codes "\n" }
{
    let after_word = set_far_start(bytes, at, who);
    set_told(bytes, after_word, comp, mv, chan)
}

// Writes component, move and channel, and a line feed behind.
pub(crate) fn set_told(bytes: &mut [u8], at: usize, comp: u32, mv: Move, chan: u32) -> usize
    requires { at + 28 ≤ length bytes.old }
    ensures within { result ≤ at + 27 }
    ensures text { take result bytes.new ≡ take at bytes.old ++
        (decimal comp ++ (codes " " ++ (move_text mv ++ (codes " " ++ decimal chan)))) }
    ensures ended { take (result + 1) bytes.new ≡ take result bytes.new ++ codes "\n" }
{
    let after_comp = set_number(bytes, at, comp);
    let after_move = set_counted(bytes, after_comp, move_word(mv));
    let after_chan = set_number(bytes, after_move, chan);
    let _after_line = set_byte(bytes, after_chan, b'\n');
    after_chan
}

// Writes who fires, in a line that is kept, and all of the line but for its value, with a line feed.
#[inline(always)]
pub(crate) fn set_kept(bytes: &mut [u8], at: usize, who: Who, line: KeptLine) -> usize
    requires { at + 36 ≤ length bytes.old }
    ensures within { result ≤ at + 33 }
    ensures text { take result bytes.new ≡ take at bytes.old ++ ((who_text who ++ codes " fire ") ++ kept_text line) }
{
    let after_word = set_front(bytes, at, who);
    set_words(bytes, after_word, line.first, line.second);
    after_word + line.len
}

// Writes two words, one behind the other.
#[inline(always)]
fn set_words(bytes: &mut [u8], at: usize, first: [u8; 8], second: [u8; 8])
    requires { at + 16 ≤ length bytes.old }
    ensures { bytes.new ≡ take at bytes.old ++ ((first ++ second) ++ drop (at + 16) bytes.old) }
{
    set_word(bytes, at, first);
    set_word(bytes, at + 8, second);
}

// Writes who fires, and the word of a firing.
#[inline(always)]
fn set_front(bytes: &mut [u8], at: usize, who: Who) -> usize
    requires { at + 19 ≤ length bytes.old }
    ensures within { result ≤ at + 17 }
    ensures text { take result bytes.new ≡ take at bytes.old ++ (who_text who ++ codes " fire ") }
{
    match who {
        Who::Worker(n) if n < 10 => set_start(bytes, at, n),
        _ => set_far_start(bytes, at, who),
    }
}

// The same, whoever fires.
fn set_far_start(bytes: &mut [u8], at: usize, who: Who) -> usize
    requires { at + 19 ≤ length bytes.old }
    ensures within { result ≤ at + 17 }
    ensures text { take result bytes.new ≡ take at bytes.old ++ (who_text who ++ codes " fire ") }
{
    let after_who = set_who(bytes, at, who);
    set_counted(bytes, after_who, *b" fire \0\x06")
}

#[inline(always)]
fn set_who(bytes: &mut [u8], at: usize, who: Who) -> usize
    requires { at + 11 ≤ length bytes.old }
    ensures within { result ≤ at + 11 }
    ensures text { take result bytes.new ≡ take at bytes.old ++ who_text who }
{
    let (letter, number) = match who {
        Who::Host(n) => (b'h', n),
        Who::Worker(n) => (b'w', n),
    };
    let after_letter = set_byte(bytes, at, letter);
    set_number(bytes, after_letter, u32::from(number))
}

// Writes a worker of one digit, and the word of a firing.
#[inline(always)]
fn set_start(bytes: &mut [u8], at: usize, worker: u8) -> usize
    requires room { at + 8 ≤ length bytes.old }
    requires digit { worker < 10 }
    ensures after { result ≡ at + 8 }
    ensures text { take result bytes.new ≡ take at bytes.old ++ ((codes "w" ++ decimal worker) ++ codes " fire ") }
{
    let word = [b'w', b'0' + worker, b' ', b'f', b'i', b'r', b'e', b' '];
    set_word(bytes, at, word);
    at + 8
}

// Ends the line after a line feed, with the value in its place where there is one.
#[inline(always)]
pub(crate) fn set_end(
    bytes: &mut [u8],
    at: usize,
    spelled: &[Numeral],
    value: Option<Value>,
) -> usize
    requires room { at + 41 ≤ length bytes.old }
    requires told { AreSpelled spelled.now }
    requires ended { take (at + 1) bytes.old ≡ take at bytes.old ++ codes "\n" }
    ensures within { result ≤ at + 41 }
    ensures text { take result bytes.new ≡ take at bytes.old ++ (value_text value ++ codes "\n") }
{
    match value {
        None => at + 1,
        Some(value) => set_value_end(bytes, at, spelled, value),
    }
}

// Ends the line with a value.
#[inline(always)]
fn set_value_end(bytes: &mut [u8], at: usize, spelled: &[Numeral], value: Value) -> usize
    requires room { at + 41 ≤ length bytes.old }
    requires told { AreSpelled spelled.now }
    ensures within { result ≤ at + 41 }
    ensures text { take result bytes.new ≡ take at bytes.old ++ (codes " " ++ (decimal value ++ codes "\n")) }
{
    if value < spelled.len() as Value {
        let after_space = set_byte(bytes, at, b' ');
        set_numeral(bytes, after_space, spelled, value as usize) + 1
    } else {
        set_far_end(bytes, at, value)
    }
}

// The same of a value whose numeral is at hand.
#[inline(always)]
pub(crate) fn set_numeral_end(bytes: &mut [u8], at: usize, numeral: Numeral) -> usize
    requires { at + 9 ≤ length bytes.old }
    ensures within { result ≤ at + 8 }
    ensures text { (value : ℕ) → Spells numeral value →
        take result bytes.new ≡ take at bytes.old ++ (codes " " ++ (decimal value ++ codes "\n")) }
{
    let after_space = set_byte(bytes, at, b' ');
    set_counted(bytes, after_space, numeral.bytes) + 1
}

// The same of a value that is spelled anew.
#[inline(never)]
pub(crate) fn set_far_end(bytes: &mut [u8], at: usize, value: Value) -> usize
    requires { at + 41 ≤ length bytes.old }
    ensures within { result ≤ at + 41 }
    ensures text { take result bytes.new ≡ take at bytes.old ++ (codes " " ++ (decimal value ++ codes "\n")) }
{
    let after_space = set_byte(bytes, at, b' ');
    let after_value = set_value(bytes, after_space, value);
    set_byte(bytes, after_value, b'\n')
}

// Writes the numeral in a place, and a line feed behind.
#[inline(always)]
fn set_numeral(bytes: &mut [u8], at: usize, spelled: &[Numeral], place: usize) -> usize
    requires room { at + 8 ≤ length bytes.old }
    requires told { AreSpelled spelled.now }
    requires near { place < length spelled.now }
    ensures within { result ≤ at + 7 }
    ensures text { take result bytes.new ≡ take at bytes.old ++ decimal place }
    ensures ended { take (result + 1) bytes.new ≡ take result bytes.new ++ codes "\n" }
{
    let numeral = spelled[place];
    set_counted(bytes, at, numeral.bytes)
}

// Writes as many bytes of a word as its last byte says. All 8 are written, which takes one store.
#[inline(always)]
fn set_counted(bytes: &mut [u8], at: usize, word: [u8; 8]) -> usize
    requires room { at + 8 ≤ length bytes.old }
    requires count { get_or word 7 0 ≤ 7 }
    ensures after { result ≡ at + get_or word 7 0 }
    ensures text { take result bytes.new ≡ take at bytes.old ++ take (get_or word 7 0) word }
    ensures next { take (result + 1) bytes.new ≡ take at bytes.old ++ take (get_or word 7 0 + 1) word }
{
    let count = word[7] as usize;
    set_word(bytes, at, word);
    at + count
}

#[inline(always)]
fn set_byte(bytes: &mut [u8], at: usize, byte: u8) -> usize
    requires { at + 1 ≤ length bytes.old }
    ensures after { result ≡ at + 1 }
    ensures text { take result bytes.new ≡ take at bytes.old ++ byte ∷ [] }
    ensures before { take at bytes.new ≡ take at bytes.old }
{
    bytes[at] = byte;
    at + 1
}

// The word of a move between two spaces. The last byte says how long that is.
#[inline(always)]
pub(crate) fn move_word(mv: Move) -> [u8; 8]
    ensures text { take (get_or result 7 0) result ≡ codes " " ++ (move_text mv ++ codes " ") }
    ensures count { get_or result 7 0 ≤ 7 }
{
    MOVE_WORDS[mv as usize]
}

static MOVE_WORDS: [[u8; 8]; 4] = [
    *b" ask \0\0\x05",
    *b" take \0\x06",
    *b" reply \x07",
    *b" got \0\0\x05",
];
