//! Lines composed on a page, which goes out whole.

ghost use Rattle.std.specs.Prelude.{◌≡◌, ℕ, ◌+◌, ◌-◌, ◌/◌, ◌<◌, ◌≤◌, List, [], ◌∷◌, ◌++◌, ◌↔◌, length, take, drop, codes, decimal, IsTrue, Some};
ghost use Rattle.bz_model.specs.Traces.{fired_text, who_text, value_text};
ghost use Rattle.bz_text.specs.Writing.{Writes};
ghost use Rattle.bz_trace_text.specs.Keeping.{kept_text, told_line};
ghost use Rattle.bz_trace_text.specs.Spelling.{AreSpelled};

use crate::kept_line::KeptLine;
use crate::kept_values::KeptValues;
use crate::line::{set_end, set_far_end, set_kept, set_move, set_numeral_end};
use crate::numeral::Numeral;
use crate::spelled::Spelled;
use bz_model::{Move, Value, Who};
use bz_text::{WriteFault, put};
use std::io;
use std::io::Write;
use std::marker::Model;

const ROOM: usize = 8192;

/// Text that has yet to go out, at most 8192 bytes.
#[derive(Drop)]
pub struct Page {
    bytes: [u8; ROOM],
    at: usize,
}

impl Model for Page {
    ghost Value = { List ℕ };

    ghost view = { λ page. take page.at page.bytes };

    ghost invariant = { λ page. page.at ≤ 8192 };
}

impl Page {
    #[inline(always)]
    pub fn new() -> Page
        ensures { result ≡ [] }
    {
        Page {
            bytes: [0; ROOM],
            at: 0,
        }
    }

    #[inline(always)]
    pub(crate) fn clear(&mut self)
        ensures { self.new ≡ [] }
    {
        self.at = 0;
    }

    /// Whether there is room for a line of 96 bytes.
    #[inline(always)]
    pub fn has_room(&self) -> bool
        ensures { IsTrue result ↔ length self.now + 96 ≤ 8192 }
    {
        self.at <= ROOM - 96
    }

    /// How many lines of 96 bytes there is room for.
    #[inline(always)]
    pub(crate) fn lines_left(&self) -> u64
        ensures { result ≡ (8192 - length self.now) / 96 }
    {
        ((ROOM - self.at) / 96) as u64
    }

    #[inline(always)]
    pub fn byte(&mut self, byte: u8)
        requires { length self.old + 1 ≤ 8192 }
        ensures text { self.new ≡ self.old ++ byte ∷ [] }
        ensures short { length self.new ≡ length self.old + 1 }
    {
        self.bytes[self.at] = byte;
        self.at += 1;
    }

    /// Composes the first bytes of a word. All 8 are written, which takes one store.
    #[inline(always)]
    pub fn word(&mut self, word: [u8; 8], len: usize)
        requires fits { length self.old + 8 ≤ 8192 }
        requires part { len ≤ 8 }
        ensures text { self.new ≡ self.old ++ take len word }
        ensures short { length self.new ≤ length self.old + 8 }
    {
        set_word(&mut self.bytes, self.at, word);
        self.at += len;
    }

    /// Composes a text that there is room for.
    #[inline(always)]
    pub fn text(&mut self, text: &[u8])
        requires { length self.old + length text.now ≤ 8192 }
        ensures { self.new ≡ self.old ++ text.now }
    {
        set_text(&mut self.bytes, self.at, text);
        self.at += text.len();
    }

    #[inline(always)]
    pub fn number(&mut self, n: u32)
        requires { length self.old + 10 ≤ 8192 }
        ensures text { self.new ≡ self.old ++ decimal n }
        ensures short { length self.new ≤ length self.old + 10 }
    {
        self.at = set_number(&mut self.bytes, self.at, n);
    }

    #[inline(always)]
    pub fn value(&mut self, value: Value)
        requires { length self.old + 39 ≤ 8192 }
        ensures text { self.new ≡ self.old ++ decimal value }
        ensures short { length self.new ≤ length self.old + 39 }
    {
        self.at = set_value(&mut self.bytes, self.at, value);
    }

    /// How many bytes wait.
    pub(crate) fn len(&self) -> usize
        ensures { result ≡ length self.now }
    {
        self.at
    }

    /// Leaves out what was composed after the first bytes.
    pub(crate) fn shorten(&mut self, len: usize)
        requires { len ≤ length self.old }
        ensures { self.new ≡ take len self.old }
    {
        self.at = len;
    }

    /// Composes the line of a firing. Numbers that are spelled already are taken from there.
    #[inline(always)]
    pub(crate) fn fired(
        &mut self,
        spelled: &[Numeral],
        who: Who,
        comp: u32,
        mv: Move,
        chan: u32,
        value: Option<Value>,
    )
        requires room { length self.old + 96 ≤ 8192 }
        requires told { AreSpelled spelled.now }
        ensures text { self.new ≡ self.old ++ fired_text who comp mv chan value }
        ensures short { length self.new ≤ length self.old + 96 }
    {
        let after_chan = set_move(&mut self.bytes, self.at, spelled, who, comp, mv, chan);
        self.at = set_end(&mut self.bytes, after_chan, spelled, value);
    }

    /// The same of a line that is kept.
    #[inline(always)]
    pub(crate) fn fired_again(
        &mut self,
        spelled: &Spelled,
        values: &mut KeptValues,
        who: Who,
        line: KeptLine,
        value: Option<Value>,
    )
        requires { length self.old + 96 ≤ 8192 }
        ensures text { (comp chan : ℕ) (mv : Move) → kept_text line ≡ told_line comp mv chan →
            self.new ≡ self.old ++ fired_text who comp mv chan value }
        ensures short { length self.new ≤ length self.old + 96 }
    {
        self.kept(who, line);
        if let Some(value) = value {
            self.end_with(spelled, values, value);
        }
    }

    // Composes a line that is kept, without a value.
    #[inline(always)]
    fn kept(&mut self, who: Who, line: KeptLine)
        requires { length self.old + 96 ≤ 8192 }
        ensures text { self.new ≡ self.old ++ ((who_text who ++ codes " fire ") ++ kept_text line) }
        ensures short { length self.new ≤ length self.old + 33 }
    {
        self.at = set_kept(&mut self.bytes, self.at, who, line);
    }

    // Puts a value in front of the line feed at the end.
    #[inline(always)]
    fn end_with(&mut self, spelled: &Spelled, values: &mut KeptValues, value: Value)
        requires some { 0 < length self.old }
        requires room { length self.old + 40 ≤ 8192 }
        ensures text { (text : List ℕ) → self.old ≡ text ++ codes "\n" →
            self.new ≡ text ++ (codes " " ++ (decimal value ++ codes "\n")) }
        ensures short { length self.new ≤ length self.old + 40 }
    {
        let at = self.at - 1;
        let numerals = spelled.as_slice();
        self.at = if value < numerals.len() as Value {
            set_numeral_end(&mut self.bytes, at, numerals[value as usize])
        } else {
            end_far(&mut self.bytes, at, values, value)
        };
    }

    /// Lets all of it go out.
    #[inline(never)]
    pub fn put<W: Write>(&mut self, out: &mut W) -> Result<(), WriteFault>
        ensures out { Writes (W.contents out.old) (W.contents out.new) result self.old }
        ensures empty { self.new ≡ [] }
    {
        let at = self.at;
        self.at = 0;
        put(out, &self.bytes[..at])
    }
}

/// As a writer a page takes a text that there is room for, and nothing of any other.
impl Write for Page {
    ghost contents = { λ page. Some page };

    #[inline(always)]
    fn write(&mut self, bytes: &[u8]) -> io::Result<usize> {
        if bytes.len() > ROOM - self.at {
            return Ok(0);
        }
        self.text(bytes);
        Ok(bytes.len())
    }

    fn flush(&mut self) -> io::Result<()> {
        Ok(())
    }
}

// Ends a line with a value that isn't spelled for all lines. It is a call, so that lines without one keep their registers.
#[inline(never)]
fn end_far(bytes: &mut [u8], at: usize, values: &mut KeptValues, value: Value) -> usize
    requires { at + 41 ≤ length bytes.old }
    ensures within { result ≤ at + 41 }
    ensures text { take result bytes.new ≡ take at bytes.old ++ (codes " " ++ (decimal value ++ codes "\n")) }
{
    match values.find(value) {
        Some(numeral) => set_numeral_end(bytes, at, numeral),
        None => {
            values.keep(value);
            set_far_end(bytes, at, value)
        }
    }
}

// Writes 8 bytes at a place.
#[inline(always)]
pub(crate) fn set_word(bytes: &mut [u8], at: usize, word: [u8; 8])
    requires { at + 8 ≤ length bytes.old }
    ensures { bytes.new ≡ take at bytes.old ++ (word ++ drop (at + 8) bytes.old) }
{
    bytes[at..at + 8].copy_from_slice(&word);
}

// Writes a text at a place.
#[inline(always)]
fn set_text(bytes: &mut [u8], at: usize, text: &[u8])
    requires { at + length text.now ≤ length bytes.old }
    ensures { bytes.new ≡ take at bytes.old ++ (text.now ++ drop (at + length text.now) bytes.old) }
{
    bytes[at..at + text.len()].copy_from_slice(text);
}

// Writes the digits at a place, and answers the place after them.
#[inline(always)]
pub(crate) fn set_number(bytes: &mut [u8], at: usize, n: u32) -> usize
    requires { at + 10 ≤ length bytes.old }
    ensures within { result ≤ at + 10 }
    ensures text { take result bytes.new ≡ take at bytes.old ++ decimal n }
{
    let end = at + digits(n);
    let _start = itoa::write_digits(u64::from(n), bytes, end);
    end
}

// The same of a value.
#[inline(always)]
pub(crate) fn set_value(bytes: &mut [u8], at: usize, value: Value) -> usize
    requires { at + 39 ≤ length bytes.old }
    ensures within { result ≤ at + 39 }
    ensures text { take result bytes.new ≡ take at bytes.old ++ decimal value }
{
    if value <= Value::from(u32::MAX) {
        set_number(bytes, at, value as u32)
    } else {
        set_wide(bytes, at, value)
    }
}

#[inline(never)]
fn set_wide(bytes: &mut [u8], at: usize, n: Value) -> usize
    requires { at + 39 ≤ length bytes.old }
    ensures within { result ≤ at + 39 }
    ensures text { take result bytes.new ≡ take at bytes.old ++ decimal n }
{
    let mut buffer = itoa::Buffer::new();
    let text = buffer.format(n).as_bytes();
    let end = at + text.len();
    bytes[at..end].copy_from_slice(text);
    end
}

// How many digits a number has.
#[inline(always)]
pub(crate) fn digits(n: u32) -> usize
    ensures count { result ≡ length (decimal n) }
    ensures few { result ≤ 10 }
{
    if n < 10 {
        1
    } else if n < 100 {
        2
    } else if n < 1_000 {
        3
    } else if n < 10_000 {
        4
    } else if n < 100_000 {
        5
    } else if n < 1_000_000 {
        6
    } else if n < 10_000_000 {
        7
    } else if n < 100_000_000 {
        8
    } else if n < 1_000_000_000 {
        9
    } else {
        10
    }
}
