//! The text of a short trace, read.

ghost use Rattle.std.specs.Prelude.{◌≡◌, ◌∷◌, ◌++◌, false, IfErr, IfOk, IfSome};
ghost use Rattle.std.specs.Str.Parse.{IsNumeral};
ghost use Rattle.bz_complete.specs.Faults.{StopsShort};
ghost use Rattle.bz_complete.specs.ShortTexts.{AreOperands, BeginsWith, IsLine, Spells, Stands, line_end, sent_text};

use crate::names::ChanNames;
use crate::short::{Sent, ShortMove};
use bz_model::{Value, count_of, value_of};
use std::alloc::Global;
use std::str;

/// Why a text is no short trace.
#[derive(Clone, Copy, PartialEq, Eq)]
pub enum ShortFault {
    /// The line of this number, from 1, is none of a short trace.
    Bad(usize),
    Memory,
}

/// The moves that a text spells, by numbers of channels and by these names.
pub(crate) fn read_short(
    alloc: Global,
    text: &[u8],
    names: &ChanNames,
) -> Result<Vec<ShortMove>, ShortFault>
    ensures ok { IfOk result (λ moves. Spells names.now text.now moves.items) }
    ensures err { IfErr result (StopsShort names.now text.now) }
{
    let mut moves = Vec::new(alloc);
    let mut rest = text;
    for before in 0..text.len() {
        if rest.is_empty() {
            return Ok(moves);
        }
        let Some((due, after)) = move_at(rest, names) else {
            return Err(ShortFault::Bad(before + 1));
        };
        let Ok(()) = moves.push(due) else {
            return Err(ShortFault::Memory);
        };
        rest = after;
    }
    if rest.is_empty() {
        return Ok(moves);
    }
    Err(ShortFault::Bad(text.len() + 1))
}

// The move of the first line of a text, and what follows that line.
fn move_at<'t>(text: &'t [u8], names: &ChanNames) -> Option<(ShortMove, &'t [u8])>
    ensures { IfSome result (λ r. BeginsWith names.now text.now r.0 r.1.now) }
{
    let (line, after) = cut_line(text)?;
    match str::from_utf8(line) {
        Ok(line) => Some((move_in(line, names)?, after)),
        Err(_) => None,
    }
}

// The first line of a text, and what follows it.
fn cut_line(text: &[u8]) -> Option<(&[u8], &[u8])>
    ensures { IfSome result (λ r. text.now ≡ r.0.now ++ line_end ∷ r.1.now) }
{
    for place in 0..text.len() {
        if text[place] == b'\n' {
            return Some((&text[..place], &text[place + 1..]));
        }
    }
    None
}

// The move of a line, if it has one.
fn move_in(line: &str, names: &ChanNames) -> Option<ShortMove>
    ensures { IfSome result (IsLine names.now line.now) }
{
    let (word, operands) = line.split_once(' ')?;
    let sent = sent(word)?;
    let (chan, value) = operands_in(operands, names)?;
    Some(ShortMove { sent, chan, value })
}

// A channel, and a value where there is one.
fn operands_in(text: &str, names: &ChanNames) -> Option<(u32, Option<Value>)>
    ensures { IfSome result (λ r. AreOperands names.now text.now r.0 r.1) }
{
    match text.split_once(' ') {
        None => Some((chan(text, names)?, None)),
        Some((word, digits)) => Some((chan(word, names)?, Some(value_of(digits)?))),
    }
}

// What a word says that is sent.
fn sent(word: &str) -> Option<Sent>
    ensures { IfSome result (λ sent. word.now ≡ sent_text sent) }
{
    match word {
        "ask" => Some(Sent::Ask),
        "reply" => Some(Sent::Reply),
        _ => None,
    }
}

/// The channel that a word stands for: that of a number, or else that of a name.
pub(crate) fn chan(word: &str, names: &ChanNames) -> Option<u32>
    ensures { IfSome result (Stands names.now word.now) }
{
    if !is_number(word) {
        return names.chan(word.as_bytes());
    }
    match count_of(word) {
        Some(chan) => Some(chan),
        None => None,
    }
}

// Whether a word has digits, and nothing else.
fn is_number(word: &str) -> bool
    ensures { result ≡ false → IsNumeral 10 word.now → ⊥ }
{
    for byte in word.as_bytes() {
        if !byte.is_ascii_digit() {
            return false;
        }
    }
    !word.is_empty()
}
