//! Words of the command line as commands: `offer:i:5 run:9 watch:o`.

ghost use Rattle.std.specs.Prelude.{◌≡◌, ◌≢◌, ℕ, ◌<◌, ◌++◌, List, [], ◌∷◌, Option, IfOk, IfSome, IfNone};
ghost use Rattle.std.specs.Option.{SomeIff};
ghost use Rattle.std.specs.Char.{digit_value};
ghost use Rattle.bz_model.specs.Traces.{verb_text};
ghost use Rattle.bz_words.specs.Words.{Command, SpellsBytes, IsName, AreOperands, IsWord, takes_value, command_of, Outcome, ComesTo, outcome_of, texts};
ghost use Rattle.bz_words.specs.declared.words.SessionError.TheVariants.{Memory};

use bz_model::{Cmd, HostCmd, NetError, Verb, value_of, wide_count_of};
use std::alloc::{AllocError, AllocFailed, Global};
use std::mem;
use thiserror::Error;

/// The most sessions that words may open.
pub const MAX_SESSIONS: usize = 16;

/// Why words are refused, or a session's event.
#[derive(Clone, Copy, Debug, PartialEq, Eq, Error)]
pub enum SessionError {
    /// The word of this number, from 1, is no command, or opens a session too many.
    #[error("H1 BadWord {0}")]
    BadWord(usize),
    #[error("{0}")]
    Event(NetError),
    #[error("F3 Memory")]
    Memory,
}

impl From<AllocError> for SessionError {
    ghost from_gives = { λ _ e. e ≡ Memory };

    fn from(_e: AllocError) -> SessionError {
        SessionError::Memory
    }
}

impl<T: Drop> From<AllocFailed<T>> for SessionError {
    ghost from_gives = { λ _ e. e ≡ Memory };

    fn from(_e: AllocFailed<T>) -> SessionError {
        SessionError::Memory
    }
}

/// The commands that the words spell, one list for each session. A `/` alone separates sessions; no words at all are one
/// session without commands.
pub fn parse_words(alloc: Global, words: &[&str]) -> Result<Vec<Vec<Cmd>>, SessionError>
    // The sessions that the words spell, or the first bad word, unless memory was wanting.
    ensures right { IfSome (outcome_of result) (ComesTo (texts words.now)) }

    // Whatever the words come to is answered.
    ensures only { (o : Outcome) → ComesTo (texts words.now) o
        → IfSome (outcome_of result) (λ p. p ≡ o) }
{
    let mut sessions = Vec::new(alloc);
    let mut session = Vec::new(alloc);
    for (place, word) in words.iter().enumerate() {
        let bad_word = SessionError::BadWord(place + 1);
        if *word == "/" {
            if sessions.len() + 1 == MAX_SESSIONS {
                return Err(bad_word);
            }
            let full = mem::replace(&mut session, Vec::new(alloc));
            sessions.push(full)?;
        } else {
            let Some(command) = command(alloc, word)? else {
                return Err(bad_word);
            };
            session.push(command)?;
        }
    }
    sessions.push(session)?;
    Ok(sessions)
}

/// The command that a word spells, if it spells one.
pub fn command(alloc: Global, word: &str) -> Result<Option<Cmd>, AllocError>
    ensures some { IfOk result (λ o. IfSome o (λ c. IsWord word.now (command_of c))) }
    ensures none { IfOk result (λ o. IfNone o ((c : Command) → IsWord word.now c → ⊥)) }
{
    let Some((head, rest)) = word.split_once(':') else {
        return Ok(None);
    };
    if head == "run" {
        return Ok(wide_count_of(rest).map(Cmd::Run));
    }
    let Some(verb) = verb(head) else {
        return Ok(None);
    };
    let Some(command) = host_command(alloc, verb, rest)? else {
        return Ok(None);
    };
    Ok(Some(Cmd::Host(command)))
}

// The host command of a verb and what stands behind its colon.
fn host_command(alloc: Global, verb: Verb, operands: &str) -> Result<Option<HostCmd>, AllocError>
    ensures some { IfOk result (λ o. IfSome o (λ c.
        (c.verb ≡ verb) × AreOperands operands.now verb c.port.items c.value)) }
    ensures none { IfOk result (λ o. IfNone o
        ((name : List ℕ) (value : Option ℕ) → AreOperands operands.now verb name value → ⊥)) }
{
    let (form, value) = match operands.split_once(':') {
        None => (operands, None),
        Some((form, digits)) => {
            if !takes_value(verb) {
                return Ok(None);
            }
            let Some(value) = value_of(digits) else {
                return Ok(None);
            };
            (form, Some(value))
        }
    };
    let Some(port) = read_name(alloc, form.as_bytes())? else {
        return Ok(None);
    };
    Ok(Some(HostCmd { verb, port, value }))
}

// The verb of this word, if there is one.
fn verb(word: &str) -> Option<Verb>
    ensures some { IfSome result (λ v. word.now ≡ verb_text v) }
    ensures none { IfNone result ((v : Verb) → word.now ≢ verb_text v) }
{
    match word {
        "offer" => Some(Verb::Offer),
        "collect" => Some(Verb::Collect),
        "accept" => Some(Verb::Accept),
        "answer" => Some(Verb::Answer),
        "watch" => Some(Verb::Watch),
        _ => None,
    }
}

// Whether a command of this verb may bring a value.
fn takes_value(verb: Verb) -> bool
    ensures { result ≡ takes_value verb }
{
    matches!(verb, Verb::Offer | Verb::Answer)
}

/// The name that a name form spells, read freely, where it spells one.
pub fn read_name(alloc: Global, form: &[u8]) -> Result<Option<Vec<u8>>, AllocError>
    ensures some { IfOk result (λ o. IfSome o (λ v. IsName form.now v.items)) }
    ensures none { IfOk result (λ o. IfNone o ((name : List ℕ) → IsName form.now name → ⊥)) }
{
    let mut name = Vec::new(alloc);
    if form == b"%".as_slice() {
        return Ok(Some(name));
    }
    if form.is_empty() {
        return Ok(None);
    }
    let mut rest = form;
    while let Some((first, after)) = rest.split_first() {
        let Some((byte, after)) = name_byte(*first, after) else {
            return Ok(None);
        };
        name.push(byte)?;
        rest = after;
    }
    Ok(Some(name))
}

// The byte of a name that stands first in a form, and what follows it.
fn name_byte(first: u8, after: &[u8]) -> Option<(u8, &[u8])>
    ensures some { IfSome result (λ r. (piece : List ℕ)
        × (first ∷ after.now ≡ piece ++ r.1.now) × SpellsBytes piece (r.0 ∷ [])) }
    ensures none { IfNone result ((name : List ℕ) → SpellsBytes (first ∷ after.now) name → ⊥) }
{
    match first {
        b':' => None,
        b'%' => {
            let (high, after) = after.split_first()?;
            let (low, after) = after.split_first()?;
            Some((hex_digit(*high)? * 16 + hex_digit(*low)?, after))
        }
        _ => Some((first, after)),
    }
}

// The value of a hexadecimal digit of either case.
fn hex_digit(byte: u8) -> Option<u8>
    ensures { SomeIff result (digit_value byte < 16) (digit_value byte) }
{
    match byte {
        b'0'..=b'9' => Some(byte - b'0'),
        b'A'..=b'F' => Some(byte - b'A' + 10),
        b'a'..=b'f' => Some(byte - b'a' + 10),
        _ => None,
    }
}
