//! How texts stand in a page, so that none can end its element, and each reads back byte for byte.
//!
//! A text is escaped, and not in an encoding of its own: it can be read and searched in the source. `%` is escaped too, so
//! that no text looks escaped that isn't.

ghost use Rattle.std.specs.Prelude.{◌≡◌, ◌≢◌, ◌<◌, ◌++◌, List, ℕ, length, IfOk, OnErr};
ghost use Rattle.std.specs.List.{AllByRecursion, AllPass};
ghost use Rattle.std.specs.Io.KnownBytes.{Appends};
ghost use Rattle.bz_text.specs.Writing.{AppendsFront, Writes};
ghost use Rattle.bz_page.specs.Escaping.{escaped, escaped_byte, is_kept, unescaped};

use bz_text::{WriteFault, hex_digit, put};
use std::io::Write;

/// Writes a text as it stands in a page: line feeds and printable ASCII but `<` and `%` as they are, each other byte as `%` and
/// two upper-case hexadecimal digits.
pub fn put_escaped<W: Write>(out: &mut W, text: &[u8]) -> Result<(), WriteFault>
    ensures writes { Writes (W.contents out.old) (W.contents out.new) result (escaped text.now) }

    // What was escaped reads back as it was, whatever the text.
    ensures reads_back { unescaped (escaped text.now) ≡ text.now }

    // No `<` stands in it, so that it can't end its element.
    ensures closes_nothing { AllByRecursion (λ byte. byte ≢ 60) (escaped text.now) }
{
    let mut rest = text;
    while !rest.is_empty() {
        rest = put_stretch(out, rest)?;
    }
    Ok(())
}

// Writes the longest front that stands for itself, and the byte behind it. What follows.
fn put_stretch<'t, W: Write>(out: &mut W, text: &'t [u8]) -> Result<&'t [u8], WriteFault>
    requires { 0 < length text.now }
    ensures ok { IfOk result (λ rest. (front : List ℕ) × (text.now ≡ front ++ rest.now) × (length rest.now < length text.now) × Appends (W.contents out.old) (W.contents out.new) (escaped front)) }
    ensures err { OnErr result (AppendsFront (W.contents out.old) (W.contents out.new) (escaped text.now)) }
{
    let (kept, others) = split_kept(text);
    put(out, kept)?;
    if others.is_empty() {
        return Ok(others);
    }
    put_byte(out, others[0])?;
    Ok(others.split_at(1).1)
}

// The longest front that stands for itself, and what follows it.
fn split_kept(text: &[u8]) -> (&[u8], &[u8])
    ensures whole { result.0.now ++ result.1.now ≡ text.now }
    ensures kept { AllPass is_kept result.0.now }
{
    let end = text.iter().position(|byte| !is_kept(*byte));
    text.split_at(end.unwrap_or(text.len()))
}

#[tactic(auto, unfolding(crate::specs::Escaping::escaped_byte))]
fn put_byte<W: Write>(out: &mut W, byte: u8) -> Result<(), WriteFault>
    ensures { Writes (W.contents out.old) (W.contents out.new) result (escaped_byte byte) }
{
    if is_kept(byte) {
        put(out, &[byte])
    } else {
        put(out, &[b'%', hex_digit(byte / 16), hex_digit(byte % 16)])
    }
}

// Whether a byte stands for itself.
#[tactic(auto, unfolding(crate::specs::Escaping::is_kept))]
fn is_kept(byte: u8) -> bool
    ensures { result ≡ is_kept byte }
{
    byte == b'\n' || (32..=126).contains(&byte) && byte != b'<' && byte != b'%'
}
