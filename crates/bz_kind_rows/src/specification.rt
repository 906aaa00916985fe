//! Specifications as netlists write them: sets separated by `;`, each of spans separated by `,`.

ghost use Rattle.std.specs.Prelude.{◌≡◌, ◌∷◌, ◌<◌, ℕ, if◌then◌else◌, Some, None, IfOk, IfSome, length};
ghost use Rattle.std.specs.Option.{option_copied};
ghost use Rattle.bz_kind_rows.specs.Texts.{pieces, later, numeral, between, span_of, set_spans, both, specification};

use bz_model::{Span, Spans};
use bz_sexpr::number;
use std::alloc::{AllocError, Global};

/// The specification that a text is, if it is one.
pub fn specification(alloc: Global, text: &[u8]) -> Result<Option<Spans>, AllocError>
    ensures { IfOk result (λ o. o ≡ specification text.now) }
{
    let mut list = Vec::new(alloc);
    let mut set: u64 = 0;
    let mut rest = Some(text);
    while let Some(text) = rest {
        let (piece, after) = split_piece(text, b';');
        if !push_set(&mut list, set, piece)? {
            return Ok(None);
        }
        set += 1;
        rest = after;
    }
    let spans = Spans::new(alloc, list)?;
    Ok(Some(spans))
}

// Adds the spans of a set, and says whether the text is one.
fn push_set(list: &mut Vec<Span>, set: u64, text: &[u8]) -> Result<bool, AllocError>
    ensures { IfOk result (λ is_set. both (Some list.old.items) (set_spans set text.now) ≡ (if is_set then Some list.new.items else None)) }
{
    let mut rest = Some(text);
    while let Some(text) = rest {
        let (piece, after) = split_piece(text, b',');
        let Some(span) = span_of(set, piece) else {
            return Ok(false);
        };
        list.push(span)?;
        rest = after;
    }
    Ok(true)
}

// The span of a number, or of two with `..` between them.
fn span_of(set: u64, text: &[u8]) -> Option<Span>
    ensures { result ≡ span_of set text.now }
{
    let (first, after) = split_piece(text, b'.');
    let Some(after) = after else {
        return between(set, numeral(first), numeral(first));
    };
    let (middle, after) = split_piece(after, b'.');
    let Some(after) = after else {
        return None;
    };
    let (last, after) = split_piece(after, b'.');
    if after.is_some() {
        return None;
    }
    if !middle.is_empty() {
        return None;
    }
    between(set, numeral(first), numeral(last))
}

fn between(set: u64, from: Option<u128>, to: Option<u128>) -> Option<Span>
    ensures { result ≡ between set from to }
{
    let Some(from) = from else {
        return None;
    };
    let Some(to) = to else {
        return None;
    };
    if from > to {
        return None;
    }
    Some(Span { set, from, to })
}

// The piece in front of the first separator, and what comes after that, if there is one.
fn split_piece(text: &[u8], separator: u8) -> (&[u8], Option<&[u8]>)
    ensures pieces { pieces separator text.now ≡ result.0.now ∷ later separator (option_copied result.1) }
    ensures shorter { IfSome result.1 (λ after. length after.now < length text.now) }
{
    for (i, byte) in text.iter().enumerate() {
        if *byte == separator {
            return (&text[..i], Some(&text[i + 1..]));
        }
    }
    (text, None)
}

// The number that digits spell, where it is below 2^128.
fn numeral(text: &[u8]) -> Option<u128>
    ensures { result ≡ numeral text.now }
{
    if text.is_empty() {
        return None;
    }
    number(text)
}
