//! The lines of `moves` by their numbers, at a terminal.

use bz_explore_net::{HostOffer, Offer, answered_words, offers_of};
use bz_model::Cmd;
use bz_net::Core;
use bz_text::Text;
use bz_view::{Piece, Seen, count_lines, gathered, put_host_word};
use std::alloc::{AllocError, Global};

/// The column of a line behind its number.
const COLUMN: usize = 5;

/// A line of `moves`.
#[derive(Clone, Copy)]
pub(crate) enum Picked {
    Move(Offer),
    Word(HostOffer),
}

/// The line of `moves` that has a number, if there is one.
pub(crate) fn picked_at(
    alloc: Global,
    net: &Core,
    number: u64,
) -> Result<Option<Picked>, AllocError> {
    let offers = offers_of(alloc, net)?;
    let words = answered_words(alloc, net)?;
    let Some(place) = number.checked_sub(1) else {
        return Ok(None);
    };
    let place = usize::try_from(place).unwrap_or(usize::MAX);
    Ok(match place.checked_sub(offers.len()) {
        None => offers.get(place).copied().map(Picked::Move),
        Some(behind) => words.get(behind).copied().map(Picked::Word),
    })
}

/// A line that makes a move.
pub(crate) fn move_picked(offer: Offer, text: &mut Text) -> Vec<u8> {
    let place = [
        Piece::Wide(offer.comp.into()),
        Piece::Wide(offer.port.into()),
    ];
    let mut made = Text::new(text.alloc());
    made.say("fire % %", &place);
    bytes_of(&made, text)
}

/// A line that gives a word of the host, with this value.
pub(crate) fn word_picked(
    seen: Seen<'_>,
    offer: HostOffer,
    given: Option<&str>,
    text: &mut Text,
) -> Vec<u8> {
    let mut made = Text::new(text.alloc());
    put_host_word(&mut made, offer.verb, seen.port_name(offer.port), false);
    if let Some(given) = given {
        made.put(":");
        made.put(given);
    }
    bytes_of(&made, text)
}

/// The command that a line spells, if it spells one.
pub(crate) fn cmd_of(alloc: Global, typed: &[u8]) -> Result<Option<Cmd>, AllocError> {
    match str::from_utf8(typed) {
        Ok(typed) => bz_words::command(alloc, typed),
        Err(_) => Ok(None),
    }
}

// The bytes that were made, none where memory was refused, so that the text is lost.
fn bytes_of(made: &Text, text: &mut Text) -> Vec<u8> {
    match made.whole() {
        Ok(made) => gathered(Vec::from_slice(text.alloc(), made), text),
        Err(_) => {
            text.lose();
            Vec::new(text.alloc())
        }
    }
}

/// Adds the lines of `moves`, each but the last behind its number.
pub(crate) fn put_numbered(lines: &Text, text: &mut Text) {
    let Ok(lines) = lines.whole() else {
        text.lose();
        return;
    };
    let last = count_lines(lines);
    for (place, line) in lines.split_inclusive(|byte| *byte == b'\n').enumerate() {
        let number = place.saturating_add(1);
        if number < last {
            text.say("%", &[Piece::Number(number)]);
            text.fill(COLUMN);
        }
        text.put_bytes(line);
    }
}
