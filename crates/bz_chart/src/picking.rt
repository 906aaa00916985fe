//! What is picked of a net to be drawn.
//!
//! A number is a component and `k` with a number a channel, whatever ports are called; in name form a port's name can be written
//! otherwise.

use bz_chart_layout::{Circuit, Lifeline, Picks};
use bz_words::read_name;
use std::alloc::{AllocError, Global};

/// What is picked of a net.
#[derive(Clone, Copy, PartialEq, Eq)]
pub struct Picked<'a> {
    /// Components by their numbers, channels by `k` and their numbers, and ports by their names in name form, with commas between.
    pub words: Option<&'a str>,
    /// Whether all ports are.
    pub ports: bool,
}

/// Why nothing is picked.
#[derive(Clone, Copy)]
pub(crate) enum Unpicked {
    /// The word of this number names nothing of the net.
    NoWord(usize),
    Memory,
}

/// What is picked of a net.
pub(crate) fn picks_of(
    alloc: Global,
    circuit: &Circuit,
    picked: Picked<'_>,
) -> Result<Picks, Unpicked> {
    match Picks::none(alloc, circuit) {
        Ok(picks) => pick_all(alloc, circuit, picked, picks),
        Err(AllocError) => Err(Unpicked::Memory),
    }
}

fn pick_all(
    alloc: Global,
    circuit: &Circuit,
    picked: Picked<'_>,
    mut picks: Picks,
) -> Result<Picks, Unpicked> {
    if picked.ports {
        picks.pick_ports();
    }
    match pick_words(alloc, circuit, picked.words, &mut picks) {
        Ok(()) => Ok(picks),
        Err(why) => Err(why),
    }
}

fn pick_words(
    alloc: Global,
    circuit: &Circuit,
    words: Option<&str>,
    picks: &mut Picks,
) -> Result<(), Unpicked> {
    let Some(words) = words else {
        return Ok(());
    };
    for (place, word) in words.as_bytes().split(|byte| *byte == b',').enumerate() {
        match pick_word(alloc, circuit, word, picks) {
            Ok(true) => {}
            Ok(false) => return Err(Unpicked::NoWord(place.saturating_add(1))),
            Err(AllocError) => return Err(Unpicked::Memory),
        }
    }
    Ok(())
}

// Picks what a word names; whether there is such a thing.
fn pick_word(
    alloc: Global,
    circuit: &Circuit,
    word: &[u8],
    picks: &mut Picks,
) -> Result<bool, AllocError> {
    if let Some(comp) = number_of(word) {
        return Ok(picks.pick(Lifeline::Comp(comp)));
    }
    if let Some(chan) = word.strip_prefix(b"k").and_then(|digits| number_of(digits)) {
        return Ok(picks.pick_chan(chan));
    }
    let Some(name) = read_name(alloc, word)? else {
        return Ok(false);
    };
    match circuit.names().port(name.as_slice()) {
        Some(port) => Ok(picks.pick(Lifeline::Port(port))),
        None => Ok(false),
    }
}

// The number that decimal digits spell; 0, which nothing has, where it is too great.
fn number_of(digits: &[u8]) -> Option<u32> {
    if digits.is_empty() {
        return None;
    }
    let mut number = Some(0u32);
    for digit in digits {
        if !digit.is_ascii_digit() {
            return None;
        }
        number = match number {
            Some(number) => match number.checked_mul(10) {
                Some(tens) => tens.checked_add(u32::from(*digit - b'0')),
                None => None,
            },
            None => None,
        };
    }
    Some(number.unwrap_or(0))
}
