//! Which item of a line has none of the forms of a trace.

ghost use Rattle.std.specs.Prelude.{◌≤◌, IfSome};

use crate::items::item_of;
use bz_model::{Move, Names, Value, carries};
use bz_text::put_name;
use std::alloc::Global;

/// The most items of a line, and one more.
const MOST_ITEMS: usize = 8;

/// What belongs at an item.
#[derive(Clone, Copy, PartialEq, Eq)]
pub(crate) enum Want {
    Who,
    HostEvent,
    WorkerEvent,
    /// The component of a clash line.
    Clash,
    Comp,
    Move,
    /// The channel on which this move is made.
    Chan(Move),
    /// The port of a command, and whether this may bring a value.
    Port(bool),
    /// The reply to a command, and whether a value may stand in front of it.
    Reply(bool),
    Phase,
    Value,
    /// A value, or the end of the line.
    Held,
    /// A value, since the move carries one on this channel.
    Carried(u32),
    /// The end of the line, since the move carries no value on this channel.
    NoValue(u32),
    End,
}

/// A line of a net's trace, whose items are looked at.
#[derive(Clone, Copy)]
pub(crate) struct Line<'t> {
    pub(crate) alloc: Global,
    pub(crate) names: &'t Names,
    /// Without its end.
    pub(crate) text: &'t [u8],
}

/// An item, counted from 1, that has not the form that belongs there.
#[derive(Clone, Copy)]
pub(crate) struct Misfit {
    pub(crate) item: usize,
    pub(crate) want: Want,
}

impl Line<'_> {
    /// The first item that doesn't fit.
    pub(crate) fn misfit(self) -> Option<Misfit> {
        let mut want = Want::Who;
        for item in 1..=MOST_ITEMS {
            let word = item_of(self.text, item);
            if word.is_none() && matches!(want, Want::Held | Want::NoValue(_) | Want::End) {
                return None;
            }
            match self.after(want, word.unwrap_or(b"")) {
                Ok(next) => want = next,
                Err(want) => return Some(Misfit { item, want }),
            }
        }
        None
    }

    // What belongs behind an item that fits; or else what belongs in its place.
    fn after(self, want: Want, item: &[u8]) -> Result<Want, Want> {
        let word = word_of(item);
        let next = match want {
            Want::Who if word == "clash" => Some(Want::Clash),
            Want::HostEvent => behind_event(word, true),
            Want::WorkerEvent => behind_event(word, false),
            Want::Move => behind_move(word),
            Want::Reply(_) => behind_reply(word),
            Want::Phase => behind_phase(word),
            _ => None,
        };
        match next {
            Some(next) => Ok(next),
            None => self.after_value(want, item),
        }
    }

    // The same of an item that is none of the words.
    fn after_value(self, want: Want, item: &[u8]) -> Result<Want, Want> {
        let most = match want {
            Want::Clash | Want::Comp | Want::Chan(_) => Value::from(u32::MAX),
            _ => Value::MAX,
        };
        match (want, number_of(item, most)) {
            (Want::Who, _) => event_of(item),
            (Want::Port(brings), _) if self.is_port(item) => Ok(Want::Reply(brings)),
            (Want::Comp, Some(_)) => Ok(Want::Move),
            (Want::Chan(mv), Some(chan)) => Ok(self.behind_chan(mv, chan)),
            (Want::Reply(true), Some(_)) => Ok(Want::Reply(false)),
            (Want::Reply(true), None) if begins_digit(item) => Err(Want::Value),
            (Want::Clash | Want::Carried(_) | Want::Value | Want::Held, Some(_)) => Ok(Want::End),
            (Want::Held, None) => Err(Want::Value),
            _ => Err(want),
        }
    }

    // What belongs behind a channel on which a move is made.
    fn behind_chan(self, mv: Move, chan: Value) -> Want {
        let number = u32::try_from(chan).unwrap_or(0);
        match self.names.chan(number) {
            Some(found) if carries(found.kind, mv) => Want::Carried(number),
            _ => Want::NoValue(number),
        }
    }

    // Whether this is the name of an external port, in its form. Where memory is wanting it is taken for one.
    fn is_port(self, word: &[u8]) -> bool {
        for port in self.names.ports() {
            let mut form = Vec::new(self.alloc);
            if put_name(&mut form, &port.name).is_err() || form.as_slice() == word {
                return true;
            }
        }
        false
    }
}

fn word_of(item: &[u8]) -> &str {
    match str::from_utf8(item) {
        Ok(word) => word,
        Err(_) => "",
    }
}

fn behind_event(word: &str, is_host: bool) -> Option<Want> {
    match word {
        "rest" => Some(Want::End),
        "fire" => Some(Want::Comp),
        "offer" | "answer" if is_host => Some(Want::Port(true)),
        "collect" | "accept" | "watch" if is_host => Some(Want::Port(false)),
        _ => None,
    }
}

fn behind_move(word: &str) -> Option<Want> {
    for mv in [Move::Ask, Move::Take, Move::Reply, Move::Got] {
        if mv.word() == word {
            return Some(Want::Chan(mv));
        }
    }
    None
}

fn behind_reply(word: &str) -> Option<Want> {
    match word {
        "done" | "not-yet" => Some(Want::End),
        "value" => Some(Want::Value),
        "busy" | "not-taken" => Some(Want::Phase),
        _ => behind_phase(word),
    }
}

fn behind_phase(word: &str) -> Option<Want> {
    match word {
        "idle" | "taken" | "broken" => Some(Want::End),
        "asked" | "replied" => Some(Want::Held),
        _ => None,
    }
}

// What belongs behind the item that names a host or a worker.
fn event_of(item: &[u8]) -> Result<Want, Want> {
    match item.split_first() {
        Some((b'h', number)) if is_within(number, 16) => Ok(Want::HostEvent),
        Some((b'w', number)) if is_within(number, 8) => Ok(Want::WorkerEvent),
        _ => Err(Want::Who),
    }
}

fn is_within(number: &[u8], most: Value) -> bool {
    match number_of(number, most) {
        Some(number) => number > 0,
        None => false,
    }
}

fn begins_digit(word: &[u8]) -> bool {
    match word.first() {
        Some(byte) => byte.is_ascii_digit(),
        None => false,
    }
}

// A number of at most `most`, without zeros that lead.
fn number_of(word: &[u8], most: Value) -> Option<Value>
    ensures { IfSome result (λ number. number ≤ most) }
{
    if word.is_empty() || word.len() > 1 && word[0] == b'0' {
        return None;
    }
    let mut number: Value = 0;
    for byte in word {
        if !byte.is_ascii_digit() || number > Value::MAX / 10 {
            return None;
        }
        number = (10 * number).checked_add(Value::from(*byte - b'0'))?;
    }
    if number > most { None } else { Some(number) }
}
