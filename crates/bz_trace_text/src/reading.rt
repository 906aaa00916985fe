//! The lines of a trace, read back.

ghost use Rattle.std.specs.Prelude.{◌≡◌, ◌≤◌, ◌<◌, ◌^◌, ◌++◌, codes, length, map, IfSome, Some, None};
ghost use Rattle.bz_model.specs.Entries.{carries_at};
ghost use Rattle.bz_trace_text.specs.Reading.{Reads, strip, digits_on, number_at, who_number, who_at, move_at, verb_at, carried_at, fired_at, value_end, phase_end, reply_end, given_at, host_at, event_at, line_at, clash_at, begins_digit, may_bring, most_number, most_value};

use crate::ports::{LineNames, port_at};
use bz_model::{Entry, Move, Names, Phase, Reply, Value, Verb, Who, carries};

/// What follows this front of a text, where the text has it.
#[inline(always)]
pub fn strip<'a>(text: &'a [u8], front: &[u8]) -> Option<&'a [u8]>
    ensures { Reads (λ r. r.now) result (strip front.now text.now) }
{
    if text.len() < front.len() {
        return None;
    }
    for place in 0..front.len() {
        if text[place] != front[place] {
            return None;
        }
    }
    Some(&text[front.len()..])
}

/// The value that goes on from `first`, up to the first byte that is no digit.
#[tactic(auto, unfolding(crate::specs::Reading::digits_on))]
fn value_on(text: &[u8], first: Value) -> Option<(Value, &[u8])>
    ensures { Reads (λ r. (r.0, r.1.now)) result (digits_on most_value first text.now) }
{
    let mut n = first;
    let mut rest = text;
    while let Some((digit, after)) = rest.split_first() {
        if !digit.is_ascii_digit() {
            return Some((n, rest));
        }
        if n > Value::MAX / 10 {
            return None;
        }
        n = (10 * n).checked_add(Value::from(*digit - b'0'))?;
        rest = after;
    }
    Some((n, rest))
}

/// The value at the front of a text, without zeros that lead.
#[tactic(auto, unfolding(crate::specs::Reading::number_at))]
fn value_at(text: &[u8]) -> Option<(Value, &[u8])>
    ensures { Reads (λ r. (r.0, r.1.now)) result (number_at most_value text.now) }
{
    let (digit, rest) = text.split_first()?;
    if !digit.is_ascii_digit() {
        return None;
    }
    if *digit == b'0' {
        return Some((0, rest));
    }
    value_on(rest, Value::from(*digit - b'0'))
}

/// The number that goes on from `first`, up to the first byte that is no digit.
#[tactic(auto, unfolding(crate::specs::Reading::digits_on))]
fn digits_on(text: &[u8], first: u64, most: u32) -> Option<(u64, &[u8])>
    requires { first ≤ most }
    ensures reads { Reads (λ r. (r.0, r.1.now)) result (digits_on most first text.now) }
    ensures within { IfSome result (λ r. r.0 ≤ most) }
{
    let mut n = first;
    let mut rest = text;
    while let Some((digit, after)) = rest.split_first() {
        if !digit.is_ascii_digit() {
            return Some((n, rest));
        }
        n = 10 * n + u64::from(*digit - b'0');
        if n > u64::from(most) {
            return None;
        }
        rest = after;
    }
    Some((n, rest))
}

/// The number at the front of a text, of at most `most`, without zeros that lead.
#[tactic(auto, unfolding(crate::specs::Reading::number_at))]
fn number_at(text: &[u8], most: u32) -> Option<(u32, &[u8])>
    ensures reads { Reads (λ r. (r.0, r.1.now)) result (number_at most text.now) }
    ensures within { IfSome result (λ r. r.0 ≤ most) }
{
    let (digit, rest) = text.split_first()?;
    if !digit.is_ascii_digit() {
        return None;
    }
    let first = u64::from(*digit - b'0');
    if first > u64::from(most) {
        return None;
    }
    if first == 0 {
        return Some((0, rest));
    }
    let (n, rest) = digits_on(rest, first, most)?;
    Some((n as u32, rest))
}

/// The number of a host or a worker, from 1 to `most`.
#[tactic(auto, unfolding(crate::specs::Reading::who_number))]
fn who_number(text: &[u8], most: u8) -> Option<(u8, &[u8])>
    ensures { Reads (λ r. (r.0, r.1.now)) result (who_number most text.now) }
{
    let (n, rest) = number_at(text, u32::from(most))?;
    if n == 0 {
        return None;
    }
    Some((n as u8, rest))
}

/// Who stands at the front.
#[tactic(auto, unfolding(crate::specs::Reading::who_at))]
fn who_at(text: &[u8]) -> Option<(Who, &[u8])>
    ensures { Reads (λ r. (r.0, r.1.now)) result (who_at text.now) }
{
    let (letter, rest) = text.split_first()?;
    match *letter {
        b'h' => {
            let (n, rest) = who_number(rest, 16)?;
            Some((Who::Host(n), rest))
        }
        b'w' => {
            let (n, rest) = who_number(rest, 8)?;
            Some((Who::Worker(n), rest))
        }
        _ => None,
    }
}

/// The move at the front, and a space.
#[tactic(auto, unfolding(crate::specs::Reading::move_at))]
fn move_at(text: &[u8]) -> Option<(Move, &[u8])>
    ensures { Reads (λ r. (r.0, r.1.now)) result (move_at text.now) }
{
    if let Some(rest) = strip(text, b"ask ") {
        return Some((Move::Ask, rest));
    }
    if let Some(rest) = strip(text, b"take ") {
        return Some((Move::Take, rest));
    }
    if let Some(rest) = strip(text, b"reply ") {
        return Some((Move::Reply, rest));
    }
    let rest = strip(text, b"got ")?;
    Some((Move::Got, rest))
}

/// The verb at the front, and a space.
#[tactic(auto, unfolding(crate::specs::Reading::verb_at))]
fn verb_at(text: &[u8]) -> Option<(Verb, &[u8])>
    ensures { Reads (λ r. (r.0, r.1.now)) result (verb_at text.now) }
{
    if let Some(rest) = strip(text, b"offer ") {
        return Some((Verb::Offer, rest));
    }
    if let Some(rest) = strip(text, b"collect ") {
        return Some((Verb::Collect, rest));
    }
    if let Some(rest) = strip(text, b"accept ") {
        return Some((Verb::Accept, rest));
    }
    if let Some(rest) = strip(text, b"answer ") {
        return Some((Verb::Answer, rest));
    }
    let rest = strip(text, b"watch ")?;
    Some((Verb::Watch, rest))
}

/// A space and a value, where one is carried.
#[tactic(auto, unfolding(crate::specs::Reading::carried_at))]
fn carried_at(text: &[u8], carried: bool) -> Option<(Option<Value>, &[u8])>
    ensures { Reads (λ r. (r.0, r.1.now)) result (carried_at carried text.now) }
{
    if !carried {
        return Some((None, text));
    }
    let text = strip(text, b" ")?;
    let (value, rest) = value_at(text)?;
    Some((Some(value), rest))
}

/// Whether a move on a channel carries a value: on no channel that the net does not have.
#[inline(always)]
pub(crate) fn carried(names: &Names, chan: u32, mv: Move) -> bool
    ensures { result ≡ carries_at names.now.chans chan mv }
{
    match names.chan(chan) {
        Some(chan) => carries(chan.kind, mv),
        None => false,
    }
}

/// The number of a component or a channel.
fn number(text: &[u8]) -> Option<(u32, &[u8])>
    ensures { Reads (λ r. (r.0, r.1.now)) result (number_at most_number text.now) }
{
    number_at(text, u32::MAX)
}

/// A firing, from its component on.
#[tactic(auto, unfolding(crate::specs::Reading::fired_at))]
fn fired_at<'a>(names: &Names, who: Who, text: &'a [u8]) -> Option<(Entry, &'a [u8])>
    ensures { Reads (λ r. (r.0, r.1.now)) result (fired_at names.now who text.now) }
{
    let (comp, text) = number(text)?;
    let text = strip(text, b" ")?;
    let (mv, text) = move_at(text)?;
    let (chan, text) = number(text)?;
    let (value, text) = carried_at(text, carried(names, chan, mv))?;
    let rest = strip(text, b"\n")?;
    let entry = Entry::Fired {
        who,
        comp,
        port: 0,
        chan,
        mv,
        value,
    };
    Some((entry, rest))
}

/// The end of the line, or a space, a value and the end.
#[tactic(auto, unfolding(crate::specs::Reading::value_end))]
fn value_end(text: &[u8]) -> Option<(Option<Value>, &[u8])>
    ensures { Reads (λ r. (r.0, r.1.now)) result (value_end text.now) }
{
    if let Some(rest) = strip(text, b"\n") {
        return Some((None, rest));
    }
    let text = strip(text, b" ")?;
    let (value, text) = value_at(text)?;
    let rest = strip(text, b"\n")?;
    Some((Some(value), rest))
}

/// A phase, and the end of the line.
#[tactic(auto, unfolding(crate::specs::Reading::phase_end))]
fn phase_end(text: &[u8]) -> Option<(Phase, &[u8])>
    ensures { Reads (λ r. (r.0, r.1.now)) result (phase_end text.now) }
{
    if let Some(rest) = strip(text, b"idle\n") {
        return Some((Phase::Idle, rest));
    }
    if let Some(text) = strip(text, b"asked") {
        let (value, rest) = value_end(text)?;
        return Some((Phase::Asked(value), rest));
    }
    if let Some(rest) = strip(text, b"taken\n") {
        return Some((Phase::Taken, rest));
    }
    if let Some(text) = strip(text, b"replied") {
        let (value, rest) = value_end(text)?;
        return Some((Phase::Replied(value), rest));
    }
    let rest = strip(text, b"broken\n")?;
    Some((Phase::Broken, rest))
}

/// A reply, and the end of the line.
#[tactic(auto, unfolding(crate::specs::Reading::reply_end))]
fn reply_end(text: &[u8]) -> Option<(Reply, &[u8])>
    ensures { Reads (λ r. (r.0, r.1.now)) result (reply_end text.now) }
{
    if let Some(rest) = strip(text, b"done\n") {
        return Some((Reply::Done, rest));
    }
    if let Some(text) = strip(text, b"value ") {
        let (value, text) = value_at(text)?;
        let rest = strip(text, b"\n")?;
        return Some((Reply::Value(value), rest));
    }
    if let Some(rest) = strip(text, b"not-yet\n") {
        return Some((Reply::NotYet, rest));
    }
    if let Some(text) = strip(text, b"busy ") {
        let (phase, rest) = phase_end(text)?;
        return Some((Reply::Busy(phase), rest));
    }
    if let Some(text) = strip(text, b"not-taken ") {
        let (phase, rest) = phase_end(text)?;
        return Some((Reply::NotTaken(phase), rest));
    }
    let (phase, rest) = phase_end(text)?;
    Some((Reply::Watched(phase), rest))
}

/// Whether a command of this verb may bring a value.
fn may_bring(verb: Verb) -> bool
    ensures { result ≡ may_bring verb }
{
    matches!(verb, Verb::Offer | Verb::Answer)
}

/// Whether a digit stands at the front.
fn begins_digit(text: &[u8]) -> bool
    ensures { result ≡ begins_digit text.now }
{
    match text.split_first() {
        Some((byte, _)) => byte.is_ascii_digit(),
        None => false,
    }
}

/// The value of a command that may bring one and does, and a space.
#[tactic(auto, unfolding(crate::specs::Reading::given_at))]
fn given_at(text: &[u8], verb: Verb) -> Option<(Option<Value>, &[u8])>
    ensures { Reads (λ r. (r.0, r.1.now)) result (given_at verb text.now) }
{
    if !may_bring(verb) || !begins_digit(text) {
        return Some((None, text));
    }
    let (value, text) = value_at(text)?;
    let rest = strip(text, b" ")?;
    Some((Some(value), rest))
}

/// A host's command, from its verb on.
#[tactic(auto, unfolding(crate::specs::Reading::host_at))]
fn host_at<'a>(names: &LineNames, who: Who, text: &'a [u8]) -> Option<(Entry, &'a [u8])>
    ensures { Reads (λ r. (r.0, r.1.now)) result (host_at names.now who text.now) }
{
    let (verb, text) = verb_at(text)?;
    let (port, text) = port_at(names, text)?;
    let (value, text) = given_at(text, verb)?;
    let (reply, rest) = reply_end(text)?;
    let entry = Entry::Host {
        who,
        verb,
        port,
        value,
        reply,
    };
    Some((entry, rest))
}

/// An event, behind the one that made it.
#[tactic(auto, unfolding(crate::specs::Reading::event_at))]
fn event_at<'a>(names: &LineNames, who: Who, text: &'a [u8]) -> Option<(Entry, &'a [u8])>
    ensures { Reads (λ r. (r.0, r.1.now)) result (event_at names.now who text.now) }
{
    if let Some(rest) = strip(text, b" rest\n") {
        return Some((Entry::Rested { who }, rest));
    }
    if let Some(text) = strip(text, b" fire ") {
        return fired_at(names.names(), who, text);
    }
    let text = strip(text, b" ")?;
    match who {
        Who::Host(_) => host_at(names, who, text),
        Who::Worker(_) => None,
    }
}

/// The entry whose line stands at the front, and what follows it.
#[tactic(auto, unfolding(crate::specs::Reading::line_at))]
#[inline(never)]
pub fn line_at<'a>(names: &LineNames, text: &'a [u8]) -> Option<(Entry, &'a [u8])>
    ensures { Reads (λ r. (r.0, r.1.now)) result (line_at names.now text.now) }
{
    let (who, text) = who_at(text)?;
    event_at(names, who, text)
}

/// The component of the clash line at the front, and what follows it.
#[tactic(auto, unfolding(crate::specs::Reading::clash_at))]
pub fn clash_at(text: &[u8]) -> Option<(u32, &[u8])>
    ensures { Reads (λ r. (r.0, r.1.now)) result (clash_at text.now) }
{
    let text = strip(text, b"clash ")?;
    let (comp, text) = number(text)?;
    let rest = strip(text, b"\n")?;
    Some((comp, rest))
}
