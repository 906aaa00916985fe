//! What a word stands for: components and channels by their numbers, and by their names and places in the source.
//!
//! A name comes before a number: where the source calls something `k7`, that word is not channel 7.
//!
//! A word that several things have finds all of them and is no error: a variable's name is that of its channels too. A
//! compiler calls a variable by its bits, as `x[0..7]`, and its channels `x`: so it is found without them too. A place
//! without a column is a whole line; files are compared whole, as the compiler wrote them.

use crate::answer::{Answer, add};
use crate::commands::{Call, chan_number};
use crate::table::Form;
use bz_explain_notes::nearest_name;
use bz_model::wide_count_of;
use bz_source::{Label, Survey};
use bz_text::Text;
use bz_view::{Piece, Seen, Thing, chan_at, port_count, put_source};

/// What the first word behind a command stands for. That it stands for nothing is told, and that it stands for several.
pub(crate) fn asked(seen: Seen<'_>, call: Call<'_>, answer: &mut Answer) -> Vec<Thing> {
    let word = call.first.unwrap_or("");
    let things = found(seen, call, answer);
    if things.len() > 1 {
        let pieces = [Piece::Number(things.len()), Piece::Shown(word.as_bytes())];
        answer.text.say("% match `%`:\n", &pieces);
    }
    things
}

/// The same, without telling that it stands for several.
pub(crate) fn found(seen: Seen<'_>, call: Call<'_>, answer: &mut Answer) -> Vec<Thing> {
    let word = call.first.unwrap_or("");
    let things = things_of(seen, word, &mut answer.text);
    match (wide_count_of(word), things.first()) {
        (Some(number), None) => no_component(seen, number, answer),
        (None, None) => no_thing(seen, call.form, word, answer),
        (_, Some(Thing::Comp(comp))) if is_of_other_kind(seen, *comp, call.kind, answer) => {
            return Vec::new(answer.text.alloc());
        }
        _ => {}
    }
    things
}

// Whether a component is not of the kind that stands in front of its number, which is told.
fn is_of_other_kind(seen: Seen<'_>, comp: u32, kind: Option<&str>, answer: &mut Answer) -> bool {
    match kind {
        Some(kind) if kind.as_bytes() != seen.kind(comp) => {
            let pieces = [seen.comp(comp), Piece::Shown(kind.as_bytes())];
            answer.complain("% is no %\n", &pieces);
            true
        }
        _ => false,
    }
}

/// The component that is to be fired, and its port where one is given: by its number, or by a channel on which it can move. That
/// there is none such is told.
pub(crate) fn place_asked(
    seen: Seen<'_>,
    call: Call<'_>,
    answer: &mut Answer,
) -> Option<(u32, Option<u32>)> {
    let port = call.second.unwrap_or("");
    match chan_number(call.first.unwrap_or("")) {
        Some(_) if call.second.is_some() => {
            answer.misfit(call.form, port, "too much");
            None
        }
        Some(chan) => place_on(seen, chan, answer),
        None => place_of(seen, call, wide_count_of(port), answer),
    }
}

// The component that can move on a channel, and its port there.
fn place_on(seen: Seen<'_>, number: u64, answer: &mut Answer) -> Option<(u32, Option<u32>)> {
    let Some(chan) = numbered_chan(seen, number) else {
        no_channel(seen, number, answer);
        return None;
    };
    if let Some(place) = moving_end(seen, chan, false) {
        return Some(place);
    }
    if let Some(place) = moving_end(seen, chan, true) {
        return Some(place);
    }
    let pieces = [seen.named_chan(chan), Piece::Phase(seen.phase(chan))];
    answer.complain("no component can move on channel %, which is %\n", &pieces);
    None
}

// The component at an end of a channel, and its port there, where it can move.
fn moving_end(seen: Seen<'_>, chan: u32, passive: bool) -> Option<(u32, Option<u32>)> {
    let comp = seen.end(chan, passive)?;
    let port = moving_port(seen, comp, chan)?;
    Some((comp, Some(port)))
}

// The port of a component on a channel at which it can move.
fn moving_port(seen: Seen<'_>, comp: u32, chan: u32) -> Option<u32> {
    let site = seen.net.comp(comp)?;
    (1..=port_count(site)).find(|port| chan_at(site, *port) == chan
        && seen.net.can_fire(comp, *port))
}

// The component of the number that is given, and its port of that number where one is given.
fn place_of(
    seen: Seen<'_>,
    call: Call<'_>,
    port: Option<u64>,
    answer: &mut Answer,
) -> Option<(u32, Option<u32>)> {
    let number = call.number().unwrap_or(0);
    let Some(comp) = numbered_comp(seen, number) else {
        no_component(seen, number, answer);
        return None;
    };
    if is_of_other_kind(seen, comp, call.kind, answer) {
        return None;
    }
    let ports = seen.port_count(comp);
    match port {
        Some(port) if port == 0 || port > ports.into() => {
            let ports = Piece::Count(ports as usize, "port");
            answer.complain("% has %\n", &[seen.comp(comp), ports]);
            None
        }
        Some(port) => Some((comp, u32::try_from(port).ok())),
        None => Some((comp, None)),
    }
}

// The component of this number, if there is one.
fn numbered_comp(seen: Seen<'_>, number: u64) -> Option<u32> {
    match u32::try_from(number) {
        Ok(comp) if comp > 0 && comp <= seen.net.comp_count() => Some(comp),
        _ => None,
    }
}

// The channel of this number, if there is one.
fn numbered_chan(seen: Seen<'_>, number: u64) -> Option<u32> {
    match u32::try_from(number) {
        Ok(chan) if chan > 0 && chan <= seen.net.chan_count() => Some(chan),
        _ => None,
    }
}

// Tells that there is no channel of this number.
fn no_channel(seen: Seen<'_>, number: u64, answer: &mut Answer) {
    let last = seen.net.chan_count();
    let numbers = [Piece::Wide(number.into()), Piece::Wide(last.into())];
    answer.complain("there is no channel %: the last is %\n", &numbers);
}

// Tells that there is no component of this number.
fn no_component(seen: Seen<'_>, number: u64, answer: &mut Answer) {
    let last = seen.net.comp_count();
    let numbers = [Piece::Wide(number.into()), Piece::Wide(last.into())];
    answer.complain("there is no component %: the last is %\n", &numbers);
}

// Tells that a word is no number, and where the netlist has names, that it is none of them, and which one is near.
fn no_thing(seen: Seen<'_>, form: Form, word: &str, answer: &mut Answer) {
    if let Some(number) = chan_number(word) {
        no_channel(seen, number, answer);
        return;
    }
    let names = names_in(seen, &mut answer.text);
    if names.is_empty() {
        answer.misfit(form, word, "no number");
        return;
    }
    let (form, shown) = (Piece::Text(form.typed), Piece::Shown(word.as_bytes()));
    answer.complain("%: `%` is no number, name or place", &[form, shown]);
    match nearest_name(answer.text.alloc(), word.as_bytes(), names.as_slice()) {
        Ok(Some(name)) => answer
            .text
            .say("; the nearest is `%`\n", &[Piece::Called(name)]),
        Ok(None) => answer.text.put("\n"),
        Err(_) => answer.text.lose(),
    }
}

// The component of a number, or else what is called so, or else the channel of a number.
fn things_of(seen: Seen<'_>, word: &str, text: &mut Text) -> Vec<Thing> {
    let mut things = Vec::new(text.alloc());
    match wide_count_of(word) {
        Some(number) => {
            if let Some(comp) = numbered_comp(seen, number) {
                add(&mut things, Thing::Comp(comp), text);
            }
        }
        None => {
            for place in 0..thing_count(seen) {
                let thing = thing_at(seen, place);
                if is_called(word, seen.label(thing), text) {
                    add(&mut things, thing, text);
                }
            }
            if things.is_empty() {
                add_chan(seen, word, &mut things, text);
            }
        }
    }
    things
}

// Adds the channel whose number a word is, if there is one.
fn add_chan(seen: Seen<'_>, word: &str, things: &mut Vec<Thing>, text: &mut Text) {
    if let Some(number) = chan_number(word) {
        if let Some(chan) = numbered_chan(seen, number) {
            add(things, Thing::Chan(chan), text);
        }
    }
}

// How many components and channels a net has.
fn thing_count(seen: Seen<'_>) -> u32 {
    seen.net.comp_count().saturating_add(seen.net.chan_count())
}

// The components of a net, and behind them its channels.
fn thing_at(seen: Seen<'_>, place: u32) -> Thing {
    match place.checked_sub(seen.net.comp_count()) {
        None => Thing::Comp(place.saturating_add(1)),
        Some(behind) => Thing::Chan(behind.saturating_add(1)),
    }
}

// Whether a word is a name as it is told, without the bits behind a variable's, or a place, with or without its column.
fn is_called(word: &str, label: Label<'_>, text: &mut Text) -> bool {
    let (mut name, mut place) = (Text::new(text.alloc()), Text::new(text.alloc()));
    if let Some(called) = label.name {
        name.say("%", &[Piece::Called(called)]);
    }
    if let Some(at) = label.source {
        put_source(&mut place, at);
    }
    match (name.whole(), place.whole()) {
        (Ok(name), Ok(place)) => begins_with(name, word) || begins_with(place, word),
        _ => {
            text.lose();
            false
        }
    }
}

// Whether what is told is a word, or the word and a last part behind it: a name has no colon, and a file has none.
fn begins_with(told: &[u8], word: &str) -> bool {
    match told.strip_prefix(word.as_bytes()) {
        Some([]) => true,
        Some([b'[' | b':', last @ ..]) => !last.contains(&b':'),
        _ => false,
    }
}

// The names of the components and the channels of a net.
fn names_in<'v>(seen: Seen<'v>, text: &mut Text) -> Vec<&'v [u8]> {
    let mut names = Vec::new(text.alloc());
    for place in 0..thing_count(seen) {
        match name_of(seen.survey, thing_at(seen, place)) {
            Some(name) => add(&mut names, name, text),
            None => {}
        }
    }
    names
}

// The name of a component or a channel, that of a variable without its bits.
fn name_of(survey: &Survey, thing: Thing) -> Option<&[u8]> {
    match thing {
        Thing::Comp(comp) => {
            let name = survey.comp_name(comp)?;
            let bits = name.iter().position(|byte| *byte == b'[');
            name.get(..bits.unwrap_or(name.len()))
        }
        Thing::Chan(chan) => survey.chan_name(chan),
    }
}
