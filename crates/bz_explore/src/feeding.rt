//! The commands by which a host stands by at a port, and leaves it.

use crate::answer::{Answer, add};
use crate::commands::Call;
use crate::hosts::{StandBy, Supply, place_of};
use crate::refusals::{put_too_large, put_unknown};
use crate::table::Form;
use bz_bench::{Item, Times, Word, word_of};
use bz_model::{Chan, ChanKind, HostCmd, Names, Value, Verb, fits, value_of, wide_count_of};
use bz_net::Net;
use bz_view::{Piece, gathered};
use bz_words::read_name;

/// The most items of a line.
const MOST_ITEMS: u64 = 1_000_000;

/// An external port that a line names.
#[derive(Clone, Copy)]
pub(crate) struct PortAsked<'n> {
    pub port: u32,
    pub name: &'n [u8],
    pub passive: bool,
    pub chan: Chan,
}

impl PortAsked<'_> {
    // Whether values go from the host to the net there.
    fn takes_values(self) -> bool {
        match self.chan.kind {
            ChanKind::Sync => false,
            ChanKind::Push => self.passive,
            ChanKind::Pull => !self.passive,
        }
    }
}

/// The external port that a word names. That it names none is told.
pub(crate) fn port_asked<'n>(
    names: &'n Names,
    form: Form,
    word: &str,
    answer: &mut Answer,
) -> Option<PortAsked<'n>> {
    match read_name(answer.text.alloc(), word.as_bytes()) {
        Ok(Some(name)) => {
            let port = port_named(names, name.as_slice());
            if port.is_none() {
                answer.complain("%: ", &[Piece::Text(form.typed)]);
                put_unknown(names, name.as_slice(), &mut answer.text);
                answer.text.put("\n");
            }
            port
        }
        Ok(None) => {
            answer.misfit(form, word, "no name");
            None
        }
        Err(_) => {
            answer.text.lose();
            None
        }
    }
}

/// The external port of this name, if there is one.
pub(crate) fn port_named<'n>(names: &'n Names, name: &[u8]) -> Option<PortAsked<'n>> {
    let port = names.port(name)?;
    Some(PortAsked {
        port,
        name: names.name(port)?,
        passive: names.passive(port)?,
        chan: names.chan(port)?,
    })
}

/// Lets a host stand by that gives values, or where none are given, lets the one that is there leave.
pub(crate) fn feed(net: &Net, hosts: &mut Vec<StandBy>, call: Call<'_>, answer: &mut Answer) {
    let (word, entries) = (call.first.unwrap_or(""), net.journal().len());
    let Some(port) = port_asked(net.names(), call.form, word, answer) else {
        return;
    };
    let given = call.rest.get(1..).unwrap_or(&[]);
    if given.is_empty() {
        hosts.retain(|host| host.port != port.port);
        answer
            .text
            .say("no host stands by at %\n", &[Piece::Called(port.name)]);
    } else if !port.takes_values() {
        let pieces = [Piece::Text(call.form.typed), Piece::Called(port.name)];
        answer.complain("%: no value goes into the net at %\n", &pieces);
    } else if let Some(values) = values_of(call, port, given, answer) {
        stand_by(hosts, port, Supply::Values(values), entries, answer);
        put_at(hosts, port.port, entries, answer);
    }
}

/// Lets a host stand by that takes what comes.
pub(crate) fn drain(net: &Net, hosts: &mut Vec<StandBy>, call: Call<'_>, answer: &mut Answer) {
    let (word, entries) = (call.first.unwrap_or(""), net.journal().len());
    let Some(port) = port_asked(net.names(), call.form, word, answer) else {
        return;
    };
    if port.takes_values() {
        let pieces = [Piece::Text(call.form.typed), Piece::Called(port.name)];
        answer.complain("%: the net wants a value at %\n", &pieces);
        return;
    }
    let supply = match wide_count_of(call.second.unwrap_or("")) {
        Some(count) => Supply::Handshakes(count),
        None => Supply::Always,
    };
    stand_by(hosts, port, supply, entries, answer);
    put_at(hosts, port.port, entries, answer);
}

// Adds how a host stands that stands by at a port.
fn put_at(hosts: &[StandBy], port: u32, entries: usize, answer: &mut Answer) {
    match hosts.get(place_of(hosts, port)) {
        Some(host) if host.port == port => host.put(entries, &mut answer.text),
        _ => {}
    }
}

// Lets a host stand by at a port, in the order of the ports; one that is there already has more.
fn stand_by(
    hosts: &mut Vec<StandBy>,
    port: PortAsked<'_>,
    supply: Supply,
    entries: usize,
    answer: &mut Answer,
) {
    let place = place_of(hosts, port.port);
    if let Some(host) = hosts.get_mut(place) {
        if host.port == port.port {
            if host.add(supply, entries).is_err() {
                answer.text.lose();
            }
            return;
        }
    }
    let alloc = answer.text.alloc();
    let host = StandBy {
        port: port.port,
        passive: port.passive,
        word: HostCmd {
            verb: Verb::Watch,
            port: gathered(Vec::from_slice(alloc, port.name), &mut answer.text),
            value: None,
        },
        supply,
        given: Vec::new(alloc),
    };
    if place < hosts.len() {
        if hosts.insert(place, host).is_err() {
            answer.text.lose();
        }
    } else {
        add(hosts, host, &mut answer.text);
    }
}

// The values that words spell, all of which fit the port. What doesn't is told.
fn values_of(
    call: Call<'_>,
    port: PortAsked<'_>,
    words: &[&str],
    answer: &mut Answer,
) -> Option<Vec<Value>> {
    let mut values = Vec::new(answer.text.alloc());
    let items = items_of(call, words, answer)?;
    for item in &items {
        match item {
            Item::Value(value) if fits(port.chan.width, *value) => {
                if values.push(*value).is_err() {
                    answer.text.lose();
                }
            }
            Item::Value(value) => {
                answer.complain("%: ", &[Piece::Text(call.form.typed)]);
                put_too_large(*value, port.name, port.chan, &mut answer.text);
                answer.text.put("\n");
                return None;
            }
            Item::Any => {
                answer.misfit(call.form, "?", "no value");
                return None;
            }
            Item::Handshake => {
                answer.misfit(call.form, ".", "no value");
                return None;
            }
        }
    }
    Some(values)
}

/// The items that words spell: values, `.` for a handshake without one and `?` for any, each also as `5*3`, and `1..9`. What is
/// none is told.
pub(crate) fn items_of(call: Call<'_>, words: &[&str], answer: &mut Answer) -> Option<Vec<Item>> {
    let mut items = Vec::new(answer.text.alloc());
    for word in words {
        let Some(spelling) = spelling_of(word) else {
            answer.misfit(call.form, word, "no value");
            return None;
        };
        if spelling.count() > MOST_ITEMS.saturating_sub(items.len() as u64) {
            answer.misfit(
                call.form,
                word,
                "too much: a line has 1000000 values at most",
            );
            return None;
        }
        for place in 0..spelling.count() {
            add(&mut items, spelling.item_at(place), &mut answer.text);
        }
    }
    Some(items)
}

// What a word spells.
#[derive(Clone, Copy)]
enum Spelling {
    // An item, as often as that.
    Same(Item, u64),
    // As many values, from this one on.
    From(Value, u64),
}

impl Spelling {
    fn count(self) -> u64 {
        match self {
            Spelling::Same(_, count) | Spelling::From(_, count) => count,
        }
    }

    fn item_at(self, place: u64) -> Item {
        match self {
            Spelling::Same(item, _) => item,
            Spelling::From(first, _) => Item::Value(first.saturating_add(place.into())),
        }
    }
}

fn spelling_of(word: &str) -> Option<Spelling> {
    if let Some((first, last)) = word.split_once("..") {
        let (first, last) = (value_of(first)?, value_of(last)?);
        let more = u64::try_from(last.checked_sub(first)?).unwrap_or(u64::MAX);
        return Some(Spelling::From(first, more.saturating_add(1)));
    }
    match word_of(word) {
        Some(Word::Items(item, Times::Count(count))) => Some(Spelling::Same(item, count.into())),
        _ => None,
    }
}
