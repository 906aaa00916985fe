//! Why a move of a short trace can't be made: what was found, and what is due.

use crate::making::{Maker, maker_of};
use crate::short::{Sent, ShortMove};
use bz_flat::FlatComp;
use bz_kind_rows::kind_word;
use bz_model::{Move, Value};
use bz_net::Net;
use bz_text::Text;
use bz_view::{Piece, chan_at, port_count, port_name, port_of};
use std::alloc::Global;

/// The most moves that are told as due.
const MOST: usize = 8;

/// Two lines, each behind a line end: what was found, and what is due. Nothing where memory is wanting.
pub(crate) fn why_not(alloc: Global, net: &Net, due: ShortMove) -> String {
    let mut text = Text::new(alloc);
    put_found(net, due, &mut text);
    string_of(alloc, &text)
}

/// Two lines, each behind a line end: that a component can move at the end, and what is due there. Nothing where memory is wanting.
pub(crate) fn why_unrested(alloc: Global, net: &Net, comp: u32) -> String {
    let mut text = Text::new(alloc);
    if let Some(site) = net.core().comp(comp) {
        let pieces = [
            Piece::Bytes(kind_word(&site.kind)),
            Piece::Wide(comp.into()),
        ];
        text.say("\nfound: the end, where % % can move\ndue: ", &pieces);
        put_dues(net, site, comp, &mut text);
    }
    string_of(alloc, &text)
}

/// What a text has, or nothing where a part of it is lost.
pub(crate) fn string_of(alloc: Global, text: &Text) -> String {
    let string = match text.whole() {
        Ok(bytes) => String::from_utf8_lossy(alloc, bytes),
        Err(fault) => Err(fault),
    };
    string.unwrap_or_else(|_| String::new(alloc))
}

fn put_found(net: &Net, due: ShortMove, text: &mut Text) {
    let sent = match due.sent {
        Sent::Ask => Move::Ask,
        Sent::Reply => Move::Reply,
    };
    text.put("\nfound: ");
    put_move(sent, due.chan, due.value, text);
    match maker_of(net, due) {
        Maker::Comp { comp, port } => match net.core().comp(comp) {
            Some(site) => put_comp(net, site, comp, port, text),
            None => {}
        },
        Maker::Host => put_host(net, due, text),
        Maker::Nobody => {
            let chans = Piece::Count(net.core().chan_count() as usize, "channel");
            text.say("\ndue: a channel of the net, which has %", &[chans]);
        }
    }
}

// A move on a channel, as a short trace has it.
fn put_move(mv: Move, chan: u32, value: Option<Value>, text: &mut Text) {
    let word = match mv {
        Move::Ask => "ask",
        Move::Take => "take",
        Move::Reply => "reply",
        Move::Got => "got",
    };
    let pieces = [
        Piece::Text(word),
        Piece::Wide(chan.into()),
        Piece::Value(value),
    ];
    text.say("% %%", &pieces);
}

// Whose move it is, and the moves that are due at that component.
fn put_comp(net: &Net, site: &FlatComp, comp: u32, port: u32, text: &mut Text) {
    let pieces = [
        Piece::Bytes(kind_word(&site.kind)),
        Piece::Wide(comp.into()),
        port_of(site, port),
    ];
    text.say(", of % % at %\ndue: ", &pieces);
    put_dues(net, site, comp, text);
}

// The moves that are due at a component.
fn put_dues(net: &Net, site: &FlatComp, comp: u32, text: &mut Text) {
    let mut count = 0usize;
    for port in 1..=port_count(site) {
        if let Some(mv) = net.due(comp, port) {
            if count < MOST {
                put_due(net, site, comp, port, mv, count > 0, text);
            }
            count = count.saturating_add(1);
        }
    }
    if count == 0 {
        text.put("nothing");
    }
    if count > MOST {
        text.say(", and % more", &[Piece::Number(count.saturating_sub(MOST))]);
    }
}

// A move that is due at a port, and whether it can be made.
fn put_due(
    net: &Net,
    site: &FlatComp,
    comp: u32,
    port: u32,
    mv: Move,
    is_next: bool,
    text: &mut Text,
) {
    if is_next {
        text.put(", ");
    }
    match net.foresee(comp, port) {
        Some((chan, mv, value)) => put_move(mv, chan, value, text),
        None => {
            put_move(mv, chan_at(site, port), None, text);
            text.put(" (waits)");
        }
    }
    text.say(" at %", &[port_of(site, port)]);
}

// That it is the host's move, and how far the channel is.
fn put_host(net: &Net, due: ShortMove, text: &mut Text) {
    let pieces = [
        Piece::Typed(port_name(net.core(), due.chan)),
        Piece::Phase(net.core().phase(due.chan)),
    ];
    text.say(", of the host at %\ndue: on a channel that is %", &pieces);
    if let Some(chan) = net.names().chan(due.chan) {
        text.say(", %", &[Piece::Carried(chan)]);
    }
}
