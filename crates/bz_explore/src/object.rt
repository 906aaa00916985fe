//! Answers as objects of JSON, one for each line. Values are strings, since they have up to 128 bits.

use crate::answer::Answer;
use bz_explore_moves::{put_move_members, put_value_member, put_word_members};
use bz_explore_net::{HostOffer, Offer};
use bz_model::{ChanKind, Entry, Reply, Value, Who};
use bz_net::Core;
use bz_text::Text;
use bz_view::{Piece, chan_of, port_name};

/// Adds the object of a line: what was gathered of it, and its error or its text.
pub(crate) fn put_object(answer: &Answer, number: u64, object: &mut Text) {
    let (Ok(members), Ok(text)) = (answer.members.whole(), answer.text.whole()) else {
        object.lose();
        return;
    };
    object.say("{\"line\": %", &[Piece::Wide(number.into())]);
    object.put_bytes(members);
    if !text.is_empty() {
        let name = Piece::Text(if answer.is_fault { "error" } else { "text" });
        let told = Piece::Json(text.strip_suffix(b"\n").unwrap_or(text));
        object.say(", \"%\": %", &[name, told]);
    }
    object.put(if answer.is_fault {
        ", \"status\": 2}\n"
    } else {
        "}\n"
    });
}

/// Adds entries, where there are any.
pub(crate) fn put_entries(net: &Core, entries: &[Entry], members: &mut Text) {
    let mut before = ", \"entries\": [{";
    for entry in entries {
        members.put(before);
        put_entry(net, *entry, members);
        before = "}, {";
    }
    if !entries.is_empty() {
        members.put("}]");
    }
}

fn put_entry(net: &Core, entry: Entry, members: &mut Text) {
    match entry {
        Entry::Fired {
            who,
            comp,
            port,
            chan,
            mv,
            value,
        } => {
            put_who(who, ", ", members);
            let made = Offer {
                comp,
                port,
                chan,
                mv,
                value,
            };
            put_move_members(net, made, members);
        }
        Entry::Host {
            who,
            verb,
            port,
            value,
            reply,
        } => {
            put_who(who, ", ", members);
            put_word_members(net, HostOffer { verb, port }, members);
            put_value_member(value, members);
            put_reply(reply, members);
        }
        Entry::Rested { who } => put_who(who, ", \"rest\": true", members),
    }
}

fn put_who(who: Who, behind: &str, members: &mut Text) {
    let (letter, number) = who.parts();
    let pieces = [
        Piece::Text(letter),
        Piece::Number(number as usize),
        Piece::Text(behind),
    ];
    members.say("\"by\": \"%%\"%", &pieces);
}

/// Adds what the host was told.
pub(crate) fn put_reply(reply: Reply, members: &mut Text) {
    let (word, value, phase) = match reply {
        Reply::Done => ("done", None, None),
        Reply::Value(value) => ("value", Some(value), None),
        Reply::NotYet => ("not-yet", None, None),
        Reply::Busy(phase) => ("busy", None, Some(phase)),
        Reply::NotTaken(phase) => ("not-taken", None, Some(phase)),
        Reply::Watched(phase) => ("watched", None, Some(phase)),
    };
    members.say(", \"reply\": \"%\"", &[Piece::Text(word)]);
    put_value_member(value, members);
    if let Some(phase) = phase {
        members.say(", \"phase\": \"%\"", &[Piece::Phase(phase)]);
    }
}

/// Adds what passed at a port: the values, or how many handshakes without one.
pub(crate) fn put_port_passed(net: &Core, port: u32, passed: &[Option<Value>], members: &mut Text) {
    members.say("{\"port\": %", &[Piece::JsonTyped(port_name(net, port))]);
    if chan_of(net, port).kind == ChanKind::Sync {
        members.say(", \"handshakes\": %}", &[Piece::Number(passed.len())]);
        return;
    }
    let mut before = "\"%\"";
    members.put(", \"values\": [");
    for came in passed {
        members.say(before, &[Piece::Wide(came.unwrap_or(0))]);
        before = ", \"%\"";
    }
    members.put("]}");
}
