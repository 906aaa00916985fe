//! What a command has played, and how a run ended.

use crate::answer::{Answer, put_added};
use crate::object::{put_entries, put_reply};
use bz_explore_net::Stepping;
use bz_model::Reply;
use bz_source::Survey;
use bz_text::{Piece as Part, Text};
use bz_view::{Piece, Seen, Thing};

const ROUND: &str =
    "the state behind line % is that behind line %: with this order it goes on so for ever\n";

/// Adds what was played behind the first `before` entries, and what the host was told.
pub(crate) fn put_played(
    stepping: &Stepping,
    survey: &Survey,
    before: usize,
    reply: Option<Reply>,
    is_worded: bool,
    answer: &mut Answer,
) {
    let net = stepping.net();
    let seen = Seen::of(net.core(), survey);
    let entries = net.journal().get(before..).unwrap_or(&[]);
    if answer.is_object {
        put_entries(seen.net, entries, &mut answer.members);
        put_told(reply, &mut answer.members);
    } else {
        put_added(seen, entries, is_worded, &mut answer.text);
    }
}

fn put_told(reply: Option<Reply>, members: &mut Text) {
    if let Some(reply) = reply {
        put_reply(reply, members);
    }
}

/// Adds how often components fired, and whether the net is at rest.
pub(crate) fn put_fired(seen: Seen<'_>, fired: u64, answer: &mut Answer) {
    let is_at_rest = seen.net.next_ready(1).is_none();
    if answer.is_object {
        let told = [Piece::Wide(fired.into()), Piece::Flag(is_at_rest)];
        answer.members.say(", \"fired\": %, \"at_rest\": %", &told);
        return;
    }
    let form = if is_at_rest {
        "% fired, at rest\n"
    } else {
        "% fired, not at rest\n"
    };
    answer.text.say(form, &[Piece::Wide(fired.into())]);
}

/// Adds how often components fired before something moved at a component or on a channel, where the run stopped.
pub(crate) fn put_stop(seen: Seen<'_>, fired: u64, thing: Thing, answer: &mut Answer) {
    if answer.is_object {
        put_fired(seen, fired, answer);
        put_stop_member(thing, &mut answer.members);
        return;
    }
    let fired = Piece::Wide(fired.into());
    match thing {
        Thing::Comp(comp) => {
            let stop = [fired, seen.comp(comp)];
            answer.text.say("% fired, stopped at %\n", &stop);
        }
        Thing::Chan(chan) => {
            let stop = [fired, seen.named_chan(chan)];
            answer.text.say("% fired, stopped at channel %\n", &stop);
        }
    }
}

fn put_stop_member(thing: Thing, members: &mut Text) {
    let (form, number) = match thing {
        Thing::Comp(comp) => (", \"stopped_at\": {\"component\": %}", comp),
        Thing::Chan(chan) => (", \"stopped_at\": {\"channel\": %}", chan),
    };
    members.say(form, &[Piece::Wide(number.into())]);
}

/// Adds how often components fired until all went on as it had behind an earlier line of the trace, and that line and the last.
pub(crate) fn put_again(seen: Seen<'_>, fired: u64, from: usize, to: usize, answer: &mut Answer) {
    put_fired(seen, fired, answer);
    let (from, to) = (Piece::Number(from), Piece::Number(to));
    if answer.is_object {
        let form = ", \"goes_round\": {\"from\": %, \"to\": %}";
        answer.members.say(form, &[from, to]);
    } else {
        answer.text.say(ROUND, &[to, from]);
    }
}

/// Adds what stands behind `say`, in which a control character is a question mark, as in the name of a file.
pub(crate) fn put_said(typed: &[u8], text: &mut Text) {
    let said = typed.get(b"say ".len()..).unwrap_or(&[]);
    text.put_pieces(&[Part::File(said), Part::Bytes(b"\n")]);
}
