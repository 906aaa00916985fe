//! Why the net doesn't follow a line.

use bz_model::{Chan, HostCmd, Names, NetError, Value, low_bits};
use bz_text::Text;
use bz_view::{Piece, Seen, chan_at, port_count, port_of};
use std::io::Write;

/// The most ports that are told by name.
const MOST_PORTS: usize = 10;

/// Adds why the net refuses a command of the host.
pub(crate) fn put_refusal(seen: Seen<'_>, error: NetError, cmd: &HostCmd, text: &mut Text) {
    let names = seen.net.names();
    let name = Piece::Typed(cmd.port.as_slice());
    let verb = Piece::Text(cmd.verb.word());
    let number = names.port(cmd.port.as_slice()).unwrap_or(0);
    let chan = seen.chan(number);
    let _ = write!(text, "{error}: ");
    match error {
        NetError::UnknownPort => put_unknown(names, cmd.port.as_slice(), text),
        NetError::WrongSide => text.say(
            match names.passive(number) {
                Some(true) => "port % is passive: the words for it are offer and collect",
                _ => "port % is active: the words for it are accept and answer",
            },
            &[name],
        ),
        NetError::ValueMissing => text.say(
            "% needs a value below 2^%, as in %:%:0",
            &[verb, Piece::Wide(chan.width.into()), verb, name],
        ),
        NetError::ValueUnwanted => text.say(
            "% takes no value at port %, which is a % port",
            &[verb, name, Piece::Text(chan.kind.word())],
        ),
        NetError::TooLarge => {
            put_too_large(cmd.value.unwrap_or(0), cmd.port.as_slice(), chan, text);
        }
        _ => {}
    }
    text.put("\n");
}

/// Adds that a value is too large for the port of this name.
pub(crate) fn put_too_large(value: Value, name: &[u8], chan: Chan, text: &mut Text) {
    let bits = Piece::Count(chan.width as usize, "bit");
    let greatest = Piece::Wide(low_bits(Value::MAX, chan.width));
    text.say(
        "% is too large: port % has %, and the greatest value is %",
        &[Piece::Wide(value), Piece::Typed(name), bits, greatest],
    );
}

/// Adds that no port has the name, and the ports that there are.
pub(crate) fn put_unknown(names: &Names, name: &[u8], text: &mut Text) {
    text.say("no port is called %; the ports are", &[Piece::Called(name)]);
    for port in names.ports().iter().take(MOST_PORTS) {
        text.say(" %", &[Piece::Called(port.name.as_slice())]);
    }
    let more = names.ports().len().saturating_sub(MOST_PORTS);
    if more > 0 {
        text.say(" and % more", &[Piece::Number(more)]);
    }
}

/// Adds why a component can't move at a port, or at any: what is due there, and the phase of its channel.
pub(crate) fn put_stuck(seen: Seen<'_>, comp: u32, at: Option<u32>, text: &mut Text) {
    let Some(site) = seen.net.comp(comp) else {
        return;
    };
    let there = Piece::Text(if at.is_some() { " there" } else { "" });
    text.say("% can't move%: ", &[seen.comp(comp), there]);
    let due = |port: &u32| seen.net.due(comp, *port).is_some();
    let Some(at) = at.or((1..=port_count(site)).find(due)) else {
        text.put("nothing is due\n");
        return;
    };
    let (chan, name) = (chan_at(site, at), port_of(site, at));
    let (number, phase) = (Piece::Wide(chan.into()), Piece::Phase(seen.phase(chan)));
    let chan = seen.named_chan(chan);
    match seen.net.due(comp, at) {
        None => text.say("nothing is due at %\n", &[name]),
        Some(mv) => text.say(
            "% % is due at %, and channel % is %\n",
            &[Piece::Text(mv.word()), number, name, chan, phase],
        ),
    }
}
