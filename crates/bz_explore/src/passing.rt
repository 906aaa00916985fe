//! What passed at the ports, and what is expected there.

ghost use Rattle.bz_bench.specs.Tallies.{IsTally, Tells};

use crate::answer::Answer;
use crate::commands::Call;
use crate::feeding::{PortAsked, items_of, port_asked};
use crate::object::put_port_passed;
use bz_bench::{Item, Tally, tallies_of};
use bz_explore_moves::{first_other, passed_at, put_came, put_passed};
use bz_model::{Value, numbered};
use bz_net::Net;
use bz_text::Text;
use bz_view::Piece;

/// Adds what passed at each port, or at the one that is asked for.
pub(crate) fn tell_passed(net: &Net, call: Call<'_>, answer: &mut Answer) {
    let asked = match call.first {
        None => None,
        Some(word) => match port_asked(net.names(), call.form, word, answer) {
            Some(port) => Some(port.port),
            None => return,
        },
    };
    let ports = net.names().ports().len();
    match tallies_of(answer.text.alloc(), ports, net.journal()) {
        Ok(tallies) if answer.is_object => {
            put_objects(net, &tallies, asked, &mut answer.members);
        }
        Ok(tallies) => put_ports(net, &tallies, asked, &mut answer.text),
        Err(_) => answer.text.lose(),
    }
}

fn put_ports(net: &Net, tallies: &[Tally], asked: Option<u32>, text: &mut Text)
    requires { Tells net.now.journal tallies.now }
{
    let last = u32::try_from(tallies.len()).unwrap_or(u32::MAX);
    for port in 1..=last {
        match numbered(tallies, port) {
            Some(tally) if asked.unwrap_or(port) == port => put_passed(net, port, tally, text),
            _ => {}
        }
    }
}

// The same as objects.
fn put_objects(net: &Net, tallies: &[Tally], asked: Option<u32>, members: &mut Text)
    requires { Tells net.now.journal tallies.now }
{
    let mut before = "";
    let last = u32::try_from(tallies.len()).unwrap_or(u32::MAX);
    members.put(", \"passed\": [");
    for port in 1..=last {
        match numbered(tallies, port) {
            Some(tally) if asked.unwrap_or(port) == port => {
                members.put(before);
                put_port_passed(net.core(), port, passed_at(net, port, tally), members);
                before = ", ";
            }
            _ => {}
        }
    }
    members.put("]");
}

/// Compares what passed at a port with what is expected there.
pub(crate) fn expect_passed(net: &Net, call: Call<'_>, answer: &mut Answer) {
    let word = call.first.unwrap_or("");
    let Some(port) = port_asked(net.names(), call.form, word, answer) else {
        return;
    };
    let Some(items) = items_of(call, call.rest.get(1..).unwrap_or(&[]), answer) else {
        return;
    };
    match tallies_of(
        answer.text.alloc(),
        net.names().ports().len(),
        net.journal(),
    ) {
        Ok(tallies) => match numbered(&tallies, port.port) {
            Some(tally) => compare(port, passed_at(net, port.port, tally), &items, answer),
            None => {}
        },
        Err(_) => answer.text.lose(),
    }
}

// Tells whether what passed at a port is as expected, and else which handshake is the first that is not.
fn compare(port: PortAsked<'_>, passed: &[Option<Value>], items: &[Item], answer: &mut Answer) {
    let Some(place) = first_other(passed, items) else {
        answer.agree();
        return;
    };
    answer.differ();
    let at = [
        Piece::Number(place.saturating_add(1)),
        Piece::Called(port.name),
    ];
    let text = &mut answer.text;
    text.say("differs: handshake % at %: expected", &at);
    match items.get(place) {
        Some(Item::Value(value)) => put_came(Some(*value), text),
        Some(Item::Handshake) => put_came(None, text),
        Some(Item::Any) => text.put(" ?"),
        None => text.put(" none"),
    }
    text.put(", had");
    match passed.get(place) {
        Some(came) => put_came(*came, text),
        None => text.put(" none"),
    }
    text.put("\n");
}
