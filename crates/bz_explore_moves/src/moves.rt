//! The moves that can be made, and the words that would be answered.

ghost use Rattle.std.specs.Prelude.{IfSome};
ghost use Rattle.bz_text.specs.Growing.{Grows, GrowsBy};
ghost use Rattle.bz_view.specs.Lines.{InLine, InTurn};
ghost use Rattle.bz_explore_moves.specs.Moves.{IsMove, IsMoveLine, IsMoves, IsWordLine, end_line, host_word};

use bz_explore_net::{HostOffer, Offer, answered_words, offers_of};
use bz_kind_rows::{kind_word, port_at};
use bz_model::{Chan, ChanKind, Value};
use bz_net::Core;
use bz_source::Survey;
use bz_text::{Piece, Text};
use bz_view::{
    chan_of, fill, gathered, port_name, put_host_word, put_in_line, put_instance, put_name,
    put_port, put_source,
};

/// Adds a line for each move that a component can make, and for each word of the host that would be answered, and last how many
/// moves there are.
pub fn put_moves(net: &Core, survey: &Survey, text: &mut Text)
    // What is told of a state is exactly what can come next in it, where no memory was wanting.
    ensures { IfSome text.new (λ _.
        GrowsBy (IsMoves net.now.wiring net.now.state) text.old text.new) }
{
    let alloc = text.alloc();
    let moves = gathered(offers_of(alloc, net), text);
    let words = gathered(answered_words(alloc, net), text);
    let offers = moves.as_slice();
    put_offers(net, survey, offers, text);
    put_words(net, words.as_slice(), text);
    put_end(offers.len(), text);
}

fn put_offers(net: &Core, survey: &Survey, offers: &[Offer], text: &mut Text)
    ensures { GrowsBy (InTurn IsMoveLine offers.now) text.old text.new }
{
    for offer in offers {
        put_offer(net, survey, *offer, text);
    }
}

// The command that makes a move, with the move, its port, and the instance that the component is in.
fn put_offer(net: &Core, survey: &Survey, offer: Offer, text: &mut Text)
    ensures { GrowsBy (IsMoveLine offer) text.old text.new }
{
    put_move(offer, text);
    fill(text, 28);
    put_about(net, survey, offer, text);
    text.put("\n");
}

fn put_move(offer: Offer, text: &mut Text)
    ensures { GrowsBy (IsMove offer) text.old text.new }
{
    text.put_pieces(&[
        Piece::Bytes(b"fire "),
        Piece::Number(offer.comp.into()),
        Piece::Bytes(b" "),
        Piece::Number(offer.port.into()),
    ]);
    fill(text, 12);
    text.put_pieces(&[
        Piece::Bytes(offer.mv.word().as_bytes()),
        Piece::Value(Some(offer.chan.into())),
        Piece::Value(offer.value),
    ]);
}

// What is told of the component, its port and its channel.
fn put_about(net: &Core, survey: &Survey, offer: Offer, text: &mut Text)
    ensures { GrowsBy InLine text.old text.new }
{
    put_comp_port(net, offer, text);
    let mut column = 54;
    put_instance_of(survey, offer, &mut column, text);
    put_comp_name(survey, offer, &mut column, text);
    put_comp_source(survey, offer, &mut column, text);
    put_chan_name(survey, offer, &mut column, text);
}

fn put_comp_port(net: &Core, offer: Offer, text: &mut Text)
    ensures { GrowsBy InLine text.old text.new }
{
    if let Some(comp) = net.comp(offer.comp) {
        put_in_line(
            text,
            &[Piece::Name(kind_word(&comp.kind)), Piece::Bytes(b" ")],
        );
        if let Some(at) = port_at(&comp.kind, comp.sizes, offer.port) {
            put_port(text, at);
        }
    }
}

// Goes on at a column, and for what follows where there is none, two blanks behind what stands there.
fn go_on(column: &mut usize, text: &mut Text)
    ensures { GrowsBy InLine text.old text.new }
{
    fill(text, *column);
    *column = 0;
}

fn put_instance_of(survey: &Survey, offer: Offer, column: &mut usize, text: &mut Text)
    ensures { GrowsBy InLine text.old text.new }
{
    match survey.comp(offer.comp) {
        Some(at) if !at.path.is_empty() => {
            go_on(column, text);
            put_instance(text, at);
        }
        _ => {}
    }
}

fn put_comp_name(survey: &Survey, offer: Offer, column: &mut usize, text: &mut Text)
    ensures { GrowsBy InLine text.old text.new }
{
    if let Some(name) = survey.comp_name(offer.comp) {
        go_on(column, text);
        put_name(text, name);
    }
}

fn put_comp_source(survey: &Survey, offer: Offer, column: &mut usize, text: &mut Text)
    ensures { GrowsBy InLine text.old text.new }
{
    if let Some(at) = survey.comp_source(offer.comp) {
        go_on(column, text);
        text.put("(");
        put_source(text, at);
        text.put(")");
    }
}

fn put_chan_name(survey: &Survey, offer: Offer, column: &mut usize, text: &mut Text)
    ensures { GrowsBy InLine text.old text.new }
{
    if let Some(name) = survey.chan_name(offer.chan) {
        go_on(column, text);
        text.put("on ");
        put_name(text, name);
    }
}

fn put_words(net: &Core, words: &[HostOffer], text: &mut Text)
    ensures { GrowsBy (InTurn (IsWordLine net.now.wiring) words.now) text.old text.new }
{
    for word in words {
        put_word(net, *word, text);
    }
}

// A word of the host, with its port and the phase there.
fn put_word(net: &Core, word: HostOffer, text: &mut Text)
    ensures { GrowsBy (IsWordLine net.now.wiring word) text.old text.new }
{
    put_word_alone(net, word, text);
    fill(text, 28);
    put_port_state(net, word.port, text);
    text.put("\n");
}

fn put_word_alone(net: &Core, word: HostOffer, text: &mut Text)
    ensures { Grows text.old text.new (host_word net.now.wiring word.verb word.port) }
{
    let has_value = word.verb.wants_value(chan_of(net, word.port).kind);
    put_host_word(text, word.verb, port_name(net, word.port), has_value);
}

fn put_port_state(net: &Core, port: u32, text: &mut Text)
    ensures { GrowsBy InLine text.old text.new }
{
    let chan = chan_of(net, port);
    let (phase, value) = net.phase(port).parts();
    put_in_line(
        text,
        &[
            Piece::Bytes(b"port "),
            Piece::Number(port.into()),
            Piece::Bytes(b" "),
            Piece::Name(chan.kind.word().as_bytes()),
            Piece::Value(width_of(chan)),
            Piece::Bytes(b", "),
            Piece::Name(phase.as_bytes()),
            Piece::Value(value),
        ],
    );
}

// The width of a channel that carries values.
fn width_of(chan: Chan) -> Option<Value> {
    match chan.kind {
        ChanKind::Sync => None,
        ChanKind::Push | ChanKind::Pull => Some(chan.width.into()),
    }
}

fn put_end(count: usize, text: &mut Text)
    ensures { Grows text.old text.new (end_line count) }
{
    if count == 0 {
        text.put("no component can move\n");
    } else {
        text.put_count(count, "move");
        text.put("\n");
    }
}
