//! What can come next as members of objects of JSON. Values are strings, since they have up to 128 bits.

ghost use Rattle.std.specs.Prelude.{IfSome};
ghost use Rattle.bz_text.specs.Growing.{Grows, GrowsBy};
ghost use Rattle.bz_explore_moves.specs.Objects.{IsNext, flag_text, listed, move_members, move_object, next_members, value_member, word_members, word_object};

use bz_explore_net::{HostOffer, Offer, answered_words, offers_of};
use bz_model::Value;
use bz_net::Core;
use bz_text::{Piece, Text};
use bz_view::{chan_of, gathered, kind_of, port_name, put_typed_json};

/// Adds a member with each move that a component can make, and one with each word of the host that would be answered.
pub fn put_next(net: &Core, text: &mut Text)
    // What is told of a state is exactly what can come next in it, where no memory was wanting.
    ensures { IfSome text.new (λ _. GrowsBy (IsNext net.now.wiring net.now.state) text.old text.new) }
{
    let alloc = text.alloc();
    let moves = gathered(offers_of(alloc, net), text);
    let words = gathered(answered_words(alloc, net), text);
    let offers = moves.as_slice();
    put_members(net, offers, words.as_slice(), text);
}

fn put_members(net: &Core, offers: &[Offer], words: &[HostOffer], text: &mut Text)
    ensures { Grows text.old text.new (next_members net.now.wiring offers.now words.now) }
{
    text.put(", \"moves\": [");
    put_move_objects(net, offers, text);
    text.put("], \"words\": [");
    put_word_objects(net, words, text);
    text.put("]");
}

/// Adds an object for each move, with a comma between.
#[tactic(auto, using(bz_text::proofs::Said::grows_nothing))]
pub fn put_move_objects(net: &Core, offers: &[Offer], text: &mut Text)
    ensures { Grows text.old text.new (listed (move_object net.now.wiring.sites) offers.now) }
{
    if let [first, rest @ ..] = offers {
        put_move_object(net, *first, text);
        for offer in rest {
            text.put(", ");
            put_move_object(net, *offer, text);
        }
    }
}

fn put_move_object(net: &Core, offer: Offer, text: &mut Text)
    ensures { Grows text.old text.new (move_object net.now.wiring.sites offer) }
{
    text.put("{");
    put_move_members(net, offer, text);
    text.put("}");
}

/// Adds the members of a move.
pub fn put_move_members(net: &Core, offer: Offer, text: &mut Text)
    ensures { Grows text.old text.new (move_members net.now.wiring.sites offer) }
{
    text.put_pieces(&[
        Piece::Bytes(b"\"component\": "),
        Piece::Number(offer.comp as Value),
        Piece::Bytes(b", \"kind\": "),
        Piece::Json(kind_of(net, offer.comp)),
        Piece::Bytes(b", \"port\": "),
        Piece::Number(offer.port as Value),
        Piece::Bytes(b", \"move\": "),
        Piece::Json(offer.mv.word().as_bytes()),
        Piece::Bytes(b", \"channel\": "),
        Piece::Number(offer.chan as Value),
    ]);
    put_value_member(offer.value, text);
}

/// Adds a value as a member behind others, where there is one.
#[tactic(auto, using(bz_text::proofs::Said::grows_nothing))]
pub fn put_value_member(value: Option<Value>, text: &mut Text)
    ensures { Grows text.old text.new (value_member value) }
{
    if let Some(value) = value {
        text.put_pieces(&[
            Piece::Bytes(b", \"value\": \""),
            Piece::Number(value),
            Piece::Bytes(b"\""),
        ]);
    }
}

#[tactic(auto, using(bz_text::proofs::Said::grows_nothing))]
fn put_word_objects(net: &Core, words: &[HostOffer], text: &mut Text)
    ensures { Grows text.old text.new (listed (word_object net.now.wiring) words.now) }
{
    if let [first, rest @ ..] = words {
        put_word_object(net, *first, text);
        for word in rest {
            text.put(", ");
            put_word_object(net, *word, text);
        }
    }
}

// A word of the host, and whether a value belongs to it.
fn put_word_object(net: &Core, word: HostOffer, text: &mut Text)
    ensures { Grows text.old text.new (word_object net.now.wiring word) }
{
    text.put("{");
    put_word_members(net, word, text);
    let has_value = word.verb.wants_value(chan_of(net, word.port).kind);
    text.put(", \"needs_value\": ");
    put_flag(has_value, text);
    text.put("}");
}

fn put_flag(flag: bool, text: &mut Text)
    ensures { Grows text.old text.new (flag_text flag) }
{
    text.put(if flag { "true" } else { "false" });
}

/// Adds the members of a word of the host: the word, and its port as it is typed.
pub fn put_word_members(net: &Core, word: HostOffer, text: &mut Text)
    ensures { Grows text.old text.new (word_members net.now.wiring word) }
{
    text.put_pieces(&[
        Piece::Bytes(b"\"word\": "),
        Piece::Json(word.verb.word().as_bytes()),
        Piece::Bytes(b", \"port\": "),
    ]);
    put_typed_json(text, port_name(net, word.port));
}
