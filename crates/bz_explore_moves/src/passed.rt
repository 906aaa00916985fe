//! What passed at the ports.

ghost use Rattle.std.specs.Prelude.{◌≡◌, IfNone, IfSome, slice_get};
ghost use Rattle.std.specs.List.{flat_map};
ghost use Rattle.bz_bench.specs.Streams.{passed, passed_on};
ghost use Rattle.bz_bench.specs.Tallies.{IsTally};
ghost use Rattle.bz_text.specs.Growing.{Grows};
ghost use Rattle.bz_explore_moves.specs.Passing.{DiffersFirst, IsAsWanted, came_text, passed_line};

use bz_bench::{Item, Tally, fits};
use bz_model::{Chan, ChanKind, Value};
use bz_net::Net;
use bz_text::{Piece, Text};
use bz_view::{port_name, put_typed};

/// Adds a port, and what passed there, of which this is the tally.
pub fn put_passed(net: &Net, port: u32, tally: &Tally, text: &mut Text)
    requires { IsTally port net.now.journal tally.now }
    ensures { Grows text.old text.new (passed_line net.now.wiring port net.now.journal) }
{
    put_typed(text, port_name(net.core(), port));
    text.put(":");
    put_all(passed_at(net, port, tally), text);
    text.put("\n");
}

fn put_all(passed: &[Option<Value>], text: &mut Text)
    ensures { Grows text.old text.new (flat_map came_text passed.now) }
{
    for came in passed {
        put_came(*came, text);
    }
}

/// Adds what came with a handshake.
pub fn put_came(came: Option<Value>, text: &mut Text)
    ensures { Grows text.old text.new (came_text came) }
{
    match came {
        Some(value) => text.put_pieces(&[Piece::Bytes(b" "), Piece::Number(value)]),
        None => text.put(" ."),
    }
}

/// What passed at a port, of which this is the tally.
#[tactic(auto, using(crate::proofs::Wanted::passed_is))]
pub fn passed_at<'t>(net: &Net, port: u32, tally: &'t Tally) -> &'t [Option<Value>]
    requires { IsTally port net.now.journal tally.now }
    ensures { result.now ≡ passed net.now.wiring port net.now.journal }
{
    passed_on(net.names().chan(port), tally)
}

// On a pull channel values go with the ends of handshakes.
fn passed_on(chan: Option<Chan>, tally: &Tally) -> &[Option<Value>]
    ensures { result.now ≡ passed_on chan tally.now.begun.items tally.now.ended.items }
{
    match chan {
        None => &[],
        Some(chan) => match chan.kind {
            ChanKind::Pull => tally.ended.as_slice(),
            ChanKind::Sync | ChanKind::Push => tally.begun.as_slice(),
        },
    }
}

/// The place of the first handshake that is not as its item wants it, or that there is not though one is wanted.
#[tactic(auto, using(crate::proofs::Wanted::wanted_none, crate::proofs::Wanted::wanted_more, crate::proofs::Wanted::wanted_all, crate::proofs::Wanted::another_came, crate::proofs::Wanted::none_came))]
pub fn first_other(passed: &[Option<Value>], items: &[Item]) -> Option<usize>
    ensures none { IfNone result (IsAsWanted items.now passed.now) }
    ensures some { IfSome result (DiffersFirst items.now passed.now) }
{
    for (place, came) in passed.iter().enumerate() {
        if !fits(item_at(items, place), *came) {
            return Some(place);
        }
    }
    let count = passed.len();
    if count < items.len() {
        Some(count)
    } else {
        None
    }
}

fn item_at(items: &[Item], place: usize) -> Option<Item>
    ensures { result ≡ slice_get items.now place }
{
    match items.get(place) {
        Some(item) => Some(*item),
        None => None,
    }
}
