//! A journal made again from the opening.

ghost use Rattle.std.specs.Prelude.{◌≡◌, ◌<◌, ◌≤◌, length, OnOk, IfOk, IfErr};
ghost use Rattle.bz_net.specs.Replies.{RefusesEntry};
ghost use Rattle.bz_explore_net.specs.Replaying.{CanFollow, IsReplayed, IsRun, Repeats};

use bz_flat::Flat;
use bz_model::{Entry, NetError};
use bz_net::{Net, RestReply};
use std::alloc::Global;

/// The net that these entries lead to from the opening of a flat net, with room for `limit` of them. Only memory can be
/// wanting.
pub fn replay(alloc: Global, flat: &Flat, entries: &[Entry], limit: u32) -> Result<Net, NetError>
    requires least { 0 < limit }
    requires most { limit ≤ 16777216 }
    requires run { IsRun flat.now.wiring entries.now }
    requires within { length entries.now ≤ limit }
    ensures ok { IfOk result (IsReplayed flat.now.wiring entries.now limit) }
    ensures err { IfErr result (λ e. e ≡ NetError.Memory) }
{
    let Ok(flat) = flat.dup(alloc) else {
        return Err(NetError::Memory);
    };
    let mut net = Net::open(alloc, flat, limit)?;
    for entry in entries {
        repeat(&mut net, *entry)?;
    }
    Ok(net)
}

// Makes the event that gives this entry.
fn repeat(net: &mut Net, entry: Entry) -> Result<(), NetError>
    requires { CanFollow net.old entry }
    ensures ok { OnOk result (Repeats net.old entry net.new) }
    ensures err { IfErr result (RefusesEntry net.old) }
{
    match entry {
        Entry::Fired {
            who,
            comp,
            port,
            ..
        } => match net.fire_move(who, comp, port) {
            Ok(_) => Ok(()),
            Err(error) => Err(error),
        },
        Entry::Host {
            who,
            verb,
            port,
            value,
            ..
        } => match net.host_at(who, verb, port, value) {
            Ok(_) => Ok(()),
            Err(error) => Err(error),
        },
        Entry::Rested { who } => match net.rest(who) {
            Ok(RestReply::Rest) => Ok(()),
            Ok(RestReply::Ready(_)) => Ok(()),
            Err(error) => Err(error),
        },
    }
}
