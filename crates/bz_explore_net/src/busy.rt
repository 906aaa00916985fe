//! The channels that are not idle.

ghost use Rattle.std.specs.Prelude.{◌≡◌, ◌<◌, ◌≤◌, ◌-◌, length, IfOk};
ghost use Rattle.bz_explore_net.specs.Waiting.{AreBusy};

use bz_flat::Flat;
use bz_model::Phase;
use bz_net::Net;
use std::alloc::{AllocError, Global};

/// The channels on which a handshake is under way, in order; the net is one of the flat net.
pub fn busy_chans(alloc: Global, flat: &Flat, net: &Net) -> Result<Vec<u32>, AllocError>
    requires { net.now.wiring ≡ flat.now.wiring }
    ensures { IfOk result (λ v. AreBusy net.now.state (length net.now.wiring.chans) v.items) }
{
    let mut busy = Vec::new(alloc);
    for place in 0..flat.chan_count() {
        add_chan(net, place + 1, &mut busy)?;
    }
    Ok(busy)
}

// One channel more, where it is not idle.
fn add_chan(net: &Net, chan: u32, busy: &mut Vec<u32>) -> Result<(), AllocError>
    requires from { 0 < chan }
    requires to { chan ≤ length net.now.wiring.chans }
    requires before { AreBusy net.now.state (chan - 1) busy.old.items }
    ensures { IfOk result (λ _. AreBusy net.now.state chan busy.new.items) }
{
    match net.phase(chan) {
        Phase::Idle => Ok(()),
        _ => {
            busy.push(chan)?;
            Ok(())
        }
    }
}
