//! The components that can move, kept as a net goes on: so one of them is picked without a walk over all.

ghost use Rattle.std.specs.Prelude.{◌≡◌, ◌<◌, length, IfOk, IfSome};
ghost use Rattle.bz_model.specs.Nets.{State};
ghost use Rattle.bz_model.specs.Runs.{Follows};
ghost use Rattle.bz_net.specs.Keeping.{MarksReady};
ghost use Rattle.bz_explore_net.specs.Movers.{LooksAt, chan_of};

use crate::counted::CountedRow;
use bz_model::Entry;
use bz_net::Net;
use std::alloc::{AllocError, Global};

/// Marks the components that can move.
pub(crate) fn movers_of(alloc: Global, net: &Net) -> Result<CountedRow, AllocError>
    ensures { IfOk result (MarksReady net.now.wiring net.now.state) }
{
    let count = net.core().comp_count();
    let mut movers = CountedRow::new(alloc, count as usize + 1)?;
    for place in 0..count {
        look_at(net, Some(place + 1), &mut movers);
    }
    Ok(movers)
}

/// Looks again at the components that the last entry may have stopped or let move.
pub(crate) fn look_behind(net: &Net, entry: Entry, movers: &mut CountedRow)
    requires { (s : State) × Follows net.now.wiring s entry net.now.state × MarksReady net.now.wiring s movers.old }
    ensures { MarksReady net.now.wiring net.now.state movers.new }
{
    // the wiring tells that what stands at an end is a component
    let _ = net.names();
    if let Some(chan) = chan_of(entry) {
        let [active, passive] = net.ends(chan);
        look_at(net, active, movers);
        look_at(net, passive, movers);
    }
}

/// The channel on which an entry moves something: the external port, where a host does.
pub fn chan_of(entry: Entry) -> Option<u32>
    ensures { result ≡ chan_of entry }
{
    match entry {
        Entry::Fired { chan, .. } => Some(chan),
        Entry::Host { port, .. } => Some(port),
        Entry::Rested { .. } => None,
    }
}

// Looks whether a component can move, where there is one.
fn look_at(net: &Net, comp: Option<u32>, movers: &mut CountedRow)
    requires { IfSome comp (λ c. c < length movers.old) }
    ensures { LooksAt net.now.wiring.sites net.now.state comp movers.old movers.new }
{
    if let Some(comp) = comp {
        movers.set(comp as usize, net.is_ready(comp));
    }
}
