//! The search by halving, between two places of a list of entries.

ghost use Rattle.std.specs.Prelude.{◌≡◌, ◌+◌, ◌-◌, ◌<◌, ◌≤◌, IfOk, MatchBool, OnOk, length};
ghost use Rattle.bz_since.specs.Halving.{IsBetween, LeadsOn};
ghost use Rattle.bz_since.specs.Since.{HasStuck};

use crate::following::play;
use crate::since::NoSince;
use bz_model::Entry;
use bz_net::{Core, Net};
use bz_waits::Stuck;
use std::alloc::{AllocError, Global};

/// Two places of a list of entries. Behind the entries before the first one nothing is stuck. Behind those before the second one
/// something is, or it is one past the end.
pub(crate) struct Bounds {
    /// The net behind the entries before the first place.
    pub low: Net,
    pub from: usize,
    pub to: usize,
}

// By hand, so that who lets one go has one call to show and not all its parts.
impl Drop for Bounds {
    fn drop(self) {
        let Bounds {
            low: _,
            from: _,
            to: _,
        } = self;
    }
}

impl Bounds {
    /// The net behind the entries before the first place.
    pub fn into_low(self) -> Net
        ensures { result ≡ self.low }
    {
        let Bounds {
            low,
            from: _,
            to: _,
        } = self;
        low
    }
}

/// Looks half-way between the bounds, and brings one of them there. Of the nets only the lower one is kept: of a large net no more
/// than two are held at once.
pub(crate) fn halve(alloc: Global, entries: &[Entry], bounds: &mut Bounds) -> Result<(), NoSince>
    requires between { IsBetween entries.now bounds.old }
    requires apart { bounds.old.from + 1 < bounds.old.to }
    ensures between { OnOk result (IsBetween entries.now bounds.new) }
    ensures wiring { OnOk result (bounds.new.low.wiring ≡ bounds.old.low.wiring) }
    ensures closer { OnOk result (bounds.new.to - bounds.new.from < bounds.old.to - bounds.old.from) }
{
    let half = bounds.from + (bounds.to - bounds.from) / 2;
    let net = played(alloc, &bounds.low, entries, bounds.from, half)?;
    if has_stuck(alloc, net.core())? {
        bounds.to = half;
        return Ok(());
    }
    bounds.low = net;
    bounds.from = half;
    Ok(())
}

// A net that goes on from where this one is, by the entries from one place to another.
fn played(
    alloc: Global,
    net: &Net,
    entries: &[Entry],
    from: usize,
    to: usize,
) -> Result<Net, NoSince>
    requires ordered { from ≤ to }
    requires within { to ≤ length entries.now }
    ensures { IfOk result (LeadsOn entries.now from to net.now) }
{
    let mut net = net.dup(alloc)?;
    play(&mut net, entries, from, to)?;
    Ok(net)
}

/// Whether something can never move again.
pub(crate) fn has_stuck(alloc: Global, core: &Core) -> Result<bool, AllocError>
    ensures { IfOk result (λ is. MatchBool is (HasStuck core.now.wiring core.now.state)
        (HasStuck core.now.wiring core.now.state → ⊥)) }
{
    let set = Stuck::of(alloc, core)?;
    Ok(set.len() > 0)
}
