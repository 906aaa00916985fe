//! What is read of a component of a net.

ghost use Rattle.std.specs.Prelude.{◌≡◌, ◌<◌, ◌≤◌, length};
ghost use Rattle.bz_flat.specs.Flats.{site_of};
ghost use Rattle.bz_model.specs.Nets.{IsPort, chan_at, passive_at, site_at};
ghost use Rattle.bz_waits.specs.Waiting.{IsAtEnd};
ghost use Rattle.std.specs.Prelude.{not};

use bz_flat::FlatComp;
use bz_kind_rows::is_passive;
use bz_net::Core;

/// A component.
pub(crate) fn site(core: &Core, comp: u32) -> &FlatComp
    requires from { 0 < comp }
    requires to { comp ≤ length core.now.wiring.sites }
    ensures { site_of result.now ≡ site_at core.now.wiring.sites comp }
{
    match core.comp(comp) {
        Some(site) => site,
        None => unreachable!(),
    }
}

/// How many ports a component has.
pub(crate) fn port_count(core: &Core, comp: u32) -> u32
    requires from { 0 < comp }
    requires to { comp ≤ length core.now.wiring.sites }
    ensures { result ≡ length (site_at core.now.wiring.sites comp).chans }
{
    // the wiring tells that there are fewer than 2^32 at each component
    let _ = core.names();
    site(core, comp).chans.len() as u32
}

/// The channels at the ports of a component, in the order of the ports.
pub(crate) fn chans(core: &Core, comp: u32) -> &[u32]
    requires from { 0 < comp }
    requires to { comp ≤ length core.now.wiring.sites }
    ensures { result.now ≡ (site_at core.now.wiring.sites comp).chans }
{
    site(core, comp).chans.as_slice()
}

/// The channel at a port.
pub(crate) fn chan_at(core: &Core, comp: u32, port: u32) -> u32
    requires { IsPort core.now.wiring.sites comp port }
    ensures { result ≡ chan_at core.now.wiring.sites comp port }
{
    site(core, comp).chans[port as usize - 1]
}

/// Whether a port is the passive end of its channel.
pub(crate) fn is_passive_at(core: &Core, comp: u32, port: u32) -> bool
    requires { IsPort core.now.wiring.sites comp port }
    ensures { result ≡ passive_at core.now.wiring.sites comp port }
{
    let site = site(core, comp);
    is_passive(&site.kind, site.sizes, port)
}

/// The component at the other end of the channel at a port, 0 where none stands there.
pub(crate) fn other_end(core: &Core, comp: u32, port: u32) -> u32
    requires { IsPort core.now.wiring.sites comp port }
    ensures { IsAtEnd core.now.wiring.sites (chan_at core.now.wiring.sites comp port)
        (not (passive_at core.now.wiring.sites comp port)) result }
{
    // the wiring tells that the channel is one of the net's
    let _ = core.names();
    let [active, passive] = core.ends(chan_at(core, comp, port));
    if is_passive_at(core, comp, port) {
        active.unwrap_or(0)
    } else {
        passive.unwrap_or(0)
    }
}
