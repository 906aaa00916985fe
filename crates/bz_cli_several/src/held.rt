//! What is at hand from one trace to the next.

ghost use Rattle.std.specs.Prelude.{◌≡◌, None, [], IfErr, IfOk};
ghost use Rattle.bz_net.specs.Progress.{IsToldBy};
ghost use Rattle.bz_cli_input.specs.Opening.{RefusesNet};
ghost use Rattle.bz_cli_several.specs.Holding.{Holds, IsOf, asked_of};

use crate::covering::Exercise;
use crate::judging::Judge;
use bz_cli_input::Fault;
use bz_cli_trace::Opened;
use bz_net::Play;
use std::alloc::Global;

/// What is at hand from one trace to the next.
pub struct Held {
    /// The net where the last trace has left it, unless that one could not be read.
    pub net: Option<Play>,
    /// What is counted of the traces, where that is asked for.
    pub(crate) exercise: Option<Exercise>,
}

// By hand, so that who lets one go has one call to show and not all its parts.
impl Drop for Held {
    fn drop(self) {
        let Held {
            net: _,
            exercise: _,
        } = self;
    }
}

/// The net at its opening, for the next trace: the one that the trace before has left, or else one that is opened anew.
pub(crate) fn next_net(
    alloc: Global,
    judge: &Judge<'_, '_, '_>,
    held: &mut Held,
    limit: u32,
) -> Result<Play, Fault>
    requires { Holds (asked_of judge.now) held.old }
    ensures net { IfOk result (λ net. IsOf (asked_of judge.now) net.wiring) }
    ensures opened { IfOk result (λ net. IsToldBy net []) }
    ensures left { IfOk result (λ net. net.left ≡ limit) }
    ensures none { held.new.net ≡ None }
    ensures err { IfErr result (RefusesNet (asked_of judge.now).netlist (asked_of judge.now).part) }
{
    let net = match held.net.take() {
        Some(net) => net,
        None => opened(alloc, judge)?,
    };
    match net.reopen(alloc, limit) {
        Ok(net) => Ok(net),
        Err(_) => Err(Fault::Memory),
    }
}

/// The net of the netlist.
pub(crate) fn opened(alloc: Global, judge: &Judge<'_, '_, '_>) -> Result<Play, Fault>
    ensures ok { IfOk result (λ net. IsOf (asked_of judge.now) net.wiring) }
    ensures err { IfErr result (RefusesNet (asked_of judge.now).netlist (asked_of judge.now).part) }
{
    match Opened::of(alloc, judge.part, judge.netlist) {
        Ok(opened) => Ok(opened.into_parts().0),
        Err(fault) => Err(fault),
    }
}
