//! The last takes and gots of a net.

ghost use Rattle.std.specs.Prelude.{◌≡◌, [], None, IfOk};
ghost use Rattle.bz_complete.specs.Completing.{Gains};
ghost use Rattle.bz_model.specs.Runs.{Rest};

use crate::making::notices;
use crate::pending::port_count;
use bz_model::{Move, NetError};
use bz_net::Net;

/// Makes takes and gots for as long as a component can make one. A component that can ask or reply then, if there is one; else
/// nothing can move.
#[tactic(auto, using(crate::proofs::Gaining::gains_none, crate::proofs::Gaining::gains_then))]
pub(crate) fn settle(net: &mut Net) -> Result<Option<u32>, NetError>
    ensures gains { IfOk result (λ _. Gains net.old net.new []) }
    ensures rests { IfOk result (λ due. due ≡ None → Rest net.new.wiring.sites net.new.state) }
{
    for _ in 0..u32::MAX {
        let Some(comp) = net.next_ready(1) else {
            return Ok(None);
        };
        let Some(port) = silent_port(&*net, comp) else {
            return Ok(Some(comp));
        };
        if !notices(net, comp, port)? {
            return Err(NetError::NotEnabled);
        }
    }
    Err(NetError::JournalFull)
}

// The first port at which a component can make a take or a got.
fn silent_port(net: &Net, comp: u32) -> Option<u32> {
    for place in 0..port_count(net.core().comp(comp)?) {
        let port = place.saturating_add(1);
        if let Some((_, Move::Take | Move::Got, _)) = net.foresee(comp, port) {
            return Some(port);
        }
    }
    None
}
