//! A short trace made whole on a net.

ghost use Rattle.std.specs.Prelude.{◌≡◌, ◌<◌, ◌≤◌, ◌∷◌, [], None, false, length, IfOk, IfSome, if◌then◌else◌};
ghost use Rattle.bz_complete.specs.Completing.{Gains, GainsUpTo, IsCompleted};
ghost use Rattle.bz_complete.specs.Stopping.{IsDeadEndAt, IsQuiet, IsRefuted, IsStop, IsStopAt, replies};
ghost use Rattle.bz_flat.specs.Wires.{IsEnd};

use crate::guide::Guide;
use crate::making::{Maker, hosts, maker_of, notices, sends};
use crate::pending::Way;
use crate::refusing::{first_open, refuse, refuse_nobody};
use crate::short::ShortMove;
use bz_flat::Flat;
use bz_model::NetError;
use bz_net::Net;
use std::alloc::Global;

/// The most entries of a trace.
const MOST: u32 = 16_777_216;

/// A net on which a short trace was made whole.
pub struct Completed {
    pub net: Net,
    /// The line of the first move, from 1, that could not be made.
    pub stop: Option<usize>,
}

// By hand, so that who lets one go has one call to show and not all its parts.
impl Drop for Completed {
    fn drop(self) {
        let Completed { net: _, stop: _ } = self;
    }
}

impl Completed {
    /// The net.
    pub fn into_net(self) -> Net
        ensures { result ≡ self.net }
    {
        let Completed { net, stop: _ } = self;
        net
    }
}

/// Makes the moves on the net at its opening, each behind the takes and gots that its component must have made by then. An
/// error is a want of memory, or that there would be more entries than a trace may have.
pub(crate) fn complete(
    alloc: Global,
    flat: Flat,
    moves: &[ShortMove],
) -> Result<Completed, NetError>
    ensures completed { IfOk result (IsCompleted flat.wiring moves.now) }
    ensures dead { IfOk result (λ c. IfSome c.stop (IsDeadEndAt c.net.wiring c.net.state moves.now)) }
    ensures refuted { IfOk result (λ c. IfSome c.stop (IsRefuted flat.wiring moves.now)) }
{
    let mut net = Net::open(alloc, flat, MOST)?;
    let Ok(mut guide) = Guide::of(alloc, &net, moves) else {
        return Err(NetError::Memory);
    };
    match play(alloc, &mut net, &mut guide, moves) {
        Ok(stop) => Ok(Completed { net, stop }),
        Err(error) => Err(error),
    }
}

// Makes the moves in turn: the line, from 1, of the first that can't be made, if there is one.
fn play(
    alloc: Global,
    net: &mut Net,
    guide: &mut Guide,
    moves: &[ShortMove],
) -> Result<Option<usize>, NetError>
    ensures gains { IfOk result (GainsUpTo net.old net.new moves.now) }
    ensures stop { IfOk result (λ stop. IfSome stop (IsStopAt net.new moves.now)) }
{
    for (place, due) in moves.iter().enumerate() {
        if !makes(alloc, net, guide, *due)? {
            return Ok(Some(place + 1));
        }
    }
    Ok(None)
}

// Makes a move. Whether it can be made.
fn makes(alloc: Global, net: &mut Net, guide: &mut Guide, due: ShortMove) -> Result<bool, NetError>
    ensures gains { IfOk result (λ is. Gains net.old net.new (if is then due ∷ [] else [])) }
    ensures stop { IfOk result (λ is. is ≡ false → IsStop net.new due) }
{
    match maker_of(&*net, due) {
        Maker::Comp { comp, port } => {
            let way = Way { comp, port, due };
            let made = reaches(alloc, net, &*guide, way);
            guide.pass(&*net, comp, port, due.sent);
            made
        }
        Maker::Host => hosts(net, due),
        Maker::Nobody => refuse_nobody(&*net, due),
    }
}

// Makes the move of a component that is due, and before it each take and got that it must have made by then. Where the component
// has no more of these to make, the net stops before that move.
#[tactic(auto, using(crate::proofs::Gaining::gains_none, crate::proofs::Gaining::gains_then, crate::proofs::Refusals::end_still, crate::proofs::Refusals::comp_from, crate::proofs::Refusals::comp_to))]
fn reaches(alloc: Global, net: &mut Net, guide: &Guide, way: Way) -> Result<bool, NetError>
    requires end { IsEnd net.old.wiring.sites way.due.chan (replies way.due.sent) way.comp way.port }
    ensures gains { IfOk result (λ is. Gains net.old net.new (if is then way.due ∷ [] else [])) }
    ensures stop { IfOk result (λ is. is ≡ false → IsStop net.new way.due) }
{
    let mut from = way.port.saturating_sub(1).max(1);
    for _ in 0..u32::MAX {
        if sends(net, way.comp, way.port, way.due)? {
            return Ok(true);
        }
        let Some(port) = next_open(&*net, guide, way, from) else {
            return refuse(alloc, &*net, way);
        };
        if !notices(net, way.comp, port)? {
            return Err(NetError::NotEnabled);
        }
        from = port.saturating_add(1);
    }
    Err(NetError::JournalFull)
}

// The port of the take or got that a component makes next, if it can make any.
fn next_open(net: &Net, guide: &Guide, way: Way, from: u32) -> Option<u32>
    requires comp_from { 0 < way.comp }
    requires comp_to { way.comp ≤ length net.now.wiring.sites }
    ensures { result ≡ None → IsQuiet net.now.wiring.sites net.now.state way.comp }
{
    match way.next(net, guide, from) {
        Some(port) => Some(port),
        None => first_open(net, way.comp),
    }
}
