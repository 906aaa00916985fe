//! The components of a part's net, whatever the ends of its channels, and all that is wrong with these.

ghost use Rattle.std.specs.Prelude.{◌≡◌, ◌⊎◌, IfOk, IfErr};
ghost use Rattle.std.specs.List.{All, AllPairs, Contains};
ghost use Rattle.bz_flat.specs.declared.error.ElabError.{ElabError};
ghost use Rattle.bz_flat.specs.declared.error.ElabError.TheVariants.{Memory};
ghost use Rattle.bz_elab.specs.EndFaults.{IsOfEnds, Sooner};
ghost use Rattle.bz_elab.specs.Growth.{AreComponents};
ghost use Rattle.bz_elab.specs.Order.{Refuses};
ghost use Rattle.bz_elab.specs.Refusals.{Applies};

use crate::check::check;
use crate::ends::end_faults;
use crate::walk::{find, net_of};
use bz_arena::Arena;
use bz_breeze_records::Parts;
use bz_flat::{ElabError, FlatComp};
use std::alloc::Global;

/// The components of a net, and all that is wrong with the ends of its channels, in the order of refusals.
#[derive(Drop)]
pub struct Unwired {
    pub comps: Arena<FlatComp>,
    pub faults: Vec<ElabError>,
}

/// The components of the net of the first part of that name, and what is wrong with the ends of its channels. A part that is
/// refused for these alone has them too.
pub fn unwired_net(alloc: Global, parts: &Parts, top: &[u8]) -> Result<Unwired, ElabError>
    ensures comps { IfOk result (λ u. AreComponents parts.now top.now u.comps) }
    ensures faults { IfOk result (λ u. All (Applies parts.now top.now) u.faults.items) }
    ensures all { IfOk result (λ u. (e : ElabError) → IsOfEnds e → Applies parts.now top.now e → Contains u.faults.items e) }
    ensures order { IfOk result (λ u. AllPairs Sooner u.faults.items) }
    ensures err { IfErr result (λ e. (e ≡ Memory) ⊎ Refuses parts.now top.now e) }
{
    let Some(number) = find(parts, top) else {
        return Err(ElabError::NoPart);
    };
    let part = &parts.list()[number];
    let read = check(alloc, parts, number, part)?;
    let draft = net_of(alloc, parts, read, number, part)?;
    let faults = end_faults(
        alloc,
        &draft.comps,
        part.ports.as_slice(),
        draft.chans.len() as u32,
    )?;
    Ok(Unwired {
        comps: draft.comps,
        faults,
    })
}
