//! The flat net of a part, by its name.

ghost use Rattle.std.specs.Prelude.{◌≡◌, ◌⊎◌, IfOk, IfErr};
ghost use Rattle.bz_flat.specs.declared.error.ElabError.{ElabError};
ghost use Rattle.bz_flat.specs.declared.error.ElabError.TheVariants.{Memory};
ghost use Rattle.bz_elab.specs.Order.{Refuses};
ghost use Rattle.bz_elab.specs.Refusals.{Applies, Elaborated};

use crate::check::check;
use crate::ends::wire;
use crate::walk::{find, net_of};
use bz_breeze_records::Parts;
use bz_flat::{ElabError, Flat, Pieces};
use bz_model::dup_ports;
use std::alloc::Global;

/// The flat net of the first part of that name: its components and those of all instances, each instance a copy of its
/// part of its own.
pub fn elaborate(alloc: Global, parts: &Parts, top: &[u8]) -> Result<Flat, ElabError>
    ensures ok { IfOk result (λ flat. Elaborated parts.now top.now flat.wiring) }
    ensures fit { IfOk result (λ flat. (e : ElabError) → Applies parts.now top.now e → ⊥) }
    ensures err { IfErr result (λ e. (e ≡ Memory) ⊎ Refuses parts.now top.now e) }
{
    let Some(number) = find(parts, top) else {
        return Err(ElabError::NoPart);
    };
    let part = &parts.list()[number];
    let read = check(alloc, parts, number, part)?;
    let draft = net_of(alloc, parts, read, number, part)?;
    let ends = wire(
        alloc,
        &draft.comps,
        part.ports.as_slice(),
        draft.chans.len() as u32,
    )?;
    let ports = dup_ports(alloc, part.ports.as_slice())?;
    Ok(Flat::of(Pieces {
        chans: draft.chans,
        comps: draft.comps,
        ports,
        ends,
    }))
}
