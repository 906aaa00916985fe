//! The refusal of a net as a fault.

ghost use Rattle.std.specs.Prelude.{◌≡◌, ◌⊎◌, ℕ};
ghost use Rattle.std.specs.declared.alloc.Global.{Global};
ghost use Rattle.std.specs.declared.vec.Vec.{Vec};
ghost use Rattle.bz_cli_input.specs.declared.fault.Fault.{Fault};
ghost use Rattle.bz_cli_input.specs.Opening.{name_told, part_in};

use crate::fault::Fault;
use bz_breeze_records::Part;
use bz_flat::ElabError;
use std::alloc::Global;

/// The refusal of the net of a part as a fault, with the name of the part that it is in, or else the one that was to be opened.
pub fn in_part(alloc: Global, parts: &[Part], opened: &[u8], error: ElabError) -> Fault
    ensures { (result ≡ Fault.Memory)
        ⊎ ((name : Vec ℕ Global) × (result ≡ Fault.Net error name) × (name.items ≡ name_told parts.now opened.now error)) }
{
    match Vec::from_slice(alloc, name_told(parts, opened, error)) {
        Ok(part) => Fault::Net { error, part },
        Err(_) => Fault::Memory,
    }
}

fn name_told<'a>(parts: &'a [Part], opened: &'a [u8], error: ElabError) -> &'a [u8]
    ensures { result.now ≡ name_told parts.now opened.now error }
{
    let Some(number) = part_of(error) else {
        return opened;
    };
    match parts.get(number) {
        Some(part) => part.name.as_slice(),
        None => opened,
    }
}

// The number of the part that a refusal is in, where it is in one.
fn part_of(error: ElabError) -> Option<usize>
    ensures { result ≡ part_in error }
{
    match error {
        ElabError::Recursive(part)
        | ElabError::UnknownComponent(part, _)
        | ElabError::BadParameter(part, _)
        | ElabError::PortCount(part, _)
        | ElabError::BadChannel(part, _)
        | ElabError::KindMismatch(part, _)
        | ElabError::WidthMismatch(part, _) => Some(part),
        _ => None,
    }
}
