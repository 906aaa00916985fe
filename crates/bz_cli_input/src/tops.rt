//! The parts of a netlist that no other part uses.

ghost use Rattle.std.specs.Prelude.{◌≡◌, ◌++◌, ◌∷◌, [], IfOk, false, length, map, replicate};
ghost use Rattle.bz_cli_input.specs.Choosing.{tops};
ghost use Rattle.bz_cli_input.specs.Marking.{Marks};
ghost use Rattle.bz_cli_input.specs.Uses.{is_used_by_other};

use crate::uses::used_by_others;
use bz_breeze_records::{Part, Parts};
use std::alloc::{AllocError, Global};

/// Their names, in the order of the text.
pub(crate) fn tops_of(alloc: Global, parts: &Parts) -> Result<Vec<Vec<u8>>, AllocError>
    ensures { IfOk result (λ names. map (λ name. name.items) names.items ≡ tops parts.now) }
{
    let used = used_by_others(alloc, parts)?;
    unused_names(alloc, parts.list(), used.as_slice())
}

// The names of the parts without a mark.
fn unused_names(alloc: Global, parts: &[Part], used: &[bool]) -> Result<Vec<Vec<u8>>, AllocError>
    requires { Marks (replicate (length parts.now) false) used.now (is_used_by_other parts.now) }
    ensures { IfOk result (λ names. map (λ name. name.items) names.items ≡ tops parts.now) }
{
    let mut names = Vec::new(alloc);
    for (number, part) in parts.iter().enumerate() {
        if !used[number] {
            push_name(alloc, &mut names, part.name.as_slice())?;
        }
    }
    Ok(names)
}

// Adds a name.
fn push_name(alloc: Global, names: &mut Vec<Vec<u8>>, name: &[u8]) -> Result<(), AllocError>
    ensures { IfOk result (λ u. map (λ n. n.items) names.new.items ≡ map (λ n. n.items) names.old.items ++ name.now ∷ []) }
{
    let name = Vec::from_slice(alloc, name)?;
    names.push(name)?;
    Ok(())
}
