//! Which parts of a netlist have instances in others.
//!
//! A part that uses itself alone is on top, and is refused for that (E2); `parts` doesn't mark it `top`.

ghost use Rattle.std.specs.Prelude.{◌≡◌, ◌<◌, IfOk, false, length, replicate};
ghost use Rattle.bz_cli_input.specs.Marking.{Marks};
ghost use Rattle.bz_cli_input.specs.Uses.{has_instance_of, is_instance_of, is_used_by_other, uses_other};

use bz_breeze_records::{Component, Part, Parts};
use std::alloc::{AllocError, Global};

/// For each part whether another one has an instance of it.
pub fn used_by_others(alloc: Global, parts: &Parts) -> Result<Vec<bool>, AllocError>
    ensures { IfOk result (λ v. Marks (replicate (length parts.now) false) v.items (is_used_by_other parts.now)) }
{
    let mut used = vec![in alloc; false; parts.list().len()]?;
    mark_all(parts, &mut used);
    Ok(used)
}

// Marks those that another part has an instance of.
fn mark_all(parts: &Parts, used: &mut [bool])
    requires { length used.now ≡ length parts.now }
    ensures { Marks used.old used.new (is_used_by_other parts.now) }
{
    for (user, part) in parts.list().iter().enumerate() {
        mark_others(parts, user, part, used);
    }
}

// Marks those that a part has an instance of, but not itself.
fn mark_others(parts: &Parts, user: usize, part: &Part, used: &mut [bool])
    requires { user < length used.now }
    ensures { Marks used.old used.new (λ n. uses_other parts.now n (user, part.now)) }
{
    let own = used[user];
    mark_used(parts, part, used);
    used[user] = own;
}

/// Marks those that a part has an instance of.
pub fn mark_used(parts: &Parts, part: &Part, used: &mut [bool])
    ensures { Marks used.old used.new (λ n. has_instance_of parts.now n part.now) }
{
    for component in &part.components {
        mark_part(parts, component, used);
    }
}

// Marks the one that a component is an instance of, if it is one.
fn mark_part(parts: &Parts, component: &Component, used: &mut [bool])
    ensures { Marks used.old used.new (λ n. is_instance_of parts.now n component.now) }
{
    if let Some(number) = parts.number(component.name.as_slice()) {
        if number < used.len() {
            used[number] = true;
        }
    }
}
