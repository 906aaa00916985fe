//! Which components of a text are instances, told once for all copies of their part.

ghost use Rattle.std.specs.Prelude.{◌≡◌, IfOk};
ghost use Rattle.bz_elab.specs.Numbers.{number_named};
ghost use Rattle.bz_source.specs.Inner.{AreInner, inner_of};

use bz_breeze_records::{Part, Parts};
use std::alloc::{AllocError, Global};

/// The number of the part of a name, counted from 0.
pub(crate) fn number_of(parts: &Parts, name: &[u8]) -> Option<usize>
    ensures { result ≡ number_named parts.now name.now }
{
    parts.number(name)
}

/// For each component of each part the number of the part that it is an instance of, if it is one.
pub(crate) fn inner_numbers(
    alloc: Global,
    parts: &Parts,
) -> Result<Vec<Vec<Option<usize>>>, AllocError>
    ensures { IfOk result (λ v. AreInner parts.now v.items) }
{
    let mut inner = Vec::new(alloc);
    let list = parts.list();
    for part in list {
        inner.push(inner_of(alloc, parts, part)?)?;
    }
    Ok(inner)
}

fn inner_of(alloc: Global, parts: &Parts, part: &Part) -> Result<Vec<Option<usize>>, AllocError>
    ensures { IfOk result (λ v. v.items ≡ inner_of parts.now part.now) }
{
    let mut inner = Vec::new(alloc);
    for component in &part.components {
        inner.push(number_of(parts, component.name.as_slice()))?;
    }
    Ok(inner)
}
