//! The place of a record.

ghost use Rattle.std.specs.Prelude.{◌≡◌, ◌++◌, ◌∷◌, [], IfOk};
ghost use Rattle.bz_source.specs.Found.{record_at};
ghost use Rattle.bz_source.specs.Views.{path_at_of};

use std::alloc::{AllocError, Global};

/// Where a component, a channel or an instance of a net stands.
#[derive(PartialEq, Eq, Drop)]
pub struct PathAt {
    /// The number of the part whose text it is in, counted from 0 in the order of the text.
    pub part: usize,
    /// Its position among that part's components or channels, counted from 1.
    pub position: usize,
    /// The positions of the instances that it is in, from the top on.
    pub path: Vec<usize>,
}

/// What the walk meets.
#[derive(Drop)]
pub(crate) enum Find {
    Channel(PathAt),
    Component(PathAt),
    Instance(PathAt),
}

/// The place of a record of the copy at this path.
pub(crate) fn place_at(
    alloc: Global,
    part: usize,
    path: &[usize],
    position: usize,
) -> Result<PathAt, AllocError>
    ensures { IfOk result (λ p. path_at_of p ≡ record_at part path.now position) }
{
    let path = Vec::from_slice(alloc, path)?;
    Ok(PathAt {
        part,
        position,
        path,
    })
}

/// The path of the copy of an instance at this position.
pub(crate) fn inside(
    alloc: Global,
    path: &[usize],
    position: usize,
) -> Result<Vec<usize>, AllocError>
    ensures { IfOk result (λ v. v.items ≡ path.now ++ position ∷ []) }
{
    let mut inside = Vec::from_slice(alloc, path)?;
    inside.push(position)?;
    Ok(inside)
}
