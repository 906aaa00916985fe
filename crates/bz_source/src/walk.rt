//! The walk of a part's copies, which finds each component, channel and instance with its place.

ghost use Rattle.std.specs.Prelude.{◌≡◌, ◌<◌, ◌≤◌, ◌+◌, ◌-◌, ◌⊎◌, suc, length, map, slice_get, Some, IfErr, OnOk};
ghost use Rattle.bz_source.specs.declared.error.PlacesError.TheVariants.{Memory, TooDeep};
ghost use Rattle.bz_source.specs.Found.{channels_from, inner_channels, below, found_at, found_in, IsDeeper};
ghost use Rattle.bz_source.specs.Inner.{AreInner, AreBare};
ghost use Rattle.bz_source.specs.Views.{Finds, Settled};

use crate::error::PlacesError;
use crate::path_at::{Find, inside, place_at};
use bz_breeze_records::Part;
use std::alloc::{AllocError, Global};

/// What the walk goes by: the parts, the instances among their components, and the parts that are known to be bare.
#[derive(Clone, Copy)]
pub(crate) struct Ground<'p> {
    pub parts: &'p [Part],
    pub inner: &'p [Vec<Option<usize>>],
    pub bare: &'p [bool],
}

/// Adds the channels of a copy from the one after `ports` on.
pub(crate) fn add_channels(
    alloc: Global,
    part: usize,
    path: &[usize],
    ports: usize,
    channels: usize,
    finds: &mut Vec<Find>,
) -> Result<(), AllocError>
    ensures { OnOk result (Finds finds.old finds.new (channels_from part path.now (suc ports) (channels - ports))) }
{
    for position in ports..channels {
        finds.push(Find::Channel(place_at(alloc, part, path, position + 1)?))?;
    }
    Ok(())
}

/// Adds what is below the copy of a part: each of its components, or what its instance's copy has.
pub(crate) fn descend(
    alloc: Global,
    ground: Ground<'_>,
    number: usize,
    path: &[usize],
    depth: u32,
    finds: &mut Vec<Find>,
) -> Result<(), PlacesError>
    requires within { number < length ground.parts.now }
    requires inner { AreInner ground.parts.now ground.inner.now }
    requires bare { AreBare ground.parts.now ground.bare.now }
    ensures ok { OnOk result (Finds finds.old finds.new (below ground.entry.parts.now depth path.now number)) }
    ensures err { IfErr result (λ e. (e ≡ Memory) ⊎ ((e ≡ TooDeep) × IsDeeper ground.entry.parts.now number depth)) }
{
    for (i, inner) in ground.inner[number].iter().enumerate() {
        match inner {
            None => finds.push(Find::Component(place_at(alloc, number, path, i + 1)?))?,
            Some(inner) => {
                if !ground.bare[*inner] {
                    if depth == 0 {
                        return Err(PlacesError::TooDeep);
                    }
                    finds.push(Find::Instance(place_at(alloc, number, path, i + 1)?))?;
                    let upto = finds.len();
                    let path = inside(alloc, path, i + 1)?;
                    add_own(alloc, ground.parts, *inner, path.as_slice(), finds)?;
                    descend(alloc, ground, *inner, path.as_slice(), depth - 1, finds)?;
                    settle(finds, upto);
                }
            }
        }
    }
    Ok(())
}

// Adds the channels of an instance's copy.
fn add_own(
    alloc: Global,
    parts: &[Part],
    number: usize,
    path: &[usize],
    finds: &mut Vec<Find>,
) -> Result<(), AllocError>
    requires { number < length parts.now }
    ensures { OnOk result (Finds finds.old finds.new (inner_channels parts.now path.now number)) }
{
    let part = &parts[number];
    add_channels(
        alloc,
        number,
        path,
        part.ports.len(),
        part.channels.len(),
        finds,
    )
}

// Takes an instance away where nothing was found behind it, the finds up to it being so many.
fn settle(finds: &mut Vec<Find>, upto: usize)
    ensures { Settled upto finds.old.items finds.new.items }
{
    if finds.len() == upto {
        let _ = finds.pop();
    }
}
