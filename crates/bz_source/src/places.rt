//! The places of a net.

ghost use Rattle.std.specs.Prelude.{◌≡◌, ◌<◌, ◌⊎◌, length, map, IfOk, IfErr, OnOk};
ghost use Rattle.std.specs.Option.{option_copied, option_map};
ghost use Rattle.bz_model.specs.Names.{numbered};
ghost use Rattle.bz_source.specs.declared.error.PlacesError.TheVariants.{Memory, TooDeep};
ghost use Rattle.bz_elab.specs.Paths.{most_instances};
ghost use Rattle.bz_source.specs.Found.{Locates, Misses, IsDeeper, found, located, with_find};
ghost use Rattle.bz_source.specs.Net.{FindsNamed};
ghost use Rattle.bz_source.specs.Views.{find_of, path_at_of};

use crate::bare::bare_parts;
use crate::error::PlacesError;
use crate::inner::{inner_numbers, number_of};
use crate::path_at::{Find, PathAt};
use crate::walk::{Ground, add_channels, descend};
use bz_breeze_records::Parts;
use bz_model::numbered;
use std::alloc::{AllocError, Global};
use std::marker::Model;

/// The greatest number of instances on a path.
const MOST_INSTANCES: u32 = 64;

/// Where the components, the channels and the instances of a net stand.
pub struct Places {
    chans: Vec<PathAt>,
    comps: Vec<PathAt>,
    instances: Vec<PathAt>,
}

// By hand, so that who lets one go has one call to show and not all its parts.
impl Drop for Places {
    fn drop(self) {
        let Places {
            chans: _,
            comps: _,
            instances: _,
        } = self;
    }
}

impl Model for Places {
    ghost use Rattle.std.specs.Prelude.{map};
    ghost use Rattle.bz_source.specs.Found.{Located};
    ghost use Rattle.bz_source.specs.Views.{path_at_of};

    ghost Value = { Located };

    ghost view = { λ p. record { chans = map path_at_of p.chans.items; comps = map path_at_of p.comps.items; instances = map path_at_of p.instances.items } };
}

impl Places {
    /// The places of the net of the first part of that name. Where `bz_elab::elaborate` refuses the part this may take long.
    pub fn of(alloc: Global, parts: &Parts, top: &[u8]) -> Result<Places, PlacesError>
        ensures ok { IfOk result (Locates parts.now top.now) }
        ensures net { IfOk result (FindsNamed parts.now top.now) }
        ensures err { IfErr result (λ e. (e ≡ Memory) ⊎ Misses parts.now top.now e) }
    {
        let Some(number) = number_of(parts, top) else {
            return Err(PlacesError::NoPart);
        };
        let finds = walk(alloc, parts, number)?;
        Ok(sort(alloc, finds)?)
    }

    /// The place of a component of the net, counted from 1.
    pub fn comp(&self, comp: u32) -> Option<&PathAt>
        ensures { option_map path_at_of (option_copied result) ≡ numbered self.now.comps comp }
    {
        numbered(&self.comps, comp)
    }

    /// The place of a channel of the net, counted from 1.
    pub fn chan(&self, chan: u32) -> Option<&PathAt>
        ensures { option_map path_at_of (option_copied result) ≡ numbered self.now.chans chan }
    {
        numbered(&self.chans, chan)
    }

    /// The places of all components, in order.
    pub fn comps(&self) -> &[PathAt]
        ensures { map path_at_of result.now ≡ self.now.comps }
    {
        self.comps.as_slice()
    }

    /// The places of all channels, in order.
    pub fn chans(&self) -> &[PathAt]
        ensures { map path_at_of result.now ≡ self.now.chans }
    {
        self.chans.as_slice()
    }

    /// The instances with a component or a channel of the net in their copies, by their paths.
    pub fn instances(&self) -> &[PathAt]
        ensures { map path_at_of result.now ≡ self.now.instances }
    {
        self.instances.as_slice()
    }

    // One place more, behind those of its sort.
    fn add(&mut self, find: Find) -> Result<(), AllocError>
        ensures { OnOk result (self.new ≡ with_find self.old (find_of find)) }
    {
        match find {
            Find::Channel(place) => self.chans.push(place)?,
            Find::Component(place) => self.comps.push(place)?,
            Find::Instance(place) => self.instances.push(place)?,
        }
        Ok(())
    }
}

// All that the walk of the net of a part finds.
fn walk(alloc: Global, parts: &Parts, number: usize) -> Result<Vec<Find>, PlacesError>
    requires { number < length parts.now }
    ensures ok { IfOk result (λ v. map find_of v.items ≡ found parts.now number) }
    ensures err { IfErr result (λ e. (e ≡ Memory) ⊎ ((e ≡ TooDeep) × IsDeeper parts.now number most_instances)) }
{
    let inner = inner_numbers(alloc, parts)?;
    let bare = bare_parts(alloc, parts.list(), inner.as_slice())?;
    let ground = Ground {
        parts: parts.list(),
        inner: inner.as_slice(),
        bare: bare.as_slice(),
    };
    let mut finds = Vec::new(alloc);
    let part = &parts.list()[number];
    add_channels(alloc, number, &[], 0, part.channels.len(), &mut finds)?;
    descend(alloc, ground, number, &[], MOST_INSTANCES, &mut finds)?;
    Ok(finds)
}

// The finds, by what they are.
fn sort(alloc: Global, finds: Vec<Find>) -> Result<Places, AllocError>
    ensures { IfOk result (λ p. p ≡ located (map find_of finds.items)) }
{
    let mut places = Places {
        chans: Vec::new(alloc),
        comps: Vec::new(alloc),
        instances: Vec::new(alloc),
    };
    for find in finds {
        places.add(find)?;
    }
    Ok(places)
}
