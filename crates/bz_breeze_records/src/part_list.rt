//! The parts of a netlist, found by name.

ghost use Rattle.std.specs.Prelude.{◌≡◌, ◌↔◌, map, All, false, IsTrue, IfOk};
ghost use Rattle.std.specs.Option.{option_copied};
ghost use Rattle.bz_breeze_records.specs.Parts.{number_named, part_named, has_dollar, HasPortChannels, IsFit};

use crate::part::Part;
use bz_model::NameRow;
use std::alloc::{AllocError, Global};
use std::marker::Model;

/// The parts of a netlist, in the order of the text. No two have one name.
pub struct Parts {
    list: Vec<Part>,
    // Their names, by which they are found.
    names: NameRow,
    /// Whether no name begins with a dollar sign, as those of kinds do.
    is_plain: bool,
}

// By hand, so that who lets one go has one call to show and not all its parts.
impl Drop for Parts {
    fn drop(self) {
        let Parts {
            list: _,
            names: _,
            is_plain: _,
        } = self;
    }
}

impl Model for Parts {
    ghost use Rattle.std.specs.Prelude.{◌≡◌, List, map, All, false, IsTrue};
    ghost use Rattle.bz_breeze_records.specs.declared.part.Part.{Part};
    ghost use Rattle.bz_breeze_records.specs.Parts.{has_dollar, HasPortChannels, IsFit};

    ghost Value = { List Part };

    ghost view = { λ p. p.list.items };

    ghost invariant = { λ p. (p.names ≡ map (λ q. q.name.items) p.list.items) × All HasPortChannels p.list.items × All IsFit p.list.items
        × (IsTrue p.is_plain → All (λ q. has_dollar q.name.items ≡ false) p.list.items) };
}

// Whether a name begins with a dollar sign.
fn has_dollar(name: &[u8]) -> bool
    ensures { result ≡ has_dollar name.now }
{
    match name.split_first() {
        Some((first, _)) => *first == b'$',
        None => false,
    }
}

// Whether no part's name begins with a dollar sign.
fn are_plain(list: &[Part]) -> bool
    ensures { IsTrue result ↔ All (λ q. has_dollar q.name.items ≡ false) list.now }
{
    list.iter().all(|part| !has_dollar(part.name.as_slice()))
}

fn names_of(alloc: Global, list: &[Part]) -> Result<Vec<Vec<u8>>, AllocError>
    ensures { IfOk result (λ v. map (λ name. name.items) v.items ≡ map (λ p. p.name.items) list.now) }
{
    let mut names = Vec::with_capacity(alloc, list.len())?;
    for part in list {
        names.push(Vec::from_slice(alloc, &part.name)?)?;
    }
    Ok(names)
}

impl Parts {
    /// The parts of a list.
    pub fn new(alloc: Global, list: Vec<Part>) -> Result<Parts, AllocError>
        requires fits { All HasPortChannels list.items }
        requires fit { All IsFit list.items }
        ensures { IfOk result (λ parts. parts ≡ list.items) }
    {
        let names = NameRow::new(alloc, names_of(alloc, list.as_slice())?)?;
        let is_plain = are_plain(list.as_slice());
        Ok(Parts {
            list,
            names,
            is_plain,
        })
    }

    /// The parts, in the order of the text.
    pub fn list(&self) -> &[Part]
        ensures value { result.now ≡ self.now }
        ensures fits { All HasPortChannels result.now }
        ensures fit { All IsFit result.now }
    {
        self.list.as_slice()
    }

    /// The number of the part of a name, counted from 0 in the order of the text, if there is one.
    pub fn number(&self, name: &[u8]) -> Option<usize>
        ensures { result ≡ number_named self.now name.now }
    {
        // most names that are asked for are those of kinds
        if self.is_plain && has_dollar(name) {
            return None;
        }
        self.names.place(name)
    }

    /// The part of a name, if there is one.
    pub fn find(&self, name: &[u8]) -> Option<&Part>
        ensures { option_copied result ≡ part_named self.now name.now }
    {
        let place = self.number(name)?;
        self.list.get(place)
    }
}
