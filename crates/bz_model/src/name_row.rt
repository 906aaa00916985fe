//! Names in the order in which they came, found by the order of the names.

ghost use Rattle.std.specs.Prelude.{◌≡◌, ◌<◌, length, map, slice_get, position, bytes_eq, IfOk, IfSome};
ghost use Rattle.bz_model.specs.NameRows.{placed, IsRow, comes_before, is_name};

use std::alloc::{AllocError, Global};
use std::marker::Model;

/// Names in the order in which they came. Each is found in as many steps as the logarithm of how many there are.
#[derive(Drop)]
pub struct NameRow {
    names: Vec<Vec<u8>>,
    // Their places, in the order of the names.
    row: Vec<usize>,
}

impl Model for NameRow {
    ghost use Rattle.std.specs.Prelude.{ℕ, List, map};
    ghost use Rattle.bz_model.specs.NameRows.{IsRow};

    ghost Value = { List (List ℕ) };

    ghost view = { λ r. map (λ v. v.items) r.names.items };

    ghost invariant = { λ r. IsRow (map (λ v. v.items) r.names.items) r.row.items };
}

impl NameRow {
    /// These names. Two of them may be alike.
    pub fn new(alloc: Global, names: Vec<Vec<u8>>) -> Result<NameRow, AllocError>
        ensures { IfOk result (λ r. r ≡ map (λ v. v.items) names.items) }
    {
        let row = row_of(alloc, &names)?;
        Ok(NameRow { names, row })
    }

    /// The first place of a name among the names, counted from 0.
    pub fn place(&self, name: &[u8]) -> Option<usize>
        ensures place { result ≡ position (bytes_eq name.now) self.now }
        ensures within { IfSome result (λ n. n < length self.now) }
    {
        place_in(&self.names, &self.row, name)
    }
}

// The places of names, in the order of the names.
fn row_of(alloc: Global, names: &[Vec<u8>]) -> Result<Vec<usize>, AllocError>
    ensures { IfOk result (λ row. IsRow (map (λ v. v.items) names.now) row.items) }
{
    let mut sorted = placed(alloc, names)?;
    sorted.sort()?;
    places_of(alloc, &sorted)
}

// Each name with its place.
fn placed<'a>(alloc: Global, names: &'a [Vec<u8>]) -> Result<Vec<(&'a [u8], usize)>, AllocError>
    ensures { IfOk result (λ v. map (λ e. (e.0.now, e.1)) v.items ≡ placed 0 (map (λ n. n.items) names.now)) }
{
    let mut with_places = Vec::with_capacity(alloc, names.len())?;
    for (place, name) in names.iter().enumerate() {
        with_places.push((name.as_slice(), place))?;
    }
    Ok(with_places)
}

fn places_of(alloc: Global, sorted: &[(&[u8], usize)]) -> Result<Vec<usize>, AllocError>
    ensures { IfOk result (λ v. v.items ≡ map (λ e. e.1) sorted.now) }
{
    let mut places = Vec::with_capacity(alloc, sorted.len())?;
    for entry in sorted {
        places.push(entry.1)?;
    }
    Ok(places)
}

// The first place of a name among names, by the row of their places.
fn place_in(names: &[Vec<u8>], row: &[usize], name: &[u8]) -> Option<usize>
    requires { IsRow (map (λ v. v.items) names.now) row.now }
    ensures { result ≡ position (bytes_eq name.now) (map (λ v. v.items) names.now) }
{
    let at = row.partition_point(|place| comes_before(names, *place, name));
    match row.get(at) {
        Some(place) if is_name(names, *place, name) => Some(*place),
        _ => None,
    }
}

// Whether the name at a place comes before another one.
fn comes_before(names: &[Vec<u8>], place: usize, name: &[u8]) -> bool
    ensures { result ≡ comes_before (slice_get (map (λ v. v.items) names.now) place) name.now }
{
    match names.get(place) {
        Some(here) => here.as_slice().cmp(name).is_lt(),
        None => false,
    }
}

// Whether the name at a place is this one.
fn is_name(names: &[Vec<u8>], place: usize, name: &[u8]) -> bool
    ensures { result ≡ is_name (slice_get (map (λ v. v.items) names.now) place) name.now }
{
    match names.get(place) {
        Some(here) => here.as_slice() == name,
        None => false,
    }
}
