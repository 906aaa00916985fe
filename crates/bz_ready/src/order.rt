//! The numbers below a limit in some order, and for each a node with its place.
ghost use Rattle.std.specs.Prelude.{◌≡◌, ◌<◌, ◌≤◌, ◌^◌, length, slice_index, IfOk};
ghost use Rattle.std.specs.List.{swap, range_with_len};

use bz_arena::{Arena, Id};
use std::alloc::{AllocError, Allocator};
use std::marker::Model;

/// All numbers below a limit, each once. A contract sees it as the list of them by place.
#[derive(Drop)]
pub struct Order<A: Allocator + Copy> {
    numbers: Vec<u32, A>,
    places: Arena<u32, A>,
}

impl<A: Allocator + Copy> Model for Order<A> {
    ghost use Rattle.std.specs.Prelude.{List, ℕ};
    ghost use Rattle.bz_ready.specs.Order.{IsOrder};

    ghost Value = { List ℕ };

    ghost view = { λ o. o.numbers.items };

    ghost invariant = { λ o. IsOrder o.numbers.items o.places };
}

impl<A: Allocator + Copy> Order<A> {
    ghost use Rattle.bz_ready.specs.Order.{IsEach};

    /// The numbers below `limit` by size.
    pub fn new(alloc: A, limit: u32) -> Result<Self, AllocError>
        ensures order { IfOk result (λ o. o ≡ range_with_len 0 limit) }
        ensures each { IfOk result IsEach }
    {
        let numbers = counted(alloc, limit)?;
        let places = nodes(alloc, limit)?;
        Ok(Order { numbers, places })
    }

    pub fn number(&self, place: usize) -> u32
        requires { place < length self.now }
        ensures value { result ≡ slice_index self.now place }
        ensures below { result < length self.now }
        ensures each { IsEach self.now }
    {
        self.numbers[place]
    }

    /// Where a number stands.
    #[inline(always)]
    pub fn place(&self, number: u32) -> usize
        requires { number < length self.now }
        ensures held { result < length self.now }
        ensures value { slice_index self.now result ≡ number }
    {
        *self.places.get(Id::at(number as usize)) as usize
    }

    /// Exchanges the numbers at two places.
    #[inline(always)]
    pub fn swap(&mut self, a: usize, b: usize)
        requires first_held { a < length self.old }
        requires second_held { b < length self.old }
        ensures order { self.new ≡ swap self.old a b }
        ensures each { IsEach self.new }
    {
        let x = self.numbers[a];
        let y = self.numbers[b];
        if a == b {
            return;
        }
        self.numbers.swap(a, b);
        self.places.swap(Id::at(x as usize), Id::at(y as usize));
    }
}

// The numbers below `limit` by size.
fn counted<A: Allocator>(alloc: A, limit: u32) -> Result<Vec<u32, A>, AllocError>
    ensures { IfOk result (λ v. v.items ≡ range_with_len 0 limit) }
{
    let mut numbers = Vec::with_capacity(alloc, limit as usize)?;
    for number in 0..limit {
        numbers.push(number)?;
    }
    Ok(numbers)
}

// A node for each number below `limit`, which has that number.
fn nodes<A: Allocator + Copy>(alloc: A, limit: u32) -> Result<Arena<u32, A>, AllocError>
    ensures { IfOk result (λ nodes. nodes ≡ range_with_len 0 limit) }
{
    let mut nodes = Arena::new(alloc);
    for number in 0..limit {
        match nodes.push(number) {
            Ok(_) => {}
            Err(_) => return Err(AllocError),
        }
    }
    Ok(nodes)
}
