//! The states of a component's ports, two bits each.
ghost use Rattle.std.specs.Prelude.{◌≡◌, ◌+◌, ◌*◌, ◌/◌, ◌==◌, ◌<◌, ℕ, length, replicate, slice_index, slice_set, IfOk};

use crate::row::BitRow;
use std::alloc::{AllocError, Allocator, Global};
use std::marker::Model;

/// A state from 0 to 3 for each port. A contract sees it as that list.
#[derive(Drop)]
pub struct PortStates<A: Allocator + Copy = Global> {
    low: BitRow<A>,
    high: BitRow<A>,
}

impl<A: Allocator + Copy> Model for PortStates<A> {
    ghost use Rattle.std.specs.Prelude.{List, ℕ, ◌≡◌, length};
    ghost use Rattle.bz_bits.specs.Ports.{states};

    ghost Value = { List ℕ };

    ghost view = { λ p. states p.low p.high };

    ghost invariant = { λ p. length p.low ≡ length p.high };
}

impl<A: Allocator + Copy> PortStates<A> {
    /// `count` ports, all in state 0.
    pub fn new(alloc: A, count: usize) -> Result<Self, AllocError>
        ensures { IfOk result (λ p. p ≡ replicate count 0) }
    {
        let low = BitRow::new(alloc, count)?;
        let high = BitRow::new(alloc, count)?;
        Ok(PortStates { low, high })
    }

    pub fn len(&self) -> usize
        ensures { result ≡ length self.now }
    {
        self.low.len()
    }

    pub fn get(&self, port: usize) -> u8
        requires { port < length self.now }
        ensures value { result ≡ slice_index self.now port }
        ensures small { result < 4 }
    {
        u8::from(self.low.get(port)) + 2 * u8::from(self.high.get(port))
    }

    pub fn set(&mut self, port: usize, state: u8)
        requires held { port < length self.old }
        requires small { state < 4 }
        ensures { self.new ≡ slice_set self.old port state }
    {
        self.low.set(port, state % 2 == 1);
        self.high.set(port, state / 2 == 1);
    }
}
