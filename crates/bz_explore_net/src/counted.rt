//! A row of bits that tells how many are set, and which of them has so many before it.

ghost use Rattle.std.specs.Prelude.{◌≡◌, ◌+◌, ◌*◌, ◌<◌, ◌≤◌, ◌^◌, ℕ, false, length, replicate, slice_index_or, slice_set, IfNone, IfOk, IfSome};
ghost use Rattle.bz_net.specs.Keeping.{IsMarked};
ghost use Rattle.bz_explore_net.specs.Counted.{IsCounted, leaf_of};
ghost use Rattle.bz_explore_net.specs.Picking.{HasMembers, IsPlace};

use std::alloc::{AllocError, Global};
use std::marker::Model;

/// A row of bits of a fixed length. How many are set is known at once. To set one, and to find the one that has so many before it,
/// takes as many steps as its length has binary digits. A contract sees it as the list of its bits.
pub struct CountedRow {
    bits: Vec<bool>,
    // A tree whose leaves are the bits, as ones and zeros: node 1 is on top, and nodes 2 n and 2 n + 1 stand below node n.
    sums: Vec<u32>,
    levels: u32,
}

impl Drop for CountedRow {
    fn drop(self) {
        let CountedRow {
            bits: _,
            sums: _,
            levels: _,
        } = self;
    }
}

impl Model for CountedRow {
    ghost use Rattle.std.specs.Prelude.{List, Bool};
    ghost use Rattle.bz_explore_net.specs.Counted.{IsCounted};

    ghost Value = { List Bool };

    ghost view = { λ r. r.bits.items };

    ghost invariant = { λ r. IsCounted r.bits.items r.sums.items r.levels };
}

impl CountedRow {
    /// A row of bits none of which is set. That there are more than 2^30 is told as a want of memory.
    pub fn new(alloc: Global, len: usize) -> Result<CountedRow, AllocError>
        ensures { IfOk result (λ r. r ≡ replicate len false) }
    {
        if len > 1_073_741_824 {
            return Err(AllocError);
        }
        let (leaves, levels) = tree_for(len);
        let bits = Vec::from_elem(alloc, false, len)?;
        let sums = Vec::from_elem(alloc, 0u32, 2 * leaves)?;
        Ok(CountedRow { bits, sums, levels })
    }

    /// Sets a bit, or clears it. Nothing is done where there is none at the place.
    pub fn set(&mut self, place: usize, bit: bool)
        ensures { self.new ≡ slice_set self.old place bit }
    {
        if place >= self.bits.len() {
            return;
        }
        self.bits[place] = bit;
        let mut node = self.sums.len() / 2 + place;
        self.sums[node] = u32::from(bit);
        for _ in 0..self.levels {
            node /= 2;
            self.sums[node] = self.sums[2 * node] + self.sums[2 * node + 1];
        }
    }

    /// How many bits are set.
    pub fn count(&self) -> u32
        ensures { HasMembers (IsMarked self.now) result }
    {
        self.sums[1]
    }

    /// The place of the set bit that has so many before it, if there are as many.
    pub fn nth(&self, before: u32) -> Option<u32>
        ensures some { IfSome result (IsPlace (IsMarked self.now) before) }
        ensures none { IfNone result ((count : ℕ) → HasMembers (IsMarked self.now) count → count ≤ before) }
    {
        if self.count() <= before {
            return None;
        }
        let (mut node, mut left) = (1, before);
        for _ in 0..self.levels {
            node *= 2;
            let here = self.sums[node];
            if here <= left {
                left -= here;
                node += 1;
            }
        }
        Some((node - self.sums.len() / 2) as u32)
    }
}

// How many leaves a tree over so many bits has, and how many levels above them.
fn tree_for(len: usize) -> (usize, u32)
    requires { len ≤ 2 ^ 30 }
    ensures leaves { result.0 ≡ leaf_of 1 result.1 }
    ensures room { len ≤ result.0 }
    ensures few { result.0 ≤ 2 ^ 30 }
{
    let mut leaves = 1;
    for levels in 0..30 {
        if len <= leaves {
            return (leaves, levels);
        }
        leaves *= 2;
    }
    (leaves, 30)
}
