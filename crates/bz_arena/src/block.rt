//! A raw block with places for 256 nodes. The first of them hold nodes, and the others nothing.
ghost use Rattle.std.specs.Prelude.{◌≡◌, ℕ, ◌+◌, ◌<◌, ◌≤◌, ◌++◌, [], ◌∷◌, List, length, slice_index_or, IfSome};
ghost use Rattle.std.specs.Borrow.{sem};
ghost use base.Fml.{ftrue};
ghost use Rattle.bz_arena.specs.Nodes.{nodes_own, nodes_lent, block_of};

use std::alloc::Allocator;
use std::marker::{Model, Send, Sync};
use std::slice;
use std_alloc::room::{Vacant, may_hold};

/// The nodes of a block, and the places after them. How many they are its owner counts.
pub struct Nodes<T> {
    start: *mut T,
    ghost places: { ℕ },
    ghost items: { List T },
}

impl<T> Model for Nodes<T> {
    ghost also_owns = { λ n. nodes_own T.row n.start n.places n.items };

    ghost also_shares = { λ n _ κ. nodes_lent T.row n.start n.places n.items κ };
}

unsafe impl<T: Send> Send for Nodes<T> {}

unsafe impl<T: Sync> Sync for Nodes<T> {}

/// The claim to a block: the right to give it back to where it came from.
pub struct Claim<T, A: Allocator> {
    start: *mut T,
    alloc: A,
}

impl<T, A: Allocator> Model for Claim<T, A> {
    ghost also_owns = { λ c. A.dealloc_token c.alloc (block_of T.row) c.start };

    ghost also_shares = { λ _ _ _. ftrue };
}

unsafe impl<T, A: Allocator + Send> Send for Claim<T, A> {}

unsafe impl<T, A: Allocator + Sync> Sync for Claim<T, A> {}

/// A block that holds no node. In a signature the array itself would ask of each caller that it fits.
pub struct Empty<T, A: Allocator> {
    vacant: Vacant<[T; 256], A>,
}

/// A new block, where there is memory.
pub(crate) fn allocate<T, A: Allocator + Copy>(alloc: A) -> Option<(Nodes<T>, Claim<T, A>)>
    ensures { IfSome result (λ r. (r.0.items ≡ []) × (r.0.places ≡ 256) × (r.1.start ≡ r.0.start)) }
{
    if !may_hold::<T>(256) {
        return None;
    }
    match Vacant::take(alloc) {
        Ok(vacant) => Some(open(vacant)),
        Err(_) => None,
    }
}

/// Gives a block back.
pub(crate) fn free<T, A: Allocator + Copy>(nodes: Nodes<T>, claim: Claim<T, A>)
    requires { (nodes.items ≡ []) × (nodes.places ≡ 256) × (claim.start ≡ nodes.start) }
{
    let Empty { vacant } = close(nodes, claim);
    vacant.free();
}

fn open<T, A: Allocator>(vacant: Vacant<[T; 256], A>) -> (Nodes<T>, Claim<T, A>)
    ensures { (result.0.items ≡ []) × (result.0.places ≡ 256) × (result.1.start ≡ result.0.start) × (result.1.alloc ≡ vacant.alloc) }
{
    let Vacant { ptr, alloc } = vacant;
    let start = ptr as *mut T;
    (Nodes { start }, Claim { start, alloc })
}

fn close<T, A: Allocator>(nodes: Nodes<T>, claim: Claim<T, A>) -> Empty<T, A>
    requires { (nodes.items ≡ []) × (nodes.places ≡ 256) × (claim.start ≡ nodes.start) }
    ensures { result.vacant.alloc ≡ claim.alloc }
{
    let Nodes { start } = nodes;
    let Claim { start: _, alloc } = claim;
    let ptr = start as *mut [T; 256];
    Empty {
        vacant: Vacant { ptr, alloc },
    }
}

impl<T> Nodes<T> {
    ghost use Rattle.bz_arena.specs.Lends.{lends_item, lends_items};

    /// Nodes that have no block, and so no place.
    pub(crate) fn none() -> Nodes<T>
        ensures { (result.items ≡ []) × (result.places ≡ 0) }
    {
        let none: [T; 0] = [];
        Nodes {
            start: &raw const none as *mut T,
        }
    }

    /// Lets nodes that have no block go.
    pub(crate) fn end(self)
        requires { (self.items ≡ []) × (self.places ≡ 0) }
    {
        let Nodes { start: _ } = self;
    }

    /// Puts a node behind the `count` that are there.
    #[inline(always)]
    pub(crate) fn push(&mut self, count: usize, node: T)
        requires { (count ≡ length self.old.items) × (count < self.old.places) }
        ensures { (self.new.start ≡ self.old.start) × (self.new.places ≡ self.old.places) × (self.new.items ≡ self.old.items ++ node ∷ []) }
    {
        unsafe { self.start.add(count).write(node) }
    }

    /// Moves the last node out, which has `left` before it.
    pub(crate) fn pop(&mut self, left: usize) -> T
        requires { (left + 1 ≡ length self.old.items) × (left < self.old.places) }
        ensures { (self.new.start ≡ self.old.start) × (self.new.places ≡ self.old.places) × (self.old.items ≡ self.new.items ++ result ∷ []) }
    {
        unsafe { self.start.add(left).read() }
    }

    #[inline(always)]
    pub(crate) fn as_slice(&self, count: usize) -> &[T]
        requires { (count ≡ length self.now.items) × (count ≤ self.now.places) }
        ensures { result.now ≡ self.now.items }
    {
        unsafe { slice::from_raw_parts(self.start, count) }
    }

    #[inline(always)]
    pub(crate) fn get_mut(&mut self, index: usize) -> &mut T
        requires { (index < length self.old.items) × (length self.old.items ≤ self.old.places) }
        ensures* writes_back { sem 𝓛 (lends_item T.row self.entry index result) }
        ensures value { result.now ≡ slice_index_or self.old.items index result.now }
    {
        unsafe { &mut *self.start.add(index) }
    }

    pub(crate) fn as_mut_slice(&mut self, count: usize) -> &mut [T]
        requires { (count ≡ length self.old.items) × (count ≤ self.old.places) }
        ensures* writes_back { sem 𝓛 (lends_items T.row self.entry result) }
        ensures value { result.now ≡ self.old.items }
    {
        unsafe { slice::from_raw_parts_mut(self.start, count) }
    }
}
