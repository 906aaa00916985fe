//! A chunk: a block with places for 256 nodes, of which the first hold nodes.
ghost use Rattle.std.specs.Prelude.{◌≡◌, ◌≢◌, ◌<◌, ◌≤◌, ◌%◌, ◌++◌, [], ◌∷◌, length, slice_index_or, IfOk, IfErr};
ghost use Rattle.std.specs.Borrow.{sem};

use crate::block::{Claim, Nodes, allocate, free};
use crate::pair::{pair_of, update_both};
use std::alloc::Allocator;
use std::marker::Model;

pub(crate) const CHUNK_LEN: usize = 256;

/// A new chunk has no block yet. A contract sees the list of its nodes.
pub struct Chunk<T, A: Allocator + Copy> {
    nodes: Nodes<T>,
    count: usize,
    claim: Option<Claim<T, A>>,
}

impl<T, A: Allocator + Copy> Model for Chunk<T, A> {
    ghost use Rattle.std.specs.Prelude.{List, ◌≡◌, ◌≤◌, length};
    ghost use Rattle.bz_arena.specs.Claims.{IsClaimOf};

    ghost Value = { List T };

    ghost view = { λ c. c.nodes.items };

    ghost invariant = { λ c. (c.count ≡ length c.nodes.items) × (c.count ≤ c.nodes.places) × IsClaimOf c.claim c.nodes };
}

impl<T, A: Allocator + Copy> Chunk<T, A> {
    ghost use Rattle.bz_arena.specs.Lends.{lends_in_chunk, lends_nodes};
    ghost use Rattle.bz_arena.specs.Pairs.{UpdatesBoth};

    pub(crate) fn new() -> Chunk<T, A>
        ensures { result ≡ [] }
    {
        Chunk {
            nodes: Nodes::none(),
            count: 0,
            claim: None,
        }
    }

    /// A chunk with one node, or the node where there was no memory.
    pub(crate) fn with_node(alloc: A, node: T) -> Result<Chunk<T, A>, T>
        ensures made { IfOk result (λ c. c ≡ node ∷ []) }
        ensures handed_back { IfErr result (λ back. back ≡ node) }
    {
        let Some((mut nodes, claim)) = allocate(alloc) else {
            return Err(node);
        };
        nodes.push(0, node);
        Ok(Chunk {
            nodes,
            count: 1,
            claim: Some(claim),
        })
    }

    #[inline(always)]
    pub(crate) fn push(&mut self, node: T)
        requires { (0 < length self.old) × (length self.old < 256) }
        ensures { self.new ≡ self.old ++ node ∷ [] }
    {
        self.nodes.push(self.count, node);
        self.count += 1;
    }

    fn pop(&mut self) -> T
        requires { 0 < length self.old }
        ensures { self.old ≡ self.new ++ result ∷ [] }
    {
        self.count -= 1;
        self.nodes.pop(self.count)
    }

    #[inline(always)]
    pub(crate) fn len(&self) -> usize
        ensures value { result ≡ length self.now }
        ensures fits { result ≤ 256 }
    {
        self.count
    }

    #[inline(always)]
    pub(crate) fn get(&self, index: usize) -> &T
        requires { index < length self.now }
        ensures { result.now ≡ slice_index_or self.now index result.now }
    {
        &self.nodes.as_slice(self.count)[index]
    }

    #[inline(always)]
    pub(crate) fn get_mut(&mut self, index: usize) -> &mut T
        requires { index < length self.old }
        ensures* writes_back { sem 𝓛 (lends_in_chunk T.row A.row A.Allocator self.entry index result) }
        ensures value { result.now ≡ slice_index_or self.old index result.now }
    {
        self.nodes.get_mut(index)
    }

    /// The nodes as a slice.
    pub(crate) fn nodes_mut(&mut self) -> &mut [T]
        ensures* writes_back { sem 𝓛 (lends_nodes T.row A.row A.Allocator self.entry result) }
        ensures value { result.now ≡ self.old }
    {
        self.nodes.as_mut_slice(self.count)
    }

    /// Hands two nodes at once to `f`.
    pub(crate) fn update_pair<R, F: FnOnce(&mut T, &mut T) -> R>(
        &mut self,
        a: usize,
        b: usize,
        f: F,
    ) -> R
        requires first_held { a < length self.old }
        requires second_held { b < length self.old }
        requires different { a ≢ b }
        requires callable { F.IsAlwaysCallable f }
        ensures { UpdatesBoth F.FnOnce f self.old a b result self.new }
    {
        let nodes = self.nodes.as_mut_slice(self.count);
        update_both(nodes, a, b, f)
    }

    pub(crate) fn end(self)
        requires { self ≡ [] }
    {
        let Chunk {
            nodes,
            count: _,
            claim,
        } = self;
        match claim {
            Some(claim) => {
                free(nodes, claim);
            }
            None => nodes.end(),
        }
    }

    pub(crate) fn into_full(self) -> FullChunk<T, A>
        requires { (0 < length self) × (length self % 256 ≡ 0) }
        ensures { result.chunk ≡ self }
    {
        let count = self.count;
        prove!(count == CHUNK_LEN);
        FullChunk { chunk: self }
    }
}

// Each node is dropped, from the last to the first, and then the block is freed.
impl<T: Drop, A: Allocator + Copy> Drop for Chunk<T, A> {
    fn drop(mut self) {
        while self.count > 0 {
            drop(self.pop());
        }
        self.end();
    }
}

/// A chunk that has all its nodes.
#[derive(Drop)]
pub struct FullChunk<T, A: Allocator + Copy> {
    chunk: Chunk<T, A>,
    ghost whole: { length chunk ≡ 256 },
}

impl<T, A: Allocator + Copy> FullChunk<T, A> {
    ghost use Rattle.bz_arena.specs.Lends.{lends_in_full};
    ghost use Rattle.bz_arena.specs.Pairs.{UpdatesBoth};

    #[inline(always)]
    pub(crate) fn get(&self, index: usize) -> &T
        requires { index < 256 }
        ensures { result.now ≡ slice_index_or self.now.chunk index result.now }
    {
        self.chunk.get(index)
    }

    #[inline(always)]
    pub(crate) fn get_mut(&mut self, index: usize) -> &mut T
        requires { index < 256 }
        ensures* writes_back { sem 𝓛 (lends_in_full T.row A.row A.Allocator self.entry index result) }
        ensures value { result.now ≡ slice_index_or self.old.chunk index result.now }
    {
        self.chunk.get_mut(index)
    }

    /// Two nodes at once.
    pub(crate) fn pair_mut(&mut self, a: usize, b: usize) -> (&mut T, &mut T)
        requires first_held { a < 256 }
        requires second_held { b < 256 }
        requires different { a ≢ b }
        ensures first { result.0.now ≡ slice_index_or self.old.chunk a result.0.now }
        ensures second { result.1.now ≡ slice_index_or self.old.chunk b result.1.now }
    {
        pair_of(self.chunk.nodes_mut(), a, b)
    }

    pub(crate) fn update_pair<R, F: FnOnce(&mut T, &mut T) -> R>(
        &mut self,
        a: usize,
        b: usize,
        f: F,
    ) -> R
        requires first_held { a < 256 }
        requires second_held { b < 256 }
        requires different { a ≢ b }
        requires callable { F.IsAlwaysCallable f }
        ensures { UpdatesBoth F.FnOnce f self.old.chunk a b result self.new.chunk }
    {
        self.chunk.update_pair(a, b, f)
    }
}
