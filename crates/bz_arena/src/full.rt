//! The chunks that have all their nodes.
ghost use Rattle.std.specs.Prelude.{◌≡◌, ◌≢◌, ◌+◌, ◌*◌, ◌/◌, ◌%◌, ◌<◌, ◌≤◌, ◌++◌, [], ◌∷◌, length, slice_index_or, OnOk, OnErr, IfErr};
ghost use Rattle.std.specs.Borrow.{sem};
ghost use Rattle.bz_arena.specs.Chunks.{joined};
ghost use Rattle.bz_arena.specs.Pairs.{UpdatesBoth};

use crate::chunk::{CHUNK_LEN, Chunk, FullChunk};
use crate::pair::pair_of;
use std::alloc::Allocator;
use std::marker::Model;
use std::mem;

// The most full chunks: of more, the nodes would not be counted by a `usize`. Memory ends long before.
const LIMIT: usize = 0x10_0000_0000_0000;

/// Full chunks in a list, and how many nodes they have. A contract sees all these nodes as one list.
#[derive(Drop)]
pub struct FullChunks<T, A: Allocator + Copy> {
    list: Vec<FullChunk<T, A>, A>,
    len: usize,
}

impl<T, A: Allocator + Copy> Model for FullChunks<T, A> {
    ghost use Rattle.std.specs.Prelude.{List, ◌≡◌, ◌*◌, ◌≤◌, length};
    ghost use Rattle.bz_arena.specs.Chunks.{joined};

    ghost Value = { List T };

    ghost view = { λ f. joined f.list.items };

    ghost invariant = { λ f. (f.len ≡ 256 * length f.list.items) × (length f.list.items ≤ 0x10_0000_0000_0000) };
}

impl<T, A: Allocator + Copy> FullChunks<T, A> {
    ghost use Rattle.bz_arena.specs.Lends.{lends_among};

    pub(crate) fn new(alloc: A) -> Self
        ensures { result ≡ [] }
    {
        FullChunks {
            list: Vec::new(alloc),
            len: 0,
        }
    }

    #[inline(always)]
    pub(crate) fn len(&self) -> usize
        ensures nodes { result ≡ length self.now }
        ensures whole { result % 256 ≡ 0 }
        ensures small { result ≤ 0x1000_0000_0000_0000 }
    {
        self.len
    }

    #[inline(always)]
    pub(crate) fn get(&self, index: usize) -> &T
        requires { index < length self.now }
        ensures { result.now ≡ slice_index_or self.now index result.now }
    {
        self.list[index / CHUNK_LEN].get(index % CHUNK_LEN)
    }

    #[inline(always)]
    pub(crate) fn get_mut(&mut self, index: usize) -> &mut T
        requires { index < length self.old }
        ensures* writes_back { sem 𝓛 (lends_among T.row A.row A.Allocator self.entry index result) }
        ensures value { result.now ≡ slice_index_or self.old index result.now }
    {
        let chunk = &mut self.list[index / CHUNK_LEN];
        chunk.get_mut(index % CHUNK_LEN)
    }

    /// Starts a new last chunk with `node`, and takes in the one that was there. The list grows first, so that nothing
    /// can be refused once the node is in its chunk.
    #[inline(never)]
    pub(crate) fn start(&mut self, last: &mut Chunk<T, A>, alloc: A, node: T) -> Result<(), T>
        requires { length last.old % 256 ≡ 0 }
        ensures appended { OnOk result (self.new ++ last.new ≡ (self.old ++ last.old) ++ node ∷ []) }
        ensures unchanged { OnErr result ((self.new ≡ self.old) × (last.new ≡ last.old)) }
        ensures handed_back { IfErr result (λ back. back ≡ node) }
    {
        if self.list.len() == LIMIT || self.list.reserve(1).is_err() {
            return Err(node);
        }
        let chunk = Chunk::with_node(alloc, node)?;
        let before = mem::replace(last, chunk);
        if before.len() == 0 {
            before.end();
            return Ok(());
        }
        match self.list.push(before.into_full()) {
            Ok(()) => {
                self.len += CHUNK_LEN;
                Ok(())
            }
            Err(_refused) => unreachable!(),
        }
    }

    pub(crate) fn pair_mut(&mut self, a: usize, b: usize) -> (&mut T, &mut T)
        requires first_held { a < length self.old }
        requires second_held { b < length self.old }
        requires different { a ≢ b }
        ensures first { result.0.now ≡ slice_index_or self.old a result.0.now }
        ensures second { result.1.now ≡ slice_index_or self.old b result.1.now }
    {
        let i = a / CHUNK_LEN;
        let j = b / CHUNK_LEN;
        if i == j {
            let chunk = &mut self.list[i];
            return chunk.pair_mut(a % CHUNK_LEN, b % CHUNK_LEN);
        }
        let (first, second) = pair_of(self.list.as_mut_slice(), i, j);
        (first.get_mut(a % CHUNK_LEN), second.get_mut(b % CHUNK_LEN))
    }

    pub(crate) fn update_pair<R, F: FnOnce(&mut T, &mut T) -> R>(
        &mut self,
        a: usize,
        b: usize,
        f: F,
    ) -> R
        requires first_held { a < length self.old }
        requires second_held { b < length self.old }
        requires different { a ≢ b }
        requires callable { F.IsAlwaysCallable f }
        ensures { UpdatesBoth F.FnOnce f self.old a b result self.new }
    {
        let i = a / CHUNK_LEN;
        let j = b / CHUNK_LEN;
        if i == j {
            let chunk = &mut self.list[i];
            return chunk.update_pair(a % CHUNK_LEN, b % CHUNK_LEN, f);
        }
        update_two(self.list.as_mut_slice(), a, b, f)
    }
}

// Hands nodes of two chunks to `f`.
fn update_two<T, A: Allocator + Copy, R, F: FnOnce(&mut T, &mut T) -> R>(
    list: &mut [FullChunk<T, A>],
    a: usize,
    b: usize,
    f: F,
) -> R
    requires first_held { a / 256 < length list.old }
    requires second_held { b / 256 < length list.old }
    requires different { a / 256 ≢ b / 256 }
    requires callable { F.IsAlwaysCallable f }
    ensures { UpdatesBoth F.FnOnce f (joined list.old) a b result (joined list.new) }
{
    let i = a / CHUNK_LEN;
    let j = b / CHUNK_LEN;
    if i < j {
        let (front, back) = list.split_at_mut(j);
        let first = &mut front[i];
        let second = &mut back[0];
        let x = first.get_mut(a % CHUNK_LEN);
        let y = second.get_mut(b % CHUNK_LEN);
        return f(x, y);
    }
    let (front, back) = list.split_at_mut(i);
    let first = &mut back[0];
    let second = &mut front[j];
    let x = first.get_mut(a % CHUNK_LEN);
    let y = second.get_mut(b % CHUNK_LEN);
    f(x, y)
}
