//! The arena: its full chunks, and the last chunk.
ghost use Rattle.std.specs.Prelude.{◌≡◌, ◌↔◌, ◌<◌, ◌++◌, ◌%◌, [], ◌∷◌, length, slice_index_or, IsTrue, OnOk, OnErr, IfOk, IfErr};
ghost use Rattle.std.specs.List.{range_with_len};
ghost use Rattle.std.specs.Borrow.{sem};

use crate::chunk::{CHUNK_LEN, Chunk};
use crate::full::FullChunks;
use crate::id::{Id, Ids};
use std::alloc::{Allocator, Global};
use std::marker::Model;

mod pairs;

/// A list of nodes that never move. A contract sees it as that list.
#[derive(Drop)]
pub struct Arena<T, A: Allocator + Copy = Global> {
    full: FullChunks<T, A>,
    last: Chunk<T, A>,
    alloc: A,
}

impl<T, A: Allocator + Copy> Model for Arena<T, A> {
    ghost use Rattle.std.specs.Prelude.{List, ◌++◌};

    ghost Value = { List T };

    ghost view = { λ a. a.full ++ a.last };
}

impl<T, A: Allocator + Copy> Arena<T, A> {
    ghost use Rattle.bz_arena.specs.Lends.{lends_node};

    pub fn new(alloc: A) -> Self
        ensures { result ≡ [] }
    {
        Arena {
            full: FullChunks::new(alloc),
            last: Chunk::new(),
            alloc,
        }
    }

    /// Appends `node`, or hands it back where there was no memory. Only every 256th push asks for any.
    #[inline(always)]
    pub fn push(&mut self, node: T) -> Result<Id<T>, T>
        ensures appended { OnOk result (self.new ≡ self.old ++ node ∷ []) }
        ensures id { IfOk result (λ id. id ≡ length self.old) }
        ensures unchanged { OnErr result (self.new ≡ self.old) }
        ensures handed_back { IfErr result (λ back. back ≡ node) }
        ensures full { OnErr result (length self.old % 256 ≡ 0) }
    {
        let used = self.last.len();
        let index = self.full.len() + used;
        if used % CHUNK_LEN == 0 {
            self.full.start(&mut self.last, self.alloc, node)?;
        } else {
            self.last.push(node);
        }
        Ok(Id::at(index))
    }

    #[inline(always)]
    pub fn len(&self) -> usize
        ensures { result ≡ length self.now }
    {
        self.full.len() + self.last.len()
    }

    pub fn holds(&self, id: Id<T>) -> bool
        ensures { IsTrue result ↔ (id < length self.now) }
    {
        id.index() < self.len()
    }

    pub fn ids(&self) -> Ids<T>
        ensures { result ≡ range_with_len 0 (length self.now) }
    {
        Ids::first(self.len())
    }

    #[inline(always)]
    pub fn get(&self, id: Id<T>) -> &T
        requires { id < length self.now }
        ensures { result.now ≡ slice_index_or self.now id result.now }
    {
        let index = id.index();
        let start = self.full.len();
        if index < start {
            return self.full.get(index);
        }
        self.last.get(index - start)
    }

    #[inline(always)]
    pub fn get_mut(&mut self, id: Id<T>) -> &mut T
        requires { id < length self.old }
        ensures* writes_back { sem 𝓛 (lends_node T.row A.row A.Allocator self.entry id result) }
        ensures value { result.now ≡ slice_index_or self.old id result.now }
    {
        let index = id.index();
        let start = self.full.len();
        if index < start {
            return self.full.get_mut(index);
        }
        self.last.get_mut(index - start)
    }
}
