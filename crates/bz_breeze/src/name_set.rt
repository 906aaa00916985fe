//! Names that are seen for the first time, or were seen before.

ghost use Rattle.std.specs.Prelude.{◌≡◌, [], ◌∷◌, ◌++◌, not, bytes_eq, if◌then◌else◌, IfOk, OnErr};
ghost use Rattle.std.specs.List.{list_any};

use indexmap::IndexSet;
use std::alloc::{AllocError, Global};
use std::hash::{BuildHasherDefault, DefaultHasher};
use std::marker::Model;

// Names come from whoever wrote the text. By this hash, SipHash, two names that are alike give no others that are, as they do
// by the library's default.
type NameHasher = BuildHasherDefault<DefaultHasher>;

/// Different names, in the order in which they came.
#[derive(Drop)]
pub struct NameSet {
    names: IndexSet<Vec<u8>, NameHasher>,
}

impl Model for NameSet {
    ghost use Rattle.std.specs.Prelude.{ℕ, List, map};

    ghost Value = { List (List ℕ) };

    ghost view = { λ s. map (λ v. v.items) s.names.keys };
}

impl NameSet {
    pub fn new(alloc: Global) -> NameSet
        ensures { result ≡ [] }
    {
        NameSet {
            names: IndexSet::with_hasher(alloc, BuildHasherDefault::new()),
        }
    }

    /// Adds a name that is not there yet, and says whether it was new.
    pub fn insert(&mut self, alloc: Global, name: &[u8]) -> Result<bool, AllocError>
        ensures new { IfOk result (λ new. new ≡ not (list_any (bytes_eq name.now) self.old)) }
        ensures names { IfOk result (λ new. self.new ≡ (if new then self.old ++ name.now ∷ [] else self.old)) }
        ensures err { OnErr result (self.new ≡ self.old) }
    {
        let name = Vec::from_slice(alloc, name)?;
        let new = self.names.insert(name)?;
        Ok(new)
    }
}
