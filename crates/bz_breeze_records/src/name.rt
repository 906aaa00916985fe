//! The names of components.

ghost use Rattle.std.specs.Prelude.{◌≡◌, ◌≤◌, length, IfOk};

use crate::held::Held;
use std::alloc::{AllocError, Global};
use std::marker::Model;

/// The greatest number of bytes of a name that stands in its place.
const ROOM: usize = 24;

/// A name, which takes no memory of its own where it has at most 24 bytes.
#[derive(Drop)]
pub struct Name {
    held: Held,
}

impl Model for Name {
    ghost use Rattle.bz_breeze_records.specs.Held.{Bytes, bytes_held, IsWithin};

    ghost Value = { Bytes };

    ghost view = { λ name. record { items = bytes_held name.held } };

    ghost invariant = { λ name. IsWithin name.held };
}

impl Name {
    /// The name of these bytes.
    pub fn of(alloc: Global, bytes: &[u8]) -> Result<Name, AllocError>
        ensures { IfOk result (λ name. name.items ≡ bytes.now) }
    {
        if bytes.len() > ROOM {
            return Name::long(alloc, bytes);
        }
        Ok(Name::short(bytes))
    }

    fn long(alloc: Global, bytes: &[u8]) -> Result<Name, AllocError>
        ensures { IfOk result (λ name. name.items ≡ bytes.now) }
    {
        let bytes = Vec::from_slice(alloc, bytes)?;
        Ok(Name {
            held: Held::Long(bytes),
        })
    }

    #[inline(always)]
    fn short(bytes: &[u8]) -> Name
        requires { length bytes.now ≤ 24 }
        ensures { result.items ≡ bytes.now }
    {
        let len = bytes.len();
        let mut short = [0u8; ROOM];
        short[..len].copy_from_slice(bytes);
        Name {
            held: Held::Short {
                bytes: short,
                len: len as u8,
            },
        }
    }

    /// Its bytes.
    #[inline(always)]
    pub fn as_slice(&self) -> &[u8]
        ensures value { result.now ≡ self.now.items }
    {
        match &self.held {
            Held::Short { bytes, len } => &bytes[..*len as usize],
            Held::Long(bytes) => bytes.as_slice(),
        }
    }
}

impl PartialEq for Name {
    ghost use Rattle.std.specs.Prelude.{nat_eq};
    ghost use Rattle.std.specs.Cmp.{on_per, partial_equiv_from_equiv};
    ghost use Rattle.std.specs.Cmp.Lexicographic.{pointwise, nat_list_eq_equiv};

    ghost eq = { λ x y. pointwise nat_eq x.items y.items };

    ghost laws = { on_per (λ x. x.items) (partial_equiv_from_equiv nat_list_eq_equiv) };

    fn eq(&self, other: &Name) -> bool {
        self.as_slice() == other.as_slice()
    }
}

impl Eq for Name {
    ghost use Rattle.std.specs.Cmp.{on_equiv};
    ghost use Rattle.std.specs.Cmp.Lexicographic.{nat_list_eq_equiv};

    ghost laws = { on_equiv (λ x. x.items) nat_list_eq_equiv };
}
