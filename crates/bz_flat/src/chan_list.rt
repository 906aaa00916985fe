//! Lists of channels, most of which are short.

ghost use Rattle.std.specs.Prelude.{◌≡◌, ◌≤◌, ◌<◌, ◌^◌, length, take, IfOk};

use std::alloc::{AllocError, Global};
use std::marker::Model;
use std::ops::DerefSlice;

/// The greatest number of channels that stand in a list itself.
pub const CHANS_IN_PLACE: usize = 6;

/// Numbers of channels in a row, which take no memory of their own where there are at most six.
#[derive(Drop)]
pub struct ChanList {
    held: HeldChans,
}

/// Where the numbers are.
#[derive(Drop)]
pub(crate) enum HeldChans {
    Few {
        chans: [u32; CHANS_IN_PLACE],
        len: u8,
    },
    Many(Vec<u32>),
}

impl Model for ChanList {
    ghost use Rattle.bz_flat.specs.Lists.{Numbers, numbers_held, IsWithin};

    ghost Value = { Numbers };

    ghost view = { λ list. record { items = numbers_held list.held } };

    ghost invariant = { λ list. IsWithin list.held };
}

impl ChanList {
    /// The first `len` of these numbers.
    #[inline(always)]
    pub fn few(chans: [u32; CHANS_IN_PLACE], len: usize) -> ChanList
        requires { len ≤ 6 }
        ensures { result.items ≡ take len chans }
    {
        ChanList {
            held: HeldChans::Few {
                chans,
                len: len as u8,
            },
        }
    }

    /// These numbers, where they are.
    #[inline(always)]
    pub fn many(chans: Vec<u32>) -> ChanList
        ensures { result.items ≡ chans.items }
    {
        ChanList {
            held: HeldChans::Many(chans),
        }
    }

    /// The numbers, in order.
    #[inline(always)]
    pub fn as_slice(&self) -> &[u32]
        ensures value { result.now ≡ self.now.items }
        ensures len { length result.now ≡ length self.now.items }
    {
        match &self.held {
            HeldChans::Few { chans, len } => &chans[..*len as usize],
            HeldChans::Many(chans) => chans.as_slice(),
        }
    }

    /// How many they are.
    #[inline(always)]
    pub fn len(&self) -> usize
        ensures count { result ≡ length self.now.items }
        ensures within { result < 2 ^ 62 }
    {
        self.as_slice().len()
    }

    /// The same list.
    pub fn dup(&self, alloc: Global) -> Result<ChanList, AllocError>
        ensures { IfOk result (λ list. list.items ≡ self.now.items) }
    {
        let held = match &self.held {
            HeldChans::Few { chans, len } => HeldChans::Few {
                chans: *chans,
                len: *len,
            },
            HeldChans::Many(chans) => HeldChans::Many(Vec::from_slice(alloc, chans)?),
        };
        Ok(ChanList { held })
    }
}

impl DerefSlice for ChanList {
    type Elem = u32;

    ghost deref_gives = { λ list xs. (xs ≡ list.items) × (length xs ≡ length list.items) };

    #[inline(always)]
    fn deref(&self) -> &[u32]
        ensures value { result.now ≡ self.now.items }
        ensures len { length result.now ≡ length self.now.items }
    {
        self.as_slice()
    }
}
