//! Values that are kept as they are spelled, since the same value stands in the lines of many moves.

ghost use Rattle.std.specs.Prelude.{◌<◌, IfSome};
ghost use Rattle.bz_trace_text.specs.Spelling.{Spells};

use crate::numeral::{Numeral, numeral_of};
use bz_model::Value;

/// How many values are kept.
const PLACES: usize = 64;

/// What a value must be below so that it has a numeral.
const LIMIT: Value = 1_000_000;

/// A value and its numeral.
#[derive(Clone, Copy)]
struct KeptValue {
    value: u32,
    numeral: Numeral,
    ghost spelled: { Spells numeral value },
}

/// The values that were kept last, each in the place that its low bits tell.
#[derive(Drop)]
pub(crate) struct KeptValues {
    values: [KeptValue; PLACES],
}

impl KeptValues {
    /// None is kept but 0.
    pub(crate) fn new() -> KeptValues {
        KeptValues {
            values: [kept(0); PLACES],
        }
    }

    /// The numeral of a value, where it is kept.
    #[inline(always)]
    pub(crate) fn find(&self, value: Value) -> Option<Numeral>
        ensures { IfSome result (λ numeral. Spells numeral value) }
    {
        let found = self.values[place_of(value)];
        if Value::from(found.value) == value {
            Some(found.numeral)
        } else {
            None
        }
    }

    /// Keeps a value from now on, where it has a numeral. Another one may have to make room.
    #[cold]
    #[inline(never)]
    pub(crate) fn keep(&mut self, value: Value) {
        if value < LIMIT {
            let place = place_of(value);
            self.values[place] = kept(value as u32);
        }
    }
}

#[inline(always)]
fn place_of(value: Value) -> usize
    ensures { result < 64 }
{
    (value % PLACES as Value) as usize
}

fn kept(value: u32) -> KeptValue
    requires { value < 1000000 }
{
    KeptValue {
        value,
        numeral: numeral_of(value),
    }
}
