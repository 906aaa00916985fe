//! Numbers that are spelled once, for many lines.

ghost use Rattle.bz_trace_text.specs.Spelling.{AreSpelled};

use crate::numeral::{Numeral, numeral_of};
use std::alloc::Global;

/// How many numbers are spelled at least, for small values.
const LEAST: usize = 1_000;

/// How many numbers are spelled at most.
const MOST: usize = 16_384;

/// The digits of the numbers from 0 on, up to some number.
#[derive(Drop)]
pub(crate) struct Spelled {
    numbers: Vec<Numeral>,
    ghost told: { AreSpelled numbers.items },
}

impl Spelled {
    /// Those of the numbers below `count`, but at least 1,000 and at most 16,384 of them, or as many as there is memory for.
    pub(crate) fn new(alloc: Global, count: usize) -> Spelled {
        Spelled::below(alloc, count.max(LEAST))
    }

    /// Those of the numbers below `count`, but at most 16,384 of them, or as many as there is memory for.
    pub(crate) fn below(alloc: Global, count: usize) -> Spelled {
        let mut numbers = Vec::new(alloc);
        for n in 0..count.min(MOST) {
            if numbers.push(numeral_of(n as u32)).is_err() {
                return Spelled { numbers };
            }
        }
        Spelled { numbers }
    }

    #[inline(always)]
    pub(crate) fn as_slice(&self) -> &[Numeral]
        ensures { AreSpelled result.now }
    {
        &self.numbers
    }
}
