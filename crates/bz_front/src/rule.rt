// The rule of the one word, and what each step on it tells its seat.
ghost use Rattle.bz_front.specs.Rules.{Holds, Loads, Raises, view, spent, remaining, split_off, joined};

use crate::view::View;
use atomic_table::{Join, Play, Split, TableRule};

pub struct Greatest;

impl TableRule<(), View, u64> for Greatest {
    ghost holds = { Holds };

    ghost first = { λ parts. view 0 0 parts };
}

pub struct Loaded;

impl Play<(), View> for Loaded {
    ghost then = { Loads };
}

pub struct Raised;

impl Play<(), View> for Raised {
    ghost then = { Raises };
}

pub struct Parts;

impl Split<View> for Parts {
    ghost left = { remaining };

    ghost right = { split_off };
}

impl Join<View> for Parts {
    ghost both = { joined };

    ghost spent = { spent };
}
