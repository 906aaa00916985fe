// The rule of the hints, and what each call tells.
ghost use Rattle.bz_pool_hints.specs.HintRules.{Kept, first, guest, Puts, Takes, FindsNone, Told, kept, handed, gathered};

use crate::hint::log::Log;
use crossbeam_deque::protocol::{Join, Lesson, Outcome, Protocol, Split};

pub struct InOrder;

impl Protocol<u32, Log> for InOrder {
    ghost holds = { Kept };

    ghost first = { first };

    ghost guest = { guest };
}

pub struct Put;

impl Outcome<u32, Log> for Put {
    ghost then = { Puts };
}

pub struct Taken;

impl Outcome<u32, Log> for Taken {
    ghost then = { Takes };

    ghost empty = { FindsNone };
}

pub struct Account;

impl Lesson<u32, Log> for Account {
    ghost fact = { Told };
}

pub struct Beside;

impl Join<Log> for Beside {
    ghost both = { gathered };

    ghost spent = { guest };
}

impl Split<Log> for Beside {
    ghost left = { kept };

    ghost right = { handed };
}
