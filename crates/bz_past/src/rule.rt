// The rule of all tokens of one past, and what each step tells its token.
ghost use Rattle.bz_past.specs.Rules.{Holds, first, keeper_of, nothing_of, gone, with_host, host_of, with_worker, worker_of, joined, keeper_again, other_again, Acted, Halted, TakenBack, TakenIn, Told};

use crate::mark::Mark;
use crate::view::View;
use atomic_table::{Join, Play, Split, TableRule};
use bz_net::Net;
use std::marker::PhantomData;

pub struct Onward;

impl TableRule<(), View, Net> for Onward {
    ghost holds = { Holds };

    ghost first = { first };
}

/// A new moment has come, by an owner's entries.
pub struct ByOwner<B: Mark>(PhantomData<B>);

impl<B: Mark> Play<(), View> for ByOwner<B> {
    ghost then = { λ s m found n. Acted B.moment m n };
}

/// A new moment has come, by no entry and by the stopper.
pub struct ByStopper<B: Mark>(PhantomData<B>);

impl<B: Mark> Play<(), View> for ByStopper<B> {
    ghost then = { λ s m found n. Halted B.moment m n };
}

/// The owner that the keeper has is taken in.
pub struct TakesIn;

impl Play<(), View> for TakesIn {
    ghost then = { λ s m found n. TakenIn m n };
}

/// The stopper that the keeper has is taken in.
pub struct TakesBack;

impl Play<(), View> for TakesBack {
    ghost then = { λ s m found n. TakenBack m n };
}

/// The keeper is told whose entries there are, and why all was stopped.
pub struct Tells;

impl Play<(), View> for Tells {
    ghost then = { λ s m found n. Told m n };
}

/// A token of nothing, which keeps a place.
pub struct Nothing;

impl Split<View> for Nothing {
    ghost left = { keeper_of };

    ghost right = { nothing_of };
}

/// The owner of the next host.
pub struct NextHost;

impl Split<View> for NextHost {
    ghost left = { with_host };

    ghost right = { host_of };
}

/// The owner of the next worker.
pub struct NextWorker;

impl Split<View> for NextWorker {
    ghost left = { with_worker };

    ghost right = { worker_of };
}

/// The keeper, and the owner that acted or the stopper.
pub struct Parts;

impl Split<View> for Parts {
    ghost left = { keeper_again };

    ghost right = { other_again };
}

/// The keeper, with an owner that acts or with the stopper.
pub struct Joins;

impl Join<View> for Joins {
    ghost both = { joined };

    ghost spent = { gone };
}
