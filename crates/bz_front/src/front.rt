// The front and its seats.
ghost use Rattle.std.specs.Prelude.{◌≡◌, ◌+◌, ◌<◌, ◌≤◌, max, IfOk};

use crate::rule::{Greatest, Loaded, Parts, Raised};
use crate::view::View;
use atomic_table::{Seat, Table};
use std::alloc::Global;
use std::marker::Model;
use thiserror::Error;

/// Memory was refused.
#[derive(Clone, Copy, Debug, PartialEq, Eq, Error)]
#[error("Memory")]
pub struct Memory;

/// The greatest number published so far. Threads share it by reference, each with a seat of its own; it is cut into
/// parts, of which each seat has one or more.
#[derive(Drop)]
pub struct Front {
    table: Table<(), View, u64, Greatest, Global>,
}

impl Model for Front {
    ghost use Rattle.std.specs.Prelude.{◌≡◌};
    ghost use Rattle.bz_front.specs.Seen.{Place};

    ghost Value = { Place };

    ghost view = { λ f. record { table = f.table.shared.table_id; parts = f.table.shared.key } };

    ghost invariant = { λ f. (f.table.shared.table_id.words ≡ 1) × (f.table.shared.table_id.slots ≡ 0) };
}

/// What one thread has seen and published of a front. It has no bytes. A seat that is dropped takes its parts along,
/// and then no seat ever has them all.
#[derive(Drop)]
pub struct FrontSeat {
    seat: Seat<(), View>,
}

impl Model for FrontSeat {
    ghost use Rattle.std.specs.Prelude.{◌≡◌, ◌<◌, []};
    ghost use Rattle.bz_front.specs.Seen.{Known};

    ghost Value = { Known };

    ghost view = { λ s. record { table = s.seat.table_id; seen = s.seat.me.0.seen; published = s.seat.me.0.published; parts = s.seat.me.0.parts } };

    ghost invariant = { λ s. (s.seat.me.1 ≡ []) × (0 < s.seat.me.0.parts) };
}

impl Front {
    /// A front at 0, with the seat that has every part. No other call takes memory.
    pub fn new(alloc: Global, parts: u64) -> Result<(Front, FrontSeat), Memory>
        requires { 0 < parts }
        ensures front { IfOk result (λ r. (r.0.parts ≡ parts) × (r.1.table ≡ r.0.table)) }
        ensures seat { IfOk result (λ r. (r.1.seen ≡ 0) × (r.1.published ≡ 0) × (r.1.parts ≡ parts)) }
    {
        match Table::of_words(alloc, &[0], &parts) {
            Ok((table, seat)) => Ok((Front { table }, FrontSeat { seat })),
            Err(_) => Err(Memory),
        }
    }

    /// Raises the front to `n`, where it is below.
    pub fn publish(&self, seat: &mut FrontSeat, n: u64)
        requires { seat.old.table ≡ self.now.table }
        ensures same { (seat.new.table ≡ seat.old.table) × (seat.new.parts ≡ seat.old.parts) }
        ensures seen { (n ≤ seat.new.seen) × (seat.old.seen ≤ seat.new.seen) }
        ensures published { seat.new.published ≡ max seat.old.published n }
    {
        self.table.shared.fetch_max::<Raised>(&mut seat.seat, 0, n);
    }

    /// The front as it is now.
    pub fn read(&self, seat: &mut FrontSeat) -> u64
        requires { seat.old.table ≡ self.now.table }
        ensures same { (seat.new.table ≡ seat.old.table) × (seat.new.parts ≡ seat.old.parts) × (seat.new.published ≡ seat.old.published) }
        ensures later { seat.old.seen ≤ result }
        ensures seen { seat.new.seen ≡ result }
    {
        self.table.shared.load::<Loaded>(&mut seat.seat, 0)
    }

    /// Takes one part off, for a seat that has seen as much.
    pub fn split(&self, seat: &mut FrontSeat) -> FrontSeat
        requires { (seat.old.table ≡ self.now.table) × (2 ≤ seat.old.parts) }
        ensures left { (seat.new.table ≡ seat.old.table) × (seat.new.seen ≡ seat.old.seen) × (seat.new.published ≡ seat.old.published) × (seat.new.parts + 1 ≡ seat.old.parts) }
        ensures right { (result.table ≡ seat.old.table) × (result.seen ≡ seat.old.seen) × (result.published ≡ 0) × (result.parts ≡ 1) }
    {
        let part = self.table.shared.split_seat::<Parts>(&mut seat.seat);
        FrontSeat { seat: part }
    }

    /// Takes another seat in.
    pub fn join(&self, seat: &mut FrontSeat, other: FrontSeat)
        requires { (seat.old.table ≡ self.now.table) × (other.table ≡ self.now.table) }
        ensures same { seat.new.table ≡ seat.old.table }
        ensures seen { seat.new.seen ≡ max seat.old.seen other.seen }
        ensures published { seat.new.published ≡ max seat.old.published other.published }
        ensures parts { seat.new.parts ≡ seat.old.parts + other.parts }
    {
        let FrontSeat { seat: other } = other;
        self.table.shared.join_seat::<Parts>(&mut seat.seat, other);
    }

    /// The front at the end.
    pub fn close(self, seat: FrontSeat) -> u64
        requires { seat.table ≡ self.table }
        ensures later { seat.seen ≤ result }
        ensures greatest { seat.parts ≡ self.parts → result ≡ seat.published }
    {
        let Front { table } = self;
        let FrontSeat { seat } = seat;
        let closed = table.close_with(seat);
        let greatest = closed.word(0);
        closed.free();
        greatest
    }
}
