//! The lanes beside a lifeline, in which requests and replies wait until they come in.
//!
//! The last lane is shared: of requests in it each keeps it in use until it has come in itself.

ghost use Rattle.std.specs.Prelude.{◌≤◌, ◌<◌, ◌+◌, ◌-◌, ◌^◌};

/// The greatest lane, which those share that find no other one free.
const LAST_LANE: u32 = 5;

/// A side of a lifeline, or the way to it.
#[derive(Clone, Copy)]
pub(crate) enum Side {
    Left,
    Right,
}

impl Side {
    pub fn other(self) -> Side {
        match self {
            Side::Left => Side::Right,
            Side::Right => Side::Left,
        }
    }

    /// So far from a place, on this side.
    pub fn from(self, x: u64, by: u64) -> u64
        requires left { by ≤ x }
        requires right { x + by < 2 ^ 64 }
        ensures left { x - by ≤ result }
        ensures right { result ≤ x + by }
    {
        match self {
            Side::Left => x - by,
            Side::Right => x + by,
        }
    }
}

/// How many are in each lane of one side.
#[derive(Clone, Copy)]
pub(crate) struct Lanes {
    counts: [u32; 6],
}

impl Lanes {
    pub const FREE: Lanes = Lanes { counts: [0; 6] };

    /// Takes the least lane that is free, else the last one.
    pub fn take(&mut self) -> u32
        ensures { result ≤ 5 }
    {
        for lane in 0..LAST_LANE {
            if self.counts[lane as usize] == 0 {
                self.counts[lane as usize] = 1;
                return lane;
            }
        }
        self.counts[5] = self.counts[5].saturating_add(1);
        LAST_LANE
    }

    pub fn leave(&mut self, lane: u32)
        requires { lane ≤ 5 }
    {
        let count = &mut self.counts[lane as usize];
        *count = count.saturating_sub(1);
    }

    /// How far from the lifeline there is room beside those in use.
    pub fn room(&self) -> u64
        ensures low { 8 ≤ result }
        ensures high { result ≤ 36 }
    {
        let mut room = 8;
        for lane in 0..=LAST_LANE {
            if self.counts[lane as usize] > 0 {
                room = 16 + 4 * u64::from(lane);
            }
        }
        room
    }
}
