//! Which lines of a trace are drawn.

ghost use Rattle.std.specs.Prelude.{◌≡◌, ◌+◌, ◌-◌, ◌≤◌, ◌<◌, ◌^◌};

/// Lines of a trace, one after another. They count from 1, and the first, which names the version, is none of them.
#[derive(Clone, Copy, PartialEq, Eq)]
pub struct Piece {
    pub first: usize,
    pub rows: u32,

    ghost behind: { 2 ≤ first },
    ghost low: { first < 2 ^ 63 },
}

impl Piece {
    /// The number of the last line, or of the one before the first where there is none.
    pub fn last(self) -> usize
        ensures { result ≡ self.first + self.rows - 1 }
    {
        self.first - 1 + self.rows as usize
    }
}
