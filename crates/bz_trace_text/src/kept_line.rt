//! A line of a firing that is kept.

ghost use Rattle.std.specs.Prelude.{◌≤◌};

/// What the line of a firing tells but for its value, from its component on.
#[derive(Clone, Copy)]
pub(crate) struct KeptLine {
    /// The text, with a line feed behind.
    pub(crate) first: [u8; 8],
    pub(crate) second: [u8; 8],
    /// How many of these bytes are of the text, with the line feed.
    pub(crate) len: usize,
    /// The component, or a greater number than any where no line is kept.
    pub(crate) comp: u64,
    ghost within: { len ≤ 16 },
}

/// No line.
pub(crate) const NO_LINE: KeptLine = KeptLine {
    first: [0; 8],
    second: [0; 8],
    len: 0,
    comp: u64::MAX,
};
