//! Which lines of a trace are asked for.
//!
//! Line 1 has no row, so a `--from` below 2 means line 2, and where `--to` names a line before it the error is `--from 2 is
//! above --to 1`. A trace of no further line is drawn without rows, where no first line is asked for. A range of more than
//! 2,000 lines is too long also where both ends are given. Where something is picked only the lines that are shown count, which is
//! known later.

ghost use Rattle.std.specs.Prelude.{◌<◌, ◌^◌, IfOk, IfErr};
ghost use Rattle.bz_chart.specs.Pieces.{IsNoPiece, IsPiece};

use bz_chart_layout::Piece;
use std::fmt;

/// The most lines that a chart holds.
pub(crate) const MOST_ROWS: usize = 2000;

/// The lines that are asked for, counted from 1: from the second one on where no first one is named, since the first line of a
/// trace names its version and has no row; to the end where no last one is.
#[derive(Clone, Copy, PartialEq, Eq)]
pub struct LineRange {
    pub from: Option<usize>,
    pub to: Option<usize>,
    /// Whether only those of them are drawn that show something of what is picked.
    pub picks: bool,
}

/// Why the lines that are asked for are not drawn.
#[derive(Clone, Copy, PartialEq, Eq)]
pub enum PieceFault {
    /// The first line is behind the last.
    Above {
        from: usize,
        to: usize,
    },
    /// The last line isn't there.
    NoLast {
        to: usize,
        lines: usize,
    },
    /// The first line isn't there.
    NoFirst {
        from: usize,
        lines: usize,
    },
    /// From the first to the last line there are more than a chart holds, in a trace of so many.
    TooLong {
        from: usize,
        to: usize,
        lines: usize,
    },
    /// The word of this number, counted from 1, picks nothing that the net has.
    NoPick {
        word: usize,
    },
    /// So many lines show something of what is picked, and that is more than a chart holds.
    TooMany {
        rows: usize,
    },
}

impl fmt::Display for PieceFault {
    fn fmt<W: fmt::Write>(&self, f: &mut fmt::Formatter<W>) -> fmt::Result {
        match self {
            PieceFault::Above { from, to } => write!(f, "--from {from} is above --to {to}"),
            PieceFault::NoLast { to, lines } => {
                write!(f, "--to {to}: the trace has {lines} lines")
            }
            PieceFault::NoFirst { from, lines } => {
                write!(f, "--from {from}: the trace has {lines} lines")
            }
            PieceFault::NoPick { word } => write!(
                f,
                "--only: word {word} is no component, channel or port of the net"
            ),
            PieceFault::TooMany { rows } => {
                write!(
                    f,
                    "a chart holds 2000 lines, and {rows} are to be shown: give --from and --to"
                )
            }
            PieceFault::TooLong { from, to, lines } => {
                let rows = to.saturating_sub(*from).saturating_add(1);
                write!(
                    f,
                    "a chart holds 2000 lines, and lines {from} to {to} are {rows}: give --from and --to (the trace has {lines} lines)"
                )
            }
        }
    }
}

/// The lines of this range of a trace that has so many lines.
pub(crate) fn piece_of(range: LineRange, lines: usize) -> Result<Piece, PieceFault>
    requires { lines < 2 ^ 32 }
    ensures ok { IfOk result (λ piece. IsPiece range lines piece.first piece.rows) }
    ensures err { IfErr result (λ fault. IsNoPiece range lines fault) }
{
    let first = range.from.unwrap_or(2).max(2);
    let last = match range.to {
        Some(to) if to < first => return Err(PieceFault::Above { from: first, to }),
        Some(to) if to > lines => return Err(PieceFault::NoLast { to, lines }),
        Some(to) => to,
        None if range.from.is_some() && first > lines => {
            return Err(PieceFault::NoFirst { from: first, lines });
        }
        None => lines,
    };
    let rows = (last + 1).saturating_sub(first);
    if rows > MOST_ROWS && !range.picks {
        return Err(PieceFault::TooLong {
            from: first,
            to: last,
            lines,
        });
    }
    Ok(Piece {
        first,
        rows: rows as u32,
    })
}
