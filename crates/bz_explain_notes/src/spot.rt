//! Lines and columns of a text.

ghost use Rattle.std.specs.Prelude.{◌≡◌, ◌≤◌, length};
ghost use Rattle.std.specs.List.{suffix_len};
ghost use Rattle.bz_source.specs.Lines.{line_at};
ghost use Rattle.bz_explain_notes.specs.Columns.{column_at, within_line};

use bz_source::LineCounter;
use bz_view::Spot;

/// Where a byte of the text stands, counted from 0.
pub fn spot_of(text: &[u8], byte: usize) -> Spot
    ensures line { result.line ≡ line_at text.now byte }
    ensures column { result.column ≡ column_at text.now byte }
{
    let line = LineCounter::new(text).line_of(byte);
    let (front, _behind) = text.split_at(byte.min(text.len()));
    Spot {
        line,
        column: before_in_line(front) + 1,
    }
}

/// How many bytes of the last line of a text there are.
pub fn before_in_line(front: &[u8]) -> usize
    ensures count { result ≡ suffix_len within_line front.now }
    ensures few { result ≤ length front.now }
{
    let mut start = front.len();
    while start > 0 {
        if front[start - 1] == b'\n' {
            break;
        }
        start -= 1;
    }
    front.len() - start
}
