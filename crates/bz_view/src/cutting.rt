//! Lines of which some are left out where there are many.

use crate::piece::Piece;
use bz_text::Text;

/// The most lines that are told of one command, and half of them.
pub const MOST_LINES: usize = 40;

pub const HALF: usize = MOST_LINES / 2;

/// How many lines are left out.
pub const MORE: &str = ".. % lines more\n";

/// Which lines are left out of more than `most`: all but the first `first` and the last `last`.
#[derive(Clone, Copy)]
pub struct Cut {
    pub most: usize,
    pub first: usize,
    pub last: usize,
}

/// The first half and the last half of what is told of one command.
pub const HALVES: Cut = Cut {
    most: MOST_LINES,
    first: HALF,
    last: HALF,
};

impl Cut {
    /// The front of the lines, with the line that says how many are left out at most this many.
    pub(crate) fn front(most: usize) -> Cut {
        Cut {
            most,
            first: most.saturating_sub(1),
            last: 0,
        }
    }

    /// Of this many lines: where those that are left out begin, and where they end.
    pub fn left_out(self, count: usize) -> (usize, usize) {
        if count > self.most {
            (self.first, count.saturating_sub(self.last))
        } else {
            (count, count)
        }
    }
}

/// Adds lines but for those that are left out, which are counted by a form.
pub(crate) fn put_cut(lines: &Text, cut: Cut, more: &str, text: &mut Text) {
    let Ok(lines) = lines.whole() else {
        text.lose();
        return;
    };
    let (first, end) = cut.left_out(count_lines(lines));
    for (place, line) in lines.split_inclusive(|byte| *byte == b'\n').enumerate() {
        if place == first {
            put_left_out(end.saturating_sub(first), more, text);
        }
        if place < first || place >= end {
            text.put_bytes(line);
        }
    }
}

/// Adds how many lines are left out, if any are.
pub fn put_left_out(count: usize, form: &str, text: &mut Text) {
    if count > 0 {
        text.say(form, &[Piece::Number(count)]);
    }
}

/// How many lines end in a text.
pub fn count_lines(text: &[u8]) -> usize {
    text.iter().filter(|byte| **byte == b'\n').count()
}
