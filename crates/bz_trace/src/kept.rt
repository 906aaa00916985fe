//! Lines of a trace that are kept, so that the reason of a verdict can be shown without the rest of the trace.

use std::alloc::Global;

/// The line that a verdict names, with what else of the trace is held there. Nothing that is kept has a part in a verdict.
#[derive(Drop)]
pub struct KeptLines {
    /// Whether lines are to be kept.
    keeps: bool,
    first: usize,
    lines: Vec<u8>,
    is_short: bool,
}

impl KeptLines {
    /// No lines yet; or none at all, where none are to be kept.
    pub fn new(alloc: Global, keeps: bool) -> KeptLines {
        KeptLines {
            keeps,
            first: 1,
            lines: Vec::new(alloc),
            is_short: false,
        }
    }

    /// The number of the first line that is kept.
    pub fn first(&self) -> usize {
        self.first
    }

    /// The lines. `None` where memory was wanting for them, or none were to be kept.
    pub fn lines(&self) -> Option<&[u8]> {
        if self.keeps && !self.is_short {
            Some(self.lines.as_slice())
        } else {
            None
        }
    }

    /// Whether lines are to be kept.
    pub(crate) fn keeps(&self) -> bool {
        self.keeps
    }

    /// Keeps these lines, of which the first has this number, in place of what was kept.
    pub(crate) fn keep(&mut self, first: usize, lines: &[u8]) {
        if self.keeps {
            self.first = first;
            self.lines.clear();
            self.is_short = self.lines.extend_from_slice(lines).is_err();
        }
    }

    /// Keeps one of these lines, by its number, where the first of them has the number `first`.
    pub(crate) fn keep_one(&mut self, number: usize, first: usize, lines: &[u8]) {
        if self.keeps {
            self.keep(number, line_of(lines, number.saturating_sub(first)));
        }
    }
}

// The line before which so many stand, with its end.
fn line_of(lines: &[u8], before: usize) -> &[u8] {
    let mut ends = 0usize;
    let mut start = 0usize;
    for (place, byte) in lines.iter().enumerate() {
        if *byte == b'\n' {
            if ends == before {
                return lines.get(start..=place).unwrap_or(b"");
            }
            ends = ends.saturating_add(1);
            start = place.saturating_add(1);
        }
    }
    lines.get(start..).unwrap_or(b"")
}
