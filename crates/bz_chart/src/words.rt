//! Words of a chart, by the letters that are shown of them.

ghost use Rattle.std.specs.Prelude.{◌≤◌, length};

/// Letters, of which at most so many are shown, each a byte but for a sign at the front: of longer ones the last that is shown is an ellipsis.
#[derive(Clone, Copy)]
pub(crate) struct Cut<'a> {
    pub text: &'a [u8],
    pub most: usize,
}

impl<'a> Cut<'a> {
    pub fn new(text: &'a [u8], most: usize) -> Cut<'a> {
        Cut { text, most }
    }

    /// All of them.
    pub fn whole(text: &'a [u8]) -> Cut<'a> {
        Cut::new(text, usize::MAX)
    }

    /// How many letters are shown.
    pub fn letters(self) -> u32 {
        u32::try_from(self.text.len().min(self.most)).unwrap_or(u32::MAX)
    }
}

/// How many letters stand in a line of a column.
pub(crate) const LINE_LETTERS: u32 = 8;

/// How many letters of a kind's name stand in the first of its lines: whole words, as many as go into it, and one at least.
pub(crate) fn first_line(kind: &[u8]) -> usize
    ensures { result ≤ length kind.now }
{
    let mut end = 0;
    for place in 1..kind.len() {
        if kind[place].is_ascii_uppercase() && (end == 0 || place <= LINE_LETTERS as usize) {
            end = place;
        }
    }
    if end > 0 && kind.len() > LINE_LETTERS as usize {
        end
    } else {
        kind.len()
    }
}

/// How many letters a text in UTF-8 has.
pub(crate) fn letter_count(text: &[u8]) -> u32 {
    let mut count = 0u32;
    for byte in text {
        if byte & 0xc0 != 0x80 {
            count = count.saturating_add(1);
        }
    }
    count
}

/// How many digits a number has.
pub(crate) fn digits(number: usize) -> u32 {
    match number.checked_ilog10() {
        Some(log) => log + 1,
        None => 1,
    }
}
