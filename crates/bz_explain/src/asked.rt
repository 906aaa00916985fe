//! What a command was asked.

use bz_explain_notes::{Notes, put_source};
use bz_view::Piece::Number;

/// What a command was asked, as far as its faults speak of it.
#[derive(Clone, Copy)]
pub struct Asked<'a, 't> {
    /// The netlist, as far as it was read.
    pub netlist: &'a [u8],
    /// The name of its file, if it is one's.
    pub file: Option<&'a str>,
    /// The name of the part that is asked for. Without one that is the part that no other uses.
    pub part: Option<&'a [u8]>,
    pub words: Words<'a, 't>,
}

/// The words of `run` or `pool`.
#[derive(Clone, Copy)]
pub struct Words<'a, 't> {
    pub list: &'a [&'t str],
    /// Whether they are those of the sessions of a pool. Else firings stand between them.
    pub is_pool: bool,
    /// Where they stand, if they are a file's.
    pub file: Option<WordFile<'a>>,
}

/// A file of words.
#[derive(Clone, Copy)]
pub struct WordFile<'a> {
    pub text: &'a [u8],
    /// How many bytes stand before each of the words.
    pub starts: &'a [usize],
}

impl<'a, 't> Words<'a, 't> {
    /// The word of a number, from 1.
    pub(crate) fn word(self, number: usize) -> Option<&'t str> {
        self.list.get(number.checked_sub(1)?).copied()
    }

    /// Tells where the word of a number, from 1, stands in the file, if the words are one's.
    pub(crate) fn put_place(self, notes: &mut Notes, number: usize) {
        if let (Some(file), Some(before)) = (self.file, number.checked_sub(1)) {
            if let Some(at) = file.starts.get(before) {
                put_source(notes, file.text, *at, " of the words");
                notes.say("word %", &[Number(number)]);
            }
        }
    }
}
