//! Lines and words of a text.

use crate::fault::Spot;
use std::alloc::{AllocError, Global};

/// A word of a text, and where it stands.
#[derive(Clone, Copy)]
pub struct Spelt<'t> {
    pub word: &'t str,
    pub at: Spot,
}

/// The words of a line, which stand between blanks. A `#` and what follows it is skipped.
pub fn words_of<'t>(
    alloc: Global,
    text: &'t str,
    line: usize,
) -> Result<Vec<Spelt<'t>>, AllocError> {
    let text = match text.split_once('#') {
        Some((words, _)) => words,
        None => text,
    };
    let mut words = Vec::new(alloc);
    let mut column = 1usize;
    for word in text.split(is_blank) {
        if !word.is_empty() {
            let at = Spot { line, column };
            words.push(Spelt { word, at })?;
        }
        column = column.saturating_add(word.len()).saturating_add(1);
    }
    Ok(words)
}

// (a line of a file with other line ends has a carriage return)
fn is_blank(letter: char) -> bool {
    matches!(letter, ' ' | '\t' | '\r')
}
