//! The words of the command line, and those of a file.
//!
//! Words and `--part` are text: what is not UTF-8 is a bad command line. A part whose name is no text is named in name form,
//! by `--part-form`. Both take a name that begins with `-` too.

use std::alloc::{AllocError, Global};
use std::io;
use std::rt::Env;

/// Why the words of the command line can't be had.
#[derive(Clone, Copy, PartialEq, Eq)]
pub enum ArgsFault {
    /// One of them is not UTF-8.
    NotText,
    Memory,
}

/// The words that the program was started with, its own name first.
pub fn words_of<R: Env + Alloc<A = Global>>(rt: &R) -> Result<Vec<String>, ArgsFault> {
    match std::env::args(rt) {
        Ok(args) => args.collect(rt.alloc()).map_err(|_| ArgsFault::Memory),
        Err(error) => match error.kind() {
            io::ErrorKind::InvalidData => Err(ArgsFault::NotText),
            _ => Err(ArgsFault::Memory),
        },
    }
}

/// The words of a text, which stand between white space. A `#` and what follows it in its line are skipped.
pub fn split_words<'t>(alloc: Global, text: &'t str) -> Result<Vec<&'t str>, AllocError> {
    let mut words = Vec::new(alloc);
    for line in text.lines() {
        for word in before_comment(line).split_whitespace() {
            words.push(word)?;
        }
    }
    Ok(words)
}

/// The names that a text has, each on a line, or each ended by a NUL where it has one. Empty ones are skipped.
pub fn split_names<'t>(alloc: Global, text: &'t str) -> Result<Vec<&'t str>, AllocError> {
    let end = if text.contains('\0') { '\0' } else { '\n' };
    let mut names = Vec::new(alloc);
    for name in text.split(end) {
        if !name.is_empty() {
            names.push(name)?;
        }
    }
    Ok(names)
}

/// Where these words of a text begin, each by how many bytes stand before it.
pub fn word_starts(alloc: Global, text: &str) -> Result<Vec<usize>, AllocError> {
    let mut starts = Vec::new(alloc);
    let mut begin = 0usize;
    for line in text.split('\n') {
        push_starts(&mut starts, before_comment(line), begin)?;
        begin = begin.saturating_add(line.len()).saturating_add(1);
    }
    Ok(starts)
}

// The starts of the words of a piece of a line that begins there.
fn push_starts(starts: &mut Vec<usize>, piece: &str, begin: usize) -> Result<(), AllocError> {
    let mut is_in_word = false;
    for (before, letter) in piece.char_indices() {
        let is_blank = letter.is_whitespace();
        if !is_blank && !is_in_word {
            starts.push(begin.saturating_add(before))?;
        }
        is_in_word = !is_blank;
    }
    Ok(())
}

fn before_comment(line: &str) -> &str {
    match line.split_once('#') {
        Some((words, _)) => words,
        None => line,
    }
}
