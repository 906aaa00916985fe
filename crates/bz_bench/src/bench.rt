//! A bench as it is written: which net it plays, and the items of its ports, group by group.

use crate::fault::{BenchFault, Cause, Spot};
use crate::items::{Times, Word, word_of};
use crate::lines::{Spelt, words_of};
use crate::stream::Item;
use bz_words::read_name;
use std::alloc::Global;

/// The most items of a bench: what a trace may have of entries.
const MOST_ITEMS: usize = 16_777_216;

/// Where a bench finds the files of items that it names.
pub trait Texts {
    /// The text of a file, if it can be read.
    fn text(&mut self, path: &str) -> Option<String>;
}

/// An item that is due at a port, where it is spelt, and whether it is the last and need not end.
#[derive(Clone, Copy)]
pub struct Due {
    pub item: Item,
    pub at: Spot,
}

/// The line of a port.
#[derive(Drop)]
pub struct PortLine {
    pub name: Vec<u8>,
    pub at: Spot,
    pub items: Vec<Due>,
    /// What passes behind the items, as often as it is asked for.
    pub forever: Option<Due>,
    /// Where the last handshake need not end.
    pub open: Option<Spot>,
}

/// A line of a bench.
#[derive(Drop)]
pub enum Line {
    Port(PortLine),
    /// What stands above is done before what follows begins.
    Then,
}

/// A bench.
pub struct Bench {
    pub netlist: Option<String>,
    pub part: Option<Vec<u8>>,
    pub lines: Vec<Line>,
    /// Whether the net may go round for ever once all has passed.
    pub spins: bool,
}

// By hand, so that who lets one go has one call to show and not all its parts.
impl Drop for Bench {
    fn drop(self) {
        let Bench {
            netlist: _,
            part: _,
            lines: _,
            spins: _,
        } = self;
    }
}

/// The bench that a text spells. Files of items are read as they are met.
pub fn read_bench<T: Texts>(alloc: Global, text: &str, texts: &mut T) -> Result<Bench, BenchFault> {
    let mut bench = Bench {
        netlist: None,
        part: None,
        lines: Vec::new(alloc),
        spins: false,
    };
    match add_lines(alloc, text, texts, &mut bench) {
        Ok(()) => Ok(bench),
        Err(fault) => Err(fault),
    }
}

// Adds what each line of a text says.
fn add_lines<T: Texts>(
    alloc: Global,
    text: &str,
    texts: &mut T,
    bench: &mut Bench,
) -> Result<(), BenchFault> {
    let mut left = MOST_ITEMS;
    for (place, line) in text.split('\n').enumerate() {
        let words = words_of(alloc, line, place.saturating_add(1))?;
        add_line(alloc, words.as_slice(), &mut left, texts, bench)?;
    }
    Ok(())
}

// Adds what the words of a line say.
fn add_line<T: Texts>(
    alloc: Global,
    words: &[Spelt<'_>],
    left: &mut usize,
    texts: &mut T,
    bench: &mut Bench,
) -> Result<(), BenchFault> {
    let Some((head, rest)) = words.split_first() else {
        return Ok(());
    };
    if head.word.starts_with(':') {
        return add_setting(alloc, *head, rest, bench);
    }
    let port = port_line(alloc, *head, rest, left, texts)?;
    bench.lines.push(Line::Port(port))?;
    Ok(())
}

// A line that begins with `:`.
fn add_setting(
    alloc: Global,
    head: Spelt<'_>,
    rest: &[Spelt<'_>],
    bench: &mut Bench,
) -> Result<(), BenchFault> {
    match (head.word, rest) {
        (":netlist", [path]) => bench.netlist = Some(String::from_str(alloc, path.word)?),
        (":part", [name]) => bench.part = Some(name_in(alloc, *name)?),
        (":then", []) => bench.lines.push(Line::Then)?,
        (":spins", []) => bench.spins = true,
        _ => return Err(BenchFault::At(head.at, Cause::BadLine)),
    }
    Ok(())
}

// The name that a word is the form of.
fn name_in(alloc: Global, form: Spelt<'_>) -> Result<Vec<u8>, BenchFault> {
    match read_name(alloc, form.word.as_bytes())? {
        Some(name) => Ok(name),
        None => Err(BenchFault::At(form.at, Cause::BadName)),
    }
}

fn port_line<T: Texts>(
    alloc: Global,
    head: Spelt<'_>,
    rest: &[Spelt<'_>],
    left: &mut usize,
    texts: &mut T,
) -> Result<PortLine, BenchFault> {
    let mut line = PortLine {
        name: name_in(alloc, head)?,
        at: head.at,
        items: Vec::new(alloc),
        forever: None,
        open: None,
    };
    match line.add_words(alloc, rest, left, texts) {
        Ok(()) => Ok(line),
        Err(fault) => Err(fault),
    }
}

impl PortLine {
    // Adds what each word stands for.
    fn add_words<T: Texts>(
        &mut self,
        alloc: Global,
        words: &[Spelt<'_>],
        left: &mut usize,
        texts: &mut T,
    ) -> Result<(), BenchFault> {
        for word in words {
            self.add_word(alloc, *word, left, texts)?;
        }
        Ok(())
    }

    // Adds what a word stands for, or the file that it names.
    fn add_word<T: Texts>(
        &mut self,
        alloc: Global,
        word: Spelt<'_>,
        left: &mut usize,
        texts: &mut T,
    ) -> Result<(), BenchFault> {
        match word_of(word.word) {
            Some(Word::File(path)) => match texts.text(path) {
                Some(text) => self.add_file(alloc, word.at, text.as_str(), left),
                None => Err(BenchFault::At(word.at, Cause::NoFile)),
            },
            Some(read) => self.add(read, word.at, left),
            None => Err(BenchFault::At(word.at, Cause::BadItem)),
        }
    }

    // Adds the items of a file, all where the file is named.
    fn add_file(
        &mut self,
        alloc: Global,
        at: Spot,
        text: &str,
        left: &mut usize,
    ) -> Result<(), BenchFault> {
        for line in text.split('\n') {
            for word in &words_of(alloc, line, 1)? {
                match word_of(word.word) {
                    Some(Word::File(_)) | None => {
                        return Err(BenchFault::At(at, Cause::BadItem));
                    }
                    Some(read) => self.add(read, at, left)?,
                }
            }
        }
        Ok(())
    }

    // Adds what a word stands for.
    fn add(&mut self, word: Word<'_>, at: Spot, left: &mut usize) -> Result<(), BenchFault> {
        if self.forever.is_some() || self.open.is_some() {
            return Err(BenchFault::At(at, Cause::AfterLast));
        }
        match word {
            Word::Items(item, Times::Always) => {
                self.forever = Some(Due { item, at });
                Ok(())
            }
            Word::Items(item, Times::Count(count)) => self.add_items(item, count, at, left),
            Word::Open => {
                self.open = Some(at);
                self.add_items(Item::Handshake, 1, at, left)
            }
            Word::File(_) => Ok(()),
        }
    }

    fn add_items(
        &mut self,
        item: Item,
        count: u32,
        at: Spot,
        left: &mut usize,
    ) -> Result<(), BenchFault> {
        let count = count as usize;
        if count > *left {
            return Err(BenchFault::At(at, Cause::TooMany));
        }
        *left -= count;
        for _ in 0..count {
            self.items.push(Due { item, at })?;
        }
        Ok(())
    }
}
