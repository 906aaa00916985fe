//! Text that is put together in memory before it goes out.

ghost use Rattle.std.specs.Prelude.{◌≡◌, ⊤, ℕ, Bool, false, List, None, Some, [], IfErr, IfOk, IsTrue};
ghost use Rattle.std.specs.List.{AllPass, flat_map};
ghost use Rattle.std.specs.Str.Lossy.{utf8_lossy};
ghost use Rattle.bz_text.specs.Growing.{Grows, GrowsBy};
ghost use Rattle.bz_text.specs.Json.{json_text};
ghost use Rattle.bz_text.specs.Pieces.{piece_text};
ghost use Rattle.bz_text.specs.Saying.{Says, blanks_to, count_text, width};

use crate::pieces::{Piece, put_pieces};
use bz_model::Value;
use std::alloc::{AllocError, Global};
use std::io;
use std::io::Write;
use std::marker::Model;

/// A text that keeps its fault: where memory was refused for a part of it, `whole` answers so.
#[derive(Drop)]
pub struct Text {
    alloc: Global,
    bytes: Vec<u8>,
    is_short: bool,
}

impl Model for Text {
    ghost use Rattle.std.specs.Prelude.{ℕ, List, Option, None, Some, if◌then◌else◌};

    // none where a part of it is lost
    ghost Value = { Option (List ℕ) };

    ghost view = { λ text. if text.is_short then None else Some text.bytes.items };
}

/// What can stand for a mark in a form.
pub trait Put {
    // whether it is told what this value adds, and which texts that may be
    ghost is_told: { Self → Bool } = { λ _. false };

    ghost adds: { Self → List ℕ → Type 0 } = { λ _ _. ⊤ };

    /// Adds it to a text.
    fn put(&self, text: &mut Text)
        ensures { IsTrue (is_told self.now) → GrowsBy (adds self.now) text.old text.new };
}

impl Text {
    pub fn new(alloc: Global) -> Text
        ensures { result ≡ Some [] }
    {
        Text {
            alloc,
            bytes: Vec::new(alloc),
            is_short: false,
        }
    }

    /// What the text lies in.
    pub fn alloc(&self) -> Global {
        self.alloc
    }

    /// The bytes, where none were lost.
    pub fn whole(&self) -> Result<&[u8], AllocError>
        ensures ok { IfOk result (λ bytes. self.now ≡ Some bytes.now) }
        ensures err { IfErr result (λ e. self.now ≡ None) }
    {
        if self.is_short {
            Err(AllocError)
        } else {
            Ok(self.bytes.as_slice())
        }
    }

    /// Notes that a part of the text is lost.
    pub fn lose(&mut self)
        ensures { self.new ≡ None }
    {
        self.is_short = true;
    }

    pub fn put_pieces(&mut self, pieces: &[Piece<'_>])
        ensures { Grows self.old self.new (flat_map piece_text pieces.now) }
    {
        if self.is_short {
            return;
        }
        // a vector is refused for memory alone
        if put_pieces(&mut self.bytes, pieces).is_err() {
            self.lose();
        }
    }

    pub fn put_bytes(&mut self, bytes: &[u8])
        ensures { Grows self.old self.new bytes.now }
    {
        self.put_pieces(&[Piece::Bytes(bytes)]);
    }

    pub fn put(&mut self, words: &str)
        ensures { Grows self.old self.new words.now }
    {
        self.put_bytes(words.as_bytes());
    }

    /// Adds a string of JSON, in its quotes. What is no UTF-8 is U+FFFD there.
    pub fn put_json(&mut self, bytes: &[u8])
        ensures { Grows self.old self.new (json_text (utf8_lossy bytes.now)) }
    {
        match String::from_utf8_lossy(self.alloc, bytes) {
            Ok(text) => self.put_pieces(&[Piece::Json(text.as_bytes())]),
            Err(_) => self.lose(),
        }
    }

    /// Adds a form in which each `%` stands for the next of these.
    pub fn say<P: Put>(&mut self, form: &str, pieces: &[P])
        ensures { AllPass P.is_told pieces.now →
            GrowsBy (Says P.adds form.now pieces.now) self.old self.new }
    {
        let mut rest = form;
        for piece in pieces {
            let Some((words, behind)) = rest.split_once('%') else {
                break;
            };
            self.put(words);
            piece.put(self);
            rest = behind;
        }
        self.put(rest);
    }

    /// Adds a number of things, as `1 line` and `2 lines`.
    pub fn put_count(&mut self, count: usize, thing: &str)
        ensures { Grows self.old self.new (count_text count thing.now) }
    {
        self.put_pieces(&[
            Piece::Number(count as Value),
            Piece::Bytes(b" "),
            Piece::Bytes(thing.as_bytes()),
            Piece::Bytes(if count == 1 { b"" } else { b"s" }),
        ]);
    }

    /// Fills the last line with blanks up to a column, with two of them at least, and 60 at most.
    pub fn fill(&mut self, column: usize)
        ensures { Grows self.old self.new (blanks_to column self.old) }
    {
        let count = column.saturating_sub(width(&self.bytes)).max(2).min(60);
        self.put_bytes(&[b' '; 60][..count]);
    }
}

// How many bytes stand behind the last line feed.
fn width(bytes: &[u8]) -> usize
    ensures { result ≡ width bytes.now }
{
    let last = bytes.iter().rev().position(|byte| *byte == b'\n');
    last.unwrap_or(bytes.len())
}

/// A text takes all that is written to it: what memory is refused for is lost, of which `whole` tells.
impl Write for Text {
    fn write(&mut self, bytes: &[u8]) -> io::Result<usize> {
        self.put_bytes(bytes);
        Ok(bytes.len())
    }

    fn flush(&mut self) -> io::Result<()> {
        Ok(())
    }
}
