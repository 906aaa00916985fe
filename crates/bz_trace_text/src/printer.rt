//! Texts that go out one after another, by pages. Whether the writer has failed is kept, and asked for once at the end.

ghost use Rattle.std.specs.Prelude.{◌≡◌, ◌+◌, ◌≤◌, ◌++◌, [], false, length, decimal, IsTrue};
ghost use Rattle.std.specs.List.{flat_map};
ghost use Rattle.bz_model.specs.Words.{spaced};
ghost use Rattle.bz_text.specs.Pieces.{piece_text};
ghost use Rattle.bz_trace_text.specs.Printing.{Ends, Prints};

use crate::page::Page;
use bz_model::Value;
use bz_text::{Piece, WriteFault, put_pieces};
use std::io::Write;

/// Text on a page that goes out when it is full, and whether the writer has failed: then nothing more goes out.
#[derive(Drop)]
pub struct Printer {
    page: Page,
    failed: bool,
}

impl Printer {
    /// Nothing is printed yet.
    pub fn new() -> Printer
        ensures page { result.page ≡ [] }
        ensures failed { result.failed ≡ false }
    {
        Printer {
            page: Page::new(),
            failed: false,
        }
    }

    /// Prints pieces.
    pub fn print<W: Write>(&mut self, out: &mut W, pieces: &[Piece<'_>])
        ensures { Prints (W.contents out.old) self.old (W.contents out.new) self.new (flat_map piece_text pieces.now) }
    {
        if !compose(&mut self.page, pieces) {
            self.let_out(out, pieces);
        }
    }

    /// Prints a short text.
    #[inline(always)]
    pub fn text<W: Write>(&mut self, out: &mut W, text: &[u8])
        requires { length text.now ≤ 96 }
        ensures { Prints (W.contents out.old) self.old (W.contents out.new) self.new text.now }
    {
        self.make_room(out);
        self.page.text(text);
    }

    #[inline(always)]
    pub fn number<W: Write>(&mut self, out: &mut W, n: Value)
        ensures { Prints (W.contents out.old) self.old (W.contents out.new) self.new (decimal n) }
    {
        self.make_room(out);
        self.page.value(n);
    }

    /// Prints numbers, with a space before each.
    #[inline(always)]
    pub fn spaced<W: Write>(&mut self, out: &mut W, numbers: &[u32])
        ensures { Prints (W.contents out.old) self.old (W.contents out.new) self.new (flat_map spaced numbers.now) }
    {
        for number in numbers {
            self.space(out, *number);
        }
    }

    #[inline(always)]
    fn space<W: Write>(&mut self, out: &mut W, number: u32)
        ensures { Prints (W.contents out.old) self.old (W.contents out.new) self.new (spaced number) }
    {
        self.make_room(out);
        self.page.byte(b' ');
        self.page.number(number);
    }

    /// Lets what waits go out, and answers the fault of the writer, now or before.
    pub fn end<W: Write>(&mut self, out: &mut W) -> Result<(), WriteFault>
        ensures { Ends (W.contents out.old) self.old (W.contents out.new) result }
    {
        if self.failed {
            return Err(WriteFault);
        }
        self.page.put(out)
    }

    // Makes room for 96 bytes, where there is less.
    #[inline(always)]
    fn make_room<W: Write>(&mut self, out: &mut W)
        ensures gone { Prints (W.contents out.old) self.old (W.contents out.new) self.new [] }
        ensures room { length self.new.page + 96 ≤ 8192 }
    {
        if !self.page.has_room() {
            self.put(out);
        }
    }

    // Lets the page go out, and pieces that it had no room for.
    #[inline(never)]
    fn let_out<W: Write>(&mut self, out: &mut W, pieces: &[Piece<'_>])
        ensures { Prints (W.contents out.old) self.old (W.contents out.new) self.new (flat_map piece_text pieces.now) }
    {
        self.put(out);
        self.pass(out, pieces);
    }

    // Lets pieces go out by an empty page.
    fn pass<W: Write>(&mut self, out: &mut W, pieces: &[Piece<'_>])
        requires { self.old.page ≡ [] }
        ensures { Prints (W.contents out.old) self.old (W.contents out.new) self.new (flat_map piece_text pieces.now) }
    {
        if !self.failed {
            self.failed = put_pieces(out, pieces).is_err();
        }
    }

    // Lets the page go out.
    #[inline(never)]
    fn put<W: Write>(&mut self, out: &mut W)
        ensures gone { Prints (W.contents out.old) self.old (W.contents out.new) self.new [] }
        ensures empty { self.new.page ≡ [] }
    {
        if self.failed {
            self.page.clear();
        } else {
            self.failed = self.page.put(out).is_err();
        }
    }
}

// Composes pieces, if there is room for all of them.
fn compose(page: &mut Page, pieces: &[Piece<'_>]) -> bool
    ensures all { IsTrue result → page.new ≡ page.old ++ flat_map piece_text pieces.now }
    ensures none { result ≡ false → page.new ≡ page.old }
{
    let len = page.len();
    match put_pieces(page, pieces) {
        Ok(()) => true,
        Err(WriteFault) => {
            page.shorten(len);
            false
        }
    }
}
