//! A file of a compiler's source.

ghost use Rattle.std.specs.Prelude.{◌≡◌};
ghost use Rattle.std.specs.Option.{option_copied};
ghost use Rattle.bz_model.specs.Names.{numbered};
ghost use Rattle.bz_source.specs.FileLines.{lines_of};

use crate::cutting::cut_line;

/// A file of a compiler's source, by the name under which it was read.
#[derive(Drop)]
pub struct SourceFile {
    pub name: Vec<u8>,
    pub text: Vec<u8>,
}

impl SourceFile {
    /// The line of this number, counted from 1, without its line feed.
    pub fn line(&self, number: u32) -> Option<&[u8]>
        ensures { option_copied result ≡ numbered (lines_of self.now.text.items) number }
    {
        line_in(self.text.as_slice(), number)
    }
}

fn line_in(text: &[u8], number: u32) -> Option<&[u8]>
    ensures { option_copied result ≡ numbered (lines_of text.now) number }
{
    let (mut rest, mut left) = (text, number);
    while left > 0 && !rest.is_empty() {
        let (line, behind) = cut_line(rest);
        if left == 1 {
            return Some(line);
        }
        rest = behind;
        left -= 1;
    }
    None
}
