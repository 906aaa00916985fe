//! Parts of a line, and lists that lines are made of.

ghost use Rattle.std.specs.Prelude.{◌≡◌, IfErr, IfOk, None, true};
ghost use Rattle.std.specs.List.{list_all};
ghost use Rattle.bz_text.specs.Growing.{GrowsBy};
ghost use Rattle.bz_view.specs.Lines.{AreBlanks, InLine, stays_in_line};

use bz_text::{Piece, Text};
use std::alloc::AllocError;

/// The list, or an empty one where memory was refused for it, so that the text is lost.
pub fn gathered<T: Drop>(list: Result<Vec<T>, AllocError>, text: &mut Text) -> Vec<T>
    ensures ok { IfOk list (λ items. (result ≡ items) × (text.new ≡ text.old)) }
    ensures err { IfErr list (λ e. text.new ≡ None) }
{
    match list {
        Ok(list) => list,
        Err(_) => {
            text.lose();
            Vec::new(text.alloc())
        }
    }
}

/// Adds pieces without a line feed.
pub fn put_in_line(text: &mut Text, pieces: &[Piece<'_>])
    ensures { list_all stays_in_line pieces.now ≡ true → GrowsBy InLine text.old text.new }
{
    text.put_pieces(pieces);
}

/// Adds blanks up to a column.
pub fn fill(text: &mut Text, column: usize)
    ensures { GrowsBy AreBlanks text.old text.new }
{
    text.fill(column);
}
