//! The words by which texts name the kinds.

ghost use Rattle.std.specs.Prelude.{◌≡◌};
ghost use Rattle.bz_model.specs.Rows.{kind_word};

use crate::rows::row_of;
use bz_model::Kind;

/// A kind's name without the `$Brz` that netlists put in front.
pub fn kind_word(kind: &Kind) -> &'static [u8]
    ensures { result.now ≡ kind_word kind.now }
{
    row_of(kind).word()
}
