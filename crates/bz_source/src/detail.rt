//! What the parameters of a component say to people: a variable's name, and what else tells one component of a kind from another.

ghost use Rattle.std.specs.Prelude.{◌≡◌, not};
ghost use Rattle.std.specs.List.{flat_map};
ghost use Rattle.std.specs.Option.{option_copied, option_map};
ghost use Rattle.bz_kind_rows.specs.Naming.{text};
ghost use Rattle.bz_text.specs.Writing.{Writes};
ghost use Rattle.bz_source.specs.Details.{comp_detail, detail_text, first_width, is_variable, variable_name};
ghost use Rattle.bz_source.specs.Views.{detail_of};

use bz_breeze_records::{Component, Part, Slot};
use bz_kind_rows::{kind_named, row_named, row_of};
use bz_model::{DetailRule, Kind, Param, Value, low_bits, numbered};
use bz_text::{Piece, WriteFault, put_pieces};
use std::io::Write;

/// What the parameters of a component say, beside the name of a variable.
#[derive(Clone, Copy)]
pub enum Detail<'a> {
    /// An operation, or a specification.
    Word(&'a [u8]),
    /// An operation, and its second operand.
    Applied(&'a [u8], Value),
    /// The value of a constant.
    Number(Value),
    /// The bit from which a slice is taken.
    FromBit(Value),
}

/// Writes a detail, as `Add 1` and `from bit 4`, a word in name form.
pub fn put_detail<W: Write>(out: &mut W, detail: Detail<'_>) -> Result<(), WriteFault>
    ensures { Writes (W.contents out.old) (W.contents out.new) result (detail_text (detail_of detail.entry)) }
{
    match detail {
        Detail::Word(word) => put_pieces(out, &[Piece::Name(word)]),
        Detail::Applied(word, value) => {
            put_pieces(out, &[Piece::Name(word), Piece::Value(Some(value))])
        }
        Detail::Number(value) => put_pieces(out, &[Piece::Number(value)]),
        Detail::FromBit(low) => put_pieces(out, &[Piece::Bytes(b"from bit "), Piece::Number(low)]),
    }
}

/// The name that a compiler gave a variable; none where it is empty, and of any other component.
pub(crate) fn variable_name(component: &Component) -> Option<&[u8]>
    ensures { option_copied result ≡ variable_name component.now }
{
    if !is_variable(component.name.as_slice()) {
        return None;
    }
    match first_text(&component.params) {
        Some(name) if !name.is_empty() => Some(name),
        _ => None,
    }
}

fn is_variable(name: &[u8]) -> bool
    ensures { result ≡ is_variable name.now }
{
    match kind_named(name) {
        Some(kind) => row_named(kind).is_variable,
        None => false,
    }
}

/// The detail of a component of a part, as its record has it and its kind goes by it.
pub(crate) fn comp_detail<'r>(
    part: &Part,
    component: &'r Component,
    kind: &Kind,
) -> Option<Detail<'r>>
    ensures { option_map detail_of result ≡ comp_detail part.now component.now kind.now }
{
    match row_of(kind).detail {
        DetailRule::Nothing => None,
        DetailRule::Text => match first_text(&component.params) {
            Some(word) => Some(Detail::Word(word)),
            None => None,
        },
        DetailRule::Applied => match first_text(&component.params) {
            Some(word) => {
                let operand = low_bits(kind.number(), kind.operand_width());
                Some(Detail::Applied(word, operand))
            }
            None => None,
        },
        DetailRule::Constant => {
            let width = first_width(part, component);
            Some(Detail::Number(low_bits(kind.number(), width)))
        }
        DetailRule::Low => Some(Detail::FromBit(kind.number())),
    }
}

// The width of the channel of a component's first entry, 0 where there is none.
fn first_width(part: &Part, component: &Component) -> u32
    ensures { result ≡ first_width part.now component.now }
{
    let Some(Slot::One(chan)) = component.entries.as_slice().first() else {
        return 0;
    };
    match numbered(&part.channels, *chan) {
        Some(chan) => chan.width,
        None => 0,
    }
}

// The first of the parameters that are texts.
fn first_text(params: &[Param]) -> Option<&[u8]>
    ensures { option_copied result ≡ text params.now 0 }
{
    for param in params {
        if let Param::Word(text) = param {
            return Some(text.as_slice());
        }
    }
    None
}
