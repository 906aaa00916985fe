//! A line as an array of its pieces, on the stack.

ghost use Rattle.std.specs.Prelude.{◌++◌, decimal};
ghost use Rattle.std.specs.List.{flat_map};
ghost use Rattle.bz_model.specs.Traces.{value_text};
ghost use Rattle.bz_model.specs.Words.{carried_text, spaced};
ghost use Rattle.bz_text.specs.Pieces.{atom_text, in_text, path_text, piece_text, place_text, record_text, slashed, stepped};
ghost use Rattle.bz_text.specs.Writing.{Writes};

use crate::file_name::put_file_name;
use crate::json::put_json;
use crate::name_form::put_name;
use crate::output::{WriteFault, put};
use bz_model::{Chan, ChanKind, Value};
use std::io::Write;

/// A piece of a line.
#[derive(Clone, Copy)]
pub enum Piece<'a> {
    Bytes(&'a [u8]),
    Number(Value),
    /// A space and the value, where there is one.
    Value(Option<Value>),
    Name(&'a [u8]),
    /// What a channel carries, and its width where it has one.
    Carried(Chan),
    /// A component, a dot, and its port.
    Port(u32, u32),
    /// Numbers, with a space before each.
    Spaced(&'a [u32]),
    /// Positions from the top on, with a slash between.
    Path(&'a [usize]),
    /// The same, with a slash after each.
    Steps(&'a [usize]),
    /// Where a record is: the name of its part, its position in it, its line, and the path of the instance that it is in.
    At(&'a [u8], usize, usize, &'a [usize]),
    /// What something is called.
    Called(&'a [u8]),
    /// What it comes from: a file, a line and a column.
    From(&'a [u8], u32, u32),
    /// The name of a file: a control character is a question mark.
    File(&'a [u8]),
    /// A string of JSON, in its quotes.
    Json(&'a [u8]),
}

// What pieces are made of.
#[derive(Clone, Copy)]
enum Atom<'a> {
    Bytes(&'a [u8]),
    Number(Value),
    Name(&'a [u8]),
}

/// Writes the pieces, one after another.
pub fn put_pieces<W: Write>(out: &mut W, pieces: &[Piece<'_>]) -> Result<(), WriteFault>
    ensures { Writes (W.contents out.old) (W.contents out.new) result
        (flat_map piece_text pieces.now) }
{
    for piece in pieces {
        put_piece(out, piece)?;
    }
    Ok(())
}

fn put_piece<W: Write>(out: &mut W, piece: &Piece<'_>) -> Result<(), WriteFault>
    ensures { Writes (W.contents out.old) (W.contents out.new) result (piece_text piece.now) }
{
    match piece {
        Piece::Bytes(bytes) => put(out, bytes),
        Piece::Number(n) => put_number(out, *n),
        Piece::Value(value) => put_value(out, *value),
        Piece::Name(name) => put_name(out, name),
        Piece::Carried(chan) => put_carried(out, *chan),
        Piece::Port(comp, port) => put_atoms(
            out,
            &[
                Atom::Number(Value::from(*comp)),
                Atom::Bytes(b"."),
                Atom::Number(Value::from(*port)),
            ],
        ),
        Piece::Spaced(numbers) => put_spaced(out, numbers),
        Piece::Path(path) => put_path(out, path),
        Piece::Steps(path) => put_steps(out, path),
        Piece::At(part, position, line, path) => put_place(out, part, *position, *line, path),
        Piece::Called(name) => put_atoms(out, &[Atom::Bytes(b" name "), Atom::Name(name)]),
        Piece::From(file, line, column) => put_atoms(
            out,
            &[
                Atom::Bytes(b" from "),
                Atom::Name(file),
                Atom::Bytes(b":"),
                Atom::Number(Value::from(*line)),
                Atom::Bytes(b":"),
                Atom::Number(Value::from(*column)),
            ],
        ),
        Piece::File(name) => put_file_name(out, name),
        Piece::Json(text) => put_json(out, text),
    }
}

fn put_atoms<W: Write>(out: &mut W, atoms: &[Atom<'_>]) -> Result<(), WriteFault>
    ensures { Writes (W.contents out.old) (W.contents out.new) result
        (flat_map atom_text atoms.now) }
{
    for atom in atoms {
        put_atom(out, atom)?;
    }
    Ok(())
}

fn put_atom<W: Write>(out: &mut W, atom: &Atom<'_>) -> Result<(), WriteFault>
    ensures { Writes (W.contents out.old) (W.contents out.new) result (atom_text atom.now) }
{
    match atom {
        Atom::Bytes(bytes) => put(out, bytes),
        Atom::Number(n) => put_number(out, *n),
        Atom::Name(name) => put_name(out, name),
    }
}

fn put_number<W: Write>(out: &mut W, n: Value) -> Result<(), WriteFault>
    ensures { Writes (W.contents out.old) (W.contents out.new) result (decimal n) }
{
    let mut digits = itoa::Buffer::new();
    put(out, digits.format(n).as_bytes())
}

fn put_value<W: Write>(out: &mut W, value: Option<Value>) -> Result<(), WriteFault>
    ensures { Writes (W.contents out.old) (W.contents out.new) result (value_text value) }
{
    match value {
        None => Ok(()),
        Some(v) => put_atoms(out, &[Atom::Bytes(b" "), Atom::Number(v)]),
    }
}

fn put_carried<W: Write>(out: &mut W, chan: Chan) -> Result<(), WriteFault>
    ensures { Writes (W.contents out.old) (W.contents out.new) result
        (carried_text chan.kind chan.width) }
{
    let word = Atom::Bytes(chan.kind.word().as_bytes());
    match chan.kind {
        ChanKind::Sync => put_atoms(out, &[word]),
        ChanKind::Push | ChanKind::Pull => {
            let width = Atom::Number(Value::from(chan.width));
            put_atoms(out, &[word, Atom::Bytes(b" "), width])
        }
    }
}

fn put_spaced<W: Write>(out: &mut W, numbers: &[u32]) -> Result<(), WriteFault>
    ensures { Writes (W.contents out.old) (W.contents out.new) result (flat_map spaced numbers.now) }
{
    for number in numbers {
        put_space(out, *number)?;
    }
    Ok(())
}

fn put_space<W: Write>(out: &mut W, number: u32) -> Result<(), WriteFault>
    ensures { Writes (W.contents out.old) (W.contents out.new) result (spaced number) }
{
    put_atoms(out, &[Atom::Bytes(b" "), Atom::Number(Value::from(number))])
}

fn put_steps<W: Write>(out: &mut W, path: &[usize]) -> Result<(), WriteFault>
    ensures { Writes (W.contents out.old) (W.contents out.new) result (flat_map stepped path.now) }
{
    for step in path {
        put_step(out, *step)?;
    }
    Ok(())
}

fn put_step<W: Write>(out: &mut W, step: usize) -> Result<(), WriteFault>
    ensures { Writes (W.contents out.old) (W.contents out.new) result (stepped step) }
{
    put_atoms(out, &[Atom::Number(step as Value), Atom::Bytes(b"/")])
}

fn put_place<W: Write>(
    out: &mut W,
    part: &[u8],
    position: usize,
    line: usize,
    path: &[usize],
) -> Result<(), WriteFault>
    ensures { Writes (W.contents out.old) (W.contents out.new) result
        (place_text part.now position line path.now) }
{
    put_record(out, part, position, line)?;
    put_in(out, path)
}

fn put_record<W: Write>(
    out: &mut W,
    part: &[u8],
    position: usize,
    line: usize,
) -> Result<(), WriteFault>
    ensures { Writes (W.contents out.old) (W.contents out.new) result
        (record_text part.now position line) }
{
    let atoms = [
        Atom::Bytes(b" at "),
        Atom::Name(part),
        Atom::Bytes(b" "),
        Atom::Number(position as Value),
        Atom::Bytes(b" line "),
        Atom::Number(line as Value),
    ];
    put_atoms(out, &atoms)
}

fn put_in<W: Write>(out: &mut W, path: &[usize]) -> Result<(), WriteFault>
    ensures { Writes (W.contents out.old) (W.contents out.new) result (in_text path.now) }
{
    match path {
        [] => Ok(()),
        [first, rest @ ..] => put_joined(out, b" in ", *first, rest),
    }
}

fn put_path<W: Write>(out: &mut W, path: &[usize]) -> Result<(), WriteFault>
    ensures { Writes (W.contents out.old) (W.contents out.new) result (path_text path.now) }
{
    match path {
        [] => Ok(()),
        [first, rest @ ..] => put_joined(out, b"", *first, rest),
    }
}

fn put_joined<W: Write>(
    out: &mut W,
    before: &[u8],
    first: usize,
    rest: &[usize],
) -> Result<(), WriteFault>
    ensures { Writes (W.contents out.old) (W.contents out.new) result ((before.now ++ decimal first) ++ flat_map slashed rest.now) }
{
    put_first(out, before, first)?;
    put_slashed(out, rest)
}

fn put_first<W: Write>(out: &mut W, before: &[u8], first: usize) -> Result<(), WriteFault>
    ensures { Writes (W.contents out.old) (W.contents out.new) result (before.now ++ decimal first) }
{
    put_atoms(out, &[Atom::Bytes(before), Atom::Number(first as Value)])
}

fn put_slashed<W: Write>(out: &mut W, numbers: &[usize]) -> Result<(), WriteFault>
    ensures { Writes (W.contents out.old) (W.contents out.new) result (flat_map slashed numbers.now) }
{
    for number in numbers {
        put_slash(out, *number)?;
    }
    Ok(())
}

fn put_slash<W: Write>(out: &mut W, number: usize) -> Result<(), WriteFault>
    ensures { Writes (W.contents out.old) (W.contents out.new) result (slashed number) }
{
    put_atoms(out, &[Atom::Bytes(b"/"), Atom::Number(number as Value)])
}
