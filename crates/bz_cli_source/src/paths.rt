//! The command `list --paths`.
//!
//! The line of an instance has no source, though its record may have one. An instance whose copy brings nothing has no line:
//! a tree of parts that hold nothing but instances would be a long walk.

ghost use Rattle.std.specs.Prelude.{◌≡◌, ◌≤◌, OnOk, OnErr, IfSome, length};
ghost use Rattle.std.specs.Option.{option_copied};
ghost use Rattle.std.specs.Io.KnownBytes.{Appends};
ghost use Rattle.bz_cli_input.specs.Reading.{ReadsWithin};
ghost use Rattle.bz_cli_input.specs.Stopping.{AppendsSome};
ghost use Rattle.bz_cli_source.specs.Listing.{paths_text};
ghost use Rattle.bz_cli_source.specs.Listed.{Lists, ListsPaths};

use crate::listing::put_paths;
use crate::surveying::survey_of;
use bz_cli_input::{Fault, read_input};
use bz_flat::Pieces;
use bz_source::Survey;
use bz_text::WriteFault;
use std::alloc::Global;
use std::io::{Read, Write};

/// Lists the net that the netlist denotes which the reader gives, with where everything in it stands. Nothing is written where
/// the netlist is refused.
pub fn list_paths_cmd<R: Read, W: Write>(
    alloc: Global,
    asked: Option<&[u8]>,
    input: &mut R,
    output: &mut W,
) -> Result<(), Fault>
    ensures lists { IfSome (R.remaining input.old) (λ text. Lists text (option_copied asked.entry) (W.contents output.old) (W.contents output.new) result) }

    // Whatever comes of it, it reads at most one byte past the limit.
    ensures bounded { ReadsWithin (R.remaining input.old) (R.remaining input.new) }
{
    let text = read_input(alloc, input)?;
    list_text(alloc, asked, text.as_slice(), output)
}

// Lists the net that the text denotes.
fn list_text<W: Write>(
    alloc: Global,
    asked: Option<&[u8]>,
    text: &[u8],
    output: &mut W,
) -> Result<(), Fault>
    ensures { ListsPaths text.now (option_copied asked.entry) (W.contents output.old) (W.contents output.new) result }
{
    let (flat, survey, name) = survey_of(alloc, asked, text)?;
    write_out(name.as_slice(), &flat.into_pieces(), &survey, output)?;
    Ok(())
}

// Writes the text of a net and its survey, under the name of its part, down to the last byte.
fn write_out<W: Write>(
    name: &[u8],
    net: &Pieces,
    survey: &Survey,
    output: &mut W,
) -> Result<(), WriteFault>
    requires { length net.now.comps ≤ 1000000 }
    ensures ok { OnOk result (Appends (W.contents output.old) (W.contents output.new) (paths_text net.now survey.now name.now)) }
    ensures err { OnErr result (AppendsSome (W.contents output.old) (W.contents output.new) (paths_text net.now survey.now name.now)) }
{
    put_paths(output, name, net, survey)?;
    match output.flush() {
        Ok(()) => Ok(()),
        Err(_) => Err(WriteFault),
    }
}
