//! The command `list`: the ports and components of a part's net.

ghost use Rattle.std.specs.Prelude.{◌≡◌, OnOk, OnErr, IfSome};
ghost use Rattle.std.specs.Option.{option_copied};
ghost use Rattle.std.specs.Io.KnownBytes.{Appends};
ghost use Rattle.bz_cli_input.specs.Listing.{list_text};
ghost use Rattle.bz_cli_input.specs.Listed.{Lists, ListsText};
ghost use Rattle.bz_cli_input.specs.Reading.{ReadsWithin};
ghost use Rattle.bz_cli_input.specs.Stopping.{AppendsSome};

use crate::fault::Fault;
use crate::input::read_input;
use crate::listing::write_list;
use crate::netlist::named_flat_of_input;
use bz_flat::Flat;
use bz_text::WriteFault;
use std::alloc::Global;
use std::io::{Read, Write};

/// Lists the net that the netlist denotes which the reader gives. Nothing is written where the netlist is refused.
pub fn list_cmd<R: Read, W: Write>(
    alloc: Global,
    asked: Option<&[u8]>,
    input: &mut R,
    output: &mut W,
) -> Result<(), Fault>
    ensures lists { IfSome (R.remaining input.old) (λ text. Lists text (option_copied asked.entry) (W.contents output.old) (W.contents output.new) result) }

    // Whatever comes of it, it reads at most one byte past the limit.
    ensures bounded { ReadsWithin (R.remaining input.old) (R.remaining input.new) }
{
    let text = read_input(alloc, input)?;
    list_net(alloc, asked, text, output)
}

// Lists the net that the text denotes.
fn list_net<W: Write>(
    alloc: Global,
    asked: Option<&[u8]>,
    text: Vec<u8>,
    output: &mut W,
) -> Result<(), Fault>
    ensures { ListsText text.items (option_copied asked.entry) (W.contents output.old) (W.contents output.new) result }
{
    let (name, flat) = named_flat_of_input(alloc, asked, text)?;
    write_out(name.as_slice(), flat, output)?;
    Ok(())
}

// Writes the text of a net, under the name of its part, down to the last byte.
fn write_out<W: Write>(name: &[u8], flat: Flat, output: &mut W) -> Result<(), WriteFault>
    ensures ok { OnOk result (Appends (W.contents output.old) (W.contents output.new) (list_text name.now flat.wiring)) }
    ensures err { OnErr result (AppendsSome (W.contents output.old) (W.contents output.new) (list_text name.now flat.wiring)) }
{
    write_list(output, name, flat)?;
    match output.flush() {
        Ok(()) => Ok(()),
        Err(_) => Err(WriteFault),
    }
}
