//! What a command writes when it has it whole.

ghost use Rattle.std.specs.Prelude.{OnOk, OnErr};
ghost use Rattle.std.specs.Io.KnownBytes.{Appends};
ghost use Rattle.bz_cli_input.specs.Stopping.{AppendsSome};

use bz_text::{WriteFault, put};
use std::io::Write;

/// Writes all the bytes, and sends them on.
pub fn send_all<W: Write>(output: &mut W, bytes: &[u8]) -> Result<(), WriteFault>
    ensures ok { OnOk result (Appends (W.contents output.old) (W.contents output.new) bytes.now) }
    ensures err { OnErr result (AppendsSome (W.contents output.old) (W.contents output.new) bytes.now) }
{
    put(output, bytes)?;
    match output.flush() {
        Ok(()) => Ok(()),
        Err(_) => Err(WriteFault),
    }
}
