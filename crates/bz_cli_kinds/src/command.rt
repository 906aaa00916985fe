//! The command.

ghost use Rattle.bz_cli_kinds.specs.Kinds.{TellsKinds};

use crate::items::put_kinds;
use bz_cli_input::{Fault, send_all};
use bz_text::{Text, WriteFault};
use std::alloc::Global;
use std::io::Write;

/// Writes what each kind of component has and asks for, as lines or as JSON.
pub fn kinds_cmd<W: Write>(alloc: Global, is_json: bool, output: &mut W) -> Result<(), Fault>
    ensures { TellsKinds is_json (W.contents output.old) (W.contents output.new) result }
{
    let mut text = Text::new(alloc);
    put_kinds(&mut text, is_json);
    match text.whole() {
        Ok(bytes) => match send_all(output, bytes) {
            Ok(()) => Ok(()),
            Err(WriteFault) => Err(Fault::Write),
        },
        Err(_) => Err(Fault::Memory),
    }
}
