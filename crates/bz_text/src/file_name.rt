//! Names of files, as lines show them.

ghost use Rattle.bz_text.specs.FileNames.{file_byte, file_text};
ghost use Rattle.bz_text.specs.Writing.{Writes};

use crate::output::{WriteFault, put};
use std::io::Write;

pub(crate) fn put_file_name<W: Write>(out: &mut W, name: &[u8]) -> Result<(), WriteFault>
    ensures { Writes (W.contents out.old) (W.contents out.new) result (file_text name.now) }
{
    for byte in name {
        put_byte(out, *byte)?;
    }
    Ok(())
}

fn put_byte<W: Write>(out: &mut W, byte: u8) -> Result<(), WriteFault>
    ensures { Writes (W.contents out.old) (W.contents out.new) result (file_byte byte) }
{
    if byte < 32 || byte == 127 {
        put(out, b"?")
    } else {
        put(out, &[byte])
    }
}
