//! Texts as JSON has them.

ghost use Rattle.std.specs.Prelude.{codes, ◌++◌};
ghost use Rattle.bz_text.specs.Json.{ReadsAs, json_byte, json_inside, json_text};
ghost use Rattle.bz_text.specs.Writing.{Writes};

use crate::name_form::hex_digit;
use crate::output::{WriteFault, put};
use std::io::Write;

/// Writes a text as a string of JSON, in its quotes. What is UTF-8 stays so.
pub fn put_json<W: Write>(out: &mut W, text: &[u8]) -> Result<(), WriteFault>
    ensures writes { Writes (W.contents out.old) (W.contents out.new) result (json_text text.now) }

    // What stands in the string reads back as it was, whatever the text.
    ensures reads_back { ReadsAs (json_inside text.now) text.now }
{
    put(out, b"\"")?;
    put_inside(out, text)?;
    put(out, b"\"")
}

fn put_inside<W: Write>(out: &mut W, text: &[u8]) -> Result<(), WriteFault>
    ensures { Writes (W.contents out.old) (W.contents out.new) result (json_inside text.now) }
{
    for byte in text {
        put_byte(out, *byte)?;
    }
    Ok(())
}

fn put_byte<W: Write>(out: &mut W, byte: u8) -> Result<(), WriteFault>
    ensures { Writes (W.contents out.old) (W.contents out.new) result (json_byte byte) }
{
    if byte == b'"' || byte == b'\\' {
        put(out, &[b'\\', byte])
    } else if byte < 32 {
        let digits = [hex_digit(byte / 16), hex_digit(byte % 16)];
        put(out, &[b'\\', b'u', b'0', b'0', digits[0], digits[1]])
    } else {
        put(out, &[byte])
    }
}
