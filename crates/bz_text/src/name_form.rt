//! Names as texts show them: plain bytes as they are, every other byte by its number.

ghost use Rattle.std.specs.Prelude.{◌≡◌, ◌<◌, [], ◌∷◌, IsTrue};
ghost use Rattle.std.specs.Fmt.{WritesOnOk};
ghost use Rattle.bz_model.specs.Traces.{byte_form, hex_digit, is_plain, name_form};
ghost use Rattle.bz_text.specs.Writing.{Writes};

use crate::output::{WriteFault, put};
use std::fmt;
use std::io::Write;

/// A name, shown in its name form: printable ASCII but `%` and `:` as it is, every other byte as `%` and two upper-case
/// hexadecimal digits, and the empty name as `%`.
#[derive(Clone, Copy)]
pub struct NameForm<'a>(pub &'a [u8]);

impl fmt::Display for NameForm<'_> {
    ghost use Rattle.std.specs.Prelude.{Some};
    ghost use Rattle.bz_model.specs.Traces.{name_form};

    ghost output = { λ name. Some (name_form name.0.now) };

    fn fmt<W: fmt::Write>(&self, f: &mut fmt::Formatter<W>) -> fmt::Result {
        if self.0.is_empty() {
            return f.write_str("%");
        }
        for byte in self.0 {
            show_byte(*byte, f)?;
        }
        Ok(())
    }
}

/// Writes the name form of a name.
pub fn put_name<W: Write>(out: &mut W, name: &[u8]) -> Result<(), WriteFault>
    ensures { Writes (W.contents out.old) (W.contents out.new) result (name_form name.now) }
{
    if name.is_empty() {
        return put(out, b"%");
    }
    for byte in name {
        put_byte(out, *byte)?;
    }
    Ok(())
}

#[tactic(auto, unfolding(bz_model::specs::Traces::byte_form))]
fn put_byte<W: Write>(out: &mut W, byte: u8) -> Result<(), WriteFault>
    ensures { Writes (W.contents out.old) (W.contents out.new) result (byte_form byte) }
{
    if is_plain(byte) {
        put(out, &[byte])
    } else {
        put(out, &[b'%', hex_digit(byte / 16), hex_digit(byte % 16)])
    }
}

#[tactic(auto, unfolding(bz_model::specs::Traces::byte_form))]
fn show_byte<W: fmt::Write>(byte: u8, f: &mut fmt::Formatter<W>) -> fmt::Result
    ensures { WritesOnOk W.write_str_gives f.old result (byte_form byte) f.new }
{
    if is_plain(byte) {
        show_ascii(byte, f)
    } else {
        show_ascii(b'%', f)?;
        show_ascii(hex_digit(byte / 16), f)?;
        show_ascii(hex_digit(byte % 16), f)
    }
}

#[tactic(auto, using(std::proofs::lemmas::Str::encode_ascii))]
fn show_ascii<W: fmt::Write>(byte: u8, f: &mut fmt::Formatter<W>) -> fmt::Result
    requires { byte < 128 }
    ensures { WritesOnOk W.write_str_gives f.old result (byte ∷ []) f.new }
{
    f.write_char(byte as char)
}

/// Whether a byte is shown as itself.
#[tactic(auto, unfolding(bz_model::specs::Traces::is_plain))]
pub fn is_plain(byte: u8) -> bool
    ensures plain { result ≡ is_plain byte }
    ensures ascii { IsTrue result → byte < 128 }
{
    (33..=126).contains(&byte) && byte != b'%' && byte != b':'
}

/// An upper-case hexadecimal digit.
#[tactic(auto, unfolding(bz_model::specs::Traces::hex_digit))]
pub fn hex_digit(n: u8) -> u8
    requires { n < 16 }
    ensures digit { result ≡ hex_digit n }
    ensures ascii { result < 128 }
{
    if n < 10 { b'0' + n } else { b'A' - 10 + n }
}
