//! Bytes into any writer, with no memory taken.

ghost use Rattle.bz_text.specs.Writing.{Writes};

use std::io::Write;
use thiserror::Error;

/// The writer failed, or took no byte.
#[derive(Clone, Copy, Debug, PartialEq, Eq, Error)]
#[error("F2 Write")]
pub struct WriteFault;

/// Writes all the bytes.
pub fn put<W: Write>(out: &mut W, bytes: &[u8]) -> Result<(), WriteFault>
    ensures { Writes (W.contents out.old) (W.contents out.new) result bytes.now }
{
    let mut rest = bytes;
    while !rest.is_empty() {
        match out.write(rest) {
            Ok(0) | Err(_) => return Err(WriteFault),
            Ok(n) => rest = rest.split_at(n).1,
        }
    }
    Ok(())
}
