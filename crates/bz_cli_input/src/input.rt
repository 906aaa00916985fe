//! The program's input, up to its limit.
//!
//! An interrupted read counts as a failure, and so does an interrupted write.

ghost use Rattle.std.specs.Prelude.{◌≡◌, ◌≤◌, ◌++◌, vec_len, IfOk, IfSome, OnErr, OnOk};
ghost use Rattle.std.specs.Io.KnownBytes.{IsAtEnd};
ghost use Rattle.bz_cli_input.specs.Limits.{input_limit};
ghost use Rattle.bz_cli_input.specs.Reading.{ReadsWithin};
ghost use Rattle.bz_cli_input.specs.declared.input.InputFault.TheVariants.{Memory};

use bz_gap::gap;
use std::alloc::{AllocError, Global};
use std::io::Read;
use thiserror::Error;

/// The longest input that is taken, in bytes.
pub const INPUT_LIMIT: usize = 67_108_864;

/// Why an input is not taken.
#[derive(Clone, Copy, Debug, PartialEq, Eq, Error)]
pub enum InputFault {
    /// The reader failed, or gave more bytes than the limit.
    #[error("F1 Read")]
    Read,
    #[error("F3 Memory")]
    Memory,
}

impl From<AllocError> for InputFault {
    ghost from_gives = { λ _ e. e ≡ Memory };

    fn from(_e: AllocError) -> InputFault {
        InputFault::Memory
    }
}

/// All that the reader gives. A reader with more than the limit is a fault, of which one byte past the limit is read.
pub fn read_input<R: Read>(alloc: Global, input: &mut R) -> Result<Vec<u8>, InputFault>
    // At Ok it is all that the reader had, where that is known, and none of it is left.
    ensures whole { IfOk result (λ v. IfSome (R.remaining input.old) (λ xs. v.items ≡ xs)) }
    ensures at_end { OnOk result (IsAtEnd (R.remaining input.new)) }
    ensures limit { IfOk result (λ v. vec_len v ≤ input_limit) }

    // At most the limit and one byte more are read, whatever comes of it.
    ensures bounded { ReadsWithin (R.remaining input.old) (R.remaining input.new) }
{
    let mut text = Vec::new(alloc);
    let mut chunk = [0u8; 8192];
    'reading: while text.len() <= INPUT_LIMIT {
        let room = chunk.len().min(INPUT_LIMIT + 1 - text.len());
        match input.read(&mut chunk[..room]) {
            Ok(0) => {
                text.shrink_to_fit();
                return Ok(text);
            }
            Ok(n) => append(alloc, &mut text, &chunk[..n])?,
            Err(_) => return Err(InputFault::Read),
        }
    }
    Err(InputFault::Read)
}

// Appends a piece. Where there is no room the text grows to twice what it had room for. A long one does so in the heap, into a
// gap for all of it, whether it can stay where it is or not: so a net lies where it was.
fn append(alloc: Global, text: &mut Vec<u8>, piece: &[u8]) -> Result<(), AllocError>
    ensures ok { OnOk result (text.new.items ≡ text.old.items ++ piece.now) }
    ensures err { OnErr result (text.new.items ≡ text.old.items) }
{
    let _gap = if text.capacity() - text.len() < piece.len() {
        gap(alloc, text.capacity().saturating_mul(2))
    } else {
        None
    };
    text.extend_from_slice(piece)
}
