//! A reader that keeps what it reads.

use std::alloc::Global;
use std::io::{Read, Result};

/// Reads what another reader gives, and keeps it where that is asked for. Where memory is wanting for that, nothing is kept, and
/// the reading goes on.
#[derive(Drop)]
pub struct Keeping<R: Read + Drop> {
    input: R,
    kept: Option<Vec<u8>>,
}

impl<R: Read + Drop> Keeping<R> {
    ghost use Rattle.std.specs.Prelude.{◌≡◌};

    pub fn new(alloc: Global, input: R, keeps: bool) -> Keeping<R> {
        let kept = if keeps { Some(Vec::new(alloc)) } else { None };
        Keeping { input, kept }
    }

    /// What was read so far, where it was kept.
    pub fn kept(&self) -> Option<&[u8]> {
        match &self.kept {
            Some(kept) => Some(kept.as_slice()),
            None => None,
        }
    }

    // Keeps bytes that were read.
    fn keep(&mut self, bytes: &[u8])
        ensures { self.new.input ≡ self.old.input }
    {
        let Some(kept) = &mut self.kept else {
            return;
        };
        if kept.extend_from_slice(bytes).is_err() {
            self.kept = None;
        }
    }
}

impl<R: Read + Drop> Read for Keeping<R> {
    ghost remaining = { λ k. R.remaining k.input };

    fn read(&mut self, buf: &mut [u8]) -> Result<usize> {
        let result = self.input.read(buf);
        if let Ok(count) = result {
            self.keep(&buf[..count]);
        }
        result
    }
}
