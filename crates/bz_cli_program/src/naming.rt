//! Traces by the names that the command line has for them.

ghost use Rattle.std.specs.Prelude.{None};

use bz_cli_args::{Cause, Source, open_file};
use bz_cli_several::Traces;
use std::io;
use std::io::{Input, Read};
use std::rt::Files;

/// Files, and standard input by `-`. What they have isn't known.
#[derive(Drop)]
pub(crate) struct Named<'r, R> {
    pub(crate) rt: &'r R,
}

/// A trace that was opened.
#[derive(Drop)]
pub(crate) enum Opened<S: Read + Drop, F: Read + Drop> {
    Stdin(S),
    File(F),
}

impl<S: Read + Drop, F: Read + Drop> Read for Opened<S, F> {
    ghost remaining = { λ _. None };

    fn read(&mut self, buf: &mut [u8]) -> io::Result<usize> {
        match self {
            Opened::Stdin(input) => input.read(buf),
            Opened::File(file) => file.read(buf),
        }
    }
}

impl<'r, R: Files + Input> Traces for Named<'r, R> {
    type Trace = Opened<R::Reader, R::File>;

    ghost text = { λ _ _. None };

    fn open(&self, name: &str) -> Result<Opened<R::Reader, R::File>, Cause> {
        match Source::named(name) {
            Source::Stdin => Ok(Opened::Stdin(self.rt.reader())),
            Source::File(path) => match open_file(self.rt, path) {
                Ok(file) => Ok(Opened::File(file)),
                Err(cause) => Err(cause),
            },
        }
    }
}
