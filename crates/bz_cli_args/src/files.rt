//! Files that the command line names.

use bz_cli_input::{INPUT_LIMIT, InputFault, read_input};
use bz_text::{Piece, put_pieces};
use std::alloc::Global;
use std::fs::OpenFile;
use std::io::{Error, ErrorKind, Read, Write};
use std::rt::Files;
use std::{fmt, fs, io};

/// Why a file can't be read.
#[derive(Clone, Copy)]
pub enum Cause {
    /// The system says why.
    System(Error),
    Folder,
    /// It has more bytes than the limit.
    TooLong,
    /// It is not UTF-8.
    NotText,
    Memory,
}

impl fmt::Display for Cause {
    fn fmt<W: fmt::Write>(&self, f: &mut fmt::Formatter<W>) -> fmt::Result {
        match self {
            Cause::System(error) => match error.kind() {
                ErrorKind::NotFound => f.write_str("there is no such file"),
                ErrorKind::PermissionDenied => f.write_str("permission denied"),
                _ => write!(f, "{error}"),
            },
            Cause::Folder => f.write_str("it is a folder"),
            Cause::TooLong => write!(f, "it has more than {INPUT_LIMIT} bytes"),
            Cause::NotText => f.write_str("it is not UTF-8"),
            Cause::Memory => f.write_str("memory ran out"),
        }
    }
}

impl Cause {
    /// The same, where the system's own words are left out.
    pub fn words(self) -> &'static str {
        match self {
            Cause::System(error) => match error.kind() {
                ErrorKind::NotFound => "there is no such file",
                ErrorKind::PermissionDenied => "permission denied",
                _ => "it can't be read",
            },
            Cause::Folder => "it is a folder",
            Cause::TooLong => "it has more than 67108864 bytes",
            Cause::NotText => "it is not UTF-8",
            Cause::Memory => "memory ran out",
        }
    }
}

/// The bytes of a file, if there are no more than a netlist may have.
pub fn bytes_of_file<R: Files>(files: &R, alloc: Global, path: &str) -> Result<Vec<u8>, Cause> {
    match open_file(files, path) {
        Ok(file) => bytes_of(alloc, file),
        Err(cause) => Err(cause),
    }
}

/// Opens a file to read from it. A folder is none.
pub fn open_file<R: Files>(files: &R, path: &str) -> Result<R::File, Cause> {
    match fs::open(files, path) {
        Ok(file) => {
            if is_folder(&file) {
                Err(Cause::Folder)
            } else {
                Ok(file)
            }
        }
        Err(error) => Err(Cause::System(error)),
    }
}

fn is_folder<F: OpenFile>(file: &F) -> bool {
    match file.metadata() {
        Ok(data) => data.is_dir(),
        Err(_) => false,
    }
}

/// Whether there is a file of this name, and no folder or device.
pub fn is_file<R: Files>(files: &R, path: &str) -> bool {
    match fs::metadata(files, path) {
        Ok(data) => data.is_file(),
        Err(_) => false,
    }
}

/// Tells that a file can't be read, and why.
pub fn tell_unreadable<C: fmt::Display + Drop, E: Write>(path: &str, why: C, errors: &mut E) {
    let pieces = [
        Piece::Bytes(b"error: cannot read "),
        Piece::File(path.as_bytes()),
    ];
    let _ = put_pieces(errors, &pieces);
    let _ = writeln!(errors, ": {why}");
}

// A reader that keeps the error with which it failed.
#[derive(Drop)]
struct Failing<R: Read + Drop> {
    input: R,
    error: Option<Error>,
}

impl<R: Read + Drop> Read for Failing<R> {
    ghost remaining = { λ f. R.remaining f.input };

    fn read(&mut self, buf: &mut [u8]) -> io::Result<usize> {
        let result = self.input.read(buf);
        if let Err(error) = result {
            self.error = Some(error);
        }
        result
    }
}

// The bytes that a reader gives, if there are no more than a netlist may have.
fn bytes_of<R: Read + Drop>(alloc: Global, input: R) -> Result<Vec<u8>, Cause> {
    let mut input = Failing { input, error: None };
    match read_input(alloc, &mut input) {
        Ok(bytes) => Ok(bytes),
        Err(InputFault::Memory) => Err(Cause::Memory),
        Err(InputFault::Read) => Err(match input.error {
            Some(error) => Cause::System(error),
            None => Cause::TooLong,
        }),
    }
}

/// The text that a reader gives, if it has no more bytes than a netlist may have.
pub(crate) fn text_of<R: Read + Drop>(alloc: Global, input: R) -> Result<String, Cause> {
    match bytes_of(alloc, input) {
        Ok(bytes) => match String::from_utf8(bytes) {
            Ok(text) => Ok(text),
            Err(_) => Err(Cause::NotText),
        },
        Err(cause) => Err(cause),
    }
}
