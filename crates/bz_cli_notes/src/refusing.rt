//! How the program ends before its command begins.

use bz_cli_args::{
    BAD_COMMAND_LINE, Cause, Error, Refusal, Told, is_file, stray_word, tell_error, tell_unreadable,
};
use bz_cli_input::Fault;
use bz_explain::refuse_lint;
use bz_explain_notes::tell;
use bz_text::{Piece, Text, put_pieces};
use std::alloc::Global;
use std::io::Write;
use std::rt::Files;

/// Reports why the program ends before its command begins. The status with which it ends.
pub fn refuse<E: Write>(alloc: Global, why: Refusal<'_>, errors: &mut E) -> u8 {
    let fault = match why {
        Refusal::Read => Fault::Read,
        Refusal::Write => Fault::Write,
        Refusal::Memory | Refusal::File(_, Cause::Memory) => Fault::Memory,
        _ => return refuse_line(why, errors),
    };
    tell(alloc, &fault, None, errors)
}

// Reports a mistake of the command line.
fn refuse_line<E: Write>(why: Refusal<'_>, errors: &mut E) -> u8 {
    let _ = match why {
        Refusal::Line(why) => writeln!(errors, "error: {why}"),
        Refusal::Shared(other) => writeln!(
            errors,
            "error: standard input cannot have both the netlist and the {other}"
        ),
        Refusal::File(path, cause) => {
            tell_unreadable(path, cause, errors);
            Ok(())
        }
        _ => Ok(()),
    };
    BAD_COMMAND_LINE
}

/// Tells as an object of JSON that a netlist can't be read.
pub fn tell_unread<W: Write>(alloc: Global, path: &str, cause: Cause, output: &mut W) {
    let mut why = Text::new(alloc);
    let _ = write!(why, "cannot read {path}: {cause}");
    if let Ok(why) = why.whole() {
        let _ = refuse_lint(path, why, output);
    }
}

/// Ends where the words of the command line ask for no command. The status with which the program ends.
pub fn tell_no_request<R: Print + Eprint + Files, E: Write>(
    rt: &R,
    alloc: Global,
    error: &Error,
    errors: &mut E,
) -> u8 {
    match tell_error(rt, alloc, error, errors) {
        Told::Status(status) => {
            tip(rt, alloc, error, errors);
            status
        }
        Told::Unwritten => refuse(alloc, Refusal::Write, errors),
        Told::Memory => refuse(alloc, Refusal::Memory, errors),
    }
}

// Adds to a mistake in the command line that the word that has no place there is a file, where it is one.
fn tip<F: Files, E: Write>(files: &F, alloc: Global, error: &Error, errors: &mut E) {
    if let Some(word) = stray_word(alloc, error) {
        let word = word.as_str();
        if is_file(files, word) {
            let pieces = [
                Piece::Bytes(b"\ntip: "),
                Piece::File(word.as_bytes()),
                Piece::Bytes(b" is a file; files are named by options, as --netlist "),
                Piece::File(word.as_bytes()),
                Piece::Bytes(b"\n"),
            ];
            let _ = put_pieces(errors, &pieces);
        }
    }
}
