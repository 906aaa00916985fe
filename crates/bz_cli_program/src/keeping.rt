//! What runs have exercised, kept in a file of its own.

use bz_cli_args::{ASKED, BAD_COMMAND_LINE, Command, DONE, Given};
use bz_cli_bench::{BenchFiles, FileFault};
use bz_cli_input::Fault;
use bz_cli_several::{Covered, Exercised, cover_of_run};
use bz_cli_trace::Case;
use bz_text::{Piece, put, put_pieces};
use std::alloc::Global;
use std::io::Write;

/// Writes what a run has exercised to the file that is named for it, and a few lines of it to `errors`. Where the command came to
/// no run there is none. The status, which is `status` where it was written.
pub(crate) fn cover<F: BenchFiles, E: Write>(
    alloc: Global,
    given: &Given<'_, '_>,
    input: Option<&[u8]>,
    status: Result<u8, Fault>,
    case: &mut Option<Case>,
    run: Exercised<'_>,
    files: &mut F,
    errors: &mut E,
) -> Result<u8, Fault> {
    let Some(path) = given.command.cover_file() else {
        return status;
    };
    match status {
        Ok(status) if status == DONE || status == ASKED => {
            match cover_of_run(alloc, given, input, case.take(), run) {
                Ok(covered) => keep(covered, path, status, files, errors),
                Err(fault) => Err(fault),
            }
        }
        status => status,
    }
}

/// The same of several traces, of which this is told where one is that of a run.
pub(crate) fn keep_told<F: BenchFiles, E: Write>(
    command: Command<'_>,
    status: Result<u8, Fault>,
    covered: Option<Covered>,
    files: &mut F,
    errors: &mut E,
) -> Result<u8, Fault> {
    match (status, covered, command.cover_file()) {
        (Ok(status), Some(covered), Some(path)) => keep(covered, path, status, files, errors),
        (status, _, _) => status,
    }
}

// Writes what was exercised to a new file, and a few lines of it to `errors`. A file that is there is left as it is. The status,
// which is `status` where it was written.
fn keep<F: BenchFiles, E: Write>(
    covered: Covered,
    path: &str,
    status: u8,
    files: &mut F,
    errors: &mut E,
) -> Result<u8, Fault> {
    let Ok(report) = covered.report.whole() else {
        return Err(Fault::Memory);
    };
    let Ok(summary) = covered.summary.whole() else {
        return Err(Fault::Memory);
    };
    match files.make(path, report) {
        Ok(()) => {
            let _ = put(errors, summary);
            Ok(status)
        }
        Err(FileFault::Cause(why)) => {
            let pieces = [
                Piece::Bytes(b"error: --cover "),
                Piece::File(path.as_bytes()),
                Piece::Bytes(b": "),
                Piece::Bytes(why.as_bytes()),
                Piece::Bytes(b"\n"),
            ];
            let _ = put_pieces(errors, &pieces);
            Ok(BAD_COMMAND_LINE)
        }
        Err(FileFault::Memory) => Err(Fault::Memory),
    }
}
