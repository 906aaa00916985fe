//! What is found of a trace, as an object of JSON.

use crate::noting::suspect_behind;
use bz_cli_args::Given;
use bz_cli_input::Fault;
use bz_cli_trace::Case;
use bz_explain_trace::{Suspect, put_found};
use bz_text::{Text, put};
use bz_view::Seen;
use std::alloc::Global;
use std::io::Write;

/// Writes what was found of a trace that was judged, as an object. `kept` is the input, where it was kept.
pub fn put_checked<W: Write>(
    alloc: Global,
    given: &Given<'_, '_>,
    kept: Option<&[u8]>,
    mut case: Case,
    output: &mut W,
) -> Result<(), Fault> {
    let lines = case.take_kept(alloc);
    match given.command.trace_file() {
        None => {
            let suspect = suspect_behind(given.command, kept.unwrap_or(b""));
            put_suspect(alloc, suspect, case, output)
        }
        Some(source) => {
            let suspect = Suspect {
                netlist: b"",
                trace: lines.lines().unwrap_or(b""),
                first: lines.first(),
                file: Some(source.file().unwrap_or("-")),
            };
            put_suspect(alloc, suspect, case, output)
        }
    }
}

fn put_suspect<W: Write>(
    alloc: Global,
    suspect: Suspect<'_>,
    case: Case,
    output: &mut W,
) -> Result<(), Fault> {
    let found = case.found();
    let (net, source, part) = case.into_parts();
    let mut text = Text::new(alloc);
    match source.survey(alloc, part.as_slice()) {
        Ok(survey) => put_found(suspect, found, Seen::of(net.core(), &survey), &mut text),
        Err(_) => text.lose(),
    }
    put_text(&text, output)
}

// Writes a text, down to the last byte.
fn put_text<W: Write>(text: &Text, output: &mut W) -> Result<(), Fault> {
    let Ok(whole) = text.whole() else {
        return Err(Fault::Memory);
    };
    if put(output, whole).is_err() || output.flush().is_err() {
        return Err(Fault::Write);
    }
    Ok(())
}
