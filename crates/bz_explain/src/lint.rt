//! The command `lint`: all that is wrong with a netlist, whichever parts are looked at, and warnings of what is likely to be a
//! mistake. Findings go to standard output, since they are what is asked for, and notes always follow them.
//!
//! Each part on top is opened, and each part that no part on top reaches. Several of them may share a part of a million
//! components, so there is a limit to what is opened. If parts are left over, their number is shown and nothing is warned of:
//! one of them may be what reaches a component.

ghost use Rattle.bz_cli_input.specs.Reading.{ReadsWithin};

use crate::asked::{Asked, Words};
use crate::explaining::explain;
use crate::findings::{line_of, no_findings};
use crate::opening::Linted;
use crate::site::NetlistText;
use bz_breeze::parts_of;
use bz_cli_input::{Fault, in_part, read_input};
use bz_elab::ElabError;
use bz_explain_notes::{
    Finding, Findings, Place, Severity, tell_findings, tell_json, tell_refusal,
};
use bz_sexpr::read_forest;
use bz_source::lines_of;
use bz_text::WriteFault;
use bz_view::Spot;
use std::alloc::{AllocError, Global};
use std::io::{Read, Write};

/// Where a text begins.
const START: Place = Place {
    byte: 0,
    spot: Spot { line: 1, column: 1 },
};

/// What `lint` is asked.
#[derive(Clone, Copy)]
pub struct Lint<'a> {
    /// The name of the part that is meant to be used, where it is named.
    pub part: Option<&'a [u8]>,
    /// The name of the netlist's file, if it is one's.
    pub file: Option<&'a str>,
    /// Whether findings are told as JSON.
    pub is_json: bool,
    /// The most findings that are told.
    pub most: usize,
}

/// Tells all findings in the netlist that the reader gives. Whether no fault is among them.
pub fn lint_cmd<R: Read, W: Write>(
    alloc: Global,
    lint: Lint<'_>,
    input: &mut R,
    output: &mut W,
) -> Result<bool, Fault>
    // Whatever comes of it, it reads at most one byte past the limit.
    ensures { ReadsWithin (R.remaining input.old) (R.remaining input.new) }
{
    match findings_of(alloc, lint, input) {
        Ok(findings) => tell(alloc, lint, &findings, output),
        Err(fault) => {
            if lint.is_json {
                let why = line_of(alloc, &fault);
                refuse(lint.file, why.whole().unwrap_or(b""), output)?;
            }
            Err(fault)
        }
    }
}

// All findings in the netlist that the reader gives.
fn findings_of<R: Read>(alloc: Global, lint: Lint<'_>, input: &mut R) -> Result<Findings, Fault>
    ensures { ReadsWithin (R.remaining input.old) (R.remaining input.new) }
{
    let text = read_input(alloc, input)?;
    findings_in(alloc, lint, text.as_slice())
}

/// Tells as JSON why nothing can be said of a file.
pub fn refuse_lint<W: Write>(file: &str, why: &[u8], output: &mut W) -> Result<(), Fault> {
    refuse(Some(file), why, output)
}

fn refuse<W: Write>(file: Option<&str>, why: &[u8], output: &mut W) -> Result<(), Fault> {
    tell_refusal(file.unwrap_or("-"), why, output)?;
    match output.flush() {
        Ok(()) => Ok(()),
        Err(_) => Err(Fault::from(WriteFault)),
    }
}

fn tell<W: Write>(
    alloc: Global,
    lint: Lint<'_>,
    findings: &Findings,
    output: &mut W,
) -> Result<bool, Fault> {
    let file = lint.file.unwrap_or("-");
    if lint.is_json {
        tell_json(alloc, file, findings, output)?;
    } else {
        tell_findings(alloc, file, findings, output)?;
    }
    match output.flush() {
        Ok(()) => Ok(findings.count(Severity::Fault) == 0),
        Err(_) => Err(Fault::from(WriteFault)),
    }
}

// A text that is refused as a whole has one finding.
fn findings_in<'a>(alloc: Global, lint: Lint<'a>, text: &'a [u8]) -> Result<Findings, Fault> {
    match findings_of_parts(alloc, lint, text) {
        Err(fault) if matches!(fault, Fault::Text(_) | Fault::Part(_)) => {
            Ok(finding_of_text(alloc, lint, text, &fault)?)
        }
        findings => findings,
    }
}

fn finding_of_text<'a>(
    alloc: Global,
    lint: Lint<'a>,
    text: &'a [u8],
    fault: &Fault,
) -> Result<Findings, AllocError> {
    let asked = Asked {
        netlist: text,
        file: lint.file,
        part: None,
        words: Words {
            list: &[],
            is_pool: false,
            file: None,
        },
    };
    let notes = explain(alloc, fault, asked).notes;
    let mut findings = no_findings(alloc);
    findings.list.push(Finding {
        severity: Severity::Fault,
        line: line_of(alloc, fault),
        place: notes.place().unwrap_or(START),
        notes,
    })?;
    Ok(findings)
}

fn findings_of_parts<'a>(alloc: Global, lint: Lint<'a>, text: &'a [u8]) -> Result<Findings, Fault> {
    let forest = read_forest(alloc, text)?;
    let data = forest.forms();
    let parts = parts_of(alloc, data)?;
    let lines = lines_of(alloc, text, data)?;
    let netlist = NetlistText {
        alloc,
        file: lint.file,
        text,
        data,
        parts: &parts,
        lines: lines.as_slice(),
    };
    match lint.part {
        Some(part) if parts.number(part).is_none() => {
            Err(in_part(alloc, parts.list(), part, ElabError::NoPart))
        }
        _ => Ok(Linted::of(netlist, lint.part, lint.most)?),
    }
}
