//! What is found in a netlist, told with its place, as lines for people.
//!
//! A line of a finding begins with `FILE:LINE:COLUMN:`, as those of compilers, so that editors find the place. The first line
//! of a command's fault has a fixed form without a place; its first note has it.

use crate::notes::{Notes, Place};
use crate::telling::tell_notes;
use bz_model::Value;
use bz_text::{Piece, Text, WriteFault, put_pieces};
use std::alloc::Global;
use std::io::Write;

/// What a finding says of the netlist.
#[derive(Clone, Copy, PartialEq, Eq)]
pub enum Severity {
    /// It is refused.
    Fault,
    /// It is accepted, and likely to be a mistake.
    Warning,
}

/// A fault of a netlist, or a warning.
#[derive(Drop)]
pub struct Finding {
    pub severity: Severity,
    /// The code, the name and what follows these, one space apart.
    pub line: Text,
    pub place: Place,
    pub notes: Notes,
}

/// The first findings, and how many there are beside them.
#[derive(Drop)]
pub struct Findings {
    pub list: Vec<Finding>,
    pub more: usize,
    /// How many parts were to be opened and were not, since that would take too long.
    pub unopened: usize,
}

impl Findings {
    /// How many of this severity are among the first.
    pub fn count(&self, severity: Severity) -> usize {
        let list = self.list.iter();
        list.filter(|finding| finding.severity == severity).count()
    }
}

/// Writes findings in a file: each begins with `FILE:LINE:COLUMN: ` and has its notes behind it. Last notes say how many more
/// there are, and how many parts were not opened, where there are such.
pub fn tell_findings<W: Write>(
    alloc: Global,
    file: &str,
    findings: &Findings,
    out: &mut W,
) -> Result<(), WriteFault> {
    for finding in &findings.list {
        tell_finding(alloc, file, finding, out)?;
    }
    tell_count(findings.more, b" more\n", out)?;
    tell_count(findings.unopened, b" parts that were not opened\n", out)
}

// A note on how many there are beside what was told, where there are any.
fn tell_count<W: Write>(count: usize, behind: &[u8], out: &mut W) -> Result<(), WriteFault> {
    if count == 0 {
        return Ok(());
    }
    let pieces = [
        Piece::Bytes(b"breezesim: note: and "),
        Piece::Number(count as Value),
        Piece::Bytes(behind),
    ];
    put_pieces(out, &pieces)
}

fn tell_finding<'a, W: Write>(
    alloc: Global,
    file: &'a str,
    finding: &'a Finding,
    out: &mut W,
) -> Result<(), WriteFault> {
    let pieces = [
        Piece::File(file.as_bytes()),
        Piece::Bytes(b":"),
        Piece::Number(finding.place.spot.line as Value),
        Piece::Bytes(b":"),
        Piece::Number(finding.place.spot.column as Value),
        Piece::Bytes(b": "),
        Piece::Bytes(line_of(finding)),
        Piece::Bytes(b"\n"),
    ];
    put_pieces(out, &pieces)?;
    tell_notes(alloc, &finding.notes, out)
}

/// The line of a finding, empty where memory was wanting for it.
pub(crate) fn line_of(finding: &Finding) -> &[u8] {
    match finding.line.whole() {
        Ok(line) => line,
        Err(_) => b"",
    }
}
