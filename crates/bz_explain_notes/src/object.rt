//! What is found in a netlist as JSON, for tools.
//!
//! JSON is written directly, by forms whose strings are pieces: a tree of values for a few lines would cost more.

use crate::finding::{Finding, Findings, Severity, line_of};
use crate::letters::shown;
use crate::notes::{Notes, Place};
use bz_text::{Piece as Part, Text, WriteFault, put, put_pieces};
use bz_view::Piece::{self, Json, Number};
use std::alloc::Global;
use std::io::Write;

/// The members of a finding up to those that tell what it is about.
const FINDING: &str = "%{\"file\": %, \"line\": %, \"column\": %, \"byte\": %, \
\"severity\": \"%\", \"code\": %, \"name\": %, \"text\": %";

/// Writes findings in a file as one object of JSON, on a line of its own.
pub fn tell_json<W: Write>(
    alloc: Global,
    file: &str,
    findings: &Findings,
    out: &mut W,
) -> Result<(), WriteFault> {
    let mut text = Text::new(alloc);
    put_findings(&mut text, file, findings);
    match text.whole() {
        Ok(bytes) => put(out, bytes),
        Err(_) => Err(WriteFault),
    }
}

/// Writes why nothing can be said of a file, as one object of JSON on a line of its own. It takes no memory.
pub fn tell_refusal<'a, W: Write>(
    file: &'a str,
    why: &'a [u8],
    out: &mut W,
) -> Result<(), WriteFault> {
    let pieces = [
        Part::Bytes(b"{\"version\": 1, \"file\": "),
        Part::Json(file.as_bytes()),
        Part::Bytes(b", \"error\": "),
        Part::Json(why),
        Part::Bytes(b", \"findings\": [], \"more\": 0, \"unopened\": 0}\n"),
    ];
    put_pieces(out, &pieces)
}

fn put_findings(text: &mut Text, file: &str, findings: &Findings) {
    let name = Json(file.as_bytes());
    text.say("{\"version\": 1, \"file\": %, \"findings\": [", &[name]);
    let mut before = "";
    for finding in &findings.list {
        put_finding(text, before, file, finding);
        before = ", ";
    }
    text.say(
        "], \"more\": %, \"unopened\": %}\n",
        &[Number(findings.more), Number(findings.unopened)],
    );
}

fn put_finding<'a>(text: &mut Text, before: &'a str, file: &'a str, finding: &'a Finding) {
    let Place { byte, spot } = finding.place;
    let severity = match finding.severity {
        Severity::Fault => "fault",
        Severity::Warning => "warning",
    };
    let line = line_of(finding);
    let (code, name) = code_of(line);
    let pieces = [
        Piece::Text(before),
        Json(file.as_bytes()),
        Number(spot.line),
        Number(spot.column),
        Number(byte),
        Piece::Text(severity),
        Json(code),
        Json(name),
        Json(line),
    ];
    text.say(FINDING, &pieces);
    text.put_bytes(finding.notes.details());
    put_notes(text, &finding.notes);
}

// Ends an object with the notes.
fn put_notes(text: &mut Text, notes: &Notes) {
    text.put(", \"notes\": [");
    let mut before = "";
    for note in notes.ended() {
        match shown(text.alloc(), note) {
            Ok(letters) => text.say("%%", &[Piece::Text(before), Json(letters.as_slice())]),
            Err(_) => text.lose(),
        }
        before = ", ";
    }
    text.put("]}");
}

// The code and the name in a line: its first two words.
fn code_of(line: &[u8]) -> (&[u8], &[u8]) {
    let mut words = line.split(|byte| *byte == b' ');
    (words.next().unwrap_or(b""), words.next().unwrap_or(b""))
}
