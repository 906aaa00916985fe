//! A report in LCOV's form: of each line of a source how often it was run, and of each of its branches how often it was taken.
//!
//! A line was run as often as its component was activated. Of several components on a line, as copies of a part are, the
//! greatest number counts.

use crate::report::{Report, Share};
use crate::roles::branches;
use bz_flat::FlatComp;
use bz_source::SourceAt;
use bz_text::{Piece, Text};
use std::alloc::{AllocError, Global};

/// A line of a source, and how often it was run.
#[derive(Clone, Copy, PartialEq, Eq, PartialOrd, Ord)]
struct Line<'s> {
    file: &'s [u8],
    line: u32,
    count: u64,
}

/// A branch on a line: its component, its place there from 0, and how often it was taken, if the component was activated.
#[derive(Clone, Copy, PartialEq, Eq, PartialOrd, Ord)]
struct Branch<'s> {
    file: &'s [u8],
    line: u32,
    comp: u32,
    place: u32,
    count: Option<u64>,
}

/// Adds a record for each source file, by name. Components without a source are left out.
pub fn put_lcov(alloc: Global, text: &mut Text, report: Report<'_>) -> Result<(), AllocError> {
    let lines = lines_of(alloc, report)?;
    let branches = branches_of(alloc, report)?;
    put_files(text, lines.as_slice(), branches.as_slice());
    Ok(())
}

// Adds the records of lines and branches, which are in order.
fn put_files(text: &mut Text, lines: &[Line<'_>], branches: &[Branch<'_>]) {
    let mut told = None;
    for (place, line) in lines.iter().enumerate() {
        let file = line.file;
        if told != Some(file) {
            told = Some(file);
            let end = lines.partition_point(|it| it.file <= file);
            let first = branches.partition_point(|it| it.file < file);
            let last = branches.partition_point(|it| it.file <= file);
            let here = lines.get(place..end).unwrap_or(&[]);
            let taken = branches.get(first..last).unwrap_or(&[]);
            put_file(text, file, here, taken);
        }
    }
}

// The lines from which components come, in order, each by the greatest number of times that it was run.
fn lines_of<'r>(alloc: Global, report: Report<'r>) -> Result<Vec<Line<'r>>, AllocError> {
    let mut lines = Vec::new(alloc);
    for place in 0..report.core().comp_count() {
        let comp = place.saturating_add(1);
        if let (Some(at), Some(site)) = (
            report.seen.survey.comp_source(comp),
            report.core().comp(comp),
        ) {
            lines.push(Line {
                file: at.file,
                line: at.line,
                count: report.activations(comp, site),
            })?;
        }
    }
    lines.sort()?;
    Ok(lines)
}

// The branches of components, in order.
fn branches_of<'r>(alloc: Global, report: Report<'r>) -> Result<Vec<Branch<'r>>, AllocError> {
    let mut found = Vec::new(alloc);
    for place in 0..report.core().comp_count() {
        let comp = place.saturating_add(1);
        if let (Some(at), Some(site)) = (
            report.seen.survey.comp_source(comp),
            report.core().comp(comp),
        ) {
            add_branches(report, comp, site, at, &mut found)?;
        }
    }
    found.sort()?;
    Ok(found)
}

fn add_branches<'r>(
    report: Report<'r>,
    comp: u32,
    site: &FlatComp,
    at: SourceAt<'r>,
    found: &mut Vec<Branch<'r>>,
) -> Result<(), AllocError> {
    let Some(ports) = branches(site) else {
        return Ok(());
    };
    let is_activated = report.activations(comp, site) > 0;
    for port in ports.first..=ports.last {
        let uses = report.uses(comp, port);
        found.push(Branch {
            file: at.file,
            line: at.line,
            comp,
            place: port.saturating_sub(ports.first),
            count: if is_activated { Some(uses) } else { None },
        })?;
    }
    Ok(())
}

// Adds the record of a source file.
fn put_file(text: &mut Text, file: &[u8], lines: &[Line<'_>], branches: &[Branch<'_>]) {
    let name = [
        Piece::Bytes(b"TN:\nSF:"),
        Piece::File(file),
        Piece::Bytes(b"\n"),
    ];
    text.put_pieces(&name);
    let taken = put_branches(text, branches);
    put_share(text, "BRF:", "BRH:", taken);
    let run = put_lines(text, lines);
    put_share(text, "LF:", "LH:", run);
    text.put("end_of_record\n");
}

fn put_branches(text: &mut Text, branches: &[Branch<'_>]) -> Share {
    let mut share = Share::NONE;
    for branch in branches {
        put_numbers(text, "BRDA:", &[branch.line, branch.comp, branch.place]);
        match branch.count {
            Some(count) => text.put_pieces(&[Piece::Number(count.into())]),
            None => text.put("-"),
        }
        text.put("\n");
        share.add(branch.count.unwrap_or(0));
    }
    share
}

// Adds each line once. Those of the same line stand together, the greatest number last.
fn put_lines(text: &mut Text, lines: &[Line<'_>]) -> Share {
    let mut share = Share::NONE;
    for (place, line) in lines.iter().enumerate() {
        let next = lines.get(place.saturating_add(1));
        if next.map(|next| next.line) != Some(line.line) {
            put_numbers(text, "DA:", &[line.line]);
            text.put_pieces(&[Piece::Number(line.count.into()), Piece::Bytes(b"\n")]);
            share.add(line.count);
        }
    }
    share
}

// Adds numbers, each with a comma behind.
fn put_numbers(text: &mut Text, head: &str, numbers: &[u32]) {
    text.put(head);
    for number in numbers {
        text.put_pieces(&[Piece::Number((*number).into()), Piece::Bytes(b",")]);
    }
}

// Adds how many there are, and how many of these were exercised.
fn put_share(text: &mut Text, found: &str, hit: &str, share: Share) {
    put_count(text, found, share.all);
    put_count(text, hit, share.exercised);
}

fn put_count(text: &mut Text, head: &str, count: usize) {
    text.put(head);
    text.put_pieces(&[Piece::Number(count as u128), Piece::Bytes(b"\n")]);
}
