//! A report as JSON.

use crate::report::{Report, Share};
use bz_kind_rows::kind_rows;
use bz_model::Value;
use bz_text::Text;
use bz_view::Piece::{self, Bytes, Json, JsonTyped, Number, Typed, Wide};
use bz_view::{port_of, say_json};
use std::alloc::{AllocError, Global};

/// Adds one object: how much was exercised, which kinds there are, what was never used, and the counts, one component a line.
pub fn put_report(alloc: Global, text: &mut Text, report: Report<'_>) -> Result<(), AllocError> {
    let (comps, ports) = (report.comps(), report.ports());
    text.put("{\"version\": 1");
    if let Some(name) = report.name {
        text.say(", \"net\": %", &[Json(name)]);
    }
    text.say(
        ", \"traces\": %, \"components\": %, \"moved\": %, \"ports\": %, \"ports_used\": %",
        &[
            Number(report.traces),
            Number(comps.all),
            Number(comps.exercised),
            Number(ports.all),
            Number(ports.exercised),
        ],
    );
    let shares = shares(alloc, report)?;
    put_kinds(text, &shares);
    put_absent(text, &shares);
    text.put("],\n\"missed\": [");
    put_missed(text, report);
    text.put("],\n\"counts\": [");
    put_counts(text, report);
    text.put("]}\n");
    Ok(())
}

// Of each kind how many components there are and how many of them moved, in the order of the kinds.
fn shares(alloc: Global, report: Report<'_>) -> Result<Vec<Share>, AllocError> {
    let mut shares = vec![in alloc; Share::NONE; kind_rows().len()]?;
    for place in 0..report.core().comp_count() {
        let comp = place.saturating_add(1);
        if let Some(kind) = kind_place(report, comp) {
            if let Some(share) = shares.get_mut(kind) {
                share.add(report.coverage.of(comp));
            }
        }
    }
    Ok(shares)
}

// The place of a component's kind among the kinds.
fn kind_place(report: Report<'_>, comp: u32) -> Option<usize> {
    let word = report.seen.kind(comp);
    kind_rows().iter().position(|row| row.word() == word)
}

// The name of the kind at a place.
fn kind_at(place: usize) -> &'static [u8] {
    match kind_rows().get(place) {
        Some(row) => row.word(),
        None => &[],
    }
}

// Adds the kinds of which there is a component, and how many of these moved.
fn put_kinds(text: &mut Text, shares: &[Share]) {
    text.put(",\n\"kinds\": {");
    let mut before = "";
    for place in 0..shares.len() {
        let Share { all, exercised } = shares[place];
        if all > 0 {
            let (before_it, kind) = (Piece::Text(before), Bytes(kind_at(place)));
            text.say(
                "%\"%\": {\"components\": %, \"moved\": %}",
                &[before_it, kind, Number(all), Number(exercised)],
            );
            before = ", ";
        }
    }
}

// Adds the kinds of which there is no component.
fn put_absent(text: &mut Text, shares: &[Share]) {
    text.put("},\n\"kinds_absent\": [");
    let mut before = "";
    for place in 0..shares.len() {
        if shares[place].all == 0 {
            let (before_it, kind) = (Piece::Text(before), Bytes(kind_at(place)));
            text.say("%\"%\"", &[before_it, kind]);
            before = ", ";
        }
    }
}

// What was never used: each port of each component.
fn put_missed(text: &mut Text, report: Report<'_>) {
    let mut before = "\n";
    for comp in 1..=report.core().comp_count() {
        for port in 1..=report.port_count(comp) {
            if report.uses(comp, port) == 0 {
                put_comp(text, before, report, comp);
                text.say(", \"port\": \"%\"", &[port_piece(report, comp, port)]);
                put_label(text, report, comp);
                text.put("}");
                before = ",\n";
            }
        }
    }
}

// The counts of each component and of its ports.
fn put_counts(text: &mut Text, report: Report<'_>) {
    let mut before = "\n";
    for comp in 1..=report.core().comp_count() {
        put_comp(text, before, report, comp);
        let moves = Wide(report.coverage.of(comp) as Value);
        text.say(", \"moves\": %", &[moves]);
        put_label(text, report, comp);
        text.put(", \"ports\": [");
        put_ports(text, report, comp);
        text.put("]}");
        before = ",\n";
    }
}

fn put_ports(text: &mut Text, report: Report<'_>, comp: u32) {
    let mut before = "";
    for port in 1..=report.port_count(comp) {
        let (before_it, port_is) = (Piece::Text(before), port_piece(report, comp, port));
        let uses = Wide(report.uses(comp, port) as Value);
        text.say(
            "%{\"port\": \"%\", \"uses\": %}",
            &[before_it, port_is, uses],
        );
        before = ", ";
    }
}

// Begins an object with a component and its kind.
fn put_comp(text: &mut Text, before: &str, report: Report<'_>, comp: u32) {
    text.say(
        "%{\"component\": %, \"kind\": \"%\"",
        &[
            Piece::Text(before),
            Wide(comp as Value),
            Bytes(report.seen.kind(comp)),
        ],
    );
}

// Adds what a component is called and where it comes from, where that is known: names are in name form.
fn put_label(text: &mut Text, report: Report<'_>, comp: u32) {
    if let Some(name) = report.seen.survey.comp_name(comp) {
        text.say(", \"name\": %", &[JsonTyped(name)]);
    }
    if let Some(at) = report.seen.survey.comp_source(comp) {
        text.put(", \"source\": ");
        let place = [
            Typed(at.file),
            Wide(at.line as Value),
            Wide(at.column as Value),
        ];
        say_json(text, "%:%:%", &place);
    }
}

// The name of a port, and its place where it is one of an array.
fn port_piece(report: Report<'_>, comp: u32, port: u32) -> Piece<'static> {
    match report.core().comp(comp) {
        Some(site) => port_of(site, port),
        None => Piece::Text(""),
    }
}
