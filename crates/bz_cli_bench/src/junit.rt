//! Cases as one test suite in JUnit's form.

use crate::case::Case;
use crate::ended::Ended;
use crate::json::word_of;
use crate::lines::{path_of, put_why};
use crate::traces::name_of;
use crate::xml::put_xml;
use bz_text::Text;
use bz_view::Piece;

/// How many cases there are, how many failed, and how many were refused.
#[derive(Clone, Copy)]
struct Totals {
    all: usize,
    failed: usize,
    refused: usize,
}

/// Adds a suite with each case. One that is refused is an error, and any other that did not pass a failure.
pub(crate) fn put_suite(text: &mut Text, benches: &[&str], cases: &[Case]) {
    let totals = totals_of(cases);
    let numbers = [
        Piece::Number(totals.all),
        Piece::Number(totals.failed),
        Piece::Number(totals.refused),
    ];
    text.put("<?xml version=\"1.0\" encoding=\"UTF-8\"?>\n");
    text.say(
        "<testsuite name=\"breezesim\" tests=\"%\" failures=\"%\" errors=\"%\">\n",
        &numbers,
    );
    for case in cases {
        put_case(text, path_of(benches, case), case);
    }
    text.put("</testsuite>\n");
}

fn totals_of(cases: &[Case]) -> Totals {
    let mut totals = Totals {
        all: cases.len(),
        failed: 0,
        refused: 0,
    };
    for case in cases {
        if is_refused(case.ended()) {
            totals.refused = totals.refused.saturating_add(1);
        } else if !case.is_passed() {
            totals.failed = totals.failed.saturating_add(1);
        }
    }
    totals
}

fn is_refused(ended: Ended) -> bool {
    matches!(ended, Ended::BadBench(_, _) | Ended::NoNet)
}

fn put_case(text: &mut Text, path: &str, case: &Case) {
    text.put("  <testcase classname=\"");
    put_xml(text, path.as_bytes());
    text.put("\" name=\"");
    put_xml(text, name_of(path).as_bytes());
    if let Some(seed) = case.seed() {
        text.say(" seed %", &[Piece::Wide(seed.into())]);
    }
    if case.is_passed() {
        text.put("\"/>\n");
        return;
    }
    let kind = if is_refused(case.ended()) {
        "error"
    } else {
        "failure"
    };
    let word = Piece::Text(word_of(case.ended()));
    text.say(
        "\">\n    <% type=\"%\" message=\"",
        &[Piece::Text(kind), word],
    );
    put_message(text, case);
    text.put("\"/>\n  </testcase>\n");
}

// Adds how a case ended, and where its bench is at fault.
fn put_message(text: &mut Text, case: &Case) {
    if let Ended::BadBench(at, _) = case.ended() {
        let spot = [Piece::Number(at.line), Piece::Number(at.column)];
        text.say("line %, column %: ", &spot);
    }
    let mut why = Text::new(text.alloc());
    put_why(&mut why, case);
    match why.whole() {
        Ok(why) => put_xml(text, why),
        Err(_) => text.lose(),
    }
}
