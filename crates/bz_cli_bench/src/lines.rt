//! Cases as lines of text.

use crate::blessing::Blessing;
use crate::case::{Case, Short, Told};
use crate::ended::{Ended, Unlike};
use crate::verdict::Verdict;
use bz_bench::Item;
use bz_model::Value;
use bz_text::Text;
use bz_view::Piece;

/// Adds a line for each bench that was blessed and each case that did not pass, and last how many did and how many did not.
pub(crate) fn put_lines(text: &mut Text, benches: &[&str], cases: &[Case]) {
    let mut passed = 0usize;
    for case in cases {
        let path = path_of(benches, case);
        if let Blessing::Written = case.told().blessing {
            text.say("%: blessed\n", &[Piece::File(path)]);
        }
        if case.is_passed() {
            passed = passed.saturating_add(1);
        } else {
            put_line(text, path, case);
        }
    }
    let failed = cases.len().saturating_sub(passed);
    let totals = [Piece::Number(passed), Piece::Number(failed)];
    text.say("% passed, % failed\n", &totals);
}

/// The file of a case's bench.
pub(crate) fn path_of<'b>(benches: &'b [&str], case: &Case) -> &'b str {
    match benches.get(case.bench()) {
        Some(path) => path,
        None => "",
    }
}

// Adds the line of a case.
fn put_line(text: &mut Text, path: &str, case: &Case) {
    text.say("%", &[Piece::File(path)]);
    if let Ended::BadBench(at, _) = case.ended() {
        let spot = [Piece::Number(at.line), Piece::Number(at.column)];
        text.say(":%:%", &spot);
    }
    if let Some(seed) = case.seed() {
        text.say(": seed %", &[Piece::Wide(seed.into())]);
    }
    text.put(": ");
    put_why(text, case);
    text.put("\n");
}

/// Adds how a case ended, without a line end.
pub(crate) fn put_why(text: &mut Text, case: &Case) {
    let told = case.told();
    match case.ended() {
        Ended::Judged(verdict) => put_verdict(text, verdict, told),
        Ended::Unlike(unlike) => put_unlike(text, unlike, told),
        Ended::BadBench(_, cause) => {
            let pieces = [Piece::Text(cause.code()), Piece::Text(cause.expected())];
            text.say("refused: %, expected: %", &pieces);
        }
        Ended::NoNet => text.say("refused: %", &[Piece::Bytes(told.why.as_slice())]),
    }
}

fn put_verdict(text: &mut Text, verdict: Verdict, told: &Told) {
    match verdict {
        Verdict::Passed => text.put("ok"),
        Verdict::Differs {
            place,
            due,
            came,
            ..
        } => {
            put_place(text, place, told);
            text.say(
                ": due %, came %, line % of the trace",
                &[due_piece(due), came_piece(came), Piece::Number(told.line)],
            );
        }
        Verdict::Extra { came, .. } => {
            let port = Piece::Typed(told.port.as_slice());
            text.say("extra at %: came %", &[port, Piece::Wide(came)]);
        }
        Verdict::Stuck { .. } => {
            put_short_of(text, "stuck", told);
            put_rest(text, told);
        }
        Verdict::Spins { .. } => {
            put_short_of(text, "spins", told);
            let lines = [Piece::Number(told.line), Piece::Number(told.from)];
            text.say("; after line % all is as after line %", &lines);
            put_rest(text, told);
        }
        Verdict::Spent => {
            let line = [Piece::Number(told.from)];
            text.say(
                "spent: the fuel or the journal was at its end; no word was done since line %",
                &line,
            );
            put_rest(text, told);
        }
    }
}

// Adds that another value came, and at which item of which port.
fn put_place(text: &mut Text, place: usize, told: &Told) {
    let port = Piece::Typed(told.port.as_slice());
    let item = Piece::Number(place.saturating_add(1));
    text.say("differs at %, item %", &[port, item]);
}

fn put_unlike(text: &mut Text, unlike: Unlike, told: &Told) {
    put_place(text, unlike.place, told);
    let values = [came_piece(unlike.came), came_piece(unlike.had)];
    text.say(": came %, and %", &values);
    let line = Piece::Number(told.line);
    match unlike.before {
        Some(seed) => text.say(
            " by seed %, line % of the trace",
            &[Piece::Wide(seed.into()), line],
        ),
        None => text.say(", line % of the trace", &[line]),
    }
}

// Adds a word, and what is short.
fn put_short_of(text: &mut Text, word: &str, told: &Told) {
    text.put(word);
    let mut before = ": ";
    for short in &told.short {
        text.put(before);
        put_short(text, short);
        before = ", ";
    }
}

// Adds who waits for whom, or what has gone round.
fn put_rest(text: &mut Text, told: &Told) {
    for line in told.why.as_slice().split(|byte| *byte == b'\n') {
        if !line.is_empty() {
            text.put("; ");
            text.put_bytes(line);
        }
    }
}

fn put_short(text: &mut Text, short: &Short) {
    let port = Piece::Typed(short.port.as_slice());
    let (begun, due) = (Piece::Number(short.begun), Piece::Number(short.due));
    if short.begun < short.due {
        text.say("% begun % of %", &[port, begun, due]);
    } else {
        let ended = Piece::Number(short.ended);
        text.say("% ended % of %", &[port, ended, due]);
    }
}

/// What was due.
pub(crate) fn due_piece(due: Option<Item>) -> Piece<'static> {
    match due {
        Some(Item::Value(value)) => Piece::Wide(value),
        Some(Item::Handshake) => Piece::Text("."),
        Some(Item::Any) => Piece::Text("?"),
        None => Piece::Text("nothing"),
    }
}

/// What came.
pub(crate) fn came_piece(came: Option<Value>) -> Piece<'static> {
    match came {
        Some(value) => Piece::Wide(value),
        None => Piece::Text("."),
    }
}
