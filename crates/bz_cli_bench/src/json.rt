//! Cases as objects of JSON, one a line. Values are strings, since many readers of JSON keep 53 bits of a number.

use crate::blessing::Blessing;
use crate::case::{Case, Told};
use crate::ended::{Ended, Unlike};
use crate::lines::{came_piece, due_piece, path_of};
use crate::verdict::Verdict;
use bz_model::Value;
use bz_text::Text;
use bz_view::Piece::{self, Json, JsonTyped, Number, Wide};
use bz_view::put_json_lines;

/// Adds the object of each case.
pub(crate) fn put_objects(text: &mut Text, benches: &[&str], cases: &[Case]) {
    for case in cases {
        put_object(text, path_of(benches, case), case);
    }
}

fn put_object(text: &mut Text, path: &str, case: &Case) {
    let told = case.told();
    let seed = match case.seed() {
        Some(seed) => Wide(seed as Value),
        None => Piece::Text("null"),
    };
    let verdict = Piece::Text(word_of(case.ended()));
    let blessed = match told.blessing {
        Blessing::Written => Piece::Text(", \"blessed\": true"),
        _ => Piece::Text(""),
    };
    text.say(
        "{\"version\": 1, \"bench\": %, \"seed\": %, \"verdict\": \"%\"%",
        &[Json(path.as_bytes()), seed, verdict, blessed],
    );
    put_members(text, case.ended(), told);
    put_counts(text, told);
}

// Adds how much was done, and ends the object.
fn put_counts(text: &mut Text, told: &Told) {
    let counts = [Number(told.fired), Number(told.words)];
    text.say(", \"fired\": %, \"words\": %}\n", &counts);
}

/// The word of a verdict.
pub(crate) fn word_of(ended: Ended) -> &'static str {
    match ended {
        Ended::Judged(Verdict::Passed) => "ok",
        Ended::Judged(Verdict::Differs { .. }) | Ended::Unlike(_) => "differs",
        Ended::Judged(Verdict::Extra { .. }) => "extra",
        Ended::Judged(Verdict::Stuck { .. }) => "stuck",
        Ended::Judged(Verdict::Spins { .. }) => "spins",
        Ended::Judged(Verdict::Spent) => "spent",
        Ended::BadBench(_, _) | Ended::NoNet => "refused",
    }
}

fn put_members(text: &mut Text, ended: Ended, told: &Told) {
    match ended {
        Ended::Judged(verdict) => put_verdict(text, verdict, told),
        Ended::Unlike(unlike) => put_unlike(text, unlike, told),
        Ended::BadBench(at, cause) => text.say(
            ", \"line\": %, \"column\": %, \"why\": %, \"expected\": %",
            &[
                Number(at.line),
                Number(at.column),
                Json(cause.code().as_bytes()),
                Json(cause.expected().as_bytes()),
            ],
        ),
        Ended::NoNet => text.say(", \"why\": %", &[Json(told.why.as_slice())]),
    }
}

fn put_verdict(text: &mut Text, verdict: Verdict, told: &Told) {
    match verdict {
        Verdict::Passed => {}
        Verdict::Differs {
            place,
            due,
            came,
            ..
        } => {
            put_place(text, place, told);
            text.say(
                ", \"due\": \"%\", \"came\": \"%\", \"line\": %",
                &[due_piece(due), came_piece(came), Number(told.line)],
            );
        }
        Verdict::Extra { came, .. } => {
            let port = JsonTyped(told.port.as_slice());
            text.say(", \"port\": %, \"came\": \"%\"", &[port, Wide(came)]);
        }
        Verdict::Stuck { .. } => {
            put_shorts(text, told);
            put_lines(text, "waits", told);
        }
        Verdict::Spins { .. } => {
            let lines = [Number(told.from), Number(told.line)];
            text.say(", \"from\": %, \"to\": %", &lines);
            put_shorts(text, told);
            put_lines(text, "rounds", told);
        }
        Verdict::Spent => {
            text.say(", \"since\": %", &[Number(told.from)]);
            put_lines(text, "rounds", told);
        }
    }
}

// Adds a port, and the number of an item there.
fn put_place(text: &mut Text, place: usize, told: &Told) {
    let port = JsonTyped(told.port.as_slice());
    let item = Number(place.saturating_add(1));
    text.say(", \"port\": %, \"item\": %", &[port, item]);
}

fn put_unlike(text: &mut Text, unlike: Unlike, told: &Told) {
    put_place(text, unlike.place, told);
    text.say(
        ", \"came\": \"%\", \"came_before\": \"%\"",
        &[came_piece(unlike.came), came_piece(unlike.had)],
    );
    let line = Number(told.line);
    match unlike.before {
        Some(seed) => text.say(
            ", \"seed_before\": %, \"line\": %",
            &[Wide(seed as Value), line],
        ),
        None => text.say(", \"line\": %", &[line]),
    }
}

// Adds what is short.
fn put_shorts(text: &mut Text, told: &Told) {
    text.put(", \"short\": [");
    let mut before = "";
    for short in &told.short {
        text.say(
            "%{\"port\": %, \"begun\": %, \"ended\": %, \"due\": %}",
            &[
                Piece::Text(before),
                JsonTyped(short.port.as_slice()),
                Number(short.begun),
                Number(short.ended),
                Number(short.due),
            ],
        );
        before = ", ";
    }
    text.put("]");
}

// Adds each line of who waits for whom, or of what has gone round, as a string.
fn put_lines(text: &mut Text, name: &str, told: &Told) {
    text.say(", \"%\": [", &[Piece::Text(name)]);
    put_json_lines(text, told.why.as_slice());
    text.put("]");
}
