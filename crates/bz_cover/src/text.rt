//! A report as a few lines.

use crate::report::Report;
use bz_kind_rows::port_at;
use bz_text::Text;
use bz_view::Piece;

/// How many components and ports are told at most that were never used.
const MOST_TOLD: usize = 20;

/// Adds how much was exercised, and the first components and ports that were not: of a component that never moved no port is
/// told.
pub fn put_summary(text: &mut Text, report: Report<'_>) {
    let (comps, ports) = (report.comps(), report.ports());
    text.say(
        "%: % of % moved, % of % used\n",
        &[
            Piece::Count(report.traces, "trace"),
            Piece::Number(comps.exercised),
            Piece::Count(comps.all, "component"),
            Piece::Number(ports.exercised),
            Piece::Count(ports.all, "port"),
        ],
    );
    let mut found = 0usize;
    for place in 0..report.core().comp_count() {
        put_comp(text, report, place.saturating_add(1), &mut found);
    }
    let more = found.saturating_sub(MOST_TOLD);
    if more > 0 {
        text.say("and % more\n", &[Piece::Number(more)]);
    }
}

// Adds what was never used of a component. `found` is how much was found so far.
fn put_comp(text: &mut Text, report: Report<'_>, comp: u32, found: &mut usize) {
    let Some(site) = report.core().comp(comp) else {
        return;
    };
    let named = report.seen.comp(comp);
    if report.coverage.of(comp) == 0 {
        tell(text, "never moved: %\n", &[named], found);
        return;
    }
    for place in 0..report.port_count(comp) {
        let port = place.saturating_add(1);
        if report.uses(comp, port) == 0 {
            if let Some(at) = port_at(&site.kind, site.sizes, port) {
                tell(
                    text,
                    "never used: % of %\n",
                    &[Piece::Port(at), named],
                    found,
                );
            }
        }
    }
}

// Adds a line, if not too many were found already.
fn tell(text: &mut Text, form: &str, pieces: &[Piece<'_>], found: &mut usize) {
    if *found < MOST_TOLD {
        text.say(form, pieces);
    }
    *found = found.saturating_add(1);
}
