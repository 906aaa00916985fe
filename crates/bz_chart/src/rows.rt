//! The lines of the trace, each on a row.
//!
//! Where no lifeline is shown, as of rests alone, a row has no room for the word `rest` at its right end: there it is in the
//! line only.

use crate::svg::{HOST_LINE, LINE, Pen, RECT, put_text};
use crate::words::Cut;
use bz_chart_layout::{Event, Layout, Line};

const REST: &str = "<text x=\"%\" y=\"%\" text-anchor=\"end\" fill=\"#666666\">rest</text>\n";

const NUMBER: &str = "<text x=\"%\" y=\"%\" text-anchor=\"end\" fill=\"#666666\">%</text>\n";

/// How many letters of a line are shown.
const MOST_LETTERS: usize = 60;

pub(crate) const RESTING: &str = "#e8e8e8";

const ODD: &str = "#f2f2f2";

/// The part of a line that is shown.
pub(crate) fn shown<'a>(line: &Line<'a>) -> Cut<'a> {
    Cut::new(line.text, MOST_LETTERS)
}

pub(crate) fn put_row(pen: &mut Pen, layout: Layout, place: u32, line: &Line<'_>) {
    let (right, y) = (layout.right(), layout.row(place));
    if matches!(line.event, Event::Rested) {
        pen.put(RECT, &[4, y - 8, right, 16], RESTING);
        if layout.columns > 0 {
            pen.put(REST, &[right, y + 4], "");
        }
    } else if place % 2 == 1 {
        pen.put(RECT, &[4, y - 8, right, 16], ODD);
    }
    pen.put(NUMBER, &[layout.numbers(), y + 4, line.number as u64], "");
    let set = if line.by_host { HOST_LINE } else { LINE };
    put_text(pen, layout.numbers() + 8, y + 4, set, shown(line));
}
