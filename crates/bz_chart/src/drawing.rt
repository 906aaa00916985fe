//! The whole drawing.
//!
//! A chart has a light ground with a border and no second set of colours for dark pages: that would take a style sheet, which
//! charts do without, or an option, and then the page that shows the picture would have to know which one it got.

use crate::columns::Columns;
use crate::flow::Flow;
use crate::heads::{put_heads, put_names};
use crate::legend::{Signs, put_legend};
use crate::scene::{Chart, Scene, TOP};
use crate::svg::{GROUND, Pen};
use crate::words::{Cut, digits};
use bz_chart_layout::{Circuit, Layout, Picks, Piece};
use bz_source::Survey;
use bz_trace_text::LineNames;
use std::alloc::{AllocError, Global};

const TITLE: &str = ": lines % to % of the trace";

/// How many of these lines are shown, where not all are.
const SHOWN: &str = ", % shown";

const LIFELINE: &str = "<path d=\"M% %V%\" stroke=\"#999999\" stroke-width=\"1\"/>\n";

/// How many letters of the part's name the title shows.
const MOST_PART: usize = 40;

/// The letters of a title behind the part's name, but for the numbers of the lines.
const TITLE_LETTERS: u32 = 25;

/// The letters that say how many lines are shown, but for the number.
const SHOWN_LETTERS: u32 = 8;

const HEAD: &str = "<?xml version=\"1.0\" encoding=\"UTF-8\"?>
<svg xmlns=\"http://www.w3.org/2000/svg\" version=\"1.1\" width=\"%\" height=\"%\" viewBox=\"0 0 % %\" \
font-family=\"DejaVu Sans Mono, Liberation Mono, Courier New, monospace\" font-size=\"11.6\">
<title>";

const DESCRIPTION: &str = "</title>
<desc>A lifeline for each external port that is used, for passive ports on the left and active ports on the right, \
and for each component that takes part, by number. Time goes down, a line of the trace on each row.</desc>
<rect x=\"0.5\" y=\"0.5\" width=\"%\" height=\"%\" rx=\"4\" fill=\"$\" stroke=\"#999999\"/>
<text x=\"8\" y=\"17\" font-size=\"12\" font-weight=\"bold\">";

/// The chart of a piece of a trace, as SVG in UTF-8: of all its lines, or of those that show something of what is picked.
pub(crate) fn draw(
    alloc: Global,
    circuit: &Circuit,
    survey: &Survey,
    part: &[u8],
    trace: &[u8],
    piece: Piece,
    picks: Option<&Picks>,
) -> Result<Vec<u8>, AllocError> {
    let names = LineNames::new(alloc, circuit.names());
    let chart = Chart {
        circuit,
        names: &names,
        survey,
        part,
        trace,
        piece,
        picks,
    };
    match Columns::of(alloc, chart) {
        Ok(columns) => draw_columns(alloc, chart, &columns),
        Err(fault) => Err(fault),
    }
}

fn draw_columns(alloc: Global, chart: Chart<'_>, columns: &Columns) -> Result<Vec<u8>, AllocError> {
    match Flow::new(alloc, chart, columns.count()) {
        Ok(mut flow) => draw_flow(Pen::new(alloc), chart, columns, &mut flow),
        Err(fault) => Err(fault),
    }
}

fn draw_flow(
    mut pen: Pen,
    chart: Chart<'_>,
    columns: &Columns,
    flow: &mut Flow,
) -> Result<Vec<u8>, AllocError> {
    let part = pen.spell(&[bz_text::Piece::Name(chart.part)]);
    let part = Cut::new(part.as_slice(), MOST_PART);
    let mut scene = Scene {
        chart,
        columns,
        layout: layout_of(chart, columns, part),
    };
    flow.follow(scene);
    let signs = flow.signs();
    scene.layout.signs = signs.count();
    put_all(&mut pen, scene, part, flow, signs);
    pen.end()
}

// What the places go by, but for the legend.
fn layout_of(chart: Chart<'_>, columns: &Columns, part: Cut<'_>) -> Layout {
    let piece = chart.piece;
    let numbers = digits(piece.first).saturating_add(digits(piece.last()));
    let shown = match chart.picks {
        Some(_) => digits(columns.rows as usize).saturating_add(SHOWN_LETTERS),
        None => 0,
    };
    Layout {
        rows: columns.rows,
        columns: columns.count(),
        digits: digits(piece.last()),
        letters: columns.letters,
        title: (part.letters().saturating_add(TITLE_LETTERS))
            .saturating_add(numbers)
            .saturating_add(shown),
        signs: 0,
    }
}

fn put_all(pen: &mut Pen, scene: Scene<'_>, part: Cut<'_>, flow: &Flow, signs: Signs) {
    put_frame(pen, scene, part);
    pen.add(&flow.rows);
    put_lifelines(pen, scene.layout);
    put_heads(pen, scene);
    flow.put(pen, scene.layout);
    put_bands(pen, scene);
    put_legend(pen, scene.layout, signs);
    pen.put("</svg>\n", &[], "");
}

fn put_frame(pen: &mut Pen, scene: Scene<'_>, part: Cut<'_>) {
    let (width, height) = (scene.layout.width(), scene.layout.height());
    pen.put(HEAD, &[width, height, width, height], "");
    put_title(pen, scene, part);
    pen.put(
        DESCRIPTION,
        &[width.saturating_sub(1), height.saturating_sub(1)],
        GROUND,
    );
    put_title(pen, scene, part);
    pen.put("</text>\n", &[], "");
}

fn put_title(pen: &mut Pen, scene: Scene<'_>, part: Cut<'_>) {
    let piece = scene.chart.piece;
    pen.put_word(part);
    pen.put(TITLE, &[piece.first as u64, piece.last() as u64], "");
    if scene.chart.picks.is_some() {
        pen.put(SHOWN, &[u64::from(scene.layout.rows)], "");
    }
}

fn put_lifelines(pen: &mut Pen, layout: Layout) {
    for column in 0..layout.columns {
        pen.put(LIFELINE, &[layout.column(column), TOP, layout.bottom()], "");
    }
}

// The names again, between the rows and below them.
fn put_bands(pen: &mut Pen, scene: Scene<'_>) {
    let layout = scene.layout;
    for band in 1..=layout.bands(layout.rows.saturating_sub(1)) {
        put_names(pen, scene, layout.row(40 * band) - 68);
    }
    put_names(pen, scene, layout.bottom());
}
