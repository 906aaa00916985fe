//! Requests and replies: each leaves on the row of one line, waits in a lane beside the other lifeline, and comes in on the
//! row of another line.
//!
//! A channel's name is shown where one points at its number: beside the arrow it would lie over others.

ghost use Rattle.std.specs.Prelude.{◌≤◌};
ghost use Rattle.bz_chart_layout.specs.Layout.{HasRoom, IsClear};

use crate::lanes::Side;
use crate::scene::TOP;
use crate::svg::{DARK, PULL, PUSH, Pen};
use bz_chart_layout::Layout;
use bz_model::ChanKind;

const START: &str = "<path d=\"M% %H%";

const OPEN_HEAD: &str = "<path d=\"M% %l3 6l3 -6\" fill=\"none\" stroke=\"$\"/>\n";

/// A request or a reply that has left.
#[derive(Clone, Copy)]
pub(crate) struct Sent {
    /// How many left before it.
    pub order: u64,
    /// The row on which it left, none where that was before the first row.
    pub row: Option<u32>,
    /// The column that it left, where it is shown.
    pub from: Option<u32>,
    pub to: u32,
    /// Where it heads.
    pub heading: Side,
    pub lane: u32,
    pub is_request: bool,
    /// Whether a value rides on it.
    pub carries: bool,
    pub kind: ChanKind,

    ghost lane_is_one: { lane ≤ 5 },
}

/// The colour of a channel.
pub(crate) fn colour(kind: ChanKind) -> &'static str {
    match kind {
        ChanKind::Sync => DARK,
        ChanKind::Push => PUSH,
        ChanKind::Pull => PULL,
    }
}

/// Draws it, in on this row, or down to the end where it has not come in.
pub(crate) fn put_arrow(pen: &mut Pen, layout: Layout, sent: Sent, row: Option<u32>) {
    let to = layout.column(sent.to);
    let lane = sent.heading.other().from(to, 12 + 4 * u64::from(sent.lane));
    match sent.row {
        Some(row) => pen.put(START, &[start_of(layout, sent), layout.row(row), lane], ""),
        None => pen.put("<path d=\"M% %", &[lane, TOP], ""),
    }
    match row {
        Some(row) => put_way_in(pen, sent, to, layout.row(row)),
        None => put_waiting(pen, sent, lane, layout.bottom()),
    }
}

/// Draws where one leaves on this row that goes to a lifeline that is not shown: a short stroke to the right, with its head.
pub(crate) fn put_leaving(pen: &mut Pen, layout: Layout, sent: Sent, row: u32) {
    let (x, y) = (layout.column(sent.to), layout.row(row));
    pen.put(START, &[x + 4, y, x + 18], "");
    put_style(pen, sent);
    let (rise, width) = (if sent.is_request { 0 } else { 4 }, 1);
    let tip = if sent.is_request { x + 24 } else { x + 18 };
    pen.put(head_form(sent), &[tip, y - rise, width], colour(sent.kind));
}

// Where it leaves. One that comes in at the lifeline that it left goes round by the right, and one from a lifeline that is not shown
// comes from the right.
fn start_of(layout: Layout, sent: Sent) -> u64 {
    match sent.from {
        Some(from) if from != sent.to => sent.heading.from(layout.column(from), 4),
        Some(_) => layout.column(sent.to) + 4,
        None => layout.column(sent.to) + 44,
    }
}

fn put_way_in(pen: &mut Pen, sent: Sent, to: u64, y: u64)
    requires right { HasRoom 60 to }
    requires below { IsClear y }
{
    let back = sent.heading.other();
    let (end, tip, rise) = if sent.is_request {
        (10, 4, 0)
    } else {
        (5, 11, 4)
    };
    let width = if sent.carries { 2 } else { 1 };
    pen.put("V%H%", &[y, back.from(to, end)], "");
    put_style(pen, sent);
    pen.put(
        head_form(sent),
        &[back.from(to, tip), y - rise, width],
        colour(sent.kind),
    );
}

// The head of an arrow: filled at a request, open at a reply.
fn head_form(sent: Sent) -> &'static str {
    match (sent.is_request, sent.heading) {
        (true, Side::Left) => "<path d=\"M% %l8 -4v8z\" fill=\"$\"/>\n",
        (true, Side::Right) => "<path d=\"M% %l-8 -4v8z\" fill=\"$\"/>\n",
        (false, Side::Left) => {
            "<path d=\"M% %l-7 4l7 4\" fill=\"none\" stroke=\"$\" stroke-width=\"%\"/>\n"
        }
        (false, Side::Right) => {
            "<path d=\"M% %l7 4l-7 4\" fill=\"none\" stroke=\"$\" stroke-width=\"%\"/>\n"
        }
    }
}

// Down its lane to the end, with an open head.
fn put_waiting(pen: &mut Pen, sent: Sent, lane: u64, bottom: u64)
    requires right { IsClear lane }
    requires below { IsClear bottom }
{
    pen.put("V%", &[bottom], "");
    put_style(pen, sent);
    pen.put(OPEN_HEAD, &[lane - 3, bottom - 6], colour(sent.kind));
}

// The end of a path: thick where a value rides, dashed where it is a reply.
fn put_style(pen: &mut Pen, sent: Sent) {
    let form = if sent.is_request {
        "\" fill=\"none\" stroke=\"$\" stroke-width=\"%\"/>\n"
    } else {
        "\" fill=\"none\" stroke=\"$\" stroke-width=\"%\" stroke-dasharray=\"5 3\"/>\n"
    };
    let width = if sent.carries { 3 } else { 1 };
    pen.put(form, &[width], colour(sent.kind));
}
