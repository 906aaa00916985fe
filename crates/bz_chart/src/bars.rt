//! Bars: how long a lifeline holds what it took.

use crate::scene::TOP;
use crate::svg::Pen;
use bz_chart_layout::Layout;

const BAR: &str = "<path d=\"M% %h8V%h-8z\" fill=\"#ffffff\"/>\n<path d=\"M% %V%$";

const BAR_END: &str = "V%$\" fill=\"none\" stroke=\"#222222\" stroke-width=\"1\"/>\n";

/// What a lifeline holds: requests taken and not yet replied to, and at a port whose host is the caller, the requests offered
/// and not yet collected.
#[derive(Clone, Copy)]
pub(crate) struct Held {
    count: u32,
    /// The row on which it took the first of them, none where that was before the first row.
    since: Option<u32>,
    has_taken: bool,
}

impl Held {
    pub const NONE: Held = Held {
        count: 0,
        since: None,
        has_taken: false,
    };

    /// Notes a request taken: whether it is the first ever.
    pub fn begin(&mut self, row: Option<u32>) -> bool {
        let is_first = !self.has_taken;
        if self.count == 0 {
            self.since = row;
        }
        self.count = self.count.saturating_add(1);
        self.has_taken = true;
        is_first
    }

    /// Notes a reply.
    pub fn end(&mut self) {
        self.count = self.count.saturating_sub(1);
    }

    pub fn is_open(&self) -> bool {
        self.count > 0
    }

    /// Draws the bar of a column down to this row, or to the end. It is open at an end that is not shown.
    pub fn put_bar(&self, pen: &mut Pen, layout: Layout, column: u32, last: Option<u32>) {
        let x = layout.column(column) - 4;
        let (top, over) = match self.since {
            Some(row) => (layout.row(row), "h8"),
            None => (TOP, "m8 0"),
        };
        let (bottom, under) = match last {
            Some(row) => (layout.row(row), "h-8"),
            None => (layout.bottom(), ""),
        };
        pen.put(BAR, &[x, top, bottom, x, bottom, top], over);
        pen.put(BAR_END, &[bottom], under);
    }
}
