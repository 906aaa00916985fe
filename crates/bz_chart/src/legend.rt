//! What the signs of a chart mean.
//!
//! It explains the signs that the piece shows, and not those that the trace has elsewhere.

ghost use Rattle.bz_chart_layout.specs.Layout.{HasRoom};

use crate::rows::RESTING;
use crate::svg::{DARK, PULL, PUSH, Pen, RECT, put_circle, put_cross, put_triangle};
use bz_chart_layout::Layout;

const MEANING: &str = "<text x=\"%\" y=\"%\">$</text>\n";

const CHANNEL: &str = "<text x=\"%\" y=\"%\">4 = 7</text>\n";

const BAR: &str =
    "<rect x=\"%\" y=\"%\" width=\"32\" height=\"8\" fill=\"#ffffff\" stroke=\"#222222\"/>\n";

const WAITING: &str =
    "<path d=\"M% %H%v8\" fill=\"none\" stroke=\"$\"/><path d=\"M% %l3 6l3 -6\" fill=\"none\" stroke=\"$\"/>\n";

const REQUEST: &str =
    "<path d=\"M% %H%\" stroke=\"$\" stroke-width=\"%\"/><path d=\"M% %l-8 -4v8z\" fill=\"$\"/>\n";

const REPLY: &str = "<path d=\"M% %H%\" stroke=\"$\" stroke-width=\"%\" stroke-dasharray=\"5 3\"/>\
<path d=\"M% %l-7 4l7 4\" fill=\"none\" stroke=\"$\"/>\n";

/// A sign that the legend explains.
#[derive(Clone, Copy)]
pub(crate) enum Sign {
    Channel,
    Request,
    Reply,
    Push,
    Pull,
    Bar,
    Waiting,
    Rest,
    Watch,
    Refusal,
    Clash,
}

const SIGNS: [(Sign, &str); 11] = [
    (Sign::Channel, "channel, and its value"),
    (Sign::Request, "ask to take"),
    (Sign::Reply, "reply to got"),
    (Sign::Push, "push: thick with value"),
    (Sign::Pull, "pull: thick with value"),
    (Sign::Bar, "taken, not yet replied"),
    (Sign::Waiting, "not taken to the end"),
    (Sign::Rest, "no component can move"),
    (Sign::Watch, "watch, and the phase"),
    (Sign::Refusal, "host told no, and why"),
    (Sign::Clash, "two requests met"),
];

/// Which signs a chart has, in the order of the legend.
#[derive(Clone, Copy)]
pub(crate) struct Signs {
    has: [bool; 11],
}

impl Signs {
    pub const NONE: Signs = Signs { has: [false; 11] };

    pub fn add(&mut self, sign: Sign) {
        if let Some(has) = self.has.get_mut(sign as usize) {
            *has = true;
        }
    }

    /// How many there are.
    pub fn count(self) -> u32 {
        let mut count = 0u32;
        for has in self.has {
            count = count.saturating_add(u32::from(has));
        }
        count
    }
}

/// What the signs of a chart mean that it has.
pub(crate) fn put_legend(pen: &mut Pen, layout: Layout, signs: Signs) {
    let mut place = 0u32;
    for ((sign, meaning), has) in SIGNS.iter().zip(signs.has) {
        if has {
            let (x, y) = (layout.sign_column(place), layout.sign_row(place));
            put_sign(pen, *sign, x, y);
            pen.put(MEANING, &[x + 48, y + 4], meaning);
            place = place.saturating_add(1);
        }
    }
}

fn put_sign(pen: &mut Pen, sign: Sign, x: u64, y: u64)
    requires right { HasRoom 12 x }
    requires below { HasRoom 12 y }
{
    match sign {
        Sign::Channel => pen.put(CHANNEL, &[x + 5, y + 4], ""),
        Sign::Request => pen.put(REQUEST, &[x, y, x + 32, 1, x + 40, y], DARK),
        Sign::Push => pen.put(REQUEST, &[x, y, x + 32, 3, x + 40, y], PUSH),
        Sign::Reply => pen.put(REPLY, &[x + 1, y, x + 40, 1, x + 7, y - 4], DARK),
        Sign::Pull => pen.put(REPLY, &[x + 1, y, x + 40, 3, x + 7, y - 4], PULL),
        Sign::Bar => pen.put(BAR, &[x + 4, y - 4], ""),
        Sign::Waiting => pen.put(WAITING, &[x, y - 4, x + 24, x + 21, y], DARK),
        Sign::Rest => pen.put(RECT, &[x, y - 6, 40, 12], RESTING),
        Sign::Watch => put_circle(pen, x + 20, y),
        Sign::Refusal => put_cross(pen, x + 20, y),
        Sign::Clash => put_triangle(pen, x + 20, y),
    }
}
