//! What stands at the head of each lifeline, and again between and below the rows.
//!
//! A kind's name is written in up to three lines of whole words, so that none is cut or shown by its first word, which may be
//! another kind's name. Long words are set in smaller letters. Comparisons and sums are shown by their signs, as `≠ 0`, since
//! `NotEquals 0` has no room in a column; other operations by their words.

ghost use Rattle.bz_chart_layout.specs.Layout.{HasRoom, IsClear};

use crate::scene::{Chart, Scene};
use crate::svg::{GROUND, MIDDLE, Pen, RECT, put_text};
use crate::words::{Cut, LINE_LETTERS, first_line, letter_count};
use bz_chart_layout::{Circuit, Lifeline};
use bz_kind_rows::kind_word;
use bz_model::{ChanKind, Value};
use bz_source::{Detail, Label};
use bz_text::Piece;

const BRACKET: &str = "<path d=\"M% 44v-4H%v4\" fill=\"none\" stroke=\"#222222\"/>\n";

const BOX: &str =
    "<rect x=\"%\" y=\"46\" width=\"60\" height=\"30\" fill=\"none\" stroke=\"#222222\"/>\n";

/// How many letters are shown of a name that is longer than a line: they are smaller.
const MOST_LETTERS: usize = 10;

/// The operations that a sign tells.
const SIGNS: [(&str, &str); 8] = [
    ("Add", "+"),
    ("Subtract", "-"),
    ("Equals", "="),
    ("NotEquals", "≠"),
    ("LessThan", "<"),
    ("GreaterThan", ">"),
    ("LessOrEquals", "≤"),
    ("GreaterOrEquals", "≥"),
];

/// Where the lines of a name stand.
#[derive(Clone, Copy)]
enum Spot {
    /// Above the lifeline.
    Head,
    /// In a band that begins here.
    Band(u64),
}

/// Brackets over neighbours in one copy of a part, and then the heads.
pub(crate) fn put_heads(pen: &mut Pen, scene: Scene<'_>) {
    put_brackets(pen, scene);
    for (column, lifeline) in (0..scene.layout.columns).zip(&scene.columns.shown) {
        put_head(pen, scene.chart, scene.layout.column(column), *lifeline);
    }
}

/// The names again, in a band that begins at `y`.
pub(crate) fn put_names(pen: &mut Pen, scene: Scene<'_>, y: u64) {
    for (column, lifeline) in (0..scene.layout.columns).zip(&scene.columns.shown) {
        let x = scene.layout.column(column);
        put_name(pen, scene.chart, x, Spot::Band(y), *lifeline);
    }
}

fn put_brackets(pen: &mut Pen, scene: Scene<'_>) {
    let mut first = 0;
    let mut before = None;
    for column in 0..scene.layout.columns {
        let instance = instance_at(scene, column);
        if instance != before {
            first = column;
            before = instance;
        }
        if let Some(position) = instance {
            if instance_at(scene, column.saturating_add(1)) != instance {
                let left = scene.layout.column(first) - 28;
                let right = scene.layout.column(column) + 28;
                put_bracket(pen, scene.chart, left, right, position);
            }
        }
    }
}

// The instance whose copy the lifeline of a column is in.
fn instance_at(scene: Scene<'_>, column: u32) -> Option<usize> {
    match scene.columns.shown.get(column as usize) {
        Some(Lifeline::Comp(comp)) => scene.chart.survey.comp(*comp)?.path.first().copied(),
        _ => None,
    }
}

// A bracket from left to right, under the name of an instance.
fn put_bracket(pen: &mut Pen, chart: Chart<'_>, left: u64, right: u64, position: usize)
    requires left { IsClear left }
    requires right { IsClear right }
{
    let name = pen.spell(&[
        Piece::Number(position as Value),
        Piece::Bytes(b" "),
        Piece::Name(instance_name(chart, position).unwrap_or(b"")),
    ]);
    let most = (right.saturating_sub(left) / 7) as usize;
    pen.put(BRACKET, &[left, right], "");
    put_text(pen, (left + right) / 2, 36, MIDDLE, Cut::new(&name, most));
}

// The part that the instance at a position of the top part is one of.
fn instance_name(chart: Chart<'_>, position: usize) -> Option<&[u8]> {
    let top = chart.survey.parts.number(chart.part)?;
    let component = chart.survey.record(top, position)?;
    Some(component.name.as_slice())
}

// A lifeline's name, that of a port in a box, with all that is told of it where it is pointed at.
fn put_head(pen: &mut Pen, chart: Chart<'_>, x: u64, lifeline: Lifeline)
    requires { HasRoom 60 x }
{
    pen.put("<g>\n<title>", &[], "");
    match lifeline {
        Lifeline::Port(port) => put_port_title(pen, chart.circuit, port),
        Lifeline::Comp(comp) => put_comp_title(pen, chart, comp),
    }
    pen.put("</title>\n", &[], "");
    if let Lifeline::Port(_) = lifeline {
        pen.put(BOX, &[x - 30], "");
    }
    put_name(pen, chart, x, Spot::Head, lifeline);
    pen.put("</g>\n", &[], "");
}

fn put_port_title(pen: &mut Pen, circuit: &Circuit, port: u32) {
    let sense: &[u8] = if circuit.is_passive(port) {
        b" passive "
    } else {
        b" active "
    };
    let carried = carried_at(pen, circuit, port);
    let title = pen.spell(&[
        Piece::Bytes(b"port "),
        Piece::Number(Value::from(port)),
        Piece::Bytes(b" "),
        Piece::Name(circuit.name(port).unwrap_or(b"")),
        Piece::Bytes(sense),
        Piece::Bytes(&carried),
    ]);
    pen.put_word(Cut::whole(&title));
}

// The line of a component, with where it stands, its name and where it comes from.
fn put_comp_title(pen: &mut Pen, chart: Chart<'_>, number: u32) {
    if let (Some(comp), Some(at)) = (chart.circuit.comp(number), chart.survey.comp(number)) {
        let mut line = Vec::new(pen.alloc());
        let label = Label {
            name: chart.survey.comp_name(number),
            source: chart.survey.comp_source(number),
        };
        if bz_source::put_comp(&mut line, number, comp, at).is_err()
            || bz_source::put_label(&mut line, label).is_err()
        {
            pen.fail();
        }
        pen.put_word(Cut::whole(line.as_slice()));
    }
}

// What a port carries, and its width where it has one.
fn carried_at(pen: &mut Pen, circuit: &Circuit, port: u32) -> Vec<u8> {
    let chan = circuit.chan(port);
    let (word, width): (&[u8], Option<u32>) = match chan.kind {
        ChanKind::Sync => (b"sync", None),
        ChanKind::Push => (b"push", Some(chan.width)),
        ChanKind::Pull => (b"pull", Some(chan.width)),
    };
    pen.spell(&[Piece::Bytes(word), Piece::Value(width.map(Value::from))])
}

// What a lifeline is: a port with what it carries, or a component with its kind and what tells it from others of that kind.
fn put_name(pen: &mut Pen, chart: Chart<'_>, x: u64, spot: Spot, lifeline: Lifeline) {
    let lines = match lifeline {
        Lifeline::Port(port) => port_lines(pen, chart.circuit, port),
        Lifeline::Comp(comp) => comp_lines(pen, chart, comp),
    };
    put_lines(pen, x, spot, lines.as_slice());
}

fn port_lines(pen: &mut Pen, circuit: &Circuit, port: u32) -> Vec<u8> {
    let carried = carried_at(pen, circuit, port);
    pen.spell(&[
        Piece::Name(circuit.name(port).unwrap_or(b"")),
        Piece::Bytes(b"\n"),
        Piece::Bytes(carried.as_slice()),
    ])
}

fn comp_lines(pen: &mut Pen, chart: Chart<'_>, comp: u32) -> Vec<u8> {
    let word = match chart.circuit.comp(comp) {
        Some(comp) => kind_word(&comp.kind),
        None => b"",
    };
    let (first, rest) = word.split_at(first_line(word));
    let (second, third) = rest.split_at(first_line(rest));
    let detail = detail_at(pen, chart, comp);
    pen.spell(&[
        Piece::Number(Value::from(comp)),
        Piece::Bytes(b"\n"),
        Piece::Bytes(first),
        Piece::Bytes(b"\n"),
        Piece::Bytes(second),
        Piece::Bytes(b"\n"),
        Piece::Bytes(third),
        Piece::Bytes(b"\n"),
        Piece::Bytes(detail.as_slice()),
    ])
}

// The lines of a name that are not empty, the first one bold; in a band on its ground.
fn put_lines(pen: &mut Pen, x: u64, spot: Spot, lines: &[u8]) {
    let (mut y, step) = match spot {
        Spot::Head => (58, 12),
        Spot::Band(top) => {
            let height = height_of(lines);
            let top = top.saturating_add(60u64.saturating_sub(height) / 2);
            let width = width_of(lines);
            let left = x.saturating_sub(width / 2);
            pen.put(RECT, &[left, top, width, height], GROUND);
            (top.saturating_add(10), 11)
        }
    };
    let mut is_first = true;
    for line in lines.split(|byte| *byte == b'\n') {
        if !line.is_empty() {
            put_line(pen, x, y, is_first, line);
            y = y.saturating_add(step);
        }
        is_first = false;
    }
}

// How high the lines are in a band.
fn height_of(lines: &[u8]) -> u64 {
    let mut height = 2u64;
    for line in lines.split(|byte| *byte == b'\n') {
        if !line.is_empty() {
            height = height.saturating_add(11);
        }
    }
    height
}

// How wide they are.
fn width_of(lines: &[u8]) -> u64 {
    let mut letters = 0;
    for line in lines.split(|byte| *byte == b'\n') {
        letters = letters.max(letter_count(line));
    }
    if letters <= LINE_LETTERS {
        7 * u64::from(letters) + 4
    } else {
        64
    }
}

// A line of a name, in smaller letters where it is long.
fn put_line(pen: &mut Pen, x: u64, y: u64, is_bold: bool, line: &[u8]) {
    let bold = if is_bold { " font-weight=\"bold\"" } else { "" };
    let small = if letter_count(line) > LINE_LETTERS {
        " font-size=\"10\""
    } else {
        ""
    };
    pen.put(
        "<text x=\"%\" y=\"%\" text-anchor=\"middle\"$",
        &[x, y],
        bold,
    );
    pen.put("$>", &[], small);
    pen.put_word(Cut::new(line, MOST_LETTERS));
    pen.put("</text>\n", &[], "");
}

// What tells a component from others of its kind: a variable's name, or an operation, with a sign for its word, or a number.
fn detail_at(pen: &mut Pen, chart: Chart<'_>, number: u32) -> Vec<u8> {
    let Some(comp) = chart.circuit.comp(number) else {
        return Vec::new(pen.alloc());
    };
    match chart.survey.comp_detail(number, &comp.kind) {
        Some(Detail::Word(word)) => pen.spell(&[sign_of(word)]),
        Some(Detail::Applied(word, value)) => {
            pen.spell(&[sign_of(word), Piece::Value(Some(value))])
        }
        Some(Detail::Number(value)) => pen.spell(&[Piece::Number(value)]),
        Some(Detail::FromBit(low)) => pen.spell(&[Piece::Bytes(b"from bit "), Piece::Number(low)]),
        None => match chart.survey.comp_name(number) {
            Some(name) => pen.spell(&[Piece::Name(name)]),
            None => Vec::new(pen.alloc()),
        },
    }
}

// The sign of an operation, or its word where it has none.
fn sign_of(word: &[u8]) -> Piece<'_> {
    for (name, sign) in &SIGNS {
        if name.as_bytes() == word {
            return Piece::Bytes(sign.as_bytes());
        }
    }
    Piece::Name(word)
}
