//! The text of a bench with what came in place of what was due. All else of it stays as it is.

use crate::learning::Came;
use crate::plan::is_from_net;
use crate::playing::port_of;
use crate::setting::Setting;
use bz_bench::{Bench, Due, Item, Line, PortLine, Spelt, Spot, fits, words_of};
use bz_flat::Flat;
use bz_model::{Value, numbered};
use bz_text::Text;
use bz_view::Piece;
use std::alloc::{AllocError, Global};

/// The text of a bench on a net with these values, which came at each port, in place of those that are due.
pub(crate) fn amended(
    setting: Setting<'_>,
    text: &str,
    bench: &Bench,
    values: &[Vec<Came>],
) -> Result<Text, AllocError> {
    let alloc = setting.trial.alloc;
    let mut amender = Amender {
        flat: setting.opened.flat(),
        values: all_of(alloc, values)?,
        group: 0,
        end: 0,
        ending: "\n",
        copy: Copying::of(alloc, text),
    };
    match amender.amend(alloc, text, bench) {
        Ok(()) => Ok(amender.into_text()),
        Err(fault) => Err(fault),
    }
}

// The values of each port.
fn all_of(alloc: Global, values: &[Vec<Came>]) -> Result<Vec<&[Came]>, AllocError> {
    let mut all = Vec::new(alloc);
    for values in values {
        all.push(values.as_slice())?;
    }
    Ok(all)
}

// A text that is copied from its beginning on, with other words in place of some.
#[derive(Drop)]
struct Copying<'t> {
    left: &'t [u8],
    // Where what is left begins.
    from: usize,
    out: Text,
}

impl<'t> Copying<'t> {
    fn of(alloc: Global, text: &'t str) -> Copying<'t> {
        Copying {
            left: text.as_bytes(),
            from: 0,
            out: Text::new(alloc),
        }
    }

    // Copies up to a place.
    fn copy_to(&mut self, place: usize) {
        let front = self.skip_to(place);
        self.out.put_bytes(front);
    }

    // Leaves out what stands up to a place.
    fn skip_to(&mut self, place: usize) -> &'t [u8] {
        let count = place.saturating_sub(self.from).min(self.left.len());
        let (front, left) = self.left.split_at(count);
        self.left = left;
        self.from = self.from.saturating_add(count);
        front
    }

    // Adds values, with the number of those that are the same.
    fn put_values(&mut self, values: &[Came]) {
        let mut before = "";
        let mut left = values;
        for _ in 0..values.len() {
            let Some(first) = left.first() else {
                break;
            };
            let count = count_same(left, first.value);
            self.put_value(before, first.value, count);
            let (_, behind) = left.split_at(count.min(left.len()));
            left = behind;
            before = " ";
        }
    }

    fn put_value(&mut self, before: &str, value: Value, count: usize) {
        let pieces = [
            Piece::Text(before),
            Piece::Wide(value),
            Piece::Number(count),
        ];
        let form = if count > 1 { "%%*%" } else { "%%" };
        self.out.say(form, &pieces);
    }
}

// How many values from the first one on are this one.
fn count_same(values: &[Came], value: Value) -> usize {
    let other = values.iter().position(|came| came.value != value);
    other.unwrap_or(values.len())
}

// Where a word is in the text, and where the word before it ends.
#[derive(Clone, Copy)]
struct Place {
    before: usize,
    from: usize,
    to: usize,
}

impl Place {
    // The place of a word in a line that begins here.
    fn of(start: usize, before: usize, word: Spelt<'_>) -> Place {
        let from = start.saturating_add(word.at.column.saturating_sub(1));
        let to = from.saturating_add(word.word.len());
        Place { before, from, to }
    }
}

// A bench whose text is gone through line by line.
#[derive(Drop)]
struct Amender<'t> {
    flat: &'t Flat,
    // Of each port the values that are in no line yet.
    values: Vec<&'t [Came]>,
    group: usize,
    // Where the last line with a word ends, and how.
    end: usize,
    ending: &'static str,
    copy: Copying<'t>,
}

impl<'t> Amender<'t> {
    fn into_text(self) -> Text {
        self.copy.out
    }

    fn amend(&mut self, alloc: Global, text: &str, bench: &Bench) -> Result<(), AllocError> {
        let mut lines = bench.lines.iter();
        let mut start = 0usize;
        for (place, line) in text.split('\n').enumerate() {
            let words = words_of(alloc, line, place.saturating_add(1))?;
            if let Some((head, rest)) = words.as_slice().split_first() {
                if !head.word.starts_with(':') || head.word == ":then" {
                    match lines.next() {
                        Some(Line::Port(port)) => self.amend_line(port, start, *head, rest),
                        Some(Line::Then) => self.end_group(),
                        None => {}
                    }
                }
                self.end_line(start, line);
            }
            start = start.saturating_add(line.len()).saturating_add(1);
        }
        self.end_group();
        self.copy.copy_to(text.len());
        Ok(())
    }

    // Notes where a line ends.
    fn end_line(&mut self, start: usize, line: &str) {
        let (line, ending) = match line.strip_suffix('\r') {
            Some(line) => (line, "\r\n"),
            None => (line, "\n"),
        };
        self.end = start.saturating_add(line.len());
        self.ending = ending;
    }

    // Adds a line for each port at which values came in the group that ends and that has no line there.
    fn end_group(&mut self) {
        for place in 0..self.values.len() {
            let port = port_of(place);
            let values = self.values_of(port);
            if !values.is_empty() {
                self.add_line(port, values);
            }
        }
        self.group = self.group.saturating_add(1);
    }

    // Takes the values that came at a port in this group.
    fn values_of(&mut self, port: u32) -> &'t [Came] {
        let group = self.group;
        match self.values.get_mut((port as usize).saturating_sub(1)) {
            Some(values) => {
                let later = values.iter().position(|came| came.group != group);
                let count = later.unwrap_or(values.len()).min(values.len());
                let (front, left) = values.split_at(count);
                *values = left;
                front
            }
            None => &[],
        }
    }

    // Adds a line behind the last one.
    fn add_line(&mut self, port: u32, values: &[Came]) {
        let name = match numbered(self.flat.ports(), port) {
            Some(port) => port.name.as_slice(),
            None => &[],
        };
        self.copy.copy_to(self.end);
        if self.end > 0 {
            self.copy.out.put(self.ending);
        }
        self.copy.out.say("% ", &[Piece::Typed(name)]);
        self.copy.put_values(values);
        if self.end == 0 {
            self.copy.out.put("\n");
        }
    }

    // Puts what came at a port into its line, which begins here.
    fn amend_line(&mut self, line: &PortLine, start: usize, head: Spelt<'_>, rest: &[Spelt<'_>]) {
        let Some(port) = self.flat.port(line.name.as_slice()) else {
            return;
        };
        if !is_from_net(self.flat, port) {
            return;
        }
        let mut values = self.values_of(port);
        let mut dues = line.items.as_slice();
        let mut end = Place::of(start, start, head).to;
        for word in rest {
            let place = Place::of(start, end, *word);
            let is_last = match line.forever {
                Some(due) => is_at(due, word.at),
                None => false,
            };
            let (here, below) = dues.split_at(count_at(dues, word.at).min(dues.len()));
            let count = if is_last { values.len() } else { here.len() };
            let (came, later) = values.split_at(count.min(values.len()));
            if !are_as_due(here, line.forever, came) {
                self.put_in_place(place, came);
            }
            dues = below;
            values = later;
            end = place.to;
        }
        self.put_behind(end, values);
    }

    // Puts values in place of a word; where there are none, that is left out with the blanks before it.
    fn put_in_place(&mut self, place: Place, values: &[Came]) {
        let from = if values.is_empty() {
            place.before
        } else {
            place.from
        };
        self.copy.copy_to(from);
        self.copy.put_values(values);
        let _ = self.copy.skip_to(place.to);
    }

    // Puts values behind the last word of a line.
    fn put_behind(&mut self, end: usize, values: &[Came]) {
        if !values.is_empty() {
            self.copy.copy_to(end);
            self.copy.out.put(" ");
            self.copy.put_values(values);
        }
    }
}

fn is_at(due: Due, at: Spot) -> bool {
    due.at.line == at.line && due.at.column == at.column
}

// How many items from the first one on are those of the word at a place.
fn count_at(dues: &[Due], at: Spot) -> usize {
    let other = dues.iter().position(|due| !is_at(*due, at));
    other.unwrap_or(dues.len())
}

// Whether values are those of a word that stands for these items, or for none and then for one as often as it is asked for.
fn are_as_due(dues: &[Due], forever: Option<Due>, values: &[Came]) -> bool {
    if dues.is_empty() {
        return values
            .iter()
            .all(|came| fits(forever.map(|due| due.item), Some(came.value)));
    }
    let are_equal = dues
        .iter()
        .zip(values.iter())
        .all(|(due, came)| due.item == Item::Value(came.value));
    are_equal && dues.len() == values.len()
}
