//! Which lifelines a chart shows, from left to right.
//!
//! They go by passive ports, components and active ports, each by number and not by who moves first. So the copies of a part
//! are side by side, and two pieces of one trace have the same order.

use crate::rows::shown;
use crate::scene::Chart;
use bz_chart_layout::{Circuit, Event, Lifeline, Picks, Piece, read_line};
use bz_model::{Port, numbered};
use bz_trace_text::LineNames;
use std::alloc::{AllocError, Global};

/// The least letters that a line of the trace has room for.
const LEAST_LETTERS: u32 = 8;

/// The lifelines that are shown, in order, and the place of each among them, from 0.
#[derive(Drop)]
pub(crate) struct Columns {
    // of each port, and then of each component
    places: Vec<Option<u32>>,
    ports: u32,
    /// From left to right.
    pub shown: Vec<Lifeline>,
    /// How many letters the longest of the lines has.
    pub letters: u32,
    /// How many lines are shown.
    pub rows: u32,
    // whether memory was refused
    is_short: bool,
}

impl Columns {
    /// Those on which something moves in these lines, and those at the other end of a channel on which something moves there:
    /// passive ports, components, active ports, each by number.
    pub fn of(alloc: Global, chart: Chart<'_>) -> Result<Columns, AllocError> {
        let ports = chart.circuit.names().ports().len();
        let count = ports.saturating_add(chart.circuit.comp_count() as usize);
        let mut columns = Columns {
            places: vec![in alloc; None; count]?,
            ports: u32::try_from(ports).unwrap_or(u32::MAX),
            shown: Vec::new(alloc),
            letters: LEAST_LETTERS,
            rows: 0,
            is_short: false,
        };
        columns.mark_lines(chart);
        columns.put_ports(chart.circuit.names().ports(), true);
        columns.put_comps(chart.circuit.comp_count());
        columns.put_ports(chart.circuit.names().ports(), false);
        if columns.is_short {
            Err(AllocError)
        } else {
            Ok(columns)
        }
    }

    pub fn count(&self) -> u32 {
        u32::try_from(self.shown.len()).unwrap_or(u32::MAX)
    }

    /// The place of a lifeline, from 0, where it is shown.
    pub fn place(&self, lifeline: Lifeline) -> Option<u32> {
        numbered(&self.places, self.number(lifeline))
            .copied()
            .flatten()
    }

    // The number of a lifeline among all, from 1.
    fn number(&self, lifeline: Lifeline) -> u32 {
        match lifeline {
            Lifeline::Port(port) => port,
            Lifeline::Comp(comp) => comp.saturating_add(self.ports),
        }
    }

    fn mark_lines(&mut self, chart: Chart<'_>) {
        let piece = chart.piece;
        let texts = chart.trace.split_inclusive(|byte| *byte == b'\n');
        for (number, text) in (piece.first..=piece.last()).zip(texts.skip(piece.first - 1)) {
            match read_line(chart.circuit, chart.names, number, text) {
                Some(line) if is_shown(chart.picks, line.event) => {
                    self.rows = self.rows.saturating_add(1);
                    self.letters = self.letters.max(shown(&line).letters());
                    self.mark_event(chart.picks, line.event);
                }
                _ => {}
            }
        }
    }

    // Whoever takes part, and is shown, is in the first column for now.
    fn mark_event(&mut self, picks: Option<&Picks>, event: Event) {
        match event {
            Event::Moved(step) => {
                for lifeline in [step.maker, step.other] {
                    if has(picks, lifeline, step.chan) {
                        self.set(lifeline, 0);
                    }
                }
            }
            Event::Watched { port, .. } | Event::Refused { port, .. } => {
                self.set(Lifeline::Port(port), 0)
            }
            Event::Rested => {}
            Event::Clashed { comp } => self.set(Lifeline::Comp(comp), 0),
        }
    }

    fn set(&mut self, lifeline: Lifeline, place: u32) {
        let number = self.number(lifeline);
        set(&mut self.places, number, Some(place));
    }

    // The ports of one sense, by number.
    fn put_ports(&mut self, ports: &[Port], passive: bool) {
        for (number, port) in (1..=self.ports).zip(ports) {
            if port.passive == passive {
                self.put(Lifeline::Port(number));
            }
        }
    }

    fn put_comps(&mut self, count: u32) {
        for number in 1..=count {
            self.put(Lifeline::Comp(number));
        }
    }

    // Puts it in the next column, where it takes part.
    fn put(&mut self, lifeline: Lifeline) {
        if self.place(lifeline).is_some() {
            self.set(lifeline, self.count());
            if self.shown.push(lifeline).is_err() {
                self.is_short = true;
            }
        }
    }
}

/// Whether a line that tells this is shown.
pub(crate) fn is_shown(picks: Option<&Picks>, event: Event) -> bool {
    match picks {
        Some(picks) => picks.shows(event),
        None => true,
    }
}

// Whether a lifeline is shown where something moves on this channel.
fn has(picks: Option<&Picks>, lifeline: Lifeline, chan: u32) -> bool {
    match picks {
        Some(picks) => picks.has(lifeline, chan),
        None => true,
    }
}

/// How many lines of a piece of a trace show something of what is picked.
pub(crate) fn count_rows(
    alloc: Global,
    circuit: &Circuit,
    trace: &[u8],
    piece: Piece,
    picks: &Picks,
) -> usize {
    let names = LineNames::new(alloc, circuit.names());
    let texts = trace.split_inclusive(|byte| *byte == b'\n');
    let mut rows = 0usize;
    for (number, text) in (piece.first..=piece.last()).zip(texts.skip(piece.first - 1)) {
        match read_line(circuit, &names, number, text) {
            Some(line) if picks.shows(line.event) => rows = rows.saturating_add(1),
            _ => {}
        }
    }
    rows
}

/// Sets the element of this number, counted from 1, where there is one.
pub(crate) fn set<T: Drop>(items: &mut [T], number: u32, value: T) {
    if number > 0 {
        if let Some(item) = items.get_mut(number as usize - 1) {
            *item = value;
        }
    }
}
