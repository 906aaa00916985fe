//! What goes on between the lifelines, line by line.

use crate::arrows::{Sent, colour, put_arrow, put_leaving};
use crate::bars::Held;
use crate::columns::{is_shown, set};
use crate::labels::{Word, channel_label, channel_title, denial_word, phase_word, put_label};
use crate::lanes::{Lanes, Side};
use crate::legend::{Sign, Signs};
use crate::meetings::{Meeting, is_shared};
use crate::rows::put_row;
use crate::scene::{Chart, Scene};
use crate::svg::{DARK, Pen, RED, put_circle, put_cross, put_triangle};
use bz_chart_layout::{Event, Layout, Lifeline, Line, Step, read_line};
use bz_model::{ChanKind, Move, numbered};
use std::alloc::{AllocError, Global};

/// What a lifeline that is shown is in.
#[derive(Clone, Copy)]
struct State {
    left: Lanes,
    right: Lanes,
    held: Held,
    meeting: Meeting,
}

/// A sign on a lifeline, and a word at its outer side.
#[derive(Clone, Copy)]
struct Mark {
    lifeline: Lifeline,
    sign: Sign,
    word: &'static str,
}

/// What is under way, and what is drawn of it: rows, bars, arrows and signs, words, and over all of them the triangles.
#[derive(Drop)]
pub(crate) struct Flow {
    // by channel
    sent: Vec<Option<Sent>>,
    count: u64,
    // by column
    states: Vec<State>,
    // the columns that have taken something, in the order of the first time
    order: Vec<u32>,
    pub rows: Pen,
    bars: Pen,
    arrows: Pen,
    labels: Pen,
    triangles: Pen,
    // those that were drawn
    signs: Signs,
}

impl Flow {
    pub fn new(alloc: Global, chart: Chart<'_>, columns: u32) -> Result<Flow, AllocError> {
        let sent = vec![in alloc; None; chart.circuit.chan_count()];
        let state = State {
            left: Lanes::FREE,
            right: Lanes::FREE,
            held: Held::NONE,
            meeting: Meeting::NONE,
        };
        match (sent, vec![in alloc; state; columns as usize]) {
            (Ok(sent), Ok(states)) => Ok(Flow {
                sent,
                count: 0,
                states,
                order: Vec::new(alloc),
                rows: Pen::new(alloc),
                bars: Pen::new(alloc),
                arrows: Pen::new(alloc),
                labels: Pen::new(alloc),
                triangles: Pen::new(alloc),
                signs: Signs::NONE,
            }),
            _ => Err(AllocError),
        }
    }

    /// Goes on by the lines of the trace, and draws those of the piece that are shown.
    pub fn follow(&mut self, scene: Scene<'_>) {
        let chart = scene.chart;
        let texts = chart.trace.split_inclusive(|byte| *byte == b'\n');
        let mut rows = 0;
        for (number, text) in (1..=chart.piece.last()).zip(texts) {
            if let Some(line) = read_line(chart.circuit, chart.names, number, text) {
                rows = self.follow_line(scene, &line, rows);
            }
        }
    }

    // Goes on by a line, which is drawn on the row of this number where it is one of the piece and shown; the number of the next row.
    fn follow_line(&mut self, scene: Scene<'_>, line: &Line<'_>, next: u32) -> u32 {
        if !is_shown(scene.chart.picks, line.event) {
            self.pass(scene, line.event);
            return next;
        }
        if line.number < scene.chart.piece.first {
            self.note(scene, line.event, None);
            return next;
        }
        put_row(&mut self.rows, scene.layout, next, line);
        self.note(scene, line.event, Some(next));
        next.saturating_add(1)
    }

    // Goes on by an event that is not shown: requests that end no longer meet others.
    fn pass(&mut self, scene: Scene<'_>, event: Event) {
        if let Event::Moved(step) = event {
            self.meet(scene, step, None);
        }
    }

    /// The signs of all that is drawn.
    pub fn signs(&self) -> Signs {
        let mut signs = self.signs;
        for sent in self.sent.iter().flatten() {
            signs.add(Sign::Waiting);
            add_arrow(&mut signs, *sent);
        }
        for state in &self.states {
            if state.held.is_open() {
                signs.add(Sign::Bar);
            }
        }
        signs
    }

    /// Writes all that was drawn between the lifelines, and what is still under way.
    pub fn put(&self, pen: &mut Pen, layout: Layout) {
        pen.add(&self.bars);
        self.put_open_bars(pen, layout);
        pen.add(&self.arrows);
        match self.waiting(pen.alloc()) {
            Ok(waiting) => put_waiting(pen, layout, waiting.as_slice()),
            Err(_) => pen.fail(),
        }
        pen.add(&self.labels);
        pen.add(&self.triangles);
    }

    // Goes on by an event, and draws what it shows on this row. Before the first row nothing is drawn.
    fn note(&mut self, scene: Scene<'_>, event: Event, row: Option<u32>) {
        if let Event::Moved(step) = event {
            self.go_on(scene, step, row);
        }
        if let (Event::Rested, Some(_)) = (event, row) {
            self.signs.add(Sign::Rest);
        }
        if let Some(mark) = mark_of(event) {
            self.put_mark(scene, row, mark);
        }
    }

    fn go_on(&mut self, scene: Scene<'_>, step: Step, row: Option<u32>) {
        self.hold(scene, step, row);
        self.meet(scene, step, row);
        match step.mv {
            Move::Ask | Move::Reply => self.send(scene, step, row),
            Move::Take | Move::Got => self.bring_in(scene.layout, step.chan, row),
        }
    }

    // Begins a bar, or ends it.
    fn hold(&mut self, scene: Scene<'_>, step: Step, row: Option<u32>) {
        if let Some(column) = scene.columns.place(step.maker) {
            if let Some(state) = self.states.get_mut(column as usize) {
                match (is_caller(scene, step.maker), step.mv) {
                    (true, Move::Ask) | (false, Move::Take) => {
                        if state.held.begin(row) && self.order.push(column).is_err() {
                            self.bars.fail();
                        }
                    }
                    (true, Move::Got) | (false, Move::Reply) => {
                        state.held.end();
                        if row.is_some() && !state.held.is_open() {
                            let layout = scene.layout;
                            state.held.put_bar(&mut self.bars, layout, column, row);
                            self.signs.add(Sign::Bar);
                        }
                    }
                    _ => {}
                }
            }
        }
    }

    // Looks whether requests meet where one goes.
    fn meet(&mut self, scene: Scene<'_>, step: Step, row: Option<u32>) {
        if let Some(Lifeline::Comp(comp)) = scene.chart.circuit.end(step.chan, false) {
            if let Some(column) = scene.columns.place(Lifeline::Comp(comp)) {
                if let Some(state) = self.states.get_mut(column as usize) {
                    if is_shared(scene.chart.circuit, comp) && state.meeting.note(step.mv) {
                        self.put_mark(scene, row, met_at(comp, ""));
                    }
                }
            }
        }
    }

    fn send(&mut self, scene: Scene<'_>, step: Step, row: Option<u32>) {
        let from = scene.columns.place(step.maker);
        match (scene.columns.place(step.other), from, row) {
            (Some(to), _, _) => self.send_to(scene, step, row, to, from),
            (None, Some(from), Some(row)) => self.send_away(scene, step, row, from),
            _ => {}
        }
    }

    fn send_to(
        &mut self,
        scene: Scene<'_>,
        step: Step,
        row: Option<u32>,
        to: u32,
        from: Option<u32>,
    ) {
        let heading = match from {
            Some(from) if from < to => Side::Right,
            _ => Side::Left,
        };
        let sent = Sent {
            order: self.count,
            row,
            from,
            to,
            heading,
            lane: match self.lanes(to, heading.other()) {
                Some(lanes) => lanes.take(),
                None => 0,
            },
            is_request: matches!(step.mv, Move::Ask),
            carries: step.value.is_some(),
            kind: scene.chart.circuit.chan(step.chan).kind,
        };
        self.count = self.count.saturating_add(1);
        set(&mut self.sent, step.chan, Some(sent));
        if let Some(row) = row {
            self.put_channel(scene, step, sent, from.unwrap_or(to), row);
        }
    }

    // What goes to a lifeline that is not shown: where it leaves, and nothing more.
    fn send_away(&mut self, scene: Scene<'_>, step: Step, row: u32, from: u32) {
        let sent = Sent {
            order: self.count,
            row: Some(row),
            from: Some(from),
            to: from,
            heading: Side::Right,
            lane: 0,
            is_request: matches!(step.mv, Move::Ask),
            carries: step.value.is_some(),
            kind: scene.chart.circuit.chan(step.chan).kind,
        };
        add_arrow(&mut self.signs, sent);
        put_leaving(&mut self.arrows, scene.layout, sent, row);
        self.put_channel(scene, step, sent, from, row);
    }

    // Names the channel, and the value, beside the lifeline that it leaves.
    fn put_channel(&mut self, scene: Scene<'_>, step: Step, sent: Sent, from: u32, row: u32) {
        self.signs.add(Sign::Channel);
        let text = channel_label(&mut self.labels, step.chan, step.value);
        let side = if from == sent.to {
            Side::Right
        } else {
            sent.heading
        };
        let gap = match self.lanes(from, side) {
            Some(lanes) => lanes.room(),
            None => 8,
        };
        let (layout, pen) = (scene.layout, &mut self.labels);
        let start = side.from(layout.column(from), gap);
        let title = channel_title(pen, scene.chart.survey, step.chan);
        let word = Word {
            text: text.as_slice(),
            title: title.as_slice(),
            colour: colour(sent.kind),
        };
        put_label(pen, start, layout.row(row), side, word);
    }

    fn bring_in(&mut self, layout: Layout, chan: u32, row: Option<u32>) {
        if let Some(sent) = numbered(&self.sent, chan).copied().flatten() {
            set(&mut self.sent, chan, None);
            if let Some(lanes) = self.lanes(sent.to, sent.heading.other()) {
                lanes.leave(sent.lane);
            }
            if row.is_some() {
                add_arrow(&mut self.signs, sent);
                put_arrow(&mut self.arrows, layout, sent, row);
            }
        }
    }

    fn put_mark(&mut self, scene: Scene<'_>, row: Option<u32>, mark: Mark) {
        if let (Some(row), Some(column)) = (row, scene.columns.place(mark.lifeline)) {
            let (x, y) = (scene.layout.column(column), scene.layout.row(row));
            self.signs.add(mark.sign);
            let (gap, colour) = match mark.sign {
                Sign::Clash => (8, RED),
                Sign::Refusal => (6, RED),
                _ => (6, DARK),
            };
            match mark.sign {
                Sign::Clash => put_triangle(&mut self.triangles, x, y),
                Sign::Refusal => put_cross(&mut self.arrows, x, y),
                _ => put_circle(&mut self.arrows, x, y),
            }
            if !mark.word.is_empty() {
                let (pen, side) = (&mut self.labels, outer_side(scene, mark.lifeline));
                let word = Word {
                    text: mark.word.as_bytes(),
                    title: b"",
                    colour,
                };
                put_label(pen, side.from(x, gap), y + 6, side, word);
            }
        }
    }

    fn put_open_bars(&self, pen: &mut Pen, layout: Layout) {
        for column in &self.order {
            if let Some(state) = self.states.get(*column as usize) {
                if state.held.is_open() {
                    state.held.put_bar(pen, layout, *column, None);
                }
            }
        }
    }

    // What is still under way, by the order in which it left.
    fn waiting(&self, alloc: Global) -> Result<Vec<Sent>, AllocError> {
        let mut waiting: Vec<Sent> = self.sent.iter().copied().flatten().collect(alloc)?;
        waiting.sort_unstable_by_key(|sent| sent.order);
        Ok(waiting)
    }

    // The lanes on one side of a column.
    fn lanes(&mut self, column: u32, side: Side) -> Option<&mut Lanes> {
        let state = self.states.get_mut(column as usize)?;
        match side {
            Side::Left => Some(&mut state.left),
            Side::Right => Some(&mut state.right),
        }
    }
}

// What an event that is no move is shown by.
fn mark_of(event: Event) -> Option<Mark> {
    match event {
        Event::Watched { port, phase } => Some(Mark {
            lifeline: Lifeline::Port(port),
            sign: Sign::Watch,
            word: phase_word(phase),
        }),
        Event::Refused { port, denial } => Some(Mark {
            lifeline: Lifeline::Port(port),
            sign: Sign::Refusal,
            word: denial_word(denial),
        }),
        Event::Clashed { comp } => Some(met_at(comp, "clash")),
        Event::Moved(_) | Event::Rested => None,
    }
}

fn met_at(comp: u32, word: &'static str) -> Mark {
    Mark {
        lifeline: Lifeline::Comp(comp),
        sign: Sign::Clash,
        word,
    }
}

// The signs of a request or a reply.
fn add_arrow(signs: &mut Signs, sent: Sent) {
    signs.add(if sent.is_request {
        Sign::Request
    } else {
        Sign::Reply
    });
    match sent.kind {
        ChanKind::Sync => {}
        ChanKind::Push => signs.add(Sign::Push),
        ChanKind::Pull => signs.add(Sign::Pull),
    }
}

// Whether a lifeline is a port whose host is the caller.
fn is_caller(scene: Scene<'_>, lifeline: Lifeline) -> bool {
    match lifeline {
        Lifeline::Port(port) => scene.chart.circuit.is_passive(port),
        Lifeline::Comp(_) => false,
    }
}

// The outer side of a port, and the right one of a component.
fn outer_side(scene: Scene<'_>, lifeline: Lifeline) -> Side {
    if is_caller(scene, lifeline) {
        Side::Left
    } else {
        Side::Right
    }
}

fn put_waiting(pen: &mut Pen, layout: Layout, waiting: &[Sent]) {
    for sent in waiting {
        put_arrow(pen, layout, *sent, None);
    }
}
