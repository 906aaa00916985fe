//! What a line of a trace tells, as a chart shows it.

ghost use Rattle.std.specs.Prelude.{◌≡◌};
ghost use Rattle.bz_chart_layout.specs.Lifelines.{move_of, shown_of, step_by, told_of};

use crate::circuit::{Circuit, Lifeline};
use bz_model::{Entry, Move, Phase, Reply, Value, Verb, Who};
use bz_trace_text::{LineNames, clash_at, line_at};

/// One of the four moves of a handshake, on a channel, by the lifeline that makes it. Without another one at the channel's
/// other end, `other` is the same.
#[derive(Clone, Copy, PartialEq, Eq)]
pub struct Step {
    pub mv: Move,
    pub chan: u32,
    pub value: Option<Value>,
    pub maker: Lifeline,
    pub other: Lifeline,
}

/// How a host is told no.
#[derive(Clone, Copy, PartialEq, Eq)]
pub enum Denial {
    NotYet,
    Busy,
    NotTaken,
}

/// What a line tells.
#[derive(Clone, Copy, PartialEq, Eq)]
pub enum Event {
    Moved(Step),
    /// A host has looked at a port.
    Watched { port: u32, phase: Phase },
    /// A host was told no at a port.
    Refused { port: u32, denial: Denial },
    Rested,
    /// Requests met at a component.
    Clashed { comp: u32 },
}

/// A line of the trace.
#[derive(Clone, Copy)]
pub struct Line<'a> {
    /// Its number, from 1.
    pub number: usize,
    pub text: &'a [u8],
    pub by_host: bool,
    pub event: Event,
}

/// Reads a line, its end included; `None` where it tells nothing.
pub fn read_line<'a>(
    circuit: &Circuit,
    names: &LineNames<'_>,
    number: usize,
    line: &'a [u8],
) -> Option<Line<'a>> {
    let text = line.strip_suffix(b"\n").unwrap_or(line);
    if let Some((entry, _)) = line_at(names, line) {
        return Some(Line {
            number,
            text,
            by_host: is_by_host(entry),
            event: event_of(circuit, entry),
        });
    }
    let (comp, _) = clash_at(line)?;
    Some(Line {
        number,
        text,
        by_host: false,
        event: Event::Clashed { comp },
    })
}

fn is_by_host(entry: Entry) -> bool {
    let (Entry::Fired { who, .. } | Entry::Host { who, .. } | Entry::Rested { who }) = entry;
    matches!(who, Who::Host(_))
}

fn event_of(circuit: &Circuit, entry: Entry) -> Event
    ensures { result ≡ shown_of circuit.now entry }
{
    match entry {
        Entry::Fired {
            comp,
            chan,
            mv,
            value,
            ..
        } => Event::Moved(step_of(circuit, mv, chan, value, Lifeline::Comp(comp))),
        Entry::Host {
            verb,
            port,
            value,
            reply,
            ..
        } => host_event(circuit, verb, port, value, reply),
        Entry::Rested { .. } => Event::Rested,
    }
}

fn step_of(circuit: &Circuit, mv: Move, chan: u32, value: Option<Value>, maker: Lifeline) -> Step
    ensures { result ≡ step_by circuit.now mv chan value maker }
{
    let to_active = matches!(mv, Move::Take | Move::Reply);
    let other = circuit.end(chan, to_active).unwrap_or(maker);
    Step {
        mv,
        chan,
        value,
        maker,
        other,
    }
}

fn host_event(circuit: &Circuit, verb: Verb, port: u32, value: Option<Value>, reply: Reply) -> Event
    ensures { result ≡ told_of circuit.now verb port value reply }
{
    let brought = match reply {
        Reply::Done => value,
        Reply::Value(got) => Some(got),
        Reply::NotYet => return refused(port, Denial::NotYet),
        Reply::Busy(_) => return refused(port, Denial::Busy),
        Reply::NotTaken(_) => return refused(port, Denial::NotTaken),
        Reply::Watched(phase) => return Event::Watched { port, phase },
    };
    let maker = Lifeline::Port(port);
    Event::Moved(step_of(circuit, move_of(verb), port, brought, maker))
}

fn move_of(verb: Verb) -> Move
    ensures { result ≡ move_of verb }
{
    match verb {
        Verb::Offer => Move::Ask,
        Verb::Accept => Move::Take,
        Verb::Answer => Move::Reply,
        Verb::Collect | Verb::Watch => Move::Got,
    }
}

fn refused(port: u32, denial: Denial) -> Event
    ensures { result ≡ Event.Refused port denial }
{
    Event::Refused { port, denial }
}
