//! A bench on the ports of a net.

ghost use Rattle.std.specs.Prelude.{◌≡◌, IfOk, length};
ghost use Rattle.bz_cli_bench.specs.Verdicts.{gives};

use crate::playing::port_of;
use bz_bench::{Bench, BenchFault, Cause, Due, Item, Line, PortLine, Stream};
use bz_flat::Flat;
use bz_model::{Chan, ChanKind, NameRow, Port, fits, numbered};
use std::alloc::{AllocError, Global};

/// What is to pass at each port of a net, by its number, which ports have a line in each group of lines, and whether the net may
/// go round for ever once all has passed.
#[derive(Drop)]
pub struct Plan {
    pub streams: Vec<Stream>,
    pub groups: Vec<Vec<u32>>,
    pub spins: bool,
}

/// The plan of a bench on a net.
pub(crate) fn plan_of(alloc: Global, flat: &Flat, bench: &Bench) -> Result<Plan, BenchFault>
    ensures { IfOk result (λ plan. length plan.streams.items ≡ length flat.now.wiring.ports) }
{
    let mut plan = Plan {
        streams: no_streams(alloc, flat)?,
        groups: Vec::new(alloc),
        spins: bench.spins,
    };
    match plan.add_lines(alloc, flat, bench.lines.as_slice()) {
        Ok(()) => Ok(plan),
        Err(fault) => Err(fault),
    }
}

// For each port of a net a stream of nothing.
fn no_streams(alloc: Global, flat: &Flat) -> Result<Vec<Stream>, AllocError>
    ensures { IfOk result (λ streams. length streams.items ≡ length flat.now.wiring.ports) }
{
    let mut streams = Vec::new(alloc);
    let count = flat.ports().len();
    for place in 0..count {
        let (items, groups) = (Vec::new(alloc), Vec::new(alloc));
        streams.push(Stream {
            items,
            forever: None,
            is_left_open: false,
            groups,
            last: None,
        })?;
    }
    Ok(streams)
}

// The names of the ports.
fn names_of(alloc: Global, ports: &[Port]) -> Result<NameRow, AllocError> {
    let mut names = Vec::new(alloc);
    for port in ports {
        names.push(Vec::from_slice(alloc, port.name.as_slice())?)?;
    }
    NameRow::new(alloc, names)
}

impl Plan {
    // Adds what the lines of a bench say.
    fn add_lines(&mut self, alloc: Global, flat: &Flat, lines: &[Line]) -> Result<(), BenchFault>
        ensures { length self.new.streams.items ≡ length self.old.streams.items }
    {
        self.groups.push(Vec::new(alloc))?;
        match names_of(alloc, flat.ports()) {
            Ok(names) => self.add_named(alloc, flat, &names, lines),
            Err(_) => Err(BenchFault::Memory),
        }
    }

    // The same, once the ports are known by their names.
    fn add_named(
        &mut self,
        alloc: Global,
        flat: &Flat,
        names: &NameRow,
        lines: &[Line],
    ) -> Result<(), BenchFault>
        ensures { length self.new.streams.items ≡ length self.old.streams.items }
    {
        for line in lines {
            match line {
                Line::Then => self.groups.push(Vec::new(alloc))?,
                Line::Port(line) => self.add_line(flat, names, line)?,
            }
        }
        Ok(())
    }

    // Adds what a line has to the stream of its port.
    fn add_line(&mut self, flat: &Flat, names: &NameRow, line: &PortLine) -> Result<(), BenchFault>
        ensures { length self.new.streams.items ≡ length self.old.streams.items }
    {
        let Some(place) = names.place(line.name.as_slice()) else {
            return Err(BenchFault::At(line.at, Cause::NoPort));
        };
        let port = port_of(place);
        let Some(side) = side_of(flat, port) else {
            return Err(BenchFault::At(line.at, Cause::NoPort));
        };
        side.check(line)?;
        let group = self.groups.len().saturating_sub(1);
        add_to(self.streams.as_mut_slice(), place, line, group)?;
        match self.groups.last_mut() {
            Some(ports) => ports.push(port)?,
            None => {}
        }
        Ok(())
    }
}

// Adds what a line has to the stream at a place.
fn add_to(
    streams: &mut [Stream],
    place: usize,
    line: &PortLine,
    group: usize,
) -> Result<(), BenchFault>
    ensures { length streams.new ≡ length streams.old }
{
    match streams.get_mut(place) {
        Some(stream) => extend(stream, line, group),
        None => Ok(()),
    }
}

/// Whether values of a port come from the net.
pub(crate) fn is_from_net(flat: &Flat, port: u32) -> bool {
    match side_of(flat, port) {
        Some(side) => side.is_from_net(),
        None => false,
    }
}

/// Whether the net gives values at a port of this kind and sense: at an active push and at a passive pull.
pub(crate) fn gives(chan: Option<Chan>, passive: Option<bool>) -> bool
    ensures { result ≡ gives chan passive }
{
    match (chan, passive) {
        (Some(chan), Some(passive)) => match chan.kind {
            ChanKind::Sync => false,
            ChanKind::Push => !passive,
            ChanKind::Pull => passive,
        },
        _ => false,
    }
}

// The kind and the sense of a port.
#[derive(Clone, Copy)]
struct Side {
    chan: Chan,
    passive: bool,
}

fn side_of(flat: &Flat, port: u32) -> Option<Side> {
    match (flat.chan(port), numbered(flat.ports(), port)) {
        (Some(chan), Some(port)) => Some(Side {
            chan,
            passive: port.passive,
        }),
        _ => None,
    }
}

impl Side {
    // Whether its values come from the net.
    fn is_from_net(self) -> bool {
        gives(Some(self.chan), Some(self.passive))
    }

    // Whether each item of a line belongs at the port.
    fn check(self, line: &PortLine) -> Result<(), BenchFault> {
        for due in &line.items {
            self.check_item(*due)?;
        }
        if let Some(due) = line.forever {
            self.check_item(due)?;
        }
        match line.open {
            Some(at) if !self.passive || self.chan.kind != ChanKind::Sync => {
                Err(BenchFault::At(at, Cause::WrongItem))
            }
            _ => Ok(()),
        }
    }

    fn check_item(self, due: Due) -> Result<(), BenchFault> {
        let is_sync = self.chan.kind == ChanKind::Sync;
        match due.item {
            Item::Handshake if is_sync => Ok(()),
            Item::Any if self.is_from_net() => Ok(()),
            Item::Value(value) if !is_sync => {
                if fits(self.chan.width, value) {
                    Ok(())
                } else {
                    Err(BenchFault::At(due.at, Cause::TooLarge))
                }
            }
            _ => Err(BenchFault::At(due.at, Cause::WrongItem)),
        }
    }
}

// Adds the items of a line to those of the lines above.
fn extend(stream: &mut Stream, line: &PortLine, group: usize) -> Result<(), BenchFault> {
    if stream.last == Some(group) {
        return Err(BenchFault::At(line.at, Cause::PortTwice));
    }
    if stream.forever.is_some() || stream.is_left_open {
        return Err(BenchFault::At(line.at, Cause::AfterLast));
    }
    for due in &line.items {
        stream.items.push(due.item)?;
        stream.groups.push(group)?;
    }
    stream.forever = line.forever.map(|due| due.item);
    stream.is_left_open = line.open.is_some();
    stream.last = Some(group);
    Ok(())
}
