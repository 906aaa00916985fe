//! What is accepted, and likely to be a mistake.
//!
//! Warnings come only where there is no fault, and leave the status 0: the netlist is accepted. An unused part needs `-p`:
//! without it each part that no other uses may be the one that is meant. A part that only unused parts use is unused too. A
//! channel that no entry names is unused also where it is a port; where an instance has it at a port that nothing is at, the
//! port is reported in its place.

use crate::data::Head;
use crate::findings::Gathered;
use crate::marks::Marks;
use crate::net_faults::marks_of;
use crate::partless::warn_of_no_part;
use crate::site::NetlistText;
use crate::skipped::warn_of_skipped;
use bz_breeze_records::Component;
use bz_explain_notes::{Detail, Notes, Severity};
use bz_kind_rows::{kind_named, row_named};
use bz_model::{KindName, Param, ParamPlace, Value};
use bz_text::{Piece as Part, Text};
use bz_view::Piece::{self, Bytes, Name};
use std::alloc::AllocError;

/// What is found at a component that no request can reach.
const UNREACHED: &str =
    "found: %, which no request can reach: none that a host makes at a port leads to it";

/// What is found at a function whose only truth value has no meaning.
const UNUSED_FLAG: &str =
    "found: % with one truth value, which has no meaning: its signs are those from the second on";

/// What is warned of at a channel or a component.
#[derive(Clone, Copy)]
enum Warning {
    UnusedChannel,
    Unreached,
    UnusedFlag,
}

impl Warning {
    fn code(self) -> &'static [u8] {
        match self {
            Warning::UnusedChannel => b"W2 UnusedChannel ",
            Warning::Unreached => b"W3 Unreached ",
            Warning::UnusedFlag => b"W4 UnusedFlag ",
        }
    }

    fn head(self) -> Head {
        match self {
            Warning::UnusedChannel => Head::Channels,
            Warning::Unreached | Warning::UnusedFlag => Head::Components,
        }
    }
}

/// Warns of parts, channels and components of a netlist that has no fault. `part` is the one that is meant to be used, where
/// one is named, and `reached` are the components that can be asked for something.
pub(crate) fn warn(
    gathered: &mut Gathered<'_>,
    part: Option<&[u8]>,
    reached: &Marks,
) -> Result<(), AllocError> {
    if gathered.netlist.parts.list().is_empty() {
        return warn_of_no_part(gathered);
    }
    warn_of_skipped(gathered)?;
    if let Some(part) = part {
        warn_of_parts(gathered, part)?;
    }
    let named = named_chans(gathered.netlist)?;
    warn_of_channels(gathered, &named)?;
    warn_of_components(gathered, reached)
}

// Warns of parts of which the one that is meant to be used has no instance.
fn warn_of_parts(gathered: &mut Gathered<'_>, asked: &[u8]) -> Result<(), AllocError> {
    let netlist = gathered.netlist;
    let marks = marks_of(netlist, asked)?;
    for (number, is_reached) in marks.iter().enumerate() {
        if !*is_reached && gathered.has_room() {
            let mut notes = Notes::on(netlist.alloc, netlist.file);
            netlist.put_part(&mut notes, number);
            let found = "found: no instance of it in part %, nor in any part that this one uses";
            notes.say(found, &[Name(asked)]);
            add(gathered, b"W1 UnusedPart ", number, None, notes)?;
        }
    }
    Ok(())
}

// Warns of channels that no entry names.
fn warn_of_channels(gathered: &mut Gathered<'_>, named: &Marks) -> Result<(), AllocError> {
    for (number, part) in gathered.netlist.parts.list().iter().enumerate() {
        let mut ports = part.ports.iter();
        for position in 1..=part.channels.len() {
            let (form, name) = match ports.next() {
                Some(port) => (
                    "found: port %, which no component of the part is at",
                    &port.name,
                ),
                None => (
                    "found: a channel that no component of the part is at",
                    &part.name,
                ),
            };
            if !named.has(number, position) && gathered.has_room() {
                let warning = Warning::UnusedChannel;
                warn_of(gathered, warning, number, position, form, Name(name))?;
            }
        }
    }
    Ok(())
}

// Warns of components that no request can reach, and of truth values without a meaning.
fn warn_of_components(gathered: &mut Gathered<'_>, reached: &Marks) -> Result<(), AllocError> {
    let parts = gathered.netlist.parts;
    for (number, part) in parts.list().iter().enumerate() {
        for (place, component) in part.components.iter().enumerate() {
            let (position, name) = (place + 1, component.name.as_slice());
            let found = if parts.number(name).is_some() {
                None
            } else if !reached.has(number, position) {
                Some((Warning::Unreached, UNREACHED))
            } else if has_unused_flag(component) {
                Some((Warning::UnusedFlag, UNUSED_FLAG))
            } else {
                None
            };
            if let (Some((warning, form)), true) = (found, gathered.has_room()) {
                warn_of(gathered, warning, number, position, form, Bytes(name))?;
            }
        }
    }
    Ok(())
}

// Whether a component has one truth value, and is of a kind whose signs are those from the second on.
fn has_unused_flag(component: &Component) -> bool {
    let flags = component.params.iter();
    let flags = flags.filter(|param| matches!(param, Param::Flag(_)));
    match kind_named(component.name.as_slice()) {
        Some(kind) => has_flag(kind, 1) && !has_flag(kind, 0) && flags.count() == 1,
        None => false,
    }
}

// Whether a kind looks at the truth value at this place.
fn has_flag(kind: KindName, place: usize) -> bool {
    row_named(kind).parameters.iter().any(
        |parameter| matches!(parameter.place, ParamPlace::Flag(flag) if flag == place),
    )
}

// The channels of each part that its components name.
fn named_chans(netlist: NetlistText<'_>) -> Result<Marks, AllocError> {
    let mut named = Marks::none(netlist.alloc, netlist.parts, Head::Channels)?;
    for (number, part) in netlist.parts.list().iter().enumerate() {
        for component in &part.components {
            named.set_named(number, component);
        }
    }
    Ok(named)
}

// Warns of a channel or a component of a part, by what a form says of it.
fn warn_of(
    gathered: &mut Gathered<'_>,
    warning: Warning,
    number: usize,
    position: usize,
    form: &str,
    arg: Piece<'_>,
) -> Result<(), AllocError> {
    let netlist = gathered.netlist;
    let mut notes = Notes::on(netlist.alloc, netlist.file);
    netlist.put_listed(&mut notes, number, warning.head(), position);
    notes.say(form, &[arg]);
    if let Warning::UnusedChannel = warning {
        notes.add_detail(Detail::Channel(position));
    }
    let place = Some(position as Value);
    add(gathered, warning.code(), number, place, notes)
}

// A warning, by its code and name, and what it is about: a part, or a position there.
fn add(
    gathered: &mut Gathered<'_>,
    code: &'static [u8],
    number: usize,
    position: Option<Value>,
    notes: Notes,
) -> Result<(), AllocError> {
    let name = gathered.netlist.name(number);
    let pieces = [Part::Bytes(code), Part::Name(name), Part::Value(position)];
    let mut line = Text::new(gathered.netlist.alloc);
    line.put_pieces(&pieces);
    gathered.add(Severity::Warning, line, name, notes)
}
