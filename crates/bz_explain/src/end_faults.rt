//! Channels and ports of a net that are at fault.
//!
//! What holds the ends of a channel is looked for among the components of the net, which are made once more for that.

use crate::data::Head;
use crate::site::{NetlistText, put_place};
use crate::wired::Wired;
use bz_arena::Id;
use bz_explain_notes::{Detail, Notes};
use bz_flat::{ElabError, FlatComp};
use bz_kind_rows::{PortAt, is_passive, kind_word, port_at};
use bz_model::{Chan, ChanKind, numbered};
use bz_source::PathAt;
use bz_view::Piece::{Bytes, Name, Number, Path, Port, Text};

/// A channel of a net that is at fault, and the components at it: the first of each sense, and the second of either.
#[derive(Clone, Copy)]
struct Wire<'t> {
    netlist: NetlistText<'t>,
    wired: &'t Wired,
    number: u32,
    place: &'t PathAt,
    active: Option<End>,
    passive: Option<End>,
    second: Option<End>,
}

/// An end of a channel: the number of the component that holds it, the kind of that, and the port at which it does.
#[derive(Clone, Copy)]
struct End {
    comp: u32,
    kind: &'static [u8],
    port: PortAt,
}

/// The notes of a channel with two ends of one sense or one end alone, or of a port with a component at the host's end.
pub(crate) fn explain_ends(
    notes: &mut Notes,
    netlist: NetlistText<'_>,
    wired: &Wired,
    error: ElabError,
    number: u32,
) {
    if let Some(place) = wired.places.chan(number) {
        let mut wire = Wire {
            netlist,
            wired,
            number,
            place,
            active: None,
            passive: None,
            second: None,
        };
        let mut comp = 0u32;
        for place in 0..wired.comps.len() {
            comp = comp.saturating_add(1);
            wire.meet(wired.comps.get(Id::at(place)), comp);
        }
        notes.add_detail(Detail::Channel(number as usize));
        match (error, wire.second) {
            (ElabError::TwoEnds(_), Some(second)) => wire.explain_two(notes, second),
            (ElabError::LooseEnd(_), _) => wire.explain_loose(notes),
            _ => wire.explain_sense(notes),
        }
    }
}

impl Wire<'_> {
    // Notes the ends that a component of the net has of the channel.
    fn meet(&mut self, site: &FlatComp, comp: u32) {
        for (port, chan) in (1..=u32::MAX).zip(site.chans.iter()) {
            if *chan == self.number {
                if let Some(port) = port_at(&site.kind, site.sizes, port) {
                    let kind = kind_word(&site.kind);
                    self.add(End { comp, kind, port });
                }
            }
        }
    }

    fn add(&mut self, end: End) {
        match (end.port.row.passive, self.active, self.passive) {
            _ if self.second.is_some() => {}
            (true, _, None) => self.passive = Some(end),
            (false, None, _) => self.active = Some(end),
            _ => self.second = Some(end),
        }
    }

    // The first end of a sense.
    fn first(&self, passive: bool) -> Option<End> {
        if passive { self.passive } else { self.active }
    }

    // Two ends of one sense.
    fn explain_two(&self, notes: &mut Notes, second: End) {
        let passive = second.port.row.passive;
        let first = self.first(passive);
        self.put_place(notes);
        notes.put("found: two % ends: ", &[Text(sense(passive))]);
        self.put_end(notes, first);
        notes.put(", ", &[]);
        self.put_end(notes, Some(second));
        notes.say("\nexpected: one active end and one passive end", &[]);
        if self.say_exchange(notes, first) || self.say_exchange(notes, Some(second)) {
            return;
        }
        if !passive {
            let mixer = Text(mixer(second.port.row.kind));
            notes.say("help: a % brings several callers together to one", &[mixer]);
        }
    }

    // One end alone.
    fn explain_loose(&self, notes: &mut Notes) {
        let passive = self.active.is_none();
        let (sense, other) = (Text(sense(passive)), Text(sense(!passive)));
        self.put_place(notes);
        self.put_found(notes, passive);
        let deed = Text(if passive { "makes" } else { "takes" });
        let told = ", and no % one\nexpected: a component that % its requests";
        notes.put(told, &[other, deed]);
        let (place, ports) = (self.place, self.netlist.ports(self.place.part));
        // (a channel that would be a port, were there one port more)
        if place.path.is_empty() && place.position == ports.len().saturating_add(1) {
            notes.put(", or port %, %", &[Number(place.position), sense]);
        }
        notes.say("", &[]);
    }

    // An external port with a component at the host's end.
    fn explain_sense(&self, notes: &mut Notes) {
        let (part, position) = (self.place.part, self.place.position);
        let ports = self.netlist.ports(part);
        if let Some(port) = ports.get(position.saturating_sub(1)) {
            let args = [Name(&port.name), Text(sense(port.passive))];
            self.netlist.put_listed(notes, part, Head::Ports, position);
            notes.add_port(args[0]);
            self.put_found(notes, !port.passive);
            notes.put(", and port % is %\nexpected: ", &args);
            let expected = if port.passive {
                "a passive end alone: at a passive port the host asks"
            } else {
                "an active end alone: at an active port the host answers"
            };
            notes.say(expected, &[]);
        }
    }

    // Goes on with the first end of a sense.
    fn put_found(&self, notes: &mut Notes, passive: bool) {
        let article = if passive { "a" } else { "an" };
        let args = [Text(article), Text(sense(passive))];
        notes.put("found: % % end, ", &args);
        self.put_end(notes, self.first(passive));
    }

    // Goes on with an end: the component, its port and where it stands.
    fn put_end(&self, notes: &mut Notes, end: Option<End>) {
        let Some(End { comp, kind, port }) = end else {
            return;
        };
        let number = Number(self.wired.shown(comp));
        let args = [number, Bytes(kind), Port(port)];
        notes.put("% % % (", &args);
        if let Some(place) = self.wired.places.comp(comp) {
            let (part, position) = (place.part, place.position);
            if !place.path.is_empty() {
                let name = Name(self.netlist.name(part));
                notes.put("% %, ", &[Path(&place.path), name]);
            }
            let spot = self.netlist.spot_of(part, Head::Components, position);
            notes.put("%)", &[spot]);
            let label = self.netlist.label(part, Head::Components, position);
            notes.put_label(label);
        }
    }

    // Tells where the channel stands, in the outermost copy that has it.
    fn put_place(&self, notes: &mut Notes) {
        let (place, part, position) = (self.place, self.place.part, self.place.position);
        if place.path.is_empty() {
            self.netlist
                .put_listed(notes, part, Head::Channels, position);
        } else if let Some(byte) = self.netlist.byte_of(part, Head::Channels, position) {
            let (name, path) = (Name(self.netlist.name(part)), Path(&place.path));
            self.netlist
                .add_record(notes, part, Head::Channels, position);
            let (number, position) = (Number(self.number as usize), Number(position));
            let form = "channel % (% %, channel % of part %)";
            let args = [number, path, name, position, name];
            put_place(notes, self.netlist.text, byte, form, &args);
        }
    }

    // Tells the channels of the component at an end by whose exchange each of them has both ends, if there are such.
    fn say_exchange(&self, notes: &mut Notes, end: Option<End>) -> bool {
        let Some(End { comp, kind, port }) = end else {
            return false;
        };
        let place = (comp as usize).saturating_sub(1);
        if place >= self.wired.comps.len() {
            return false;
        }
        let site = self.wired.comps.get(Id::at(place));
        for (number, chan) in (1..=u32::MAX).zip(site.chans.iter()) {
            let passive = is_passive(&site.kind, site.sizes, number);
            if passive != port.row.passive && self.is_mended(*chan, passive) {
                let (one, other) = (Number(self.number as usize), Number(*chan as usize));
                let args = [one, other, Number(self.wired.shown(comp)), Bytes(kind)];
                let form = "help: with channels % and % of % % exchanged, both have their ends";
                notes.say(form, &args);
                return true;
            }
        }
        false
    }

    // Whether this channel and another one of its sort have both ends, once an end of the other sense and one of that channel are
    // exchanged.
    fn is_mended(&self, other: u32, passive: bool) -> bool {
        other != self.number
            && self.carried(self.number) == self.carried(other)
            && self.is_closed(self.number, passive)
            && self.is_closed(other, !passive)
    }

    // What a channel carries.
    fn carried(&self, chan: u32) -> Option<Chan> {
        let place = self.wired.places.chan(chan)?;
        let part = self.netlist.parts.list().get(place.part)?;
        part.channels.get(place.position.checked_sub(1)?).copied()
    }

    // Whether a channel has what it needs once it has one end more of this sense, and one less of the other. The host has one end
    // of an external port.
    fn is_closed(&self, chan: u32, passive: bool) -> bool {
        let ends = self.wired.ends(chan);
        let top = self.netlist.ports(self.wired.top);
        let due = match numbered(top, chan) {
            Some(port) => (u32::from(!port.passive), u32::from(port.passive)),
            None => (1, 1),
        };
        let had = if passive {
            (
                ends.active.saturating_sub(1),
                ends.passive.saturating_add(1),
            )
        } else {
            (
                ends.active.saturating_add(1),
                ends.passive.saturating_sub(1),
            )
        };
        had == due
    }
}

// The kind that brings several active ends together.
fn mixer(kind: ChanKind) -> &'static str {
    match kind {
        ChanKind::Sync => "Call",
        ChanKind::Push => "CallMux",
        ChanKind::Pull => "CallDemux",
    }
}

fn sense(passive: bool) -> &'static str {
    if passive { "passive" } else { "active" }
}
