//! A netlist without the components that are at fault, so that the ends of its channels can be looked at.
//!
//! The text is read again with a component that adds nothing in the place of each one at fault, so all else keeps its place.
//! What a component at fault may have held is not known, so no channel that it names is said to be loose. An instance at
//! fault may bring any channels, so then no ends are looked at.

use crate::data::Head;
use crate::marks::Marks;
use crate::site::NetlistText;
use crate::wired::Wired;
use bz_breeze::parts_of;
use bz_breeze_records::Parts;
use bz_cli_input::Fault;
use bz_elab::{CompAt, ElabError, flattened};
use bz_sexpr::{Span, read_forest};
use bz_source::Places;
use std::alloc::{AllocError, Global};

/// A component that adds nothing to a net: an instance of a part that has nothing. No component's record is shorter.
const NOTHING: &[u8] = b"(component\"\"()())";

/// That part.
const EMPTY_PART: &[u8] = b"\n(breeze-part \"\")";

/// The parts of a netlist without the components that are at fault, all else at its place; and what these leave uncertain.
#[derive(Drop)]
pub struct Mended {
    parts: Parts,
    /// The channels of which a component that is at fault has an end, in their part or in a copy there.
    doubtful: Marks,
}

impl Mended {
    /// A netlist without these components. There is none where a part has the name that is needed. An instance, which may bring
    /// any channels, stays at fault: so no part that reaches it has a net.
    pub(crate) fn of(
        netlist: NetlistText<'_>,
        faulty: &[CompAt],
    ) -> Result<Option<Mended>, AllocError> {
        if netlist.parts.number(b"").is_some() {
            return Ok(None);
        }
        let text = text_without(netlist, faulty)?;
        match parts_in(netlist.alloc, text.as_slice()) {
            Ok(parts) => {
                let doubtful = doubtful_chans(netlist, faulty)?;
                Ok(Some(Mended { parts, doubtful }))
            }
            Err(Fault::Memory) => Err(AllocError),
            Err(_) => Ok(None),
        }
    }

    /// The net of a part.
    pub fn wired(&self, netlist: NetlistText<'_>, part: &[u8]) -> Result<Wired, ElabError> {
        let mut wired = Wired::of(netlist.alloc, &self.parts, part)?;
        wired.whole = Places::of(netlist.alloc, netlist.parts, part).ok();
        Ok(wired)
    }

    /// Whether a fault of a net stays one once the components that are at fault are mended.
    pub(crate) fn is_certain(&self, wired: &Wired, error: ElabError) -> bool {
        let ElabError::LooseEnd(chan) = error else {
            return true;
        };
        match wired.places.chan(chan) {
            Some(place) => !self.doubtful.has(place.part, place.position),
            None => false,
        }
    }
}

fn parts_in(alloc: Global, text: &[u8]) -> Result<Parts, Fault> {
    let forest = read_forest(alloc, text)?;
    Ok(parts_of(alloc, forest.forms())?)
}

// The text, with a component that adds nothing in place of each of these.
fn text_without(netlist: NetlistText<'_>, faulty: &[CompAt]) -> Result<Vec<u8>, AllocError> {
    let mut text = Vec::from_slice(netlist.alloc, netlist.text)?;
    for at in faulty {
        if let Some(site) = netlist.site(at.part, at.position) {
            if site.inner().is_none() {
                put_nothing(&mut text, site.span());
            }
        }
    }
    text.extend_from_slice(EMPTY_PART)?;
    Ok(text)
}

fn put_nothing(text: &mut [u8], span: Option<Span>) {
    let Some(Span { from, to }) = span else {
        return;
    };
    let mut nothing = NOTHING.iter();
    for place in from..to {
        if let Some(byte) = text.get_mut(place) {
            *byte = nothing.next().copied().unwrap_or(b' ');
        }
    }
}

// The channels that components at fault name, there or in copies there.
fn doubtful_chans(netlist: NetlistText<'_>, faulty: &[CompAt]) -> Result<Marks, AllocError> {
    let mut marks = Marks::none(netlist.alloc, netlist.parts, Head::Channels)?;
    for at in faulty {
        if let Some(site) = netlist.site(at.part, at.position) {
            marks.set_named(at.part, site.component);
        }
    }
    match spread_all(netlist, &mut marks) {
        Ok(()) => Ok(marks),
        Err(error) => Err(error),
    }
}

// Marks what instances have at marked ports of their parts, and what those have that these are in.
fn spread_all(netlist: NetlistText<'_>, marks: &mut Marks) -> Result<(), AllocError> {
    // (a path has at most 64 instances)
    for _ in 0..65 {
        if !spread(netlist, marks)? {
            break;
        }
    }
    Ok(())
}

// Whether there was one more.
fn spread(netlist: NetlistText<'_>, marks: &mut Marks) -> Result<bool, AllocError> {
    let mut is_more = false;
    for (number, part) in netlist.parts.list().iter().enumerate() {
        for component in &part.components {
            if let Some(inner) = netlist.parts.number(component.name.as_slice()) {
                let named = flattened(netlist.alloc, component.entries.as_slice())?;
                is_more = spread_from(inner, number, &named, marks) || is_more;
            }
        }
    }
    Ok(is_more)
}

// From the ports of a part to what an instance of it in another one has there.
fn spread_from(inner: usize, number: usize, named: &[u32], marks: &mut Marks) -> bool {
    let mut is_more = false;
    for (before, chan) in named.iter().enumerate() {
        if marks.has(inner, before + 1) {
            is_more = marks.set(number, *chan as usize) || is_more;
        }
    }
    is_more
}
