//! The nets that are opened, each once, by the netlist and the part that are named.

use crate::asked::Trial;
use crate::counted::Counted;
use crate::files::BenchFiles;
use crate::opened::Opened;
use crate::reading::{Refusal, bytes_of, unread};
use bz_cli_input::Fault;
use bz_text::{Piece as Part, Text};
use bz_view::Piece;
use std::alloc::{AllocError, Global};
use std::io::Write;

/// What a netlist and the name of a part come to.
#[derive(Drop)]
pub(crate) enum Found {
    Net(Opened),
    /// Why there is no net.
    Refused(Vec<u8>),
}

/// A net that was asked for, or that there is not.
pub(crate) struct Known {
    // The netlist and the part, as they were named.
    name: Vec<u8>,
    /// What it is called.
    pub label: Vec<u8>,
    pub found: Found,
    /// What was exercised of it.
    pub counted: Counted,
}

// By hand, so that who lets one go has one call to show and not all its parts.
impl Drop for Known {
    fn drop(self) {
        let Known {
            name: _,
            label: _,
            found: _,
            counted: _,
        } = self;
    }
}

/// The nets that were asked for, and those that there are not.
#[derive(Drop)]
pub(crate) struct Nets {
    // In the order in which they came, and their places in the order of the names.
    known: Vec<Known>,
    row: Vec<usize>,
}

impl Nets {
    pub(crate) fn new(alloc: Global) -> Nets {
        Nets {
            known: Vec::new(alloc),
            row: Vec::new(alloc),
        }
    }

    /// All of them, in the order in which they came.
    pub(crate) fn all(&self) -> &[Known] {
        self.known.as_slice()
    }

    /// The one at a place.
    pub(crate) fn at(&mut self, place: usize) -> Option<&mut Known> {
        self.known.get_mut(place)
    }

    /// The place of the net of a part of a netlist, which is opened where it was not yet.
    pub(crate) fn place_of<F: BenchFiles>(
        &mut self,
        trial: Trial<'_>,
        netlist: &str,
        part: Option<&[u8]>,
        files: &mut F,
    ) -> Result<usize, Refusal> {
        let name = name_of(trial.alloc, netlist, part)?;
        let at = self
            .row
            .partition_point(|place| is_before(&self.known, *place, &name));
        if let Some(place) = self.row.get(at) {
            if is_name(&self.known, *place, &name) {
                return Ok(*place);
            }
        }
        let place = self.known.len();
        self.row.insert(at, place)?;
        self.known
            .push(known_of(trial, name, netlist, part, files)?)?;
        Ok(place)
    }
}

// Whether the name at a place comes before another one.
fn is_before(known: &[Known], place: usize, name: &[u8]) -> bool {
    match known.get(place) {
        Some(here) => here.name.as_slice() < name,
        None => false,
    }
}

// Whether the name at a place is this one.
fn is_name(known: &[Known], place: usize, name: &[u8]) -> bool {
    match known.get(place) {
        Some(here) => here.name.as_slice() == name,
        None => false,
    }
}

// What is found of a netlist and a part of this name.
fn known_of<F: BenchFiles>(
    trial: Trial<'_>,
    name: Vec<u8>,
    netlist: &str,
    part: Option<&[u8]>,
    files: &mut F,
) -> Result<Known, AllocError> {
    let label = label_of(trial.alloc, netlist, part)?;
    match found_in(trial, netlist, part, files) {
        Ok(found) => Ok(Known {
            name,
            label,
            found,
            counted: Counted::none(),
        }),
        Err(fault) => Err(fault),
    }
}

// What the net of a part of a netlist is called: its file, and the part in name form.
fn label_of(alloc: Global, netlist: &str, part: Option<&[u8]>) -> Result<Vec<u8>, AllocError> {
    let mut label = Text::new(alloc);
    label.put(netlist);
    if let Some(part) = part {
        label.put_pieces(&[Part::Bytes(b" "), Part::Name(part)]);
    }
    bytes_of(alloc, &label)
}

// A netlist and a part as one name.
fn name_of(alloc: Global, netlist: &str, part: Option<&[u8]>) -> Result<Vec<u8>, AllocError> {
    let mut name = Vec::from_slice(alloc, netlist.as_bytes())?;
    if let Some(part) = part {
        name.push(0)?;
        name.extend_from_slice(part)?;
    }
    Ok(name)
}

// The net of a part: of the text that takes the place of the netlists of benches, or else of a file.
fn found_in<F: BenchFiles>(
    trial: Trial<'_>,
    netlist: &str,
    part: Option<&[u8]>,
    files: &mut F,
) -> Result<Found, AllocError> {
    if let Some(text) = trial.text {
        return opened(trial.alloc, netlist, part, text);
    }
    match files.read(trial.alloc, netlist) {
        Ok(text) => opened(trial.alloc, netlist, part, text.as_slice()),
        Err(why) => match unread(trial.alloc, netlist, why) {
            Refusal::NoNet(why) => Ok(Found::Refused(why)),
            _ => Err(AllocError),
        },
    }
}

// The net of a part of a text, or the fault of the netlist of this name.
fn opened(
    alloc: Global,
    netlist: &str,
    part: Option<&[u8]>,
    text: &[u8],
) -> Result<Found, AllocError> {
    match Opened::of(alloc, part, text) {
        Ok(opened) => Ok(Found::Net(opened)),
        Err(Fault::Memory) => Err(AllocError),
        Err(fault) => refused(alloc, netlist, &fault),
    }
}

fn refused(alloc: Global, netlist: &str, fault: &Fault) -> Result<Found, AllocError> {
    let mut why = Text::new(alloc);
    why.say("%: ", &[Piece::File(netlist)]);
    let _ = write!(why, "{fault}");
    Ok(Found::Refused(bytes_of(alloc, &why)?))
}
