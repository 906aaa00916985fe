//! The records of a netlist, of which one is looked up where it is asked for.
//!
//! A survey has the places, the names and the sources of a whole net. Who names a few things of a large one wants less: of each
//! record it is kept here which piece of the text spells it, and of each part what its components bring. By these numbers the
//! place of a component or a channel is found, and its record is read again.

use crate::brought::{Before, before_in, brought_in, own_chans};
use crate::detail::variable_name;
use crate::labels::{Label, SourceMark, comp_mark_of, name_of};
use crate::path_at::PathAt;
use crate::record_pieces::{PartPieces, RecordPiece};
use crate::text::LineAt;
use bz_breeze_records::{Part, Parts};
use bz_sexpr::{Forest, SexprError, read_forest};
use std::alloc::{AllocError, Global};

/// One more than the greatest number of instances on a path.
const LEVELS: u32 = 65;

/// The records of a text, with the net of one of its parts.
pub struct Records<'t> {
    text: &'t [u8],
    parts: Parts,
    pieces: Vec<PartPieces>,
    /// Of each part that the net has a copy of.
    known: Vec<Option<Before>>,
    /// The part whose net it is, counted from 0.
    top: usize,
}

/// A component of a net, as its record has it.
#[derive(Drop)]
pub struct FoundComp<'r> {
    part: &'r Part,
    place: PathAt,
    source: Option<SourceMark>,
}

// By hand, so that who lets one go has one call to show and not all its parts.
impl Drop for Records<'_> {
    fn drop(self) {
        let Records {
            text: _,
            parts: _,
            pieces: _,
            known: _,
            top: _,
        } = self;
    }
}

impl FoundComp<'_> {
    /// The copy in which it is, if it is in one; its line is left out.
    pub fn copy(&self) -> Option<LineAt<'_>> {
        if self.place.path.is_empty() {
            return None;
        }
        Some(LineAt {
            part: self.part.name.as_slice(),
            position: self.place.position,
            line: 0,
            path: self.place.path.as_slice(),
        })
    }

    /// What it is called, and where it comes from.
    pub fn label(&self) -> Label<'_> {
        let name = match self
            .part
            .components
            .get(self.place.position.saturating_sub(1))
        {
            Some(component) => variable_name(component),
            None => None,
        };
        let source = match &self.source {
            Some(mark) => Some(mark.at()),
            None => None,
        };
        Label { name, source }
    }
}

impl<'t> Records<'t> {
    /// The records of this text, its parts and the pieces of their records being these. The net is that of the part of this name.
    pub fn of(
        alloc: Global,
        text: &'t [u8],
        parts: Parts,
        pieces: Vec<PartPieces>,
        name: &[u8],
    ) -> Result<Records<'t>, AllocError> {
        let top = parts.number(name).unwrap_or(0);
        let mut known = Vec::new(alloc);
        for _ in 0..parts.list().len() {
            known.push(None)?;
        }
        brought_in(alloc, &parts, top, LEVELS, &mut known)?;
        Ok(Records {
            text,
            parts,
            pieces,
            known,
            top,
        })
    }

    /// A component of the net, counted from 1, if there is such a component.
    pub fn comp(&self, alloc: Global, comp: u32) -> Result<Option<FoundComp<'_>>, AllocError> {
        let Some(place) = self.place_of_comp(alloc, comp)? else {
            return Ok(None);
        };
        let Some(part) = self.parts.list().get(place.part) else {
            return Ok(None);
        };
        let source = match self.comp_piece(&place) {
            Some(piece) => self.source_in(alloc, piece)?,
            None => None,
        };
        Ok(Some(FoundComp {
            part,
            place,
            source,
        }))
    }

    /// What a channel of the net, counted from 1, is called.
    pub fn chan_name(&self, alloc: Global, chan: u32) -> Result<Option<Vec<u8>>, AllocError> {
        let Some((part, position)) = self.place_of_chan(chan) else {
            return Ok(None);
        };
        match self.chan_piece(part, position) {
            Some(piece) => self.name_in(alloc, piece),
            None => Ok(None),
        }
    }

    fn place_of_comp(&self, alloc: Global, comp: u32) -> Result<Option<PathAt>, AllocError> {
        let (mut part, mut left, mut path) = (self.top, comp, Vec::new(alloc));
        for _ in 0..LEVELS {
            let Some(before) = before_in(self.known.as_slice(), part) else {
                return Ok(None);
            };
            if !before.has_instances() {
                let position = left as usize;
                return Ok(Some(PathAt {
                    part,
                    position,
                    path,
                }));
            }
            let Some((position, inside)) = before.comp(left) else {
                return Ok(None);
            };
            match self.inner(part, position) {
                Some(inner) => {
                    path.push(position)?;
                    part = inner;
                    left = inside;
                }
                None => {
                    return Ok(Some(PathAt {
                        part,
                        position,
                        path,
                    }));
                }
            }
        }
        Ok(None)
    }

    // The part of a channel of the net, and its position there.
    fn place_of_chan(&self, chan: u32) -> Option<(usize, usize)> {
        let top = self.parts.list().get(self.top)?;
        if chan as usize <= top.channels.len() {
            return Some((self.top, chan as usize));
        }
        let mut part = self.top;
        let mut left = chan.saturating_sub(u32::try_from(top.channels.len()).unwrap_or(u32::MAX));
        for _ in 0..LEVELS {
            let before = before_in(self.known.as_slice(), part)?;
            let (position, inside) = before.chan(left)?;
            part = self.inner(part, position)?;
            let copy = self.parts.list().get(part)?;
            let own = own_chans(copy);
            if inside <= own {
                return Some((part, copy.ports.len().saturating_add(inside as usize)));
            }
            left = inside.saturating_sub(own);
        }
        None
    }

    // The part that the component of a part at a position is an instance of, if it is one.
    fn inner(&self, part: usize, position: usize) -> Option<usize> {
        let component = self
            .parts
            .list()
            .get(part)?
            .components
            .get(position.checked_sub(1)?)?;
        self.parts.number(component.name.as_slice())
    }

    fn comp_piece(&self, place: &PathAt) -> Option<RecordPiece> {
        let pieces = self.pieces.get(place.part)?;
        pieces
            .components
            .get(place.position.checked_sub(1)?)
            .copied()
    }

    fn chan_piece(&self, part: usize, position: usize) -> Option<RecordPiece> {
        let pieces = self.pieces.get(part)?;
        pieces.channels.get(position.checked_sub(1)?).copied()
    }

    // Reads a record again.
    fn record(&self, alloc: Global, piece: RecordPiece) -> Result<Option<Forest<'_>>, AllocError> {
        let span = piece.from as usize..piece.to as usize;
        match read_forest(alloc, self.text.get(span).unwrap_or(b"")) {
            Ok(forest) => Ok(Some(forest)),
            Err(SexprError::Memory) => Err(AllocError),
            // it was read once
            Err(_) => Ok(None),
        }
    }

    fn source_in(
        &self,
        alloc: Global,
        piece: RecordPiece,
    ) -> Result<Option<SourceMark>, AllocError> {
        let Some(forest) = self.record(alloc, piece)? else {
            return Ok(None);
        };
        match forest.forms().split_first() {
            Some((component, _)) => comp_mark_of(alloc, component),
            None => Ok(None),
        }
    }

    fn name_in(&self, alloc: Global, piece: RecordPiece) -> Result<Option<Vec<u8>>, AllocError> {
        let Some(forest) = self.record(alloc, piece)? else {
            return Ok(None);
        };
        match forest.forms().split_first() {
            Some((channel, _)) => name_of(alloc, channel),
            None => Ok(None),
        }
    }
}
