//! Which pieces of a text spell the records of its parts.

use crate::lines::{headed, members};
use bz_sexpr::{Form, Forms};
use std::alloc::{AllocError, Global};

/// The bytes `from..to` of a text, which spell a record. A text that is taken has fewer than 2^32.
#[derive(Clone, Copy)]
pub(crate) struct RecordPiece {
    pub from: u32,
    pub to: u32,
}

/// The pieces of the records of a part: of its channels and of its components, in order.
#[derive(Drop)]
pub struct PartPieces {
    pub(crate) channels: Vec<RecordPiece>,
    pub(crate) components: Vec<RecordPiece>,
}

/// The pieces of each part, in the order of the text, which spells this netlist.
pub fn pieces_of(alloc: Global, netlist: Forms<'_>) -> Result<Vec<PartPieces>, AllocError> {
    let mut pieces = Vec::new(alloc);
    let mut rest = netlist;
    for _ in 0..netlist.len() {
        let Some((form, after)) = rest.split_first() else {
            break;
        };
        if let Some(items) = headed(b"breeze-part", form) {
            pieces.push(PartPieces {
                channels: member_pieces(alloc, members(b"channels", items))?,
                components: member_pieces(alloc, members(b"components", items))?,
            })?;
        }
        rest = after;
    }
    Ok(pieces)
}

fn member_pieces(alloc: Global, members: Forms<'_>) -> Result<Vec<RecordPiece>, AllocError> {
    let mut pieces = Vec::with_capacity(alloc, members.len())?;
    let mut rest = members;
    for _ in 0..members.len() {
        let Some((member, after)) = rest.split_first() else {
            break;
        };
        pieces.push(piece_of(member))?;
        rest = after;
    }
    Ok(pieces)
}

fn piece_of(member: Form<'_>) -> RecordPiece {
    let span = member.span();
    RecordPiece {
        from: short(span.from),
        to: short(span.to),
    }
}

fn short(byte: usize) -> u32 {
    u32::try_from(byte).unwrap_or(u32::MAX)
}
