//! All that is wrong with a part that has no net.

use crate::findings::{Gathered, MOST_TOLD};
use crate::mended::Mended;
use crate::refusals::explain_refusal;
use crate::site::NetlistText;
use crate::wired::Wired;
use bz_elab::{ElabError, reached};
use bz_explain_notes::{Findings, Notes};
use std::alloc::AllocError;

/// The notes of a part that has no net; and the faults beside that one.
pub(crate) fn explain_net(
    notes: &mut Notes,
    netlist: NetlistText<'_>,
    asked: &[u8],
    first: ElabError,
) -> Result<Findings, ElabError> {
    // (the first one is told in front of the others)
    let mut gathered = Gathered::beside(netlist, Some(first), MOST_TOLD - 1);
    gather(notes, &mut gathered, asked, first)?;
    Ok(gathered.findings)
}

fn gather(
    notes: &mut Notes,
    gathered: &mut Gathered<'_>,
    asked: &[u8],
    first: ElabError,
) -> Result<(), ElabError> {
    let netlist = gathered.netlist;
    if is_of_ends(first) {
        let wired = Wired::of(netlist.alloc, netlist.parts, asked)?;
        explain_refusal(notes, netlist, asked, first, Some(&wired));
        gathered.refuse_ends(asked, &wired, None)?;
    } else {
        explain_refusal(notes, netlist, asked, first, None);
        let marks = marks_of(netlist, asked)?;
        gathered.refuse_components(marks.as_slice())?;
        // (of a net that is too large, what is left without the components at fault says nothing of ends)
        if first != ElabError::TooBig {
            if let Some(mended) = gathered.mended()? {
                refuse_mended(gathered, asked, &mended)?;
            }
        }
    }
    Ok(())
}

// What is wrong beside components at fault: that the net is too large, or else the ends of channels.
fn refuse_mended(
    gathered: &mut Gathered<'_>,
    asked: &[u8],
    mended: &Mended,
) -> Result<(), AllocError> {
    match mended.wired(gathered.netlist, asked) {
        Ok(wired) => gathered.refuse_ends(asked, &wired, Some(mended)),
        Err(ElabError::Memory) => Err(AllocError),
        Err(ElabError::TooBig) => gathered.refuse(asked, ElabError::TooBig, None),
        Err(_) => Ok(()),
    }
}

fn is_of_ends(error: ElabError) -> bool {
    matches!(
        error,
        ElabError::TwoEnds(_) | ElabError::LooseEnd(_) | ElabError::PortSense(_)
    )
}

/// A mark for each part that this one reaches, and for this one. There is none where no part has the name.
pub(crate) fn marks_of(netlist: NetlistText<'_>, part: &[u8]) -> Result<Vec<bool>, AllocError> {
    let parts = netlist.parts;
    match parts.number(part) {
        Some(number) if number < parts.list().len() => reached(netlist.alloc, parts, number),
        _ => Ok(Vec::new(netlist.alloc)),
    }
}
