//! A netlist while it is looked through: each part is opened, by itself or within another one.

use crate::data::Head;
use crate::findings::Gathered;
use crate::marks::{Marks, set};
use crate::mended::Mended;
use crate::net_faults::marks_of;
use crate::site::NetlistText;
use crate::unreached::mark_reached;
use crate::warnings::warn;
use crate::wired::Wired;
use bz_breeze_records::Part;
use bz_cli_input::used_by_others;
use bz_elab::ElabError;
use bz_explain_notes::Findings;
use std::alloc::{AllocError, Global};

/// How much is opened at most: parts of the text for each part that is opened, and components and channels of its net.
const MOST_WORK: usize = 50_000_000;

/// A netlist while it is looked through.
#[derive(Drop)]
pub(crate) struct Linted<'t> {
    gathered: Gathered<'t>,
    /// The netlist without the components at fault, if there are such.
    mended: Option<Mended>,
    /// For each part whether one that was opened reaches it.
    covered: Vec<bool>,
    /// The components that can be asked for something.
    reached: Marks,
    /// How much was opened so far.
    work: usize,
}

impl<'t> Linted<'t> {
    /// All that is found in a netlist. `part` is the one that is meant to be used, where one is
    /// named, and `most` how many findings are told.
    pub(crate) fn of(
        netlist: NetlistText<'t>,
        part: Option<&[u8]>,
        most: usize,
    ) -> Result<Findings, AllocError> {
        let (alloc, count) = (netlist.alloc, netlist.parts.list().len());
        let covered = vec![in alloc; false; count]?;
        let reached = Marks::none(alloc, netlist.parts, Head::Components)?;
        let mut linted = Linted {
            gathered: Gathered::new(netlist, most),
            mended: None,
            covered,
            reached,
            work: 0,
        };
        linted.look(part)?;
        let Linted {
            gathered,
            mended: _,
            covered: _,
            reached: _,
            work: _,
        } = linted;
        Ok(gathered.findings)
    }

    fn look(&mut self, part: Option<&[u8]>) -> Result<(), AllocError> {
        self.refuse_components()?;
        self.mended = self.gathered.mended()?;
        self.open_all()?;
        if self.gathered.is_empty() {
            warn(&mut self.gathered, part, &self.reached)?;
        }
        Ok(())
    }

    // The faults of the components of all parts.
    fn refuse_components(&mut self) -> Result<(), AllocError> {
        let all = vec![in self.gathered.netlist.alloc; true; self.covered.len()]?;
        self.gathered.refuse_components(&all)
    }

    // Opens the parts on top, and then those that none of these reaches.
    fn open_all(&mut self) -> Result<(), AllocError> {
        let parts = self.gathered.netlist.parts;
        let used = used_by_others(self.gathered.netlist.alloc, parts)?;
        for is_top in [true, false] {
            for (number, part) in parts.list().iter().enumerate() {
                let seen = if is_top {
                    used.get(number).copied()
                } else {
                    self.covered.get(number).copied()
                };
                if seen == Some(false) {
                    self.open(part)?;
                }
            }
        }
        Ok(())
    }

    // Opens a part, unless enough was opened before.
    fn open(&mut self, part: &Part) -> Result<(), AllocError> {
        if self.work > MOST_WORK {
            let unopened = self.gathered.findings.unopened;
            self.gathered.findings.unopened = unopened.saturating_add(1);
            return Ok(());
        }
        self.cover(&part.name)?;
        let netlist = self.gathered.netlist;
        match Wired::of(netlist.alloc, netlist.parts, &part.name) {
            Ok(wired) => self.wire(part, &wired),
            Err(ElabError::Memory) => Err(AllocError),
            Err(error) if is_of_copies(error) => self.gathered.refuse(&part.name, error, None),
            Err(error) => self.open_mended(part, error),
        }
    }

    // Opens a part that has no net, without the components that are at fault.
    fn open_mended(&mut self, part: &Part, error: ElabError) -> Result<(), AllocError> {
        let wired = match &self.mended {
            Some(mended) => mended.wired(self.gathered.netlist, &part.name),
            None => Err(error),
        };
        match wired {
            Ok(wired) => self.wire(part, &wired),
            Err(ElabError::Memory) => Err(AllocError),
            Err(error) if is_of_copies(error) => self.gathered.refuse(&part.name, error, None),
            // (the faults of components were told before)
            Err(_) => Ok(()),
        }
    }

    fn cover(&mut self, name: &[u8]) -> Result<(), AllocError> {
        let marks = marks_of(self.gathered.netlist, name)?;
        for (place, is_reached) in marks.iter().enumerate() {
            if *is_reached {
                set(&mut self.covered, place);
            }
        }
        self.work = self.work.saturating_add(marks.len());
        Ok(())
    }

    // A part that has components.
    fn wire(&mut self, part: &Part, wired: &Wired) -> Result<(), AllocError> {
        self.gathered
            .refuse_ends(&part.name, wired, self.mended.as_ref())?;
        let size = wired.comps.len().saturating_add(wired.places.chans().len());
        self.work = self.work.saturating_add(size);
        mark_reached(
            self.gathered.netlist.alloc,
            &part.ports,
            wired,
            &mut self.reached,
        )
    }
}

// Whether copies are at fault: that there is one within itself, or too many.
fn is_of_copies(error: ElabError) -> bool {
    matches!(
        error,
        ElabError::Recursive(_) | ElabError::TooDeep | ElabError::TooBig
    )
}
