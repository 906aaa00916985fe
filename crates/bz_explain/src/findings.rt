//! Findings in a netlist, which are told beside one another.
//!
//! At most 20 are written where no other number is asked for, as compilers do: who mends these sees the others change. They are
//! asked of the same functions that refuse: of each component its own first fault, and of a net all ends that are wrong. Another
//! fault of a component shows once the first is mended.

use crate::mended::Mended;
use crate::refusals::explain_refusal;
use crate::site::NetlistText;
use crate::wired::Wired;
use bz_breeze_records::Part;
use bz_cli_input::{Fault, in_part};
use bz_elab::{CompAt, ElabError, first_fault};
use bz_explain_notes::{Detail, Finding, Findings, Notes, Severity};
use bz_model::Chan;
use bz_text::Text;
use std::alloc::{AllocError, Global};
use std::io::Write;

/// The most findings that are told where no other number is asked for.
pub(crate) const MOST_TOLD: usize = 20;

/// The most components at fault without which ends are looked at.
const MOST_MENDED: usize = 20;

/// Findings in a netlist while they are gathered, up to the most that are told.
#[derive(Drop)]
pub struct Gathered<'t> {
    pub netlist: NetlistText<'t>,
    pub findings: Findings,
    /// A refusal that is told elsewhere.
    told: Option<ElabError>,
    /// The most findings that are told.
    most: usize,
    /// The components at fault, one more than can be mended at most.
    faulty: Vec<CompAt>,
}

impl<'t> Gathered<'t> {
    /// No findings yet, of which so many are told.
    pub fn new(netlist: NetlistText<'t>, most: usize) -> Gathered<'t> {
        Gathered::beside(netlist, None, most)
    }

    /// The same, where this refusal is told in front of them.
    pub(crate) fn beside(
        netlist: NetlistText<'t>,
        told: Option<ElabError>,
        most: usize,
    ) -> Gathered<'t> {
        Gathered {
            netlist,
            findings: no_findings(netlist.alloc),
            told,
            most,
            faulty: Vec::new(netlist.alloc),
        }
    }

    /// Whether nothing was found in all that was to be looked at.
    pub fn is_empty(&self) -> bool {
        self.findings.list.is_empty() && self.findings.unopened == 0
    }

    /// Whether there is room for one finding more. What is found from then on is counted alone.
    pub fn has_room(&mut self) -> bool {
        let has_room = self.findings.list.len() < self.most;
        if !has_room {
            self.findings.more = self.findings.more.saturating_add(1);
        }
        has_room
    }

    /// One finding more, for which there is room. It stands where its notes say, or else where the part of this name begins.
    pub fn add(
        &mut self,
        severity: Severity,
        line: Text,
        part: &[u8],
        mut notes: Notes,
    ) -> Result<(), AllocError> {
        let place = match notes.place() {
            Some(place) => place,
            None => {
                notes.add_detail(Detail::Part(part));
                self.netlist.place_of_part(part)
            }
        };
        self.findings.list.push(Finding {
            severity,
            line,
            place,
            notes,
        })?;
        Ok(())
    }

    /// A refusal of a part, whose net is at hand where it is one of ends.
    pub fn refuse(
        &mut self,
        asked: &[u8],
        error: ElabError,
        wired: Option<&Wired>,
    ) -> Result<(), AllocError> {
        if self.told == Some(error) || !self.has_room() {
            return Ok(());
        }
        let netlist = self.netlist;
        let mut notes = Notes::on(netlist.alloc, netlist.file);
        explain_refusal(&mut notes, netlist, asked, error, wired);
        let fault = in_part(netlist.alloc, netlist.parts.list(), asked, error);
        let line = line_of(netlist.alloc, &fault);
        self.add(Severity::Fault, line, asked, notes)
    }

    /// The first refusal of each component of the marked parts, in the order of the text.
    pub fn refuse_components(&mut self, marks: &[bool]) -> Result<(), AllocError> {
        let mut carried = Vec::new(self.netlist.alloc);
        for (number, part) in self.netlist.parts.list().iter().enumerate() {
            if marks.get(number).copied().unwrap_or(false) {
                self.refuse_part(number, part, &mut carried)?;
            }
        }
        Ok(())
    }

    fn refuse_part(
        &mut self,
        number: usize,
        part: &Part,
        carried: &mut Vec<Chan>,
    ) -> Result<(), AllocError> {
        let NetlistText { alloc, parts, .. } = self.netlist;
        for (place, component) in part.components.iter().enumerate() {
            let fault = first_fault(alloc, parts, &part.channels, component, carried)?;
            if let Some(fault) = fault {
                let at = CompAt {
                    part: number,
                    position: place + 1,
                };
                if self.faulty.len() <= MOST_MENDED {
                    self.faulty.push(at)?;
                }
                self.refuse(&part.name, fault.at(at), None)?;
            }
        }
        Ok(())
    }

    /// The netlist without the components that were found to be at fault; none where nothing would be left to tell of it.
    pub fn mended(&self) -> Result<Option<Mended>, AllocError> {
        if self.faulty.is_empty() || self.faulty.len() > MOST_MENDED {
            return Ok(None);
        }
        Mended::of(self.netlist, &self.faulty)
    }

    /// What is wrong with the ends of channels in the net of a part, whatever the components at fault turn out to be.
    pub fn refuse_ends(
        &mut self,
        asked: &[u8],
        wired: &Wired,
        mended: Option<&Mended>,
    ) -> Result<(), AllocError> {
        for error in &wired.faults {
            let is_certain = match mended {
                Some(mended) => mended.is_certain(wired, *error),
                None => true,
            };
            if is_certain {
                self.refuse(asked, *error, Some(wired))?;
            }
        }
        Ok(())
    }
}

/// Nothing that was found.
pub(crate) fn no_findings(alloc: Global) -> Findings {
    Findings {
        list: Vec::new(alloc),
        more: 0,
        unopened: 0,
    }
}

/// What a fault writes of itself.
pub(crate) fn line_of(alloc: Global, fault: &Fault) -> Text {
    let mut line = Text::new(alloc);
    let _ = write!(line, "{fault}");
    line
}
