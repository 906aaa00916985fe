//! What runs have exercised of their net, as a report and a few lines of it. It was counted while they were played, or while
//! their traces were judged.

use bz_cli_args::{Given, netlist_in};
use bz_cli_input::Fault;
use bz_cli_source::survey_of;
use bz_cli_trace::{Case, Opened};
use bz_cover::{Counted, Coverage, Report, put_lcov, put_report, put_summary};
use bz_net::{Core, Play};
use bz_source::Source;
use bz_text::Text;
use bz_view::Seen;
use std::alloc::Global;

/// What a run has exercised: what was counted of it, unless memory was wanting for that, and the net as it was left, where it
/// is at hand.
#[derive(Drop)]
pub struct Exercised<'n> {
    pub coverage: Option<Coverage>,
    pub net: Option<&'n Core>,
}

/// What is told of what was exercised: a report, and a few lines of it.
pub struct Covered {
    pub report: Text,
    pub summary: Text,
}

// By hand, so that who lets one go has one call to show and not all its parts.
impl Drop for Covered {
    fn drop(self) {
        let Covered {
            report: _,
            summary: _,
        } = self;
    }
}

impl Covered {
    // Memory was wanting for it.
    fn lost(alloc: Global) -> Covered {
        let mut report = Text::new(alloc);
        report.lose();
        Covered {
            report,
            summary: Text::new(alloc),
        }
    }
}

/// What the run of a command has exercised, of which this was judged or counted; `input` is what was read, where it was kept.
/// Where it could not be counted, nor the input be kept, memory was wanting for them.
pub fn cover_of_run(
    alloc: Global,
    given: &Given<'_, '_>,
    input: Option<&[u8]>,
    case: Option<Case>,
    run: Exercised<'_>,
) -> Result<Covered, Fault> {
    let (Some(coverage), Some(input)) = (run.coverage, input) else {
        return Err(Fault::Memory);
    };
    let netlist = netlist_in(given.command, input);
    let is_lcov = given.command.cover_file().unwrap_or("").ends_with(".info");
    match (case, run.net) {
        (Some(case), _) => {
            let (net, source, part) = case.into_parts();
            covered_by(alloc, net, source, part.as_slice(), &coverage, is_lcov)
        }
        (None, Some(core)) => {
            let (_, survey, _) = survey_of(alloc, given.part, netlist)?;
            covered_of(alloc, Seen::of(core, &survey), &coverage, 1, is_lcov)
        }
        (None, None) => {
            let (net, source, part) = Opened::of(alloc, given.part, netlist)?.into_parts();
            covered_by(alloc, net, source, part.as_slice(), &coverage, is_lcov)
        }
    }
}

// The same of a net whose netlist was this one.
fn covered_by(
    alloc: Global,
    net: Play,
    source: Source,
    part: &[u8],
    coverage: &Coverage,
    is_lcov: bool,
) -> Result<Covered, Fault> {
    match source.survey(alloc, part) {
        Ok(survey) => covered_of(alloc, Seen::of(net.core(), &survey), coverage, 1, is_lcov),
        Err(_) => Err(Fault::Memory),
    }
}

// What is written of what so many traces have exercised.
fn covered_of<'r>(
    alloc: Global,
    seen: Seen<'r>,
    coverage: &'r Coverage,
    traces: usize,
    is_lcov: bool,
) -> Result<Covered, Fault> {
    let report = Report {
        seen,
        coverage,
        traces,
        name: None,
    };
    let mut covered = Covered {
        report: Text::new(alloc),
        summary: Text::new(alloc),
    };
    put_summary(&mut covered.summary, report);
    let put = if is_lcov {
        put_lcov(alloc, &mut covered.report, report)
    } else {
        put_report(alloc, &mut covered.report, report)
    };
    match put {
        Ok(()) => Ok(covered),
        Err(_) => Err(Fault::Memory),
    }
}

/// What the traces of a call have exercised so far of one net.
pub(crate) struct Exercise {
    /// The counts, unless memory was wanting for some of them.
    coverage: Option<Coverage>,
    traces: usize,
}

// By hand, so that who lets one go has one call to show and not all its parts.
impl Drop for Exercise {
    fn drop(self) {
        let Exercise {
            coverage: _,
            traces: _,
        } = self;
    }
}

impl Exercise {
    /// Of this net nothing was exercised yet.
    pub(crate) fn open(alloc: Global, net: &Core) -> Exercise {
        Exercise {
            coverage: Coverage::new(alloc, net).ok(),
            traces: 0,
        }
    }

    /// One more trace is that of a run, of which this was counted.
    pub(crate) fn add(&mut self, counted: Counted) {
        self.traces = self.traces.saturating_add(1);
        let is_added = match (&mut self.coverage, counted.into_coverage()) {
            (Some(coverage), Some(more)) => {
                coverage.add_all(&more);
                true
            }
            _ => false,
        };
        if !is_added {
            self.coverage = None;
        }
    }

    /// What is told of it in a file of this name; where no trace is that of a run, nothing.
    pub(crate) fn told(
        &self,
        alloc: Global,
        seen: Option<Seen<'_>>,
        path: &str,
    ) -> Option<Covered> {
        if self.traces == 0 {
            return None;
        }
        let is_lcov = path.ends_with(".info");
        let told = match (seen, &self.coverage) {
            (Some(seen), Some(coverage)) => {
                covered_of(alloc, seen, coverage, self.traces, is_lcov).ok()
            }
            _ => None,
        };
        match told {
            Some(covered) => Some(covered),
            None => Some(Covered::lost(alloc)),
        }
    }
}
