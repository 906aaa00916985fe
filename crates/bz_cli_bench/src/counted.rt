//! What the plays of benches have exercised of their nets.

ghost use Rattle.std.specs.Prelude.{◌≡◌, false, true, is_some, IfOk};

use crate::asked::Trial;
use crate::files::{BenchFiles, FileFault};
use crate::nets::{Found, Nets};
use crate::opened::Opened;
use crate::traces::tell_line;
use bz_cli_input::Fault;
use bz_cover::{Coverage, Report, count_entries, put_lcov, put_report, put_summary};
use bz_net::{Net, Play};
use bz_text::{Piece as Part, Text};
use bz_view::{Piece, Seen};
use std::alloc::{AllocError, Global};
use std::io::Write;

/// What the plays on a net have exercised of it, and how many plays there were.
pub(crate) struct Counted {
    coverage: Option<Coverage>,
    plays: usize,
}

// By hand, so that who lets one go has one call to show and not all its parts.
impl Drop for Counted {
    fn drop(self) {
        let Counted {
            coverage: _,
            plays: _,
        } = self;
    }
}

impl Counted {
    /// There was no play yet.
    pub(crate) fn none() -> Counted {
        Counted {
            coverage: None,
            plays: 0,
        }
    }

    /// Counts a play that led to a net.
    pub(crate) fn add(&mut self, alloc: Global, net: &Net) -> Result<(), AllocError> {
        let mut coverage = match self.coverage.take() {
            Some(coverage) => coverage,
            None => Coverage::new(alloc, net.core())?,
        };
        count_entries(&mut coverage, net.journal());
        self.coverage = Some(coverage);
        self.plays = self.plays.saturating_add(1);
        Ok(())
    }
}

/// Writes what all plays exercised to the file that is named for it, net by net, and a few lines of each to `errors`. Whether it
/// was written, where that is asked for and something was played.
pub(crate) fn tell_counted<F: BenchFiles, E: Write>(
    trial: Trial<'_>,
    nets: &Nets,
    files: &mut F,
    errors: &mut E,
) -> Result<bool, Fault>
    ensures { is_some trial.entry.asked.cover ≡ false → IfOk result (λ is_written. is_written ≡ true) }
{
    let Some(path) = trial.asked.cover else {
        return Ok(true);
    };
    let is_lcov = path.ends_with(".info");
    let mut report = Text::new(trial.alloc);
    let mut summary = Text::new(trial.alloc);
    match put_nets(trial, nets, is_lcov, &mut report, &mut summary) {
        Ok(()) => make(trial, path, &report, &summary, files, errors),
        Err(fault) => Err(fault),
    }
}

// Makes the file of a report, if that has something, and then tells the summary. Whether it was made.
fn make<F: BenchFiles, E: Write>(
    trial: Trial<'_>,
    path: &str,
    report: &Text,
    summary: &Text,
    files: &mut F,
    errors: &mut E,
) -> Result<bool, Fault> {
    let report = report.whole()?;
    if report.is_empty() {
        return Ok(true);
    }
    match files.make(path, report) {
        Ok(()) => {
            let _ = bz_text::put(errors, summary.whole()?);
            Ok(true)
        }
        Err(FileFault::Memory) => Err(Fault::Memory),
        Err(FileFault::Cause(why)) => {
            tell_line(trial.alloc, "--cover", path, why, errors);
            Ok(false)
        }
    }
}

// Adds what was exercised of each net.
fn put_nets(
    trial: Trial<'_>,
    nets: &Nets,
    is_lcov: bool,
    report: &mut Text,
    summary: &mut Text,
) -> Result<(), Fault> {
    for known in nets.all() {
        if let Found::Net(opened) = &known.found {
            let name = known.label.as_slice();
            put_net(
                trial,
                name,
                opened,
                &known.counted,
                is_lcov,
                report,
                summary,
            )?;
        }
    }
    Ok(())
}

// Adds what was exercised of a net, where it was played on.
fn put_net(
    trial: Trial<'_>,
    name: &[u8],
    opened: &Opened,
    counted: &Counted,
    is_lcov: bool,
    text: &mut Text,
    summary: &mut Text,
) -> Result<(), Fault> {
    let Some(coverage) = &counted.coverage else {
        return Ok(());
    };
    let Ok(flat) = opened.flat().dup(trial.alloc) else {
        return Err(Fault::Memory);
    };
    let Ok(net) = Play::open(trial.alloc, flat, 1) else {
        return Err(Fault::Memory);
    };
    let report = Report {
        seen: Seen::of(net.core(), opened.survey()),
        coverage,
        traces: counted.plays,
        name: Some(name),
    };
    summary.put_pieces(&[Part::File(name), Part::Bytes(b": ")]);
    put_summary(summary, report);
    let put = if is_lcov {
        put_lcov(trial.alloc, text, report)
    } else {
        put_report(trial.alloc, text, report)
    };
    match put {
        Ok(()) => Ok(()),
        Err(_) => Err(Fault::Memory),
    }
}
