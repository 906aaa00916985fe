//! The command `page`: a page of the run of a net.
//!
//! That a net is too large is said only of a run. 100,000 components are the most, since the
//! text of `list --paths` has some 200 bytes for each, and a browser reads all of it as it opens. A trace has no limit but
//! that of the input.

ghost use Rattle.std.specs.Prelude.{◌≡◌, IfOk};
ghost use Rattle.bz_page.specs.Pages.{blank, blank_of};
ghost use Rattle.bz_page.specs.Paging.{IsInPieces, PagesCase, Places};

use crate::around::Template;
use crate::ends::Ended;
use crate::fault::TooLarge;
use crate::net_page::{put_told_page, template};
use crate::template::{HEAD, MID1, MID2, TAIL};
use bz_cli_input::Fault;
use bz_cli_trace::{Case, Unmade};
use bz_flat::Pieces;
use bz_net::Play;
use bz_source::{SourceFile, Survey, tell_unnamed};
use std::alloc::{AllocError, Global};
use std::io::Write;

/// The most components of a net that a page holds.
const MOST_COMPS: usize = 100_000;

/// Writes a page on which the trace of a run plays, with these files of the source. Nothing is written where there is no page. Of a page
/// that was written it goes to `errors` which of the files no place of the net names.
pub fn page<W: Write, E: Write>(
    alloc: Global,
    files: &[SourceFile],
    case: Case,
    trace: &[u8],
    output: &mut W,
    errors: &mut E,
) -> Result<(), Unmade<TooLarge>>
    ensures { PagesCase (blank HEAD.now MID1.now MID2.now TAIL.now) case trace.now files.now (W.contents output.old) (W.contents output.new) result }
{
    page_by(alloc, template(), files, case, trace, output, errors)
}

// The same by a template.
fn page_by<W: Write, E: Write>(
    alloc: Global,
    template: Template<'_>,
    files: &[SourceFile],
    case: Case,
    trace: &[u8],
    output: &mut W,
    errors: &mut E,
) -> Result<(), Unmade<TooLarge>>
    ensures { PagesCase (blank_of template.entry) case trace.now files.now (W.contents output.old) (W.contents output.new) result }
{
    let (net, survey, part, ends) = match place(alloc, case, trace) {
        Ok(found) => found,
        Err(fault) => return Err(fault),
    };
    let part = part.as_slice();
    match put_told_page(
        alloc, template, part, &net, &survey, trace, files, &ends, output,
    ) {
        Ok(()) => {
            tell_unnamed(alloc, files, &survey, errors);
            Ok(())
        }
        Err(fault) => Err(Unmade::Command(fault)),
    }
}

// A net in its pieces, where everything in it is, the name of its part, and how the run ended, unless it is too large for a
// page.
fn place(
    alloc: Global,
    case: Case,
    trace: &[u8],
) -> Result<(Pieces, Survey, Vec<u8>, Vec<u8>), Unmade<TooLarge>>
    ensures { Places case result }
{
    let (net, source, part) = case.into_parts();
    let comps = net.core().comp_count() as usize;
    if comps > MOST_COMPS {
        return Err(Unmade::Other(TooLarge { comps }));
    }
    // a part that has a net has places, so nothing but memory can be wanting
    let survey = match source.survey(alloc, part.as_slice()) {
        Ok(survey) => survey,
        Err(_) => return Err(Unmade::Command(Fault::Memory)),
    };
    match take_apart(alloc, net, &survey, trace) {
        Ok((net, ends)) => Ok((net, survey, part, ends)),
        Err(AllocError) => Err(Unmade::Command(Fault::Memory)),
    }
}

// A net in its pieces, and how the run ended.
fn take_apart(
    alloc: Global,
    net: Play,
    survey: &Survey,
    trace: &[u8],
) -> Result<(Pieces, Vec<u8>), AllocError>
    ensures { IfOk result (λ found. IsInPieces net.wiring found.0) }
{
    let ended = Ended::of(alloc, net.core(), survey)?;
    let flat = net.into_flat(alloc)?;
    let ends = ended.lines(alloc, &flat, trace)?;
    Ok((flat.into_pieces(), ends))
}
