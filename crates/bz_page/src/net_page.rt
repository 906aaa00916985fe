//! A page of a net and its trace.
//!
//! `put_page` takes any trace and a net that is at hand, for who made the trace with it; what `page` checks it doesn't check.
//! The list and the rows are put together in memory before anything goes out, so nothing is written where memory is refused;
//! the trace is escaped as it goes out, in stretches between bytes that are.

ghost use Rattle.std.specs.Prelude.{◌≡◌, ◌≤◌, ◌++◌, IfOk, OnOk, OnErr, length};
ghost use Rattle.std.specs.Io.KnownBytes.{Appends};
ghost use Rattle.bz_cli_input.specs.Stopping.{AppendsSome};
ghost use Rattle.bz_cli_source.specs.Listing.{paths_text};
ghost use Rattle.bz_page.specs.Pages.{blank, blank_of, page_text};
ghost use Rattle.bz_page.specs.Paging.{PagesNet};
ghost use Rattle.bz_page.specs.Sources.{files_rows};

use crate::around::{Template, put_around};
use crate::rows::rows_of;
use crate::sources::told_rows;
use crate::template::{HEAD, MID1, MID2, TAIL};
use bz_cli_input::Fault;
use bz_cli_source::put_paths;
use bz_flat::Pieces;
use bz_source::{SourceFile, Survey};
use bz_text::WriteFault;
use std::alloc::{AllocError, Global};
use std::io::Write;

/// The template of all pages.
pub(crate) fn template() -> Template<'static>
    ensures { blank_of result ≡ blank HEAD.now MID1.now MID2.now TAIL.now }
{
    Template {
        head: HEAD,
        before_rows: MID1,
        before_trace: MID2,
        tail: TAIL,
    }
}

/// Writes a page on which a trace plays on the drawing of a net. `ends` are lines that tell how the run ended, each with `end` in
/// front; the trace is taken as it is. Nothing is written where memory is refused.
pub fn put_page<W: Write>(
    alloc: Global,
    part: &[u8],
    net: &Pieces,
    survey: &Survey,
    trace: &[u8],
    ends: &[u8],
    output: &mut W,
) -> Result<(), Fault>
    requires { length net.now.comps ≤ 1000000 }
    ensures { PagesNet (blank HEAD.now MID1.now MID2.now TAIL.now) part.now net.now survey.now trace.now ends.now (W.contents output.old) (W.contents output.new) result }
{
    put_net_page(alloc, template(), part, net, survey, trace, ends, output)
}

/// The same around another template, with files of the source before the lines that tell how the run ended.
pub(crate) fn put_told_page<W: Write>(
    alloc: Global,
    template: Template<'_>,
    part: &[u8],
    net: &Pieces,
    survey: &Survey,
    trace: &[u8],
    files: &[SourceFile],
    ends: &[u8],
    output: &mut W,
) -> Result<(), Fault>
    requires { length net.now.comps ≤ 1000000 }
    ensures { PagesNet (blank_of template.entry) part.now net.now survey.now trace.now (files_rows files.now ++ ends.now) (W.contents output.old) (W.contents output.new) result }
{
    let told = told_rows(alloc, files, ends);
    let Ok(told) = told.whole() else {
        return Err(Fault::Memory);
    };
    put_net_page(alloc, template, part, net, survey, trace, told, output)
}

// The same without files.
fn put_net_page<W: Write>(
    alloc: Global,
    template: Template<'_>,
    part: &[u8],
    net: &Pieces,
    survey: &Survey,
    trace: &[u8],
    ends: &[u8],
    output: &mut W,
) -> Result<(), Fault>
    requires { length net.now.comps ≤ 1000000 }
    ensures { PagesNet (blank_of template.entry) part.now net.now survey.now trace.now ends.now (W.contents output.old) (W.contents output.new) result }
{
    let Ok(list) = list_of(alloc, part, net, survey) else {
        return Err(Fault::Memory);
    };
    let rows = rows_of(alloc, net, survey, ends);
    let Ok(rows) = rows.whole() else {
        return Err(Fault::Memory);
    };
    match write_out(output, template, list.as_slice(), rows, trace) {
        Ok(()) => Ok(()),
        Err(WriteFault) => Err(Fault::Write),
    }
}

// What `list --paths` writes of a net.
fn list_of(alloc: Global, part: &[u8], net: &Pieces, survey: &Survey) -> Result<Vec<u8>, AllocError>
    requires { length net.now.comps ≤ 1000000 }
    ensures { IfOk result (λ list. list.items ≡ paths_text net.now survey.now part.now) }
{
    let mut list = Vec::new(alloc);
    match put_paths(&mut list, part, net, survey) {
        Ok(()) => Ok(list),
        // a vector is refused for memory alone
        Err(WriteFault) => Err(AllocError),
    }
}

// Writes a page, down to the last byte.
fn write_out<W: Write>(
    output: &mut W,
    template: Template<'_>,
    list: &[u8],
    rows: &[u8],
    trace: &[u8],
) -> Result<(), WriteFault>
    ensures ok { OnOk result (Appends (W.contents output.old) (W.contents output.new) (page_text (blank_of template.entry) list.now rows.now trace.now)) }
    ensures err { OnErr result (AppendsSome (W.contents output.old) (W.contents output.new) (page_text (blank_of template.entry) list.now rows.now trace.now)) }
{
    put_around(output, template, list, rows, trace)?;
    match output.flush() {
        Ok(()) => Ok(()),
        Err(_) => Err(WriteFault),
    }
}
