//! A trace that was judged on the net of a part of a netlist, of which no survey is made: that would take much of a large one.

ghost use Rattle.std.specs.Prelude.{◌≡◌, ◌⊎◌, [], IfErr, IfOk, IfSome};
ghost use Rattle.std.specs.Option.{option_copied};
ghost use Rattle.bz_model.specs.Limits.{max_entries};
ghost use Rattle.bz_net.specs.Progress.{IsToldBy};
ghost use Rattle.bz_trace.specs.Watching.{ShowsTrace};
ghost use Rattle.bz_trace.specs.declared.checking.Verdict.TheVariants as verdict;
ghost use Rattle.bz_cli_input.specs.Opening.{Denotes, RefusesNet};
ghost use Rattle.bz_cli_input.specs.Stopping.{IsOfInput};
ghost use Rattle.bz_cli_trace.specs.Judging.{IsFound, entry_count, is_run};

use bz_breeze_records::Parts;
use bz_cli_input::{Fault, Netlist};
use bz_cli_trace::{Case, CheckWay, Judged, judge};
use bz_net::Play;
use bz_source::{PartLines, PartPieces, Records, Source, lines_of, pieces_of};
use bz_trace::{MAX_ENTRIES, Watch};
use std::alloc::{AllocError, Global};
use std::io::Read;

/// What is kept of a netlist whose net was opened: its parts, where their records are, and the name of the part.
#[derive(Drop)]
pub(crate) struct Kept {
    parts: Parts,
    pieces: Vec<PartPieces>,
    /// The lines of the records, where notes may be wanted; else none.
    lines: Vec<PartLines>,
    name: Vec<u8>,
}

/// A trace that was judged on the net of a netlist.
pub struct Played {
    pub judged: Judged,
    pub(crate) kept: Kept,
}

// By hand, so that who lets one go has one call to show and not all its parts.
impl Drop for Played {
    fn drop(self) {
        let Played { judged: _, kept: _ } = self;
    }
}

impl Played {
    /// Judges the trace that a reader gives on the net of a part of the netlist. Who watches sees each entry, and the net behind it.
    pub fn of<T: Read, S: Watch>(
        alloc: Global,
        asked: Option<&[u8]>,
        netlist: &[u8],
        trace: &mut T,
        way: CheckWay,
        watch: &mut S,
    ) -> Result<Played, Fault>
        ensures net { IfOk result (λ played. Denotes netlist.now (option_copied asked.entry) played.judged.net.wiring) }
        ensures found { IfOk result (λ played. IfSome (T.remaining trace.old) (λ text.
            IsFound way.to_first way.to_rest played.judged.net.wiring text played.judged)) }
        ensures watches { IfOk result (λ played. IfSome (T.remaining trace.old) (λ text. played.judged.found.verdict ≡ verdict.Run
            → ShowsTrace S.behind played.judged.net.wiring [] text watch.new)) }
        ensures err { IfErr result (λ fault. IsOfInput fault ⊎ RefusesNet netlist.now (option_copied asked.entry) fault) }
    {
        let (net, kept) = match open(alloc, asked, netlist, way.keeps) {
            Ok(opened) => opened,
            Err(fault) => return Err(fault),
        };
        match judge(alloc, net, trace, way, watch) {
            Ok(judged) => Ok(Played { judged, kept }),
            Err(fault) => Err(fault),
        }
    }

    /// Whether the trace is that of a run.
    pub fn is_run(&self) -> bool
        ensures { result ≡ is_run self.now.judged.found.verdict }
    {
        self.judged.is_run()
    }

    /// The same as any command has it, for notes on the trace.
    pub fn into_case(self) -> Case
        ensures { result.judged ≡ self.judged }
    {
        let Played { judged, kept } = self;
        let Kept {
            parts,
            pieces: _,
            lines,
            name,
        } = kept;
        Case {
            judged,
            source: Source { parts, lines },
            part: name,
        }
    }

    /// The net, and the records of its netlist, which was this text; and how many entries the run has.
    pub(crate) fn into_parts<'t>(
        self,
        alloc: Global,
        netlist: &'t [u8],
    ) -> Result<(Play, Records<'t>, usize), AllocError>
        ensures net { IfOk result (λ r. r.0 ≡ self.judged.net) }
        ensures entries { IfOk result (λ r. r.2 ≡ entry_count self.judged.found.counts) }
    {
        let Played { judged, kept } = self;
        let Kept {
            parts,
            pieces,
            lines: _,
            name,
        } = kept;
        let records = Records::of(alloc, netlist, parts, pieces, name.as_slice())?;
        let entries = judged.found.entries();
        Ok((judged.into_net(), records, entries))
    }
}

// The net of a part of the netlist at its opening, and what is kept of the netlist. Nothing is kept of the data that it spells.
fn open(
    alloc: Global,
    asked: Option<&[u8]>,
    netlist: &[u8],
    keeps: bool,
) -> Result<(Play, Kept), Fault>
    ensures net { IfOk result (λ r. Denotes netlist.now (option_copied asked.entry) r.0.wiring) }
    ensures opened { IfOk result (λ r. IsToldBy r.0 []) }
    ensures left { IfOk result (λ r. r.0.left ≡ max_entries) }
    ensures err { IfErr result (RefusesNet netlist.now (option_copied asked.entry)) }
{
    let forest = bz_sexpr::read_forest(alloc, netlist)?;
    let parts = bz_breeze::parts_of(alloc, forest.forms())?;
    let pieces = pieces_of(alloc, forest.forms())?;
    let lines = if keeps {
        lines_of(alloc, netlist, forest.forms())?
    } else {
        Vec::new(alloc)
    };
    drop(forest);
    let read = Netlist { parts };
    let name = read.name(alloc, asked)?;
    let flat = read.net(alloc, name.as_slice())?;
    let parts = read.parts;
    let kept = Kept {
        parts,
        pieces,
        lines,
        name,
    };
    match Play::open(alloc, flat, MAX_ENTRIES as u32) {
        Ok(net) => Ok((net, kept)),
        Err(_) => Err(Fault::Memory),
    }
}
