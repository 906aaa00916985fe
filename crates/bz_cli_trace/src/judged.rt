//! A trace that was judged, and the net that it was judged on.

ghost use Rattle.std.specs.Prelude.{◌≡◌, [], IfErr, IfOk, IfSome};
ghost use Rattle.bz_model.specs.Limits.{max_entries};
ghost use Rattle.bz_net.specs.Progress.{IsToldBy};
ghost use Rattle.bz_trace.specs.Watching.{ShowsTrace};
ghost use Rattle.bz_cli_input.specs.Stopping.{IsOfInput};
ghost use Rattle.bz_cli_trace.specs.Judging.{IsFound, TellsRest, is_run};

use crate::finding::Finding;
use crate::way::CheckWay;
use bz_cli_input::Fault;
use bz_net::Play;
use bz_trace::{KeptLines, ReadFault, Verdict, Watch, check_read};
use std::alloc::Global;
use std::io::Read;

/// What was found of a trace, and the net that it was judged on.
pub struct Judged {
    pub found: Finding,
    /// Where the trace ends that is that of a run, or before the line that no run allows.
    pub net: Play,
    /// The line that the verdict names, where it was to be kept.
    pub kept: KeptLines,
}

// Written by hand: callers then prove one drop instead of one for each field.
impl Drop for Judged {
    fn drop(self) {
        let Judged {
            found: _,
            net: _,
            kept: _,
        } = self;
    }
}

impl Judged {
    /// Whether the trace is that of a run.
    pub fn is_run(&self) -> bool
        ensures { result ≡ is_run self.now.found.verdict }
    {
        matches!(self.found.verdict, Verdict::Run)
    }

    /// What was found, the net, and what was kept.
    pub fn into_parts(self) -> (Finding, Play, KeptLines)
        ensures found { result.0 ≡ self.found }
        ensures net { result.1 ≡ self.net }
    {
        let Judged { found, net, kept } = self;
        (found, net, kept)
    }

    /// The net.
    pub fn into_net(self) -> Play
        ensures { result ≡ self.net }
    {
        let Judged {
            found: _,
            net,
            kept: _,
        } = self;
        net
    }
}

/// Judges a trace that a reader gives on a net at its opening. It may be longer than memory. Who watches sees each entry, and the net
/// behind it.
pub fn judge<T: Read, S: Watch>(
    alloc: Global,
    net: Play,
    trace: &mut T,
    way: CheckWay,
    watch: &mut S,
) -> Result<Judged, Fault>
    requires opened { IsToldBy net [] }
    requires left { net.left ≡ max_entries }
    ensures found { IfOk result (λ judged. IfSome (T.remaining trace.old) (λ text.
        IsFound way.to_first way.to_rest net.wiring text judged)) }
    ensures wiring { IfOk result (λ judged. judged.net.wiring ≡ net.wiring) }

    // Of the trace of a run who watches has seen all entries, and no others.
    ensures watches { IfOk result (λ judged. IfSome (T.remaining trace.old) (λ text. judged.found.verdict ≡ Verdict.Run
        → ShowsTrace S.behind net.wiring [] text watch.new)) }
    ensures err { IfErr result IsOfInput }
{
    let mut net = net;
    watch.begin(alloc, &net);
    let mut kept = KeptLines::new(alloc, way.keeps);
    match check_read(alloc, &mut net, trace, way.to_first, &mut kept, watch) {
        Ok(said) => {
            let unrested = moves_on(&net, said.verdict, way.to_rest);
            let found = Finding {
                verdict: said.verdict,
                counts: said.counts,
                early: said.early,
                unrested,
            };
            Ok(Judged { found, net, kept })
        }
        Err(fault) => Err(fault_of(fault)),
    }
}

/// Why a trace could not be read, as a command's fault.
pub(crate) fn fault_of(fault: ReadFault) -> Fault
    ensures { IsOfInput result }
{
    match fault {
        ReadFault::Read | ReadFault::TooLong => Fault::Read,
        ReadFault::Memory => Fault::Memory,
    }
}

/// Whether a trace is that of a run that was to end at rest, and doesn't: the net is where it ends.
pub(crate) fn moves_on(net: &Play, verdict: Verdict, to_rest: bool) -> bool
    ensures { TellsRest to_rest verdict net.now result }
{
    if !to_rest {
        return false;
    }
    match verdict {
        Verdict::Run => net.core().next_ready(1).is_some(),
        _ => false,
    }
}
