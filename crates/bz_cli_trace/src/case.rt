//! A netlist and a trace that was judged on its net: what every command on a trace begins with.

ghost use Rattle.std.specs.Prelude.{◌≡◌, ◌⊎◌, [], false, IfErr, IfOk, IfSome};
ghost use Rattle.std.specs.Option.{option_copied};
ghost use Rattle.bz_trace.specs.Watching.{ShowsTrace};
ghost use Rattle.bz_cli_input.specs.Opening.{RefusesNet};
ghost use Rattle.bz_cli_input.specs.Stopping.{IsOfInput};
ghost use Rattle.bz_cli_trace.specs.Judging.{IsCase, is_run, passes};

use crate::finding::Finding;
use crate::judged::{Judged, judge};
use crate::opened::Opened;
use crate::way::CheckWay;
use bz_cli_input::Fault;
use bz_flat::Flat;
use bz_net::Play;
use bz_source::Source;
use bz_trace::{KeptLines, Verdict, Watch};
use std::alloc::{AllocError, Global};
use std::io::Read;
use std::mem;

/// A trace that was judged on the net of a part of a netlist.
pub struct Case {
    pub judged: Judged,
    /// The text that the net comes of.
    pub source: Source,
    /// The name of the part whose net it is.
    pub part: Vec<u8>,
}

// By hand, so that who lets one go has one call to show and not all its parts.
impl Drop for Case {
    fn drop(self) {
        let Case {
            judged: _,
            source: _,
            part: _,
        } = self;
    }
}

impl Case {
    /// Judges the trace that a reader gives on the net of a part of the netlist. Who watches sees each entry, and the net behind it.
    pub fn of<T: Read, S: Watch>(
        alloc: Global,
        asked: Option<&[u8]>,
        netlist: &[u8],
        trace: &mut T,
        way: CheckWay,
        watch: &mut S,
    ) -> Result<Case, Fault>
        ensures ok { IfOk result (λ case. IfSome (T.remaining trace.old) (λ text.
            IsCase way.to_first way.to_rest netlist.now text (option_copied asked.entry) case)) }

        // Of the trace of a run who watches has seen all entries, and no others.
        ensures watches { IfOk result (λ case. IfSome (T.remaining trace.old) (λ text. case.judged.found.verdict ≡ Verdict.Run
            → ShowsTrace S.behind case.judged.net.wiring [] text watch.new)) }
        ensures err { IfErr result (λ fault. IsOfInput fault ⊎ RefusesNet netlist.now (option_copied asked.entry) fault) }
    {
        let (net, source, part) = match Opened::of(alloc, asked, netlist) {
            Ok(opened) => opened.into_parts(),
            Err(fault) => return Err(fault),
        };
        match judge(alloc, net, trace, way, watch) {
            Ok(judged) => Ok(Case {
                judged,
                source,
                part,
            }),
            Err(fault) => Err(fault),
        }
    }

    /// What was found of the trace.
    pub fn found(&self) -> Finding
        ensures { result ≡ self.now.judged.found }
    {
        self.judged.found
    }

    /// Whether the trace is that of a run.
    pub fn is_run(&self) -> bool
        ensures { result ≡ is_run self.now.judged.found.verdict }
    {
        self.judged.is_run()
    }

    /// Whether the trace is that of a run, which ends at rest where it was to.
    pub fn passes(&self) -> bool
        ensures { result ≡ passes self.now }
    {
        self.judged.found.passes()
    }

    /// The line that the verdict names, where it was to be kept. None is left.
    pub fn take_kept(&mut self, alloc: Global) -> KeptLines {
        mem::replace(&mut self.judged.kept, KeptLines::new(alloc, false))
    }

    /// The net, the text that it comes of, and the name of its part.
    pub fn into_parts(self) -> (Play, Source, Vec<u8>)
        ensures net { result.0 ≡ self.judged.net }
        ensures source { result.1 ≡ self.source }
        ensures part { result.2 ≡ self.part }
    {
        let Case {
            judged,
            source,
            part,
        } = self;
        (judged.into_net(), source, part)
    }

    /// The same of the flat net, whose names and channels are copied. Where memory is refused, all of it is gone.
    pub fn into_flat(self, alloc: Global) -> Result<(Flat, Source, Vec<u8>), AllocError>
        ensures net { IfOk result (λ r. r.0.wiring ≡ self.judged.net.wiring) }
        ensures source { IfOk result (λ r. r.1 ≡ self.source) }
        ensures part { IfOk result (λ r. r.2 ≡ self.part) }
    {
        let (net, source, part) = self.into_parts();
        match net.into_flat(alloc) {
            Ok(flat) => Ok((flat, source, part)),
            Err(fault) => Err(fault),
        }
    }
}
