//! The pieces of one run, each judged as it goes on where the one before ended.

ghost use Rattle.std.specs.Prelude.{◌≡◌, ◌≤◌, List, IfErr, IfOk, IfSome};
ghost use Rattle.bz_model.specs.declared.event.Entry.{Entry};
ghost use Rattle.bz_cli_input.specs.Stopping.{IsOfInput};
ghost use Rattle.bz_cli_trace.specs.Joining.{IsPieceFound};
ghost use Rattle.bz_trace.specs.Pieces.{IsBehind, StandsSomewhere};
ghost use Rattle.bz_trace.specs.Watching.{ShowsTrace};

use crate::finding::Finding;
use crate::judged::{Judged, fault_of, moves_on};
use crate::way::CheckWay;
use bz_cli_input::Fault;
use bz_trace::{Joined, KeptLines, Verdict, Watch};
use std::alloc::Global;
use std::io::Read;

/// Judges the next piece of a run, which a reader gives. Where there may be too many entries before it, it is not read, and that is the
/// fault of a reader.
pub fn judge_piece<T: Read, S: Watch>(
    alloc: Global,
    joined: Joined,
    trace: &mut T,
    is_last: bool,
    way: CheckWay,
    watch: &mut S,
) -> Result<Judged, Fault>
    ensures found { IfOk result (λ judged. (past : List Entry) → IsBehind joined.wiring joined past
        → IfSome (T.remaining trace.old) (λ text. IsPieceFound way.to_first way.to_rest is_last joined.wiring past text judged.net judged.found)) }
    ensures wiring { IfOk result (λ judged. judged.net.wiring ≡ joined.wiring) }
    ensures watches { IfOk result (λ judged. (past : List Entry) → IsBehind joined.wiring joined past → S.behind joined.wiring past watch.old
        → IfSome (T.remaining trace.old) (λ text. judged.found.verdict ≡ Verdict.Run → ShowsTrace S.behind joined.wiring past text watch.new)) }

    // So one piece more can go on there.
    ensures stands { IfOk result (λ judged. StandsSomewhere judged.net) }
    ensures err { IfErr result IsOfInput }
{
    if !joined.has_room() {
        return Err(Fault::Read);
    }
    let mut kept = KeptLines::new(alloc, way.keeps);
    match joined.check(alloc, trace, is_last, way.to_first, &mut kept, watch) {
        Ok((joined, said)) => {
            let net = joined.into_net();
            let unrested = moves_on(&net, said.verdict, way.to_rest);
            let found = Finding {
                verdict: said.verdict,
                counts: said.counts,
                early: said.early,
                unrested,
            };
            Ok(Judged { found, net, kept })
        }
        Err(fault) => Err(fault_of(fault)),
    }
}
