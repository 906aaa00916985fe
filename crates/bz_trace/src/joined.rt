//! A run whose trace comes in pieces.

ghost use Rattle.std.specs.Prelude.{◌≡◌, ◌≤◌, ◌↔◌, [], true, false, ℕ, List, IfErr, IfOk, IfSome, IsTrue, OnOk};
ghost use Rattle.bz_model.specs.declared.event.Entry.{Entry};
ghost use Rattle.bz_model.specs.Limits.{max_entries};
ghost use Rattle.bz_trace.specs.Pieces.{GoesOver, IsBehind, JudgesPieceTo, StandsSomewhere, StopsInFrontBehind};
ghost use Rattle.bz_trace.specs.Reading.{IsEarly, IsTooLong};
ghost use Rattle.bz_trace.specs.Watching.{ShowsTrace};
ghost use Rattle.bz_trace.specs.declared.reading.ReadFault.TheVariants.{TooLong};

use crate::checking::Verdict;
use crate::kept::KeptLines;
use crate::reading::{ReadFault, Said, read_text};
use crate::watching::Watch;
use bz_net::Play;
use bz_trace_text::MAX_ENTRIES;
use std::alloc::Global;
use std::io::Read;
use std::marker::Model;

/// A net behind the pieces of a run that were checked so far.
pub struct Joined {
    net: Play,
}

// By hand, so that who lets one go has one call to show and not all its parts.
impl Drop for Joined {
    fn drop(self) {
        let Joined { net: _ } = self;
    }
}

impl Model for Joined {
    ghost use Rattle.bz_net.specs.Progress.{Progress};
    ghost use Rattle.bz_model.specs.Codes.{term_code};
    ghost use Rattle.std.specs.Coded.{codes};

    ghost Value = { Progress };

    ghost coded = { Prim.hlevel (codes, term_code) };

    ghost view = { λ j. j.net };

    ghost use Rattle.bz_trace.specs.Pieces.{StandsSomewhere};

    ghost invariant = { λ j. StandsSomewhere j.net };
}

impl Joined {
    /// A net that stands behind pieces of a run.
    pub fn behind(net: Play) -> Joined
        requires { StandsSomewhere net }
        ensures { result ≡ net }
    {
        Joined { net }
    }

    /// Whether one piece more can be checked. Behind 4,278,190,079 entries there may be too many.
    pub fn has_room(&self) -> bool
        ensures { IsTrue result ↔ (max_entries ≤ self.now.left) }
    {
        self.net.left() >= MAX_ENTRIES as u64
    }

    /// What is said of the next piece, which a reader gives, as the pieces before lead to it: the verdict on a trace with their
    /// entries before its own. Where it is a piece of a run, the net stands behind it. Clash lines are due in the last one alone.
    /// Each of its entries is shown to who watches, with the net behind it.
    pub fn check<R: Read, S: Watch>(
        self,
        alloc: Global,
        input: &mut R,
        is_last: bool,
        to_first: bool,
        kept: &mut KeptLines,
        watch: &mut S,
    ) -> Result<(Joined, Said), ReadFault>
        requires room { max_entries ≤ self.left }
        ensures right { IfOk result (λ r. (past : List Entry) → IsBehind self.wiring self past → IfSome (R.remaining input.old)
            (λ text. JudgesPieceTo r.1.early is_last self.wiring past text r.1.verdict)) }
        ensures goes_on { IfOk result (λ r. r.1.verdict ≡ Verdict.Run → (past : List Entry) → IsBehind self.wiring self past
            → IfSome (R.remaining input.old) (λ text. GoesOver is_last self.wiring past text r.0 r.1.counts)) }
        ensures whole { IfOk result (λ r. to_first ≡ false → r.1.early ≡ false) }

        // The first line that no run allows is told where it is asked for, whatever comes after it.
        ensures first { IfOk result (λ r. to_first ≡ true → (past : List Entry) → IsBehind self.wiring self past
            → IfSome (R.remaining input.old) (λ text. (line : ℕ) → StopsInFrontBehind self.wiring past text line → IsEarly line r.1)) }
        ensures wiring { IfOk result (λ r. r.0.wiring ≡ self.wiring) }
        ensures long { IfErr result (λ e. e ≡ TooLong → IfSome (R.remaining input.old) (IsTooLong self.wiring)) }
        ensures shows { IfOk result (λ r. (past : List Entry) → IsBehind self.wiring self past → S.behind self.wiring past watch.old
            → IfSome (R.remaining input.old) (λ text. r.1.verdict ≡ Verdict.Run → ShowsTrace S.behind self.wiring past text watch.new)) }
    {
        let Joined { net } = self;
        let mut net = net;
        match read_text(alloc, &mut net, input, is_last, to_first, kept, watch) {
            Ok(said) => Ok((Joined { net }, said)),
            Err(fault) => Err(fault),
        }
    }

    /// The net where it stands: behind the pieces, or in front of the line that no run allows.
    pub fn into_net(self) -> Play
        ensures net { result ≡ self }
        ensures stands { StandsSomewhere result }
    {
        let Joined { net } = self;
        net
    }
}
