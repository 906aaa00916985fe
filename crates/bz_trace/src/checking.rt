//! The verdict on a trace, once its lines of entries were followed.

ghost use Rattle.std.specs.Prelude.{◌≡◌, ◌++◌, ℕ, true, List, None};
ghost use Rattle.bz_model.specs.declared.event.Entry.{Entry};
ghost use Rattle.bz_model.specs.Nets.{Wiring};
ghost use Rattle.bz_net.specs.Progress.{IsToldBy};
ghost use Rattle.bz_trace_text.specs.Texts.{first_line};
ghost use Rattle.bz_trace.specs.Following.{FollowsText, IsFollowed, NoneToFollow};
ghost use Rattle.bz_trace.specs.Pieces.{AreDueBehind, ConcludesPiece};
ghost use Rattle.bz_trace.specs.Verdicts.{FirstDiffers};

use crate::lines::Followed;
use bz_net::Play;
use bz_trace_text::{LineNames, MAX_ENTRIES, Version, clash_at, line_at, other_line};

/// What is said of a text.
#[derive(Clone, Copy, PartialEq, Eq)]
pub enum Verdict {
    /// It is the trace of a run.
    Run,
    /// It is a trace, and line number so is the first that no run allows.
    Not(usize),
    /// It is no trace, and line number so is the first bad one.
    Bad(usize),
    Memory,
}

/// What is said of a trace that has this text behind the lines that were followed. It is a piece of a run; where it isn't the
/// last one, no clash lines are due.
pub(crate) fn verdict_behind(
    net: &mut Play,
    names: &LineNames,
    version: Version,
    is_last: bool,
    followed: Followed,
    rest: &[u8],
) -> Verdict
    requires followed { IsFollowed names.now net.old rest.now followed }
    requires no_more { NoneToFollow names.now rest.now followed }
    ensures follows { (w : Wiring) (past : List Entry) (text : List ℕ) → FollowsText names.now w past net.old text rest.now followed
        → FollowsText names.now w past net.new text rest.now followed }
    ensures verdict { (w : Wiring) (past : List Entry) (text : List ℕ) → FollowsText names.now w past net.old text rest.now followed
        → ConcludesPiece is_last w past (first_line version ++ text) net.new followed.counts result }
    ensures runs { result ≡ Verdict.Run → followed.stop ≡ None }
{
    net.list_clashes();
    verdict_listed(net, names, version, is_last, followed, rest)
}

// The same of a net that has listed the components at which requests met.
fn verdict_listed(
    net: &Play,
    names: &LineNames,
    version: Version,
    is_last: bool,
    followed: Followed,
    rest: &[u8],
) -> Verdict
    requires listed { net.now.listed ≡ true }
    requires followed { IsFollowed names.now net.now rest.now followed }
    requires no_more { NoneToFollow names.now rest.now followed }
    ensures runs { result ≡ Verdict.Run → followed.stop ≡ None }
    ensures verdict { (w : Wiring) (past : List Entry) (text : List ℕ) → FollowsText names.now w past net.now text rest.now followed
        → ConcludesPiece is_last w past (first_line version ++ text) net.now followed.counts result }
{
    if let Some(_) = line_at(names, rest) {
        return Verdict::Bad(MAX_ENTRIES + 2);
    }
    if let Some(line) = other_line(version, rest, followed.count + 2) {
        return Verdict::Bad(line);
    }
    if let Some(line) = followed.stop {
        return Verdict::Not(line);
    }
    match other_clash(rest, due(net, version, is_last)) {
        None => Verdict::Run,
        Some(place) => Verdict::Not(followed.count + place + 2),
    }
}

// The components whose clash lines are due behind the entries that the net has played: behind the last piece of a run.
fn due(net: &Play, version: Version, is_last: bool) -> &[u32]
    requires { net.now.listed ≡ true }
    ensures { (journal : List Entry) → IsToldBy net.now journal
        → AreDueBehind is_last net.now.wiring version journal result.now }
{
    if !is_last {
        return &[];
    }
    match version {
        Version::One => &[],
        Version::Two => net.clashes(),
    }
}

// The place, counted from 0, of the first clash line that isn't the one that is due.
fn other_clash(text: &[u8], due: &[u32]) -> Option<usize>
    ensures { FirstDiffers text.now due.now result }
{
    let mut rest = text;
    let mut place = 0;
    for comp in due {
        let Some((found, after)) = clash_at(rest) else {
            return Some(place);
        };
        if found != *comp {
            return Some(place);
        }
        rest = after;
        place += 1;
    }
    if rest.is_empty() { None } else { Some(place) }
}
