//! The lines of entries at the front of a text, played on a net.

ghost use Rattle.std.specs.Prelude.{◌≡◌, ◌<◌, ◌+◌, ◌++◌, ◌∷◌, [], None, List, ℕ, IfNone, IfSome, MatchOption};
ghost use Rattle.bz_model.specs.declared.event.Entry.{Entry};
ghost use Rattle.bz_model.specs.Entries.{HasLine};
ghost use Rattle.bz_model.specs.Nets.{Wiring, outside};
ghost use Rattle.bz_trace_text.specs.Counting.{AreFewer, Tells};
ghost use Rattle.bz_trace_text.specs.Reading.{line_at};
ghost use Rattle.bz_trace.specs.Following.{FollowsFront, FollowsOne, FollowsText, GetsOn, IsFollowed, IsLed, NoneToFollow};
ghost use Rattle.bz_trace.specs.Watching.{SeesLine, Shows, ShowsFront};

use crate::following::play_on;
use crate::foretelling::{Guess, play_asked};
use crate::watching::Watch;
use bz_model::Entry;
use bz_net::Play;
use bz_trace_text::{Counts, LineNames, MAX_ENTRIES, firing_at, line_at};

/// How far lines of entries were followed.
#[derive(Clone, Copy)]
pub(crate) struct Followed {
    pub(crate) counts: Counts,
    /// How many lines they are.
    pub(crate) count: usize,
    /// The number of the first line that no run allows, if there is one.
    pub(crate) stop: Option<usize>,
}

impl Followed {
    /// No line yet.
    pub(crate) const NONE: Followed = Followed {
        counts: Counts::NONE,
        count: 0,
        stop: None,
    };
}

/// Follows the lines of entries at the front of a text, as many as a trace may have: how far, and what stands behind them. Each
/// entry is shown to who watches, with the net behind it.
pub(crate) fn play_lines<'t, S: Watch>(
    net: &mut Play,
    names: &LineNames,
    from: Followed,
    text: &'t [u8],
    watch: &mut S,
) -> (Followed, &'t [u8])
    requires { IsFollowed names.now net.old text.now from }
    ensures follows { (w : Wiring) (past : List Entry) (before : List ℕ) → FollowsText names.now w past net.old before text.now from
        → FollowsText names.now w past net.new before result.1.now result.0 }
    ensures no_more { NoneToFollow names.now result.1.now result.0 }
    ensures gets_on { GetsOn from result.0 text.now result.1.now }
    ensures shows { (w : Wiring) (past : List Entry) (before : List ℕ)
        → Shows S.behind names.now w past net.old before text.now from watch.old
        → Shows S.behind names.now w past net.new before result.1.now result.0 watch.new }
{
    let mut rest = text;
    let mut followed = from;
    let mut guess = Guess::FIRST;
    while followed.count < MAX_ENTRIES {
        let behind = play_asked(net, names, &mut followed, rest, watch, &mut guess);
        if followed.count == MAX_ENTRIES {
            return (followed, behind);
        }
        let Some(after) = follow_front(net, names, &mut followed, behind, watch, &mut guess.next)
        else {
            return (followed, behind);
        };
        rest = after;
    }
    (followed, rest)
}

// Follows the line of an entry at the front, where one stands there: what stands behind it.
#[inline(always)]
fn follow_front<'t, S: Watch>(
    net: &mut Play,
    names: &LineNames,
    followed: &mut Followed,
    text: &'t [u8],
    watch: &mut S,
    next: &mut u32,
) -> Option<&'t [u8]>
    requires is { IsFollowed names.now net.old text.now followed.old }
    requires fewer { followed.old.count < MAX_ENTRIES }
    ensures some { IfSome result (λ after. FollowsFront names.now net.old net.new text.now after.now followed.old followed.new) }
    ensures none { IfNone result ((line_at names.now text.now ≡ None) × (net.new ≡ net.old) × (followed.new ≡ followed.old)) }
    ensures shows { MatchOption result (watch.new ≡ watch.old)
        (λ after. ShowsFront S.behind names.now net.new watch.old text.now after.now watch.new) }
{
    match firing_at(names, text) {
        Some((line, after)) => {
            follow_one(net, followed, line, watch);
            if let Entry::Fired { comp, .. } = line {
                *next = comp.wrapping_add(1);
            }
            Some(after)
        }
        None => follow_other(net, names, followed, text, watch),
    }
}

// The same of any line.
#[inline(never)]
fn follow_other<'t, S: Watch>(
    net: &mut Play,
    names: &LineNames,
    followed: &mut Followed,
    text: &'t [u8],
    watch: &mut S,
) -> Option<&'t [u8]>
    requires is { IsFollowed names.now net.old text.now followed.old }
    requires fewer { followed.old.count < MAX_ENTRIES }
    ensures some { IfSome result (λ after. FollowsFront names.now net.old net.new text.now after.now followed.old followed.new) }
    ensures none { IfNone result ((line_at names.now text.now ≡ None) × (net.new ≡ net.old) × (followed.new ≡ followed.old)) }
    ensures shows { MatchOption result (watch.new ≡ watch.old)
        (λ after. ShowsFront S.behind names.now net.new watch.old text.now after.now watch.new) }
{
    let (line, after) = line_at(names, text)?;
    follow_one(net, followed, line, watch);
    Some(after)
}

// Follows one line more.
#[inline(always)]
fn follow_one<S: Watch>(net: &mut Play, followed: &mut Followed, line: Entry, watch: &mut S)
    requires place { followed.old.stop ≡ None → 0 < net.old.left }
    requires has_line { followed.old.stop ≡ None → HasLine (outside net.old.wiring) line }
    requires led { followed.old.stop ≡ None → IsLed net.old }
    requires counts { AreFewer followed.old.counts 18446744073709551615 }
    requires fewer { followed.old.count < MAX_ENTRIES }
    ensures follows { FollowsOne net.old net.new line followed.old followed.new }
    ensures sees { SeesLine S.behind net.new line watch.old watch.new }
{
    followed.stop = play_on(net, line, followed.count + 2, followed.stop);
    count_line(net, followed, line, watch);
}

/// Counts a line, and shows it to who watches, with the net behind it.
#[inline(always)]
pub(crate) fn count_line<S: Watch>(net: &Play, followed: &mut Followed, line: Entry, watch: &mut S)
    requires counts { AreFewer followed.old.counts 18446744073709551615 }
    requires fewer { followed.old.count < MAX_ENTRIES }
    ensures counted { (entries : List Entry) → Tells followed.old.counts entries → Tells followed.new.counts (entries ++ line ∷ []) }
    ensures count { followed.new.count ≡ followed.old.count + 1 }
    ensures stop { followed.new.stop ≡ followed.old.stop }
    ensures sees { SeesLine S.behind net.now line watch.old watch.new }
{
    watch.see(net, &line);
    followed.counts.add(&line);
    followed.count += 1;
}
