//! Lines that are foretold: each is the firing of the component that is next, and is compared and not read.

ghost use Rattle.std.specs.Prelude.{◌≡◌, ◌<◌, List, ℕ, IfNone, IfSome, MatchOption};
ghost use Rattle.bz_model.specs.declared.event.Entry.{Entry};
ghost use Rattle.bz_model.specs.Nets.{Wiring};
ghost use Rattle.bz_trace.specs.Following.{FollowsFront, FollowsText, GetsOn, IsFollowed};
ghost use Rattle.bz_trace.specs.Watching.{Shows, ShowsFront};

use crate::following::follow_told;
use crate::lines::{Followed, count_line};
use crate::watching::Watch;
use bz_model::{Entry, Who};
use bz_net::Play;
use bz_trace_text::{LineNames, MAX_ENTRIES, foretold_at};

/// Which lines are foretold: firings, each of the next component from a number on. After lines that were others it isn't asked
/// for a while.
#[derive(Clone, Copy)]
pub(crate) struct Guess {
    // From which number on the next component is looked for.
    pub(crate) next: u32,
    // How many lines are followed before it is asked again.
    wait: u32,
    // How many they were when it was asked last.
    pause: u32,
}

impl Guess {
    pub(crate) const FIRST: Guess = Guess {
        next: 1,
        wait: 0,
        pause: 0,
    };

    // After it was asked, and lines were as foretold or not.
    fn after(self, next: u32, foretold: bool) -> Guess {
        let pause = if foretold {
            0
        } else if self.pause < 32 {
            2 * self.pause + 1
        } else {
            self.pause
        };
        Guess {
            next,
            wait: pause,
            pause,
        }
    }
}

/// Follows the lines that are foretold, unless it isn't asked for them now.
#[inline(always)]
pub(crate) fn play_asked<'t, S: Watch>(
    net: &mut Play,
    names: &LineNames,
    followed: &mut Followed,
    text: &'t [u8],
    watch: &mut S,
    guess: &mut Guess,
) -> &'t [u8]
    requires { IsFollowed names.now net.old text.now followed.old }
    ensures follows { (w : Wiring) (past : List Entry) (before : List ℕ) → FollowsText names.now w past net.old before text.now followed.old
        → FollowsText names.now w past net.new before result.now followed.new }
    ensures gets_on { GetsOn followed.old followed.new text.now result.now }
    ensures shows { (w : Wiring) (past : List Entry) (before : List ℕ)
        → Shows S.behind names.now w past net.old before text.now followed.old watch.old
        → Shows S.behind names.now w past net.new before result.now followed.new watch.new }
{
    if guess.wait > 0 {
        guess.wait -= 1;
        return text;
    }
    let (now, after, next) = play_foretold(net, names, *followed, text, watch, guess.next);
    *guess = guess.after(next, now.count > followed.count);
    *followed = now;
    after
}

// Follows lines at the front as long as they are those of the firings that are foretold, and answers from which number on the
// next component is looked for.
#[inline(never)]
fn play_foretold<'t, S: Watch>(
    net: &mut Play,
    names: &LineNames,
    from: Followed,
    text: &'t [u8],
    watch: &mut S,
    first: u32,
) -> (Followed, &'t [u8], u32)
    requires { IsFollowed names.now net.old text.now from }
    ensures follows { (w : Wiring) (past : List Entry) (before : List ℕ) → FollowsText names.now w past net.old before text.now from
        → FollowsText names.now w past net.new before result.1.now result.0 }
    ensures gets_on { GetsOn from result.0 text.now result.1.now }
    ensures shows { (w : Wiring) (past : List Entry) (before : List ℕ)
        → Shows S.behind names.now w past net.old before text.now from watch.old
        → Shows S.behind names.now w past net.new before result.1.now result.0 watch.new }
{
    let mut rest = text;
    let mut followed = from;
    let mut next = first;
    while followed.count < MAX_ENTRIES {
        let Some(after) = follow_foretold(net, names, &mut followed, rest, watch, &mut next) else {
            return (followed, rest, next);
        };
        rest = after;
    }
    (followed, rest, next)
}

// Follows the line at the front where it is that of the firing that is foretold.
#[inline(always)]
fn follow_foretold<'t, S: Watch>(
    net: &mut Play,
    names: &LineNames,
    followed: &mut Followed,
    text: &'t [u8],
    watch: &mut S,
    next: &mut u32,
) -> Option<&'t [u8]>
    requires is { IsFollowed names.now net.old text.now followed.old }
    requires fewer { followed.old.count < MAX_ENTRIES }
    ensures some { IfSome result (λ after. FollowsFront names.now net.old net.new text.now after.now followed.old followed.new) }
    ensures none { IfNone result ((net.new ≡ net.old) × (followed.new ≡ followed.old)) }
    ensures shows { MatchOption result (watch.new ≡ watch.old)
        (λ after. ShowsFront S.behind names.now net.new watch.old text.now after.now watch.new) }
{
    if followed.stop.is_some() {
        return None;
    }
    let told = net.core().foretell(*next)?;
    let (value, after) = foretold_at(names, text, told.comp, told.mv, told.chan)?;
    if !follow_told(net, told, value) {
        return None;
    }
    *next = told.comp.wrapping_add(1);
    let line = Entry::Fired {
        who: Who::Worker(1),
        comp: told.comp,
        port: 0,
        chan: told.chan,
        mv: told.mv,
        value,
    };
    count_line(net, followed, line, watch);
    Some(after)
}
