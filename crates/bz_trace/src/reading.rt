//! The check of a trace that a reader gives, of which only a piece is held.

ghost use Rattle.std.specs.Prelude.{◌≡◌, ◌≢◌, ◌⊎◌, ◌<◌, ◌≤◌, ◌++◌, ℕ, List, [], false, true, length, IfErr, IfOk, IfSome, IsTrue, MatchOption, None, OnOk, Some};
ghost use Rattle.bz_model.specs.declared.event.Entry.{Entry};
ghost use Rattle.bz_model.specs.Limits.{max_entries};
ghost use Rattle.bz_model.specs.Nets.{Wiring, outside};
ghost use Rattle.bz_flat.specs.Wires.{WellWired};
ghost use Rattle.bz_net.specs.Progress.{IsToldBy};
ghost use Rattle.bz_trace_text.specs.Texts.{first_line};
ghost use Rattle.bz_trace.specs.Following.{FollowsText, GetsOn, IsFollowed, NoneToFollow};
ghost use Rattle.bz_trace.specs.Reading.{AwaitsMore, IsOther, IsTooLong, ReadsMore};
ghost use Rattle.bz_trace.specs.Pieces.{IsBehind, StandsSomewhere};
ghost use Rattle.bz_trace.specs.Reading.{ConcludesPieceTo, ConcludesTo, IsEarly, JudgesTo, LeavesTo, StopsInFront};
ghost use Rattle.bz_trace.specs.Verdicts.{CountsRun, Judges};
ghost use Rattle.bz_trace.specs.Watching.{Shows, ShowsAll, ShowsTrace};
ghost use Rattle.bz_trace.specs.declared.reading.ReadFault.TheVariants.{Memory, TooLong};

use crate::checking::{Verdict, verdict_behind};
use crate::kept::KeptLines;
use crate::lines::{Followed, play_lines};
use crate::watching::Watch;
use bz_net::Play;
use bz_trace_text::{Counts, LineNames, Version, clash_at, version_at};
use std::alloc::{AllocError, Global};
use std::io::Read;

/// The most bytes that are held at once: a line is at most so long, and so are the lines behind the last entry together.
const MOST_HELD: usize = 67_108_864;

/// How many bytes are asked for at once.
const PIECE: usize = 65_536;

/// The bytes of the first line.
const FIRST_LINE: usize = 8;

/// Why a trace could not be read.
#[derive(Clone, Copy, PartialEq, Eq)]
pub enum ReadFault {
    Read,
    /// A line is too long to be held, or the lines behind the last entry are.
    TooLong,
    Memory,
}

impl From<AllocError> for ReadFault {
    ghost from_gives = { λ _ e. e ≡ Memory };

    fn from(_e: AllocError) -> ReadFault {
        ReadFault::Memory
    }
}

/// What is said of a text that a reader gives.
#[derive(Clone, Copy)]
pub struct Said {
    pub verdict: Verdict,
    /// How many entries of each kind the trace of a run has.
    pub counts: Counts,
    /// Whether nothing was looked at but lines up to one that no run allows: the verdict is on that one.
    pub early: bool,
}

/// What `check` says of the text that a reader gives, which may be longer than memory. Where it is no trace, no more of it is
/// read than that takes. With `to_first` no more is read either once a line is that of no run: that is the verdict then, whatever
/// comes after it. The line that the verdict names is kept in `kept`, and each entry is shown to who watches, with the net behind it.
pub fn check_read<R: Read, S: Watch>(
    alloc: Global,
    net: &mut Play,
    input: &mut R,
    to_first: bool,
    kept: &mut KeptLines,
    watch: &mut S,
) -> Result<Said, ReadFault>
    requires opened { IsToldBy net.old [] }
    requires left { net.old.left ≡ max_entries }
    ensures right { IfOk result (λ said. IfSome (R.remaining input.old) (λ text.
        JudgesTo said.early net.old.wiring text said.verdict)) }

    // Whatever verdict holds of the whole text is said of it.
    ensures only { IfOk result (λ said. IfSome (R.remaining input.old) (λ text. said.early ≡ false →
        (v : Verdict) → Judges net.old.wiring text v → v ≢ Verdict.Memory → (said.verdict ≡ v) ⊎ (said.verdict ≡ Verdict.Memory))) }
    ensures whole { IfOk result (λ said. to_first ≡ false → said.early ≡ false) }

    // The first line that no run allows is told where it is asked for, whatever comes after it.
    ensures first { IfOk result (λ said. to_first ≡ true → IfSome (R.remaining input.old) (λ text.
        (line : ℕ) → StopsInFront net.old.wiring text line → IsEarly line said)) }
    ensures counted { IfOk result (λ said. IfSome (R.remaining input.old) (λ text.
        said.verdict ≡ Verdict.Run → CountsRun net.old.wiring text said.counts)) }
    ensures leaves { IfOk result (λ said. IfSome (R.remaining input.old) (λ text.
        LeavesTo said.early net.old.wiring text net.new said.verdict)) }
    ensures wired { WellWired net.old.wiring }
    ensures wiring { OnOk result (net.new.wiring ≡ net.old.wiring) }
    ensures long { IfErr result (λ e. e ≡ TooLong → IfSome (R.remaining input.old) (IsTooLong net.old.wiring)) }

    // Of the trace of a run all entries were shown, and no others, each with the net behind it.
    ensures shows { IfOk result (λ said. S.behind net.old.wiring [] watch.old → IfSome (R.remaining input.old) (λ text.
        said.verdict ≡ Verdict.Run → ShowsTrace S.behind net.old.wiring [] text watch.new)) }
{
    read_text(alloc, net, input, true, to_first, kept, watch)
}

/// The same of a piece of a run, which is the last one or not. The net stands behind the pieces before it.
pub(crate) fn read_text<R: Read, S: Watch>(
    alloc: Global,
    net: &mut Play,
    input: &mut R,
    is_last: bool,
    to_first: bool,
    kept: &mut KeptLines,
    watch: &mut S,
) -> Result<Said, ReadFault>
    requires stands { StandsSomewhere net.old }
    requires room { max_entries ≤ net.old.left }
    ensures concludes { IfOk result (λ said. (past : List Entry) → IsBehind net.old.wiring net.old past → IfSome (R.remaining input.old)
        (λ text. ConcludesPieceTo to_first is_last net.old.wiring past text net.new said)) }
    ensures stands { OnOk result (StandsSomewhere net.new) }
    ensures whole { IfOk result (λ said. to_first ≡ false → said.early ≡ false) }
    ensures wired { WellWired net.old.wiring }
    ensures wiring { OnOk result (net.new.wiring ≡ net.old.wiring) }
    ensures long { IfErr result (λ e. e ≡ TooLong → IfSome (R.remaining input.old) (IsTooLong net.old.wiring)) }
    ensures shows { IfOk result (λ said. (past : List Entry) → IsBehind net.old.wiring net.old past → S.behind net.old.wiring past watch.old
        → IfSome (R.remaining input.old) (λ text. said.verdict ≡ Verdict.Run → ShowsTrace S.behind net.old.wiring past text watch.new)) }
{
    let Ok(names) = net.names().dup(alloc) else {
        return Err(ReadFault::Memory);
    };
    let numbers = net.core().chan_count().max(net.core().comp_count()) as usize + 1;
    let names = LineNames::spelling(alloc, &names, numbers);
    let mut held = Vec::new(alloc);
    read_more(input, &mut held, FIRST_LINE)?;
    match version_at(held.as_slice()) {
        Some((version, lines)) => {
            let front = Vec::from_slice(alloc, lines)?;
            check_lines_of(
                alloc, net, &names, version, front, input, is_last, to_first, kept, watch,
            )
        }
        None => {
            keep_first(held, input, kept);
            Ok(Said {
                verdict: Verdict::Bad(1),
                counts: Counts::NONE,
                early: false,
            })
        }
    }
}

// Keeps the first line, of which a front is held, where lines are to be kept.
fn keep_first<R: Read>(front: Vec<u8>, input: &mut R, kept: &mut KeptLines) {
    if !kept.keeps() {
        return;
    }
    let mut held = front;
    if !held.contains(&b'\n') && held.len() < PIECE {
        let _ = read_lines(input, &mut held, PIECE);
    }
    kept.keep(1, held.as_slice());
}

// The same of the lines behind the first one, of which a front is held.
fn check_lines_of<R: Read, S: Watch>(
    alloc: Global,
    net: &mut Play,
    names: &LineNames,
    version: Version,
    front: Vec<u8>,
    input: &mut R,
    is_last: bool,
    to_first: bool,
    kept: &mut KeptLines,
    watch: &mut S,
) -> Result<Said, ReadFault>
    requires stands { StandsSomewhere net.old }
    requires room { max_entries ≤ net.old.left }
    requires names { names.now ≡ outside net.old.wiring }
    requires wired { WellWired net.old.wiring }
    ensures concludes { IfOk result (λ said. (past : List Entry) → IsBehind net.old.wiring net.old past → IfSome (R.remaining input.old)
        (λ more. ConcludesPieceTo to_first is_last net.old.wiring past (first_line version ++ (front.items ++ more)) net.new said)) }
    ensures stands { OnOk result (StandsSomewhere net.new) }
    ensures whole { IfOk result (λ said. to_first ≡ false → said.early ≡ false) }
    ensures wiring { OnOk result (net.new.wiring ≡ net.old.wiring) }
    ensures long { IfErr result (λ e. e ≡ TooLong → IfSome (R.remaining input.old)
        (λ more. IsTooLong net.old.wiring (first_line version ++ (front.items ++ more)))) }
    ensures shows { IfOk result (λ said. (past : List Entry) → IsBehind net.old.wiring net.old past → S.behind net.old.wiring past watch.old
        → IfSome (R.remaining input.old) (λ more. said.verdict ≡ Verdict.Run
        → ShowsAll S.behind net.old.wiring past (front.items ++ more) watch.new)) }
{
    let mut held = front;
    let mut followed = Followed::NONE;
    'following: loop {
        followed = follow_held(alloc, net, names, followed, &mut held, kept, watch)?;
        if let Some(line) = first_stop(to_first, followed) {
            return Ok(Said {
                verdict: Verdict::Not(line),
                counts: followed.counts,
                early: true,
            });
        }
        if is_other(version, held.as_slice()) {
            kept.keep(followed.count + 2, held.as_slice());
            return Ok(Said {
                verdict: Verdict::Bad(followed.count + 2),
                counts: followed.counts,
                early: false,
            });
        }
        if held.len() > MOST_HELD {
            return Err(ReadFault::TooLong);
        }
        if !read_lines(input, &mut held, MOST_HELD + 1)? {
            let verdict = verdict_behind(net, names, version, is_last, followed, held.as_slice());
            keep_end(kept, verdict, followed, held.as_slice());
            return Ok(Said {
                verdict,
                counts: followed.counts,
                early: false,
            });
        }
    }
}

// The first line that no run allows, where it was followed and no more than that is asked for.
fn first_stop(to_first: bool, followed: Followed) -> Option<usize>
    ensures { MatchOption result (to_first ≡ true → followed.stop ≡ None)
        (λ line. (to_first ≡ true) × (followed.stop ≡ Some line)) }
{
    if to_first { followed.stop } else { None }
}

// Keeps what stands behind the last line that was followed, where the verdict is on a line there.
fn keep_end(kept: &mut KeptLines, verdict: Verdict, followed: Followed, rest: &[u8]) {
    match verdict {
        Verdict::Not(_) if followed.stop.is_some() => {}
        Verdict::Not(_) | Verdict::Bad(_) => kept.keep(followed.count.saturating_add(2), rest),
        Verdict::Run | Verdict::Memory => {}
    }
}

// Follows the lines of entries that are held, and holds what stands behind them.
fn follow_held<S: Watch>(
    alloc: Global,
    net: &mut Play,
    names: &LineNames,
    from: Followed,
    held: &mut Vec<u8>,
    kept: &mut KeptLines,
    watch: &mut S,
) -> Result<Followed, AllocError>
    requires { IsFollowed names.now net.old held.old.items from }
    ensures follows { IfOk result (λ now. (w : Wiring) (past : List Entry) (text : List ℕ)
        → FollowsText names.now w past net.old text held.old.items from → FollowsText names.now w past net.new text held.new.items now) }
    ensures no_more { IfOk result (NoneToFollow names.now held.new.items) }
    ensures gets_on { IfOk result (λ now. GetsOn from now held.old.items held.new.items) }
    ensures shows { IfOk result (λ now. (w : Wiring) (past : List Entry) (text : List ℕ)
        → Shows S.behind names.now w past net.old text held.old.items from watch.old
        → Shows S.behind names.now w past net.new text held.new.items now watch.new) }
{
    let (now, rest) = play_lines(net, names, from, held.as_slice(), watch);
    keep_stop(kept, from, now, held.as_slice());
    if rest.len() == held.len() {
        return Ok(now);
    }
    let kept = Vec::from_slice(alloc, rest)?;
    *held = kept;
    Ok(now)
}

// Keeps the line that no run allows, where it is one of these that were followed.
fn keep_stop(kept: &mut KeptLines, from: Followed, now: Followed, lines: &[u8]) {
    if let (None, Some(line)) = (from.stop, now.stop) {
        kept.keep_one(line, from.count.saturating_add(2), lines);
    }
}

// Whether a whole line stands at the front that is no clash line.
fn is_other(version: Version, rest: &[u8]) -> bool
    ensures other { IsTrue result → IsOther version rest.now }
    ensures none { result ≡ false → AwaitsMore version rest.now }
{
    if !rest.contains(&b'\n') {
        return false;
    }
    match version {
        Version::One => true,
        Version::Two => match clash_at(rest) {
            Some(_) => false,
            None => true,
        },
    }
}

// Reads on until so many bytes are held, or to the end. Whether anything came.
fn read_more<R: Read>(input: &mut R, held: &mut Vec<u8>, goal: usize) -> Result<bool, ReadFault>
    requires { length held.old.items < goal }
    ensures more { IfOk result (ReadsMore (R.remaining input.old) (R.remaining input.new) held.old.items held.new.items goal) }
    ensures err { IfErr result (λ e. e ≢ TooLong) }
{
    let before = held.len();
    let mut piece = [0u8; PIECE];
    'reading: while held.len() < goal {
        match input.read(&mut piece) {
            Ok(0) => return Ok(held.len() > before),
            Ok(n) => held.extend_from_slice(&piece[..n])?,
            Err(_) => return Err(ReadFault::Read),
        }
    }
    Ok(true)
}

// Reads on until a line ends in what came, so many bytes are held, or to the end. Whether anything came.
fn read_lines<R: Read>(input: &mut R, held: &mut Vec<u8>, goal: usize) -> Result<bool, ReadFault>
    requires { length held.old.items < goal }
    ensures more { IfOk result (ReadsMore (R.remaining input.old) (R.remaining input.new) held.old.items held.new.items 0) }
    ensures err { IfErr result (λ e. e ≢ TooLong) }
{
    let from = held.len();
    let mut piece = [0u8; PIECE];
    'reading: while held.len() < goal {
        match input.read(&mut piece) {
            Ok(0) => return Ok(held.len() > from),
            Ok(n) => {
                held.extend_from_slice(&piece[..n])?;
                if piece[..n].contains(&b'\n') {
                    return Ok(true);
                }
            }
            Err(_) => return Err(ReadFault::Read),
        }
    }
    Ok(true)
}
