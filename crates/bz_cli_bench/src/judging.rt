//! The verdict on what was made, by the journal and the state of a net alone.

ghost use Rattle.std.specs.Prelude.{◌≡◌, ℕ, ◌<◌, ◌≤◌, Bool, None, Some, true, false, IfOk, IfSome, IfNone, IsTrue, drop, length};
ghost use Rattle.bz_bench.specs.Dues.{DiffersAt, IsAsDue, item_at, may_begin};
ghost use Rattle.bz_bench.specs.Groups.{OfEach};
ghost use Rattle.bz_bench.specs.Streams.{begins, passed_on};
ghost use Rattle.bz_bench.specs.Tallies.{IsTally, Tells};
ghost use Rattle.bz_bench.specs.declared.stream.Stream.{Stream};
ghost use Rattle.bz_cli_bench.specs.Verdicts.{IsAsBenched, IsAtEnd, IsServed, IsShort, IsStill, Judges, NoneIsWrong};
ghost use Rattle.bz_cli_bench.specs.Verdicts.{OfSome, WasAfter, beginning, ending};
ghost use Rattle.bz_model.specs.Names.{numbered, port_sense};
ghost use Rattle.bz_model.specs.Nets.{phase_at};

use crate::plan::{Plan, gives};
use crate::verdict::Verdict;
use bz_bench::{Item, Stream, Tally, fits, tallies_of};
use bz_explore_net::replay;
use bz_flat::Flat;
use bz_model::{Chan, ChanKind, Phase, Value, Verb, numbered};
use bz_net::Net;
use std::alloc::{AllocError, Global};

/// The most entries that a journal may have.
const MAX_JOURNAL: u32 = 16_777_216;

/// The verdict on a net on which a plan was played up to a group of lines. Where it may be in the state in which it was after so
/// many entries, `again` has how many.
pub(crate) fn judge(
    alloc: Global,
    flat: &Flat,
    net: &Net,
    plan: &Plan,
    group: usize,
    again: Option<usize>,
) -> Result<Verdict, AllocError>
    requires wiring { flat.now.wiring ≡ net.now.wiring }
    requires streams { length plan.now.streams.items ≡ length net.now.wiring.ports }
    ensures { IfOk result (Judges net.now.wiring net.now.state net.now.journal plan.now.streams.items plan.now.spins) }
{
    let streams = plan.streams.as_slice();
    let tallies = tallies_of(alloc, streams.len(), net.journal())?;
    let from = first_like(alloc, flat, net, again)?;
    let since = tallies_of(alloc, streams.len(), &net.journal()[from..])?;
    Ok(judge_by(net, streams, plan.spins, &tallies, group, from, &since))
}

// After how many entries the net was in the state in which it is now: as many as are named, if that is so, or else all.
#[tactic(auto, using(crate::proofs::Repeated::front_again, crate::proofs::Repeated::was_before, crate::proofs::Repeated::was_now))]
fn first_like(
    alloc: Global,
    flat: &Flat,
    net: &Net,
    again: Option<usize>,
) -> Result<usize, AllocError>
    requires { flat.now.wiring ≡ net.now.wiring }
    ensures was { IfOk result (WasAfter net.now.wiring net.now.state net.now.journal) }
    ensures within { IfOk result (λ from. from ≤ length net.now.journal) }
{
    let journal = net.journal();
    let from = again.unwrap_or(journal.len()).min(MAX_JOURNAL as usize);
    if from >= journal.len() {
        return Ok(journal.len());
    }
    let Ok(before) = replay(alloc, flat, &journal[..from], MAX_JOURNAL) else {
        return Err(AllocError);
    };
    match before.core().differing(net.core(), 0) {
        None => Ok(from),
        Some(_) => Ok(journal.len()),
    }
}

fn judge_by(
    net: &Net,
    streams: &[Stream],
    spins: bool,
    tallies: &[Tally],
    group: usize,
    from: usize,
    since: &[Tally],
) -> Verdict
    requires told { Tells net.now.journal tallies.now }
    requires since { Tells (drop from net.now.journal) since.now }
    requires was { WasAfter net.now.wiring net.now.state net.now.journal from }
    requires streams { length streams.now ≡ length net.now.wiring.ports }
    ensures { Judges net.now.wiring net.now.state net.now.journal streams.now spins result }
{
    if let Some(verdict) = first_fault(net, streams, tallies) {
        return verdict;
    }
    if are_as_benched(net, streams, tallies) {
        if is_at_end(net, streams, spins, tallies, from, since) {
            return Verdict::Passed;
        }
    }
    if from < net.journal().len() {
        return Verdict::Spins { from, group };
    }
    if let Some(_) = net.next_ready(1) {
        return Verdict::Spent;
    }
    if !is_some_short(net, streams, tallies, group) {
        return Verdict::Spent;
    }
    if !are_still(net, streams, tallies, group) {
        return Verdict::Spent;
    }
    Verdict::Stuck { group }
}

// Whether nothing else comes: after so many entries this state was there before, if these are not all.
fn is_at_end(
    net: &Net,
    streams: &[Stream],
    spins: bool,
    tallies: &[Tally],
    from: usize,
    since: &[Tally],
) -> bool
    requires told { Tells net.now.journal tallies.now }
    requires since { Tells (drop from net.now.journal) since.now }
    requires was { WasAfter net.now.wiring net.now.state net.now.journal from }
    requires streams { length streams.now ≡ length net.now.wiring.ports }
    ensures { IsTrue result → IsAtEnd net.now.wiring net.now.state net.now.journal streams.now spins }
{
    if is_none_wrong(net, streams) {
        return true;
    }
    if spins {
        if from < net.journal().len() {
            return true;
        }
    }
    match net.next_ready(1) {
        Some(_comp) => false,
        None => are_served(net, streams, tallies, from, since),
    }
}

// The first port at which another value came than was due, or else at which one came and none was.
fn first_fault(net: &Net, streams: &[Stream], tallies: &[Tally]) -> Option<Verdict>
    requires { Tells net.now.journal tallies.now }
    ensures { IfSome result (λ verdict. (spins : Bool)
        → Judges net.now.wiring net.now.state net.now.journal streams.now spins verdict) }
{
    let ports = net.names().ports().len();
    for place in 0..ports {
        if let Some(differs) = difference_at(net, streams, tallies, place as u32 + 1) {
            return Some(differs);
        }
    }
    for place in 0..ports {
        if let Some(extra) = extra_at(net, streams, tallies, place as u32 + 1) {
            return Some(extra);
        }
    }
    None
}

// The first item of a port with which another value came than was due.
fn difference_at(net: &Net, streams: &[Stream], tallies: &[Tally], port: u32) -> Option<Verdict>
    requires { Tells net.now.journal tallies.now }
    ensures { IfSome result (λ verdict. (spins : Bool)
        → Judges net.now.wiring net.now.state net.now.journal streams.now spins verdict) }
{
    let stream = numbered(streams, port)?;
    let tally = numbered(tallies, port)?;
    let passed = passed_on(net.names().chan(port), tally);
    let (place, came) = first_wrong(stream, passed)?;
    Some(Verdict::Differs {
        port,
        place,
        due: stream.item_at(place),
        came,
    })
}

// The value that came at a port at which no more is due.
fn extra_at(net: &Net, streams: &[Stream], tallies: &[Tally], port: u32) -> Option<Verdict>
    requires { Tells net.now.journal tallies.now }
    ensures { IfSome result (λ verdict. (spins : Bool)
        → Judges net.now.wiring net.now.state net.now.journal streams.now spins verdict) }
{
    let stream = numbered(streams, port)?;
    let tally = numbered(tallies, port)?;
    if !is_over(stream, tally.begun.len()) {
        return None;
    }
    let came = asked_at(net, port)?;
    Some(Verdict::Extra { port, came })
}

// Whether nothing is due after so many handshakes.
fn is_over(stream: &Stream, begun: usize) -> bool
    ensures { IsTrue result → item_at stream.now begun ≡ None }
{
    match stream.item_at(begun) {
        Some(_) => false,
        None => true,
    }
}

// The value that the net asks with at a port.
fn asked_at(net: &Net, port: u32) -> Option<Value>
    ensures some { IfSome result (λ came. phase_at net.now.state port ≡ Phase.Asked (Some came)) }
    ensures none { IfNone result (port_sense net.now.wiring.ports port ≡ Some false
        → (came : ℕ) → phase_at net.now.state port ≡ Phase.Asked (Some came) → ⊥) }
{
    if net.names().passive(port) != Some(false) {
        return None;
    }
    match net.core().phase(port) {
        Phase::Asked(came) => came,
        _ => None,
    }
}

// What passed at a port: on a pull channel values go with the ends of handshakes.
fn passed_on(chan: Option<Chan>, tally: &Tally) -> &[Option<Value>]
    ensures { result.now ≡ passed_on chan tally.now.begun.items tally.now.ended.items }
{
    match chan {
        None => &[],
        Some(chan) => match chan.kind {
            ChanKind::Pull => tally.ended.as_slice(),
            ChanKind::Sync | ChanKind::Push => tally.begun.as_slice(),
        },
    }
}

// The first place at which another value passed than was due.
#[tactic(auto, using(crate::proofs::Ports::due_none, crate::proofs::Ports::due_more, crate::proofs::Ports::due_all))]
fn first_wrong(stream: &Stream, passed: &[Option<Value>]) -> Option<(usize, Option<Value>)>
    ensures some { IfSome result (λ at. DiffersAt stream.now passed.now at.0 (item_at stream.now at.0) at.1) }
    ensures none { IfNone result (IsAsDue stream.now passed.now) }
{
    for (place, came) in passed.iter().enumerate() {
        if !fits(stream.item_at(place), *came) {
            return Some((place, *came));
        }
    }
    None
}

// Whether all that is due has passed at each port, and nothing else.
#[tactic(auto, using(bz_bench::proofs::Each::first_none, bz_bench::proofs::Each::first_more, bz_bench::proofs::Each::first_all))]
fn are_as_benched(net: &Net, streams: &[Stream], tallies: &[Tally]) -> bool
    requires told { Tells net.now.journal tallies.now }
    requires streams { length streams.now ≡ length net.now.wiring.ports }
    ensures { IsTrue result → OfEach streams.now (IsAsBenched net.now.wiring net.now.state net.now.journal) }
{
    let ports = net.names().ports().len();
    for place in 0..ports {
        if !is_as_benched_at(net, streams, tallies, place as u32 + 1) {
            return false;
        }
    }
    true
}

fn is_as_benched_at(net: &Net, streams: &[Stream], tallies: &[Tally], port: u32) -> bool
    requires { Tells net.now.journal tallies.now }
    ensures { IsTrue result → (stream : Stream) → numbered streams.now port ≡ Some stream
        → IsAsBenched net.now.wiring net.now.state net.now.journal port stream }
{
    let (Some(stream), Some(tally)) = (numbered(streams, port), numbered(tallies, port)) else {
        return false;
    };
    let passed = passed_on(net.names().chan(port), tally);
    if let Some(_) = first_wrong(stream, passed) {
        return false;
    }
    if !waits_none(net, stream, tally.begun.len(), port) {
        return false;
    }
    stream.items.len() <= passed.len() && stream.to_end() <= tally.ended.len()
}

// Whether no value waits at a port where none is due after so many handshakes.
fn waits_none(net: &Net, stream: &Stream, begun: usize, port: u32) -> bool
    ensures { IsTrue result → item_at stream.now begun ≡ None → port_sense net.now.wiring.ports port ≡ Some false
        → (came : ℕ) → phase_at net.now.state port ≡ Phase.Asked (Some came) → ⊥ }
{
    match stream.item_at(begun) {
        Some(_due) => true,
        None => asked_at(net, port).is_none(),
    }
}

// Whether no value that comes is wrong: there is a port at which the net gives values, and at each of those any may come without end.
fn is_none_wrong(net: &Net, streams: &[Stream]) -> bool
    requires { length streams.now ≡ length net.now.wiring.ports }
    ensures { IsTrue result → NoneIsWrong net.now.wiring streams.now }
{
    let names = net.names();
    let ports = names.ports().len();
    let mut is_some = false;
    for place in 0..ports {
        let port = place as u32 + 1;
        if gives(names.chan(port), names.passive(port)) {
            if !takes_any(streams, port) {
                return false;
            }
            is_some = true;
        }
    }
    is_some
}

// Whether any value may come at a port, without end.
fn takes_any(streams: &[Stream], port: u32) -> bool
    ensures each { IsTrue result → (stream : Stream) → numbered streams.now port ≡ Some stream → stream.forever ≡ Some Item.Any }
    ensures some { IsTrue result → OfSome streams.now (λ port stream. stream.forever ≡ Some Item.Any) }
{
    let Some(stream) = numbered(streams, port) else {
        return false;
    };
    match stream.forever {
        Some(item) => match item {
            Item::Any => true,
            Item::Handshake | Item::Value(_) => false,
        },
        None => false,
    }
}

// Whether no port has a word, or each that has one had one after so many entries.
#[tactic(auto, using(bz_bench::proofs::Each::first_none, bz_bench::proofs::Each::first_more, bz_bench::proofs::Each::first_all))]
fn are_served(
    net: &Net,
    streams: &[Stream],
    tallies: &[Tally],
    from: usize,
    since: &[Tally],
) -> bool
    requires told { Tells net.now.journal tallies.now }
    requires since { Tells (drop from net.now.journal) since.now }
    requires streams { length streams.now ≡ length net.now.wiring.ports }
    ensures { IsTrue result → OfEach streams.now (IsServed net.now.wiring net.now.state net.now.journal from) }
{
    let ports = net.names().ports().len();
    for place in 0..ports {
        if !is_served_at(net, streams, tallies, since, place as u32 + 1) {
            return false;
        }
    }
    true
}

fn is_served_at(
    net: &Net,
    streams: &[Stream],
    tallies: &[Tally],
    since: &[Tally],
    port: u32,
) -> bool
    requires { Tells net.now.journal tallies.now }
    ensures { IsTrue result → (from : ℕ) → Tells (drop from net.now.journal) since.now
        → (stream : Stream) → numbered streams.now port ≡ Some stream
        → IsServed net.now.wiring net.now.state net.now.journal from port stream }
{
    if let Some(tally) = numbered(since, port) {
        if tally.begun.len() > 0 {
            return true;
        }
    }
    let (Some(stream), Some(tally)) = (numbered(streams, port), numbered(tallies, port)) else {
        return false;
    };
    let own = stream.group_of(tally.begun.len());
    next_word(net, port, stream, tally, own).is_none()
}

// Whether something of a group of lines or one above it has not passed.
fn is_some_short(net: &Net, streams: &[Stream], tallies: &[Tally], group: usize) -> bool
    requires { Tells net.now.journal tallies.now }
    ensures { IsTrue result → OfSome streams.now (IsShort net.now.journal group) }
{
    let ports = net.names().ports().len();
    for place in 0..ports {
        if is_short_at(net, streams, tallies, place as u32 + 1, group) {
            return true;
        }
    }
    false
}

fn is_short_at(net: &Net, streams: &[Stream], tallies: &[Tally], port: u32, group: usize) -> bool
    requires { Tells net.now.journal tallies.now }
    ensures { IsTrue result → OfSome streams.now (IsShort net.now.journal group) }
{
    let (Some(stream), Some(tally)) = (numbered(streams, port), numbered(tallies, port)) else {
        return false;
    };
    !stream.is_done(group, tally)
}

// Whether no word of a group of lines or one above it would be done.
#[tactic(auto, using(bz_bench::proofs::Each::first_none, bz_bench::proofs::Each::first_more, bz_bench::proofs::Each::first_all))]
fn are_still(net: &Net, streams: &[Stream], tallies: &[Tally], group: usize) -> bool
    requires told { Tells net.now.journal tallies.now }
    requires streams { length streams.now ≡ length net.now.wiring.ports }
    ensures { IsTrue result → OfEach streams.now (IsStill net.now.wiring net.now.state net.now.journal group) }
{
    let ports = net.names().ports().len();
    for place in 0..ports {
        if !is_still_at(net, streams, tallies, place as u32 + 1, group) {
            return false;
        }
    }
    true
}

fn is_still_at(net: &Net, streams: &[Stream], tallies: &[Tally], port: u32, group: usize) -> bool
    requires { Tells net.now.journal tallies.now }
    ensures { IsTrue result → (stream : Stream) → numbered streams.now port ≡ Some stream
        → IsStill net.now.wiring net.now.state net.now.journal group port stream }
{
    let (Some(stream), Some(tally)) = (numbered(streams, port), numbered(tallies, port)) else {
        return false;
    };
    next_word(net, port, stream, tally, group).is_none()
}

/// The word of a port's stream that would be done, where this group of lines has begun.
pub(crate) fn next_word(
    net: &Net,
    port: u32,
    stream: &Stream,
    tally: &Tally,
    group: usize,
) -> Option<Verb>
    ensures none { IsTally port net.now.journal tally.now → IfNone result
        (IsStill net.now.wiring net.now.state net.now.journal group port stream.now) }
    ensures begins { IfSome result (λ verb. begins verb ≡ true
        → may_begin stream.now group (length tally.now.begun.items) ≡ true) }
{
    let Some(passive) = net.names().passive(port) else {
        return None;
    };
    let (beginning, ending) = (beginning(passive), ending(passive));
    if stream.may_begin(group, tally.begun.len()) && net.would_answer(beginning, port) {
        return Some(beginning);
    }
    if stream.may_end(tally.ended.len()) && net.would_answer(ending, port) {
        return Some(ending);
    }
    None
}

fn beginning(passive: bool) -> Verb
    ensures { result ≡ beginning passive }
{
    if passive { Verb::Offer } else { Verb::Accept }
}

fn ending(passive: bool) -> Verb
    ensures { result ≡ ending passive }
{
    if passive { Verb::Collect } else { Verb::Answer }
}
