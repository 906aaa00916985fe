//! A component's process as it is kept, and its moves, each by its name. Each arm of a move borrows its own fields, so that no
//! address is worked out before the plan is known.

ghost use Rattle.std.specs.Prelude.{◌≡◌, IsTrue, None};
ghost use Rattle.bz_kinds.specs.Kept.{plan_of};
ghost use Rattle.bz_kinds.specs.Riding.{held};
ghost use Rattle.bz_kinds.specs.Turn.{CanTurn, GoesOn, IsDueMove, IsRare, HasMade, HasGone, KeepsPlan, StaysAt};

use crate::kept::KeptPlan;
use crate::kept_lists::KeptSlots;
use crate::ports::Ports;
use crate::row::Script;
use crate::{
    bar, cells, choice, decision, in_turn, indexed, meeting, once, script, select, signalled,
    together,
};
use bz_model::{Move, Value};

/// A component's process: its plan and the plan's size, and where it is in it, by its ports, a counter and the values it keeps.
/// `active` has a bit for each of the first 64 ports of the plan that isn't passive.
#[derive(Drop)]
pub struct Process {
    pub ports: Ports,
    pub plan: KeptPlan,
    pub size: u32,
    pub left: u32,
    pub active: u64,
    pub slots: KeptSlots,
}

/// Asks at a port where a request is due: the value that it carries, and whether the process is known to wait there alone then.
#[inline(always)]
pub fn ask(proc: &mut Process, port: u32) -> (Option<Value>, bool)
    requires due { CanTurn proc.old port }
    requires ask { IsDueMove proc.old port Move.Ask }
    ensures made { HasMade proc.old port None proc.new Move.Ask result.0 }
    ensures goes { HasGone proc.old port proc.new }
    ensures kept { KeepsPlan proc.old proc.new }
    ensures waits { IsTrue result.1 → StaysAt proc.new port }
{
    match &proc.plan {
        KeptPlan::CallsInTurn => {
            in_turn::ask(&mut proc.ports, &mut proc.left, proc.size, port - 2);
            (None, true)
        }
        KeptPlan::PushesInTurn | KeptPlan::FetchesInTurn | KeptPlan::OwnInTurn(_) => {
            in_turn::ask(&mut proc.ports, &mut proc.left, proc.size, port - 2);
            (proc.slots.worth(proc.plan.row().legs.gives(port - 2)), true)
        }
        KeptPlan::CallsTogether => {
            together::ask(&mut proc.ports, &mut proc.left, proc.size, port - 2);
            (None, false)
        }
        KeptPlan::PushesTogether | KeptPlan::OwnTogether(_) => {
            together::ask(&mut proc.ports, &mut proc.left, proc.size, port - 2);
            (
                proc.slots.worth(proc.plan.row().legs.gives(port - 2)),
                false,
            )
        }
        KeptPlan::Loop => {
            script::ask(Script::Loop, &mut proc.ports, &mut proc.left, 2);
            (None, true)
        }
        KeptPlan::OneByOne(script) => {
            script::ask(*script, &mut proc.ports, &mut proc.left, port);
            (None, true)
        }
        KeptPlan::Cells => unreachable!(),
        KeptPlan::Choice(mix) => {
            choice::ask(mix.get(), &mut proc.ports, proc.size, proc.left - 1);
            (proc.slots.worth(&mix.get().leg.gives), true)
        }
        KeptPlan::Meeting(meet) => {
            let meet = meet.get();
            let Some(leg) = &meet.leg else { unreachable!() };
            meeting::ask(meet, &mut proc.ports, &mut proc.left, proc.size);
            (proc.slots.worth(&leg.gives), true)
        }
        _ => (turn_far(proc, port, false, 0).1, false),
    }
}

/// Takes the request at a port where that is due, with the value if one rides with it: whether the process is known to move then.
/// Of what never carries a value the slots need not be looked up in its row.
#[inline(always)]
pub fn take(proc: &mut Process, port: u32, rides: bool, value: Value) -> bool
    requires due { CanTurn proc.old port }
    requires take { IsDueMove proc.old port Move.Take }
    ensures made { HasMade proc.old port (held rides value) proc.new Move.Take (held rides value) }
    ensures goes { HasGone proc.old port proc.new }
    ensures kept { KeepsPlan proc.old proc.new }
    ensures sure { IsTrue result → GoesOn proc.new }
{
    match &proc.plan {
        KeptPlan::CallsInTurn => {
            proc.slots.keep_riding(1, rides, value);
            in_turn::take(&mut proc.ports, &mut proc.left, proc.size);
            true
        }
        KeptPlan::PushesInTurn | KeptPlan::FetchesInTurn | KeptPlan::OwnInTurn(_) => {
            proc.slots.keep_riding(proc.plan.row().into, rides, value);
            in_turn::take(&mut proc.ports, &mut proc.left, proc.size);
            true
        }
        KeptPlan::CallsTogether | KeptPlan::PushesTogether | KeptPlan::OwnTogether(_) => {
            proc.slots.keep_riding(proc.plan.row().into, rides, value);
            together::take(&mut proc.ports, &mut proc.left, proc.size);
            true
        }
        KeptPlan::Loop => {
            proc.slots.keep_riding(1, rides, value);
            script::take(Script::Loop, &mut proc.ports, &mut proc.left);
            true
        }
        KeptPlan::OneByOne(script) => {
            proc.slots
                .keep_riding(script::taken_into(*script), rides, value);
            script::take(*script, &mut proc.ports, &mut proc.left);
            script::goes_round(*script)
        }
        KeptPlan::Cells => {
            cells::keep(&mut proc.slots, port, rides, value);
            cells::take(&mut proc.ports, proc.size, port);
            true
        }
        KeptPlan::Choice(mix) => {
            let (ports, left, slots) = (&mut proc.ports, &mut proc.left, &mut proc.slots);
            slots.keep_riding(mix.get().into, rides, value);
            choice::take(mix.get(), ports, left, proc.size, port - 1);
            true
        }
        KeptPlan::Meeting(meet) => {
            let (ports, left, slots) = (&mut proc.ports, &mut proc.left, &mut proc.slots);
            slots.keep_riding(meeting::into(meet.get(), proc.size, port - 1), rides, value);
            meeting::take(meet.get(), ports, left, proc.size, port - 1);
            false
        }
        _ => {
            let (_, _) = turn_far(proc, port, rides, value);
            false
        }
    }
}

/// Replies at a port where that is due: the value that it carries, and whether the process is known to wait there alone then.
#[inline(always)]
pub fn reply(proc: &mut Process, port: u32) -> (Option<Value>, bool)
    requires due { CanTurn proc.old port }
    requires reply { IsDueMove proc.old port Move.Reply }
    ensures made { HasMade proc.old port None proc.new Move.Reply result.0 }
    ensures goes { HasGone proc.old port proc.new }
    ensures kept { KeepsPlan proc.old proc.new }
    ensures waits { IsTrue result.1 → StaysAt proc.new port }
{
    match &proc.plan {
        KeptPlan::CallsInTurn => {
            in_turn::reply(&mut proc.ports, &mut proc.left, proc.size);
            (None, true)
        }
        KeptPlan::PushesInTurn | KeptPlan::FetchesInTurn | KeptPlan::OwnInTurn(_) => {
            in_turn::reply(&mut proc.ports, &mut proc.left, proc.size);
            (proc.slots.worth(&proc.plan.row().answer), true)
        }
        KeptPlan::CallsTogether | KeptPlan::PushesTogether | KeptPlan::OwnTogether(_) => {
            together::reply(&mut proc.ports, &mut proc.left, proc.size);
            (proc.slots.worth(&proc.plan.row().answer), true)
        }
        KeptPlan::Loop => {
            script::reply(Script::Loop, &mut proc.ports, &mut proc.left);
            (None, true)
        }
        KeptPlan::OneByOne(script) => {
            script::reply(*script, &mut proc.ports, &mut proc.left);
            (None, true)
        }
        KeptPlan::Cells => {
            cells::reply(&mut proc.ports, proc.size, port);
            (cells::answer(&proc.slots, port), false)
        }
        KeptPlan::Choice(mix) => {
            let (ports, left) = (&mut proc.ports, &mut proc.left);
            choice::reply(mix.get(), ports, left, proc.size, port - 1);
            (proc.slots.worth(&mix.get().answer), false)
        }
        KeptPlan::Meeting(meet) => {
            let (ports, left) = (&mut proc.ports, &mut proc.left);
            meeting::reply(meet.get(), ports, left, proc.size, port - 1);
            let answer = meeting::answer(meet.get(), proc.size, port - 1);
            (proc.slots.worth(answer), false)
        }
        _ => (turn_far(proc, port, false, 0).1, false),
    }
}

/// Gets the reply at a port where that is due, with the value if one rides with it: whether the process is known to move then.
#[inline(always)]
pub fn got(proc: &mut Process, port: u32, rides: bool, value: Value) -> bool
    requires due { CanTurn proc.old port }
    requires got { IsDueMove proc.old port Move.Got }
    ensures made { HasMade proc.old port (held rides value) proc.new Move.Got (held rides value) }
    ensures goes { HasGone proc.old port proc.new }
    ensures kept { KeepsPlan proc.old proc.new }
    ensures sure { IsTrue result → GoesOn proc.new }
{
    match &proc.plan {
        KeptPlan::CallsInTurn => {
            proc.slots.keep_riding(1, rides, value);
            in_turn::got(&mut proc.ports, &mut proc.left, proc.size, port - 2);
            true
        }
        KeptPlan::PushesInTurn | KeptPlan::FetchesInTurn | KeptPlan::OwnInTurn(_) => {
            proc.slots
                .keep_riding(proc.plan.row().legs.slot(port - 2), rides, value);
            in_turn::got(&mut proc.ports, &mut proc.left, proc.size, port - 2);
            true
        }
        KeptPlan::CallsTogether => {
            proc.slots.keep_riding(1, rides, value);
            together::got(&mut proc.ports, &mut proc.left, proc.size, port - 2);
            false
        }
        KeptPlan::PushesTogether | KeptPlan::OwnTogether(_) => {
            proc.slots
                .keep_riding(proc.plan.row().legs.slot(port - 2), rides, value);
            together::got(&mut proc.ports, &mut proc.left, proc.size, port - 2);
            false
        }
        KeptPlan::Loop => {
            proc.slots.keep_riding(1, rides, value);
            let (ports, left) = (&mut proc.ports, &mut proc.left);
            script::got(Script::Loop, ports, left, port, &proc.slots);
            true
        }
        KeptPlan::OneByOne(script) => {
            proc.slots
                .keep_riding(script::got_into(*script, port), rides, value);
            let (ports, left) = (&mut proc.ports, &mut proc.left);
            script::got(*script, ports, left, port, &proc.slots);
            true
        }
        KeptPlan::Cells => unreachable!(),
        KeptPlan::Choice(mix) => {
            proc.slots.keep_riding(mix.get().leg.into, rides, value);
            choice::got(mix.get(), &mut proc.ports, proc.size, proc.left - 1);
            true
        }
        KeptPlan::Meeting(meet) => {
            let meet = meet.get();
            let Some(leg) = &meet.leg else { unreachable!() };
            proc.slots.keep_riding(leg.into, rides, value);
            meeting::got(meet, &mut proc.ports, &mut proc.left, proc.size);
            true
        }
        _ => {
            let (_, _) = turn_far(proc, port, rides, value);
            false
        }
    }
}

// Makes the move that is due at a port, of a plan that few moves are of. What is called is small in its caller: the value goes
// there and back by its place.
#[inline(always)]
fn turn_far(proc: &mut Process, port: u32, rides: bool, value: Value) -> (Move, Option<Value>)
    requires rare { IsRare (plan_of proc.old.plan) }
    requires due { CanTurn proc.old port }
    ensures made { HasMade proc.old port (held rides value) proc.new result.0 result.1 }
    ensures goes { HasGone proc.old port proc.new }
    ensures kept { KeepsPlan proc.old proc.new }
{
    let mut value = value;
    let (mv, carries) = turn_held(proc, port, rides, &mut value);
    (mv, held(carries, value))
}

// The same with the value that rides in `value`, if `rides`, and then what is carried in it, if the second answer is true.
#[inline(never)]
fn turn_held(proc: &mut Process, port: u32, rides: bool, value: &mut Value) -> (Move, bool)
    requires rare { IsRare (plan_of proc.old.plan) }
    requires due { CanTurn proc.old port }
    ensures made { HasMade proc.old port (held rides value.old) proc.new result.0 (held result.1 value.new) }
    ensures goes { HasGone proc.old port proc.new }
    ensures kept { KeepsPlan proc.old proc.new }
{
    let before = held(rides, *value);
    let (mv, carried) = turn_rare(proc, port, before);
    let (carries, after) = parts(carried);
    *value = after;
    (mv, carries)
}

// The same with the value in hand.
#[inline(always)]
fn turn_rare(proc: &mut Process, port: u32, rides: Option<Value>) -> (Move, Option<Value>)
    requires rare { IsRare (plan_of proc.old.plan) }
    requires due { CanTurn proc.old port }
    ensures made { HasMade proc.old port rides proc.new result.0 result.1 }
    ensures goes { HasGone proc.old port proc.new }
    ensures kept { KeepsPlan proc.old proc.new }
{
    match &proc.plan {
        KeptPlan::Once(row) => {
            let (ports, left, slots) = (&mut proc.ports, &mut proc.left, &mut proc.slots);
            once::fire(row.get(), ports, left, proc.size, port, slots, rides)
        }
        KeptPlan::Select(spans) => {
            let (ports, left, slots) = (&mut proc.ports, &mut proc.left, &mut proc.slots);
            select::fire(spans, ports, left, proc.size, port, slots, rides)
        }
        KeptPlan::Indexed(spans) => {
            let (ports, left, slots) = (&mut proc.ports, &mut proc.left, &mut proc.slots);
            indexed::fire(spans, ports, left, proc.size, port, slots, rides)
        }
        KeptPlan::Signalled => {
            let (ports, slots) = (&mut proc.ports, &mut proc.slots);
            signalled::fire(ports, proc.size, port, slots, rides)
        }
        KeptPlan::Decision => {
            let (ports, left, slots) = (&mut proc.ports, &mut proc.left, &mut proc.slots);
            decision::fire(ports, left, proc.size, port, slots, rides)
        }
        KeptPlan::Bar => {
            let (ports, left, slots) = (&mut proc.ports, &mut proc.left, &mut proc.slots);
            bar::fire(ports, left, proc.size, port, slots, rides)
        }
        _ => unreachable!(),
    }
}

/// Whether there is a value, and which.
#[inline]
pub(crate) fn parts(value: Option<Value>) -> (bool, Value)
    ensures { held result.0 result.1 ≡ value }
{
    match value {
        Some(value) => (true, value),
        None => (false, 0),
    }
}

/// The value, if it is there.
#[inline]
pub fn held(is_there: bool, value: Value) -> Option<Value>
    ensures { result ≡ held is_there value }
{
    if is_there { Some(value) } else { None }
}
