//! A component: where its ports are, and the values that it keeps.

ghost use Rattle.std.specs.Prelude.{◌≡◌, ◌≤◌, ◌-◌, ◌*◌, ◌^◌, ◌<◌, ◌↔◌, Bool, true, not, ℕ, Some, IsTrue, IfSome, IfOk, IfErr, MatchOption, length, slice_set, replicate};
ghost use Rattle.std.specs.Option.{option_map};
ghost use Rattle.bz_model.specs.declared.error.KindError.TheVariants.{Memory};
ghost use Rattle.bz_model.specs.Heads.{Head, IsHeadOn, CanMove, Moves, Proc, Turns, HasOneHead, carried, opens, open_at};
ghost use Rattle.bz_model.specs.Terms.{IsNarrow};
ghost use Rattle.bz_model.specs.Rows.{MeetsRow};
ghost use Rattle.bz_model.specs.Processes.{start_of};
ghost use Rattle.bz_model.specs.Widths.{Fitted, FitsAt, HoldsAt};
ghost use Rattle.bz_kinds.specs.declared.ports.PortState.TheVariants.{Closed, ClosedDue};
ghost use Rattle.bz_kinds.specs.Row.{seen};
ghost use Rattle.bz_kinds.specs.Moves.{AreEnabled};
ghost use Rattle.bz_kinds.specs.Ready.{AreReady, CanGo, NoneDue};
ghost use Rattle.bz_kinds.specs.Sure.{HasMove, IsSure, WaitsAt};
ghost use Rattle.bz_kinds.specs.Start.{BeginsAt, IsAllDue, IsDueBut, AreMembersDue};
ghost use Rattle.bz_kinds.specs.Kept.{plan_of};
ghost use Rattle.bz_kinds.specs.KeptLists.{slots_of};
ghost use Rattle.bz_model.specs.declared.channel.Phase.{Phase};
ghost use Rattle.bz_kinds.specs.Riding.{held, riding, taken};
ghost use Rattle.bz_kinds.specs.Comp.{IsFor, plan_due};

use crate::kept::KeptPlan;
use crate::kept_lists::{KeptChans, KeptSlots};
use crate::move_iter::MoveIter;
use crate::ports::{PortState, Ports};
use crate::process::Process;
use crate::row::{DueMove, Script};
use crate::same::is_same_plan;
use crate::sense::{active_word, is_active_behind, move_at, passive_word};
use crate::shape::{CALLS, FETCHES, PUSHES, shape_of};
use crate::{
    bar, cells, choice, decision, enclosed, indexed, meeting, process, script, select, signalled,
};
use bz_model::{Chan, Kind, KindError, Move, Phase, Value};
use std::alloc::{AllocError, Global};
use std::marker::Model;

/// A component in a state, seen as its process, its channels and the ports that its own moves have opened. Its ports stand in
/// front, so that a look at it reads little memory.
#[derive(Drop)]
pub struct Comp {
    proc: Process,
    chans: KeptChans,
}

impl Model for Comp {
    ghost use Rattle.std.specs.Prelude.{◌≡◌, ◌<◌, ◌^◌, ◌-◌, ℕ, suc, length, map};
    ghost use Rattle.std.specs.Coded.{codes};
    ghost use Rattle.bz_model.specs.Heads.{Component};
    ghost use Rattle.bz_model.specs.Codes.{term_code};
    ghost use Rattle.bz_model.specs.Widths.{Sends};

    ghost Value = { Component };

    ghost coded = { Prim.hlevel (codes, term_code) };

    ghost use Rattle.bz_kinds.specs.Comp.{todo_of, IsAt, places};
    ghost use Rattle.bz_kinds.specs.Kept.{plan_of};
    ghost use Rattle.bz_kinds.specs.KeptLists.{chans_of, slots_of};
    ghost use Rattle.bz_kinds.specs.Row.{is_open};
    ghost use Rattle.bz_kinds.specs.Ready.{IsActive};

    ghost view = { λ c. record { proc = record { todo = todo_of (plan_of c.proc.plan) c.proc.size c.proc.left c.proc.ports; store = slots_of c.proc.slots }; chans = chans_of c.chans; open_ports = map is_open c.proc.ports } };

    ghost invariant = { λ c. IsAt (plan_of c.proc.plan) c.proc.size c.proc.left c.proc.ports (slots_of c.proc.slots) × ((c.proc.size < 2 ^ 30) × IsActive (plan_of c.proc.plan) c.proc.size 0 c.proc.active × (places (plan_of c.proc.plan) c.proc.size ≡ suc (length (chans_of c.chans)))) × ((bits : ℕ) × Sends (chans_of c.chans) bits (todo_of (plan_of c.proc.plan) c.proc.size c.proc.left c.proc.ports)) };
}

/// A component of this kind at its start, with arrays of these lengths, on these channels in the order of its ports.
pub fn start(alloc: Global, kind: &Kind, sizes: [u32; 2], chans: &[Chan]) -> Result<Comp, KindError>
    requires { MeetsRow kind.now sizes chans.now }
    ensures begun { IfOk result (λ c. c ≡ start_of kind.now sizes chans.now) }
    ensures fitted { IfOk result (λ c. Fitted c) }
    ensures memory { IfErr result (λ e. e ≡ Memory) }
{
    let shape = shape_of(alloc, kind, sizes, chans)?;
    let ports = first_ports(alloc, &shape.plan, shape.legs)?;
    let slots = KeptSlots::new(alloc, shape.slots)?;
    let chans = KeptChans::of(alloc, chans)?;
    let active = active_word(&shape.plan, shape.legs, 0);
    let proc = Process {
        ports,
        plan: shape.plan,
        size: shape.legs,
        left: 0,
        active,
        slots,
    };
    Ok(Comp { proc, chans })
}

/// The move that a component can make next at a port, where its channel allows it.
pub fn next(comp: &Comp, port: u32) -> Option<Move>
    ensures some { IfSome result (λ m. (h : Head) × IsHeadOn comp.now.proc port h × (h.move ≡ m)) }
    ensures only { (h : Head) → IsHeadOn comp.now.proc port h → result ≡ Some h.move }
    ensures one { HasOneHead comp.now.proc.todo }
{
    move_at(
        &comp.proc.plan,
        comp.proc.size,
        port,
        comp.proc.ports.get(port),
    )
}

/// Whether a component can move at a port whose channel has this phase.
pub fn enabled(comp: &Comp, port: u32, phase: Phase) -> bool
    ensures { IsTrue result ↔ CanMove comp.now.proc port phase }
{
    next(comp, port).is_some_and(|mv| phase.allows(mv))
}

/// The move that a component can make at a port whose channel has this phase, and the value that it would carry.
pub fn foresee(comp: &Comp, port: u32, phase: Phase) -> Option<(Move, Option<Value>)>
    ensures moves { MatchOption result (CanMove comp.now.proc port phase → ⊥)
        (λ made. (rest : Proc) × Moves comp.now.proc port phase made.0 made.1 rest) }
    ensures one { HasOneHead comp.now.proc.todo }
{
    let proc = &comp.proc;
    let Some(due) = due_at(&proc.plan, proc.size, proc.left, port, proc.ports.get(port)) else {
        return None;
    };
    if !phase.allows(due.mv) {
        return None;
    }
    let incoming = taken(due.mv, riding(phase));
    Some((due.mv, carried(&due, proc.slots.get(), incoming)))
}

/// Makes the move at a port whose channel has this phase: the move, and the value that it carries.
pub fn apply(comp: &mut Comp, port: u32, phase: Phase) -> (Move, Option<Value>)
    requires { CanMove comp.old.proc port phase }
    ensures moves { Moves comp.old.proc port phase result.0 result.1 comp.new.proc }
    ensures turns { Turns comp.old port result.0 comp.new }
    ensures one { HasOneHead comp.old.proc.todo }
    ensures chans { comp.new.chans ≡ comp.old.chans }
    ensures fits { Fitted comp.old → HoldsAt comp.old.chans port phase → FitsAt comp.old.chans port result.0 result.1 × Fitted comp.new }
{
    let incoming = riding(phase);
    let (rides, value) = process::parts(incoming);
    match next(comp, port) {
        Some(Move::Ask) => (Move::Ask, ask(comp, port).0),
        Some(Move::Take) => {
            take(comp, port, rides, value);
            (Move::Take, incoming)
        }
        Some(Move::Reply) => (Move::Reply, reply(comp, port).0),
        Some(Move::Got) => {
            got(comp, port, rides, value);
            (Move::Got, incoming)
        }
        None => unreachable!(),
    }
}

/// Asks at a port where a request is due: the value that it carries, and whether the component is known to wait there alone then.
#[inline(always)]
pub fn ask(comp: &mut Comp, port: u32) -> (Option<Value>, bool)
    requires { HasMove comp.old.proc port Move.Ask }
    ensures moves { (phase : Phase) → Moves comp.old.proc port phase Move.Ask result.0 comp.new.proc }
    ensures turns { Turns comp.old port Move.Ask comp.new }
    ensures one { HasOneHead comp.old.proc.todo }
    ensures chans { comp.new.chans ≡ comp.old.chans }
    ensures waits { IsTrue result.1 → WaitsAt comp.new.proc port }
{
    process::ask(&mut comp.proc, port)
}

/// Takes the request at a port where that is due, with the value if one rides with it: whether the component is known to move then.
#[inline(always)]
pub fn take(comp: &mut Comp, port: u32, rides: bool, value: Value) -> bool
    requires { HasMove comp.old.proc port Move.Take }
    ensures moves { Moves comp.old.proc port (Phase.Asked (held rides value)) Move.Take (held rides value) comp.new.proc }
    ensures turns { Turns comp.old port Move.Take comp.new }
    ensures one { HasOneHead comp.old.proc.todo }
    ensures chans { comp.new.chans ≡ comp.old.chans }
    ensures sure { IsTrue result → IsSure comp.new }
{
    process::take(&mut comp.proc, port, rides, value)
}

/// Replies at a port where that is due: the value that it carries, and whether the component is known to wait there alone then.
#[inline(always)]
pub fn reply(comp: &mut Comp, port: u32) -> (Option<Value>, bool)
    requires { HasMove comp.old.proc port Move.Reply }
    ensures moves { (phase : Phase) → Moves comp.old.proc port phase Move.Reply result.0 comp.new.proc }
    ensures turns { Turns comp.old port Move.Reply comp.new }
    ensures one { HasOneHead comp.old.proc.todo }
    ensures chans { comp.new.chans ≡ comp.old.chans }
    ensures waits { IsTrue result.1 → WaitsAt comp.new.proc port }
{
    process::reply(&mut comp.proc, port)
}

/// Gets the reply at a port where that is due, with the value if one rides with it: whether the component is known to move then.
#[inline(always)]
pub fn got(comp: &mut Comp, port: u32, rides: bool, value: Value) -> bool
    requires { HasMove comp.old.proc port Move.Got }
    ensures moves { Moves comp.old.proc port (Phase.Replied (held rides value)) Move.Got (held rides value) comp.new.proc }
    ensures turns { Turns comp.old port Move.Got comp.new }
    ensures one { HasOneHead comp.old.proc.todo }
    ensures chans { comp.new.chans ≡ comp.old.chans }
    ensures sure { IsTrue result → IsSure comp.new }
{
    process::got(&mut comp.proc, port, rides, value)
}

// The value that rides on a channel in this phase.
#[inline(always)]
fn riding(phase: Phase) -> Option<Value>
    ensures { result ≡ riding phase }
{
    match phase {
        Phase::Asked(value) | Phase::Replied(value) => value,
        Phase::Idle | Phase::Taken | Phase::Broken => None,
    }
}

// What a move takes of the value that rides on its channel.
#[inline(always)]
fn taken(mv: Move, rides: Option<Value>) -> Option<Value>
    ensures { result ≡ taken mv rides }
{
    match mv {
        Move::Ask | Move::Reply => None,
        Move::Take | Move::Got => rides,
    }
}

/// The ports at which a component can move, rising. `phases` are those of the channels at its ports, in their order.
pub fn moves<'a>(comp: &'a Comp, phases: &'a [Phase]) -> MoveIter<'a>
    requires { length phases.now < 2 ^ 32 }
    ensures { AreEnabled comp.now.proc phases.now result }
{
    MoveIter::new(
        &comp.proc.plan,
        comp.proc.size,
        comp.proc.left,
        &comp.proc.ports,
        phases,
    )
}

/// The ports of word `at`, from port 64 * at on, at which a component can move, a bit for each. `here` tells of each of
/// them whether what a take or a got there waits for is on its channel.
#[inline(always)]
pub fn ready_word(comp: &Comp, at: u32, here: u64) -> u64
    requires { at < 2 ^ 26 }
    ensures ready { AreReady comp.now.proc at here result }
    ensures held { (p : ℕ) (h : Head) → IsHeadOn comp.now.proc p h → (0 < p) × (p ≤ length comp.now.chans) }
    ensures turns { (p : ℕ) (h : Head) → IsHeadOn comp.now.proc p h → opens h.move ≡ not (open_at comp.now p) }
{
    let word = comp.proc.ports.word(at);
    let active = if at == 0 {
        comp.proc.active
    } else if word.due == 0 {
        return 0;
    } else {
        active_word(&comp.proc.plan, comp.proc.size, at)
    };
    word.ready(active, here)
}

/// The same of a word behind the first.
#[inline(always)]
pub fn far_word(comp: &Comp, at: u32, here: u64) -> u64
    requires far { 0 < at }
    requires few { at < 2 ^ 26 }
    ensures ready { AreReady comp.now.proc at here result }
    ensures held { (p : ℕ) (h : Head) → IsHeadOn comp.now.proc p h → (0 < p) × (p ≤ length comp.now.chans) }
    ensures turns { (p : ℕ) (h : Head) → IsHeadOn comp.now.proc p h → opens h.move ≡ not (open_at comp.now p) }
{
    let word = comp.proc.ports.word(at);
    if word.due == 0 {
        return 0;
    }
    let passive = if is_active_behind(&comp.proc.plan) {
        0
    } else {
        passive_word(&comp.proc.plan, comp.proc.size, at)
    };
    word.ready(!passive, here)
}

/// Whether a component has a move due at a port: it can be made there once what it may wait for is on its channel.
#[inline(always)]
pub fn has_move(comp: &Comp, port: u32) -> bool
    ensures due { IsTrue result ↔ CanGo comp.now.proc port true }
    ensures turns { (p : ℕ) (h : Head) → IsHeadOn comp.now.proc p h → opens h.move ≡ not (open_at comp.now p) }
{
    comp.proc.ports.get(port).is_due()
}

/// The first word from `at` on with a port at which a component has a move due; past the last word where there is none.
#[inline(always)]
pub fn next_due(comp: &Comp, at: usize) -> usize
    requires { 0 < at }
    ensures from { at ≤ result }
    ensures passed { (k : ℕ) → at ≤ k → k < result → NoneDue comp.now.proc k }
    ensures stops { NoneDue comp.now.proc result → (k : ℕ) → at ≤ k → NoneDue comp.now.proc k }
{
    comp.proc.ports.next_due(at)
}

/// The first word from `at` on in which a move may be due that waits for nothing. Each that is due in a word before it waits for
/// what comes on its channel, a take for a request and a got for a reply.
#[inline(always)]
pub fn waits_to(comp: &Comp, at: usize) -> usize
    requires { 0 < at }
    ensures from { at ≤ result }
    ensures waits { (p : ℕ) (here : Bool) → 64 * at ≤ p → p < 64 * result → CanGo comp.now.proc p here → here ≡ true }
{
    let proc = &comp.proc;
    match &proc.plan {
        KeptPlan::Choice(_) => past_all_if(proc.left == 0, at),
        KeptPlan::Meeting(_) => past_all_if(meeting::only_takes(&proc.ports, proc.size), at),
        KeptPlan::CallsTogether => proc.ports.next_to_open(at),
        KeptPlan::PushesTogether => proc.ports.next_to_open(at),
        KeptPlan::OwnTogether(_) => proc.ports.next_to_open(at),
        _ => at,
    }
}

// A word past all, or else this one.
#[inline(always)]
fn past_all_if(all: bool, at: usize) -> usize
    ensures from { at ≤ result }
    ensures only { at < result → IsTrue all }
{
    if all { usize::MAX } else { at }
}

/// The same component in the same state.
pub fn dup(alloc: Global, comp: &Comp) -> Result<Comp, KindError>
    ensures same { IfOk result (λ c. c ≡ comp.now) }
    ensures memory { IfErr result (λ e. e ≡ Memory) }
{
    let plan = comp.proc.plan.dup(alloc)?;
    let ports = comp.proc.ports.dup(alloc)?;
    let slots = comp.proc.slots.dup(alloc)?;
    let chans = comp.chans.dup(alloc)?;
    let proc = Process {
        ports,
        plan,
        size: comp.proc.size,
        left: comp.proc.left,
        active: comp.proc.active,
        slots,
    };
    Ok(Comp { proc, chans })
}

/// Whether two components have the same process: the same plan, and the same place in it with the same values.
pub fn is_same(comp: &Comp, other: &Comp) -> bool
    ensures { IsTrue result → comp.now.proc ≡ other.now.proc }
{
    let (proc, other) = (&comp.proc, &other.proc);
    proc.left == other.left
        && proc.size == other.size
        && proc.ports.is_same(&other.ports)
        && proc.slots.is_same(&other.slots)
        && is_same_plan(&proc.plan, &other.plan)
}

// The ports of a plan at its start.
fn first_ports(alloc: Global, plan: &KeptPlan, legs: u32) -> Result<Ports, AllocError>
    requires small { legs < 2 ^ 30 }
    requires is_for { IsFor (plan_of plan.now) legs }
    ensures { IfOk result (BeginsAt (plan_of plan.now) legs) }
{
    match plan {
        KeptPlan::CallsInTurn => first_only(alloc, legs as usize + 2),
        KeptPlan::PushesInTurn => first_only(alloc, legs as usize + 2),
        KeptPlan::FetchesInTurn => first_only(alloc, legs as usize + 2),
        KeptPlan::OwnInTurn(_) => first_only(alloc, legs as usize + 2),
        KeptPlan::CallsTogether => first_only(alloc, legs as usize + 2),
        KeptPlan::PushesTogether => first_only(alloc, legs as usize + 2),
        KeptPlan::OwnTogether(_) => first_only(alloc, legs as usize + 2),
        KeptPlan::Once(_) => first_only(alloc, legs as usize + 2),
        KeptPlan::Cells => from_first(alloc, legs as usize + 2),
        KeptPlan::Select(_) => first_only(alloc, legs as usize + 2),
        KeptPlan::Indexed(_) => first_only(alloc, legs as usize + 3),
        KeptPlan::Loop => first_only(alloc, script::places(Script::Loop)),
        KeptPlan::OneByOne(script) => first_only(alloc, script::places(*script)),
        KeptPlan::Signalled => all_but(alloc, legs as usize + 3, 2),
        KeptPlan::Choice(mix) => {
            let count = legs as usize + choice::actives(mix.get(), legs) as usize + 1;
            first_members(alloc, count, legs)
        }
        KeptPlan::Meeting(meet) => {
            let count = legs as usize + meeting::actives(meet.get()) as usize + 1;
            first_members(alloc, count, legs)
        }
        KeptPlan::Decision => first_only(alloc, 2 * legs as usize + 2),
        KeptPlan::Bar => first_members(alloc, 2 * legs as usize + 3, 2),
    }
}

// Port 1 alone has a move due.
fn first_only(alloc: Global, count: usize) -> Result<Ports, AllocError>
    ensures { IfOk result (λ w. w ≡ slice_set (replicate count Closed) 1 ClosedDue) }
{
    let mut ports = Ports::new(alloc, count)?;
    ports.set(1, PortState::ClosedDue);
    Ok(ports)
}

// All ports have a move due.
fn from_first(alloc: Global, count: usize) -> Result<Ports, AllocError>
    ensures { IfOk result (λ w. IsAllDue count w) }
{
    let mut ports = Ports::new(alloc, count)?;
    ports.set_from(1, PortState::ClosedDue);
    Ok(ports)
}

// All ports but one have a move due.
fn all_but(alloc: Global, count: usize, port: u32) -> Result<Ports, AllocError>
    requires { 0 < port }
    ensures { IfOk result (IsDueBut count port) }
{
    let mut ports = Ports::new(alloc, count)?;
    ports.set_from(1, PortState::ClosedDue);
    ports.set(port, PortState::Closed);
    Ok(ports)
}

// The first ports have a move due, up to the last member of an array.
fn first_members(alloc: Global, count: usize, members: u32) -> Result<Ports, AllocError>
    requires { members < 2 ^ 30 }
    ensures { IfOk result (AreMembersDue count members) }
{
    let mut ports = Ports::new(alloc, count)?;
    ports.set_from(1, PortState::ClosedDue);
    ports.set_from(members + 1, PortState::Closed);
    Ok(ports)
}

// What the due move carries: what it sends, else what came in.
fn carried(due: &DueMove<'_>, slots: &[Value], incoming: Option<Value>) -> Option<Value>
    requires { IsNarrow due.now.gives.now }
    ensures { result ≡ carried due.now.mv due.now.gives.now slots.now incoming }
{
    match due.mv {
        Move::Ask | Move::Reply => due.gives.value(slots),
        Move::Take | Move::Got => incoming,
    }
}

/// The move due at a port, whose state is `state`.
pub(crate) fn due_at(
    plan: &KeptPlan,
    size: u32,
    left: u32,
    port: u32,
    state: PortState,
) -> Option<DueMove<'_>>
    ensures { option_map seen result ≡ plan_due (plan_of plan.now) size left port state }
{
    match plan {
        KeptPlan::CallsInTurn => enclosed::due(&CALLS, port, state),
        KeptPlan::PushesInTurn => enclosed::due(&PUSHES, port, state),
        KeptPlan::FetchesInTurn => enclosed::due(&FETCHES, port, state),
        KeptPlan::OwnInTurn(row) => enclosed::due(row, port, state),
        KeptPlan::CallsTogether => enclosed::due(&CALLS, port, state),
        KeptPlan::PushesTogether => enclosed::due(&PUSHES, port, state),
        KeptPlan::OwnTogether(row) => enclosed::due(row, port, state),
        KeptPlan::Once(row) => enclosed::due(row.get(), port, state),
        KeptPlan::Cells => cells::due(port, state),
        KeptPlan::Select(_) => enclosed::due(&select::ROW, port, state),
        KeptPlan::Indexed(_) => indexed::due(left, port, state),
        KeptPlan::Loop => script::due(Script::Loop, port, state),
        KeptPlan::OneByOne(script) => script::due(*script, port, state),
        KeptPlan::Signalled => signalled::due(port, state),
        KeptPlan::Choice(mix) => choice::due(mix.get(), size, port, state),
        KeptPlan::Meeting(meet) => meeting::due(meet.get(), size, port, state),
        KeptPlan::Decision => decision::due(size, port, state),
        KeptPlan::Bar => bar::due(size, port, state),
    }
}
