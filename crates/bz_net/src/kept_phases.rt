//! The phases of a net's channels, in little room: a mark for each channel, and the values in a row of their own.

ghost use Rattle.std.specs.Prelude.{◌≡◌, ◌≢◌, ◌<◌, ℕ, IfOk, Some, length, replicate, slice_index_or, slice_set};
ghost use Rattle.bz_model.specs.declared.channel.Phase.{Phase};
ghost use Rattle.bz_model.specs.declared.channel.Phase.TheVariants.{Idle};
ghost use Rattle.bz_model.specs.Phases.{phase_after};
ghost use Rattle.bz_kinds.specs.Riding.{held, riding};
ghost use Rattle.bz_net.specs.Due.{next_of};
ghost use Rattle.bz_net.specs.KeptPhases.{phase_of, MarksPhase};

use crate::moves::sends;
use bz_kinds::held;
use bz_model::{Move, Phase, Value};
use std::alloc::{AllocError, Global};
use std::marker::Model;

/// How far a handshake has come, and whether a value rides on its channel. Those that moves without a value leave stand in the
/// moves' order, so that one addition finds them.
#[derive(Clone, Copy)]
pub(crate) enum Mark {
    Broken,
    Asked,
    Taken,
    Replied,
    Idle,
    AskedWith,
    RepliedWith,
}

/// A phase for each channel, seen as their list. A value is kept in its place, and left there once its phase is over.
pub(crate) struct Phases {
    marks: Vec<Mark>,
    values: Vec<Value>,
}

impl Drop for Phases {
    fn drop(self) {
        let Phases {
            marks: _,
            values: _,
        } = self;
    }
}

impl Model for Phases {
    ghost use Rattle.std.specs.Prelude.{◌≡◌, List, length};
    ghost use Rattle.bz_model.specs.declared.channel.Phase.{Phase};
    ghost use Rattle.bz_model.specs.Phases.{phase_after};
    ghost use Rattle.bz_kinds.specs.Riding.{riding};
    ghost use Rattle.bz_net.specs.KeptPhases.{phases_of};

    ghost Value = { List Phase };

    ghost view = { λ p. phases_of p.marks.items p.values.items };

    ghost invariant = { λ p. length p.values.items ≡ length p.marks.items };
}

impl Phases {
    /// All channels idle.
    #[tactic(auto, using(crate::proofs::Marks::idle_phases))]
    pub(crate) fn new(alloc: Global, count: usize) -> Result<Phases, AllocError>
        ensures { IfOk result (λ p. p ≡ replicate count Idle) }
    {
        let marks = vec![in alloc; Mark::Idle; count]?;
        let values = vec![in alloc; 0; count]?;
        Ok(Phases { marks, values })
    }

    /// The same phases.
    pub(crate) fn dup(&self, alloc: Global) -> Result<Phases, AllocError>
        ensures { IfOk result (λ p. p ≡ self.now) }
    {
        let marks = Vec::from_slice(alloc, &self.marks)?;
        let values = Vec::from_slice(alloc, &self.values)?;
        Ok(Phases { marks, values })
    }

    /// Puts all channels to idle.
    #[tactic(auto, using(crate::proofs::Marks::length_phases, crate::proofs::Marks::idle_phases))]
    pub(crate) fn clear(&mut self)
        ensures { self.new ≡ replicate (length self.old) Idle }
    {
        self.marks.fill(Mark::Idle);
    }

    #[tactic(auto, using(crate::proofs::Marks::length_phases))]
    pub(crate) fn len(&self) -> usize
        ensures { result ≡ length self.now }
    {
        self.marks.len()
    }

    /// The phase in a place, counted from 0.
    #[inline(always)]
    #[tactic(auto, using(crate::proofs::Marks::length_phases, crate::proofs::Marks::phase_read))]
    pub(crate) fn get(&self, place: usize) -> Phase
        requires { place < length self.now }
        ensures { result ≡ slice_index_or self.now place Idle }
    {
        phase_of(self.marks[place], &self.values[place])
    }

    /// The move that comes next on the channel in a place, counted from 0, where that isn't broken.
    #[inline(always)]
    #[tactic(auto, using(crate::proofs::Marks::length_phases))]
    pub(crate) fn next(&self, place: usize) -> Move
        requires { place < length self.now }
        ensures { slice_index_or self.now place Idle ≢ Phase.Broken → next_of (slice_index_or self.now place Idle) ≡ Some result }
    {
        next_after(self.marks[place]).0
    }

    /// The same, and whether a value rides there, which is put into `value`.
    #[inline(always)]
    #[tactic(auto, using(crate::proofs::Marks::length_phases))]
    pub(crate) fn next_riding(&self, place: usize, value: &mut Value) -> (Move, bool)
        requires { place < length self.now }
        ensures next { slice_index_or self.now place Idle ≢ Phase.Broken → next_of (slice_index_or self.now place Idle) ≡ Some result.0 }
        ensures rides { held result.1 value.new ≡ riding (slice_index_or self.now place Idle) }
    {
        let (next, rides) = next_after(self.marks[place]);
        if rides {
            *value = self.values[place];
        }
        (next, rides)
    }

    /// The value that rides on the channel in a place, counted from 0.
    #[inline]
    #[tactic(auto, using(crate::proofs::Marks::length_phases, crate::proofs::Marks::request_rides, crate::proofs::Marks::reply_rides, crate::proofs::Marks::none_rides))]
    pub(crate) fn riding(&self, place: usize) -> Option<Value>
        requires { place < length self.now }
        ensures { result ≡ riding (slice_index_or self.now place Idle) }
    {
        match self.marks[place] {
            Mark::AskedWith | Mark::RepliedWith => Some(self.values[place]),
            _ => None,
        }
    }

    /// Makes a move that breaks no handshake on the channel in a place, counted from 0, with the value if it carries one.
    #[inline]
    #[tactic(auto, using(crate::proofs::Marks::length_phases, crate::proofs::Marks::mark_put, crate::proofs::Marks::both_put))]
    pub(crate) fn make(&mut self, place: usize, mv: Move, carries: bool, value: Value)
        requires within { place < length self.old }
        requires whole { phase_after (slice_index_or self.old place Idle) mv (held carries value) ≢ Phase.Broken }
        ensures { self.new ≡ slice_set self.old place (phase_after (slice_index_or self.old place Idle) mv (held carries value)) }
    {
        let (mark, kept) = mark_after(mv, held(carries, value));
        self.marks[place] = mark;
        if let Some(value) = kept {
            self.values[place] = value;
        }
    }

    /// Puts a phase into a place, counted from 0.
    #[inline(always)]
    #[tactic(auto, using(crate::proofs::Marks::length_phases, crate::proofs::Marks::mark_put, crate::proofs::Marks::both_put))]
    pub(crate) fn put(&mut self, place: usize, phase: Phase)
        requires { place < length self.old }
        ensures { self.new ≡ slice_set self.old place phase }
    {
        let (mark, value) = mark_of(phase);
        self.marks[place] = mark;
        if let Some(value) = value {
            self.values[place] = value;
        }
    }
}

// The move that comes next by a mark, where that isn't broken, and whether a value rides.
#[inline(always)]
fn next_after(mark: Mark) -> (Move, bool)
    ensures next { (v : ℕ) → phase_of mark v ≢ Phase.Broken → next_of (phase_of mark v) ≡ Some result.0 }
    ensures rides { (v : ℕ) → held result.1 v ≡ riding (phase_of mark v) }
{
    match mark {
        Mark::Broken | Mark::Idle => (Move::Ask, false),
        Mark::Asked => (Move::Take, false),
        Mark::AskedWith => (Move::Take, true),
        Mark::Taken => (Move::Reply, false),
        Mark::Replied => (Move::Got, false),
        Mark::RepliedWith => (Move::Got, true),
    }
}

// The phase that a mark tells, by the value beside it. That is read only where one rides.
#[inline(always)]
fn phase_of(mark: Mark, value: &Value) -> Phase
    ensures { result ≡ phase_of mark value.now }
{
    match mark {
        Mark::Idle => Phase::Idle,
        Mark::Asked => Phase::Asked(None),
        Mark::AskedWith => Phase::Asked(Some(*value)),
        Mark::Taken => Phase::Taken,
        Mark::Replied => Phase::Replied(None),
        Mark::RepliedWith => Phase::Replied(Some(*value)),
        Mark::Broken => Phase::Broken,
    }
}

// The mark after a move that carries this value, and breaks no handshake; and the value that is kept beside it.
#[inline]
fn mark_after(mv: Move, value: Option<Value>) -> (Mark, Option<Value>)
    ensures { (phase : Phase) → phase_after phase mv value ≢ Phase.Broken → MarksPhase (phase_after phase mv value) result.0 result.1 }
{
    match value {
        Some(value) if sends(mv) => match mv {
            Move::Ask => (Mark::AskedWith, Some(value)),
            _ => (Mark::RepliedWith, Some(value)),
        },
        _ => match mv {
            Move::Ask => (Mark::Asked, None),
            Move::Take => (Mark::Taken, None),
            Move::Reply => (Mark::Replied, None),
            Move::Got => (Mark::Idle, None),
        },
    }
}

// The mark of a phase, and the value that it holds.
#[inline(always)]
fn mark_of(phase: Phase) -> (Mark, Option<Value>)
    ensures { MarksPhase phase result.0 result.1 }
{
    match phase {
        Phase::Idle => (Mark::Idle, None),
        Phase::Asked(None) => (Mark::Asked, None),
        Phase::Asked(Some(value)) => (Mark::AskedWith, Some(value)),
        Phase::Taken => (Mark::Taken, None),
        Phase::Replied(None) => (Mark::Replied, None),
        Phase::Replied(Some(value)) => (Mark::RepliedWith, Some(value)),
        Phase::Broken => (Mark::Broken, None),
    }
}
