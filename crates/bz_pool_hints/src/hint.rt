// The deque of one worker's hints.
ghost use Rattle.std.specs.Prelude.{◌≡◌, ℕ, ◌≤◌, List, [], ◌∷◌, ◌++◌, length, IfOk, IfErr, IfNone, MatchResult, MatchOption};
ghost use Rattle.bz_pool_hints.specs.Hints.{IsHistory};
ghost use Rattle.bz_pool_hints.specs.Stolen.{hints_of};

mod log;
mod rule;

use crate::hint::log::Log;
use crate::hint::rule::{Account, Beside, InOrder, Put, Taken};
use crossbeam_deque::{Pass, Steal, Stealer, Worker};
use std::alloc::Global;
use std::marker::Model;
use thiserror::Error;

/// Memory was refused.
#[derive(Clone, Copy, Debug, PartialEq, Eq, Error)]
#[error("Memory")]
pub struct Memory;

/// A deque takes so many hints before it grows for the first time.
pub const FIRST_CAPACITY: usize = 16;

/// The end of the worker whose hints they are.
#[derive(Drop)]
pub struct HintOwner {
    worker: Worker<u32, Global, Log, InOrder>,
}

impl Model for HintOwner {
    ghost use Rattle.std.specs.Prelude.{◌≡◌, ◌≤◌, [], true, length};
    ghost use Rattle.crossbeam_deque.specs.Handles.{worker_deque, worker_flavor, worker_view, worker_capacity, worker_index};
    ghost use Rattle.bz_pool_hints.specs.declared.hint.TheConstants.{FIRST_CAPACITY};
    ghost use Rattle.bz_pool_hints.specs.Hints.{Owned};

    ghost Value = { Owned };

    ghost view = { λ o. record { deque = worker_deque o.worker; put = (worker_view o.worker).put; taken = (worker_view o.worker).taken } };

    ghost invariant = { λ o. (worker_flavor o.worker ≡ 0) × ((worker_view o.worker).owner ≡ true) × ((worker_view o.worker).beside ≡ []) × (FIRST_CAPACITY ≤ worker_capacity o.worker) × (worker_index o.worker ≤ length (worker_view o.worker).put) };
}

/// An end for the other workers.
#[derive(Drop)]
pub struct HintThief {
    stealer: Stealer<u32, Global, Log, InOrder>,
}

impl Model for HintThief {
    ghost use Rattle.std.specs.Prelude.{◌≡◌};
    ghost use Rattle.crossbeam_deque.specs.Handles.{stealer_deque, stealer_flavor};
    ghost use Rattle.bz_pool_hints.specs.Hints.{Deque};

    ghost Value = { Deque };

    ghost view = { λ t. stealer_deque t.stealer };

    ghost invariant = { λ t. stealer_flavor t.stealer ≡ 0 };
}

/// What a thief has taken. It has no bytes. What a pass that is dropped has taken counts among the others' lists.
#[derive(Drop)]
pub struct HintPass {
    pass: Pass<u32, Log>,
}

impl Model for HintPass {
    ghost use Rattle.std.specs.Prelude.{◌≡◌, None};
    ghost use Rattle.crossbeam_deque.specs.Handles.{view as pass_view};
    ghost use Rattle.bz_pool_hints.specs.Hints.{Passed};

    ghost Value = { Passed };

    ghost view = { λ p. record { deque = (p.pass.rows, p.pass.heap); taken = (pass_view p.pass).taken; beside = (pass_view p.pass).beside } };

    ghost invariant = { λ p. (p.pass.me.hand ≡ None) × (p.pass.me.spare ≡ None) };
}

/// What a thief got.
#[derive(Clone, Copy, Debug, PartialEq, Eq)]
pub enum Stolen {
    Hint(u32),
    /// The deque was empty at one moment of the call.
    Empty,
    /// Others were quicker: nothing was taken, and nothing is known.
    Retry,
}

/// An empty deque of hints.
#[tactic(auto, using(crate::proofs::HintMoves::begins, crate::proofs::HintMoves::admits))]
pub fn hints(alloc: Global) -> Result<(HintOwner, HintThief, HintPass), Memory>
    ensures ends { IfOk result (λ r. (r.1 ≡ r.0.deque) × (r.2.deque ≡ r.0.deque)) }
    ensures new { IfOk result (λ r. (r.0.put ≡ []) × (r.0.taken ≡ []) × (r.2.taken ≡ []) × (r.2.beside ≡ [])) }
{
    let Ok(worker) = Worker::fifo_as(alloc, FIRST_CAPACITY) else {
        return Err(Memory);
    };
    let Ok(stealer) = worker.stealer() else {
        return Err(Memory);
    };
    let pass = stealer.pass();
    Ok((
        HintOwner { worker },
        HintThief { stealer },
        HintPass { pass },
    ))
}

impl HintOwner {
    /// Puts a hint at the back. It comes back where the deque can't grow.
    pub fn push(&mut self, hint: u32) -> Result<(), u32>
        ensures same { (self.new.deque ≡ self.old.deque) × (self.new.taken ≡ self.old.taken) }
        ensures put { MatchResult result (λ _. self.new.put ≡ self.old.put ++ hint ∷ []) (λ x. (x ≡ hint) × (self.new.put ≡ self.old.put)) }
        ensures refused { IfErr result (λ _. FIRST_CAPACITY ≤ length self.old.put) }
    {
        self.worker.push_as::<Put>(hint)
    }

    /// Takes the first hint. With `None` the deque was empty at one moment of the call.
    pub fn pop(&mut self) -> Option<u32>
        ensures same { (self.new.deque ≡ self.old.deque) × (self.new.put ≡ self.old.put) }
        ensures taken { MatchOption result (self.new.taken ≡ self.old.taken) (λ x. self.new.taken ≡ self.old.taken ++ x ∷ []) }
        ensures empty { IfNone result (IsHistory self.old.put 0 (self.old.taken ∷ [])) }
    {
        self.worker.pop_as::<Taken>()
    }

    /// A second thief of the same deque.
    pub fn another(&self) -> Result<HintThief, Memory>
        ensures { IfOk result (λ t. t ≡ self.now.deque) }
    {
        match self.worker.stealer() {
            Ok(stealer) => Ok(HintThief { stealer }),
            Err(_) => Err(Memory),
        }
    }

    /// How many hints the deque held at one moment of the call.
    pub fn left(&mut self) -> usize
        ensures same { self.new ≡ self.old }
        ensures history { IsHistory self.old.put result (self.old.taken ∷ []) }
    {
        self.worker.len_as::<Account>()
    }
}

impl HintThief {
    /// Takes the first hint.
    pub fn steal(&self, pass: &mut HintPass) -> Stolen
        requires { pass.old.deque ≡ self.now }
        ensures same { (pass.new.deque ≡ pass.old.deque) × (pass.new.beside ≡ pass.old.beside) }
        ensures taken { pass.new.taken ≡ pass.old.taken ++ hints_of result }
        ensures empty { result ≡ Stolen.Empty → (put : List ℕ) × IsHistory put 0 (pass.old.taken ∷ pass.old.beside) }
    {
        match self.stealer.steal_as::<Taken>(&mut pass.pass) {
            Steal::Success(hint) => Stolen::Hint(hint),
            Steal::Empty => Stolen::Empty,
            Steal::Retry => Stolen::Retry,
        }
    }
}

impl HintPass {
    /// A second pass of the same deque, which has taken nothing.
    #[tactic(auto, using(crate::proofs::HintMoves::admits))]
    pub fn split(&self, thief: &HintThief) -> HintPass
        requires { self.now.deque ≡ thief.now }
        ensures { (result.deque ≡ self.now.deque) × (result.taken ≡ []) × (result.beside ≡ []) }
    {
        HintPass {
            pass: thief.stealer.pass(),
        }
    }

    /// Takes the lists of another pass in, beside its own.
    pub fn join(self, owner: &mut HintOwner, other: HintPass) -> HintPass
        requires { (self.deque ≡ owner.old.deque) × (other.deque ≡ owner.old.deque) }
        ensures owner { owner.new ≡ owner.old }
        ensures same { (result.deque ≡ self.deque) × (result.taken ≡ self.taken) }
        ensures beside { result.beside ≡ self.beside ++ other.taken ∷ other.beside }
    {
        let HintPass { pass } = self;
        let HintPass { pass: other } = other;
        owner.worker.absorb::<Beside>(pass);
        owner.worker.absorb::<Beside>(other);
        HintPass {
            pass: owner.worker.another::<Beside>(),
        }
    }

    /// How many hints the deque held at one moment of the call, and what the owner and this pass have taken up to then.
    pub fn account(self, owner: &mut HintOwner) -> (HintPass, usize)
        requires { self.deque ≡ owner.old.deque }
        ensures same { (owner.new ≡ owner.old) × (result.0 ≡ self) }
        ensures history { IsHistory owner.old.put result.1 (owner.old.taken ∷ self.taken ∷ self.beside) }
    {
        let HintPass { pass } = self;
        owner.worker.absorb::<Beside>(pass);
        let left = owner.worker.len_as::<Account>();
        let pass = HintPass {
            pass: owner.worker.another::<Beside>(),
        };
        (pass, left)
    }
}
