//! What a worker's thread does.

ghost use Rattle.std.specs.Prelude.{◌≡◌, ◌≢◌, IfErr, IfOk, OnOk};
ghost use Rattle.bz_pool.specs.Pooled.{EventWasRefused, FireWasRefused, RestWasRefused, WorkEndIs};

use crate::playing::End;
use crate::raids::Raid;
use bz_locked::{FireError, NetLedger, SharedNet, Work, Worker};
use bz_model::{NetError, Who};
use bz_net::RestReply;
use bz_pool_hints::HintOwner;
use bz_words::SessionError;
use std::sync::Wait;
use std::sync::ledger::Ledger;

/// Called outside the lock, before and after each fire, with the worker's number.
pub trait Gate {
    fn before(&self, worker: u8, comp: u32);

    fn after(&self, worker: u8, comp: u32);
}

/// A worker with its hints and what it steals with.
#[derive(Drop)]
pub struct Job<L: NetLedger> {
    pub worker: Worker<L>,
    pub owner: HintOwner,
    pub raids: Vec<Raid>,
}

impl<L: NetLedger> Job<L> {
    /// Fires components for as long as there is work.
    pub fn work<G: Gate, R: Wait>(&mut self, shared: &SharedNet<L>, rt: &R, gate: &G) -> End
        requires { self.old.worker.seat.table ≡ shared.now.table }
        ensures who { (self.new.worker.who ≡ self.old.worker.who) × (self.new.worker.seat.table ≡ self.old.worker.seat.table) }
        ensures end { WorkEndIs L.terms self.new.worker.seat.saw result }
    {
        match self.work_on(shared, rt, gate) {
            Ok(end) => end,
            Err(error) => End::Refused(0, SessionError::Event(error)),
        }
    }

    // Fires one component after another, and waits where none can be fired.
    fn work_on<G: Gate, R: Wait>(
        &mut self,
        shared: &SharedNet<L>,
        rt: &R,
        gate: &G,
    ) -> Result<End, NetError>
        requires { self.old.worker.seat.table ≡ shared.now.table }
        ensures who { (self.new.worker.who ≡ self.old.worker.who) × (self.new.worker.seat.table ≡ self.old.worker.seat.table) }
        ensures end { IfOk result (WorkEndIs L.terms self.new.worker.seat.saw) }
        ensures cause { IfErr result (EventWasRefused L.terms self.new.worker.seat.saw) }
    {
        for _ in rt.forever() {
            let goes_on = match self.next_comp(shared, rt)? {
                Some(comp) => self.fire(shared, rt, gate, comp)?,
                None => false,
            };
            if !goes_on {
                match shared.wait_work(rt, &mut self.worker) {
                    Work::Ready => {}
                    Work::Stopped => return Ok(End::Stopped(0)),
                    Work::Resting => return Ok(End::Resting(0)),
                    Work::Spent => return Ok(End::Spent(0)),
                }
            }
        }
        unreachable!()
    }

    // The component of a hint, else the first that can move; none where the net rests.
    fn next_comp<R: Wait>(&mut self, shared: &SharedNet<L>, rt: &R) -> Result<Option<u32>, NetError>
        requires { self.old.worker.seat.table ≡ shared.now.table }
        ensures who { (self.new.worker.who ≡ self.old.worker.who) × (self.new.worker.seat.table ≡ self.old.worker.seat.table) }
        ensures cause { IfErr result (RestWasRefused L.terms self.new.worker.seat.saw) }
    {
        if let Some(comp) = next_hint(&mut self.owner, &mut self.raids) {
            return Ok(Some(comp));
        }
        match shared.first_ready(rt, &mut self.worker, 1)? {
            RestReply::Ready(comp) => Ok(Some(comp)),
            RestReply::Rest => Ok(None),
        }
    }

    // Fires a component, and says whether fuel was left. One that can't move any more is passed over.
    fn fire<G: Gate, R: Wait>(
        &mut self,
        shared: &SharedNet<L>,
        rt: &R,
        gate: &G,
        comp: u32,
    ) -> Result<bool, NetError>
        requires { self.old.worker.seat.table ≡ shared.now.table }
        ensures who { (self.new.worker.who ≡ self.old.worker.who) × (self.new.worker.seat.table ≡ self.old.worker.seat.table) }
        ensures cause { IfErr result (FireWasRefused L.terms self.new.worker.seat.saw comp) }
    {
        let number = match self.worker.who() {
            Who::Worker(number) | Who::Host(number) => number,
        };
        gate.before(number, comp);
        let fired = shared.fire(rt, &mut self.worker, comp);
        gate.after(number, comp);
        match fired {
            Ok(fired) => {
                push_wake(&mut self.owner, fired.wake);
                Ok(true)
            }
            Err(FireError::Spent) => Ok(false),
            Err(FireError::Net(NetError::NotEnabled)) => Ok(true),
            Err(FireError::Net(error)) => Err(error),
        }
    }
}

// A hint of its own, else one of another worker.
fn next_hint(owner: &mut HintOwner, raids: &mut Vec<Raid>) -> Option<u32> {
    if let Some(comp) = owner.pop() {
        return Some(comp);
    }
    for raid in raids.iter_mut() {
        if let Some(comp) = raid.steal() {
            return Some(comp);
        }
    }
    None
}

// A hint that comes back is dropped, since the component is found again.
fn push_wake(owner: &mut HintOwner, wake: [Option<u32>; 2]) {
    for comp in wake {
        if let Some(comp) = comp {
            let _ = owner.push(comp);
        }
    }
}
