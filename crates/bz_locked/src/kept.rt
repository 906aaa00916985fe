//! What lies under the lock, with the keeper of its past: each call is one that an owner makes there.

ghost use Rattle.std.specs.Prelude.{◌≡◌, ◌+◌, ◌<◌, ◌≤◌, ◌∷◌, [], true, false, IfOk, IfErr, OnErr, OnOk, MatchOption, MatchResult};
ghost use Rattle.std.specs.Coded.{codes};
ghost use Rattle.bz_model.specs.Codes.{term_code};
ghost use Rattle.bz_model.specs.declared.event.Entry.TheVariants.{Rested};
ghost use Rattle.bz_past.specs.Moments.{Leads};
ghost use Rattle.bz_past.specs.Owners.{is_host};
ghost use Rattle.bz_past.specs.Standings.{HasTurned, listed, standing_of, standings_of};
ghost use Rattle.bz_net.specs.Replies.{RefusesCommand};
ghost use Rattle.bz_locked.specs.Commands.{IsEntryOf, RefusesPoll};
ghost use Rattle.bz_locked.specs.Quiet.{AwaitsIn, told_turn};
ghost use Rattle.bz_locked.specs.Waking.{FiresFor};
ghost use Rattle.bz_locked.specs.Making.{MadeNone, MadeOne, MadeTold};
ghost use Rattle.bz_locked.specs.Working.{During, HasBegun, HasFired, IsTurn, MatchRest, WasAdded, WasFirst, MustWait, WorkIs, RefusesFiring, RefusesRest};

use crate::ledger::NetLedger;
use crate::locked::{FireError, Fired, Locked, Polled, Work};
use bz_model::{Entry, HostCmd, NetError, Reply, Who};
use bz_net::RestReply;
use bz_past::{Keeper, Owner, Past, Standing, Stopper};
use std::sync::ledger::{Ledger, Share};

/// The locked value and the keeper, which knows its net, whether all was stopped, and how the sessions stand.
#[derive(Drop)]
pub struct Kept<L: NetLedger> {
    pub locked: Locked<L>,
    pub keeper: Keeper,
    ghost of_past: { keeper.table ≡ L.past },
    ghost hosts: { keeper.hosts ≡ L.terms.sessions },
    ghost workers: { keeper.workers ≡ L.workers },
    ghost none_taken_in: { (keeper.out ≡ L.terms.sessions + L.workers) × (keeper.last ≡ 0) },
    ghost net_is: { keeper.now.net ≡ locked.net } by { Prim.hlevel (codes, term_code) },
    ghost stopped_is: { keeper.now.stopped ≡ locked.stopped },
    ghost stands: { locked.sessions.items ≡ standings_of L.terms.sessions keeper.now.turns },
}

/// How a session turns that was told so: it runs on, unless it has to wait.
fn told_turn(told: Result<Polled, NetError>) -> Option<Standing>
    ensures { result ≡ told_turn told }
{
    match told {
        Ok(Polled::Wait) => None,
        Ok(Polled::Answered(_, _, _) | Polled::Resting | Polled::Spent | Polled::Stopped)
        | Err(_) => Some(Standing::Running),
    }
}

impl<L: NetLedger> Kept<L> {
    /// How a session stands from now on.
    pub fn stand(&mut self, past: &Past, owner: &mut Owner, who: Who, standing: Standing)
        requires { (past.now ≡ L.past) × (owner.old.table ≡ L.past) × (owner.old.who ≡ who) × (is_host who ≡ true) }
        ensures owner { (owner.new.table ≡ owner.old.table) × (owner.new.who ≡ owner.old.who) × Leads owner.old.seen owner.new.seen }
        ensures made { MadeNone who owner.old.seen owner.new.seen }
        ensures turned { HasTurned who (standing ∷ []) owner.old.seen owner.new.seen }
    {
        self.locked.set_standing(who, standing);
        past.act(
            &mut self.keeper,
            owner,
            &self.locked.net,
            self.locked.stopped,
            Some(standing),
        );
    }

    /// The session waits from now on, where its command is not refused.
    pub fn begin(&mut self, past: &Past, owner: &mut Owner, who: Who, cmd: &HostCmd)
        requires { (past.now ≡ L.past) × (owner.old.table ≡ L.past) × (owner.old.who ≡ who) × (is_host who ≡ true) }
        ensures owner { (owner.new.table ≡ owner.old.table) × (owner.new.who ≡ owner.old.who) × Leads owner.old.seen owner.new.seen }
        ensures made { MadeNone who owner.old.seen owner.new.seen }
        ensures turned { HasBegun L.terms.wiring who cmd.now owner.old.seen owner.new.seen }
    {
        let standing = self.locked.awaiting(cmd);
        self.stand(past, owner, who, standing);
    }

    /// One command, carried out at once.
    pub fn host(
        &mut self,
        past: &Past,
        owner: &mut Owner,
        who: Who,
        cmd: &HostCmd,
    ) -> Result<(Entry, Reply, u64), NetError>
        requires { (past.now ≡ L.past) × (owner.old.table ≡ L.past) × (owner.old.who ≡ who) × (is_host who ≡ true) }
        ensures owner { (owner.new.table ≡ owner.old.table) × (owner.new.who ≡ owner.old.who) × Leads owner.old.seen owner.new.seen }
        ensures entry { IfOk result (λ r. IsEntryOf L.terms.wiring.ports who cmd.now r.1 r.0) }
        ensures added { IfOk result (λ r. WasAdded L.terms owner.old.seen owner.new.seen r.0 r.2) }
        ensures made { MatchResult result (λ r. MadeOne who r.0 r.2 owner.old.seen owner.new.seen) (λ _. MadeNone who owner.old.seen owner.new.seen) }
        ensures cause { IfErr result (λ e. During L.terms owner.old.seen owner.new.seen (λ net fuel stopped turns. RefusesCommand net cmd.now.verb cmd.now.port.items cmd.now.value e)) }
        ensures turned { HasTurned who (Standing.Running ∷ []) owner.old.seen owner.new.seen }
    {
        let answered = self.locked.host(who, cmd);
        past.act(
            &mut self.keeper,
            owner,
            &self.locked.net,
            self.locked.stopped,
            Some(Standing::Running),
        );
        answered
    }

    /// What a session is told that has begun to wait.
    pub fn turn(
        &mut self,
        past: &Past,
        owner: &mut Owner,
        who: Who,
        cmd: &HostCmd,
    ) -> Result<Polled, NetError>
        requires caller { (past.now ≡ L.past) × (owner.old.table ≡ L.past) × (owner.old.who ≡ who) × (is_host who ≡ true) }
        requires awaits { AwaitsIn L.terms.wiring cmd.now (standing_of who owner.old.seen.turns) }
        ensures owner { (owner.new.table ≡ owner.old.table) × (owner.new.who ≡ owner.old.who) × Leads owner.old.seen owner.new.seen }
        ensures told { IfOk result (IsTurn L.terms owner.old.seen owner.new.seen who cmd.now) }
        ensures made { MatchResult result (λ told. MadeTold who told owner.old.seen owner.new.seen) (λ _. MadeNone who owner.old.seen owner.new.seen) }
        ensures cause { IfErr result (λ e. During L.terms owner.old.seen owner.new.seen (λ net fuel stopped turns. RefusesPoll net cmd.now e)) }
        ensures turned { HasTurned who (listed (told_turn result)) owner.old.seen owner.new.seen }
    {
        let told = self.locked.turn(who, cmd);
        past.act(
            &mut self.keeper,
            owner,
            &self.locked.net,
            self.locked.stopped,
            told_turn(told),
        );
        told
    }

    /// Fires a component, and counts the firing in the worker's share.
    pub fn fire(
        &mut self,
        past: &Past,
        owner: &mut Owner,
        who: Who,
        share: &mut Share<L>,
        comp: u32,
    ) -> Result<(Fired, u64), FireError>
        requires { (past.now ≡ L.past) × (owner.old.table ≡ L.past) × (owner.old.who ≡ who) × (is_host who ≡ false) × (0 < share.old.parts) }
        ensures owner { (owner.new.table ≡ owner.old.table) × (owner.new.who ≡ owner.old.who) × Leads owner.old.seen owner.new.seen }
        ensures fired { IfOk result (λ f. FiresFor who comp f.0.entry × HasFired L.terms owner.old.seen owner.new.seen who comp f.0.entry f.0.wake f.1) }
        ensures made { MatchResult result (λ f. MadeOne who f.0.entry f.1 owner.old.seen owner.new.seen) (λ _. MadeNone who owner.old.seen owner.new.seen) }
        ensures cause { IfErr result (λ e. During L.terms owner.old.seen owner.new.seen (λ net fuel stopped turns. RefusesFiring net fuel comp e)) }
        ensures share { (share.new.parts ≡ share.old.parts) × OnOk result (share.new.amount ≡ share.old.amount + 1) × OnErr result (share.new.amount ≡ share.old.amount) }
        ensures bound { IfOk result (λ f. share.new.amount ≤ f.1) }
    {
        let fired = self.locked.fire(who, share, comp);
        past.act(
            &mut self.keeper,
            owner,
            &self.locked.net,
            self.locked.stopped,
            None,
        );
        fired
    }

    /// The component that is next from a number on, or rest.
    pub fn first_ready(
        &mut self,
        past: &Past,
        owner: &mut Owner,
        who: Who,
        from: u32,
    ) -> Result<(RestReply, u64), NetError>
        requires { (past.now ≡ L.past) × (owner.old.table ≡ L.past) × (owner.old.who ≡ who) × (is_host who ≡ false) }
        ensures owner { (owner.new.table ≡ owner.old.table) × (owner.new.who ≡ owner.old.who) × Leads owner.old.seen owner.new.seen }
        ensures told { IfOk result (λ r. WasFirst L.terms owner.old.seen owner.new.seen who from r.0 r.1) }
        ensures made { MatchResult result (λ r. MatchRest r.0 (MadeOne who (Rested who) r.1 owner.old.seen owner.new.seen) (MadeNone who owner.old.seen owner.new.seen)) (λ _. MadeNone who owner.old.seen owner.new.seen) }
        ensures cause { IfErr result (λ e. During L.terms owner.old.seen owner.new.seen (λ net fuel stopped turns. RefusesRest net e)) }
    {
        let first = self.locked.first_ready(who, from);
        past.act(
            &mut self.keeper,
            owner,
            &self.locked.net,
            self.locked.stopped,
            None,
        );
        first
    }

    /// What a waiting worker is told: nothing where it has to wait.
    pub fn work(&mut self, past: &Past, owner: &mut Owner, who: Who) -> Option<Work>
        requires { (past.now ≡ L.past) × (owner.old.table ≡ L.past) × (owner.old.who ≡ who) }
        ensures owner { (owner.new.table ≡ owner.old.table) × (owner.new.who ≡ owner.old.who) × Leads owner.old.seen owner.new.seen }
        ensures made { MadeNone who owner.old.seen owner.new.seen }
        ensures told { MatchOption result
            (During L.terms owner.old.seen owner.new.seen (λ net fuel stopped turns. MustWait net fuel stopped (standings_of L.terms.sessions turns)))
            (λ work. During L.terms owner.old.seen owner.new.seen (λ net fuel stopped turns. WorkIs net fuel stopped (standings_of L.terms.sessions turns) work)) }
    {
        let work = self.locked.work();
        past.act(
            &mut self.keeper,
            owner,
            &self.locked.net,
            self.locked.stopped,
            None,
        );
        work
    }

    /// No worker and no waiting session moves on.
    pub fn stop(&mut self, past: &Past, stopper: &mut Stopper)
        requires { (past.now ≡ L.past) × (stopper.old.table ≡ L.past) }
        ensures stopped { self.new.locked.stopped ≡ true }
        ensures stopper { (stopper.new.table ≡ stopper.old.table) × (stopper.new.used ≡ true) }
    {
        self.locked.stop();
        past.halt(
            &mut self.keeper,
            stopper,
            &self.locked.net,
            self.locked.stopped,
        );
    }
}
