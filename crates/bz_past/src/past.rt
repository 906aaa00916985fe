// The past, its keeper, its owners and its stopper.
ghost use Rattle.std.specs.Prelude.{◌≡◌, ◌⊎◌, ◌+◌, ◌≤◌, [], true, false, length, max, IfOk};
ghost use Rattle.bz_model.specs.declared.event.Who.TheVariants.{Host, Worker};
ghost use Rattle.bz_past.specs.Moments.{moment, Leads};
ghost use Rattle.bz_past.specs.Owners.{last_of, AreNamed, IsNamed, LeadsBy, LeadsWithout};
ghost use Rattle.bz_past.specs.Seen.{IsFresh, KeepsRoll};
ghost use Rattle.bz_past.specs.Standings.{turned};
ghost use Rattle.bz_past.specs.Stopping.{IsRefused, IsStoppedFor};

use crate::mark::Mark;
use crate::rule::{
    ByOwner, ByStopper, Joins, NextHost, NextWorker, Nothing, Onward, Parts, TakesBack, TakesIn,
    Tells,
};
use crate::standing::Standing;
use crate::view::View;
use atomic_table::{Seat, Table};
use bz_net::Net;
use std::alloc::Global;
use std::marker::{Brand, Model};
use std::mem;
use thiserror::Error;

/// Memory was refused.
#[derive(Clone, Copy, Debug, PartialEq, Eq, Error)]
#[error("Memory")]
pub struct Memory;

/// What ties the tokens of one past. Threads share it by reference.
#[derive(Drop)]
pub struct Past {
    table: Table<(), View, Net, Onward, Global>,
}

impl Model for Past {
    ghost use Rattle.std.specs.Prelude.{◌≡◌};
    ghost use Rattle.bz_past.specs.Seen.{TableId};

    ghost Value = { TableId };

    ghost view = { λ p. p.table.shared.table_id };

    ghost invariant = { λ p. (p.table.shared.table_id.words ≡ 1) × (p.table.shared.table_id.slots ≡ 0) };
}

/// The token of what lies there now. It has no bytes.
#[derive(Drop)]
pub struct Keeper {
    seat: Seat<(), View>,
}

impl Model for Keeper {
    ghost use Rattle.std.specs.Prelude.{◌≡◌, []};
    ghost use Rattle.std.specs.Coded.{codes};
    ghost use Rattle.bz_model.specs.Codes.{term_code};
    ghost use Rattle.bz_past.specs.Seen.{Kept, kept_of, roll_of};
    ghost use Rattle.bz_past.specs.declared.view.View.TheVariants.{Knows};

    ghost Value = { Kept };

    ghost coded = { Prim.hlevel (codes, term_code) };

    ghost view = { λ k. kept_of k.seat.table_id (roll_of k.seat.me.0) };

    ghost invariant = { λ k. (k.seat.me.0 ≡ Knows (roll_of k.seat.me.0)) × (k.seat.me.1 ≡ []) };
}

/// The token of one who may add entries. It knows all entries of its own, since nobody adds entries without one. It has no bytes.
#[derive(Drop)]
pub struct Owner {
    seat: Seat<(), View>,
}

impl Model for Owner {
    ghost use Rattle.std.specs.Prelude.{◌≡◌, []};
    ghost use Rattle.std.specs.Coded.{codes};
    ghost use Rattle.bz_model.specs.Codes.{term_code};
    ghost use Rattle.bz_past.specs.Seen.{Sight, saw_of, whose};
    ghost use Rattle.bz_past.specs.declared.view.View.TheVariants.{Owns};

    ghost Value = { Sight };

    ghost coded = { Prim.hlevel (codes, term_code) };

    ghost view = { λ o. record { table = o.seat.table_id; who = whose o.seat.me.0; seen = saw_of o.seat.me.0 } };

    ghost invariant = { λ o. (o.seat.me.0 ≡ Owns (whose o.seat.me.0) (saw_of o.seat.me.0)) × (o.seat.me.1 ≡ []) };
}

/// The token of one who may stop all where nothing was refused. It knows whether it was used. It has no bytes.
#[derive(Drop)]
pub struct Stopper {
    seat: Seat<(), View>,
}

impl Model for Stopper {
    ghost use Rattle.std.specs.Prelude.{◌≡◌, []};
    ghost use Rattle.bz_past.specs.Seen.{Halt, used_of};
    ghost use Rattle.bz_past.specs.declared.view.View.TheVariants.{Stops};

    ghost Value = { Halt };

    ghost view = { λ s. record { table = s.seat.table_id; used = used_of s.seat.me.0 } };

    ghost invariant = { λ s. (s.seat.me.0 ≡ Stops (used_of s.seat.me.0)) × (s.seat.me.1 ≡ []) };
}

impl Past {
    /// The past of a net that begins now, with its keeper and its stopper. No other call takes memory.
    pub fn open(alloc: Global, net: &Net) -> Result<(Past, Keeper, Stopper), Memory>
        requires unused { net.now.journal ≡ [] }
        ensures keeper { IfOk result (λ r. IsFresh r.0 net.now r.1) }
        ensures stopper { IfOk result (λ r. (r.2.table ≡ r.0) × (r.2.used ≡ false)) }
    {
        match Table::of_words(alloc, &[0], net) {
            Ok((table, whole)) => {
                let mut seat = whole;
                let stopper = table.shared.split_seat::<Parts>(&mut seat);
                Ok((Past { table }, Keeper { seat }, Stopper { seat: stopper }))
            }
            Err(_) => Err(Memory),
        }
    }

    /// The owner of the next host, from Host 1 on.
    pub fn next_host(&self, keeper: &mut Keeper) -> Owner
        requires { keeper.old.table ≡ self.now }
        ensures keeper { (keeper.new.table ≡ keeper.old.table) × (keeper.new.now ≡ keeper.old.now) × (keeper.new.last ≡ keeper.old.last) }
        ensures count { (keeper.new.hosts ≡ keeper.old.hosts + 1) × (keeper.new.workers ≡ keeper.old.workers) × (keeper.new.out ≡ keeper.old.out + 1) }
        ensures owner { (result.table ≡ self.now) × (result.who ≡ Host (keeper.old.hosts + 1)) × (result.seen ≡ keeper.old.now) }
    {
        let seat = self.table.shared.split_seat::<NextHost>(&mut keeper.seat);
        Owner { seat }
    }

    /// The owner of the next worker, from Worker 1 on.
    pub fn next_worker(&self, keeper: &mut Keeper) -> Owner
        requires { keeper.old.table ≡ self.now }
        ensures keeper { (keeper.new.table ≡ keeper.old.table) × (keeper.new.now ≡ keeper.old.now) × (keeper.new.last ≡ keeper.old.last) }
        ensures count { (keeper.new.hosts ≡ keeper.old.hosts) × (keeper.new.workers ≡ keeper.old.workers + 1) × (keeper.new.out ≡ keeper.old.out + 1) }
        ensures owner { (result.table ≡ self.now) × (result.who ≡ Worker (keeper.old.workers + 1)) × (result.seen ≡ keeper.old.now) }
    {
        let seat = self.table.shared.split_seat::<NextWorker>(&mut keeper.seat);
        Owner { seat }
    }

    /// This net is what lies there now, by entries of the owner alone; where all is stopped from now on, one was refused to it.
    /// Where it turns, it stands so from now on. What the owner had seen had led, by entries and turns of others, to what lay
    /// there before.
    pub fn act(
        &self,
        keeper: &mut Keeper,
        owner: &mut Owner,
        net: &Net,
        stopped: bool,
        turn: Option<Standing>,
    )
        requires table { (keeper.old.table ≡ self.now) × (owner.old.table ≡ self.now) }
        requires onward { LeadsBy owner.old.who keeper.old.now (moment net.now stopped (turned keeper.old.now.turns owner.old.who (length net.now.journal) turn)) }
        requires why { stopped ≡ true → (keeper.old.now.stopped ≡ true) ⊎ IsRefused owner.old.who keeper.old.now.net }
        ensures keeper { KeepsRoll keeper.old keeper.new × (keeper.new.now ≡ moment net.now stopped (turned keeper.old.now.turns owner.old.who (length net.now.journal) turn)) }
        ensures owner { (owner.new.table ≡ owner.old.table) × (owner.new.who ≡ owner.old.who) × (owner.new.seen ≡ moment net.now stopped (turned keeper.old.now.turns owner.old.who (length net.now.journal) turn)) }
        ensures before { LeadsWithout owner.old.who owner.old.seen keeper.old.now }
        ensures named { IsNamed keeper.old.hosts keeper.old.workers owner.old.who }
    {
        self.act_to::<Brand>(keeper, owner, net, stopped, turn);
    }

    fn act_to<B: Mark>(
        &self,
        keeper: &mut Keeper,
        owner: &mut Owner,
        net: &Net,
        stopped: bool,
        turn: Option<Standing>,
    )
        requires moment { B.moment ≡ moment net.now stopped (turned keeper.old.now.turns owner.old.who (length net.now.journal) turn) }
        requires table { (keeper.old.table ≡ self.now) × (owner.old.table ≡ self.now) }
        requires onward { LeadsBy owner.old.who keeper.old.now B.moment }
        requires why { B.moment.stopped ≡ true → (keeper.old.now.stopped ≡ true) ⊎ IsRefused owner.old.who keeper.old.now.net }
        ensures keeper { KeepsRoll keeper.old keeper.new × (keeper.new.now ≡ B.moment) }
        ensures owner { (owner.new.table ≡ owner.old.table) × (owner.new.who ≡ owner.old.who) × (owner.new.seen ≡ B.moment) }
        ensures before { LeadsWithout owner.old.who owner.old.seen keeper.old.now }
        ensures named { IsNamed keeper.old.hosts keeper.old.workers owner.old.who }
    {
        let nothing = self.table.shared.split_seat::<Nothing>(&mut keeper.seat);
        let seat = mem::replace(&mut owner.seat, nothing);
        self.table.shared.join_seat::<Joins>(&mut keeper.seat, seat);
        self.table.shared.load::<ByOwner<B>>(&mut keeper.seat, 0);
        owner.seat = self.table.shared.split_seat::<Parts>(&mut keeper.seat);
    }

    /// This net is what lies there now, by no entry and no turn, and since the stopper was used.
    pub fn halt(&self, keeper: &mut Keeper, stopper: &mut Stopper, net: &Net, stopped: bool)
        requires table { (keeper.old.table ≡ self.now) × (stopper.old.table ≡ self.now) }
        requires onward { (leads : Leads keeper.old.now (moment net.now stopped keeper.old.now.turns)) × (leads.rest ≡ []) × (leads.later ≡ []) }
        ensures keeper { KeepsRoll keeper.old keeper.new × (keeper.new.now ≡ moment net.now stopped keeper.old.now.turns) }
        ensures stopper { (stopper.new.table ≡ stopper.old.table) × (stopper.new.used ≡ true) }
    {
        self.halt_to::<Brand>(keeper, stopper, net, stopped);
    }

    fn halt_to<B: Mark>(&self, keeper: &mut Keeper, stopper: &mut Stopper, net: &Net, stopped: bool)
        requires moment { B.moment ≡ moment net.now stopped keeper.old.now.turns }
        requires table { (keeper.old.table ≡ self.now) × (stopper.old.table ≡ self.now) }
        requires onward { (leads : Leads keeper.old.now B.moment) × (leads.rest ≡ []) × (leads.later ≡ []) }
        ensures keeper { KeepsRoll keeper.old keeper.new × (keeper.new.now ≡ B.moment) }
        ensures stopper { (stopper.new.table ≡ stopper.old.table) × (stopper.new.used ≡ true) }
    {
        let nothing = self.table.shared.split_seat::<Nothing>(&mut keeper.seat);
        let seat = mem::replace(&mut stopper.seat, nothing);
        self.table.shared.join_seat::<Joins>(&mut keeper.seat, seat);
        self.table.shared.load::<ByStopper<B>>(&mut keeper.seat, 0);
        stopper.seat = self.table.shared.split_seat::<Parts>(&mut keeper.seat);
    }

    /// Takes an owner in. What it had seen has led, by entries of others, to what lies there now.
    pub fn take_in(&self, keeper: &mut Keeper, owner: Owner)
        requires { (keeper.old.table ≡ self.now) × (owner.table ≡ self.now) }
        ensures keeper { (keeper.new.table ≡ keeper.old.table) × (keeper.new.now ≡ keeper.old.now) × (keeper.new.hosts ≡ keeper.old.hosts) × (keeper.new.workers ≡ keeper.old.workers) }
        ensures count { keeper.new.out + 1 ≡ keeper.old.out }
        ensures last { keeper.new.last ≡ max keeper.old.last (last_of owner.who owner.seen.net.journal) }
        ensures before { LeadsWithout owner.who owner.seen keeper.old.now }
    {
        let Owner { seat } = owner;
        self.table.shared.join_seat::<Joins>(&mut keeper.seat, seat);
        self.table.shared.load::<TakesIn>(&mut keeper.seat, 0);
    }

    /// Takes the stopper in, which knows whether it was used.
    pub fn take_back(&self, keeper: &mut Keeper, stopper: Stopper)
        requires { (keeper.old.table ≡ self.now) × (stopper.table ≡ self.now) }
        ensures keeper { keeper.new ≡ keeper.old }
        ensures used { keeper.old.used ≡ stopper.used }
    {
        let Stopper { seat } = stopper;
        self.table.shared.join_seat::<Joins>(&mut keeper.seat, seat);
        self.table.shared.load::<TakesBack>(&mut keeper.seat, 0);
    }

    /// Each entry is of one to whom an owner was given. Once all owners were taken in, the last entry is one of theirs. All was
    /// stopped by the stopper, or since an entry was refused to a worker.
    pub fn settle(&self, keeper: &mut Keeper)
        requires { keeper.old.table ≡ self.now }
        ensures keeper { keeper.new ≡ keeper.old }
        ensures named { AreNamed keeper.old.hosts keeper.old.workers keeper.old.now.net.journal }
        ensures last { keeper.old.out ≡ 0 → length keeper.old.now.net.journal ≤ keeper.old.last }
        ensures why { IsStoppedFor keeper.old.used keeper.old.workers keeper.old.now }
    {
        self.table.shared.load::<Tells>(&mut keeper.seat, 0);
    }
}
