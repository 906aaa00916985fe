//! The net behind its lock, with the front beside it.

ghost use Rattle.std.specs.Prelude.{◌≡◌, ℕ, ◌+◌, ◌-◌, ◌<◌, ◌≤◌, ◌∷◌, [], ◌++◌, true, false, length, vec_len, IfOk, IfErr, OnErr, OnOk, MatchResult, replicate, slice_index_or};
ghost use Rattle.std.specs.Vec.{vec_capacity};
ghost use Rattle.bz_net.specs.Answering.{is_answer};
ghost use Rattle.bz_past.specs.Moments.{moment, Leads};
ghost use Rattle.bz_past.specs.Owners.{is_host};
ghost use Rattle.bz_past.specs.Seen.{IsFresh};
ghost use Rattle.bz_past.specs.Standings.{HasTurned};
ghost use Rattle.bz_past.specs.declared.standing.Standing.TheVariants.{Running, Ended};
ghost use Rattle.bz_model.specs.declared.event.Entry.TheVariants.{Rested};
ghost use Rattle.bz_locked.specs.Making.{MadeNone, MadeOne, MadeTold};
ghost use Rattle.bz_locked.specs.Parts.{HasMade, HasMadeNone, SessionView, WorkerView, tables, new_session, new_worker, Stays, IsSilent, Tells};
ghost use Rattle.bz_locked.specs.Commands.{IsEntryOf, RefusesPoll};
ghost use Rattle.bz_locked.specs.Waking.{FiresFor};
ghost use Rattle.bz_net.specs.Simulation.{Simulation};
ghost use Rattle.bz_net.specs.Replies.{RefusesCommand};
ghost use Rattle.bz_locked.specs.Working.{During, is_wait, HasTurnedOrNot, HasWaited, HasWaitedOrNot, MatchWait, MatchRest, IsLast, HasFired, Notes, WasAdded, WasFirst, WasRefused, WorkerWasTold, RefusesFiring, RefusesRest};

use crate::audience::{Audience, MAX_SESSIONS};
use crate::closing::CloseError;
use crate::door::Door;
use crate::kept::Kept;
use crate::ledger::NetLedger;
use crate::locked::{FireError, Fired, Locked, Polled, WaitReply, Work};
use crate::parts::{Session, Worker};
use crate::serving::place_of;
use bz_front::{Front, FrontSeat};
use bz_model::{Entry, HostCmd, NetError, Reply, Who};
use bz_net::{Net, RestReply};
use bz_past::{Keeper, Owner, Past, Standing, Stopper};
use std::alloc::{AllocError, Global};
use std::array;
use std::marker::Model;
use std::sync::ledger::{Blank, Book, Ledger, Share};
use std::sync::{Condvar, Mutex, Wait};

/// Whether a session is told to wait on.
fn is_wait(told: Result<Polled, NetError>) -> bool
    ensures { result ≡ is_wait told }
{
    match told {
        Ok(Polled::Wait) => true,
        Ok(Polled::Answered(_, _, _) | Polled::Resting | Polled::Spent | Polled::Stopped)
        | Err(_) => false,
    }
}

/// A net that host sessions and workers share. Its one lock is held for one event at a time, and workers come to it through a
/// door, one by one, to fire or to look what is ready. A call that waits waits for a condition variable alone, which lets the
/// lock go: each session for its own of `answers`, workers for `work`.
///
/// Nobody sleeps who would be told something. What one who waits is told hangs on the net, the fuel, whether all was stopped, and
/// how the sessions stand; and each call that changes these wakes those to whom it gives something (`Audience`):
/// - a host's entry or a firing wakes each session that waits at its channel and would be answered, and all where it is over;
/// - a host's entry wakes workers where a component can move. A firing leaves these to its own worker, which looks again before it
///   sleeps; and no other fell asleep while a component could move;
/// - rest adds to the journal alone; a full journal and want of memory stop all, and a stop wakes all;
/// - a session that begins to wait is told itself, before it sleeps, that it is over, and then runs on; one that runs on gives
///   nothing to others; one that ends wakes all where it is over.
#[derive(Drop)]
pub struct SharedNet<L: NetLedger> {
    pub(crate) locked: Mutex<Kept<L>>,
    pub(crate) answers: [Condvar; MAX_SESSIONS],
    pub(crate) work: Condvar,
    pub(crate) door: Door,
    pub(crate) front: Front,
    pub(crate) past: Past,
    pub(crate) sessions: usize,
    pub(crate) workers: usize,
    pub(crate) records: Vec<Vec<Entry>>,
    pub(crate) shares: Vec<u64>,
}

impl<L: NetLedger> Model for SharedNet<L> {
    ghost use Rattle.std.specs.Prelude.{◌≡◌, ◌+◌, ◌<◌, ◌≤◌, []};
    ghost use Rattle.std.specs.Vec.{vec_capacity};
    ghost use Rattle.bz_locked.specs.Parts.{SharedView, tables};

    ghost Value = { SharedView };

    ghost view = { λ n. record { table = tables n.front.table n.past; sessions = n.sessions; workers = n.workers } };

    ghost invariant = { λ n. (n.past ≡ L.past) × (n.front.parts ≡ n.sessions + n.workers) × (0 < n.sessions) × (n.sessions ≡ L.terms.sessions) × (n.workers ≡ L.workers) × (n.records.items ≡ []) × (n.shares.items ≡ []) × (n.sessions ≤ vec_capacity n.records) × (n.workers ≤ vec_capacity n.shares) };
}

/// The sessions, each with one part of the seat.
fn new_sessions(
    alloc: Global,
    front: &Front,
    past: &Past,
    keeper: &mut Keeper,
    seat: FrontSeat,
    count: u8,
) -> Result<Vec<Session>, AllocError>
    requires keeper { (keeper.old.table ≡ past.now) × (keeper.old.hosts ≡ 0) × (keeper.old.now.net.journal ≡ []) }
    requires seat { (seat.table ≡ front.now.table) × (seat.seen ≡ 0) × (seat.published ≡ 0) }
    requires parts { (seat.parts ≡ count) × (0 < count) }
    ensures keeper { (keeper.new.table ≡ keeper.old.table) × (keeper.new.now ≡ keeper.old.now) × (keeper.new.workers ≡ keeper.old.workers) × (keeper.new.last ≡ keeper.old.last) }
    ensures owners { OnOk result ((keeper.new.hosts ≡ count) × (keeper.new.out ≡ keeper.old.out + count)) }
    ensures sessions { IfOk result (λ v. (vec_len v ≡ count) × ((k : ℕ) (d : SessionView) → k < count → slice_index_or v.items k d ≡ new_session (tables front.now.table past.now) keeper.old.now (k + 1))) }
{
    let mut seat = seat;
    let mut sessions = Vec::new(alloc);
    for k in 1..count {
        let part = front.split(&mut seat);
        sessions.push(Session {
            who: Who::Host(k),
            seat: part,
            owner: past.next_host(keeper),
            own: Vec::new(alloc),
        })?;
    }
    sessions.push(Session {
        who: Who::Host(count),
        seat,
        owner: past.next_host(keeper),
        own: Vec::new(alloc),
    })?;
    Ok(sessions)
}

/// A worker that has fired nothing, with one part of the seat and of the share.
fn new_worker<L: NetLedger>(
    front: &Front,
    past: &Past,
    keeper: &mut Keeper,
    seat: &mut FrontSeat,
    share: &mut Share<L>,
    number: u8,
) -> Worker<L>
    requires keeper { (keeper.old.table ≡ past.now) × (past.now ≡ L.past) × (keeper.old.workers + 1 ≡ number) × (keeper.old.now.net.journal ≡ []) }
    requires seat { (seat.old.table ≡ front.now.table) × (seat.old.seen ≡ 0) × (seat.old.published ≡ 0) × (1 < seat.old.parts) }
    requires share { (0 < share.old.parts) × (share.old.amount ≡ 0) }
    ensures keeper { (keeper.new.table ≡ keeper.old.table) × (keeper.new.now ≡ keeper.old.now) × (keeper.new.hosts ≡ keeper.old.hosts) × (keeper.new.last ≡ keeper.old.last) }
    ensures owners { (keeper.new.workers ≡ number) × (keeper.new.out ≡ keeper.old.out + 1) }
    ensures worker { result ≡ new_worker (tables front.now.table past.now) keeper.old.now number }
    ensures seat { (seat.new.table ≡ seat.old.table) × (seat.new.seen ≡ 0) × (seat.new.published ≡ 0) × (seat.new.parts + 1 ≡ seat.old.parts) }
    ensures share { (share.new.parts + 1 ≡ share.old.parts) × (share.new.amount ≡ 0) }
{
    Worker {
        who: Who::Worker(number),
        seat: front.split(seat),
        owner: past.next_worker(keeper),
        share: share.split_off(1, 0),
        fired: 0,
    }
}

/// The workers, each with one part of the seat and of the share.
fn new_workers<L: NetLedger>(
    alloc: Global,
    front: &Front,
    past: &Past,
    keeper: &mut Keeper,
    seat: &mut FrontSeat,
    share: &mut Share<L>,
    count: u8,
) -> Result<Vec<Worker<L>>, AllocError>
    requires keeper { (keeper.old.table ≡ past.now) × (past.now ≡ L.past) × (keeper.old.workers ≡ 0) × (keeper.old.now.net.journal ≡ []) }
    requires seat { (seat.old.table ≡ front.now.table) × (seat.old.seen ≡ 0) × (seat.old.published ≡ 0) × (count < seat.old.parts) }
    requires share { (share.old.parts ≡ count) × (share.old.amount ≡ 0) }
    ensures seat { OnOk result ((seat.new.table ≡ seat.old.table) × (seat.new.seen ≡ 0) × (seat.new.published ≡ 0) × (seat.new.parts + count ≡ seat.old.parts)) }
    ensures share { OnOk result ((share.new.parts ≡ 0) × (share.new.amount ≡ 0)) }
    ensures keeper { (keeper.new.table ≡ keeper.old.table) × (keeper.new.now ≡ keeper.old.now) × (keeper.new.hosts ≡ keeper.old.hosts) × (keeper.new.last ≡ keeper.old.last) }
    ensures owners { OnOk result ((keeper.new.workers ≡ count) × (keeper.new.out ≡ keeper.old.out + count)) }
    ensures workers { IfOk result (λ v. (vec_len v ≡ count) × ((k : ℕ) (d : WorkerView) → k < count → slice_index_or v.items k d ≡ new_worker (tables front.now.table past.now) keeper.old.now (k + 1))) }
{
    let mut workers = Vec::new(alloc);
    for k in 0..count {
        workers.push(new_worker(front, past, keeper, seat, share, k + 1))?;
    }
    Ok(workers)
}

/// How the sessions stand at the start, and room for what the close gathers.
#[derive(Drop)]
struct Rooms {
    standings: Vec<Standing>,
    records: Vec<Vec<Entry>>,
    shares: Vec<u64>,
}

impl Rooms {
    fn new(alloc: Global, sessions: u8, workers: u8) -> Result<Rooms, AllocError>
        ensures standings { IfOk result (λ r. r.standings.items ≡ replicate sessions Standing.Running) }
        ensures records { IfOk result (λ r. (r.records.items ≡ []) × (sessions ≤ vec_capacity r.records)) }
        ensures shares { IfOk result (λ r. (r.shares.items ≡ []) × (workers ≤ vec_capacity r.shares)) }
    {
        Ok(Rooms {
            standings: vec![in alloc; Standing::Running; sessions as usize]?,
            records: Vec::with_capacity(alloc, sessions as usize)?,
            shares: Vec::with_capacity(alloc, workers as usize)?,
        })
    }
}

/// What stands beside a net that is shared.
#[derive(Drop)]
struct Made<L: NetLedger> {
    front: Front,
    fired: Book<L>,
    root: Share<L>,
    hosts: Vec<Session>,
    crew: Vec<Worker<L>>,
    rooms: Rooms,
}

impl<L: NetLedger> Made<L> {
    fn new(
        alloc: Global,
        blank: Blank,
        past: &Past,
        keeper: &mut Keeper,
        sessions: u8,
        workers: u8,
    ) -> Result<Made<L>, CloseError>
        requires ledger { (blank.name ≡ L.name) × (blank.parts ≡ L.parts) × (L.parts ≡ workers) }
        requires keeper { (keeper.old.table ≡ past.now) × (past.now ≡ L.past) × (keeper.old.hosts ≡ 0) × (keeper.old.workers ≡ 0) × (keeper.old.out ≡ 0) × (keeper.old.now.net.journal ≡ []) }
        requires counts { (1 ≤ sessions) × (sessions ≤ 16) × (1 ≤ workers) × (workers ≤ 8) }
        ensures keeper { (keeper.new.table ≡ keeper.old.table) × (keeper.new.now ≡ keeper.old.now) × (keeper.new.last ≡ keeper.old.last) }
        ensures owners { OnOk result ((keeper.new.hosts ≡ sessions) × (keeper.new.workers ≡ workers) × (keeper.new.out ≡ sessions + workers)) }
        ensures front { IfOk result (λ r. r.front.parts ≡ sessions + workers) }
        ensures fired { IfOk result (λ r. r.fired.total ≡ 0) }
        ensures root { IfOk result (λ r. (r.root.parts ≡ 0) × (r.root.amount ≡ 0)) }
        ensures standings { IfOk result (λ r. r.rooms.standings.items ≡ replicate sessions Standing.Running) }
        ensures records { IfOk result (λ r. (r.rooms.records.items ≡ []) × (sessions ≤ vec_capacity r.rooms.records)) }
        ensures shares { IfOk result (λ r. (r.rooms.shares.items ≡ []) × (workers ≤ vec_capacity r.rooms.shares)) }
        ensures sessions { IfOk result (λ r. (vec_len r.hosts ≡ sessions) × ((k : ℕ) (d : SessionView) → k < sessions → slice_index_or r.hosts.items k d ≡ new_session (tables r.front.table past.now) keeper.old.now (k + 1))) }
        ensures workers { IfOk result (λ r. (vec_len r.crew ≡ workers) × ((k : ℕ) (d : WorkerView) → k < workers → slice_index_or r.crew.items k d ≡ new_worker (tables r.front.table past.now) keeper.old.now (k + 1))) }
        ensures err { IfErr result (λ e. e ≡ CloseError.Memory) }
    {
        let rooms = Rooms::new(alloc, sessions, workers)?;
        let (front, mut seat) = Front::new(alloc, u64::from(sessions) + u64::from(workers))?;
        let (fired, mut root) = blank.open::<L>();
        let crew = new_workers(alloc, &front, past, keeper, &mut seat, &mut root, workers)?;
        let hosts = new_sessions(alloc, &front, past, keeper, seat, sessions)?;
        Ok(Made {
            front,
            fired,
            root,
            hosts,
            crew,
            rooms,
        })
    }
}

impl<L: NetLedger> SharedNet<L> {
    /// The net behind a lock, with its sessions, Host(1) and on, and its workers, Worker(1) and on. Where memory is
    /// refused, the net is gone.
    pub fn new(
        alloc: Global,
        blank: Blank,
        opened: (Past, Keeper),
        net: Net,
        fuel: u64,
        sessions: u8,
        workers: u8,
    ) -> Result<(SharedNet<L>, Vec<Session>, Vec<Worker<L>>), CloseError>
        requires ledger { (blank.name ≡ L.name) × (blank.parts ≡ L.parts) × (L.parts ≡ workers) × (L.workers ≡ workers) }
        requires past { (opened.0 ≡ L.past) × IsFresh L.past net opened.1 }
        requires opening { (net.wiring ≡ L.terms.wiring) × (net.limit ≡ L.terms.limit) × (fuel ≡ L.terms.fuel) × (sessions ≡ L.terms.sessions) }
        requires counts { (1 ≤ sessions) × (sessions ≤ 16) × (1 ≤ workers) × (workers ≤ 8) }
        requires unused { net.journal ≡ [] }
        ensures shared { IfOk result (λ r. (r.0.sessions ≡ sessions) × (r.0.workers ≡ workers)) }
        ensures sessions { IfOk result (λ r. (vec_len r.1 ≡ sessions) × ((k : ℕ) (d : SessionView) → k < sessions → slice_index_or r.1.items k d ≡ new_session r.0.table (moment net false []) (k + 1))) }
        ensures workers { IfOk result (λ r. (vec_len r.2 ≡ workers) × ((k : ℕ) (d : WorkerView) → k < workers → slice_index_or r.2.items k d ≡ new_worker r.0.table (moment net false []) (k + 1))) }
        ensures err { IfErr result (λ e. e ≡ CloseError.Memory) }
    {
        let (past, mut keeper) = opened;
        let made = Made::new(alloc, blank, &past, &mut keeper, sessions, workers)?;
        let rooms = made.rooms;
        let locked = Locked {
            net,
            fuel,
            stopped: false,
            sessions: rooms.standings,
            fired: made.fired,
            root: made.root,
        };
        let shared = SharedNet {
            locked: Mutex::new(Kept { locked, keeper }),
            answers: array::from_fn(|_| Condvar::new()),
            work: Condvar::new(),
            door: Door::new(),
            front: made.front,
            past,
            sessions: sessions as usize,
            workers: workers as usize,
            records: rooms.records,
            shares: rooms.shares,
        };
        Ok((shared, made.hosts, made.crew))
    }

    /// Wakes those of an audience who wait.
    fn wake(&self, audience: Audience) {
        let places = self.answers.iter().zip(audience.sessions);
        for (answers, is_woken) in places.take(self.sessions) {
            if is_woken {
                answers.notify_all();
            }
        }
        if audience.workers {
            self.work.notify_all();
        }
    }

    /// Carries a command out at once, and wakes whom it concerns.
    pub fn host<R: Wait>(
        &self,
        rt: &R,
        session: &mut Session,
        cmd: &HostCmd,
    ) -> Result<Reply, NetError>
        requires { session.old.seat.table ≡ self.now.table }
        ensures who { (session.new.who ≡ session.old.who) × Stays session.old.seat session.new.seat }
        ensures notes { IfOk result (λ r. Notes L.terms cmd.now r session.old session.new) }
        ensures cause { IfErr result (WasRefused L.terms session.old.seat.saw session.new.seat.saw (λ net e. RefusesCommand net cmd.now.verb cmd.now.port.items cmd.now.value e)) }
        ensures err { OnErr result ((session.new.own ≡ session.old.own) × IsSilent session.old.seat session.new.seat × HasMadeNone session.old.who session.old.seat session.new.seat) }
        ensures turned { OnOk result (HasTurned session.old.who (Running ∷ []) session.old.seat.saw session.new.seat.saw) }
        ensures no_more { HasTurnedOrNot session.old.who (Running ∷ []) session.old.seat.saw session.new.seat.saw }
    {
        if session.own.reserve(1).is_err() {
            return Err(NetError::Memory);
        }
        let (entry, reply, len) = self.answer(rt, &mut session.owner, session.who, cmd)?;
        self.front.publish(&mut session.seat, len);
        session.own.push_reserved(entry);
        Ok(reply)
    }

    /// One command under the lock.
    fn answer<R: Wait>(
        &self,
        rt: &R,
        owner: &mut Owner,
        who: Who,
        cmd: &HostCmd,
    ) -> Result<(Entry, Reply, u64), NetError>
        requires { (owner.old.table ≡ self.now.table.past) × (owner.old.who ≡ who) × (is_host who ≡ true) }
        ensures owner { (owner.new.table ≡ owner.old.table) × (owner.new.who ≡ owner.old.who) × Leads owner.old.seen owner.new.seen }
        ensures entry { IfOk result (λ r. IsEntryOf L.terms.wiring.ports who cmd.now r.1 r.0) }
        ensures added { IfOk result (λ r. WasAdded L.terms owner.old.seen owner.new.seen r.0 r.2) }
        ensures made { MatchResult result (λ r. MadeOne who r.0 r.2 owner.old.seen owner.new.seen) (λ _. MadeNone who owner.old.seen owner.new.seen) }
        ensures cause { IfErr result (λ e. During L.terms owner.old.seen owner.new.seen (λ net fuel stopped turns. RefusesCommand net cmd.now.verb cmd.now.port.items cmd.now.value e)) }
        ensures turned { HasTurned who (Running ∷ []) owner.old.seen owner.new.seen }
    {
        let mut kept = self.locked.lock(rt);
        let answered = kept.host(&self.past, owner, who, cmd);
        let audience = kept.locked.audience_of_command(answered);
        drop(kept);
        self.wake(audience);
        answered
    }

    /// Waits until the command would be answered and carries it out, or until it won't be. Whom an answer concerns is woken.
    pub fn wait_host<R: Wait>(
        &self,
        rt: &R,
        session: &mut Session,
        cmd: &HostCmd,
    ) -> Result<WaitReply, NetError>
        requires { session.old.seat.table ≡ self.now.table }
        ensures who { (session.new.who ≡ session.old.who) × Stays session.old.seat session.new.seat }
        ensures answered { IfOk result (λ w. MatchWait L.terms session.old.seat.saw session.new.seat.saw session.old.who cmd.now w
            (λ r. (is_answer r ≡ true) × Notes L.terms cmd.now r session.old session.new)
            ((session.new.own ≡ session.old.own) × IsSilent session.old.seat session.new.seat × HasMadeNone session.old.who session.old.seat session.new.seat)) }
        ensures cause { IfErr result (WasRefused L.terms session.old.seat.saw session.new.seat.saw (λ net e. RefusesPoll net cmd.now e)) }
        ensures err { OnErr result ((session.new.own ≡ session.old.own) × IsSilent session.old.seat session.new.seat × HasMadeNone session.old.who session.old.seat session.new.seat) }
        ensures turned { OnOk result (HasWaited L.terms.wiring session.old.who cmd.now session.old.seat.saw session.new.seat.saw) }
        ensures no_more { HasWaitedOrNot L.terms.wiring session.old.who cmd.now session.old.seat.saw session.new.seat.saw }
    {
        if session.own.reserve(1).is_err() {
            return Err(NetError::Memory);
        }
        match self.wait_for(rt, &mut session.owner, session.who, cmd)? {
            Polled::Answered(entry, reply, len) => {
                self.front.publish(&mut session.seat, len);
                session.own.push_reserved(entry);
                Ok(WaitReply::Answered(reply))
            }
            Polled::Stopped => Ok(WaitReply::Stopped),
            Polled::Resting => Ok(WaitReply::Resting),
            Polled::Spent => Ok(WaitReply::Spent),
            Polled::Wait => unreachable!(),
        }
    }

    /// Waits under the lock until a session is told something.
    fn wait_for<R: Wait>(
        &self,
        rt: &R,
        owner: &mut Owner,
        who: Who,
        cmd: &HostCmd,
    ) -> Result<Polled, NetError>
        requires { (owner.old.table ≡ self.now.table.past) × (owner.old.who ≡ who) × (is_host who ≡ true) }
        ensures owner { (owner.new.table ≡ owner.old.table) × (owner.new.who ≡ owner.old.who) × Leads owner.old.seen owner.new.seen }
        ensures last { IfOk result (IsLast L.terms owner.old.seen owner.new.seen who cmd.now) }
        ensures made { MatchResult result (λ told. MadeTold who told owner.old.seen owner.new.seen) (λ _. MadeNone who owner.old.seen owner.new.seen) }
        ensures cause { IfErr result (λ e. During L.terms owner.old.seen owner.new.seen (λ net fuel stopped turns. RefusesPoll net cmd.now e)) }
        ensures turned { HasWaited L.terms.wiring who cmd.now owner.old.seen owner.new.seen }
    {
        let mut kept = self.locked.lock(rt);
        kept.begin(&self.past, owner, who, cmd);
        for _ in rt.forever() {
            let told = kept.turn(&self.past, owner, who, cmd);
            if !is_wait(told) {
                let audience = kept.locked.audience_of_answer(told);
                drop(kept);
                self.wake(audience);
                return told;
            }
            kept = self.answers[place_of(who) % MAX_SESSIONS].wait(rt, kept);
        }
        unreachable!()
    }

    /// Fires a component at its lowest port that can move, and wakes whom it concerns.
    pub fn fire<R: Wait>(
        &self,
        rt: &R,
        worker: &mut Worker<L>,
        comp: u32,
    ) -> Result<Fired, FireError>
        requires { worker.old.seat.table ≡ self.now.table }
        ensures who { (worker.new.who ≡ worker.old.who) × Stays worker.old.seat worker.new.seat }
        ensures fired { IfOk result (λ f. FiresFor worker.old.who comp f.entry) }
        ensures lawful { IfOk result (λ f. (n : ℕ) × Tells n worker.old.seat worker.new.seat
            × HasFired L.terms worker.old.seat.saw worker.new.seat.saw worker.old.who comp f.entry f.wake n) }
        ensures cause { IfErr result (λ e. During L.terms worker.old.seat.saw worker.new.seat.saw (λ net fuel stopped turns. RefusesFiring net fuel comp e)) }
        ensures made { MatchResult result (λ f. HasMade worker.old.who (f.entry ∷ []) worker.old.seat worker.new.seat) (λ _. HasMadeNone worker.old.who worker.old.seat worker.new.seat) }
        ensures ok { OnOk result (worker.new.fired ≡ worker.old.fired + 1) }
        ensures err { OnErr result ((worker.new.fired ≡ worker.old.fired) × IsSilent worker.old.seat worker.new.seat) }
    {
        let inside = self.door.enter(rt);
        let mut kept = self.locked.lock(rt);
        let answered = kept.fire(
            &self.past,
            &mut worker.owner,
            worker.who,
            &mut worker.share,
            comp,
        );
        let audience = kept.locked.audience_of_firing(answered);
        drop(kept);
        drop(inside);
        self.wake(audience);
        let (fired, len) = answered?;
        worker.fired += 1;
        self.front.publish(&mut worker.seat, len);
        Ok(fired)
    }

    /// The component that is next from a number on; or rest, which is an event. All who wait are woken where it is refused,
    /// since that stops all.
    pub fn first_ready<R: Wait>(
        &self,
        rt: &R,
        worker: &mut Worker<L>,
        from: u32,
    ) -> Result<RestReply, NetError>
        requires { worker.old.seat.table ≡ self.now.table }
        ensures who { (worker.new.who ≡ worker.old.who) × Stays worker.old.seat worker.new.seat × (worker.new.fired ≡ worker.old.fired) }
        ensures told { IfOk result (λ r. (n : ℕ) × MatchRest r (Tells n worker.old.seat worker.new.seat) (IsSilent worker.old.seat worker.new.seat)
            × WasFirst L.terms worker.old.seat.saw worker.new.seat.saw worker.old.who from r n) }
        ensures cause { IfErr result (λ e. During L.terms worker.old.seat.saw worker.new.seat.saw (λ net fuel stopped turns. RefusesRest net e)) }
        ensures made { MatchResult result (λ r. MatchRest r (HasMade worker.old.who (Rested worker.old.who ∷ []) worker.old.seat worker.new.seat) (HasMadeNone worker.old.who worker.old.seat worker.new.seat)) (λ _. HasMadeNone worker.old.who worker.old.seat worker.new.seat) }
        ensures err { OnErr result (IsSilent worker.old.seat worker.new.seat) }
    {
        let inside = self.door.enter(rt);
        let answered = self
            .locked
            .lock(rt)
            .first_ready(&self.past, &mut worker.owner, worker.who, from);
        drop(inside);
        self.wake(Audience::of_rest(answered));
        let (reply, len) = answered?;
        match reply {
            RestReply::Rest => {
                self.front.publish(&mut worker.seat, len);
                Ok(RestReply::Rest)
            }
            RestReply::Ready(comp) => Ok(RestReply::Ready(comp)),
        }
    }

    /// Waits until there is work, or will be none. It wakes nobody.
    pub fn wait_work<R: Wait>(&self, rt: &R, worker: &mut Worker<L>) -> Work
        ensures who { (worker.new.who ≡ worker.old.who) × Stays worker.old.seat worker.new.seat × (worker.new.fired ≡ worker.old.fired) }
        ensures silent { IsSilent worker.old.seat worker.new.seat }
        ensures made { HasMadeNone worker.old.who worker.old.seat worker.new.seat }
        ensures told { WorkerWasTold L.terms worker.old.seat.saw worker.new.seat.saw result }
    {
        self.wait_told(rt, &mut worker.owner, worker.who)
    }

    /// Waits under the lock until a worker is told something.
    fn wait_told<R: Wait>(&self, rt: &R, owner: &mut Owner, who: Who) -> Work
        requires { (owner.old.table ≡ L.past) × (owner.old.who ≡ who) }
        ensures owner { (owner.new.table ≡ owner.old.table) × (owner.new.who ≡ owner.old.who) × Leads owner.old.seen owner.new.seen }
        ensures made { MadeNone who owner.old.seen owner.new.seen }
        ensures told { WorkerWasTold L.terms owner.old.seen owner.new.seen result }
    {
        let mut kept = self.locked.lock(rt);
        for _ in rt.forever() {
            if let Some(work) = kept.work(&self.past, owner, who) {
                return work;
            }
            kept = self.work.wait(rt, kept);
        }
        unreachable!()
    }

    /// Stops all workers, and the sessions that wait, which are woken.
    pub fn stop<R: Wait>(&self, rt: &R, stopper: &mut Stopper)
        requires { stopper.old.table ≡ L.past }
        ensures { (stopper.new.table ≡ stopper.old.table) × (stopper.new.used ≡ true) }
    {
        self.locked.lock(rt).stop(&self.past, stopper);
        self.wake(Audience::ALL);
    }

    /// The session runs no more, until its next command. All who wait are woken where the net is quiet now.
    pub fn end<R: Wait>(&self, rt: &R, session: &mut Session)
        requires { session.old.seat.table ≡ self.now.table }
        ensures who { (session.new.who ≡ session.old.who) × Stays session.old.seat session.new.seat }
        ensures same { (session.new.own ≡ session.old.own) × IsSilent session.old.seat session.new.seat × HasMadeNone session.old.who session.old.seat session.new.seat }
        ensures turned { HasTurned session.old.who (Ended ∷ []) session.old.seat.saw session.new.seat.saw }
    {
        let mut kept = self.locked.lock(rt);
        kept.stand(&self.past, &mut session.owner, session.who, Standing::Ended);
        let audience = kept.locked.audience_at_end();
        drop(kept);
        self.wake(audience);
    }

    /// A published length of the journal. It waits for nobody.
    pub fn seen(&self, session: &mut Session) -> u64
        requires { session.old.seat.table ≡ self.now.table }
        ensures same { (session.new.who ≡ session.old.who) × (session.new.own ≡ session.old.own) }
        ensures seat { (session.new.seat.table ≡ session.old.seat.table) × (session.new.seat.published ≡ session.old.seat.published) × (session.new.seat.saw ≡ session.old.seat.saw) }
        ensures seen { (session.old.seat.seen ≤ result) × (session.new.seat.seen ≡ result) }
    {
        self.front.read(&mut session.seat)
    }
}
