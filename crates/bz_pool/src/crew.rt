//! The threads: each is started with a promise of what its session or worker is afterwards.

ghost use Rattle.std.specs.Prelude.{◌≡◌, ◌+◌, ◌≤◌, [], map, vec_len, IfOk, IfSome, MatchResult};
ghost use Rattle.std.specs.List.{All};
ghost use Rattle.std.specs.Vec.{vec_capacity};
ghost use Rattle.bz_pool.specs.Crews.{AddsWork, EachPlayed};
ghost use Rattle.bz_pool.specs.Pooled.{IsPlayed, WorkEndIs};

use crate::playing::{End, play};
use crate::work::{Gate, Job};
use bz_locked::{NetLedger, Session, SharedNet, Worker};
use bz_model::{HostCmd, Who};
use std::alloc::{AllocError, Global};
use std::snapshot::Snapshot;
use std::sync::Wait;
use std::sync::ledger::Ledger;
use std::thread;
use std::thread::{Promise, PromisedHandle, Scope, Threads};

/// What comes back is of this net and of this session, which has played these commands.
#[derive(Drop)]
pub struct PlayOf<L: NetLedger>(Snapshot<SharedNet<L>>, Who, Snapshot<Vec<HostCmd>>);

impl<L: NetLedger> Promise<(Session, End)> for PlayOf<L> {
    ghost use Rattle.std.specs.Prelude.{◌≡◌};
    ghost use Rattle.bz_pool.specs.Pooled.{IsPlayed};

    ghost kept_by = { λ p r. (r.0.seat.table ≡ p.0.value.table) × (r.0.who ≡ p.1) × IsPlayed L.terms r.0.seat.saw r.0.who p.2.value.items r.1 r.0.own };
}

/// What comes back is of this net and of this worker, which has ended for such a reason.
#[derive(Drop)]
pub struct WorkOf<L: NetLedger>(Snapshot<SharedNet<L>>, Who);

impl<L: NetLedger> Promise<(Worker<L>, End)> for WorkOf<L> {
    ghost use Rattle.std.specs.Prelude.{◌≡◌};
    ghost use Rattle.bz_pool.specs.Pooled.{WorkEndIs};

    ghost kept_by = { λ p r. (r.0.seat.table ≡ p.0.value.table) × (r.0.who ≡ p.1) × WorkEndIs L.terms r.0.seat.saw r.1 };
}

fn session_thread<L: NetLedger, R: Wait>(
    shared: &SharedNet<L>,
    rt: &R,
    session: Session,
    words: Vec<HostCmd>,
) -> (Session, End)
    requires { (session.seat.table ≡ shared.now.table) × (session.own ≡ []) × (session.seat.saw.turns ≡ []) }
    ensures who { (result.0.seat.table ≡ shared.now.table) × (result.0.who ≡ session.who) }
    ensures played { IsPlayed L.terms result.0.seat.saw result.0.who words.items result.1 result.0.own }
{
    let mut session = session;
    let end = play(shared, rt, &mut session, &words);
    (session, end)
}

/// Starts a session's thread.
pub fn start_session<'s, E, L: NetLedger + Send + Sync, R: Wait + Sync>(
    scope: &Scope<'s, E>,
    rt: &'s R,
    shared: &'s SharedNet<L>,
    session: Session,
    words: Vec<HostCmd>,
) -> Option<PromisedHandle<(Session, End), PlayOf<L>>>
    requires { (session.seat.table ≡ shared.now.table) × (session.own ≡ []) × (session.seat.saw.turns ≡ []) }
    ensures { IfSome result (λ h. (h.promise.0.value ≡ shared.now) × (h.promise.1 ≡ session.who) × (h.promise.2.value ≡ words)) }
{
    let who = session.who();
    let promise = PlayOf(Snapshot::of(shared), who, Snapshot::of(&words));
    let started = scope.spawn_with(
        promise,
        move || -> (Session, End)
            requires { (session.seat.table ≡ shared.now.table) × (session.own ≡ []) × (session.seat.saw.turns ≡ []) }
            ensures { (result.0.seat.table ≡ shared.entry.now.table) × (result.0.who ≡ session.who) × IsPlayed L.terms result.0.seat.saw result.0.who words.items result.1 result.0.own }
        { session_thread(shared, rt, session, words) },
    );
    started.ok()
}

fn worker_thread<L: NetLedger, G: Gate, R: Wait>(
    shared: &SharedNet<L>,
    rt: &R,
    gate: &G,
    job: Job<L>,
) -> (Worker<L>, End)
    requires { job.worker.seat.table ≡ shared.now.table }
    ensures who { (result.0.seat.table ≡ shared.now.table) × (result.0.who ≡ job.worker.who) }
    ensures end { WorkEndIs L.terms result.0.seat.saw result.1 }
{
    let mut job = job;
    let end = job.work(shared, rt, gate);
    let Job {
        worker,
        owner: _,
        raids: _,
    } = job;
    (worker, end)
}

/// Starts a worker's thread.
pub fn start_worker<'s, E, L: NetLedger + Send + Sync, G: Gate + Sync, R: Wait + Sync>(
    scope: &Scope<'s, E>,
    rt: &'s R,
    shared: &'s SharedNet<L>,
    gate: &'s G,
    job: Job<L>,
) -> Option<PromisedHandle<(Worker<L>, End), WorkOf<L>>>
    requires { job.worker.seat.table ≡ shared.now.table }
    ensures { IfSome result (λ h. (h.promise.0.value ≡ shared.now) × (h.promise.1 ≡ job.worker.who)) }
{
    let who = job.worker.who();
    let promise = WorkOf(Snapshot::of(shared), who);
    let started = scope.spawn_with(
        promise,
        move || -> (Worker<L>, End)
            requires { job.worker.seat.table ≡ shared.now.table }
            ensures { (result.0.seat.table ≡ shared.entry.now.table) × (result.0.who ≡ job.worker.who) × WorkEndIs L.terms result.0.seat.saw result.1 }
        { worker_thread(shared, rt, gate, job) },
    );
    started.ok()
}

/// Joins the sessions' threads, in order.
pub fn join_sessions<L: NetLedger, R: Threads>(
    rt: &R,
    shared: &SharedNet<L>,
    running: Vec<PromisedHandle<(Session, End), PlayOf<L>>>,
    sessions: &mut Vec<Session>,
    ends: &mut Vec<End>,
)
    requires running { All (λ h. h.promise.0.value ≡ shared.now) running.items }
    requires sessions { (sessions.old.items ≡ []) × (vec_len running ≤ vec_capacity sessions.old) }
    requires ends { (ends.old.items ≡ []) × (vec_len running ≤ vec_capacity ends.old) }
    ensures who { map (λ s. s.who) sessions.new.items ≡ map (λ h. h.promise.1) running.items }
    ensures sessions { (vec_len sessions.new ≡ vec_len running) × All (λ s. s.seat.table ≡ shared.now.table) sessions.new.items }
    ensures ends { (vec_len ends.new ≡ vec_len running) × (vec_capacity ends.new ≡ vec_capacity ends.old) }
    ensures played { EachPlayed L.terms (map (λ h. h.promise.2.value) running.items) sessions.new.items ends.new.items }
{
    for handle in running {
        let (session, end) = handle.join(rt);
        sessions.push_reserved(session);
        ends.push_reserved(end);
    }
}

/// Joins the workers' threads, in order.
pub fn join_workers<L: NetLedger, R: Threads>(
    rt: &R,
    shared: &SharedNet<L>,
    running: Vec<PromisedHandle<(Worker<L>, End), WorkOf<L>>>,
    workers: &mut Vec<Worker<L>>,
    ends: &mut Vec<End>,
)
    requires running { All (λ h. h.promise.0.value ≡ shared.now) running.items }
    requires room { (workers.old.items ≡ []) × (vec_len running ≤ vec_capacity workers.old) × (vec_len ends.old + vec_len running ≤ vec_capacity ends.old) }
    ensures who { map (λ w. w.who) workers.new.items ≡ map (λ h. h.promise.1) running.items }
    ensures workers { (vec_len workers.new ≡ vec_len running) × All (λ w. w.seat.table ≡ shared.now.table) workers.new.items }
    ensures ends { AddsWork L.terms workers.new.items (vec_len running) ends.old.items ends.new.items }
{
    for handle in running {
        let (worker, end) = handle.join(rt);
        workers.push_reserved(worker);
        ends.push_reserved(end);
    }
}
