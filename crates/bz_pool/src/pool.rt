//! The pool: a net, its sessions and its workers, from start to end.

ghost use Rattle.std.specs.Prelude.{◌≡◌, ◌+◌, ◌≤◌, ◌<◌, List, [], false, length, map, vec_len, IfErr, IfOk, OnErr};
ghost use Rattle.std.specs.List.{All};
ghost use Rattle.std.specs.Vec.{vec_capacity};
ghost use Rattle.bz_locked.specs.Closing.{Gathers, Agrees};
ghost use Rattle.bz_locked.specs.Terms.{terms};
ghost use Rattle.bz_past.specs.Moments.{moment};
ghost use Rattle.bz_past.specs.Seen.{IsFresh};
ghost use Rattle.bz_past.specs.declared.standing.Turn.{Turn};
ghost use Rattle.bz_pool.specs.Crews.{HavePlayed};
ghost use Rattle.bz_pool.specs.Pooled.{ArePlayed, IsPooled, RefusesPool, hosts, hands};

use crate::crew::{PlayOf, WorkOf, join_sessions, join_workers, start_session, start_worker};
use crate::playing::End;
use crate::raids::{all_raids, decks};
use crate::work::{Gate, Job};
use bz_locked::{CloseError, Closed, Keeper, NetLedger, Past, Session, SharedNet, Stopper, Worker};
use bz_model::HostCmd;
use bz_net::Net;
use std::alloc::{AllocError, Global};
use std::marker::Brand;
use std::sync::Wait;
use std::sync::ledger::{Blank, Ledger};
use std::thread;
use std::thread::{PromisedHandle, Scope, Threads};
use thiserror::Error;

/// Why a pool gave no net back.
#[derive(Clone, Copy, Debug, PartialEq, Eq, Error)]
pub enum PoolError {
    #[error("{0}")]
    Close(CloseError),
    #[error("F3 Memory")]
    Memory,
    #[error("P3 NoThread")]
    NoThread,
}

// What was wanting before the sessions and workers could play.
#[derive(Clone, Copy)]
enum Lack {
    Memory,
    NoThread,
}

// What the threads give back, and the stopper, which was not used.
#[derive(Drop)]
struct Crew<L: NetLedger> {
    sessions: Vec<Session>,
    workers: Vec<Worker<L>>,
    ends: Vec<End>,
    stopper: Stopper,
}

// Each worker with its deque and its raids.
fn jobs<L: NetLedger>(
    alloc: Global,
    shared: &SharedNet<L>,
    workers: Vec<Worker<L>>,
) -> Result<Vec<Job<L>>, AllocError>
    requires { All (λ w. w.seat.table ≡ shared.now.table) workers.items }
    ensures jobs { IfOk result (λ v. (vec_len v ≡ vec_len workers) × All (λ j. j.worker.seat.table ≡ shared.now.table) v.items) }
    ensures who { IfOk result (λ v. map (λ j. j.worker.who) v.items ≡ map (λ w. w.who) workers.items) }
{
    let decks = decks(alloc, workers.len())?;
    let mut raids = all_raids(alloc, &decks)?.into_iter();
    let mut decks = decks.into_iter();
    let mut jobs = Vec::new(alloc);
    for worker in workers {
        let (Some(deck), Some(raids)) = (decks.next(), raids.next()) else {
            return Err(AllocError);
        };
        jobs.push(Job {
            worker,
            owner: deck.into_owner(),
            raids,
        })?;
    }
    Ok(jobs)
}

// Starts the sessions' threads, each with its list.
fn start_sessions<'s, E, L: NetLedger + Send + Sync, R: Wait + Sync>(
    scope: &Scope<'s, E>,
    rt: &'s R,
    alloc: Global,
    shared: &'s SharedNet<L>,
    sessions: Vec<Session>,
    lists: Vec<Vec<HostCmd>>,
) -> Result<Vec<PromisedHandle<(Session, End), PlayOf<L>>>, Lack>
    requires sessions { All (λ s. (s.seat.table ≡ shared.now.table) × (s.own ≡ []) × (s.seat.saw.turns ≡ [])) sessions.items }
    requires lists { vec_len lists ≡ vec_len sessions }
    ensures running { IfOk result (λ v. (vec_len v ≡ vec_len sessions) × All (λ h. h.promise.0.value ≡ shared.now) v.items) }
    ensures who { IfOk result (λ v. map (λ h. h.promise.1) v.items ≡ map (λ s. s.who) sessions.items) }
    ensures lists { IfOk result (λ v. map (λ h. h.promise.2.value) v.items ≡ lists.items) }
{
    let mut lists = lists.into_iter();
    let Ok(mut running) = Vec::with_capacity(alloc, sessions.len()) else {
        return Err(Lack::Memory);
    };
    for session in sessions {
        let Some(list) = lists.next() else {
            unreachable!()
        };
        let Some(handle) = start_session(scope, rt, shared, session, list) else {
            return Err(Lack::NoThread);
        };
        running.push_reserved(handle);
    }
    Ok(running)
}

// The same of the workers' threads.
fn start_workers<'s, E, L: NetLedger + Send + Sync, G: Gate + Sync, R: Wait + Sync>(
    scope: &Scope<'s, E>,
    rt: &'s R,
    alloc: Global,
    shared: &'s SharedNet<L>,
    gate: &'s G,
    jobs: Vec<Job<L>>,
) -> Result<Vec<PromisedHandle<(Worker<L>, End), WorkOf<L>>>, Lack>
    requires { All (λ j. j.worker.seat.table ≡ shared.now.table) jobs.items }
    ensures running { IfOk result (λ v. (vec_len v ≡ vec_len jobs) × All (λ h. h.promise.0.value ≡ shared.now) v.items) }
    ensures who { IfOk result (λ v. map (λ h. h.promise.1) v.items ≡ map (λ j. j.worker.who) jobs.items) }
{
    let Ok(mut running) = Vec::with_capacity(alloc, jobs.len()) else {
        return Err(Lack::Memory);
    };
    for job in jobs {
        let Some(handle) = start_worker(scope, rt, shared, gate, job) else {
            return Err(Lack::NoThread);
        };
        running.push_reserved(handle);
    }
    Ok(running)
}

// Starts both. Where one thread can't be started, those that run are stopped.
fn start_all<'s, E, L: NetLedger + Send + Sync, G: Gate + Sync, R: Wait + Sync>(
    scope: &Scope<'s, E>,
    rt: &'s R,
    alloc: Global,
    shared: &'s SharedNet<L>,
    gate: &'s G,
    sessions: Vec<Session>,
    lists: Vec<Vec<HostCmd>>,
    jobs: Vec<Job<L>>,
    stopper: Stopper,
) -> Result<
    (
        Vec<PromisedHandle<(Session, End), PlayOf<L>>>,
        Vec<PromisedHandle<(Worker<L>, End), WorkOf<L>>>,
        Stopper,
    ),
    Lack,
>
    requires sessions { All (λ s. (s.seat.table ≡ shared.now.table) × (s.own ≡ []) × (s.seat.saw.turns ≡ [])) sessions.items }
    requires lists { vec_len lists ≡ vec_len sessions }
    requires jobs { All (λ j. j.worker.seat.table ≡ shared.now.table) jobs.items }
    requires stopper { stopper.table ≡ L.past }
    ensures stopper { IfOk result (λ r. r.2 ≡ stopper) }
    ensures sessions { IfOk result (λ r. (vec_len r.0 ≡ vec_len sessions) × All (λ h. h.promise.0.value ≡ shared.now) r.0.items) }
    ensures workers { IfOk result (λ r. (vec_len r.1 ≡ vec_len jobs) × All (λ h. h.promise.0.value ≡ shared.now) r.1.items) }
    ensures who { IfOk result (λ r. (map (λ h. h.promise.1) r.0.items ≡ map (λ s. s.who) sessions.items) × (map (λ h. h.promise.1) r.1.items ≡ map (λ j. j.worker.who) jobs.items)) }
    ensures lists { IfOk result (λ r. map (λ h. h.promise.2.value) r.0.items ≡ lists.items) }
{
    let mut stopper = stopper;
    let hosts = match start_sessions(scope, rt, alloc, shared, sessions, lists) {
        Ok(hosts) => hosts,
        Err(error) => {
            shared.stop(rt, &mut stopper);
            return Err(error);
        }
    };
    match start_workers(scope, rt, alloc, shared, gate, jobs) {
        Ok(hands) => Ok((hosts, hands, stopper)),
        Err(error) => {
            shared.stop(rt, &mut stopper);
            Err(error)
        }
    }
}

// Runs all sessions and workers to their end.
#[tactic(auto, using(crate::proofs::Played::have_played))]
fn run_threads<'s, E, L: NetLedger + Send + Sync, G: Gate + Sync, R: Threads + Wait + Sync>(
    scope: &Scope<'s, E>,
    rt: &'s R,
    alloc: Global,
    shared: &'s SharedNet<L>,
    gate: &'s G,
    sessions: Vec<Session>,
    lists: Vec<Vec<HostCmd>>,
    workers: Vec<Worker<L>>,
    stopper: Stopper,
) -> Result<Crew<L>, Lack>
    requires sessions { All (λ s. (s.seat.table ≡ shared.now.table) × (s.own ≡ []) × (s.seat.saw.turns ≡ [])) sessions.items }
    requires lists { vec_len lists ≡ vec_len sessions }
    requires workers { All (λ w. w.seat.table ≡ shared.now.table) workers.items }
    requires stopper { stopper.table ≡ L.past }
    ensures stopper { IfOk result (λ c. c.stopper ≡ stopper) }
    ensures sessions { IfOk result (λ c. (vec_len c.sessions ≡ vec_len sessions) × All (λ s. s.seat.table ≡ shared.now.table) c.sessions.items) }
    ensures workers { IfOk result (λ c. (vec_len c.workers ≡ vec_len workers) × All (λ w. w.seat.table ≡ shared.now.table) c.workers.items) }
    ensures played { IfOk result (λ c. HavePlayed L.terms lists.items c.sessions.items c.workers.items (vec_len workers) c.ends.items) }
    ensures who { IfOk result (λ c. (map (λ s. s.who) c.sessions.items ≡ map (λ s. s.who) sessions.items) × (map (λ w. w.who) c.workers.items ≡ map (λ w. w.who) workers.items)) }
{
    let Ok(mut back) = Vec::with_capacity(alloc, sessions.len()) else {
        return Err(Lack::Memory);
    };
    let Ok(mut crew) = Vec::with_capacity(alloc, workers.len()) else {
        return Err(Lack::Memory);
    };
    let Ok(mut ends) = Vec::with_capacity(alloc, sessions.len() + workers.len()) else {
        return Err(Lack::Memory);
    };
    let Ok(jobs) = jobs(alloc, shared, workers) else {
        return Err(Lack::Memory);
    };
    let (hosts, hands, stopper) = start_all(
        scope, rt, alloc, shared, gate, sessions, lists, jobs, stopper,
    )?;
    join_sessions(rt, shared, hosts, &mut back, &mut ends);
    join_workers(rt, shared, hands, &mut crew, &mut ends);
    Ok(Crew {
        sessions: back,
        workers: crew,
        ends,
        stopper,
    })
}

// All threads, in one scope.
fn in_scope<'x, L: NetLedger + Send + Sync, G: Gate + Sync, R: Threads + Wait + Sync>(
    rt: &'x R,
    alloc: Global,
    shared: &'x SharedNet<L>,
    gate: &'x G,
    sessions: Vec<Session>,
    lists: Vec<Vec<HostCmd>>,
    workers: Vec<Worker<L>>,
    stopper: Stopper,
) -> Result<Crew<L>, Lack>
    requires sessions { All (λ s. (s.seat.table ≡ shared.now.table) × (s.own ≡ []) × (s.seat.saw.turns ≡ [])) sessions.items }
    requires lists { vec_len lists ≡ vec_len sessions }
    requires workers { All (λ w. w.seat.table ≡ shared.now.table) workers.items }
    requires stopper { stopper.table ≡ L.past }
    ensures stopper { IfOk result (λ c. c.stopper ≡ stopper) }
    ensures sessions { IfOk result (λ c. (vec_len c.sessions ≡ vec_len sessions) × All (λ s. s.seat.table ≡ shared.now.table) c.sessions.items) }
    ensures workers { IfOk result (λ c. (vec_len c.workers ≡ vec_len workers) × All (λ w. w.seat.table ≡ shared.now.table) c.workers.items) }
    ensures played { IfOk result (λ c. HavePlayed L.terms lists.items c.sessions.items c.workers.items (vec_len workers) c.ends.items) }
    ensures who { IfOk result (λ c. (map (λ s. s.who) c.sessions.items ≡ map (λ s. s.who) sessions.items) × (map (λ w. w.who) c.workers.items ≡ map (λ w. w.who) workers.items)) }
{
    thread::scope(
        thread::scope_env(),
        rt,
        |scope| -> Result<Crew<L>, Lack>
            requires { All (λ s. (s.seat.table ≡ shared.now.table) × (s.own ≡ []) × (s.seat.saw.turns ≡ [])) sessions.items × (vec_len lists ≡ vec_len sessions) × All (λ w. w.seat.table ≡ shared.now.table) workers.items × (stopper.table ≡ L.past) }
            ensures { IfOk result (λ c. (vec_len c.sessions ≡ vec_len sessions) × All (λ s. s.seat.table ≡ shared.entry.now.table) c.sessions.items × (vec_len c.workers ≡ vec_len workers) × All (λ w. w.seat.table ≡ shared.entry.now.table) c.workers.items
                × (map (λ s. s.who) c.sessions.items ≡ map (λ s. s.who) sessions.items) × (map (λ w. w.who) c.workers.items ≡ map (λ w. w.who) workers.items)
                × HavePlayed L.terms lists.items c.sessions.items c.workers.items (vec_len workers) c.ends.items × (c.stopper ≡ stopper)) }
        {
            run_threads(
                scope, rt, alloc, shared, gate, sessions, lists, workers, stopper,
            )
        },
    )
}

// The net at the end, with the ends.
fn close<L: NetLedger>(shared: SharedNet<L>, crew: Crew<L>) -> Result<(Closed, Vec<End>), PoolError>
    requires counts { (vec_len crew.sessions ≡ shared.sessions) × (vec_len crew.workers ≡ shared.workers) × (shared.workers ≡ L.parts) }
    requires seats { All (λ s. s.seat.table ≡ shared.table) crew.sessions.items × All (λ w. w.seat.table ≡ shared.table) crew.workers.items }
    requires stopper { (crew.stopper.table ≡ L.past) × (crew.stopper.used ≡ false) }
    ensures gathers { IfOk result (λ r. Gathers L.terms false crew.sessions.items crew.workers.items r.0) }
    ensures agrees { IfOk result (λ r. Agrees crew.sessions.items crew.workers.items r.0) }
    ensures ends { IfOk result (λ r. r.1 ≡ crew.ends) }
    ensures never { OnErr result ⊥ }
{
    let Crew {
        sessions,
        workers,
        ends,
        stopper,
    } = crew;
    match shared.close(sessions, workers, stopper) {
        Ok(closed) => Ok((closed, ends)),
        Err((_, error)) => Err(PoolError::Close(error)),
    }
}

// A pool of any ledger with a part for each worker.
fn pool<L: NetLedger + Send + Sync, G: Gate + Sync, R: Threads + Wait + Sync>(
    rt: &R,
    alloc: Global,
    blank: Blank,
    opened: (Past, Keeper),
    stopper: Stopper,
    net: Net,
    workers: u8,
    fuel: u64,
    gate: &G,
    lists: Vec<Vec<HostCmd>>,
) -> Result<(Closed, Vec<End>), PoolError>
    requires ledger { (blank.name ≡ L.name) × (blank.parts ≡ L.parts) × (L.parts ≡ workers) × (L.workers ≡ workers) }
    requires counts { (1 ≤ vec_len lists) × (vec_len lists ≤ 16) × (1 ≤ workers) × (workers ≤ 8) }
    requires past { (opened.0 ≡ L.past) × IsFresh L.past net opened.1 }
    requires stopper { (stopper.table ≡ L.past) × (stopper.used ≡ false) }
    requires opening { (net.wiring ≡ L.terms.wiring) × (net.limit ≡ L.terms.limit) × (fuel ≡ L.terms.fuel) × (vec_len lists ≡ L.terms.sessions) }
    requires unused { net.journal ≡ [] }
    ensures pooled { IfOk result (λ r. IsPooled L.terms workers r.0) }
    ensures played { IfOk result (λ r. (turns : List Turn) × ArePlayed L.terms lists.items workers (moment r.0.net r.0.stopped turns) r.1.items) }
    ensures ends { IfOk result (λ r. vec_len r.1 ≡ vec_len lists + workers) }
    ensures refused { IfErr result RefusesPool }
{
    let made = SharedNet::<L>::new(alloc, blank, opened, net, fuel, lists.len() as u8, workers);
    let (net, sessions, crew) = match made {
        Ok(made) => made,
        Err(error) => return Err(PoolError::Close(error)),
    };
    match in_scope(rt, alloc, &net, gate, sessions, lists, crew, stopper) {
        Ok(crew) => close(net, crew),
        Err(Lack::Memory) => Err(PoolError::Memory),
        Err(Lack::NoThread) => Err(PoolError::NoThread),
    }
}

/// Plays a list of commands for each session, beside this many workers, with a thread for each of both. The ends are those of
/// the sessions, in the order of the lists, then of the workers. Before memory or a thread that is wanting is answered, the
/// threads that run are stopped and joined.
pub fn run_pool<G: Gate + Sync, R: Threads + Wait + Sync>(
    rt: &R,
    alloc: Global,
    net: Net,
    workers: u8,
    fuel: u64,
    gate: &G,
    lists: Vec<Vec<HostCmd>>,
) -> Result<(Closed, Vec<End>), PoolError>
    requires counts { (1 ≤ vec_len lists) × (vec_len lists ≤ 16) × (1 ≤ workers) × (workers ≤ 8) }
    requires unused { net.journal ≡ [] }
    ensures pooled { IfOk result (λ r. IsPooled (terms net.wiring net.limit fuel (vec_len lists)) workers r.0) }
    ensures played { IfOk result (λ r. (turns : List Turn) × ArePlayed (terms net.wiring net.limit fuel (vec_len lists)) lists.items workers (moment r.0.net r.0.stopped turns) r.1.items) }
    ensures ends { IfOk result (λ r. vec_len r.1 ≡ vec_len lists + workers) }
    ensures refused { IfErr result RefusesPool }
{
    let Ok((past, keeper, stopper)) = Past::open(alloc, &net) else {
        return Err(PoolError::Memory);
    };
    pool::<Brand, G, R>(
        rt,
        alloc,
        Blank::new(workers as u64),
        (past, keeper),
        stopper,
        net,
        workers,
        fuel,
        gate,
        lists,
    )
}
