//! Deals the slots of a run out to its workers, starts them, and joins them.

ghost use Rattle.std.specs.Prelude.{◌≡◌, ◌+◌, ◌<◌, ◌≤◌, [], length, All, IfOk, IfErr, OnOk};
ghost use Rattle.apf_words.specs.Limits.{max_stations};
ghost use Rattle.apf_session.specs.Openings.{IsNew};
ghost use Rattle.apf_session.specs.LifeOpenings.{IsFirstOf};
ghost use Rattle.apf_run.specs.RoundsWorkers.{IsIdle, IsReady, IsThrough, held};
ghost use Rattle.apf_run.specs.Crews.{expected, IsCrewFault};
ghost use Rattle.apf_run.specs.declared.fault.RunFault.TheVariants as faults;

use crate::crew::Share;
use crate::fault::RunFault;
use crate::rounds::finished::Finished;
use crate::rounds::operator::Operator;
use crate::rounds::plan::Plan;
use crate::rounds::watch::Watch;
use crate::rounds::worker::{Job, Work, Worker};
use apf_gate::Station;
use apf_level::life::Done;
use std::alloc::{AllocError, Global};
use std::sync::Wait;
use std::thread;
use std::thread::{Promise, PromisedHandle, Scope, Threads};

impl<K: Plan> Promise<Worker<K>> for Share {
    ghost use Rattle.apf_run.specs.RoundsWorkers.{IsThrough};

    ghost kept_by = { λ p w. IsThrough K.rounds p.count w };
}

type Handle<K> = PromisedHandle<Worker<K>, Share>;

// A worker for each Station, with memory for its share of this many slots.
fn idle<K: Plan>(
    alloc: Global,
    slots: usize,
    stations: Vec<Station>,
) -> Result<Vec<Worker<K>>, AllocError>
    requires { All (IsNew K.level.gate) stations.items }
    ensures count { IfOk result (λ v. length v.items ≡ length stations.items) }
    ensures idle { IfOk result (λ v. All IsIdle v.items) }
{
    let share = slots.div_ceil(stations.len().max(1));
    let mut workers = Vec::with_capacity(alloc, stations.len())?;
    for station in stations {
        workers.push(Worker::new(alloc, Operator::new(station), share)?)?;
    }
    Ok(workers)
}

/// The workers of a run. Worker k of m has the slots whose numbers leave k when divided by m, in their order.
///
/// # Errors
///
/// `AllocError` if memory was refused.
#[tactic(auto, using(crate::proofs::RoundsCrews::none_held))]
pub fn deal_out<K: Plan>(
    alloc: Global,
    slots: Vec<Done>,
    stations: Vec<Station>,
) -> Result<Vec<Worker<K>>, AllocError>
    requires some { 0 < length stations.items }
    requires stations { All (IsNew K.level.gate) stations.items }
    requires first { All (IsFirstOf K.level.gate) slots.items }
    ensures count { IfOk result (λ v. length v.items ≡ length stations.items) }
    ensures held { IfOk result (λ v. held v.items ≡ length slots.items) }
    ensures ready { IfOk result (λ v. All IsReady v.items) }
{
    let mut workers = idle::<K>(alloc, slots.len(), stations)?;
    for slot in slots {
        let at = slot.ticket().slot() as usize % workers.len();
        workers[at].add(slot)?;
    }
    Ok(workers)
}

// Starts a worker.
fn start<'s, E, K: Plan, W: Work, R: Wait + Threads + Sync>(
    scope: &Scope<'s, E>,
    rt: &'s R,
    job: &'s Job<'s, K, W>,
    number: u32,
    rounds: u32,
    worker: Worker<K>,
) -> Result<Handle<K>, RunFault>
    requires ready { IsReady worker }
    requires rounds { rounds ≡ K.rounds }
    ensures count { IfOk result (λ h. h.promise.count ≡ length worker.slots) }
    ensures fault { IfErr result (λ f. f ≡ faults.Worker number) }
{
    let share = Share {
        count: worker.share(),
    };
    let started = scope.spawn_with(
        share,
        move || -> Worker<K>
            requires ready { IsReady worker }
            requires rounds { rounds ≡ K.rounds }
            ensures { IsThrough K.rounds (length worker.slots) result }
        {
            let worked = worker.work(rt, job, rounds);
            job.end();
            worked
        },
    );
    match started {
        Ok(handle) => Ok(handle),
        Err(_refused) => Err(RunFault::Worker(number)),
    }
}

// Starts each worker. Where one can't be started, those that were go on to their ends.
fn start_all<'s, E, K: Plan, W: Work, R: Wait + Threads + Sync>(
    scope: &Scope<'s, E>,
    rt: &'s R,
    job: &'s Job<'s, K, W>,
    rounds: u32,
    workers: Vec<Worker<K>>,
    handles: &mut Vec<Handle<K>>,
) -> Result<(), RunFault>
    requires few { length workers.items ≤ max_stations }
    requires none { handles.old.items ≡ [] }
    requires ready { All IsReady workers.items }
    requires rounds { rounds ≡ K.rounds }
    ensures count { OnOk result (length handles.new.items ≡ length workers.items) }
    ensures expected { OnOk result (expected handles.new.items ≡ held workers.items) }
    ensures fault { IfErr result (IsCrewFault (length workers.items)) }
{
    let mut number = 0;
    for worker in workers {
        let handle = start(scope, rt, job, number, rounds, worker)?;
        if handles.push(handle).is_err() {
            return Err(RunFault::NoMemory);
        }
        number += 1;
    }
    Ok(())
}

// Waits for each worker, and adds what it gave back.
fn join_all<K: Plan, R: Threads>(
    rt: &R,
    handles: Vec<Handle<K>>,
    mut finished: Finished<K>,
) -> Result<Finished<K>, RunFault>
    ensures dones { IfOk result (λ f. length f.dones ≡ length finished.dones + expected handles.items) }
    ensures stations { IfOk result (λ f. length f.stations ≡ length finished.stations + length handles.items) }
    ensures fault { IfErr result (λ f. f ≡ faults.NoMemory) }
{
    for handle in handles {
        finished = finished.with(handle.join(rt))?;
    }
    Ok(finished)
}

// Lets one look on until so many workers came to their ends.
fn look_on<K: Plan, W: Work, V: Watch, R: Wait>(
    rt: &R,
    job: &Job<'_, K, W>,
    workers: u32,
    watch: &mut V,
) {
    if !watch.looks() {
        return;
    }
    for _ in rt.forever() {
        if job.are_ended(workers) {
            return;
        }
        if watch.pause() {
            watch.look(job.came(), job.waiting(rt));
        }
    }
}

/// Lets each worker go this many rounds through its slots, in a thread of its own, and adds what they give back. One may look on
/// meanwhile.
///
/// # Errors
///
/// `RunFault::Worker` of the first worker that could not be started, or `RunFault::NoMemory`. Those that were
/// started go on to their ends.
pub fn work_all<K: Plan, W: Work, V: Watch, R: Wait + Threads + Sync>(
    rt: &R,
    alloc: Global,
    job: &Job<'_, K, W>,
    rounds: u32,
    workers: Vec<Worker<K>>,
    finished: Finished<K>,
    watch: &mut V,
) -> Result<Finished<K>, RunFault>
    requires few { length workers.items ≤ max_stations }
    requires none { (finished.dones ≡ []) × (finished.stations ≡ []) }
    requires ready { All IsReady workers.items }
    requires rounds { rounds ≡ K.rounds }
    ensures dones { IfOk result (λ f. length f.dones ≡ held workers.items) }
    ensures stations { IfOk result (λ f. length f.stations ≡ length workers.items) }
    ensures fault { IfErr result (IsCrewFault (length workers.items)) }
{
    let mut handles = Vec::with_capacity(alloc, workers.len())?;
    thread::scope(
        thread::scope_env(),
        rt,
        move |scope| -> Result<Finished<K>, RunFault>
            requires few { length workers.items ≤ max_stations }
            requires none { (finished.dones ≡ []) × (finished.stations ≡ []) × (handles.items ≡ []) }
            requires ready { All IsReady workers.items }
            requires rounds { rounds ≡ K.rounds }
            ensures dones { IfOk result (λ f. length f.dones ≡ held workers.items) }
            ensures stations { IfOk result (λ f. length f.stations ≡ length workers.items) }
            ensures fault { IfErr result (IsCrewFault (length workers.items)) }
        {
            let count = workers.len() as u32;
            start_all(scope, rt, job, rounds, workers, &mut handles)?;
            look_on(rt, job, count, watch);
            join_all(rt, handles, finished)
        },
    )
}
