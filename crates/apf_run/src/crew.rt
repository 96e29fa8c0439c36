//! Deals the requests of a run out to its workers, starts them, and joins them.

ghost use Rattle.std.specs.Prelude.{◌≡◌, ◌+◌, ◌<◌, ◌≤◌, [], length, All, IfOk, IfErr, OnOk};
ghost use Rattle.apf_words.specs.Limits.{max_stations};
ghost use Rattle.apf_run.specs.Workers.{IsFresh, held};
ghost use Rattle.apf_session.specs.Openings.{IsNew};
ghost use Rattle.apf_run.specs.Crews.{expected, IsCrewFault};
ghost use Rattle.apf_run.specs.declared.fault.RunFault.TheVariants as run;

use crate::fault::RunFault;
use crate::finished::Finished;
use crate::operator::Operator;
use crate::plan::Plan;
use crate::worker::{Job, Work, Worker};
use apf_gate::{Pass, Station};
use std::alloc::{AllocError, Global};
use std::sync::Wait;
use std::thread;
use std::thread::{Promise, PromisedHandle, Scope, Threads};

/// That a worker brings as many requests to their ends, or goes through all rounds with as many slots.
#[derive(Drop)]
pub struct Share {
    pub(crate) count: usize,
}

impl<K: Plan> Promise<Result<Worker<K>, AllocError>> for Share {
    ghost use Rattle.std.specs.Prelude.{◌≡◌, length, IfOk};

    ghost kept_by = { λ p r. IfOk r (λ w. length w.dones ≡ p.count) };
}

type Handle<K> = PromisedHandle<Result<Worker<K>, AllocError>, Share>;

// A worker for each Station, with memory for its share of this many requests.
fn idle<K: Plan>(
    alloc: Global,
    requests: usize,
    stations: Vec<Station>,
) -> Result<Vec<Worker<K>>, AllocError>
    requires { All (IsNew K.level.gate) stations.items }
    ensures count { IfOk result (λ v. length v.items ≡ length stations.items) }
    ensures idle { IfOk result (λ v. All (λ w. (w.passes ≡ []) × (w.dones ≡ [])) v.items) }
{
    let share = requests.div_ceil(stations.len().max(1));
    let mut workers = Vec::with_capacity(alloc, stations.len())?;
    for station in stations {
        workers.push(Worker::new(alloc, Operator::new(station), share)?)?;
    }
    Ok(workers)
}

/// The workers of a run. Worker k of m has the requests whose numbers leave k when divided by m, in their order.
///
/// # Errors
///
/// `AllocError` if memory was refused.
#[tactic(auto, using(crate::proofs::Crews::none_held))]
pub fn deal_out<K: Plan>(
    alloc: Global,
    mut passes: Vec<Pass>,
    stations: Vec<Station>,
) -> Result<Vec<Worker<K>>, AllocError>
    requires some { 0 < length stations.items }
    requires stations { All (IsNew K.level.gate) stations.items }
    requires passes { All (IsFresh K.level.gate) passes.items }
    ensures count { IfOk result (λ v. length v.items ≡ length stations.items) }
    ensures held { IfOk result (λ v. held v.items ≡ length passes.items) }
    ensures none_done { IfOk result (λ v. All (λ w. w.dones ≡ []) v.items) }
{
    let mut workers = idle::<K>(alloc, passes.len(), stations)?;
    while let Some(pass) = passes.pop() {
        let at = (pass.number() % workers.len() as u128) as usize;
        workers[at].add(pass)?;
    }
    Ok(workers)
}

// Starts a worker.
fn start<'s, E, K: Plan, W: Work, R: Wait + Threads + Sync>(
    scope: &Scope<'s, E>,
    rt: &'s R,
    job: &'s Job<'s, K, W>,
    number: u32,
    worker: Worker<K>,
) -> Result<Handle<K>, RunFault>
    requires { worker.dones ≡ [] }
    ensures count { IfOk result (λ h. h.promise.count ≡ length worker.passes) }
    ensures fault { IfErr result (λ f. f ≡ run.Worker number) }
{
    let share = Share {
        count: worker.share(),
    };
    let started = scope.spawn_with(
        share,
        move || -> Result<Worker<K>, AllocError>
            requires { worker.dones ≡ [] }
            ensures { IfOk result (λ w. length w.dones ≡ length worker.passes) }
        { worker.work(rt, job) },
    );
    match started {
        Ok(handle) => Ok(handle),
        Err(_refused) => Err(RunFault::Worker(number)),
    }
}

// Starts each worker. Where one can't be started, those that were go on to their ends.
fn start_all<'s, E, K: Plan, W: Work, R: Wait + Threads + Sync>(
    scope: &Scope<'s, E>,
    rt: &'s R,
    job: &'s Job<'s, K, W>,
    workers: Vec<Worker<K>>,
    handles: &mut Vec<Handle<K>>,
) -> Result<(), RunFault>
    requires few { length workers.items ≤ max_stations }
    requires none { handles.old.items ≡ [] }
    requires none_done { All (λ w. w.dones ≡ []) workers.items }
    ensures count { OnOk result (length handles.new.items ≡ length workers.items) }
    ensures expected { OnOk result (expected handles.new.items ≡ held workers.items) }
    ensures fault { IfErr result (IsCrewFault (length workers.items)) }
{
    let mut number = 0;
    for worker in workers {
        let handle = start(scope, rt, job, number, worker)?;
        if handles.push(handle).is_err() {
            return Err(RunFault::NoMemory);
        }
        number += 1;
    }
    Ok(())
}

// Waits for each worker, and adds what it gave back.
fn join_all<K: Plan, R: Threads>(
    rt: &R,
    handles: Vec<Handle<K>>,
    mut finished: Finished<K>,
) -> Result<Finished<K>, RunFault>
    ensures dones { IfOk result (λ f. length f.dones ≡ length finished.dones + expected handles.items) }
    ensures stations { IfOk result (λ f. length f.stations ≡ length finished.stations + length handles.items) }
    ensures fault { IfErr result (λ f. f ≡ run.NoMemory) }
{
    for handle in handles {
        finished = finished.with(handle.join(rt)?)?;
    }
    Ok(finished)
}

/// Lets each worker bring its requests to their ends, in a thread of its own, and adds what they give back.
///
/// # Errors
///
/// `RunFault::Worker` of the first worker that could not be started, or `RunFault::NoMemory`. Those that were
/// started go on to their ends.
pub fn work_all<K: Plan, W: Work, R: Wait + Threads + Sync>(
    rt: &R,
    alloc: Global,
    job: &Job<'_, K, W>,
    workers: Vec<Worker<K>>,
    finished: Finished<K>,
) -> Result<Finished<K>, RunFault>
    requires few { length workers.items ≤ max_stations }
    requires none { (finished.dones ≡ []) × (finished.stations ≡ []) }
    requires none_done { All (λ w. w.dones ≡ []) workers.items }
    ensures dones { IfOk result (λ f. length f.dones ≡ held workers.items) }
    ensures stations { IfOk result (λ f. length f.stations ≡ length workers.items) }
    ensures fault { IfErr result (IsCrewFault (length workers.items)) }
{
    let mut handles = Vec::with_capacity(alloc, workers.len())?;
    thread::scope(
        thread::scope_env(),
        rt,
        move |scope| -> Result<Finished<K>, RunFault>
            requires few { length workers.items ≤ max_stations }
            requires none { (finished.dones ≡ []) × (finished.stations ≡ []) × (handles.items ≡ []) }
            requires none_done { All (λ w. w.dones ≡ []) workers.items }
            ensures dones { IfOk result (λ f. length f.dones ≡ held workers.items) }
            ensures stations { IfOk result (λ f. length f.stations ≡ length workers.items) }
            ensures fault { IfErr result (IsCrewFault (length workers.items)) }
        {
            start_all(scope, rt, job, workers, &mut handles)?;
            join_all(rt, handles, finished)
        },
    )
}
