//! Runs requests by workers, in rounds.

ghost use Rattle.std.specs.Prelude.{◌≡◌, ◌<◌, ◌≤◌, length, All, IfOk, IfErr, OnOk};
ghost use Rattle.apf_session.specs.LifeOpenings.{level_of};
ghost use Rattle.apf_run.specs.RoundsPlans.{HasWidth, max_rounds};
ghost use Rattle.apf_run.specs.RoundsRuns.{HasRunRounds};
ghost use Rattle.apf_run.specs.RoundsFaults.{CanRunRounds, IsRoundsFault};

use crate::fault::RunFault;
use crate::rounds::crew::{deal_out, work_all};
use crate::rounds::finished::Finished;
use crate::rounds::newest::Newest;
use crate::rounds::plan::Plan;
use crate::rounds::watch::Watch;
use crate::rounds::worker::{Job, Work};
use apf_files::Request;
use apf_level::life::{Level, Opened, Report};
use apf_model::Config;
use apf_session::life::Opening;
use std::alloc::Global;
use std::marker::Brand;
use std::sync::Wait;
use std::thread::Threads;

/// Opens a level for life with a slot for each request, brings this many requests of each slot to their ends, one after
/// another, by this many workers, 1 to 64, each in a thread of its own, and ends the level.
///
/// Worker k of m has the slots whose numbers leave k when divided by m, and goes this many times through them, in their order.
/// Each time the slot is given anew, to a request that asks for what the slot's request in the list asks. The worker
/// closes the level if that says so, and waits until the new one is decided. If it executes, the worker does its work,
/// cancels and strikes the request that holds the slot that it names then (one that is not there, or of which no
/// request came yet, is nobody), gives the seats back, and dispatches where requests wait.
///
/// All memory is taken before the first worker starts, and at the end. `watch` may look at the run meanwhile.
///
/// # Errors
///
/// The first of these: the gate's fault (`BadLimit`, and `TooMany` for more than 10,000 requests or 64 workers); the
/// level's (the dealer's, then the queues'); and `Worker`, of a worker that could not be started (those that were go on
/// to their ends). Whenever memory is refused, in the gate or the level too, it is `NoMemory`, and that may come before
/// anything is judged.
pub fn run_rounds<W: Work, V: Watch, R: Wait + Threads + Sync>(
    rt: &R,
    alloc: Global,
    config: &Config,
    requests: &[Request],
    workers: u32,
    rounds: u32,
    work: &W,
    watch: &mut V,
) -> Result<Report, RunFault>
    requires some { 0 < workers }
    requires some_rounds { 1 ≤ rounds }
    requires few_rounds { rounds ≤ max_rounds }
    requires widths { All HasWidth requests.now }
    ensures told { IfOk result (HasRunRounds config.now requests.now rounds) }
    ensures settings { OnOk result (CanRunRounds config.now (length requests.now) workers) }
    ensures fault { IfErr result (IsRoundsFault config.now (length requests.now) workers) }
{
    let opening = Opening::new(alloc, config, requests.len(), workers)?;
    run_named::<Brand, W, V, R>(rt, alloc, opening, requests, rounds, work, watch)
}

fn run_named<K: Plan, W: Work, V: Watch, R: Wait + Threads + Sync>(
    rt: &R,
    alloc: Global,
    opening: Opening,
    requests: &[Request],
    rounds: u32,
    work: &W,
    watch: &mut V,
) -> Result<Report, RunFault>
    requires level { K.level ≡ level_of opening.gate opening.config }
    requires plan { K.requests ≡ requests.now }
    requires rounds { K.rounds ≡ rounds }
    requires slots { opening.gate.shape.slots ≡ length requests.now }
    requires some { 0 < opening.gate.shape.stations }
    requires some_rounds { 1 ≤ rounds }
    requires few_rounds { rounds ≤ max_rounds }
    requires widths { All HasWidth requests.now }
    ensures told { IfOk result (HasRunRounds opening.config requests.now rounds) }
    ensures settings { OnOk result (CanRunRounds opening.config (length requests.now) opening.gate.shape.stations) }
    ensures fault { IfErr result (IsRoundsFault opening.config (length requests.now) opening.gate.shape.stations) }
{
    let Opening {
        config,
        gate,
        desk,
        passes,
        stations,
    } = opening;
    let Opened {
        level,
        slots,
        stations,
    } = Level::<K>::open_for_life(alloc, &config, gate, desk, passes, stations)?;
    let newest = Newest::new(alloc, slots.len())?;
    let finished = Finished::new(alloc, slots.len(), stations.len())?;
    let workers = deal_out(alloc, slots, stations)?;
    let job = Job::new(&level, requests, &newest, work);
    let finished = work_all(rt, alloc, &job, rounds, workers, finished, watch)?;
    drop(job);
    let (dones, stations) = finished.into_parts();
    Ok(level.end(alloc, dones, stations)?)
}
