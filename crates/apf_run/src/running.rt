//! Runs requests by workers.

ghost use Rattle.std.specs.Prelude.{◌≡◌, ◌<◌, IfOk, IfErr, OnOk};
ghost use Rattle.apf_session.specs.Openings.{level_of};
ghost use Rattle.apf_run.specs.Asks.{asks_of};
ghost use Rattle.apf_run.specs.Runs.{HasRun};
ghost use Rattle.apf_run.specs.Faults.{CanRun, IsRunFault};

use crate::asks::asks_of_requests;
use crate::crew::{deal_out, work_all};
use crate::fault::RunFault;
use crate::finished::Finished;
use crate::plan::Plan;
use crate::worker::{Job, Work};
use apf_files::{Config, Request};
use apf_level::{Level, Opened, Report};
use apf_session::Opening;
use std::alloc::Global;
use std::marker::Brand;
use std::sync::Wait;
use std::thread::Threads;

/// Opens a level, brings all requests to their ends by this many workers, 1 to 64, each in a thread of its own,
/// and ends the level.
///
/// Worker k of m handles, in their order, the requests whose numbers leave k when divided by m. For each it
/// closes the level if the request says so, and waits until it is decided. If the request executes, the worker
/// does its work, cancels and strikes the request that it names (one that is not there is nobody), gives the
/// seats back, and dispatches where requests wait.
///
/// # Errors
///
/// The first of these: the gate's fault (`BadLimit`, `BadWidth` of the first bad width, and `TooMany` for more than
/// 10,000 requests or 64 workers); the level's (the dealer's, then the queues'); and `Worker`, of a worker that could
/// not be started (those that were go on to their ends). Whenever memory is refused, in the gate or the level too, it
/// is `NoMemory`, and that may come before anything is judged.
pub fn run<W: Work, R: Wait + Threads + Sync>(
    rt: &R,
    alloc: Global,
    config: &Config,
    requests: &[Request],
    workers: u32,
    work: &W,
) -> Result<Report, RunFault>
    requires some { 0 < workers }
    ensures told { IfOk result (HasRun config.now requests.now) }
    ensures settings { OnOk result (CanRun config.now requests.now workers) }
    ensures fault { IfErr result (IsRunFault config.now requests.now workers) }
{
    let asks = asks_of_requests(alloc, requests)?;
    let opening = Opening::new(alloc, config, asks.as_slice(), workers)?;
    run_named::<Brand, W, R>(rt, alloc, opening, requests, work)
}

fn run_named<K: Plan, W: Work, R: Wait + Threads + Sync>(
    rt: &R,
    alloc: Global,
    opening: Opening<'_>,
    requests: &[Request],
    work: &W,
) -> Result<Report, RunFault>
    requires level { K.level ≡ level_of opening.gate opening.board.cell opening.config opening.asks.now }
    requires plan { K.requests ≡ requests.now }
    requires asks { opening.asks.now ≡ asks_of requests.now }
    requires some { 0 < opening.gate.shape.stations }
    ensures told { IfOk result (HasRun opening.entry.config requests.now) }
    ensures settings { OnOk result (CanRun opening.entry.config requests.now opening.entry.gate.shape.stations) }
    ensures fault { IfErr result (IsRunFault opening.entry.config requests.now opening.entry.gate.shape.stations) }
{
    let Opening {
        config,
        asks,
        gate,
        desk,
        passes,
        stations,
        board,
        window,
        reader,
    } = opening;
    let Opened {
        level,
        passes,
        stations,
        stats,
    } = Level::<K>::open(
        alloc,
        &config,
        asks,
        gate,
        desk,
        passes,
        stations,
        (board, window, reader),
    )?;
    let finished = Finished::new(alloc, passes.len(), stations.len())?;
    let workers = deal_out(alloc, passes, stations)?;
    let job = Job::new(&level, requests, work);
    let finished = work_all(rt, alloc, &job, workers, finished)?;
    let (dones, stations) = finished.into_parts();
    Ok(level.end(alloc, dones, stations, stats)?)
}
