//! A level of a seed, from its opening to its end.

ghost use Rattle.std.specs.Prelude.{◌≡◌, length};
ghost use Rattle.apf_session.specs.Openings.{level_of};

use crate::levels::stress::crew::{Gathered, closing, deal_out, gather, work_all};
use crate::levels::stress::note::{Act, Note};
use crate::levels::stress::settings::{THREADS, asks, settings};
use crate::levels::stress::stage::Stage;
use crate::levels::stress::worker::Worker;
use apf_book::{Ask, Config, Stats};
use apf_level::{Level, Naming, Opened, Report};
use apf_session::{OpenFault, Opening};
use std::alloc::Global;
use std::marker::Brand;
use std::sync::Wait;
use std::thread::Threads;

/// What a level was opened with, and what came of it.
#[derive(Drop)]
pub struct Course {
    pub config: Config,
    pub asks: Vec<Ask>,
    pub told: Told,
}

/// What a level and its callers told.
#[derive(Drop)]
pub struct Told {
    pub report: Report,
    /// The statistics as they were read before the end.
    pub read: Stats,
    /// What the callers of requests were told, in the order of the requests.
    pub notes: Vec<Note>,
    pub acts: Vec<Act>,
    /// The most seats on which two requests or more ran at once.
    pub most: u64,
}

// The threads bring their requests to their ends. Tells the most seats on which two requests or more ran at once.
fn play<K: Naming, R: Threads + Wait + Sync>(
    rt: &R,
    alloc: Global,
    seed: u64,
    level: &Level<K>,
    asks: &[Ask],
    workers: &mut [Worker<K>],
) -> u64
    requires { length asks.now ≡ length K.level.gate.shape.widths }
{
    let count = asks.len();
    let last = closing(seed, count as u64);
    let stage = Stage::new(alloc, level, asks, last);
    work_all(rt, &stage, workers);
    stage.crowd.most()
}

fn run_named<K: Naming, R: Threads + Wait + Sync>(
    rt: &R,
    alloc: Global,
    seed: u64,
    opening: Opening<'_>,
) -> Result<Told, OpenFault>
    requires { K.level ≡ level_of opening.gate opening.board.cell opening.config opening.asks.now }
{
    let Opening {
        config,
        asks,
        gate,
        desk,
        passes,
        stations,
        board,
        window,
        reader,
    } = opening;
    let Opened {
        level,
        passes,
        stations,
        mut stats,
    } = Level::<K>::open(
        alloc,
        &config,
        asks,
        gate,
        desk,
        passes,
        stations,
        (board, window, reader),
    )?;
    let requests = passes.len();
    let callers = stations.len();
    let mut workers = deal_out::<K>(alloc, seed, passes, stations)?;
    let most = play(rt, alloc, seed, &level, asks, workers.as_mut_slice());
    let Gathered {
        dones,
        stations,
        notes,
        acts,
        of: _,
    } = gather(alloc, requests, workers)?;
    let read = level.stats(rt, &mut stats);
    if dones.len() != requests || stations.len() != callers {
        return Err(OpenFault::NoMemory);
    }
    let report = level.end(alloc, dones, stations, stats)?;
    Ok(Told {
        report,
        read,
        notes,
        acts,
        most,
    })
}

/// Opens the level of a seed with this many requests, brings them to their ends in eight threads, and ends it.
///
/// # Errors
///
/// Why the level was not opened, or not ended.
pub fn run<R: Threads + Wait + Sync>(
    rt: &R,
    alloc: Global,
    seed: u64,
    count: u32,
) -> Result<Course, OpenFault> {
    let config = settings();
    let asks = asks(alloc, seed, count)?;
    let opening = Opening::new(alloc, &config, asks.as_slice(), THREADS)?;
    let told = run_named::<Brand, R>(rt, alloc, seed, opening)?;
    Ok(Course { config, asks, told })
}
