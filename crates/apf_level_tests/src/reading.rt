//! One thread reads the statistics while four others run requests.

ghost use denote.Param.Send.{IsSync};
ghost use Rattle.std.specs.Prelude.{◌≡◌, length};

use crate::opening::settings;
use crate::scenes::{Scene, run};
use crate::scripts::numbers;
use apf_book::{Ask, Config, Stats};
use apf_level::{Level, Naming, StatsPass};
use apf_rounds::{ENOUGH, MOST_LEVELS, MOST_TURNS, Start, pass_time, turns};
use apf_session::{Answer, OpenFault, Request, Session};
use std::process::Abort;
use std::sync::Wait;
use std::sync::atomic::{AtomicU64, Ordering};
use std::thread;
use std::thread::{Threads, join_mut};

/// What the threads of one round share.
#[derive(Drop)]
pub struct Readings {
    round: u32,
    start: Start,
    // The readings that told other numbers than the ones before them.
    changes: AtomicU64,
}

impl Readings {
    fn new(round: u32) -> Readings {
        Readings {
            round,
            start: Start::new(),
            changes: AtomicU64::new(0),
        }
    }

    /// Each request is run, in four threads, while one more reads the statistics.
    pub fn play<K: Naming, R: Threads + Wait + Abort + Sync>(
        &self,
        rt: &R,
        session: &mut Session<K>,
    ) {
        serve_beside_reader(
            rt,
            &session.level,
            self,
            &mut session.stats,
            session.requests.as_mut_slice(),
        );
    }
}

// Whether each request that entered was dispatched, was struck or waits.
fn adds_up(now: Stats) -> bool {
    let gone = u64::from(now.dispatched) + u64::from(now.struck);
    u64::from(now.entered) == gone + u64::from(now.waiting)
}

// Whether no number that only grows is less than before.
fn goes_on(before: Stats, now: Stats) -> bool {
    now.entered >= before.entered
        && now.dispatched >= before.dispatched
        && now.struck >= before.struck
        && now.full >= before.full
}

// Reads the statistics once, and asserts that they add up and do not go back.
fn read<K: Naming, R: Wait + Abort>(
    rt: &R,
    level: &Level<K>,
    readings: &Readings,
    before: Stats,
    stats: &mut StatsPass,
) -> Stats
    requires { stats.old.cell ≡ level.now.cell }
    ensures { stats.new.cell ≡ level.now.cell }
{
    let now = level.stats(rt, stats);
    assert!(rt; adds_up(now), "{now:?}");
    assert!(rt; goes_on(before, now), "{now:?} after {before:?}");
    if now != before {
        readings.changes.fetch_add(1, Ordering::SeqCst);
    }
    now
}

// Reads the statistics ten thousand times, and now and then lets the others go on.
fn read_often<K: Naming, R: Wait + Abort>(
    rt: &R,
    level: &Level<K>,
    readings: &Readings,
    stats: &mut StatsPass,
)
    requires { stats.old.cell ≡ level.now.cell }
    ensures { stats.new.cell ≡ level.now.cell }
{
    readings.start.wait_for(5);
    let mut before = numbers(0, 0, 0, 0, 0);
    for reading in 0..10_000u32 {
        before = read(rt, level, readings, before, stats);
        if reading % 50 == 0 {
            thread::yield_now();
        }
    }
}

// The request arrives, and reads its decision until it does not wait any more, in at most this many turns.
fn arrive<K: Naming, R: Wait>(rt: &R, level: &Level<K>, request: &mut Request<K>) -> Answer {
    let mut answer = request.begin(rt, level);
    for _turn in 0..MOST_TURNS {
        if answer != Answer::Waits {
            break;
        }
        thread::yield_now();
        answer = request.poll(rt, level);
    }
    answer
}

// Runs the request. The first of each thread waits for the others.
fn serve<K: Naming, R: Wait>(
    rt: &R,
    level: &Level<K>,
    readings: &Readings,
    place: usize,
    request: &mut Request<K>,
) {
    if place % 25 == 0 {
        readings.start.wait_for(5);
    }
    if arrive(rt, level, request) == Answer::Run {
        pass_time(turns(readings.round, place) / 4);
        thread::yield_now();
        // it executes, so this answers Released
        let _ = request.finish(rt, level);
    }
}

// Each request is run, in four threads.
fn serve_all<K: Naming, R: Threads + Wait + Sync>(
    rt: &R,
    level: &Level<K>,
    readings: &Readings,
    requests: &mut [Request<K>],
)
    ensures { length requests.new ≡ length requests.old }
{
    thread::for_each_mut(
        rt,
        requests,
        4,
        &|place, request| serve(rt, level, readings, place, request),
    );
}

// Each request is run, in four threads, while one more reads the statistics.
fn serve_beside_reader<K: Naming, R: Threads + Wait + Abort + Sync>(
    rt: &R,
    level: &Level<K>,
    readings: &Readings,
    stats: &mut StatsPass,
    requests: &mut [Request<K>],
)
    requires { stats.old.cell ≡ level.now.cell }
    ensures cell { stats.new.cell ≡ level.now.cell }
    ensures count { length requests.new ≡ length requests.old }
{
    join_mut(
        rt,
        &mut ||
            requires { stats.now.cell ≡ level.now.cell }
            ensures { stats.exit.now.cell ≡ level.entry.now.cell }
        { read_often(rt, level, readings, stats) },
        &mut ||
            requires { IsSync R.row }
            ensures { length requests.exit.now ≡ length requests.entry.now }
        { serve_all(rt, level, readings, requests) },
    );
}

// Each reading adds up, and none goes back. Some readings differ from the ones before them.
#[test]
fn one_reads_while_four_run(rt: HostRuntime) -> Result<(), OpenFault> {
    let asks: Vec<Ask> = (0..100u64)
        .map(|request| Ask {
            width: 1,
            hash: request % 2,
        })
        .collect(rt.alloc())?;
    let config = Config {
        queues: 2,
        queue_length_limit: 10_000,
        ..settings(1)
    };
    let mut changes = 0u64;
    for round in 0..MOST_LEVELS {
        let readings = Readings::new(round);
        let ended = run(
            &rt,
            rt.alloc(),
            config,
            asks.as_slice(),
            0,
            &[Scene::Read(&readings)],
        )?;
        ended.executed(&rt, 100);
        changes = changes.saturating_add(readings.changes.load(Ordering::SeqCst));
        if changes >= ENOUGH {
            break;
        }
    }
    assert!(rt; changes >= ENOUGH, "{changes} changes");
    Ok(())
}
