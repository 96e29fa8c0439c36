//! What a run, once and in rounds, and a replay answer where settings, requests or workers are out of range, of which no
//! reader lets any through.

ghost use Rattle.std.specs.Prelude.{◌<◌, All, IfOk};
ghost use Rattle.apf_run.specs.RoundsPlans.{HasWidth};

use crate::asserts::is;
use crate::fault::Fault;
use apf_run::rounds::{Executing, Nobody, run_rounds};
use apf_run::{
    Config, GateFault, LevelFault, Request, Response, RunFault, Running, Work, replay, rounds, run,
};
use std::alloc::{AllocError, Global};
use std::sync::Wait;
use std::thread::Threads;

/// No work.
pub struct Nothing;

impl Work for Nothing {
    fn work(&self, _running: &Running, _units: u32) {}
}

impl rounds::Work for Nothing {
    fn work(&self, _executing: &Executing<'_>, _units: u32) {}
}

/// What a call answers.
#[derive(Clone, Copy, Debug, PartialEq, Eq)]
enum Told {
    /// A run: how many requests it executed.
    Executed(u64),
    /// A replay.
    Replayed,
    Gate(GateFault),
    /// The number of the dealer's fault.
    Dealer(u8),
    /// The number of the queues' fault.
    Queues(u8),
    Worker,
    NoMemory,
}

fn told_of(fault: RunFault) -> Told {
    match fault {
        RunFault::Gate(fault) => Told::Gate(fault),
        RunFault::Level(LevelFault::Dealer(fault)) => Told::Dealer(fault.number()),
        RunFault::Level(LevelFault::Queues(fault)) => Told::Queues(fault.number()),
        RunFault::Worker(_number) => Told::Worker,
        RunFault::Level(LevelFault::NoMemory) | RunFault::NoMemory => Told::NoMemory,
    }
}

// What a run by this many workers answers.
fn ran<R: Wait + Threads + Sync>(
    rt: &R,
    alloc: Global,
    config: &Config,
    requests: &[Request],
    workers: u32,
) -> Told
    requires { 0 < workers }
{
    match run(rt, alloc, config, requests, workers, &Nothing) {
        Ok(report) => Told::Executed(u64::from(report.counts.executed)),
        Err(fault) => told_of(fault),
    }
}

// What two rounds of three requests by this many workers answer.
fn ran_twice<R: Wait + Threads + Sync>(rt: &R, alloc: Global, config: &Config, workers: u32) -> Told
    requires { 0 < workers }
{
    match run_rounds(
        rt,
        alloc,
        config,
        &[REQUEST, REQUEST, REQUEST],
        workers,
        2,
        &Nothing,
        &mut Nobody,
    ) {
        Ok(report) => Told::Executed(report.words.counts().executed),
        Err(fault) => told_of(fault),
    }
}

// What a replay of no commands answers.
fn replayed(alloc: Global, config: &Config, requests: &[Request]) -> Told {
    match replay(alloc, config, requests, &[]) {
        Ok(_transcript) => Told::Replayed,
        Err(fault) => told_of(fault.into()),
    }
}

const CONFIG: Config = Config {
    limit: 10,
    queues: 4,
    hand_size: 2,
    queue_length_limit: 10,
    limit_response: Response::Queue,
};

const NO_HAND: Config = Config {
    hand_size: 0,
    ..CONFIG
};

const NO_ROOM: Config = Config {
    queue_length_limit: 0,
    ..CONFIG
};

const NOTHING: Config = Config {
    limit: 0,
    queues: 0,
    hand_size: 0,
    queue_length_limit: 0,
    limit_response: Response::Queue,
};

/// A request of one seat.
pub const REQUEST: Request = Request {
    width: 1,
    hash: 0,
    work: 0,
    cancels: None,
    closes: false,
};

const NARROW: Request = Request {
    width: 0,
    ..REQUEST
};

const WIDE: Request = Request {
    width: 20_001,
    ..REQUEST
};

// As many workers as there may be run. No setting of queues is used where nobody is queued.
#[test]
fn runs_in_range(rt: HostRuntime) {
    let alloc = rt.alloc();
    let no_queues = Config {
        limit: 10,
        limit_response: Response::Reject,
        ..NOTHING
    };
    let three = Told::Executed(3);
    is(&rt, ran(&rt, alloc, &CONFIG, &[REQUEST; 3], 64), three);
    is(&rt, ran(&rt, alloc, &no_queues, &[REQUEST; 3], 1), three);
    is(&rt, ran_twice(&rt, alloc, &CONFIG, 64), Told::Executed(6));
    is(&rt, ran_twice(&rt, alloc, &no_queues, 1), Told::Executed(6));
    is(
        &rt,
        replayed(alloc, &no_queues, &[REQUEST; 3]),
        Told::Replayed,
    );
}

// A bad limit comes before bad widths, and before too many workers.
#[test]
fn bad_limits(rt: HostRuntime) {
    let alloc = rt.alloc();
    let told = Told::Gate(GateFault::BadLimit);
    let over = Config {
        limit: 10_001,
        ..CONFIG
    };
    is(&rt, ran(&rt, alloc, &NOTHING, &[], 1), told);
    is(&rt, ran(&rt, alloc, &over, &[WIDE], 65), told);
    is(&rt, ran_twice(&rt, alloc, &NOTHING, 65), told);
    is(&rt, replayed(alloc, &NOTHING, &[]), told);
    is(&rt, replayed(alloc, &over, &[WIDE]), told);
}

// The first bad width comes before too many workers, and before the settings of queues.
#[test]
fn bad_widths(rt: HostRuntime) {
    let alloc = rt.alloc();
    let requests = [REQUEST, NARROW, WIDE];
    let told = Told::Gate(GateFault::BadWidth(1));
    is(&rt, ran(&rt, alloc, &NO_HAND, &requests, 65), told);
    is(&rt, replayed(alloc, &NO_HAND, &requests), told);
    let told = Told::Gate(GateFault::BadWidth(0));
    is(&rt, ran(&rt, alloc, &CONFIG, &[WIDE], 1), told);
}

// This many requests, all alike.
fn copies(alloc: Global, count: usize) -> Result<Vec<Request>, AllocError>
    ensures { IfOk result (λ v. All HasWidth v.items) }
{
    vec![in alloc; REQUEST; count]
}

// There are 64 workers and 10,000 requests at most, and one more comes before the settings of queues.
#[test]
fn too_many(rt: HostRuntime) -> Result<(), Fault> {
    let alloc = rt.alloc();
    let told = Told::Gate(GateFault::TooMany);
    is(&rt, ran(&rt, alloc, &CONFIG, &[REQUEST; 3], 65), told);
    is(&rt, ran(&rt, alloc, &NO_HAND, &[], u32::MAX), told);
    is(&rt, ran_twice(&rt, alloc, &NO_HAND, 65), told);
    let requests = copies(alloc, 10_001)?;
    is(&rt, ran(&rt, alloc, &NO_HAND, requests.as_slice(), 1), told);
    is(&rt, replayed(alloc, &NO_HAND, requests.as_slice()), told);
    let in_rounds = run_rounds(
        &rt,
        alloc,
        &CONFIG,
        requests.as_slice(),
        1,
        1,
        &Nothing,
        &mut Nobody,
    );
    is(&rt, in_rounds.err().map(told_of), Some(told));
    Ok(())
}

// The dealer's fault comes before the queues'.
#[test]
fn bad_queues(rt: HostRuntime) {
    let alloc = rt.alloc();
    let large_hand = Config {
        hand_size: 5,
        ..NO_ROOM
    };
    is(&rt, ran(&rt, alloc, &NO_HAND, &[], 64), Told::Dealer(1));
    is(&rt, ran_twice(&rt, alloc, &NO_HAND, 1), Told::Dealer(1));
    is(
        &rt,
        ran(&rt, alloc, &large_hand, &[REQUEST], 1),
        Told::Dealer(2),
    );
    is(
        &rt,
        replayed(alloc, &large_hand, &[REQUEST]),
        Told::Dealer(2),
    );
    is(&rt, ran(&rt, alloc, &NO_ROOM, &[], 1), Told::Queues(1));
    is(&rt, ran_twice(&rt, alloc, &NO_ROOM, 1), Told::Queues(1));
    is(&rt, replayed(alloc, &NO_ROOM, &[]), Told::Queues(1));
}
