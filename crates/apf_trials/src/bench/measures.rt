//! What is measured of requests, by which ways, and what is told of it.

use crate::bench::course::Callers;
use crate::bench::gated::Beside;
use crate::bench::level::Scene;
use crate::bench::life::Traffic;
use crate::bench::ratio::Ratio;
use crate::bench::shuffle::Shuffle;
use crate::bench::ways::{Way, medians};
use std::alloc::Global;
use std::io;
use std::sync::Wait;
use std::thread::Threads;
use std::time::Clock;

// One thread.
const ALONE: Callers = Callers {
    threads: 1,
    hints: 0,
};

// One queue, which everybody is dealt.
const ONE: Shuffle = Shuffle { queues: 1, hand: 1 };

const MANY: Shuffle = Shuffle {
    queues: 64,
    hand: 8,
};

/// What is measured.
#[derive(Clone, Copy)]
pub enum Measure {
    /// Requests with room, which these serve.
    Room(Callers),
    /// Requests with room in one thread, on a level for life.
    RoomForLife,
    /// Requests in line.
    Line,
    /// Requests in line over these queues, on a level for life.
    LineForLife(Shuffle),
    /// Requests of one thread, on a level for life and on one that is a plain value.
    OneThread(Traffic, Shuffle),
}

/// What is measured, one after another. Who admits requests with room tries again at once after a lost exchange, or waits
/// for some microseconds (a hint takes 4 to 60 nanoseconds) and so leaves the word to the others.
pub const MEASURES: [Measure; 12] = [
    Measure::Room(ALONE),
    Measure::Room(Callers {
        threads: 2,
        hints: 0,
    }),
    Measure::Room(Callers {
        threads: 4,
        hints: 0,
    }),
    Measure::Room(Callers {
        threads: 2,
        hints: 512,
    }),
    Measure::Room(Callers {
        threads: 4,
        hints: 512,
    }),
    Measure::RoomForLife,
    Measure::Line,
    Measure::LineForLife(ONE),
    Measure::LineForLife(MANY),
    Measure::OneThread(Traffic::Room, ONE),
    Measure::OneThread(Traffic::Line, ONE),
    Measure::OneThread(Traffic::Line, MANY),
];

// The ways of serving requests with room.
fn ways_with_room(callers: Callers) -> [Way; 6] {
    [
        Way::Lock(callers),
        Way::Bare(callers),
        Way::Gate(callers, Beside::Nothing),
        Way::Gate(callers, Beside::Renewal),
        Way::Gate(callers, Beside::Reading),
        Way::Level(Scene::Room(callers)),
    ]
}

// The ways of serving requests in line on a level for life, and beside it.
fn ways_in_line_for_life(shuffle: Shuffle) -> [Way; 3] {
    [
        Way::PlainScan(shuffle),
        Way::PlainTree(shuffle),
        Way::Life(Traffic::Line, shuffle),
    ]
}

impl Measure {
    /// The medians of its ways over this many rounds, in picoseconds: `None` if there was no memory or clock, or a request
    /// was not served as it should be.
    pub fn medians<R: Threads + Clock + Wait + Sync>(
        self,
        rt: &R,
        alloc: Global,
        rounds: u64,
    ) -> Option<Vec<u64>> {
        match self {
            Measure::Room(callers) => medians(rt, alloc, &ways_with_room(callers), rounds),
            Measure::RoomForLife => {
                let ways = [Way::Lock(ALONE), Way::Life(Traffic::Room, ONE)];
                medians(rt, alloc, &ways, rounds)
            }
            Measure::Line => {
                let ways = [Way::PlainScan(ONE), Way::Level(Scene::Line)];
                medians(rt, alloc, &ways, rounds)
            }
            Measure::LineForLife(shuffle) => {
                medians(rt, alloc, &ways_in_line_for_life(shuffle), rounds)
            }
            Measure::OneThread(traffic, shuffle) => {
                let ways = [Way::Life(traffic, shuffle), Way::Local(traffic, shuffle)];
                medians(rt, alloc, &ways, rounds)
            }
        }
    }

    /// Tells the medians of its ways.
    pub fn tell(self, rt: &HostRuntime, medians: &[u64]) -> io::Result<()> {
        match self {
            Measure::Room(callers) => tell_room(rt, callers, medians),
            Measure::RoomForLife => tell_room_for_life(rt, medians),
            Measure::Line => tell_line(rt, medians),
            Measure::LineForLife(shuffle) => tell_line_for_life(rt, shuffle, medians),
            Measure::OneThread(traffic, shuffle) => tell_one_thread(rt, traffic, shuffle, medians),
        }
    }
}

// Tells what a request with room took by these callers.
fn tell_room(rt: &HostRuntime, callers: Callers, medians: &[u64]) -> io::Result<()> {
    let [lock, bare, gate, renewed, steps, level] = medians else {
        return Ok(());
    };
    tell_gate(rt, callers, *lock, *gate)?;
    tell_renewed(rt, callers, *gate, *renewed)?;
    tell_bare(rt, callers, *lock, *bare)?;
    tell_level(rt, callers, *lock, *steps, *level)
}

fn tell_gate(rt: &HostRuntime, callers: Callers, lock: u64, gate: u64) -> io::Result<()> {
    let ratio = Ratio::of(gate, lock);
    let (lock, gate) = (lock / 1_000, gate / 1_000);
    println!(rt; "{callers}: under a lock {lock} ns, by the gate {gate} ns, ratio {ratio}")
}

fn tell_renewed(rt: &HostRuntime, callers: Callers, gate: u64, renewed: u64) -> io::Result<()> {
    let ratio = Ratio::of(renewed, gate);
    let renewed = renewed / 1_000;
    println!(rt; "{callers}: by the gate with a renewal {renewed} ns, to the gate {ratio}")
}

fn tell_bare(rt: &HostRuntime, callers: Callers, lock: u64, bare: u64) -> io::Result<()> {
    let ratio = Ratio::of(bare, lock);
    let bare = bare / 1_000;
    println!(rt; "{callers}: by bare words {bare} ns, to the lock {ratio}")
}

fn tell_level(
    rt: &HostRuntime,
    callers: Callers,
    lock: u64,
    steps: u64,
    level: u64,
) -> io::Result<()> {
    let (to_steps, to_lock) = (Ratio::of(level, steps), Ratio::of(level, lock));
    let (steps, level) = (steps / 1_000, level / 1_000);
    println!(rt;
        "{callers}: by the gate's same steps {steps} ns, by a level {level} ns, ratio {to_steps}, to the lock {to_lock}"
    )
}

// Tells what a request with room took by a session whose slots are used again.
fn tell_room_for_life(rt: &HostRuntime, medians: &[u64]) -> io::Result<()> {
    let [lock, session] = medians else {
        return Ok(());
    };
    let ratio = Ratio::of(*session, *lock);
    let (lock, session) = (lock / 1_000, session / 1_000);
    println!(rt;
        "with room for life, threads 1: under a lock {lock} ns, by a session {session} ns, ratio {ratio}"
    )
}

// Tells what a request in line took.
fn tell_line(rt: &HostRuntime, medians: &[u64]) -> io::Result<()> {
    let [plain, level] = medians else {
        return Ok(());
    };
    let ratio = Ratio::of(*level, *plain);
    let (plain, level) = (plain / 1_000, level / 1_000);
    println!(rt; "in line: under a lock {plain} ns, by a level {level} ns, ratio {ratio}")
}

// Tells what a request in line took on a level whose slots are used again.
fn tell_line_for_life(rt: &HostRuntime, shuffle: Shuffle, medians: &[u64]) -> io::Result<()> {
    let [scan, tree, life] = medians else {
        return Ok(());
    };
    let (to_scan, to_tree) = (Ratio::of(*life, *scan), Ratio::of(*life, *tree));
    let (scan, tree, life) = (scan / 1_000, tree / 1_000, life / 1_000);
    println!(rt;
        "in line for life, {shuffle}: under a lock with a scan {scan} ns, with a tree {tree} ns, by a level {life} ns, ratio {to_scan}, to the tree {to_tree}"
    )
}

// Tells what a request took on one thread.
fn tell_one_thread(
    rt: &HostRuntime,
    traffic: Traffic,
    shuffle: Shuffle,
    medians: &[u64],
) -> io::Result<()> {
    let [session, value] = medians else {
        return Ok(());
    };
    let ratio = Ratio::of(*value, *session);
    let (session, value) = (session / 1_000, value / 1_000);
    println!(rt;
        "on one thread {traffic}, {shuffle}: by a session for life {session} ns, by a plain value {value} ns, ratio {ratio}"
    )
}
