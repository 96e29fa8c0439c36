//! The ways of serving requests that are measured, and the medians of what they take.

use crate::bench::bare::bare;
use crate::bench::choices::median;
use crate::bench::course::Callers;
use crate::bench::gated::{Beside, gated};
use crate::bench::level::{Scene, by_level};
use crate::bench::life::{Traffic, by_life};
use crate::bench::local::by_local;
use crate::bench::locked::locked;
use crate::bench::plain::plain;
use crate::bench::scan::Scan;
use crate::bench::shuffle::Shuffle;
use apf_checked::Checked;
use std::alloc::Global;
use std::sync::Wait;
use std::thread::Threads;
use std::time::Clock;

/// A way of serving requests.
#[derive(Clone, Copy)]
pub enum Way {
    /// Each has room, under one lock.
    Lock(Callers),
    /// The same by bare atomic words.
    Bare(Callers),
    /// The same by the gate's steps.
    Gate(Callers, Beside),
    /// By the calls of a level of a batch.
    Level(Scene),
    /// By the calls of a level for life.
    Life(Traffic, Shuffle),
    /// By the calls of a level that is one plain value.
    Local(Traffic, Shuffle),
    /// In line under one lock, where a scan chooses the queue.
    PlainScan(Shuffle),
    /// In line under one lock, where a tree chooses the queue.
    PlainTree(Shuffle),
}

impl Way {
    // How long a request takes, in picoseconds: `None` if there was no memory or clock, or a request was not served as it
    // should be.
    fn run<R: Threads + Clock + Wait + Sync>(self, rt: &R, alloc: Global) -> Option<u64> {
        match self {
            Way::Lock(callers) => locked(rt, alloc, callers),
            Way::Bare(callers) => bare(rt, alloc, callers),
            Way::Gate(callers, beside) => gated(rt, alloc, callers, beside),
            Way::Level(scene) => by_level(rt, alloc, scene),
            Way::Life(traffic, shuffle) => by_life(rt, alloc, traffic, shuffle),
            Way::Local(traffic, shuffle) => by_local(rt, alloc, traffic, shuffle),
            Way::PlainScan(shuffle) => plain::<Scan, R>(rt, alloc, shuffle),
            Way::PlainTree(shuffle) => plain::<Checked, R>(rt, alloc, shuffle),
        }
    }
}

// A list for each of this many ways, all empty.
fn lists(alloc: Global, ways: usize) -> Option<Vec<Vec<u64>>> {
    let mut taken = Vec::with_capacity(alloc, ways).ok()?;
    for _way in 0..ways {
        taken.push(Vec::new(alloc)).ok()?;
    }
    Some(taken)
}

// Each way is run once, and what it took goes into its list.
fn run_each<R: Threads + Clock + Wait + Sync>(
    rt: &R,
    alloc: Global,
    ways: &[Way],
    taken: &mut [Vec<u64>],
) -> Option<()> {
    for (way, times) in ways.iter().zip(taken) {
        times.push(way.run(rt, alloc)?).ok()?;
    }
    Some(())
}

// The median of each list.
fn middles(alloc: Global, taken: Vec<Vec<u64>>) -> Option<Vec<u64>> {
    let mut middles = Vec::with_capacity(alloc, taken.len()).ok()?;
    for times in taken {
        middles.push(median(times)?).ok()?;
    }
    Some(middles)
}

/// The median of what a request takes by each of these ways, in picoseconds, over this many rounds, in each of which each
/// way is run once. `None` if there was no memory or clock, or a request was not served as it should be.
pub fn medians<R: Threads + Clock + Wait + Sync>(
    rt: &R,
    alloc: Global,
    ways: &[Way],
    rounds: u64,
) -> Option<Vec<u64>> {
    let mut taken = lists(alloc, ways.len())?;
    for _round in 0..rounds {
        run_each(rt, alloc, ways, taken.as_mut_slice())?;
    }
    middles(alloc, taken)
}
