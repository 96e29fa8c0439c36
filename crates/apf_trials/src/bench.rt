//! Measures choose and dispatch before and after the tree of finishes, the gate's steps, a level's calls and the same
//! steps on bare words beside one lock, a level's calls beside the gate's same steps, and requests in line beside plain
//! code, as ratios of medians.
//!
//! `bench/run` starts it with a number of rounds. With no number it makes one round, and writes only
//! whether the answers agree.
//!
//! - `shuffle`: over how many queues requests are spread. `course`: the time of a run. `ratio`: two times beside each other.
//! - `scan`: queues as they were before. `choices`: choose and dispatch. `queueing`: what plain code asks of queues.
//! - `locked`, `bare`, `gated`, `levelled`: requests with room, by one lock, by bare words, by the gate and by a level.
//! - `plain`, `lined`: requests in line, under one lock and by a level. `level`: a level of a batch with either.
//! - `life`, `local`: the same on a level for life, and on one that is a plain value.
//! - `ways`: all these ways, and the medians of what they take. `measures`: which stand beside one another.

mod bare;
mod choices;
mod course;
mod gated;
mod level;
mod levelled;
mod life;
mod lined;
mod local;
mod locked;
mod measures;
mod plain;
mod queueing;
mod ratio;
mod scan;
mod shuffle;
mod ways;

use choices::{Shape, after, before, median};
use measures::MEASURES;
use std::io;
use std::sync::Wait;
use std::thread::Threads;
use std::time::Clock;

const SHAPES: [Shape; 4] = [
    Shape {
        queues: 64,
        stride: 1,
    },
    Shape {
        queues: 64,
        stride: 8,
    },
    Shape {
        queues: 1_024,
        stride: 1,
    },
    Shape {
        queues: 1_024,
        stride: 8,
    },
];

// How many rounds are made, and whether their medians are told.
#[derive(Clone, Copy)]
struct Rounds {
    count: u64,
    are_told: bool,
}

// What one shape took, in picoseconds a dispatch.
#[derive(Drop)]
struct Medians {
    before: u64,
    after: u64,
}

// The medians of this many rounds, each of one run before and one after, or `None` where answers differ.
fn measured(rt: &HostRuntime, shape: Shape, rounds: u64) -> Option<Medians> {
    let mut befores = Vec::new(rt.alloc());
    let mut afters = Vec::new(rt.alloc());
    for _ in 0..rounds {
        let old = before(rt, shape)?;
        let new = after(rt, shape)?;
        if old.answers != new.answers {
            return None;
        }
        befores.push(old.picos).ok()?;
        afters.push(new.picos).ok()?;
    }
    Some(Medians {
        before: median(befores)?,
        after: median(afters)?,
    })
}

fn tell(rt: &HostRuntime, shape: Shape, medians: &Medians) -> io::Result<()> {
    let (queues, busy) = (shape.queues, shape.busy());
    let (before, after) = (medians.before / 1_000, medians.after / 1_000);
    let tenths = medians.before.saturating_mul(10) / medians.after.max(1);
    let (whole, tenth) = (tenths / 10, tenths % 10);
    println!(rt;
        "queues {queues} busy {busy}: before {before} ns, after {after} ns, ratio {whole}.{tenth}"
    )
}

// Measures the choices. Says whether the answers agree.
fn choose(rt: &HostRuntime, rounds: Rounds) -> io::Result<bool> {
    for shape in SHAPES {
        let Some(medians) = measured(rt, shape, rounds.count) else {
            println!(rt; "the answers differ, or there was no memory or clock")?;
            return Ok(false);
        };
        if rounds.are_told {
            tell(rt, shape, &medians)?;
        }
    }
    Ok(true)
}

// Measures what requests take. Says whether each was served as it should be.
fn serve<R: Threads + Clock + Wait + Sync>(
    rt: &HostRuntime,
    runner: &R,
    rounds: Rounds,
) -> io::Result<bool> {
    for measure in MEASURES {
        let Some(medians) = measure.medians(runner, rt.alloc(), rounds.count) else {
            println!(rt;
                "a request was not served as it should be, or there was no memory or clock"
            )?;
            return Ok(false);
        };
        if rounds.are_told {
            measure.tell(rt, medians.as_slice())?;
        }
    }
    Ok(true)
}

/// Measures in this many rounds, and tells the medians; in one where none is said, and tells whether the answers agree.
/// Answers the program's status.
pub fn measure<R: Threads + Clock + Wait + Sync>(
    rt: &HostRuntime,
    runner: &R,
    asked: Option<u64>,
) -> io::Result<u8> {
    let rounds = Rounds {
        count: asked.unwrap_or(1).max(1),
        are_told: asked.is_some(),
    };
    let agree = choose(rt, rounds)? && serve(rt, runner, rounds)?;
    if !agree {
        return Ok(1);
    }
    if !rounds.are_told {
        println!(rt; "the answers agree")?;
    }
    Ok(0)
}
