//! Four levels in one `Vec`, which one thread serves in turn. There is no lock, and no call waits.

mod script;

use crate::shared::NO_MEMORY;
use apf_local::{LocalLevel, OpenFault};
use apf_model::{Config, Response};
use script::{SCRIPT, take_step};
use std::alloc::Global;
use std::io;

// A level of one queue for one request that waits, or of none, beside its limit.
fn open(
    alloc: Global,
    limit: u32,
    slots: u32,
    limit_response: Response,
) -> Result<LocalLevel, OpenFault> {
    let config = Config {
        limit,
        queues: 1,
        hand_size: 1,
        queue_length_limit: 1,
        limit_response,
    };
    LocalLevel::open(alloc, &config, slots)
}

// Levels of one, two and three seats with a queue, and one of one seat without, of three slots each.
fn four(alloc: Global) -> Result<Vec<LocalLevel>, OpenFault> {
    let mut levels = Vec::with_capacity(alloc, 4)?;
    for limit in 1..4 {
        let level = open(alloc, limit, 3, Response::Queue)?;
        if levels.push(level).is_err() {
            return Err(OpenFault::NoMemory);
        }
    }
    let last = open(alloc, 1, 3, Response::Reject)?;
    if levels.push(last).is_err() {
        return Err(OpenFault::NoMemory);
    }
    Ok(levels)
}

/// Serves the levels in turn, and says what each step was answered and how each level ended. Answers the program's status.
pub fn run(rt: &HostRuntime) -> io::Result<u8> {
    let alloc = rt.alloc();
    let Ok(mut levels) = four(alloc) else {
        return Ok(NO_MEMORY);
    };
    for (number, step) in SCRIPT {
        let Some(level) = levels.get_mut(number) else {
            return Ok(2);
        };
        let told = take_step(level, step);
        println!(rt; "{number} {told:?}")?;
    }
    for level in levels {
        let Ok(report) = level.end(alloc) else {
            return Ok(NO_MEMORY);
        };
        let counts = report.words.counts();
        println!(rt; "{counts:?}")?;
    }
    Ok(0)
}
