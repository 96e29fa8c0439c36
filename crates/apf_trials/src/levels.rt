//! Two courses of a level that scripts judge, each by its word: `memory`, and `stress` with a seed and a number of
//! requests.
//!
//! - `answers`: what a call answers.
//! - `memory`: calls, one after another, while memory is refused. `stress`: many threads.

mod answers;
mod memory;
mod stress;

use crate::shared::{number, unknown};
use std::env::Args;
use std::io;
use std::sync::Wait;
use std::thread::Threads;

/// Makes both courses, the second one short, and answers the status of the first that fails.
pub fn both<R: Threads + Wait + Sync>(rt: &HostRuntime, runner: &R) -> io::Result<u8> {
    let status = memory::call(rt, runner)?;
    if status != 0 {
        return Ok(status);
    }
    stress::load(rt, runner, None, None)
}

/// Makes the course that the words name, and answers the program's status.
pub fn make<R: Threads + Wait + Sync>(
    rt: &HostRuntime,
    runner: &R,
    words: &mut Args,
) -> io::Result<u8> {
    let Some(course) = words.next() else {
        return both(rt, runner);
    };
    match course.as_str() {
        "memory" => memory::call(rt, runner),
        "stress" => {
            let seed = number(words);
            let requests = number(words).and_then(|count| u32::try_from(count).ok());
            stress::load(rt, runner, seed, requests)
        }
        _ => unknown(rt),
    }
}
