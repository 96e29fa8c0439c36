//! The calls of one level, one after another in one thread. `tests/kit/level_memory.py` refuses this course each
//! allocation in turn: only the opening and the end of the level ask for memory.
//!
//! It writes nothing before all calls are made: then a line for each, and one for the end of the level. Where
//! memory is refused it says so on standard error, and ends with status 3.
//!
//! In the order of the data's way:
//!
//! - `calls`: the calls. `course`: the level from its opening to its end.

mod calls;
mod course;

use crate::shared::{tell_end, tell_fault};
use course::{Course, run};
use std::io;
use std::sync::Wait;

/// Makes the calls, tells what became of the level, and answers the program's status.
///
/// # Errors
///
/// Why it could not be written.
pub fn call<R: Wait>(rt: &HostRuntime, runner: &R) -> io::Result<u8> {
    match run(runner, rt.alloc()) {
        Ok(course) => {
            let Course { answers, end } = course;
            for answer in answers {
                println!(rt; "{answer:?}")?;
            }
            tell_end(rt, end)
        }
        Err(fault) => tell_fault(rt, fault),
    }
}
