//! Two courses of a level whose slots are used again, which a script judges, each by its word: `memory`, and `rounds`
//! with their number.
//!
//! - `memory`: calls, one after another, while memory is refused. `rounds`: many requests over 64 slots.

mod memory;
pub mod rounds;

use crate::shared::{number, unknown};
use std::env::Args;
use std::io;
use std::sync::Wait;

/// How many rounds are made where no word says it.
pub const ROUNDS: u64 = 100;

/// Makes the course that the words name, and answers the program's status.
pub fn make<R: Wait>(rt: &HostRuntime, runner: &R, words: &mut Args) -> io::Result<u8> {
    let Some(course) = words.next() else {
        return rounds::call(rt, runner, ROUNDS);
    };
    match course.as_str() {
        "memory" => memory::call(rt, runner),
        "rounds" => rounds::call(rt, runner, number(words).unwrap_or(ROUNDS)),
        _ => unknown(rt),
    }
}
