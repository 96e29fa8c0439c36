//! Trials that scripts judge, and measures, each by its first word:
//!
//! - `levels`: a level of threads: its calls while memory is refused, and a level under load.
//! - `lives`: a level whose slots are used again: its calls while memory is refused, and many rounds.
//! - `locals`: four levels in one `Vec`, which one thread serves in turn.
//! - `bench`: how long requests take by this code and by other code, in a number of rounds.
//!
//! With no word each is made once, and it is measured in one round. `shared` has what they have in common.
#![tactic(auto)]

mod bench;
mod levels;
mod lives;
mod locals;
mod shared;

use shared::{NO_MEMORY, number, unknown};
use std::process::ExitCode;
use std::sync::Wait;
use std::thread::Threads;
use std::time::Clock;
use std::{env, io};

// Makes each trial once, and answers the status of the first that fails.
fn all<R: Threads + Clock + Wait + Sync>(rt: &HostRuntime, runner: &R) -> io::Result<u8> {
    let status = levels::both(rt, runner)?;
    if status != 0 {
        return Ok(status);
    }
    let status = lives::rounds::call(rt, runner, lives::ROUNDS)?;
    if status != 0 {
        return Ok(status);
    }
    let status = locals::run(rt)?;
    if status != 0 {
        return Ok(status);
    }
    bench::measure(rt, runner, None)
}

// Makes the trial that the words name, and answers the program's status.
fn make<R: Threads + Clock + Wait + Sync>(rt: &HostRuntime, runner: &R) -> io::Result<u8> {
    let mut words = match env::args(rt) {
        Ok(words) => words,
        Err(error) => return refuse(rt, error.kind()),
    };
    let _program = words.next();
    let Some(trial) = words.next() else {
        return all(rt, runner);
    };
    match trial.as_str() {
        "levels" => levels::make(rt, runner, &mut words),
        "lives" => lives::make(rt, runner, &mut words),
        "locals" => locals::run(rt),
        "bench" => bench::measure(rt, runner, number(&mut words)),
        _ => unknown(rt),
    }
}

// Says that there is no memory for the words, or that they are no text.
fn refuse(rt: &HostRuntime, kind: io::ErrorKind) -> io::Result<u8> {
    if kind == io::ErrorKind::OutOfMemory {
        eprintln!(rt; "out of memory")?;
        return Ok(NO_MEMORY);
    }
    unknown(rt)
}

fn main(rt: HostRuntime) -> ExitCode {
    match make(&rt, &rt) {
        Ok(status) => ExitCode::from(status),
        Err(_) => ExitCode::from(1),
    }
}
