//! A level under load: eight threads step on it, with requests of mixed widths on a small limit, cancels, limits
//! that change and a close. `tests/kit/level_stress.py` runs this course by a seed and a number of requests, and judges
//! all that it writes. With no seed it makes a short run, and writes what the plain program says of it alone.
//!
//! In the order of the data's way:
//!
//! - `random`: numbers of a seed. `settings`: what a level of a seed is opened with.
//! - `note`: what callers were told. `client`: a request with it.
//! - `crowd`: the requests that run at once. `stage`: what the threads share.
//! - `worker`: one of the threads. `crew`: all of them.
//! - `course`: the level from its opening to its end.
//! - `judged`: the plain program judges it. `telling`: what is written of it.

mod client;
mod course;
mod crew;
mod crowd;
mod judged;
mod note;
mod random;
mod settings;
mod stage;
mod telling;
mod worker;

use apf_session::OpenFault;
use course::run;
use judged::judge;
use std::io;
use std::sync::Wait;
use std::thread::Threads;
use telling::{tell, tell_verdict};

// How many of the oldest events the plain program judges.
const JUDGED: usize = 600;

// What the words ask.
#[derive(Clone, Copy)]
struct Asked {
    seed: u64,
    requests: u32,
    // Whether all is written, and not the verdict alone.
    is_told: bool,
}

const SHORT: Asked = Asked {
    seed: 1,
    requests: 300,
    is_told: false,
};

// A short run, where there is no seed.
fn asked_for(seed: Option<u64>, requests: Option<u32>) -> Asked {
    match seed {
        Some(seed) => Asked {
            seed,
            requests: requests.unwrap_or(10_000),
            is_told: true,
        },
        None => SHORT,
    }
}

/// Runs the level of this seed with this many requests, and answers the program's status.
///
/// # Errors
///
/// Why it could not be written.
pub fn load<R: Threads + Wait + Sync>(
    rt: &HostRuntime,
    runner: &R,
    seed: Option<u64>,
    requests: Option<u32>,
) -> io::Result<u8> {
    let asked = asked_for(seed, requests);
    let ran = run(runner, rt.alloc(), asked.seed, asked.requests);
    let judged = ran.and_then(|course| {
        let verdict = judge(rt.alloc(), &course, JUDGED)?;
        Ok::<_, OpenFault>((course, verdict))
    });
    match judged {
        Ok((course, verdict)) => {
            let Some(verdict) = verdict else {
                eprintln!(rt; "the log can't be judged")?;
                return Ok(1);
            };
            if asked.is_told {
                tell(rt, &course)?;
            }
            tell_verdict(rt, verdict)?;
            Ok(0)
        }
        Err(fault) => {
            eprintln!(rt; "{fault:?}")?;
            Ok(1)
        }
    }
}
