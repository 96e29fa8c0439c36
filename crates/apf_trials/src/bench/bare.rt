//! Requests that take seats, execute and give them back, by the steps that a level makes on bare atomic words: no
//! token, no contract, and no answer but that of the loop.

use crate::bench::course::{Callers, Course, REQUESTS};
use std::alloc::Global;
use std::sync::atomic::{AtomicU64, Ordering};
use std::thread;
use std::thread::Threads;
use std::time::Clock;

const EXECUTE: u64 = 1;

// The bits of the level word: 20 for the seats, 20 for the waiters, 20 for the limit, and the last one says closed.
const SEATS: u64 = 0xf_ffff;

const WAITERS: u64 = SEATS << 20;

const CLOSED: u64 = 1 << 63;

const LIMIT: u64 = 10_000;

// Serves the request whose decision stands in this word, if there is room, in at most this many turns.
fn serve(course: &Course, level: &AtomicU64, decision: &AtomicU64) {
    for _turn in 0..1_000_000u32 {
        if decision.load(Ordering::SeqCst) != 0 {
            return;
        }
        let seen = level.load(Ordering::SeqCst);
        if seen & (CLOSED | WAITERS) != 0 || seen & SEATS >= seen >> 40 & SEATS {
            return;
        }
        let taken = level.compare_exchange(
            seen,
            seen.wrapping_add(1),
            Ordering::SeqCst,
            Ordering::SeqCst,
        );
        if taken.is_ok() {
            let _ = decision.compare_exchange(0, EXECUTE, Ordering::SeqCst, Ordering::SeqCst);
            level.fetch_sub(1, Ordering::SeqCst);
            return;
        }
        course.wait();
    }
}

fn serve_timed<R: Clock>(
    rt: &R,
    course: &Course,
    level: &AtomicU64,
    request: usize,
    decision: &AtomicU64,
) {
    course.begin(rt, request);
    serve(course, level, decision);
    course.end(rt, request);
}

fn serve_all<R: Threads + Clock + Sync>(
    rt: &R,
    course: &Course,
    level: &AtomicU64,
    decisions: &mut [AtomicU64],
    callers: Callers,
) {
    thread::for_each_mut(
        rt,
        decisions,
        callers.threads.max(1) as usize,
        &|request, decision: &mut AtomicU64| serve_timed(rt, course, level, request, decision),
    );
}

/// How long a request takes by bare words, in picoseconds: `None` if there was no memory or clock, or seats are
/// taken or a request is undecided at the end.
pub fn bare<R: Threads + Clock + Sync>(rt: &R, alloc: Global, callers: Callers) -> Option<u64> {
    let level = AtomicU64::new(LIMIT << 40);
    let mut decisions = Vec::with_capacity(alloc, REQUESTS as usize).ok()?;
    for _request in 0..REQUESTS {
        decisions.push(AtomicU64::new(0)).ok()?;
    }
    let course = Course::new(rt, callers)?;
    serve_all(rt, &course, &level, decisions.as_mut_slice(), callers);
    if level.load(Ordering::SeqCst) & SEATS != 0 {
        return None;
    }
    if decisions
        .iter()
        .any(|decision| decision.load(Ordering::SeqCst) != EXECUTE)
    {
        return None;
    }
    Some(course.picos())
}
