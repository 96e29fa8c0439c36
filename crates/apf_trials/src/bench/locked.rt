//! Requests that take seats, execute and give them back, under one lock: what the words and the Passes of a gate
//! say as plain numbers, and a level's two calls on them.

use crate::bench::course::{Callers, Course, REQUESTS};
use std::alloc::Global;
use std::sync::{Mutex, Wait};
use std::thread;
use std::thread::Threads;
use std::time::Clock;

/// The code of a decision, 0 while there is none.
const UNDECIDED: u8 = 0;

const EXECUTE: u8 = 1;

const CLOSED: u8 = 3;

#[derive(Drop)]
struct State {
    is_closed: bool,
    waiters: u32,
    seats: u32,
    limit: u32,
    // Each request's width and decision.
    requests: Vec<Request, Global>,
}

#[derive(Clone, Copy)]
struct Request {
    width: u32,
    decision: u8,
    // Whether its seats stand.
    holds: bool,
}

// What became of an attempt to be admitted.
#[derive(Clone, Copy)]
enum Tried {
    Run,
    Over,
    Busy,
}

impl State {
    // Takes the request's seats and decides that it executes, where the level is open, nobody waits and they fit.
    fn try_admit(&mut self, request: usize) -> Tried {
        let Some(request) = self.requests.get_mut(request) else {
            return Tried::Over;
        };
        if request.decision != UNDECIDED {
            return Tried::Over;
        }
        if self.is_closed {
            request.decision = CLOSED;
            return Tried::Over;
        }
        if self.waiters != 0 {
            return Tried::Busy;
        }
        let seats = self.seats.saturating_add(request.width);
        if seats > self.limit && (request.width <= self.limit || self.seats != 0) {
            return Tried::Busy;
        }
        self.seats = seats;
        request.decision = EXECUTE;
        request.holds = true;
        Tried::Run
    }

    // Gives the request's seats back, if they stand. Says whether requests waited.
    fn release(&mut self, request: usize) -> bool {
        let Some(request) = self.requests.get_mut(request) else {
            return false;
        };
        if !request.holds {
            return false;
        }
        request.holds = false;
        self.seats = self.seats.saturating_sub(request.width);
        self.waiters != 0
    }
}

// Serves a request for which there is room, in at most this many turns.
fn serve<R: Wait>(rt: &R, state: &Mutex<State>, request: usize) {
    for _turn in 0..1_000_000u32 {
        // the guard is gone before the next lock
        let tried = state.lock(rt).try_admit(request);
        match tried {
            Tried::Run => {
                state.lock(rt).release(request);
                return;
            }
            Tried::Over => return,
            Tried::Busy => {}
        }
    }
}

fn serve_timed<R: Clock + Wait>(rt: &R, course: &Course, state: &Mutex<State>, request: usize) {
    course.begin(rt, request);
    serve(rt, state, request);
    course.end(rt, request);
}

fn serve_all<R: Threads + Clock + Wait + Sync>(
    rt: &R,
    course: &Course,
    state: &Mutex<State>,
    requests: &mut [u8],
    callers: Callers,
) {
    thread::for_each_mut(
        rt,
        requests,
        callers.threads.max(1) as usize,
        &|request, _turn: &mut u8| serve_timed(rt, course, state, request),
    );
}

/// How long a request takes under one lock, in picoseconds: `None` if there was no memory or clock, or
/// seats are taken or a request is undecided at the end.
pub fn locked<R: Threads + Clock + Wait + Sync>(
    rt: &R,
    alloc: Global,
    callers: Callers,
) -> Option<u64> {
    let request = Request {
        width: 1,
        decision: UNDECIDED,
        holds: false,
    };
    let state = Mutex::new(State {
        is_closed: false,
        waiters: 0,
        seats: 0,
        limit: 10_000,
        requests: vec![in alloc; request; REQUESTS as usize].ok()?,
    });
    let mut requests = vec![in alloc; 0u8; REQUESTS as usize].ok()?;
    let course = Course::new(rt, callers)?;
    serve_all(rt, &course, &state, requests.as_mut_slice(), callers);
    let state = state.lock(rt);
    if state.seats != 0 || state.requests.iter().any(|r| r.decision != EXECUTE) {
        return None;
    }
    Some(course.picos())
}
