//! A request loses its decision to a cancel once it took the seat, while another one comes to wait for that seat: it
//! gives the seat back, and dispatches.
//!
//! No call stops between its two steps, so the order has to be caught. In one thread requests take the seat and give
//! it back, as fast as they can. The other thread sees that one request has the seat for a while, as its thread was
//! interrupted, lets a request of its own come to wait, and cancels the one that has the seat. Where that one did not
//! write its decision yet, it loses it. That comes in one of some ten to some hundred cancels.

ghost use Rattle.std.specs.Prelude.{◌≡◌, length};

use crate::opening::{ask, settings};
use crate::scenes::{Scene, run};
use apf_level::{Level, Naming};
use apf_rounds::{MOST_TURNS, Start};
use apf_session::{Answer, OpenFault, Operator, Request, Session};
use apf_words::Decision;
use std::alloc::Global;
use std::process::Abort;
use std::sync::atomic::{AtomicU64, Ordering};
use std::sync::{Mutex, Wait};
use std::thread;
use std::thread::Threads;
use std::time::{Clock, Duration};

// This many requests take the seat in one thread, one after another, and this many come in the other one.
const HALF: usize = 5000;

// How many times the seat is seen taken by the same request before another one comes.
const A_WHILE: u32 = 10;

// How many rounds are made at most, each on a level of its own.
const ROUNDS: u32 = 600;

// Once this many lost their decisions, the rounds end.
const LOST: u64 = 3;

// Once this many were cancelled, one of them lost its decision.
const CANCELS: u64 = 2000;

// How a taker arrives.
#[derive(Clone, Copy)]
enum Arrival {
    // By the call that answers where it would have to wait.
    Begin,
    // By the call that sleeps until the request is decided.
    Admit,
}

/// What the two threads of one round share.
#[derive(Drop)]
pub struct Losers {
    arrival: Arrival,
    start: Start,
    // How many of the takers began to arrive.
    begun: AtomicU64,
    // 1 once all takers are over.
    over: AtomicU64,
    // 1 while a request comes to wait, until it gave the seat back.
    coming: AtomicU64,
    // How many cancels there were of a taker that had the seat, while another request waited for that.
    cancels: AtomicU64,
    // How many takers lost their decisions by that.
    lost: AtomicU64,
    // How many of these left the other request waiting.
    left: AtomicU64,
}

impl Losers {
    fn new(arrival: Arrival) -> Losers {
        Losers {
            arrival,
            start: Start::new(),
            begun: AtomicU64::new(0),
            over: AtomicU64::new(0),
            coming: AtomicU64::new(0),
            cancels: AtomicU64::new(0),
            lost: AtomicU64::new(0),
            left: AtomicU64::new(0),
        }
    }

    /// The first half of the requests takes the seat and the second half comes to wait, each in a thread of its own.
    pub fn play<K: Naming, R: Threads + Wait + Abort + Clock + Sync>(
        &self,
        rt: &R,
        session: &mut Session<K>,
    ) {
        let Some(caller) = session.operators.pop() else {
            panic!(rt; "a Station")
        };
        let caller = Mutex::new(caller);
        serve_all(
            rt,
            &session.level,
            self,
            &caller,
            session.requests.as_mut_slice(),
        );
        let Ok(()) = session.operators.push(caller.into_inner()) else {
            panic!(rt; "memory")
        };
    }

    // Waits until nobody comes to wait, in at most this many turns.
    fn wait_for_comer<C: Clock>(&self, clock: &C) {
        for turn in 0..MOST_TURNS {
            if self.coming.load(Ordering::SeqCst) == 0 {
                return;
            }
            rest(clock, turn);
        }
    }

    // Waits until a taker has the seat for a while, or all are over. Tells how many began by then, this one the last.
    fn wait_for_taker<K: Naming, R: Wait + Clock>(
        &self,
        rt: &R,
        level: &Level<K>,
        caller: &Mutex<Operator<K>>,
    ) -> Option<u64> {
        let mut before = 0u64;
        let mut seen = 0u32;
        for turn in 0..MOST_TURNS {
            if seen >= A_WHILE || self.over.load(Ordering::SeqCst) > 0 {
                break;
            }
            let begun = self.begun.load(Ordering::SeqCst);
            let is_same = begun == before && caller.lock(rt).look(level).seats() == 1;
            seen = if is_same { seen.saturating_add(1) } else { 0 };
            before = begun;
            rest(rt, turn);
        }
        (seen >= A_WHILE).then_some(before)
    }
}

// Sleeps for a moment, every thousand turns. On a machine of one core, whoever wakes up interrupts the other thread.
fn rest<C: Clock>(clock: &C, turn: u32) {
    if turn % 1024 == 1023 {
        thread::sleep(clock, Duration::from_micros(1));
    }
}

// Waits until the request is decided, if it waits, in at most this many turns, and gives its seat back.
fn end<K: Naming, R: Wait + Clock>(
    rt: &R,
    level: &Level<K>,
    request: &mut Request<K>,
    arrived: Answer,
) {
    let mut answer = arrived;
    for turn in 0..MOST_TURNS {
        if answer != Answer::Waits {
            break;
        }
        answer = request.poll(rt, level);
        rest(rt, turn);
    }
    // of one that is over it answers Wrong
    let _ = request.finish(rt, level);
}

// A request takes the seat and gives it back. Once it told that it lost its decision, nobody waits: the one that came
// for its seat was dispatched, and the next one comes only when another taker has it.
fn take<K: Naming, R: Wait + Clock>(
    rt: &R,
    level: &Level<K>,
    losers: &Losers,
    caller: &Mutex<Operator<K>>,
    request: &mut Request<K>,
) {
    losers.wait_for_comer(rt);
    losers.begun.fetch_add(1, Ordering::SeqCst);
    let answer = match losers.arrival {
        Arrival::Begin => request.begin(rt, level),
        Arrival::Admit => request.admit(rt, level),
    };
    if answer == Answer::Over(Decision::Cancelled) {
        losers.lost.fetch_add(1, Ordering::SeqCst);
        if caller.lock(rt).look(level).waiters() > 0 {
            losers.left.fetch_add(1, Ordering::SeqCst);
            level.lock(rt).dispatch(rt);
        }
    }
    end(rt, level, request, answer);
}

// A request comes to wait for the seat that a taker has, and the taker is cancelled then.
fn come<K: Naming, R: Wait + Clock>(
    rt: &R,
    level: &Level<K>,
    losers: &Losers,
    caller: &Mutex<Operator<K>>,
    request: &mut Request<K>,
) {
    let taker = losers.wait_for_taker(rt, level, caller);
    losers.coming.store(1, Ordering::SeqCst);
    let answer = request.begin(rt, level);
    if let (Some(begun), Answer::Waits) = (taker, answer) {
        losers.cancels.fetch_add(1, Ordering::SeqCst);
        // the taker's number, which is the smaller one of the two
        let number = begun.saturating_sub(1).min(u64::from(request.number()));
        let (_decision, owed) = caller.lock(rt).cancel(level, number as u32);
        level.strike_if_owed(rt, owed);
    }
    end(rt, level, request, answer);
    losers.coming.store(0, Ordering::SeqCst);
}

// A request of the first half takes the seat, and one of the second half comes to wait for it. The first of each half
// waits for the other thread.
fn serve<K: Naming, R: Wait + Clock>(
    rt: &R,
    level: &Level<K>,
    losers: &Losers,
    caller: &Mutex<Operator<K>>,
    place: usize,
    request: &mut Request<K>,
) {
    if place % HALF == 0 {
        losers.start.wait_for(2);
    }
    if place < HALF {
        take(rt, level, losers, caller, request);
    } else {
        come(rt, level, losers, caller, request);
    }
    if place == HALF - 1 {
        losers.over.store(1, Ordering::SeqCst);
    }
}

// Each half is served in a thread of its own.
fn serve_all<K: Naming, R: Threads + Wait + Clock + Sync>(
    rt: &R,
    level: &Level<K>,
    losers: &Losers,
    caller: &Mutex<Operator<K>>,
    requests: &mut [Request<K>],
)
    ensures { length requests.new ≡ length requests.old }
{
    thread::for_each_mut(
        rt,
        requests,
        2,
        &|place: usize, request: &mut Request<K>| serve(rt, level, losers, caller, place, request),
    );
}

// Some takers lose their decisions while another request waits for their seat, and none of them leaves it waiting. The
// rounds end once three did. Where a busy machine lets too few be cancelled by the last round, nothing is asked of
// their number.
fn none_is_left_waiting<R: Threads + Wait + Abort + Clock + Sync>(
    rt: &R,
    alloc: Global,
    arrival: Arrival,
) -> Result<(), OpenFault> {
    let asks = vec![in alloc; ask(1); 2 * HALF]?;
    let mut lost = 0u64;
    let mut cancels = 0u64;
    for _round in 0..ROUNDS {
        let losers = Losers::new(arrival);
        let ended = run(
            rt,
            alloc,
            settings(1),
            asks.as_slice(),
            1,
            &[Scene::Lose(&losers)],
        )?;
        assert_eq!(rt;
            losers.left.load(Ordering::SeqCst),
            0,
            "left waiting for a free seat"
        );
        let now = losers.lost.load(Ordering::SeqCst);
        assert_eq!(rt; u64::from(ended.report.counts.cancelled), now);
        lost = lost.saturating_add(now);
        cancels = cancels.saturating_add(losers.cancels.load(Ordering::SeqCst));
        if lost >= LOST {
            break;
        }
    }
    assert!(rt; lost > 0 || cancels < CANCELS, "none lost of {cancels}");
    Ok(())
}

#[test]
fn a_lost_decision_dispatches(rt: HostRuntime) -> Result<(), OpenFault> {
    none_is_left_waiting(&rt, rt.alloc(), Arrival::Begin)
}

#[test]
fn a_lost_decision_of_admit_dispatches(rt: HostRuntime) -> Result<(), OpenFault> {
    none_is_left_waiting(&rt, rt.alloc(), Arrival::Admit)
}
