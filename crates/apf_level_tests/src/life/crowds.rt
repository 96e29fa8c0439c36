//! Many requests over eight slots, by four threads, with cancels by tickets that are late or not.

ghost use Rattle.std.specs.Prelude.{◌≡◌, length};
ghost use Rattle.apf_session.specs.LifeOpenings.{level_of};

use crate::asserts::is;
use apf_gate::{Cancel, Ticket};
use apf_level::life::{Level, Naming, Report};
use apf_model::{Ask, Config, Response};
use apf_rounds::MOST_TURNS;
use apf_session::life::{Answer, Opening, Operator, Request, Session};
use apf_words::Decision;
use std::alloc::Global;
use std::marker::Brand;
use std::process::Abort;
use std::sync::atomic::{AtomicU64, Ordering};
use std::sync::{Mutex, Wait};
use std::thread;
use std::thread::Threads;

// How many slots there are, and how many requests hold each, one after another.
const SLOTS: u32 = 8;

const ROUNDS: u64 = 12_500;

// What the threads tell the test.
#[derive(Drop)]
struct Board {
    // How manieth request holds each slot.
    present: Vec<AtomicU64>,
    // For each request the decisions that were told of it, a bit for each: those that its caller was told, and eight
    // places higher those that operators were told.
    told: Vec<AtomicU64>,
    // The cancels that found another request.
    late: AtomicU64,
}

// This many numbers, each 0.
fn zeros<R: Abort>(rt: &R, alloc: Global, count: u64) -> Vec<AtomicU64> {
    let mut numbers = Vec::new(alloc);
    for _ in 0..count {
        let Ok(()) = numbers.push(AtomicU64::new(0)) else {
            panic!(rt; "memory")
        };
    }
    numbers
}

impl Board {
    fn new<R: Abort>(rt: &R, alloc: Global) -> Board {
        Board {
            present: zeros(rt, alloc, u64::from(SLOTS)),
            told: zeros(rt, alloc, ROUNDS * u64::from(SLOTS)),
            late: AtomicU64::new(0),
        }
    }

    // How manieth request holds the slot.
    fn present(&self, slot: u32) -> u64 {
        match self.present.get(slot as usize) {
            None => 0,
            Some(round) => round.load(Ordering::SeqCst),
        }
    }

    // The next request holds the slot.
    fn goes_on(&self, slot: u32) {
        if let Some(round) = self.present.get(slot as usize) {
            round.fetch_add(1, Ordering::SeqCst);
        }
    }

    // This was told of a request of the slot, of this round from 1: to its caller, or to an operator.
    fn note(&self, slot: u32, round: u64, decision: Decision, to_operator: bool) {
        let place = round
            .wrapping_sub(1)
            .wrapping_mul(u64::from(SLOTS))
            .wrapping_add(u64::from(slot));
        if let Some(word) = self.told.get(place as usize) {
            word.fetch_or(bit(decision, to_operator), Ordering::SeqCst);
        }
    }
}

fn bit(decision: Decision, to_operator: bool) -> u64 {
    let own = match decision {
        Decision::Execute => 1,
        Decision::QueueFull => 2,
        Decision::Closed => 4,
        Decision::Cancelled => 8,
        Decision::ConcurrencyLimit => 16,
    };
    if to_operator { own * 256 } else { own }
}

// The next request of the slot arrives, and its caller waits until it is decided: it sleeps, or it reads the decision
// again and again.
fn decided<K: Naming, R: Wait>(
    rt: &R,
    level: &Level<K>,
    slot: u32,
    sleeps: bool,
    request: &mut Request<K>,
) -> Answer {
    let ask = Ask {
        width: 1,
        hash: u64::from(slot),
    };
    if sleeps {
        return request.admit(rt, level, ask);
    }
    let mut answer = request.arrive(rt, level, ask);
    for _turn in 0..MOST_TURNS {
        if answer != Answer::Waits {
            break;
        }
        thread::yield_now();
        answer = request.poll(rt, level);
    }
    answer
}

// The ticket of the request of this round of the slot. All are one seat wide.
fn ticket_of(slot: u32, round: u64) -> Ticket {
    Ticket {
        number: (u128::from(round) * 32_768 + 1) * 16_384 + u128::from(slot),
    }
}

// Cancels the present request of the slot, or one of the two before. The present one is struck, if it waits.
fn cancel<K: Naming, R: Wait>(
    rt: &R,
    level: &Level<K>,
    board: &Board,
    operator: &Mutex<Operator<K>>,
    slot: u32,
    back: u64,
) {
    let round = board.present(slot).saturating_sub(back);
    let ticket = ticket_of(slot, round);
    if round == 0 || round > ROUNDS || !level.knows(ticket) {
        return;
    }
    let (answer, owed) = operator.lock(rt).cancel(level, ticket);
    level.strike_if_owed(rt, owed);
    match answer {
        Cancel::Is(decision) => board.note(slot, round, decision, true),
        Cancel::Other => {
            board.late.fetch_add(1, Ordering::SeqCst);
        }
    }
}

// One request of the slot, from its arrival to its end. In every third round its thread cancels one of another slot
// before.
fn run<K: Naming, R: Wait>(
    rt: &R,
    level: &Level<K>,
    board: &Board,
    operator: &Mutex<Operator<K>>,
    slot: u32,
    round: u64,
    request: &mut Request<K>,
) {
    if round % 3 == 0 {
        let other = slot.wrapping_add(1).wrapping_add((round % 7) as u32) % SLOTS;
        cancel(rt, level, board, operator, other, round / 3 % 3);
    }
    board.goes_on(slot);
    match decided(rt, level, slot, round % 2 == 0, request) {
        Answer::Run => board.note(slot, round, Decision::Execute, false),
        Answer::Over(decision) => board.note(slot, round, decision, false),
        _ => {}
    }
    // of one that is over it answers Wrong
    let _ = request.finish(rt, level);
}

// All requests of one slot, one after another.
fn live_on<K: Naming, R: Wait>(
    rt: &R,
    level: &Level<K>,
    board: &Board,
    operator: &Mutex<Operator<K>>,
    place: usize,
    request: &mut Request<K>,
) {
    let slot = (place % 8) as u32;
    for round in 1..=ROUNDS {
        run(rt, level, board, operator, slot, round, request);
    }
}

// The slots live on, in four threads.
fn slots_live<K: Naming, R: Threads + Wait + Sync>(
    rt: &R,
    level: &Level<K>,
    board: &Board,
    operator: &Mutex<Operator<K>>,
    slots: &mut [Request<K>],
)
    ensures { length slots.new ≡ length slots.old }
{
    thread::for_each_mut(
        rt,
        slots,
        4,
        &|place, request| live_on(rt, level, board, operator, place, request),
    );
}

// All slots live on, and the operator is back then.
fn all_live<K: Naming, R: Threads + Wait + Abort + Sync>(
    rt: &R,
    board: &Board,
    session: &mut Session<K>,
) {
    let Some(operator) = session.operators.pop() else {
        panic!(rt; "a Station")
    };
    let operator = Mutex::new(operator);
    slots_live(
        rt,
        &session.level,
        board,
        &operator,
        session.slots.as_mut_slice(),
    );
    let Ok(()) = session.operators.push(operator.into_inner()) else {
        panic!(rt; "memory")
    };
}

fn play<K: Naming, R: Threads + Wait + Abort + Sync>(
    rt: &R,
    alloc: Global,
    board: &Board,
    opening: Opening,
) -> Report
    requires level { K.level ≡ level_of opening.gate opening.config }
{
    let Ok(mut session) = Session::<K>::open_for_life(rt, alloc, opening) else {
        panic!(rt; "opens")
    };
    all_live(rt, board, &mut session);
    let Ok(report) = session.end(rt, alloc) else {
        panic!(rt; "memory")
    };
    report
}

// Runs all requests, and ends the level.
fn live<R: Threads + Wait + Abort + Sync>(rt: &R, alloc: Global, board: &Board) -> Report {
    let config = Config {
        limit: 2,
        queues: 4,
        hand_size: 2,
        queue_length_limit: 10,
        limit_response: Response::Queue,
    };
    let Ok(opening) = Opening::new(alloc, &config, SLOTS as usize, 1) else {
        panic!(rt; "opens")
    };
    play::<Brand, R>(rt, alloc, board, opening)
}

// How many requests were decided so, each told of to all alike: 1 is execute and 8 is cancelled. No other bits
// than these may stand there, and who is cancelled was cancelled by a call that said so.
fn all_alike<R: Abort>(rt: &R, board: &Board) -> (u64, u64) {
    let mut executed = 0u64;
    let mut cancelled = 0u64;
    for word in board.told.iter() {
        match word.load(Ordering::SeqCst) {
            0x001 | 0x101 => executed = executed.saturating_add(1),
            0x808 => cancelled = cancelled.saturating_add(1),
            other => panic!(rt; "told {other}"),
        }
    }
    (executed, cancelled)
}

// Each request has one decision, whoever was told it, early or late. Late cancels wrote nothing. Tells whether some were
// late, some were cancelled, and some were dispatched: where no thread overlapped another, none is.
fn one_decision_each<R: Threads + Wait + Abort + Sync>(rt: &R, alloc: Global) -> bool {
    let board = Board::new(rt, alloc);
    let report = live(rt, alloc, &board);
    let (executed, cancelled) = all_alike(rt, &board);
    let counts = report.words.counts();
    is(rt, executed.saturating_add(cancelled), 100_000);
    is(
        rt,
        (counts.executed, counts.cancelled),
        (executed, cancelled),
    );
    is(
        rt,
        (counts.queue_full, counts.closed, counts.concurrency_limit),
        (0, 0, 0),
    );
    is(rt, report.words.level().seats(), 0);
    let stats = report.newest.stats;
    is(
        rt,
        stats.entered,
        stats.dispatched.saturating_add(stats.struck),
    );
    let late = board.late.load(Ordering::SeqCst);
    late > 0 && cancelled > 0 && stats.dispatched > 0
}

// Goes on until threads overlapped so.
fn until_they_overlap<R: Threads + Wait + Abort + Sync>(rt: &R, alloc: Global) {
    for _turn in 0..50 {
        if one_decision_each(rt, alloc) {
            return;
        }
    }
    panic!(rt; "in no turn some were late, some cancelled and some dispatched")
}

#[test]
fn a_hundred_thousand_requests_over_eight_slots(rt: HostRuntime) {
    until_they_overlap(&rt, rt.alloc());
}
