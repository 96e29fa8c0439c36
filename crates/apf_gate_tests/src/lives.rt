//! A million requests over eight slots, by four threads, with cancels by tickets that are late or not.

ghost use denote.Param.Send.{IsSync};
ghost use Rattle.std.specs.Prelude.{◌≡◌, length, All};
ghost use Rattle.apf_gate.specs.Tokens.{pass_gate, station_gate};

use crate::asserts::is;
use crate::requests::Request;
use crate::stand::{passes_of, requests_of};
use apf_gate::{Cancel, Gate, LifeWords, Renew, Station, Ticket, TryTake};
use apf_model::Response;
use apf_rounds::MOST_TURNS;
use apf_words::Decision;
use std::alloc::Global;
use std::process::Abort;
use std::sync::atomic::{AtomicU64, Ordering};
use std::thread;
use std::thread::{Threads, join_mut};

// How many slots there are, and how many requests hold each, one after another.
const SLOTS: u32 = 8;

const ROUNDS: u64 = 125_000;

// What the threads tell the test.
#[derive(Drop)]
struct Board {
    // How manieth request holds each slot.
    present: Vec<AtomicU64>,
    // For each request the decisions that were told of it, a bit for each: those that its Pass was told, and
    // eight places higher those that Stations were told.
    told: Vec<AtomicU64>,
    // The cancels that found another request.
    late: AtomicU64,
    // The slots whose requests all came to an end.
    ended: AtomicU64,
}

// This many numbers, each 0.
fn zeros<R: Abort>(rt: &R, alloc: Global, count: u64) -> Vec<AtomicU64> {
    let mut numbers = Vec::new(alloc);
    for _ in 0..count {
        let Ok(()) = numbers.push(AtomicU64::new(0)) else {
            panic!(rt; "memory")
        };
    }
    numbers
}

impl Board {
    fn new<R: Abort>(rt: &R, alloc: Global) -> Board {
        Board {
            present: zeros(rt, alloc, u64::from(SLOTS)),
            told: zeros(rt, alloc, ROUNDS * u64::from(SLOTS)),
            late: AtomicU64::new(0),
            ended: AtomicU64::new(0),
        }
    }

    // How manieth request holds the slot.
    fn present(&self, slot: u32) -> u64 {
        match self.present.get(slot as usize) {
            None => 0,
            Some(round) => round.load(Ordering::SeqCst),
        }
    }

    // The next request holds the slot.
    fn goes_on(&self, slot: u32) {
        if let Some(round) = self.present.get(slot as usize) {
            round.fetch_add(1, Ordering::SeqCst);
        }
    }

    // This was told of a request: to its Pass, or to a Station.
    fn note(&self, slot: u32, round: u64, decision: Decision, to_station: bool) {
        let place = round
            .wrapping_mul(u64::from(SLOTS))
            .wrapping_add(u64::from(slot));
        if let Some(word) = self.told.get(place as usize) {
            word.fetch_or(bit(decision, to_station), Ordering::SeqCst);
        }
    }
}

fn bit(decision: Decision, to_station: bool) -> u64 {
    let own = match decision {
        Decision::Execute => 1,
        Decision::QueueFull => 2,
        Decision::Closed => 4,
        Decision::Cancelled => 8,
        Decision::ConcurrencyLimit => 16,
    };
    if to_station { own * 256 } else { own }
}

// Takes the request's seats, in at most this many turns.
fn take(gate: &Gate<Global>, request: &mut Request)
    requires { pass_gate request.old.pass ≡ gate.now }
    ensures { pass_gate request.new.pass ≡ gate.now }
{
    for _turn in 0..MOST_TURNS {
        if let Some(TryTake::NoRoom | TryTake::Raced) = request.take(gate) {
            thread::yield_now();
        } else {
            break;
        }
    }
}

// One request of the slot, from its beginning to its end.
fn run(gate: &Gate<Global>, board: &Board, slot: u32, round: u64, request: &mut Request)
    requires { pass_gate request.old.pass ≡ gate.now }
    ensures { pass_gate request.new.pass ≡ gate.now }
{
    take(gate, request);
    if let Some(decision) = request.execute(gate) {
        board.note(slot, round, decision, false);
    }
    request.release(gate);
    if let Some(Renew::Began(Some(decision))) = request.renew(gate, 1) {
        board.note(slot, round, decision, false);
    }
    board.goes_on(slot);
}

// The ticket of the request of this round of the slot. All are one seat wide.
fn ticket_of(slot: u32, round: u64) -> Ticket {
    if round == 0 {
        return Ticket::of(slot);
    }
    Ticket {
        number: (u128::from(round) * 32_768 + 1) * 16_384 + u128::from(slot),
    }
}

// All requests of one slot, one after another.
fn live_on(gate: &Gate<Global>, board: &Board, place: usize, request: &mut Request)
    requires { pass_gate request.old.pass ≡ gate.now }
    ensures { pass_gate request.new.pass ≡ gate.now }
{
    let slot = (place % 8) as u32;
    for round in 0..ROUNDS {
        run(gate, board, slot, round, request);
    }
    board.ended.fetch_add(1, Ordering::SeqCst);
}

// Cancels the present request of the slot, or one of the two before.
fn cancel(gate: &Gate<Global>, board: &Board, slot: u32, back: u64, station: &mut Station)
    requires { station_gate station.old ≡ gate.now }
    ensures { station_gate station.new ≡ gate.now }
{
    let round = board.present(slot).saturating_sub(back);
    let ticket = ticket_of(slot, round);
    if round >= ROUNDS || !gate.knows(ticket) {
        return;
    }
    match gate.cancel(station, ticket) {
        Cancel::Is(decision) => board.note(slot, round, decision, true),
        Cancel::Other => {
            board.late.fetch_add(1, Ordering::SeqCst);
        }
    }
}

// Cancels requests of one slot after another, until all have ended.
fn cancel_on(gate: &Gate<Global>, board: &Board, station: &mut Station)
    requires { station_gate station.old ≡ gate.now }
    ensures { station_gate station.new ≡ gate.now }
{
    for turn in 0..MOST_TURNS {
        if board.ended.load(Ordering::SeqCst) >= u64::from(SLOTS) {
            break;
        }
        let slot = turn % SLOTS;
        cancel(gate, board, slot, u64::from(turn / SLOTS % 3), station);
        thread::yield_now();
    }
}

// The slots live on, in four threads.
fn slots_live<R: Threads + Sync>(
    rt: &R,
    gate: &Gate<Global>,
    board: &Board,
    requests: &mut [Request],
)
    requires { All (λ r. pass_gate r.pass ≡ gate.now) requests.old }
    ensures count { length requests.new ≡ length requests.old }
    ensures own { All (λ r. pass_gate r.pass ≡ gate.now) requests.new }
{
    thread::for_each_mut(
        rt,
        requests,
        4,
        &|place, request| live_on(gate, board, place, request),
    );
}

// The Stations cancel, in two threads.
fn stations_cancel<R: Threads + Sync>(
    rt: &R,
    gate: &Gate<Global>,
    board: &Board,
    stations: &mut [Station],
)
    requires { All (λ t. station_gate t ≡ gate.now) stations.old }
    ensures count { length stations.new ≡ length stations.old }
    ensures own { All (λ t. station_gate t ≡ gate.now) stations.new }
{
    thread::for_each_mut(
        rt,
        stations,
        2,
        &|_, station| cancel_on(gate, board, station),
    );
}

// Both at once.
fn all_work<R: Threads + Sync>(
    rt: &R,
    gate: &Gate<Global>,
    board: &Board,
    requests: &mut [Request],
    stations: &mut [Station],
)
    requires requests { All (λ r. pass_gate r.pass ≡ gate.now) requests.old }
    requires stations { All (λ t. station_gate t ≡ gate.now) stations.old }
    ensures count { (length requests.new ≡ length requests.old) × (length stations.new ≡ length stations.old) }
    ensures requests { All (λ r. pass_gate r.pass ≡ gate.now) requests.new }
    ensures stations { All (λ t. station_gate t ≡ gate.now) stations.new }
{
    join_mut(
        rt,
        &mut ||
            requires { IsSync R.row × All (λ r. pass_gate r.pass ≡ gate.now) requests.now }
            ensures { (length requests.exit.now ≡ length requests.entry.now) × All (λ r. pass_gate r.pass ≡ gate.entry.now) requests.exit.now }
        { slots_live(rt, gate, board, requests) },
        &mut ||
            requires { IsSync R.row × All (λ t. station_gate t ≡ gate.now) stations.now }
            ensures { (length stations.exit.now ≡ length stations.entry.now) × All (λ t. station_gate t ≡ gate.entry.now) stations.exit.now }
        { stations_cancel(rt, gate, board, stations) },
    );
}

// Runs a million requests, and ends the gate.
fn live<R: Threads + Abort + Sync>(rt: &R, alloc: Global, board: &Board) -> LifeWords<Global> {
    let opened = Gate::open_for_life(alloc, 2, &[1, 1, 1, 1, 1, 1, 1, 1], 2, Response::Queue);
    let Ok((gate, desk, passes, mut stations)) = opened else {
        panic!(rt; "opens")
    };
    let mut requests = requests_of(rt, alloc, passes, &gate);
    all_work(
        rt,
        &gate,
        board,
        requests.as_mut_slice(),
        stations.as_mut_slice(),
    );
    let passes = passes_of(rt, alloc, requests, &gate);
    let Ok(words) = gate.end_for_life(alloc, desk, passes, stations) else {
        panic!(rt; "memory")
    };
    words
}

// How many requests were decided so, each told of to all alike: 1 is execute and 8 is cancelled. No other bits
// than these may stand there, and who is cancelled was cancelled by a call that said so.
fn decided<R: Abort>(rt: &R, board: &Board) -> (u64, u64) {
    let mut executed = 0u64;
    let mut cancelled = 0u64;
    for word in board.told.iter() {
        match word.load(Ordering::SeqCst) {
            0x001 | 0x101 => executed = executed.saturating_add(1),
            0x808 => cancelled = cancelled.saturating_add(1),
            other => panic!(rt; "told {other}"),
        }
    }
    (executed, cancelled)
}

// Asserts that some cancels were late, and some requests were cancelled.
fn some_of_each<R: Abort>(rt: &R, late: u64, cancelled: u64) {
    assert!(rt;
        late > 0 && cancelled > 0,
        "{late} were late, {cancelled} were cancelled"
    );
}

// Each request has one decision, whoever was told it, early or late. Late cancels wrote nothing, and some were late.
#[test]
fn a_million_requests_over_eight_slots(rt: HostRuntime) {
    let board = Board::new(&rt, rt.alloc());
    let words = live(&rt, rt.alloc(), &board);
    let (executed, cancelled) = decided(&rt, &board);
    let counts = words.counts();
    is(&rt, executed.saturating_add(cancelled), 1_000_000);
    is(
        &rt,
        (counts.executed, counts.cancelled),
        (executed, cancelled),
    );
    is(
        &rt,
        (counts.queue_full, counts.closed, counts.concurrency_limit),
        (0, 0, 0),
    );
    is(&rt, words.level().seats(), 0);
    let late = board.late.load(Ordering::SeqCst);
    some_of_each(&rt, late, cancelled);
}
