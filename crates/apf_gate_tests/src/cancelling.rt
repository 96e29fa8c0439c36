//! Eight Stations cancel one request, in threads of their own: all are told the same.

ghost use Rattle.std.specs.Prelude.{◌≡◌};
ghost use Rattle.apf_gate.specs.Tokens.{desk_gate, station_gate};
ghost use Rattle.apf_gate_tests.specs.Stages.{IsNamed};

use crate::asserts::{is, is_enough};
use crate::crews::{DeskWork, StationWork};
use crate::desks::StagedDesk;
use crate::stand::Stand;
use crate::stations;
use apf_gate::{Gate, Station, TryGrant};
use apf_rounds::{ENOUGH, MOST_ROUNDS, Start, pass_time, turns};
use apf_words::Decision;
use std::alloc::Global;
use std::process::Abort;
use std::sync::Wait;
use std::sync::atomic::{AtomicU64, Ordering};
use std::thread::Threads;

/// What the threads of one round share.
#[derive(Drop)]
pub struct Round {
    number: u32,
    start: Start,
    threads: u64,
    // The Stations that were told that the request is cancelled.
    cancelled: AtomicU64,
    // The Stations that read an undecided request before they cancelled it.
    undecided: AtomicU64,
}

impl Round {
    fn new(number: u32, threads: u64) -> Round {
        Round {
            number,
            start: Start::new(),
            threads,
            cancelled: AtomicU64::new(0),
            undecided: AtomicU64::new(0),
        }
    }
}

/// What the Desk did with the request.
#[derive(Clone, Copy)]
pub enum Served {
    /// It wrote execute.
    Executed,
    /// It found the request undecided and granted it, and it was cancelled before the decision was written.
    Overtaken,
    /// It found the request cancelled in line.
    Left,
    /// It could not grant the request.
    NotGranted,
}

/// A Station reads the first request's decision and cancels it, each at its own time.
pub fn cancel(gate: &Gate<Global>, round: &Round, thread: usize, station: &mut Station)
    requires some { IsNamed gate.now.shape 0 }
    requires own { station_gate station.old ≡ gate.now }
    ensures { station_gate station.new ≡ gate.now }
{
    round.start.wait_for(round.threads);
    pass_time(turns(round.number, thread));
    if stations::read(gate, station, 0).is_none() {
        round.undecided.fetch_add(1, Ordering::SeqCst);
    }
    pass_time(turns(round.number.wrapping_add(1), thread));
    if stations::cancel(gate, station, 0) == Decision::Cancelled {
        round.cancelled.fetch_add(1, Ordering::SeqCst);
    }
}

/// The Desk serves the first request, which waits: lets it leave if it is cancelled, and else grants it and
/// writes execute. It is early to read, so that some rounds find the request undecided, and at its own time to
/// write.
pub fn serve(gate: &Gate<Global>, round: &Round, desk: &mut StagedDesk) -> Served
    requires some { IsNamed gate.now.shape 0 }
    requires own { desk_gate desk.old.desk ≡ gate.now }
    ensures { desk_gate desk.new.desk ≡ gate.now }
{
    round.start.wait_for(round.threads);
    pass_time(turns(round.number, 8) / 8);
    if desk.seen(gate, 0) == Some(Decision::Cancelled) {
        return leave(gate, desk);
    }
    if desk.grant(gate, 0) != Some(TryGrant::Granted) {
        return Served::NotGranted;
    }
    pass_time(turns(round.number.wrapping_add(1), 8));
    settle(gate, desk)
}

// The Desk lets the first request leave, which it saw cancelled.
fn leave(gate: &Gate<Global>, desk: &mut StagedDesk) -> Served
    requires some { IsNamed gate.now.shape 0 }
    requires own { desk_gate desk.old.desk ≡ gate.now }
    ensures { desk_gate desk.new.desk ≡ gate.now }
{
    match desk.leave(gate, 0) {
        Some(()) => Served::Left,
        None => Served::NotGranted,
    }
}

// The Desk writes execute of the request that it holds, or gives its seats back.
fn settle(gate: &Gate<Global>, desk: &mut StagedDesk) -> Served
    requires { desk_gate desk.old.desk ≡ gate.now }
    ensures { desk_gate desk.new.desk ≡ gate.now }
{
    if desk.settle(gate) == Some(Decision::Execute) {
        return Served::Executed;
    }
    match desk.give_back(gate) {
        Some(()) => Served::Overtaken,
        None => Served::NotGranted,
    }
}

// How many times each order of the threads came.
#[derive(Drop)]
struct Orders {
    executed: u64,
    overtaken: u64,
    left: u64,
    // The Stations that read the request undecided and were told that it executes.
    overtaken_stations: u64,
}

impl Orders {
    // Counts a round in which the Desk did so, and asserts that all were told the same.
    fn count<R: Abort>(&mut self, rt: &R, round: &Round, served: Served) -> Decision {
        let cancelled = round.cancelled.load(Ordering::SeqCst);
        match served {
            Served::Executed => {
                is(rt, cancelled, 0);
                self.executed = self.executed.saturating_add(1);
                let undecided = round.undecided.load(Ordering::SeqCst);
                self.overtaken_stations = self.overtaken_stations.saturating_add(undecided);
                return Decision::Execute;
            }
            Served::Overtaken => self.overtaken = self.overtaken.saturating_add(1),
            Served::Left => self.left = self.left.saturating_add(1),
            Served::NotGranted => panic!(rt; "there is room"),
        }
        is(rt, cancelled, 8);
        Decision::Cancelled
    }

    // Whether each order came often enough.
    fn are_enough(&self) -> bool {
        self.executed
            .min(self.overtaken)
            .min(self.left)
            .min(self.overtaken_stations)
            >= ENOUGH
    }
}

// One round in which the Desk grants the request while eight cancel it.
fn cancel_beside_grant<R: Threads + Wait + Abort + Sync>(
    rt: &R,
    alloc: Global,
    number: u32,
    orders: &mut Orders,
) {
    let mut stand = Stand::waiting(rt, alloc, 8);
    let round = Round::new(number, 9);
    let work = (DeskWork::Serve(&round), StationWork::Cancel(&round));
    let served = stand.desk_beside_stations(rt, work);
    let decision = orders.count(rt, &round, served);
    stand.told(rt, 0, Some(decision));
    if decision == Decision::Execute {
        stand.release(rt, 0, false);
    }
    let words = stand.end(rt, alloc);
    words.decision(rt, 0, Some(decision));
    words.has(rt, 0, 0);
}

// All are told the same. The Desk executes the request, also where a Station read it undecided before; a
// cancel comes between the Desk's reading and its writing; and a cancel comes before both.
#[test]
fn eight_cancel_while_the_desk_grants(rt: HostRuntime) {
    let mut orders = Orders {
        executed: 0,
        overtaken: 0,
        left: 0,
        overtaken_stations: 0,
    };
    for number in 0..MOST_ROUNDS {
        cancel_beside_grant(&rt, rt.alloc(), number, &mut orders);
        if orders.are_enough() {
            break;
        }
    }
    is_enough(&rt, orders.executed, "executed");
    is_enough(&rt, orders.overtaken, "cancelled after the grant");
    is_enough(&rt, orders.left, "cancelled in line");
    is_enough(&rt, orders.overtaken_stations, "overtaken");
}

// One round in which eight cancel the request. Says whether two or more read it undecided.
fn cancel_all<R: Threads + Wait + Abort + Sync>(rt: &R, alloc: Global, number: u32) -> bool {
    let mut stand = Stand::waiting(rt, alloc, 8);
    let round = Round::new(number, 8);
    stand.stations_work(rt, StationWork::Cancel(&round));
    is(rt, round.cancelled.load(Ordering::SeqCst), 8);
    stand.told(rt, 0, Some(Decision::Cancelled));
    stand.seen(rt, 0, Some(Decision::Cancelled));
    stand.leave(rt, 0);
    let words = stand.end(rt, alloc);
    words.has(rt, 0, 0);
    words.decision(rt, 0, Some(Decision::Cancelled));
    round.undecided.load(Ordering::SeqCst) >= 2
}

// All are told that it is cancelled. In a round in which two or more read it undecided, all but one of them
// were overtaken by another's cancel.
#[test]
fn eight_cancel_a_request_that_waits(rt: HostRuntime) {
    let mut raced = 0u64;
    for number in 0..MOST_ROUNDS {
        if cancel_all(&rt, rt.alloc(), number) {
            raced = raced.saturating_add(1);
        }
        if raced >= ENOUGH {
            break;
        }
    }
    is_enough(&rt, raced, "raced");
}
