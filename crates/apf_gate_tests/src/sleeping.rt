//! Those who sleep until a request is decided: they sleep until then, and are woken.

ghost use Rattle.std.specs.Prelude.{◌≡◌, length};
ghost use Rattle.apf_gate.specs.Slots.{IsTicket};
ghost use Rattle.apf_gate.specs.Tokens.{pass_gate, desk_gate, station_gate};
ghost use Rattle.apf_gate_tests.specs.Stages.{IsNamed};

use crate::asserts::{is, is_at};
use crate::cancelling::Served;
use crate::crews::{DeskWork, RequestWork, StationWork};
use crate::desks::StagedDesk;
use crate::requests::Request;
use crate::stand::Stand;
use crate::stations;
use apf_gate::{Gate, Station, TryEnter, TryGrant, TryTake};
use apf_model::Response;
use apf_rounds::MOST_TURNS;
use apf_words::Decision;
use std::alloc::Global;
use std::process::Abort;
use std::sync::Wait;
use std::sync::atomic::{AtomicU64, Ordering};
use std::thread;
use std::thread::{Threads, join_mut};

/// What the threads count.
#[derive(Drop)]
pub struct Sleeps {
    // How many began to sleep.
    begun: AtomicU64,
    // How many times one of them slept.
    slept: AtomicU64,
    // How many woke to an executed request.
    executed: AtomicU64,
    // How many woke to a cancelled request.
    cancelled: AtomicU64,
    // How many slept on when their request was cancelled.
    missed: AtomicU64,
}

impl Sleeps {
    fn new() -> Sleeps {
        Sleeps {
            begun: AtomicU64::new(0),
            slept: AtomicU64::new(0),
            executed: AtomicU64::new(0),
            cancelled: AtomicU64::new(0),
            missed: AtomicU64::new(0),
        }
    }

    // Sleeps once.
    fn park<R: Wait>(&self, rt: &R, gate: &Gate<Global>, request: u128, is_first: bool)
        requires { IsTicket gate.now.shape request }
    {
        self.slept.fetch_add(1, Ordering::SeqCst);
        if is_first {
            self.begun.fetch_add(1, Ordering::SeqCst);
        }
        gate.park(rt, request);
    }

    // Counts who is told this. Says whether it is decided.
    fn wakes(&self, told: Option<Decision>) -> bool {
        match told {
            Some(Decision::Execute) => self.executed.fetch_add(1, Ordering::SeqCst),
            Some(Decision::Cancelled) => self.cancelled.fetch_add(1, Ordering::SeqCst),
            _ => 0,
        };
        told.is_some()
    }

    // Lets this many others begin to sleep, and gives them time for it.
    fn let_sleep(&self, others: u64) {
        for _turn in 0..MOST_TURNS {
            if self.begun.load(Ordering::SeqCst) >= others {
                break;
            }
            thread::yield_now();
        }
        for _turn in 0..1000u32 {
            thread::yield_now();
        }
    }

    // Waits until one woke to a cancelled request, in at most this many turns. Says whether one did.
    fn wait_for_waking(&self) -> bool {
        for _turn in 0..MOST_TURNS / 10 {
            if self.cancelled.load(Ordering::SeqCst) > 0 {
                return true;
            }
            thread::yield_now();
        }
        false
    }
}

/// Sleeps until the request is told its decision, in at most this many turns.
pub fn sleep<R: Wait>(rt: &R, gate: &Gate<Global>, sleeps: &Sleeps, request: &mut Request)
    requires { pass_gate request.old.pass ≡ gate.now }
    ensures { pass_gate request.new.pass ≡ gate.now }
{
    for turn in 0..MOST_TURNS {
        let told = request.told(gate);
        if sleeps.wakes(told) {
            break;
        }
        let number = request.pass.number();
        sleeps.park(rt, gate, number, turn == 0);
    }
}

/// Sleeps until the Station reads that the first request is decided, in at most this many turns.
pub fn sleep_beside<R: Wait>(rt: &R, gate: &Gate<Global>, sleeps: &Sleeps, station: &mut Station)
    requires some { IsNamed gate.now.shape 0 }
    requires own { station_gate station.old ≡ gate.now }
    ensures { station_gate station.new ≡ gate.now }
{
    for turn in 0..MOST_TURNS {
        let read = stations::read(gate, station, 0);
        if sleeps.wakes(read) {
            break;
        }
        sleeps.park(rt, gate, 0, turn == 0);
    }
}

/// Lets one other sleep, and cancels the first request.
pub fn cancel_later(gate: &Gate<Global>, sleeps: &Sleeps, station: &mut Station)
    requires some { IsNamed gate.now.shape 0 }
    requires own { station_gate station.old ≡ gate.now }
    ensures { station_gate station.new ≡ gate.now }
{
    sleeps.let_sleep(1);
    stations::cancel(gate, station, 0);
}

/// Lets this many others sleep, grants the first request, which waits, settles it and wakes who sleeps. Gives
/// its seats back if it was decided otherwise.
pub fn grant_later(
    gate: &Gate<Global>,
    sleeps: &Sleeps,
    others: u64,
    desk: &mut StagedDesk,
) -> Served
    requires some { IsNamed gate.now.shape 0 }
    requires own { desk_gate desk.old.desk ≡ gate.now }
    ensures { desk_gate desk.new.desk ≡ gate.now }
{
    sleeps.let_sleep(others);
    if desk.grant(gate, 0) != Some(TryGrant::Granted) {
        return Served::NotGranted;
    }
    if desk.settle(gate) == Some(Decision::Execute) {
        gate.wake(0);
        return Served::Executed;
    }
    desk.give_back(gate);
    Served::Overtaken
}

// One round: who sleeps before a cancel is told of it.
fn sleep_beside_cancel<R: Threads + Wait + Abort + Sync>(rt: &R, alloc: Global, sleeps: &Sleeps) {
    let mut stand = Stand::waiting(rt, alloc, 1);
    let work = (RequestWork::Sleep(sleeps), StationWork::CancelLater(sleeps));
    stand.both_work(rt, work);
    let words = stand.end(rt, alloc);
    is(rt, words.level().waiters(), 1);
    words.decision(rt, 0, Some(Decision::Cancelled));
}

// Who sleeps before a cancel is woken, and does not go round meanwhile: `park` may return for no reason, but
// not a hundred times in twenty rounds.
#[test]
fn a_cancel_wakes(rt: HostRuntime) {
    let sleeps = Sleeps::new();
    for round in 0..20u64 {
        sleeps.begun.store(0, Ordering::SeqCst);
        sleep_beside_cancel(&rt, rt.alloc(), &sleeps);
        is(&rt, sleeps.cancelled.load(Ordering::SeqCst), round + 1);
        assert!(rt; sleeps.slept.load(Ordering::SeqCst) > round);
    }
    assert!(rt; sleeps.slept.load(Ordering::SeqCst) < 120);
}

// One round: who sleeps before a grant is told of it.
fn sleep_beside_grant<R: Threads + Wait + Abort + Sync>(rt: &R, alloc: Global, sleeps: &Sleeps) {
    let mut stand = Stand::waiting(rt, alloc, 0);
    let work = (DeskWork::GrantLater(sleeps, 1), RequestWork::Sleep(sleeps));
    stand.desk_beside_request(rt, work);
    stand.release(rt, 0, false);
    let words = stand.end(rt, alloc);
    words.has(rt, 0, 0);
    words.decision(rt, 0, Some(Decision::Execute));
}

#[test]
fn a_settle_wakes(rt: HostRuntime) {
    let sleeps = Sleeps::new();
    for round in 0..20u64 {
        sleeps.begun.store(0, Ordering::SeqCst);
        sleep_beside_grant(&rt, rt.alloc(), &sleeps);
        is(&rt, sleeps.executed.load(Ordering::SeqCst), round + 1);
        assert!(rt; sleeps.slept.load(Ordering::SeqCst) > round);
    }
    assert!(rt; sleeps.slept.load(Ordering::SeqCst) < 120);
}

// One round: eight sleep before one grant, and all are told of it.
fn sleep_all_beside_grant<R: Threads + Wait + Abort + Sync>(rt: &R, alloc: Global) {
    let mut stand = Stand::waiting(rt, alloc, 8);
    let sleeps = Sleeps::new();
    let work = (
        DeskWork::GrantLater(&sleeps, 8),
        StationWork::Sleep(&sleeps),
    );
    stand.desk_beside_stations(rt, work);
    is(rt, sleeps.begun.load(Ordering::SeqCst), 8);
    is(rt, sleeps.executed.load(Ordering::SeqCst), 8);
    stand.told(rt, 0, Some(Decision::Execute));
    stand.release(rt, 0, false);
    let words = stand.end(rt, alloc);
    words.decision(rt, 0, Some(Decision::Execute));
}

#[test]
fn eight_sleepers_are_woken_by_one_settle(rt: HostRuntime) {
    for _round in 0..20u32 {
        sleep_all_beside_grant(&rt, rt.alloc());
    }
}

// Lets one other sleep, and cancels the request. If nobody wakes then, it wakes the sleeper itself, and counts it.
fn cancel_named(gate: &Gate<Global>, sleeps: &Sleeps, named: u128, station: &mut Station)
    requires is_request { IsNamed gate.now.shape named }
    requires own { station_gate station.old ≡ gate.now }
    ensures { station_gate station.new ≡ gate.now }
{
    sleeps.let_sleep(1);
    stations::cancel(gate, station, named);
    if !sleeps.wait_for_waking() {
        sleeps.missed.fetch_add(1, Ordering::SeqCst);
        gate.wake(named);
    }
}

// The request sleeps in one thread until another one cancels it.
fn sleep_until_cancelled<R: Threads + Wait + Sync>(
    rt: &R,
    gate: &Gate<Global>,
    sleeps: &Sleeps,
    request: &mut Request,
    station: &mut Station,
)
    requires batch { length gate.now.shape.widths ≡ gate.now.shape.slots }
    requires request { pass_gate request.old.pass ≡ gate.now }
    requires station { station_gate station.old ≡ gate.now }
    ensures request { pass_gate request.new.pass ≡ gate.now }
    ensures station { station_gate station.new ≡ gate.now }
{
    let named = request.pass.number();
    join_mut(
        rt,
        &mut || sleep(rt, gate, sleeps, request),
        &mut || cancel_named(gate, sleeps, named, station),
    );
}

impl Stand {
    // The second request sleeps in one thread until another one cancels it.
    fn sleep_second<R: Threads + Wait + Abort + Sync>(&mut self, rt: &R, sleeps: &Sleeps) {
        assert!(rt; self.requests.len() > 1 && !self.stations.is_empty());
        sleep_until_cancelled(
            rt,
            &self.gate,
            sleeps,
            &mut self.requests[1],
            &mut self.stations[0],
        );
    }
}

// One round: the second of two requests waits, and who sleeps before its cancel is woken by it.
fn sleep_of_the_second<R: Threads + Wait + Abort + Sync>(rt: &R, alloc: Global) {
    let mut stand = Stand::open(rt, alloc, 1, &[1, 1], 1, Response::Queue);
    stand.take(rt, 0, TryTake::Taken);
    stand.decide(rt, 0, Decision::Execute, Decision::Execute);
    stand.ask(rt, 1, None);
    stand.enter(rt, 1, TryEnter::Entered);
    let sleeps = Sleeps::new();
    stand.sleep_second(rt, &sleeps);
    is_at(rt, sleeps.missed.load(Ordering::SeqCst), 0, "it sleeps on");
    is(rt, sleeps.cancelled.load(Ordering::SeqCst), 1);
    stand.seen(rt, 1, Some(Decision::Cancelled));
    stand.leave(rt, 1);
    stand.release(rt, 0, false);
    let words = stand.end(rt, alloc);
    words.has(rt, 0, 0);
    words.decision(rt, 0, Some(Decision::Execute));
    words.decision(rt, 1, Some(Decision::Cancelled));
}

// A cancel wakes who sleeps until the request is decided that it names, and not who sleeps on another one.
#[test]
fn a_cancel_wakes_whom_it_names(rt: HostRuntime) {
    for _round in 0..20u32 {
        sleep_of_the_second(&rt, rt.alloc());
    }
}
