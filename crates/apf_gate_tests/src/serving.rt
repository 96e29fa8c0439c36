//! Four threads serve requests that take their seats, also while eight others set limits.

ghost use Rattle.std.specs.Prelude.{◌≡◌, ◌≤◌};
ghost use Rattle.apf_gate.specs.Tokens.{pass_gate, station_gate};

use crate::asserts::{is, is_enough};
use crate::crews::{RequestWork, StationWork};
use crate::endings::Ended;
use crate::requests::Request;
use crate::stand::Stand;
use crate::stations;
use apf_gate::{Gate, Station, TrySetLimit, TryTake};
use apf_model::Response;
use apf_rounds::{ENOUGH, MOST_TURNS};
use apf_words::Decision;
use std::alloc::Global;
use std::process::Abort;
use std::sync::Wait;
use std::sync::atomic::{AtomicU64, Ordering};
use std::thread;
use std::thread::Threads;

/// What the threads count.
#[derive(Drop)]
pub struct Counts {
    /// The requests that run now.
    running: AtomicU64,
    /// The most requests that ran at once.
    most: AtomicU64,
    /// The attempts to take seats that found no room.
    no_room: AtomicU64,
    /// The attempts to take seats before whose exchange the level word changed.
    raced: AtomicU64,
    /// The limits that were set.
    set: AtomicU64,
    /// The sum of the limits that they took the place of.
    old: AtomicU64,
    /// The attempts to set a limit before whose exchange the level word changed.
    set_raced: AtomicU64,
}

impl Counts {
    /// Nothing is counted yet.
    pub fn new() -> Counts {
        Counts {
            running: AtomicU64::new(0),
            most: AtomicU64::new(0),
            no_room: AtomicU64::new(0),
            raced: AtomicU64::new(0),
            set: AtomicU64::new(0),
            old: AtomicU64::new(0),
            set_raced: AtomicU64::new(0),
        }
    }

    /// The most requests that ran at once.
    fn most(&self) -> u64 {
        self.most.load(Ordering::SeqCst)
    }

    // Runs while others may: it is counted from before the seats are given back to after they were taken.
    fn run(&self) {
        let others = self.running.fetch_add(1, Ordering::SeqCst);
        self.most
            .fetch_max(others.wrapping_add(1), Ordering::SeqCst);
        thread::yield_now();
        self.running.fetch_sub(1, Ordering::SeqCst);
    }

    // Counts what became of an attempt to take seats. Says whether it is to be made again.
    fn goes_on(&self, answer: Option<TryTake>) -> bool {
        match answer {
            Some(TryTake::NoRoom) => {
                self.no_room.fetch_add(1, Ordering::SeqCst);
                true
            }
            Some(TryTake::Raced) => {
                self.raced.fetch_add(1, Ordering::SeqCst);
                true
            }
            _ => false,
        }
    }

    // Counts what became of an attempt to set a limit. Says whether it was set.
    fn is_set(&self, answer: TrySetLimit) -> bool {
        match answer {
            TrySetLimit::Set(old, false) => {
                self.set.fetch_add(1, Ordering::SeqCst);
                self.old.fetch_add(u64::from(old), Ordering::SeqCst);
                true
            }
            TrySetLimit::Set(_, true) => true,
            TrySetLimit::Raced => {
                self.set_raced.fetch_add(1, Ordering::SeqCst);
                false
            }
        }
    }
}

// Executes the request, which took its seats, and gives them back.
fn run(gate: &Gate<Global>, counts: &Counts, request: &mut Request)
    requires { pass_gate request.old.pass ≡ gate.now }
    ensures { pass_gate request.new.pass ≡ gate.now }
{
    counts.run();
    request.execute(gate);
    request.release(gate);
}

/// Takes the request's seats, executes it and gives them back, in at most this many turns.
pub fn serve(gate: &Gate<Global>, counts: &Counts, request: &mut Request)
    requires { pass_gate request.old.pass ≡ gate.now }
    ensures { pass_gate request.new.pass ≡ gate.now }
{
    for _turn in 0..MOST_TURNS {
        let answer = request.take(gate);
        if answer == Some(TryTake::Taken) {
            run(gate, counts, request);
        }
        if !counts.goes_on(answer) {
            break;
        }
        thread::yield_now();
    }
}

/// Sets limits of 1 to 8 seats a hundred times over, each in at most this many turns.
pub fn set_limits(gate: &Gate<Global>, counts: &Counts, station: &mut Station)
    requires { station_gate station.old ≡ gate.now }
    ensures { station_gate station.new ≡ gate.now }
{
    for turn in 0..100u32 {
        set_limit(gate, counts, station, 1 + turn % 8);
    }
}

fn set_limit(gate: &Gate<Global>, counts: &Counts, station: &mut Station, limit: u32)
    requires own { station_gate station.old ≡ gate.now }
    requires some_limit { 1 ≤ limit }
    requires small_limit { limit ≤ 8 }
    ensures { station_gate station.new ≡ gate.now }
{
    for _turn in 0..MOST_TURNS {
        let answer = stations::set_limit(gate, station, limit);
        if counts.is_set(answer) {
            break;
        }
        thread::yield_now();
    }
}

// Opens a level of two seats with 4,000 requests of one seat, lets them and this many Stations do this, and ends it.
fn serve_beside<R: Threads + Wait + Abort + Sync>(
    rt: &R,
    alloc: Global,
    counts: &Counts,
    stations: u32,
) -> Ended {
    let Ok(widths) = vec![in alloc; 1u32; 4000] else {
        panic!(rt; "memory")
    };
    let mut stand = Stand::open(rt, alloc, 2, widths.as_slice(), stations, Response::Queue);
    stand.both_work(
        rt,
        (RequestWork::Serve(counts), StationWork::SetLimits(counts)),
    );
    let words = stand.end(rt, alloc);
    words.has(rt, 0, 0);
    is(rt, words.executed(), 4000);
    words
}

// At most two run at once, and two do. Some find no room, and some that the word changed.
#[test]
fn four_threads_on_two_seats(rt: HostRuntime) {
    let counts = Counts::new();
    let mut is_seen = false;
    for _round in 0..2000u32 {
        let words = serve_beside(&rt, rt.alloc(), &counts, 0);
        words.limit(&rt, 2);
        assert!(rt; counts.most() <= 2);
        let no_room = counts.no_room.load(Ordering::SeqCst);
        let raced = counts.raced.load(Ordering::SeqCst);
        if counts.most() == 2 && no_room.min(raced) >= ENOUGH {
            is_seen = true;
            break;
        }
    }
    assert!(rt; is_seen);
}

// Each limit that was set is the old one of the next that is set, or stands at the end: so the old ones and
// the last sum up to those that were set and the first. Each of the eight set 1 to 8 twelve times, and then
// 1 to 4: 12 * 36 + 10 = 442.
#[test]
fn eight_set_limits_while_four_take(rt: HostRuntime) {
    let mut raced = 0u64;
    let mut set_raced = 0u64;
    for _round in 0..2000u32 {
        let counts = Counts::new();
        let words = serve_beside(&rt, rt.alloc(), &counts, 8);
        let last = u64::from(words.level().limit());
        is(&rt, counts.set.load(Ordering::SeqCst), 800);
        is(
            &rt,
            counts.old.load(Ordering::SeqCst).wrapping_add(last),
            3538,
        );
        assert!(rt; (1..=8).contains(&words.level().limit()));
        assert!(rt; counts.most() <= 8);
        raced = raced.saturating_add(counts.raced.load(Ordering::SeqCst));
        set_raced = set_raced.saturating_add(counts.set_raced.load(Ordering::SeqCst));
        if raced.min(set_raced) >= ENOUGH {
            break;
        }
    }
    is_enough(&rt, raced, "of the takes");
    is_enough(&rt, set_raced, "of the settings");
}
