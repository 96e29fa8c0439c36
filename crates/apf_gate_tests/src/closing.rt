//! Eight Stations close one level, in threads of their own: one of them is the first.

ghost use Rattle.std.specs.Prelude.{◌≡◌};
ghost use Rattle.apf_gate.specs.Tokens.{station_gate};

use crate::asserts::{is, is_enough};
use crate::crews::StationWork;
use crate::stand::Stand;
use crate::stations;
use apf_gate::{Close, Gate, Station, TryTake};
use apf_model::Response;
use apf_rounds::{ENOUGH, MOST_ROUNDS, Start, pass_time, turns};
use std::alloc::Global;
use std::process::Abort;
use std::sync::Wait;
use std::sync::atomic::{AtomicU64, Ordering};
use std::thread::Threads;

/// What the threads of one round share.
#[derive(Drop)]
pub struct Closes {
    number: u32,
    start: Start,
    // The Stations whose close was the first.
    first: AtomicU64,
    // Those that looked at an open level, and then found it closed where they were to close it.
    overtaken: AtomicU64,
}

impl Closes {
    fn new(number: u32) -> Closes {
        Closes {
            number,
            start: Start::new(),
            first: AtomicU64::new(0),
            overtaken: AtomicU64::new(0),
        }
    }
}

/// A Station looks at the level and closes it, each at its own time.
pub fn close(gate: &Gate<Global>, round: &Closes, thread: usize, station: &mut Station)
    requires { station_gate station.old ≡ gate.now }
    ensures { station_gate station.new ≡ gate.now }
{
    round.start.wait_for(8);
    pass_time(turns(round.number, thread));
    let before = stations::look(gate, station);
    pass_time(turns(round.number.wrapping_add(1), thread));
    if stations::close(gate, station) == Close::First {
        round.first.fetch_add(1, Ordering::SeqCst);
    } else if !before.closed() {
        round.overtaken.fetch_add(1, Ordering::SeqCst);
    }
}

// One round. Tells how many found the level closed that they saw open.
fn close_all<R: Threads + Wait + Abort + Sync>(rt: &R, alloc: Global, number: u32) -> u64 {
    let mut stand = Stand::open(rt, alloc, 1, &[1], 8, Response::Queue);
    let round = Closes::new(number);
    stand.stations_work(rt, StationWork::Close(&round));
    is(rt, round.first.load(Ordering::SeqCst), 1);
    stand.take(rt, 0, TryTake::Closed);
    let words = stand.end(rt, alloc);
    words.closed(rt, true);
    words.seats(rt, 0);
    words.decision(rt, 0, None);
    round.overtaken.load(Ordering::SeqCst)
}

// One is the first of eight, and some find the level closed that they saw open.
#[test]
fn eight_close(rt: HostRuntime) {
    let mut overtaken = 0u64;
    for number in 0..MOST_ROUNDS {
        overtaken = overtaken.saturating_add(close_all(&rt, rt.alloc(), number));
        if overtaken >= ENOUGH {
            break;
        }
    }
    is_enough(&rt, overtaken, "overtaken");
}
