//! Requests that wait are dispatched while two Stations cancel them: some grants are lost.

ghost use denote.Param.Send.{IsSync};
ghost use Rattle.std.specs.Prelude.{◌≡◌, ◌≤◌, length, map, All};
ghost use Rattle.apf_model.specs.declared.response.Response.TheVariants.{Queue};
ghost use Rattle.apf_gate.specs.declared.record.State.TheVariants.{Fresh};
ghost use Rattle.apf_gate.specs.Gauges.{IsShape};
ghost use Rattle.apf_gate.specs.Records.{new_desk};
ghost use Rattle.apf_gate.specs.Tokens.{pass_gate, desk_gate, station_gate};
ghost use Rattle.apf_book_tests.specs.Batches.{HasRequests};

use crate::asserts::{is, is_enough};
use crate::judging::{Ended, judge};
use crate::marks::Mark;
use crate::opening::{Fault, ask, open_gate, passes_of, requests_of};
use crate::requests::{Request, Tried};
use crate::scripts::settings;
use crate::shared::Round;
use crate::stations;
use apf_book::{Ask, Book, Config, Stats};
use apf_gate::{Gate, Opened, Station};
use apf_rounds::{ENOUGH, MOST_ROUNDS, pass_time, turns};
use std::alloc::Global;
use std::marker::Brand;
use std::process::Abort;
use std::sync::Wait;
use std::sync::atomic::{AtomicU64, Ordering};
use std::thread;
use std::thread::{Threads, join_mut};

// The first request takes all seats, the others wait, and then it gives its seats back.
fn enqueue_all<K: Mark, R: Wait + Abort>(
    rt: &R,
    gate: &Gate<Global>,
    round: &Round<K>,
    requests: &mut [Request<K>],
)
    requires { gate.now ≡ K.gate }
    ensures { length requests.new ≡ length requests.old }
{
    for place in 0..requests.len() {
        let tried = requests[place].try_take(gate);
        if place == 0 {
            is(rt, tried, Tried::Running);
        } else {
            is(rt, tried, Tried::NoSeats);
            requests[place].ask(gate);
            round.book.lock(rt).hand(rt, gate, &mut requests[place]);
        }
    }
    assert!(rt; !requests.is_empty());
    is(rt, requests[0].finish(gate), Some(true));
}

// The requests that execute give their seats back.
fn finish_all<K: Mark>(gate: &Gate<Global>, requests: &mut [Request<K>])
    requires { gate.now ≡ K.gate }
    ensures { length requests.new ≡ length requests.old }
{
    for place in 0..requests.len() {
        requests[place].poll(gate);
        requests[place].finish(gate);
    }
}

// The heads that fit are dispatched, a bit later than the others begin.
fn dispatch<K: Mark, R: Wait>(rt: &R, gate: &Gate<Global>, round: &Round<K>)
    requires { gate.now ≡ K.gate }
{
    round.start.wait_for(round.threads);
    pass_time(turns(round.number, 9) / 16);
    round.book.lock(rt).dispatch(rt, gate);
}

// A Station cancels the requests that wait, from the last to the first, and looks at the level after each. Nobody
// gives seats back in the meantime but the Desk, of a grant that it lost: so each time that it sees fewer seats in
// use than before, such a grant was lost.
fn cancel<K: Mark>(
    gate: &Gate<Global>,
    round: &Round<K>,
    lost: &AtomicU64,
    place: usize,
    station: &mut Station,
)
    requires own { station_gate station.old ≡ gate.now }
    requires requests { HasRequests gate.now.shape 33 }
    ensures { station_gate station.new ≡ gate.now }
{
    round.start.wait_for(round.threads);
    pass_time(turns(round.number, place) / 16);
    let mut seats = 0;
    for back in 0..32u32 {
        stations::cancel(gate, station, 32 - back);
        let found = gate.look(station).seats();
        if found < seats {
            lost.fetch_add(1, Ordering::SeqCst);
        }
        seats = found;
    }
}

// Each Station cancels the requests that wait, in a thread of its own.
fn cancel_all<K: Mark + Send + Sync, R: Threads + Sync>(
    rt: &R,
    gate: &Gate<Global>,
    round: &Round<K>,
    lost: &AtomicU64,
    stations: &mut [Station],
)
    requires requests { HasRequests gate.now.shape 33 }
    requires own { All (λ t. station_gate t ≡ gate.now) stations.old }
    ensures count { length stations.new ≡ length stations.old }
    ensures own { All (λ t. station_gate t ≡ gate.now) stations.new }
{
    thread::for_each_mut(
        rt,
        stations,
        2,
        &|place, station| cancel(gate, round, lost, place, station),
    );
}

// The requests that wait are dispatched in one thread, and cancelled in two others.
fn dispatch_beside_cancels<K: Mark + Send + Sync, R: Threads + Wait + Sync>(
    rt: &R,
    gate: &Gate<Global>,
    round: &Round<K>,
    lost: &AtomicU64,
    stations: &mut [Station],
)
    requires gate { gate.now ≡ K.gate }
    requires requests { HasRequests gate.now.shape 33 }
    requires own { All (λ t. station_gate t ≡ gate.now) stations.old }
    ensures count { length stations.new ≡ length stations.old }
    ensures own { All (λ t. station_gate t ≡ gate.now) stations.new }
{
    join_mut(
        rt,
        &mut ||
            requires { gate.now ≡ K.gate }
        { dispatch(rt, gate, round) },
        &mut ||
            requires { IsSync R.row × HasRequests gate.now.shape 33 × All (λ t. station_gate t ≡ gate.now) stations.now }
            ensures { (length stations.exit.now ≡ length stations.entry.now) × All (λ t. station_gate t ≡ gate.entry.now) stations.exit.now }
        { cancel_all(rt, gate, round, lost, stations) },
    );
}

// One round, judged. Tells the numbers of its log, and how many times a Station saw that a grant was lost.
fn round<K: Mark + Send + Sync, R: Threads + Wait + Abort + Sync>(
    rt: &R,
    alloc: Global,
    number: u32,
    config: Config,
    asks: &[Ask],
    opened: Opened<Global>,
) -> Result<(Stats, u64), Fault>
    requires gate { opened.0 ≡ K.gate }
    requires desk { (desk_gate opened.1 ≡ opened.0) × (opened.1.desk ≡ new_desk opened.1.desk.knows.shape) }
    requires shape { IsShape opened.0.shape × (length opened.0.shape.widths ≡ opened.0.shape.slots) × (opened.0.shape.response ≡ Queue) }
    requires widths { map (λ a. a.width) asks.now ≡ opened.0.shape.widths }
    requires passes { All (λ t. (pass_gate t ≡ opened.0) × (t.pass.state ≡ Fresh)) opened.2.items }
    requires stations { All (λ t. station_gate t ≡ opened.0) opened.3.items }
    requires count { (length opened.2.items ≡ length asks.now) × (length opened.3.items ≡ opened.0.shape.stations) }
    requires requests { 33 ≤ length asks.now }
{
    let (gate, desk, passes, mut stations) = opened;
    let mut requests = requests_of::<Global, K>(alloc, passes)?;
    let round = Round::<K>::new(number, 3, Book::new(alloc, &config, asks, desk)?);
    let lost = AtomicU64::new(0);
    enqueue_all(rt, &gate, &round, requests.as_mut_slice());
    dispatch_beside_cancels(rt, &gate, &round, &lost, stations.as_mut_slice());
    finish_all(&gate, requests.as_mut_slice());
    let book = round.into_book();
    let mut took = [false; 33];
    let passes = passes_of(alloc, requests, &mut took)?;
    let stats = book.stats();
    let (desk, log) = book.end();
    let words = gate.end(alloc, desk, passes, stations)?;
    let ended = Ended {
        config,
        asks,
        hands: &[0; 33],
        log: log.as_slice(),
        stats,
        took: &took,
    };
    judge(rt, alloc, &ended, &words)?;
    Ok((stats, lost.load(Ordering::SeqCst)))
}

fn open_round<R: Threads + Wait + Abort + Sync>(
    rt: &R,
    alloc: Global,
    number: u32,
    config: Config,
    asks: &[Ask],
) -> Result<(Stats, u64), Fault>
    requires { 33 ≤ length asks.now }
{
    let opened = open_gate(alloc, &config, asks, 2)?;
    round::<Brand, R>(rt, alloc, number, config, asks, opened)
}

// Each round is judged. Some requests are dispatched, some struck, and some grants are seen to be lost: on some machines one in a
// thousand rounds.
#[test]
fn grants_are_lost_to_cancels(rt: HostRuntime) -> Result<(), Fault> {
    let mut asks = [ask(1, 0); 33];
    asks[0] = ask(32, 0);
    let config = Config {
        queue_length_limit: 32,
        ..settings(32, 1)
    };
    let mut dispatched = 0u64;
    let mut struck = 0u64;
    let mut lost = 0u64;
    for number in 0..25 * MOST_ROUNDS {
        let (stats, seen) = open_round(&rt, rt.alloc(), number, config, &asks)?;
        is(&rt, stats.entered, 32);
        dispatched = dispatched.saturating_add(u64::from(stats.dispatched));
        struck = struck.saturating_add(u64::from(stats.struck));
        lost = lost.saturating_add(seen);
        if dispatched.min(struck).min(lost) >= ENOUGH {
            break;
        }
    }
    is_enough(&rt, dispatched, "dispatched");
    is_enough(&rt, struck, "struck");
    is_enough(&rt, lost, "lost");
    Ok(())
}
