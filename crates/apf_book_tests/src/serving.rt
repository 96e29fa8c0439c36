//! Four threads run requests through a book under a lock, while two others cancel.

ghost use denote.Param.Send.{IsSync};
ghost use Rattle.std.specs.Prelude.{◌≡◌, ◌≤◌, length, map, All, IfOk};
ghost use Rattle.apf_model.specs.declared.response.Response.TheVariants.{Queue};
ghost use Rattle.apf_gate.specs.declared.record.State.TheVariants.{Fresh};
ghost use Rattle.apf_gate.specs.Gauges.{IsShape};
ghost use Rattle.apf_gate.specs.Records.{new_desk};
ghost use Rattle.apf_gate.specs.Tokens.{pass_gate, desk_gate, station_gate};
ghost use Rattle.apf_book_tests.specs.Batches.{HasRequests};

use crate::asserts::is_enough;
use crate::judging::{Ended, judge};
use crate::marks::Mark;
use crate::opening::{Fault, ask, open_gate, passes_of, requests_of};
use crate::requests::Request;
use crate::scripts::settings;
use crate::shared::Round;
use crate::stations;
use apf_book::{Ask, Book, Config, Stats};
use apf_gate::{Gate, Opened, Station};
use apf_rounds::{ENOUGH, MOST_ROUNDS, pass_time, turns};
use apf_words::Decision;
use std::alloc::Global;
use std::marker::Brand;
use std::process::Abort;
use std::sync::Wait;
use std::thread;
use std::thread::{Threads, join_mut};

// Runs the request at its own time. The first of each thread waits for the others.
fn serve<K: Mark, R: Wait>(
    rt: &R,
    gate: &Gate<Global>,
    round: &Round<K>,
    place: usize,
    request: &mut Request<K>,
)
    requires { gate.now ≡ K.gate }
{
    if place % 3 == 0 {
        round.start.wait_for(round.threads);
    }
    pass_time(turns(round.number, place) / 4);
    round.serve(rt, gate, request);
}

// Runs each request, in four threads.
fn serve_all<K: Mark + Send + Sync, R: Threads + Wait + Sync>(
    rt: &R,
    gate: &Gate<Global>,
    round: &Round<K>,
    requests: &mut [Request<K>],
)
    requires { gate.now ≡ K.gate }
    ensures { length requests.new ≡ length requests.old }
{
    thread::for_each_mut(
        rt,
        requests,
        4,
        &|place, request| serve(rt, gate, round, place, request),
    );
}

// A Station cancels every other request, each at its own time, and strikes it where it waits.
fn cancel<K: Mark, R: Wait>(
    rt: &R,
    gate: &Gate<Global>,
    round: &Round<K>,
    place: usize,
    station: &mut Station,
)
    requires gate { gate.now ≡ K.gate }
    requires own { station_gate station.old ≡ gate.now }
    requires requests { HasRequests gate.now.shape 12 }
    ensures { station_gate station.new ≡ gate.now }
{
    round.start.wait_for(round.threads);
    let own = if place == 0 { 1 } else { 3 };
    for request in 0..12u32 {
        if request % 4 == own {
            pass_time(turns(round.number, 20 + request as usize));
            if stations::cancel(gate, station, request) == Decision::Cancelled {
                round.book.lock(rt).strike(rt, gate, request);
            }
        }
    }
}

// Each Station cancels requests, in a thread of its own.
fn cancel_all<K: Mark + Send + Sync, R: Threads + Wait + Sync>(
    rt: &R,
    gate: &Gate<Global>,
    round: &Round<K>,
    stations: &mut [Station],
)
    requires gate { gate.now ≡ K.gate }
    requires requests { HasRequests gate.now.shape 12 }
    requires own { All (λ t. station_gate t ≡ gate.now) stations.old }
    ensures count { length stations.new ≡ length stations.old }
    ensures own { All (λ t. station_gate t ≡ gate.now) stations.new }
{
    thread::for_each_mut(
        rt,
        stations,
        2,
        &|place, station| cancel(rt, gate, round, place, station),
    );
}

// The requests are run, while Stations cancel some.
fn serve_beside_cancels<K: Mark + Send + Sync, R: Threads + Wait + Sync>(
    rt: &R,
    gate: &Gate<Global>,
    round: &Round<K>,
    requests: &mut [Request<K>],
    stations: &mut [Station],
)
    requires gate { gate.now ≡ K.gate }
    requires requests { HasRequests gate.now.shape 12 }
    requires own { All (λ t. station_gate t ≡ gate.now) stations.old }
    ensures count { (length requests.new ≡ length requests.old) × (length stations.new ≡ length stations.old) }
    ensures own { All (λ t. station_gate t ≡ gate.now) stations.new }
{
    join_mut(
        rt,
        &mut ||
            requires { IsSync R.row × (gate.now ≡ K.gate) }
            ensures { length requests.exit.now ≡ length requests.entry.now }
        { serve_all(rt, gate, round, requests) },
        &mut ||
            requires { IsSync R.row × (gate.now ≡ K.gate) × HasRequests gate.now.shape 12 × All (λ t. station_gate t ≡ gate.now) stations.now }
            ensures { (length stations.exit.now ≡ length stations.entry.now) × All (λ t. station_gate t ≡ gate.entry.now) stations.exit.now }
        { cancel_all(rt, gate, round, stations) },
    );
}

// What a level is opened with: 12 requests of two flows, one or two seats wide, for one seat and two queues with
// room for one request each.
#[derive(Clone, Copy)]
struct Setting<'a> {
    config: Config,
    asks: &'a [Ask],
    hands: &'a [u32],
}

// One round, judged. Tells the numbers of its log, and how many requests took their seats on arrival.
fn round<K: Mark + Send + Sync, R: Threads + Wait + Abort + Sync>(
    rt: &R,
    alloc: Global,
    number: u32,
    setting: &Setting<'_>,
    opened: Opened<Global>,
) -> Result<(Stats, u32), Fault>
    requires gate { opened.0 ≡ K.gate }
    requires desk { (desk_gate opened.1 ≡ opened.0) × (opened.1.desk ≡ new_desk opened.1.desk.knows.shape) }
    requires shape { IsShape opened.0.shape × (length opened.0.shape.widths ≡ opened.0.shape.slots) × (opened.0.shape.response ≡ Queue) }
    requires widths { map (λ a. a.width) setting.now.asks.now ≡ opened.0.shape.widths }
    requires passes { All (λ t. (pass_gate t ≡ opened.0) × (t.pass.state ≡ Fresh)) opened.2.items }
    requires stations { All (λ t. station_gate t ≡ opened.0) opened.3.items }
    requires count { (length opened.2.items ≡ length setting.now.asks.now) × (length opened.3.items ≡ opened.0.shape.stations) }
    requires requests { 12 ≤ length setting.now.asks.now }
{
    let (gate, desk, passes, mut stations) = opened;
    let mut requests = requests_of::<Global, K>(alloc, passes)?;
    let book = Book::new(alloc, &setting.config, setting.asks, desk)?;
    let round = Round::<K>::new(number, 6, book);
    serve_beside_cancels(
        rt,
        &gate,
        &round,
        requests.as_mut_slice(),
        stations.as_mut_slice(),
    );
    let book = round.into_book();
    let mut took = [false; 12];
    let passes = passes_of(alloc, requests, &mut took)?;
    let stats = book.stats();
    let (desk, log) = book.end();
    let words = gate.end(alloc, desk, passes, stations)?;
    let ended = Ended {
        config: setting.config,
        asks: setting.asks,
        hands: setting.hands,
        log: log.as_slice(),
        stats,
        took: &took,
    };
    judge(rt, alloc, &ended, &words)?;
    let took = took.iter().filter(|took| **took).count();
    Ok((stats, took as u32))
}

fn open_round<R: Threads + Wait + Abort + Sync>(
    rt: &R,
    alloc: Global,
    number: u32,
    setting: &Setting<'_>,
) -> Result<(Stats, u32), Fault>
    requires { 12 ≤ length setting.now.asks.now }
{
    let opened = open_gate(alloc, &setting.config, setting.asks, 2)?;
    round::<Brand, R>(rt, alloc, number, setting, opened)
}

// Each round is judged. Requests take their seats on arrival, are dispatched, struck, and rejected at a full queue.
#[test]
fn four_threads_while_two_cancel(rt: HostRuntime) -> Result<(), Fault> {
    let setting = Setting {
        config: Config {
            hand_size: 2,
            queue_length_limit: 1,
            ..settings(1, 2)
        },
        asks: &[
            ask(1, 0),
            ask(1, 1),
            ask(2, 0),
            ask(1, 1),
            ask(1, 0),
            ask(2, 1),
            ask(1, 0),
            ask(1, 1),
            ask(2, 0),
            ask(1, 1),
            ask(1, 0),
            ask(2, 1),
        ],
        // The first card is the remainder of the hash by 2, the second the other one.
        hands: &[
            0, 1, 1, 0, 0, 1, 1, 0, 0, 1, 1, 0, 0, 1, 1, 0, 0, 1, 1, 0, 0, 1, 1, 0,
        ],
    };
    let mut dispatched = 0u64;
    let mut struck = 0u64;
    let mut full = 0u64;
    let mut taken = 0u64;
    for number in 0..MOST_ROUNDS {
        let (stats, took) = open_round(&rt, rt.alloc(), number, &setting)?;
        dispatched = dispatched.saturating_add(u64::from(stats.dispatched));
        struck = struck.saturating_add(u64::from(stats.struck));
        full = full.saturating_add(u64::from(stats.full));
        taken = taken.saturating_add(u64::from(took));
        if number >= 200 && dispatched.min(struck).min(full).min(taken) >= ENOUGH {
            break;
        }
    }
    is_enough(&rt, dispatched, "dispatched");
    is_enough(&rt, struck, "struck");
    is_enough(&rt, full, "full");
    is_enough(&rt, taken, "taken");
    Ok(())
}
