//! Readings of what was published.

ghost use denote.Param.Send.{IsSync};
ghost use Rattle.std.specs.Prelude.{◌≡◌};
ghost use Rattle.apf_stats.specs.Numbers.{nothing};
ghost use Rattle.apf_stats.specs.Traces.{shown};

use apf_stats::{Board, Stats, StatsPass, Window, open};
use std::sync::Wait;
use std::thread::{Threads, join_mut};

// How many times the numbers are published and read.
const TIMES: u32 = 10_000;

#[test]
fn nothing_happened(rt: HostRuntime) {
    let Ok((_board, window, mut pass)) = open(rt.alloc()) else {
        panic!(rt; "no memory")
    };
    let nothing = Stats {
        entered: 0,
        dispatched: 0,
        struck: 0,
        full: 0,
        waiting: 0,
    };
    assert_eq!(rt; window.stats(&rt, &mut pass), nothing);
}

// Stats of which as many wait as this says.
fn stats(entered: u32, dispatched: u32, struck: u32, full: u32, waiting: u32) -> Stats
    ensures entered { result.entered ≡ entered }
    ensures dispatched { result.dispatched ≡ dispatched }
    ensures struck { result.struck ≡ struck }
    ensures full { result.full ≡ full }
{
    Stats {
        entered,
        dispatched,
        struck,
        full,
        waiting,
    }
}

#[test]
fn what_was_published(rt: HostRuntime) {
    let Ok((mut board, window, mut pass)) = open(rt.alloc()) else {
        panic!(rt; "no memory")
    };
    board.publish(&rt, stats(2, 0, 0, 0, 2));
    assert_eq!(rt; window.stats(&rt, &mut pass), stats(2, 0, 0, 0, 2));
    board.publish(&rt, stats(2, 1, 1, 3, 0));
    assert_eq!(rt; window.stats(&rt, &mut pass), stats(2, 1, 1, 3, 0));
    assert_eq!(rt; window.stats(&rt, &mut pass), stats(2, 1, 1, 3, 0));
}

// The numbers after this many requests, each of which entered and was struck at once.
fn all_struck(requests: u32) -> Stats
    ensures entered { result.entered ≡ requests }
    ensures dispatched { result.dispatched ≡ 0 }
    ensures struck { result.struck ≡ requests }
    ensures full { result.full ≡ 0 }
{
    stats(requests, 0, requests, 0, 0)
}

fn publish_all<R: Wait>(rt: &R, board: &mut Board)
    requires { shown board.old.trace ≡ nothing }
{
    for requests in 0..TIMES {
        board.publish(rt, all_struck(requests));
    }
}

// Whether each reading says that nobody waits, and none goes back.
fn read_all<R: Wait>(rt: &R, window: &Window, pass: &mut StatsPass) -> bool
    requires { pass.old.cell ≡ window.now }
    ensures { pass.new.cell ≡ window.now }
{
    let mut last = 0;
    let mut is_well = true;
    for _turn in 0..TIMES {
        let stats = window.stats(rt, pass);
        is_well = is_well && last <= stats.entered && stats.struck == stats.entered;
        last = stats.entered;
    }
    is_well
}

fn read_beside_writer<R: Threads + Wait + Sync>(
    rt: &R,
    window: &Window,
    pass: &mut StatsPass,
    board: &mut Board,
) -> bool
    requires own { pass.old.cell ≡ window.now }
    requires shown { shown board.old.trace ≡ nothing }
    ensures { pass.new.cell ≡ window.now }
{
    let (is_well, _) = join_mut(
        rt,
        &mut || read_all(rt, window, pass),
        &mut || publish_all(rt, board),
    );
    is_well
}

#[test]
fn readings_beside_the_writer(rt: HostRuntime) {
    let Ok((mut board, window, mut pass)) = open(rt.alloc()) else {
        panic!(rt; "no memory")
    };
    assert!(rt; read_beside_writer(&rt, &window, &mut pass, &mut board));
    assert_eq!(rt; window.stats(&rt, &mut pass), all_struck(TIMES - 1));
}
