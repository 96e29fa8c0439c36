//! The requests of a level for life on a level that is one plain value: two slots in turn.

ghost use Rattle.std.specs.Prelude.{◌≡◌};

use crate::bench::course::{REQUESTS, picos_each};
use crate::bench::life::{Traffic, is_report};
use crate::bench::shuffle::Shuffle;
use apf_local::{Answer, Ask, LocalLevel, Place};
use std::alloc::Global;
use std::time::{Clock, Instant};

// What the request of this number asks for.
fn asked(shuffle: Shuffle, number: u32) -> Ask
    ensures width { result.width ≡ 1 }
    ensures cost { result.cost ≡ 1 }
{
    let ask = shuffle.ask(number);
    Ask {
        width: ask.width,
        hash: ask.hash,
        cost: 1,
    }
}

// The request takes its seat at once, and gives it back. Says whether it did so.
fn visit(level: &mut LocalLevel, ask: Ask) -> bool
    requires width { ask.width ≡ 1 }
    requires cost { ask.cost ≡ 1 }
{
    if level.slots() == 0 || level.arrive(0, ask).0 != Answer::Run {
        return false;
    }
    level.slots() != 0 && level.finish(0) == Answer::Released
}

// The request of the slot waits until the one of the other slot has given its seat back, and is dispatched. Says whether
// it did so.
fn follow(level: &mut LocalLevel, slot: usize, before: usize, ask: Ask) -> bool
    requires width { ask.width ≡ 1 }
    requires cost { ask.cost ≡ 1 }
{
    if slot >= level.slots() || level.arrive(slot, ask).0 != Answer::Waits {
        return false;
    }
    if before >= level.slots() || level.finish(before) != Answer::Released {
        return false;
    }
    slot < level.slots() && level.place(slot) == Place::Runs
}

// Each request takes its seat at once.
fn serve_room(level: &mut LocalLevel, shuffle: Shuffle) -> bool {
    for number in 0..REQUESTS {
        if !visit(level, asked(shuffle, number)) {
            return false;
        }
    }
    true
}

// Each request but the first waits behind the one before it.
fn serve_line(level: &mut LocalLevel, shuffle: Shuffle) -> bool {
    if level.slots() == 0 || level.arrive(0, asked(shuffle, 0)).0 != Answer::Run {
        return false;
    }
    for number in 1..REQUESTS {
        let ask = asked(shuffle, number);
        let follows = if number % 2 == 0 {
            follow(level, 0, 1, ask)
        } else {
            follow(level, 1, 0, ask)
        };
        if !follows {
            return false;
        }
    }
    // the number of requests is even
    1 < level.slots() && level.finish(1) == Answer::Released
}

// Serves the requests. Tells how long one took, in picoseconds, or `None` if one did not do as it should.
fn play<R: Clock>(
    rt: &R,
    level: &mut LocalLevel,
    traffic: Traffic,
    shuffle: Shuffle,
) -> Option<u64> {
    let start = Instant::now(rt).ok()?;
    let serves = match traffic {
        Traffic::Room => serve_room(level, shuffle),
        Traffic::Line => serve_line(level, shuffle),
    };
    if !serves {
        return None;
    }
    picos_each(rt, start, REQUESTS)
}

/// How long a request takes by the calls of a level that is one plain value, in picoseconds: `None` if there was no memory
/// or clock, or its answers are not those that are expected.
pub fn by_local<R: Clock>(
    rt: &R,
    alloc: Global,
    traffic: Traffic,
    shuffle: Shuffle,
) -> Option<u64> {
    let mut level = LocalLevel::open(alloc, &shuffle.config(), 2).ok()?;
    let picos = play(rt, &mut level, traffic, shuffle);
    let report = level.end(alloc).ok()?;
    if !is_report(traffic, &report) {
        return None;
    }
    picos
}
