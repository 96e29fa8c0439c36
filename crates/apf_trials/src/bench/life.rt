//! Requests that take their seats at once, or wait in line one after another, on a level whose slots are used again: two
//! slots in turn.

ghost use Rattle.std.specs.Prelude.{◌≡◌, length};
ghost use Rattle.apf_session.specs.LifeOpenings.{level_of};

use crate::bench::course::{REQUESTS, picos_each};
use crate::bench::shuffle::Shuffle;
use apf_level::life::{Level, Naming, Report};
use apf_model::Ask;
use apf_session::life::{Answer, Opening, Request, Session};
use std::alloc::Global;
use std::fmt;
use std::marker::Brand;
use std::sync::Wait;
use std::time::{Clock, Instant};

/// How the requests come.
#[derive(Clone, Copy, Debug, PartialEq, Eq)]
pub enum Traffic {
    /// Each takes its seats at once.
    Room,
    /// Each but the first waits behind the one before it.
    Line,
}

impl fmt::Display for Traffic {
    fn fmt<W: fmt::Write>(&self, f: &mut fmt::Formatter<W>) -> fmt::Result {
        f.write_str(match self {
            Traffic::Room => "with room",
            Traffic::Line => "in line",
        })
    }
}

/// Whether the report is that of a level on which each request executed, and those waited before that should.
pub fn is_report(traffic: Traffic, report: &Report) -> bool {
    let waited = match traffic {
        Traffic::Room => 0,
        Traffic::Line => u64::from(REQUESTS - 1),
    };
    let counts = report.words.counts();
    let stats = report.newest.stats;
    counts.executed == u64::from(REQUESTS) && stats.entered == waited && stats.dispatched == waited
}

// The request waits until the one before it has given its seat back, and is dispatched. Says whether it did so.
fn follow<K: Naming, R: Wait>(
    rt: &R,
    level: &Level<K>,
    request: &mut Request<K>,
    before: &mut Request<K>,
    ask: Ask,
) -> bool
    requires { ask.width ≡ 1 }
{
    let answer = request.arrive(rt, level, ask);
    if answer != Answer::Waits {
        return false;
    }
    if before.finish(rt, level) != Answer::Released(true) {
        return false;
    }
    request.poll(rt, level) == Answer::Run
}

// Serves the requests, each of which takes its seat at once. Says whether each did as it should.
fn serve_room<K: Naming, R: Wait>(
    rt: &R,
    level: &Level<K>,
    slots: &mut [Request<K>],
    shuffle: Shuffle,
) -> bool
    ensures { length slots.new ≡ length slots.old }
{
    let [even, _odd] = slots else {
        return false;
    };
    for number in 0..REQUESTS {
        if even.arrive(rt, level, shuffle.ask(number)) != Answer::Run {
            return false;
        }
        if even.finish(rt, level) != Answer::Released(false) {
            return false;
        }
    }
    true
}

// Serves the requests, each behind the one before it. Says whether each did as it should.
fn serve_line<K: Naming, R: Wait>(
    rt: &R,
    level: &Level<K>,
    slots: &mut [Request<K>],
    shuffle: Shuffle,
) -> bool
    ensures { length slots.new ≡ length slots.old }
{
    let [even, odd] = slots else {
        return false;
    };
    if even.arrive(rt, level, shuffle.ask(0)) != Answer::Run {
        return false;
    }
    for number in 1..REQUESTS {
        let ask = shuffle.ask(number);
        let follows = if number % 2 == 0 {
            follow(rt, level, even, odd, ask)
        } else {
            follow(rt, level, odd, even, ask)
        };
        if !follows {
            return false;
        }
    }
    // the number of requests is even
    odd.finish(rt, level) == Answer::Released(false)
}

// Serves the requests. Tells how long one took, in picoseconds, or `None` if one did not do as it should.
fn play<K: Naming, R: Clock + Wait>(
    rt: &R,
    session: &mut Session<K>,
    traffic: Traffic,
    shuffle: Shuffle,
) -> Option<u64> {
    let start = Instant::now(rt).ok()?;
    let slots = session.slots.as_mut_slice();
    let serves = match traffic {
        Traffic::Room => serve_room(rt, &session.level, slots, shuffle),
        Traffic::Line => serve_line(rt, &session.level, slots, shuffle),
    };
    if !serves {
        return None;
    }
    picos_each(rt, start, REQUESTS)
}

fn run_named<K: Naming, R: Clock + Wait>(
    rt: &R,
    alloc: Global,
    opening: Opening,
    traffic: Traffic,
    shuffle: Shuffle,
) -> Option<u64>
    requires { K.level ≡ level_of opening.gate opening.config }
{
    let mut session = Session::<K>::open_for_life(rt, alloc, opening).ok()?;
    let picos = play(rt, &mut session, traffic, shuffle);
    let report = session.end(rt, alloc).ok()?;
    if !is_report(traffic, &report) {
        return None;
    }
    picos
}

/// How long a request takes by the calls of a level for life, in picoseconds: `None` if there was no memory or clock, or
/// its answers are not those that are expected.
pub fn by_life<R: Clock + Wait>(
    rt: &R,
    alloc: Global,
    traffic: Traffic,
    shuffle: Shuffle,
) -> Option<u64> {
    let opening = Opening::new(alloc, &shuffle.config(), 2, 0).ok()?;
    run_named::<Brand, R>(rt, alloc, opening, traffic, shuffle)
}
