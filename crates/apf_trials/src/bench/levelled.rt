//! Requests that take seats, execute and give them back, by a level's calls.

ghost use Rattle.std.specs.Prelude.{◌≡◌, length};

use crate::bench::course::{Callers, Course};
use apf_level::{Level, Naming};
use apf_session::{Answer, Request};
use std::sync::Wait;
use std::thread;
use std::thread::Threads;
use std::time::Clock;

// Serves a request for which there is room, in at most this many turns.
fn serve<K: Naming, R: Wait>(rt: &R, course: &Course, level: &Level<K>, request: &mut Request<K>) {
    for _turn in 0..1_000_000u32 {
        let (answer, owes) = request.try_admit(level);
        level.dispatch_if_owed(rt, owes);
        if answer != Answer::Busy {
            break;
        }
        course.wait();
    }
    // of one that found no room in these turns it answers Wrong
    let _ = request.finish(rt, level);
}

fn serve_timed<K: Naming, R: Clock + Wait>(
    rt: &R,
    course: &Course,
    level: &Level<K>,
    number: usize,
    request: &mut Request<K>,
) {
    course.begin(rt, number);
    serve(rt, course, level, request);
    course.end(rt, number);
}

/// Serves the requests, each of which has room, by these callers.
pub fn serve_all<K: Naming, R: Threads + Clock + Wait + Sync>(
    rt: &R,
    course: &Course,
    level: &Level<K>,
    requests: &mut [Request<K>],
    callers: Callers,
)
    ensures { length requests.new ≡ length requests.old }
{
    thread::for_each_mut(
        rt,
        requests,
        callers.threads.max(1) as usize,
        &|number, request| serve_timed(rt, course, level, number, request),
    );
}
