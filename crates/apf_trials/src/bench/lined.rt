//! Requests that wait in line one after another, by a level's calls.

ghost use Rattle.std.specs.Prelude.{◌≡◌, length};

use apf_level::{Level, Naming};
use apf_session::{Answer, Request};
use std::sync::Wait;

// The request was dispatched, and reads that it executes.
fn run<K: Naming, R: Wait>(rt: &R, level: &Level<K>, request: &mut Request<K>) {
    for _turn in rt.forever() {
        if request.poll(rt, level) != Answer::Waits {
            return;
        }
        level.lock(rt).dispatch(rt);
    }
}

/// Serves the requests on a level with room for one. Each waits until the one before it has given its seat back, is
/// dispatched, and executes.
pub fn serve_line<K: Naming, R: Wait>(rt: &R, level: &Level<K>, requests: &mut [Request<K>])
    ensures { length requests.new ≡ length requests.old }
{
    if requests.is_empty() {
        return;
    }
    // the first one executes, and each one behind it waits
    let _ = requests[0].begin(rt, level);
    for place in 1..requests.len() {
        let _ = requests[place].begin(rt, level);
        let _ = requests[place - 1].finish(rt, level);
        run(rt, level, &mut requests[place]);
    }
    let _ = requests[requests.len() - 1].finish(rt, level);
}
