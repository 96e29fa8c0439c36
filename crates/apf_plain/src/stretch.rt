//! The service of a queue in a stretch of a history, which is the newest events of it.

ghost use Rattle.std.specs.Prelude.{◌≡◌, ◌*◌, ◌<◌, ◌≤◌, ◌^◌, ◌↔◌, length, IfOk, IsTrue};
ghost use Rattle.apf_history.specs.Fair.{service, IsNeverEmpty};

use crate::waiting;
use apf_model::Event;
use std::alloc::{AllocError, Global};

/// The service of the queue in a stretch, in seats: the sum of the widths dispatched from it.
pub fn service(widths: &[u32], stretch: &[Event], queue: u32) -> u64
    requires { length stretch.now < 2 ^ 20 }
    ensures value { result ≡ service widths.now stretch.now queue }
    ensures small { result ≤ 2 ^ 32 * length stretch.now }
{
    let Some((newest, before)) = stretch.split_first() else {
        return 0;
    };
    let served = service(widths, before, queue);
    match *newest {
        Event::Dispatch(request, from) if from == queue => {
            served + u64::from(widths.get(request as usize).copied().unwrap_or(0))
        }
        _ => served,
    }
}

/// Whether the queue is never empty in the newest `stretch` events of the history: someone waits in
/// it at each place, both ends included.
pub fn is_never_empty(
    alloc: Global,
    history: &[Event],
    stretch: usize,
    queue: u32,
) -> Result<bool, AllocError>
    requires { stretch ≤ length history.now }
    ensures { IfOk result (λ b. IsTrue b ↔ IsNeverEmpty history.now stretch queue) }
{
    for newer in 0..=stretch {
        if waiting(alloc, &history[newer..], queue)?.is_empty() {
            return Ok(false);
        }
    }
    Ok(true)
}
