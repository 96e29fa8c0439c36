//! Choose and dispatch, before and after.

use crate::bench::course::picos_each;
use crate::bench::scan::Scan;
use apf_checked::Checked;
use std::time::{Clock, Instant};

// How many requests wait at first, over all queues.
const REQUESTS: u32 = 9_216;

// A number of queues, of which each `stride`-th is busy.
#[derive(Clone, Copy)]
pub struct Shape {
    pub queues: u32,
    pub stride: u32,
}

impl Shape {
    // How many queues are busy.
    pub fn busy(self) -> u32 {
        (self.queues / self.stride.max(1)).max(1)
    }

    fn queue_of(self, request: u32) -> u32 {
        (request % self.busy().max(1)).wrapping_mul(self.stride)
    }

    // As many dispatches as leave a request in most busy queues to the end.
    fn dispatches(self) -> u32 {
        REQUESTS.saturating_sub(self.busy().wrapping_mul(2))
    }
}

// A width of 1 to 20 seats.
fn width_of(request: u32) -> u32 {
    1 + request.wrapping_mul(2_654_435_761) / 16 % 20
}

// How long a run took, in picoseconds a dispatch, and a number that depends on each of its answers.
#[derive(Clone, Copy)]
pub struct Run {
    pub picos: u64,
    pub answers: u64,
}

fn mixed(answers: u64, queue: u32, request: u32) -> u64 {
    answers
        .wrapping_mul(6_364_136_223_846_793_005)
        .wrapping_add(u64::from(queue).wrapping_mul(1_000_003))
        .wrapping_add(u64::from(request))
}

/// One run of the queues of `apf_queue`.
pub fn after(rt: &HostRuntime, shape: Shape) -> Option<Run> {
    let mut queues = Checked::new(rt.alloc(), shape.queues, 10_000, REQUESTS).ok()?;
    for request in 0..REQUESTS {
        let _ = queues.push(shape.queue_of(request), request, width_of(request));
    }
    let mut answers = 0;
    let start = Instant::now(rt).ok()?;
    for _ in 0..shape.dispatches() {
        let chosen = queues.dispatch()?;
        answers = mixed(answers, chosen.queue, chosen.request);
    }
    let picos = picos_each(rt, start, shape.dispatches())?;
    Some(Run { picos, answers })
}

/// One run of the scan that stood there before.
pub fn before(rt: &HostRuntime, shape: Shape) -> Option<Run> {
    let mut queues = Scan::new(rt.alloc(), shape.queues, REQUESTS).ok()?;
    for request in 0..REQUESTS {
        queues.push(shape.queue_of(request), request, width_of(request));
    }
    let mut answers = 0;
    let start = Instant::now(rt).ok()?;
    for _ in 0..shape.dispatches() {
        let (queue, request) = queues.dispatch()?;
        answers = mixed(answers, queue, request);
    }
    let picos = picos_each(rt, start, shape.dispatches())?;
    Some(Run { picos, answers })
}

/// The middle one of these.
pub fn median(mut taken: Vec<u64>) -> Option<u64> {
    taken.sort().ok()?;
    taken.get(taken.len() / 2).copied()
}
