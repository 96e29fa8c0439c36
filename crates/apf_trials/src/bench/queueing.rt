//! What plain code asks of its queues.

use crate::bench::course::REQUESTS;
use crate::bench::scan::Scan;
use apf_checked::Checked;
use std::alloc::Global;

/// Queues that share seats fairly. Of them each answers the same.
pub trait Queueing: Drop {
    /// This many queues, all empty, or `None` if there was no memory.
    fn new(alloc: Global, queues: u32) -> Option<Self>;

    /// How many wait in the queue.
    fn len(&self, queue: u32) -> u32;

    /// Puts the request at the end of the queue.
    fn push(&mut self, queue: u32, request: u32, width: u32);

    /// Chooses and dispatches: the queue and the request.
    fn dispatch(&mut self) -> Option<(u32, u32)>;
}

impl Queueing for Scan {
    fn new(alloc: Global, queues: u32) -> Option<Scan> {
        Scan::new(alloc, queues, REQUESTS).ok()
    }

    fn len(&self, queue: u32) -> u32 {
        self.len(queue)
    }

    fn push(&mut self, queue: u32, request: u32, width: u32) {
        self.push(queue, request, width);
    }

    fn dispatch(&mut self) -> Option<(u32, u32)> {
        self.dispatch()
    }
}

// by a tree of finishes
impl Queueing for Checked {
    fn new(alloc: Global, queues: u32) -> Option<Checked> {
        Checked::new(alloc, queues, 50, REQUESTS).ok()
    }

    fn len(&self, queue: u32) -> u32 {
        self.len(queue).unwrap_or(0)
    }

    fn push(&mut self, queue: u32, request: u32, width: u32) {
        let _ = self.push(queue, request, width);
    }

    fn dispatch(&mut self) -> Option<(u32, u32)> {
        let chosen = self.dispatch()?;
        Some((chosen.queue, chosen.request))
    }
}
