//! Queues whose calls are made where their conditions are kept, and else answer `None`.

ghost use Rattle.std.specs.Prelude.{◌≡◌, length};

use apf_queue::{Chosen, Full, QueueFault, Queues};
use apf_words::MAX_WIDTH;
use std::alloc::Global;

/// Queues, with what a caller has to know of them.
#[derive(Drop)]
pub struct Checked {
    queues: Queues<Global>,
    queue_count: u32,
    request_count: u32,
    ghost one_list_each: { queue_count ≡ length queues.queues },
    ghost one_cost_each: { request_count ≡ length queues.costs },
}

impl Checked {
    /// Queues, all empty, for this many requests.
    ///
    /// # Errors
    ///
    /// As `Queues::new`.
    pub fn new(
        alloc: Global,
        queues: u32,
        length_limit: u32,
        requests: u32,
    ) -> Result<Checked, QueueFault> {
        Ok(Checked {
            queues: Queues::new(alloc, queues, length_limit, requests)?,
            queue_count: queues,
            request_count: requests,
        })
    }

    /// How many requests stand in the queue, if there is such a queue.
    pub fn len(&self, queue: u32) -> Option<u32> {
        if queue >= self.queue_count {
            return None;
        }
        Some(self.queues.len(queue))
    }

    /// The queue in which the request stands, if there is such a request.
    pub fn queue_of(&self, request: u32) -> Option<Option<u32>> {
        if request >= self.request_count {
            return None;
        }
        Some(self.queues.queue_of(request))
    }

    /// Pushes the request, if it stands in no queue and all is in range.
    pub fn push(&mut self, queue: u32, request: u32, cost: u32) -> Option<Result<(), Full>> {
        if queue >= self.queue_count || request >= self.request_count {
            return None;
        }
        if cost < 1 || cost > MAX_WIDTH {
            return None;
        }
        match self.queues.queue_of(request) {
            Some(_) => None,
            None => Some(self.queues.push(queue, request, cost)),
        }
    }

    /// Takes the request out, if there is such a request.
    pub fn remove(&mut self, request: u32) -> Option<Option<u32>> {
        if request >= self.request_count {
            return None;
        }
        Some(self.queues.remove(request))
    }

    /// The shortest queue of the hand, if these are queues and there is one.
    pub fn shortest(&self, hand: &[u32]) -> Option<u32> {
        if hand.is_empty() || !hand.iter().all(|q| *q < self.queue_count) {
            return None;
        }
        Some(self.queues.shortest(hand))
    }

    /// What is dispatched next.
    pub fn choose(&self) -> Option<Chosen> {
        self.queues.choose()
    }

    /// Dispatches what is dispatched next, if virtual time may go on in its queue.
    pub fn dispatch(&mut self) -> Option<Chosen> {
        let chosen = self.queues.choose()?;
        if !self.queues.has_time(chosen.queue) {
            return None;
        }
        self.queues.dispatch(chosen);
        Some(chosen)
    }
}
