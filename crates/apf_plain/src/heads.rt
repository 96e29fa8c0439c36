//! The choice of the queue that is dispatched from next.

ghost use Rattle.std.specs.Prelude.{◌≡◌, ◌≢◌, ℕ, ◌+◌, ◌<◌, ◌≤◌, ◌^◌, List, [], length, slice_index, IfOk, MatchOption, IsTrue, ◌↔◌, ◌⊎◌};
ghost use Rattle.apf_history.specs.Numbered.{width};
ghost use Rattle.apf_history.specs.History.{NamesQueues, waiting};
ghost use Rattle.apf_history.specs.Fair.{Numbers as VirtualNumbers, numbers, finish, steps_round, IsChoice};
ghost use Rattle.apf_plain.specs.Histories.{IsBestBelow};

use crate::{Numbers, numbers_of, waiting};
use apf_model::Event;
use std::alloc::{AllocError, Global};

// A queue that is not empty: its virtual finish, and how far it is counting round from the queue
// after the robin.
#[derive(Clone, Copy)]
pub struct Head {
    queue: u32,
    finish: u64,
    steps: u64,
}

impl Head {
    fn is_before(self, other: Head) -> bool
        ensures { IsTrue result ↔ ((self.finish < other.finish)
            ⊎ ((self.finish ≡ other.finish) × (self.steps < other.steps))) }
    {
        self.finish < other.finish || (self.finish == other.finish && self.steps < other.steps)
    }
}

// The virtual finish of a queue, or `None` if it is empty.
fn finish_of(
    alloc: Global,
    widths: &[u32],
    history: &[Event],
    numbers: &Numbers,
    queue: u32,
) -> Result<Option<u64>, AllocError>
    requires is_queue { queue < length numbers.now.next.items }
    requires small { (q : ℕ) → slice_index numbers.now.next.items q ≤ 2 ^ 52 }
    ensures { IfOk result (λ o. MatchOption o (waiting history.now queue ≡ []) (λ f. (waiting history.now queue ≢ [])
        × (f ≡ slice_index numbers.now.next.items queue + width widths.now (slice_index (waiting history.now queue) 0)))) }
{
    let requests = waiting(alloc, history, queue)?;
    let Some(first) = requests.first() else {
        return Ok(None);
    };
    let width = widths.get(*first as usize).copied().unwrap_or(0);
    Ok(Some(numbers.next[queue as usize] + u64::from(width)))
}

// How far the queue is when counting round from the queue after the robin.
fn steps_to(queues: u32, robin: u32, queue: u32) -> u64
    requires { 0 < queues }
    ensures { result ≡ steps_round queues robin queue }
{
    let queues = u64::from(queues);
    (u64::from(queue) + queues).saturating_sub(u64::from(robin) + 1) % queues
}

// The better of the best queue so far and this one.
fn better(best: Option<Head>, head: Head) -> Option<Head>
    ensures { (queues i : ℕ) (widths : List ℕ) (queue : ℕ → List ℕ) (v : VirtualNumbers)
        → IsBestBelow queues widths queue v i best → head.queue ≡ i → queue i ≢ []
        → head.finish ≡ finish widths queue v i → head.steps ≡ steps_round queues v.robin i
        → IsBestBelow queues widths queue v (i + 1) result }
{
    match best {
        Some(other) if !head.is_before(other) => Some(other),
        _ => Some(head),
    }
}

/// The queue that is dispatched from next: among those that are not empty and have the least virtual
/// finish, the one reached first when counting round from the queue after the robin. `None` exactly
/// if nothing waits.
pub fn choice(
    alloc: Global,
    queues: u32,
    widths: &[u32],
    history: &[Event],
) -> Result<Option<u32>, AllocError>
    requires names_queues { NamesQueues queues history.now }
    requires short { length history.now < 2 ^ 20 }
    ensures { IfOk result (λ o. MatchOption o ((q : ℕ) → q < queues → waiting history.now q ≡ [])
        (IsChoice queues widths.now (waiting history.now) (numbers queues widths.now history.now))) }
{
    let numbers = numbers_of(alloc, queues, widths, history)?;
    let mut best: Option<Head> = None;
    for queue in 0..queues {
        if let Some(finish) = finish_of(alloc, widths, history, &numbers, queue)? {
            let steps = steps_to(queues, numbers.robin, queue);
            best = better(
                best,
                Head {
                    queue,
                    finish,
                    steps,
                },
            );
        }
    }
    Ok(best.map(|head| head.queue))
}
