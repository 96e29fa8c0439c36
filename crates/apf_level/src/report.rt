//! What the end of a level tells.

ghost use Rattle.std.specs.Prelude.{◌≡◌, ◌≢◌, ◌+◌, ◌<◌, ◌≤◌, ℕ, length, slice_get, None, IfOk};
ghost use Rattle.apf_words.specs.Limits.{max_requests};
ghost use Rattle.apf_book.specs.Laws.{decision_in};
ghost use Rattle.apf_level.specs.Reports.{counted, AreSums};

use apf_book::Stats;
use apf_gate::Words;
use apf_model::Event;
use apf_words::{Decision, LevelWord};
use std::alloc::{AllocError, Global};

/// How many requests are decided so. They sum to the number of requests.
#[derive(Clone, Copy, Debug, Default, PartialEq, Eq)]
pub struct Counts {
    /// Executed.
    pub executed: u32,
    /// Rejected, as the queue was full.
    pub queue_full: u32,
    /// Rejected, as the level was closed.
    pub closed: u32,
    /// Rejected, as there was no room on a level without queues.
    pub concurrency_limit: u32,
    /// Cancelled.
    pub cancelled: u32,
}

/// What a level's words, its log and its numbers said when it ended.
#[derive(Drop)]
pub struct Report {
    /// The level word: no seat is taken, and nobody waits.
    pub word: LevelWord,
    /// The decision of each request, in the order of their numbers.
    pub decisions: Vec<Decision>,
    /// The log, the oldest event first. It is empty on a level without queues.
    pub log: Vec<Event>,
    /// The numbers of the log.
    pub stats: Stats,
    /// The numbers of the decisions.
    pub counts: Counts,
}

impl Counts {
    // One decision more.
    fn add(&mut self, decision: Decision)
        requires few { self.old.executed + self.old.queue_full + self.old.closed + self.old.concurrency_limit + self.old.cancelled ≤ max_requests }
        ensures { self.new ≡ counted self.old decision }
    {
        match decision {
            Decision::Execute => self.executed += 1,
            Decision::QueueFull => self.queue_full += 1,
            Decision::Closed => self.closed += 1,
            Decision::Cancelled => self.cancelled += 1,
            Decision::ConcurrencyLimit => self.concurrency_limit += 1,
        }
    }
}

/// The decisions that the words say, and their numbers.
pub fn read(
    alloc: Global,
    words: &Words<Global>,
    count: u32,
) -> Result<(Vec<Decision>, Counts), AllocError>
    requires count { count ≡ length words.now.decisions }
    requires few { count ≤ max_requests }
    requires decided { (r : ℕ) → r < count → decision_in words.now r ≢ None }
    ensures count { IfOk result (λ o. length o.0.items ≡ count) }
    ensures decisions { IfOk result (λ o. (r : ℕ) → slice_get o.0.items r ≡ decision_in words.now r) }
    ensures sums { IfOk result (λ o. AreSums o.1 (decision_in words.now) count) }
{
    let mut decisions = Vec::with_capacity(alloc, count as usize)?;
    let mut counts = Counts {
        executed: 0,
        queue_full: 0,
        closed: 0,
        concurrency_limit: 0,
        cancelled: 0,
    };
    for request in 0..count {
        let Some(decision) = words.decision(request) else {
            unreachable!()
        };
        decisions.push(decision)?;
        counts.add(decision);
    }
    Ok((decisions, counts))
}
