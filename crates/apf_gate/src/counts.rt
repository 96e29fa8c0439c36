//! How many requests were decided so.

ghost use Rattle.std.specs.Prelude.{◌≡◌, ◌≤◌, ◌^◌};
ghost use Rattle.apf_gate.specs.Counted.{counted, counted_if, added, total};

use apf_words::Decision;

/// How many requests were decided so.
#[derive(Clone, Copy, Debug, Default, PartialEq, Eq)]
pub struct Counts {
    /// Executed.
    pub executed: u64,
    /// Rejected, as the queue was full.
    pub queue_full: u64,
    /// Rejected, as the level was closed.
    pub closed: u64,
    /// Rejected, as there was no room on a level without queues.
    pub concurrency_limit: u64,
    /// Cancelled.
    pub cancelled: u64,
}

impl Counts {
    /// No request.
    pub(crate) fn none() -> Counts
        ensures { result ≡ record { executed = 0; queue_full = 0; closed = 0; concurrency_limit = 0; cancelled = 0 } }
    {
        Counts {
            executed: 0,
            queue_full: 0,
            closed: 0,
            concurrency_limit: 0,
            cancelled: 0,
        }
    }

    // One decision more.
    fn add(&mut self, decision: Decision)
        requires few { total self.old ≤ 2 ^ 61 }
        ensures { self.new ≡ counted self.old decision }
    {
        match decision {
            Decision::Execute => self.executed += 1,
            Decision::QueueFull => self.queue_full += 1,
            Decision::Closed => self.closed += 1,
            Decision::Cancelled => self.cancelled += 1,
            Decision::ConcurrencyLimit => self.concurrency_limit += 1,
        }
    }

    /// And where one was found.
    pub(crate) fn add_found(&mut self, found: Option<Decision>)
        requires few { total self.old ≤ 2 ^ 61 }
        ensures { self.new ≡ counted_if self.old found }
    {
        if let Some(decision) = found {
            self.add(decision);
        }
    }

    /// All of another's.
    pub(crate) fn add_all(&mut self, other: Counts)
        requires few { total self.old ≤ 2 ^ 61 }
        requires few_more { total other ≤ 2 ^ 61 }
        ensures { self.new ≡ added self.old other }
    {
        self.executed += other.executed;
        self.queue_full += other.queue_full;
        self.closed += other.closed;
        self.concurrency_limit += other.concurrency_limit;
        self.cancelled += other.cancelled;
    }
}
