//! The numbers of a level: who waits, who executes, and what was decided.

ghost use Rattle.std.specs.Prelude.{◌≡◌, ◌+◌, ◌^◌, ◌<◌, ◌≤◌};
ghost use Rattle.apf_service.specs.Tallies.{no_tally, counted as counted_as, started, queued, ended, left, finished, decided_in};

use apf_gate::Counts;
use apf_words::Decision;

/// How many requests there are and were, by what became of them.
#[derive(Clone, Copy, Debug, PartialEq, Eq)]
pub struct Tally {
    /// Those that were decided, by their decision.
    pub counts: Counts,
    /// Those that wait.
    pub waiting: u32,
    /// Those that execute.
    pub running: u32,
    /// The seats of those that execute.
    pub seats: u32,
}

// One more decision of this kind.
fn counted(counts: Counts, decision: Decision) -> Counts
    requires { decided_in counts < 2 ^ 63 }
    ensures { result ≡ counted_as decision counts }
{
    let mut counts = counts;
    match decision {
        Decision::Execute => counts.executed += 1,
        Decision::QueueFull => counts.queue_full += 1,
        Decision::Closed => counts.closed += 1,
        Decision::ConcurrencyLimit => counts.concurrency_limit += 1,
        Decision::Cancelled => counts.cancelled += 1,
    }
    counts
}

impl Tally {
    /// No request came yet.
    pub fn none() -> Tally
        ensures { result ≡ no_tally }
    {
        Tally {
            counts: Counts {
                executed: 0,
                queue_full: 0,
                closed: 0,
                concurrency_limit: 0,
                cancelled: 0,
            },
            waiting: 0,
            running: 0,
            seats: 0,
        }
    }

    /// A request of this width executes from now on.
    pub fn start(self, width: u32) -> Tally
        requires few { decided_in self.counts < 2 ^ 63 }
        requires some_run { self.running < 2 ^ 31 }
        requires seats { self.seats + width < 2 ^ 32 }
        ensures { result ≡ started width self }
    {
        Tally {
            counts: counted(self.counts, Decision::Execute),
            waiting: self.waiting,
            running: self.running + 1,
            seats: self.seats + width,
        }
    }

    /// One more waits.
    pub fn queue(self) -> Tally
        requires { self.waiting < 2 ^ 31 }
        ensures { result ≡ queued self }
    {
        Tally {
            counts: self.counts,
            waiting: self.waiting + 1,
            running: self.running,
            seats: self.seats,
        }
    }

    /// One more was decided so, and did not execute.
    pub fn end(self, decision: Decision) -> Tally
        requires { decided_in self.counts < 2 ^ 63 }
        ensures { result ≡ ended decision self }
    {
        Tally {
            counts: counted(self.counts, decision),
            waiting: self.waiting,
            running: self.running,
            seats: self.seats,
        }
    }

    /// One that waited does so no longer.
    pub fn leave(self) -> Tally
        requires { 1 ≤ self.waiting }
        ensures { result ≡ left self }
    {
        Tally {
            counts: self.counts,
            waiting: self.waiting - 1,
            running: self.running,
            seats: self.seats,
        }
    }

    /// A request of this width gave its seats back.
    pub fn finish(self, width: u32) -> Tally
        requires one { 1 ≤ self.running }
        requires seats { width ≤ self.seats }
        ensures { result ≡ finished width self }
    {
        Tally {
            counts: self.counts,
            waiting: self.waiting,
            running: self.running - 1,
            seats: self.seats - width,
        }
    }
}
