//! Counts and sums of requests.

ghost use Rattle.std.specs.Prelude.{◌≡◌, ◌+◌, ◌-◌, ◌^◌, ◌<◌, ◌≤◌};
ghost use Rattle.apf_times.specs.Limits.{max_wait};
ghost use Rattle.apf_rows.specs.Accounts.{AreBounded, IsInReach, cancels, executes, long_of, rejects, seat_time_of, with_one};
ghost use Rattle.apf_stream.specs.Waits.{wait_of};

use apf_stream::Ended;
use apf_words::Decision;

/// Counts and sums of requests. Times are microseconds.
#[derive(Clone, Copy, Debug, PartialEq, Eq)]
pub struct Sums {
    pub requests: u64,
    pub executed: u64,
    pub rejected: u64,
    pub cancelled: u64,
    /// The sum of width times how long it ran, of each that was given its seats.
    pub seat_time: u128,
    /// The sum of their waits, of those that gave up too.
    pub waited: u128,
    /// The longest wait of those that were executed, or 0.
    pub longest: u64,
    /// When the last of them was over, or 0.
    pub last: u64,
}

/// How long a request waited, until it was given its seats or was over.
pub(crate) fn wait(ended: &Ended) -> u64
    requires { IsInReach ended.now }
    ensures is { result ≡ wait_of ended.now }
    ensures low { result ≤ max_wait }
{
    ended.wait()
}

// Its width times how long it ran, if it was given its seats.
fn seat_time(ended: &Ended) -> u64
    requires { IsInReach ended.now }
    ensures is { result ≡ seat_time_of ended.now }
    ensures low { result ≤ 2 ^ 48 }
{
    let asked = &ended.hold.asked;
    match ended.since {
        Some(_) => u64::from(asked.width) * asked.times.runs_for,
        None => 0,
    }
}

// The wait of a request that was executed, or 0.
fn long(decision: Decision, wait: u64) -> u64
    ensures { result ≡ long_of decision wait }
{
    match decision {
        Decision::Execute => wait,
        _ => 0,
    }
}

impl Sums {
    /// Of no requests.
    pub const NONE: Sums = Sums {
        requests: 0,
        executed: 0,
        rejected: 0,
        cancelled: 0,
        seat_time: 0,
        waited: 0,
        longest: 0,
        last: 0,
    };

    // With one more that was decided so.
    fn decided(self, decision: Decision) -> Sums
        requires bounded { AreBounded self }
        requires room { self.requests < 2 ^ 64 - 1 }
        ensures { result ≡ record self { requests = self.requests + 1; executed = self.executed + executes decision; rejected = self.rejected + rejects decision; cancelled = self.cancelled + cancels decision } }
    {
        let more = Sums {
            requests: self.requests + 1,
            ..self
        };
        match decision {
            Decision::Execute => Sums {
                executed: self.executed + 1,
                ..more
            },
            Decision::Cancelled => Sums {
                cancelled: self.cancelled + 1,
                ..more
            },
            Decision::QueueFull | Decision::Closed | Decision::ConcurrencyLimit => Sums {
                rejected: self.rejected + 1,
                ..more
            },
        }
    }

    /// With one request more.
    pub(crate) fn with(self, ended: &Ended) -> Sums
        requires reach { IsInReach ended.now }
        requires bounded { AreBounded self }
        requires room { self.requests < 2 ^ 64 - 1 }
        ensures is { result ≡ with_one ended.now self }
        ensures bounded { AreBounded result }
    {
        let wait = wait(ended);
        let long = long(ended.decision, wait);
        let counted = self.decided(ended.decision);
        Sums {
            seat_time: counted.seat_time + u128::from(seat_time(ended)),
            waited: counted.waited + u128::from(wait),
            longest: counted.longest.max(long),
            last: counted.last.max(ended.over_at),
            ..counted
        }
    }
}
