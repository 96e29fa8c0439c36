//! The instants, waits and runs that an event says.

ghost use Rattle.std.specs.Prelude.{◌≡◌, ◌≤◌, IfSome};
ghost use Rattle.apf_times.specs.Limits.{max_run};
ghost use Rattle.apf_audit.specs.Times as spec;

use apf_times::MOST_RUNS_FOR;
use jiff::Timestamp;
use jiff::fmt::friendly;

// In nanoseconds: 10,000 seconds.
const MAX_WAIT: u64 = 10_000_000_000_000;

// The number, where it is not below 0.
fn natural(value: i64) -> Option<u64>
    ensures { result ≡ spec.natural value }
{
    u64::try_from(value).ok()
}

/// The whole microseconds from 1970 on of the instant that a text says, as RFC 3339 and RFC 9557 have instants. `None` for
/// another text, and for an instant before 1970.
#[tactic(auto, unfolding(crate::specs::Times::instant_of))]
pub fn read_instant(text: &str) -> Option<u64>
    ensures { result ≡ spec.instant_of text.now }
{
    match text.parse::<Timestamp>() {
        Ok(at) => natural(at.as_microsecond()),
        Err(_) => None,
    }
}

/// The whole microseconds of the duration that a text says.
#[tactic(auto, unfolding(crate::specs::Times::wait_of))]
pub(crate) fn wait_of(text: &str) -> Option<u64>
    ensures { result ≡ spec.wait_of text.now }
{
    let Ok(nanos) = friendly::parse_duration(text.as_bytes()) else {
        return None;
    };
    match u64::try_from(nanos) {
        Ok(wait) if wait <= MAX_WAIT => Some(wait / 1000),
        _ => None,
    }
}

/// The time from `received` to `completed` without the wait, where it is one that a trace can have.
pub(crate) fn run_of(received: u64, completed: u64, wait: u64) -> Option<u64>
    ensures value { result ≡ spec.run_of received completed wait }
    ensures within { IfSome result (λ run. run ≤ max_run) }
{
    let run = completed.checked_sub(received)?.checked_sub(wait)?;
    if run > MOST_RUNS_FOR {
        return None;
    }
    Some(run)
}
